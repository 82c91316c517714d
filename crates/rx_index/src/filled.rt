// An index that is made of many documents at once.
ghost use Rattle.std.specs.Prelude.{◌≡◌, ◌||◌, None, IfOk, OnOk, OnErr};
ghost use Rattle.rx_value.specs.Named.{put_in_order};
ghost use Rattle.rx_document.specs.Documents.{Documents};
ghost use Rattle.rx_index.specs.Index.{has_key, Holds, Replaces};
ghost use Rattle.rx_index.specs.Packed.{AreKeys, positions};
ghost use Rattle.rx_index.specs.Position.{Position};

use crate::index::Index;
use rx_document::Stored;
use rx_runs::Name;
use rx_value::RxText;
use std::alloc::{AllocError, Global};
use std::marker::Model;

/// The keys of documents as they come. An index of them is made by rising key, so that each goes
/// to the end.
#[derive(Drop)]
pub struct Filling {
    // It has no key yet.
    index: Index,
    keys: Vec<(Name, u32)>,
}

impl Model for Filling {
    ghost use Rattle.std.specs.Prelude.{◌≡◌, []};
    ghost use Rattle.rx_index.specs.Index.{Indexed, indexed_by};
    ghost use Rattle.rx_index.specs.Packed.{AreKeys, positions};

    ghost Value = { Indexed };

    ghost view = { λ f. indexed_by f.index.fields (positions f.keys.items) };

    ghost invariant = { λ f. AreKeys f.keys.items × (f.index.keys ≡ []) };
}

impl Filling {
    ghost use Rattle.std.specs.Prelude.{[]};

    /// Begins, with room for so many documents.
    pub fn new(alloc: Global, fields: &[RxText], room: usize) -> Result<Filling, AllocError>
        ensures { IfOk result (λ f. f ≡ record { fields = fields.now; keys = [] }) }
    {
        Ok(Filling {
            index: Index::new(alloc, fields)?,
            keys: Vec::with_capacity(alloc, room)?,
        })
    }

    /// Takes up a document, which lies in that slot, and of whose key there was none.
    pub fn take(&mut self, document: &Stored, slot: u32) -> Result<(), AllocError>
        ensures ok { OnOk result ((documents : Documents)
            → Replaces self.old documents None document.now
            → Holds self.new (put_in_order documents document.now.state.key document.now)) }
        ensures fields { self.new.fields ≡ self.old.fields }
        ensures err { OnErr result (self.new ≡ self.old) }
    {
        let key = self.index.key(document)?;
        self.keys.push((key, slot))?;
        Ok(())
    }

    /// The index of what was taken up.
    pub fn done(self) -> Result<Index, AllocError>
        ensures fields { IfOk result (λ i. i.fields ≡ self.fields) }
        ensures held { IfOk result (λ i. (documents : Documents)
            → Holds self documents → Holds i documents) }
    {
        let Filling {
            mut index,
            mut keys,
        } = self;
        keys.sort_unstable_by(|a, b| a.0.compare(b.0.as_bytes()));
        add_all(&mut index, keys)?;
        Ok(index)
    }
}

fn add_all(index: &mut Index, keys: Vec<(Name, u32)>) -> Result<(), AllocError>
    requires { AreKeys keys.items }
    ensures fields { OnOk result (index.new.fields ≡ index.old.fields) }
    ensures keys { OnOk result ((k : Position) → has_key index.new.keys k
        ≡ (has_key index.old.keys k || has_key (positions keys.items) k)) }
{
    for entry in keys {
        let (key, slot) = entry;
        index.add(key, slot)?;
    }
    Ok(())
}
