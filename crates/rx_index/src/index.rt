ghost use Rattle.std.specs.Prelude.{◌≡◌, ◌<◌, ◌^◌, [], true, false, length, IfOk, OnOk, OnErr, option_map, if◌then◌else◌};
ghost use Rattle.std.specs.List.Sorted.{IsStrictlySortedBy};
ghost use Rattle.std.specs.Ordering.{is_eq};
ghost use Rattle.rx_value.specs.Named.{named, put_in_order};
ghost use Rattle.rx_value.specs.Order.{order_of};
ghost use Rattle.rx_document.specs.Documents.{Documents};
ghost use Rattle.rx_index.specs.Index.{has_key, has_same_fields, has_same_key, Holds, Replaces, ids_between};
ghost use Rattle.rx_index.specs.Packed.{IsKey, IsKeyOf, unpacked};
ghost use Rattle.rx_index.specs.Position.{Position, position_cmp};

use crate::bound::Bound;
use crate::packed::{ROOM, put_flag, put_text, put_value};
use crate::range::Range;
use rx_document::Stored;
use rx_runs::{Name, Run};
use rx_value::{Fields, RxText, order};
use std::alloc::{AllocError, Global};
use std::marker::Model;

// More keys than any memory holds.
const MOST: usize = 9_223_372_036_854_775_807;

/// The keys of documents in order: the deletion mark, some fields, the primary key. With each is a
/// slot, which says where its document may be.
#[derive(Drop)]
pub struct Index {
    alloc: Global,
    fields: Vec<RxText>,
    keys: Run<u32>,
}

impl Model for Index {
    ghost use Rattle.std.specs.Prelude.{◌<◌, ◌^◌, length};
    ghost use Rattle.rx_index.specs.Index.{Indexed, indexed_by};
    ghost use Rattle.rx_index.specs.Packed.{AreKeys, positions};

    ghost Value = { Indexed };

    ghost view = { λ i. indexed_by i.fields.items (positions i.keys) };

    ghost invariant = { λ i. AreKeys i.keys × (length i.keys < 2 ^ 63) };
}

impl Index {
    pub fn new(alloc: Global, fields: &[RxText]) -> Result<Index, AllocError>
        ensures { IfOk result (λ i. i ≡ record { fields = fields.now; keys = [] }) }
    {
        let mut names = Vec::with_capacity(alloc, fields.len())?;
        for field in fields {
            names.push(field.copy(alloc)?)?;
        }
        Ok(Index {
            alloc,
            fields: names,
            keys: Run::new(alloc),
        })
    }

    pub fn fields(&self) -> &[RxText]
        ensures { result.now ≡ self.now.fields }
    {
        self.fields.as_slice()
    }

    /// Puts a document, which lies in that slot, in the place of the one with its key.
    pub fn put(&mut self, old: Option<&Stored>, new: &Stored, slot: u32) -> Result<(), AllocError>
        requires { (documents : Documents)
            × Replaces self.old documents (option_map (λ d. d.now) old) new.now }
        ensures ok { OnOk result ((documents : Documents)
            → Replaces self.old documents (option_map (λ d. d.now) old.entry) new.now
            → Holds self.new (put_in_order documents new.now.state.key new.now)) }
        ensures fields { self.new.fields ≡ self.old.fields }
        ensures err { OnErr result (self.new ≡ self.old) }
    {
        let Some(old) = old else {
            let key = self.key(new)?;
            return self.add(key, slot);
        };
        if self.has_same_key(old, new) {
            return Ok(());
        }
        // Both keys are made first, so that nothing is refused once the new one is in.
        let gone = self.key(old)?;
        let key = self.key(new)?;
        self.add(key, slot)?;
        self.take_out(&gone);
        Ok(())
    }

    /// The primary keys of the keys between two bounds, in the keys' order. There are none where
    /// `low` stands after `high`.
    pub fn range(&self, low: &Bound, high: &Bound) -> Range<'_>
        ensures ids { result ≡ ids_between low.now high.now self.now.keys }
        ensures rising { IsStrictlySortedBy position_cmp self.now.keys }
        ensures fits { length result < 2 ^ 63 }
    {
        let between = self
            .keys
            .between(low.name().as_bytes(), high.name().as_bytes());
        Range::new(between)
    }

    fn has_same_key(&self, old: &Stored, new: &Stored) -> bool
        ensures { result ≡ has_same_key self.now.fields old.now new.now }
    {
        old.state.deleted == new.state.deleted
            && has_same_fields(self.fields.as_slice(), &old.state.fields, &new.state.fields)
    }

    // The name of a document's key.
    pub(crate) fn key(&self, document: &Stored) -> Result<Name, AllocError>
        ensures { IfOk result (IsKeyOf self.now.fields document.now) }
    {
        let mut bytes = Vec::with_capacity(self.alloc, ROOM)?;
        put_flag(&mut bytes, document.state.deleted)?;
        for field in &self.fields {
            put_value(&mut bytes, document.state.fields.get(field.as_str()))?;
        }
        put_text(&mut bytes, document.state.key.as_str())?;
        Ok(Name::new(self.alloc, bytes.as_slice())?)
    }

    pub(crate) fn add(&mut self, key: Name, slot: u32) -> Result<(), AllocError>
        requires { IsKey key }
        ensures ok { OnOk result ((k : Position) → has_key self.new.keys k
            ≡ (if is_eq (position_cmp (unpacked key) k) then true else has_key self.old.keys k)) }
        ensures fields { self.new.fields ≡ self.old.fields }
        ensures err { OnErr result (self.new ≡ self.old) }
    {
        if self.keys.len() + 1 >= MOST {
            return Err(AllocError);
        }
        match self.keys.put(key, slot) {
            Ok(_) => Ok(()),
            Err(_) => Err(AllocError),
        }
    }

    fn take_out(&mut self, key: &Name)
        requires { IsKey key.now }
        ensures keys { (k : Position) → has_key self.new.keys k
            ≡ (if is_eq (position_cmp (unpacked key.now) k) then false
            else has_key self.old.keys k) }
        ensures fields { self.new.fields ≡ self.old.fields }
    {
        self.keys.remove(key.as_bytes());
    }
}

fn is_same(name: &str, these: &Fields, those: &Fields) -> bool
    ensures { result ≡ is_eq (order_of (named these.now name.now) (named those.now name.now)) }
{
    order(these.get(name), those.get(name)).is_eq()
}

// Whether both have the same at each of the names.
fn has_same_fields(names: &[RxText], these: &Fields, those: &Fields) -> bool
    ensures { result ≡ has_same_fields names.now these.now those.now }
{
    names
        .iter()
        .all(|name| is_same(name.as_str(), these, those))
}
