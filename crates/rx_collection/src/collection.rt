ghost use Rattle.std.specs.Prelude.{◌≡◌, length, [], Some, IfSome, OnOk, OnErr, option_map};
ghost use Rattle.rx_value.specs.Named.{named};
ghost use Rattle.rx_collection.specs.Commit.{IsNext, with_row};
ghost use Rattle.rx_collection.specs.Held.{held_with};
ghost use Rattle.rx_collection.specs.Lawful.{IsLawful};
ghost use Rattle.rx_collection.specs.Marks.{AreMarked};
ghost use Rattle.rx_collection.specs.Time.{last_lwt, stamp};

use crate::hints::Hints;
use crate::log::{kept, reserve, slot_of, write};
use rx_document::{Lookup, Stored};
use rx_runs::{MarkedRun, Slots};
use rx_schema::Schema;
use rx_value::RxText;
use std::alloc::{AllocError, Global};
use std::marker::Model;

/// The greatest write time, 2^53 - 1.
pub const MOST_LWT: u64 = 9_007_199_254_740_991;

/// A finite map from keys to documents, tombstones too.
#[derive(Drop)]
pub struct Collection {
    pub(crate) alloc: Global,
    name: RxText,
    pub(crate) schema: Schema,
    // The slot of each key. Those of tombstones have the mark.
    pub(crate) names: MarkedRun,
    // The documents by slot.
    pub(crate) rows: Slots<Stored>,
    hints: Hints,
    // The write time and the slot of each write, in order. Those are stale whose slot was written
    // again.
    pub(crate) log: Vec<(u64, u32)>,
}

impl Model for Collection {
    ghost use Rattle.rx_runs.specs.Marked.{all_slots};
    ghost use Rattle.rx_runs.specs.Rows.{shown};
    ghost use Rattle.rx_collection.specs.Held.{Held, held_with};
    ghost use Rattle.rx_collection.specs.Hints.{AreKnown};
    ghost use Rattle.rx_collection.specs.Log.{IsWhole};
    ghost use Rattle.rx_collection.specs.Marks.{AreMarked};

    ghost Value = { Held };

    ghost view = { λ c. held_with c.name c.schema (shown c.rows (all_slots c.names)) };

    ghost invariant = { λ c. IsWhole c.name c.schema c.rows (all_slots c.names) c.log.items
        × AreKnown c.hints c.rows × AreMarked (shown c.rows (all_slots c.names)) c.names };
}

impl Collection {
    pub fn new(alloc: Global, name: RxText, schema: Schema) -> Collection
        ensures { result ≡ held_with name schema [] }
    {
        Collection {
            alloc,
            name,
            schema,
            names: MarkedRun::new(alloc),
            rows: Slots::new(alloc),
            hints: Hints::new(alloc),
            log: Vec::new(alloc),
        }
    }

    pub fn name(&self) -> &RxText
        ensures { result.now ≡ self.now.name }
    {
        &self.name
    }

    pub fn schema(&self) -> &Schema
        ensures { result.now ≡ self.now.schema }
    {
        &self.schema
    }

    /// How many documents there are, tombstones too.
    pub fn len(&self) -> usize
        ensures count { result ≡ length self.now.documents }
        ensures lawful { IsLawful self.now }
    {
        self.rows.len()
    }

    /// The document of that key, a tombstone too.
    pub fn get(&self, key: &str) -> Option<&Stored>
        ensures value { option_map (λ d. d.now) result ≡ named self.now.documents key.now }
        ensures lawful { IsLawful self.now }
    {
        match slot_of(&self.names, &self.rows, &self.hints, key) {
            Some(slot) => Some(self.rows.at(slot as usize)),
            None => None,
        }
    }

    /// The document in that slot, if there is one. A document keeps its slot for good.
    pub fn at(&self, slot: u32) -> Option<&Stored>
        ensures held { IfSome result (λ d. named self.now.documents d.now.state.key ≡ Some d.now) }
        ensures lawful { IsLawful self.now }
    {
        if slot as usize >= self.rows.len() {
            return None;
        }
        Some(self.rows.at(slot as usize))
    }

    /// The keys with their slots, those of tombstones with the mark: the index by the primary key
    /// alone.
    pub fn keys(&self) -> &MarkedRun
        ensures marks { AreMarked self.now.documents result.now }
        ensures lawful { IsLawful self.now }
    {
        &self.names
    }

    /// The slot of a key's document, or the one that the next new key gets. It is a hint: whoever
    /// keeps it looks at the document that is there.
    pub fn slot_for(&self, key: &str) -> u32 {
        match slot_of(&self.names, &self.rows, &self.hints, key) {
            Some(slot) => slot,
            None => self.free_slot(),
        }
    }

    /// The slot that the next new key gets, as a hint too.
    pub fn free_slot(&self) -> u32 {
        u32::try_from(self.rows.len()).unwrap_or(u32::MAX)
    }

    /// The greatest write time, 0 where there is no document.
    pub fn last_lwt(&self) -> u64
        ensures value { result ≡ last_lwt self.now.documents }
        ensures lawful { IsLawful self.now }
    {
        match self.log.as_slice().last() {
            Some(write) => write.0,
            None => 0,
        }
    }

    /// The next write time: `now`, but above all before it. There is none after `MOST_LWT`, and a
    /// greater `now` counts as `MOST_LWT`.
    pub fn stamp(&self, now: u64) -> Option<u64>
        ensures value { result ≡ stamp self.now.documents now }
        ensures lawful { IsLawful self.now }
    {
        let last = self.last_lwt();
        if last == MOST_LWT {
            return None;
        }
        Some(now.min(MOST_LWT).max(last + 1))
    }

    /// Writes a row in the place of its key's document.
    pub fn put(&mut self, row: Stored) -> Result<(), AllocError>
        requires { IsNext self.old row }
        ensures ok { OnOk result (self.new ≡ with_row self.old row) }
        ensures err { OnErr result (self.new ≡ self.old) }
    {
        // Room first, so that nothing is refused once the row is in.
        reserve(&mut self.log)?;
        let lwt = row.lwt;
        let slot = write(&mut self.names, &mut self.rows, &mut self.hints, row)?;
        self.log.push_reserved((lwt, slot));
        self.compact();
        Ok(())
    }

    // Forgets stale writes.
    fn compact(&mut self)
        ensures { self.new ≡ self.old }
    {
        if let Some(log) = kept(self.alloc, &self.rows, self.log.as_slice()) {
            self.log = log;
        }
    }
}

impl Lookup for Collection {
    ghost documents = { λ c. c.documents };

    fn lookup(&self, id: &str) -> Option<&Stored> {
        self.get(id)
    }

    fn at(&self, slot: u32) -> Option<&Stored> {
        Collection::at(self, slot)
    }
}
