ghost use Rattle.std.specs.Prelude.{◌≡◌, ◌↔◌, ◌<◌, ◌++◌, ◌^◌, true, false, length, map, reverse, slice_get, IfOk, OnOk, IsTrue};
ghost use Rattle.std.specs.Iterator.{at_most};
ghost use Rattle.std.specs.List.{AllByRecursion};
ghost use Rattle.std.specs.Map.Iter.{TakesFirst};
ghost use Rattle.std.specs.Str.{is_utf8};
ghost use Rattle.rx_index.specs.ByKey.{IsNameOf};
ghost use Rattle.rx_index.specs.Packed.{AreKeys, ids_in};

use crate::packed::{id_bytes, is_raised, lowered};
use rx_runs::{Name, Pairs};
use rx_value::RxText;
use std::alloc::{AllocError, Global};
use std::marker::Model;

/// A key of an index, seen as the primary key in it, and the slot that it was put with.
#[derive(Drop)]
pub struct Entry<'a> {
    name: &'a Name,
    slot: u32,
    // Whether the name is a key's bytes, or the primary key itself.
    packed: bool,
}

impl<'a> Model for Entry<'a> {
    ghost use Rattle.std.specs.Prelude.{ℕ, List};
    ghost use Rattle.rx_index.specs.ByKey.{IsNameOf, id_in};

    ghost Value = { List ℕ };

    ghost view = { λ e. id_in e.packed e.name.now };

    ghost invariant = { λ e. IsNameOf e.packed e.name.now };
}

impl<'a> Entry<'a> {
    /// Where the document may be. It is a hint and needs no proof: whoever reads what is there asks
    /// `is_of` whether it is the document that is meant.
    pub fn slot(&self) -> u32 {
        self.slot
    }

    /// Whether its document's primary key is that one.
    pub fn is_of(&self, id: &str) -> bool
        ensures { IsTrue result ↔ (self.now ≡ id.now) }
    {
        if self.packed {
            is_raised(id_bytes(self.name.as_bytes()), id.as_bytes())
        } else {
            self.name.compare(id.as_bytes()).is_eq()
        }
    }

    /// The primary key of its document, for when the hint is wrong.
    pub fn id(&self, alloc: Global) -> Result<RxText, AllocError>
        ensures { IfOk result (λ t. t ≡ self.now) }
    {
        let bytes = self.bytes(alloc)?;
        // They are those of a text.
        let text = unsafe { String::from_utf8_unchecked(bytes) };
        Ok(RxText::from_string(alloc, text)?)
    }

    fn bytes(&self, alloc: Global) -> Result<Vec<u8>, AllocError>
        ensures bytes { IfOk result (λ bytes. bytes.items ≡ self.now) }
        ensures text { OnOk result (is_utf8 self.now ≡ true) }
    {
        if self.packed {
            let bytes = lowered(alloc, id_bytes(self.name.as_bytes()))?;
            Ok(bytes)
        } else {
            Vec::from_slice(alloc, self.name.as_bytes())
        }
    }
}

/// The primary keys of documents, in the order of an index, lent.
#[derive(Drop)]
pub struct Range<'a> {
    // The keys of an index, or names of live documents and those of tombstones behind them.
    near: Pairs<'a, u32>,
    far: Pairs<'a, u32>,
    packed: bool,
}

impl<'a> Model for Range<'a> {
    ghost use Rattle.std.specs.Prelude.{ℕ, List, ◌++◌, map};
    ghost use Rattle.std.specs.List.{AllByRecursion};
    ghost use Rattle.rx_index.specs.ByKey.{IsNameOf, id_in};

    ghost Value = { List (List ℕ) };

    ghost view = { λ r. map (λ e. id_in r.packed e.0) (r.near ++ r.far) };

    ghost invariant = { λ r. AllByRecursion (λ e. IsNameOf r.packed e.0) (r.near ++ r.far) };
}

impl<'a> Range<'a> {
    /// The primary keys in keys.
    pub(crate) fn new(keys: Pairs<'a, u32>) -> Range<'a>
        requires { AreKeys keys }
        ensures { result ≡ ids_in keys.entry }
    {
        Range {
            near: keys,
            far: Pairs::none(),
            packed: true,
        }
    }

    /// Names as primary keys.
    pub(crate) fn of_names(near: Pairs<'a, u32>, far: Pairs<'a, u32>) -> Range<'a>
        requires { AllByRecursion (λ e. IsNameOf false e.0) (near ++ far) }
        ensures { result ≡ map (λ e. e.0) (near.entry ++ far.entry) }
    {
        Range {
            near,
            far,
            packed: false,
        }
    }

    /// How many are left. None of them is read.
    pub fn len(self) -> usize
        requires { length self < 2 ^ 63 }
        ensures { result ≡ length self.entry }
    {
        self.near.len() + self.far.len()
    }

    /// The one that stands behind so many others. None of those is read.
    pub fn at(&self, i: usize) -> Option<Entry<'a>>
        ensures { result ≡ slice_get self.now i }
    {
        if let Some((name, slot)) = self.near.at(i) {
            return Some(Entry {
                name,
                slot: *slot,
                packed: self.packed,
            });
        }
        let (name, slot) = self.far.at(i - self.near.len())?;
        Some(Entry {
            name,
            slot: *slot,
            packed: self.packed,
        })
    }

    /// The one that stands before so many others.
    pub fn at_back(&self, i: usize) -> Option<Entry<'a>>
        ensures { result ≡ slice_get (reverse self.now) i }
    {
        if let Some((name, slot)) = self.far.at_back(i) {
            return Some(Entry {
                name,
                slot: *slot,
                packed: self.packed,
            });
        }
        let (name, slot) = self.near.at_back(i - self.far.len())?;
        Some(Entry {
            name,
            slot: *slot,
            packed: self.packed,
        })
    }
}

impl<'a> Iterator for Range<'a> {
    type Item = Entry<'a>;

    ghost next_gives = { TakesFirst (λ id. id) };

    ghost remaining = { λ s. at_most (length s) };

    fn next(&mut self) -> Option<Entry<'a>> {
        let (name, slot) = match self.near.next() {
            Some(pair) => pair,
            None => self.far.next()?,
        };
        Some(Entry {
            name,
            slot: *slot,
            packed: self.packed,
        })
    }
}
