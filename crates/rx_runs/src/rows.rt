ghost use Rattle.std.specs.Prelude.{◌≡◌, length};
ghost use Rattle.std.specs.Iterator.{at_most};
ghost use Rattle.std.specs.Map.Iter.{TakesFirst, deref_pair};
ghost use Rattle.rx_runs.specs.Rows.{shown, AllUnder};

use crate::marked::AllSlots;
use crate::name::Name;
use crate::slots::Slots;
use std::marker::Model;

/// Names with the values of their slots, by rising name, lent.
#[derive(Drop)]
pub struct Rows<'a, V> {
    names: AllSlots<'a>,
    rows: &'a Slots<V>,
    // That of the value that came last.
    slot: u32,
}

impl<'a, V> Model for Rows<'a, V> {
    ghost use Rattle.std.specs.Prelude.{List, ℕ, length};
    ghost use Rattle.rx_runs.specs.Rows.{shown, AllUnder};

    ghost Value = { List (List ℕ × V) };

    ghost view = { λ r. shown r.rows.now r.names };

    ghost invariant = { λ r. AllUnder (length r.rows.now) r.names };
}

impl<'a, V> Rows<'a, V> {
    /// The names with the values of their slots.
    pub fn new(names: AllSlots<'a>, rows: &'a Slots<V>) -> Rows<'a, V>
        requires { AllUnder (length rows.now) names }
        ensures { result ≡ shown rows.entry.now names.entry }
    {
        Rows {
            names,
            rows,
            slot: 0,
        }
    }

    /// The slot of the value that came last, as a hint.
    pub fn slot(&self) -> u32 {
        self.slot
    }
}

impl<'a, V> Iterator for Rows<'a, V> {
    type Item = (&'a Name, &'a V);

    ghost next_gives = { TakesFirst deref_pair };

    ghost remaining = { λ s. at_most (length s) };

    fn next(&mut self) -> Option<(&'a Name, &'a V)> {
        let (name, slot) = self.names.next()?;
        self.slot = *slot;
        Some((name, self.rows.at(*slot as usize)))
    }
}
