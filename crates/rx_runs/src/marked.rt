// Names on two sides.
ghost use Rattle.std.specs.Prelude.{◌≡◌, [], true, false, Some, None, length, OnOk, OnErr};
ghost use Rattle.std.specs.Iterator.{at_most};
ghost use Rattle.std.specs.Map.Iter.{TakesFirst, deref_pair};
ghost use Rattle.rx_value.specs.Named.{named, put_in_order, AreRising};
ghost use Rattle.rx_runs.specs.Marked.{sides, all_slots, with_mark, AreSides, IsSide, NoneTwice, GoesFirst};

use crate::name::Name;
use crate::pairs::Pairs;
use crate::run::Run;
use std::alloc::{AllocError, Global};
use std::marker::Model;

// More names than any memory holds.
const MOST: usize = 4_611_686_018_427_387_903;

/// Slots by name, in two runs: of the names that have a mark, and of the others.
#[derive(Drop)]
pub struct MarkedRun {
    alloc: Global,
    plain: Run<u32>,
    marked: Run<u32>,
}

impl Model for MarkedRun {
    ghost use Rattle.rx_runs.specs.Marked.{Marked, sides, AreSides};

    ghost Value = { Marked };

    ghost view = { λ r. sides r.plain r.marked };

    ghost invariant = { λ r. AreSides (sides r.plain r.marked) };
}

impl MarkedRun {
    pub fn new(alloc: Global) -> MarkedRun
        ensures { result ≡ sides [] [] }
    {
        MarkedRun {
            alloc,
            plain: Run::new(alloc),
            marked: Run::new(alloc),
        }
    }

    /// The names that don't have the mark.
    pub fn plain(&self) -> &Run<u32>
        ensures side { result.now ≡ self.now.plain }
        ensures lawful { AreSides self.now }
    {
        &self.plain
    }

    /// Those that have it.
    pub fn marked(&self) -> &Run<u32>
        ensures { result.now ≡ self.now.marked }
    {
        &self.marked
    }

    /// The slot of a name.
    pub fn get(&self, name: &[u8]) -> Option<u32>
        ensures { result ≡ named (all_slots self.now) name.now }
    {
        match self.plain.get(name) {
            Some(slot) => Some(*slot),
            None => self.marked.get(name).copied(),
        }
    }

    /// All names with their slots, by rising name.
    pub fn pairs(&self) -> AllSlots<'_>
        ensures { result ≡ all_slots self.now }
    {
        AllSlots {
            plain: self.plain.pairs(),
            marked: self.marked.pairs(),
        }
    }

    /// Puts a new name.
    pub fn add(&mut self, name: &str, slot: u32, mark: bool) -> Result<(), AllocError>
        requires { named (all_slots self.old) name.now ≡ None }
        ensures ok { OnOk result (self.new ≡ with_mark self.old name.now slot mark) }
        ensures all { OnOk result
            (all_slots self.new ≡ put_in_order (all_slots self.old) name.now slot) }
        ensures lawful { AreSides self.old }
        ensures err { OnErr result (self.new ≡ self.old) }
    {
        if mark {
            put(&mut self.marked, self.alloc, name, slot)?;
        } else {
            put(&mut self.plain, self.alloc, name, slot)?;
        }
        Ok(())
    }

    /// Gives a name that is there the mark, or takes it from it.
    pub fn turn(&mut self, name: &str, slot: u32, mark: bool) -> Result<(), AllocError>
        requires { named (all_slots self.old) name.now ≡ Some slot }
        ensures ok { OnOk result (self.new ≡ with_mark self.old name.now slot mark) }
        ensures all { OnOk result (all_slots self.new ≡ all_slots self.old) }
        ensures lawful { AreSides self.old }
        ensures err { OnErr result (self.new ≡ self.old) }
    {
        if mark {
            put(&mut self.marked, self.alloc, name, slot)?;
            self.plain.remove(name.as_bytes());
        } else {
            put(&mut self.plain, self.alloc, name, slot)?;
            self.marked.remove(name.as_bytes());
        }
        Ok(())
    }
}

fn put(run: &mut Run<u32>, alloc: Global, name: &str, slot: u32) -> Result<(), AllocError>
    requires { IsSide run.old }
    ensures ok { OnOk result (run.new ≡ put_in_order run.old name.now slot) }
    ensures lawful { OnOk result (IsSide run.new) }
    ensures err { OnErr result (run.new ≡ run.old) }
{
    if run.len() >= MOST {
        return Err(AllocError);
    }
    let name = Name::new(alloc, name.as_bytes())?;
    match run.put(name, slot) {
        Ok(_) => Ok(()),
        Err(_) => Err(AllocError),
    }
}

/// The names of both sides with their slots, by rising name, lent.
#[derive(Drop)]
pub struct AllSlots<'a> {
    plain: Pairs<'a, u32>,
    marked: Pairs<'a, u32>,
}

impl<'a> Model for AllSlots<'a> {
    ghost use Rattle.std.specs.Prelude.{List, ℕ};
    ghost use Rattle.rx_value.specs.Named.{AreRising};
    ghost use Rattle.rx_runs.specs.Marked.{merged, NoneTwice};

    ghost Value = { List (List ℕ × ℕ) };

    ghost view = { λ a. merged a.plain a.marked };

    ghost invariant = { λ a. AreRising a.plain × AreRising a.marked
        × NoneTwice a.plain a.marked };
}

impl<'a> Iterator for AllSlots<'a> {
    type Item = (&'a Name, &'a u32);

    ghost next_gives = { TakesFirst deref_pair };

    ghost remaining = { λ s. at_most (length s) };

    fn next(&mut self) -> Option<(&'a Name, &'a u32)> {
        if is_plain_first(&self.plain, &self.marked) {
            self.plain.next()
        } else {
            self.marked.next()
        }
    }
}

// Whether the names without the mark are the next to be gone on with.
fn is_plain_first(plain: &Pairs<'_, u32>, marked: &Pairs<'_, u32>) -> bool
    requires plain { AreRising plain.now }
    requires marked { AreRising marked.now }
    requires apart { NoneTwice plain.now marked.now }
    ensures yes { result ≡ true → GoesFirst plain.now marked.now }
    ensures no { result ≡ false → GoesFirst marked.now plain.now }
{
    // Few names have the mark, so they are looked at first.
    let Some(marked) = marked.at(0) else {
        return true;
    };
    let Some(plain) = plain.at(0) else {
        return false;
    };
    plain.0.compare(marked.0.as_bytes()).is_lt()
}
