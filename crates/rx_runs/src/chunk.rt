ghost use Rattle.std.specs.Prelude.{◌≡◌, ◌<◌, ◌≤◌, [], ◌∷◌, length, take, drop, slice_get, Some, IfSome, IfOk, IfErr, OnOk, OnErr, option_map};
ghost use Rattle.std.specs.List.{insert};
ghost use Rattle.rx_value.specs.Named.{named, put_in_order, without, AreRising};
ghost use Rattle.rx_value.specs.Place.{StandsAt, BelongsAt};
ghost use Rattle.rx_runs.specs.Run.{from_name, below_name};

use crate::name::Name;
use std::alloc::{AllocError, Global};
use std::marker::Model;
use std::mem;

// How much room a chunk takes at a time.
const STEP: usize = 32;

/// Pairs of a name and a value, by rising name.
#[derive(Drop)]
pub struct Chunk<V> {
    pairs: Vec<(Name, V)>,
}

impl<V> Model for Chunk<V> {
    ghost use Rattle.std.specs.Prelude.{List, ℕ};
    ghost use Rattle.rx_value.specs.Named.{AreRising};

    ghost Value = { List (List ℕ × V) };

    ghost view = { λ c. c.pairs.items };

    ghost invariant = { λ c. AreRising c.pairs.items };
}

// Where a name stands among pairs of rising names, or, as an `Err`, where it belongs.
fn place<V>(pairs: &[(Name, V)], name: &[u8]) -> Result<usize, usize>
    requires { AreRising pairs.now }
    ensures found { IfOk result (StandsAt pairs.now name.now) }
    ensures absent { IfErr result (BelongsAt pairs.now name.now) }
{
    // Names mostly rise.
    if let Some(last) = pairs.last() {
        if last.0.compare(name).is_lt() {
            return Err(pairs.len());
        }
    }
    pairs.binary_search_by(|pair| pair.0.compare(name))
}

// Those of pairs whose names are below that one.
pub(crate) fn below<'a, V>(pairs: &'a [(Name, V)], name: &[u8]) -> &'a [(Name, V)]
    requires { AreRising pairs.now }
    ensures { result.now ≡ below_name pairs.entry.now name.entry.now }
{
    let at = pairs.partition_point(|pair| pair.0.compare(name).is_lt());
    pairs.split_at(at).0
}

impl<V> Chunk<V> {
    pub fn new(alloc: Global) -> Chunk<V>
        ensures { result ≡ [] }
    {
        Chunk {
            pairs: Vec::new(alloc),
        }
    }

    pub fn len(&self) -> usize
        ensures { result ≡ length self.now }
    {
        self.pairs.len()
    }

    pub fn get(&self, name: &[u8]) -> Option<&V>
        ensures { option_map (λ v. v.now) result ≡ named self.now name.now }
    {
        match place(self.pairs.as_slice(), name) {
            Ok(i) => Some(&self.pairs[i].1),
            Err(_) => None,
        }
    }

    pub fn pairs(&self) -> &[(Name, V)]
        ensures value { result.now ≡ self.now }
        ensures rising { AreRising result.now }
    {
        self.pairs.as_slice()
    }

    /// The pairs of names that are at least this one.
    pub fn from(&self, name: &[u8]) -> &[(Name, V)]
        ensures value { result.now ≡ from_name self.now name.now }
        ensures rising { AreRising result.now }
    {
        let at = self
            .pairs
            .as_slice()
            .partition_point(|pair| pair.0.compare(name).is_lt());
        self.pairs.as_slice().split_at(at).1
    }

    /// Where a name belongs that isn't there.
    pub fn gap(&self, name: &[u8]) -> Option<usize>
        ensures { IfSome result (λ i. i ≤ length self.now) }
    {
        place(self.pairs.as_slice(), name).err()
    }

    pub fn name(&self, i: usize) -> &Name
        requires { i < length self.now }
        ensures { option_map (λ e. e.0) (slice_get self.now i) ≡ Some result.now }
    {
        &self.pairs[i].0
    }
}

impl<V: Drop> Chunk<V> {
    /// One pair alone. The value comes back where there is no memory.
    pub fn one(alloc: Global, name: Name, value: V) -> Result<Chunk<V>, V>
        ensures ok { IfOk result (λ c. c ≡ (name, value) ∷ []) }
        ensures refused { IfErr result (λ v. v ≡ value) }
    {
        let mut pairs = Vec::new(alloc);
        match pairs.push((name, value)) {
            Ok(()) => Ok(Chunk { pairs }),
            Err(refused) => {
                let (_, value) = refused.value;
                Err(value)
            }
        }
    }

    /// Gives the name that value, and the one in whose place it comes. The value comes back where
    /// there is no memory.
    pub fn put(&mut self, name: Name, value: V) -> Result<Option<V>, V>
        ensures old { IfOk result (λ old. old ≡ named self.old name) }
        ensures ok { OnOk result (self.new ≡ put_in_order self.old name value) }
        ensures refused { IfErr result (λ v. v ≡ value) }
        ensures err { OnErr result (self.new ≡ self.old) }
    {
        match place(self.pairs.as_slice(), name.as_bytes()) {
            Ok(i) => Ok(Some(mem::replace(&mut self.pairs[i].1, value))),
            Err(i) => {
                add(&mut self.pairs, i, name, value)?;
                Ok(None)
            }
        }
    }

    /// Takes the pair of a name out, and gives its value.
    pub fn remove(&mut self, name: &[u8]) -> Option<V>
        ensures old { result ≡ named self.old name.now }
        ensures others { self.new ≡ without self.old name.now }
    {
        match place(self.pairs.as_slice(), name) {
            Ok(i) => {
                let (_, value) = self.pairs.remove(i);
                Some(value)
            }
            Err(_) => None,
        }
    }

    /// Takes the pairs from there on.
    pub fn split(&mut self, at: usize) -> Result<Chunk<V>, AllocError>
        requires { at ≤ length self.old }
        ensures front { OnOk result (self.new ≡ take at self.old) }
        ensures back { IfOk result (λ c. c ≡ drop at self.old) }
        ensures err { OnErr result (self.new ≡ self.old) }
    {
        let pairs = self.pairs.split_off(at)?;
        self.pairs.shrink_to_fit();
        Ok(Chunk { pairs })
    }
}

// Adds a pair at that index. The value comes back where there is no memory.
fn add<V: Drop>(pairs: &mut Vec<(Name, V)>, i: usize, name: Name, value: V) -> Result<(), V>
    requires { i ≤ length pairs.old.items }
    ensures ok { OnOk result (pairs.new.items ≡ insert pairs.old.items i (name, value)) }
    ensures refused { IfErr result (λ v. v ≡ value) }
    ensures err { OnErr result (pairs.new.items ≡ pairs.old.items) }
{
    // By small steps, so that a chunk that grows no more holds little that it doesn't use.
    if pairs.len() == pairs.capacity() && pairs.reserve_exact(STEP).is_err() {
        return Err(value);
    }
    match pairs.insert(i, (name, value)) {
        Ok(()) => Ok(()),
        Err(refused) => {
            let (_, value) = refused.value;
            Err(value)
        }
    }
}
