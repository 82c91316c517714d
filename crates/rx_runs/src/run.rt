ghost use Rattle.std.specs.Prelude.{◌≡◌, ◌<◌, ◌≤◌, ℕ, List, [], length, slice_index_or, slice_set, IfSome, IfOk, IfErr, OnOk, OnErr, option_map};
ghost use Rattle.rx_value.specs.Named.{named, put_in_order, without, AreRising};
ghost use Rattle.rx_runs.specs.Run.{flat, AreChunks, IsIn, from_name, between};

use crate::chunk::{Chunk, below};
use crate::name::Name;
use crate::pairs::Pairs;
use std::alloc::{AllocError, Global};
use std::marker::Model;

// The most pairs that a chunk has.
const MOST: usize = 128;

/// A map from names, in chunks of pairs by rising name.
#[derive(Drop)]
pub struct Run<V> {
    alloc: Global,
    // The chunks, each with a name at its head that parts its names from those before.
    chunks: Vec<(Name, Chunk<V>)>,
    len: usize,
}

impl<V> Model for Run<V> {
    ghost use Rattle.std.specs.Prelude.{◌≡◌, List, ℕ, length};
    ghost use Rattle.rx_runs.specs.Run.{flat, AreChunks};

    ghost Value = { List (List ℕ × V) };

    ghost view = { λ r. flat r.chunks.items };

    ghost invariant = { λ r. AreChunks r.chunks.items × (r.len ≡ length (flat r.chunks.items)) };
}

// The chunk that a name is in, if it is there, and belongs in.
fn chunk_of<V>(chunks: &[(Name, Chunk<V>)], name: &[u8]) -> usize
    requires some { 0 < length chunks.now }
    requires lawful { AreChunks chunks.now }
    ensures { IsIn chunks.now name.now result }
{
    // Names mostly rise.
    if let Some(last) = chunks.last() {
        if last.0.compare(name).is_le() {
            return chunks.len() - 1;
        }
    }
    chunks.partition_point(|chunk| chunk.0.compare(name).is_le()) - 1
}

// Where a chunk is cut that has no room for a name: behind names that rise, and before ones that
// fall, so that what stays behind is full.
fn cut<V>(chunk: &Chunk<V>, name: &[u8]) -> Option<usize>
    ensures { IfSome result (λ at. (0 < at) × (at < length chunk.now)) }
{
    let len = chunk.len();
    if len < MOST {
        return None;
    }
    let gap = chunk.gap(name)?;
    if gap == len {
        Some(len - 1)
    } else if gap == 0 {
        Some(1)
    } else {
        Some(len / 2)
    }
}

impl<V> Run<V> {
    pub fn new(alloc: Global) -> Run<V>
        ensures { result ≡ [] }
    {
        Run {
            alloc,
            chunks: Vec::new(alloc),
            len: 0,
        }
    }

    /// How many pairs there are.
    pub fn len(&self) -> usize
        ensures count { result ≡ length self.now }
        ensures rising { AreRising self.now }
    {
        self.len
    }

    pub fn get(&self, name: &[u8]) -> Option<&V>
        ensures value { option_map (λ v. v.now) result ≡ named self.now name.now }
        ensures rising { AreRising self.now }
    {
        if self.chunks.is_empty() {
            return None;
        }
        let i = chunk_of(self.chunks.as_slice(), name);
        self.chunks[i].1.get(name)
    }
}

impl<V> Run<V> {
    /// All pairs, by rising name.
    pub fn pairs(&self) -> Pairs<'_, V>
        ensures value { result ≡ self.now }
        ensures rising { AreRising self.now }
    {
        Pairs::new(&[], self.chunks.as_slice(), &[])
    }

    /// The pairs of names that are at least this one, by rising name.
    pub fn from(&self, name: &[u8]) -> Pairs<'_, V>
        ensures value { result ≡ from_name self.now name.now }
        ensures rising { AreRising self.now }
    {
        if self.chunks.is_empty() {
            return Pairs::new(&[], &[], &[]);
        }
        let i = chunk_of(self.chunks.as_slice(), name);
        let (_, after) = self.chunks.as_slice().split_at(i + 1);
        Pairs::new(self.chunks[i].1.from(name), after, &[])
    }

    /// The pairs of names that are at least `low` and below `high`, by rising name.
    pub fn between(&self, low: &[u8], high: &[u8]) -> Pairs<'_, V>
        ensures value { result ≡ between self.now low.now high.now }
        ensures rising { AreRising self.now }
    {
        if self.chunks.is_empty() {
            return Pairs::new(&[], &[], &[]);
        }
        let i = chunk_of(self.chunks.as_slice(), low);
        let j = chunk_of(self.chunks.as_slice(), high);
        let first = self.chunks[i].1.from(low);
        if j <= i {
            return Pairs::new(below(first, high), &[], &[]);
        }
        let (_, after) = self.chunks.as_slice().split_at(i + 1);
        let (whole, _) = after.split_at(j - i - 1);
        Pairs::new(first, whole, below(self.chunks[j].1.pairs(), high))
    }

    /// For tests: how many pairs there are of names that are at least `low` and below `high`.
    pub fn count_between(&self, low: &[u8], high: &[u8]) -> usize
        ensures { result ≡ length (between self.now low.now high.now) }
    {
        if self.len() == 0 {
            return 0;
        }
        self.between(low, high).len()
    }
}

// Puts a pair into a chunk.
fn put_at<V: Drop>(
    chunks: &mut Vec<(Name, Chunk<V>)>,
    i: usize,
    name: Name,
    value: V,
) -> Result<Option<V>, V>
    requires { i < length chunks.old.items }
    ensures old { IfOk result (λ old. (d : List ℕ × List (List ℕ × V))
        → old ≡ named (slice_index_or chunks.old.items i d).1 name) }
    ensures ok { OnOk result ((d : List ℕ × List (List ℕ × V))
        → chunks.new.items ≡ slice_set chunks.old.items i (
          (slice_index_or chunks.old.items i d).0,
          put_in_order (slice_index_or chunks.old.items i d).1 name value,
        )) }
    ensures refused { IfErr result (λ v. v ≡ value) }
    ensures err { OnErr result (chunks.new.items ≡ chunks.old.items) }
{
    chunks[i].1.put(name, value)
}

// Takes a pair out of a chunk.
fn remove_at<V: Drop>(chunks: &mut Vec<(Name, Chunk<V>)>, i: usize, name: &[u8]) -> Option<V>
    requires { i < length chunks.old.items }
    ensures old { (d : List ℕ × List (List ℕ × V))
        → result ≡ named (slice_index_or chunks.old.items i d).1 name.now }
    ensures others { (d : List ℕ × List (List ℕ × V))
        → chunks.new.items ≡ slice_set chunks.old.items i (
          (slice_index_or chunks.old.items i d).0,
          without (slice_index_or chunks.old.items i d).1 name.now,
        ) }
{
    chunks[i].1.remove(name)
}

// Drops a chunk that has no pair, unless it is the first one.
fn drop_empty<V: Drop>(chunks: &mut Vec<(Name, Chunk<V>)>, i: usize)
    requires lawful { AreChunks chunks.old.items }
    requires within { i < length chunks.old.items }
    ensures lawful { AreChunks chunks.new.items }
    ensures same { flat chunks.new.items ≡ flat chunks.old.items }
{
    if i == 0 {
        return;
    }
    if chunks[i].1.len() > 0 {
        return;
    }
    let _gone = chunks.remove(i);
}

// Makes two chunks of one.
fn split<V: Drop>(
    chunks: &mut Vec<(Name, Chunk<V>)>,
    alloc: Global,
    i: usize,
    at: usize,
) -> Result<(), AllocError>
    requires lawful { AreChunks chunks.old.items }
    requires within { i < length chunks.old.items }
    requires inside { (d : List ℕ × List (List ℕ × V))
        → (0 < at) × (at < length (slice_index_or chunks.old.items i d).1) }
    ensures lawful { AreChunks chunks.new.items }
    ensures same { flat chunks.new.items ≡ flat chunks.old.items }
    ensures some { 0 < length chunks.new.items }
{
    let head = chunks[i].1.name(at).copy()?;
    chunks.reserve(1)?;
    let back = chunks[i].1.split(at)?;
    match chunks.insert(i + 1, (head, back)) {
        Ok(()) => Ok(()),
        Err(_) => unreachable!("room was reserved"),
    }
}

// Makes room for a pair of a name, and says in which chunk.
fn make_room<V: Drop>(
    chunks: &mut Vec<(Name, Chunk<V>)>,
    alloc: Global,
    name: &[u8],
) -> Result<usize, AllocError>
    requires { AreChunks chunks.old.items }
    ensures lawful { AreChunks chunks.new.items }
    ensures same { flat chunks.new.items ≡ flat chunks.old.items }
    ensures place { IfOk result (IsIn chunks.new.items name.now) }
{
    if chunks.is_empty() {
        chunks.push((Name::new(alloc, &[])?, Chunk::new(alloc)))?;
        return Ok(0);
    }
    let i = chunk_of(chunks.as_slice(), name);
    let Some(at) = cut(&chunks[i].1, name) else {
        return Ok(i);
    };
    split(chunks, alloc, i, at)?;
    Ok(chunk_of(chunks.as_slice(), name))
}

impl<V: Drop> Run<V> {
    /// Gives the name that value, and the one in whose place it comes. The value comes back where
    /// there is no memory.
    pub fn put(&mut self, name: Name, value: V) -> Result<Option<V>, V>
        ensures old { IfOk result (λ old. old ≡ named self.old name) }
        ensures ok { OnOk result (self.new ≡ put_in_order self.old name value) }
        ensures refused { IfErr result (λ v. v ≡ value) }
        ensures err { OnErr result (self.new ≡ self.old) }
    {
        let Some(more) = self.len.checked_add(1) else {
            return Err(value);
        };
        let Ok(i) = make_room(&mut self.chunks, self.alloc, name.as_bytes()) else {
            return Err(value);
        };
        let old = put_at(&mut self.chunks, i, name, value)?;
        if old.is_none() {
            self.len = more;
        }
        Ok(old)
    }

    /// Takes the pair of a name out, and gives its value.
    pub fn remove(&mut self, name: &[u8]) -> Option<V>
        ensures old { result ≡ named self.old name.now }
        ensures others { self.new ≡ without self.old name.now }
        ensures rising { AreRising self.old }
    {
        if self.chunks.is_empty() {
            return None;
        }
        let i = chunk_of(self.chunks.as_slice(), name);
        let old = remove_at(&mut self.chunks, i, name);
        drop_empty(&mut self.chunks, i);
        if old.is_some() {
            self.len -= 1;
        }
        old
    }
}
