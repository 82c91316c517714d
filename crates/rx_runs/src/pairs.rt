ghost use Rattle.std.specs.Prelude.{◌≡◌, ◌<◌, ◌+◌, ◌++◌, [], length, reverse, slice_get, Some, IfOk, IfErr, option_map};
ghost use Rattle.std.specs.Iterator.{at_most};
ghost use Rattle.std.specs.Map.Iter.{TakesFirst, deref_pair};
ghost use Rattle.rx_runs.specs.Run.{flat};

use crate::chunk::Chunk;
use crate::name::Name;
use std::marker::Model;

/// Pairs of a run, by rising name, lent.
#[derive(Drop)]
pub struct Pairs<'a, V> {
    // Those left of one chunk, the whole chunks after it, and those of the last one.
    pairs: &'a [(Name, V)],
    chunks: &'a [(Name, Chunk<V>)],
    last: &'a [(Name, V)],
}

impl<'a, V> Model for Pairs<'a, V> {
    ghost use Rattle.std.specs.Prelude.{List, ℕ, ◌++◌};
    ghost use Rattle.rx_runs.specs.Run.{flat};

    ghost Value = { List (List ℕ × V) };

    ghost view = { λ p. p.pairs.now ++ flat p.chunks.now ++ p.last.now };
}

impl<'a, V> Pairs<'a, V> {
    pub(crate) fn new(
        pairs: &'a [(Name, V)],
        chunks: &'a [(Name, Chunk<V>)],
        last: &'a [(Name, V)],
    ) -> Pairs<'a, V>
        ensures { result ≡ pairs.entry.now ++ flat chunks.entry.now ++ last.entry.now }
    {
        Pairs {
            pairs,
            chunks,
            last,
        }
    }

    /// No pairs.
    pub fn none() -> Pairs<'a, V>
        ensures { result ≡ [] }
    {
        Pairs::new(&[], &[], &[])
    }

    /// How many pairs there are.
    pub fn len(&self) -> usize
        requires { length self.now < 18446744073709551616 }
        ensures { result ≡ length self.now }
    {
        self.pairs.len() + count(self.chunks) + self.last.len()
    }

    /// The pair that stands behind so many others. Of chunks before it none but their lengths are
    /// read.
    pub fn at(&self, i: usize) -> Option<(&'a Name, &'a V)>
        ensures { option_map deref_pair result ≡ slice_get self.now i }
    {
        if i < self.pairs.len() {
            return Some(lent(&self.pairs[i]));
        }
        match pair_in(self.chunks, i - self.pairs.len()) {
            Ok(pair) => Some(lent(pair)),
            Err(left) => Some(lent(self.last.get(left)?)),
        }
    }

    /// The pair that stands before so many others, by the lengths of chunks behind it.
    pub fn at_back(&self, i: usize) -> Option<(&'a Name, &'a V)>
        ensures { option_map deref_pair result ≡ slice_get (reverse self.now) i }
    {
        if i < self.last.len() {
            return Some(lent(&self.last[self.last.len() - 1 - i]));
        }
        match pair_back_in(self.chunks, i - self.last.len()) {
            Ok(pair) => Some(lent(pair)),
            Err(left) if left < self.pairs.len() => {
                Some(lent(&self.pairs[self.pairs.len() - 1 - left]))
            }
            Err(_) => None,
        }
    }
}

fn lent<V>(pair: &(Name, V)) -> (&Name, &V)
    ensures { deref_pair result ≡ pair.now }
{
    (&pair.0, &pair.1)
}

// The pair of chunks that stands behind so many others, or, as an `Err`, how many are left of those
// behind all pairs.
fn pair_in<V>(chunks: &[(Name, Chunk<V>)], i: usize) -> Result<&(Name, V), usize>
    ensures found { IfOk result (λ pair. slice_get (flat chunks.now) i ≡ Some pair.now) }
    ensures past { IfErr result (λ left. i ≡ length (flat chunks.now) + left) }
{
    let mut left = i;
    for chunk in chunks {
        let pairs = chunk.1.pairs();
        if left < pairs.len() {
            return Ok(&pairs[left]);
        }
        left -= pairs.len();
    }
    Err(left)
}

// The same from the end.
fn pair_back_in<V>(chunks: &[(Name, Chunk<V>)], i: usize) -> Result<&(Name, V), usize>
    ensures found { IfOk result (λ pair. slice_get (reverse (flat chunks.now)) i ≡ Some pair.now) }
    ensures past { IfErr result (λ left. i ≡ length (flat chunks.now) + left) }
{
    let mut left = i;
    let mut end = chunks.len();
    'chunks: while end > 0 {
        let pairs = chunks[end - 1].1.pairs();
        if left < pairs.len() {
            return Ok(&pairs[pairs.len() - 1 - left]);
        }
        left -= pairs.len();
        end -= 1;
    }
    Err(left)
}

// How many pairs chunks have.
fn count<V>(chunks: &[(Name, Chunk<V>)]) -> usize
    requires { length (flat chunks.now) < 18446744073709551616 }
    ensures { result ≡ length (flat chunks.now) }
{
    let mut count = 0;
    for chunk in chunks {
        count += chunk.1.len();
    }
    count
}

// Where the next pair is: the first chunk that has one, and the chunks after it.
fn skip<'a, V>(
    mut pairs: &'a [(Name, V)],
    mut chunks: &'a [(Name, Chunk<V>)],
) -> (&'a [(Name, V)], &'a [(Name, Chunk<V>)])
    ensures same { result.0.now ++ flat result.1.now ≡ pairs.entry.now ++ flat chunks.entry.now }
    ensures some { length result.0.now ≡ 0 → length (flat result.1.now) ≡ 0 }
{
    while pairs.is_empty() && !chunks.is_empty() {
        pairs = chunks[0].1.pairs();
        chunks = &chunks[1..];
    }
    (pairs, chunks)
}

impl<'a, V> Iterator for Pairs<'a, V> {
    type Item = (&'a Name, &'a V);

    ghost next_gives = { TakesFirst deref_pair };

    ghost remaining = { λ s. at_most (length s) };

    fn next(&mut self) -> Option<(&'a Name, &'a V)> {
        let (mut pairs, chunks) = skip(self.pairs, self.chunks);
        if pairs.is_empty() {
            pairs = self.last;
            self.last = &[];
        }
        self.chunks = chunks;
        if pairs.is_empty() {
            self.pairs = pairs;
            return None;
        }
        self.pairs = &pairs[1..];
        Some((&pairs[0].0, &pairs[0].1))
    }
}
