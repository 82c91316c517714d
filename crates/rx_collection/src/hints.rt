// Where the slot of a key is, without a search.
ghost use Rattle.std.specs.Prelude.{◌≡◌, ◌≢◌, ◌<◌, ◌≤◌, ◌==◌, ◌+◌, ◌↔◌, ℕ, List, [], length, set, slice_get, true, Some, IfSome, IfNone, IfOk};
ghost use Rattle.std.specs.List.{position};
ghost use Rattle.rx_collection.specs.Log.{HasKey};
ghost use Rattle.rx_collection.specs.Hints.{mixed, key_hash, start_of, walk, words_hash, bytes_number, AreHinted, AreKnown, AreSpread, LeadOn, LeadsTo};

use rx_document::Stored;
use rx_runs::Slots;
use rx_value::is_same;
use std::alloc::{AllocError, Global};

// How many places there are at first.
const FIRST: usize = 64;

// How many places are tried for a key.
const TRIES: usize = 1024;

/// The slots of keys: an open table by a hash of the key. A place has a slot and 1, or 0 where it
/// is free, and the hash of the key of the document there.
///
/// While the table is whole each document has a place, the first that was free of those that are
/// tried for its key. So a key that isn't found before a free place is no document's. A document
/// that finds no place, as where there is no memory to grow, leaves the table without it until it
/// grows: what isn't found is searched for then.
#[derive(Drop)]
pub(crate) struct Hints {
    alloc: Global,
    places: Vec<(u32, u32)>,
    whole: bool,
}

impl Hints {
    pub fn new(alloc: Global) -> Hints
        ensures { AreKnown result [] }
    {
        Hints {
            alloc,
            places: Vec::new(alloc),
            whole: true,
        }
    }

    /// Whether each document has a place.
    pub fn is_whole(&self) -> bool
        ensures { result ≡ self.now.whole }
    {
        self.whole
    }

    /// The slot of a key. Where none is found and the table is whole, no document has the key.
    pub fn find(&self, rows: &Slots<Stored>, key: &str) -> Option<u32>
        ensures some { IfSome result (λ s. HasKey rows.now s key.now) }
        ensures none { IfNone result (AreHinted self.now.places.items rows.now (length rows.now)
            → (s : ℕ) → HasKey rows.now s key.now → ⊥) }
    {
        let hash = hash_of(key.as_bytes());
        for (after, place_hash) in walk(self.places.as_slice(), hash) {
            let slot = after.checked_sub(1)?;
            if *place_hash == hash && has_key(rows, slot, key) {
                return Some(slot);
            }
        }
        None
    }

    /// Takes up the last document. Where it finds no place the table isn't whole.
    pub fn note(&mut self, rows: &Slots<Stored>, slot: u32)
        requires last { length rows.now ≡ slot + 1 }
        requires known { self.old.whole ≡ true → AreHinted self.old.places.items rows.now slot }
        ensures { AreKnown self.new rows.now }
    {
        self.make_room(rows, slot);
        if !self.add(rows, slot) {
            self.whole = false;
        }
    }

    // Twice the places where few are free, if there is memory.
    fn make_room(&mut self, rows: &Slots<Stored>, count: u32)
        requires { count < length rows.now }
        ensures { (self.old.whole ≡ true → AreHinted self.old.places.items rows.now count)
            → self.new.whole ≡ true → AreHinted self.new.places.items rows.now count }
    {
        if rows.len() < self.places.len() / 4 * 3 {
            return;
        }
        if let Ok(hints) = self.doubled(rows, count) {
            *self = hints;
        }
    }

    // The hints of the first documents, in twice the places.
    fn doubled(&self, rows: &Slots<Stored>, count: u32) -> Result<Hints, AllocError>
        requires { count ≤ length rows.now }
        ensures { (self.now.whole ≡ true → AreHinted self.now.places.items rows.now count)
            → IfOk result (λ hints. hints.whole ≡ true
            → AreHinted hints.places.items rows.now count) }
    {
        if self.whole {
            self.spread()
        } else {
            self.gathered(rows, count)
        }
    }

    // Twice the places, all free.
    fn twice(&self) -> Result<Hints, AllocError>
        ensures { IfOk result (λ hints. AreKnown hints []) }
    {
        let count = self.places.len().saturating_mul(2).max(FIRST);
        Ok(Hints {
            alloc: self.alloc,
            places: vec![in self.alloc; (0, 0); count]?,
            whole: true,
        })
    }

    // What stands here, in twice the places. A walk starts there as far on as here, or as far
    // behind the middle, so both tables are gone over as they lie, and no document is looked at.
    fn spread(&self) -> Result<Hints, AllocError>
        ensures { IfOk result (λ hints. hints.whole ≡ true
            → AreSpread self.now.places.items (length self.now.places.items)
            hints.places.items) }
    {
        let mut hints = self.twice()?;
        hints.keep_all(self.places.as_slice());
        Ok(hints)
    }

    // The hints of the first documents by their keys, in twice the places.
    fn gathered(&self, rows: &Slots<Stored>, count: u32) -> Result<Hints, AllocError>
        requires { count ≤ length rows.now }
        ensures { IfOk result (λ hints. hints.whole ≡ true
            → AreHinted hints.places.items rows.now count) }
    {
        let mut hints = self.twice()?;
        for slot in 0..count {
            if !hints.add(rows, slot) {
                hints.whole = false;
            }
        }
        Ok(hints)
    }

    // Takes a document up, if there is a place for it.
    fn add(&mut self, rows: &Slots<Stored>, slot: u32) -> bool
        requires { slot < length rows.now }
        ensures whole { self.new.whole ≡ self.old.whole }
        ensures added { result ≡ true
            → AreHinted self.old.places.items rows.now slot
            → AreHinted self.new.places.items rows.now (slot + 1) }
    {
        let Some(after) = slot.checked_add(1) else {
            return false;
        };
        let hash = hash_of(rows.at(slot as usize).state.key.as_str().as_bytes());
        self.put((after, hash))
    }

    // Keeps what stands in places.
    fn keep_all(&mut self, places: &[(u32, u32)])
        ensures { self.new.whole ≡ true
            → AreSpread places.now (length places.now) self.new.places.items }
    {
        for place in places {
            self.keep(*place);
        }
    }

    // Keeps what stands in a place. Where it finds none the table isn't whole.
    fn keep(&mut self, place: (u32, u32))
        ensures whole { self.new.whole ≡ true → self.old.whole ≡ true }
        ensures kept { LeadOn self.old.places.items self.new.places.items }
        ensures placed { self.new.whole ≡ true → place.0 ≢ 0
            → LeadsTo place (walk self.new.places.items place.1) }
    {
        if place.0 == 0 {
            return;
        }
        if !self.put(place) {
            self.whole = false;
        }
    }

    // Puts a slot and 1 beside its hash, if there is a place for it.
    fn put(&mut self, place: (u32, u32)) -> bool
        requires { place.0 ≢ 0 }
        ensures whole { self.new.whole ≡ self.old.whole }
        ensures kept { LeadOn self.old.places.items self.new.places.items }
        ensures placed { result ≡ true → LeadsTo place (walk self.new.places.items place.1) }
    {
        let Some(free) = free_place(self.places.as_slice(), place.1) else {
            return false;
        };
        self.places[free] = place;
        true
    }
}

// The first place that is free of those that are tried for a hash.
fn free_place(places: &[(u32, u32)], hash: u32) -> Option<usize>
    ensures within { IfSome result (λ i. i < length places.now) }
    ensures free { IfSome result (λ i. (p : ℕ × ℕ) → slice_get places.now i ≡ Some p → p.0 ≡ 0) }
    ensures led { IfSome result (λ i. (p : ℕ × ℕ) → LeadsTo p (walk (set places.now i p) hash)) }
{
    if places.is_empty() {
        return None;
    }
    let tries = first_free(walk(places, hash))?;
    Some(start_of(places.len(), hash) + tries)
}

fn first_free(places: &[(u32, u32)]) -> Option<usize>
    ensures { result ≡ position (λ p. p.0 == 0) places.now }
{
    places.iter().position(|place| place.0 == 0)
}

// The places that are tried for a hash.
fn walk(places: &[(u32, u32)], hash: u32) -> &[(u32, u32)]
    ensures { result.now ≡ walk places.now hash }
{
    if places.is_empty() {
        return places;
    }
    let from = &places[start_of(places.len(), hash)..];
    &from[..TRIES.min(from.len())]
}

// Where they start. No walk starts among the last places, so that it has some to go on to.
fn start_of(count: usize, hash: u32) -> usize
    requires { 0 < count }
    ensures value { result ≡ start_of count hash }
    ensures within { result < count }
{
    hash as usize % (count - count / 16)
}

// Whether there is a document in that slot, and it has that key.
fn has_key(rows: &Slots<Stored>, slot: u32, key: &str) -> bool
    ensures { (result ≡ true) ↔ HasKey rows.now slot key.now }
{
    if slot as usize >= rows.len() {
        return false;
    }
    is_same(rows.at(slot as usize).state.key.as_str(), key)
}

// A few multiplications, over eight bytes at a time.
fn hash_of(key: &[u8]) -> u32
    ensures { result ≡ key_hash key.now }
{
    let (words, rest) = key.as_chunks::<8>();
    let front = words_hash(key.len() as u64, words);
    (mixed(front ^ number(rest)) >> 32) as u32
}

fn words_hash(first: u64, words: &[[u8; 8]]) -> u64
    ensures { result ≡ words_hash first words.now }
{
    let mut hash = first;
    for word in words {
        hash = mixed(hash ^ u64::from_le_bytes(*word));
    }
    hash
}

fn number(bytes: &[u8]) -> u64
    ensures { result ≡ bytes_number 0 bytes.now }
{
    let mut number: u64 = 0;
    for byte in bytes {
        number = number.wrapping_mul(256).wrapping_add(*byte as u64);
    }
    number
}

fn mixed(number: u64) -> u64
    ensures { result ≡ mixed number }
{
    let product = number.wrapping_mul(0x9e37_79b9_7f4a_7c15);
    product ^ (product >> 29)
}
