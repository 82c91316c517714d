// Names on two sides beside a sorted map of the library, and the primary keys between bounds in the
// index that they are.
use crate::positions::position;
use rx_index::{Bound, Entry, IndexView, Indexes, Range};
use rx_runs::MarkedRun;
use std::alloc::{AllocError, Global};
use std::collections::BTreeMap;
use std::test::Fail;

const LIVE: [&str; 4] = ["a", "ab", "b", "é"];

const GONE: [&str; 2] = ["aa", "c"];

// A low bound, a high one, and the primary keys between them: live ones, and then tombstones. The
// words of bounds are those of the positions.
const RANGES: &str = r"
. | > | a ab b é aa c
> | . |
~ | no |
no | no > | a ab b é
no | yes | a ab b é
yes | yes > | aa c
no > | yes |
no ~ | no > | a ab b é
no yes | no #5 |
no #5 | no > | a ab b é
no #5 > | no 'a |
no ' | no 'b | a ab
no 'a | no 'b | a ab
no 'a | no 'b > | a ab b
no 'a > | no 'b > | ab b
no 'a ~ | no 'b ~ | ab b
no 'a 'a | no 'b 'a | ab b
no 'aa | no 'ab |
no 'aa | no 'ab > | ab
no 'c | no > | é
no 'ab | yes 'b | ab b é aa
yes 'aa > | > | c
yes 'a | yes 'b | aa
no 'b | no 'a |
#1 | > |
'a | > |
";

#[test]
fn ranges_of_the_index_by_key(rt: HostRuntime) -> Result<(), Fail> {
    let keys = keys(rt.alloc())?;
    let indexes = Indexes::new(&keys, &[]);
    assert_eq!(rt; compare_all(rt.alloc(), &indexes.at(0))?, 26);
    Ok(())
}

fn keys(alloc: Global) -> Result<MarkedRun, AllocError> {
    let mut keys = MarkedRun::new(alloc);
    for name in LIVE {
        put(&mut keys, name, 0, false)?;
    }
    for name in GONE {
        put(&mut keys, name, 0, true)?;
    }
    Ok(keys)
}

// Puts a new name, or gives one that is there that mark.
fn put(keys: &mut MarkedRun, name: &str, slot: u32, mark: bool) -> Result<(), AllocError> {
    match keys.get(name.as_bytes()) {
        None => keys.add(name, slot, mark),
        Some(slot) => keys.turn(name, slot, mark),
    }
}

fn compare_all(alloc: Global, index: &IndexView<'_>) -> Result<u64, Fail> {
    let mut compared = 0u64;
    for line in RANGES.lines() {
        if let Some((low, rest)) = line.split_once(" | ") {
            compare(alloc, index, low, rest)?;
            compared = compared.saturating_add(1);
        }
    }
    Ok(compared)
}

fn compare(alloc: Global, index: &IndexView<'_>, low: &str, rest: &str) -> Result<(), Fail> {
    let Some((high, due)) = rest.split_once(" |") else {
        return Err(Fail::new("a line without a range"));
    };
    let low = position(alloc, low)?;
    let high = position(alloc, high)?;
    if is_range(alloc, index, &low, &high, due)? {
        return Ok(());
    }
    Err(Fail::new(format_args!("other keys than {due}")))
}

// Whether the keys between the bounds are the due ones: counted, from both ends, and walked.
fn is_range(
    alloc: Global,
    index: &IndexView<'_>,
    low: &Bound,
    high: &Bound,
    due: &str,
) -> Result<bool, Fail> {
    let count = due.split_whitespace().count();
    let mut walk = index.range(low, high);
    for (i, name) in due.split_whitespace().enumerate() {
        let back = count.wrapping_sub(i).wrapping_sub(1);
        let range = index.range(low, high);
        if !stands_at(alloc, &range, i, back, name)? || !is_key(alloc, walk.next(), name)? {
            return Ok(false);
        }
    }
    Ok(walk.next().is_none() && index.range(low, high).len() == count)
}

fn stands_at(
    alloc: Global,
    range: &Range<'_>,
    i: usize,
    back: usize,
    name: &str,
) -> Result<bool, Fail> {
    Ok(is_key(alloc, range.at(i), name)? && is_key(alloc, range.at_back(back), name)?)
}

fn is_key(alloc: Global, entry: Option<Entry<'_>>, name: &str) -> Result<bool, Fail> {
    let Some(entry) = entry else {
        return Ok(false);
    };
    Ok(entry.is_of(name) && entry.id(alloc)?.as_str() == name)
}

// ---- names that get marks and lose them

#[test]
fn names_turn_their_sides(rt: HostRuntime) -> Result<(), Fail> {
    let mut both = Both {
        keys: MarkedRun::new(rt.alloc()),
        map: BTreeMap::new(rt.alloc()),
    };
    both.play(rt.alloc())
}

// Names with marks, and a map of the same.
#[derive(Drop)]
struct Both {
    keys: MarkedRun,
    map: BTreeMap<Vec<u8>, bool>,
}

impl Both {
    fn play(&mut self, alloc: Global) -> Result<(), Fail> {
        for i in 0..4_000_u32 {
            self.step(alloc, i)?;
        }
        if self.is_alike() {
            return Ok(());
        }
        Err(Fail::new("other names"))
    }

    fn step(&mut self, alloc: Global, i: u32) -> Result<(), Fail> {
        let number = i.wrapping_mul(2_654_435_761) % 700;
        let name = format!(in alloc; "{number}")?;
        let mark = i % 3 == 1;
        put(&mut self.keys, name.as_str(), number, mark)?;
        if self
            .map
            .insert(Vec::from_slice(alloc, name.as_str().as_bytes())?, mark)
            .is_err()
        {
            return Err(Fail::new("no room"));
        }
        Ok(())
    }

    // The same names in the same order, each on its side.
    fn is_alike(&self) -> bool {
        let mut pairs = self.keys.pairs();
        for (name, mark) in &self.map {
            match pairs.next() {
                None => return false,
                Some(pair) => {
                    if pair.0.as_bytes() != name.as_slice() || !self.is_on_side(name, *mark) {
                        return false;
                    }
                }
            }
        }
        pairs.next().is_none()
    }

    fn is_on_side(&self, name: &Vec<u8>, mark: bool) -> bool {
        let plain = self.keys.plain().get(name.as_slice()).is_some();
        let marked = self.keys.marked().get(name.as_slice()).is_some();
        plain != mark && marked == mark
    }
}
