// Runs of names beside a sorted map of the library.
use rx_runs::{Name, Run, Slots};
use std::alloc::{AllocError, Global};
use std::collections::BTreeMap;
use std::test::Fail;

// In which order names come.
#[derive(Clone, Copy)]
enum Order {
    Rising,
    Falling,
    Mixed,
    Again,
}

// How the name of a number is made.
#[derive(Clone, Copy)]
enum Kind {
    Short,
    Long,
    Foreign,
}

// The names that come, in their order.
#[derive(Clone, Copy)]
struct Names {
    order: Order,
    kind: Kind,
}

impl Names {
    fn number(self, i: u32) -> u32 {
        match self.order {
            Order::Rising => i,
            Order::Falling => 1_000_000_u32.wrapping_sub(i),
            Order::Mixed => i.wrapping_mul(2_654_435_761) % 6_000,
            Order::Again => i % 2,
        }
    }

    // Long names have up to 1,000 bytes, most of them those of others too.
    fn name(self, alloc: Global, i: u32) -> Result<Vec<u8>, AllocError> {
        let number = self.number(i);
        let mut name = match self.kind {
            Kind::Short => Vec::new(alloc),
            Kind::Long => b"a".repeat(alloc, (number % 999) as usize)?,
            Kind::Foreign => "Größe\u{10ffff}".as_bytes().to_vec(alloc)?,
        };
        name.extend_from_slice(&number.to_be_bytes())?;
        Ok(name)
    }
}

// A run, and a map of the same pairs.
#[derive(Drop)]
struct Both {
    run: Run<u32>,
    map: BTreeMap<Vec<u8>, u32>,
}

impl Both {
    fn play(&mut self, alloc: Global, names: Names, count: u32) -> Result<(), Fail> {
        for i in 0..count {
            self.step(alloc, names.name(alloc, i)?, i)?;
        }
        if !self.is_alike() {
            return Err(Fail::new(format_args!("other pairs after {count}")));
        }
        for i in 0..12 {
            self.count(alloc, names, i)?;
        }
        Ok(())
    }

    // One name more or less in both, which must give the same value back.
    fn step(&mut self, alloc: Global, name: Vec<u8>, i: u32) -> Result<(), Fail> {
        let is_same = if i % 3 == 2 {
            self.run.remove(name.as_slice()) == self.map.remove(&name)
        } else {
            self.puts_the_same(alloc, name, i)?
        };
        if is_same {
            return Ok(());
        }
        Err(Fail::new(format_args!("another value at {i}")))
    }

    fn puts_the_same(&mut self, alloc: Global, name: Vec<u8>, i: u32) -> Result<bool, Fail> {
        let Ok(old) = self.run.put(Name::new(alloc, name.as_slice())?, i) else {
            return Err(Fail::new("no room"));
        };
        match self.map.insert(name, i) {
            Ok(other) => Ok(old == other),
            Err(_) => Err(Fail::new("no room")),
        }
    }

    // Both hold the same pairs in the same order.
    fn is_alike(&self) -> bool {
        let mut pairs = self.run.pairs();
        for (name, value) in &self.map {
            match pairs.next() {
                None => return false,
                Some(pair) => {
                    if pair.0.as_bytes() != name.as_slice() || pair.1 != value {
                        return false;
                    }
                }
            }
        }
        pairs.next().is_none() && self.run.len() == self.map.len()
    }

    // As many pairs between two names as the map has.
    fn count(&self, alloc: Global, names: Names, i: u32) -> Result<(), Fail> {
        let low = names.name(alloc, i.wrapping_mul(97))?;
        let high = names.name(alloc, i.wrapping_mul(i).wrapping_mul(31))?;
        if self.is_counted(low.as_slice(), high.as_slice()) {
            return Ok(());
        }
        Err(Fail::new(format_args!("other pairs between at {i}")))
    }

    fn is_counted(&self, low: &[u8], high: &[u8]) -> bool {
        let mut count = 0_usize;
        for (name, _) in &self.map {
            if name.as_slice() >= low && name.as_slice() < high {
                count = count.wrapping_add(1);
            }
        }
        let mut walked = 0_usize;
        for _ in self.run.between(low, high) {
            walked = walked.wrapping_add(1);
        }
        count == walked && count == self.run.count_between(low, high)
    }
}

fn play(alloc: Global, order: Order, kind: Kind, count: u32) -> Result<(), Fail> {
    let mut both = Both {
        run: Run::new(alloc),
        map: BTreeMap::new(alloc),
    };
    both.play(alloc, Names { order, kind }, count)
}

const LONG: [(Order, Kind, u32); 8] = [
    (Order::Rising, Kind::Short, 12_000),
    (Order::Falling, Kind::Short, 12_000),
    (Order::Mixed, Kind::Short, 12_000),
    (Order::Again, Kind::Short, 10_000),
    (Order::Rising, Kind::Long, 3_000),
    (Order::Mixed, Kind::Long, 3_000),
    (Order::Falling, Kind::Foreign, 10_000),
    (Order::Mixed, Kind::Foreign, 20_000),
];

// Around the lengths at which a chunk is cut.
const COUNTS: [u32; 13] = [1, 31, 32, 33, 127, 128, 129, 192, 193, 255, 256, 257, 385];

#[test]
fn a_run_is_a_sorted_map(rt: HostRuntime) -> Result<(), Fail> {
    for (order, kind, count) in LONG {
        play(rt.alloc(), order, kind, count)?;
    }
    for count in COUNTS {
        for order in [Order::Rising, Order::Falling, Order::Mixed] {
            play(rt.alloc(), order, Kind::Short, count)?;
        }
    }
    Ok(())
}

// Around the length at which a name no longer fits in itself.
#[test]
fn a_name_keeps_its_bytes(rt: HostRuntime) -> Result<(), Fail> {
    for len in [0, 1, 21, 22, 23, 1_000] {
        try_name(rt.alloc(), b"b".repeat(rt.alloc(), len)?.as_slice())?;
    }
    Ok(())
}

fn try_name(alloc: Global, bytes: &[u8]) -> Result<(), Fail> {
    let name = Name::new(alloc, bytes)?;
    if name.as_bytes() == bytes && name.copy()?.compare(bytes).is_eq() {
        return Ok(());
    }
    Err(Fail::new(format_args!("a name of {} bytes", bytes.len())))
}

// A value keeps its slot.
#[test]
fn values_in_slots(rt: HostRuntime) -> Result<(), Fail> {
    let mut slots = Slots::new(rt.alloc());
    try_slots(&mut slots)
}

fn try_slots(slots: &mut Slots<u32>) -> Result<(), Fail> {
    for i in 0..600_u32 {
        if slots.push(i).is_err() {
            return Err(Fail::new("no room"));
        }
    }
    if slots.len() != 600 {
        return Err(Fail::new("not a value each"));
    }
    let was = slots.replace(256, 7);
    if slots.len() != 600 {
        return Err(Fail::new("a value more or less"));
    }
    let found = [was, *slots.at(256), *slots.at(511), slots.pop()];
    if found == [256, 7, 511, 599] && slots.len() == 599 {
        return Ok(());
    }
    Err(Fail::new(format_args!("other values: {found:?}")))
}
