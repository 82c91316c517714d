// Records staged and written together: the calls that a group takes, what a stop within each of
// them leaves, and records that don't fit.
ghost use Rattle.std.specs.Prelude.{◌≡◌, List, ℕ};
ghost use Rattle.rx_journal.specs.Ready.{HasStaged};

use rx_disk::{Disk, MemoryDisk};
use rx_journal::{Journal, SHORTEST, StageFault};
use std::alloc::Global;
use std::test::Fail;

const BYTES: [u8; 9] = [7, 8, 9, 10, 11, 12, 13, 14, 15];

// A body of so many bytes.
fn body_of(len: usize) -> &'static [u8] {
    BYTES.get(..len).unwrap_or(&[])
}

// Stages bodies of these lengths, and tells of each that was too much where the file would have
// ended.
fn stage_all(alloc: Global, journal: &mut Journal, lens: &[usize]) -> Result<Vec<Option<u64>>, Fail>
    ensures end { journal.new.end ≡ journal.old.end }
    ensures staged { (more : List (List ℕ)) × HasStaged journal.old more
        → (all : List (List ℕ)) × HasStaged journal.new all }
{
    let mut ends = Vec::new(alloc);
    for len in lens {
        match journal.stage(body_of(*len)) {
            Ok(()) => ends.push(None)?,
            Err(StageFault::Full(would, _)) => ends.push(Some(would))?,
            Err(fault) => return Err(fault.into()),
        }
    }
    Ok(ends)
}

// Opens a file whose limit is so far above that of a journal without records, and adds bodies of
// these lengths as one group, which may fail.
fn add_group(
    alloc: Global,
    disk: &mut MemoryDisk,
    room: u8,
    lens: &[usize],
) -> Result<Vec<Option<u64>>, Fail> {
    let (mut journal, _image) = Journal::open(alloc, disk, SHORTEST + u64::from(room))?;
    let ends = stage_all(alloc, &mut journal, lens)?;
    let _ = journal.commit(disk);
    Ok(ends)
}

// An empty file whose numbered calls fail.
fn empty_disk(alloc: Global, fails: &[u64]) -> Result<MemoryDisk, Fail> {
    Ok(MemoryDisk::new(alloc, Vec::new(alloc), fails.to_vec(alloc)?))
}

// An opening of an empty file makes the calls 1 to 4, and a group then 5 to 8: a write, a sync, the
// gate, a sync.
const OPENED: u64 = 4;

const GATE: u64 = 7;

const LAST: u64 = 8;

// The lengths of a group's bodies, the call behind its last one, and the file, as the format gives
// it.
const GROUPS: [(&[usize], u64, &[u8]); 4] = [
    (&[], 5, b"RXJOURN1\x00"),
    (&[0], 9, b"RXJOURN1\x01\0\0\0\0\0"),
    (&[2], 9, b"RXJOURN1\x01\0\0\0\x02\x07\x08\0"),
    (
        &[1, 2, 3],
        9,
        b"RXJOURN1\x01\0\0\0\x01\x07\x01\0\0\0\x02\x07\x08\x01\0\0\0\x03\x07\x08\x09\0",
    ),
];

#[test]
fn a_group_takes_four_calls_and_an_empty_one_none(rt: HostRuntime) -> Result<(), Fail> {
    for (lens, next, file) in GROUPS {
        try_group(rt.alloc(), lens, next, file)?;
    }
    Ok(())
}

fn try_group(alloc: Global, lens: &[usize], next: u64, file: &[u8]) -> Result<(), Fail> {
    // The next call is the one that is to fail.
    let mut disk = empty_disk(alloc, &[next])?;
    add_group(alloc, &mut disk, 99, lens)?;
    if disk.bytes() != file || disk.sync().is_ok() || disk.starved() != 0 {
        return Err(Fail::new(format_args!("bodies of {lens:?} bytes")));
    }
    let left = disk.stopped(next, &[255; 60])?;
    if left.as_slice() != file {
        return Err(Fail::new(format_args!("{lens:?} after a stop")));
    }
    Ok(())
}

// What a stop may leave in the bytes that are open: zeros, ones, what was written, with the gate
// closed and open, or other bytes.
const PICKS: [&[u8]; 5] = [
    &[],
    &[1; 60],
    b"\0\0\0\x01\x07\x01\0\0\0\x02\x07\x08\x01\0\0\0\x03\x07\x08\x09\0",
    b"\x01\0\0\0\x01\x07\x01\0\0\0\x02\x07\x08\x01\0\0\0\x03\x07\x08\x09\0",
    &[255; 60],
];

#[test]
fn a_stop_within_each_call_leaves_all_of_a_group_or_none(rt: HostRuntime) -> Result<(), Fail> {
    // With 0 no call fails.
    for failing in [0, 5, 6, 7, 8u64] {
        try_stops(rt.alloc(), failing)?;
    }
    Ok(())
}

fn try_stops(alloc: Global, failing: u64) -> Result<(), Fail> {
    let mut disk = empty_disk(alloc, &[failing])?;
    add_group(alloc, &mut disk, 99, &[1, 2, 3])?;
    for stop in OPENED..=LAST {
        for pick in PICKS {
            // The gate is open only where it was to be written, and the pick says so.
            let written = GATE <= stop && (failing == 0 || GATE <= failing);
            let all = written && pick.first() == Some(&1);
            let due: &[usize] = if all { &[1, 2, 3] } else { &[] };
            if !holds(alloc, disk.stopped(stop, pick)?, due)? {
                return Err(Fail::new(format_args!("call {failing} failing, stop within {stop}")));
            }
        }
    }
    Ok(())
}

// Whether a file has bodies of these lengths, and no other.
fn holds(alloc: Global, file: Vec<u8>, lens: &[usize]) -> Result<bool, Fail> {
    let mut disk = MemoryDisk::new(alloc, file, Vec::new(alloc));
    let image = Journal::look(alloc, &mut disk)?;
    let mut records = image.records();
    for len in lens {
        if records.next() != Some(body_of(*len)) {
            return Ok(false);
        }
    }
    Ok(records.next().is_none())
}

// How many bytes are free behind the header and the gate, the lengths of bodies that are staged one
// after another, and of each where the file would have ended, if past the limit; and the lengths of
// those that are left.
const LIMITS: [(u8, &[usize], &[Option<u64>], &[usize]); 8] = [
    (0, &[1, 2, 3], &[Some(15), Some(16), Some(17)], &[]),
    (5, &[0, 0], &[None, Some(19)], &[0]),
    (6, &[1, 2, 3], &[None, Some(22), Some(23)], &[1]),
    (12, &[1, 2, 3], &[None, Some(22), Some(23)], &[1]),
    (13, &[1, 2, 3], &[None, None, Some(30)], &[1, 2]),
    (20, &[1, 2, 3], &[None, None, Some(30)], &[1, 2]),
    (21, &[1, 2, 3], &[None, None, None], &[1, 2, 3]),
    (7, &[9, 2, 0], &[Some(23), None, Some(21)], &[2]),
];

#[test]
fn a_record_past_the_limit_is_left_out_of_its_group(rt: HostRuntime) -> Result<(), Fail> {
    for (room, lens, ends, left) in LIMITS {
        try_limit(rt.alloc(), room, lens, ends, left)?;
    }
    Ok(())
}

fn try_limit(
    alloc: Global,
    room: u8,
    lens: &[usize],
    ends: &[Option<u64>],
    left: &[usize],
) -> Result<(), Fail> {
    let mut disk = empty_disk(alloc, &[])?;
    let refused = add_group(alloc, &mut disk, room, lens)?;
    if refused.as_slice() != ends || !holds(alloc, disk.bytes().to_vec(alloc)?, left)? {
        return Err(Fail::new(format_args!("{lens:?} in {room} bytes")));
    }
    Ok(())
}
