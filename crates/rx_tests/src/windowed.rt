// Journals that are read window by window, beside the plain reading of the whole file.
use rx_disk::MemoryDisk;
use rx_frame::{CLOSED_GATE, Frames, HEADER, OPEN_GATE};
use rx_journal::{Journal, OpenFault, Windows};
use std::alloc::{AllocError, Global};
use std::test::Fail;

// Behind the header, the gate and the length, a body of so many bytes ends where a first window
// ends.
const EXACT: usize = 65_523;

// Adds a body of so many bytes.
fn add_body(bytes: &mut Vec<u8>, len: usize) -> Result<(), AllocError> {
    for i in 0..len {
        bytes.push((i % 251) as u8)?;
    }
    Ok(())
}

// Adds a record whose body has so many bytes.
fn add_record(file: &mut Vec<u8>, len: usize) -> Result<(), AllocError> {
    file.push(OPEN_GATE)?;
    file.extend_from_slice(&u32::try_from(len).unwrap_or(0).to_be_bytes())?;
    add_body(file, len)
}

// A file of bodies with so many bytes each.
fn file_of(alloc: Global, lens: &[usize]) -> Result<Vec<u8>, AllocError> {
    let mut file = HEADER.to_vec(alloc)?;
    for len in lens {
        add_record(&mut file, *len)?;
    }
    file.push(CLOSED_GATE)?;
    Ok(file)
}

// What such a file lends: the bodies, each behind its length.
fn due_of(alloc: Global, lens: &[usize]) -> Result<Vec<u8>, AllocError> {
    let mut all = Vec::new(alloc);
    for len in lens {
        all.extend_from_slice(&(*len as u64).to_be_bytes())?;
        add_body(&mut all, *len)?;
    }
    Ok(all)
}

// Adds a body that was lent.
fn add_lent(all: &mut Vec<u8>, body: &[u8]) -> Result<(), AllocError> {
    all.extend_from_slice(&(body.len() as u64).to_be_bytes())?;
    all.extend_from_slice(body)
}

// Adds the bodies that windows lend, and tells whether the file is a journal.
fn add_by_windows(alloc: Global, disk: &mut MemoryDisk, all: &mut Vec<u8>) -> Result<bool, Fail> {
    match Windows::look(alloc, disk) {
        Ok(mut windows) => add_all(&mut windows, disk, all),
        Err(fault) => is_none(fault),
    }
}

fn add_all(windows: &mut Windows, disk: &mut MemoryDisk, all: &mut Vec<u8>) -> Result<bool, Fail> {
    for _ in 0..100 {
        match windows.next(disk) {
            Ok(Some(body)) => add_lent(all, body)?,
            Ok(None) => return Ok(true),
            Err(fault) => return is_none(fault),
        }
    }
    Err(Fail::new("more bodies than were written"))
}

// What is no journal isn't one, and all else is a fault.
fn is_none(fault: OpenFault) -> Result<bool, Fail> {
    match fault {
        OpenFault::NotJournal => Ok(false),
        fault => Err(fault.into()),
    }
}

// The same by a reading of the whole file.
fn add_by_image(alloc: Global, disk: &mut MemoryDisk, all: &mut Vec<u8>) -> Result<bool, Fail> {
    match Journal::look(alloc, disk) {
        Ok(image) => add_records(image.records(), all),
        Err(fault) => is_none(fault),
    }
}

fn add_records(mut frames: Frames<'_>, all: &mut Vec<u8>) -> Result<bool, Fail> {
    for _ in 0..100 {
        match frames.next() {
            Some(body) => add_lent(all, body)?,
            None => return Ok(true),
        }
    }
    Err(Fail::new("more bodies than were written"))
}

// Windows lend these bodies; none where the file is no journal.
fn try_windows(alloc: Global, file: &[u8], due: Option<&[u8]>) -> Result<(), Fail> {
    let mut disk = MemoryDisk::new(alloc, file.to_vec(alloc)?, Vec::new(alloc));
    let mut all = Vec::new(alloc);
    let is_journal = add_by_windows(alloc, &mut disk, &mut all)?;
    compare(file, is_journal.then_some(all.as_slice()), due)
}

fn try_image(alloc: Global, file: &[u8], due: Option<&[u8]>) -> Result<(), Fail> {
    let mut disk = MemoryDisk::new(alloc, file.to_vec(alloc)?, Vec::new(alloc));
    let mut all = Vec::new(alloc);
    let is_journal = add_by_image(alloc, &mut disk, &mut all)?;
    compare(file, is_journal.then_some(all.as_slice()), due)
}

fn compare(file: &[u8], found: Option<&[u8]>, due: Option<&[u8]>) -> Result<(), Fail> {
    if found == due {
        return Ok(());
    }
    Err(Fail::new(format_args!("a file of {} bytes lends others", file.len())))
}

// Both lend these.
fn try_file(alloc: Global, file: &[u8], due: Option<&[u8]>) -> Result<(), Fail> {
    try_windows(alloc, file, due)?;
    try_image(alloc, file, due)
}

// Of how many bytes the bodies of a file are.
const LENGTHS: [&[usize]; 10] = [
    &[],
    &[0],
    &[0, 0, 9],
    &[EXACT - 1, 7],
    &[EXACT, 7],
    &[EXACT + 1, 7],
    &[EXACT, EXACT, 0],
    &[40_000, 40_000, 40_000],
    &[3, 65_531, 65_536, 65_537, 1],
    &[200_000, 0, 131_072, 5],
];

#[test]
fn bodies_end_at_any_place_of_a_window(rt: HostRuntime) -> Result<(), Fail> {
    for lens in LENGTHS.iter() {
        try_bodies(rt.alloc(), lens)?;
    }
    Ok(())
}

fn try_bodies(alloc: Global, lens: &[usize]) -> Result<(), Fail> {
    let file = file_of(alloc, lens)?;
    let due = due_of(alloc, lens)?;
    try_file(alloc, file.as_slice(), Some(due.as_slice()))
}

#[test]
fn a_file_that_is_cut_is_no_journal(rt: HostRuntime) -> Result<(), Fail> {
    for first in [3, EXACT - 10, EXACT, 100_000] {
        let file = file_of(rt.alloc(), &[first, 20])?;
        try_cuts(rt.alloc(), file.as_slice())?;
    }
    Ok(())
}

// The last record takes 25 bytes, and the closed gate one.
fn try_cuts(alloc: Global, file: &[u8]) -> Result<(), Fail> {
    for cut in 1..=26 {
        let left = file.get(..file.len().saturating_sub(cut)).unwrap_or(&[]);
        try_file(alloc, left, None)?;
    }
    Ok(())
}

// Records of five bytes behind another length.
const LYING: [&[u8]; 4] = [
    b"RXJOURN1\x01\0\0\0\x04\0\x01\x02\x03\x01\xff\xff\xff\xff\x07\x07\x07\x07\x07",
    b"RXJOURN1\x01\0\0\0\x04\0\x01\x02\x03\x01\xff\xff\xff\xed\x07\x07\x07\x07\x07",
    b"RXJOURN1\x01\0\0\0\x04\0\x01\x02\x03\x01\0\x01\0\0\x07\x07\x07\x07\x07",
    b"RXJOURN1\x01\0\0\0\x04\0\x01\x02\x03\x01\0\0\0\x06\x07\x07\x07\x07\x07",
];

const SHORT: [&[u8]; 7] = [
    b"",
    b"RXJOURN1",
    b"RXJOURN1\0",
    b"RXJOURN1\x01",
    b"RXJOURN2\0",
    b"anything!",
    b"RXJOURN1\x05bytes",
];

#[test]
fn short_files_and_lengths_that_lie(rt: HostRuntime) -> Result<(), Fail> {
    for file in LYING.iter() {
        try_file(rt.alloc(), file, None)?;
    }
    for file in SHORT.iter() {
        try_file(rt.alloc(), file, Some(&[]))?;
    }
    // Bytes behind the gate.
    try_windows(rt.alloc(), b"RXJOURN2\0 ", Some(&[]))?;
    try_windows(rt.alloc(), b"RXJOURN3\0 ", None)?;
    try_windows(rt.alloc(), b"RXJOURN1\x01 ", None)
}

#[test]
fn none_comes_again_at_the_end(rt: HostRuntime) -> Result<(), Fail> {
    let alloc = rt.alloc();
    let file = file_of(alloc, &[EXACT, 2])?;
    let mut disk = MemoryDisk::new(alloc, file, Vec::new(alloc));
    let mut windows = Windows::open(alloc, &mut disk, 100_000)?;
    compare_two(&mut windows, &mut disk)
}

fn compare_two(windows: &mut Windows, disk: &mut MemoryDisk) -> Result<(), Fail> {
    if two_come(windows, disk)? && none_comes_twice(windows, disk)? {
        return Ok(());
    }
    Err(Fail::new("other bodies"))
}

// Whether two bodies come, the second one of two bytes.
fn two_come(windows: &mut Windows, disk: &mut MemoryDisk) -> Result<bool, OpenFault> {
    Ok(windows.next(disk)?.is_some() && windows.next(disk)? == Some([0, 1].as_slice()))
}

fn none_comes_twice(windows: &mut Windows, disk: &mut MemoryDisk) -> Result<bool, OpenFault> {
    Ok(windows.next(disk)?.is_none() && windows.next(disk)?.is_none())
}

pub const CASES: &str = r#"
== a long text is there in the next run
. {"do":"collection","name":"c","schema":{"version":0,"primaryKey":"id","type":"object","properties":{"id":{"type":"string","maxLength":20},"t":{"type":"string","maxLength":100000}},"required":["id"]}}
. {"do":"insert","in":"c","doc":{"id":"a","t":"‹0..1000||xxxxxxxxxxxxxxxxxxxxxxxxxxxxxxxxxxxxxxxxxxxxxxxxxxxxxxxxxxxxxxxxxxxxxxxxxxxxxxxxxxxxxxxxxxxxxxxxxxxx›"}}
= 'RXJOURN1' 01 00000009 05 0000000000000001 01 000000b6 01 00000001 'c' 000000ac '{"indexes":[],"primaryKey":"id","properties":{"id":{"maxLength":20,"type":"string"},"t":{"maxLength":100000,"type":"string"}},"required":["id"],"type":"object","version":0}'
= 01 000186da 02 00000001 'c' 0000000000000001 00000001 0000000000000001 00000001 'a' 00 00000002 00000002 'id' 02 00000001 'a' 00000001 't' 02 000186a0 '‹0..1000||xxxxxxxxxxxxxxxxxxxxxxxxxxxxxxxxxxxxxxxxxxxxxxxxxxxxxxxxxxxxxxxxxxxxxxxxxxxxxxxxxxxxxxxxxxxxxxxxxxxx›' 00
$ run journal
> {"do":"get","in":"c","key":"a"}
< {"doc":{"id":"a","t":"‹0..1000||xxxxxxxxxxxxxxxxxxxxxxxxxxxxxxxxxxxxxxxxxxxxxxxxxxxxxxxxxxxxxxxxxxxxxxxxxxxxxxxxxxxxxxxxxxxxxxxxxxxx›"},"line":L,"lwt":1,"ok":"get","rev":"1-c"}

== the same journal without its last byte is none
^ 'RXJOURN1' 01 00000009 05 0000000000000001 01 000000b6 01 00000001 'c' 000000ac '{"indexes":[],"primaryKey":"id","properties":{"id":{"maxLength":20,"type":"string"},"t":{"maxLength":100000,"type":"string"}},"required":["id"],"type":"object","version":0}'
^ 01 000186da 02 00000001 'c' 0000000000000001 00000001 0000000000000001 00000001 'a' 00 00000002 00000002 'id' 02 00000001 'a' 00000001 't' 02 000186a0 '‹0..1000||xxxxxxxxxxxxxxxxxxxxxxxxxxxxxxxxxxxxxxxxxxxxxxxxxxxxxxxxxxxxxxxxxxxxxxxxxxxxxxxxxxxxxxxxxxxxxxxxxxxx›'
> {"do":"get","in":"c","key":"a"}
< {"stop":"not_journal"}
"#;
