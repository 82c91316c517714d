// What fails because its call is listed didn't fail for want of memory.
use rx_disk::{Disk, MemoryDisk};
use rx_outside::{MemorySink, MemorySource, Sink, Source};
use std::alloc::{AllocError, Global};
use std::test::Fail;

#[test]
fn a_listed_call_wants_no_memory(rt: HostRuntime) -> Result<(), Fail> {
    let alloc = rt.alloc();
    if is_source_so(alloc)? && is_sink_so(alloc)? && is_disk_so(alloc)? {
        return Ok(());
    }
    Err(Fail::new("another call fails, or for want of memory"))
}

// The first call fails, the second one doesn't, and neither wants memory.
fn is_source_so(alloc: Global) -> Result<bool, AllocError> {
    let mut source = MemorySource::new(b"ab".to_vec(alloc)?, 1, [1].to_vec(alloc)?);
    let mut piece = [0u8; 2];
    let first = source.read(piece.as_mut_slice()).is_err() && source.starved() == 0;
    Ok(first && source.read(piece.as_mut_slice()).is_ok() && source.starved() == 0)
}

fn is_sink_so(alloc: Global) -> Result<bool, AllocError> {
    let mut sink = MemorySink::new(alloc, [1].to_vec(alloc)?);
    let first = sink.write(b"xy").is_err() && sink.starved() == 0;
    Ok(first && sink.write(b"xy").is_ok() && sink.starved() == 0)
}

fn is_disk_so(alloc: Global) -> Result<bool, AllocError> {
    let mut disk = MemoryDisk::new(alloc, b"ab".to_vec(alloc)?, [1].to_vec(alloc)?);
    let mut piece = [0u8; 2];
    let first = disk.read(0, piece.as_mut_slice()).is_err() && disk.starved() == 0;
    Ok(first && disk.read(0, piece.as_mut_slice()).is_ok() && disk.starved() == 0)
}
