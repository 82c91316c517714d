// Streams, doors and clocks: the forms in memory, and those of the system.
use rx_outside::{
    Clock, Dial, Listen, MemoryClock, MemoryDoor, MemorySink, MemorySource, MemoryWire, Source,
    SystemClock, TcpDial, TcpDoor, Wire, send_all, write_all,
};
use std::process::Abort;
use std::test::Fail;

// Four reads of three bytes in pieces of two, of which the second fails.
#[test]
fn carries_bytes_over(rt: HostRuntime) -> Result<(), Fail> {
    let bytes = [1, 2, 3].to_vec(rt.alloc())?;
    let mut source = MemorySource::new(bytes, 2, [2].to_vec(rt.alloc())?);
    let mut sink = MemorySink::new(rt.alloc(), Vec::new(rt.alloc()));
    let mut piece = [0u8; 4];
    for (count, held) in [(Some(2), 2), (None, 2), (Some(1), 3), (Some(0), 3)] {
        let read = source.read(&mut piece).ok();
        assert_eq!(rt; read, count);
        write_all(&mut sink, &piece[..read.unwrap_or(0)])?;
        assert!(rt; sink.bytes() == &[1, 2, 3][..held]);
    }
    assert_eq!(rt; (source.starved(), sink.starved()), (0, 0));
    Ok(())
}

// One wire at a door, handed back after a send that failed and one that didn't.
#[test]
fn hands_a_wire_back(rt: HostRuntime) -> Result<(), Fail> {
    let alloc = rt.alloc();
    let bytes = [1, 2, 3].to_vec(alloc)?;
    let mut wires = Vec::new(alloc);
    wires.push(MemoryWire::new(alloc, bytes, 2, [2].to_vec(alloc)?))?;
    let mut door = MemoryDoor::new(alloc, wires, Vec::new(alloc));
    door.open(7000)?;
    let mut wire = door.accept()?;
    let mut piece = [0u8; 4];
    assert_eq!(rt; wire.receive(&mut piece)?, 2);
    assert!(rt; send_all(&mut wire, b"lost").is_err());
    send_all(&mut wire, b"kept")?;
    assert!(rt; door.accept().is_err());
    door.close(wire)?;
    for closed in door.closed_wires() {
        assert!(rt; closed.sent() == b"kept".as_slice());
        assert_eq!(rt; (closed.failed(), closed.starved()), (1, 0));
    }
    assert_eq!(rt; (door.closed_wires().len(), door.starved()), (1, 0));
    assert!(rt; door.opened_ports() == [7000].as_slice() && door.accepted() == 1);
    Ok(())
}

// The list in turn and then its last moment, and 0 of none.
#[test]
fn gives_moments_in_turn(rt: HostRuntime) -> Result<(), Fail> {
    let mut clock = MemoryClock::new([5, 3].to_vec(rt.alloc())?);
    let mut empty = MemoryClock::new(Vec::new(rt.alloc()));
    for moment in [5, 3, 3] {
        assert_eq!(rt; (clock.now(), empty.now()), (moment, 0));
    }
    Ok(())
}

// Receives a line in as few calls as it takes.
fn expect_line(rt: &impl Abort, wire: &mut impl Wire, line: &[u8]) -> Result<(), Fail> {
    let mut rest = line;
    for _ in 0..line.len() {
        let mut piece = [0u8; 16];
        let count = wire.receive(&mut piece)?;
        assert!(rt; rest.starts_with(&piece[..count]));
        rest = rest.split_at(count).1;
        if rest.is_empty() {
            break;
        }
    }
    assert!(rt; rest.is_empty());
    Ok(())
}

// A door of the system on the first free port of a few, dialled from here; a line each way.
#[test]
fn a_door_of_the_system_is_dialled(rt: HostRuntime) -> Result<(), Fail> {
    let mut door = TcpDoor::new(&rt);
    let mut dial = TcpDial::new(&rt);
    for port in 47100..47200 {
        if door.open(port).is_err() {
            continue;
        }
        let mut near = dial.dial(port)?;
        let mut far = door.accept()?;
        send_all(&mut near, b"a question\n")?;
        expect_line(&rt, &mut far, b"a question\n")?;
        send_all(&mut far, b"an answer\n")?;
        expect_line(&rt, &mut near, b"an answer\n")?;
        assert_eq!(rt; (near.failed(), far.failed()), (0, 0));
        door.close(far)?;
        dial.close(near)?;
        return Ok(());
    }
    assert!(rt; false, "no free port");
    Ok(())
}

// The system's clock is past the day on which this was written.
#[test]
fn the_system_tells_the_time(rt: HostRuntime) {
    let mut clock = SystemClock::new(&rt);
    assert!(rt; clock.now() > 1_700_000_000_000);
}
