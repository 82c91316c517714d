// Connections at a door, one after another: what goes over each wire, what is written, how the call
// answers, and that the journal opens afterwards.
//
// A case is one call over one journal. HASH stands for the schema's, SPACE for a space.
//
//     == a door that fails               what the case is about
//     @ connections=2 door=3             how many are asked for, and which calls fail
//     * wire=4                           a peer that dials, and which calls of its wire fail
//     > {"ask":"pull",..}                a line that it sends
//     < {"docs":[],..}                   a line that it is sent
//     ! {"connection":1,..}              a line that is written
//     = door                             how the call answers
//
// The numbers beside the count of connections: door and sink, a call that fails; times, how many
// calls of the door fail from that one on; room, how many bytes the journal may grow by; clock, the
// moment of all pushes. A full journal tells how many bytes it would have grown by, and how many it
// may.
ghost use Rattle.std.specs.Prelude.{IfOk};
ghost use Rattle.rx_outside.specs.MemoryWire.{Unused};

use crate::served::{LIMIT, hash, journal};
use rx_disk::MemoryDisk;
use rx_host::{MasterEngine, ServeFault, serve_connections};
use rx_outside::{MemoryClock, MemoryDoor, MemorySink, MemoryWire, Stop};
use std::alloc::{AllocError, Global};
use std::test::Fail;

const CASES: &str = r#"
== an empty collection; the same request with a space too many ends it
@ connections=1
* wire=0
> {"ask":"pull","batch":100,"epoch":1,"n":1,"schema":HASH}
> {SPACE"ask":"pull","batch":100,"epoch":1,"n":1,"schema":HASH}
< {"docs":[],"epoch":1,"n":1}
< {"fault":"spelling"}
! {"connection":1,"end":"request","requests":1}
= ok

== two peers race for one document, by turns: the second meets what the first wrote
@ connections=3
* wire=0
> {"ask":"push","epoch":1,"n":1,"rows":[{"new":{"_deleted":false,"id":"a","n":1}}],"schema":HASH}
< {"conflicts":[],"epoch":1,"n":1}
* wire=0
> {"ask":"push","epoch":7,"n":1,"rows":[{"new":{"_deleted":false,"id":"a","n":2}}],"schema":HASH}
> {"ask":"push","epoch":7,"n":2,"rows":[{"assumed":{"_deleted":false,"id":"a","n":1},"new":{"_deleted":false,"id":"a","n":2}}],"schema":HASH}
< {"conflicts":[{"_deleted":false,"id":"a","n":1}],"epoch":7,"n":1}
< {"conflicts":[],"epoch":7,"n":2}
* wire=0
> {"ask":"push","epoch":1,"n":2,"rows":[{"assumed":{"_deleted":false,"id":"a","n":1},"new":{"_deleted":true,"id":"a","n":1}}],"schema":HASH}
> {"ask":"pull","batch":1,"epoch":1,"n":3,"schema":HASH}
< {"conflicts":[{"_deleted":false,"id":"a","n":2}],"epoch":1,"n":2}
< {"docs":[{"_deleted":false,"id":"a","n":2}],"epoch":1,"n":3,"place":{"id":"a","lwt":2}}
! {"connection":1,"end":"peer","requests":1}
! {"connection":2,"end":"peer","requests":2}
! {"connection":3,"end":"peer","requests":2}
= ok

== no connection is asked for
@ connections=0
= ok

== a door that doesn't open
@ connections=2 door=1
= door

== a door that fails at its second wire is asked again, and there it is
@ connections=2 door=3
* wire=0
> {"ask":"pull","batch":1,"epoch":1,"n":1,"schema":HASH}
< {"docs":[],"epoch":1,"n":1}
* wire=0
> {"ask":"pull","batch":1,"epoch":1,"n":2,"schema":HASH}
< {"docs":[],"epoch":1,"n":2}
! {"connection":1,"end":"peer","requests":1}
! {"connection":2,"end":"peer","requests":1}
= ok

== so it is after sixty-three calls that failed
@ connections=1 door=2 times=63
* wire=0
> {"ask":"pull","batch":1,"epoch":1,"n":1,"schema":HASH}
< {"docs":[],"epoch":1,"n":1}
! {"connection":1,"end":"peer","requests":1}
= ok

== a door that gives no second wire
@ connections=2
* wire=0
> {"ask":"pull","batch":1,"epoch":1,"n":1,"schema":HASH}
< {"docs":[],"epoch":1,"n":1}
! {"connection":1,"end":"peer","requests":1}
= door

== a sink that fails at the second line: the wire was handed back before it
@ connections=2 sink=2
* wire=0
> {"ask":"push","epoch":1,"n":1,"rows":[{"new":{"_deleted":false,"id":"a"}}],"schema":HASH}
< {"conflicts":[],"epoch":1,"n":1}
* wire=0
> {"ask":"pull","batch":1,"epoch":1,"n":2,"schema":HASH}
< {"docs":[{"_deleted":false,"id":"a"}],"epoch":1,"n":2,"place":{"id":"a","lwt":1}}
! {"connection":1,"end":"peer","requests":1}
= sink

== a wire that fails at the second reply: its commit is there for the next peer
@ connections=2
* wire=3
> {"ask":"push","epoch":1,"n":1,"rows":[{"new":{"_deleted":false,"id":"a"}}],"schema":HASH}
> {"ask":"push","epoch":1,"n":2,"rows":[{"new":{"_deleted":false,"id":"b"}}],"schema":HASH}
> {"ask":"push","epoch":1,"n":3,"rows":[{"new":{"_deleted":false,"id":"d"}}],"schema":HASH}
< {"conflicts":[],"epoch":1,"n":1}
* wire=0
> {"ask":"pull","batch":3,"epoch":2,"n":1,"schema":HASH}
< {"docs":[{"_deleted":false,"id":"a"},{"_deleted":false,"id":"b"}],"epoch":2,"n":1,"place":{"id":"b","lwt":2}}
! {"connection":1,"end":"wire","requests":2}
! {"connection":2,"end":"peer","requests":1}
= ok

== a journal that is full within the second connection: a commit takes 53 bytes
@ connections=2 room=105
* wire=0
> {"ask":"push","epoch":1,"n":1,"rows":[{"new":{"_deleted":false,"id":"a"}}],"schema":HASH}
< {"conflicts":[],"epoch":1,"n":1}
* wire=0
> {"ask":"pull","batch":1,"epoch":1,"n":2,"schema":HASH}
> {"ask":"push","epoch":1,"n":3,"rows":[{"new":{"_deleted":false,"id":"b"}}],"schema":HASH}
> {"ask":"pull","batch":1,"epoch":1,"n":4,"schema":HASH}
< {"docs":[{"_deleted":false,"id":"a"}],"epoch":1,"n":2,"place":{"id":"a","lwt":1}}
! {"connection":1,"end":"peer","requests":1}
= full 106 105

== no write time is left after the last one
@ connections=1 clock=9007199254740991
* wire=0
> {"ask":"push","epoch":1,"n":1,"rows":[{"new":{"_deleted":false,"id":"a"}}],"schema":HASH}
> {"ask":"push","epoch":1,"n":2,"rows":[{"new":{"_deleted":false,"id":"b"}}],"schema":HASH}
< {"conflicts":[],"epoch":1,"n":1}
! {"connection":1,"end":"clock","requests":1}
= ok
"#;

// What a peer sends, which call of its wire fails, and what it is to be sent.
#[derive(Drop)]
struct Peer {
    input: String,
    fails: u64,
    due: String,
}

// A call: its numbers, the peers that dial, and what is to be written.
#[derive(Drop)]
struct Call {
    connections: u64,
    door: u64,
    times: u64,
    sink: u64,
    room: u64,
    clock: u64,
    peers: Vec<Peer>,
    written: String,
}

#[test]
fn connections_are_served_in_turn(rt: HostRuntime) -> Result<(), Fail> {
    let alloc = rt.alloc();
    let hash = hash(alloc)?;
    let cases = CASES.replace(alloc, "HASH", hash.as_str())?;
    let cases = cases.as_str().replace(alloc, "SPACE", " ")?;
    let mut played = 0u64;
    for case in cases.as_str().split("\n== ").skip(1) {
        play(alloc, case)?;
        played = played.saturating_add(1);
    }
    if played == 0 {
        return Err(Fail::new("a text without cases"));
    }
    Ok(())
}

fn play(alloc: Global, case: &str) -> Result<(), Fail> {
    let (facts, due) = case.split_once("\n= ").unwrap_or((case, ""));
    let mut call = no_call(alloc);
    for fact in facts.lines().skip(1) {
        let (mark, rest) = fact.split_once(' ').unwrap_or((fact, ""));
        call.add(alloc, mark, rest)?;
    }
    compare_answer(alloc, &call, due.trim())
}

fn no_call(alloc: Global) -> Call {
    Call {
        connections: 0,
        door: 0,
        times: 1,
        sink: 0,
        room: 1_000_000,
        clock: 0,
        peers: Vec::new(alloc),
        written: String::new(alloc),
    }
}

impl Call {
    // Adds a fact of its case.
    fn add(&mut self, alloc: Global, mark: &str, fact: &str) -> Result<(), Fail> {
        match mark {
            "" => {}
            "@" => self.set_all(fact)?,
            "*" => self.peers.push(Peer {
                input: String::new(alloc),
                fails: number_after(fact, "wire=")?,
                due: String::new(alloc),
            })?,
            ">" => match self.peers.last_mut() {
                Some(peer) => write!(peer.input, "{fact}\n")?,
                None => return Err(Fail::new("a line of no peer")),
            },
            "<" => match self.peers.last_mut() {
                Some(peer) => write!(peer.due, "{fact}\n")?,
                None => return Err(Fail::new("a line to no peer")),
            },
            "!" => write!(self.written, "{fact}\n")?,
            _ => return Err(Fail::new("a line that is no fact")),
        }
        Ok(())
    }

    fn set_all(&mut self, numbers: &str) -> Result<(), Fail> {
        for word in numbers.split(' ') {
            if word.starts_with("connections=") {
                self.connections = number_after(word, "connections=")?;
            } else if word.starts_with("door=") {
                self.door = number_after(word, "door=")?;
            } else if word.starts_with("times=") {
                self.times = number_after(word, "times=")?;
            } else if word.starts_with("sink=") {
                self.sink = number_after(word, "sink=")?;
            } else if word.starts_with("room=") {
                self.room = number_after(word, "room=")?;
            } else {
                self.clock = number_after(word, "clock=")?;
            }
        }
        Ok(())
    }
}

fn number_after(word: &str, name: &str) -> Result<u64, Fail> {
    match word.strip_prefix(name) {
        Some(digits) => Ok(digits.parse()?),
        None => Err(Fail::new("a number of no name")),
    }
}

// Makes the call, compares what was sent and written and how it answers, and opens the journal
// again.
fn compare_answer(alloc: Global, call: &Call, due: &str) -> Result<(), Fail> {
    let mut disk = journal(alloc)?;
    let answer = answer_of(alloc, call, &mut disk)?;
    if answer.as_str() != due {
        return Err(Fail::new(format_args!("it answers {answer}, and {due} is due")));
    }
    open_again(alloc, &mut disk)
}

fn open_again(alloc: Global, disk: &mut MemoryDisk) -> Result<(), Fail> {
    match MasterEngine::open(alloc, disk, LIMIT, "c") {
        Ok(Some(_)) => Ok(()),
        _ => Err(Fail::new("the journal has no master afterwards")),
    }
}

fn answer_of(alloc: Global, call: &Call, disk: &mut MemoryDisk) -> Result<String, Fail> {
    let wires = wires_of(alloc, call.peers.as_slice())?;
    let mut door = MemoryDoor::new(alloc, wires, calls_from(alloc, call.door, call.times)?);
    let mut out = MemorySink::new(alloc, calls_from(alloc, call.sink, 1)?);
    let answer = serve_at(alloc, call, disk, &mut door, &mut out)?;
    compare_written(call, &out)?;
    compare_sent(call, &door)?;
    Ok(answer)
}

fn serve_at(
    alloc: Global,
    call: &Call,
    disk: &mut MemoryDisk,
    door: &mut MemoryDoor,
    out: &mut MemorySink,
) -> Result<String, Fail> {
    let mut clock = MemoryClock::new(calls_from(alloc, call.clock, 1)?);
    let size = disk.bytes().len() as u64;
    let limit = size.saturating_add(call.room).min(LIMIT).max(9);
    let Ok(Some(master)) = MasterEngine::open(alloc, disk, limit, "c") else {
        return Err(Fail::new("the journal has no master"));
    };
    let answered = serve_connections(
        alloc,
        master,
        7000,
        call.connections,
        door,
        disk,
        &mut clock,
        out,
    );
    Ok(shown(alloc, size, answered.err().as_ref())?)
}

// What the call came to, with how far a full journal would have grown and may grow.
fn shown(alloc: Global, size: u64, fault: Option<&ServeFault>) -> Result<String, AllocError> {
    match fault {
        None => String::from_str(alloc, "ok"),
        Some(ServeFault::Door) => String::from_str(alloc, "door"),
        Some(ServeFault::Sink) => String::from_str(alloc, "sink"),
        Some(ServeFault::Stopped(Stop::Full { would, limit })) => {
            let would = would.saturating_sub(size);
            let limit = limit.saturating_sub(size);
            format!(in alloc; "full {would} {limit}")
        }
        Some(ServeFault::Stopped(_)) => String::from_str(alloc, "another stop"),
    }
}

// The wires of peers, in turn. None was used.
fn wires_of(alloc: Global, peers: &[Peer]) -> Result<Vec<MemoryWire>, AllocError>
    ensures { IfOk result (λ wires. Unused wires.items) }
{
    let mut wires = Vec::new(alloc);
    for peer in peers {
        let bytes = Vec::from_slice(alloc, peer.input.as_str().as_bytes())?;
        let fails = calls_from(alloc, peer.fails, 1)?;
        wires.push(MemoryWire::new(alloc, bytes, 65_536, fails))?;
    }
    Ok(wires)
}

// A list of so many numbers from one on, or of none where that is 0.
fn calls_from(alloc: Global, number: u64, count: u64) -> Result<Vec<u64>, AllocError> {
    let mut calls = Vec::new(alloc);
    if number > 0 {
        for i in 0..count {
            calls.push(number.saturating_add(i))?;
        }
    }
    Ok(calls)
}

fn compare_written(call: &Call, out: &MemorySink) -> Result<(), Fail> {
    let due = call.written.as_str();
    if out.bytes() == due.as_bytes() {
        return Ok(());
    }
    Err(Fail::new(format_args!("other lines are written than {due}")))
}

fn compare_sent(call: &Call, door: &MemoryDoor) -> Result<(), Fail> {
    let closed = door.closed_wires();
    if closed.len() != call.peers.len() {
        return Err(Fail::new("a wire isn't handed back"));
    }
    for (wire, peer) in closed.iter().zip(call.peers.as_slice()) {
        let due = peer.due.as_str();
        if wire.sent() != due.as_bytes() {
            return Err(Fail::new(format_args!("other bytes are sent than {due}")));
        }
    }
    Ok(())
}
