// Connections to a master: what is sent, and how each ends.
//
// A case is one journal, and connections to it one after another. HASH stands for the schema's,
// SPACE for a space.
//
//     == paging                          what the case is about
//     = request 1                        a connection: how it ends, after so many requests
//     > {"ask":"pull",..}                a line that the peer sends
//     ~ {"ask"                           what it sends without an end
//     < {"docs":[],..}                   a line that is due
ghost use Rattle.std.specs.Prelude.{◌<◌};

use crate::compared::compare;
use rx_disk::MemoryDisk;
use rx_host::MasterEngine;
use rx_outside::{MemoryClock, MemoryWire};
use rx_record::Record;
use rx_schema::Schema;
use rx_serve::{Ended, Why};
use rx_value::RxText;
use serde_json::Value as Json;
use std::alloc::{AllocError, Global};
use std::test::Fail;

const SCHEMA: &str =
    r#"{"version":0,"primaryKey":"id","type":"object","properties":{"id":{"type":"string","maxLength":20},"n":{"type":"integer"}},"required":["id"]}"#;

pub(crate) const LIMIT: u64 = 268_435_456;

const CASES: &str = r#"
== a request, and the same with a space too many
= request 1
> {"ask":"pull","batch":100,"epoch":1,"n":1,"schema":HASH}
> {SPACE"ask":"pull","batch":100,"epoch":1,"n":1,"schema":HASH}
> {"ask":"pull","batch":100,"epoch":1,"n":2,"schema":HASH}
< {"docs":[],"epoch":1,"n":1}
< {"fault":"spelling"}

== a peer that sends nothing, one that goes away in mid-line, and bytes that are no request
= peer 0
= peer 1
> {"ask":"pull","batch":1,"epoch":1,"n":1,"schema":HASH}
~ {"ask":"pull","batch":1
< {"docs":[],"epoch":1,"n":1}
= request 0
> hello
< {"fault":"not_json"}

== paging: five documents of one commit, two at a time
= peer 5
> {"ask":"push","epoch":1,"n":1,"rows":[{"new":{"_deleted":false,"id":"g"}},{"new":{"_deleted":false,"id":"a"}},{"new":{"_deleted":false,"id":"e"}},{"new":{"_deleted":false,"id":"b"}},{"new":{"_deleted":false,"id":"d"}}],"schema":HASH}
> {"ask":"pull","batch":2,"epoch":1,"n":2,"schema":HASH}
> {"ask":"pull","batch":2,"epoch":1,"n":3,"place":{"id":"b","lwt":1},"schema":HASH}
> {"ask":"pull","batch":2,"epoch":1,"n":4,"place":{"id":"e","lwt":1},"schema":HASH}
> {"ask":"pull","batch":2,"epoch":1,"n":5,"place":{"id":"g","lwt":1},"schema":HASH}
< {"conflicts":[],"epoch":1,"n":1}
< {"docs":[{"_deleted":false,"id":"a"},{"_deleted":false,"id":"b"}],"epoch":1,"n":2,"place":{"id":"b","lwt":1}}
< {"docs":[{"_deleted":false,"id":"d"},{"_deleted":false,"id":"e"}],"epoch":1,"n":3,"place":{"id":"e","lwt":1}}
< {"docs":[{"_deleted":false,"id":"g"}],"epoch":1,"n":4,"place":{"id":"g","lwt":1}}
< {"docs":[],"epoch":1,"n":5,"place":{"id":"g","lwt":1}}

== two peers race for one document, by turns: the second meets what the first wrote
= peer 1
> {"ask":"push","epoch":1,"n":1,"rows":[{"new":{"_deleted":false,"id":"a","n":1}}],"schema":HASH}
< {"conflicts":[],"epoch":1,"n":1}
= peer 1
> {"ask":"push","epoch":7,"n":1,"rows":[{"new":{"_deleted":false,"id":"a","n":2}}],"schema":HASH}
< {"conflicts":[{"_deleted":false,"id":"a","n":1}],"epoch":7,"n":1}
= peer 1
> {"ask":"push","epoch":7,"n":2,"rows":[{"assumed":{"_deleted":false,"id":"a","n":1},"new":{"_deleted":false,"id":"a","n":2}}],"schema":HASH}
< {"conflicts":[],"epoch":7,"n":2}
= peer 2
> {"ask":"push","epoch":1,"n":2,"rows":[{"assumed":{"_deleted":false,"id":"a","n":1},"new":{"_deleted":true,"id":"a","n":1}}],"schema":HASH}
> {"ask":"pull","batch":1,"epoch":1,"n":3,"schema":HASH}
< {"conflicts":[{"_deleted":false,"id":"a","n":2}],"epoch":1,"n":2}
< {"docs":[{"_deleted":false,"id":"a","n":2}],"epoch":1,"n":3,"place":{"id":"a","lwt":2}}
"#;

// A wire that gives byte by byte changes nothing.
#[test]
fn connections_are_served_as_is_due(rt: HostRuntime) -> Result<(), Fail> {
    play_all(rt.alloc(), 65_536)?;
    play_all(rt.alloc(), 1)
}

// A push and a pull, and the replies to them.
const BOTH: &str =
    r#"{"ask":"push","epoch":1,"n":1,"rows":[{"new":{"_deleted":false,"id":"a"}}],"schema":HASH}
{"ask":"pull","batch":1,"epoch":1,"n":2,"schema":HASH}
"#;

const REPLIES: &str = r#"{"conflicts":[],"epoch":1,"n":1}
{"docs":[{"_deleted":false,"id":"a"}],"epoch":1,"n":2,"place":{"id":"a","lwt":1}}
"#;

#[test]
fn each_call_of_a_wire_may_fail(rt: HostRuntime) -> Result<(), Fail> {
    let alloc = rt.alloc();
    let hash = hash(alloc)?;
    let input = BOTH.replace(alloc, "HASH", hash.as_str())?;
    for call in 1..12 {
        fail_at(alloc, hash.as_str(), input.as_str(), call)?;
    }
    Ok(())
}

// A commit of whose reply a byte was sent is in the journal, whichever call of the wire fails.
fn fail_at(alloc: Global, hash: &str, input: &str, call: u64) -> Result<(), Fail> {
    let mut disk = journal(alloc)?;
    let fails = Vec::from_slice(alloc, &[call])?;
    let (sent, ended) = serve(alloc, &mut disk, input, 60, fails)?;
    if !REPLIES.as_bytes().starts_with(sent.as_slice()) {
        return Err(Fail::new("what was sent is no front of what is due"));
    }
    if sent.len() < REPLIES.len() && ended.why != Why::Wire {
        return Err(Fail::new("a reply is missing"));
    }
    if sent.len() > 0 && held(alloc, disk.bytes(), hash)? == 0 {
        return Err(Fail::new("a commit is missing whose reply was sent"));
    }
    Ok(())
}

// More than the calls that two pushes make.
const CALLS: u64 = 32;

// What may stand in the bytes that a stop left open.
const PICKS: [&[u8]; 3] = [&[], &[1; 400], &[255; 400]];

const PUSHES: &str =
    r#"{"ask":"push","epoch":1,"n":1,"rows":[{"new":{"_deleted":false,"id":"a"}}],"schema":HASH}
{"ask":"push","epoch":1,"n":2,"rows":[{"new":{"_deleted":false,"id":"b"}}],"schema":HASH}
"#;

// The disk fails at each call in turn, and stops within it or after it: each answered push is
// there, and at most the one that was being answered besides.
#[test]
fn each_call_of_a_disk_may_fail_and_stop(rt: HostRuntime) -> Result<(), Fail> {
    let alloc = rt.alloc();
    let hash = hash(alloc)?;
    let input = PUSHES.replace(alloc, "HASH", hash.as_str())?;
    let mut most = 0;
    for failing in 1..CALLS {
        most = most.max(stop_at(alloc, hash.as_str(), input.as_str(), failing)?);
    }
    assert_eq!(rt; most, 2);
    Ok(())
}

// How many of the pushes are answered where this call fails; each of them is there after a stop.
fn stop_at(alloc: Global, hash: &str, input: &str, failing: u64) -> Result<usize, Fail> {
    let mut disk = journal_that_fails(alloc, failing)?;
    let answered = pushed(alloc, &mut disk, input)?;
    for stop in failing..failing.saturating_add(2) {
        for pick in PICKS {
            let bytes = disk.stopped(stop, pick)?;
            let held = held(alloc, bytes.as_slice(), hash)?;
            if held < answered || held > answered.saturating_add(1) {
                return Err(Fail::new(format_args!(
                    "call {failing} fails, stop within {stop}: {held} for {answered}"
                )));
            }
        }
    }
    Ok(answered)
}

fn journal_that_fails(alloc: Global, failing: u64) -> Result<MemoryDisk, Fail> {
    let disk = journal(alloc)?;
    let bytes = Vec::from_slice(alloc, disk.bytes())?;
    let fails = Vec::from_slice(alloc, &[failing])?;
    Ok(MemoryDisk::new(alloc, bytes, fails))
}

// How many of the pushes were answered, on a disk that may fail.
fn pushed(alloc: Global, disk: &mut MemoryDisk, input: &str) -> Result<usize, Fail> {
    let bytes = Vec::from_slice(alloc, input.as_bytes())?;
    let mut wire = MemoryWire::new(alloc, bytes, 65_536, Vec::new(alloc));
    // A disk that fails is no fault of the test.
    let _ = serve_wire(alloc, disk, &mut wire);
    Ok(str::from_utf8(wire.sent())?.lines().count())
}

// How many documents a journal holds, which opens.
fn held(alloc: Global, bytes: &[u8], hash: &str) -> Result<usize, Fail> {
    let pull = format!(in alloc;
        "{{\"ask\":\"pull\",\"batch\":100,\"epoch\":2,\"n\":1,\"schema\":{hash}}}\n"
    )?;
    let mut disk = MemoryDisk::new(alloc, Vec::from_slice(alloc, bytes)?, Vec::new(alloc));
    let (sent, _) = serve(alloc, &mut disk, pull.as_str(), 65_536, Vec::new(alloc))?;
    Ok(str::from_utf8(sent.as_slice())?.matches("_deleted").count())
}

#[test]
fn a_collection_that_is_not_held_has_no_master(rt: HostRuntime) -> Result<(), Fail> {
    let alloc = rt.alloc();
    let mut disk = journal(alloc)?;
    match MasterEngine::open(alloc, &mut disk, LIMIT, "d") {
        Ok(None) => Ok(()),
        _ => Err(Fail::new("a master of a collection that isn't held")),
    }
}

fn play_all(alloc: Global, piece: usize) -> Result<(), Fail>
    requires { 0 < piece }
{
    let hash = hash(alloc)?;
    let cases = CASES.replace(alloc, "HASH", hash.as_str())?;
    let cases = cases.as_str().replace(alloc, "SPACE", " ")?;
    let mut played = 0u64;
    for case in cases.as_str().split("\n== ").skip(1) {
        play(alloc, piece, case)?;
        played = played.saturating_add(1);
    }
    if played == 0 {
        return Err(Fail::new("a text without cases"));
    }
    Ok(())
}

// Plays the connections of a case over one journal, one behind another.
fn play(alloc: Global, piece: usize, case: &str) -> Result<(), Fail>
    requires { 0 < piece }
{
    let mut disk = journal(alloc)?;
    for connection in case.split("\n= ").skip(1) {
        connect(alloc, &mut disk, piece, connection)?;
    }
    Ok(())
}

fn connect(alloc: Global, disk: &mut MemoryDisk, piece: usize, connection: &str) -> Result<(), Fail>
    requires { 0 < piece }
{
    let (end, lines) = connection.split_once('\n').unwrap_or((connection, ""));
    let (input, due) = sides(alloc, lines)?;
    let (sent, ended) = serve(alloc, disk, input.as_str(), piece, Vec::new(alloc))?;
    if sent.as_slice() != due.as_str().as_bytes() {
        return Err(Fail::new(format_args!("other bytes than those due: {due}")));
    }
    compare_end(alloc, &ended, end)
}

fn compare_end(alloc: Global, ended: &Ended, due: &str) -> Result<(), Fail> {
    let shown = shown(alloc, ended)?;
    compare("it ends by", due, shown.as_str())
}

// What the peer of a connection sends, and what it is due to be sent.
fn sides(alloc: Global, lines: &str) -> Result<(String, String), AllocError> {
    let mut input = String::new(alloc);
    let mut due = String::new(alloc);
    for line in lines.lines() {
        let (mark, text) = line.split_once(' ').unwrap_or((line, ""));
        match mark {
            ">" => write!(input, "{text}\n")?,
            "~" => input.push_str(text)?,
            "<" => write!(due, "{text}\n")?,
            _ => {}
        }
    }
    Ok((input, due))
}

// Serves a peer that sends this, and says what it was sent and how it ended.
fn serve(
    alloc: Global,
    disk: &mut MemoryDisk,
    input: &str,
    piece: usize,
    fails: Vec<u64>,
) -> Result<(Vec<u8>, Ended), Fail>
    requires { 0 < piece }
{
    let bytes = Vec::from_slice(alloc, input.as_bytes())?;
    let mut wire = MemoryWire::new(alloc, bytes, piece, fails);
    match serve_wire(alloc, disk, &mut wire) {
        Some(ended) => Ok((Vec::from_slice(alloc, wire.sent())?, ended)),
        None => Err(Fail::new("no master, or a stop")),
    }
}

// Opens the journal and serves what comes over a wire, where neither is stopped.
fn serve_wire(alloc: Global, disk: &mut MemoryDisk, wire: &mut MemoryWire) -> Option<Ended> {
    let Ok(Some(master)) = MasterEngine::open(alloc, disk, LIMIT, "c") else {
        return None;
    };
    let mut clock = MemoryClock::new(Vec::new(alloc));
    match master.serve(alloc, wire, disk, &mut clock) {
        Ok((_, ended)) => Some(ended),
        Err(_) => None,
    }
}

// A journal that holds the collection.
pub(crate) fn journal(alloc: Global) -> Result<MemoryDisk, Fail> {
    let mut bytes = Vec::from_slice(alloc, b"RXJOURN1")?;
    add_record(alloc, &mut bytes, collection(alloc, "c")?)?;
    bytes.push(0)?;
    Ok(MemoryDisk::new(alloc, bytes, Vec::new(alloc)))
}

// Adds a record behind its open gate.
pub(crate) fn add_record(alloc: Global, bytes: &mut Vec<u8>, entry: Record) -> Result<(), Fail> {
    let body = entry.write(alloc)?;
    add_body(bytes, body.as_slice())
}

fn add_body(bytes: &mut Vec<u8>, body: &[u8]) -> Result<(), Fail> {
    let Ok(count) = u32::try_from(body.len()) else {
        return Err(Fail::new("a long body"));
    };
    bytes.push(1)?;
    bytes.extend_from_slice(&count.to_be_bytes())?;
    bytes.extend_from_slice(body)?;
    Ok(())
}

// The record of a collection of the schema.
pub(crate) fn collection(alloc: Global, name: &str) -> Result<Record, Fail> {
    let schema = schema(alloc)?;
    let canonical = schema.canonical().copy(alloc)?;
    Ok(Record::Collection {
        name: RxText::new(alloc, name)?,
        schema: canonical,
    })
}

/// The canonical text of a schema that differs from that one as its name says, or another text.
pub(crate) fn schema_like(alloc: Global, name: &str) -> Result<RxText, Fail> {
    let text = match name {
        "same" => String::from_str(alloc, SCHEMA)?,
        "next" => SCHEMA.replace(alloc, ":0,", ":1,")?,
        "second" => SCHEMA.replace(alloc, ":0,", ":2,")?,
        "counted" => {
            let next = SCHEMA.replace(alloc, ":0,", ":1,")?;
            next.as_str().replace(alloc, "\"n\"", "\"count\"")?
        }
        "keyed" => {
            let next = SCHEMA.replace(alloc, ":0,", ":1,")?;
            next.as_str().replace(alloc, "\"id\"", "\"key\"")?
        }
        _ => return Ok(RxText::new(alloc, name)?),
    };
    let schema = Schema::read(alloc, &Json::from_str(alloc, text.as_str())?)?;
    Ok(schema.canonical().copy(alloc)?)
}

pub(crate) fn schema(alloc: Global) -> Result<Schema, Fail> {
    Ok(Schema::read(alloc, &Json::from_str(alloc, SCHEMA)?)?)
}

// Its hash as JSON.
pub(crate) fn hash(alloc: Global) -> Result<String, Fail> {
    let schema = schema(alloc)?;
    let hash = schema.hash().as_str();
    Ok(format!(in alloc; "\"{hash}\"")?)
}

fn shown(alloc: Global, ended: &Ended) -> Result<String, AllocError> {
    let why = match ended.why {
        Why::Peer => "peer",
        Why::Request => "request",
        Why::Clock => "clock",
        Why::Wire => "wire",
    };
    let requests = ended.requests;
    format!(in alloc; "{why} {requests}")
}
