// Messages: the fault of each wrong line and which of two comes first, and texts that read back.
//
// A case is a line and what is told of it: its fault with what the fault tells, or `read`, where
// what is read has the line as its text. In a line HASH stands for the schema's, SPACE for a space.
//
//     == another schema                          what the cases are about
//     > {"ask":"pull",..,"schema":""}            a line
//     < schema                                   what is told of it
use crate::compared;
use rx_schema::Schema;
use rx_value::RxText;
use rx_wire::{AskKind, LONGEST_LINE, MOST_STATES, Reply, Request, WireFault};
use serde_json::Value as Json;
use std::alloc::{AllocError, Global};
use std::test::Fail;

const SCHEMA: &str =
    r#"{"version":0,"primaryKey":"id","type":"object","properties":{"Z":{"type":"boolean"},"id":{"type":"string","maxLength":20},"n":{"type":"integer"}}}"#;

// What sha256sum prints of its canonical text.
const HASH: &str = r#""b931cf3ab834211c10933ce8177bef8b088363632c10f027fedd160a3fccd27a""#;

const REQUESTS: &str = r#"
== the two requests, with and without what may be missing
> {"ask":"pull","batch":100,"epoch":1,"n":1,"schema":HASH}
< read
> {"ask":"pull","batch":1,"epoch":9007199254740991,"n":9007199254740991,"place":{"id":"","lwt":9007199254740991},"schema":HASH}
< read
> {"ask":"push","epoch":1,"n":1,"rows":[{"new":{"_deleted":false,"id":"a"}}],"schema":HASH}
< read
> {"ask":"push","epoch":1,"n":1,"rows":[{"assumed":{"Z":true,"_deleted":false,"id":"a"},"new":{"_deleted":true,"id":"a","n":-5}},{"new":{"_deleted":false,"id":"b"}}],"schema":HASH}
< read

== no JSON
>
< not_json
> {
< not_json
> {"ask":"pull",}
< not_json
> [}
< not_json

== no object
> []
< not_object
> null
< not_object
> "{}"
< not_object

== a member that is missing: `ask` first, and then the first by name
> {}
< missing ask
> {"z":1}
< missing ask
> {"ask":"pull"}
< missing batch
> {"ask":"pull","batch":0,"z":1}
< missing epoch
> {"ask":"pull","batch":1,"epoch":1,"n":1}
< missing schema
> {"ask":"push","epoch":1,"n":1,"schema":"x"}
< missing rows
> {"ask":"push","batch":1,"epoch":1,"rows":[],"schema":"x"}
< missing n

== another member: the first by bytes
> {"ask":"pull","batch":0,"epoch":1,"n":1,"rows":[],"schema":HASH}
< unexpected rows
> {"ask":"pull","batch":1,"epoch":1,"n":1,"a":1,"Ask":1,"schema":HASH}
< unexpected Ask
> {"ask":"push","epoch":1,"n":1,"rows":[],"place":{"id":"a","lwt":1},"schema":HASH}
< unexpected place
> {"ask":"push","epoch":1,"n":1,"rows":[],"batch":1,"schema":HASH}
< unexpected batch

== a member of the wrong type; an unknown `ask` passes over the tests before
> {"ask":5}
< wrong_type ask
> {"ask":null,"z":1}
< wrong_type ask
> {"ask":"sync","z":1}
< wrong_type ask
> {"ask":"Pull"}
< wrong_type ask
> {"ask":"pull","batch":0,"epoch":1,"n":1,"schema":HASH}
< wrong_type batch
> {"ask":"pull","batch":101,"epoch":0,"n":1,"schema":HASH}
< wrong_type batch
> {"ask":"pull","batch":1.0,"epoch":1,"n":1,"schema":HASH}
< wrong_type batch
> {"ask":"pull","batch":1,"epoch":0,"n":0,"schema":HASH}
< wrong_type epoch
> {"ask":"pull","batch":1,"epoch":9007199254740992,"n":1,"schema":HASH}
< wrong_type epoch
> {"ask":"pull","batch":1,"epoch":1,"n":"1","place":5,"schema":HASH}
< wrong_type n
> {"ask":"pull","batch":1,"epoch":1,"n":1,"place":null,"schema":HASH}
< wrong_type place
> {"ask":"pull","batch":1,"epoch":1,"n":1,"place":{"id":"a","lwt":0},"schema":HASH}
< wrong_type place
> {"ask":"pull","batch":1,"epoch":1,"n":1,"place":{"id":"a"},"schema":HASH}
< wrong_type place
> {"ask":"pull","batch":1,"epoch":1,"n":1,"place":{"id":"a","lwt":1,"z":1},"schema":HASH}
< wrong_type place
> {"ask":"pull","batch":1,"epoch":1,"n":1,"place":{"id":5,"lwt":1},"schema":5}
< wrong_type place
> {"ask":"pull","batch":1,"epoch":1,"n":1,"schema":5}
< wrong_type schema
> {"ask":"push","epoch":1,"n":1,"rows":{},"schema":HASH}
< wrong_type rows
> {"ask":"push","epoch":1,"n":1,"rows":[],"schema":HASH}
< wrong_type rows
> {"ask":"push","epoch":1,"n":1,"rows":[{"_deleted":false,"id":"a"}],"schema":HASH}
< wrong_type rows
> {"ask":"push","epoch":1,"n":1,"rows":[{"assumed":null,"new":{"_deleted":false,"id":"a"}}],"schema":HASH}
< wrong_type rows
> {"ask":"push","epoch":1,"n":1,"rows":[{"new":{"_deleted":false,"id":"a"},"old":{"_deleted":false,"id":"a"}}],"schema":HASH}
< wrong_type rows
> {"ask":"push","epoch":1,"n":1,"rows":[{"new":{"id":"a"}}],"schema":HASH}
< wrong_type rows
> {"ask":"push","epoch":1,"n":1,"rows":[{"new":{"_deleted":false,"id":"a"}},{"new":{"_deleted":0,"id":"b"}}],"schema":HASH}
< wrong_type rows
> {"ask":"push","epoch":1,"n":1,"rows":[],"schema":5}
< wrong_type rows
> {"ask":"push","epoch":1,"n":1,"rows":[{"new":{"_deleted":false,"id":"a"}}],"schema":null}
< wrong_type schema

== another schema
> {"ask":"pull","batch":1,"epoch":1,"n":1,"schema":""}
< schema
> {"ask":"push","epoch":1,"n":1,"rows":[{"new":{"_deleted":false}}],"schema":"x"}
< schema

== a row at fault: the first
> {"ask":"push","epoch":1,"n":1,"rows":[{"new":{"_deleted":false}}],"schema":HASH}
< invalid 0
> {"ask":"push","epoch":1,"n":1,"rows":[{"new":{"_deleted":false,"id":""}}],"schema":HASH}
< invalid 0
> {"ask":"push","epoch":1,"n":1,"rows":[{"new":{"_deleted":false,"id":5}}],"schema":HASH}
< invalid 0
> {"ask":"push","epoch":1,"n":1,"rows":[{"new":{"_deleted":false,"id":"a"}},{"new":{"_deleted":false,"id":"b","n":null}}],"schema":HASH}
< invalid 1
> {"ask":"push","epoch":1,"n":1,"rows":[{"new":{"_deleted":false,"id":"a"}},{"new":{"_deleted":false,"id":"b","n":1.5}}],"schema":HASH}
< invalid 1
> {"ask":"push","epoch":1,"n":1,"rows":[{"new":{"_deleted":false,"id":"a","z":1}},{"new":{"_deleted":false,"id":"a"}}],"schema":HASH}
< invalid 0
> {"ask":"push","epoch":1,"n":1,"rows":[{"assumed":{"_deleted":false,"id":"b"},"new":{"_deleted":false,"id":"a"}}],"schema":HASH}
< invalid 0
> {"ask":"push","epoch":1,"n":1,"rows":[{"assumed":{"_deleted":false,"id":"a","n":"5"},"new":{"_deleted":false,"id":"a"}}],"schema":HASH}
< invalid 0
> {"ask":"push","epoch":1,"n":1,"rows":[{"new":{"_deleted":false,"id":"a"}},{"new":{"_deleted":false,"id":"b"}},{"new":{"_deleted":false,"id":"a"}}],"schema":HASH}
< invalid 2
> {"ask":"push","epoch":1,"n":1,"rows":[{"new":{"_deleted":false,"id":"a"}},{"new":{"_deleted":true,"id":"a"}},{"new":{"_deleted":true}}],"schema":HASH}
< invalid 1

== another spelling: the first byte that differs
> { "ask":"pull","batch":100,"epoch":1,"n":1,"schema":HASH}
< spelling 1
> {"ask":"pull","batch":100,"epoch":1,"n":1,"schema":HASH}SPACE
< spelling 118
> {"batch":1,"ask":"pull","epoch":1,"n":1,"schema":HASH}
< spelling 2
> {"ask":"pull","batch":1,"batch":2,"epoch":1,"n":1,"schema":HASH}
< spelling 22
> {"ask":"pull","batch":1,"epoch":1,"n":1,"place":{"id":"\u0061","lwt":1},"schema":HASH}
< spelling 55
> {"ask":"push","epoch":1,"n":1,"rows":[{"new":{"id":"a","_deleted":false}}],"schema":HASH}
< spelling 47
> {"ask":"push","epoch":1,"n":1,"rows":[{"new":{"_deleted":false,"Z":true,"id":"a"}}],"schema":HASH}
< spelling 47
"#;

const REPLIES: &str = r#"
== the two replies, with and without what may be missing
> {"conflicts":[],"epoch":1,"n":1}
< read
> {"conflicts":[{"Z":false,"_deleted":true,"id":"a","n":9007199254740991},{"_deleted":false,"id":"b"}],"epoch":1,"n":1}
< read
> {"docs":[],"epoch":1,"n":1}
< read
> {"docs":[{"_deleted":false,"id":"b"},{"_deleted":false,"id":"a"}],"epoch":1,"n":1,"place":{"id":"a","lwt":7}}
< read

== no JSON
> {"docs":[]
< not_json
> {'docs':[]}
< not_json

== no object
> [{"docs":[]}]
< not_object
> true
< not_object

== a member that is missing: `conflicts` tells the form
> {}
< missing docs
> {"epoch":0,"z":1}
< missing docs
> {"docs":5,"n":1}
< missing epoch
> {"conflicts":null}
< missing epoch
> {"conflicts":[],"docs":[],"epoch":1}
< missing n

== another member
> {"conflicts":5,"epoch":1,"n":1,"docs":[]}
< unexpected docs
> {"conflicts":[],"epoch":1,"n":1,"place":{"id":"a","lwt":1}}
< unexpected place
> {"docs":5,"epoch":1,"n":1,"rows":[]}
< unexpected rows
> {"docs":[],"epoch":1,"n":1,"schema":HASH}
< unexpected schema

== a member of the wrong type
> {"conflicts":{},"epoch":1,"n":1}
< wrong_type conflicts
> {"conflicts":[5],"epoch":1,"n":1}
< wrong_type conflicts
> {"conflicts":null,"epoch":0,"n":0}
< wrong_type conflicts
> {"docs":[{"id":"a"}],"epoch":1,"n":1}
< wrong_type docs
> {"docs":[],"epoch":0,"n":0}
< wrong_type epoch
> {"conflicts":[{"_deleted":false}],"epoch":1,"n":-1}
< wrong_type n
> {"docs":[{"_deleted":false}],"epoch":1,"n":1,"place":{"id":"a","lwt":9007199254740992}}
< wrong_type place
> {"docs":[],"epoch":1,"n":1,"place":[]}
< wrong_type place

== a state at fault: the first
> {"conflicts":[{"_deleted":false}],"epoch":1,"n":1}
< invalid 0
> {"conflicts":[{"_deleted":false,"id":"a"},{"_deleted":false,"id":"b"},{"_deleted":false,"id":"a"}],"epoch":1,"n":1}
< invalid 2
> {"docs":[{"_deleted":false,"id":"a"},{"_deleted":false,"id":"123456789012345678901"}],"epoch":1,"n":1}
< invalid 1
> {"docs":[{"_deleted":false,"id":"a"},{"_deleted":true,"id":"a"},{"_deleted":true}],"epoch":1,"n":1}
< invalid 1

== another spelling
> {"docs": [],"epoch":1,"n":1}
< spelling 8
> {"epoch":1,"docs":[],"n":1}
< spelling 2
> {"conflicts":[],"epoch":1,"n":1}SPACE
< spelling 32
"#;

#[derive(Clone, Copy, Drop)]
enum Kind {
    Request,
    Reply,
}

#[test]
fn a_message_is_read_or_its_first_fault_told(rt: HostRuntime) -> Result<(), Fail> {
    for (kind, cases) in [(Kind::Request, REQUESTS), (Kind::Reply, REPLIES)] {
        play_all(rt.alloc(), kind, cases)?;
    }
    Ok(())
}

// Plays the cases: each line up to the next, with what is told of it.
fn play_all(alloc: Global, kind: Kind, cases: &str) -> Result<(), Fail> {
    let schema = schema(alloc)?;
    let mut played = 0u64;
    for case in cases.split("\n>").skip(1) {
        play(alloc, &schema, kind, case)?;
        played = played.saturating_add(1);
    }
    if played == 0 {
        return Err(Fail::new("a text without cases"));
    }
    Ok(())
}

fn play(alloc: Global, schema: &Schema, kind: Kind, case: &str) -> Result<(), Fail> {
    let Some((short, rest)) = case.split_once("\n< ") else {
        return Err(Fail::new("a line of which nothing is told"));
    };
    let due = rest.lines().next().unwrap_or("");
    let line = long(alloc, short.trim_start())?;
    compare(alloc, schema, kind, line.as_str(), due)
}

// The line that a short one stands for.
fn long(alloc: Global, short: &str) -> Result<String, AllocError> {
    let line = short.replace(alloc, "HASH", HASH)?;
    line.as_str().replace(alloc, "SPACE", " ")
}

fn compare(alloc: Global, schema: &Schema, kind: Kind, line: &str, due: &str) -> Result<(), Fail> {
    let told = told(alloc, schema, kind, line)?;
    compared::compare(line, due, told.as_str())
}

// What is told of a line.
fn told(alloc: Global, schema: &Schema, kind: Kind, line: &str) -> Result<RxText, AllocError> {
    let text = match kind {
        Kind::Request => text_of_request(alloc, schema, line)?,
        Kind::Reply => text_of_reply(alloc, schema, line)?,
    };
    if text.as_str() == line {
        return RxText::new(alloc, "read");
    }
    Ok(text)
}

// The text of the request that is read, or its fault.
fn text_of_request(alloc: Global, schema: &Schema, line: &str) -> Result<RxText, AllocError> {
    match Request::read(alloc, line.as_bytes(), schema) {
        Ok(request) => request.text(alloc, schema),
        Err(fault) => RxText::from_string(alloc, shown(alloc, &fault)?),
    }
}

// The text of the reply that is read, or its fault.
fn text_of_reply(alloc: Global, schema: &Schema, line: &str) -> Result<RxText, AllocError> {
    match Reply::read(alloc, line.as_bytes(), schema) {
        Ok(reply) => reply.text(alloc),
        Err(fault) => RxText::from_string(alloc, shown(alloc, &fault)?),
    }
}

#[test]
fn a_message_has_at_most_a_hundred_states(rt: HostRuntime) -> Result<(), Fail> {
    let alloc = rt.alloc();
    let schema = schema(alloc)?;
    for (count, due) in [(1, true), (MOST_STATES, true), (MOST_STATES + 1, false)] {
        compare_count(alloc, &schema, count, due)?;
    }
    Ok(())
}

fn compare_count(alloc: Global, schema: &Schema, count: usize, due: bool) -> Result<(), Fail> {
    let push = is_push_read(alloc, schema, count)?;
    let page = is_page_read(alloc, schema, count)?;
    if push == due && page == due {
        return Ok(());
    }
    Err(Fail::new(format_args!("{count} states")))
}

// Whether a push of so many rows is read.
fn is_push_read(alloc: Global, schema: &Schema, count: usize) -> Result<bool, AllocError> {
    let rows = listed(alloc, count, "{\"new\":", "}")?;
    let push = format!(in alloc;
        "{{\"ask\":\"push\",\"epoch\":1,\"n\":1,\"rows\":{rows},\"schema\":{HASH}}}"
    )?;
    Ok(Request::read(alloc, push.as_str().as_bytes(), schema).is_ok())
}

// Whether the reply to a pull with so many states is read.
fn is_page_read(alloc: Global, schema: &Schema, count: usize) -> Result<bool, AllocError> {
    let states = listed(alloc, count, "", "")?;
    let docs = format!(in alloc; "{{\"docs\":{states},\"epoch\":1,\"n\":1}}")?;
    Ok(Reply::read(alloc, docs.as_str().as_bytes(), schema).is_ok())
}

#[test]
fn a_line_has_a_longest_length(rt: HostRuntime) -> Result<(), Fail> {
    let alloc = rt.alloc();
    let line = " ".repeat(alloc, LONGEST_LINE + 1)?;
    let schema = schema(alloc)?;
    for kind in [Kind::Request, Kind::Reply] {
        compare(alloc, &schema, kind, line.as_str(), "too_long")?;
    }
    Ok(())
}

#[test]
fn the_members_of_a_pull_are_its_parts(rt: HostRuntime) -> Result<(), Fail> {
    let alloc = rt.alloc();
    let line = long(
        alloc,
        r#"{"ask":"pull","batch":3,"epoch":4,"n":5,"place":{"id":"k","lwt":6},"schema":HASH}"#,
    )?;
    let schema = schema(alloc)?;
    match Request::read(alloc, line.as_str().as_bytes(), &schema) {
        Ok(request) => compare_parts(&request),
        Err(_) => Err(Fail::new("a line that is no request")),
    }
}

fn compare_parts(request: &Request) -> Result<(), Fail> {
    let AskKind::Pull {
        place: Some(place),
        batch,
    } = &request.ask
    else {
        return Err(Fail::new("another pull"));
    };
    let numbers = (*batch, request.epoch, request.n, place.lwt);
    if numbers == (3, 4, 5, 6) && place.id.as_str() == "k" {
        return Ok(());
    }
    Err(Fail::new("other parts"))
}

#[test]
fn a_fault_is_told_by_its_name(rt: HostRuntime) -> Result<(), Fail> {
    let alloc = rt.alloc();
    let fault = WireFault::Missing(RxText::new(alloc, "ask")?);
    assert_eq!(&rt; fault.text(alloc)?.as_str(), r#"{"fault":"missing"}"#);
    assert_eq!(&rt;
        WireFault::TooLong.text(alloc)?.as_str(),
        r#"{"fault":"too_long"}"#
    );
    Ok(())
}

fn schema(alloc: Global) -> Result<Schema, Fail> {
    Ok(Schema::read(alloc, &Json::from_str(alloc, SCHEMA)?)?)
}

// The name of a fault, and what it tells.
fn shown(alloc: Global, fault: &WireFault) -> Result<String, AllocError> {
    let name = fault.name();
    match fault {
        WireFault::Missing(member) | WireFault::Unexpected(member) | WireFault::WrongType(member) =>
            {
                let member = member.as_str();
                format!(in alloc; "{name} {member}")
            }
        WireFault::Invalid(at) | WireFault::Spelling(at) => format!(in alloc; "{name} {at}"),
        _ => String::from_str(alloc, name),
    }
}

// A list of so many states with keys that differ, each between two texts.
fn listed(alloc: Global, count: usize, before: &str, after: &str) -> Result<String, AllocError> {
    let mut list = String::from_str(alloc, "[")?;
    for i in 0..count {
        if i > 0 {
            list.push(',')?;
        }
        write!(list, "{before}{{\"_deleted\":false,\"id\":\"{i}\"}}{after}")?;
    }
    list.push(']')?;
    Ok(list)
}
