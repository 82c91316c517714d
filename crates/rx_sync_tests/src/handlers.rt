// What each kind of handler makes of a conflict, and handlers by their names.
use crate::compared::compare;
use crate::forks::{schema, state};
use rx_handler::{Handler, HandlerFault, HandlerKind, Handlers, resolved};
use rx_schema::Schema;
use rx_value::{RxText, State, text};
use std::alloc::{AllocError, Global};
use std::test::Fail;

// A kind, its field, the master's state, the fork's, and what becomes of them. K stands for the key
// of a document, and D for that of a deleted one.
const RESOLUTIONS: &str = r#"
master_wins | | {K,"n":1} | {D,"n":2} | {K,"n":1}
master_wins | | {D} | {K,"n":2} | {D}
fork_wins | | {K,"n":1} | {D,"n":2} | {D,"n":2}
fork_wins | | {D,"n":1} | {K,"t":"a"} | {K,"t":"a"}
greater | n | {K,"n":1,"t":"b"} | {D,"n":2,"t":"a"} | {D,"n":2,"t":"a"}
greater | n | {K,"n":2,"t":"b"} | {D,"n":2,"t":"a"} | {K,"n":2,"t":"b"}
greater | n | {K,"t":"b"} | {D,"n":2,"t":"a"} | {K,"t":"b"}
greater | t | {K,"n":1,"t":"a"} | {D,"n":2,"t":"b"} | {K,"n":1,"t":"a"}
join | | {D,"n":1,"t":"b"} | {K,"n":2,"t":"a"} | {K,"n":2,"t":"b"}
join | | {D,"n":-1} | {D,"n":-2,"t":"a"} | {D,"n":-1,"t":"a"}
join | | {K} | {K,"n":-3} | {K,"n":-3}
"#;

#[test]
fn each_kind_resolves_in_its_way(rt: HostRuntime) -> Result<(), Fail> {
    let alloc = rt.alloc();
    let schema = schema(alloc)?;
    let lines = long(alloc, RESOLUTIONS)?;
    let resolutions = resolve_all(alloc, &schema, lines.as_str())?;
    assert_eq!(&rt; resolutions, 11);
    Ok(())
}

// The lines with their keys written out.
fn long(alloc: Global, short: &str) -> Result<String, AllocError> {
    let lines = short.replace(alloc, "K", r#""_deleted":false,"id":"k""#)?;
    lines
        .as_str()
        .replace(alloc, "D", r#""_deleted":true,"id":"k""#)
}

// Resolves each line, and counts them.
fn resolve_all(alloc: Global, schema: &Schema, lines: &str) -> Result<u64, Fail> {
    let mut resolutions = 0u64;
    for line in lines.lines() {
        if !line.is_empty() {
            resolve(alloc, schema, line)?;
            resolutions = resolutions.saturating_add(1);
        }
    }
    Ok(resolutions)
}

fn resolve(alloc: Global, schema: &Schema, line: &str) -> Result<(), Fail> {
    let mut parts = line.split('|');
    let kind = kind_of(parts.next().unwrap_or("").trim());
    let field = parts.next().unwrap_or("").trim();
    let real = state(alloc, schema, parts.next().unwrap_or("").trim())?;
    let new = state(alloc, schema, parts.next().unwrap_or("").trim())?;
    let due = parts.next().unwrap_or("").trim();
    let found = text(alloc, &resolved(alloc, kind, field, &real, &new)?)?;
    compare(line, due, found.as_str())
}

fn kind_of(word: &str) -> HandlerKind {
    match word {
        "fork_wins" => HandlerKind::ForkWins,
        "greater" => HandlerKind::Greater,
        "join" => HandlerKind::Join,
        _ => HandlerKind::MasterWins,
    }
}

#[test]
fn a_handler_is_added_once(rt: HostRuntime) -> Result<(), Fail> {
    let alloc = rt.alloc();
    let mut handlers = Handlers::new(alloc);
    for kind in [HandlerKind::ForkWins, HandlerKind::MasterWins] {
        let name = RxText::new(alloc, "x")?;
        let call = Box::new(
            alloc,
            move |alloc: Global, field: &str, real: &State, new: &State| {
                resolved(alloc, kind, field, real, new)
            },
        )?;
        compare_added(kind, handlers.add(Handler::new(name, kind, call)))?;
    }
    Ok(())
}

// The first handler of a name is added, and the second isn't.
fn compare_added(kind: HandlerKind, added: Result<(), HandlerFault>) -> Result<(), Fail> {
    match (kind, added) {
        (HandlerKind::ForkWins, Ok(())) => Ok(()),
        (HandlerKind::MasterWins, Err(HandlerFault::Twice(name))) if name.as_str() == "x" => Ok(()),
        _ => Err(Fail::new("a handler added twice or not at all")),
    }
}

#[test]
fn a_handler_is_found_by_its_name(rt: HostRuntime) -> Result<(), Fail> {
    let alloc = rt.alloc();
    let name = RxText::new(alloc, "x")?;
    let call = Box::new(
        alloc,
        |alloc: Global, field: &str, real: &State, new: &State| {
            resolved(alloc, HandlerKind::ForkWins, field, real, new)
        },
    )?;
    let mut handlers = Handlers::new(alloc);
    handlers.add(Handler::new(name, HandlerKind::ForkWins, call))?;
    find_both(alloc, &handlers)
}

// There is no handler y, and the handler x resolves a conflict.
fn find_both(alloc: Global, handlers: &Handlers) -> Result<(), Fail> {
    if handlers.find("y").is_some() {
        return Err(Fail::new("a handler y"));
    }
    match handlers.find("x") {
        Some(handler) => compare_resolved(alloc, handler),
        None => Err(Fail::new("no handler x")),
    }
}

fn compare_resolved(alloc: Global, handler: &Handler) -> Result<(), Fail> {
    let schema = schema(alloc)?;
    let found = resolved_by(alloc, &schema, handler)?;
    let due = r#"{"_deleted":false,"id":"k","n":2}"#;
    if found.as_str() == due && handler.name().as_str() == "x" {
        return Ok(());
    }
    Err(Fail::new("another handler"))
}

fn resolved_by(alloc: Global, schema: &Schema, handler: &Handler) -> Result<RxText, Fail> {
    let real = state(alloc, schema, r#"{"_deleted":false,"id":"k","n":1}"#)?;
    let new = state(alloc, schema, r#"{"_deleted":false,"id":"k","n":2}"#)?;
    let became = handler.resolve(alloc, "", &real, &new)?;
    Ok(text(alloc, &became)?)
}
