// The run whose contract is its transcript, on a script that reaches its end,
// and on one that doesn't.
use crate::headline::{Played, play_in_memory};
use crate::run::{RUN, masters_of, split};
use crate::short::{add_script_line, journal_bytes, long_text};
use rx_disk::MemoryDisk;
use rx_handler::{Handler, HandlerKind, Handlers};
use rx_outside::{MemoryClock, MemoryDial, MemoryDoor, MemorySink, MemorySource};
use rx_top::rx;
use rx_update::{Hook, HookKind, Hooks};
use rx_value::{RxText, State};
use rx_words::Words;
use std::alloc::{AllocError, Global};
use std::test::Fail;

const DUE: &str = r#"{"line":1,"new":true,"ok":"collection"}
{"code":10,"line":2,"name":"d","refused":"no_collection"}
"#;

#[test]
fn a_script_over_an_empty_journal(rt: HostRuntime) -> Result<(), Fail> {
    let alloc = rt.alloc();
    let played = play(
        alloc,
        &["C(c)", "I(d,a,1)"],
        &Handlers::new(alloc),
        &Hooks::new(alloc),
    )?;
    compare(&played, 1, DUE)?;
    compare_journal(alloc, played.journal.as_slice())
}

fn compare_journal(alloc: Global, found: &[u8]) -> Result<(), Fail> {
    let mut journal = Vec::new(alloc);
    journal_bytes(alloc, long_text(alloc, "BASE 00")?.as_str(), &mut journal)?;
    if found == journal.as_slice() {
        return Ok(());
    }
    Err(Fail::new("another journal"))
}

fn compare(played: &Played, status: u8, output: &str) -> Result<(), Fail> {
    if played.status == status && played.output.as_slice() == output.as_bytes() {
        return Ok(());
    }
    Err(Fail::new(format_args!("another output, or status {}", played.status)))
}

fn play(
    alloc: Global,
    lines: &[&str],
    handlers: &Handlers,
    hooks: &Hooks,
) -> Result<Played, AllocError> {
    play_in_memory(alloc, script_of(alloc, lines)?, handlers, hooks)
}

fn script_of(alloc: Global, lines: &[&str]) -> Result<Vec<u8>, AllocError> {
    let mut script = String::new(alloc);
    for line in lines {
        add_script_line(line, &mut script)?;
    }
    script.as_str().as_bytes().to_vec(alloc)
}

// Its turn pushes a document that the master has with another number.
const CONFLICT: [&str; 6] = [
    "C(m)",
    "C(f)",
    r#"{"do":"replicate","name":"r","fork":"f","master":"m","handler":"none"}"#,
    "I(m,a,1)",
    "I(f,a,2)",
    r#"{"do":"turn","name":"r"}"#,
];

const BEFORE_THE_TURN: &str = r#"{"line":1,"new":true,"ok":"collection"}
{"line":2,"new":true,"ok":"collection"}
{"line":3,"ok":"replicate"}
{"line":4,"ok":"insert","rev":"1-m"}
{"line":5,"ok":"insert","rev":"1-f"}
{"stop":"memory"}
"#;

#[test]
fn a_handler_that_wants_memory_ends_the_run(rt: HostRuntime) -> Result<(), Fail> {
    let alloc = rt.alloc();
    let name = RxText::new(alloc, "none")?;
    let call = Box::new(
        alloc,
        |_alloc: Global, _field: &str, _real: &State, _new: &State| { Err(AllocError) },
    )?;
    let mut handlers = Handlers::new(alloc);
    handlers.add(Handler::new(name, HandlerKind::Join, call))?;
    play_conflict(alloc, &handlers)
}

fn play_conflict(alloc: Global, handlers: &Handlers) -> Result<(), Fail> {
    let played = play(alloc, &CONFLICT, handlers, &Hooks::new(alloc))?;
    compare(&played, 6, BEFORE_THE_TURN)
}

// The reply to its push is lost, and then the master holds what is pushed again.
const PUSHED_TWICE: [&str; 7] = [
    "C(m)",
    "C(f)",
    r#"{"do":"replicate","name":"r","fork":"f","master":"m","handler":"none"}"#,
    "I(f,a,1)",
    r#"{"do":"turn","name":"r","link":["lose_reply"]}"#,
    r#"{"do":"turn","name":"r"}"#,
    r#"{"do":"get","in":"f","key":"a"}"#,
];

const TAKEN: &str = r#"{"line":1,"new":true,"ok":"collection"}
{"line":2,"new":true,"ok":"collection"}
{"line":3,"ok":"replicate"}
{"line":4,"ok":"insert","rev":"1-f"}
{"exchange":1,"lost":"lose_reply","rows":["a"],"sent":"push"}
{"end":"lost","exchanges":1,"line":5,"ok":"turn"}
{"conflicts":["a"],"exchange":1,"rows":["a"],"sent":"push"}
{"exchange":2,"place":{"id":"a","lwt":1},"rows":["a"],"sent":"pull"}
{"end":"quiet","exchanges":2,"line":6,"ok":"turn"}
{"doc":{"id":"a","n":1},"line":7,"lwt":1,"ok":"get","rev":"1-f"}
"#;

// The same with a master elsewhere, whose first wire fails at the reply.
const PUSHED_OUT_TWICE: [&str; 6] = [
    "C(f)",
    r#"{"do":"replicate","name":"r","fork":"f","port":4001,"handler":"none"}"#,
    "I(f,a,1)",
    r#"{"do":"turn","name":"r"}"#,
    r#"{"do":"turn","name":"r"}"#,
    r#"{"do":"get","in":"f","key":"a"}"#,
];

const MASTERS: &str = r#"→
2
→

{"conflicts":[{"_deleted":false,"id":"a","n":1}],"epoch":1,"n":2}
{"docs":[{"_deleted":false,"id":"a","n":1}],"epoch":1,"n":3,"place":{"id":"a","lwt":1}}
"#;

const TAKEN_ELSEWHERE: &str = r#"{"line":1,"new":true,"ok":"collection"}
{"line":2,"ok":"replicate"}
{"line":3,"ok":"insert","rev":"1-f"}
{"exchange":1,"lost":"wire","rows":["a"],"sent":"push"}
{"end":"lost","exchanges":1,"line":4,"ok":"turn"}
{"conflicts":["a"],"exchange":1,"rows":["a"],"sent":"push"}
{"exchange":2,"place":{"id":"a","lwt":1},"rows":["a"],"sent":"pull"}
{"end":"quiet","exchanges":2,"line":5,"ok":"turn"}
{"doc":{"id":"a","n":1},"line":6,"lwt":1,"ok":"get","rev":"1-f"}
"#;

// It would end the run.
#[test]
fn a_handler_is_not_asked_of_what_the_master_holds(rt: HostRuntime) -> Result<(), Fail> {
    let alloc = rt.alloc();
    let name = RxText::new(alloc, "none")?;
    let call = Box::new(
        alloc,
        |_alloc: Global, _field: &str, _real: &State, _new: &State| { Err(AllocError) },
    )?;
    let mut handlers = Handlers::new(alloc);
    handlers.add(Handler::new(name, HandlerKind::Join, call))?;
    play_pushed_twice(alloc, &handlers)
}

fn play_pushed_twice(alloc: Global, handlers: &Handlers) -> Result<(), Fail> {
    let hooks = Hooks::new(alloc);
    compare(&play(alloc, &PUSHED_TWICE, handlers, &hooks)?, 0, TAKEN)?;
    compare(&play_out(alloc, handlers, &hooks)?, 0, TAKEN_ELSEWHERE)
}

fn play_out(alloc: Global, handlers: &Handlers, hooks: &Hooks) -> Result<Played, AllocError> {
    let script = script_of(alloc, &PUSHED_OUT_TWICE)?;
    let mut source = MemorySource::new(script, 4096, Vec::new(alloc));
    let mut sink = MemorySink::new(alloc, Vec::new(alloc));
    let mut disk = MemoryDisk::new(alloc, Vec::new(alloc), Vec::new(alloc));
    let mut dial = MemoryDial::new(alloc, masters_of(alloc, MASTERS)?, Vec::new(alloc));
    let words = split(alloc, RUN)?;
    let status = status_of(
        alloc,
        &words,
        &mut source,
        &mut sink,
        &mut disk,
        &mut dial,
        handlers,
        hooks,
    );
    Ok(Played {
        status,
        output: sink.bytes().to_vec(alloc)?,
        journal: disk.bytes().to_vec(alloc)?,
    })
}

// A call of its own, since what `rx` ensures would burden the proof of its caller.
fn status_of(
    alloc: Global,
    words: &Words,
    source: &mut MemorySource,
    sink: &mut MemorySink,
    disk: &mut MemoryDisk,
    dial: &mut MemoryDial,
    handlers: &Handlers,
    hooks: &Hooks,
) -> u8 {
    let mut door = MemoryDoor::new(alloc, Vec::new(alloc), Vec::new(alloc));
    let mut clock = MemoryClock::new(Vec::new(alloc));
    let mut copy = MemoryDisk::new(alloc, Vec::new(alloc), Vec::new(alloc));
    rx(
        alloc, words, source, sink, disk, &mut door, dial, &mut clock, handlers, hooks, &mut copy,
    )
}

// Its insert runs a hook.
const HOOKED: [&str; 3] = [
    "C(c)",
    r#"{"do":"hook","in":"c","when":"insert","hook":"none","field":"n"}"#,
    "I(c,a,1)",
];

// The lines that were read with it are neither on the disk nor answered.
const NONE_ANSWERED: &str = "{\"stop\":\"memory\"}\n";

#[test]
fn a_hook_that_wants_memory_ends_the_run(rt: HostRuntime) -> Result<(), Fail> {
    let alloc = rt.alloc();
    let name = RxText::new(alloc, "none")?;
    let call = Box::new(alloc, |_alloc: Global, _field: &str, _state: &State| {
        Err(AllocError)
    })?;
    let mut hooks = Hooks::new(alloc);
    hooks.add(Hook::new(name, HookKind::Zero, call))?;
    play_insert(alloc, &hooks)
}

fn play_insert(alloc: Global, hooks: &Hooks) -> Result<(), Fail> {
    let played = play(alloc, &HOOKED, &Handlers::new(alloc), hooks)?;
    compare(&played, 6, NONE_ANSWERED)
}
