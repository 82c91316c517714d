// What a fork asks, what it makes of a reply, and what a master takes of a push.
//
// A case is one fork, whose requests have a batch of 2. In each line `#a=1;` stands for the
// document a with the number 1, and HASH for the schema's.
//
//     -- what the case is about
//     holds #a=1;                             a document, written by a commit of its own
//     knows #a=1;                             a state that is known
//     asks 1 {"ask":"push",..}                how many documents are to be pushed, and what is
//                                             asked
//     > {"conflicts":[],"epoch":1,"n":1}      a reply to it
//     < writes [] knows [#a=1;] up 1 a down   what it comes to, or its fault
ghost use Rattle.std.specs.Prelude.{◌≡◌, false, None, IfOk};
ghost use Rattle.rx_record.specs.Shown.{content};
ghost use Rattle.rx_record.specs.Writable.{IsOrdered};
ghost use Rattle.rx_fork.specs.Asked.{HasRowsApart};

use crate::compared::compare;
use rx_collection::{Collection, Plain};
use rx_document::Place;
use rx_fork::{AcceptFault, Asked, ExchangePlan, Fork};
use rx_handler::{Handler, HandlerKind, resolved};
use rx_master::take;
use rx_meta::Meta;
use rx_record::{Record, RowOut};
use rx_schema::Schema;
use rx_value::{RxText, State, text};
use rx_wire::{AskKind, Body, Reply, Request};
use rx_world::World;
use serde_json::Value as Json;
use std::alloc::{AllocError, Global};
use std::test::Fail;

const SCHEMA: &str =
    r#"{"version":0,"primaryKey":"id","type":"object","properties":{"id":{"type":"string","maxLength":20},"n":{"type":"integer"},"t":{"type":"string"}}}"#;

// The greater number wins, and the master's where they are the same.
const CASES: &str = r##"
-- a push, by place: nothing was known
holds #a=1;
holds #b=2;
holds #c=3;
asks 3 {"ask":"push","epoch":1,"n":1,"rows":[{"new":#a=1;},{"new":#b=2;}],"schema":HASH}
> {"conflicts":[],"epoch":1,"n":1}
< writes [] knows [#a=1;,#b=2;] up 2 b down
> {"conflicts":[#b=7;],"epoch":1,"n":1}
< writes [#b=7;] knows [#a=1;,#b=7;] up 2 b down
> {"conflicts":[#b=2;,#a=0;],"epoch":1,"n":1}
< writes [#a=1;] knows [#a=0;,#b=2;] up 2 b down
> {"conflicts":[#b=1;,#a=9;],"epoch":1,"n":1}
< writes [#a=9;,#b=2;] knows [#a=9;,#b=1;] up 2 b down
> {"conflicts":[#c=3;],"epoch":1,"n":1}
< bad 0
> {"conflicts":[#a=1;,#x=3;],"epoch":1,"n":1}
< bad 1
> {"docs":[],"epoch":1,"n":1}
< bad 0
> {"conflicts":[],"epoch":1,"n":2}
< foreign 1 2
> {"conflicts":[],"epoch":2,"n":1}
< foreign 2 1

-- what is known isn't pushed, and what was known is assumed
holds #a=1;
holds #b=2;
holds #c=3;
knows #a=1;
knows #b=1;
asks 2 {"ask":"push","epoch":1,"n":1,"rows":[{"assumed":#b=1;,"new":#b=2;},{"new":#c=3;}],"schema":HASH}
> {"conflicts":[],"epoch":1,"n":1}
< writes [] knows [#b=2;,#c=3;] up 3 c down

-- a pull, where all is known
holds #a=1;
knows #a=1;
asks 0 {"ask":"pull","batch":2,"epoch":1,"n":1,"schema":HASH}
> {"docs":[],"epoch":1,"n":1}
< writes [] knows [] up down
> {"docs":[#d=4;],"epoch":1,"n":1,"place":{"id":"d","lwt":9}}
< writes [#d=4;] knows [#d=4;] up down 9 d
> {"docs":[],"epoch":1,"n":1,"place":{"id":"d","lwt":9}}
< bad 0
> {"docs":[#d=4;],"epoch":1,"n":1}
< bad 1
> {"docs":[#d=4;],"epoch":1,"n":1,"place":{"id":"e","lwt":9}}
< bad 1
> {"conflicts":[],"epoch":1,"n":1}
< bad 0
"##;

#[test]
fn forks_ask_and_make_of_replies_what_is_due(rt: HostRuntime) -> Result<(), Fail> {
    let alloc = rt.alloc();
    let name = RxText::new(alloc, "greater")?;
    let call = Box::new(
        alloc,
        |alloc: Global, field: &str, real: &State, new: &State| {
            resolved(alloc, HandlerKind::Greater, field, real, new)
        },
    )?;
    play_all(alloc, &Handler::new(name, HandlerKind::Greater, call))
}

#[test]
fn a_handler_may_want_memory(rt: HostRuntime) -> Result<(), Fail> {
    let alloc = rt.alloc();
    let name = RxText::new(alloc, "none")?;
    let call = Box::new(
        alloc,
        |_alloc: Global, _field: &str, _real: &State, _new: &State| { Err(AllocError) },
    )?;
    compare_conflict(
        alloc,
        &Handler::new(name, HandlerKind::Join, call),
        1,
        "memory",
    )
}

#[test]
fn a_fork_that_was_written_takes_nothing(rt: HostRuntime) -> Result<(), Fail> {
    let alloc = rt.alloc();
    let name = RxText::new(alloc, "join")?;
    let call = Box::new(
        alloc,
        |alloc: Global, field: &str, real: &State, new: &State| {
            resolved(alloc, HandlerKind::Join, field, real, new)
        },
    )?;
    compare_conflict(
        alloc,
        &Handler::new(name, HandlerKind::Join, call),
        4,
        "moved 4 1",
    )
}

// What a fork with one document makes of a conflict,
// where it had this last write time at its asking.
fn compare_conflict(alloc: Global, handler: &Handler, lwt: u64, due: &str) -> Result<(), Fail> {
    let schema = schema(alloc)?;
    let world = held(alloc, &schema, "holds #a=1;\n")?;
    conflict(alloc, &schema, world, handler, lwt, due)
}

fn conflict(
    alloc: Global,
    schema: &Schema,
    world: World<Plain>,
    handler: &Handler,
    lwt: u64,
    due: &str,
) -> Result<(), Fail> {
    match world.holder("f") {
        Some(holder) => take_conflict(alloc, schema, &holder.collection, handler, lwt, due),
        None => Err(Fail::new("no collection")),
    }
}

fn take_conflict(
    alloc: Global,
    schema: &Schema,
    collection: &Collection,
    handler: &Handler,
    lwt: u64,
    due: &str,
) -> Result<(), Fail> {
    let reply = long(alloc, schema, r##"{"conflicts":[#a=5;],"epoch":1,"n":1}"##)?;
    let meta = Meta::new(alloc);
    let fork = Fork { meta: &meta };
    let mut asked = ask(alloc, &fork, collection)?;
    asked.lwt = lwt;
    play_reply(
        alloc,
        schema,
        &fork,
        collection,
        &asked,
        handler,
        reply.as_str(),
        due,
    )
}

const PUSH: &str =
    r##"{"ask":"push","epoch":1,"n":1,"rows":[{"assumed":#a=1;,"new":#a=8;},{"assumed":#b=1;,"new":#b=8;},{"new":#c=8;},{"assumed":#x=1;,"new":#x=8;}],"schema":HASH}"##;

#[test]
fn a_master_takes_rows_of_what_it_holds_as_assumed(rt: HostRuntime) -> Result<(), Fail> {
    let alloc = rt.alloc();
    let schema = schema(alloc)?;
    let world = held(alloc, &schema, "holds #a=1;\nholds #b=2;\nholds #c=3;\n")?;
    push(alloc, &schema, world)
}

fn push(alloc: Global, schema: &Schema, world: World<Plain>) -> Result<(), Fail> {
    match world.holder("f") {
        Some(holder) => compare_taken(alloc, schema, &holder.collection),
        None => Err(Fail::new("no collection")),
    }
}

fn compare_taken(alloc: Global, schema: &Schema, collection: &Collection) -> Result<(), Fail> {
    let line = long(alloc, schema, PUSH)?;
    let due = long(
        alloc,
        schema,
        "writes [#a=8;,#x=8;] conflicts [#b=2;,#c=3;]",
    )?;
    match Request::read(alloc, line.as_str().as_bytes(), schema) {
        Ok(request) => {
            let taken = taken(alloc, collection, &request.ask)?;
            compare("the push", due.as_str(), taken.as_str())
        }
        Err(_) => Err(Fail::new("no request")),
    }
}

// What a master takes of a push, and its conflicts.
fn taken(alloc: Global, collection: &Collection, ask: &AskKind) -> Result<String, AllocError> {
    let AskKind::Push(rows) = ask else {
        return String::from_str(alloc, "no push");
    };
    let plan = take(alloc, collection, rows.as_slice())?;
    let writes = listed(alloc, plan.writes.as_slice())?;
    let conflicts = listed(alloc, plan.conflicts.as_slice())?;
    format!(in alloc; "writes {writes} conflicts {conflicts}")
}

pub fn schema(alloc: Global) -> Result<Schema, Fail> {
    Ok(Schema::read(alloc, &Json::from_str(alloc, SCHEMA)?)?)
}

// A text in which all is written out.
fn long(alloc: Global, schema: &Schema, short: &str) -> Result<String, AllocError> {
    let hash = schema.hash().as_str();
    let hash = format!(in alloc; "\"{hash}\"")?;
    let text = short.replace(alloc, "#", "{\"_deleted\":false,\"id\":\"")?;
    let text = text.as_str().replace(alloc, "=", "\",\"n\":")?;
    let text = text.as_str().replace(alloc, ";", "}")?;
    text.as_str().replace(alloc, "HASH", hash.as_str())
}

// Plays the three cases.
fn play_all(alloc: Global, handler: &Handler) -> Result<(), Fail> {
    let schema = schema(alloc)?;
    let cases = long(alloc, &schema, CASES)?;
    let mut played = 0u64;
    for case in cases.as_str().split("-- ") {
        if !case.trim().is_empty() {
            play(alloc, &schema, handler, case)?;
            played = played.saturating_add(1);
        }
    }
    if played == 3 {
        return Ok(());
    }
    Err(Fail::new("cases are missing"))
}

fn play(alloc: Global, schema: &Schema, handler: &Handler, case: &str) -> Result<(), Fail> {
    let world = world_of(alloc, schema, case)?;
    match world.holder("f") {
        Some(holder) => play_fork(alloc, schema, &holder.collection, handler, case),
        None => Err(Fail::new("no collection")),
    }
}

fn play_fork(
    alloc: Global,
    schema: &Schema,
    collection: &Collection,
    handler: &Handler,
    case: &str,
) -> Result<(), Fail> {
    let meta = meta_of(alloc, schema, case)?;
    let fork = Fork { meta: &meta };
    let pending = count(&fork, collection);
    let asked = ask(alloc, &fork, collection)?;
    compare_request(alloc, schema, case, pending, &asked)?;
    for exchange in case.split("\n> ").skip(1) {
        let (reply, due) = exchange.split_once("\n< ").unwrap_or((exchange, ""));
        play_reply(
            alloc,
            schema,
            &fork,
            collection,
            &asked,
            handler,
            reply,
            due.trim(),
        )?;
    }
    Ok(())
}

// Each request that the case tells is this one.
fn compare_request(
    alloc: Global,
    schema: &Schema,
    case: &str,
    pending: usize,
    asked: &Asked,
) -> Result<(), Fail> {
    let request = asked.request.text(alloc, schema)?;
    let told = format!(in alloc; "{pending} {}", request.as_str())?;
    for line in case.lines() {
        if let Some(due) = line.strip_prefix("asks ") {
            compare(line, due, told.as_str())?;
        }
    }
    Ok(())
}

fn count(fork: &Fork<'_>, collection: &Collection) -> usize
    requires { fork.now.meta.now.up ≡ None }
{
    fork.pending(collection)
}

fn ask(alloc: Global, fork: &Fork<'_>, collection: &Collection) -> Result<Asked, AllocError>
    requires { fork.now.meta.now.up ≡ None }
    ensures { IfOk result (λ asked. HasRowsApart asked.request.ask) }
{
    fork.ask(alloc, collection, 1, 1, 2)
}

// What is told of a line that answers is what is due.
fn play_reply(
    alloc: Global,
    schema: &Schema,
    fork: &Fork<'_>,
    collection: &Collection,
    asked: &Asked,
    handler: &Handler,
    line: &str,
    due: &str,
) -> Result<(), Fail>
    requires { HasRowsApart asked.now.request.ask }
{
    let Ok(reply) = Reply::read(alloc, line.as_bytes(), schema) else {
        return Err(Fail::new("no reply"));
    };
    let plan = fork.accept(alloc, collection, asked, &reply, handler, "n");
    let told = told(alloc, &plan)?;
    compare(line, due, told.as_str())
}

fn told(alloc: Global, plan: &Result<ExchangePlan, AcceptFault>) -> Result<String, AllocError> {
    match plan {
        Ok(plan) => {
            let writes = listed(alloc, plan.rows.as_slice())?;
            let knows = listed(alloc, plan.known.as_slice())?;
            let up = place_text(alloc, plan.up.as_ref())?;
            let down = place_text(alloc, plan.down.as_ref())?;
            format!(in alloc; "writes {writes} knows {knows} up{up} down{down}")
        }
        Err(AcceptFault::Foreign(epoch, n)) => format!(in alloc; "foreign {epoch} {n}"),
        Err(AcceptFault::Moved(then, now)) => format!(in alloc; "moved {then} {now}"),
        Err(AcceptFault::BadReply(at)) => format!(in alloc; "bad {at}"),
        Err(AcceptFault::Memory) => String::from_str(alloc, "memory"),
    }
}

fn place_text(alloc: Global, place: Option<&Place>) -> Result<String, AllocError> {
    match place {
        Some(place) => {
            let key = place.id.as_str();
            format!(in alloc; " {} {key}", place.lwt)
        }
        None => Ok(String::new(alloc)),
    }
}

fn listed(alloc: Global, states: &[State]) -> Result<String, AllocError> {
    let mut list = String::from_str(alloc, "[")?;
    for state in states {
        if list.len() > 1 {
            list.push(',')?;
        }
        list.push_str(text(alloc, state)?.as_str())?;
    }
    list.push(']')?;
    Ok(list)
}

fn held(alloc: Global, schema: &Schema, short: &str) -> Result<World<Plain>, Fail> {
    let case = long(alloc, schema, short)?;
    world_of(alloc, schema, case.as_str())
}

// A world with the collection f of what the case holds.
fn world_of(alloc: Global, schema: &Schema, case: &str) -> Result<World<Plain>, Fail> {
    let mut world = World::new(alloc).apply(alloc, collection(alloc, schema)?, &plain)?;
    let mut lwt = 0u64;
    for line in case.lines() {
        if let Some(json) = line.strip_prefix("holds ") {
            lwt = lwt.saturating_add(1);
            world = world.apply(alloc, document(alloc, schema, json, lwt)?, &plain)?;
        }
    }
    Ok(world)
}

fn collection(alloc: Global, schema: &Schema) -> Result<Record, AllocError>
    ensures { IfOk result (λ entry. IsOrdered (content entry)) }
{
    Ok(Record::Collection {
        name: RxText::new(alloc, "f")?,
        schema: schema.canonical().copy(alloc)?,
    })
}

fn document(alloc: Global, schema: &Schema, json: &str, lwt: u64) -> Result<Record, Fail>
    ensures { IfOk result (λ entry. IsOrdered (content entry)) }
{
    Ok(row(alloc, state(alloc, schema, json)?, lwt)?)
}

fn plain(collection: Collection) -> Result<Plain, AllocError>
    ensures { IfOk result (λ p. (p.collection ≡ collection) × (p.broken ≡ false)) }
{
    Ok(Plain::new(collection))
}

fn row(alloc: Global, state: State, lwt: u64) -> Result<Record, AllocError>
    ensures { IfOk result (λ entry. IsOrdered (content entry)) }
{
    let mut rows = Vec::new(alloc);
    rows.push(RowOut { height: 1, state })?;
    Ok(Record::Rows {
        name: RxText::new(alloc, "f")?,
        lwt,
        rows,
    })
}

// What the case knows, without a checkpoint.
fn meta_of(alloc: Global, schema: &Schema, case: &str) -> Result<Meta, Fail>
    ensures { IfOk result (λ meta. meta.up ≡ None) }
{
    let mut meta = Meta::new(alloc);
    for line in case.lines() {
        if let Some(json) = line.strip_prefix("knows ") {
            meta.learn(state(alloc, schema, json)?)?;
        }
    }
    Ok(meta)
}

pub fn state(alloc: Global, schema: &Schema, json: &str) -> Result<State, Fail> {
    let line = format!(in alloc; "{{\"conflicts\":[{json}],\"epoch\":1,\"n\":1}}")?;
    let Ok(reply) = Reply::read(alloc, line.as_str().as_bytes(), schema) else {
        return Err(Fail::new("no state"));
    };
    match reply.body {
        Body::Conflicts(states) => match states.into_vec().pop() {
            Some(state) => Ok(state),
            None => Err(Fail::new("no state")),
        },
        Body::Docs { .. } => Err(Fail::new("no state")),
    }
}
