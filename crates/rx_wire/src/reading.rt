// The message that an object is.
ghost use Rattle.serde_json.specs.View.{view};
ghost use Rattle.rx_value.specs.Due.{Due};
ghost use Rattle.rx_wire.specs.Reading.{has_hash, pull_of, push_of, request_in, conflicts_of, docs_of, reply_in};
ghost use Rattle.rx_wire.specs.declared.fault.WireFault.TheVariants.{Memory};

use crate::fault::WireFault;
use crate::form::{check_form, check_needed, read_count, read_number, read_place};
use crate::message::{AskKind, Body, Reply, Request};
use crate::states::{MOST_STATES, read_rows, read_states, rows_at, states_at};
use rx_schema::Schema;
use rx_value::{RxText, text_at};
use serde_json::Value as Json;
use std::alloc::Global;

/// The request that an object is.
pub(crate) fn read_request(
    alloc: Global,
    schema: &Schema,
    json: &Json,
) -> Result<Request, WireFault>
    ensures { Due Memory result (request_in schema.now (view json.now)) }
{
    check_needed(alloc, json, &["ask"])?;
    match text_at(json, "ask") {
        Some("pull") => read_pull(alloc, schema, json),
        Some("push") => read_push(alloc, schema, json),
        _ => Err(WireFault::WrongType(RxText::new(alloc, "ask")?)),
    }
}

fn read_pull(alloc: Global, schema: &Schema, json: &Json) -> Result<Request, WireFault>
    ensures { Due Memory result (pull_of schema.now (view json.now)) }
{
    check_form(
        alloc,
        json,
        &["ask", "batch", "epoch", "n", "schema"],
        &["place"],
    )?;
    let batch = read_number(alloc, json, "batch", MOST_STATES as u64)? as u32;
    let epoch = read_count(alloc, json, "epoch")?;
    let n = read_count(alloc, json, "n")?;
    let place = read_place(alloc, json)?;
    check_hash(alloc, schema, json)?;
    let ask = AskKind::Pull { place, batch };
    Ok(Request { epoch, n, ask })
}

fn read_push(alloc: Global, schema: &Schema, json: &Json) -> Result<Request, WireFault>
    ensures { Due Memory result (push_of schema.now (view json.now)) }
{
    check_form(alloc, json, &["ask", "epoch", "n", "rows", "schema"], &[])?;
    let epoch = read_count(alloc, json, "epoch")?;
    let n = read_count(alloc, json, "n")?;
    let Some(items) = rows_at(json) else {
        return Err(WireFault::WrongType(RxText::new(alloc, "rows")?));
    };
    check_hash(alloc, schema, json)?;
    let ask = AskKind::Push(read_rows(alloc, schema, items)?);
    Ok(Request { epoch, n, ask })
}

// The hash is that of the schema.
fn check_hash(alloc: Global, schema: &Schema, json: &Json) -> Result<(), WireFault>
    ensures { Due Memory result (has_hash schema.now (view json.now)) }
{
    match text_at(json, "schema") {
        Some(hash) if hash == schema.hash().as_str() => Ok(()),
        Some(_) => Err(WireFault::Schema),
        None => Err(WireFault::WrongType(RxText::new(alloc, "schema")?)),
    }
}

/// The reply that an object is.
pub(crate) fn read_reply(alloc: Global, schema: &Schema, json: &Json) -> Result<Reply, WireFault>
    ensures { Due Memory result (reply_in schema.now (view json.now)) }
{
    if json.get("conflicts").is_some() {
        read_conflicts(alloc, schema, json)
    } else {
        read_docs(alloc, schema, json)
    }
}

fn read_conflicts(alloc: Global, schema: &Schema, json: &Json) -> Result<Reply, WireFault>
    ensures { Due Memory result (conflicts_of schema.now (view json.now)) }
{
    check_form(alloc, json, &["conflicts", "epoch", "n"], &[])?;
    let Some(items) = states_at(json, "conflicts") else {
        return Err(WireFault::WrongType(RxText::new(alloc, "conflicts")?));
    };
    let epoch = read_count(alloc, json, "epoch")?;
    let n = read_count(alloc, json, "n")?;
    let body = Body::Conflicts(read_states(alloc, schema, items)?);
    Ok(Reply { epoch, n, body })
}

fn read_docs(alloc: Global, schema: &Schema, json: &Json) -> Result<Reply, WireFault>
    ensures { Due Memory result (docs_of schema.now (view json.now)) }
{
    check_form(alloc, json, &["docs", "epoch", "n"], &["place"])?;
    let Some(items) = states_at(json, "docs") else {
        return Err(WireFault::WrongType(RxText::new(alloc, "docs")?));
    };
    let epoch = read_count(alloc, json, "epoch")?;
    let n = read_count(alloc, json, "n")?;
    let place = read_place(alloc, json)?;
    let states = read_states(alloc, schema, items)?;
    let body = Body::Docs { states, place };
    Ok(Reply { epoch, n, body })
}
