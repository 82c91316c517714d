// The forms that a line may have.
ghost use Rattle.std.specs.Prelude.{◌≡◌, true, IfOk};
ghost use Rattle.serde_json.specs.View.{view};
ghost use Rattle.rx_value.specs.Due.{Due, DueBy};
ghost use Rattle.rx_value.specs.Name.{is_name};
ghost use Rattle.rx_script.specs.Asked.{asked, IsLawful};
ghost use Rattle.rx_script.specs.Line.{collection_of, document_of, bulk_of, changed_of, patch_of, update_of, remove_of, hook_of, migrate_of, get_of, query_of, observe_of, name_of, replicate_of, turn_of, sweep_of, deliver_of, changes_of, tick_of, restart_of, digest_of, asked_as, form_of};
ghost use Rattle.rx_script.specs.Member.{is_object, json_at};
ghost use Rattle.rx_script.specs.declared.fault.LineFault.TheVariants.{Memory};
ghost use Rattle.rx_script.specs.declared.form.Form.TheVariants.{Insert, Upsert, Unobserve, Explain, Stream, Unstream};

use crate::delivery::read_maybe_deliveries;
use crate::fault::LineFault;
use crate::form::{Form, form_by_word};
use crate::line::{Line, MAX_BATCH, MAX_BUDGET, USUAL_BUDGET};
use crate::link::read_maybe_link;
use crate::member::{
    check_form, check_maybe_whole, check_name, check_needed, check_object, check_objects,
    read_count, read_maybe_text, read_moment, read_steps, read_text, read_when, take_items,
    take_json,
};
use crate::since::read_maybe_since;
use crate::target::{check_target, read_target, target_member};
use rx_value::{RxText, text_at};
use serde_json::Value as Json;
use std::alloc::Global;

// The document that a line changes, and the revision that it is to have, where one is given.
#[derive(Drop)]
struct Changed {
    coll: RxText,
    key: RxText,
    rev: Option<RxText>,
}

// What an object asks: `do` tells its form.
pub(crate) fn read_form(alloc: Global, json: Json) -> Result<Line, LineFault>
    ensures exact { DueBy Memory asked result (form_of (view json)) }
    ensures lawful { IfOk result (λ line. IsLawful (asked line)) }
{
    check_needed(alloc, &json, &["do"])?;
    let Some(word) = text_at(&json, "do") else {
        return Err(LineFault::WrongType(RxText::new(alloc, "do")?));
    };
    match form_by_word(word) {
        Some(form) => read_as(alloc, form, json),
        None => Err(LineFault::UnknownDo(RxText::new(alloc, word)?)),
    }
}

// What an object of a form asks.
fn read_as(alloc: Global, form: Form, json: Json) -> Result<Line, LineFault>
    ensures exact { DueBy Memory asked result (asked_as form (view json)) }
    ensures lawful { IfOk result (λ line. IsLawful (asked line)) }
{
    match form {
        Form::Collection => read_collection(alloc, json),
        Form::Insert => read_insert(alloc, json),
        Form::Bulk => read_bulk(alloc, json),
        Form::Upsert => read_upsert(alloc, json),
        Form::Patch => read_patch(alloc, json),
        Form::Update => read_update(alloc, json),
        Form::Remove => read_remove(alloc, json),
        Form::Hook => read_hook(alloc, json),
        Form::Migrate => read_migrate(alloc, json),
        Form::Get => read_get(alloc, json),
        Form::Find => {
            let (coll, query) = read_query(alloc, json)?;
            Ok(Line::Find { coll, query })
        }
        Form::Count => {
            let (coll, query) = read_query(alloc, json)?;
            Ok(Line::Count { coll, query })
        }
        Form::Observe => read_observe(alloc, json),
        Form::Unobserve => read_unobserve(alloc, json),
        Form::Explain => read_explain(alloc, json),
        Form::Replicate => read_replicate(alloc, json),
        Form::Turn => read_turn(alloc, json),
        Form::Sweep => read_sweep(alloc, json),
        Form::Stream => read_stream(alloc, json),
        Form::Deliver => read_deliver(alloc, json),
        Form::Unstream => read_unstream(alloc, json),
        Form::Changes => read_changes(alloc, json),
        Form::Tick => read_tick(alloc, json),
        Form::Restart => read_restart(alloc, json),
        Form::Digest => read_digest(alloc, json),
    }
}

fn read_collection(alloc: Global, mut json: Json) -> Result<Line, LineFault>
    ensures exact { DueBy Memory asked result (collection_of (view json)) }
    ensures lawful { IfOk result (λ line. IsLawful (asked line)) }
{
    check_form(alloc, &json, &["do", "name", "schema"], &[])?;
    let name = read_text(alloc, &json, "name")?;
    check_name(alloc, "name", &name)?;
    let schema = take_json(&mut json, "schema");
    Ok(Line::Collection { name, schema })
}

// A collection and a document.
fn read_document(alloc: Global, mut json: Json) -> Result<(RxText, Json), LineFault>
    ensures exact { DueBy Memory (λ m. (m.0, view m.1)) result (document_of (view json)) }
    ensures name { IfOk result (λ m. is_name m.0 ≡ true) }
    ensures object { IfOk result (λ m. is_object (view m.1) ≡ true) }
{
    check_form(alloc, &json, &["do", "in", "doc"], &[])?;
    let coll = read_text(alloc, &json, "in")?;
    check_object(alloc, &json, "doc")?;
    check_name(alloc, "in", &coll)?;
    Ok((coll, take_json(&mut json, "doc")))
}

fn read_insert(alloc: Global, json: Json) -> Result<Line, LineFault>
    ensures exact { DueBy Memory asked result (asked_as Insert (view json)) }
    ensures lawful { IfOk result (λ line. IsLawful (asked line)) }
{
    let (coll, doc) = read_document(alloc, json)?;
    Ok(Line::Insert { coll, doc })
}

fn read_bulk(alloc: Global, mut json: Json) -> Result<Line, LineFault>
    ensures exact { DueBy Memory asked result (bulk_of (view json)) }
    ensures lawful { IfOk result (λ line. IsLawful (asked line)) }
{
    check_form(alloc, &json, &["do", "in", "docs"], &[])?;
    let coll = read_text(alloc, &json, "in")?;
    check_objects(alloc, &json, "docs")?;
    check_name(alloc, "in", &coll)?;
    let docs = take_items(alloc, &mut json, "docs");
    Ok(Line::Bulk { coll, docs })
}

fn read_upsert(alloc: Global, json: Json) -> Result<Line, LineFault>
    ensures exact { DueBy Memory asked result (asked_as Upsert (view json)) }
    ensures lawful { IfOk result (λ line. IsLawful (asked line)) }
{
    let (coll, doc) = read_document(alloc, json)?;
    Ok(Line::Upsert { coll, doc })
}

// The document that a line changes, as an object of that member says.
fn read_changed(alloc: Global, json: &Json, member: &str) -> Result<Changed, LineFault>
    ensures exact { Due Memory result (changed_of member.now (view json.now)) }
    ensures name { IfOk result (λ changed. is_name changed.coll ≡ true) }
    ensures object { IfOk result (λ _. is_object (json_at member.now (view json.now)) ≡ true) }
{
    check_form(alloc, json, &["do", "in", "key", member], &["rev"])?;
    let coll = read_text(alloc, json, "in")?;
    let key = read_text(alloc, json, "key")?;
    check_object(alloc, json, member)?;
    let rev = read_maybe_text(alloc, json, "rev")?;
    check_name(alloc, "in", &coll)?;
    Ok(Changed { coll, key, rev })
}

fn read_patch(alloc: Global, mut json: Json) -> Result<Line, LineFault>
    ensures exact { DueBy Memory asked result (patch_of (view json)) }
    ensures lawful { IfOk result (λ line. IsLawful (asked line)) }
{
    let Changed { coll, key, rev } = read_changed(alloc, &json, "set")?;
    let set = take_json(&mut json, "set");
    Ok(Line::Patch {
        coll,
        key,
        set,
        rev,
    })
}

fn read_update(alloc: Global, mut json: Json) -> Result<Line, LineFault>
    ensures exact { DueBy Memory asked result (update_of (view json)) }
    ensures lawful { IfOk result (λ line. IsLawful (asked line)) }
{
    let Changed { coll, key, rev } = read_changed(alloc, &json, "update")?;
    let update = take_json(&mut json, "update");
    Ok(Line::Update {
        coll,
        key,
        update,
        rev,
    })
}

fn read_remove(alloc: Global, json: Json) -> Result<Line, LineFault>
    ensures exact { DueBy Memory asked result (remove_of (view json)) }
    ensures lawful { IfOk result (λ line. IsLawful (asked line)) }
{
    check_form(alloc, &json, &["do", "in", "key"], &["rev"])?;
    let coll = read_text(alloc, &json, "in")?;
    let key = read_text(alloc, &json, "key")?;
    let rev = read_maybe_text(alloc, &json, "rev")?;
    check_name(alloc, "in", &coll)?;
    Ok(Line::Remove { coll, key, rev })
}

fn read_hook(alloc: Global, json: Json) -> Result<Line, LineFault>
    ensures exact { DueBy Memory asked result (hook_of (view json)) }
    ensures lawful { IfOk result (λ line. IsLawful (asked line)) }
{
    check_form(alloc, &json, &["do", "in", "when", "hook", "field"], &[])?;
    let coll = read_text(alloc, &json, "in")?;
    let when = read_when(alloc, &json, "when")?;
    let hook = read_text(alloc, &json, "hook")?;
    let field = read_text(alloc, &json, "field")?;
    check_name(alloc, "in", &coll)?;
    Ok(Line::Hook {
        coll,
        when,
        hook,
        field,
    })
}

fn read_migrate(alloc: Global, mut json: Json) -> Result<Line, LineFault>
    ensures exact { DueBy Memory asked result (migrate_of (view json)) }
    ensures lawful { IfOk result (λ line. IsLawful (asked line)) }
{
    check_form(alloc, &json, &["do", "in", "schema", "steps"], &[])?;
    let coll = read_text(alloc, &json, "in")?;
    let steps = read_steps(alloc, &json, "steps")?;
    check_name(alloc, "in", &coll)?;
    let schema = take_json(&mut json, "schema");
    Ok(Line::Migrate {
        coll,
        schema,
        steps,
    })
}

fn read_get(alloc: Global, json: Json) -> Result<Line, LineFault>
    ensures exact { DueBy Memory asked result (get_of (view json)) }
    ensures lawful { IfOk result (λ line. IsLawful (asked line)) }
{
    check_form(alloc, &json, &["do", "in", "key"], &[])?;
    let coll = read_text(alloc, &json, "in")?;
    let key = read_text(alloc, &json, "key")?;
    check_name(alloc, "in", &coll)?;
    Ok(Line::Get { coll, key })
}

// A collection and a query.
fn read_query(alloc: Global, mut json: Json) -> Result<(RxText, Json), LineFault>
    ensures exact { DueBy Memory (λ m. (m.0, view m.1)) result (query_of (view json)) }
    ensures name { IfOk result (λ m. is_name m.0 ≡ true) }
{
    check_form(alloc, &json, &["do", "in", "query"], &[])?;
    let coll = read_text(alloc, &json, "in")?;
    check_name(alloc, "in", &coll)?;
    Ok((coll, take_json(&mut json, "query")))
}

fn read_observe(alloc: Global, mut json: Json) -> Result<Line, LineFault>
    ensures exact { DueBy Memory asked result (observe_of (view json)) }
    ensures lawful { IfOk result (λ line. IsLawful (asked line)) }
{
    check_form(alloc, &json, &["do", "name", "in", "query"], &[])?;
    let name = read_text(alloc, &json, "name")?;
    let coll = read_text(alloc, &json, "in")?;
    check_name(alloc, "name", &name)?;
    check_name(alloc, "in", &coll)?;
    let query = take_json(&mut json, "query");
    Ok(Line::Observe { name, coll, query })
}

// A name alone.
fn read_name(alloc: Global, json: Json) -> Result<RxText, LineFault>
    ensures exact { Due Memory result (name_of (view json)) }
    ensures name { IfOk result (λ name. is_name name ≡ true) }
{
    check_form(alloc, &json, &["do", "name"], &[])?;
    let name = read_text(alloc, &json, "name")?;
    check_name(alloc, "name", &name)?;
    Ok(name)
}

fn read_unobserve(alloc: Global, json: Json) -> Result<Line, LineFault>
    ensures exact { DueBy Memory asked result (asked_as Unobserve (view json)) }
    ensures lawful { IfOk result (λ line. IsLawful (asked line)) }
{
    let name = read_name(alloc, json)?;
    Ok(Line::Unobserve { name })
}

fn read_explain(alloc: Global, json: Json) -> Result<Line, LineFault>
    ensures exact { DueBy Memory asked result (asked_as Explain (view json)) }
    ensures lawful { IfOk result (λ line. IsLawful (asked line)) }
{
    let name = read_name(alloc, json)?;
    Ok(Line::Explain { name })
}

fn read_replicate(alloc: Global, json: Json) -> Result<Line, LineFault>
    ensures exact { DueBy Memory asked result (replicate_of (view json)) }
    ensures lawful { IfOk result (λ line. IsLawful (asked line)) }
{
    let master = target_member(&json);
    check_form(
        alloc,
        &json,
        &["do", "name", "fork", master, "handler"],
        &["field"],
    )?;
    let name = read_text(alloc, &json, "name")?;
    let fork = read_text(alloc, &json, "fork")?;
    let master = read_target(alloc, &json)?;
    let handler = read_text(alloc, &json, "handler")?;
    let field = read_maybe_text(alloc, &json, "field")?;
    check_name(alloc, "name", &name)?;
    check_name(alloc, "fork", &fork)?;
    check_target(alloc, &master)?;
    Ok(Line::Replicate {
        name,
        fork,
        master,
        handler,
        field,
    })
}

fn read_turn(alloc: Global, json: Json) -> Result<Line, LineFault>
    ensures exact { DueBy Memory asked result (turn_of (view json)) }
    ensures lawful { IfOk result (λ line. IsLawful (asked line)) }
{
    check_form(alloc, &json, &["do", "name"], &["batch", "budget", "link"])?;
    let name = read_text(alloc, &json, "name")?;
    check_maybe_whole(alloc, &json, "batch")?;
    check_maybe_whole(alloc, &json, "budget")?;
    let link = read_maybe_link(alloc, &json, "link")?;
    check_name(alloc, "name", &name)?;
    let batch = read_count(alloc, &json, "batch", MAX_BATCH, MAX_BATCH)?;
    let budget = read_count(alloc, &json, "budget", MAX_BUDGET, USUAL_BUDGET)?;
    Ok(Line::Turn {
        name,
        batch,
        budget,
        link,
    })
}

fn read_sweep(alloc: Global, json: Json) -> Result<Line, LineFault>
    ensures exact { DueBy Memory asked result (sweep_of (view json)) }
    ensures lawful { IfOk result (λ line. IsLawful (asked line)) }
{
    check_form(alloc, &json, &["do", "name"], &["batch", "budget"])?;
    let name = read_text(alloc, &json, "name")?;
    check_maybe_whole(alloc, &json, "batch")?;
    check_maybe_whole(alloc, &json, "budget")?;
    check_name(alloc, "name", &name)?;
    let batch = read_count(alloc, &json, "batch", MAX_BATCH, MAX_BATCH)?;
    let budget = read_count(alloc, &json, "budget", MAX_BUDGET, USUAL_BUDGET)?;
    Ok(Line::Sweep {
        name,
        batch,
        budget,
    })
}

fn read_stream(alloc: Global, json: Json) -> Result<Line, LineFault>
    ensures exact { DueBy Memory asked result (asked_as Stream (view json)) }
    ensures lawful { IfOk result (λ line. IsLawful (asked line)) }
{
    let name = read_name(alloc, json)?;
    Ok(Line::Stream { name })
}

fn read_deliver(alloc: Global, json: Json) -> Result<Line, LineFault>
    ensures exact { DueBy Memory asked result (deliver_of (view json)) }
    ensures lawful { IfOk result (λ line. IsLawful (asked line)) }
{
    check_form(alloc, &json, &["do", "name"], &["link"])?;
    let name = read_text(alloc, &json, "name")?;
    let link = read_maybe_deliveries(alloc, &json, "link")?;
    check_name(alloc, "name", &name)?;
    Ok(Line::Deliver { name, link })
}

fn read_unstream(alloc: Global, json: Json) -> Result<Line, LineFault>
    ensures exact { DueBy Memory asked result (asked_as Unstream (view json)) }
    ensures lawful { IfOk result (λ line. IsLawful (asked line)) }
{
    let name = read_name(alloc, json)?;
    Ok(Line::Unstream { name })
}

fn read_changes(alloc: Global, json: Json) -> Result<Line, LineFault>
    ensures exact { DueBy Memory asked result (changes_of (view json)) }
    ensures lawful { IfOk result (λ line. IsLawful (asked line)) }
{
    check_form(alloc, &json, &["do", "in"], &["since", "batch"])?;
    let coll = read_text(alloc, &json, "in")?;
    let since = read_maybe_since(alloc, &json, "since")?;
    check_maybe_whole(alloc, &json, "batch")?;
    check_name(alloc, "in", &coll)?;
    let batch = read_count(alloc, &json, "batch", MAX_BATCH, MAX_BATCH)?;
    Ok(Line::Changes { coll, since, batch })
}

fn read_tick(alloc: Global, json: Json) -> Result<Line, LineFault>
    ensures exact { DueBy Memory asked result (tick_of (view json)) }
    ensures lawful { IfOk result (λ line. IsLawful (asked line)) }
{
    check_form(alloc, &json, &["do", "at"], &[])?;
    let at = read_moment(alloc, &json, "at")?;
    Ok(Line::Tick { at })
}

fn read_restart(alloc: Global, json: Json) -> Result<Line, LineFault>
    ensures exact { DueBy Memory asked result (restart_of (view json)) }
    ensures lawful { IfOk result (λ line. IsLawful (asked line)) }
{
    check_form(alloc, &json, &["do"], &[])?;
    Ok(Line::Restart)
}

fn read_digest(alloc: Global, json: Json) -> Result<Line, LineFault>
    ensures exact { DueBy Memory asked result (digest_of (view json)) }
    ensures lawful { IfOk result (λ line. IsLawful (asked line)) }
{
    check_form(alloc, &json, &["do", "in"], &[])?;
    let coll = read_text(alloc, &json, "in")?;
    check_name(alloc, "in", &coll)?;
    Ok(Line::Digest { coll })
}
