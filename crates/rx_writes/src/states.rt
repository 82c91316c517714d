// The states that lines of writing make.
ghost use Rattle.std.specs.Prelude.{◌≡◌, IfOk, option_map};
ghost use Rattle.serde_json.specs.View.{view};
ghost use Rattle.rx_value.specs.Due.{Due};
ghost use Rattle.rx_world.specs.Step.{IsValidState};
ghost use Rattle.rx_writes.specs.Documents.{live_state};
ghost use Rattle.rx_writes.specs.States.{insert_state, patch_state, remove_state, update_state, upsert_state, when_found};
ghost use Rattle.rx_writes.specs.declared.fault.Fault.TheVariants.{Memory};

use crate::documents::{
    check_revision, find_document, find_live_document, free_height, keeps_key, read_state,
    set_fields,
};
use crate::fault::{Fault, of_document};
use crate::hooked::written_state;
use rx_collection::Collection;
use rx_document::Stored;
use rx_reply::DocumentFault;
use rx_update::{Attached, Hooks, Update, When};
use rx_value::{Fields, RxText, State, read_fields};
use serde_json::Value as Json;
use std::alloc::Global;

/// The state that a document gives, whatever is held at its key.
pub fn upsert_state(
    alloc: Global,
    hooks: &Hooks,
    attached: &[Attached],
    collection: &Collection,
    doc: &Json,
) -> Result<State, Fault>
    ensures exact { Due Memory result
        (upsert_state collection.now attached.now (view doc.now)) }
    ensures valid { IfOk result (λ state. IsValidState collection.now.schema state) }
{
    let state = read_state(alloc, collection.schema().primary(), doc)?;
    let when = when_found(find_live_document(collection, state.key.as_str()));
    written_state(alloc, hooks, attached, collection, when, state)
}

// An upsert inserts, or saves a document that is live.
fn when_found(found: Option<&Stored>) -> When
    ensures { result ≡ when_found (option_map (λ d. d.now) found.entry) }
{
    match found {
        Some(_) => When::Save,
        None => When::Insert,
    }
}

/// The state that a document of a new key gives.
pub fn insert_state(
    alloc: Global,
    hooks: &Hooks,
    attached: &[Attached],
    collection: &Collection,
    doc: &Json,
) -> Result<State, Fault>
    ensures exact { Due Memory result
        (insert_state collection.now attached.now (view doc.now)) }
    ensures valid { IfOk result (λ state. IsValidState collection.now.schema state) }
{
    let state = read_state(alloc, collection.schema().primary(), doc)?;
    let state = written_state(alloc, hooks, attached, collection, When::Insert, state)?;
    free_height(alloc, collection, state.key.as_str())?;
    Ok(state)
}

/// The state of a document with some fields set.
pub fn patch_state(
    alloc: Global,
    hooks: &Hooks,
    attached: &[Attached],
    collection: &Collection,
    key: RxText,
    set: &Json,
    rev: &Option<RxText>,
) -> Result<State, Fault>
    ensures exact { Due Memory result
        (patch_state collection.now attached.now key (view set.now) rev.now) }
    ensures valid { IfOk result (λ state. IsValidState collection.now.schema state) }
{
    let doc = find_document(collection, key.as_str())?;
    check_revision(alloc, rev, doc)?;
    let more = read_fields(alloc, set)?;
    if !keeps_key(collection.schema().primary(), key.as_str(), &more) {
        return Err(of_document(DocumentFault::Key));
    }
    let mut fields = doc.state.fields.copy(alloc)?;
    set_fields(alloc, &mut fields, &more)?;
    let state = live_state(key, fields);
    written_state(alloc, hooks, attached, collection, When::Save, state)
}

/// The state of a document after an update.
pub fn update_state(
    alloc: Global,
    hooks: &Hooks,
    attached: &[Attached],
    collection: &Collection,
    key: RxText,
    update: &Json,
    rev: &Option<RxText>,
) -> Result<State, Fault>
    ensures exact { Due Memory result
        (update_state collection.now attached.now key (view update.now) rev.now) }
    ensures valid { IfOk result (λ state. IsValidState collection.now.schema state) }
{
    let doc = find_document(collection, key.as_str())?;
    check_revision(alloc, rev, doc)?;
    let update = Update::read(alloc, update, collection.schema().primary())?;
    let fields = update.apply(alloc, &doc.state.fields)?;
    let state = live_state(key, fields);
    written_state(alloc, hooks, attached, collection, When::Save, state)
}

/// The tombstone of a document, which keeps the fields that its hooks leave.
pub fn remove_state(
    alloc: Global,
    hooks: &Hooks,
    attached: &[Attached],
    collection: &Collection,
    key: RxText,
    rev: &Option<RxText>,
) -> Result<State, Fault>
    ensures exact { Due Memory result (remove_state collection.now attached.now key rev.now) }
    ensures valid { IfOk result (λ state. IsValidState collection.now.schema state) }
{
    let doc = find_document(collection, key.as_str())?;
    check_revision(alloc, rev, doc)?;
    let state = live_state(key, doc.state.fields.copy(alloc)?);
    let hooked = written_state(alloc, hooks, attached, collection, When::Remove, state)?;
    Ok(State {
        deleted: true,
        ..hooked
    })
}

fn live_state(key: RxText, fields: Fields) -> State
    ensures { result ≡ live_state key fields }
{
    State {
        key,
        fields,
        deleted: false,
    }
}
