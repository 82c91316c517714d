// The states in a message, and the rows of a push.
ghost use Rattle.std.specs.Prelude.{◌≡◌, ◌||◌, ℕ, List, not, option_map, IfOk, OnOk};
ghost use Rattle.std.specs.BTreeSet.{contains_text};
ghost use Rattle.std.specs.Str.{bytes_eq};
ghost use Rattle.serde_json.specs.Events.{items_len};
ghost use Rattle.serde_json.specs.View.{view, items_view};
ghost use Rattle.rx_value.specs.Due.{Due};
ghost use Rattle.rx_wire.specs.States.{mark_at, is_state, is_state_if, is_row, all_items, list_of, states_at, rows_at, valid_state, state_of, maybe_state, has_key, row_of, rows_of, states_of};
ghost use Rattle.rx_wire.specs.declared.fault.WireFault.TheVariants.{Memory};

use crate::fault::WireFault;
use crate::message::PushRow;
use rx_schema::Schema;
use rx_value::{
    Fields, MARK, RxList, RxText, State, ValueFault, first_unexpected, read_fields_beside, text_of,
};
use serde_json::Value as Json;
use std::alloc::{AllocError, Global};
use std::collections::BTreeSet;

/// The most states, and the most rows, of a message; a pull asks for no more.
pub const MOST_STATES: usize = 100;

fn mark_at(json: &Json) -> Option<bool>
    ensures { result ≡ mark_at (view json.now) }
{
    json.get(MARK)?.as_bool()
}

fn is_state(json: &Json) -> bool
    ensures { result ≡ is_state (view json.now) }
{
    mark_at(json).is_some()
}

fn is_row(json: &Json) -> bool
    ensures { result ≡ is_row (view json.now) }
{
    let has_new = match json.get("new") {
        Some(new) => is_state(new),
        None => false,
    };
    let fits = match json.get("assumed") {
        Some(assumed) => is_state(assumed),
        None => true,
    };
    has_new && fits && first_unexpected(json, &["new"], &["assumed"]).is_none()
}

fn are_states(items: &[Json]) -> bool
    ensures { result ≡ all_items is_state (items_view items.now) }
{
    for item in items {
        if !is_state(item) {
            return false;
        }
    }
    true
}

fn are_rows(items: &[Json]) -> bool
    ensures { result ≡ all_items is_row (items_view items.now) }
{
    for item in items {
        if !is_row(item) {
            return false;
        }
    }
    true
}

fn count(items: &[Json]) -> usize
    ensures { result ≡ items_len (items_view items.now) }
{
    items.len()
}

/// The items of the list at a name, where they have the form of states and are few enough.
pub(crate) fn states_at<'a>(json: &'a Json, name: &str) -> Option<&'a [Json]>
    ensures { option_map (λ s. items_view s.now) result ≡ states_at name.now (view json.now) }
{
    let items = json.get(name)?.as_array()?.as_slice();
    if count(items) <= MOST_STATES && are_states(items) {
        Some(items)
    } else {
        None
    }
}

/// The items of the list of rows, where they have the form of rows and are as many as a push may
/// have.
pub(crate) fn rows_at(json: &Json) -> Option<&[Json]>
    ensures { option_map (λ s. items_view s.now) result ≡ rows_at (view json.now) }
{
    let items = json.get("rows")?.as_array()?.as_slice();
    let count = count(items);
    if 1 <= count && count <= MOST_STATES && are_rows(items) {
        Some(items)
    } else {
        None
    }
}

// The state that an object is, if it is a valid one.
fn read_state(alloc: Global, schema: &Schema, json: &Json) -> Result<Option<State>, AllocError>
    ensures { IfOk result (λ o. o ≡ state_of schema.now (view json.now)) }
{
    let Some(deleted) = mark_at(json) else {
        return Ok(None);
    };
    match read_fields_beside(alloc, json, MARK) {
        Ok(fields) => valid_state(alloc, schema, deleted, fields),
        Err(ValueFault::Memory) => Err(AllocError),
        Err(ValueFault::NotObject | ValueFault::Kind(_) | ValueFault::Range(_)) => Ok(None),
    }
}

fn valid_state(
    alloc: Global,
    schema: &Schema,
    deleted: bool,
    fields: Fields,
) -> Result<Option<State>, AllocError>
    ensures { IfOk result (λ o. o ≡ valid_state schema.now deleted fields) }
{
    if schema.valid(&fields).is_err() {
        return Ok(None);
    }
    let Some(key) = text_of(fields.get(schema.primary())) else {
        return Ok(None);
    };
    let key = key.copy(alloc)?;
    Ok(Some(State {
        key,
        fields,
        deleted,
    }))
}

fn maybe_state(
    alloc: Global,
    schema: &Schema,
    json: Option<&Json>,
) -> Result<Option<Option<State>>, AllocError>
    ensures { IfOk result
        (λ o. o ≡ maybe_state schema.now (option_map (λ j. view j.now) json.entry)) }
{
    let Some(json) = json else {
        return Ok(Some(None));
    };
    match read_state(alloc, schema, json)? {
        Some(state) => Ok(Some(Some(state))),
        None => Ok(None),
    }
}

fn has_key(key: &RxText, state: &Option<State>) -> bool
    ensures { result ≡ has_key key.now state.now }
{
    match state {
        Some(state) => state.key == *key,
        None => true,
    }
}

// The row that an object is, if its states are valid and have one key.
fn read_row(alloc: Global, schema: &Schema, json: &Json) -> Result<Option<PushRow>, AllocError>
    ensures { IfOk result (λ o. o ≡ row_of schema.now (view json.now)) }
{
    let Some(new) = json.get("new") else {
        return Ok(None);
    };
    let Some(new) = read_state(alloc, schema, new)? else {
        return Ok(None);
    };
    let Some(assumed) = maybe_state(alloc, schema, json.get("assumed"))? else {
        return Ok(None);
    };
    if !has_key(&new.key, &assumed) {
        return Ok(None);
    }
    Ok(Some(PushRow { assumed, new }))
}

/// The rows of items. The first that isn't valid, or whose key stood before, decides.
pub(crate) fn read_rows(
    alloc: Global,
    schema: &Schema,
    items: &[Json],
) -> Result<RxList<PushRow>, WireFault>
    ensures { Due Memory result (rows_of schema.now (items_view items.now)) }
{
    let mut seen = BTreeSet::new(alloc);
    let mut rows = RxList::new(alloc);
    for item in items {
        let Some(row) = read_row(alloc, schema, item)? else {
            return Err(WireFault::Invalid(rows.len() as u64));
        };
        if !is_first(alloc, &mut seen, &row.new.key)? {
            return Err(WireFault::Invalid(rows.len() as u64));
        }
        rows.push(row)?;
    }
    Ok(rows)
}

/// The states of items. The first that isn't valid, or whose key stood before, decides.
pub(crate) fn read_states(
    alloc: Global,
    schema: &Schema,
    items: &[Json],
) -> Result<RxList<State>, WireFault>
    ensures { Due Memory result (states_of schema.now (items_view items.now)) }
{
    let mut seen = BTreeSet::new(alloc);
    let mut states = RxList::new(alloc);
    for item in items {
        let Some(state) = read_state(alloc, schema, item)? else {
            return Err(WireFault::Invalid(states.len() as u64));
        };
        if !is_first(alloc, &mut seen, &state.key)? {
            return Err(WireFault::Invalid(states.len() as u64));
        }
        states.push(state)?;
    }
    Ok(states)
}

// Whether a key wasn't seen before; from now on it was.
fn is_first(alloc: Global, seen: &mut BTreeSet<String>, key: &RxText) -> Result<bool, AllocError>
    ensures first { IfOk result (λ b. b ≡ not (contains_text seen.old key.now)) }
    ensures added { OnOk result ((q : List ℕ)
        → contains_text seen.new q ≡ (bytes_eq q key.now || contains_text seen.old q)) }
{
    Ok(seen.insert(String::from_str(alloc, key.as_str())?)?)
}
