// States and rows, printed token by token.
ghost use Rattle.std.specs.Prelude.{◌≡◌, ◌++◌, ◌∷◌, [], IfOk, OnOk, IfSome};
ghost use Rattle.std.specs.List.{AllByRecursion};
ghost use Rattle.json.specs.Token as token;
ghost use Rattle.json.specs.Tree.{json_tokens};
ghost use Rattle.serde_json.specs.Data.{array};
ghost use Rattle.serde_json.specs.Written.{outline};
ghost use Rattle.rx_value.specs.Fields.{Pairs};
ghost use Rattle.rx_value.specs.State.{mark, state_data};
ghost use Rattle.rx_value.specs.Writing.{value_data};
ghost use Rattle.rx_wire.specs.Printing.{assumed_tokens, tokens_left, HasFields, RowHasFields};
ghost use Rattle.rx_wire.specs.Writing.{row_data, rows_items, states_items};

use crate::message::PushRow;
use json::Writer;
use rx_value::{MARK, State, Value};
use std::alloc::AllocError;
use std::cmp::Ordering;

/// The list of the rows.
pub(crate) fn put_rows(writer: &mut Writer, rows: &[PushRow]) -> Result<(), AllocError>
    ensures tokens { OnOk result (writer.new.tokens ≡ writer.old.tokens
        ++ json_tokens (outline (array (rows_items rows.now)))) }
    ensures before { writer.new.before ≡ writer.old.before }
    ensures fields { OnOk result (AllByRecursion RowHasFields rows.now) }
{
    writer.begin_array()?;
    for row in rows {
        put_row(writer, row)?;
    }
    writer.end_array()
}

fn put_row(writer: &mut Writer, row: &PushRow) -> Result<(), AllocError>
    ensures tokens { OnOk result (writer.new.tokens ≡ writer.old.tokens
        ++ json_tokens (outline (row_data row.now))) }
    ensures before { writer.new.before ≡ writer.old.before }
    ensures fields { OnOk result (RowHasFields row.now) }
{
    writer.begin_object()?;
    put_assumed(writer, &row.assumed)?;
    writer.key("new")?;
    put_state(writer, &row.new)?;
    writer.end_object()
}

// The member of the assumed state, where there is one.
fn put_assumed(writer: &mut Writer, assumed: &Option<State>) -> Result<(), AllocError>
    ensures tokens { OnOk result (writer.new.tokens ≡ writer.old.tokens
        ++ assumed_tokens assumed.now) }
    ensures before { writer.new.before ≡ writer.old.before }
    ensures fields { OnOk result (IfSome assumed.now HasFields) }
{
    let Some(state) = assumed else {
        return Ok(());
    };
    writer.key("assumed")?;
    put_state(writer, state)
}

/// The list of the states.
pub(crate) fn put_states(writer: &mut Writer, states: &[State]) -> Result<(), AllocError>
    ensures tokens { OnOk result (writer.new.tokens ≡ writer.old.tokens
        ++ json_tokens (outline (array (states_items states.now)))) }
    ensures before { writer.new.before ≡ writer.old.before }
    ensures fields { OnOk result (AllByRecursion HasFields states.now) }
{
    writer.begin_array()?;
    for state in states {
        put_state(writer, state)?;
    }
    writer.end_array()
}

// The object of a state: its fields by rising name, with the deletion mark in its place.
fn put_state(writer: &mut Writer, state: &State) -> Result<(), AllocError>
    ensures tokens { OnOk result (writer.new.tokens ≡ writer.old.tokens
        ++ json_tokens (outline (state_data state.now))) }
    ensures before { writer.new.before ≡ writer.old.before }
    ensures fields { OnOk result (HasFields state.now) }
{
    writer.begin_object()?;
    let mut marked = false;
    for i in 0..state.fields.len() {
        let (name, value) = state.fields.at(i);
        marked = put_next(writer, marked, state.deleted, name.as_str(), value)?;
    }
    if !marked {
        put_mark(writer, state.deleted)?;
    }
    writer.end_object()
}

// The next field, and the mark where it goes before it or in its place; whether the mark was
// printed.
fn put_next(
    writer: &mut Writer,
    marked: bool,
    deleted: bool,
    name: &str,
    value: &Value,
) -> Result<bool, AllocError>
    ensures tokens { IfOk result (λ now. (ps : Pairs)
        → writer.new.tokens ++ tokens_left now deleted ps
        ≡ writer.old.tokens ++ tokens_left marked deleted ((name.now, value.now) ∷ ps)) }
    ensures before { writer.new.before ≡ writer.old.before }
{
    if marked {
        put_field(writer, name, value)?;
        return Ok(true);
    }
    match MARK.cmp(&name) {
        Ordering::Greater => {
            put_field(writer, name, value)?;
            Ok(false)
        }
        Ordering::Less => {
            put_mark(writer, deleted)?;
            put_field(writer, name, value)?;
            Ok(true)
        }
        Ordering::Equal => {
            put_mark(writer, deleted)?;
            Ok(true)
        }
    }
}

fn put_mark(writer: &mut Writer, deleted: bool) -> Result<(), AllocError>
    ensures tokens { OnOk result (writer.new.tokens ≡ writer.old.tokens
        ++ token.key mark ∷ token.boolean deleted ∷ []) }
    ensures before { writer.new.before ≡ writer.old.before }
{
    writer.key(MARK)?;
    writer.boolean(deleted)
}

fn put_field(writer: &mut Writer, name: &str, value: &Value) -> Result<(), AllocError>
    ensures tokens { OnOk result (writer.new.tokens ≡ writer.old.tokens
        ++ token.key name.now ∷ json_tokens (outline (value_data value.now))) }
    ensures before { writer.new.before ≡ writer.old.before }
{
    writer.key(name)?;
    match value {
        Value::Flag(b) => writer.boolean(*b),
        Value::Int(n) => writer.i64(*n),
        Value::Text(text) => writer.string(text.as_str()),
    }
}
