ghost use Rattle.std.specs.Prelude.{◌≡◌, ◌≤◌, ◌∷◌, ◌++◌, ℕ, Bool, List, IfOk, OnOk, Some, None, Ok, false, string_bytes};
ghost use Rattle.json.specs.Tree.{json_tokens};
ghost use Rattle.serde_json.specs.Data.{Data, depth};
ghost use Rattle.serde_json.specs.Read.{read, max_depth};
ghost use Rattle.serde_json.specs.View.{view, members_view};
ghost use Rattle.serde_json.specs.Written.{compact_text, has_float, outline};
ghost use Rattle.rx_value.specs.Fields.{AreFields};
ghost use Rattle.rx_value.specs.Named.{named, put_in_order};
ghost use Rattle.rx_value.specs.Reading.{fields_of};
ghost use Rattle.rx_value.specs.State.{mark, state_data, ReadsAsState};
ghost use Rattle.rx_value.specs.Writing.{value_data, pairs_members, fields_data, pairs_tokens};
ghost use Rattle.rx_value.specs.declared.value.Value.TheVariants.{Flag};

use crate::fields::Fields;
use crate::place::place;
use crate::rx_text::RxText;
use crate::state::{MARK, State};
use crate::value::Value;
use json::Writer;
use serde_json::{Map, Value as Json};
use std::alloc::{AllocError, Global};
use std::mem;

/// Appends the compact JSON object of the state, which `text` gives as a text of its own.
pub fn write_state(text: &mut String, state: &State) -> Result<(), AllocError>
    ensures ok { OnOk result (string_bytes text.new
        ≡ string_bytes text.old ++ compact_text (state_data state.now)) }
    ensures front { (more : List ℕ) × (string_bytes text.new ≡ string_bytes text.old ++ more) }
{
    let empty = String::new(*text.allocator());
    let mut writer = Writer::new(mem::replace(text, empty).into_bytes());
    let written = put_state(&mut writer, state);
    // A writer gives UTF-8 after what it was given.
    *text = unsafe { String::from_utf8_unchecked(writer.into_inner()) };
    written
}

/// The tokens of the JSON object of the fields, after those that the writer has.
pub fn put_fields(writer: &mut Writer, fields: &Fields) -> Result<(), AllocError>
    ensures tokens { OnOk result (writer.new.tokens
        ≡ writer.old.tokens ++ json_tokens (outline (fields_data fields.now))) }
    ensures before { writer.new.before ≡ writer.old.before }
{
    writer.begin_object()?;
    put_pairs(writer, fields.pairs.as_slice())?;
    writer.end_object()
}

/// The tokens of the JSON object of the state, after those that the writer has.
pub fn put_state(writer: &mut Writer, state: &State) -> Result<(), AllocError>
    ensures tokens { OnOk result (writer.new.tokens
        ≡ writer.old.tokens ++ json_tokens (outline (state_data state.now))) }
    ensures before { writer.new.before ≡ writer.old.before }
{
    let (before, after) = around_mark(&state.fields);
    writer.begin_object()?;
    put_pairs(writer, before)?;
    writer.key(MARK)?;
    writer.boolean(state.deleted)?;
    put_pairs(writer, after)?;
    writer.end_object()
}

// The pairs that stand before the deletion mark, and those behind it.
fn around_mark(fields: &Fields) -> (&[(RxText, Value)], &[(RxText, Value)])
    ensures { (deleted : Bool) → put_in_order fields.now mark (Flag deleted)
        ≡ result.0.now ++ (mark, Flag deleted) ∷ result.1.now }
{
    let pairs = fields.pairs.as_slice();
    match place(pairs, MARK) {
        Ok(i) => (&pairs[..i], &pairs[i + 1..]),
        Err(i) => (&pairs[..i], &pairs[i..]),
    }
}

// The tokens of the members of the pairs.
fn put_pairs(writer: &mut Writer, pairs: &[(RxText, Value)]) -> Result<(), AllocError>
    ensures tokens { OnOk result (writer.new.tokens ≡ writer.old.tokens ++ pairs_tokens pairs.now) }
    ensures before { writer.new.before ≡ writer.old.before }
{
    for (name, value) in pairs {
        writer.key(name.as_str())?;
        put_value(writer, value)?;
    }
    Ok(())
}

fn put_value(writer: &mut Writer, value: &Value) -> Result<(), AllocError>
    ensures tokens { OnOk result (writer.new.tokens
        ≡ writer.old.tokens ++ json_tokens (outline (value_data value.now))) }
    ensures before { writer.new.before ≡ writer.old.before }
{
    match value {
        Value::Flag(b) => writer.boolean(*b),
        Value::Int(n) => writer.i64(*n),
        Value::Text(text) => writer.string(text.as_str()),
    }
}

/// For tests, as the program puts tokens: appends the compact JSON object of the fields.
pub fn write_fields(text: &mut String, fields: &Fields) -> Result<(), AllocError>
    ensures ok { OnOk result (string_bytes text.new
        ≡ string_bytes text.old ++ compact_text (fields_data fields.now)) }
    ensures front { (more : List ℕ) × (string_bytes text.new ≡ string_bytes text.old ++ more) }
{
    let empty = String::new(*text.allocator());
    let mut writer = Writer::new(mem::replace(text, empty).into_bytes());
    let written = put_fields(&mut writer, fields);
    // A writer gives UTF-8 after what it was given.
    *text = unsafe { String::from_utf8_unchecked(writer.into_inner()) };
    written
}

/// For tests: the compact JSON object of the fields, which `read_fields` reads back.
pub fn fields_text(alloc: Global, fields: &Fields) -> Result<RxText, AllocError>
    ensures text { IfOk result (λ t. t ≡ compact_text (fields_data fields.now)) }
    ensures reads_back { IfOk result
        (λ t. (d : Data) × (read t ≡ Some d) × (fields_of d ≡ Ok fields.now)) }
{
    let json = fields_json(alloc, fields)?;
    Ok(compact(alloc, &json)?)
}

/// For tests: the compact JSON object of the state, its fields with the deletion mark. A field of
/// the name of the mark would be lost.
pub fn text(alloc: Global, state: &State) -> Result<RxText, AllocError>
    ensures text { IfOk result (λ t. t ≡ compact_text (state_data state.now)) }
    ensures reads_back { named state.now.fields mark ≡ None
        → IfOk result (λ t. ReadsAsState t state.now) }
{
    let json = state_json(alloc, state)?;
    Ok(compact(alloc, &json)?)
}

fn compact(alloc: Global, json: &Json) -> Result<RxText, AllocError>
    ensures text { has_float (view json.now) ≡ false
        → IfOk result (λ t. t ≡ compact_text (view json.now)) }
    ensures reads_back { depth (view json.now) ≤ max_depth
        → IfOk result (λ t. read t ≡ Some (view json.now)) }
{
    RxText::from_string(alloc, json.to_string(alloc)?)
}

/// For tests: the JSON object of the fields.
pub fn fields_json(alloc: Global, fields: &Fields) -> Result<Json, AllocError>
    ensures data { IfOk result (λ j. view j ≡ fields_data fields.now) }
    ensures fields { AreFields fields.now }
{
    Ok(Json::Object(fields_map(alloc, fields)?))
}

/// For tests: the JSON object of the state: its fields, with the deletion mark.
pub fn state_json(alloc: Global, state: &State) -> Result<Json, AllocError>
    ensures data { IfOk result (λ j. view j ≡ state_data state.now) }
    ensures fields { AreFields state.now.fields }
{
    let mut members = fields_map(alloc, &state.fields)?;
    members.insert(String::from_str(alloc, MARK)?, Json::from(state.deleted))?;
    Ok(Json::Object(members))
}

fn fields_map(alloc: Global, fields: &Fields) -> Result<Map<String, Json>, AllocError>
    ensures data { IfOk result (λ m. members_view m.entries ≡ pairs_members fields.now) }
    ensures fields { AreFields fields.now }
{
    let mut members = Map::new(alloc);
    for (name, value) in &fields.pairs {
        members.insert(
            String::from_str(alloc, name.as_str())?,
            value_json(alloc, value)?,
        )?;
    }
    Ok(members)
}

fn value_json(alloc: Global, value: &Value) -> Result<Json, AllocError>
    ensures { IfOk result (λ j. view j ≡ value_data value.now) }
{
    match value {
        Value::Flag(b) => Ok(Json::Bool(*b)),
        Value::Int(n) => Ok(Json::from(*n)),
        Value::Text(text) => Ok(Json::String(String::from_str(alloc, text.as_str())?)),
    }
}
