// The parts that lines of output have in common, as tokens after those that a writer has.
ghost use Rattle.std.specs.Prelude.{◌≡◌, ◌∷◌, [], ◌++◌, IfOk, OnOk, option_map, string_bytes};
ghost use Rattle.std.specs.Str.{IsUtf8};
ghost use Rattle.json.specs.Token.{key};
ghost use Rattle.json.specs.Tree.{json_tokens};
ghost use Rattle.serde_json.specs.Data.{Data, string};
ghost use Rattle.serde_json.specs.Written.{outline};
ghost use Rattle.rx_value.specs.Form.{texts};
ghost use Rattle.rx_value.specs.State.{state_data};
ghost use Rattle.rx_value.specs.Writing.{fields_data};
ghost use Rattle.rx_reply.specs.Answer.{rows_of, states_of};
ghost use Rattle.rx_reply.specs.Emission.{rows_fields};
ghost use Rattle.rx_reply.specs.Writing.{number_data, list_data, place_data, member_tokens, output_line};

use json::Writer;
use rx_document::{Place, Stored};
use rx_query::Results;
use rx_value::{RxText, put_fields, put_state};
use std::alloc::AllocError;

/// A writer of a line behind a text.
pub fn line_after(text: String) -> Writer
    ensures before { result.before ≡ string_bytes text }
    ensures tokens { result.tokens ≡ [] }
    ensures utf8 { IsUtf8 result.before }
{
    Writer::new(text.into_bytes())
}

/// The line of what was written, behind what stood there before.
pub fn finish_line(writer: Writer) -> Result<String, AllocError>
    requires { IsUtf8 writer.before }
    ensures { (d : Data) → writer.tokens ≡ json_tokens (outline d)
        → IfOk result (λ t. string_bytes t ≡ writer.before ++ output_line d) }
{
    // A writer gives UTF-8.
    let mut text = unsafe { String::from_utf8_unchecked(writer.into_inner()) };
    text.push('\n')?;
    Ok(text)
}

/// A member that is a number.
pub fn put_number(writer: &mut Writer, name: &str, number: u64) -> Result<(), AllocError>
    ensures tokens { OnOk result (writer.new.tokens
        ≡ writer.old.tokens ++ key name.now ∷ json_tokens (outline (number_data number))) }
    ensures before { writer.new.before ≡ writer.old.before }
{
    writer.key(name)?;
    writer.u64(number)
}

/// A member that is a text.
pub fn put_text(writer: &mut Writer, name: &str, text: &str) -> Result<(), AllocError>
    ensures tokens { OnOk result (writer.new.tokens
        ≡ writer.old.tokens ++ key name.now ∷ json_tokens (outline (string text.now))) }
    ensures before { writer.new.before ≡ writer.old.before }
{
    writer.key(name)?;
    writer.string(text)
}

/// A number, if there is one.
pub fn put_maybe_number(
    writer: &mut Writer,
    name: &str,
    number: Option<u64>,
) -> Result<(), AllocError>
    ensures tokens { OnOk result (writer.new.tokens
        ≡ writer.old.tokens ++ member_tokens name.now (option_map number_data number)) }
    ensures before { writer.new.before ≡ writer.old.before }
{
    match number {
        Some(number) => put_number(writer, name, number),
        None => Ok(()),
    }
}

/// A text, if there is one.
pub fn put_maybe_text(writer: &mut Writer, name: &str, text: Option<&str>) -> Result<(), AllocError>
    ensures tokens { OnOk result (writer.new.tokens
        ≡ writer.old.tokens ++ member_tokens name.now (option_map (λ t. string t.now) text.entry)) }
    ensures before { writer.new.before ≡ writer.old.before }
{
    match text {
        Some(text) => put_text(writer, name, text),
        None => Ok(()),
    }
}

pub(crate) fn put_maybe_place(
    writer: &mut Writer,
    name: &str,
    place: &Option<Place>,
) -> Result<(), AllocError>
    ensures tokens { OnOk result (writer.new.tokens
        ≡ writer.old.tokens ++ member_tokens name.now (option_map place_data place.now)) }
    ensures before { writer.new.before ≡ writer.old.before }
{
    let Some(place) = place else {
        return Ok(());
    };
    writer.key(name)?;
    put_place(writer, place)
}

fn put_place(writer: &mut Writer, place: &Place) -> Result<(), AllocError>
    ensures tokens { OnOk result (writer.new.tokens
        ≡ writer.old.tokens ++ json_tokens (outline (place_data place.now))) }
    ensures before { writer.new.before ≡ writer.old.before }
{
    writer.begin_object()?;
    put_text(writer, "id", place.id.as_str())?;
    put_number(writer, "lwt", place.lwt)?;
    writer.end_object()
}

pub(crate) fn put_texts(writer: &mut Writer, texts: &[RxText]) -> Result<(), AllocError>
    ensures tokens { OnOk result (writer.new.tokens
        ≡ writer.old.tokens ++ json_tokens (outline (list_data string texts.now))) }
    ensures before { writer.new.before ≡ writer.old.before }
{
    writer.begin_array()?;
    for text in texts {
        writer.string(text.as_str())?;
    }
    writer.end_array()
}

// Names that are lent.
pub(crate) fn put_names(writer: &mut Writer, names: &[&RxText]) -> Result<(), AllocError>
    ensures tokens { OnOk result (writer.new.tokens
        ≡ writer.old.tokens ++ json_tokens (outline (list_data string (texts names.now)))) }
    ensures before { writer.new.before ≡ writer.old.before }
{
    writer.begin_array()?;
    for name in names {
        writer.string(name.as_str())?;
    }
    writer.end_array()
}

// The fields of documents.
pub(crate) fn put_rows(writer: &mut Writer, rows: &[&Stored]) -> Result<(), AllocError>
    ensures tokens { OnOk result (writer.new.tokens
        ≡ writer.old.tokens ++ json_tokens (outline (list_data fields_data (rows_of rows.now)))) }
    ensures before { writer.new.before ≡ writer.old.before }
{
    writer.begin_array()?;
    for document in rows {
        put_fields(writer, &document.state.fields)?;
    }
    writer.end_array()
}

// The fields of a query's rows.
pub(crate) fn put_results(writer: &mut Writer, rows: &Results) -> Result<(), AllocError>
    ensures tokens { OnOk result (writer.new.tokens
        ≡ writer.old.tokens
        ++ json_tokens (outline (list_data fields_data (rows_fields rows.now)))) }
    ensures before { writer.new.before ≡ writer.old.before }
{
    writer.begin_array()?;
    for i in 0..rows.len() {
        put_fields(writer, &rows.row(i).fields)?;
    }
    writer.end_array()
}

// The states of documents, with their deletion marks.
pub(crate) fn put_states(writer: &mut Writer, documents: &[&Stored]) -> Result<(), AllocError>
    ensures tokens { OnOk result (writer.new.tokens
        ≡ writer.old.tokens
        ++ json_tokens (outline (list_data state_data (states_of documents.now)))) }
    ensures before { writer.new.before ≡ writer.old.before }
{
    writer.begin_array()?;
    for document in documents {
        put_state(writer, &document.state)?;
    }
    writer.end_array()
}
