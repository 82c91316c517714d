// Values: texts of either kind, fields and states as JSON texts, and copies.
use rx_value::{
    Fields, MARK, RxText, State, fields_text, read_fields, read_fields_beside, text, write_fields,
};
use serde_json::Value as Json;
use std::alloc::{AllocError, Global};
use std::test::Fail;

// Of 0, 14, 15 and 40 bytes; with letters of two to four bytes at the edge.
const TEXTS: [&str; 6] = [
    "",
    "abcdefghijklmn",
    "abcdefghijklmno",
    "abcdefghijkl\u{e9}",
    "abcdefghijklm\u{e9}",
    "a text that is longer than a short one \u{1f600}",
];

#[test]
fn a_text_keeps_its_bytes(rt: HostRuntime) -> Result<(), Fail> {
    for (place, text) in TEXTS.iter().enumerate() {
        try_text(rt.alloc(), place, text)?;
    }
    Ok(())
}

fn try_text(alloc: Global, place: usize, text: &str) -> Result<(), Fail> {
    let copied = copied(alloc, text)?;
    let given = RxText::from_string(alloc, String::from_str(alloc, text)?)?;
    if copied.as_str() != text || given != copied {
        return Err(Fail::new(format_args!("{text} is kept as {}", copied.as_str())));
    }
    compare_others(alloc, place, &copied)
}

// A copy of a text that is gone.
fn copied(alloc: Global, text: &str) -> Result<RxText, AllocError> {
    let made = RxText::new(alloc, text)?;
    made.copy(alloc)
}

// It is the text at its place, and no other.
fn compare_others(alloc: Global, place: usize, copied: &RxText) -> Result<(), Fail> {
    for (beside, text) in TEXTS.iter().enumerate() {
        let other = RxText::new(alloc, text)?;
        if (other == *copied) != (place == beside) {
            return Err(Fail::new(format_args!("the texts {place} and {beside}")));
        }
    }
    Ok(())
}

// An object, its fields as a text, and the text of the state of these fields.
const OBJECTS: [(&str, &str, &str); 4] = [
    ("{}", "{}", r#"{"_deleted":false}"#),
    (
        r#"{ "n": -9007199254740991, "id": "k", "Z": true }"#,
        r#"{"Z":true,"id":"k","n":-9007199254740991}"#,
        r#"{"Z":true,"_deleted":false,"id":"k","n":-9007199254740991}"#,
    ),
    (
        r#"{"id":"a \"quote\" \\ \u0001\n","a_longer_name_of_a_field":"\u00e9 \ud83d\ude00 and more"}"#,
        "{\"a_longer_name_of_a_field\":\"\u{e9} \u{1f600} and more\",\"id\":\"a \\\"quote\\\" \\\\ \\u0001\\n\"}",
        "{\"_deleted\":false,\"a_longer_name_of_a_field\":\"\u{e9} \u{1f600} and more\",\"id\":\"a \\\"quote\\\" \\\\ \\u0001\\n\"}",
    ),
    (
        r#"{"b":false,"b":0}"#,
        r#"{"b":0}"#,
        r#"{"_deleted":false,"b":0}"#,
    ),
];

#[test]
fn fields_and_states_are_texts_and_read_back(rt: HostRuntime) -> Result<(), Fail> {
    for (object, of_fields, of_state) in OBJECTS.iter() {
        try_fields(rt.alloc(), object, of_fields)?;
        try_state(rt.alloc(), object, of_state)?;
    }
    Ok(())
}

fn read(alloc: Global, object: &str) -> Result<Fields, Fail> {
    Ok(read_fields(alloc, &Json::from_str(alloc, object)?)?)
}

fn try_fields(alloc: Global, object: &str, due: &str) -> Result<(), Fail> {
    let fields = read(alloc, object)?;
    if fields_text(alloc, &fields)?.as_str() == due && is_added(alloc, &fields, due)? {
        return Ok(());
    }
    Err(Fail::new(format_args!("the fields of {object}")))
}

// Whether the text of the fields is added to what stands in a line.
fn is_added(alloc: Global, fields: &Fields, due: &str) -> Result<bool, AllocError> {
    let mut line = String::from_str(alloc, "[")?;
    write_fields(&mut line, fields)?;
    write_fields(&mut line, fields)?;
    let rest = line.as_str().strip_prefix('[').unwrap_or("");
    Ok(rest.strip_prefix(due) == Some(due))
}

fn try_state(alloc: Global, object: &str, due: &str) -> Result<(), Fail> {
    let state = State {
        key: RxText::new(alloc, "k")?,
        fields: read(alloc, object)?,
        deleted: false,
    };
    compare_state(alloc, &state, due)
}

fn compare_state(alloc: Global, state: &State, due: &str) -> Result<(), Fail> {
    let shown = text_of_copy(alloc, state)?;
    if shown.as_str() == due && reads_back(alloc, due, &state.fields)? {
        return Ok(());
    }
    Err(Fail::new(format_args!("a state is shown as {}, due {due}", shown.as_str())))
}

// The text of the state's copy, which is the same.
fn text_of_copy(alloc: Global, state: &State) -> Result<RxText, Fail> {
    let copied = state.copy(alloc)?;
    if copied == *state {
        return Ok(text(alloc, &copied)?);
    }
    Err(Fail::new("another copy"))
}

// Whether a state's text has these fields beside the mark.
fn reads_back(alloc: Global, shown: &str, fields: &Fields) -> Result<bool, Fail> {
    let json = Json::from_str(alloc, shown)?;
    Ok(read_fields_beside(alloc, &json, MARK)? == *fields)
}
