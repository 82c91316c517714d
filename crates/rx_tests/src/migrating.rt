// Steps of a migration: which JSON stands for them, and what they make of a state.
use crate::short::long_text;
use rx_migrate::{Step, Steps, StepsFault};
use rx_value::{RxText, State, Value, fields_text, read_fields};
use serde_json::Value as Json;
use std::alloc::{AllocError, Global};
use std::test::Fail;

// JSON, and the steps that it stands for, or `none`. L is a name of 64 bytes.
const LISTS: &str = r#"
[] |
[{"rename":"a","to":"b"}] | rename a to b
[{"to":"Z_9","rename":"a"}] | rename a to Z_9
[{"rename":"a","to":"a"}] | rename a to a
[{"set":"a","value":1}] | set a to 1
[{"value":true,"set":"a"}] | set a to true
[{"set":"a","value":""}] | set a to ""
[{"set":"a","value":9007199254740991}] | set a to 9007199254740991
[{"set":"a","value":-9007199254740991}] | set a to -9007199254740991
[{"drop":"a"}] | drop a
[{"drop":"L"}] | drop L
[{"scale":"a","by":1}] | scale a by 1
[{"by":1000,"scale":"a"}] | scale a by 1000
[{"drop":"a"},{"rename":"b","to":"c"},{"drop":"a"}] | drop a, rename b to c, drop a
[{"drop":"a","drop":"b"}] | drop b
null | none
5 | none
"drop" | none
{} | none
{"drop":"a"} | none
[null] | none
["drop"] | none
[[]] | none
[{}] | none
[{"rename":"a"}] | none
[{"to":"a"}] | none
[{"rename":"a","to":null}] | none
[{"rename":"a","to":1}] | none
[{"rename":true,"to":"b"}] | none
[{"rename":"9","to":"b"}] | none
[{"rename":"a","to":""}] | none
[{"rename":"a","to":"b","by":1}] | none
[{"rename":"a","to":"b","drop":"c"}] | none
[{"rename":"a","value":"b"}] | none
[{"Rename":"a","to":"b"}] | none
[{"set":"a"}] | none
[{"value":1}] | none
[{"set":1,"value":1}] | none
[{"set":"_a","value":1}] | none
[{"set":"a","value":null}] | none
[{"set":"a","value":[]}] | none
[{"set":"a","value":{}}] | none
[{"set":"a","value":1.0}] | none
[{"set":"a","value":1e2}] | none
[{"set":"a","value":9007199254740992}] | none
[{"set":"a","value":-9007199254740992}] | none
[{"set":"a","value":1,"to":"b"}] | none
[{"drop":null}] | none
[{"drop":"a b"}] | none
[{"drop":"La"}] | none
[{"drop":"a","value":1}] | none
[{"unset":"a"}] | none
[{"scale":"a"}] | none
[{"by":2}] | none
[{"scale":"a","by":0}] | none
[{"scale":"a","by":1001}] | none
[{"scale":"a","by":-1}] | none
[{"scale":"a","by":1.5}] | none
[{"scale":"a","by":"2"}] | none
[{"scale":"a","by":18446744073709551616}] | none
[{"scale":"","by":2}] | none
[{"scale":"a","by":2,"to":"b"}] | none
[{"drop":"a"},{"drop":1}] | none
[{"drop":1},{"drop":"a"}] | none
[‹0..64|,|{"drop":"a"}›] | ‹0..64|, |drop a›
[‹0..65|,|{"drop":"a"}›] | none
"#;

const LONG: &str = "abcdefghijklmnopqrstuvwxyz_abcdefghijklmnopqrstuvwxyz_0123456789";

#[test]
fn a_list_of_steps_is_read_or_none(rt: HostRuntime) -> Result<(), Fail> {
    let alloc = rt.alloc();
    let lists = long_text(alloc, LISTS)?;
    let lists = lists.as_str().replace(alloc, "L", LONG)?;
    let mut read = 0u64;
    for line in lists.as_str().lines() {
        if let Some((list, due)) = line.split_once(" |") {
            compare(line, due.trim(), shown_steps(alloc, list)?.as_str())?;
            read = read.saturating_add(1);
        }
    }
    assert_eq!(&rt; read, 66);
    Ok(())
}

fn compare(line: &str, due: &str, found: &str) -> Result<(), Fail> {
    if found == due {
        return Ok(());
    }
    Err(Fail::new(format_args!("{line}: found {found}")))
}

// The steps that a text stands for, in words.
fn shown_steps(alloc: Global, list: &str) -> Result<String, Fail> {
    match steps_of(alloc, list)? {
        Some(steps) => Ok(shown(alloc, &steps)?),
        None => Ok(String::from_str(alloc, "none")?),
    }
}

fn steps_of(alloc: Global, list: &str) -> Result<Option<Steps>, Fail> {
    match Steps::read(alloc, &Json::from_str(alloc, list)?) {
        Ok(steps) => Ok(Some(steps)),
        Err(StepsFault::NotSteps) => Ok(None),
        Err(StepsFault::Memory) => Err(Fail::new("no memory")),
    }
}

// A copy of the steps, in words.
fn shown(alloc: Global, steps: &Steps) -> Result<String, AllocError> {
    let copy = steps.copy(alloc)?;
    let mut words = String::new(alloc);
    for i in 0..copy.len() {
        if i > 0 {
            words.push_str(", ")?;
        }
        words.push_str(shown_step(alloc, copy.at(i))?.as_str())?;
    }
    Ok(words)
}

fn shown_step(alloc: Global, step: &Step) -> Result<String, AllocError> {
    match step {
        Step::Rename { field, to } => {
            format!(in alloc; "rename {} to {}", field.as_str(), to.as_str())
        }
        Step::Set { field, value } => shown_set(alloc, field.as_str(), value),
        Step::Unset { field } => format!(in alloc; "drop {}", field.as_str()),
        Step::Scale { field, by } => format!(in alloc; "scale {} by {by}", field.as_str()),
    }
}

fn shown_set(alloc: Global, field: &str, value: &Value) -> Result<String, AllocError> {
    match value {
        Value::Flag(b) => format!(in alloc; "set {field} to {b}"),
        Value::Int(n) => format!(in alloc; "set {field} to {n}"),
        Value::Text(text) => format!(in alloc; "set {field} to \"{}\"", text.as_str()),
    }
}

// One of each kind.
const EACH: &str = r#"
[{"rename":"a","to":"b"},{"set":"c","value":"f"},{"drop":"d"},{"scale":"e","by":2}]
"#;

#[test]
fn steps_name_their_fields(rt: HostRuntime) -> Result<(), Fail> {
    let alloc = rt.alloc();
    let Some(steps) = steps_of(alloc, EACH)? else {
        return Err(Fail::new("no steps"));
    };
    let mut named = String::new(alloc);
    for name in ["a", "b", "c", "d", "e", "f", "A", "aa", ""] {
        if steps.names(name) {
            named.push_str(name)?;
        }
    }
    compare("names", "abcde", named.as_str())
}

// Steps, the fields of a state, and what they become; `none` where a product is out of range.
const MIGRATIONS: &str = r#"
[] | {"a":1} | {"a":1}
[{"rename":"n","to":"c"},{"scale":"c","by":9},{"set":"o","value":true}] | {"n":1} | {"c":9,"o":true}
[{"rename":"a","to":"b"}] | {"a":1,"c":3} | {"b":1,"c":3}
[{"rename":"c","to":"a"}] | {"b":2,"c":3} | {"a":3,"b":2}
[{"rename":"a","to":"b"}] | {"a":1,"b":"t","c":3} | {"b":1,"c":3}
[{"rename":"a","to":"b"}] | {"b":2} | {"b":2}
[{"rename":"a","to":"a"}] | {"a":1,"b":2} | {"a":1,"b":2}
[{"rename":"a","to":"b"},{"rename":"b","to":"a"}] | {"a":1,"b":2} | {"a":1}
[{"rename":"a","to":"b"},{"set":"a","value":0}] | {"a":1} | {"a":0,"b":1}
[{"set":"a","value":"t"}] | {} | {"a":"t"}
[{"set":"a","value":"t"}] | {"a":false} | {"a":false}
[{"set":"b","value":2}] | {"a":1,"c":3} | {"a":1,"b":2,"c":3}
[{"drop":"b"}] | {"a":1,"b":2,"c":3} | {"a":1,"c":3}
[{"drop":"b"}] | {"a":1} | {"a":1}
[{"drop":"a"},{"set":"a","value":0}] | {"a":1} | {"a":0}
[{"scale":"a","by":1000}] | {"a":5} | {"a":5000}
[{"scale":"a","by":7}] | {"a":-3,"b":3} | {"a":-21,"b":3}
[{"scale":"a","by":7}] | {"a":"3"} | {"a":"3"}
[{"scale":"a","by":7}] | {"a":true} | {"a":true}
[{"scale":"a","by":7}] | {"b":3} | {"b":3}
[{"scale":"a","by":1}] | {"a":9007199254740991} | {"a":9007199254740991}
[{"scale":"a","by":2}] | {"a":4503599627370495} | {"a":9007199254740990}
[{"scale":"a","by":2}] | {"a":4503599627370496} | none
[{"scale":"a","by":2}] | {"a":-4503599627370496} | none
[{"scale":"a","by":1000}] | {"a":9007199254740} | {"a":9007199254740000}
[{"scale":"a","by":1000}] | {"a":9007199254741} | none
[{"scale":"a","by":1000}] | {"a":-9007199254740991} | none
[{"scale":"a","by":2},{"drop":"a"}] | {"a":9007199254740991} | none
[{"drop":"a"},{"scale":"a","by":2}] | {"a":9007199254740991} | {}
"#;

#[test]
fn steps_are_made_in_turn(rt: HostRuntime) -> Result<(), Fail> {
    let mut made = 0u64;
    for line in MIGRATIONS.lines() {
        if !line.is_empty() {
            migrate(rt.alloc(), line)?;
            made = made.saturating_add(1);
        }
    }
    assert_eq!(&rt; made, 29);
    Ok(())
}

fn migrate(alloc: Global, line: &str) -> Result<(), Fail> {
    let mut parts = line.split(" | ");
    let list = parts.next().unwrap_or("");
    let fields = parts.next().unwrap_or("");
    let due = parts.next().unwrap_or("");
    let Some(steps) = steps_of(alloc, list)? else {
        return Err(Fail::new(format_args!("{line}: no steps")));
    };
    for deleted in [false, true] {
        let state = state(alloc, fields, deleted)?;
        compare(line, due, migrated(alloc, &steps, &state)?.as_str())?;
    }
    Ok(())
}

fn state(alloc: Global, fields: &str, deleted: bool) -> Result<State, Fail> {
    Ok(State {
        key: RxText::new(alloc, "a key")?,
        fields: read_fields(alloc, &Json::from_str(alloc, fields)?)?,
        deleted,
    })
}

// The fields that the state comes to, where it keeps its key and its mark.
fn migrated(alloc: Global, steps: &Steps, state: &State) -> Result<RxText, Fail> {
    match steps.migrated(alloc, state)? {
        Some(new) if new.key == state.key && new.deleted == state.deleted => {
            Ok(fields_text(alloc, &new.fields)?)
        }
        Some(_) => Err(Fail::new("another key or mark")),
        None => Ok(RxText::new(alloc, "none")?),
    }
}
