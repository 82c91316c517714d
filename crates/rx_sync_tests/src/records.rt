// Bodies of records of migrations and copies, worked out by hand from the format: what each says,
// or where its first fault stands.
use crate::compared::compare;
use rx_migrate::{Step, Steps};
use rx_record::{At, PartRow, Record, RecordView};
use rx_value::State;
use std::alloc::{AllocError, Global};
use std::test::Fail;

const BODIES: &str = r#"
end of a copy | 09 0000000000000001 | end 1
end without its epoch | 09 0000 | at 1
end with a byte behind it | 09 0000000000000001 00 | at 9
another kind | 0a 0000000000000001 | at 0
no steps | 06 00000001 6d 00000002 7b7d 00000000 | m {}
each step | 06 00000001 6d 00000002 7b7d 00000004 00 00000001 6e 00000005 636f756e74 03 00000005 636f756e74 000a 01 00000002 6f6e 0001 02 00000001 62 | m {} rename n count, scale count 10, set on, drop b
the least factor | 06 00000001 6d 00000002 7b7d 00000001 03 00000001 6e 0001 | m {} scale n 1
the greatest factor | 06 00000001 6d 00000002 7b7d 00000001 03 00000001 6e 03e8 | m {} scale n 1000
a factor of 0 | 06 00000001 6d 00000002 7b7d 00000001 03 00000001 6e 0000 | at 22
a factor of 1001 | 06 00000001 6d 00000002 7b7d 00000001 03 00000001 6e 03e9 | at 22
65 steps | 06 00000001 6d 00000002 7b7d 00000041 | at 12
a step of another kind | 06 00000001 6d 00000002 7b7d 00000001 04 00000001 6e | at 16
a field whose name is none | 06 00000001 6d 00000002 7b7d 00000001 00 00000001 6e 00000002 3978 | at 22
a value of another kind | 06 00000001 6d 00000002 7b7d 00000001 01 00000001 6e 0300 | at 22
a document with fields | 07 00000001 6d 00000001 0000000000000002 0000000000000001 00000001 61 00 00000003 00000005 636f756e74 01 000000000000000a 00000002 6964 02 00000001 61 00000002 6f6e 00 01 | m 2.1 a
no documents | 07 00000001 6d 00000000 | m
documents rise by write time | 07 00000001 6d 00000002 0000000000000001 0000000000000001 00000001 62 00 00000000 0000000000000002 0000000000000001 00000001 61 01 00000000 | m 1.1 b, 2.1 a!
and then by key | 07 00000001 6d 00000002 0000000000000001 0000000000000001 00000001 61 00 00000000 0000000000000001 0000000000000001 00000001 62 00 00000000 | m 1.1 a, 1.1 b
documents that fall | 07 00000001 6d 00000002 0000000000000002 0000000000000001 00000001 61 00 00000000 0000000000000001 0000000000000001 00000001 62 00 00000000 | at 36
one place twice | 07 00000001 6d 00000002 0000000000000001 0000000000000001 00000001 61 00 00000000 0000000000000001 0000000000000001 00000001 61 00 00000000 | at 36
known states | 08 00000001 72 00000002 00000001 61 00 00000000 00000001 62 01 00000000 00 01 0000000000000003 00000001 61 | r a, b!
known states that fall | 08 00000001 72 00000002 00000001 62 00 00000000 00000001 61 00 00000000 00 00 | at 20
a checkpoint without a write time | 08 00000001 72 00000000 01 0000000000000000 00000000 00 | at 11
"#;

#[test]
fn bodies_of_migrations_and_copies_are_read_as_the_format_says(
    rt: HostRuntime,
) -> Result<(), Fail> {
    let mut bodies = 0u64;
    for line in BODIES.lines() {
        let Some((name, rest)) = line.split_once(" | ") else {
            continue;
        };
        let Some((bytes, due)) = rest.split_once(" | ") else {
            return Err(Fail::new(format_args!("{name}: nothing is due")));
        };
        try_body(rt.alloc(), name, bytes, due)?;
        bodies = bodies.saturating_add(1);
    }
    assert_eq!(&rt; bodies, 23);
    Ok(())
}

// The body says what is due, and is what is written of that; or its fault stands there.
fn try_body(alloc: Global, name: &str, bytes: &str, due: &str) -> Result<(), Fail> {
    let digits = bytes.replace(alloc, " ", "")?;
    let body = hex::decode(alloc, digits.as_str())?;
    let found = match RecordView::read(body.as_slice()) {
        Ok(view) => said(alloc, &view.own(alloc)?, body.as_slice())?,
        Err(At(place)) => format!(in alloc; "at {place}")?,
    };
    compare(name, due, found.as_str())
}

fn said(alloc: Global, record: &Record, body: &[u8]) -> Result<String, AllocError> {
    let written = record.write(alloc)?;
    if written.as_slice() != body {
        return format!(in alloc; "other bytes are written");
    }
    match record {
        Record::End { number } => format!(in alloc; "end {number}"),
        Record::Migration {
            name,
            schema,
            steps,
        } => {
            let steps = steps_said(alloc, steps)?;
            let (name, schema) = (name.as_str(), schema.as_str());
            format!(in alloc; "{name} {schema}{steps}")
        }
        Record::Part { name, rows } => {
            let rows = rows_said(alloc, rows.as_slice())?;
            let name = name.as_str();
            format!(in alloc; "{name}{rows}")
        }
        Record::KnownPart { name, known, .. } => {
            let known = states_said(alloc, known.as_slice())?;
            let name = name.as_str();
            format!(in alloc; "{name}{known}")
        }
        _ => format!(in alloc; "another record"),
    }
}

// What stands before a thing of a list.
fn mark(i: usize) -> &'static str {
    if i == 0 { " " } else { ", " }
}

fn steps_said(alloc: Global, steps: &Steps) -> Result<String, AllocError> {
    let mut all = String::new(alloc);
    for i in 0..steps.len() {
        all.push_str(mark(i))?;
        all.push_str(step_said(alloc, steps.at(i))?.as_str())?;
    }
    Ok(all)
}

fn step_said(alloc: Global, step: &Step) -> Result<String, AllocError> {
    match step {
        Step::Rename { field, to } => {
            let (field, to) = (field.as_str(), to.as_str());
            format!(in alloc; "rename {field} {to}")
        }
        Step::Set { field, .. } => {
            let field = field.as_str();
            format!(in alloc; "set {field}")
        }
        Step::Unset { field } => {
            let field = field.as_str();
            format!(in alloc; "drop {field}")
        }
        Step::Scale { field, by } => {
            let field = field.as_str();
            format!(in alloc; "scale {field} {by}")
        }
    }
}

fn rows_said(alloc: Global, rows: &[PartRow]) -> Result<String, AllocError> {
    let mut all = String::new(alloc);
    for (i, row) in rows.iter().enumerate() {
        let lwt = row.lwt;
        let height = row.height;
        let state = state_said(alloc, &row.state)?;
        all.push_str(mark(i))?;
        all.push_str(format!(in alloc; "{lwt}.{height} {state}")?.as_str())?;
    }
    Ok(all)
}

fn states_said(alloc: Global, states: &[State]) -> Result<String, AllocError> {
    let mut all = String::new(alloc);
    for (i, state) in states.iter().enumerate() {
        all.push_str(mark(i))?;
        all.push_str(state_said(alloc, state)?.as_str())?;
    }
    Ok(all)
}

// The key, with a mark where it is deleted.
fn state_said(alloc: Global, state: &State) -> Result<String, AllocError> {
    let key = state.key.as_str();
    if state.deleted {
        format!(in alloc; "{key}!")
    } else {
        format!(in alloc; "{key}")
    }
}
