// Records by words.
//
//     collection c                       of the schema that `served` has
//     rows c 5 1:a 2:b!                  documents written at 5, by their heights; the second is
//                                        deleted
//     replication r f m                  the fork f of the master m
//     remote r f 7001                    of one at a port
//     known r a                          what it knows, with no checkpoint
//     epoch 1
//     migration c NAME rename:n:m set:m:1 drop:m scale:n:2
//                                        to the schema of that name, by these steps
//     part c 5.1:a ..                    documents of a copy, by write time and height
//     learnt r a up:5:a down:5:a         what a replication of a copy knows
//     end 7                              of a copy
//
// A document has its key, and the number 7 as its field n by a=7, or as its field count by a#7.
use crate::served::{collection, schema_like};
use rx_document::Place;
use rx_migrate::Steps;
use rx_record::{MasterName, PartRow, Record, RowOut};
use rx_value::{Fields, RxText, State, Value, is_number};
use serde_json::Value as Json;
use std::alloc::{AllocError, Global};
use std::test::Fail;

/// The record that these words say.
pub(crate) fn record_of(alloc: Global, words: &str) -> Result<Record, Fail> {
    let (kind, rest) = words.split_once(' ').unwrap_or((words, ""));
    match kind {
        "epoch" => Ok(Record::Epoch {
            number: rest.parse()?,
        }),
        "collection" => collection(alloc, rest),
        "rows" => rows(alloc, rest),
        "replication" => replication(alloc, rest, false),
        "remote" => replication(alloc, rest, true),
        "known" => known(alloc, rest),
        "migration" => migration(alloc, rest),
        "part" => part(alloc, rest),
        "learnt" => learnt(alloc, rest),
        "end" => Ok(Record::End {
            number: rest.parse()?,
        }),
        _ => Err(Fail::new(words)),
    }
}

fn name_of(alloc: Global, word: Option<&str>) -> Result<RxText, AllocError> {
    RxText::new(alloc, word.unwrap_or(""))
}

// Documents of a collection, with their write time.
fn rows(alloc: Global, words: &str) -> Result<Record, Fail> {
    let mut words = words.split(' ');
    let name = name_of(alloc, words.next())?;
    let lwt = words.next().unwrap_or("").parse()?;
    let mut rows = Vec::new(alloc);
    for word in words {
        rows.push(row(alloc, word)?)?;
    }
    Ok(Record::Rows { name, lwt, rows })
}

fn row(alloc: Global, word: &str) -> Result<RowOut, Fail> {
    let (height, document) = word.split_once(':').unwrap_or(("", ""));
    let height = height.parse()?;
    let state = state_of(alloc, document)?;
    Ok(RowOut { height, state })
}

// A replication of a fork with a master, here or at a port.
fn replication(alloc: Global, words: &str, is_remote: bool) -> Result<Record, Fail> {
    let mut words = words.split(' ');
    let name = name_of(alloc, words.next())?;
    let fork = name_of(alloc, words.next())?;
    let master = master(alloc, words.next().unwrap_or(""), is_remote)?;
    let handler = RxText::new(alloc, "join")?;
    Ok(Record::Replication {
        name,
        fork,
        master,
        handler,
        field: None,
    })
}

fn master(alloc: Global, word: &str, is_remote: bool) -> Result<MasterName, Fail> {
    if is_remote {
        return Ok(MasterName::Port(word.parse()?));
    }
    Ok(MasterName::Local(RxText::new(alloc, word)?))
}

// What the fork of a replication knows.
fn known(alloc: Global, words: &str) -> Result<Record, Fail> {
    let mut words = words.split(' ');
    let name = name_of(alloc, words.next())?;
    let mut known = Vec::new(alloc);
    for word in words {
        known.push(state_of(alloc, word)?)?;
    }
    Ok(Record::Exchange {
        name,
        lwt: 0,
        rows: Vec::new(alloc),
        known,
        up: None,
        down: None,
    })
}

fn migration(alloc: Global, words: &str) -> Result<Record, Fail> {
    let mut words = words.split(' ');
    let name = name_of(alloc, words.next())?;
    let schema = schema_like(alloc, words.next().unwrap_or(""))?;
    let mut text = String::from_str(alloc, "[")?;
    for word in words {
        if text.len() > 1 {
            text.push(',')?;
        }
        text.push_str(step_of(alloc, word)?.as_str())?;
    }
    text.push(']')?;
    Ok(Record::Migration {
        name,
        schema,
        steps: Steps::read(alloc, &Json::from_str(alloc, text.as_str())?)?,
    })
}

// A step as a line has it.
fn step_of(alloc: Global, word: &str) -> Result<String, Fail> {
    let mut parts = word.split(':');
    let kind = parts.next().unwrap_or("");
    let field = parts.next().unwrap_or("");
    let rest = parts.next().unwrap_or("");
    let more = match kind {
        "rename" => format!(in alloc; ",\"to\":\"{rest}\"")?,
        "set" => format!(in alloc; ",\"value\":{rest}")?,
        "scale" => format!(in alloc; ",\"by\":{rest}")?,
        _ => String::new(alloc),
    };
    Ok(format!(in alloc; "{{\"{kind}\":\"{field}\"{more}}}")?)
}

// Documents of a copy, each with its write time and its height.
fn part(alloc: Global, words: &str) -> Result<Record, Fail> {
    let mut words = words.split(' ');
    let name = name_of(alloc, words.next())?;
    let mut rows = Vec::new(alloc);
    for word in words {
        rows.push(part_row(alloc, word)?)?;
    }
    Ok(Record::Part { name, rows })
}

fn part_row(alloc: Global, word: &str) -> Result<PartRow, Fail> {
    let (lwt, rest) = word.split_once('.').unwrap_or(("", ""));
    let RowOut { height, state } = row(alloc, rest)?;
    Ok(PartRow {
        lwt: lwt.parse()?,
        height,
        state,
    })
}

// What a replication of a copy knows, and its checkpoints.
fn learnt(alloc: Global, words: &str) -> Result<Record, Fail> {
    let mut words = words.split(' ');
    let name = name_of(alloc, words.next())?;
    let mut known = Vec::new(alloc);
    let mut up = None;
    let mut down = None;
    for word in words {
        if let Some(place) = word.strip_prefix("up:") {
            up = Some(place_of(alloc, place)?);
        } else if let Some(place) = word.strip_prefix("down:") {
            down = Some(place_of(alloc, place)?);
        } else {
            known.push(state_of(alloc, word)?)?;
        }
    }
    Ok(Record::KnownPart {
        name,
        known,
        up,
        down,
    })
}

fn place_of(alloc: Global, word: &str) -> Result<Place, Fail> {
    let (lwt, key) = word.split_once(':').unwrap_or(("", ""));
    let lwt = lwt.parse()?;
    let id = RxText::new(alloc, key)?;
    Ok(Place { lwt, id })
}

fn state_of(alloc: Global, document: &str) -> Result<State, Fail> {
    let (document, deleted) = match document.strip_suffix('!') {
        Some(document) => (document, true),
        None => (document, false),
    };
    let mut fields = Fields::new(alloc);
    let key = match document.split_once('=') {
        Some((key, number)) => numbered(alloc, &mut fields, key, "n", number)?,
        None => match document.split_once('#') {
            Some((key, number)) => numbered(alloc, &mut fields, key, "count", number)?,
            None => document,
        },
    };
    fields.set(
        RxText::new(alloc, "id")?,
        Value::Text(RxText::new(alloc, key)?),
    )?;
    Ok(State {
        key: RxText::new(alloc, key)?,
        fields,
        deleted,
    })
}

// The key of a document, whose field gets that number.
fn numbered<'a>(
    alloc: Global,
    fields: &mut Fields,
    key: &'a str,
    field: &str,
    number: &str,
) -> Result<&'a str, Fail> {
    let number: i64 = number.parse()?;
    if !is_number(number as i128) {
        return Err(Fail::new("a greater number than a document may have"));
    }
    fields.set(RxText::new(alloc, field)?, Value::Int(number))?;
    Ok(key)
}
