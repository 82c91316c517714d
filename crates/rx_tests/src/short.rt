// Short hands of the cases.
use std::alloc::{AllocError, Global};
use std::test::Fail;

// A schema with a key of at most 20 characters and a number.
const S1: &str =
    r#"{"version":0,"primaryKey":"id","type":"object","properties":{"id":{"type":"string","maxLength":20},"n":{"type":"integer"}},"required":["id"]}"#;

// Words, each with the text for which it stands: a master with its fork, schemas, the members of one
// with a key alone, hashes, and bytes of journals.
const WORDS: &str =
    r#"FORKED . C(m) C(f) {"do":"replicate","name":"r","fork":"f","master":"m","handler":"master_wins"}
NEXT {"version":1,"primaryKey":"id","type":"object","properties":{"id":{"type":"string","maxLength":20},"n":{"type":"integer"}},"required":["id"]}
AFTER {"version":2,"primaryKey":"id","type":"object","properties":{"id":{"type":"string","maxLength":20},"n":{"type":"integer"}},"required":["id"]}
COUNTED {"version":1,"primaryKey":"id","type":"object","properties":{"id":{"type":"string","maxLength":20},"count":{"type":"integer"},"on":{"type":"boolean"}},"required":["id","on"]}
SMALL {"version":1,"primaryKey":"id","type":"object","properties":{"id":{"type":"string","maxLength":20},"n":{"type":"integer","maximum":4}},"required":["id"]}
BARE {"version":1,"primaryKey":"id","type":"object","properties":{"id":{"type":"string","maxLength":20}},"required":["id"]}
KEYED {"version":1,"primaryKey":"k","type":"object","properties":{"id":{"type":"string","maxLength":20},"k":{"type":"string","maxLength":20},"n":{"type":"integer"}}}
INDEXED {"version":1,"primaryKey":"id","type":"object","properties":{"id":{"type":"string","maxLength":20},"n":{"type":"integer","minimum":0,"maximum":1000,"multipleOf":1}},"indexes":["n"]}
HASH0 "d3965597d0b8e1c41da9b2dc759684814b6376a695e3324ffc338dfea45c31a5"
HASH1 "01764e3aa27fdee0726888133ba66396704a2ebdb622584b2cf7e7ebcc9cad9a"
HASHC "f90a33a8938f858d26ec865ec8cf91467d14049e8eb9184690ab5b76a39f8fde"
DROPS ‹0..63||{"drop":"x"},›
LEAST "version":0,"primaryKey":"k","type":"object","properties":{"k":{"type":"string","maxLength":8}}
S2 {"version":0,"primaryKey":"id","type":"object","properties":{"id":{"type":"string","maxLength":20},"n":{"type":"integer"},"t":{"type":"string"}},"required":["id"]}
BASE 'RXJOURN1' 01 00000009 05 0000000000000001 01 000000a4 01 00000001 'c' 0000009a '{"indexes":[],"primaryKey":"id","properties":{"id":{"maxLength":20,"type":"string"},"n":{"type":"integer"}},"required":["id"],"type":"object","version":0}'
BOTH 'RXJOURN1' 01 00000009 05 0000000000000001 01 000000a4 01 00000001 'm' 0000009a '{"indexes":[],"primaryKey":"id","properties":{"id":{"maxLength":20,"type":"string"},"n":{"type":"integer"}},"required":["id"],"type":"object","version":0}' 01 000000a4 01 00000001 'f' 0000009a '{"indexes":[],"primaryKey":"id","properties":{"id":{"maxLength":20,"type":"string"},"n":{"type":"integer"}},"required":["id"],"type":"object","version":0}'
COPY 'RXJOURN2' 01 000000a4 01 00000001 'c' 0000009a '{"indexes":[],"primaryKey":"id","properties":{"id":{"maxLength":20,"type":"string"},"n":{"type":"integer"}},"required":["id"],"type":"object","version":0}'
S1 {"version":0,"primaryKey":"id","type":"object","properties":{"id":{"type":"string","maxLength":20},"n":{"type":"integer"}},"required":["id"]}"#;

/// The text with what its words and series stand for. `‹7..9|,|"k#"›` is a series: the last part is
/// put down for each number from 7 up to 9, with the middle one between. In it `#` stands for the
/// number, `⁺` for the next one, and `№` for the last three digits of the number.
pub fn long_text(alloc: Global, text: &str) -> Result<String, Fail> {
    let mut long = String::from_str(alloc, text)?;
    for line in WORDS.lines() {
        let (word, meant) = line.split_once(' ').unwrap_or((line, ""));
        long = long.as_str().replace(alloc, word, meant)?;
    }
    let mut all = String::new(alloc);
    add_parts(long.as_str(), &mut all)?;
    Ok(all)
}

fn add_parts(text: &str, all: &mut String) -> Result<(), Fail> {
    let mut parts = text.split('‹');
    all.push_str(parts.next().unwrap_or(""))?;
    for part in parts {
        let (series, rest) = part.split_once('›').unwrap_or(("", part));
        add_series(series, all)?;
        all.push_str(rest)?;
    }
    Ok(())
}

fn add_series(series: &str, all: &mut String) -> Result<(), Fail> {
    let (range, rest) = series.split_once('|').unwrap_or((series, ""));
    let (first, end) = range.split_once("..").unwrap_or((range, range));
    let (between, one) = rest.split_once('|').unwrap_or(("", rest));
    let first: u64 = first.parse()?;
    let is_plain = !one.contains('#') && !one.contains('⁺') && !one.contains('№');
    for number in first..end.parse()? {
        all.push_str(if number == first { "" } else { between })?;
        if is_plain {
            all.push_str(one)?;
        } else {
            add_one(one, number, all)?;
        }
    }
    Ok(())
}

fn add_one(one: &str, number: u64, all: &mut String) -> Result<(), AllocError> {
    for character in one.chars() {
        match character {
            '#' => write!(all, "{number}")?,
            '⁺' => write!(all, "{}", number.saturating_add(1))?,
            '№' => write!(
                all,
                "{}{}{}",
                number / 100 % 10,
                number / 10 % 10,
                number % 10
            )?,
            _ => all.push(character)?,
        }
    }
    Ok(())
}

/// Adds a line of a script with its end. `C(c)` makes the collection c of a schema with a key and a
/// number, and `I(c,a,1)` inserts a document with the key a and the number 1 in it.
pub fn add_script_line(line: &str, script: &mut String) -> Result<(), AllocError> {
    if let Some(name) = within(line, "C(") {
        write!(
            script,
            "{{\"do\":\"collection\",\"name\":\"{name}\",\"schema\":{S1}}}\n"
        )
    } else if let Some(list) = within(line, "I(") {
        add_insert(list, script)
    } else {
        write!(script, "{line}\n")
    }
}

// Adds the line that inserts what this list tells: a collection, a key and a number.
fn add_insert(list: &str, script: &mut String) -> Result<(), AllocError> {
    let (coll, rest) = list.split_once(',').unwrap_or((list, ""));
    let (key, n) = rest.split_once(',').unwrap_or((rest, "0"));
    write!(
        script,
        "{{\"do\":\"insert\",\"in\":\"{coll}\",\"doc\":{{\"id\":\"{key}\",\"n\":{n}}}}}\n"
    )
}

fn within<'a>(line: &'a str, open: &str) -> Option<&'a str> {
    line.strip_prefix(open)?.strip_suffix(')')
}

/// Adds a line that is due after the line of a script with this number: `made` answers a new
/// collection, and `insert 1-c` an insert by its revision.
pub fn add_due_line(line: &str, number: u64, due: &mut String) -> Result<(), AllocError> {
    if line == "made" {
        write!(
            due,
            "{{\"line\":{number},\"new\":true,\"ok\":\"collection\"}}\n"
        )
    } else if let Some(rev) = line.strip_prefix("insert ") {
        write!(
            due,
            "{{\"line\":{number},\"ok\":\"insert\",\"rev\":\"{rev}\"}}\n"
        )
    } else {
        add_numbered(line, number, due)
    }
}

fn add_numbered(line: &str, number: u64, due: &mut String) -> Result<(), AllocError> {
    match line.split_once("\"line\":L") {
        Some((front, back)) => write!(due, "{front}\"line\":{number}{back}\n"),
        None => write!(due, "{line}\n"),
    }
}

/// Adds what is due after a line that isn't refused: a collection is made, a document is inserted
/// for the first time, and any other line is answered by its word alone.
pub fn add_usual_line(line: &str, number: u64, due: &mut String) -> Result<(), AllocError> {
    if let Some(list) = within(line, "I(") {
        let (coll, _) = list.split_once(',').unwrap_or((list, ""));
        return add_first(coll, number, due);
    }
    match member(line, "\"do\":\"") {
        "collection" | "" => add_due_line("made", number, due),
        "insert" => add_first(member(line, "\"in\":\""), number, due),
        word => write!(due, "{{\"line\":{number},\"ok\":\"{word}\"}}\n"),
    }
}

fn add_first(coll: &str, number: u64, due: &mut String) -> Result<(), AllocError> {
    write!(
        due,
        "{{\"line\":{number},\"ok\":\"insert\",\"rev\":\"1-{coll}\"}}\n"
    )
}

// The text behind the first of these marks, or the empty text.
fn member<'a>(line: &'a str, mark: &str) -> &'a str {
    let (_, rest) = line.split_once(mark).unwrap_or(("", ""));
    rest.split_once('"').unwrap_or(("", "")).0
}

/// Adds the bytes that stand in hex, or as texts between apostrophes.
pub fn journal_bytes(alloc: Global, text: &str, bytes: &mut Vec<u8>) -> Result<(), Fail> {
    for word in text.split_whitespace() {
        add_word(alloc, word, bytes)?;
    }
    Ok(())
}

fn add_word(alloc: Global, word: &str, bytes: &mut Vec<u8>) -> Result<(), Fail> {
    let plain = word
        .strip_prefix('\'')
        .and_then(|rest| rest.strip_suffix('\''));
    match plain {
        Some(plain) => bytes.extend_from_slice(plain.as_bytes())?,
        None => bytes.extend_from_slice(hex::decode(alloc, word)?.as_slice())?,
    }
    Ok(())
}
