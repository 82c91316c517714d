use rx_index::Bound;
use rx_value::{RxText, Value};
use std::alloc::Global;
use std::test::Fail;

// A position a line, each before the next one: `~` is a missing value, `no` and `yes` are flags,
// `#` stands before a number and `'` before a text, and `>` after the keys that begin so.
const RISING: &str = r"
.
~
~ ~
~ >
no
no #-9007199254740991
no #-256
no #-255
no #-1
no #-1 'a
no #-1 >
no #0
no #255
no #256
no #65535
no #65536
no #4294967295
no #4294967296
no #9007199254740991
no '
no ' 'z
no ' >
no 'a
no 'a ~
no 'a 'b
no 'a >
no 'aa
no 'ab
no 'b
no 'z
no 'é
no 'éa
no '日
no '😀
no >
yes
yes #5
yes >
#-1
#1
'a
>
";

#[test]
fn bytes_stand_as_positions(rt: HostRuntime) -> Result<(), Fail> {
    let alloc = rt.alloc();
    assert_eq!(rt; compare_all(alloc)?, 42);
    Ok(())
}

// -2 is 2 below 2^63, in eight bytes, and 258 has two.
#[test]
fn a_position_in_bytes(rt: HostRuntime) -> Result<(), Fail> {
    let alloc = rt.alloc();
    let bound = position(alloc, "no #-2 #258 ~ 'é >")?;
    let due = [
        2, 4, 127, 255, 255, 255, 255, 255, 255, 254, 6, 1, 2, 1, 9, 206, 180, 0, 10,
    ];
    assert_eq!(rt; bound.name().as_bytes(), due.as_slice());
    Ok(())
}

// Compares each position of the table with the one before it, and tells how many there are.
fn compare_all(alloc: Global) -> Result<u64, Fail> {
    let mut compared = 0u64;
    let mut before: Option<Bound> = None;
    for line in RISING.lines() {
        if !line.is_empty() {
            before = Some(rise(alloc, before, line)?);
            compared = compared.saturating_add(1);
        }
    }
    Ok(compared)
}

fn rise(alloc: Global, before: Option<Bound>, line: &str) -> Result<Bound, Fail> {
    let bound = position(alloc, line)?;
    if let Some(before) = before {
        if before.name().as_bytes() >= bound.name().as_bytes() {
            return Err(Fail::new(format_args!("{line} is not above the one before it")));
        }
    }
    Ok(bound)
}

pub(crate) fn position(alloc: Global, line: &str) -> Result<Bound, Fail> {
    let mut values = Vec::new(alloc);
    let mut after = false;
    for word in line.split_whitespace() {
        match word {
            "." => {}
            ">" => after = true,
            _ => values.push(value(alloc, word)?)?,
        }
    }
    Ok(Bound::new(alloc, values, after)?)
}

fn value(alloc: Global, word: &str) -> Result<Option<Value>, Fail> {
    if let Some(text) = word.strip_prefix("'") {
        return Ok(Some(Value::Text(RxText::new(alloc, text)?)));
    }
    if let Some(number) = word.strip_prefix("#") {
        return Ok(Some(Value::Int(number.parse::<i64>()?)));
    }
    if word == "~" {
        return Ok(None);
    }
    Ok(Some(Value::Flag(word == "yes")))
}
