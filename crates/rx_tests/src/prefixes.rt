// The journal of a whole run, cut to each length. It opens where at most 9 bytes are left, or where it
// ends with a closed gate behind a whole record; else it is no journal, and is left as it is.
use crate::case::play;
use crate::stops::whole;
use std::alloc::{AllocError, Global};
use std::test::Fail;

// Where its gates stand: before each of eight records, and behind the last. The header has 8 bytes,
// and a record a gate, a length of 4 and a body: an epoch's has 9, a collection's 164, the
// replication's 33, the insert's 62, the exchange's 117 and the migration's 176.
const GATES: [usize; 9] = [8, 22, 191, 360, 398, 465, 587, 601, 782];

// The epoch behind each of the gates.
const EPOCHS: [u64; 9] = [0, 1, 1, 1, 1, 1, 1, 2, 2];

// The last byte of what is left: what it was, or each kind of a closed gate.
const LASTS: [Option<u8>; 4] = [None, Some(0), Some(2), Some(255)];

const NO_REPORT: &str = r#"$ check journal
< {"stop":"not_journal"}
"#;

const NO_JOURNAL: &str = r#"$ check journal
< {"stop":"not_journal"}
$ run journal
< {"stop":"not_journal"}
"#;

#[test]
fn a_journal_cut_to_any_length_opens_or_is_left_alone(rt: HostRuntime) -> Result<(), Fail> {
    let whole = whole(rt.alloc(), LINES)?;
    try_lengths(rt.alloc(), whole.disk.bytes())
}

fn try_lengths(alloc: Global, bytes: &[u8]) -> Result<(), Fail> {
    let mut legal = 0u64;
    for length in 0..=bytes.len() {
        let (left, _) = bytes.split_at_checked(length).unwrap_or((bytes, &[]));
        for last in LASTS {
            legal = legal.saturating_add(try_cut(alloc, left, last)?);
        }
    }
    // Up to 9 bytes with each last one; seven gates that three bytes close, and the closed one.
    if bytes.len() == 783 && legal == 40 + 21 + 4 {
        return Ok(());
    }
    Err(Fail::new(format_args!("{legal} legal, of {} bytes", bytes.len())))
}

// Whether what is left is a journal with this last byte, as a number.
fn try_cut(alloc: Global, left: &[u8], last: Option<u8>) -> Result<u64, Fail> {
    let mut left = left.to_vec(alloc)?;
    if let (Some(byte), Some(last)) = (left.last_mut(), last) {
        *byte = last;
    }
    let refused = if last.is_none() {
        NO_JOURNAL
    } else {
        NO_REPORT
    };
    try_left(alloc, left.as_slice(), refused)
}

fn try_left(alloc: Global, left: &[u8], refused: &str) -> Result<u64, Fail> {
    let Some(count) = records(left) else {
        play(alloc, "no journal", refused, left)?;
        return Ok(0);
    };
    try_opened(alloc, left, count)?;
    Ok(1)
}

// How many records a journal has, or none where it is no journal.
fn records(left: &[u8]) -> Option<usize> {
    if left.len() <= 9 {
        return Some(0);
    }
    if left.last() == Some(&1) {
        return None;
    }
    GATES
        .iter()
        .position(|gate| gate.saturating_add(1) == left.len())
}

// It is reported, and an empty script adds the record of its epoch.
fn try_opened(alloc: Global, left: &[u8], count: usize) -> Result<(), Fail> {
    let epoch = EPOCHS.get(count).copied().unwrap_or(0);
    let mut facts = String::new(alloc);
    add_report(left.len().max(9), epoch, count, &mut facts)?;
    facts.push_str("$ run journal\n")?;
    let end = left.len().max(9).saturating_add(14);
    add_report(
        end,
        epoch.saturating_add(1),
        count.saturating_add(1),
        &mut facts,
    )?;
    play(alloc, "a journal", facts.as_str(), left)
}

// Adds a report that ends with so many bytes, this epoch and so many records.
fn add_report(end: usize, epoch: u64, count: usize, facts: &mut String) -> Result<(), AllocError> {
    write!(
        facts,
        "$ check journal\n# 1 {{\"end\":{end},\"epoch\":{epoch},\"records\":{count}}}\n"
    )
}

const LINES: &str = r#". C(m)
. C(f)
. {"do":"replicate","name":"r","fork":"f","master":"m","handler":"master_wins"}
. I(m,a,1)
> {"do":"turn","name":"r"}
< {"exchange":1,"place":{"id":"a","lwt":1},"rows":["a"],"sent":"pull"}
< {"end":"quiet","exchanges":1,"line":L,"ok":"turn"}
> {"do":"restart"}
< {"epoch":2,"line":L,"ok":"restart"}
> {"do":"migrate","in":"m","schema":{"version":1,"primaryKey":"id","type":"object","properties":{"id":{"type":"string","maxLength":20},"n":{"type":"integer"}},"required":["id"]},"steps":[{"scale":"n","by":10}]}
< {"collections":["m","f"],"line":L,"ok":"migrate"}
"#;
