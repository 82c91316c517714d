// Random turns of a fork and its master over a link that loses, repeats and delays: after each turn
// that ends quiet, both have the same documents, and no write of the fork is ever lost.
use crate::audit::follow;
use crate::random::Random;
use crate::run::run_plain;
use crate::short::long_text;
use std::alloc::{AllocError, Global};
use std::test::Fail;

// Of each script.
const LINES: u64 = 4_000;

// A seed and a handler.
const HANDLERS: [(u64, &str); 4] = [
    (7_919, r#""master_wins""#),
    (7_927, r#""fork_wins""#),
    (7_933, r#""greater","field":"n""#),
    (7_937, r#""join""#),
];

#[test]
fn turns_lose_no_write(rt: HostRuntime) -> Result<(), Fail> {
    for (seed, handler) in HANDLERS {
        try_handler(rt.alloc(), seed, handler)?;
    }
    Ok(())
}

fn try_handler(alloc: Global, seed: u64, handler: &str) -> Result<(), Fail> {
    let script = random_script(alloc, &mut Random::new(seed), handler)?;
    try_script(alloc, handler, script.as_str())
}

fn try_script(alloc: Global, handler: &str, script: &str) -> Result<(), Fail> {
    let ran = run_plain(alloc, script, &[])?;
    check(alloc, handler, script, ran.text()?)
}

fn check(alloc: Global, handler: &str, script: &str, output: &str) -> Result<(), Fail> {
    check_ends(handler, output)?;
    check_digests(handler, output)?;
    check_writes(alloc, handler, script, output)
}

// Turns end in each way that a link and a budget bring about.
fn check_ends(handler: &str, output: &str) -> Result<(), Fail> {
    for end in [
        "{\"end\":\"quiet\"",
        "{\"end\":\"lost\"",
        "{\"end\":\"more\"",
    ] {
        let count = output.matches(end).count();
        if count < 20 {
            return Err(Fail::new(format_args!("{handler}: {count} turns with {end}")));
        }
    }
    Ok(())
}

// The digests behind a turn that ended quiet are the same.
fn check_digests(handler: &str, output: &str) -> Result<(), Fail> {
    let mut quiet = false;
    let mut first = None;
    for line in output.lines() {
        let (digest, _) = line.split_once(",\"line\":").unwrap_or((line, ""));
        if line.starts_with("{\"end\":") {
            quiet = line.starts_with("{\"end\":\"quiet\"");
            first = None;
        } else if line.starts_with("{\"count\":") && quiet {
            let other = first.unwrap_or(digest);
            if other != digest {
                return Err(Fail::new(format_args!("{handler}: {line} after {other}")));
            }
            first = Some(digest);
        }
    }
    Ok(())
}

// The audit had much to compare, and found nothing lost.
fn check_writes(alloc: Global, handler: &str, script: &str, output: &str) -> Result<(), Fail> {
    let audit = follow(alloc, script, output)?;
    for (what, count) in [
        ("conflicts", audit.conflicts),
        ("rows pushed", audit.pushed),
        ("rows pulled", audit.pulled),
        ("documents compared", audit.compared),
    ] {
        if count < 200 {
            return Err(Fail::new(format_args!("{handler}: {count} {what}")));
        }
    }
    Ok(())
}

// Lines at random, after those that make a fork m's, with turns and digests in between and at the end.
fn random_script(alloc: Global, random: &mut Random, handler: &str) -> Result<String, Fail> {
    let begin = BEGIN.replace(alloc, "HANDLER", handler)?;
    let mut script = long_text(alloc, begin.as_str())?;
    add_lines(random, &mut script)?;
    Ok(script)
}

fn add_lines(random: &mut Random, script: &mut String) -> Result<(), AllocError> {
    for _ in 0..LINES {
        add_line(random, script)?;
    }
    script.push_str("{\"do\":\"turn\",\"name\":\"r\",\"budget\":100000}\n")?;
    script.push_str(SIDES)
}

const BEGIN: &str = r#"{"do":"collection","name":"m","schema":S2}
{"do":"collection","name":"f","schema":S2}
{"do":"replicate","name":"r","fork":"f","master":"m","handler":HANDLER}
"#;

const SIDES: &str = r#"{"do":"digest","in":"m"}
{"do":"digest","in":"f"}
{"do":"changes","in":"f"}
"#;

// Of few fields, so that documents come back to what they were.
const NUMBERS: [&str; 4] = ["", ",\"n\":0", ",\"n\":1", ",\"n\":2"];

const TEXTS: [&str; 3] = ["", ",\"t\":\"x\"", ",\"t\":\"y\""];

fn add_line(random: &mut Random, script: &mut String) -> Result<(), AllocError> {
    let side = random.one_of(&["f", "f", "m"]);
    let key = random.below(20);
    match random.below(64) {
        0..=31 => add_document(random, side, key, script),
        32..=39 => write!(
            script,
            "{{\"do\":\"remove\",\"in\":\"{side}\",\"key\":\"k{key}\"}}\n"
        ),
        40..=43 => write!(
            script,
            "{{\"do\":\"patch\",\"in\":\"{side}\",\"key\":\"k{key}\",\"set\":{{\"n\":{}}}}}\n",
            random.below(3)
        ),
        44..=47 => write!(
            script,
            "{{\"do\":\"tick\",\"at\":{}}}\n",
            random.below(1_000_000)
        ),
        48 => script.push_str("{\"do\":\"restart\"}\n"),
        _ => add_turn(random, script),
    }
}

fn add_document(
    random: &mut Random,
    side: &str,
    key: u64,
    script: &mut String,
) -> Result<(), AllocError> {
    let what = random.one_of(&["insert", "upsert", "upsert", "upsert"]);
    let n = random.one_of(&NUMBERS);
    let t = random.one_of(&TEXTS);
    write!(
        script,
        "{{\"do\":\"{what}\",\"in\":\"{side}\",\"doc\":{{\"id\":\"k{key}\"{n}{t}}}}}\n"
    )
}

const HAPPENINGS: [&str; 9] = [
    r#""ok""#,
    r#""ok""#,
    r#""lose_request""#,
    r#""lose_reply""#,
    r#""twice""#,
    r#""stale""#,
    r#"{"late":1}"#,
    r#"{"late":3}"#,
    r#"{"late":16}"#,
];

fn add_turn(random: &mut Random, script: &mut String) -> Result<(), AllocError> {
    let batch = random.below(5).saturating_add(1);
    let budget = random.one_of(&["3", "10", "1000"]);
    let first = random.one_of(&HAPPENINGS);
    let second = random.one_of(&HAPPENINGS);
    write!(
        script,
        "{{\"do\":\"turn\",\"name\":\"r\",\"batch\":{batch},\"budget\":{budget},\"link\":[{first},{second}]}}\n"
    )?;
    script.push_str(SIDES)
}
