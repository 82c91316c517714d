// Counts: by hand, and of random queries over random documents, which are the same by each index.
use crate::case::compare_lines;
use crate::random::Random;
use crate::run::{Ran, run_made};
use std::alloc::{AllocError, Global};
use std::test::Fail;

// The indexes of each schema.
const INDEXES: &str =
    r#"[] ["n"] ["b"] ["s","n"] [["b","n"]] [["n","b"],"s"] [["n","id"]] [["b","s","n"],["s"]]"#;

const QUERIES: u64 = 300;

// A script of writes and queries is answered the same by the indexes of each schema, and each count
// is that of the rows that were found.
#[test]
fn random_queries_are_answered_the_same_by_each_index(rt: HostRuntime) -> Result<(), Fail> {
    let lines = random_lines(rt.alloc())?;
    let mut first = String::new(rt.alloc());
    for indexes in INDEXES.split_whitespace() {
        compare_answers(rt.alloc(), indexes, lines.as_str(), &mut first)?;
    }
    Ok(())
}

// The first answers are kept for the others.
fn compare_answers(
    alloc: Global,
    indexes: &str,
    lines: &str,
    first: &mut String,
) -> Result<(), Fail> {
    let ran = answered(alloc, indexes, lines)?;
    compare_output(indexes, ran.text()?, first)
}

fn compare_output(indexes: &str, output: &str, first: &mut String) -> Result<(), Fail> {
    if first.is_empty() {
        check_counts(output)?;
        first.push_str(output)?;
    }
    compare_lines(indexes, first.as_str(), output)
}

fn answered(alloc: Global, indexes: &str, lines: &str) -> Result<Ran, AllocError> {
    let mut script = COLLECTION.replace(alloc, "INDEXES", indexes)?;
    script.push_str(lines)?;
    run_made(alloc, script)
}

// Each count stands behind the rows that it counts.
fn check_counts(output: &str) -> Result<(), Fail> {
    let mut rows = 0;
    let mut counts = 0u64;
    for line in output.lines() {
        if line.contains("\"ok\":\"find\"") {
            rows = line.matches("\"id\":").count();
        }
        if let Some(rest) = line.strip_prefix("{\"count\":") {
            check_count(rest, rows)?;
            counts = counts.saturating_add(1);
        }
    }
    if counts == QUERIES {
        return Ok(());
    }
    Err(Fail::new(format_args!("{counts} counts")))
}

// A line goes on so behind the name of its count.
fn check_count(rest: &str, rows: usize) -> Result<(), Fail> {
    let (count, _) = rest.split_once(',').unwrap_or((rest, ""));
    let count: usize = count.parse()?;
    if count == rows {
        return Ok(());
    }
    Err(Fail::new(format_args!("{rest}, of {rows} rows")))
}

// After each few writes a query, which is run and counted.
fn random_lines(alloc: Global) -> Result<String, AllocError> {
    let mut random = Random::new(36);
    let mut lines = String::from_str(alloc, "\n")?;
    for _ in 0..QUERIES {
        add_writes(&mut random, &mut lines)?;
        add_query(alloc, &mut random, &mut lines)?;
    }
    Ok(lines)
}

fn add_writes(random: &mut Random, lines: &mut String) -> Result<(), AllocError> {
    for _ in 0..random.below(4) {
        add_write(random, lines)?;
    }
    Ok(())
}

fn add_query(alloc: Global, random: &mut Random, lines: &mut String) -> Result<(), AllocError> {
    let query = query(alloc, random)?;
    for word in ["find", "count"] {
        write!(
            lines,
            "{{\"do\":\"{word}\",\"in\":\"c\",\"query\":{query}}}\n"
        )?;
    }
    Ok(())
}

// Fields of a document besides its key. Each of them may be missing.
const FLAGS: [&str; 4] = ["", ",\"b\":true", ",\"b\":false", ",\"b\":true"];

const NUMBERS: [&str; 6] = [
    "",
    ",\"n\":-1",
    ",\"n\":0",
    ",\"n\":1",
    ",\"n\":2",
    ",\"n\":7",
];

const TEXTS: [&str; 5] = [
    "",
    ",\"s\":\"\"",
    ",\"s\":\"x\"",
    ",\"s\":\"xy\"",
    ",\"s\":\"y\"",
];

// A line that puts in a document or takes it out. Some are refused.
fn add_write(random: &mut Random, lines: &mut String) -> Result<(), AllocError> {
    let key = random.below(40);
    if random.below(4) == 0 {
        return write!(
            lines,
            "{{\"do\":\"remove\",\"in\":\"c\",\"key\":\"k{key}\"}}\n"
        );
    }
    let b = random.one_of(&FLAGS);
    let n = random.one_of(&NUMBERS);
    let s = random.one_of(&TEXTS);
    write!(
        lines,
        "{{\"do\":\"upsert\",\"in\":\"c\",\"doc\":{{\"id\":\"k{key}\"{b}{n}{s}}}}}\n"
    )
}

// What a selector asks of a field, with V and W for operands.
const FORMS: [&str; 16] = [
    "V",
    "V",
    "V",
    r#"{"$eq":V}"#,
    r#"{"$gt":V}"#,
    r#"{"$gte":V}"#,
    r#"{"$lt":V}"#,
    r#"{"$lte":V}"#,
    r#"{"$gt":V,"$lt":W}"#,
    r#"{"$gte":V,"$lte":W}"#,
    r#"{"$gt":V,"$gte":W}"#,
    r#"{"$eq":V,"$lte":W}"#,
    r#"{"$ne":V}"#,
    r#"{"$in":[V,W]}"#,
    r#"{"$exists":false}"#,
    r#"{"$not":{"$gt":V}}"#,
];

const SORTS: [&str; 8] = [
    "",
    "",
    r#","sort":[{"n":"asc"}]"#,
    r#","sort":[{"n":"desc"}]"#,
    r#","sort":[{"s":"asc"},{"n":"asc"}]"#,
    r#","sort":[{"b":"asc"},{"n":"desc"}]"#,
    r#","sort":[{"n":"asc"},{"id":"desc"}]"#,
    r#","sort":[{"id":"desc"}]"#,
];

const WINDOWS: [&str; 8] = [
    "",
    "",
    "",
    r#","limit":1"#,
    r#","limit":5"#,
    r#","skip":3"#,
    r#","skip":2,"limit":4"#,
    r#","skip":30,"limit":30"#,
];

fn query(alloc: Global, random: &mut Random) -> Result<String, AllocError> {
    let mut members = String::new(alloc);
    add_members(alloc, random, &mut members)?;
    let sort = random.one_of(&SORTS);
    let window = random.one_of(&WINDOWS);
    format!(in alloc; "{{\"selector\":{{{members}}}{sort}{window}}}")
}

fn add_members(alloc: Global, random: &mut Random, members: &mut String) -> Result<(), AllocError> {
    add_member(alloc, random, "b", &["true", "false"], members)?;
    add_member(alloc, random, "n", &["-1", "0", "1", "5"], members)?;
    let texts = ["\"\"", "\"x\"", "\"xy\"", "\"z\""];
    add_member(alloc, random, "s", &texts, members)?;
    if random.below(3) != 0 {
        return Ok(());
    }
    let keys = ["\"k1\"", "\"k15\"", "\"k3\""];
    add_member(alloc, random, "id", &keys, members)
}

// Asks something of the field, or nothing.
fn add_member(
    alloc: Global,
    random: &mut Random,
    field: &str,
    operands: &[&str],
    members: &mut String,
) -> Result<(), AllocError> {
    if random.below(2) == 0 {
        return Ok(());
    }
    let asked = asked(alloc, random, operands)?;
    let comma = if members.is_empty() { "" } else { "," };
    write!(members, "{comma}\"{field}\":{asked}")
}

fn asked(alloc: Global, random: &mut Random, operands: &[&str]) -> Result<String, AllocError> {
    let form = random.one_of(&FORMS);
    let form = form.replace(alloc, "V", random.one_of(operands))?;
    form.as_str().replace(alloc, "W", random.one_of(operands))
}

// A collection with indexes to be named.
const COLLECTION: &str =
    r#"{"do":"collection","name":"c","schema":{"version":0,"primaryKey":"id","type":"object","properties":{"id":{"type":"string","maxLength":20},"b":{"type":"boolean"},"n":{"type":"integer","minimum":-1000,"maximum":1000,"multipleOf":1},"s":{"type":"string","maxLength":5}},"indexes":INDEXES}}"#;

// Each field is missing somewhere, the text is empty once, and one document is taken out.
pub const CASES: &str = r#"
== counts by hand are the same by each index
. {"do":"collection","name":"c","schema":{"version":0,"primaryKey":"id","type":"object","properties":{"id":{"type":"string","maxLength":20},"b":{"type":"boolean"},"n":{"type":"integer","minimum":-1000,"maximum":1000,"multipleOf":1},"s":{"type":"string","maxLength":5}},"indexes":¤1}}
> {"do":"bulk","in":"c","docs":[{"b":true,"id":"a","n":1,"s":"x"},{"b":true,"id":"b","n":1},{"b":false,"id":"d","n":2,"s":""},{"b":true,"id":"e","s":"x"},{"id":"f","n":1,"s":"y"},{"b":false,"id":"g","n":2,"s":"x"},{"b":true,"id":"h","n":-3,"s":"y"}]}
< {"line":L,"ok":"bulk","revs":["1-c","1-c","1-c","1-c","1-c","1-c","1-c"]}
> {"do":"remove","in":"c","key":"g"}
< {"line":L,"ok":"remove","rev":"2-c"}
> {"do":"count","in":"c","query":{}}
< {"count":6,"line":L,"ok":"count"}
> {"do":"count","in":"c","query":{"selector":{"n":1}}}
< {"count":3,"line":L,"ok":"count"}
> {"do":"count","in":"c","query":{"selector":{"n":{"$lt":2}}}}
< {"count":4,"line":L,"ok":"count"}
> {"do":"count","in":"c","query":{"selector":{"n":{"$lte":-3}}}}
< {"count":1,"line":L,"ok":"count"}
> {"do":"count","in":"c","query":{"selector":{"n":{"$gt":1}}}}
< {"count":1,"line":L,"ok":"count"}
> {"do":"count","in":"c","query":{"selector":{"n":{"$gte":-3}}}}
< {"count":5,"line":L,"ok":"count"}
> {"do":"count","in":"c","query":{"selector":{"b":{"$gte":false}}}}
< {"count":5,"line":L,"ok":"count"}
> {"do":"count","in":"c","query":{"selector":{"b":{"$lt":true}}}}
< {"count":1,"line":L,"ok":"count"}
> {"do":"count","in":"c","query":{"selector":{"s":{"$gte":""}}}}
< {"count":5,"line":L,"ok":"count"}
> {"do":"count","in":"c","query":{"selector":{"s":{"$lt":"x"}}}}
< {"count":1,"line":L,"ok":"count"}
> {"do":"count","in":"c","query":{"selector":{"s":{"$lte":"x"}}}}
< {"count":3,"line":L,"ok":"count"}
> {"do":"count","in":"c","query":{"selector":{"b":true,"n":{"$gte":1}}}}
< {"count":2,"line":L,"ok":"count"}
> {"do":"count","in":"c","query":{"selector":{"b":true,"n":{"$lt":2}}}}
< {"count":3,"line":L,"ok":"count"}
> {"do":"count","in":"c","query":{"selector":{"b":true,"n":{"$gte":-3,"$lt":1}}}}
< {"count":1,"line":L,"ok":"count"}
> {"do":"count","in":"c","query":{"selector":{"b":true,"n":{"$gt":3,"$lt":1}}}}
< {"count":0,"line":L,"ok":"count"}
> {"do":"count","in":"c","query":{"selector":{"b":true,"s":"x"}}}
< {"count":2,"line":L,"ok":"count"}
> {"do":"count","in":"c","query":{"selector":{"b":true,"n":{"$gte":1},"s":"x"}}}
< {"count":1,"line":L,"ok":"count"}
> {"do":"count","in":"c","query":{"selector":{"n":{"$gt":0,"$gte":1,"$lt":2,"$lte":2}}}}
< {"count":3,"line":L,"ok":"count"}
> {"do":"count","in":"c","query":{"selector":{"n":{"$eq":1,"$gt":1}}}}
< {"count":0,"line":L,"ok":"count"}
> {"do":"count","in":"c","query":{"selector":{"n":{"$gte":1,"$ne":2}}}}
< {"count":3,"line":L,"ok":"count"}
> {"do":"count","in":"c","query":{"selector":{"id":{"$gt":"b"}}}}
< {"count":4,"line":L,"ok":"count"}
> {"do":"count","in":"c","query":{"selector":{"id":{"$lte":"b"}}}}
< {"count":2,"line":L,"ok":"count"}
> {"do":"count","in":"c","query":{"selector":{"n":1},"skip":1}}
< {"count":2,"line":L,"ok":"count"}
> {"do":"count","in":"c","query":{"selector":{"n":1},"limit":2}}
< {"count":2,"line":L,"ok":"count"}
> {"do":"count","in":"c","query":{"selector":{"n":1},"limit":9,"skip":2}}
< {"count":1,"line":L,"ok":"count"}
> {"do":"count","in":"c","query":{"skip":7,"sort":[{"n":"desc"}]}}
< {"count":0,"line":L,"ok":"count"}
| []
| ["n"]
| ["b"]
| ["s","n"]
| [["b","n"]]
| [["n","b"],"s"]
| [["n","id"]]
| [["b","s","n"],["s"]]

// Of 1,000 documents whose number is their place, and whose flag is set where it is odd.
== a count is that of the keys between its bounds
. {"do":"collection","name":"c","schema":{"version":0,"primaryKey":"id","type":"object","properties":{"id":{"type":"string","maxLength":20},"b":{"type":"boolean"},"n":{"type":"integer","minimum":-1000,"maximum":1000,"multipleOf":1},"s":{"type":"string","maxLength":5}},"indexes":["s",["b","n"]]}}
> {"do":"bulk","in":"c","docs":[{"id":"t0","b":false,"n":0},{"id":"t1","b":true,"n":1},{"id":"t2","b":false,"n":2},{"id":"t3","b":true,"n":3},{"id":"t4","b":false,"n":4},{"id":"t5","b":true,"n":5},{"id":"t6","b":false,"n":6},{"id":"t7","b":true,"n":7},{"id":"t8","b":false,"n":8},{"id":"t9","b":true,"n":9},‹1..100|,|{"id":"t#0","b":false,"n":#0},{"id":"t#1","b":true,"n":#1},{"id":"t#2","b":false,"n":#2},{"id":"t#3","b":true,"n":#3},{"id":"t#4","b":false,"n":#4},{"id":"t#5","b":true,"n":#5},{"id":"t#6","b":false,"n":#6},{"id":"t#7","b":true,"n":#7},{"id":"t#8","b":false,"n":#8},{"id":"t#9","b":true,"n":#9}›]}
< {"line":L,"ok":"bulk","revs":[‹0..1000|,|"1-c"›]}
> {"do":"count","in":"c","query":{"selector":{"b":true,"n":{"$gte":990}}}}
< {"count":5,"line":L,"ok":"count"}
> {"do":"count","in":"c","query":{"selector":{"id":"t5"}}}
< {"count":1,"line":L,"ok":"count"}
"#;
