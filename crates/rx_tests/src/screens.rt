// A random script over eight observed queries of all kinds. After each write each query is asked
// again by a `find` line, whose rows have to be those that its last emission showed.
use crate::random::Random;
use crate::run::run_made;
use crate::short::long_text;
use std::alloc::{AllocError, Global};
use std::test::Fail;

// With the lines around them they make a script of two thousand lines.
const WRITES: u64 = 221;

const QUERIES: [&str; 8] = [
    r#"{}"#,
    r#"{"selector":{"n":{"$gte":3}}}"#,
    r#"{"sort":[{"n":"asc"}]}"#,
    r#"{"sort":[{"n":"asc"}],"limit":1}"#,
    r#"{"sort":[{"n":"desc"}],"limit":4}"#,
    r#"{"sort":[{"n":"asc"}],"skip":2}"#,
    r#"{"sort":[{"t":"desc"},{"n":"asc"}],"skip":1,"limit":3}"#,
    r#"{"selector":{"$or":[{"n":{"$lt":2}},{"t":{"$exists":true}}]},"limit":5}"#,
];

#[test]
fn emitted_rows_are_what_find_gives(rt: HostRuntime) -> Result<(), Fail> {
    let alloc = rt.alloc();
    let ran = run_made(alloc, random_script(alloc)?)?;
    compare_screens(alloc, ran.text()?)
}

fn compare_screens(alloc: Global, output: &str) -> Result<(), Fail> {
    let mut screens = Screens::new(alloc)?;
    screens.read_all(alloc, output)
}

const COLLECTION: &str = "{\"do\":\"collection\",\"name\":\"c\",\"schema\":S2}\n";

fn random_script(alloc: Global) -> Result<String, Fail> {
    let mut script = long_text(alloc, COLLECTION)?;
    add_observes(&mut script)?;
    let mut random = Random::new(7);
    for _ in 0..WRITES {
        add_write(&mut random, &mut script)?;
        add_finds(&mut script)?;
    }
    Ok(script)
}

fn add_observes(script: &mut String) -> Result<(), AllocError> {
    for (i, query) in QUERIES.iter().enumerate() {
        write!(
            script,
            "{{\"do\":\"observe\",\"name\":\"q{i}\",\"in\":\"c\",\"query\":{query}}}\n"
        )?;
    }
    Ok(())
}

// Lines that put in, change, or take out the document K, with the number N. Some are refused.
const WRITE: [&str; 8] = [
    r#"{"do":"remove","in":"c","key":"kK"}"#,
    r#"{"do":"remove","in":"c","key":"kK"}"#,
    r#"{"do":"upsert","in":"c","doc":{"id":"kK"}}"#,
    r#"{"do":"patch","in":"c","key":"kK","set":{"n":N}}"#,
    r#"{"do":"upsert","in":"c","doc":{"id":"kK","n":N,"t":"tN"}}"#,
    r#"{"do":"bulk","in":"c","docs":[{"id":"kK","n":N},{"id":"zK"}]}"#,
    r#"{"do":"upsert","in":"c","doc":{"id":"kK","n":N}}"#,
    r#"{"do":"upsert","in":"c","doc":{"id":"kK","n":N}}"#,
];

// Adds such a line, of one of twelve documents.
fn add_write(random: &mut Random, script: &mut String) -> Result<(), AllocError> {
    let key = random.below(12);
    let n = random.below(6);
    for character in random.one_of(&WRITE).chars() {
        match character {
            'K' => write!(script, "{key}")?,
            'N' => write!(script, "{n}")?,
            _ => script.push(character)?,
        }
    }
    script.push('\n')
}

fn add_finds(script: &mut String) -> Result<(), AllocError> {
    for query in QUERIES.iter() {
        write!(
            script,
            "{{\"do\":\"find\",\"in\":\"c\",\"query\":{query}}}\n"
        )?;
    }
    Ok(())
}

// What each query showed last, and how many lines were read.
#[derive(Drop)]
struct Screens {
    shown: Vec<String>,
    emitted: u64,
    asked: u64,
}

impl Screens {
    fn new(alloc: Global) -> Result<Screens, AllocError> {
        let mut shown = Vec::new(alloc);
        for _ in QUERIES {
            shown.push(String::new(alloc))?;
        }
        Ok(Screens {
            shown,
            emitted: 0,
            asked: 0,
        })
    }

    fn read_all(&mut self, alloc: Global, output: &str) -> Result<(), Fail> {
        for line in output.lines() {
            self.read(alloc, line)?;
        }
        if self.asked == WRITES * 8 && self.emitted >= WRITES {
            return Ok(());
        }
        Err(Fail::new(format_args!("{} find lines, {} emissions", self.asked, self.emitted)))
    }

    fn read(&mut self, alloc: Global, line: &str) -> Result<(), Fail> {
        let Some((head, rows)) = line.split_once("\"rows\":") else {
            return Ok(());
        };
        match head.strip_prefix("{\"emit\":\"q") {
            Some(rest) => self.read_emitted(alloc, rest, rows),
            None => self.read_found(rows),
        }
    }

    fn read_emitted(&mut self, alloc: Global, rest: &str, rows: &str) -> Result<(), Fail> {
        let number = rest.strip_suffix("\",").unwrap_or(rest).parse()?;
        self.emitted = self.emitted.saturating_add(1);
        self.show(alloc, number, rows)
    }

    fn read_found(&mut self, rows: &str) -> Result<(), Fail> {
        let number = (self.asked % 8) as usize;
        self.asked = self.asked.saturating_add(1);
        match self.shown.get(number) {
            Some(shown) if shown.as_str() == rows => Ok(()),
            _ => Err(Fail::new(format_args!("q{number} does not show {rows}"))),
        }
    }

    // What is emitted isn't what was shown before.
    fn show(&mut self, alloc: Global, number: usize, rows: &str) -> Result<(), Fail> {
        match self.shown.get_mut(number) {
            Some(shown) if shown.as_str() != rows => {
                *shown = String::from_str(alloc, rows)?;
                Ok(())
            }
            _ => Err(Fail::new(format_args!("q{number} shows {rows} again"))),
        }
    }
}
