// A disk that fails at each of its calls, and stops within each: what it leaves opens again, and has
// all that a line writes or none of it.
//
// A case has lines, and behind each `?` the facts of what comes next where so many of them stand. A
// second number tells how many calls of the disk the other lines take.
use crate::case::play;
use crate::run::{RUN, Ran, Setting, run};
use crate::short::{add_due_line, add_script_line, add_usual_line, long_text};
use std::alloc::{AllocError, Global};
use std::test::Fail;

// More than the calls that a run here makes.
const CALLS: u64 = 64;

// What may stand in the bytes that a stop left open.
const PICKS: [&[u8]; 3] = [&[], &[1; 800], &[255; 800]];

// The calls of an append, counted back from the last: the body is written and synced, and then its
// gate. The gate may be found open after a stop within the last two.
const STEPS: [(u64, bool); 4] = [(3, false), (2, false), (1, true), (0, true)];

// What is played on a disk that stops, and how much of the script a read gives.
#[derive(Clone, Copy)]
struct Lines<'a> {
    name: &'a str,
    facts: &'a str,
    piece: usize,
}

// How many lines stand before the last append, how many calls the others take, where it is told, and
// what comes next: where it doesn't stand, and where it does.
#[derive(Clone, Copy)]
struct Next<'a> {
    before: u64,
    calls: Option<u64>,
    closed: &'a str,
    open: &'a str,
}

/// What is left of the lines by a run of which nothing fails.
pub fn whole(alloc: Global, facts: &str) -> Result<Ran, AllocError> {
    Lines::new("", facts, 1).run(alloc, u64::MAX, 0)
}

impl<'a> Lines<'a> {
    fn new(name: &'a str, facts: &'a str, piece: usize) -> Lines<'a> {
        Lines { name, facts, piece }
    }

    // The run of so many lines at most whose disk fails at this call. None has the number 0.
    fn run(&self, alloc: Global, most: u64, call: u64) -> Result<Ran, AllocError> {
        let setting = Setting {
            disk_fails: &[call],
            ..Setting::PLAIN
        };
        self.run_in(alloc, most, &setting, &[])
    }

    fn run_in(
        &self,
        alloc: Global,
        most: u64,
        setting: &Setting<'_>,
        held: &[u8],
    ) -> Result<Ran, AllocError> {
        let setting = Setting {
            piece: self.piece,
            ..*setting
        };
        let mut script = String::new(alloc);
        self.add_script(most, &mut script)?;
        run(alloc, &setting, RUN, script.as_str().as_bytes(), held)
    }

    fn add_script(&self, most: u64, script: &mut String) -> Result<(), AllocError> {
        let mut count = 0u64;
        for fact in self.facts.lines() {
            let (mark, line) = fact.split_once(' ').unwrap_or((fact, ""));
            if mark != "<" && count < most {
                add_script_line(line, script)?;
                count = count.saturating_add(1);
            }
        }
        Ok(())
    }

    // How many lines were answered by a run, whose output then is whole or stops by the disk.
    fn answered(&self, alloc: Global, ran: &Ran) -> Result<u64, Fail> {
        let mut due = String::new(alloc);
        let mut count = 0u64;
        for fact in self.facts.lines() {
            let (mark, line) = fact.split_once(' ').unwrap_or((fact, ""));
            if mark != "<" {
                if stops_behind(due.as_str(), ran) {
                    return Ok(count);
                }
                count = count.saturating_add(1);
            }
            add_reply(mark, line, count, &mut due)?;
        }
        if ran.came_to(0, due.as_str()) {
            return Ok(count);
        }
        Err(Fail::new(format_args!("{}: status {} with other lines", self.name, ran.status)))
    }

    // How many calls of the disk a run of so many lines makes.
    fn calls(&self, alloc: Global, most: u64) -> Result<u64, Fail> {
        for call in 1..CALLS {
            if self.run(alloc, most, call)?.status == 0 {
                return Ok(call.saturating_sub(1));
            }
        }
        Err(Fail::new(format_args!("{}: more calls of the disk", self.name)))
    }

    fn compare_calls(&self, alloc: Global, last: u64, next: Next<'_>) -> Result<(), Fail> {
        let calls = last.saturating_sub(self.calls(alloc, next.before)?);
        if next.calls.unwrap_or(calls) == calls {
            return Ok(());
        }
        Err(Fail::new(format_args!("{}: {calls} calls of the disk", self.name)))
    }

    // The last append stands where its gate is found open, and else none of it.
    fn try_steps(&self, alloc: Global, next: Next<'_>) -> Result<(), Fail> {
        let last = self.calls(alloc, u64::MAX)?;
        self.compare_calls(alloc, last, next)?;
        for (back, gate) in STEPS {
            let open = if gate { next.open } else { next.closed };
            let step = Next { open, ..next };
            self.try_call(alloc, last.saturating_sub(back), step)?;
        }
        let stands = Next {
            closed: next.open,
            ..next
        };
        self.try_whole(alloc, CALLS, stands)
    }

    // The call fails and the run stops within it or behind it, or the call doesn't fail and the run
    // stops within it.
    fn try_call(&self, alloc: Global, call: u64, next: Next<'_>) -> Result<(), Fail> {
        let failed = self.run(alloc, u64::MAX, call)?;
        self.try_failed(alloc, &failed, call, next)?;
        self.try_whole(alloc, call, next)
    }

    fn try_failed(
        &self,
        alloc: Global,
        failed: &Ran,
        call: u64,
        next: Next<'_>,
    ) -> Result<(), Fail> {
        let answered = self.answered(alloc, failed)?;
        if answered != next.before {
            return Err(Fail::new(format_args!("{}: {answered} lines answered", self.name)));
        }
        self.try_picks(alloc, failed, call, next)?;
        self.try_picks(alloc, failed, call.saturating_add(1), next)
    }

    fn try_whole(&self, alloc: Global, call: u64, next: Next<'_>) -> Result<(), Fail> {
        let whole = self.run(alloc, u64::MAX, 0)?;
        self.try_picks(alloc, &whole, call, next)
    }

    fn try_picks(&self, alloc: Global, ran: &Ran, call: u64, next: Next<'_>) -> Result<(), Fail> {
        for pick in PICKS.iter() {
            let is_open = pick.first() == Some(&1);
            let due = if is_open { next.open } else { next.closed };
            self.try_left(alloc, ran.disk.stopped(call, pick)?.as_slice(), due)?;
        }
        Ok(())
    }

    // What comes next over these bytes, behind the number of lines that stand.
    fn try_left(&self, alloc: Global, left: &[u8], due: &str) -> Result<(), Fail> {
        play(alloc, self.name, facts_of(due), left)
    }

    // Each call of the disk fails in turn, until a run needs no more of them.
    fn try_all(&self, alloc: Global, blocks: &str) -> Result<(), Fail> {
        let mut before = 0;
        for call in 1..CALLS {
            let count = self.try_failing(alloc, blocks, call)?;
            if count < before {
                return Err(Fail::new(format_args!("{call}: {count} after {before}")));
            }
            before = count;
        }
        if blocks.split("\n? ").skip(before as usize).count() != 1 {
            return Err(Fail::new(format_args!("{before} lines answered at most")));
        }
        self.try_failing(alloc, blocks, 0)?;
        self.try_sinks(alloc, blocks)
    }

    // How many lines are answered where this call fails.
    fn try_failing(&self, alloc: Global, blocks: &str, call: u64) -> Result<u64, Fail> {
        let ran = self.run(alloc, u64::MAX, call)?;
        let count = self.answered(alloc, &ran)?;
        self.try_stops(alloc, blocks, &ran, call)?;
        // What was answered stands.
        self.try_any(alloc, blocks, &ran, CALLS, count)?;
        Ok(count)
    }

    // Up to the call that fails the runs are the same, so each stop of a run in which none does is
    // tried, and those within the failing call and after it.
    fn try_stops(&self, alloc: Global, blocks: &str, ran: &Ran, call: u64) -> Result<(), Fail> {
        let end = if call == 0 {
            CALLS
        } else {
            call.saturating_add(2)
        };
        for stop in call..end {
            self.try_any(alloc, blocks, ran, stop, 0)?;
        }
        Ok(())
    }

    // So many lines stand, or more, and of none a part.
    fn try_any(
        &self,
        alloc: Global,
        blocks: &str,
        ran: &Ran,
        stop: u64,
        least: u64,
    ) -> Result<(), Fail> {
        for pick in PICKS.iter() {
            let left = ran.disk.stopped(stop, pick)?;
            if !self.is_any(alloc, blocks, left.as_slice(), least)? {
                return Err(Fail::new(format_args!("stop within {stop}: fewer than {least} lines")));
            }
        }
        Ok(())
    }

    fn is_any(
        &self,
        alloc: Global,
        blocks: &str,
        left: &[u8],
        least: u64,
    ) -> Result<bool, AllocError> {
        for block in blocks.split("\n? ").skip(least as usize) {
            let next = Lines::new(self.name, facts_of(block), self.piece);
            if next.is_answered(alloc, left)? {
                return Ok(true);
            }
        }
        Ok(false)
    }

    // Whether a run over these bytes is answered as these lines are.
    fn is_answered(&self, alloc: Global, held: &[u8]) -> Result<bool, AllocError> {
        let ran = self.run_in(alloc, u64::MAX, &Setting::PLAIN, held)?;
        self.is_whole(alloc, ran.output.as_slice())
    }

    fn is_whole(&self, alloc: Global, output: &[u8]) -> Result<bool, AllocError> {
        let mut due = String::new(alloc);
        let mut count = 0u64;
        for fact in self.facts.lines() {
            let (mark, line) = fact.split_once(' ').unwrap_or((fact, ""));
            count = count.saturating_add(u64::from(mark != "<"));
            add_reply(mark, line, count, &mut due)?;
        }
        Ok(due.as_str().as_bytes() == output)
    }

    // The sink fails between two writes: what stands on the disk has the records of the lines answered
    // and of the one whose reply it didn't take, and of no other.
    fn try_sinks(&self, alloc: Global, blocks: &str) -> Result<(), Fail> {
        let mut write = 0u64;
        for block in blocks.split("\n? ") {
            if write > 0 {
                self.try_sink(alloc, write, block)?;
            }
            write = write.saturating_add(1);
        }
        Ok(())
    }

    fn try_sink(&self, alloc: Global, write: u64, due: &str) -> Result<(), Fail> {
        let setting = Setting {
            write_fails: &[write],
            ..Setting::PLAIN
        };
        let ran = self.run_in(alloc, u64::MAX, &setting, &[])?;
        if ran.status == 5 {
            return self.try_left(alloc, ran.disk.bytes(), due);
        }
        Err(Fail::new(format_args!("write {write} fails: status {}", ran.status)))
    }
}

// The facts behind the number of lines that stand.
fn facts_of(block: &str) -> &str {
    let (_, facts) = block.split_once('\n').unwrap_or(("", block));
    facts
}

fn stops_behind(due: &str, ran: &Ran) -> bool {
    let stop = b"{\"stop\":\"disk\"}\n";
    ran.status == 3 && ran.output.as_slice().strip_prefix(due.as_bytes()) == Some(stop.as_slice())
}

fn add_reply(mark: &str, line: &str, number: u64, due: &mut String) -> Result<(), AllocError> {
    match mark {
        "<" => add_due_line(line, number, due),
        "." => add_usual_line(line, number, due),
        _ => Ok(()),
    }
}

// Tries the last append of each case.
fn try_steps(alloc: Global, text: &str, piece: usize) -> Result<(), Fail> {
    let cases = long_text(alloc, text)?;
    for case in cases.as_str().split("\n== ").skip(1) {
        try_case(alloc, case, piece)?;
    }
    Ok(())
}

fn try_case(alloc: Global, case: &str, piece: usize) -> Result<(), Fail> {
    let (name, facts) = case.split_once('\n').unwrap_or((case, ""));
    let mut parts = facts.split("\n? ");
    let lines = Lines::new(name, parts.next().unwrap_or(""), piece);
    let closed = parts.next().unwrap_or("");
    let (numbers, _) = closed.split_once('\n').unwrap_or((closed, ""));
    let (before, calls) = numbers.split_once(' ').unwrap_or((numbers, ""));
    let next = Next {
        before: before.parse()?,
        calls: calls.parse().ok(),
        closed,
        open: parts.next().unwrap_or(""),
    };
    lines.try_steps(alloc, next)
}

// Each record stands or none of it; and of lines that are read together all records or none, and
// none is answered before.
#[test]
fn what_is_written_together_stands_whole_or_not_at_all(rt: HostRuntime) -> Result<(), Fail> {
    for (text, piece) in [(APPENDS, 1), (GROUPS, Setting::PLAIN.piece)] {
        try_steps(rt.alloc(), text, piece)?;
    }
    Ok(())
}

#[test]
fn each_answered_write_is_held_after_any_stop(rt: HostRuntime) -> Result<(), Fail> {
    let (lines, blocks) = WRITES.split_once("\n? ").unwrap_or((WRITES, ""));
    Lines::new("writes", lines, 1).try_all(rt.alloc(), blocks)
}

// A collection, an insert, a bulk, an opening and an insert in the new epoch.
const WRITES: &str = r#". C(c)
. I(c,a,1)
> {"do":"bulk","in":"c","docs":[{"id":"b","n":2},{"id":"d","n":3}]}
< {"line":L,"ok":"bulk","revs":["1-c","1-c"]}
> {"do":"restart"}
< {"epoch":2,"line":L,"ok":"restart"}
. I(c,e,4)
? 0
> {"do":"get","in":"c","key":"a"}
< {"code":10,"line":L,"name":"c","refused":"no_collection"}
> {"do":"get","in":"c","key":"b"}
< {"code":10,"line":L,"name":"c","refused":"no_collection"}
> {"do":"get","in":"c","key":"d"}
< {"code":10,"line":L,"name":"c","refused":"no_collection"}
> {"do":"get","in":"c","key":"e"}
< {"code":10,"line":L,"name":"c","refused":"no_collection"}
? 1
> {"do":"get","in":"c","key":"a"}
< {"code":15,"line":L,"refused":"no_document"}
> {"do":"get","in":"c","key":"b"}
< {"code":15,"line":L,"refused":"no_document"}
> {"do":"get","in":"c","key":"d"}
< {"code":15,"line":L,"refused":"no_document"}
> {"do":"get","in":"c","key":"e"}
< {"code":15,"line":L,"refused":"no_document"}
? 2
> {"do":"get","in":"c","key":"a"}
< {"doc":{"id":"a","n":1},"line":L,"lwt":1,"ok":"get","rev":"1-c"}
> {"do":"get","in":"c","key":"b"}
< {"code":15,"line":L,"refused":"no_document"}
> {"do":"get","in":"c","key":"d"}
< {"code":15,"line":L,"refused":"no_document"}
> {"do":"get","in":"c","key":"e"}
< {"code":15,"line":L,"refused":"no_document"}
? 3
> {"do":"get","in":"c","key":"a"}
< {"doc":{"id":"a","n":1},"line":L,"lwt":1,"ok":"get","rev":"1-c"}
> {"do":"get","in":"c","key":"b"}
< {"doc":{"id":"b","n":2},"line":L,"lwt":2,"ok":"get","rev":"1-c"}
> {"do":"get","in":"c","key":"d"}
< {"doc":{"id":"d","n":3},"line":L,"lwt":2,"ok":"get","rev":"1-c"}
> {"do":"get","in":"c","key":"e"}
< {"code":15,"line":L,"refused":"no_document"}
? 4
> {"do":"get","in":"c","key":"a"}
< {"doc":{"id":"a","n":1},"line":L,"lwt":1,"ok":"get","rev":"1-c"}
> {"do":"get","in":"c","key":"b"}
< {"doc":{"id":"b","n":2},"line":L,"lwt":2,"ok":"get","rev":"1-c"}
> {"do":"get","in":"c","key":"d"}
< {"doc":{"id":"d","n":3},"line":L,"lwt":2,"ok":"get","rev":"1-c"}
> {"do":"get","in":"c","key":"e"}
< {"code":15,"line":L,"refused":"no_document"}
? 5
> {"do":"get","in":"c","key":"a"}
< {"doc":{"id":"a","n":1},"line":L,"lwt":1,"ok":"get","rev":"1-c"}
> {"do":"get","in":"c","key":"b"}
< {"doc":{"id":"b","n":2},"line":L,"lwt":2,"ok":"get","rev":"1-c"}
> {"do":"get","in":"c","key":"d"}
< {"doc":{"id":"d","n":3},"line":L,"lwt":2,"ok":"get","rev":"1-c"}
> {"do":"get","in":"c","key":"e"}
< {"doc":{"id":"e","n":4},"line":L,"lwt":3,"ok":"get","rev":"1-c"}
"#;

const APPENDS: &str = r#"
== the record of a collection
. C(m)
? 0 4
$ run journal
$ check journal
# 1 ,"records":2}
? 1
$ run journal
$ check journal
# 1 ,"records":3}

== the record of a replication
. C(m)
. C(f)
. {"do":"replicate","name":"r","fork":"f","master":"m","handler":"master_wins"}
? 2 4
$ run journal
$ check journal
# 1 ,"records":4}
? 3
$ run journal
$ check journal
# 1 ,"records":5}

== the record of documents
. C(m)
. C(f)
. {"do":"replicate","name":"r","fork":"f","master":"m","handler":"master_wins"}
. I(m,a,1)
? 3 4
$ run journal
$ check journal
# 1 ,"records":5}
? 4
$ run journal
$ check journal
# 1 ,"records":6}

== the record of an exchange
. C(m)
. C(f)
. {"do":"replicate","name":"r","fork":"f","master":"m","handler":"master_wins"}
. I(m,a,1)
> {"do":"turn","name":"r"}
< {"exchange":1,"place":{"id":"a","lwt":1},"rows":["a"],"sent":"pull"}
< {"end":"quiet","exchanges":1,"line":L,"ok":"turn"}
? 4 4
$ run journal
$ check journal
# 1 ,"records":6}
? 5
$ run journal
$ check journal
# 1 ,"records":7}

== the record of an epoch
. C(m)
. C(f)
. {"do":"replicate","name":"r","fork":"f","master":"m","handler":"master_wins"}
. I(m,a,1)
> {"do":"turn","name":"r"}
< {"exchange":1,"place":{"id":"a","lwt":1},"rows":["a"],"sent":"pull"}
< {"end":"quiet","exchanges":1,"line":L,"ok":"turn"}
> {"do":"restart"}
< {"epoch":2,"line":L,"ok":"restart"}
? 5
$ run journal
$ check journal
# 1 ,"records":7}
? 6
$ run journal
$ check journal
# 1 ,"records":8}

== the record of a migration
. C(m)
. C(f)
. {"do":"replicate","name":"r","fork":"f","master":"m","handler":"master_wins"}
. I(m,a,1)
> {"do":"turn","name":"r"}
< {"exchange":1,"place":{"id":"a","lwt":1},"rows":["a"],"sent":"pull"}
< {"end":"quiet","exchanges":1,"line":L,"ok":"turn"}
> {"do":"restart"}
< {"epoch":2,"line":L,"ok":"restart"}
> {"do":"migrate","in":"m","schema":{"version":1,"primaryKey":"id","type":"object","properties":{"id":{"type":"string","maxLength":20},"n":{"type":"integer"}},"required":["id"]},"steps":[{"scale":"n","by":10}]}
< {"collections":["m","f"],"line":L,"ok":"migrate"}
? 6 4
$ run journal
$ check journal
# 1 ,"records":8}
? 7
$ run journal
$ check journal
# 1 ,"records":9}

// The digest is what sha256sum prints of the state's line.
== a turn, whose three records are written together
. C(m)
. C(f)
. {"do":"replicate","name":"r","fork":"f","master":"m","handler":"master_wins"}
. I(f,a,1)
> {"do":"turn","name":"r"}
< {"conflicts":[],"exchange":1,"rows":["a"],"sent":"push"}
< {"exchange":2,"place":{"id":"a","lwt":1},"rows":["a"],"sent":"pull"}
< {"end":"quiet","exchanges":2,"line":L,"ok":"turn"}
? 4 4
> {"do":"turn","name":"r"}
< {"conflicts":[],"exchange":1,"rows":["a"],"sent":"push"}
< {"exchange":2,"place":{"id":"a","lwt":1},"rows":["a"],"sent":"pull"}
< {"end":"quiet","exchanges":2,"line":L,"ok":"turn"}
> {"do":"digest","in":"m"}
< {"count":1,"digest":"64e11706edc12e198f0d3edef2c3527856fe519c808369279e5d6ebb255c6cc3","line":L,"ok":"digest"}
> {"do":"digest","in":"f"}
< {"count":1,"digest":"64e11706edc12e198f0d3edef2c3527856fe519c808369279e5d6ebb255c6cc3","line":L,"ok":"digest"}
? 5
> {"do":"turn","name":"r"}
< {"exchange":1,"place":{"id":"a","lwt":1},"rows":[],"sent":"pull"}
< {"end":"quiet","exchanges":1,"line":L,"ok":"turn"}
> {"do":"digest","in":"m"}
< {"count":1,"digest":"64e11706edc12e198f0d3edef2c3527856fe519c808369279e5d6ebb255c6cc3","line":L,"ok":"digest"}
> {"do":"digest","in":"f"}
< {"count":1,"digest":"64e11706edc12e198f0d3edef2c3527856fe519c808369279e5d6ebb255c6cc3","line":L,"ok":"digest"}

// The digest is what sha256sum prints of the lines of the states.
== a delivery of three commits, of which the fork takes two as events
. C(m)
. C(f)
. {"do":"replicate","name":"r","fork":"f","master":"m","handler":"master_wins"}
. {"do":"stream","name":"r"}
. I(m,a,1)
. I(m,b,2)
. I(m,d,3)
> {"do":"deliver","name":"r","link":["ok","twice","later"]}
< {"event":1,"rows":["a"],"took":"taken"}
< {"event":2,"rows":["b"],"took":"taken"}
< {"event":2,"rows":["b"],"took":"old"}
< {"event":3,"rows":["d"],"took":"later"}
< {"level":false,"line":L,"ok":"deliver","resync":false}
? 7 4
> {"do":"deliver","name":"r"}
< {"code":31,"line":L,"refused":"no_stream"}
> {"do":"turn","name":"r"}
< {"exchange":1,"place":{"id":"d","lwt":3},"rows":["a","b","d"],"sent":"pull"}
< {"end":"quiet","exchanges":1,"line":L,"ok":"turn"}
> {"do":"digest","in":"m"}
< {"count":3,"digest":"392c2a1e60b38c17a34b39ad0340505df6a6a5059b1ec5202d0a1aebef49f961","line":L,"ok":"digest"}
> {"do":"digest","in":"f"}
< {"count":3,"digest":"392c2a1e60b38c17a34b39ad0340505df6a6a5059b1ec5202d0a1aebef49f961","line":L,"ok":"digest"}
? 8
> {"do":"deliver","name":"r"}
< {"code":31,"line":L,"refused":"no_stream"}
> {"do":"turn","name":"r"}
< {"exchange":1,"place":{"id":"d","lwt":3},"rows":["d"],"sent":"pull"}
< {"end":"quiet","exchanges":1,"line":L,"ok":"turn"}
> {"do":"digest","in":"m"}
< {"count":3,"digest":"392c2a1e60b38c17a34b39ad0340505df6a6a5059b1ec5202d0a1aebef49f961","line":L,"ok":"digest"}
> {"do":"digest","in":"f"}
< {"count":3,"digest":"392c2a1e60b38c17a34b39ad0340505df6a6a5059b1ec5202d0a1aebef49f961","line":L,"ok":"digest"}
"#;

const GROUPS: &str = r#"
== three lines
. C(m)
. I(m,a,1)
. I(m,b,2)
? 0 4
$ run journal
$ check journal
# 1 ,"records":2}
? 3
$ run journal
$ check journal
# 1 ,"records":5}

== a migration, behind which nothing is to be pushed or pulled
. C(m)
. C(f)
. {"do":"replicate","name":"r","fork":"f","master":"m","handler":"master_wins"}
. I(m,a,1)
> {"do":"turn","name":"r"}
< {"exchange":1,"place":{"id":"a","lwt":1},"rows":["a"],"sent":"pull"}
< {"end":"quiet","exchanges":1,"line":L,"ok":"turn"}
> {"do":"restart"}
< {"epoch":2,"line":L,"ok":"restart"}
> {"do":"migrate","in":"m","schema":{"version":1,"primaryKey":"id","type":"object","properties":{"id":{"type":"string","maxLength":20},"n":{"type":"integer"}},"required":["id"]},"steps":[{"scale":"n","by":10}]}
< {"collections":["m","f"],"line":L,"ok":"migrate"}
? 6 4
> {"do":"get","in":"m","key":"a"}
< {"doc":{"id":"a","n":1},"line":L,"lwt":1,"ok":"get","rev":"1-m"}
> {"do":"get","in":"f","key":"a"}
< {"doc":{"id":"a","n":1},"line":L,"lwt":1,"ok":"get","rev":"1-f"}
> {"do":"turn","name":"r"}
< {"exchange":1,"place":{"id":"a","lwt":1},"rows":[],"sent":"pull"}
< {"end":"quiet","exchanges":1,"line":L,"ok":"turn"}
? 7
> {"do":"get","in":"m","key":"a"}
< {"doc":{"id":"a","n":10},"line":L,"lwt":1,"ok":"get","rev":"1-m"}
> {"do":"get","in":"f","key":"a"}
< {"doc":{"id":"a","n":10},"line":L,"lwt":1,"ok":"get","rev":"1-f"}
> {"do":"turn","name":"r"}
< {"exchange":1,"place":{"id":"a","lwt":1},"rows":[],"sent":"pull"}
< {"end":"quiet","exchanges":1,"line":L,"ok":"turn"}
"#;
