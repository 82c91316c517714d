// Runs that end before their input does.
use crate::endless::Endless;
use crate::run::{RUN, Ran, Setting, run, run_from};
use std::alloc::{AllocError, Global};
use std::test::Fail;

// Three lines that are refused, each of 4 bytes, and what they are answered.
const SCRIPT: &[u8; 12] = b"{ }\n[ ]\n\"a\"\n";

const REPLIES: &str = r#"{"code":5,"line":1,"name":"do","refused":"missing"}
{"code":3,"line":2,"refused":"not_object"}
{"code":3,"line":3,"refused":"not_object"}
"#;

const FIRST_REPLY: &str = r#"{"code":5,"line":1,"name":"do","refused":"missing"}
"#;

// Where the source fails behind the first line.
const STOPPED: &str = r#"{"code":5,"line":1,"name":"do","refused":"missing"}
{"stop":"read"}
"#;

// The second read ends within the second line.
const READ_FAILS: Setting<'static> = Setting {
    piece: 3,
    read_fails: &[3],
    ..Setting::PLAIN
};

#[test]
fn a_failing_source_ends_the_run_after_the_lines_that_were_whole(
    rt: HostRuntime,
) -> Result<(), Fail> {
    run(rt.alloc(), &READ_FAILS, RUN, SCRIPT, &[])?.compare(4, STOPPED)
}

#[test]
fn a_failing_sink_ends_the_run_with_a_front_of_what_is_due(rt: HostRuntime) -> Result<(), Fail> {
    for failing in 1..4 {
        let ran = run_failing(rt.alloc(), failing, Setting::BYTEWISE)?;
        compare_front(&ran)?;
    }
    Ok(())
}

fn compare_front(ran: &Ran) -> Result<(), Fail> {
    if ran.status == 5 && is_front(ran, REPLIES) {
        return Ok(());
    }
    Err(Fail::new(format_args!("status {}, {} bytes", ran.status, ran.output.len())))
}

// The run whose write with this number fails.
fn run_failing(alloc: Global, failing: u64, setting: Setting<'_>) -> Result<Ran, AllocError> {
    let setting = Setting {
        write_fails: &[failing],
        ..setting
    };
    run(alloc, &setting, RUN, SCRIPT, &[])
}

// The replies of lines that were read together are one write, and none is left out.
#[test]
fn a_group_is_answered_by_one_write(rt: HostRuntime) -> Result<(), Fail> {
    run_failing(rt.alloc(), 2, Setting::PLAIN)?.compare(1, REPLIES)
}

// Whether a part of what is due was written, and not all of it.
fn is_front(ran: &Ran, due: &str) -> bool {
    ran.output.len() < due.len() && due.as_bytes().starts_with(ran.output.as_slice())
}

// The first cause is told, wherever the sink fails: before the source does, or on the line that
// tells it.
#[test]
fn the_status_stands_where_the_sink_fails_on_the_last_line(rt: HostRuntime) -> Result<(), Fail> {
    let mut ended = [false, false];
    for failing in 1..6 {
        let (replied, whole) = ended_by(rt.alloc(), failing)?;
        ended = [ended[0] || !replied, ended[1] || (replied && !whole)];
    }
    if ended[0] && ended[1] {
        return Ok(());
    }
    Err(Fail::new("the sink fails in one place alone"))
}

fn ended_by(alloc: Global, failing: u64) -> Result<(bool, bool), Fail> {
    let ran = run_failing(alloc, failing, READ_FAILS)?;
    ended(&ran)
}

// Whether the first line was replied to, and all was written.
fn ended(ran: &Ran) -> Result<(bool, bool), Fail> {
    let replied = ran.output.len() >= FIRST_REPLY.len();
    let whole = ran.output.as_slice() == STOPPED.as_bytes();
    let status = if replied { 4 } else { 5 };
    if ran.status == status && (whole || is_front(ran, STOPPED)) {
        return Ok((replied, whole));
    }
    Err(Fail::new(format_args!("status {}, {} bytes", ran.status, ran.output.len())))
}

#[test]
fn an_input_ends_at_four_gibibytes(rt: HostRuntime) -> Result<(), Fail> {
    let ran = run_from(rt.alloc(), &Setting::PLAIN, RUN, &mut Endless, &[])?;
    ran.compare(9, "{\"stop\":\"too_long\"}\n")
}
