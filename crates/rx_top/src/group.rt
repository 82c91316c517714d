// Lines that are played together: their records are put on the disk by one commit, and then their
// replies are written in one piece.
ghost use Rattle.std.specs.Prelude.{◌≡◌, ◌≤◌, ◌<◌, ◌+◌, ◌-◌, ◌++◌, ◌^◌, ℕ, List, length, string_bytes, true, false, IfOk};
ghost use Rattle.rx_engine.specs.Ahead.{AddsTo, IsAhead, staged_len};
ghost use Rattle.rx_engine.specs.Engine.{IsAt, limit_of};
ghost use Rattle.rx_handler.specs.Shown.{kinds_of};
ghost use Rattle.rx_top.specs.Causes.{HasCause, by_disk, by_disk_or_memory, never_read};
ghost use Rattle.rx_top.specs.Group.{AddsLine, Gathers, GrowsByGroup, LeadsOn, SettlesGroup, WorksGroup, max_group_bytes, max_group_lines};
ghost use Rattle.rx_top.specs.Reader.{TakesKept};
ghost use Rattle.rx_top.specs.Stops.{Appends};
ghost use Rattle.rx_top.specs.declared.reader.Next.TheVariants as next_is;

use crate::blank::is_blank;
use crate::early_end::EarlyEnd;
use crate::reader::{Next, Reader};
use rx_disk::Disk;
use rx_engine::{Engine, Staged};
use rx_handler::Handlers;
use rx_outside::{Sink, Stop, write_all};
use rx_update::Hooks;
use std::alloc::{AllocError, Global};

/// The most lines of a group.
const MAX_GROUP_LINES: u64 = 1024;

/// The bytes of records, and those of replies, from which on a group takes no line more.
const MAX_GROUP_BYTES: u64 = 1_048_576;

/// Lines that were played, up to one of that number, whose records are to be put on the disk and
/// whose replies are to be written.
#[derive(Drop)]
pub(crate) struct Group {
    pub engine: Engine,
    pub text: String,
    pub number: u64,
    pub refused: bool,
}

/// How far a run has come: the number of the last line, and whether a line of the group was
/// refused.
#[derive(Drop)]
pub(crate) struct Played {
    pub engine: Engine,
    pub number: u64,
    pub refused: bool,
    /// Whether the line that the reader has was one of the group. Else it has to be played by
    /// itself.
    pub whole: bool,
}

/// Plays the line that the reader has, and those behind it that were read already, unless they have
/// to be played alone.
pub(crate) fn play_group<K: Sink, D: Disk>(
    alloc: Global,
    engine: Engine,
    reader: &mut Reader,
    next: Next,
    number: u64,
    out: &mut K,
    disk: &mut D,
    handlers: &Handlers,
    hooks: &Hooks,
) -> Result<Played, EarlyEnd>
    requires at { D.tells → (bodies : List (List ℕ)) × IsAt D.Disk disk.old engine bodies }
    requires few { next ≡ next_is.Line → number + length reader.old.unread < 2 ^ 63 }
    // Whatever the source has left behind the lines.
    ensures works { (old left : List ℕ)
        → TakesKept next reader.old.line old (reader.old.unread ++ left)
        → WorksGroup D.Disk (kinds_of handlers.now) K.tells next number old left reader.new engine
        disk.old disk.new (K.written out.old) (K.written out.new) result }
    ensures grows { D.tells → (bodies : List (List ℕ)) → IsAt D.Disk disk.old engine bodies
        → GrowsByGroup D.Disk engine disk.old disk.new bodies result }
    ensures limit { IfOk result (λ p. limit_of p.engine ≡ limit_of engine) }
    ensures told { K.tells → Appends (K.written out.old) (K.written out.new) }
    ensures leads { IfOk result (λ p. LeadsOn next number reader.old reader.new p.number p.whole) }
    ensures cause { HasCause K.Sink D.Disk never_read by_disk_or_memory out.old out.new
        disk.old disk.new result }
{
    let (group, whole) = match gather(alloc, engine, reader, next, number, handlers, hooks) {
        Ok(gathered) => gathered,
        Err(_) => return Err(EarlyEnd::Work(Stop::Memory)),
    };
    let number = group.number;
    let refused = group.refused;
    match group.settle(out, disk) {
        Ok(engine) => Ok(Played {
            engine,
            number,
            refused,
            whole,
        }),
        Err(cause) => Err(cause),
    }
}

// Plays lines that wait for one commit: the one that the reader has, and those that were read
// already, up to one that has to be played alone. Says whether the last one was played.
fn gather(
    alloc: Global,
    engine: Engine,
    reader: &mut Reader,
    next: Next,
    number: u64,
    handlers: &Handlers,
    hooks: &Hooks,
) -> Result<(Group, bool), AllocError>
    requires few { next ≡ next_is.Line → number + length reader.old.unread < 2 ^ 63 }
    ensures gathers { (old left : List ℕ)
        → TakesKept next reader.old.line old (reader.old.unread ++ left)
        → IfOk result (λ p. Gathers (kinds_of handlers.now) next number old left reader.new engine
        p.0 p.1) }
    ensures adds { IfOk result (λ p. (more : List (List ℕ)) × AddsTo engine p.0.engine more) }
    ensures leads { IfOk result (λ p. LeadsOn next number reader.old reader.new p.0.number p.1) }
{
    let mut group = Group {
        engine,
        text: String::new(alloc),
        number,
        refused: false,
    };
    let Next::Line = next else {
        return Ok((group, false));
    };
    'lines: loop {
        let (added, played) = group.add(alloc, reader.line(), handlers, hooks)?;
        group = added;
        if !played {
            return Ok((group, false));
        }
        if group.is_full(number) {
            return Ok((group, true));
        }
        if !reader.take_read()? {
            return Ok((group, true));
        }
    }
}

impl Group {
    // The group with a line more, unless that has to be played alone; and whether it was played.
    fn add(
        self,
        alloc: Global,
        line: &[u8],
        handlers: &Handlers,
        hooks: &Hooks,
    ) -> Result<(Group, bool), AllocError>
        requires { self.number < 2 ^ 64 - 1 }
        ensures { IfOk result (λ p. AddsLine (kinds_of handlers.now) line.now self p.0 p.1) }
    {
        let Group {
            engine,
            mut text,
            number,
            refused,
        } = self;
        if is_blank(line) {
            let group = Group {
                engine,
                text,
                number: number + 1,
                refused,
            };
            return Ok((group, true));
        }
        match engine.stage_line(alloc, handlers, hooks, line, number + 1)? {
            Staged::Played(engine, output) => {
                text.push_str(output.text.as_str())?;
                let group = Group {
                    engine,
                    text,
                    number: number + 1,
                    refused: refused || output.refused,
                };
                Ok((group, true))
            }
            Staged::Alone(engine) => {
                let group = Group {
                    engine,
                    text,
                    number,
                    refused,
                };
                Ok((group, false))
            }
        }
    }

    // Whether it takes no line more, behind a line of that number.
    fn is_full(&self, first: u64) -> bool
        requires { first ≤ self.now.number }
        ensures lines { result ≡ false → self.now.number < first + max_group_lines }
        ensures records { result ≡ false → staged_len self.now.engine < max_group_bytes }
        ensures replies { result ≡ false
            → length (string_bytes self.now.text) < max_group_bytes }
    {
        self.number - first >= MAX_GROUP_LINES
            || self.engine.staged_len() >= MAX_GROUP_BYTES
            || self.text.len() as u64 >= MAX_GROUP_BYTES
    }

    // Puts the records of the lines on the disk, and then writes their replies.
    fn settle<K: Sink, D: Disk>(self, out: &mut K, disk: &mut D) -> Result<Engine, EarlyEnd>
        requires { D.tells → (bodies : List (List ℕ)) × (more : List (List ℕ))
            × IsAhead D.Disk disk.old self.engine bodies more }
        ensures settles { SettlesGroup D.Disk K.tells self disk.old disk.new (K.written out.old)
            (K.written out.new) result }
        ensures cause { HasCause K.Sink D.Disk never_read by_disk out.old out.new
            disk.old disk.new result }
    {
        let Group { engine, text, .. } = self;
        let engine = match engine.commit(disk) {
            Ok(engine) => engine,
            Err(stop) => return Err(EarlyEnd::Work(stop)),
        };
        match write_all(out, text.as_bytes()) {
            Ok(()) => Ok(engine),
            Err(_) => Err(EarlyEnd::Sink),
        }
    }
}
