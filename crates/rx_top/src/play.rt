// Plays a script from its source to its sink, over an open journal.
ghost use Rattle.std.specs.Prelude.{◌≡◌, ◌≤◌, ℕ, List, [], IfOk, OnOk, IsErrOf};
ghost use Rattle.rx_engine.specs.Engine.{IsAt, limit_of, standing_of};
ghost use Rattle.rx_handler.specs.Shown.{kinds_of};
ghost use Rattle.rx_outside.specs.declared.stop.Stop.{Stop};
ghost use Rattle.rx_top.specs.declared.early_end.ReadFault.TheVariants as fault;
ghost use Rattle.rx_top.specs.Causes.{HasCause, by_any, never_read, source_failed};
ghost use Rattle.rx_top.specs.Hears.{HearsAll, stands};
ghost use Rattle.rx_top.specs.Reader.{Took, max_input_bytes};
ghost use Rattle.rx_top.specs.Chunks.{in_groups};
ghost use Rattle.rx_top.specs.Run.{KeepsFrom, Plays};
ghost use Rattle.rx_top.specs.Script.{line_effect};
ghost use Rattle.rx_top.specs.Start.{StaysLegal};
ghost use Rattle.rx_top.specs.Stops.{Appends};
ghost use Rattle.rx_top.specs.Turns.{HoldsOfTurn};
ghost use Rattle.rx_sync.specs.Remote.{Heard};
ghost use Rattle.rx_top.specs.Work.{WorksLine};

use crate::blank::is_blank;
use crate::early_end::EarlyEnd;
use crate::group::play_group;
use crate::reader::{Next, Reader};
use rx_disk::Disk;
use rx_engine::Engine;
use rx_handler::Handlers;
use rx_outside::{Dial, Sink, Source, write_all};
use rx_update::Hooks;
use std::alloc::Global;

/// Plays the lines that the source gives to its end, and says whether one was refused. The reader
/// stands behind a reference, so that no exit drops it.
pub(crate) fn play<S: Source, K: Sink, D: Disk, N: Dial>(
    alloc: Global,
    first: Engine,
    reader: &mut Reader,
    source: &mut S,
    out: &mut K,
    disk: &mut D,
    dial: &mut N,
    handlers: &Handlers,
    hooks: &Hooks,
) -> Result<bool, EarlyEnd>
    requires at { D.tells → (bodies : List (List ℕ)) × IsAt D.Disk disk.old first bodies }
    requires fresh { reader.old ≡ record { line = []; unread = []; given = 0 } }
    // By what was heard of masters elsewhere in all lines, as the dial shows.
    ensures exit { (heard : List Heard) × (S.tells
        → Plays line_effect HoldsOfTurn K.tells (K.written out.old) (K.written out.new)
        (S.left source.old) (S.left source.new) (standing_of (kinds_of handlers.now) heard first)
        result (HearsAll N.W.tells (standing_of (kinds_of handlers.now) heard first)
        (stands N.Dial dial.old) (stands N.Dial dial.new) result)
        (KeepsFrom in_groups (standing_of (kinds_of handlers.now) heard first) D.Disk disk.old
        disk.new first result)) }
    ensures legal { D.tells → (bodies : List (List ℕ)) → IsAt D.Disk disk.old first bodies
        → StaysLegal D.Disk disk.old disk.new bodies }
    ensures told { K.tells → Appends (K.written out.old) (K.written out.new) }
    ensures whole { S.tells → OnOk result (S.left source.new ≡ []) }
    ensures within { S.tells → (IsErrOf result (EarlyEnd.Read fault.TooLong) → ⊥)
        → Took 0 (S.left source.old) (S.left source.new) (λ n. n ≤ max_input_bytes) }
    ensures cause { HasCause K.Sink D.Disk (source_failed S.Source source.old source.new)
        (by_any (D.tells → ⊥)) out.old out.new disk.old disk.new result }
    ensures source_faults { S.faults source.old ≤ S.faults source.new }
    ensures dial_faults { N.faults dial.old ≤ N.faults dial.new }
{
    let mut engine = first;
    let mut number = 0u64;
    let mut refused = false;
    'lines: loop {
        let next = match reader.next(source) {
            Ok(next) => next,
            Err(fault) => return Err(EarlyEnd::Read(fault)),
        };
        if let Next::End = next {
            return Ok(refused);
        }
        let group = match play_group(
            alloc, engine, reader, next, number, out, disk, handlers, hooks,
        ) {
            Ok(group) => group,
            Err(cause) => return Err(cause),
        };
        engine = group.engine;
        number = group.number;
        refused |= group.refused;
        if group.whole {
            continue;
        }
        number += 1;
        let line = reader.line();
        let played = match play_line(
            alloc, engine, line, number, out, disk, dial, handlers, hooks,
        ) {
            Ok(played) => played,
            Err(cause) => return Err(cause),
        };
        engine = played.0;
        refused |= played.1;
        if let Next::Last = next {
            return Ok(refused);
        }
    }
}

// Plays one line and writes its reply, and says whether it was refused.
fn play_line<K: Sink, D: Disk, N: Dial>(
    alloc: Global,
    engine: Engine,
    line: &[u8],
    number: u64,
    out: &mut K,
    disk: &mut D,
    dial: &mut N,
    handlers: &Handlers,
    hooks: &Hooks,
) -> Result<(Engine, bool), EarlyEnd>
    requires { D.tells → (bodies : List (List ℕ)) × IsAt D.Disk disk.old engine bodies }
    // What was heard in it, and by that the next engine, the reply, and the records: what holds at
    // each moment, where the work was done, and where it stopped.
    ensures works { WorksLine D.Disk (kinds_of handlers.now) N.W.tells K.tells number line.now
        engine
        disk.old disk.new
        (stands N.Dial dial.old) (stands N.Dial dial.new) (K.written out.old) (K.written out.new)
        result }
    ensures unsaid { K.tells → (s : Stop) → IsErrOf result (EarlyEnd.Work s)
        → K.written out.new ≡ K.written out.old }
    ensures limit { IfOk result (λ p. limit_of p.0 ≡ limit_of engine) }
    ensures cause { HasCause K.Sink D.Disk never_read (by_any (D.tells → ⊥)) out.old out.new
        disk.old disk.new result }
    ensures dial_faults { N.faults dial.old ≤ N.faults dial.new }
{
    if is_blank(line) {
        return Ok((engine, false));
    }
    let (engine, output) = match engine.line(alloc, disk, dial, handlers, hooks, line, number) {
        Ok(pair) => pair,
        Err(stop) => return Err(EarlyEnd::Work(stop)),
    };
    match write_all(out, output.text.as_bytes()) {
        Ok(()) => Ok((engine, output.refused)),
        Err(_) => Err(EarlyEnd::Sink),
    }
}
