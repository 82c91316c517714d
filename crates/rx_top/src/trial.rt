// The command `trial`: a script that is drawn from a seed is played over a journal, and summed up.
ghost use Rattle.std.specs.Prelude.{◌≡◌, ◌<◌, ◌≤◌, ◌^◌, ℕ, List, All, length, false, IfOk, OnOk, IsErrOf, string_bytes};
ghost use Rattle.std.specs.Result.{result_err};
ghost use Rattle.rx_engine.specs.Engine.{IsAt, standing_of};
ghost use Rattle.rx_engine.specs.Opening.{host_of};
ghost use Rattle.rx_handler.specs.Shown.{kinds_of};
ghost use Rattle.rx_journal.specs.Reading.{IsUntouched};
ghost use Rattle.rx_outside.specs.declared.stop.Stop.TheVariants as stop;
ghost use Rattle.rx_store.specs.Holds.{IsIllegalFile, IsJournalOfSome};
ghost use Rattle.rx_store.specs.Safe.{HasDiskCause};
ghost use Rattle.rx_sync.specs.Remote.{Heard};
ghost use Rattle.rx_trial.specs.Lines.{script};
ghost use Rattle.rx_top.specs.Hears.{HearsAll, stands};
ghost use Rattle.rx_top.specs.Lines.{is_blank};
ghost use Rattle.rx_top.specs.Chunks.{singly};
ghost use Rattle.rx_top.specs.Run.{KeepsFrom, FromOpening};
ghost use Rattle.rx_top.specs.Tally.{ComesTo, summary_of};
ghost use Rattle.rx_top.specs.TriesScript.{DoesLines, TriesScript, as_run};

use crate::tally::Tally;
use crate::telling::tell;
use rx_disk::Disk;
use rx_engine::Engine;
use rx_handler::Handlers;
use rx_outside::{Dial, Sink, Stop};
use rx_trial::Generator;
use rx_update::Hooks;
use std::alloc::Global;

/// Plays the script of a seed, with so many lines of its own, over the journal that the disk is,
/// writes its summary, and answers the status.
pub(crate) fn trial<K: Sink, D: Disk, N: Dial>(
    alloc: Global,
    limit: u64,
    seed: u64,
    count: u32,
    out: &mut K,
    disk: &mut D,
    dial: &mut N,
    handlers: &Handlers,
    hooks: &Hooks,
) -> u8
    requires low { 9 ≤ limit }
    requires high { limit < 2 ^ 32 }
    ensures tries { (heard : List Heard)
        × TriesScript K.Sink D.Disk N.Dial N.W.tells (host_of handlers.now hooks.now)
        heard limit seed count result out.old out.new disk.old disk.new dial.old dial.new }
{
    let told = open_and_play(alloc, limit, seed, count, disk, dial, handlers, hooks);
    tell(out, &told)
}

// Opens the journal, plays the script over it, and sums it up.
fn open_and_play<D: Disk, N: Dial>(
    alloc: Global,
    limit: u64,
    seed: u64,
    count: u32,
    disk: &mut D,
    dial: &mut N,
    handlers: &Handlers,
    hooks: &Hooks,
) -> Result<String, Stop>
    requires low { 9 ≤ limit }
    requires high { limit < 2 ^ 32 }
    // By what was heard of masters elsewhere in all lines, as the dial shows.
    ensures plays { (heard : List Heard) × FromOpening singly (host_of handlers.now hooks.now) heard
        D.Disk disk.old disk.new limit (as_run (result_err result)) (λ s Kept.
        DoesLines (script seed count) (result_err result) (HearsAll N.W.tells s
        (stands N.Dial dial.old) (stands N.Dial dial.new) (as_run (result_err result))) Kept
        × IfOk result (λ text. string_bytes text ≡ summary_of (script seed count) s)) }
    ensures illegal { D.tells → IsIllegalFile (D.content disk.old)
        → IsUntouched D.Disk disk.old disk.new }
    ensures stood { D.tells → OnOk result (IsJournalOfSome (D.content disk.old)) }
    ensures full_stood { D.tells → (would most : ℕ) → IsErrOf result (stop.Full would most)
        → IsJournalOfSome (D.content disk.old) }
    ensures not_journal { D.tells → IsErrOf result stop.NotJournal
        → IsIllegalFile (D.content disk.old) }
    ensures cause { HasDiskCause (D.faults disk.old) (D.faults disk.new) result }
    ensures dial_faults { N.faults dial.old ≤ N.faults dial.new }
{
    let engine = match Engine::open(alloc, disk, limit, hooks) {
        Ok(engine) => engine,
        Err(stop) => return Err(stop),
    };
    let mut lines = Generator::new(seed, count);
    let played = match play_lines(alloc, engine, &mut lines, disk, dial, handlers, hooks) {
        Ok(played) => played,
        Err(stop) => return Err(stop),
    };
    let (engine, tally) = played;
    match tally.summary(alloc, engine) {
        Ok(text) => Ok(text),
        Err(_) => Err(Stop::Memory),
    }
}

// Plays lines to their end, none of which is blank, and tells what they come to.
fn play_lines<D: Disk, N: Dial>(
    alloc: Global,
    first: Engine,
    lines: &mut Generator,
    disk: &mut D,
    dial: &mut N,
    handlers: &Handlers,
    hooks: &Hooks,
) -> Result<(Engine, Tally), Stop>
    requires at { D.tells → (bodies : List (List ℕ)) × IsAt D.Disk disk.old first bodies }
    requires filled { All (λ line. is_blank line ≡ false) lines.old }
    requires few { length lines.old < 2 ^ 63 }
    ensures plays { (heard : List Heard) × DoesLines lines.old (result_err result)
        (HearsAll N.W.tells (standing_of (kinds_of handlers.now) heard first)
        (stands N.Dial dial.old)
        (stands N.Dial dial.new) (as_run (result_err result)))
        (KeepsFrom singly (standing_of (kinds_of handlers.now) heard first)
        D.Disk disk.old disk.new first (as_run (result_err result)))
        × IfOk result (λ p.
        ComesTo lines.old (standing_of (kinds_of handlers.now) heard first) p.0 p.1) }
    ensures not_journal { D.tells → IsErrOf result stop.NotJournal → ⊥ }
    ensures cause { HasDiskCause (D.faults disk.old) (D.faults disk.new) result }
    ensures dial_faults { N.faults dial.old ≤ N.faults dial.new }
{
    let mut engine = first;
    let mut tally = Tally::new();
    'script: loop {
        let line = match lines.next(alloc) {
            Ok(Some(line)) => line,
            Ok(None) => return Ok((engine, tally)),
            Err(_) => return Err(Stop::Memory),
        };
        let number = tally.lines + 1;
        let text = line.as_str().as_bytes();
        let (after, output) = match engine.line(alloc, disk, dial, handlers, hooks, text, number) {
            Ok(pair) => pair,
            Err(stop) => return Err(stop),
        };
        engine = after;
        tally = match tally.with_line(output) {
            Some(tally) => tally,
            None => return Err(Stop::Memory),
        };
    }
}
