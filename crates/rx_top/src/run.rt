// The command `run`: a script is played over a journal.
ghost use Rattle.std.specs.Prelude.{List, ◌<◌, ◌≤◌, ◌^◌};
ghost use Rattle.rx_engine.specs.Opening.{host_of};
ghost use Rattle.rx_journal.specs.Reading.{IsUntouched};
ghost use Rattle.rx_sync.specs.Remote.{Heard};
ghost use Rattle.rx_store.specs.Holds.{IsIllegalFile, IsJournalOfSome};
ghost use Rattle.rx_top.specs.Causes.{HasCause, IsUnopened, by_any, source_failed};
ghost use Rattle.rx_top.specs.Hears.{HearsAll, stands};
ghost use Rattle.rx_top.specs.PlaysScript.{PlaysScript};
ghost use Rattle.rx_top.specs.Chunks.{in_groups};
ghost use Rattle.rx_top.specs.Run.{NeedsJournal, FromOpening, Plays, TakesInput};
ghost use Rattle.rx_top.specs.Script.{line_effect};
ghost use Rattle.rx_top.specs.Start.{FromStart, StaysLegal};
ghost use Rattle.rx_top.specs.Stops.{Appends};
ghost use Rattle.rx_top.specs.Turns.{HoldsOfTurn};

use crate::early_end::{EarlyEnd, ReadFault};
use crate::play::play;
use crate::reader::Reader;
use crate::stop::{status_of, write_end};
use rx_disk::Disk;
use rx_engine::Engine;
use rx_handler::Handlers;
use rx_outside::{Dial, Sink, Source};
use rx_update::Hooks;
use std::alloc::Global;

/// Plays the script that the source gives over the journal that the disk is, and answers its
/// status.
pub(crate) fn run<S: Source, K: Sink, D: Disk, N: Dial>(
    alloc: Global,
    limit: u64,
    source: &mut S,
    out: &mut K,
    disk: &mut D,
    dial: &mut N,
    handlers: &Handlers,
    hooks: &Hooks,
) -> u8
    requires low { 9 ≤ limit }
    requires high { limit < 2 ^ 32 }
    ensures plays { (heard : List Heard)
        × PlaysScript S.Source K.Sink D.Disk N.Dial N.W.tells (host_of handlers.now hooks.now)
        heard limit result
        source.old source.new out.old out.new disk.old disk.new
        dial.old dial.new }
{
    let ended = open_and_play(alloc, limit, source, out, disk, dial, handlers, hooks);
    // The first cause decides the status, so a failure here has none of its own.
    let _ = write_end(out, &ended);
    status_of(&ended)
}

// Opens the journal, and plays the script over it.
fn open_and_play<S: Source, K: Sink, D: Disk, N: Dial>(
    alloc: Global,
    limit: u64,
    source: &mut S,
    out: &mut K,
    disk: &mut D,
    dial: &mut N,
    handlers: &Handlers,
    hooks: &Hooks,
) -> Result<bool, EarlyEnd>
    requires low { 9 ≤ limit }
    requires high { limit < 2 ^ 32 }
    // By what was heard of masters elsewhere in all lines, as the dial shows.
    ensures run { (heard : List Heard) × (S.tells → FromOpening in_groups
        (host_of handlers.now hooks.now) heard D.Disk disk.old disk.new limit result
        (λ s Kept. Plays line_effect HoldsOfTurn K.tells (K.written out.old) (K.written out.new)
        (S.left source.old) (S.left source.new) s result
        (HearsAll N.W.tells s (stands N.Dial dial.old) (stands N.Dial dial.new) result) Kept)) }
    ensures legal { FromStart D.Disk disk.old (λ bodies w.
        StaysLegal D.Disk disk.old disk.new bodies) }
    ensures illegal { D.tells → IsIllegalFile (D.content disk.old)
        → IsUntouched D.Disk disk.old disk.new }
    ensures takes { TakesInput S.Source source.old source.new result }
    ensures told { K.tells → Appends (K.written out.old) (K.written out.new) }
    ensures stood { D.tells → NeedsJournal result → IsJournalOfSome (D.content disk.old) }
    ensures cause { HasCause K.Sink D.Disk (source_failed S.Source source.old source.new)
        (by_any (D.tells
        → IsUnopened K.Sink D.Disk source.old source.new out.old out.new disk.old))
        out.old out.new disk.old disk.new result }
    ensures counts { (S.faults source.old ≤ S.faults source.new)
        × (N.faults dial.old ≤ N.faults dial.new) }
{
    let mut reader = match Reader::new(alloc) {
        Ok(reader) => reader,
        Err(_) => return Err(EarlyEnd::Read(ReadFault::Memory)),
    };
    match Engine::open(alloc, disk, limit, hooks) {
        Ok(engine) => play(
            alloc,
            engine,
            &mut reader,
            source,
            out,
            disk,
            dial,
            handlers,
            hooks,
        ),
        Err(stop) => Err(EarlyEnd::Work(stop)),
    }
}
