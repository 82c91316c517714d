// The program: a command, and its status.
ghost use Rattle.std.specs.Prelude.{◌≡◌, codes};
ghost use Rattle.rx_engine.specs.Opening.{host_of};
ghost use Rattle.rx_words.specs.Words.{command_of};
ghost use Rattle.rx_top.specs.Program.{Plays, reach};
ghost use Rattle.rx_top.specs.Stops.{EndsWith, stop_line};

use crate::check::check;
use crate::compact::compact;
use crate::run::run;
use crate::serve::{Offer, serve};
use crate::trial::trial;
use rx_disk::Disk;
use rx_handler::Handlers;
use rx_outside::{Clock, Dial, Listen, Sink, Source, write_all};
use rx_update::Hooks;
use rx_words::{Command, Words, command_of};
use std::alloc::Global;

/// Runs a command, and answers its status.
///
/// `run JOURNAL` opens the journal, which is the disk, begins a new epoch, and plays the script
/// that the source gives, a line of JSON a line. The records of a line are on the disk before a
/// byte of its reply is written. A turn whose master is at a port dials it once, and that it is
/// lost ends no run.
///
/// `serve JOURNAL COLLECTION PORT CONNECTIONS` opens the journal, and then the door at that port on
/// loopback, and serves the collection as a master to so many connections, one after another.
///
/// `check JOURNAL` reports what the journal holds, and writes nothing to it.
///
/// `trial JOURNAL SEED COUNT` plays a script that is drawn from the seed over the journal, and sums
/// it up in one line.
///
/// `compact JOURNAL OUT` copies what the journal holds into an empty file, the copy, and leaves the
/// journal as it is.
///
/// | status | what it says |
/// |---|---|
/// | 0 | the work was done to its end |
/// | 1 | a script was played to its end, and a line was refused |
/// | 2 | the words are no command |
/// | 3 | the disk failed |
/// | 4 | the source failed, or the door |
/// | 5 | the sink failed |
/// | 6 | memory ran out |
/// | 7 | the file is no journal |
/// | 8 | a record would end past the limit of the journal |
/// | 9 | the source gave more than 4,294,967,296 bytes |
/// | 10 | the collection to be served isn't held, or is a fork |
/// | 11 | the file for a copy holds a byte |
/// | 12 | the journal's epoch is too great for a copy |
///
/// From 2 on but for 5, the last line written tells the cause.
pub fn rx<S: Source, K: Sink, D: Disk, L: Listen, N: Dial, C: Clock, E: Disk>(
    alloc: Global,
    words: &Words,
    source: &mut S,
    out: &mut K,
    disk: &mut D,
    door: &mut L,
    dial: &mut N,
    clock: &mut C,
    handlers: &Handlers,
    hooks: &Hooks,
    copy: &mut E,
) -> u8
    ensures { Plays S.Source K.Sink D.Disk L.Listen L.W.tells N.Dial N.W.tells C.Clock E.Disk
        (host_of handlers.now hooks.now) result out.old out.new
        (reach source.old disk.old door.old dial.old clock.old copy.old)
        (reach source.new disk.new door.new dial.new clock.new copy.new)
        (command_of words.now.words.items) }
{
    match command_of(alloc, words) {
        Ok(Some(command)) => match command {
            Command::Run { limit, .. } => run(
                alloc, limit, source, out, disk, dial, handlers, hooks,
            ),
            Command::Serve {
                collection,
                port,
                connections,
                limit,
                ..
            } => {
                let offer = Offer {
                    collection: collection.as_str(),
                    port,
                    connections,
                };
                serve(alloc, limit, &offer, out, disk, door, clock)
            }
            Command::Check { .. } => check(alloc, out, disk),
            Command::Trial {
                seed,
                count,
                limit,
                ..
            } => trial(alloc, limit, seed, count, out, disk, dial, handlers, hooks),
            Command::Compact { limit, .. } => compact(alloc, limit, out, disk, copy),
        },
        Ok(None) => write_usage(out),
        Err(_) => {
            // The status is decided, so a failure here has none of its own.
            let _ = write_all(out, b"{\"stop\":\"memory\"}\n");
            6
        }
    }
}

// Writes that the words are no command, and answers its status.
fn write_usage<K: Sink>(out: &mut K) -> u8
    ensures status { result ≡ 2 }
    ensures line { EndsWith K.tells (K.faults out.old) (K.faults out.new) (K.written out.old)
        (K.written out.new) (stop_line (codes "usage")) }
{
    let _ = write_all(out, b"{\"stop\":\"usage\"}\n");
    2
}
