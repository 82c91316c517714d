// The command `compact`: a journal of the same world is made.
ghost use Rattle.std.specs.Prelude.{◌≡◌, ◌≤◌, ◌<◌, ◌++◌, ◌^◌, OnOk, OnErr};
ghost use Rattle.rx_outside.specs.Failed.{Rises};
ghost use Rattle.rx_outside.specs.Sink.{WritesFront};
ghost use Rattle.rx_top.specs.CopiesJournal.{CopiesJournal, fault_status, fault_words, made_line};

use crate::stop::{stop_status, write_number, write_stop};
use rx_compact::{CompactFault, Compacted};
use rx_disk::Disk;
use rx_journal::SHORTEST;
use rx_outside::{Failed, Sink, write_all};
use std::alloc::Global;

/// Copies the journal that the first disk is to the second one, and answers the status.
pub(crate) fn compact<K: Sink, D: Disk, E: Disk>(
    alloc: Global,
    limit: u64,
    out: &mut K,
    disk: &mut D,
    copy: &mut E,
) -> u8
    requires low { SHORTEST ≤ limit }
    requires high { limit < 2 ^ 32 }
    ensures copies { CopiesJournal K.Sink D.Disk E.Disk limit result out.old out.new disk.old
        disk.new copy.old copy.new }
{
    match rx_compact::compact(alloc, disk, copy, limit) {
        Ok(made) => match write_made(out, &made) {
            Ok(()) => 0,
            Err(_) => 5,
        },
        Err(fault) => {
            // The status is decided, so a failure here has none of its own.
            let _ = write_fault(out, &fault);
            fault_status(&fault)
        }
    }
}

fn fault_status(fault: &CompactFault) -> u8
    ensures { result ≡ fault_status fault.now }
{
    match fault {
        CompactFault::Exists => 11,
        CompactFault::Epoch => 12,
        CompactFault::Stopped(stop) => stop_status(stop),
    }
}

fn write_fault<K: Sink>(out: &mut K, fault: &CompactFault) -> Result<(), Failed>
    ensures ok { K.tells
        → OnOk result (K.written out.new ≡ K.written out.old ++ fault_words fault.now) }
    ensures err { K.tells → OnErr result
        (WritesFront (K.written out.old) (K.written out.new) (fault_words fault.now)) }
    ensures count { K.faults out.old ≤ K.faults out.new }
    ensures failed { OnErr result (Rises (K.faults out.old) (K.faults out.new)) }
{
    match fault {
        CompactFault::Exists => write_all(out, b"{\"stop\":\"exists\"}\n"),
        CompactFault::Epoch => write_all(out, b"{\"stop\":\"epoch\"}\n"),
        CompactFault::Stopped(stop) => write_stop(out, stop),
    }
}

fn write_made<K: Sink>(out: &mut K, made: &Compacted) -> Result<(), Failed>
    ensures ok { K.tells → OnOk result (K.written out.new ≡ K.written out.old
        ++ made_line made.now.copied.end made.now.from made.now.copied.records) }
    ensures err { K.tells → OnErr result (WritesFront (K.written out.old) (K.written out.new)
        (made_line made.now.copied.end made.now.from made.now.copied.records)) }
    ensures count { K.faults out.old ≤ K.faults out.new }
    ensures failed { OnErr result (Rises (K.faults out.old) (K.faults out.new)) }
{
    write_number(out, b"{\"bytes\":", made.copied.end)?;
    write_number(out, b",\"from\":", made.from)?;
    write_number(out, b",\"records\":", made.copied.records)?;
    write_all(out, b"}\n")
}
