// The end of a run: its status, and its last line.
ghost use Rattle.std.specs.Prelude.{◌≡◌, ◌≤◌, ◌++◌, decimal, OnOk, OnErr};
ghost use Rattle.rx_outside.specs.Failed.{Rises};
ghost use Rattle.rx_outside.specs.Sink.{WritesFront};
ghost use Rattle.rx_top.specs.Stops.{full_line, last_words, status_of, stop_status, stop_words};

use crate::early_end::{EarlyEnd, ReadFault};
use itoa::Buffer;
use rx_outside::{Failed, Sink, Stop, write_all};

/// The status of a run.
pub(crate) fn status_of(ended: &Result<bool, EarlyEnd>) -> u8
    ensures { result ≡ status_of ended.now }
{
    match ended {
        Ok(false) => 0,
        Ok(true) => 1,
        Err(EarlyEnd::Work(stop)) => stop_status(stop),
        Err(EarlyEnd::Read(ReadFault::Failed)) => 4,
        Err(EarlyEnd::Sink) => 5,
        Err(EarlyEnd::Read(ReadFault::Memory)) => 6,
        Err(EarlyEnd::Read(ReadFault::TooLong)) => 9,
    }
}

/// The status where the work on a journal stopped.
pub(crate) fn stop_status(stop: &Stop) -> u8
    ensures { result ≡ stop_status stop.now }
{
    match stop {
        Stop::Disk => 3,
        Stop::Memory => 6,
        Stop::NotJournal => 7,
        Stop::Full { .. } => 8,
    }
}

/// Writes the last line of a run, or the front of it that the sink takes.
pub(crate) fn write_end<K: Sink>(out: &mut K, ended: &Result<bool, EarlyEnd>) -> Result<(), Failed>
    ensures ok { K.tells
        → OnOk result (K.written out.new ≡ K.written out.old ++ last_words ended.now) }
    ensures err { K.tells → OnErr result
        (WritesFront (K.written out.old) (K.written out.new) (last_words ended.now)) }
    ensures count { K.faults out.old ≤ K.faults out.new }
    ensures failed { OnErr result (Rises (K.faults out.old) (K.faults out.new)) }
{
    match ended {
        Ok(_) => Ok(()),
        Err(EarlyEnd::Sink) => Ok(()),
        Err(EarlyEnd::Work(stop)) => write_stop(out, stop),
        Err(EarlyEnd::Read(ReadFault::Failed)) => write_all(out, b"{\"stop\":\"read\"}\n"),
        Err(EarlyEnd::Read(ReadFault::Memory)) => write_all(out, b"{\"stop\":\"memory\"}\n"),
        Err(EarlyEnd::Read(ReadFault::TooLong)) => write_all(out, b"{\"stop\":\"too_long\"}\n"),
    }
}

/// Writes the line that names a stop of the work on a journal, or the front of it that the sink
/// takes.
pub(crate) fn write_stop<K: Sink>(out: &mut K, stop: &Stop) -> Result<(), Failed>
    ensures ok { K.tells
        → OnOk result (K.written out.new ≡ K.written out.old ++ stop_words stop.now) }
    ensures err { K.tells → OnErr result
        (WritesFront (K.written out.old) (K.written out.new) (stop_words stop.now)) }
    ensures count { K.faults out.old ≤ K.faults out.new }
    ensures failed { OnErr result (Rises (K.faults out.old) (K.faults out.new)) }
{
    match stop {
        Stop::Disk => write_all(out, b"{\"stop\":\"disk\"}\n"),
        Stop::NotJournal => write_all(out, b"{\"stop\":\"not_journal\"}\n"),
        Stop::Full { would, limit } => write_full(out, *would, *limit),
        Stop::Memory => write_all(out, b"{\"stop\":\"memory\"}\n"),
    }
}

fn write_full<K: Sink>(out: &mut K, would: u64, limit: u64) -> Result<(), Failed>
    ensures ok { K.tells
        → OnOk result (K.written out.new ≡ K.written out.old ++ full_line would limit) }
    ensures err { K.tells → OnErr result
        (WritesFront (K.written out.old) (K.written out.new) (full_line would limit)) }
    ensures count { K.faults out.old ≤ K.faults out.new }
    ensures failed { OnErr result (Rises (K.faults out.old) (K.faults out.new)) }
{
    write_number(out, b"{\"limit\":", limit)?;
    write_number(out, b",\"stop\":\"full\",\"would\":", would)?;
    write_all(out, b"}\n")
}

/// Writes a label and a number behind it.
pub(crate) fn write_number<K: Sink>(out: &mut K, label: &[u8], number: u64) -> Result<(), Failed>
    ensures ok { K.tells
        → OnOk result (K.written out.new ≡ K.written out.old ++ (label.now ++ decimal number)) }
    ensures err { K.tells → OnErr result
        (WritesFront (K.written out.old) (K.written out.new) (label.now ++ decimal number)) }
    ensures count { K.faults out.old ≤ K.faults out.new }
    ensures failed { OnErr result (Rises (K.faults out.old) (K.faults out.new)) }
{
    write_all(out, label)?;
    write_all(out, Buffer::new().format(number).as_bytes())
}
