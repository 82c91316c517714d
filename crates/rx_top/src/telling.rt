// The end of a command that comes to one text or stops.
ghost use Rattle.std.specs.Prelude.{◌≤◌, MatchResult, string_bytes};
ghost use Rattle.rx_top.specs.Tells.{TellsStop, TellsText};

use crate::stop::{stop_status, write_stop};
use rx_outside::{Sink, Stop, write_all};

/// Writes the text, or the line of the stop, and answers the status.
pub(crate) fn tell<K: Sink>(out: &mut K, told: &Result<String, Stop>) -> u8
    ensures told { MatchResult told.now
        (λ text. TellsText K.tells (K.faults out.old) (K.faults out.new) (K.written out.old)
        (K.written out.new) result (string_bytes text))
        (λ stop. TellsStop K.tells (K.faults out.old) (K.faults out.new) (K.written out.old)
        (K.written out.new) result stop) }
    ensures sink_faults { K.faults out.old ≤ K.faults out.new }
{
    match told {
        Ok(text) => match write_all(out, text.as_bytes()) {
            Ok(()) => 0,
            Err(_) => 5,
        },
        Err(stop) => {
            // The status is decided, so a failure here has none of its own.
            let _ = write_stop(out, stop);
            stop_status(stop)
        }
    }
}
