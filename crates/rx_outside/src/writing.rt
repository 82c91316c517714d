ghost use Rattle.std.specs.Prelude.{◌≡◌, ◌≤◌, ◌++◌, OnOk, OnErr};
ghost use Rattle.rx_outside.specs.Failed.{Rises};
ghost use Rattle.rx_outside.specs.Sink.{WritesFront};

use crate::failed::Failed;
use crate::sink::Sink;

/// Writes all of the bytes, in as few writes as the sink takes. It ends at the first that fails.
pub fn write_all<K: Sink>(sink: &mut K, bytes: &[u8]) -> Result<(), Failed>
    ensures ok { K.tells → OnOk result (K.written sink.new ≡ K.written sink.old ++ bytes.now) }
    ensures err { K.tells →
        OnErr result (WritesFront (K.written sink.old) (K.written sink.new) bytes.now) }
    ensures count { K.faults sink.old ≤ K.faults sink.new }
    ensures failed { OnErr result (Rises (K.faults sink.old) (K.faults sink.new)) }
{
    let mut rest = bytes;
    'writes: while !rest.is_empty() {
        let taken = sink.write(rest)?;
        rest = rest.split_at(taken).1;
    }
    Ok(())
}
