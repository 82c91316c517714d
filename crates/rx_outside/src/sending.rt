ghost use Rattle.std.specs.Prelude.{◌≡◌, ◌≤◌, ◌++◌, OnOk, OnErr};
ghost use Rattle.rx_outside.specs.Failed.{Rises};
ghost use Rattle.rx_outside.specs.Sink.{WritesFront};

use crate::failed::Failed;
use crate::wire::Wire;

/// Sends all of the bytes, in as few calls as the wire takes. It ends at the first that fails.
pub fn send_all<W: Wire>(wire: &mut W, bytes: &[u8]) -> Result<(), Failed>
    ensures ok { W.tells → OnOk result (W.sent wire.new ≡ W.sent wire.old ++ bytes.now) }
    ensures err { W.tells →
        OnErr result (WritesFront (W.sent wire.old) (W.sent wire.new) bytes.now) }
    ensures same_given { W.tells → W.given wire.new ≡ W.given wire.old }
    ensures same_left { W.tells → W.left wire.new ≡ W.left wire.old }
    ensures count { W.faults wire.old ≤ W.faults wire.new }
    ensures failed { OnErr result (Rises (W.faults wire.old) (W.faults wire.new)) }
{
    let mut rest = bytes;
    'sends: while !rest.is_empty() {
        let taken = wire.send(rest)?;
        rest = rest.split_at(taken).1;
    }
    Ok(())
}
