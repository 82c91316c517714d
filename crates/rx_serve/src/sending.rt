ghost use Rattle.std.specs.Prelude.{◌≡◌, ◌≤◌, ◌++◌, true, false, IfOk, OnErr};
ghost use Rattle.rx_outside.specs.Failed.{Rises};
ghost use Rattle.rx_outside.specs.Sink.{WritesFront};
ghost use Rattle.rx_serve.specs.Served.{as_line};

use rx_outside::{Wire, send_all};
use std::alloc::{AllocError, Global};

/// Sends a text as a line, in one piece, and says whether all of it was sent.
pub(crate) fn send_line<W: Wire>(
    alloc: Global,
    text: &[u8],
    wire: &mut W,
) -> Result<bool, AllocError>
    ensures sent { W.tells → IfOk result (λ all. all ≡ true
        → W.sent wire.new ≡ W.sent wire.old ++ as_line text.now) }
    ensures cut { W.tells → IfOk result (λ all. all ≡ false
        → WritesFront (W.sent wire.old) (W.sent wire.new) (as_line text.now)) }
    ensures none { W.tells → OnErr result (W.sent wire.new ≡ W.sent wire.old) }
    ensures same_given { W.tells → W.given wire.new ≡ W.given wire.old }
    ensures same_left { W.tells → W.left wire.new ≡ W.left wire.old }
    ensures count { W.faults wire.old ≤ W.faults wire.new }
    ensures failed { IfOk result (λ all. all ≡ false
        → Rises (W.faults wire.old) (W.faults wire.new)) }
{
    let mut line = Vec::with_capacity(alloc, text.len().saturating_add(1))?;
    line.extend_from_slice(text)?;
    line.push(b'\n')?;
    match send_all(wire, line.as_slice()) {
        Ok(()) => Ok(true),
        Err(_) => Ok(false),
    }
}
