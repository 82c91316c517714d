ghost use Rattle.std.specs.Prelude.{◌≡◌, ◌≤◌, ◌<◌, ◌⊎◌, ◌++◌, ◌∷◌, [], length, OnOk, OnErr, IfOk, IsErrOf};
ghost use Rattle.rx_outside.specs.Failed.{Rises};
ghost use Rattle.rx_outside.specs.Sink.{WritesFront};
ghost use Rattle.rx_serve.specs.Calling.{IsFirstLine, IsNoLine, IsTooLong, IsNextByte, IsPart};
ghost use Rattle.rx_serve.specs.Served.{as_line};

use crate::sending::send_line;
use rx_outside::Wire;
use rx_wire::LONGEST_LINE;
use std::alloc::{AllocError, AllocFailed, Global};
use thiserror::Error;

/// Why a call over a wire got no line.
#[derive(Clone, Copy, Debug, Drop, Error, PartialEq, Eq)]
pub enum CallFault {
    #[error("the wire failed")]
    Wire,
    #[error("the peer ended before its line did")]
    End,
    #[error("the peer's line is too long")]
    TooLong,
    #[error("out of memory")]
    Memory,
}

impl From<AllocError> for CallFault {
    ghost use Rattle.std.specs.Prelude.{◌≡◌};
    ghost use Rattle.rx_serve.specs.declared.calling.CallFault.TheVariants.{Memory};

    ghost from_gives = { λ _ e. e ≡ Memory };

    fn from(_refused: AllocError) -> CallFault {
        CallFault::Memory
    }
}

impl<T: Drop> From<AllocFailed<T>> for CallFault {
    ghost use Rattle.std.specs.Prelude.{◌≡◌};
    ghost use Rattle.rx_serve.specs.declared.calling.CallFault.TheVariants.{Memory};

    ghost from_gives = { λ _ e. e ≡ Memory };

    fn from(_refused: AllocFailed<T>) -> CallFault {
        CallFault::Memory
    }
}

/// Sends a line, and gives the peer's next line without its end. Nothing behind that end is
/// received, so that what the wire gave is exactly what was looked at.
pub fn call<W: Wire>(alloc: Global, wire: &mut W, line: &[u8]) -> Result<Vec<u8>, CallFault>
    ensures line { W.tells →
        IfOk result (λ l. IsFirstLine l.items (W.left wire.old) (W.left wire.new)) }
    ensures end { W.tells → IsErrOf result CallFault.End
        → IsNoLine (W.left wire.old) (W.left wire.new) }
    ensures too_long { W.tells → IsErrOf result CallFault.TooLong
        → IsTooLong (W.left wire.old) (W.left wire.new) }
    ensures part { W.tells → IsErrOf result CallFault.Wire
        → IsPart (W.left wire.old) (W.left wire.new) }
    ensures failed { IsErrOf result CallFault.Wire → Rises (W.faults wire.old) (W.faults wire.new) }
    ensures sent { W.tells → OnOk result (W.sent wire.new ≡ W.sent wire.old ++ as_line line.now) }
    ensures asked { W.tells → IsErrOf result CallFault.End ⊎ IsErrOf result CallFault.TooLong
        → W.sent wire.new ≡ W.sent wire.old ++ as_line line.now }
    ensures cut { W.tells →
        OnErr result (WritesFront (W.sent wire.old) (W.sent wire.new) (as_line line.now)) }
    ensures whole { W.tells →
        W.given wire.new ++ W.left wire.new ≡ W.given wire.old ++ W.left wire.old }
    ensures count { W.faults wire.old ≤ W.faults wire.new }
{
    if !send_line(alloc, line, wire)? {
        return Err(CallFault::Wire);
    }
    receive_line(alloc, wire)
}

// The next line, byte by byte.
fn receive_line<W: Wire>(alloc: Global, wire: &mut W) -> Result<Vec<u8>, CallFault>
    ensures line { W.tells →
        IfOk result (λ l. IsFirstLine l.items (W.left wire.old) (W.left wire.new)) }
    ensures end { W.tells → IsErrOf result CallFault.End
        → IsNoLine (W.left wire.old) (W.left wire.new) }
    ensures too_long { W.tells → IsErrOf result CallFault.TooLong
        → IsTooLong (W.left wire.old) (W.left wire.new) }
    ensures part { W.tells → IsErrOf result CallFault.Wire
        → IsPart (W.left wire.old) (W.left wire.new) }
    ensures failed { IsErrOf result CallFault.Wire → Rises (W.faults wire.old) (W.faults wire.new) }
    ensures same_sent { W.tells → W.sent wire.new ≡ W.sent wire.old }
    ensures whole { W.tells →
        W.given wire.new ++ W.left wire.new ≡ W.given wire.old ++ W.left wire.old }
    ensures count { W.faults wire.old ≤ W.faults wire.new }
{
    let mut line = Vec::new(alloc);
    'bytes: loop {
        match receive_byte(wire)? {
            None => return Err(CallFault::End),
            Some(b'\n') => return Ok(line),
            Some(_) if line.len() == LONGEST_LINE => return Err(CallFault::TooLong),
            Some(byte) => line.push(byte)?,
        }
    }
}

// The next byte, if there is one.
fn receive_byte<W: Wire>(wire: &mut W) -> Result<Option<u8>, CallFault>
    ensures byte { W.tells →
        IfOk result (λ byte. IsNextByte byte (W.left wire.old) (W.left wire.new)) }
    ensures keeps { W.tells → OnErr result (W.left wire.new ≡ W.left wire.old) }
    ensures failed { OnErr result (Rises (W.faults wire.old) (W.faults wire.new)) }
    ensures fault { OnErr result (IsErrOf result CallFault.Wire) }
    ensures same_sent { W.tells → W.sent wire.new ≡ W.sent wire.old }
    ensures whole { W.tells →
        W.given wire.new ++ W.left wire.new ≡ W.given wire.old ++ W.left wire.old }
    ensures count { W.faults wire.old ≤ W.faults wire.new }
{
    let mut piece = [0u8; 1];
    match wire.receive(&mut piece) {
        Ok(0) => Ok(None),
        Ok(_) => Ok(Some(piece[0])),
        Err(_) => Err(CallFault::Wire),
    }
}
