// The lines of a wire, which is received in pieces.
ghost use Rattle.std.specs.Prelude.{◌≡◌, ◌<◌, ◌≤◌, ◌+◌, ◌-◌, ◌++◌, ◌∷◌, [], true, false, take, drop, length, IfOk, OnOk, OnErr, IfSome, IfNone, IsErrOf};
ghost use Rattle.rx_outside.specs.Failed.{Rises};
ghost use Rattle.rx_serve.specs.Incoming.{IsNext, Advances};
ghost use Rattle.rx_serve.specs.Lines.{is_within};
ghost use Rattle.rx_wire.specs.Limits.{longest_line};

use crate::piece::{PIECE_BYTES, piece_size};
use memchr::memchr;
use rx_outside::Wire;
use rx_wire::LONGEST_LINE;
use std::alloc::{AllocError, Global};
use std::marker::Model;

/// What comes next on a wire.
#[derive(Clone, Copy, Debug, PartialEq, Eq)]
pub(crate) enum Next {
    /// A line, which ended.
    Line,
    /// More bytes than a line may have, and no end among them.
    TooLong,
    /// Nothing, and no line ends in what came.
    End,
}

/// Why nothing more can be had of a wire.
#[derive(Clone, Copy, Debug, PartialEq, Eq)]
pub(crate) enum ReadFault {
    Wire,
    Memory,
}

impl From<AllocError> for ReadFault {
    ghost use Rattle.std.specs.Prelude.{◌≡◌};
    ghost use Rattle.rx_serve.specs.declared.incoming.ReadFault.TheVariants.{Memory};

    ghost from_gives = { λ _ e. e ≡ Memory };

    fn from(_refused: AllocError) -> ReadFault {
        ReadFault::Memory
    }
}

/// Receives line by line. It never holds more than the longest line and a piece: a line is moved
/// on, and never looked through twice.
#[derive(Drop)]
pub(crate) struct Incoming {
    line: Vec<u8>,
    piece: Vec<u8>,
    at: usize,
}

impl Model for Incoming {
    ghost use Rattle.std.specs.Prelude.{drop, vec_len};
    ghost use Rattle.rx_serve.specs.Incoming.{Received, IsInBounds};

    ghost Value = { Received };

    ghost view = { λ i. record { line = i.line.items; unread = drop i.at i.piece.items } };

    ghost invariant = { λ i. IsInBounds i.at (vec_len i.piece) (vec_len i.line) };
}

impl Incoming {
    /// Nothing was received. The line has a piece's room at first and doubles it, so that it never
    /// has more than the longest line needs.
    pub(crate) fn new(alloc: Global) -> Result<Incoming, AllocError>
        ensures { IfOk result (λ i. i ≡ record { line = []; unread = [] }) }
    {
        Ok(Incoming {
            line: Vec::with_capacity(alloc, PIECE_BYTES)?,
            piece: Vec::with_capacity(alloc, PIECE_BYTES)?,
            at: 0,
        })
    }

    /// The line that came last.
    pub(crate) fn line(&self) -> &[u8]
        ensures { result.now ≡ self.now.line }
    {
        self.line.as_slice()
    }

    /// Takes the next line of what the wire has left. After anything but a line it is spent.
    pub(crate) fn next<W: Wire>(&mut self, wire: &mut W) -> Result<Next, ReadFault>
        ensures next { W.tells → IfOk result (λ next. IsNext next self.new.line
            (self.old.unread ++ W.left wire.old) (self.new.unread ++ W.left wire.new)) }
        ensures whole { W.tells →
            W.given wire.new ++ W.left wire.new ≡ W.given wire.old ++ W.left wire.old }
        ensures same_sent { W.tells → W.sent wire.new ≡ W.sent wire.old }
        ensures count { W.faults wire.old ≤ W.faults wire.new }
        ensures failed { IsErrOf result ReadFault.Wire
            → Rises (W.faults wire.old) (W.faults wire.new) }
    {
        self.line.clear();
        'pieces: loop {
            match self.advance()? {
                Some(next) => return Ok(next),
                None => {}
            }
            match self.fill(wire) {
                Ok(true) => {}
                Ok(false) => return Ok(Next::End),
                Err(fault) => return Err(fault),
            }
        }
    }

    // Moves what was received to the line, up to its end, and says what there is if that is known.
    fn advance(&mut self) -> Result<Option<Next>, AllocError>
        ensures { IfOk result (λ next. Advances next self.old self.new) }
    {
        let rest = self.piece.as_slice().split_at(self.at).1;
        match line_end(rest) {
            Some(end) => {
                if !keep(&mut self.line, rest.split_at(end).0)? {
                    return Ok(Some(Next::TooLong));
                }
                self.at += end + 1;
                Ok(Some(Next::Line))
            }
            None => {
                if !keep(&mut self.line, rest)? {
                    return Ok(Some(Next::TooLong));
                }
                self.at = self.piece.len();
                Ok(None)
            }
        }
    }

    // Receives a piece more, and says whether there was one.
    fn fill<W: Wire>(&mut self, wire: &mut W) -> Result<bool, ReadFault>
        ensures line { self.new.line ≡ self.old.line }
        ensures more { W.tells →
            OnOk result (W.left wire.old ≡ self.new.unread ++ W.left wire.new) }
        ensures some { IfOk result (λ some. some ≡ true → 0 < length self.new.unread) }
        ensures end { W.tells → IfOk result (λ some. some ≡ false → W.left wire.old ≡ []) }
        ensures whole { W.tells →
            W.given wire.new ++ W.left wire.new ≡ W.given wire.old ++ W.left wire.old }
        ensures same_sent { W.tells → W.sent wire.new ≡ W.sent wire.old }
        ensures count { W.faults wire.old ≤ W.faults wire.new }
        ensures failed { IsErrOf result ReadFault.Wire
            → Rises (W.faults wire.old) (W.faults wire.new) }
    {
        self.at = 0;
        let size = piece_size(self.piece.len());
        self.piece.clear();
        self.piece.resize(size, 0)?;
        match wire.receive(self.piece.as_mut_slice()) {
            Ok(count) => {
                self.piece.truncate(count);
                Ok(count > 0)
            }
            Err(_) => Err(ReadFault::Wire),
        }
    }
}

// The place of the first line feed.
fn line_end(bytes: &[u8]) -> Option<usize>
    ensures none { IfNone result (is_within bytes.now ≡ true) }
    ensures within { IfSome result (λ at. at < length bytes.now) }
    ensures line { IfSome result (λ at. is_within (take at bytes.now) ≡ true) }
    ensures end { IfSome result (λ at.
        bytes.now ≡ take at bytes.now ++ 10 ∷ drop (at + 1) bytes.now) }
{
    memchr(b'\n', bytes)
}

// Adds bytes to a line, and says whether there is room for them.
fn keep(line: &mut Vec<u8>, bytes: &[u8]) -> Result<bool, AllocError>
    requires { length line.old.items ≤ longest_line }
    ensures kept { IfOk result (λ room. room ≡ true
        → line.new.items ≡ line.old.items ++ bytes.now) }
    ensures long { IfOk result (λ room. room ≡ false
        → longest_line < length line.old.items + length bytes.now) }
    ensures bounded { length line.new.items ≤ longest_line }
{
    if bytes.len() > LONGEST_LINE - line.len() {
        return Ok(false);
    }
    line.extend_from_slice(bytes)?;
    Ok(true)
}
