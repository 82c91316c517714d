// The lines of a source, which is read in pieces.
ghost use Rattle.rx_serve.specs.Lines.{is_within};
ghost use Rattle.std.specs.Prelude.{◌≡◌, ◌<◌, ◌≤◌, ◌+◌, ◌-◌, ◌++◌, ◌∷◌, ◌⊎◌, ℕ, [], true, false, take, drop, length, IfOk, OnOk, OnErr, IfSome, IfNone, IsErrOf};
ghost use Rattle.rx_script.specs.Line.{max_line_bytes};
ghost use Rattle.rx_top.specs.Causes.{HasReadCause};
ghost use Rattle.rx_top.specs.Reader.{kept_front, max_input_bytes, max_piece_bytes, TakesKept, TakesRead, StopsBy};
ghost use Rattle.rx_top.specs.declared.early_end.ReadFault.{ReadFault};

use crate::early_end::ReadFault;
use memchr::memchr;
use rx_outside::Source;
use rx_script::MAX_LINE_BYTES;
use rx_serve::{PIECE_BYTES, piece_size};
use std::alloc::{AllocError, Global};
use std::marker::Model;

/// The most bytes that an input may have.
const MAX_INPUT_BYTES: u64 = 4_294_967_296;

/// What comes next of an input.
#[derive(Clone, Copy, Debug, PartialEq, Eq)]
pub(crate) enum Next {
    /// A line, and its end.
    Line,
    /// The last line, which has no end.
    Last,
    /// Nothing.
    End,
}

/// Reads a source line by line. Of a line that is too long it keeps one byte more than a line may
/// have, so it never holds more than that and a piece.
#[derive(Drop)]
pub(crate) struct Reader {
    line: Vec<u8>,
    piece: Vec<u8>,
    at: usize,
    given: u64,
}

impl Model for Reader {
    ghost use Rattle.std.specs.Prelude.{drop, vec_len};
    ghost use Rattle.rx_top.specs.Reader.{Reading, IsInBounds};

    ghost Value = { Reading };

    ghost view = { λ r. record {
      line = r.line.items;
      unread = drop r.at r.piece.items;
      given = r.given;
    } };

    ghost invariant = { λ r. IsInBounds r.at (vec_len r.piece) (vec_len r.line) r.given };
}

impl Reader {
    ghost use Rattle.rx_top.specs.Reader.{Advances, Took, rest_of};

    /// Takes all the memory that it will need.
    pub(crate) fn new(alloc: Global) -> Result<Reader, AllocError>
        ensures { IfOk result (λ reader. reader ≡ record { line = []; unread = []; given = 0 }) }
    {
        Ok(Reader {
            line: Vec::with_capacity(alloc, MAX_LINE_BYTES + 1)?,
            piece: Vec::with_capacity(alloc, PIECE_BYTES)?,
            at: 0,
            given: 0,
        })
    }

    /// What was kept of the line that came last.
    pub(crate) fn line(&self) -> &[u8]
        ensures { result.now ≡ self.now.line }
    {
        self.line.as_slice()
    }

    /// Takes the next line of what the source has left. After an `Err` the reader is spent.
    pub(crate) fn next<S: Source>(&mut self, source: &mut S) -> Result<Next, ReadFault>
        ensures next { S.tells → IfOk result (λ next. TakesKept next self.new.line
            (self.old.unread ++ S.left source.old) (self.new.unread ++ S.left source.new)) }
        ensures took { S.tells → OnOk result
            (Took self.old.given (S.left source.old) (S.left source.new)
            (λ n. n ≡ self.new.given)) }
        ensures bounded { OnOk result (self.new.given ≤ max_input_bytes) }
        ensures piece { OnOk result (length self.new.unread ≤ max_piece_bytes) }
        ensures smaller { IfOk result (λ next. next ≡ Next.Line
            → length self.new.unread + self.old.given < length self.old.unread + self.new.given) }
        // No line ended in what was read and not taken.
        ensures stops { S.tells → (why : ReadFault) → IsErrOf result why
            → StopsBy why (self.old.unread ++ S.left source.old) (S.left source.new) }
        ensures within { S.tells → OnErr result ((IsErrOf result ReadFault.TooLong → ⊥)
            → Took self.old.given (S.left source.old) (S.left source.new)
            (λ n. n ≤ max_input_bytes)) }
        ensures too_long { S.tells → IsErrOf result ReadFault.TooLong
            → Took self.old.given (S.left source.old) (S.left source.new)
            (λ n. n ≡ max_input_bytes + 1) }
        ensures cause { HasReadCause (S.faults source.old) (S.faults source.new) result }
    {
        self.line.clear();
        'pieces: loop {
            if self.advance()? {
                return Ok(Next::Line);
            }
            match self.fill(source) {
                Ok(true) => {}
                Ok(false) => return Ok(self.rest()),
                Err(fault) => return Err(fault),
            }
        }
    }

    /// Takes the next line where all of it was read already, and says whether it was: the source
    /// isn't asked. After an `Err` the reader is spent.
    pub(crate) fn take_read(&mut self) -> Result<bool, AllocError>
        ensures given { self.new.given ≡ self.old.given }
        ensures taken { IfOk result (λ found. found ≡ true → TakesRead self.old self.new) }
        ensures none { IfOk result (λ found. found ≡ false → self.new ≡ self.old) }
    {
        let rest = self.piece.as_slice().split_at(self.at).1;
        match line_end(rest) {
            Some(end) => {
                self.line.clear();
                keep(&mut self.line, rest.split_at(end).0)?;
                self.at += end + 1;
                Ok(true)
            }
            None => Ok(false),
        }
    }

    // What there is at the end of the input.
    fn rest(&self) -> Next
        ensures { result ≡ rest_of self.now.line }
    {
        if self.line.is_empty() {
            Next::End
        } else {
            Next::Last
        }
    }

    // Moves what was read to the line, up to its end, and says whether the end was there.
    fn advance(&mut self) -> Result<bool, AllocError>
        ensures given { self.new.given ≡ self.old.given }
        ensures advances { IfOk result (λ found. Advances found self.old self.new) }
    {
        let rest = self.piece.as_slice().split_at(self.at).1;
        match line_end(rest) {
            Some(end) => {
                keep(&mut self.line, rest.split_at(end).0)?;
                self.at += end + 1;
                Ok(true)
            }
            None => {
                keep(&mut self.line, rest)?;
                self.at = self.piece.len();
                Ok(false)
            }
        }
    }

    // Reads a piece more, and says whether there was one.
    fn fill<S: Source>(&mut self, source: &mut S) -> Result<bool, ReadFault>
        ensures line { self.new.line ≡ self.old.line }
        ensures more { S.tells
            → OnOk result (S.left source.old ≡ self.new.unread ++ S.left source.new) }
        ensures end { S.tells → IfOk result (λ some. some ≡ false → S.left source.old ≡ []) }
        ensures given { OnOk result (self.new.given ≡ self.old.given + length self.new.unread) }
        ensures bounded { OnOk result (self.new.given ≤ max_input_bytes) }
        ensures piece { OnOk result (length self.new.unread ≤ max_piece_bytes) }
        ensures grows { IfOk result (λ some. some ≡ true → 0 < length self.new.unread) }
        ensures keeps { S.tells → OnErr result ((IsErrOf result ReadFault.TooLong → ⊥)
            → S.left source.new ≡ S.left source.old) }
        // As much was given as an input may have, and one byte more.
        ensures too_long { IsErrOf result ReadFault.TooLong → (self.old.given ≡ max_input_bytes)
            × (S.tells → (b : ℕ) × (S.left source.old ≡ b ∷ S.left source.new)) }
        ensures cause { HasReadCause (S.faults source.old) (S.faults source.new) result }
    {
        let room = MAX_INPUT_BYTES - self.given;
        self.at = 0;
        let n = read_piece(&mut self.piece, room.max(1), source)?;
        if n == 0 {
            return Ok(false);
        }
        if room == 0 {
            return Err(ReadFault::TooLong);
        }
        self.given += n as u64;
        Ok(true)
    }
}

// The place of the first line feed.
fn line_end(bytes: &[u8]) -> Option<usize>
    ensures none { IfNone result (is_within bytes.now ≡ true) }
    ensures within { IfSome result (λ at. at < length bytes.now) }
    ensures line { IfSome result (λ at. is_within (take at bytes.now) ≡ true) }
    ensures end { IfSome result (λ at. bytes.now
        ≡ take at bytes.now ++ 10 ∷ drop (at + 1) bytes.now) }
{
    memchr(b'\n', bytes)
}

// Adds bytes to what is kept of a line.
fn keep(line: &mut Vec<u8>, bytes: &[u8]) -> Result<(), AllocError>
    requires { length line.old.items ≤ max_line_bytes + 1 }
    ensures kept { OnOk result (line.new.items ≡ kept_front (line.old.items ++ bytes.now)) }
    ensures bounded { length line.new.items ≤ max_line_bytes + 1 }
{
    let room = (MAX_LINE_BYTES + 1) - line.len();
    line.extend_from_slice(bytes.split_at(room.min(bytes.len())).0)?;
    Ok(())
}

// Reads a piece of at most so many bytes, and says whether there were some.
fn read_piece<S: Source>(piece: &mut Vec<u8>, most: u64, source: &mut S) -> Result<usize, ReadFault>
    requires { 0 < most }
    ensures count { IfOk result (λ n. (n ≡ length piece.new.items) × (n ≤ most)) }
    ensures piece { length piece.new.items ≤ max_piece_bytes }
    ensures stream { S.tells
        → OnOk result (S.left source.old ≡ piece.new.items ++ S.left source.new) }
    ensures end { S.tells → IfOk result (λ n. n ≡ 0 → S.left source.old ≡ []) }
    ensures keeps { S.tells → OnErr result (S.left source.new ≡ S.left source.old) }
    ensures cause { HasReadCause (S.faults source.old) (S.faults source.new) result }
    ensures others { OnErr result (IsErrOf result ReadFault.Failed
        ⊎ IsErrOf result ReadFault.Memory) }
{
    let size = most.min(piece_size(piece.len()) as u64);
    piece.clear();
    piece.resize(size as usize, 0)?;
    match source.read(piece.as_mut_slice()) {
        Ok(n) => {
            piece.truncate(n);
            Ok(n)
        }
        Err(_) => Err(ReadFault::Failed),
    }
}
