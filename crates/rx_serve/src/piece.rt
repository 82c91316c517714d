// How much is asked for at once.
ghost use Rattle.std.specs.Prelude.{◌<◌, ◌≤◌};

/// The most bytes that are asked for in one call.
pub const PIECE_BYTES: usize = 65_536;

// The least.
const LEAST_BYTES: usize = 4_096;

/// How many bytes to ask for next, where the call before gave so many: twice as many, within
/// bounds. A piece is cleared before it is filled, so a peer that sends one short line at a time
/// would pay for a whole one each time.
pub fn piece_size(last: usize) -> usize
    ensures some { 0 < result }
    ensures most { result ≤ 65536 }
{
    last.saturating_mul(2).max(LEAST_BYTES).min(PIECE_BYTES)
}
