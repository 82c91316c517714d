ghost use Rattle.std.specs.Prelude.{◌≡◌, ◌+◌, ◌++◌, ◌∷◌, ℕ, List, true, length, min, IfSome, IfNone};
ghost use Rattle.std.specs.Duration.{as_nanos, max_nanos};
ghost use Rattle.rx_outside.specs.Failed.{last_count};
ghost use Rattle.rx_outside.specs.Waiting.{call_seconds, ends_none, moved, waited};

use memchr::memrchr;
use std::time::Duration;

/// How many seconds a call waits for the peer, and a message has besides those for its bytes.
pub const WIRE_SECONDS: u64 = 60;

/// For so many bytes a message has a second more.
pub const BYTES_A_SECOND: u64 = 65_536;

// What makes a whole second of a part of one.
const ROUNDING_NANOS: u64 = 999_999_999;

/// How long the peer was waited for within the message in play, and how many of its bytes moved.
#[derive(Clone, Copy, Debug)]
pub struct Waiting {
    waited: Duration,
    moved: u64,
}

impl Waiting {
    /// A message begins.
    pub fn new() -> Waiting
        ensures waited { waited result ≡ 0 }
        ensures moved { moved result ≡ 0 }
    {
        Waiting {
            waited: Duration::ZERO,
            moved: 0,
        }
    }

    /// How many seconds the next call may wait, or none where the message's time is spent.
    pub fn limit(&self) -> Option<u64>
        ensures { result ≡ call_seconds self.now }
    {
        let seconds = WIRE_SECONDS + self.moved / BYTES_A_SECOND;
        let left = Duration::from_secs(seconds).saturating_sub(self.waited);
        if left.is_zero() {
            return None;
        }
        let rounded = left.saturating_add(Duration::from_nanos(ROUNDING_NANOS));
        Some(rounded.as_secs().min(WIRE_SECONDS))
    }

    /// Counts a call that took so long and moved these bytes.
    pub fn pass(&mut self, spent: Duration, bytes: &[u8])
        // The message goes on where none ends in them.
        ensures waits { ends_none bytes.now ≡ true
            → waited self.new ≡ min (waited self.old + as_nanos spent) max_nanos }
        ensures moves { ends_none bytes.now ≡ true
            → moved self.new ≡ min (moved self.old + length bytes.now) last_count }
        // Else the next one begins behind the last end, and nobody was waited for yet.
        ensures begins { (front rest : List ℕ) → bytes.now ≡ front ++ 10 ∷ rest
            → ends_none rest ≡ true → (waited self.new ≡ 0) × (moved self.new ≡ length rest) }
    {
        match bytes_behind(bytes) {
            Some(count) => {
                self.waited = Duration::ZERO;
                self.moved = count as u64;
            }
            None => {
                self.waited = self.waited.saturating_add(spent);
                self.moved = self.moved.saturating_add(bytes.len() as u64);
            }
        }
    }
}

// How many bytes stand behind the last line feed.
fn bytes_behind(bytes: &[u8]) -> Option<usize>
    ensures none { IfNone result (ends_none bytes.now ≡ true) }
    ensures some { IfSome result (λ n. (front rest : List ℕ) → bytes.now ≡ front ++ 10 ∷ rest
        → ends_none rest ≡ true → n ≡ length rest) }
    ensures one { IfSome result (λ n. ends_none bytes.now ≡ true → ⊥) }
{
    match memrchr(b'\n', bytes) {
        Some(at) => Some(bytes.len() - 1 - at),
        None => None,
    }
}
