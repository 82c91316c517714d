ghost use Rattle.std.specs.Prelude.{◌≡◌, ◌<◌, ◌≤◌, length, take, min, vec_len};
ghost use Rattle.std.specs.Prelude.{IfOk, OnErr, MatchResult};
ghost use Rattle.rx_outside.specs.Calls.{Answers, Fails};
ghost use Rattle.rx_outside.specs.Failed.{Rises};
ghost use Rattle.rx_outside.specs.Source.{Gives};

use crate::calls::Calls;
use crate::failed::Failed;
use crate::source::Source;

/// For tests: a source over bytes in memory.
#[derive(Debug, Drop)]
pub struct MemorySource {
    bytes: Vec<u8>,
    at: usize,
    piece: usize,
    calls: Calls,
    ghost within: { at ≤ vec_len bytes },
    ghost some: { 0 < piece },
}

impl MemorySource {
    ghost use Rattle.rx_outside.specs.MemorySource.{source_left, source_piece, source_calls};

    /// Gives these bytes, at most `piece` of them a call. The calls whose numbers, counted from 1,
    /// stand in `fails` fail.
    pub fn new(bytes: Vec<u8>, piece: usize, fails: Vec<u64>) -> MemorySource
        requires { 0 < piece }
        ensures left { source_left result ≡ bytes.items }
        ensures piece { source_piece result ≡ piece }
        ensures calls { source_calls result
            ≡ record { fails = fails; made = 0; failed = 0; starved = 0 } }
    {
        MemorySource {
            bytes,
            at: 0,
            piece,
            calls: Calls::new(fails),
        }
    }

    /// The bytes not yet given.
    pub fn bytes(&self) -> &[u8]
        ensures { result.now ≡ source_left self.now }
    {
        self.bytes.as_slice().split_at(self.at).1
    }

    /// How many calls failed for want of memory. A source takes none.
    pub fn starved(&self) -> u64
        ensures { result ≡ 0 }
    {
        0
    }
}

impl Source for MemorySource {
    ghost use Rattle.rx_outside.specs.MemorySource.{source_left, source_piece, source_calls, source_faults};

    ghost tells = { Unit };

    ghost left = { source_left };

    ghost faults = { source_faults };

    fn read(&mut self, into: &mut [u8]) -> Result<usize, Failed>
        ensures within { IfOk result (λ n. n ≤ length into.new) }
        ensures gives { Unit →
            IfOk result (λ n. Gives (source_left self.old) (source_left self.new) n into.new) }
        ensures keeps { Unit → OnErr result (source_left self.new ≡ source_left self.old) }
        ensures count { source_faults self.old ≤ source_faults self.new }
        ensures failed { OnErr result (Rises (source_faults self.old) (source_faults self.new)) }

        // How many bytes a call gives, and that one fails where it is to fail alone.
        ensures amount { IfOk result (λ n. n ≡ min (source_piece self.old)
            (min (length into.new) (length (source_left self.old)))) }
        ensures counts { MatchResult result
            (λ _. Answers (source_calls self.old) (source_calls self.new))
            (λ _. Fails (source_calls self.old) (source_calls self.new)) }
        ensures same_piece { source_piece self.new ≡ source_piece self.old }
    {
        if self.calls.begin() {
            self.calls.fail();
            return Err(Failed);
        }
        let count = copy_front(self.bytes(), into, self.piece);
        self.at += count;
        Ok(count)
    }
}

// Copies bytes from the front, at most `most` of them, and answers how many.
pub(crate) fn copy_front(from: &[u8], into: &mut [u8], most: usize) -> usize
    ensures count { result ≡ min most (min (length into.new) (length from.now)) }
    ensures copied { take result into.new ≡ take result from.now }
{
    let count = from.len().min(into.len()).min(most);
    into[..count].copy_from_slice(&from[..count]);
    count
}
