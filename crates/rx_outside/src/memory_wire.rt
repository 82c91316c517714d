ghost use Rattle.std.specs.Prelude.{◌≡◌, ◌<◌, ◌≤◌, ◌++◌, ◌⊎◌, [], true, length, take, min, vec_len};
ghost use Rattle.std.specs.Prelude.{IfOk, OnErr, MatchResult};
ghost use Rattle.rx_outside.specs.Calls.{Answers, Fails, Starves};
ghost use Rattle.rx_outside.specs.Failed.{Rises};
ghost use Rattle.rx_outside.specs.Source.{Gives};

use crate::calls::Calls;
use crate::failed::Failed;
use crate::memory_source::copy_front;
use crate::wire::Wire;
use std::alloc::Global;

/// For tests: a wire over bytes in memory.
#[derive(Debug, Drop)]
pub struct MemoryWire {
    bytes: Vec<u8>,
    at: usize,
    piece: usize,
    sent: Vec<u8>,
    calls: Calls,
    ghost within: { at ≤ vec_len bytes },
    ghost some: { 0 < piece },
}

impl MemoryWire {
    ghost use Rattle.rx_outside.specs.MemoryWire.{wire_given, wire_left, wire_sent, wire_piece, wire_calls, is_unused};

    /// Gives these bytes, at most `piece` of them a call. The calls whose numbers, counted from 1
    /// over both kinds together, stand in `fails` fail, and so do sends that find no memory.
    pub fn new(alloc: Global, bytes: Vec<u8>, piece: usize, fails: Vec<u64>) -> MemoryWire
        requires { 0 < piece }
        ensures given { wire_given result ≡ [] }
        ensures left { wire_left result ≡ bytes.items }
        ensures sent { wire_sent result ≡ [] }
        ensures piece { wire_piece result ≡ piece }
        ensures calls { wire_calls result
            ≡ record { fails = fails; made = 0; failed = 0; starved = 0 } }
        ensures unused { is_unused result ≡ true }
    {
        MemoryWire {
            bytes,
            at: 0,
            piece,
            sent: Vec::new(alloc),
            calls: Calls::new(fails),
        }
    }

    /// The bytes not yet given.
    pub fn left(&self) -> &[u8]
        ensures { result.now ≡ wire_left self.now }
    {
        self.bytes.as_slice().split_at(self.at).1
    }

    /// The bytes sent so far.
    pub fn sent(&self) -> &[u8]
        ensures { result.now ≡ wire_sent self.now }
    {
        self.sent.as_slice()
    }

    /// How many calls failed.
    pub fn failed(&self) -> u64
        ensures { result ≡ (wire_calls self.now).failed }
    {
        self.calls.failed
    }

    /// How many calls failed for want of memory alone.
    pub fn starved(&self) -> u64
        ensures { result ≡ (wire_calls self.now).starved }
    {
        self.calls.starved
    }
}

impl Wire for MemoryWire {
    ghost use Rattle.rx_outside.specs.MemoryWire.{wire_given, wire_left, wire_sent, wire_piece, wire_calls, wire_faults};

    ghost tells = { Unit };

    ghost given = { wire_given };

    ghost left = { wire_left };

    ghost sent = { wire_sent };

    ghost faults = { wire_faults };

    fn send(&mut self, piece: &[u8]) -> Result<usize, Failed>
        ensures within { IfOk result (λ n. n ≤ length piece.now) }
        ensures some { IfOk result (λ n. 0 < length piece.now → 0 < n) }
        ensures takes { Unit →
            IfOk result (λ n. wire_sent self.new ≡ wire_sent self.old ++ take n piece.now) }
        ensures keeps { Unit → OnErr result (wire_sent self.new ≡ wire_sent self.old) }
        ensures same_given { Unit → wire_given self.new ≡ wire_given self.old }
        ensures same_left { Unit → wire_left self.new ≡ wire_left self.old }
        ensures count { wire_faults self.old ≤ wire_faults self.new }
        ensures failed { OnErr result (Rises (wire_faults self.old) (wire_faults self.new)) }

        // A call takes the whole piece, but where it is to fail or wants memory.
        ensures amount { IfOk result (λ n. n ≡ length piece.now) }
        ensures counts { MatchResult result
            (λ _. Answers (wire_calls self.old) (wire_calls self.new))
            (λ _. Fails (wire_calls self.old) (wire_calls self.new)
            ⊎ Starves (wire_calls self.old) (wire_calls self.new)) }
        ensures same_piece { wire_piece self.new ≡ wire_piece self.old }
    {
        if self.calls.begin() {
            self.calls.fail();
            return Err(Failed);
        }
        if self.sent.extend_from_slice(piece).is_err() {
            self.calls.starve();
            return Err(Failed);
        }
        Ok(piece.len())
    }

    fn receive(&mut self, into: &mut [u8]) -> Result<usize, Failed>
        ensures within { IfOk result (λ n. n ≤ length into.new) }
        ensures gives { Unit →
            IfOk result (λ n. Gives (wire_left self.old) (wire_left self.new) n into.new) }
        ensures joins { Unit →
            IfOk result (λ n. wire_given self.new ≡ wire_given self.old ++ take n into.new) }
        ensures keeps_left { Unit → OnErr result (wire_left self.new ≡ wire_left self.old) }
        ensures keeps_given { Unit → OnErr result (wire_given self.new ≡ wire_given self.old) }
        ensures same_sent { Unit → wire_sent self.new ≡ wire_sent self.old }
        ensures count { wire_faults self.old ≤ wire_faults self.new }
        ensures failed { OnErr result (Rises (wire_faults self.old) (wire_faults self.new)) }

        // How many bytes a call gives, and that one fails where it is to fail alone.
        ensures amount { IfOk result (λ n. n ≡ min (wire_piece self.old)
            (min (length into.new) (length (wire_left self.old)))) }
        ensures counts { MatchResult result
            (λ _. Answers (wire_calls self.old) (wire_calls self.new))
            (λ _. Fails (wire_calls self.old) (wire_calls self.new)) }
        ensures same_piece { wire_piece self.new ≡ wire_piece self.old }
    {
        if self.calls.begin() {
            self.calls.fail();
            return Err(Failed);
        }
        let count = copy_front(self.left(), into, self.piece);
        self.at += count;
        Ok(count)
    }
}
