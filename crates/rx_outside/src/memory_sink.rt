ghost use Rattle.std.specs.Prelude.{◌≡◌, ◌<◌, ◌≤◌, ◌++◌, ◌⊎◌, [], length, take};
ghost use Rattle.std.specs.Prelude.{IfOk, OnErr, MatchResult};
ghost use Rattle.rx_outside.specs.Calls.{Answers, Fails, Starves};
ghost use Rattle.rx_outside.specs.Failed.{Rises};

use crate::calls::Calls;
use crate::failed::Failed;
use crate::sink::Sink;
use std::alloc::Global;

/// For tests: a sink into memory.
#[derive(Debug, Drop)]
pub struct MemorySink {
    bytes: Vec<u8>,
    calls: Calls,
}

impl MemorySink {
    ghost use Rattle.rx_outside.specs.MemorySink.{sink_written, sink_calls};

    /// Holds nothing at first. The calls whose numbers, counted from 1, stand in `fails` fail, and
    /// so do those that find no memory.
    pub fn new(alloc: Global, fails: Vec<u64>) -> MemorySink
        ensures written { sink_written result ≡ [] }
        ensures calls { sink_calls result
            ≡ record { fails = fails; made = 0; failed = 0; starved = 0 } }
    {
        MemorySink {
            bytes: Vec::new(alloc),
            calls: Calls::new(fails),
        }
    }

    /// The bytes taken so far.
    pub fn bytes(&self) -> &[u8]
        ensures { result.now ≡ sink_written self.now }
    {
        self.bytes.as_slice()
    }

    /// How many calls failed for want of memory alone.
    pub fn starved(&self) -> u64
        ensures { result ≡ (sink_calls self.now).starved }
    {
        self.calls.starved
    }
}

impl Sink for MemorySink {
    ghost use Rattle.rx_outside.specs.MemorySink.{sink_written, sink_calls, sink_faults};

    ghost tells = { Unit };

    ghost written = { sink_written };

    ghost faults = { sink_faults };

    fn write(&mut self, piece: &[u8]) -> Result<usize, Failed>
        ensures within { IfOk result (λ n. n ≤ length piece.now) }
        ensures some { IfOk result (λ n. 0 < length piece.now → 0 < n) }
        ensures takes { Unit →
            IfOk result (λ n. sink_written self.new ≡ sink_written self.old ++ take n piece.now) }
        ensures keeps { Unit → OnErr result (sink_written self.new ≡ sink_written self.old) }
        ensures count { sink_faults self.old ≤ sink_faults self.new }
        ensures failed { OnErr result (Rises (sink_faults self.old) (sink_faults self.new)) }

        // A call takes the whole piece, but where it is to fail or wants memory.
        ensures amount { IfOk result (λ n. n ≡ length piece.now) }
        ensures counts { MatchResult result
            (λ _. Answers (sink_calls self.old) (sink_calls self.new))
            (λ _. Fails (sink_calls self.old) (sink_calls self.new)
            ⊎ Starves (sink_calls self.old) (sink_calls self.new)) }
    {
        if self.calls.begin() {
            self.calls.fail();
            return Err(Failed);
        }
        if self.bytes.extend_from_slice(piece).is_err() {
            self.calls.starve();
            return Err(Failed);
        }
        Ok(piece.len())
    }
}
