ghost use Rattle.std.specs.Prelude.{◌≡◌, ◌≤◌, ◌++◌, [], ◌∷◌, true, IfOk, OnOk, OnErr, MatchResult};
ghost use Rattle.rx_outside.specs.Calls.{Answers, WantsMemory};
ghost use Rattle.rx_outside.specs.Failed.{Rises};
ghost use Rattle.rx_outside.specs.Talk.{broken_after};
ghost use Rattle.rx_outside.specs.MemoryWire.{Unused, is_unused, wire_faults};

use crate::calls::Calls;
use crate::failed::Failed;
use crate::memory_wire::MemoryWire;
use std::alloc::{AllocError, Global};

/// Wires in memory that are given in turn and handed back.
#[derive(Debug, Drop)]
pub struct Wires {
    pub waiting: Vec<MemoryWire>,
    pub closed: Vec<MemoryWire>,
    pub calls: Calls,
    pub broken: u64,
    pub ghost unused: { Unused waiting.items },
}

impl Wires {
    ghost use Rattle.rx_outside.specs.Wires.{FailsOrEnds};

    pub fn new(alloc: Global, wires: Vec<MemoryWire>, fails: Vec<u64>) -> Wires
        requires { Unused wires.items }
        ensures waiting { result.waiting ≡ wires }
        ensures closed { result.closed.items ≡ [] }
        ensures calls { result.calls ≡ record { fails = fails; made = 0; failed = 0; starved = 0 } }
        ensures broken { result.broken ≡ 0 }
    {
        Wires {
            waiting: wires,
            closed: Vec::new(alloc),
            calls: Calls::new(fails),
            broken: 0,
        }
    }

    /// The next wire. It is a numbered call, and fails after the last wire too.
    pub fn next(&mut self) -> Result<MemoryWire, Failed>
        ensures next { IfOk result (λ wire.
            self.old.waiting.items ≡ wire ∷ self.new.waiting.items) }
        ensures keeps { OnErr result (self.new.waiting.items ≡ self.old.waiting.items) }
        ensures unused { IfOk result (λ wire. is_unused wire ≡ true) }
        ensures same_closed { self.new.closed ≡ self.old.closed }
        ensures same_broken { self.new.broken ≡ self.old.broken }
        ensures count { self.old.calls.failed ≤ self.new.calls.failed }
        ensures failed { OnErr result (Rises self.old.calls.failed self.new.calls.failed) }
        ensures counts { MatchResult result
            (λ _. Answers self.old.calls self.new.calls)
            (λ _. FailsOrEnds self.old.calls self.new.calls self.old.waiting.items) }
    {
        if self.calls.begin() {
            self.calls.fail();
            return Err(Failed);
        }
        if self.waiting.is_empty() {
            self.calls.fail();
            return Err(Failed);
        }
        Ok(self.waiting.remove(0))
    }

    /// A numbered call that fails, since what takes these wires wants memory.
    pub fn starve(&mut self)
        ensures wants { WantsMemory self.old.calls self.new.calls }
        ensures rises { Rises self.old.calls.failed self.new.calls.failed }
        ensures count { self.old.calls.failed ≤ self.new.calls.failed }
        ensures same_waiting { self.new.waiting ≡ self.old.waiting }
        ensures same_closed { self.new.closed ≡ self.old.closed }
        ensures same_broken { self.new.broken ≡ self.old.broken }
    {
        let _ = self.calls.begin();
        self.calls.starve();
    }

    /// Takes a wire back.
    pub fn take_back(&mut self, wire: MemoryWire) -> Result<(), AllocError>
        ensures breaks { OnOk result
            (self.new.broken ≡ broken_after self.old.broken (wire_faults wire)) }
        ensures joins { OnOk result (self.new.closed.items ≡ self.old.closed.items ++ wire ∷ []) }
        ensures keeps_broken { OnErr result (self.new.broken ≡ self.old.broken) }
        ensures keeps { OnErr result (self.new.closed.items ≡ self.old.closed.items) }
        ensures same_waiting { self.new.waiting ≡ self.old.waiting }
        ensures same_calls { self.new.calls ≡ self.old.calls }
    {
        let has_failed = 0 < wire.failed();
        self.closed.push(wire)?;
        if has_failed {
            self.broken = self.broken.saturating_add(1);
        }
        Ok(())
    }
}
