ghost use Rattle.std.specs.Prelude.{◌≡◌, ◌⊎◌, ◌≤◌, ◌++◌, ◌∷◌, [], true, IfOk, OnOk, OnErr, MatchResult};
ghost use Rattle.rx_outside.specs.Calls.{Answers, Fails, WantsMemory};
ghost use Rattle.rx_outside.specs.Failed.{Rises, one_more};
ghost use Rattle.rx_outside.specs.Talk.{broken_after};
ghost use Rattle.rx_outside.specs.MemoryWire.{Unused, is_unused, wire_given, wire_sent, wire_faults, wire_talk};

use crate::failed::Failed;
use crate::listen::Listen;
use crate::memory_wire::MemoryWire;
use crate::wires::Wires;
use std::alloc::{AllocError, Global};

/// For tests: a door in memory. It gives wires in turn, is always open, and notes the ports at which
/// it was opened.
#[derive(Debug, Drop)]
pub struct MemoryDoor {
    wires: Wires,
    opened: Vec<u16>,
    accepted: u64,
}

impl MemoryDoor {
    ghost use Rattle.rx_outside.specs.MemoryDoor.{door_waiting, door_closed, door_broken, door_opened, door_accepted, door_calls};

    /// Gives these wires. The calls whose numbers, counted from 1, stand in `fails` fail, and so do
    /// those after the last wire.
    pub fn new(alloc: Global, wires: Vec<MemoryWire>, fails: Vec<u64>) -> MemoryDoor
        requires { Unused wires.items }
        ensures waiting { door_waiting result ≡ wires.items }
        ensures closed { door_closed result ≡ [] }
        ensures broken { door_broken result ≡ 0 }
        ensures opened { door_opened result ≡ [] }
        ensures accepted { door_accepted result ≡ 0 }
        ensures calls { door_calls result
            ≡ record { fails = fails; made = 0; failed = 0; starved = 0 } }
    {
        MemoryDoor {
            wires: Wires::new(alloc, wires, fails),
            opened: Vec::new(alloc),
            accepted: 0,
        }
    }

    /// The wires handed back, in order.
    pub fn closed_wires(&self) -> &[MemoryWire]
        ensures { result.now ≡ door_closed self.now }
    {
        self.wires.closed.as_slice()
    }

    /// The ports at which it was opened, in order.
    pub fn opened_ports(&self) -> &[u16]
        ensures { result.now ≡ door_opened self.now }
    {
        self.opened.as_slice()
    }

    /// How many wires it gave.
    pub fn accepted(&self) -> u64
        ensures { result ≡ door_accepted self.now }
    {
        self.accepted
    }

    /// How many calls failed for want of memory, which a door takes to note a port.
    pub fn starved(&self) -> u64
        ensures { result ≡ (door_calls self.now).starved }
    {
        self.wires.calls.starved
    }
}

impl Listen for MemoryDoor {
    ghost use Rattle.rx_outside.specs.MemoryDoor.{door_waiting, door_closed, door_talks, door_broken, door_opened, door_accepted, door_calls, door_faults};
    ghost use Rattle.rx_outside.specs.Wires.{FailsOrEnds};

    type W = MemoryWire;

    ghost faults = { door_faults };

    ghost broken = { door_broken };

    ghost talks = { door_talks };

    ghost opened = { door_opened };

    ghost accepted = { door_accepted };

    ghost is_open = { λ _. Unit };

    fn open(&mut self, port: u16) -> Result<(), Failed>
        ensures opens { OnOk result (Unit {0}) }
        ensures opens_at { Unit →
            OnOk result (door_opened self.new ≡ door_opened self.old ++ port ∷ []) }
        ensures opens_once { OnErr result
            ((door_opened self.new ≡ door_opened self.old ++ port ∷ [])
            ⊎ (door_opened self.new ≡ door_opened self.old)) }
        ensures same_accepted { door_accepted self.new ≡ door_accepted self.old }
        ensures same_broken { door_broken self.new ≡ door_broken self.old }
        ensures same_talks { door_talks self.new ≡ door_talks self.old }
        ensures count { door_faults self.old ≤ door_faults self.new }
        ensures failed { OnErr result (Rises (door_faults self.old) (door_faults self.new)) }

        // A call fails where it is to fail or memory is wanting alone, and gives no wire away.
        ensures counts { MatchResult result
            (λ _. Answers (door_calls self.old) (door_calls self.new))
            (λ _. Fails (door_calls self.old) (door_calls self.new)
            ⊎ WantsMemory (door_calls self.old) (door_calls self.new)) }
        ensures same_waiting { door_waiting self.new ≡ door_waiting self.old }
        ensures same_closed { door_closed self.new ≡ door_closed self.old }
    {
        if self.opened.push(port).is_err() {
            self.wires.starve();
            return Err(Failed);
        }
        if self.wires.calls.begin() {
            self.wires.calls.fail();
            return Err(Failed);
        }
        Ok(())
    }

    fn accept(&mut self) -> Result<MemoryWire, Failed>
        ensures fresh { IfOk result (λ wire. wire_faults wire ≡ 0) }
        ensures none_given { Unit → IfOk result (λ wire. wire_given wire ≡ []) }
        ensures none_sent { Unit → IfOk result (λ wire. wire_sent wire ≡ []) }
        ensures stays_open { Unit {0} }
        ensures gives { Unit →
            OnOk result (door_accepted self.new ≡ one_more (door_accepted self.old)) }
        ensures gives_none { OnErr result (door_accepted self.new ≡ door_accepted self.old) }
        ensures same_opened { door_opened self.new ≡ door_opened self.old }
        ensures same_broken { door_broken self.new ≡ door_broken self.old }
        ensures same_talks { door_talks self.new ≡ door_talks self.old }
        ensures count { door_faults self.old ≤ door_faults self.new }
        ensures failed { OnErr result (Rises (door_faults self.old) (door_faults self.new)) }

        // Which wire it is, and that a call fails where it is to fail or no wire is left alone.
        ensures next { IfOk result (λ wire. door_waiting self.old ≡ wire ∷ door_waiting self.new) }
        ensures keeps { OnErr result (door_waiting self.new ≡ door_waiting self.old) }
        ensures counts { MatchResult result
            (λ _. Answers (door_calls self.old) (door_calls self.new))
            (λ _. FailsOrEnds (door_calls self.old) (door_calls self.new) (door_waiting self.old)) }
        ensures same_closed { door_closed self.new ≡ door_closed self.old }
    {
        let wire = self.wires.next()?;
        self.accepted = self.accepted.saturating_add(1);
        Ok(wire)
    }

    fn close(&mut self, wire: MemoryWire) -> Result<(), AllocError>
        ensures breaks { OnOk result
            (door_broken self.new ≡ broken_after (door_broken self.old) (wire_faults wire)) }
        ensures joins { Unit →
            OnOk result (door_talks self.new ≡ door_talks self.old ++ wire_talk wire ∷ []) }
        ensures keeps_broken { OnErr result (door_broken self.new ≡ door_broken self.old) }
        ensures keeps_talks { OnErr result (door_talks self.new ≡ door_talks self.old) }
        ensures stays_open { Unit {0} → Unit {0} }
        ensures same_opened { door_opened self.new ≡ door_opened self.old }
        ensures same_accepted { door_accepted self.new ≡ door_accepted self.old }
        ensures same_count { door_faults self.new ≡ door_faults self.old }

        // The wire is the last of those handed back.
        ensures closed { OnOk result (door_closed self.new ≡ door_closed self.old ++ wire ∷ []) }
        ensures keeps_closed { OnErr result (door_closed self.new ≡ door_closed self.old) }
        ensures same_calls { door_calls self.new ≡ door_calls self.old }
        ensures same_waiting { door_waiting self.new ≡ door_waiting self.old }
    {
        self.wires.take_back(wire)
    }
}
