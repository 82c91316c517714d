ghost use Rattle.std.specs.Prelude.{◌≡◌, ◌⊎◌, ◌≤◌, ◌++◌, ◌∷◌, [], true, IfOk, OnOk, OnErr, MatchResult};
ghost use Rattle.rx_outside.specs.Calls.{Answers};
ghost use Rattle.rx_outside.specs.Failed.{Rises};
ghost use Rattle.rx_outside.specs.Talk.{broken_after};
ghost use Rattle.rx_outside.specs.MemoryWire.{Unused, is_unused, wire_given, wire_sent, wire_faults, wire_talk};

use crate::dial::Dial;
use crate::failed::Failed;
use crate::memory_wire::MemoryWire;
use crate::wires::Wires;
use std::alloc::{AllocError, Global};

/// For tests: a dial in memory. It gives wires in turn, whatever the port, and notes the ports.
#[derive(Debug, Drop)]
pub struct MemoryDial {
    wires: Wires,
    asked: Vec<u16>,
}

impl MemoryDial {
    ghost use Rattle.rx_outside.specs.MemoryDial.{dial_waiting, dial_closed, dial_broken, dial_asked, dial_calls};

    /// Gives these wires. The calls whose numbers, counted from 1, stand in `fails` fail, and so do
    /// those after the last wire.
    pub fn new(alloc: Global, wires: Vec<MemoryWire>, fails: Vec<u64>) -> MemoryDial
        requires { Unused wires.items }
        ensures waiting { dial_waiting result ≡ wires.items }
        ensures closed { dial_closed result ≡ [] }
        ensures broken { dial_broken result ≡ 0 }
        ensures asked { dial_asked result ≡ [] }
        ensures calls { dial_calls result
            ≡ record { fails = fails; made = 0; failed = 0; starved = 0 } }
    {
        MemoryDial {
            wires: Wires::new(alloc, wires, fails),
            asked: Vec::new(alloc),
        }
    }

    /// The wires handed back, in order.
    pub fn closed_wires(&self) -> &[MemoryWire]
        ensures { result.now ≡ dial_closed self.now }
    {
        self.wires.closed.as_slice()
    }

    /// The ports that were dialled, in order.
    pub fn asked_ports(&self) -> &[u16]
        ensures { result.now ≡ dial_asked self.now }
    {
        self.asked.as_slice()
    }

    /// How many calls failed for want of memory, which a dial takes to note a port.
    pub fn starved(&self) -> u64
        ensures { result ≡ (dial_calls self.now).starved }
    {
        self.wires.calls.starved
    }
}

impl Dial for MemoryDial {
    ghost use Rattle.rx_outside.specs.MemoryDial.{dial_waiting, dial_closed, dial_talks, dial_broken, dial_asked, dial_calls, dial_faults};
    ghost use Rattle.rx_outside.specs.Wires.{FailsOrStarves};

    type W = MemoryWire;

    ghost faults = { dial_faults };

    ghost broken = { dial_broken };

    ghost talks = { dial_talks };

    ghost asked = { dial_asked };

    fn dial(&mut self, port: u16) -> Result<MemoryWire, Failed>
        ensures fresh { IfOk result (λ wire. wire_faults wire ≡ 0) }
        ensures none_given { Unit → IfOk result (λ wire. wire_given wire ≡ []) }
        ensures none_sent { Unit → IfOk result (λ wire. wire_sent wire ≡ []) }
        ensures asks { Unit →
            OnOk result (dial_asked self.new ≡ dial_asked self.old ++ port ∷ []) }
        ensures asks_once { OnErr result ((dial_asked self.new ≡ dial_asked self.old ++ port ∷ [])
            ⊎ (dial_asked self.new ≡ dial_asked self.old)) }
        ensures same_broken { dial_broken self.new ≡ dial_broken self.old }
        ensures same_talks { dial_talks self.new ≡ dial_talks self.old }
        ensures count { dial_faults self.old ≤ dial_faults self.new }
        ensures failed { OnErr result (Rises (dial_faults self.old) (dial_faults self.new)) }

        // Which wire it is, and that a call fails where it is to fail, no wire is left or memory is
        // wanting alone.
        ensures next { IfOk result (λ wire. dial_waiting self.old ≡ wire ∷ dial_waiting self.new) }
        ensures keeps { OnErr result (dial_waiting self.new ≡ dial_waiting self.old) }
        ensures counts { MatchResult result
            (λ _. Answers (dial_calls self.old) (dial_calls self.new))
            (λ _. FailsOrStarves (dial_calls self.old) (dial_calls self.new)
            (dial_waiting self.old)) }
        ensures same_closed { dial_closed self.new ≡ dial_closed self.old }
    {
        if self.asked.push(port).is_err() {
            self.wires.starve();
            return Err(Failed);
        }
        self.wires.next()
    }

    fn close(&mut self, wire: MemoryWire) -> Result<(), AllocError>
        ensures breaks { OnOk result
            (dial_broken self.new ≡ broken_after (dial_broken self.old) (wire_faults wire)) }
        ensures joins { Unit →
            OnOk result (dial_talks self.new ≡ dial_talks self.old ++ wire_talk wire ∷ []) }
        ensures keeps_broken { OnErr result (dial_broken self.new ≡ dial_broken self.old) }
        ensures keeps_talks { OnErr result (dial_talks self.new ≡ dial_talks self.old) }
        ensures keeps_asked { dial_asked self.new ≡ dial_asked self.old }
        ensures same_count { dial_faults self.new ≡ dial_faults self.old }

        // The wire is the last of those handed back.
        ensures closed { OnOk result (dial_closed self.new ≡ dial_closed self.old ++ wire ∷ []) }
        ensures keeps_closed { OnErr result (dial_closed self.new ≡ dial_closed self.old) }
        ensures same_calls { dial_calls self.new ≡ dial_calls self.old }
        ensures same_waiting { dial_waiting self.new ≡ dial_waiting self.old }
    {
        self.wires.take_back(wire)
    }
}
