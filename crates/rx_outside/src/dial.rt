ghost use Rattle.std.specs.Prelude.{◌≡◌, ◌⊎◌, ◌≤◌, ◌++◌, ℕ, List, [], ◌∷◌, IfOk, OnOk, OnErr};
ghost use Rattle.rx_outside.specs.Failed.{Rises};
ghost use Rattle.rx_outside.specs.Talk.{Talk, talk, broken_after};

use crate::failed::Failed;
use crate::wire::Wire;
use std::alloc::AllocError;

/// Reaches doors on ports of loopback.
pub trait Dial {
    /// A wire to a door.
    type W: Wire + Drop;

    /// How many calls failed.
    ghost faults: { Self → ℕ };

    /// How many of the wires handed back had a call that failed.
    ghost broken: { Self → ℕ };

    /// What went over each wire handed back, where such wires tell it.
    ghost talks: { Self → List Talk };

    /// The ports that were dialled, in turn, where such wires tell it.
    ghost asked: { Self → List ℕ };

    /// Gives a wire to the door on this port. Nothing went over it yet.
    fn dial(&mut self, port: u16) -> Result<Self::W, Failed>
        ensures fresh { IfOk result (λ wire. Self.W.faults wire ≡ 0) }
        ensures none_given { Self.W.tells → IfOk result (λ wire. Self.W.given wire ≡ []) }
        ensures none_sent { Self.W.tells → IfOk result (λ wire. Self.W.sent wire ≡ []) }
        ensures asks { Self.W.tells → OnOk result (asked self.new ≡ asked self.old ++ port ∷ []) }
        // A form in memory may want memory to note the port.
        ensures asks_once { OnErr result
            ((asked self.new ≡ asked self.old ++ port ∷ []) ⊎ (asked self.new ≡ asked self.old)) }
        ensures same_broken { broken self.new ≡ broken self.old }
        ensures same_talks { talks self.new ≡ talks self.old }
        ensures count { faults self.old ≤ faults self.new }
        ensures failed { OnErr result (Rises (faults self.old) (faults self.new)) };

    /// Hands a wire back, and drops it where it is refused.
    fn close(&mut self, wire: Self::W) -> Result<(), AllocError>
        ensures breaks { OnOk result
            (broken self.new ≡ broken_after (broken self.old) (Self.W.faults wire)) }
        ensures joins { Self.W.tells → OnOk result (talks self.new ≡ talks self.old
            ++ talk (Self.W.given wire) (Self.W.left wire) (Self.W.sent wire) (Self.W.faults wire)
            ∷ []) }
        ensures keeps_broken { OnErr result (broken self.new ≡ broken self.old) }
        ensures keeps_talks { OnErr result (talks self.new ≡ talks self.old) }
        ensures keeps_asked { asked self.new ≡ asked self.old }
        ensures same_count { faults self.new ≡ faults self.old };
}
