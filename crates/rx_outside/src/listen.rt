ghost use Rattle.std.specs.Prelude.{◌≡◌, ◌⊎◌, ◌≤◌, ◌++◌, ℕ, List, [], ◌∷◌, IfOk, OnOk, OnErr};
ghost use Rattle.rx_outside.specs.Failed.{Rises, one_more};
ghost use Rattle.rx_outside.specs.Talk.{Talk, talk, broken_after};

use crate::failed::Failed;
use crate::wire::Wire;
use std::alloc::AllocError;

/// A door on a port of loopback, at which others dial.
pub trait Listen {
    /// A wire to one of them.
    type W: Wire + Drop;

    /// How many calls failed.
    ghost faults: { Self → ℕ };

    /// How many of the wires handed back had a call that failed.
    ghost broken: { Self → ℕ };

    /// What went over each wire handed back, where such wires tell it.
    ghost talks: { Self → List Talk };

    /// The ports at which it was opened, in turn, where such wires tell it.
    ghost opened: { Self → List ℕ };

    /// How many wires it gave, where such wires tell it.
    ghost accepted: { Self → ℕ };

    /// It listens on a port.
    ghost is_open: { Self → Type 0 };

    /// Listens on this port from now on.
    fn open(&mut self, port: u16) -> Result<(), Failed>
        ensures opens { OnOk result (is_open self.new) }
        ensures opens_at { Self.W.tells →
            OnOk result (opened self.new ≡ opened self.old ++ port ∷ []) }
        // A form in memory may want memory to note the port.
        ensures opens_once { OnErr result ((opened self.new ≡ opened self.old ++ port ∷ [])
            ⊎ (opened self.new ≡ opened self.old)) }
        ensures same_accepted { accepted self.new ≡ accepted self.old }
        ensures same_broken { broken self.new ≡ broken self.old }
        ensures same_talks { talks self.new ≡ talks self.old }
        ensures count { faults self.old ≤ faults self.new }
        ensures failed { OnErr result (Rises (faults self.old) (faults self.new)) };

    /// Gives a wire to the next one that dialled. Nothing went over it yet.
    fn accept(&mut self) -> Result<Self::W, Failed>
        requires { is_open self.old }
        ensures fresh { IfOk result (λ wire. Self.W.faults wire ≡ 0) }
        ensures none_given { Self.W.tells → IfOk result (λ wire. Self.W.given wire ≡ []) }
        ensures none_sent { Self.W.tells → IfOk result (λ wire. Self.W.sent wire ≡ []) }
        ensures stays_open { is_open self.new }
        ensures gives { Self.W.tells →
            OnOk result (accepted self.new ≡ one_more (accepted self.old)) }
        ensures gives_none { OnErr result (accepted self.new ≡ accepted self.old) }
        ensures same_opened { opened self.new ≡ opened self.old }
        ensures same_broken { broken self.new ≡ broken self.old }
        ensures same_talks { talks self.new ≡ talks self.old }
        ensures count { faults self.old ≤ faults self.new }
        ensures failed { OnErr result (Rises (faults self.old) (faults self.new)) };

    /// Hands a wire back, and drops it where it is refused.
    fn close(&mut self, wire: Self::W) -> Result<(), AllocError>
        ensures breaks { OnOk result
            (broken self.new ≡ broken_after (broken self.old) (Self.W.faults wire)) }
        ensures joins { Self.W.tells → OnOk result (talks self.new ≡ talks self.old
            ++ talk (Self.W.given wire) (Self.W.left wire) (Self.W.sent wire) (Self.W.faults wire)
            ∷ []) }
        ensures keeps_broken { OnErr result (broken self.new ≡ broken self.old) }
        ensures keeps_talks { OnErr result (talks self.new ≡ talks self.old) }
        ensures stays_open { is_open self.old → is_open self.new }
        ensures same_opened { opened self.new ≡ opened self.old }
        ensures same_accepted { accepted self.new ≡ accepted self.old }
        ensures same_count { faults self.new ≡ faults self.old };
}
