ghost use Rattle.std.specs.Prelude.{◌≡◌, ◌≤◌, ℕ, List, length, IfOk, OnErr};
ghost use Rattle.rx_outside.specs.Failed.{Rises};
ghost use Rattle.rx_outside.specs.Source.{Gives};

use crate::failed::Failed;

/// Gives bytes, in pieces of its own choice, up to an end.
pub trait Source {
    /// Whether sources of this type tell their content.
    ghost tells: { Type 0 };

    /// The bytes not yet given.
    ghost left: { Self → List ℕ };

    /// How many calls failed.
    ghost faults: { Self → ℕ };

    /// Puts the next bytes at the front of the piece, and answers how many. The rest of the piece
    /// may hold anything afterwards. A call that failed may be made again.
    fn read(&mut self, into: &mut [u8]) -> Result<usize, Failed>
        ensures within { IfOk result (λ n. n ≤ length into.new) }
        ensures gives { tells →
            IfOk result (λ n. Gives (left self.old) (left self.new) n into.new) }
        ensures keeps { tells → OnErr result (left self.new ≡ left self.old) }
        ensures count { faults self.old ≤ faults self.new }
        ensures failed { OnErr result (Rises (faults self.old) (faults self.new)) };
}
