ghost use Rattle.std.specs.Prelude.{◌≡◌, ◌<◌, ◌≤◌, ◌++◌, ℕ, List, length, take, IfOk, OnErr};
ghost use Rattle.rx_outside.specs.Failed.{Rises};
ghost use Rattle.rx_outside.specs.Source.{Gives};

use crate::failed::Failed;

/// Gives bytes as a source does, and takes bytes as a sink does.
pub trait Wire {
    /// Whether wires of this type tell their content.
    ghost tells: { Type 0 };

    /// The bytes given so far.
    ghost given: { Self → List ℕ };

    /// The bytes not yet given.
    ghost left: { Self → List ℕ };

    /// The bytes sent so far.
    ghost sent: { Self → List ℕ };

    /// How many calls of both kinds failed.
    ghost faults: { Self → ℕ };

    /// Takes bytes from the front of the piece, and answers how many. A call that failed may be
    /// made again.
    fn send(&mut self, piece: &[u8]) -> Result<usize, Failed>
        ensures within { IfOk result (λ n. n ≤ length piece.now) }
        ensures some { IfOk result (λ n. 0 < length piece.now → 0 < n) }
        ensures takes { tells →
            IfOk result (λ n. sent self.new ≡ sent self.old ++ take n piece.now) }
        ensures keeps { tells → OnErr result (sent self.new ≡ sent self.old) }
        ensures same_given { tells → given self.new ≡ given self.old }
        ensures same_left { tells → left self.new ≡ left self.old }
        ensures count { faults self.old ≤ faults self.new }
        ensures failed { OnErr result (Rises (faults self.old) (faults self.new)) };

    /// Puts the next bytes at the front of the piece, and answers how many. The rest of the piece
    /// may hold anything afterwards. A call that failed may be made again.
    fn receive(&mut self, into: &mut [u8]) -> Result<usize, Failed>
        ensures within { IfOk result (λ n. n ≤ length into.new) }
        ensures gives { tells →
            IfOk result (λ n. Gives (left self.old) (left self.new) n into.new) }
        ensures joins { tells →
            IfOk result (λ n. given self.new ≡ given self.old ++ take n into.new) }
        ensures keeps_left { tells → OnErr result (left self.new ≡ left self.old) }
        ensures keeps_given { tells → OnErr result (given self.new ≡ given self.old) }
        ensures same_sent { tells → sent self.new ≡ sent self.old }
        ensures count { faults self.old ≤ faults self.new }
        ensures failed { OnErr result (Rises (faults self.old) (faults self.new)) };
}
