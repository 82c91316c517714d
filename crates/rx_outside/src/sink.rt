ghost use Rattle.std.specs.Prelude.{◌≡◌, ◌<◌, ◌≤◌, ◌++◌, ℕ, List, length, take, IfOk, OnErr};
ghost use Rattle.rx_outside.specs.Failed.{Rises};

use crate::failed::Failed;

/// Takes bytes, in pieces of its own choice.
pub trait Sink {
    /// Whether sinks of this type tell their content.
    ghost tells: { Type 0 };

    /// The bytes taken so far.
    ghost written: { Self → List ℕ };

    /// How many calls failed.
    ghost faults: { Self → ℕ };

    /// Takes bytes from the front of the piece, and answers how many. A call that failed may be
    /// made again.
    fn write(&mut self, piece: &[u8]) -> Result<usize, Failed>
        ensures within { IfOk result (λ n. n ≤ length piece.now) }
        ensures some { IfOk result (λ n. 0 < length piece.now → 0 < n) }
        ensures takes { tells →
            IfOk result (λ n. written self.new ≡ written self.old ++ take n piece.now) }
        ensures keeps { tells → OnErr result (written self.new ≡ written self.old) }
        ensures count { faults self.old ≤ faults self.new }
        ensures failed { OnErr result (Rises (faults self.old) (faults self.new)) };
}
