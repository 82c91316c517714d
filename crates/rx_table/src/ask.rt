ghost use Rattle.std.specs.Prelude.{◌≡◌, ◌<◌, ◌^◌, ℕ, List, [], ◌∷◌, Option};
ghost use Rattle.rx_table.specs.Log.{Adds};
ghost use Rattle.rx_table.specs.States.{state_count, holds};
ghost use Rattle.rx_table.specs.declared.states.StateName.{StateName as State};

use crate::states::StateName;

/// Whoever answers the nineteen questions about one query, one change and the rows before it.
pub trait Ask {
    /// All answers, as the bits of a number.
    ghost bits: { Self → ℕ };

    /// The questions asked so far, in turn, where a list of them is kept.
    ghost log: { Self → Option (List State) };

    /// Answers one question. It may be asked in any order and more than once.
    fn state(&mut self, which: StateName) -> bool
        ensures answer { result ≡ holds (bits self.old) which }
        ensures same { bits self.new ≡ bits self.old }
        ensures logged { Adds (log self.old) (which ∷ []) (log self.new) };

    /// No bit stands for anything else.
    ghost in_range: { (ask : Self) → bits ask < 2 ^ state_count };
}
