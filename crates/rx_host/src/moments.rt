// The moments of pushes, as contracts read them.
ghost use Rattle.std.specs.Prelude.{◌≡◌, ◌++◌, ℕ, List, [], ◌∷◌};
ghost use Rattle.std.specs.Borrow.{ftrue};

use std::marker::Model;

/// The moments of the pushes that were answered. They take no memory, since only contracts read
/// them.
#[derive(Drop)]
pub(crate) struct Moments {
    pub(crate) ghost items: { List ℕ },
}

impl Model for Moments {
    ghost also_owns = { λ _. ftrue };
}

impl Moments {
    /// There are none yet.
    pub(crate) fn new() -> Moments
        ensures { result.items ≡ [] }
    {
        Moments {}
    }

    /// These, and one more.
    pub(crate) fn then(&self, _now: u64) -> Moments
        ensures { result.items ≡ self.now.items ++ _now ∷ [] }
    {
        Moments {}
    }
}
