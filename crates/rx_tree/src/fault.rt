use std::alloc::AllocFailed;
use thiserror::Error;

/// For tests: why a collection doesn't become a fork.
#[derive(Debug, Drop, Error)]
pub enum TreeFault {
    #[error("it is a fork already")]
    Twice,
    /// The master is the fork, or is reached by going from it from a master to its forks.
    #[error("the master is the fork, or below it")]
    Cycle,
    #[error("out of memory")]
    Memory,
}

impl<T: Drop> From<AllocFailed<T>> for TreeFault {
    ghost use Rattle.std.specs.Prelude.{◌≡◌};
    ghost use Rattle.rx_tree.specs.declared.fault.TreeFault.TheVariants.{Memory};

    ghost from_gives = { λ _ e. e ≡ Memory };

    fn from(_refused: AllocFailed<T>) -> TreeFault {
        TreeFault::Memory
    }
}
