use rx_value::RxText;
use std::alloc::{AllocError, AllocFailed};
use thiserror::Error;

/// Why a record can't be applied.
#[derive(Debug, Drop, Error)]
pub enum ApplyFault {
    #[error("a record that isn't legal")]
    Illegal,
    #[error("out of memory")]
    Memory,
}

impl From<AllocError> for ApplyFault {
    ghost use Rattle.std.specs.Prelude.{◌≡◌};
    ghost use Rattle.rx_world.specs.declared.fault.ApplyFault.TheVariants.{Memory};

    ghost from_gives = { λ _ e. e ≡ Memory };

    fn from(_refused: AllocError) -> ApplyFault {
        ApplyFault::Memory
    }
}

/// Why there is no record of a commit.
#[derive(Debug, Drop, Error)]
pub enum StepFault {
    #[error("no write time is left")]
    ClockEnd,
    #[error("out of memory")]
    Memory,
}

impl From<AllocError> for StepFault {
    ghost use Rattle.std.specs.Prelude.{◌≡◌};
    ghost use Rattle.rx_world.specs.declared.fault.StepFault.TheVariants.{Memory};

    ghost from_gives = { λ _ e. e ≡ Memory };

    fn from(_refused: AllocError) -> StepFault {
        StepFault::Memory
    }
}

/// Why a collection can't go to the next version of its schema, with all that local replications
/// join to it.
#[derive(Debug, Drop, Error)]
pub enum MigrateFault {
    #[error("not the next version of the schema")]
    Version,
    #[error("another primary key, or a step that names it")]
    Primary,
    /// A document of the collection of that name, or a state that the replication of that name
    /// knows, has no valid one after the steps.
    #[error("a state that isn't valid after the steps")]
    Invalid(RxText),
    #[error("a fork whose master is elsewhere")]
    Remote,
    #[error("out of memory")]
    Memory,
}

impl From<AllocError> for MigrateFault {
    ghost use Rattle.std.specs.Prelude.{◌≡◌};
    ghost use Rattle.rx_world.specs.declared.fault.MigrateFault.TheVariants.{Memory};

    ghost from_gives = { λ _ e. e ≡ Memory };

    fn from(_refused: AllocError) -> MigrateFault {
        MigrateFault::Memory
    }
}
