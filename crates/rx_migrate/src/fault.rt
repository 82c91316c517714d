use rx_value::ValueFault;
use std::alloc::AllocError;
use thiserror::Error;

/// Why a JSON value holds no steps.
#[derive(Debug, Drop, Error)]
pub enum StepsFault {
    #[error("not a list of at most 64 steps")]
    NotSteps,
    #[error("out of memory")]
    Memory,
}

impl From<AllocError> for StepsFault {
    ghost use Rattle.std.specs.Prelude.{◌≡◌};
    ghost use Rattle.rx_migrate.specs.declared.fault.StepsFault.TheVariants.{Memory};

    ghost from_gives = { λ _ e. e ≡ Memory };

    fn from(_refused: AllocError) -> StepsFault {
        StepsFault::Memory
    }
}

impl From<ValueFault> for StepsFault {
    ghost use Rattle.std.specs.Prelude.{◌≡◌};
    ghost use Rattle.rx_migrate.specs.Fault.{steps_fault};

    ghost from_gives = { λ fault e. e ≡ steps_fault fault };

    fn from(fault: ValueFault) -> StepsFault {
        match fault {
            ValueFault::Memory => StepsFault::Memory,
            _ => StepsFault::NotSteps,
        }
    }
}
