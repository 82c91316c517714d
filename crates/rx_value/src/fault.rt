use crate::rx_text::RxText;
use std::alloc::{AllocError, AllocFailed};
use thiserror::Error;

/// Why a JSON value holds no fields. A fault of a member has its name.
#[derive(Debug, Drop, Error)]
pub enum ValueFault {
    #[error("not an object")]
    NotObject,
    #[error("a value that is no boolean, text or whole number")]
    Kind(RxText),
    #[error("a number out of range")]
    Range(RxText),
    #[error("out of memory")]
    Memory,
}

impl From<AllocError> for ValueFault {
    ghost use Rattle.std.specs.Prelude.{◌≡◌};
    ghost use Rattle.rx_value.specs.declared.fault.ValueFault.TheVariants.{Memory};

    ghost from_gives = { λ _ e. e ≡ Memory };

    fn from(_refused: AllocError) -> ValueFault {
        ValueFault::Memory
    }
}

impl<T: Drop> From<AllocFailed<T>> for ValueFault {
    ghost use Rattle.std.specs.Prelude.{◌≡◌};
    ghost use Rattle.rx_value.specs.declared.fault.ValueFault.TheVariants.{Memory};

    ghost from_gives = { λ _ e. e ≡ Memory };

    fn from(_refused: AllocFailed<T>) -> ValueFault {
        ValueFault::Memory
    }
}
