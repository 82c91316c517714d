use rx_value::RxText;
use std::alloc::{AllocError, AllocFailed};
use thiserror::Error;

/// Why a JSON value is no selector.
#[derive(Debug, Drop, Error)]
pub enum SelectorFault {
    /// A name with `$` in front, or one under a property, that is no operator.
    #[error("an unknown operator")]
    Operator(RxText),
    /// What stands at that operator or property can't stand there.
    #[error("a wrong operand")]
    Operand(RxText),
    #[error("a field that is no property")]
    Field(RxText),
    #[error("nested too deep")]
    Depth,
    #[error("a selector that is no object")]
    NotObject,
    #[error("out of memory")]
    Memory,
}

impl From<AllocError> for SelectorFault {
    ghost use Rattle.std.specs.Prelude.{◌≡◌};
    ghost use Rattle.rx_selector.specs.declared.fault.SelectorFault.TheVariants.{Memory};

    ghost from_gives = { λ _ e. e ≡ Memory };

    fn from(_refused: AllocError) -> SelectorFault {
        SelectorFault::Memory
    }
}

impl<T: Drop> From<AllocFailed<T>> for SelectorFault {
    ghost use Rattle.std.specs.Prelude.{◌≡◌};
    ghost use Rattle.rx_selector.specs.declared.fault.SelectorFault.TheVariants.{Memory};

    ghost from_gives = { λ _ e. e ≡ Memory };

    fn from(_refused: AllocFailed<T>) -> SelectorFault {
        SelectorFault::Memory
    }
}
