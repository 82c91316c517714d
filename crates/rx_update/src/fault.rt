use rx_value::RxText;
use std::alloc::AllocError;
use thiserror::Error;

/// Why a JSON object is no update, or one can't be made of a document. Each names a member or a
/// field: the first by its bytes.
#[derive(Debug, Drop, Error)]
pub enum UpdateFault {
    #[error("a member that is no operator")]
    Operator(RxText),
    /// A member is no object, or a value under it isn't of the operator's kind.
    #[error("not what the operator takes")]
    Operand(RxText),
    #[error("a field under two operators")]
    Twice(RxText),
    #[error("the primary key under an operator")]
    Key(RxText),
    #[error("added to what is no number")]
    Kind(RxText),
    #[error("a sum out of range")]
    Range(RxText),
    #[error("out of memory")]
    Memory,
}

impl From<AllocError> for UpdateFault {
    ghost use Rattle.std.specs.Prelude.{◌≡◌};
    ghost use Rattle.rx_update.specs.declared.fault.UpdateFault.TheVariants.{Memory};

    ghost from_gives = { λ _ e. e ≡ Memory };

    fn from(_refused: AllocError) -> UpdateFault {
        UpdateFault::Memory
    }
}

/// Why a hook isn't added.
#[derive(Debug, Drop, Error)]
pub enum HookFault {
    /// There is one of that name.
    #[error("a hook of that name is there")]
    Twice(RxText),
    #[error("out of memory")]
    Memory,
}

impl From<AllocError> for HookFault {
    ghost use Rattle.std.specs.Prelude.{◌≡◌};
    ghost use Rattle.rx_update.specs.declared.fault.HookFault.TheVariants.{Memory};

    ghost from_gives = { λ _ e. e ≡ Memory };

    fn from(_refused: AllocError) -> HookFault {
        HookFault::Memory
    }
}

/// Why a state isn't written.
#[derive(Debug, Drop, Error)]
pub enum VetoFault {
    /// The hook of that name vetoes it.
    #[error("a hook vetoes it")]
    Vetoed(RxText),
    #[error("out of memory")]
    Memory,
}

impl From<AllocError> for VetoFault {
    ghost use Rattle.std.specs.Prelude.{◌≡◌};
    ghost use Rattle.rx_update.specs.declared.fault.VetoFault.TheVariants.{Memory};

    ghost from_gives = { λ _ e. e ≡ Memory };

    fn from(_refused: AllocError) -> VetoFault {
        VetoFault::Memory
    }
}
