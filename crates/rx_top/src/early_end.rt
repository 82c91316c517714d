// Why a run ends before its script does.
use rx_outside::Stop;
use std::alloc::{AllocError, AllocFailed};

/// Why the next line of a script can't be had.
#[derive(Clone, Copy, Debug, PartialEq, Eq)]
pub(crate) enum ReadFault {
    /// The source failed.
    Failed,
    /// The input is too long.
    TooLong,
    Memory,
}

/// Why a run ends before its script does.
#[derive(Debug, Drop)]
pub(crate) enum EarlyEnd {
    Read(ReadFault),
    Work(Stop),
    /// The sink failed.
    Sink,
}

impl From<AllocError> for ReadFault {
    ghost use Rattle.std.specs.Prelude.{◌≡◌};
    ghost use Rattle.rx_top.specs.declared.early_end.ReadFault.TheVariants.{Memory};

    ghost from_gives = { λ _ e. e ≡ Memory };

    fn from(_refused: AllocError) -> ReadFault {
        ReadFault::Memory
    }
}

impl<T: Drop> From<AllocFailed<T>> for ReadFault {
    ghost use Rattle.std.specs.Prelude.{◌≡◌};
    ghost use Rattle.rx_top.specs.declared.early_end.ReadFault.TheVariants.{Memory};

    ghost from_gives = { λ _ e. e ≡ Memory };

    fn from(_refused: AllocFailed<T>) -> ReadFault {
        ReadFault::Memory
    }
}
