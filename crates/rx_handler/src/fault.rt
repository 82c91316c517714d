use rx_value::RxText;
use std::alloc::AllocError;
use thiserror::Error;

/// Why a handler isn't added.
#[derive(Debug, Drop, Error)]
pub enum HandlerFault {
    /// There is one of that name.
    #[error("a handler of that name is there")]
    Twice(RxText),
    #[error("out of memory")]
    Memory,
}

impl From<AllocError> for HandlerFault {
    ghost use Rattle.std.specs.Prelude.{◌≡◌};
    ghost use Rattle.rx_handler.specs.declared.fault.HandlerFault.TheVariants.{Memory};

    ghost from_gives = { λ _ e. e ≡ Memory };

    fn from(_refused: AllocError) -> HandlerFault {
        HandlerFault::Memory
    }
}
