use std::alloc::AllocError;
use thiserror::Error;

/// Why a reply isn't taken.
#[derive(Debug, Drop, Error)]
pub enum AcceptFault {
    /// It has these numbers, which aren't those of the request.
    #[error("a reply to another request")]
    Foreign(u64, u64),
    /// The fork's last write time was the first at the asking, and is the second.
    #[error("the fork was written since the asking")]
    Moved(u64, u64),
    /// It is no answer to the request. The number is that of the state at fault, counted from 0.
    #[error("a reply that doesn't answer the request")]
    BadReply(usize),
    #[error("out of memory")]
    Memory,
}

impl From<AllocError> for AcceptFault {
    ghost use Rattle.std.specs.Prelude.{◌≡◌};
    ghost use Rattle.rx_fork.specs.declared.fault.AcceptFault.TheVariants.{Memory};

    ghost from_gives = { λ _ e. e ≡ Memory };

    fn from(_refused: AllocError) -> AcceptFault {
        AcceptFault::Memory
    }
}
