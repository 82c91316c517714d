use rx_fork::AcceptFault;
use std::alloc::AllocError;
use thiserror::Error;

/// Why a reply gives no record.
#[derive(Debug, Drop, Error)]
pub enum TakeFault {
    /// It has these numbers, which aren't those of the request.
    #[error("a reply to another request")]
    Foreign(u64, u64),
    /// The fork's last write time was the first at the asking, and is the second.
    #[error("the fork was written since the asking")]
    Moved(u64, u64),
    /// It is no answer to the request. The number is that of the state at fault, counted from 0.
    #[error("a reply that doesn't answer the request")]
    BadReply(usize),
    #[error("no write time is left")]
    ClockEnd,
    #[error("out of memory")]
    Memory,
}

impl From<AllocError> for TakeFault {
    ghost use Rattle.std.specs.Prelude.{◌≡◌};
    ghost use Rattle.rx_sync.specs.declared.fault.TakeFault.TheVariants.{Memory};

    ghost from_gives = { λ _ e. e ≡ Memory };

    fn from(_refused: AllocError) -> TakeFault {
        TakeFault::Memory
    }
}

impl From<AcceptFault> for TakeFault {
    ghost use Rattle.std.specs.Prelude.{◌≡◌};
    ghost use Rattle.rx_sync.specs.Taking.{take_fault};

    ghost from_gives = { λ fault e. e ≡ take_fault fault };

    fn from(fault: AcceptFault) -> TakeFault {
        match fault {
            AcceptFault::Foreign(epoch, n) => TakeFault::Foreign(epoch, n),
            AcceptFault::Moved(asked, now) => TakeFault::Moved(asked, now),
            AcceptFault::BadReply(place) => TakeFault::BadReply(place),
            AcceptFault::Memory => TakeFault::Memory,
        }
    }
}

/// Why an event gives no record.
#[derive(Debug, Drop, Error)]
pub enum EventFault {
    /// The fork has all that the master had at its place.
    #[error("an event that the fork is beyond")]
    Old,
    /// So many documents of the fork are to be pushed before it.
    #[error("an event before which documents are to be pushed")]
    Pending(usize),
    /// It isn't from the place that the fork has come to: one before it was lost.
    #[error("an event behind a lost one")]
    Gap,
    #[error("no write time is left")]
    ClockEnd,
    #[error("out of memory")]
    Memory,
}

impl From<AllocError> for EventFault {
    ghost use Rattle.std.specs.Prelude.{◌≡◌};
    ghost use Rattle.rx_sync.specs.declared.fault.EventFault.TheVariants.{Memory};

    ghost from_gives = { λ _ e. e ≡ Memory };

    fn from(_refused: AllocError) -> EventFault {
        EventFault::Memory
    }
}
