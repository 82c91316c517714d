use rx_selector::SelectorFault;
use rx_value::RxText;
use std::alloc::{AllocError, AllocFailed};
use thiserror::Error;

/// Why a JSON value is no query.
#[derive(Debug, Drop, Error)]
pub enum QueryFault {
    #[error("a query that is no object")]
    NotObject,
    #[error("an unknown member")]
    Member(RxText),
    #[error("a wrong selector")]
    Selector(SelectorFault),
    /// Names the property, or `sort` where none can be named.
    #[error("a wrong sort")]
    Sort(RxText),
    #[error("a wrong skip")]
    Skip,
    #[error("a wrong limit")]
    Limit,
    #[error("out of memory")]
    Memory,
}

impl From<SelectorFault> for QueryFault {
    ghost use Rattle.std.specs.Prelude.{◌≡◌};
    ghost use Rattle.rx_query.specs.Faults.{of_selector};

    ghost from_gives = { λ f e. e ≡ of_selector f };

    fn from(fault: SelectorFault) -> QueryFault {
        match fault {
            SelectorFault::Memory => QueryFault::Memory,
            fault => QueryFault::Selector(fault),
        }
    }
}

impl From<AllocError> for QueryFault {
    ghost use Rattle.std.specs.Prelude.{◌≡◌};
    ghost use Rattle.rx_query.specs.declared.fault.QueryFault.TheVariants.{Memory};

    ghost from_gives = { λ _ e. e ≡ Memory };

    fn from(_refused: AllocError) -> QueryFault {
        QueryFault::Memory
    }
}

impl<T: Drop> From<AllocFailed<T>> for QueryFault {
    ghost use Rattle.std.specs.Prelude.{◌≡◌};
    ghost use Rattle.rx_query.specs.declared.fault.QueryFault.TheVariants.{Memory};

    ghost from_gives = { λ _ e. e ≡ Memory };

    fn from(_refused: AllocFailed<T>) -> QueryFault {
        QueryFault::Memory
    }
}
