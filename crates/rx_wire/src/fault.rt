ghost use Rattle.std.specs.Prelude.{◌≡◌, true, IfOk};
ghost use Rattle.rx_wire.specs.Fault.{fault_name, fault_text};
ghost use Rattle.rx_wire.specs.OneLine.{is_one_line};

use crate::printing::{fault_bytes, text_of};
use rx_value::RxText;
use std::alloc::{AllocError, AllocFailed, Global};
use thiserror::Error;

/// Why a line is no message, in the order of the tests. A fault of a member has its name.
#[derive(Debug, Drop, Error)]
pub enum WireFault {
    #[error("the line is too long")]
    TooLong,
    #[error("the line is not JSON")]
    NotJson,
    #[error("the line is not an object")]
    NotObject,
    #[error("a member is missing")]
    Missing(RxText),
    #[error("an unexpected member")]
    Unexpected(RxText),
    #[error("a member of the wrong type, or a number out of its range")]
    WrongType(RxText),
    /// The hash is that of another schema.
    #[error("another schema")]
    Schema,
    /// Has the number of the row, from 0.
    #[error("a state that is not valid, or a key that stands twice")]
    Invalid(u64),
    /// Has the place of the first byte that differs from the message's text.
    #[error("another spelling of the message")]
    Spelling(u64),
    #[error("memory is wanting")]
    Memory,
}

impl WireFault {
    /// The name that is printed.
    pub fn name(&self) -> &'static str
        ensures { result.now ≡ fault_name self.now }
    {
        match self {
            WireFault::TooLong => "too_long",
            WireFault::NotJson => "not_json",
            WireFault::NotObject => "not_object",
            WireFault::Missing(_) => "missing",
            WireFault::Unexpected(_) => "unexpected",
            WireFault::WrongType(_) => "wrong_type",
            WireFault::Schema => "schema",
            WireFault::Invalid(_) => "invalid",
            WireFault::Spelling(_) => "spelling",
            WireFault::Memory => "memory",
        }
    }

    /// The line that tells a peer of the fault, without its line feed.
    pub fn text(&self, alloc: Global) -> Result<RxText, AllocError>
        ensures text { IfOk result (λ t. t ≡ fault_text self.now) }
        ensures one_line { IfOk result (λ t. is_one_line t ≡ true) }
    {
        let bytes = fault_bytes(alloc, self.name())?;
        Ok(text_of(alloc, bytes)?)
    }
}

impl From<AllocError> for WireFault {
    ghost use Rattle.std.specs.Prelude.{◌≡◌};
    ghost use Rattle.rx_wire.specs.declared.fault.WireFault.TheVariants.{Memory};

    ghost from_gives = { λ _ e. e ≡ Memory };

    fn from(_refused: AllocError) -> WireFault {
        WireFault::Memory
    }
}

impl<T: Drop> From<AllocFailed<T>> for WireFault {
    ghost use Rattle.std.specs.Prelude.{◌≡◌};
    ghost use Rattle.rx_wire.specs.declared.fault.WireFault.TheVariants.{Memory};

    ghost from_gives = { λ _ e. e ≡ Memory };

    fn from(_refused: AllocFailed<T>) -> WireFault {
        WireFault::Memory
    }
}
