use rx_value::RxText;
use std::alloc::AllocError;
use thiserror::Error;

/// Why a line asks nothing. A fault of a member has the member's name.
#[derive(Debug, Drop, Error)]
pub enum LineFault {
    #[error("the line is too long")]
    TooLong,
    /// The line is no JSON text, or nests deeper than 127 levels.
    #[error("the line is not JSON")]
    NotJson,
    #[error("the line is not an object")]
    NotObject,
    /// Has the text of `do`.
    #[error("an unknown kind of line")]
    UnknownDo(RxText),
    #[error("a member is missing")]
    Missing(RxText),
    #[error("an unexpected member")]
    Unexpected(RxText),
    #[error("a member of the wrong type")]
    WrongType(RxText),
    #[error("a member that is not a name")]
    Name(RxText),
    #[error("a number out of its limits")]
    Batch(RxText),
    #[error("memory is wanting")]
    Memory,
}

impl From<AllocError> for LineFault {
    ghost use Rattle.std.specs.Prelude.{◌≡◌};
    ghost use Rattle.rx_script.specs.declared.fault.LineFault.TheVariants.{Memory};

    ghost from_gives = { λ _ e. e ≡ Memory };

    fn from(_refused: AllocError) -> LineFault {
        LineFault::Memory
    }
}
