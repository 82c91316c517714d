use rx_value::RxText;
use std::alloc::{AllocError, AllocFailed};
use thiserror::Error;

/// Why a JSON value is no schema. A fault of a member has the name in question.
#[derive(Debug, Drop, Error)]
pub enum SchemaFault {
    #[error("not an object")]
    NotObject,
    #[error("a word that is unknown or out of its form")]
    Keyword(RxText),
    #[error("a version that is no number from 0 to 65535")]
    Version,
    #[error("a primary key that is no text property with a length")]
    Primary,
    #[error("a property whose name is no field name")]
    FieldName(RxText),
    #[error("a property of an unknown type")]
    Kind(RxText),
    #[error("a property whose bounds are out of range")]
    Bounds(RxText),
    #[error("a required name that is no property")]
    Required(RxText),
    #[error("an index that is out of its form, or of a property without bounds")]
    Index(RxText),
    #[error("too many properties, indexes or code points")]
    TooMany,
    #[error("out of memory")]
    Memory,
}

impl From<AllocError> for SchemaFault {
    ghost use Rattle.std.specs.Prelude.{◌≡◌};
    ghost use Rattle.rx_schema.specs.declared.fault.SchemaFault.TheVariants.{Memory};

    ghost from_gives = { λ _ e. e ≡ Memory };

    fn from(_refused: AllocError) -> SchemaFault {
        SchemaFault::Memory
    }
}

impl<T: Drop> From<AllocFailed<T>> for SchemaFault {
    ghost use Rattle.std.specs.Prelude.{◌≡◌};
    ghost use Rattle.rx_schema.specs.declared.fault.SchemaFault.TheVariants.{Memory};

    ghost from_gives = { λ _ e. e ≡ Memory };

    fn from(_refused: AllocFailed<T>) -> SchemaFault {
        SchemaFault::Memory
    }
}
