use thiserror::Error;

/// Why a body is no record: the place, from 0, of the first part that is cut short, out of its
/// form, its range or its order, or stands after the record's end. A part is a byte, a number, or
/// a text with its length.
#[derive(Clone, Copy, Debug, PartialEq, Eq, Error)]
#[error("not a record")]
pub struct At(pub u64);
