ghost use Rattle.serde_json.specs.View.{view};
ghost use Rattle.rx_value.specs.Due.{DueBy};
ghost use Rattle.rx_wire.specs.Kept.{kept_object};
ghost use Rattle.rx_wire.specs.declared.fault.WireFault.TheVariants.{Memory};

use crate::fault::WireFault;
use crate::kept::{Unread, read_kept};
use rx_schema::Schema;
use serde_json::Value as Json;
use std::alloc::Global;

/// The most bytes that a line may have, without its line feed.
pub const LONGEST_LINE: usize = 268_435_456;

/// What is kept of the object that a line is.
pub(crate) fn read_object(alloc: Global, schema: &Schema, line: &[u8]) -> Result<Json, WireFault>
    ensures { DueBy Memory view result (kept_object schema.now line.now) }
{
    if line.len() > LONGEST_LINE {
        return Err(WireFault::TooLong);
    }
    let Ok(text) = simdutf8::compat::from_utf8(line) else {
        return Err(WireFault::NotJson);
    };
    match read_kept(alloc, schema, text) {
        Ok(json) => if json.is_object() {
            Ok(json)
        } else {
            Err(WireFault::NotObject)
        },
        Err(Unread::Memory) => Err(WireFault::Memory),
        Err(Unread::Json) => Err(WireFault::NotJson),
    }
}
