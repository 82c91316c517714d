ghost use Rattle.std.specs.Prelude.{◌≡◌, IfOk};
ghost use Rattle.rx_world.specs.Schema.{schema_in};

use rx_schema::{Schema, SchemaFault};
use serde_json::Value as Json;
use std::alloc::{AllocError, Global};

// The schema whose canonical text this is.
pub(crate) fn schema_in(alloc: Global, text: &str) -> Result<Option<Schema>, AllocError>
    ensures { IfOk result (λ s. s ≡ schema_in text.now) }
{
    let json = match Json::from_str(alloc, text) {
        Ok(json) => json,
        Err(e) => if e.is_memory() {
            return Err(AllocError);
        } else {
            return Ok(None);
        },
    };
    let schema = match Schema::read(alloc, &json) {
        Ok(schema) => schema,
        Err(SchemaFault::Memory) => return Err(AllocError),
        Err(_) => return Ok(None),
    };
    if schema.canonical().as_str() == text {
        Ok(Some(schema))
    } else {
        Ok(None)
    }
}
