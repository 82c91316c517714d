//! Schemas: which fields a document has and what they hold.
#![tactic(auto)]

mod fault;
mod lent_value;
mod names;
mod property;
mod reading;
mod rule;
mod schema;
mod shape;
mod validity;
mod writing;

pub use fault::SchemaFault;
pub use lent_value::LentValue;
pub use names::MOST_INDEX_FIELDS;
pub use property::{MOST_CODE_POINTS, USUAL_CODE_POINTS};
pub use reading::{MOST_INDEXES, MOST_PROPERTIES, MOST_VERSION};
pub use rule::{Bounds, Rule};
pub use schema::Schema;
pub use shape::Shape;
pub use validity::Invalid;
