//! Texts, values, fields and states; their order, equality and JSON; names; and the reading of a
//! JSON object against a form.
#![tactic(auto)]

mod comparing;
mod fault;
mod fields;
mod form;
mod kinds;
mod list;
mod name;
mod place;
mod reading;
mod rx_text;
mod state;
mod value;
mod writing;

pub use comparing::{compare, is_same};
pub use fault::ValueFault;
pub use fields::Fields;
pub use form::{first_missing, first_unexpected, integer_within, text_at, whole_at, whole_within};
pub use kinds::{Kind, Kinds};
pub use list::RxList;
pub use name::{is_field_name, is_name};
pub use reading::{read_fields, read_fields_beside};
pub use rx_text::RxText;
pub use state::{MARK, State};
pub use value::{LARGEST, Value, is_number, is_text, order, order_laws, text_of};
pub use writing::{put_fields, put_state, write_state};

// For tests.
pub use writing::{fields_json, fields_text, state_json, text, write_fields};
