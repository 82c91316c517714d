//! What lines of writing make of documents: the states that are written, after the hooks that stand
//! before a write, or why a line writes none (`exact` of each call). They are told from a lent
//! collection alone; when a state is written, and where, is not known here.
#![tactic(auto)]

mod documents;
mod fault;
mod hooked;
mod rows;
mod states;

pub use documents::{find_document, revision_at};
pub use fault::Fault;
pub use rows::{Rows, read_rows};
pub use states::{insert_state, patch_state, remove_state, update_state, upsert_state};
