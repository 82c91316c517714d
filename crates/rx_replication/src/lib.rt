//! Replication by definitions: what a fork, its master and the link between them do, that every
//! interleaving of it is sound, and how many exchanges are enough. No code runs here; the crates
//! that do are bound to these definitions.
#![tactic(auto)]

mod interleaving;
mod left;

pub use interleaving::every_interleaving;
pub use left::pushes_left_laws;
