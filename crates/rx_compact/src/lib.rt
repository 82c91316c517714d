//! Copies of journals: a journal of the second version that makes the world of another one, with
//! what the world holds in the place of all that was written on the way.
#![tactic(auto)]

mod compacting;
mod copying;
mod laws;
mod plan;
mod writing;

pub use compacting::{CompactFault, Compacted, compact};
pub use copying::Copied;
pub use laws::copy_laws;
