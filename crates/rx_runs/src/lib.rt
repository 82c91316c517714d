//! Runs: maps from names, in chunks of pairs by rising name; slots, in which values stay; and names
//! with slots, apart by a mark.
#![tactic(auto)]

mod block;
mod chunk;
mod marked;
mod name;
mod pairs;
mod rows;
mod run;
mod slots;

pub use chunk::Chunk;
pub use marked::{AllSlots, MarkedRun};
pub use name::Name;
pub use pairs::Pairs;
pub use rows::Rows;
pub use run::Run;
pub use slots::Slots;
