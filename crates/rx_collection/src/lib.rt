//! Collections: finite maps from keys to documents, tombstones too, seen by key and by place.
#![tactic(auto)]

mod all;
mod collection;
mod commit;
mod hints;
mod holder;
mod log;
mod migrating;
mod page;
mod same;

pub use all::All;
pub use collection::{Collection, MOST_LWT};
pub use holder::{Holder, Plain};
pub use page::Page;
