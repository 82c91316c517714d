//! Indexes: the compound keys of documents in order, and the documents between two bounds.
#![tactic(auto)]

mod bound;
mod filled;
mod index;
mod packed;
mod range;
mod view;

pub use bound::{Bound, bound_laws};
pub use filled::Filling;
pub use index::Index;
pub use range::{Entry, Range};
pub use view::{IndexView, Indexes};
