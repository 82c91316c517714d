//! The trees of forks and masters in one journal: what the root of a collection is, which are
//! joined, and which may follow which.
#![tactic(auto)]

mod fault;
mod orders;
mod roots;
mod tree;

pub use roots::MOST_COLLECTIONS;
pub use tree::tree_laws;

// For tests.
pub use fault::TreeFault;
pub use tree::Tree;
