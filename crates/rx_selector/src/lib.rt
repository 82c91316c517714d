//! Selectors: which fields a query asks for.
#![tactic(auto)]

mod fault;
mod holding;
mod operand;
mod operators;
mod reading;
mod selector;
mod tree;
mod values;

pub use fault::SelectorFault;
pub use holding::is_same_kind;
pub use selector::Selector;
pub use tree::{Clause, Compare, Test};
