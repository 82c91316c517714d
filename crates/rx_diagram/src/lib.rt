//! The decision table as a diagram, which asks only the questions that still matter.
//!
//! A node asks one question, and leads by its answer to a later question's node or to the table's
//! action. [`Diagram::build`] shares what is equal, so that the diagram is the least one in the
//! order of the questions, and asks a question exactly where the table still depends on it.
#![tactic(auto)]

mod build;
mod diagram;
mod laws;
mod node;

pub use diagram::{Decided, Diagram};
pub use laws::asked_laws;
pub use node::{Edge, Node};
