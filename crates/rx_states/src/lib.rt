//! The answers to the decision table's questions, from a query, a change and the rows before it.
#![tactic(auto)]

mod answers;
mod beside;
mod edges;
mod facts;
mod forms;
mod matches;
mod sides;

pub use beside::{Beside, SPOTS};
pub use edges::Edges;
pub use facts::Facts;
pub use matches::Matches;
pub use sides::Sides;
