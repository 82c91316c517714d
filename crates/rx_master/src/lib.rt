//! The master's side of a replication: which rows of a push it takes, and which documents a pull
//! gets.
#![tactic(auto)]

mod page;
mod plan;

pub use page::since;
pub use plan::{MasterPlan, take};
