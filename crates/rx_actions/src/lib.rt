//! What is done to a query's rows after a change, and that the decision table chooses it rightly.
#![tactic(auto)]

mod acting;
mod laws;
mod places;

pub use acting::act;
pub use laws::table_laws;
