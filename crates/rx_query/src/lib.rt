//! Queries: which documents, in which order and how many, and the rows that they give.
#![tactic(auto)]

mod comparing;
mod fault;
mod laws;
mod query;
mod reading;
mod results;
mod scratch;

pub use fault::QueryFault;
pub use laws::query_laws;
pub use query::Query;
pub use results::{Results, Row};
