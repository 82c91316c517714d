//! The fork's side of a replication: what it has to push, what it asks, and how it takes an answer.
#![tactic(auto)]

mod accept;
mod ask;
mod fault;
mod fitting;
mod fork;
mod laws;
mod lists;
mod pulled;
mod pushed;

pub use accept::ExchangePlan;
pub use ask::Asked;
pub use fault::AcceptFault;
pub use fork::Fork;
pub use laws::resolved_state_laws;
