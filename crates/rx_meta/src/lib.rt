//! What a fork knows of its master: the master's states that it learnt last, and how far it has
//! pushed and pulled.
#![tactic(auto)]

mod all;
mod meta;
mod migrating;

pub use all::Known;
pub use meta::Meta;
