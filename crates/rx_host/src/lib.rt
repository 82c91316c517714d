//! A journal without a script. A collection of it as a master, to connections one after another:
//! each reply exists only when the record of its commit is on the disk. And what it holds, as a
//! report. What is due on a connection is rx_serve's, and what holds of a journal at each moment
//! rx_store's.
#![tactic(auto)]

mod checking;
mod connections;
mod engine;
mod host;
mod lines;
mod moments;
mod planning;
mod report;
mod serving;

pub use checking::check;
pub use connections::{ACCEPT_TRIES, ServeFault, serve_connections};
pub use engine::MasterEngine;
