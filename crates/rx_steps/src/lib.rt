//! Binds what runs to the system of rx_replication, so that what was proved over every interleaving
//! speaks of it: whatever happens in a journal beside a fork whose master is of the same journal,
//! and in its turns, is a list of steps (`step_laws`), and so is what a master answers to requests,
//! over a connection too (`handling_laws`), and what the lines of a script do (`script_laws`),
//! whose requests have numbers as long as what they may ask fits (`number_laws`). And what users of
//! replication lean on: what a taking learns, which replies are refused and change nothing, when a
//! turn ends by the clock, and that a lawful message fits a line of the wire (`taking_laws`,
//! `stale_laws`, `exchange_laws`, `text_laws`). It knows nothing of a disk, and no code runs here.
#![tactic(auto)]

mod laws;
mod takings;
mod texts;

pub use laws::{handling_laws, number_laws, script_laws, step_laws};
pub use takings::{exchange_laws, stale_laws, taking_laws};
pub use texts::text_laws;
