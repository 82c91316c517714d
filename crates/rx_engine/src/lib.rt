//! A line of a script is its meaning. Its records are on the disk before its reply exists, or wait
//! with it for a commit. What a journal is, and what holds of it at each moment, is rx_store's.
#![tactic(auto)]

mod answering;
mod asking;
mod calling;
mod calls;
mod changing;
mod deliveries;
mod delivering;
mod dialling;
mod engine;
mod exchanging;
mod grouping;
mod hooking;
mod judging;
mod listing;
mod lives;
mod lookup;
mod marks;
mod migrate;
mod opening;
mod outcome;
mod output;
mod play;
mod queries;
mod remembered;
mod remote;
mod replicate;
mod requests;
mod sound_session;
mod streams;
mod sweeping;
mod sweeps;
mod turn_line;
mod turning;
mod turns;
mod writes;

pub use engine::Engine;
pub use grouping::Staged;
pub use output::Output;
