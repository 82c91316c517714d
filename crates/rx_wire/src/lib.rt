//! The messages between a fork and its master: each is one line in one spelling, which is read
//! exactly and written so that it reads back.
#![tactic(auto)]

mod fault;
mod form;
mod kept;
mod known;
mod line;
mod message;
mod number;
mod printing;
mod reading;
mod spelling;
mod state_printing;
mod states;

pub use fault::WireFault;
pub use line::LONGEST_LINE;
pub use message::{AskKind, Body, PushRow, Reply, Request};
pub use states::MOST_STATES;
