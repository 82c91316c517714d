//! Live streams: what a master commits, as events for a fork that doesn't ask.
#![tactic(auto)]

mod copies;
mod event;
mod queue;
mod stream;

pub use event::{Event, MAX_STATES};
pub use queue::{MAX_QUEUED, Queue};
pub use stream::Stream;
