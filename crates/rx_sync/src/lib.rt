//! What the forks and masters of one journal do with each other: what a fork asks, what its master
//! answers, how the fork takes it, turns of such exchanges over a link that loses, repeats and
//! delays, deliveries of a stream's events, and sweeps over a tree; and how a fork takes what is
//! heard of a master elsewhere. A world is only read here. What is to be written is given as
//! records.
#![tactic(auto)]

mod asking;
mod asks;
mod copies;
mod earlier;
mod events;
mod exchanging;
mod fault;
mod giving;
mod handling;
mod laws;
mod lookup;
mod remote;
mod sweeping;
mod taking;

pub use asking::{ask, ask_to_pull, pending};
pub use asks::Asks;
pub use copies::copy_of_request;
pub use earlier::late;
pub use events::{is_level, take_event};
pub use exchanging::{Planned, exchange, lost_by};
pub use fault::{EventFault, TakeFault};
pub use giving::{Giving, give, given_as, is_resync};
pub use handling::{Handled, handle, handle_by};
pub use laws::{
    any_reply_laws, bound_laws, delivery_laws, message_laws, remote_turn_laws, sweep_laws,
    turn_laws,
};
pub use remote::{Heard, fork_schema, hear};
pub use sweeping::{Step, sweep_steps};
pub use taking::take;
