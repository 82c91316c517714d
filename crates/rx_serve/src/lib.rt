//! A master's connections: the lines of a wire, each request answered in turn, and what is due on a
//! wire however it cuts its input. It knows nothing of journals: an `Answer` keeps what it answers.
#![tactic(auto)]

mod answer;
mod calling;
mod ended;
mod incoming;
mod piece;
mod sending;
mod serving;

pub use answer::Answer;
pub use calling::{CallFault, call};
pub use ended::{Ended, Why};
pub use piece::{PIECE_BYTES, piece_size};
pub use serving::serve;
