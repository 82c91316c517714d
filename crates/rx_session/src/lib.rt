//! What there is between two lines of a script: a world whose collections have their observed
//! queries, the hooks, the open streams, and the present moment. A line that writes several records
//! plays them one after another, and then settles.
#![tactic(auto)]

mod applying;
mod doing;
mod emitting;
mod next;
mod playing;
mod query_place;
mod reopening;
mod session;
mod streaming;

pub use applying::apply;
pub use doing::{Doing, Opening, Watch};
pub use playing::Playing;
pub use session::Session;
