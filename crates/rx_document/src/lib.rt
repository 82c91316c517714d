//! Documents as a collection stores them, their places, and the changes that queries hear of.
#![tactic(auto)]

mod change;
mod lookup;
mod place;
mod revision;
mod stored;

pub use change::{Before, Change};
pub use lookup::Lookup;
pub use place::{Place, place_laws};
pub use revision::Revision;
pub use stored::Stored;
