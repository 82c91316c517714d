//! Observed queries over a collection, whose rows are kept true by small changes.
#![tactic(auto)]

mod deciding;
mod emission;
mod front;
mod full;
mod indexes;
mod laws;
mod live;
mod observed;
mod rows;
mod shared_rows;
mod step;

pub use emission::Emission;
pub use laws::observed_laws;
pub use live::Live;
pub use observed::{Applied, Observed};
pub use shared_rows::SharedRows;
