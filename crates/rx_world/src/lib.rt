//! Collections and replications by name: what the records of a journal do to them, where they are
//! legal, and the records of a commit and of a migration.
#![tactic(auto)]

mod chain;
mod change;
mod copying;
mod fault;
mod following;
mod holders;
mod legality;
mod migrating;
mod names;
mod parts;
mod remade;
mod replicating;
mod replicating_views;
mod replication;
mod replications;
mod rows;
mod same;
mod schema_text;
mod soundness;
mod valid_views;
mod world;

pub use copying::{MOST_COPIED_EPOCH, copy};
pub use fault::{ApplyFault, MigrateFault, StepFault};
pub use holders::with_holders;
pub use migrating::migration_laws;
pub use parts::{MAX_COLLECTIONS, MAX_REPLICATIONS};
pub use replication::Replication;
pub use rows::{commit, rows_out};
pub use world::World;
