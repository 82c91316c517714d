//! Migrations: the steps that take a state from one version of a schema to the next, and what they
//! make of it.
#![tactic(auto)]

mod fault;
mod migrating;
mod reading;
mod step;
mod steps;
mod sure;

pub use fault::StepsFault;
pub use migrating::migrate_laws;
pub use step::{MOST_BY, Step, is_step};
pub use steps::{MOST_STEPS, Steps};
