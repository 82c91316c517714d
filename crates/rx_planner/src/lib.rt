//! Full runs of queries: by which index, between which of its bounds, and their rows.
#![tactic(auto)]

mod bounds;
mod choice;
mod closed;
mod count;
mod exact;
mod find;
mod one;
mod order;
mod path;
mod planned;
mod planning;
mod rows;
mod run;
mod walk;
mod way;

pub use count::in_window;
pub use find::Found;
pub use planned::Plan;
pub use planning::plan;
