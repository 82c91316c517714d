//! The script of a trial: lines that draw their documents, removals, moments and turns from a seed,
//! and the line that sums a trial up. It knows nothing of what the lines do.
//!
//! `Generator::new` holds the whole script, `Generator::next` takes one line off its front, and
//! `summary_line` is the summary.
#![tactic(auto)]

mod drawing;
mod generator;
mod line;
mod lines;
mod printing;
mod summary;

pub use generator::Generator;
pub use summary::{Summary, summary_line};
