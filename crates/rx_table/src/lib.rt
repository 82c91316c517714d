//! The decision table: how a query's rows follow one change of one document.
//!
//! Nineteen questions about the query, the change and the rows before it are answered by yes or no,
//! by whoever implements [`Ask`]. The answers are the bits of one number, each at its question's
//! number in [`StateName`], the lowest at 0. [`table`] reads them, and names what to do with the
//! rows, mostly without a look at any other document.
#![tactic(auto)]

mod action;
mod ask;
mod counts;
mod rows;
mod states;

pub use action::Action;
pub use ask::Ask;
pub use counts::Counts;
pub use rows::table;
pub use states::StateName;
