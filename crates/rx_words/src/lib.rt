//! The words after the program's name, and the command that they are.
//!
//! `command_of` is its definition: a command exactly where the words are one. `clap` tells values
//! and the option apart; which values a command wants is told here. It knows nothing of what a
//! command does.
#![tactic(auto)]

mod command;
mod given;
mod number;
mod words;

pub use command::Command;
pub use words::{Words, command_of};
