//! The program over any source, sink, disk, door, dial and clock: a command from its words to its
//! status, and the play of a script from its bytes to its answers.
//!
//! `program` is the call that the program makes: `rx` with the handlers and hooks that lines may
//! name. What both promise stands in specs/Program, and of each command in a record: `PlaysScript`
//! of `run`, `ServesCollection` of `serve`, `ReportsJournal` of `check`, `TriesScript` of `trial`
//! and `CopiesJournal` of `compact`. What the end of a command tells besides is a law (`run_ends`,
//! `trial_ends`, `serve_ends`, `check_ends`, `compact_ends`). It knows nothing of what a line
//! means.
#![tactic(auto)]

mod blank;
mod check;
mod compact;
mod early_end;
mod group;
mod known;
mod laws;
mod play;
mod reader;
mod run;
mod serve;
mod stop;
mod tally;
mod telling;
mod top;
mod trial;

pub use known::program;
pub use laws::{
    check_ends, compact_ends, copy_starts, goes_on, play_alike, run_ends, serve_ends, starts_empty,
    trial_ends, turn_lines_end_in_time,
};
pub use top::rx;
