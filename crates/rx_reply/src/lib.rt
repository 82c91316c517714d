//! What the lines of a script are answered, and the lines of output. They are printed token by
//! token from what an answer lends, so no document is copied and no JSON tree is made. The parts of
//! lines that others print are here too.
#![tactic(auto)]

mod emission;
mod explain;
mod form;
mod given;
mod refusal;
mod reply;
mod swept;
mod turn;
mod writing;

pub use emission::emission_line;
pub use given::{Given, Took};
pub use refusal::{Cause, DocumentFault, MigrationCause, Refusal};
pub use reply::Reply;
pub use swept::{Pass, Swept};
pub use turn::{Exchanged, Lost, TurnEnd};
pub use writing::{
    finish_line, line_after, put_maybe_number, put_maybe_text, put_number, put_text,
};
