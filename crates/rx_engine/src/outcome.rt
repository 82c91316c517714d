use crate::remote::Call;
use crate::streams::Deliver;
use crate::sweeping::Sweep;
use crate::turning::Turn;
use rx_record::Record;
use rx_reply::Reply;
use rx_session::Doing;

/// What a line does: something to the session, or the record of a migration is written, or it opens
/// the journal again, in that epoch.
#[derive(Drop)]
pub(crate) enum LineDoing {
    InSession(Doing),
    Migrate(Record),
    Restart(u64),
}

/// What a line does, and what it is answered then.
#[derive(Drop)]
pub(crate) struct Outcome<'a> {
    pub doing: LineDoing,
    pub reply: Reply<'a>,
}

/// What a line comes to: an outcome; or a turn, to a master of this journal or to one elsewhere,
/// the turns of a tree, or a delivery, which are answered once they are made.
#[derive(Drop)]
pub(crate) enum Task<'a> {
    Answered(Outcome<'a>),
    Turns(Turn),
    Calls(Call),
    Sweeps(Sweep),
    Delivers(Deliver),
}
