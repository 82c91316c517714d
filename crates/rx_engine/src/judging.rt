// What a line comes to, with its reply printed where it has one already.
ghost use Rattle.std.specs.Prelude.{IfOk};
ghost use Rattle.rx_handler.specs.Shown.{kinds_of};
ghost use Rattle.rx_world.specs.Sound.{IsSoundWorld};
ghost use Rattle.rx_engine.specs.Judged.{IsJudged, IsPrinted, MayDoJudged};
ghost use Rattle.rx_engine.specs.Lines.{task};
ghost use Rattle.rx_engine.specs.Shown.{outcome_of};

use crate::asking::plan;
use crate::outcome::{LineDoing, Outcome, Task};
use crate::remote::Call;
use crate::streams::Deliver;
use crate::sweeping::Sweep;
use crate::turning::Turn;
use rx_handler::Handlers;
use rx_session::Session;
use rx_update::Hooks;
use std::alloc::{AllocError, Global};

/// What a line does, and the line of its reply, which lends nothing of the session.
#[derive(Drop)]
pub(crate) struct Printed {
    pub doing: LineDoing,
    pub text: String,
    pub refused: bool,
}

/// What a line comes to: something to do, which is answered already; or a turn, to a master of this
/// journal or to one elsewhere; or the turns of a tree; or a delivery.
#[derive(Drop)]
pub(crate) enum Judged {
    Printed(Printed),
    Turns(Turn),
    Calls(Call),
    Sweeps(Sweep),
    Delivers(Deliver),
}

/// Judges a line that isn't blank.
pub(crate) fn judge(
    alloc: Global,
    session: &Session,
    handlers: &Handlers,
    hooks: &Hooks,
    text: &[u8],
    number: u64,
) -> Result<Judged, AllocError>
    requires sound { IsSoundWorld session.now.world }
    ensures judged { IfOk result
        (λ j. IsJudged number j (task (kinds_of handlers.now) text.now session.now)) }
    ensures may { IfOk result (λ j. MayDoJudged j session.now) }
{
    match plan(alloc, session, handlers, hooks, text)? {
        Task::Answered(outcome) => Ok(Judged::Printed(print(alloc, outcome, number)?)),
        Task::Turns(turn) => Ok(Judged::Turns(turn)),
        Task::Calls(call) => Ok(Judged::Calls(call)),
        Task::Sweeps(sweep) => Ok(Judged::Sweeps(sweep)),
        Task::Delivers(deliver) => Ok(Judged::Delivers(deliver)),
    }
}

// What is done, with the line of its reply.
fn print(alloc: Global, outcome: Outcome<'_>, number: u64) -> Result<Printed, AllocError>
    ensures { IfOk result (λ p. IsPrinted number p (outcome_of outcome.entry)) }
{
    let Outcome { doing, reply } = outcome;
    let text = reply.lines(alloc, number)?;
    let refused = reply.is_refusal();
    Ok(Printed {
        doing,
        text,
        refused,
    })
}
