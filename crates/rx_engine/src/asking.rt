// What a line is to do.
ghost use Rattle.std.specs.Prelude.{◌≡◌, IfOk};
ghost use Rattle.rx_value.specs.Due.{DueBy};
ghost use Rattle.rx_handler.specs.Shown.{kinds_of};
ghost use Rattle.rx_reply.specs.Answer as answer;
ghost use Rattle.rx_script.specs.Asked.{asked, IsLawful};
ghost use Rattle.rx_session.specs.Doing.{set_clock, MayDo};
ghost use Rattle.rx_world.specs.Sound.{IsSoundWorld};
ghost use Rattle.rx_engine.specs.Lines.{line_task, asked_outcome, asked_task, restart_line, task};
ghost use Rattle.rx_engine.specs.Shown.{doing_of, outcome_of, task_of, MayDoTask};
ghost use Rattle.rx_writes.specs.declared.fault.Fault.TheVariants.{Memory};

use crate::hooking::hook_line;
use crate::listing::{changes_line, digest_line};
use crate::migrate::migrate_line;
use crate::outcome::{LineDoing, Outcome, Task};
use crate::queries::{
    answer_alone, count_line, explain_line, find_line, get_line, observe_line, unobserve_line,
};
use crate::replicate::{Wanted, master_of, replicate_line};
use crate::streams::{deliver_line, stream_line, unstream_line};
use crate::sweeping::sweep_line;
use crate::turn_line::turn_line;
use crate::writes::{
    bulk_line, collection_line, insert_line, patch_line, remove_line, update_line, upsert_line,
};
use rx_handler::Handlers;
use rx_reply::{Refusal, Reply};
use rx_script::Line;
use rx_session::{Doing, Session};
use rx_update::Hooks;
use rx_writes::Fault;
use std::alloc::{AllocError, Global};

/// What a line that isn't blank comes to.
pub(crate) fn plan<'a>(
    alloc: Global,
    session: &'a Session,
    handlers: &Handlers,
    hooks: &Hooks,
    text: &[u8],
) -> Result<Task<'a>, AllocError>
    requires sound { IsSoundWorld session.now.world }
    ensures exact { IfOk result
        (λ p. task_of p ≡ task (kinds_of handlers.now) text.now session.now) }
    ensures may { IfOk result (λ p. MayDoTask p session.now) }
{
    match plan_text(alloc, session, handlers, hooks, text) {
        Ok(plan) => Ok(plan),
        Err(Fault::Refused(refusal)) => {
            Ok(Task::Answered(answer_alone(Reply::Refused(refusal))))
        }
        Err(Fault::Memory) => Err(AllocError),
    }
}

// What the text comes to, or why it is refused.
fn plan_text<'a>(
    alloc: Global,
    session: &'a Session,
    handlers: &Handlers,
    hooks: &Hooks,
    text: &[u8],
) -> Result<Task<'a>, Fault>
    requires sound { IsSoundWorld session.now.world }
    ensures exact { DueBy Memory task_of result
        (line_task (kinds_of handlers.now) text.now session.now) }
    ensures may { IfOk result (λ p. MayDoTask p session.now) }
{
    let line = Line::read(alloc, text)?;
    plan_task(alloc, session, handlers, hooks, line)
}

// What a line that was read comes to, or why it is refused.
fn plan_task<'a>(
    alloc: Global,
    session: &'a Session,
    handlers: &Handlers,
    hooks: &Hooks,
    line: Line,
) -> Result<Task<'a>, Fault>
    requires lawful { IsLawful (asked line) }
    requires sound { IsSoundWorld session.now.world }
    ensures exact { DueBy Memory task_of result
        (asked_task (kinds_of handlers.now) (asked line) session.now) }
    ensures may { IfOk result (λ p. MayDoTask p session.now) }
{
    match line {
        Line::Turn {
            name,
            batch,
            budget,
            link,
        } => turn_line(alloc, session, handlers, name, batch, budget, link),
        Line::Sweep {
            name,
            batch,
            budget,
        } => sweep_line(alloc, session, handlers, &name, batch, budget),
        Line::Deliver { name, link } => deliver_line(alloc, session, name, link),
        line => Ok(Task::Answered(plan_line(alloc, session, handlers, hooks, line)?)),
    }
}

// What a line that was read does, or why it is refused.
fn plan_line<'a>(
    alloc: Global,
    session: &'a Session,
    handlers: &Handlers,
    hooks: &Hooks,
    line: Line,
) -> Result<Outcome<'a>, Fault>
    requires lawful { IsLawful (asked line) }
    requires sound { IsSoundWorld session.now.world }
    ensures exact { DueBy Memory outcome_of result
        (asked_outcome (kinds_of handlers.now) (asked line) session.now) }
    ensures may { IfOk result (λ p. MayDo (doing_of p.doing) session.now) }
{
    match line {
        Line::Collection { name, schema } => collection_line(alloc, session, name, &schema),
        Line::Insert { coll, doc } => insert_line(alloc, session, hooks, &coll, &doc),
        Line::Bulk { coll, docs } => bulk_line(alloc, session, hooks, &coll, docs.as_slice()),
        Line::Upsert { coll, doc } => upsert_line(alloc, session, hooks, &coll, &doc),
        Line::Patch {
            coll,
            key,
            set,
            rev,
        } => patch_line(alloc, session, hooks, &coll, key, &set, &rev),
        Line::Update {
            coll,
            key,
            update,
            rev,
        } => update_line(alloc, session, hooks, &coll, key, &update, &rev),
        Line::Remove { coll, key, rev } => remove_line(alloc, session, hooks, &coll, key, &rev),
        Line::Hook {
            coll,
            when,
            hook,
            field,
        } => hook_line(alloc, session, coll, when, hook, field),
        Line::Migrate {
            coll,
            schema,
            steps,
        } => migrate_line(alloc, session, &coll, &schema, steps),
        Line::Get { coll, key } => get_line(alloc, session, &coll, &key),
        Line::Find { coll, query } => find_line(alloc, session, &coll, &query),
        Line::Count { coll, query } => count_line(alloc, session, &coll, &query),
        Line::Observe { name, coll, query } => observe_line(alloc, session, name, coll, &query),
        Line::Unobserve { name } => unobserve_line(session, name),
        Line::Explain { name } => explain_line(session, &name),
        Line::Replicate {
            name,
            fork,
            master,
            handler,
            field,
        } => replicate_line(
            alloc,
            session,
            handlers,
            Wanted {
                name,
                fork,
                master: master_of(master),
                handler,
                field,
            },
        ),
        // Turns and a delivery are no outcomes, and are planned before.
        Line::Turn { .. } | Line::Sweep { .. } | Line::Deliver { .. } => {
            Err(Fault::Refused(Refusal::NoReplication))
        }
        Line::Stream { name } => stream_line(alloc, session, name),
        Line::Unstream { name } => unstream_line(session, name),
        Line::Changes { coll, since, batch } => changes_line(alloc, session, &coll, since, batch),
        Line::Tick { at } => Ok(tick(at)),
        Line::Restart => restart_line(session),
        Line::Digest { coll } => digest_line(alloc, session, &coll),
    }
}

fn tick<'a>(at: u64) -> Outcome<'a>
    ensures exact { outcome_of result ≡ record { doing = set_clock at; answer = answer.tick } }
    ensures may { doing_of result.doing ≡ set_clock at }
{
    Outcome {
        doing: LineDoing::InSession(Doing::SetClock(at)),
        reply: Reply::Tick,
    }
}

fn restart_line<'a>(session: &Session) -> Result<Outcome<'a>, Fault>
    ensures exact { DueBy Memory outcome_of result (restart_line session.now) }
    ensures may { IfOk result (λ p. MayDo (doing_of p.doing) session.now) }
{
    // Each epoch has a record, and a journal holds fewer than 2^32 bytes.
    let Some(epoch) = session.epoch().checked_add(1) else {
        return Err(Fault::Memory);
    };
    Ok(Outcome {
        doing: LineDoing::Restart(epoch),
        reply: Reply::Restart { epoch },
    })
}
