// The lines that make a collection and write documents.
ghost use Rattle.std.specs.Prelude.{◌≡◌, ◌<◌, ℕ, List, true, map, length, Some, IfOk};
ghost use Rattle.std.specs.List.{AllByRecursion, IsDistinct};
ghost use Rattle.std.specs.Str.{bytes_eq};
ghost use Rattle.serde_json.specs.View.{view};
ghost use Rattle.rx_value.specs.Due.{DueBy};
ghost use Rattle.rx_value.specs.Name.{is_name};
ghost use Rattle.rx_value.specs.Named.{named};
ghost use Rattle.rx_reply.specs.Answer.{Answer, answer_of};
ghost use Rattle.rx_world.specs.Step.{IsValidState};
ghost use Rattle.rx_writes.specs.declared.fault.Fault.TheVariants.{Memory};
ghost use Rattle.rx_session.specs.Doing.{MayDo};
ghost use Rattle.rx_engine.specs.Outcome.{commit};
ghost use Rattle.rx_engine.specs.Shown.{doing_of, outcome_of};
ghost use Rattle.rx_engine.specs.Writes.{collection_with, collection_line, commit_one};
ghost use Rattle.rx_engine.specs.Writes.{insert_line, upsert_line, patch_line, update_line};
ghost use Rattle.rx_engine.specs.Writes.{remove_line, bulk_line};

use crate::hooking::attached_in;
use crate::lookup::find_collection;
use crate::outcome::{LineDoing, Outcome};
use rx_collection::{Collection, Holder};
use rx_record::Record;
use rx_reply::{Refusal, Reply};
use rx_schema::Schema;
use rx_session::{Doing, Session};
use rx_update::Hooks;
use rx_value::{RxText, State};
use rx_world::MAX_COLLECTIONS;
use rx_writes::{
    Fault, Rows, insert_state, patch_state, read_rows, remove_state, revision_at, update_state,
    upsert_state,
};
use serde_json::Value as Json;
use std::alloc::Global;

/// A collection of that name and that schema: it is there with the same one, or there is room for
/// it.
pub(crate) fn collection_line<'a>(
    alloc: Global,
    session: &'a Session,
    name: RxText,
    schema: &Json,
) -> Result<Outcome<'a>, Fault>
    requires { is_name name ≡ true }
    ensures exact { DueBy Memory outcome_of result
        (collection_line name (view schema.now) session.now) }
    ensures may { IfOk result (λ p. MayDo (doing_of p.doing) session.now) }
{
    let schema = Schema::read(alloc, schema)?;
    plan_collection(alloc, session, name, &schema)
}

// The schema is only lent, so what is answered has none to drop.
fn plan_collection<'a>(
    alloc: Global,
    session: &'a Session,
    name: RxText,
    schema: &Schema,
) -> Result<Outcome<'a>, Fault>
    requires { is_name name ≡ true }
    ensures exact { DueBy Memory outcome_of result (collection_with name schema.now
        (named session.now.world.collections name) session.now.world) }
    ensures may { IfOk result (λ p. MayDo (doing_of p.doing) session.now) }
{
    if let Some(holder) = session.holder(name.as_str()) {
        if holder.collection().schema().canonical() != schema.canonical() {
            return Err(Fault::Refused(Refusal::SchemaDiffers));
        }
        return Ok(Outcome {
            doing: LineDoing::InSession(Doing::Nothing),
            reply: Reply::Collection { new: false },
        });
    }
    if session.collections() >= MAX_COLLECTIONS {
        return Err(Fault::Refused(Refusal::TooMany));
    }
    let schema = schema.canonical().copy(alloc)?;
    Ok(Outcome {
        doing: LineDoing::InSession(Doing::Write(Record::Collection { name, schema })),
        reply: Reply::Collection { new: true },
    })
}

// Writes states to a collection of the world.
fn plan_write<'a>(
    alloc: Global,
    session: &'a Session,
    collection: &Collection,
    states: Vec<State>,
    reply: Reply<'a>,
) -> Result<Outcome<'a>, Fault>
    requires held { named session.now.world.collections collection.now.name
        ≡ Some collection.now }
    requires some { 0 < length states.items }
    requires distinct { IsDistinct bytes_eq (map (λ s. s.key) states.items) }
    requires valid { AllByRecursion (IsValidState collection.now.schema) states.items }
    ensures exact { DueBy Memory outcome_of result
        (commit collection.now.name states.items (answer_of reply.entry) collection.now
        session.now) }
    ensures may { IfOk result (λ p. MayDo (doing_of p.doing) session.now) }
{
    let entry = session.commit(alloc, collection, states)?;
    Ok(Outcome {
        doing: LineDoing::InSession(Doing::Write(entry)),
        reply,
    })
}

// Writes one state: what is done, and the revision that it gets, for the answer.
fn plan_one_write(
    alloc: Global,
    session: &Session,
    collection: &Collection,
    state: State,
) -> Result<(LineDoing, RxText), Fault>
    requires held { named session.now.world.collections collection.now.name
        ≡ Some collection.now }
    requires valid { IsValidState collection.now.schema state }
    ensures exact { (answer : List ℕ → Answer)
        → DueBy Memory (λ w. record { doing = doing_of w.0; answer = answer w.1 }) result
        (commit_one collection.now.name answer collection.now state session.now) }
    ensures may { IfOk result (λ w. MayDo (doing_of w.0) session.now) }
{
    let states = vec![in alloc; state]?;
    let entry = session.commit(alloc, collection, states)?;
    let Record::Rows { rows, .. } = &entry else {
        unreachable!()
    };
    let rev = revision_at(alloc, collection, rows[0].height)?;
    Ok((LineDoing::InSession(Doing::Write(entry)), rev))
}

pub(crate) fn insert_line<'a>(
    alloc: Global,
    session: &'a Session,
    hooks: &Hooks,
    coll: &RxText,
    doc: &Json,
) -> Result<Outcome<'a>, Fault>
    ensures exact { DueBy Memory outcome_of result
        (insert_line coll.now (view doc.now) session.now) }
    ensures may { IfOk result (λ p. MayDo (doing_of p.doing) session.now) }
{
    let collection = find_collection(alloc, session, coll)?;
    let attached = attached_in(session);
    let state = insert_state(alloc, hooks, attached, collection, doc)?;
    let (doing, rev) = plan_one_write(alloc, session, collection, state)?;
    Ok(Outcome {
        doing,
        reply: Reply::Insert { rev },
    })
}

pub(crate) fn upsert_line<'a>(
    alloc: Global,
    session: &'a Session,
    hooks: &Hooks,
    coll: &RxText,
    doc: &Json,
) -> Result<Outcome<'a>, Fault>
    ensures exact { DueBy Memory outcome_of result
        (upsert_line coll.now (view doc.now) session.now) }
    ensures may { IfOk result (λ p. MayDo (doing_of p.doing) session.now) }
{
    let collection = find_collection(alloc, session, coll)?;
    let attached = attached_in(session);
    let state = upsert_state(alloc, hooks, attached, collection, doc)?;
    let (doing, rev) = plan_one_write(alloc, session, collection, state)?;
    Ok(Outcome {
        doing,
        reply: Reply::Upsert { rev },
    })
}

pub(crate) fn patch_line<'a>(
    alloc: Global,
    session: &'a Session,
    hooks: &Hooks,
    coll: &RxText,
    key: RxText,
    set: &Json,
    rev: &Option<RxText>,
) -> Result<Outcome<'a>, Fault>
    ensures exact { DueBy Memory outcome_of result
        (patch_line coll.now key (view set.now) rev.now session.now) }
    ensures may { IfOk result (λ p. MayDo (doing_of p.doing) session.now) }
{
    let collection = find_collection(alloc, session, coll)?;
    let attached = attached_in(session);
    let state = patch_state(alloc, hooks, attached, collection, key, set, rev)?;
    let (doing, rev) = plan_one_write(alloc, session, collection, state)?;
    Ok(Outcome {
        doing,
        reply: Reply::Patch { rev },
    })
}

pub(crate) fn update_line<'a>(
    alloc: Global,
    session: &'a Session,
    hooks: &Hooks,
    coll: &RxText,
    key: RxText,
    update: &Json,
    rev: &Option<RxText>,
) -> Result<Outcome<'a>, Fault>
    ensures exact { DueBy Memory outcome_of result
        (update_line coll.now key (view update.now) rev.now session.now) }
    ensures may { IfOk result (λ p. MayDo (doing_of p.doing) session.now) }
{
    let collection = find_collection(alloc, session, coll)?;
    let attached = attached_in(session);
    let state = update_state(alloc, hooks, attached, collection, key, update, rev)?;
    let (doing, rev) = plan_one_write(alloc, session, collection, state)?;
    Ok(Outcome {
        doing,
        reply: Reply::Update { rev },
    })
}

pub(crate) fn remove_line<'a>(
    alloc: Global,
    session: &'a Session,
    hooks: &Hooks,
    coll: &RxText,
    key: RxText,
    rev: &Option<RxText>,
) -> Result<Outcome<'a>, Fault>
    ensures exact { DueBy Memory outcome_of result
        (remove_line coll.now key rev.now session.now) }
    ensures may { IfOk result (λ p. MayDo (doing_of p.doing) session.now) }
{
    let collection = find_collection(alloc, session, coll)?;
    let attached = attached_in(session);
    let state = remove_state(alloc, hooks, attached, collection, key, rev)?;
    let (doing, rev) = plan_one_write(alloc, session, collection, state)?;
    Ok(Outcome {
        doing,
        reply: Reply::Remove { rev },
    })
}

pub(crate) fn bulk_line<'a>(
    alloc: Global,
    session: &'a Session,
    hooks: &Hooks,
    coll: &RxText,
    docs: &[Json],
) -> Result<Outcome<'a>, Fault>
    ensures exact { DueBy Memory outcome_of result
        (bulk_line coll.now (map view docs.now) session.now) }
    ensures may { IfOk result (λ p. MayDo (doing_of p.doing) session.now) }
{
    let collection = find_collection(alloc, session, coll)?;
    let attached = attached_in(session);
    let Rows { states, revs } = read_rows(alloc, hooks, attached, collection, docs)?;
    let reply = Reply::Bulk { revs };
    if !states.is_empty() {
        return plan_write(alloc, session, collection, states, reply);
    }
    if collection.stamp(session.moment()).is_none() {
        return Err(Fault::Refused(Refusal::Clock));
    }
    Ok(Outcome {
        doing: LineDoing::InSession(Doing::Nothing),
        reply,
    })
}
