// The lines that read documents and observe queries.
ghost use Rattle.std.specs.Prelude.{◌≡◌, IfOk};
ghost use Rattle.serde_json.specs.View.{view};
ghost use Rattle.rx_value.specs.Due.{DueBy};
ghost use Rattle.rx_query.specs.QuerySpec.{asked};
ghost use Rattle.rx_reply.specs.Answer.{answer_of};
ghost use Rattle.rx_session.specs.Doing.{MayDo};
ghost use Rattle.rx_engine.specs.Outcome.{answer_alone};
ghost use Rattle.rx_engine.specs.Queries.{get_line, find_line, count_line, observe_line, unobserve_line, explain_line, query_on};
ghost use Rattle.rx_engine.specs.Shown.{doing_of, outcome_of};
ghost use Rattle.rx_writes.specs.declared.fault.Fault.TheVariants.{Memory};

use crate::lookup::{find_collection, find_live};
use crate::outcome::{LineDoing, Outcome};
use rx_collection::{Collection, Holder};
use rx_query::Query;
use rx_reply::{Refusal, Reply};
use rx_session::{Doing, Session, Watch};
use rx_value::RxText;
use rx_writes::{Fault, find_document};
use serde_json::Value as Json;
use std::alloc::Global;

/// The most observed queries.
const MAX_QUERIES: usize = 256;

pub(crate) fn get_line<'a>(
    alloc: Global,
    session: &'a Session,
    coll: &RxText,
    key: &RxText,
) -> Result<Outcome<'a>, Fault>
    ensures exact { DueBy Memory outcome_of result (get_line coll.now key.now session.now) }
    ensures may { IfOk result (λ p. MayDo (doing_of p.doing) session.now) }
{
    let collection = find_collection(alloc, session, coll)?;
    let doc = find_document(collection, key.as_str())?;
    Ok(answer_alone(Reply::Get { doc }))
}

pub(crate) fn find_line<'a>(
    alloc: Global,
    session: &'a Session,
    coll: &RxText,
    query: &Json,
) -> Result<Outcome<'a>, Fault>
    ensures exact { DueBy Memory outcome_of result
        (find_line coll.now (view query.now) session.now) }
    ensures may { IfOk result (λ p. MayDo (doing_of p.doing) session.now) }
{
    let live = find_live(alloc, session, coll)?;
    let query = read_query(alloc, live.collection(), query)?;
    let rows = live.find(alloc, &query)?;
    Ok(answer_alone(Reply::Find { rows }))
}

pub(crate) fn count_line<'a>(
    alloc: Global,
    session: &'a Session,
    coll: &RxText,
    query: &Json,
) -> Result<Outcome<'a>, Fault>
    ensures exact { DueBy Memory outcome_of result
        (count_line coll.now (view query.now) session.now) }
    ensures may { IfOk result (λ p. MayDo (doing_of p.doing) session.now) }
{
    let live = find_live(alloc, session, coll)?;
    let query = read_query(alloc, live.collection(), query)?;
    let count = live.count(alloc, &query)?;
    Ok(answer_alone(Reply::Count { count }))
}

pub(crate) fn observe_line<'a>(
    alloc: Global,
    session: &'a Session,
    name: RxText,
    coll: RxText,
    query: &Json,
) -> Result<Outcome<'a>, Fault>
    ensures exact { DueBy Memory outcome_of result
        (observe_line name coll (view query.now) session.now) }
    ensures may { IfOk result (λ p. MayDo (doing_of p.doing) session.now) }
{
    let collection = find_collection(alloc, session, &coll)?;
    if session.is_observed(&name) {
        return Err(Fault::Refused(Refusal::Exists));
    }
    let query = read_query(alloc, collection, query)?;
    if session.queries() >= MAX_QUERIES {
        return Err(Fault::Refused(Refusal::TooMany));
    }
    let watch = Watch { name, coll, query };
    Ok(Outcome {
        doing: LineDoing::InSession(Doing::Watch(watch)),
        reply: Reply::Observe,
    })
}

pub(crate) fn unobserve_line<'a>(session: &'a Session, name: RxText) -> Result<Outcome<'a>, Fault>
    ensures exact { DueBy Memory outcome_of result (unobserve_line name session.now) }
    ensures may { IfOk result (λ p. MayDo (doing_of p.doing) session.now) }
{
    if !session.is_observed(&name) {
        return Err(Fault::Refused(Refusal::NoQuery));
    }
    Ok(Outcome {
        doing: LineDoing::InSession(Doing::Unwatch(name)),
        reply: Reply::Unobserve,
    })
}

pub(crate) fn explain_line<'a>(session: &'a Session, name: &RxText) -> Result<Outcome<'a>, Fault>
    ensures exact { DueBy Memory outcome_of result (explain_line name.now session.now) }
    ensures may { IfOk result (λ p. MayDo (doing_of p.doing) session.now) }
{
    match session.counts(name) {
        Some(counts) => Ok(answer_alone(Reply::Explain { counts })),
        None => Err(Fault::Refused(Refusal::NoQuery)),
    }
}

/// A reply that changes nothing.
pub(crate) fn answer_alone(reply: Reply<'_>) -> Outcome<'_>
    ensures { outcome_of result ≡ answer_alone (answer_of reply.entry) }
{
    Outcome {
        doing: LineDoing::InSession(Doing::Nothing),
        reply,
    }
}

/// What a query asks of a collection.
fn read_query(alloc: Global, collection: &Collection, query: &Json) -> Result<Query, Fault>
    ensures exact { DueBy Memory asked result (query_on collection.now (view query.now)) }
    ensures keyed { IfOk result (λ q. (asked q).primary ≡ collection.now.schema.primary) }
{
    let schema = collection.schema();
    Ok(Query::read(alloc, query, schema.kinds(), schema.primary())?)
}
