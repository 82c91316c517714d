ghost use Rattle.std.specs.Prelude.{◌<◌, ◌^◌, ◌≡◌, filter, length, map, true, Some, IfOk, OnOk};
ghost use Rattle.std.specs.Map.{values_of};
ghost use Rattle.rx_query.specs.QuerySpec.{asked, with_limit};
ghost use Rattle.rx_query.specs.Result.{is_due, result_of, row_of, fresh_rows};
ghost use Rattle.rx_observe.specs.Front.{kept_limit, suffices, IsFront};
ghost use Rattle.rx_observe.specs.Indexes.{AreIndexesOf};

use crate::front::{Front, kept_limit, most_kept};
use rx_collection::{All, Collection};
use rx_document::Stored;
use rx_index::{Index, Indexes};
use rx_planner::{Plan, in_window, plan};
use rx_query::{Query, Results, Row};
use std::alloc::{AllocError, Global};

// The documents of a query's result, by its plan or along an index, lent.
pub(crate) fn find_by<'a>(
    alloc: Global,
    collection: &'a Collection,
    indexes: &[Index],
    query: &Query,
) -> Result<Vec<&'a Stored>, AllocError>
    requires keyed { (asked query.now).primary ≡ collection.now.schema.primary }
    requires indexed { AreIndexesOf collection.now indexes.now }
    ensures { IfOk result (λ documents. map (λ d. d.now) documents.items
        ≡ result_of (asked query.now) (values_of collection.now.documents)) }
{
    let indexes = Indexes::new(collection.keys(), indexes);
    let plan = plan(alloc, query, &indexes)?;
    if query.limit().is_none() && spans_all(&plan) {
        return find_in(alloc, collection, query);
    }
    Ok(plan.find(alloc, query, &indexes, collection)?.rows)
}

// Whether all live documents stand between its bounds, so that a walk along an index would look up
// one by one what lies side by side.
fn spans_all(plan: &Plan) -> bool {
    plan.low.values().len() == 1 && plan.high.values().len() == 1
}

// The same without an index.
pub(crate) fn find_in<'a>(
    alloc: Global,
    collection: &'a Collection,
    query: &Query,
) -> Result<Vec<&'a Stored>, AllocError>
    requires keyed { (asked query.now).primary ≡ collection.now.schema.primary }
    ensures { IfOk result (λ documents. map (λ d. d.now) documents.items
        ≡ result_of (asked query.now) (values_of collection.now.documents)) }
{
    let documents: Vec<&Stored> = collection.all().collect(alloc)?;
    query.scratch(alloc, documents.as_slice())
}

// How many documents a query's result has, by the index of its plan.
pub(crate) fn count_by(
    alloc: Global,
    collection: &Collection,
    indexes: &[Index],
    query: &Query,
) -> Result<u64, AllocError>
    requires keyed { (asked query.now).primary ≡ collection.now.schema.primary }
    requires indexed { AreIndexesOf collection.now indexes.now }
    ensures { IfOk result (λ n. n
        ≡ length (result_of (asked query.now) (values_of collection.now.documents))) }
{
    let indexes = Indexes::new(collection.keys(), indexes);
    let plan = plan(alloc, query, &indexes)?;
    if spans_all(&plan) && !query.selector().clauses().is_empty() {
        return Ok(count_in(collection, query));
    }
    plan.count(alloc, query, &indexes, collection)
}

// The same without an index.
pub(crate) fn count_in(collection: &Collection, query: &Query) -> u64
    ensures { result ≡ length (result_of (asked query.now) (values_of collection.now.documents)) }
{
    // So many are due at most, which a count holds.
    let _most = collection.len();
    in_window(query, count_due(query, collection.all()))
}

fn count_due(query: &Query, documents: All<'_>) -> usize
    requires { length documents < 2 ^ 64 }
    ensures { result ≡ length (filter (is_due (asked query.now)) documents.entry) }
{
    documents.filter(|document| query.is_due(document)).count()
}

// The rows of a query, by its front where that tells them, and else from scratch, with a new front.
pub(crate) fn rows_of(
    alloc: Global,
    collection: &Collection,
    indexes: &[Index],
    query: &mut Query,
    front: &mut Front,
) -> Result<Results, AllocError>
    requires keyed { (asked query.old).primary ≡ collection.now.schema.primary }
    requires indexed { AreIndexesOf collection.now indexes.now }
    requires front { IsFront (asked query.old) collection.now.documents front.old }
    ensures query { asked query.new ≡ asked query.old }
    ensures rows { IfOk result
        (λ rows. rows ≡ fresh_rows (asked query.old) collection.now.documents) }
    ensures front { OnOk result (IsFront (asked query.old) collection.now.documents front.new) }
{
    let Some(limit) = kept_limit(query) else {
        return run_in_full(alloc, collection, indexes, query);
    };
    if front.suffices(limit) {
        return front.window(alloc, limit);
    }
    let fetched = run_front(alloc, collection, indexes, query, limit)?;
    *front = fetched;
    front.window(alloc, limit)
}

// The front of a query, from scratch.
fn run_front(
    alloc: Global,
    collection: &Collection,
    indexes: &[Index],
    query: &mut Query,
    limit: u64,
) -> Result<Front, AllocError>
    requires keyed { (asked query.old).primary ≡ collection.now.schema.primary }
    requires indexed { AreIndexesOf collection.now indexes.now }
    requires limit { kept_limit (asked query.old) ≡ Some limit }
    ensures query { asked query.new ≡ asked query.old }
    ensures front { IfOk result (IsFront (asked query.old) collection.now.documents) }
    ensures suffices { IfOk result (λ front. suffices limit front ≡ true) }
{
    let most = most_kept(limit);
    query.set_limit(most);
    let rows = run_in_full(alloc, collection, indexes, query);
    query.set_limit(limit);
    let rows = rows?;
    let whole = (rows.len() as u64) < most;
    Ok(Front { rows, whole })
}

// The rows of a query, from scratch.
fn run_in_full(
    alloc: Global,
    collection: &Collection,
    indexes: &[Index],
    query: &Query,
) -> Result<Results, AllocError>
    requires keyed { (asked query.now).primary ≡ collection.now.schema.primary }
    requires indexed { AreIndexesOf collection.now indexes.now }
    ensures { IfOk result (λ rows. rows ≡ fresh_rows (asked query.now) collection.now.documents) }
{
    let found = find_by(alloc, collection, indexes, query)?;
    copy_rows(alloc, found.as_slice())
}

fn copy_rows(alloc: Global, documents: &[&Stored]) -> Result<Results, AllocError>
    ensures { IfOk result (λ rows. rows ≡ map (λ d. row_of d.now) documents.now) }
{
    let mut rows = Results::new(alloc);
    for document in documents {
        let row = Row {
            id: document.state.key.copy(alloc)?,
            fields: document.state.fields.copy(alloc)?,
        };
        rows.insert(rows.len(), row)?;
    }
    Ok(rows)
}
