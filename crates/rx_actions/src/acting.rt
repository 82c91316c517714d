ghost use Rattle.std.specs.Prelude.{◌≡◌, ◌≢◌, ◌<◌, ◌≤◌, true, Some, length, remove, IsSome, IfOk, OnOk, OnErr};
ghost use Rattle.std.specs.Option.{ForSome};
ghost use Rattle.rx_query.specs.After.{row_after, after, inserts, AreThere};
ghost use Rattle.rx_query.specs.QuerySpec.{asked};
ghost use Rattle.rx_query.specs.Lists.{insert_in_order};
ghost use Rattle.rx_query.specs.States.{precedes};
ghost use Rattle.rx_table.specs.declared.action.Action.TheVariants.{RunFullQueryAgain};
ghost use Rattle.rx_actions.specs.Moves.{moved};

use crate::places::{old_place, sorted_place};
use rx_document::Change;
use rx_query::{Query, Results, Row};
use rx_table::Action;
use std::alloc::{AllocError, Global};

/// Does to the rows of a query what an action says of a change. Where memory is wanting, they are
/// as before.
pub fn act(
    alloc: Global,
    action: Action,
    query: &Query,
    change: &Change,
    results: &mut Results,
) -> Result<(), AllocError>
    requires known { action ≢ RunFullQueryAgain }
    requires there { AreThere action change.now results.old }
    ensures ok { OnOk result
        (results.new ≡ after action (asked query.now) change.now results.old) }
    ensures err { OnErr result (results.new ≡ results.old) }
{
    match action {
        Action::DoNothing => Ok(()),
        Action::RemoveFirstItem => {
            results.remove(0);
            Ok(())
        }
        Action::RemoveLastItem => {
            let last = results.len() - 1;
            results.remove(last);
            Ok(())
        }
        Action::RemoveExisting => {
            let place = old_place(change, results);
            results.remove(place);
            Ok(())
        }
        Action::RunFullQueryAgain => unreachable!(),
        _ => put_row(alloc, action, query, change, results),
    }
}

// An action that puts the document's new row in.
fn put_row(
    alloc: Global,
    action: Action,
    query: &Query,
    change: &Change,
    results: &mut Results,
) -> Result<(), AllocError>
    requires inserts { inserts action ≡ true }
    requires there { AreThere action change.now results.old }
    ensures ok { OnOk result
        (results.new ≡ after action (asked query.now) change.now results.old) }
    ensures err { OnErr result (results.new ≡ results.old) }
{
    let row = new_row(alloc, change)?;
    let (into, out) = row_places(action, query, change, &row, results);
    results.insert(into, row)?;
    if let Some(out) = out {
        results.remove(out);
    }
    Ok(())
}

// The row of the document as it is after the change.
fn new_row(alloc: Global, change: &Change) -> Result<Row, AllocError>
    requires { IsSome change.now.after }
    ensures { IfOk result (λ row. row_after change.now ≡ Some row) }
{
    match &change.after {
        Some(fields) => Ok(Row {
            id: change.id.copy(alloc)?,
            fields: fields.copy(alloc)?,
        }),
        None => unreachable!(),
    }
}

// Where the new row goes in, and which row goes out after that, if any does. It goes in first, so
// that want of memory leaves the rows as they were.
fn row_places(
    action: Action,
    query: &Query,
    change: &Change,
    row: &Row,
    results: &Results,
) -> (usize, Option<usize>)
    requires inserts { inserts action ≡ true }
    requires there { AreThere action change.now results.now }
    requires row { row_after change.now ≡ Some row.now }
    ensures into { result.0 ≤ length results.now }
    ensures out { ForSome result.1 (λ out. out ≤ length results.now) }
    ensures moved { moved results.now result.0 result.1 row.now
        ≡ after action (asked query.now) change.now results.now }
{
    let len = results.len();
    match action {
        Action::InsertFirst => (0, None),
        Action::InsertLast => (len, None),
        Action::RemoveFirstInsertLast => (len, Some(0)),
        Action::RemoveLastInsertFirst => (0, Some(len)),
        Action::RemoveFirstInsertFirst => (0, Some(1)),
        Action::RemoveLastInsertLast => (len, Some(len - 1)),
        Action::ReplaceExisting => {
            let place = old_place(change, results);
            (place, Some(place + 1))
        }
        Action::InsertAtSortPosition => (sorted_place(query, &row.fields, results, len), None),
        Action::RemoveExistingAndInsertAtSortPosition => {
            let old = old_place(change, results);
            sorted_place_for(query, row, results, old)
        }
        Action::InsertAtSortPositionRemoveLast => sorted_place_for(query, row, results, len - 1),
        _ => unreachable!(),
    }
}

// Where the new row goes in by the order of the others, where one row goes out for it.
fn sorted_place_for(
    query: &Query,
    row: &Row,
    results: &Results,
    out: usize,
) -> (usize, Option<usize>)
    requires { out < length results.now }
    ensures into { result.0 ≤ length results.now }
    ensures out { ForSome result.1 (λ out. out ≤ length results.now) }
    ensures moved { moved results.now result.0 result.1 row.now
        ≡ insert_in_order (λ x y. precedes (asked query.now) x.fields y.fields) row.now
        (remove results.now out) }
{
    let into = sorted_place(query, &row.fields, results, out);
    (into, Some(if out < into { out } else { out + 1 }))
}
