ghost use Rattle.std.specs.Prelude.{◌≡◌, map, Some, IfOk, option_map};
ghost use Rattle.std.specs.Map.{values_of};
ghost use Rattle.rx_query.specs.QuerySpec.{asked};
ghost use Rattle.rx_query.specs.Result.{IsCollection, result_of};
ghost use Rattle.rx_planner.specs.Plan.{operand};
ghost use Rattle.rx_planner.specs.Rows.{due_at, shows_first};

use crate::rows::only_due;
use rx_document::{Lookup, Stored};
use rx_query::Query;
use rx_selector::Compare;
use rx_value::Value;
use std::alloc::{AllocError, Global};

// The result of a query that fixes the primary key: the document of that key, if it is due and
// the window takes it in. No index is asked.
pub(crate) fn run_at<'a, T: Lookup>(
    alloc: Global,
    query: &Query,
    docs: &'a T,
    id: &Value,
) -> Result<Vec<&'a Stored>, AllocError>
    requires keyed { IsCollection (asked query.now).primary (T.documents docs.now) }
    requires fixed { operand (asked query.now) (asked query.now).primary Compare.Eq ≡ Some id.now }
    ensures { IfOk result (λ rows. map (λ r. r.now) rows.items
        ≡ result_of (asked query.now) (values_of (T.documents docs.now))) }
{
    let mut rows = Vec::new(alloc);
    if !shows_first(query) {
        return Ok(rows);
    }
    let Some(document) = due_at(query, docs, id) else {
        return Ok(rows);
    };
    rows.push(document)?;
    Ok(rows)
}

// Whether the window takes in a first row.
fn shows_first(query: &Query) -> bool
    ensures { result ≡ shows_first (asked query.now) }
{
    match query.limit() {
        Some(0) => false,
        _ => query.skip() == 0,
    }
}

// The document of that primary key, if it is due.
fn due_at<'a, T: Lookup>(query: &Query, docs: &'a T, id: &Value) -> Option<&'a Stored>
    ensures { option_map (λ d. d.now) result
        ≡ due_at (asked query.now) (T.documents docs.now) id.now }
{
    match id {
        Value::Text(id) => only_due(query, docs.lookup(id.as_str())),
        _ => None,
    }
}
