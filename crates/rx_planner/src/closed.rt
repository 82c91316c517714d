ghost use Rattle.std.specs.Prelude.{◌≡◌, map, not, IfOk, option_map};
ghost use Rattle.rx_query.specs.QuerySpec.{asked};
ghost use Rattle.rx_planner.specs.Closed.{kind_end, bounding, closed_end, closed_of};
ghost use Rattle.rx_planner.specs.Onto.{onto};

use crate::bounds::{end, operators};
use crate::path::operand;
use rx_index::Bound;
use rx_query::Query;
use rx_selector::Compare;
use rx_value::{RxText, Value};
use std::alloc::{AllocError, Global};

// The bound of an index with this path, the high one where it is `up`. Where a field is bounded
// on one side it takes in no values of other kinds on the other.
pub(crate) fn closed(
    alloc: Global,
    query: &Query,
    path: &[&str],
    up: bool,
) -> Result<Bound, AllocError>
    ensures { IfOk result (λ b. b ≡ closed_of (asked query.now) up (map (λ f. f.now) path.now)) }
{
    let mut values = Vec::with_capacity(alloc, 2)?;
    values.push(Some(Value::Flag(false)))?;
    for field in path {
        match operand(query, field, Compare::Eq) {
            Some(value) => values.push(Some(value.copy(alloc)?))?,
            None => return closed_end(alloc, query, field, up, values),
        }
    }
    Bound::new(alloc, values, up)
}

// The values of fixed fields, and the bound of the next one.
fn closed_end(
    alloc: Global,
    query: &Query,
    field: &str,
    up: bool,
    values: Vec<Option<Value>>,
) -> Result<Bound, AllocError>
    ensures { IfOk result (λ b. b ≡ onto values.items (closed_end (asked query.now) up field.now)) }
{
    match (bounding(query, field, up), bounding(query, field, !up)) {
        (None, Some(value)) => kind_end(alloc, value, up, values),
        _ => end(alloc, query, field, up, values),
    }
}

// The operand that bounds the field on that side.
fn bounding<'a>(query: &'a Query, field: &str, up: bool) -> Option<&'a Value>
    ensures { option_map (λ v. v.now) result ≡ bounding (asked query.now) up field.now }
{
    let (strict, loose) = operators(up);
    match operand(query, field, strict) {
        Some(value) => Some(value),
        None => operand(query, field, loose),
    }
}

// Where the values of a kind end, behind other values.
fn kind_end(
    alloc: Global,
    value: &Value,
    up: bool,
    mut values: Vec<Option<Value>>,
) -> Result<Bound, AllocError>
    ensures { IfOk result (λ b. b ≡ onto values.items (kind_end up value.now)) }
{
    let (last, after) = match (value, up) {
        (Value::Flag(_), _) => (Value::Flag(up), up),
        (Value::Int(_), false) => (Value::Flag(true), true),
        (Value::Int(_), true) | (Value::Text(_), false) => {
            (Value::Text(RxText::new(alloc, "")?), false)
        }
        (Value::Text(_), true) => return Bound::new(alloc, values, true),
    };
    values.push(Some(last))?;
    Bound::new(alloc, values, after)
}
