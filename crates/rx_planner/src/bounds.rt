ghost use Rattle.std.specs.Prelude.{◌≡◌, map, IfOk};
ghost use Rattle.rx_query.specs.QuerySpec.{asked};
ghost use Rattle.rx_planner.specs.Plan.{strict, loose, end_at, bound_of};
ghost use Rattle.rx_planner.specs.Onto.{onto};

use crate::path::operand;
use rx_index::Bound;
use rx_query::Query;
use rx_selector::Compare;
use rx_value::Value;
use std::alloc::{AllocError, Global};

// The bound of an index with this path, the high one where it is `up`.
pub(crate) fn bound(
    alloc: Global,
    query: &Query,
    path: &[&str],
    up: bool,
) -> Result<Bound, AllocError>
    ensures { IfOk result (λ b. b ≡ bound_of (asked query.now) up (map (λ f. f.now) path.now)) }
{
    let mut values = Vec::with_capacity(alloc, 2)?;
    values.push(Some(Value::Flag(false)))?;
    for field in path {
        match operand(query, field, Compare::Eq) {
            Some(value) => values.push(Some(value.copy(alloc)?))?,
            None => return end(alloc, query, field, up, values),
        }
    }
    Bound::new(alloc, values, up)
}

// The operators that bound a field on that side, the one that leaves its operand out first.
pub(crate) fn operators(up: bool) -> (Compare, Compare)
    ensures { result ≡ (strict up, loose up) }
{
    if up {
        (Compare::Lt, Compare::Lte)
    } else {
        (Compare::Gt, Compare::Gte)
    }
}

// The values of fixed fields, and the bound of the next one.
pub(crate) fn end(
    alloc: Global,
    query: &Query,
    field: &str,
    up: bool,
    mut values: Vec<Option<Value>>,
) -> Result<Bound, AllocError>
    ensures { IfOk result (λ b. b ≡ onto values.items (end_at (asked query.now) up field.now)) }
{
    let (strict, loose) = operators(up);
    if let Some(value) = operand(query, field, strict) {
        values.push(Some(value.copy(alloc)?))?;
        return Bound::new(alloc, values, !up);
    }
    if let Some(value) = operand(query, field, loose) {
        values.push(Some(value.copy(alloc)?))?;
    }
    Bound::new(alloc, values, up)
}
