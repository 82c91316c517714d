ghost use Rattle.std.specs.Prelude.{◌≡◌, ◌≤◌, length, map, IfOk, option_map};
ghost use Rattle.rx_query.specs.QuerySpec.{asked};
ghost use Rattle.rx_planner.specs.Plan.{operand, is_fixed, is_bounded, leading, score, path_of};

use rx_query::Query;
use rx_selector::Compare;
use rx_value::{RxText, Value};
use std::alloc::{AllocError, Global};

pub(crate) fn operand<'a>(query: &'a Query, field: &str, which: Compare) -> Option<&'a Value>
    ensures { option_map (λ v. v.now) result ≡ operand (asked query.now) field.now which }
{
    query.selector().operand(field, which)
}

pub(crate) fn is_fixed(query: &Query, field: &str) -> bool
    ensures { result ≡ is_fixed (asked query.now) field.now }
{
    operand(query, field, Compare::Eq).is_some()
}

fn is_bounded(query: &Query, field: &str) -> bool
    ensures { result ≡ is_bounded (asked query.now) field.now }
{
    operand(query, field, Compare::Gt).is_some()
        || operand(query, field, Compare::Gte).is_some()
        || operand(query, field, Compare::Lt).is_some()
        || operand(query, field, Compare::Lte).is_some()
}

// What an index of these fields orders by.
pub(crate) fn path<'a>(
    alloc: Global,
    query: &'a Query,
    fields: &'a [RxText],
) -> Result<Vec<&'a str>, AllocError>
    ensures { IfOk result (λ path. map (λ f. f.now) path.items
        ≡ path_of (asked query.now) fields.now) }
{
    let mut path = Vec::with_capacity(alloc, fields.len() + 1)?;
    for field in fields {
        path.push(field.as_str())?;
    }
    path.push(query.primary())?;
    Ok(path)
}

// How many first fields are fixed.
pub(crate) fn leading(query: &Query, path: &[&str]) -> usize
    ensures value { result ≡ leading (asked query.now) (map (λ f. f.now) path.now) }
    ensures within { result ≤ length path.now }
{
    for (i, field) in path.iter().enumerate() {
        if !is_fixed(query, field) {
            return i;
        }
    }
    path.len()
}

pub(crate) fn score(query: &Query, path: &[&str]) -> usize
    ensures { result ≡ score (asked query.now) (map (λ f. f.now) path.now) }
{
    let leading = leading(query, path);
    let is_bounded = match path.get(leading) {
        Some(field) => is_bounded(query, field),
        None => false,
    };
    2 * leading + if is_bounded { 1 } else { 0 }
}
