ghost use Rattle.std.specs.Prelude.{◌≡◌, map, is_some, IfOk};
ghost use Rattle.std.specs.List.{list_all};
ghost use Rattle.std.specs.Cmp.Lexicographic.{pointwise};
ghost use Rattle.std.specs.Str.{bytes_eq};
ghost use Rattle.rx_value.specs.Named.{named};
ghost use Rattle.rx_query.specs.QuerySpec.{asked};
ghost use Rattle.rx_planner.specs.Plan.{rises_freely, sort_path, is_ordered};

use crate::path::{is_fixed, leading};
use rx_query::Query;
use rx_value::RxText;
use std::alloc::{AllocError, Global};

// A field that isn't reversed, and isn't fixed.
fn is_free(query: &Query, field: &RxText, desc: bool) -> bool
    ensures { result ≡ rises_freely (asked query.now) (field.now, desc) }
{
    !desc && !is_fixed(query, field.as_str())
}

fn rises_freely(query: &Query) -> bool
    ensures { result ≡ list_all (rises_freely (asked query.now)) (asked query.now).sorts }
{
    for i in 0..query.sorts() {
        let (field, desc) = query.sort(i);
        if !is_free(query, field, desc) {
            return false;
        }
    }
    true
}

fn sorts_by(query: &Query, name: &str) -> bool
    ensures { result ≡ is_some (named (asked query.now).sorts name.now) }
{
    for i in 0..query.sorts() {
        if name == query.sort(i).0.as_str() {
            return true;
        }
    }
    false
}

// What the query orders by.
fn sort_path<'a>(alloc: Global, query: &'a Query) -> Result<Vec<&'a str>, AllocError>
    ensures { IfOk result (λ path. map (λ f. f.now) path.items ≡ sort_path (asked query.now)) }
{
    let mut path = Vec::with_capacity(alloc, query.sorts())?;
    for i in 0..query.sorts() {
        path.push(query.sort(i).0.as_str())?;
    }
    if !sorts_by(query, query.primary()) {
        path.push(query.primary())?;
    }
    Ok(path)
}

// Whether an index of this path has the rows in the query's order.
pub(crate) fn is_ordered(alloc: Global, query: &Query, path: &[&str]) -> Result<bool, AllocError>
    ensures { IfOk result (λ r. r ≡ is_ordered (asked query.now) (map (λ f. f.now) path.now)) }
{
    if !rises_freely(query) {
        return Ok(false);
    }
    let sorts = sort_path(alloc, query)?;
    Ok(are_same(sorts.as_slice(), &path[leading(query, path)..]))
}

fn are_same(these: &[&str], those: &[&str]) -> bool
    ensures { result
        ≡ pointwise bytes_eq (map (λ f. f.now) these.now) (map (λ f. f.now) those.now) }
{
    these == those
}
