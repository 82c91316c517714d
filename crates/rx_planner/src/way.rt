ghost use Rattle.std.specs.Prelude.{◌≡◌, ◌<◌, ◌≤◌, not, map, length, is_some, nat_le};
ghost use Rattle.std.specs.Prelude.{option_map, slice_get, IfOk, IfSome};
ghost use Rattle.rx_query.specs.QuerySpec.{asked};
ghost use Rattle.rx_query.specs.Lists.{some_passes};
ghost use Rattle.rx_planner.specs.Plan.{path_of};
ghost use Rattle.rx_planner.specs.Way.{falls, matched, front, fits, fits_at, goes_by, width_at};
ghost use Rattle.rx_planner.specs.Way.{IsWayBy, HasBest};

use crate::bounds::bound;
use crate::path::{leading, path};
use rx_index::Indexes;
use rx_query::Query;
use rx_value::RxText;
use std::alloc::{AllocError, Global};

// Whether the first field of the sort is reversed.
pub(crate) fn falls(query: &Query) -> bool
    ensures { result ≡ falls (asked query.now) }
{
    query.sorts() > 0 && query.sort(0).1
}

// Whether the sort has that field at that place, in that direction.
fn goes_by(query: &Query, i: usize, field: &str, desc: bool) -> bool
    ensures { result ≡ goes_by (slice_get (asked query.now).sorts i) field.now desc }
{
    if i >= query.sorts() {
        return false;
    }
    let (name, reversed) = query.sort(i);
    name.as_str() == field && reversed == desc
}

// With how many of the fields the sort begins.
fn matched(query: &Query, fields: &[&str]) -> usize
    ensures value { result
        ≡ matched (falls (asked query.now)) (asked query.now).sorts (map (λ f. f.now) fields.now) }
    ensures within { result ≤ length fields.now }
{
    let desc = falls(query);
    for (i, field) in fields.iter().enumerate() {
        if !goes_by(query, i, field, desc) {
            return i;
        }
    }
    fields.len()
}

// The first fields of an index's path by which a walk goes, if the sort begins with one behind
// those that are fixed.
pub(crate) fn front<'a>(
    alloc: Global,
    query: &'a Query,
    fields: &'a [RxText],
) -> Result<Option<Vec<&'a str>>, AllocError>
    ensures fits { IfOk result
        (λ o. is_some o ≡ fits (asked query.now) (path_of (asked query.now) fields.now)) }
    ensures front { IfOk result (λ o. IfSome o (λ names. map (λ f. f.now) names.items
        ≡ front (asked query.now) (path_of (asked query.now) fields.now))) }
{
    let mut path = path(alloc, query, fields)?;
    let fixed = leading(query, path.as_slice());
    let more = matched(query, &path.as_slice()[fixed..]);
    if more == 0 {
        return Ok(None);
    }
    path.truncate(fixed + more);
    Ok(Some(path))
}

/// An index by which a walk can go, with the first fields of its path by which it goes, and how
/// many keys stand between its bounds.
#[derive(Drop)]
pub(crate) struct Way<'a> {
    pub index: usize,
    pub names: Vec<&'a str>,
    pub keys: usize,
}

fn way_by<'a>(
    alloc: Global,
    query: &'a Query,
    indexes: &Indexes<'a>,
    i: usize,
) -> Result<Option<Way<'a>>, AllocError>
    requires { i < length indexes.now }
    ensures fits { IfOk result (λ o. is_some o ≡ fits_at (asked query.now) indexes.now i) }
    ensures index { IfOk result (λ o. IfSome o (λ way. way.index ≡ i)) }
    ensures keys { IfOk result
        (λ o. IfSome o (λ way. way.keys ≡ width_at (asked query.now) indexes.now i)) }
    ensures way { IfOk result (λ o. IfSome o (λ way. IsWayBy (asked query.now) indexes.now i
        (map (λ f. f.now) way.names.items))) }
{
    let index = indexes.at(i);
    let Some(names) = front(alloc, query, index.fields())? else {
        return Ok(None);
    };
    let path = path(alloc, query, index.fields())?;
    let low = bound(alloc, query, path.as_slice(), false)?;
    let high = bound(alloc, query, path.as_slice(), true)?;
    let keys = index.range(&low, &high).len();
    Ok(Some(Way {
        index: i,
        names,
        keys,
    }))
}

fn is_better(way: &Way<'_>, best: &Option<Way<'_>>) -> bool
    ensures { result ≡ not (some_passes (λ best. nat_le best.keys way.now.keys) best.now) }
{
    match best {
        Some(best) => way.keys < best.keys,
        None => true,
    }
}

// Of the indexes by which a walk can go the first with the fewest keys.
pub(crate) fn best_way<'a>(
    alloc: Global,
    query: &'a Query,
    indexes: &Indexes<'a>,
) -> Result<Option<Way<'a>>, AllocError>
    ensures best { IfOk result (λ o. HasBest (asked query.now) indexes.now (length indexes.now)
        (option_map (λ way. way.index) o)) }
    ensures way { IfOk result (λ o. IfSome o (λ way. IsWayBy (asked query.now) indexes.now
        way.index (map (λ f. f.now) way.names.items))) }
{
    let mut best = None;
    for i in 0..indexes.len() {
        if let Some(way) = way_by(alloc, query, indexes, i)? {
            if is_better(&way, &best) {
                best = Some(way);
            }
        }
    }
    Ok(best)
}
