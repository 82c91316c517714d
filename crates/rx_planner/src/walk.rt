ghost use Rattle.std.specs.Prelude.{◌≡◌, ◌++◌, ◌+◌, ◌*◌, ◌<◌, ◌≤◌, ◌^◌, [], length, map, take, slice_get, option_map, is_none, true, false, IsSome, IfOk, IfSome, OnOk};
ghost use Rattle.std.specs.List.{IsDistinct};
ghost use Rattle.std.specs.List.Sorted.{IsStrictlySortedBy};
ghost use Rattle.std.specs.Ordering.{eq_by_cmp};
ghost use Rattle.rx_query.specs.QuerySpec.{asked};
ghost use Rattle.rx_query.specs.Lists.{sorted};
ghost use Rattle.rx_query.specs.Result.{stored_before, stored_cmp, IsCollection};
ghost use Rattle.rx_index.specs.Index.{Holds, ids_between};
ghost use Rattle.rx_index.specs.Position.{position_with, position_cmp, key_of};
ghost use Rattle.rx_planner.specs.Plan.{path_of, bound_of};
ghost use Rattle.rx_planner.specs.Rows.{due_among};
ghost use Rattle.rx_planner.specs.Way.{falls, turned, part_low, part_high, left_low, left_high, keys_next, cut_at, IsPivot, IsCut, needed, all_rows, rows_between, IsUnderWay, IsWay, HasStepped};

use crate::bounds::bound;
use crate::path::path;
use crate::rows::{document_of, first_due, put_in_order};
use crate::way::falls;
use rx_document::{Lookup, Stored};
use rx_index::{Bound, Entry, IndexView, Range};
use rx_query::Query;
use rx_value::Value;
use std::alloc::{AllocError, Global};

/// What a walk along an index has gathered: rows in order, how many documents it looked at, and the
/// positions between which the others are left.
#[derive(Drop)]
pub(crate) struct Walk<'a> {
    pub rows: Vec<&'a Stored>,
    pub looked: usize,
    pub low: Bound,
    pub high: Bound,
}

/// How a walk goes on.
enum Step {
    /// More is left.
    More,
    /// All rows are there.
    Whole,
    /// The next part is more than it may look at.
    TooFar,
}

/// The rows that a walk found, if it didn't give up, and how many documents it looked at.
#[derive(Drop)]
pub(crate) struct Walked<'a> {
    pub rows: Option<Vec<&'a Stored>>,
    pub looked: usize,
}

// The position of the documents that have the same values of these fields.
fn cut_at(
    alloc: Global,
    document: &Stored,
    names: &[&str],
    after: bool,
) -> Result<Bound, AllocError>
    ensures { IfOk result (λ b. b ≡ cut_at (map (λ f. f.now) names.now) after document.now) }
{
    let mut values = Vec::with_capacity(alloc, 4)?;
    values.push(Some(Value::Flag(document.state.deleted)))?;
    for name in names {
        values.push(copy_value(alloc, document.state.fields.get(name))?)?;
    }
    Bound::new(alloc, values, after)
}

fn copy_value(alloc: Global, value: Option<&Value>) -> Result<Option<Value>, AllocError>
    ensures { IfOk result (λ v. v ≡ option_map (λ v. v.now) value.entry) }
{
    match value {
        Some(value) => Ok(Some(value.copy(alloc)?)),
        None => Ok(None),
    }
}

// What comes next up to a cut.
fn part<'i>(index: &IndexView<'i>, desc: bool, low: &Bound, high: &Bound, cut: &Bound) -> Range<'i>
    ensures ids { result ≡ ids_between (part_low desc low.now cut.now)
        (part_high desc high.now cut.now) index.now.keys }
    ensures rising { IsStrictlySortedBy position_cmp index.now.keys }
    ensures fits { length result < 2 ^ 63 }
{
    if desc {
        index.range(cut, high)
    } else {
        index.range(low, cut)
    }
}

// The key that comes behind so many others.
fn entry_at<'i>(ids: &Range<'i>, desc: bool, i: usize) -> Option<Entry<'i>>
    ensures { result ≡ slice_get (turned desc ids.now) i }
{
    if desc { ids.at_back(i) } else { ids.at(i) }
}

// The document of the key that comes behind so many others, if there are more.
fn pivot<'a, T: Lookup>(
    alloc: Global,
    index: &IndexView<'_>,
    docs: &'a T,
    desc: bool,
    low: &Bound,
    high: &Bound,
    most: usize,
) -> Result<Option<&'a Stored>, AllocError>
    requires { Holds index.now (T.documents docs.now) }
    ensures pivot { IfOk result (λ o. IfSome o
        (λ d. IsPivot (T.documents docs.now) index.now low.now high.now d.now)) }
    ensures near { IfOk result (λ o. IfSome o (λ d. keys_next desc index.now.keys low.now high.now
        (position_with (key_of index.now.fields d.now).values desc) ≤ most)) }
    ensures few { IfOk result (λ o. is_none o ≡ true
        → length (ids_between low.now high.now index.now.keys) ≤ most) }
{
    let ids = index.range(low, high);
    let Some(entry) = entry_at(&ids, desc, most) else {
        return Ok(None);
    };
    let Some(document) = document_of(alloc, docs, &entry)? else {
        unreachable!("each key is that of a document");
    };
    Ok(Some(document))
}

// Where what comes next ends: before the values of the key that comes behind so many others, or,
// where all before it have the same, behind those. There is no end where there are no more keys.
fn next_cut<T: Lookup>(
    alloc: Global,
    query: &Query,
    index: &IndexView<'_>,
    docs: &T,
    names: &[&str],
    low: &Bound,
    high: &Bound,
    most: usize,
) -> Result<Option<Bound>, AllocError>
    requires way { IsWay (asked query.now) (T.documents docs.now) index.now
        (map (λ f. f.now) names.now) }
    requires low_long { length low.now.values ≤ length names.now + 1 }
    requires high_long { length high.now.values ≤ length names.now + 1 }
    ensures cut { IfOk result (λ o. IfSome o (IsCut (asked query.now) (T.documents docs.now)
        index.now (map (λ f. f.now) names.now) most low.now high.now)) }
    ensures few { IfOk result (λ o. is_none o ≡ true
        → length (ids_between low.now high.now index.now.keys) ≤ most) }
{
    let desc = falls(query);
    let Some(document) = pivot(alloc, index, docs, desc, low, high, most)? else {
        return Ok(None);
    };
    let near = cut_at(alloc, document, names, desc)?;
    if part(index, desc, low, high, &near).len() > 0 {
        return Ok(Some(near));
    }
    Ok(Some(cut_at(alloc, document, names, !desc)?))
}

// Puts the due ones of these documents in order behind the rows.
fn gather<'a, T: Lookup>(
    alloc: Global,
    query: &Query,
    docs: &'a T,
    mut ids: Range<'_>,
    rows: &mut Vec<&'a Stored>,
) -> Result<(), AllocError>
    requires { IsDistinct (eq_by_cmp (stored_cmp (asked query.now)))
        (due_among (asked query.now) (T.documents docs.now) ids) }
    ensures { OnOk result (map (λ r. r.now) rows.new.items ≡ map (λ r. r.now) rows.old.items
        ++ sorted (stored_before (asked query.now))
        (due_among (asked query.now) (T.documents docs.now) ids.entry)) }
{
    let mut more = first_due(alloc, query, docs, &mut ids, None)?;
    put_in_order(query, &mut more);
    rows.append(&mut more)?;
    Ok(())
}

// Looks at all that is left.
fn take_rest<'a, T: Lookup>(
    alloc: Global,
    query: &Query,
    index: &IndexView<'_>,
    docs: &'a T,
    walk: &mut Walk<'a>,
) -> Result<(), AllocError>
    requires keyed { IsCollection (asked query.now).primary (T.documents docs.now) }
    requires held { Holds index.now (T.documents docs.now) }
    requires fits { walk.old.looked + length (ids_between walk.old.low walk.old.high index.now.keys)
        < 2 ^ 64 }
    ensures rows { OnOk result (map (λ r. r.now) walk.new.rows.items
        ≡ map (λ r. r.now) walk.old.rows.items ++ rows_between (asked query.now)
        (T.documents docs.now) index.now.keys walk.old.low walk.old.high) }
    ensures looked { OnOk result (walk.new.looked
        ≡ walk.old.looked + length (ids_between walk.old.low walk.old.high index.now.keys)) }
{
    let many = index.range(&walk.low, &walk.high).len();
    let ids = index.range(&walk.low, &walk.high);
    gather(alloc, query, docs, ids, &mut walk.rows)?;
    walk.looked += many;
    Ok(())
}

// Looks at what comes next up to a cut.
fn take_part<'a, T: Lookup>(
    alloc: Global,
    query: &Query,
    index: &IndexView<'_>,
    docs: &'a T,
    cut: Bound,
    walk: &mut Walk<'a>,
) -> Result<(), AllocError>
    requires keyed { IsCollection (asked query.now).primary (T.documents docs.now) }
    requires held { Holds index.now (T.documents docs.now) }
    requires fits { walk.old.looked + keys_next (falls (asked query.now)) index.now.keys
        walk.old.low walk.old.high cut < 2 ^ 64 }
    ensures rows { OnOk result (map (λ r. r.now) walk.new.rows.items
        ≡ map (λ r. r.now) walk.old.rows.items ++ rows_between (asked query.now)
        (T.documents docs.now) index.now.keys
        (part_low (falls (asked query.now)) walk.old.low cut)
        (part_high (falls (asked query.now)) walk.old.high cut)) }
    ensures looked { OnOk result (walk.new.looked ≡ walk.old.looked
        + keys_next (falls (asked query.now)) index.now.keys walk.old.low walk.old.high cut) }
    ensures low { OnOk result
        (walk.new.low ≡ left_low (falls (asked query.now)) walk.old.low cut) }
    ensures high { OnOk result
        (walk.new.high ≡ left_high (falls (asked query.now)) walk.old.high cut) }
{
    let desc = falls(query);
    let many = part(index, desc, &walk.low, &walk.high, &cut).len();
    let ids = part(index, desc, &walk.low, &walk.high, &cut);
    gather(alloc, query, docs, ids, &mut walk.rows)?;
    walk.looked += many;
    if desc {
        walk.high = cut;
    } else {
        walk.low = cut;
    }
    Ok(())
}

// How many documents to look at next.
fn next_wanted(most: u128, looked: usize, room: usize) -> usize
    ensures room { result ≤ room }
    ensures fits { result ≤ looked + most }
{
    let wanted = most.min(room as u128) as usize;
    looked.max(wanted).min(room)
}

// Looks at what comes next: as many documents as are wanted or were looked at, and no more than
// `budget` in all.
fn advance<'a, T: Lookup>(
    alloc: Global,
    query: &Query,
    index: &IndexView<'_>,
    docs: &'a T,
    names: &[&str],
    most: u128,
    budget: usize,
    walk: &mut Walk<'a>,
) -> Result<Step, AllocError>
    requires way { IsWay (asked query.now) (T.documents docs.now) index.now
        (map (λ f. f.now) names.now) }
    requires under { IsUnderWay (asked query.now) (T.documents docs.now) index.now
        (map (λ r. r.now) walk.old.rows.items) walk.old.looked walk.old.low walk.old.high }
    requires short { length walk.old.rows.items < most }
    requires within { walk.old.looked ≤ budget }
    ensures { IfOk result (λ step. HasStepped (asked query.now) (T.documents docs.now) index.now
        most budget walk.old.looked (map (λ r. r.now) walk.new.rows.items) walk.new.looked
        walk.new.low walk.new.high step) }
{
    let room = budget - walk.looked;
    let wanted = next_wanted(most, walk.looked, room);
    let cut = next_cut(
        alloc, query, index, docs, names, &walk.low, &walk.high, wanted,
    )?;
    let Some(cut) = cut else {
        take_rest(alloc, query, index, docs, walk)?;
        return Ok(Step::Whole);
    };
    if part(index, falls(query), &walk.low, &walk.high, &cut).len() > room {
        return Ok(Step::TooFar);
    }
    take_part(alloc, query, index, docs, cut, walk)?;
    Ok(Step::More)
}

fn start<'a>(alloc: Global, query: &Query, index: &IndexView<'_>) -> Result<Walk<'a>, AllocError>
    ensures none { IfOk result (λ walk. walk.rows.items ≡ []) }
    ensures looked { IfOk result (λ walk. walk.looked ≡ 0) }
    ensures low { IfOk result (λ walk. walk.low
        ≡ bound_of (asked query.now) false (path_of (asked query.now) index.now.fields)) }
    ensures high { IfOk result (λ walk. walk.high
        ≡ bound_of (asked query.now) true (path_of (asked query.now) index.now.fields)) }
{
    let path = path(alloc, query, index.fields())?;
    let path = path.as_slice();
    Ok(Walk {
        rows: Vec::new(alloc),
        looked: 0,
        low: bound(alloc, query, path, false)?,
        high: bound(alloc, query, path, true)?,
    })
}

/// The first rows along an index, as many as are wanted, unless more than `budget` documents have
/// to be looked at.
pub(crate) fn walk_along<'a, T: Lookup>(
    alloc: Global,
    query: &Query,
    index: &IndexView<'_>,
    docs: &'a T,
    names: &[&str],
    most: u128,
    budget: usize,
) -> Result<Walked<'a>, AllocError>
    requires { IsWay (asked query.now) (T.documents docs.now) index.now
        (map (λ f. f.now) names.now) }
    ensures rows { IfOk result (λ walked. IfSome walked.rows
        (λ rows. map (λ r. r.now) rows.items
        ≡ take most (all_rows (asked query.now) (T.documents docs.now)))) }
    ensures looked { IfOk result (λ walked. walked.looked ≤ budget) }
    ensures cost { IfOk result (λ walked. IsSome walked.rows → walked.looked
        ≤ 2 * needed (asked query.now) (T.documents docs.now) index.now most + most) }
    ensures given_up { IfOk result (λ walked. walked.rows ≡ None → walked.looked + budget
        ≤ 2 * needed (asked query.now) (T.documents docs.now) index.now most) }
{
    let mut walk = start(alloc, query, index)?;
    'parts: while (walk.rows.len() as u128) < most {
        match advance(alloc, query, index, docs, names, most, budget, &mut walk)? {
            Step::More => {}
            Step::Whole => return Ok(found(walk, most)),
            Step::TooFar => return Ok(given_up(walk)),
        }
    }
    Ok(found(walk, most))
}

fn found(walk: Walk<'_>, most: u128) -> Walked<'_>
    ensures some { IsSome result.rows }
    ensures rows { IfSome result.rows (λ rows. rows.items ≡ take most walk.entry.rows.items) }
    ensures looked { result.looked ≡ walk.entry.looked }
{
    let mut rows = walk.rows;
    if most < rows.len() as u128 {
        rows.truncate(most as usize);
    }
    Walked {
        rows: Some(rows),
        looked: walk.looked,
    }
}

fn given_up(walk: Walk<'_>) -> Walked<'_>
    ensures rows { result.rows ≡ None }
    ensures looked { result.looked ≡ walk.entry.looked }
{
    Walked {
        rows: None,
        looked: walk.looked,
    }
}
