ghost use Rattle.std.specs.Prelude.{◌≡◌, ◌-◌, ◌==◌, ◌&&◌, length, slice_get, is_some, nat_lt, nat_le, not};
ghost use Rattle.std.specs.List.{list_any};
ghost use Rattle.std.specs.Option.{option_copied};
ghost use Rattle.rx_query.specs.QuerySpec.{asked};
ghost use Rattle.rx_query.specs.Lists.{some_passes, first_passes, last_passes};
ghost use Rattle.rx_query.specs.States.{live_before, is_unknown, is_changed, before_first, after_last, ties, is_match, state_of};

use rx_document::{Before, Change};
use rx_query::{Query, Results, Row};
use rx_table::StateName;
use rx_value::{Fields, order};

pub(crate) fn answer(query: &Query, change: &Change, results: &Results, which: StateName) -> bool
    ensures { result ≡ state_of (asked query.now) change.now results.now which }
{
    let before = live_before(change);
    let after = change.after.as_ref();
    match which {
        StateName::IsInsert => is_insert(change),
        StateName::IsUpdate => is_update(change),
        StateName::IsDelete => is_delete(change),
        StateName::HasLimit => has_limit(query),
        StateName::IsFindOne => is_find_one(query),
        StateName::HasSkip => has_skip(query),
        StateName::WasResultsEmpty => is_empty(results),
        StateName::PreviousUnknown => is_unknown(change),
        StateName::WasLimitReached => is_limit_reached(query, results),
        StateName::SortParamsChanged => is_moved(query, before, after),
        StateName::WasInResult => was_in_result(change, results),
        StateName::WasFirst => is_changed(change, first(results)),
        StateName::WasLast => is_changed(change, last(results)),
        StateName::WasSortedBeforeFirst => is_before_first(query, change, results, before),
        StateName::WasSortedAfterLast => is_after_last(query, change, results, before),
        StateName::IsSortedBeforeFirst => is_before_first(query, change, results, after),
        StateName::IsSortedAfterLast => is_after_last(query, change, results, after),
        StateName::WasMatching => is_match(query, before),
        StateName::DoesMatchNow => is_match(query, after),
    }
}

pub(crate) fn live_before(change: &Change) -> Option<&Fields>
    ensures { option_copied result ≡ live_before change.now.before }
{
    match &change.before {
        Before::Live(fields) => Some(fields),
        _ => None,
    }
}

pub(crate) fn is_insert(change: &Change) -> bool
    ensures { result ≡ (not (is_some (live_before change.now.before))
        && is_some change.now.after) }
{
    live_before(change).is_none() && change.after.is_some()
}

pub(crate) fn is_update(change: &Change) -> bool
    ensures { result ≡ (is_some (live_before change.now.before) && is_some change.now.after) }
{
    live_before(change).is_some() && change.after.is_some()
}

pub(crate) fn is_delete(change: &Change) -> bool
    ensures { result ≡ (is_some (live_before change.now.before)
        && not (is_some change.now.after)) }
{
    live_before(change).is_some() && change.after.is_none()
}

pub(crate) fn has_limit(query: &Query) -> bool
    ensures { result ≡ is_some (asked query.now).limit }
{
    query.limit().is_some()
}

pub(crate) fn is_find_one(query: &Query) -> bool
    ensures { result ≡ some_passes (λ limit. limit == 1) (asked query.now).limit }
{
    query.limit() == Some(1)
}

pub(crate) fn has_skip(query: &Query) -> bool
    ensures { result ≡ nat_lt 0 (asked query.now).skip }
{
    query.skip() > 0
}

pub(crate) fn is_empty(results: &Results) -> bool
    ensures { result ≡ (length results.now == 0) }
{
    results.len() == 0
}

pub(crate) fn is_unknown(change: &Change) -> bool
    ensures { result ≡ is_unknown change.now.before }
{
    matches!(change.before, Before::Unknown)
}

pub(crate) fn first(results: &Results) -> Option<&Row>
    ensures { option_copied result ≡ slice_get results.now 0 }
{
    if results.len() > 0 {
        Some(results.row(0))
    } else {
        None
    }
}

pub(crate) fn last(results: &Results) -> Option<&Row>
    ensures { option_copied result ≡ slice_get results.now (length results.now - 1) }
{
    if results.len() > 0 {
        Some(results.row(results.len() - 1))
    } else {
        None
    }
}

pub(crate) fn is_limit_reached(query: &Query, results: &Results) -> bool
    ensures { result ≡ some_passes (λ limit. nat_le limit (length results.now))
        (asked query.now).limit }
{
    match query.limit() {
        Some(limit) => limit <= results.len() as u64,
        None => false,
    }
}

fn is_changed(change: &Change, row: Option<&Row>) -> bool
    ensures { result ≡ some_passes (is_changed change.now) (option_copied row.entry) }
{
    match row {
        Some(row) => row.id == change.id,
        None => false,
    }
}

#[tactic(auto, using(crate::proofs::Steps::any_next, crate::proofs::Steps::any_found))]
fn was_in_result(change: &Change, results: &Results) -> bool
    ensures { result ≡ list_any (is_changed change.now) results.now }
{
    for i in 0..results.len() {
        if results.row(i).id == change.id {
            return true;
        }
    }
    false
}

pub(crate) fn is_match(query: &Query, fields: Option<&Fields>) -> bool
    ensures { result ≡ some_passes (is_match (asked query.now)) (option_copied fields.entry) }
{
    match fields {
        Some(fields) => query.matches(fields),
        None => false,
    }
}

fn is_before_first(
    query: &Query,
    change: &Change,
    results: &Results,
    fields: Option<&Fields>,
) -> bool
    ensures { result ≡ some_passes (before_first (asked query.now) change.now results.now)
        (option_copied fields.entry) }
{
    match (fields, first(results)) {
        (Some(fields), Some(row)) => {
            row.id == change.id || query.before(fields, &row.fields).is_lt()
        }
        _ => false,
    }
}

fn is_after_last(query: &Query, change: &Change, results: &Results, fields: Option<&Fields>) -> bool
    ensures { result ≡ some_passes (after_last (asked query.now) change.now results.now)
        (option_copied fields.entry) }
{
    match (fields, last(results)) {
        (Some(fields), Some(row)) => {
            row.id == change.id || query.before(&row.fields, fields).is_lt()
        }
        _ => false,
    }
}

// Whether a field of the sort tells them apart.
pub(crate) fn differs(query: &Query, a: &Fields, b: &Fields) -> bool
    ensures { result ≡ not (ties (asked query.now) a.now b.now) }
{
    for i in 0..query.sorts() {
        let (name, _desc) = query.sort(i);
        if order(a.get(name.as_str()), b.get(name.as_str())).is_ne() {
            return true;
        }
    }
    false
}

fn is_moved(query: &Query, before: Option<&Fields>, after: Option<&Fields>) -> bool
    ensures { result ≡ some_passes
        (λ x. not (some_passes (ties (asked query.now) x) (option_copied before.entry)))
        (option_copied after.entry) }
{
    match (after, before) {
        (None, _) => false,
        (Some(_), None) => true,
        (Some(after), Some(before)) => differs(query, after, before),
    }
}
