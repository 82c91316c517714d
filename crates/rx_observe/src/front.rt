ghost use Rattle.std.specs.Prelude.{◌≡◌, ◌≤◌, ◌+◌, true, false, List, length, take, IfSome, IfOk, OnOk};
ghost use Rattle.std.specs.List.{list_any};
ghost use Rattle.rx_query.specs.Lists.{last_passes};
ghost use Rattle.rx_query.specs.QuerySpec.{asked};
ghost use Rattle.rx_query.specs.States.{precedes, is_changed};
ghost use Rattle.rx_query.specs.declared.results.Row.{Row};
ghost use Rattle.rx_collection.specs.Held.{Held};
ghost use Rattle.rx_observe.specs.Front.{kept_limit, most_kept, IsFrontOf, no_front, AreFronts, StaysFront, LeavesOthers, suffices, stood_behind, enters, entered};
ghost use Rattle.rx_observe.specs.Observing.{Queries};
ghost use Rattle.rx_states.specs.Matches.{TellMatches};

use rx_actions::act;
use rx_document::{Before, Change};
use rx_query::{Query, Results};
use rx_states::Matches;
use rx_table::Action;
use rx_value::Fields;
use std::alloc::{AllocError, Global};

/// How many rows are kept behind a window at most.
const MOST_BEHIND: u64 = 100;

// The first rows of a query's result without its limit: those of its window, and those behind it,
// which move up where a row of the window goes.
#[derive(Drop)]
pub(crate) struct Front {
    pub rows: Results,
    /// Whether the result has no others.
    pub whole: bool,
}

impl Front {
    pub(crate) fn none(alloc: Global) -> Front
        ensures { result ≡ no_front }
    {
        Front {
            rows: Results::new(alloc),
            whole: false,
        }
    }

    // Whether it tells the window.
    pub(crate) fn suffices(&self, limit: u64) -> bool
        ensures { result ≡ suffices limit self.now }
    {
        self.whole || limit <= self.rows.len() as u64
    }

    // A copy of the window.
    pub(crate) fn window(&self, alloc: Global, limit: u64) -> Result<Results, AllocError>
        ensures { IfOk result (λ rows. rows ≡ take limit self.now.rows) }
    {
        let mut window = Results::new(alloc);
        for i in 0..self.rows.len() {
            if limit <= i as u64 {
                return Ok(window);
            }
            window.insert(window.len(), self.rows.row(i).copy(alloc)?)?;
        }
        Ok(window)
    }

    // Brings it up to date with a change.
    pub(crate) fn follow(
        &mut self,
        alloc: Global,
        query: &Query,
        change: &Change,
        matches: Matches,
    ) -> Result<(), AllocError>
        requires matches { TellMatches (asked query.now) change.now matches }
        requires few { IfSome (kept_limit (asked query.now))
            (λ limit. length self.old.rows ≤ most_kept limit) }
        ensures { OnOk result (StaysFront (asked query.now) change.now self.old self.new) }
    {
        let Some(limit) = kept_limit(query) else {
            return Ok(());
        };
        take_out(alloc, query, change, matches, &mut self.rows)?;
        put_in(alloc, query, change, matches, self.whole, &mut self.rows)?;
        self.cut(limit);
        Ok(())
    }

    // Keeps no more rows than may be kept.
    fn cut(&mut self, limit: u64)
        requires { length self.old.rows ≤ most_kept limit + 1 }
        ensures few { length self.new.rows ≤ most_kept limit }
        ensures first { (all : List Row) → IsFrontOf self.old.rows self.old.whole all
            → IsFrontOf self.new.rows self.new.whole all }
    {
        let len = self.rows.len();
        if len as u64 <= most_kept(limit) {
            return;
        }
        self.rows.remove(len - 1);
        self.whole = false;
    }
}

// The limit of a query that keeps a front.
pub(crate) fn kept_limit(query: &Query) -> Option<u64>
    ensures { result ≡ kept_limit (asked query.now) }
{
    if query.skip() == 0 {
        query.limit()
    } else {
        None
    }
}

// How many rows it keeps, which a count holds.
pub(crate) fn most_kept(limit: u64) -> u64
    ensures most { result ≤ most_kept limit }
    ensures window { limit ≤ result }
{
    limit.saturating_add(limit.min(MOST_BEHIND))
}

// Takes out the changed document's row, if it is there.
fn take_out(
    alloc: Global,
    query: &Query,
    change: &Change,
    matches: Matches,
    rows: &mut Results,
) -> Result<(), AllocError>
    requires { TellMatches (asked query.now) change.now matches }
    ensures others { OnOk result (LeavesOthers (asked query.now) change.now rows.old rows.new) }
    ensures no_more { OnOk result (length rows.new ≤ length rows.old) }
{
    if !is_among(query, change, matches, rows) {
        return Ok(());
    }
    act(alloc, Action::RemoveExisting, query, change, rows)
}

// Whether one of the first rows before a change is the document's.
fn is_among(query: &Query, change: &Change, matches: Matches, rows: &Results) -> bool
    requires { TellMatches (asked query.now) change.now matches }
    ensures there { result ≡ true → list_any (is_changed change.now) rows.now ≡ true }
    ensures not_there { result ≡ false
        → LeavesOthers (asked query.now) change.now rows.now rows.now }
{
    if !matches.was {
        return false;
    }
    if is_behind(query, change, rows) {
        return false;
    }
    holds(change, rows)
}

// Whether the document as it was stood behind all rows. It needn't be looked for among them then.
fn is_behind(query: &Query, change: &Change, rows: &Results) -> bool
    ensures { result ≡ stood_behind (asked query.now) change.now rows.now }
{
    if rows.len() == 0 {
        return false;
    }
    let last = rows.row(rows.len() - 1);
    match &change.before {
        Before::Live(fields) => query.before(&last.fields, fields).is_lt(),
        _ => false,
    }
}

#[tactic(auto, using(rx_states::proofs::Steps::any_next, rx_states::proofs::Steps::any_found))]
fn holds(change: &Change, rows: &Results) -> bool
    ensures { result ≡ list_any (is_changed change.now) rows.now }
{
    for i in 0..rows.len() {
        if rows.row(i).id == change.id {
            return true;
        }
    }
    false
}

// Puts in the changed document's row, if it belongs among the rows.
fn put_in(
    alloc: Global,
    query: &Query,
    change: &Change,
    matches: Matches,
    whole: bool,
    rows: &mut Results,
) -> Result<(), AllocError>
    requires { TellMatches (asked query.now) change.now matches }
    ensures { OnOk result (rows.new ≡ entered (asked query.now) change.now whole rows.old) }
{
    if !enters(query, change, matches, whole, rows) {
        return Ok(());
    }
    act(alloc, Action::InsertAtSortPosition, query, change, rows)
}

fn enters(query: &Query, change: &Change, matches: Matches, whole: bool, rows: &Results) -> bool
    requires { TellMatches (asked query.now) change.now matches }
    ensures { result ≡ enters (asked query.now) change.now whole rows.now }
{
    let Some(fields) = &change.after else {
        return false;
    };
    if !matches.now {
        return false;
    }
    whole || is_before_last(query, fields, rows)
}

fn is_before_last(query: &Query, fields: &Fields, rows: &Results) -> bool
    ensures { result
        ≡ last_passes (λ row. precedes (asked query.now) fields.now row.fields) rows.now }
{
    if rows.len() == 0 {
        return false;
    }
    let last = rows.row(rows.len() - 1);
    query.before(fields, &last.fields).is_lt()
}

// Makes the fronts as many as the queries are. A query without one has one without rows.
pub(crate) fn align(alloc: Global, fronts: &mut Vec<Front>, len: usize) -> Result<(), AllocError>
    ensures length { OnOk result (length fronts.new.items ≡ len) }
    ensures kept { (c : Held) (qs : Queries) → AreFronts c qs fronts.old.items
        → AreFronts c qs fronts.new.items }
{
    fronts.truncate(len);
    for i in fronts.len()..len {
        fronts.push(Front::none(alloc))?;
    }
    Ok(())
}
