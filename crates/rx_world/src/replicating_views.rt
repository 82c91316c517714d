// What a replication takes, of a record that is only lent. A checkpoint is owned.
ghost use Rattle.std.specs.Prelude.{◌≡◌, IfOk, IfSome, is_some, option_map};
ghost use Rattle.std.specs.List.{list_all};
ghost use Rattle.rx_record.specs.Places.{place_in};
ghost use Rattle.rx_record.specs.Views.{rows_left, state_in, states_left};
ghost use Rattle.rx_value.specs.Named.{by_name};
ghost use Rattle.rx_world.specs.Holders.{AreWhole};
ghost use Rattle.rx_world.specs.Among.{AreAmong};
ghost use Rattle.rx_world.specs.Replicating.{stays_or_rises};
ghost use Rattle.rx_world.specs.Step.{fork_takes, has_key, is_held_with, takes_exchange, takes_rows};

use crate::legality::takes_views;
use crate::names::find;
use crate::replicating::stays_or_rises;
use crate::replication::Replication;
use crate::valid_views::is_valid_view;
use indexmap::IndexMap;
use rx_collection::{Collection, Holder};
use rx_document::Place;
use rx_record::{PlaceView, RowViews, StateView, StateViews};
use std::alloc::{AllocError, Global};

// Whether a replication takes an exchange.
pub(crate) fn takes_exchange_view<H: Holder>(
    holders: &IndexMap<String, H>,
    alloc: Global,
    replication: &Replication,
    lwt: u64,
    rows: &RowViews<'_>,
    known: &StateViews<'_>,
    up: &Option<PlaceView<'_>>,
    down: &Option<PlaceView<'_>>,
) -> Result<bool, AllocError>
    requires { AreWhole H.held H.is_broken holders.now.entries }
    ensures { IfOk result (λ b. b ≡ takes_exchange (by_name H.held holders.now.entries) lwt
        (rows_left rows.now) (states_left known.now) (option_map place_in up.now)
        (option_map place_in down.now) replication.now) }
{
    if !view_stays_or_rises(alloc, replication.side.up(), up)?
        || !view_stays_or_rises(alloc, replication.side.down(), down)?
    {
        return Ok(false);
    }
    match find(holders, replication.fork.as_str()) {
        Some(fork) => Ok(fork_takes_views(fork.collection(), lwt, rows, known)),
        None => Ok(false),
    }
}

fn view_stays_or_rises(
    alloc: Global,
    old: Option<&Place>,
    new: &Option<PlaceView<'_>>,
) -> Result<bool, AllocError>
    ensures { IfOk result (λ b. b
        ≡ stays_or_rises (option_map (λ p. p.now) old.entry) (option_map place_in new.now)) }
{
    let new = own_place(alloc, new)?;
    Ok(stays_or_rises(old, &new))
}

fn own_place(alloc: Global, place: &Option<PlaceView<'_>>) -> Result<Option<Place>, AllocError>
    ensures { IfOk result (λ owned. owned ≡ option_map place_in place.now) }
{
    match place {
        Some(place) => Ok(Some(place.own(alloc)?)),
        None => Ok(None),
    }
}

// Whether a fork takes the rows, and then holds the keys of the known states.
fn fork_takes_views(
    fork: &Collection,
    lwt: u64,
    rows: &RowViews<'_>,
    known: &StateViews<'_>,
) -> bool
    ensures { result ≡ fork_takes lwt (rows_left rows.now) (states_left known.now) fork.now }
{
    takes_row_views(fork, lwt, rows) && are_held_views(fork, rows, known)
}

fn takes_row_views(fork: &Collection, lwt: u64, rows: &RowViews<'_>) -> bool
    ensures { result ≡ takes_rows lwt (rows_left rows.now) fork.now }
{
    let mut rest = *rows;
    match rest.next() {
        Some(_) => takes_views(fork, lwt, rows),
        None => lwt == 0,
    }
}

fn are_held_views(fork: &Collection, rows: &RowViews<'_>, known: &StateViews<'_>) -> bool
    ensures { result
        ≡ list_all (is_held_with fork.now (rows_left rows.now)) (states_left known.now) }
{
    let mut known = *known;
    let mut rest = *rows;
    while let Some(state) = known.next() {
        if !is_held_view(fork, rows, &mut rest, &state) {
            return false;
        }
    }
    true
}

// Whether the state is valid, and its key is held by the fork with the rows, of which these are
// left.
fn is_held_view<'a>(
    fork: &Collection,
    rows: &RowViews<'a>,
    rest: &mut RowViews<'a>,
    state: &StateView<'_>,
) -> bool
    requires { AreAmong (rows_left rest.old) (rows_left rows.now) }
    ensures held { result ≡ is_held_with fork.now (rows_left rows.now) (state_in state.now) }
    ensures among { AreAmong (rows_left rest.new) (rows_left rows.now) }
{
    is_valid_view(fork.schema(), state)
        && (fork.get(state.key).is_some() || is_written(state.key, rows, rest))
}

// Whether a row has the key. States and rows come by rising key, so it is looked for first in what
// the last look left, and that goes on behind it: all looks together cost one walk.
fn is_written<'a>(key: &str, rows: &RowViews<'a>, rest: &mut RowViews<'a>) -> bool
    requires { AreAmong (rows_left rest.old) (rows_left rows.now) }
    ensures written { result ≡ has_key key.now (rows_left rows.now) }
    ensures among { AreAmong (rows_left rest.new) (rows_left rows.now) }
{
    match behind(key, rest) {
        Some(left) => {
            *rest = left;
            true
        }
        None => behind(key, rows).is_some(),
    }
}

// The rows behind the one that has the key, if one has.
fn behind<'a>(key: &str, rows: &RowViews<'a>) -> Option<RowViews<'a>>
    ensures held { is_some result ≡ has_key key.now (rows_left rows.now) }
    ensures among { IfSome result (λ left. AreAmong (rows_left left) (rows_left rows.now)) }
{
    let mut rows = *rows;
    while let Some(row) = rows.next() {
        if row.state.key == key {
            return Some(rows);
        }
    }
    None
}
