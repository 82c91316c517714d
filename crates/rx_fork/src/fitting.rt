ghost use Rattle.std.specs.Prelude.{◌≡◌, true, None, option_map};
ghost use Rattle.rx_fork.specs.BadReply.{has_row, first_foreign, place_fits, is_fit};
ghost use Rattle.rx_fork.specs.Conflicts.{conflicts_left};

use rx_document::Place;
use rx_value::{RxText, State};
use rx_wire::PushRow;

// The number of the first conflict whose key no row has.
pub(crate) fn first_foreign(rows: &[PushRow], conflicts: &[State]) -> Option<usize>
    ensures { result ≡ first_foreign rows.now conflicts.now }
{
    // A master answers in the order of the rows.
    if are_in_order(rows, conflicts) {
        return None;
    }
    conflicts.iter().position(|s| !has_row(rows, &s.key))
}

// Whether each conflict has a row, and they come in the order of these.
fn are_in_order(rows: &[PushRow], conflicts: &[State]) -> bool
    ensures { result ≡ true → first_foreign rows.now conflicts.now ≡ None }
{
    let mut left = conflicts;
    for row in rows {
        left = conflicts_left(left, row);
    }
    left.is_empty()
}

// The conflicts that are left for the rows behind this one.
pub(crate) fn conflicts_left<'a>(conflicts: &'a [State], row: &PushRow) -> &'a [State]
    ensures { result.now ≡ conflicts_left conflicts.now row.now }
{
    match conflicts.split_first() {
        Some((first, rest)) if first.key == row.new.key => rest,
        _ => conflicts,
    }
}

fn has_row(rows: &[PushRow], key: &RxText) -> bool
    ensures { result ≡ has_row rows.now key.now }
{
    rows.iter().any(|row| row.new.key == *key)
}

// Whether the place of an answer is one that these states, asked for from a place on, can have.
pub(crate) fn is_fit(asked: Option<&Place>, states: &[State], to: Option<&Place>) -> bool
    ensures { result ≡ is_fit (option_map (λ p. p.now) asked.entry) states.now
        (option_map (λ p. p.now) to.entry) }
{
    place_fits(asked, states.last(), to)
}

fn place_fits(asked: Option<&Place>, last: Option<&State>, to: Option<&Place>) -> bool
    ensures { result ≡ place_fits (option_map (λ p. p.now) asked.entry)
        (option_map (λ s. s.now) last.entry) (option_map (λ p. p.now) to.entry) }
{
    match (last, asked, to) {
        (None, None, None) => true,
        (None, Some(asked), Some(to)) => *asked == *to,
        (Some(last), None, Some(to)) => to.id == last.key,
        (Some(last), Some(asked), Some(to)) => asked.cmp(to).is_lt() && to.id == last.key,
        _ => false,
    }
}
