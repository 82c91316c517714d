ghost use Rattle.std.specs.Prelude.{◌≡◌, ◌<◌, ◌^◌, true, false};
ghost use Rattle.rx_table.specs.Rows.{table_of};
ghost use Rattle.rx_table.specs.States.{state_count, holds as holds_in};
ghost use Rattle.rx_table.specs.declared.states.StateName.TheVariants.{
  WasResultsEmpty,
  PreviousUnknown,
  SortParamsChanged,
  WasMatching,
  DoesMatchNow,
};

use crate::action::Action;
use crate::states::{StateName, holds};

/// What to do with the rows where the questions are answered like this. The first fitting row of
/// the table counts, so an answer may go unread.
pub fn table(bits: u32) -> Action
    requires { bits < 2 ^ state_count }
    ensures { result ≡ table_of bits }
{
    let was_matching = holds(bits, StateName::WasMatching);
    let does_match_now = holds(bits, StateName::DoesMatchNow);
    match (was_matching, does_match_now) {
        _ if holds(bits, StateName::PreviousUnknown) => Action::RunFullQueryAgain,
        (false, false) => Action::DoNothing,
        (true, false) => leaving_action(bits),
        (false, true) => entering_action(bits),
        (true, true) => staying_action(bits),
    }
}

// The part of the table for a document that no longer matches.
fn leaving_action(bits: u32) -> Action
    requires known { holds_in bits PreviousUnknown ≡ false }
    requires before { holds_in bits WasMatching ≡ true }
    requires now { holds_in bits DoesMatchNow ≡ false }
    ensures { result ≡ table_of bits }
{
    let was_in_result = holds(bits, StateName::WasInResult);
    let was_limit_reached = holds(bits, StateName::WasLimitReached);
    match () {
        _ if holds(bits, StateName::WasResultsEmpty) => Action::DoNothing,
        _ if !was_in_result && holds(bits, StateName::WasSortedAfterLast) => Action::DoNothing,
        _ if !was_in_result && !was_limit_reached => Action::RemoveFirstItem,
        _ if !was_in_result => Action::RunFullQueryAgain,
        _ if was_limit_reached => Action::RunFullQueryAgain,
        _ if holds(bits, StateName::WasFirst) => Action::RemoveFirstItem,
        _ if holds(bits, StateName::WasLast) => Action::RemoveLastItem,
        _ => Action::RemoveExisting,
    }
}

// The part of the table for a document that matches now and didn't before.
fn entering_action(bits: u32) -> Action
    requires known { holds_in bits PreviousUnknown ≡ false }
    requires before { holds_in bits WasMatching ≡ false }
    requires now { holds_in bits DoesMatchNow ≡ true }
    ensures { result ≡ table_of bits }
{
    let has_skip = holds(bits, StateName::HasSkip);
    let was_results_empty = holds(bits, StateName::WasResultsEmpty);
    let was_limit_reached = holds(bits, StateName::WasLimitReached);
    let is_before_first = holds(bits, StateName::IsSortedBeforeFirst);
    let is_after_last = holds(bits, StateName::IsSortedAfterLast);
    let is_find_one = holds(bits, StateName::IsFindOne);
    match () {
        _ if was_results_empty && !has_skip => Action::InsertFirst,
        _ if was_results_empty => Action::RunFullQueryAgain,
        _ if is_after_last && was_limit_reached => Action::DoNothing,
        _ if is_after_last => Action::InsertLast,
        _ if is_before_first && has_skip => Action::RunFullQueryAgain,
        _ if is_before_first && !was_limit_reached => Action::InsertFirst,
        _ if is_before_first && is_find_one => Action::RemoveFirstInsertFirst,
        _ if is_before_first => Action::RemoveLastInsertFirst,
        _ if !was_limit_reached => Action::InsertAtSortPosition,
        _ => Action::InsertAtSortPositionRemoveLast,
    }
}

// The part of the table for a document that matched before and still does.
fn staying_action(bits: u32) -> Action
    requires known { holds_in bits PreviousUnknown ≡ false }
    requires before { holds_in bits WasMatching ≡ true }
    requires now { holds_in bits DoesMatchNow ≡ true }
    ensures { result ≡ table_of bits }
{
    match () {
        _ if holds(bits, StateName::WasResultsEmpty) => Action::DoNothing,
        _ if holds(bits, StateName::SortParamsChanged) => moving_action(bits),
        _ if holds(bits, StateName::WasLast) => Action::RemoveLastInsertLast,
        _ if holds(bits, StateName::WasFirst) => Action::RemoveFirstInsertFirst,
        _ if holds(bits, StateName::WasInResult) => Action::ReplaceExisting,
        _ => Action::DoNothing,
    }
}

// The part of the table for a document that still matches, and may have another place in the order.
fn moving_action(bits: u32) -> Action
    requires known { holds_in bits PreviousUnknown ≡ false }
    requires before { holds_in bits WasMatching ≡ true }
    requires now { holds_in bits DoesMatchNow ≡ true }
    requires some { holds_in bits WasResultsEmpty ≡ false }
    requires moves { holds_in bits SortParamsChanged ≡ true }
    ensures { result ≡ table_of bits }
{
    let has_skip = holds(bits, StateName::HasSkip);
    let was_limit_reached = holds(bits, StateName::WasLimitReached);
    let was_in_result = holds(bits, StateName::WasInResult);
    let was_before_first = holds(bits, StateName::WasSortedBeforeFirst);
    let was_after_last = holds(bits, StateName::WasSortedAfterLast);
    let is_before_first = holds(bits, StateName::IsSortedBeforeFirst);
    let is_after_last = holds(bits, StateName::IsSortedAfterLast);
    let is_find_one = holds(bits, StateName::IsFindOne);
    let is_past_skip = !has_skip || !is_before_first;
    let is_within_limit = !was_limit_reached || !is_after_last;
    match () {
        _ if was_in_result && is_past_skip && is_within_limit => {
            Action::RemoveExistingAndInsertAtSortPosition
        }
        _ if was_in_result => Action::RunFullQueryAgain,
        _ if was_before_first && is_before_first => Action::DoNothing,
        _ if was_after_last && is_after_last => Action::DoNothing,
        _ if was_before_first && is_after_last && !was_limit_reached => {
            Action::RemoveFirstInsertLast
        }
        _ if was_after_last && is_before_first && !has_skip && is_find_one => {
            Action::RemoveFirstInsertFirst
        }
        _ if was_after_last && is_before_first && !has_skip => Action::RemoveLastInsertFirst,
        _ if was_after_last && !is_before_first && !is_after_last => {
            Action::InsertAtSortPositionRemoveLast
        }
        _ => Action::RunFullQueryAgain,
    }
}
