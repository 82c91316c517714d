ghost use Rattle.std.specs.Prelude.{◌≡◌, true, false, IfSome, option_map};
ghost use Rattle.rx_query.specs.QuerySpec.{asked};
ghost use Rattle.rx_selector.specs.Holding.{compares};
ghost use Rattle.rx_selector.specs.declared.tree.Compare.TheVariants.{Eq};
ghost use Rattle.rx_states.specs.Matches.{TellMatches, IsNeeded, MatchesNeither};

use crate::answers::{is_match, live_before};
use crate::sides::Sides;
use rx_document::Change;
use rx_query::Query;
use rx_selector::{Clause, Compare, Test, is_same_kind};
use rx_value::{RxText, Value, order};

/// Whether a query asked for the document before a change, as far as that is known, and does now.
#[derive(Clone, Copy, Debug)]
pub struct Matches {
    pub was: bool,
    pub now: bool,
}

impl Matches {
    pub fn of(query: &Query, change: &Change) -> Matches
        ensures { TellMatches (asked query.now) change.now result }
    {
        Matches {
            was: is_match(query, live_before(change)),
            now: is_match(query, change.after.as_ref()),
        }
    }

    /// The same, by what the change says of the field that the selector begins with, where that
    /// tells.
    pub fn by_sides(query: &Query, change: &Change, sides: &mut Sides<'_>) -> Matches
        requires { sides.old ≡ change.now }
        ensures sides { sides.new ≡ sides.old }
        ensures told { TellMatches (asked query.now) change.now result }
    {
        if matches_neither(query, sides) {
            return Matches {
                was: false,
                now: false,
            };
        }
        Matches::of(query, change)
    }
}

// Whether the selector begins with an equality that neither side of a change meets.
fn matches_neither(query: &Query, sides: &mut Sides<'_>) -> bool
    ensures sides { sides.new ≡ sides.old }
    ensures neither { result ≡ true → MatchesNeither (asked query.now) sides.old }
{
    let Some((name, operand)) = first_equality(query) else {
        return false;
    };
    let both = sides.selected(name.as_str());
    !is_equal(both.before, operand) && !is_equal(both.after, operand)
}

// The equality that a selector begins with.
fn first_equality(query: &Query) -> Option<(&RxText, &Value)>
    ensures { IfSome result (λ e. IsNeeded (asked query.now) e.0.now e.1.now) }
{
    let Some(Clause::Field(name, tests)) = query.selector().clauses().first() else {
        return None;
    };
    let Some(Test::Compared(Compare::Eq, operand)) = tests.as_slice().first() else {
        return None;
    };
    Some((name, operand))
}

fn is_equal(field: Option<&Value>, operand: &Value) -> bool
    ensures { result ≡ compares Eq (option_map (λ v. v.now) field.entry) operand.now }
{
    match field {
        Some(value) => { is_same_kind(value, operand) && order(Some(value), Some(operand)).is_eq() }
        None => false,
    }
}
