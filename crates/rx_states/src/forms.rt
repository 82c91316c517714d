ghost use Rattle.std.specs.Prelude.{◌≡◌, ◌-◌, not, length, slice_get, IfSome, option_map};
ghost use Rattle.std.specs.Option.{ForSome, option_copied};
ghost use Rattle.rx_query.specs.QuerySpec.{asked};
ghost use Rattle.rx_query.specs.Lists.{some_passes, first_passes};
ghost use Rattle.rx_query.specs.States.{live_before, precedes, ties};
ghost use Rattle.rx_states.specs.Edges.{AreEdges};
ghost use Rattle.rx_states.specs.Forms.{leading_in, IsForm, IsFormOf, fields_in};

use crate::answers::{differs, first, last, live_before};
use crate::edges::Edges;
use crate::sides::{Both, Sides};
use rx_document::Change;
use rx_query::{Query, Results, Row};
use rx_value::{Fields, Value, order};

/// Fields, with their value of the field that the sort begins with.
#[derive(Clone, Copy)]
pub(crate) struct Form<'a> {
    fields: &'a Fields,
    leading: Option<&'a Value>,
}

/// The document before a change and after it, and the first and the last row.
#[derive(Clone, Copy)]
pub(crate) struct Forms<'a> {
    pub before: Option<Form<'a>>,
    pub after: Option<Form<'a>>,
    pub first: Option<Form<'a>>,
    pub last: Option<Form<'a>>,
}

pub(crate) fn forms_of<'a, 'b: 'a>(
    query: &Query,
    change: &'a Change,
    results: &'a Results,
    edges: &'a Edges,
    sides: &mut Sides<'b>,
) -> Forms<'a>
    requires sides { sides.old ≡ change.now }
    requires edges { AreEdges (asked query.now).sorts results.now edges.now }
    ensures sides { sides.new ≡ sides.old }
    ensures before { IsFormOf (asked query.now).sorts (live_before change.now.before)
        result.before }
    ensures after { IsFormOf (asked query.now).sorts change.now.after result.after }
    ensures first { IsFormOf (asked query.now).sorts
        (option_map (λ r. r.fields) (slice_get results.now 0)) result.first }
    ensures last { IsFormOf (asked query.now).sorts
        (option_map (λ r. r.fields) (slice_get results.now (length results.now - 1)))
        result.last }
{
    let both = leading(query, sides);
    Forms {
        before: with_value(live_before(change), both.before),
        after: with_value(change.after.as_ref(), both.after),
        first: form_of_row(first(results), edges.first.as_ref()),
        last: form_of_row(last(results), edges.last.as_ref()),
    }
}

// What the field that the sort begins with holds before a change and after it.
fn leading<'a>(query: &Query, sides: &mut Sides<'a>) -> Both<'a>
    ensures sides { sides.new ≡ sides.old }
    ensures before { option_map (λ v. v.now) result.before
        ≡ leading_in (asked query.now).sorts (live_before sides.old.before) }
    ensures after { option_map (λ v. v.now) result.after
        ≡ leading_in (asked query.now).sorts sides.old.after }
{
    if query.sorts() == 0 {
        return Both {
            before: None,
            after: None,
        };
    }
    sides.sorted(query.sort(0).0.as_str())
}

fn with_value<'a>(fields: Option<&'a Fields>, leading: Option<&'a Value>) -> Option<Form<'a>>
    ensures fields { fields_in result ≡ option_copied fields.entry }
    ensures leading { IfSome result (λ form. form.leading ≡ leading.entry) }
{
    match fields {
        Some(fields) => Some(Form { fields, leading }),
        None => None,
    }
}

fn form_of_row<'a>(row: Option<&'a Row>, leading: Option<&'a Value>) -> Option<Form<'a>>
    ensures fields { fields_in result
        ≡ option_map (λ r. r.fields) (option_copied row.entry) }
    ensures leading { IfSome result (λ form. form.leading ≡ leading.entry) }
{
    match row {
        Some(row) => Some(Form {
            fields: &row.fields,
            leading,
        }),
        None => None,
    }
}

// Whether the order of the field that the sort begins with is reversed.
fn falls(query: &Query) -> bool
    ensures { result ≡ first_passes (λ s. s.1) (asked query.now).sorts }
{
    query.sorts() > 0 && query.sort(0).1
}

// Whether both are there, and one precedes the other.
pub(crate) fn is_before(query: &Query, x: Option<Form<'_>>, y: Option<Form<'_>>) -> bool
    requires x { ForSome x (IsForm (asked query.now).sorts) }
    requires y { ForSome y (IsForm (asked query.now).sorts) }
    ensures { result ≡ some_passes
        (λ x. some_passes (precedes (asked query.now) x) (fields_in y.entry))
        (fields_in x.entry) }
{
    match (x, y) {
        (Some(x), Some(y)) => precedes(query, x, y),
        _ => false,
    }
}

fn precedes(query: &Query, x: Form<'_>, y: Form<'_>) -> bool
    requires x { IsForm (asked query.now).sorts x }
    requires y { IsForm (asked query.now).sorts y }
    ensures { result ≡ precedes (asked query.now) x.entry.fields.now y.entry.fields.now }
{
    let by_leading = order(x.leading, y.leading);
    if by_leading.is_eq() {
        return query.before(x.fields, y.fields).is_lt();
    }
    if falls(query) {
        by_leading.is_gt()
    } else {
        by_leading.is_lt()
    }
}

pub(crate) fn is_moved(query: &Query, before: Option<Form<'_>>, after: Option<Form<'_>>) -> bool
    requires before { ForSome before (IsForm (asked query.now).sorts) }
    requires after { ForSome after (IsForm (asked query.now).sorts) }
    ensures { result ≡ some_passes
        (λ x. not (some_passes (ties (asked query.now) x) (fields_in before.entry)))
        (fields_in after.entry) }
{
    match (after, before) {
        (None, _) => false,
        (Some(_), None) => true,
        (Some(after), Some(before)) => are_apart(query, after, before),
    }
}

// Whether a field of the sort tells them apart.
fn are_apart(query: &Query, x: Form<'_>, y: Form<'_>) -> bool
    requires x { IsForm (asked query.now).sorts x }
    requires y { IsForm (asked query.now).sorts y }
    ensures { result ≡ not (ties (asked query.now) x.entry.fields.now y.entry.fields.now) }
{
    if order(x.leading, y.leading).is_ne() {
        return true;
    }
    differs(query, x.fields, y.fields)
}
