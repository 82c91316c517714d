ghost use Rattle.std.specs.Prelude.{◌≡◌, map, option_map};
ghost use Rattle.rx_query.specs.QuerySpec.{asked};
ghost use Rattle.rx_selector.specs.Tree.{tests_view, clauses_view};
ghost use Rattle.rx_planner.specs.Exact.{is_value, has_kind, have_kind, fixes, bounds, is_told, are_told, all_told, is_exact};

use crate::path::{is_fixed, operand};
use rx_query::Query;
use rx_selector::{Clause, Compare, Test, is_same_kind};
use rx_value::{Value, order};

// Whether the due documents are exactly those whose keys stand between the bounds of the path.
pub(crate) fn is_exact(query: &Query, path: &[&str]) -> bool
    ensures { result ≡ is_exact (asked query.now) (map (λ f. f.now) path.now) }
{
    all_told(query, path, query.selector().clauses())
}

fn all_told(query: &Query, path: &[&str], clauses: &[Clause]) -> bool
    ensures { result
        ≡ all_told (asked query.now) (map (λ f. f.now) path.now) (clauses_view clauses.now) }
{
    for clause in clauses {
        let Clause::Field(name, tests) = clause else {
            return false;
        };
        if !are_told(query, path, name.as_str(), tests.as_slice()) {
            return false;
        }
    }
    true
}

fn are_told(query: &Query, path: &[&str], name: &str, tests: &[Test]) -> bool
    ensures { result
        ≡ are_told (asked query.now) (map (λ f. f.now) path.now) name.now (tests_view tests.now) }
{
    for test in tests {
        let Test::Compared(which, operand) = test else {
            return false;
        };
        if !is_told(query, path, name, *which, operand) {
            return false;
        }
    }
    true
}

fn is_told(query: &Query, path: &[&str], name: &str, which: Compare, operand: &Value) -> bool
    ensures { result
        ≡ is_told (asked query.now) (map (λ f. f.now) path.now) name.now which operand.now }
{
    for field in path {
        let is_named = *field == name;
        if !is_fixed(query, field) {
            return is_named
                && bounds(query, field, which, operand)
                && have_kind(query, field, operand);
        }
        if is_named {
            return fixes(query, field, which, operand);
        }
    }
    false
}

fn is_value(operand: Option<&Value>, value: &Value) -> bool
    ensures { result ≡ is_value (option_map (λ v. v.now) operand.entry) value.now }
{
    match operand {
        Some(operand) => order(Some(operand), Some(value)).is_eq(),
        None => false,
    }
}

fn has_kind(operand: Option<&Value>, value: &Value) -> bool
    ensures { result ≡ has_kind (option_map (λ v. v.now) operand.entry) value.now }
{
    match operand {
        Some(operand) => is_same_kind(operand, value),
        None => true,
    }
}

// Whether all bounds of the field are of that value's kind.
fn have_kind(query: &Query, field: &str, value: &Value) -> bool
    ensures { result ≡ have_kind (asked query.now) field.now value.now }
{
    has_kind(operand(query, field, Compare::Gt), value)
        && has_kind(operand(query, field, Compare::Gte), value)
        && has_kind(operand(query, field, Compare::Lt), value)
        && has_kind(operand(query, field, Compare::Lte), value)
}

// Whether a fixed field has that value.
fn fixes(query: &Query, field: &str, which: Compare, value: &Value) -> bool
    ensures { result ≡ fixes (asked query.now) field.now which value.now }
{
    match which {
        Compare::Eq => is_value(operand(query, field, Compare::Eq), value),
        _ => false,
    }
}

// Whether that is a bound of the field, which no bound of its side is taken before.
fn bounds(query: &Query, field: &str, which: Compare, value: &Value) -> bool
    ensures { result ≡ bounds (asked query.now) field.now which value.now }
{
    let is_first = match which {
        Compare::Eq => false,
        Compare::Gt | Compare::Lt => true,
        Compare::Gte => operand(query, field, Compare::Gt).is_none(),
        Compare::Lte => operand(query, field, Compare::Lt).is_none(),
    };
    is_first && is_value(operand(query, field, which), value)
}
