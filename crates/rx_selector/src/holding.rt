ghost use Rattle.std.specs.Prelude.{◌≡◌, option_map};
ghost use Rattle.rx_selector.specs.Tree.{test_view, tests_view, clause_view, clauses_view};
ghost use Rattle.rx_selector.specs.Holding.{same_kind, stands, compares, equals_one, leaves, test_holds, tests_hold, clause_holds, all_hold, one_holds};

use crate::tree::{Clause, Compare, Test};
use rx_value::{Fields, Value, order};
use std::cmp::Ordering;

/// Whether both are flags, numbers or texts.
pub fn is_same_kind(a: &Value, b: &Value) -> bool
    ensures { result ≡ same_kind a.now b.now }
{
    matches!(
        (a, b),
        (Value::Flag(_), Value::Flag(_))
            | (Value::Int(_), Value::Int(_))
            | (Value::Text(_), Value::Text(_))
    )
}

fn stands(which: Compare, order: Ordering) -> bool
    ensures { result ≡ stands which order }
{
    match which {
        Compare::Eq => order.is_eq(),
        Compare::Gt => order.is_gt(),
        Compare::Gte => order.is_ge(),
        Compare::Lt => order.is_lt(),
        Compare::Lte => order.is_le(),
    }
}

fn compares(which: Compare, field: Option<&Value>, operand: &Value) -> bool
    ensures { result ≡ compares which (option_map (λ v. v.now) field.entry) operand.now }
{
    match field {
        None => false,
        Some(value) => is_same_kind(value, operand)
            && stands(which, order(Some(value), Some(operand))),
    }
}

fn equals_one(field: Option<&Value>, operands: &[Value]) -> bool
    ensures { result ≡ equals_one (option_map (λ v. v.now) field.entry) operands.now }
{
    operands
        .iter()
        .any(|operand| compares(Compare::Eq, field, operand))
}

fn leaves(by: i64, left: i64, field: Option<&Value>) -> bool
    ensures { result ≡ leaves by left (option_map (λ v. v.now) field.entry) }
{
    match field {
        Some(Value::Int(n)) => by != 0 && n.wrapping_rem(by) == left,
        _ => false,
    }
}

#[cycle(tests)]
fn test_holds(test: &Test, field: Option<&Value>) -> bool
    ensures { result ≡ test_holds (test_view test.now) (option_map (λ v. v.now) field.entry) }
{
    match test {
        Test::Compared(which, operand) => compares(*which, field, operand),
        Test::Differs(operand) => !compares(Compare::Eq, field, operand),
        Test::OneOf(operands) => equals_one(field, operands.as_slice()),
        Test::NoneOf(operands) => !equals_one(field, operands.as_slice()),
        Test::Exists(wanted) => field.is_some() == *wanted,
        Test::Remainder(by, left) => leaves(*by, *left, field),
        Test::Not(tests) => !tests_hold(tests, field),
    }
}

#[cycle(tests)]
fn tests_hold(tests: &Vec<Test>, field: Option<&Value>) -> bool
    ensures { result
        ≡ tests_hold (tests_view tests.now.items) (option_map (λ v. v.now) field.entry) }
{
    for test in tests {
        if !test_holds(test, field) {
            return false;
        }
    }
    true
}

#[cycle(clauses)]
fn clause_holds(clause: &Clause, fields: &Fields) -> bool
    ensures { result ≡ clause_holds (clause_view clause.now) fields.now }
{
    match clause {
        Clause::All(clauses) => all_hold(clauses, fields),
        Clause::Any(clauses) => one_holds(clauses, fields),
        Clause::Nor(clauses) => !one_holds(clauses, fields),
        Clause::Field(name, tests) => tests_hold(tests, fields.get(name.as_str())),
    }
}

#[cycle(clauses)]
pub(crate) fn all_hold(clauses: &Vec<Clause>, fields: &Fields) -> bool
    ensures { result ≡ all_hold (clauses_view clauses.now.items) fields.now }
{
    for clause in clauses {
        if !clause_holds(clause, fields) {
            return false;
        }
    }
    true
}

#[cycle(clauses)]
fn one_holds(clauses: &Vec<Clause>, fields: &Fields) -> bool
    ensures { result ≡ one_holds (clauses_view clauses.now.items) fields.now }
{
    for clause in clauses {
        if clause_holds(clause, fields) {
            return true;
        }
    }
    false
}
