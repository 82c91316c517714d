ghost use Rattle.std.specs.Prelude.{◌≡◌, option_map};
ghost use Rattle.rx_selector.specs.Operand.{operand_of, operand_among, tests_on};
ghost use Rattle.rx_selector.specs.Tree.{test_view, tests_view, clauses_view};

use crate::tree::{Clause, Compare, Test};
use rx_value::Value;

fn operand_of(which: Compare, test: &Test) -> Option<&Value>
    ensures { option_map (λ v. v.now) result ≡ operand_of which (test_view test.now) }
{
    match (which, test) {
        (Compare::Eq, Test::Compared(Compare::Eq, operand))
        | (Compare::Gt, Test::Compared(Compare::Gt, operand))
        | (Compare::Gte, Test::Compared(Compare::Gte, operand))
        | (Compare::Lt, Test::Compared(Compare::Lt, operand))
        | (Compare::Lte, Test::Compared(Compare::Lte, operand)) => Some(operand),
        _ => None,
    }
}

pub(crate) fn operand_among(which: Compare, tests: &[Test]) -> Option<&Value>
    ensures { option_map (λ v. v.now) result ≡ operand_among which (tests_view tests.now) }
{
    for test in tests {
        if let Some(operand) = operand_of(which, test) {
            return Some(operand);
        }
    }
    None
}

pub(crate) fn tests_on<'a>(name: &str, clauses: &'a [Clause]) -> Option<&'a [Test]>
    ensures { option_map (λ ts. tests_view ts.now) result
        ≡ tests_on name.now (clauses_view clauses.now) }
{
    for clause in clauses {
        if let Clause::Field(field, tests) = clause {
            if field.as_str() == name {
                return Some(tests.as_slice());
            }
        }
    }
    None
}
