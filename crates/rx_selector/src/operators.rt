ghost use Rattle.std.specs.Prelude.{◌≡◌, ◌≤◌, ◌+◌, map};
ghost use Rattle.serde_json.specs.View.{view, members_view};
ghost use Rattle.rx_value.specs.Due.{DueBy};
ghost use Rattle.rx_selector.specs.Operators.{deepest, is_empty, comparison, test_by, members_tests, tests_read};
ghost use Rattle.rx_selector.specs.Tree.{test_view};
ghost use Rattle.rx_selector.specs.declared.fault.SelectorFault.TheVariants.{Memory};

use crate::fault::SelectorFault;
use crate::tree::{Compare, Test};
use crate::values::{read_exists, read_remainder, read_value, read_values};
use rx_value::RxText;
use serde_json::{Map, Value as Json};
use std::alloc::Global;

/// The greatest depth: that of the outermost selector is 1, and each selector in a list and each
/// operand of `$not` is one deeper.
pub(crate) const DEEPEST: u32 = 32;

fn comparison(name: &str) -> Option<Compare>
    ensures { result ≡ comparison name.now }
{
    if name == "$eq" {
        Some(Compare::Eq)
    } else if name == "$gt" {
        Some(Compare::Gt)
    } else if name == "$gte" {
        Some(Compare::Gte)
    } else if name == "$lt" {
        Some(Compare::Lt)
    } else if name == "$lte" {
        Some(Compare::Lte)
    } else {
        None
    }
}

#[cycle(tests)]
fn read_test(alloc: Global, name: &str, json: &Json, depth: u32) -> Result<Test, SelectorFault>
    requires { depth ≤ deepest }
    ensures { DueBy Memory test_view result
        (test_by (comparison name.now) name.now (view json.now)
        (tests_read (depth + 1) name.now (view json.now))) }
{
    if let Some(which) = comparison(name) {
        Ok(Test::Compared(which, read_value(alloc, name, json)?))
    } else if name == "$ne" {
        Ok(Test::Differs(read_value(alloc, name, json)?))
    } else if name == "$in" {
        Ok(Test::OneOf(read_values(alloc, name, json)?))
    } else if name == "$nin" {
        Ok(Test::NoneOf(read_values(alloc, name, json)?))
    } else if name == "$exists" {
        Ok(read_exists(alloc, name, json)?)
    } else if name == "$mod" {
        Ok(read_remainder(alloc, name, json)?)
    } else if name == "$not" {
        Ok(Test::Not(read_tests(alloc, name, json, depth + 1)?))
    } else {
        Err(SelectorFault::Operator(RxText::new(alloc, name)?))
    }
}

#[cycle(tests)]
fn read_members(
    alloc: Global,
    members: &Map<String, Json>,
    depth: u32,
) -> Result<Vec<Test>, SelectorFault>
    requires { depth ≤ deepest }
    ensures { DueBy Memory (λ ts. map test_view ts.items) result
        (members_tests depth (members_view members.now.entries)) }
{
    let mut tests = Vec::with_capacity(alloc, members.len())?;
    for (name, member) in members.iter() {
        let test = read_test(alloc, name.as_str(), member, depth)?;
        tests.push(test)?;
    }
    Ok(tests)
}

// An object of operators that is not empty.
#[cycle(tests)]
pub(crate) fn read_tests(
    alloc: Global,
    name: &str,
    json: &Json,
    depth: u32,
) -> Result<Vec<Test>, SelectorFault>
    ensures { DueBy Memory (λ ts. map test_view ts.items) result
        (tests_read depth name.now (view json.now)) }
{
    match json {
        Json::Object(members) => {
            if is_empty(members) {
                return Err(SelectorFault::Operand(RxText::new(alloc, name)?));
            }
            if depth > DEEPEST {
                return Err(SelectorFault::Depth);
            }
            Ok(read_members(alloc, members, depth)?)
        }
        _ => Err(SelectorFault::Operand(RxText::new(alloc, name)?)),
    }
}

fn is_empty(members: &Map<String, Json>) -> bool
    ensures { result ≡ is_empty (members_view members.now.entries) }
{
    members.is_empty()
}
