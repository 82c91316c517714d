ghost use Rattle.std.specs.Prelude.{◌≡◌, ◌≤◌, ◌+◌, map};
ghost use Rattle.serde_json.specs.View.{view, members_view, items_view};
ghost use Rattle.rx_value.specs.Due.{DueBy};
ghost use Rattle.rx_selector.specs.Operators.{deepest};
ghost use Rattle.rx_selector.specs.Reading.{has_dollar, field_tests, clause_of, selector_read, members_clauses, list_read, items_clauses};
ghost use Rattle.rx_selector.specs.Tree.{clause_view, tests_view};
ghost use Rattle.rx_selector.specs.declared.fault.SelectorFault.TheVariants.{Memory};

use crate::fault::SelectorFault;
use crate::operators::{DEEPEST, read_tests};
use crate::tree::{Clause, Compare, Test};
use crate::values::read_value;
use rx_value::{Kinds, RxText};
use serde_json::{Map, Value as Json};
use std::alloc::Global;

fn has_dollar(name: &str) -> bool
    ensures { result ≡ has_dollar name.now }
{
    match name.as_bytes() {
        [first, ..] => *first == b'$',
        [] => false,
    }
}

// What stands at a property.
fn read_field(
    alloc: Global,
    name: &str,
    json: &Json,
    depth: u32,
) -> Result<Vec<Test>, SelectorFault>
    ensures { DueBy Memory (λ ts. tests_view ts.items) result
        (field_tests depth name.now (view json.now)) }
{
    match json {
        Json::Object(_) => Ok(read_tests(alloc, name, json, depth)?),
        _ => {
            let operand = read_value(alloc, name, json)?;
            Ok(vec![in alloc; Test::Compared(Compare::Eq, operand)]?)
        }
    }
}

#[cycle(selectors)]
fn read_clause(
    alloc: Global,
    name: &str,
    json: &Json,
    kinds: &Kinds,
    depth: u32,
) -> Result<Clause, SelectorFault>
    requires { depth ≤ deepest }
    ensures { DueBy Memory clause_view result
        (clause_of kinds.now depth name.now (view json.now)
        (list_read kinds.now (depth + 1) name.now (view json.now))) }
{
    if name == "$and" {
        Ok(Clause::All(read_list(alloc, name, json, kinds, depth + 1)?))
    } else if name == "$or" {
        Ok(Clause::Any(read_list(alloc, name, json, kinds, depth + 1)?))
    } else if name == "$nor" {
        Ok(Clause::Nor(read_list(alloc, name, json, kinds, depth + 1)?))
    } else if has_dollar(name) {
        Err(SelectorFault::Operator(RxText::new(alloc, name)?))
    } else if kinds.kind(name).is_none() {
        Err(SelectorFault::Field(RxText::new(alloc, name)?))
    } else {
        let tests = read_field(alloc, name, json, depth)?;
        Ok(Clause::Field(RxText::new(alloc, name)?, tests))
    }
}

// A selector at that depth.
#[cycle(selectors)]
pub(crate) fn read_selector(
    alloc: Global,
    json: &Json,
    kinds: &Kinds,
    depth: u32,
) -> Result<Vec<Clause>, SelectorFault>
    ensures { DueBy Memory (λ cs. map clause_view cs.items) result
        (selector_read kinds.now depth (view json.now)) }
{
    match json {
        Json::Object(members) => {
            if depth > DEEPEST {
                return Err(SelectorFault::Depth);
            }
            Ok(read_members(alloc, members, kinds, depth)?)
        }
        _ => Err(SelectorFault::NotObject),
    }
}

#[cycle(selectors)]
fn read_members(
    alloc: Global,
    members: &Map<String, Json>,
    kinds: &Kinds,
    depth: u32,
) -> Result<Vec<Clause>, SelectorFault>
    requires { depth ≤ deepest }
    ensures { DueBy Memory (λ cs. map clause_view cs.items) result
        (members_clauses kinds.now depth (members_view members.now.entries)) }
{
    let mut clauses = Vec::with_capacity(alloc, members.len())?;
    for (name, member) in members.iter() {
        let clause = read_clause(alloc, name.as_str(), member, kinds, depth)?;
        clauses.push(clause)?;
    }
    Ok(clauses)
}

// A list of selectors at that depth that is not empty.
#[cycle(selectors)]
fn read_list(
    alloc: Global,
    name: &str,
    json: &Json,
    kinds: &Kinds,
    depth: u32,
) -> Result<Vec<Clause>, SelectorFault>
    ensures { DueBy Memory (λ cs. map clause_view cs.items) result
        (list_read kinds.now depth name.now (view json.now)) }
{
    match json {
        Json::Array(items) => {
            if items.is_empty() {
                return Err(SelectorFault::Operand(RxText::new(alloc, name)?));
            }
            Ok(read_items(alloc, items, kinds, depth)?)
        }
        _ => Err(SelectorFault::Operand(RxText::new(alloc, name)?)),
    }
}

#[cycle(selectors)]
fn read_items(
    alloc: Global,
    items: &Vec<Json>,
    kinds: &Kinds,
    depth: u32,
) -> Result<Vec<Clause>, SelectorFault>
    ensures { DueBy Memory (λ cs. map clause_view cs.items) result
        (items_clauses kinds.now depth (items_view items.now.items)) }
{
    let mut clauses = Vec::with_capacity(alloc, items.len())?;
    for item in items {
        let members = read_selector(alloc, item, kinds, depth)?;
        clauses.push(Clause::All(members))?;
    }
    Ok(clauses)
}
