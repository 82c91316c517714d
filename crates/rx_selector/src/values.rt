ghost use Rattle.std.specs.Prelude.{◌≡◌};
ghost use Rattle.serde_json.specs.View.{view, items_view};
ghost use Rattle.rx_value.specs.Due.{Due, DueBy};
ghost use Rattle.rx_selector.specs.Tree.{test_view};
ghost use Rattle.rx_selector.specs.Values.{whole, value_of, items_values, values_of, exists_of, division, remainder_of};
ghost use Rattle.rx_selector.specs.declared.fault.SelectorFault.TheVariants.{Memory};

use crate::fault::SelectorFault;
use crate::tree::Test;
use rx_value::{RxText, Value, is_number};
use serde_json::Value as Json;
use std::alloc::Global;

fn whole(json: &Json) -> Option<i64>
    ensures { result ≡ whole (view json.now) }
{
    let n = json.as_number()?.as_i128()?;
    if is_number(n) { Some(n as i64) } else { None }
}

pub(crate) fn read_value(alloc: Global, name: &str, json: &Json) -> Result<Value, SelectorFault>
    ensures { Due Memory result (value_of name.now (view json.now)) }
{
    match json {
        Json::Bool(b) => Ok(Value::Flag(*b)),
        Json::String(text) => Ok(Value::Text(RxText::new(alloc, text.as_str())?)),
        _ => match whole(json) {
            Some(n) => Ok(Value::Int(n)),
            None => Err(SelectorFault::Operand(RxText::new(alloc, name)?)),
        },
    }
}

fn read_items(alloc: Global, name: &str, items: &[Json]) -> Result<Vec<Value>, SelectorFault>
    ensures { DueBy Memory (λ v. v.items) result (items_values name.now (items_view items.now)) }
{
    let mut values = Vec::with_capacity(alloc, items.len())?;
    for item in items {
        values.push(read_value(alloc, name, item)?)?;
    }
    Ok(values)
}

pub(crate) fn read_values(
    alloc: Global,
    name: &str,
    json: &Json,
) -> Result<Vec<Value>, SelectorFault>
    ensures { DueBy Memory (λ v. v.items) result (values_of name.now (view json.now)) }
{
    match json.as_array() {
        Some(items) => Ok(read_items(alloc, name, items.as_slice())?),
        None => Err(SelectorFault::Operand(RxText::new(alloc, name)?)),
    }
}

pub(crate) fn read_exists(alloc: Global, name: &str, json: &Json) -> Result<Test, SelectorFault>
    ensures { DueBy Memory test_view result (exists_of name.now (view json.now)) }
{
    match json.as_bool() {
        Some(wanted) => Ok(Test::Exists(wanted)),
        None => Err(SelectorFault::Operand(RxText::new(alloc, name)?)),
    }
}

// A divisor, which is not 0, and a remainder.
fn division(json: &Json) -> Option<(i64, i64)>
    ensures { result ≡ division (view json.now) }
{
    let (first, rest) = json.as_array()?.as_slice().split_first()?;
    let (second, rest) = rest.split_first()?;
    match (rest.split_first(), whole(first), whole(second)) {
        (None, Some(by), Some(left)) if by != 0 => Some((by, left)),
        _ => None,
    }
}

pub(crate) fn read_remainder(alloc: Global, name: &str, json: &Json) -> Result<Test, SelectorFault>
    ensures { DueBy Memory test_view result (remainder_of name.now (view json.now)) }
{
    match division(json) {
        Some((by, left)) => Ok(Test::Remainder(by, left)),
        None => Err(SelectorFault::Operand(RxText::new(alloc, name)?)),
    }
}
