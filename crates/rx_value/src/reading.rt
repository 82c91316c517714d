ghost use Rattle.std.specs.Prelude.{◌≡◌, IfOk};
ghost use Rattle.serde_json.specs.View.{view, members_view};
ghost use Rattle.rx_value.specs.Due.{Due, DueBy};
ghost use Rattle.rx_value.specs.Fields.{AreFields};
ghost use Rattle.rx_value.specs.Reading.{fields_of, fields_beside, members_fields, without, value_of, integer_of};
ghost use Rattle.rx_value.specs.declared.fault.ValueFault.TheVariants.{Memory};

use crate::comparing::is_same;
use crate::fault::ValueFault;
use crate::fields::Fields;
use crate::rx_text::RxText;
use crate::value::{Value, is_number};
use serde_json::{Map, Value as Json};
use std::alloc::Global;

/// The fields of a JSON object. The first member at fault, by rising name, decides.
pub fn read_fields(alloc: Global, json: &Json) -> Result<Fields, ValueFault>
    ensures { Due Memory result (fields_of (view json.now)) }
{
    match json.as_object() {
        None => Err(ValueFault::NotObject),
        Some(members) => Ok(Fields {
            pairs: read_members(alloc, members)?,
        }),
    }
}

fn read_members(
    alloc: Global,
    members: &Map<String, Json>,
) -> Result<Vec<(RxText, Value)>, ValueFault>
    ensures exact { DueBy Memory (λ v. v.items) result
        (members_fields (members_view members.now.entries)) }
    ensures fields { IfOk result (λ v. AreFields v.items) }
{
    let mut pairs = Vec::with_capacity(alloc, members.len())?;
    for (name, member) in members.iter() {
        let value = read_value(alloc, name.as_str(), member)?;
        pairs.push((RxText::new(alloc, name.as_str())?, value))?;
    }
    Ok(pairs)
}

/// The fields of a JSON object, but for the member of that name.
pub fn read_fields_beside(alloc: Global, json: &Json, beside: &str) -> Result<Fields, ValueFault>
    ensures { Due Memory result (fields_beside beside.now (view json.now)) }
{
    match json.as_object() {
        None => Err(ValueFault::NotObject),
        Some(members) => Ok(Fields {
            pairs: read_members_beside(alloc, members, beside)?,
        }),
    }
}

fn read_members_beside(
    alloc: Global,
    members: &Map<String, Json>,
    beside: &str,
) -> Result<Vec<(RxText, Value)>, ValueFault>
    ensures exact { DueBy Memory (λ v. v.items) result
        (members_fields (without beside.now (members_view members.now.entries))) }
    ensures fields { IfOk result (λ v. AreFields v.items) }
{
    let mut pairs = Vec::with_capacity(alloc, members.len())?;
    for (name, member) in members.iter() {
        if is_same(name.as_str(), beside) {
            continue;
        }
        let value = read_value(alloc, name.as_str(), member)?;
        pairs.push((RxText::new(alloc, name.as_str())?, value))?;
    }
    Ok(pairs)
}

// The value of the member of that name.
fn read_value(alloc: Global, name: &str, json: &Json) -> Result<Value, ValueFault>
    ensures { Due Memory result (value_of name.now (view json.now)) }
{
    match json {
        Json::Bool(b) => Ok(Value::Flag(*b)),
        Json::Number(n) => read_integer(alloc, name, n.as_i128()),
        Json::String(text) => Ok(Value::Text(RxText::new(alloc, text.as_str())?)),
        _ => Err(ValueFault::Kind(RxText::new(alloc, name)?)),
    }
}

fn read_integer(alloc: Global, name: &str, number: Option<i128>) -> Result<Value, ValueFault>
    ensures { Due Memory result (integer_of name.now number) }
{
    let Some(n) = number else {
        return Err(ValueFault::Kind(RxText::new(alloc, name)?));
    };
    if !is_number(n) {
        return Err(ValueFault::Range(RxText::new(alloc, name)?));
    }
    Ok(Value::Int(n as i64))
}
