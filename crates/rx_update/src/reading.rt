// Reads an update, member by member. In an object they come by rising name.
ghost use Rattle.std.specs.Prelude.{◌≡◌, ◌<◌, ◌++◌, nat_lt, true, is_some, option_map, IfOk, IfSome, OnOk};
ghost use Rattle.serde_json.specs.View.{view, members_view};
ghost use Rattle.rx_value.specs.Due.{DueBy};
ghost use Rattle.rx_update.specs.Reading.{all_operations, first_of, first_under, is_named, is_under};
ghost use Rattle.rx_update.specs.Reading.{misfit_among, misfit_under, number_at, one_if};
ghost use Rattle.rx_update.specs.Reading.{operands_of, operation_of, operations_among};
ghost use Rattle.rx_update.specs.Reading.{operations_in, operations_under, repeated_among};
ghost use Rattle.rx_update.specs.Reading.{repeated_under, times_named, update_of, value_at};
ghost use Rattle.rx_update.specs.Operands.{seen};
ghost use Rattle.rx_value.specs.Value.{is_value};
ghost use Rattle.rx_update.specs.Updated.{has_value, AreOperations};
ghost use Rattle.rx_update.specs.declared.fault.UpdateFault.TheVariants.{Memory};

use crate::fault::UpdateFault;
use crate::operands::{Operands, Operator};
use crate::operation::Operation;
use rx_value::{RxText, Value, first_unexpected, is_number};
use serde_json::{Map, Value as Json};
use std::alloc::{AllocError, Global};

/// The operations of an update's object.
pub(crate) fn read_operations(
    alloc: Global,
    json: &Json,
    primary: &str,
) -> Result<Vec<(RxText, Operation)>, UpdateFault>
    ensures exact { DueBy Memory (λ v. v.items) result (update_of primary.now (view json.now)) }
    ensures lawful { IfOk result (λ v. AreOperations v.items) }
{
    let operators = ["$inc", "$max", "$min", "$set", "$unset"];
    match first_unexpected(json, &operators, &[]) {
        Some(name) => Err(UpdateFault::Operator(RxText::new(alloc, name)?)),
        None => read_operands(alloc, &Operands::of(json), primary),
    }
}

fn read_operands(
    alloc: Global,
    operands: &Operands,
    primary: &str,
) -> Result<Vec<(RxText, Operation)>, UpdateFault>
    ensures exact { DueBy Memory (λ v. v.items) result
        (operations_in primary.now (seen operands.now)) }
    ensures lawful { IfOk result (λ v. AreOperations v.items) }
{
    if let Some(name) = first_misfit(operands) {
        return Err(UpdateFault::Operand(RxText::new(alloc, name)?));
    }
    if let Some(name) = first_repeated(operands) {
        return Err(UpdateFault::Twice(RxText::new(alloc, name)?));
    }
    if is_named(operands, primary) {
        return Err(UpdateFault::Key(RxText::new(alloc, primary)?));
    }
    Ok(read_all(alloc, operands)?)
}

// The first by bytes of the operators and fields that don't fit.
fn first_misfit<'a>(operands: &Operands<'a>) -> Option<&'a str>
    ensures { option_map (λ s. s.now) result ≡ first_under (misfit_under (seen operands.now)) }
{
    let set = misfit_under(operands, Operator::Set);
    let from_set = first_of(set, misfit_under(operands, Operator::Unset));
    let from_min = first_of(misfit_under(operands, Operator::Min), from_set);
    let from_max = first_of(misfit_under(operands, Operator::Max), from_min);
    first_of(misfit_under(operands, Operator::Inc), from_max)
}

fn misfit_under<'a>(operands: &Operands<'a>, operator: Operator) -> Option<&'a str>
    ensures { option_map (λ s. s.now) result ≡ misfit_under (seen operands.now) operator }
{
    let fields = operands.under(operator)?;
    match fields.as_object() {
        Some(fields) => misfit_among(operator, fields),
        None => Some(operator.name()),
    }
}

fn misfit_among<'a>(operator: Operator, fields: &'a Map<String, Json>) -> Option<&'a str>
    ensures { option_map (λ s. s.now) result
        ≡ misfit_among operator (members_view fields.now.entries) }
{
    for (name, operand) in fields.iter() {
        if !takes(operator, operand) {
            return Some(name.as_str());
        }
    }
    None
}

fn takes(operator: Operator, operand: &Json) -> bool
    ensures { result ≡ is_some (operation_of operator (view operand.now)) }
{
    match operator {
        Operator::Inc => number_at(operand).is_some(),
        Operator::Unset => true,
        _ => is_value(operand),
    }
}

fn number_at(json: &Json) -> Option<i64>
    ensures { result ≡ number_at (view json.now) }
{
    let number = json.as_number()?.as_i128()?;
    if is_number(number) {
        Some(number as i64)
    } else {
        None
    }
}

fn is_value(json: &Json) -> bool
    ensures { result ≡ is_some (value_at (view json.now)) }
{
    match json {
        Json::Bool(_) | Json::String(_) => true,
        _ => number_at(json).is_some(),
    }
}

// The first by bytes of the fields that stand under two operators.
fn first_repeated<'a>(operands: &Operands<'a>) -> Option<&'a str>
    ensures { option_map (λ s. s.now) result ≡ first_under (repeated_under (seen operands.now)) }
{
    let set = repeated_under(operands, Operator::Set);
    let from_set = first_of(set, repeated_under(operands, Operator::Unset));
    let from_min = first_of(repeated_under(operands, Operator::Min), from_set);
    let from_max = first_of(repeated_under(operands, Operator::Max), from_min);
    first_of(repeated_under(operands, Operator::Inc), from_max)
}

fn repeated_under<'a>(operands: &Operands<'a>, operator: Operator) -> Option<&'a str>
    ensures { option_map (λ s. s.now) result ≡ repeated_under (seen operands.now) operator }
{
    let fields = operands.under(operator)?.as_object()?;
    repeated_among(operands, fields)
}

fn repeated_among<'a>(operands: &Operands, fields: &'a Map<String, Json>) -> Option<&'a str>
    ensures { option_map (λ s. s.now) result
        ≡ repeated_among (seen operands.now) (members_view fields.now.entries) }
{
    for (name, _operand) in fields.iter() {
        if is_repeated(operands, name.as_str()) {
            return Some(name.as_str());
        }
    }
    None
}

// Whether a field stands under two operators.
fn is_repeated(operands: &Operands, name: &str) -> bool
    ensures { result ≡ nat_lt 1 (times_named (seen operands.now) name.now) }
{
    times_named(operands, name) > 1
}

// Whether a field stands under an operator.
fn is_named(operands: &Operands, name: &str) -> bool
    ensures { result ≡ is_named (seen operands.now) name.now }
{
    times_named(operands, name) > 0
}

// Under how many operators a field stands.
fn times_named(operands: &Operands, name: &str) -> u8
    ensures { result ≡ times_named (seen operands.now) name.now }
{
    one_if(is_under(operands, name, Operator::Inc))
        + one_if(is_under(operands, name, Operator::Max))
        + one_if(is_under(operands, name, Operator::Min))
        + one_if(is_under(operands, name, Operator::Set))
        + one_if(is_under(operands, name, Operator::Unset))
}

fn one_if(is_so: bool) -> u8
    ensures value { result ≡ one_if is_so }
    ensures bound { result < 2 }
{
    if is_so { 1 } else { 0 }
}

fn is_under(operands: &Operands, name: &str, operator: Operator) -> bool
    ensures { result ≡ is_under (seen operands.now) name.now operator }
{
    match operands.under(operator) {
        Some(fields) => fields.get(name).is_some(),
        None => false,
    }
}

// The first of two by bytes, of those that there are.
fn first_of<'a>(a: Option<&'a str>, b: Option<&'a str>) -> Option<&'a str>
    ensures { option_map (λ s. s.now) result
        ≡ first_of (option_map (λ s. s.now) a.entry) (option_map (λ s. s.now) b.entry) }
{
    match (a, b) {
        (None, b) => b,
        (a, None) => a,
        (Some(a), Some(b)) => { if a <= b { Some(a) } else { Some(b) } }
    }
}

fn read_all(alloc: Global, operands: &Operands) -> Result<Vec<(RxText, Operation)>, AllocError>
    ensures exact { IfOk result (λ v. v.items ≡ all_operations (seen operands.now)) }
    ensures lawful { IfOk result (λ v. AreOperations v.items) }
{
    let mut operations = Vec::new(alloc);
    read_under(alloc, operands, Operator::Inc, &mut operations)?;
    read_under(alloc, operands, Operator::Max, &mut operations)?;
    read_under(alloc, operands, Operator::Min, &mut operations)?;
    read_under(alloc, operands, Operator::Set, &mut operations)?;
    read_under(alloc, operands, Operator::Unset, &mut operations)?;
    Ok(operations)
}

// Adds what an operator does to those so far.
fn read_under(
    alloc: Global,
    operands: &Operands,
    operator: Operator,
    operations: &mut Vec<(RxText, Operation)>,
) -> Result<(), AllocError>
    requires { AreOperations operations.old.items }
    ensures added { OnOk result (operations.new.items
        ≡ operations.old.items ++ operations_under (seen operands.now) operator) }
    ensures lawful { OnOk result (AreOperations operations.new.items) }
{
    let Some(fields) = operands.under(operator) else {
        return Ok(());
    };
    match fields.as_object() {
        Some(fields) => read_among(alloc, operator, fields, operations),
        None => Ok(()),
    }
}

fn read_among(
    alloc: Global,
    operator: Operator,
    fields: &Map<String, Json>,
    operations: &mut Vec<(RxText, Operation)>,
) -> Result<(), AllocError>
    requires { AreOperations operations.old.items }
    ensures added { OnOk result (operations.new.items ≡ operations.old.items
        ++ operations_among operator (members_view fields.now.entries)) }
    ensures lawful { OnOk result (AreOperations operations.new.items) }
{
    for (name, operand) in fields.iter() {
        if let Some(operation) = read_operation(alloc, operator, operand)? {
            operations.push((RxText::new(alloc, name.as_str())?, operation))?;
        }
    }
    Ok(())
}

fn read_operation(
    alloc: Global,
    operator: Operator,
    operand: &Json,
) -> Result<Option<Operation>, AllocError>
    ensures exact { IfOk result (λ o. o ≡ operation_of operator (view operand.now)) }
    ensures lawful { IfOk result (λ o. IfSome o (λ a. has_value a ≡ true)) }
{
    match operator {
        Operator::Inc => Ok(number_at(operand).map(Operation::Add)),
        Operator::Max => Ok(read_value(alloc, operand)?.map(Operation::Raise)),
        Operator::Min => Ok(read_value(alloc, operand)?.map(Operation::Lower)),
        Operator::Set => Ok(read_value(alloc, operand)?.map(Operation::Set)),
        Operator::Unset => Ok(Some(Operation::Unset)),
    }
}

fn read_value(alloc: Global, json: &Json) -> Result<Option<Value>, AllocError>
    ensures exact { IfOk result (λ v. v ≡ value_at (view json.now)) }
    ensures lawful { IfOk result (λ v. IfSome v (λ a. is_value a ≡ true)) }
{
    match json {
        Json::Bool(b) => Ok(Some(Value::Flag(*b))),
        Json::String(text) => Ok(Some(Value::Text(RxText::new(alloc, text.as_str())?))),
        _ => Ok(number_at(json).map(Value::Int)),
    }
}
