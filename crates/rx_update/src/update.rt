ghost use Rattle.std.specs.Prelude.{◌≡◌, true, option_map, IfOk, IfSome};
ghost use Rattle.rx_value.specs.Due.{Due};
ghost use Rattle.rx_value.specs.Value.{is_value};
ghost use Rattle.rx_update.specs.Updated.{first_where, has_value, is_misadded, made, made_of};
ghost use Rattle.rx_update.specs.Updated.{number_in, sum_of, sums_past, AreOperations};
ghost use Rattle.rx_update.specs.Updated.{KeepsOtherFields, LeavesThePrimaryKey, MakesEachField};
ghost use Rattle.rx_update.specs.Updated.{UpdatesToFields};
ghost use Rattle.rx_update.specs.declared.fault.UpdateFault.TheVariants.{Memory};

use crate::fault::UpdateFault;
use crate::operation::Operation;
use crate::reading::read_operations;
use rx_value::{Fields, RxText, Value, is_number, order};
use serde_json::Value as Json;
use std::alloc::{AllocError, Global};
use std::marker::Model;

/// Operations on the fields of a document, each on another field.
#[derive(Debug, Drop)]
pub struct Update {
    operations: Vec<(RxText, Operation)>,
}

impl Model for Update {
    ghost use Rattle.rx_update.specs.Reading.{Operations};
    ghost use Rattle.rx_update.specs.Updated.{AreOperations};

    ghost Value = { Operations };

    ghost view = { λ u. u.operations.items };

    ghost invariant = { λ u. AreOperations u.operations.items };
}

impl Update {
    ghost use Rattle.serde_json.specs.View.{view};
    ghost use Rattle.rx_update.specs.Reading.{update_of};
    ghost use Rattle.rx_update.specs.Updated.{updated};

    /// The update of a JSON object whose members are `$inc`, `$max`, `$min`, `$set` and `$unset`,
    /// each with an object of fields, and no field under two of them. The primary key stands under
    /// none. What is no object has no members.
    pub fn read(alloc: Global, json: &Json, primary: &str) -> Result<Update, UpdateFault>
        ensures { Due Memory result (update_of primary.now (view json.now)) }
    {
        let operations = read_operations(alloc, json, primary)?;
        Ok(Update { operations })
    }

    /// The fields after it. Each field has what its operation makes of the value that it had, and
    /// the others stay.
    pub fn apply(&self, alloc: Global, fields: &Fields) -> Result<Fields, UpdateFault>
        ensures { Due Memory result (updated self.now fields.now) }
    {
        let operations = self.operations.as_slice();
        if let Some(name) = first_misadded(operations, fields) {
            return Err(UpdateFault::Kind(name.copy(alloc)?));
        }
        if let Some(name) = first_past(operations, fields) {
            return Err(UpdateFault::Range(name.copy(alloc)?));
        }
        Ok(make_all(alloc, operations, fields)?)
    }
}

// The first field that is added to and holds no number.
fn first_misadded<'a>(operations: &'a [(RxText, Operation)], fields: &Fields) -> Option<&'a RxText>
    ensures { option_map (λ t. t.now) result
        ≡ first_where is_misadded fields.now operations.now }
{
    for (name, operation) in operations {
        if is_misadded(operation, fields.get(name.as_str())) {
            return Some(name);
        }
    }
    None
}

fn is_misadded(operation: &Operation, held: Option<&Value>) -> bool
    ensures { result ≡ is_misadded operation.now (option_map (λ v. v.now) held.entry) }
{
    match operation {
        Operation::Add(_) => number_in(held).is_none(),
        _ => false,
    }
}

// The first field whose sum none holds.
fn first_past<'a>(operations: &'a [(RxText, Operation)], fields: &Fields) -> Option<&'a RxText>
    ensures { option_map (λ t. t.now) result
        ≡ first_where sums_past fields.now operations.now }
{
    for (name, operation) in operations {
        if sums_past(operation, fields.get(name.as_str())) {
            return Some(name);
        }
    }
    None
}

fn sums_past(operation: &Operation, held: Option<&Value>) -> bool
    ensures { result ≡ sums_past operation.now (option_map (λ v. v.now) held.entry) }
{
    match operation {
        Operation::Add(n) => match number_in(held) {
            Some(m) => !is_number(m as i128 + *n as i128),
            None => false,
        },
        _ => false,
    }
}

/// The number that a field counts as, a missing one as 0.
pub(crate) fn number_in(held: Option<&Value>) -> Option<i64>
    ensures { result ≡ number_in (option_map (λ v. v.now) held.entry) }
{
    match held {
        None => Some(0),
        Some(Value::Int(n)) => Some(*n),
        Some(_) => None,
    }
}

fn make_all(
    alloc: Global,
    operations: &[(RxText, Operation)],
    old: &Fields,
) -> Result<Fields, AllocError>
    requires { AreOperations operations.now }
    ensures { IfOk result (λ f. f ≡ made_of old.now operations.now old.now) }
{
    let mut fields = old.copy(alloc)?;
    // All of its values are in range, which the count's clause tells.
    let _count = old.len();
    for (name, operation) in operations {
        match make(alloc, operation, old.get(name.as_str()))? {
            Some(value) => fields.set(name.copy(alloc)?, value)?,
            None => {
                let _ = fields.remove(name.as_str());
            }
        }
    }
    Ok(fields)
}

// The value that an operation makes of the one that is there.
fn make(
    alloc: Global,
    operation: &Operation,
    held: Option<&Value>,
) -> Result<Option<Value>, AllocError>
    requires operation { has_value operation.now ≡ true }
    requires held { IfSome held (λ v. is_value v.now ≡ true) }
    ensures value { IfOk result (λ v. v ≡ made operation.now (option_map (λ v. v.now) held.entry)) }
    ensures lawful { IfOk result (λ v. IfSome v (λ a. is_value a ≡ true)) }
{
    match operation {
        Operation::Add(n) => Ok(add_to(held, *n)),
        Operation::Raise(value) => {
            if order(held, Some(value)).is_lt() {
                return Ok(Some(value.copy(alloc)?));
            }
            copy(alloc, held)
        }
        Operation::Lower(value) => {
            if held.is_none() || order(Some(value), held).is_lt() {
                return Ok(Some(value.copy(alloc)?));
            }
            copy(alloc, held)
        }
        Operation::Set(value) => Ok(Some(value.copy(alloc)?)),
        Operation::Unset => Ok(None),
    }
}

// The number that is there and another together.
fn add_to(held: Option<&Value>, n: i64) -> Option<Value>
    ensures value { result ≡ made (Operation.Add n) (option_map (λ v. v.now) held.entry) }
    ensures lawful { IfSome result (λ v. is_value v ≡ true) }
{
    match number_in(held) {
        Some(m) => sum_of(m, n),
        None => None,
    }
}

// The sum, where a field holds it.
fn sum_of(m: i64, n: i64) -> Option<Value>
    ensures value { result ≡ sum_of m n }
    ensures lawful { IfSome result (λ v. is_value v ≡ true) }
{
    let sum = m as i128 + n as i128;
    if is_number(sum) {
        Some(Value::Int(sum as i64))
    } else {
        None
    }
}

fn copy(alloc: Global, held: Option<&Value>) -> Result<Option<Value>, AllocError>
    ensures { IfOk result (λ v. v ≡ option_map (λ v. v.now) held.entry) }
{
    match held {
        Some(value) => Ok(Some(value.copy(alloc)?)),
        None => Ok(None),
    }
}

/// States what holds of every update, and does nothing.
pub fn update_laws()
    ensures others { KeepsOtherFields }
    ensures each { MakesEachField }
    ensures key { LeavesThePrimaryKey }
    ensures fields { UpdatesToFields }
{}
