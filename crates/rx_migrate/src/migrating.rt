ghost use Rattle.std.specs.Prelude.{◌≡◌, true, Some, is_some, IfOk, IsTrue};
ghost use Rattle.std.specs.List.{AllByRecursion};
ghost use Rattle.rx_value.specs.Named.{named, without};
ghost use Rattle.rx_value.specs.Value.{is_value};
ghost use Rattle.rx_migrate.specs.Migrated.{renamed, filled, product, scaled, made};
ghost use Rattle.rx_migrate.specs.Migrated.{all_made, migrated, EqualStaysEqual, KeepsTheKey, KeepsTheMark};
ghost use Rattle.rx_migrate.specs.Migrated.{KeepsOtherFields, MigratesToFields};
ghost use Rattle.rx_migrate.specs.Step.{is_step};

use crate::step::Step;
use rx_value::{Fields, RxText, State, Value, is_number};
use std::alloc::{AllocError, Global};

pub(crate) fn make_all(
    alloc: Global,
    steps: &[Step],
    fields: Fields,
) -> Result<Option<Fields>, AllocError>
    requires { AllByRecursion (λ s. is_step s ≡ true) steps.now }
    ensures { IfOk result (λ r. r ≡ all_made steps.now fields) }
{
    let mut fields = fields;
    for step in steps {
        match make(alloc, step, fields)? {
            Some(next) => fields = next,
            None => return Ok(None),
        }
    }
    Ok(Some(fields))
}

// The fields after one step, where no product is out of range.
fn make(alloc: Global, step: &Step, fields: Fields) -> Result<Option<Fields>, AllocError>
    requires { IsTrue (is_step step.now) }
    ensures { IfOk result (λ r. r ≡ made step.now fields) }
{
    match step {
        Step::Rename { field, to } => Ok(Some(rename(alloc, fields, field.as_str(), to)?)),
        Step::Set { field, value } => Ok(Some(fill(alloc, fields, field, value)?)),
        Step::Unset { field } => Ok(Some(without(fields, field.as_str()))),
        Step::Scale { field, by } => scale(alloc, fields, field, *by),
    }
}

fn rename(alloc: Global, fields: Fields, field: &str, to: &RxText) -> Result<Fields, AllocError>
    ensures { IfOk result
        (λ r. r ≡ renamed fields field.now to.now (named fields field.now)) }
{
    let mut fields = fields;
    match fields.remove(field) {
        None => Ok(fields),
        Some(value) => {
            fields.set(to.copy(alloc)?, value)?;
            Ok(fields)
        }
    }
}

fn fill(alloc: Global, fields: Fields, field: &RxText, value: &Value) -> Result<Fields, AllocError>
    requires { IsTrue (is_value value.now) }
    ensures { IfOk result (λ r. r ≡ filled fields field.now value.now (named fields field.now)) }
{
    let mut fields = fields;
    if fields.get(field.as_str()).is_none() {
        fields.set(field.copy(alloc)?, value.copy(alloc)?)?;
    }
    Ok(fields)
}

// The fields but the one of that name.
fn without(fields: Fields, name: &str) -> Fields
    ensures { result ≡ without fields name.now }
{
    let mut fields = fields;
    fields.remove(name);
    fields
}

fn scale(
    alloc: Global,
    fields: Fields,
    field: &RxText,
    by: u16,
) -> Result<Option<Fields>, AllocError>
    ensures { IfOk result (λ r. r ≡ scaled fields field.now by (named fields field.now)) }
{
    let mut fields = fields;
    let Some(Value::Int(n)) = fields.get(field.as_str()) else {
        return Ok(Some(fields));
    };
    let Some(n) = product(*n, by) else {
        return Ok(None);
    };
    fields.set(field.copy(alloc)?, Value::Int(n))?;
    Ok(Some(fields))
}

// The product, where a field may hold it.
fn product(n: i64, by: u16) -> Option<i64>
    ensures { result ≡ product n by }
{
    let product = n.checked_mul(by as i64)?;
    if is_number(product as i128) {
        Some(product)
    } else {
        None
    }
}

// A state after steps that make something of its fields, in its own memory.
pub(crate) fn carry(alloc: Global, steps: &[Step], state: State) -> Result<State, AllocError>
    requires steps { AllByRecursion (λ s. is_step s ≡ true) steps.now }
    requires made { is_some (all_made steps.now state.fields) ≡ true }
    ensures { IfOk result (λ s. migrated steps.now state ≡ Some s) }
{
    let State {
        key,
        fields,
        deleted,
    } = state;
    let Some(fields) = make_all(alloc, steps, fields)? else {
        unreachable!()
    };
    Ok(State {
        key,
        fields,
        deleted,
    })
}

/// States what holds of every migration, and does nothing.
pub fn migrate_laws()
    ensures equal { EqualStaysEqual }
    ensures key { KeepsTheKey }
    ensures mark { KeepsTheMark }
    ensures others { KeepsOtherFields }
    ensures fields { MigratesToFields }
{}
