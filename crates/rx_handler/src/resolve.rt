ghost use Rattle.std.specs.Prelude.{◌≡◌, Some, option_map, IsTrue, IfOk, OnOk};
ghost use Rattle.rx_value.specs.Value.{is_value};
ghost use Rattle.rx_handler.specs.Resolve.{number_of, is_greater, raised_to, joined, resolve, JoinsFieldByField, JoinsToFields, KeepsTheKey};

use crate::kind::HandlerKind;
use rx_value::{Fields, RxText, State, Value, order};
use std::alloc::{AllocError, Global};

/// What a handler of that kind makes of the master's real state of a document and of the fork's new
/// one. The field is for `Greater` alone.
pub fn resolved(
    alloc: Global,
    kind: HandlerKind,
    field: &str,
    real: &State,
    new: &State,
) -> Result<State, AllocError>
    ensures { IfOk result (λ s. s ≡ resolve kind field.now real.now new.now) }
{
    match kind {
        HandlerKind::MasterWins => real.copy(alloc),
        HandlerKind::ForkWins => new.copy(alloc),
        HandlerKind::Greater => {
            let new_is_greater = is_greater(
                number_of(real.fields.get(field)),
                number_of(new.fields.get(field)),
            );
            if new_is_greater {
                return new.copy(alloc);
            }
            real.copy(alloc)
        }
        HandlerKind::Join => Ok(State {
            key: real.key.copy(alloc)?,
            fields: joined(alloc, &real.fields, &new.fields)?,
            deleted: real.deleted && new.deleted,
        }),
    }
}

fn number_of(value: Option<&Value>) -> Option<i64>
    ensures { result ≡ number_of (option_map (λ v. v.now) value.entry) }
{
    match value {
        Some(Value::Int(n)) => Some(*n),
        _ => None,
    }
}

// Whether both are there, and the second is greater.
fn is_greater(first: Option<i64>, second: Option<i64>) -> bool
    ensures { result ≡ is_greater first second }
{
    match (first, second) {
        (Some(first), Some(second)) => first < second,
        _ => false,
    }
}

fn joined(alloc: Global, real: &Fields, new: &Fields) -> Result<Fields, AllocError>
    ensures { IfOk result (λ fields. fields ≡ joined real.now new.now) }
{
    let mut fields = real.copy(alloc)?;
    for i in 0..new.len() {
        let (name, value) = new.at(i);
        raise(alloc, &mut fields, name, value)?;
    }
    Ok(fields)
}

// Gives the name that value where it is greater than the one that it has.
fn raise(alloc: Global, fields: &mut Fields, name: &RxText, value: &Value) -> Result<(), AllocError>
    requires { IsTrue (is_value value.now) }
    ensures { OnOk result (fields.new ≡ raised_to fields.old name.now (Some value.now)) }
{
    if order(fields.get(name.as_str()), Some(value)).is_lt() {
        fields.set(name.copy(alloc)?, value.copy(alloc)?)?;
    }
    Ok(())
}

/// States what holds of every resolution, and does nothing.
pub fn resolve_laws()
    ensures joins { JoinsFieldByField }
    ensures fields { JoinsToFields }
    ensures key { KeepsTheKey }
{}
