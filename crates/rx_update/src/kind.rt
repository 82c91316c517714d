ghost use Rattle.std.specs.Prelude.{◌≡◌, IfOk};
ghost use Rattle.rx_update.specs.Hooked.{counted, hooked, zeroed};
ghost use Rattle.rx_update.specs.Hooked.{HooksToFields, KeepsTheKey, KeepsTheMark, KeepsTheOthers};

use crate::update::number_in;
use rx_value::{Fields, RxText, State, Value, is_number};
use std::alloc::{AllocError, Global};

/// What a hook does to a state before it is written.
#[derive(Debug, Clone, Copy, PartialEq, Eq)]
pub enum HookKind {
    /// Adds 1 to the field.
    Count,
    /// Gives the field 0 where it is missing.
    Zero,
    /// Vetoes the write where the field is true.
    Lock,
}

/// What a hook of that kind makes of a state: nothing, where it vetoes the write.
pub fn hooked(
    alloc: Global,
    kind: HookKind,
    field: &str,
    state: &State,
) -> Result<Option<State>, AllocError>
    ensures { IfOk result (λ s. s ≡ hooked kind field.now state.now) }
{
    match kind {
        HookKind::Count => Ok(Some(with_fields(
            alloc,
            state,
            counted(alloc, field, &state.fields)?,
        )?)),
        HookKind::Zero => Ok(Some(with_fields(
            alloc,
            state,
            zeroed(alloc, field, &state.fields)?,
        )?)),
        HookKind::Lock => match state.fields.get(field) {
            Some(Value::Flag(true)) => Ok(None),
            _ => Ok(Some(state.copy(alloc)?)),
        },
    }
}

fn with_fields(alloc: Global, state: &State, fields: Fields) -> Result<State, AllocError>
    ensures { IfOk result (λ s. s ≡ record state.now { fields = fields }) }
{
    Ok(State {
        key: state.key.copy(alloc)?,
        fields,
        deleted: state.deleted,
    })
}

// The field counted one further, where a field holds that.
fn counted(alloc: Global, field: &str, fields: &Fields) -> Result<Fields, AllocError>
    ensures { IfOk result (λ f. f ≡ counted field.now fields.now) }
{
    let mut next = fields.copy(alloc)?;
    let Some(n) = number_in(fields.get(field)) else {
        return Ok(next);
    };
    let sum = n as i128 + 1;
    if is_number(sum) {
        next.set(RxText::new(alloc, field)?, Value::Int(sum as i64))?;
    }
    Ok(next)
}

fn zeroed(alloc: Global, field: &str, fields: &Fields) -> Result<Fields, AllocError>
    ensures { IfOk result (λ f. f ≡ zeroed field.now fields.now) }
{
    let mut next = fields.copy(alloc)?;
    if fields.get(field).is_none() {
        next.set(RxText::new(alloc, field)?, Value::Int(0))?;
    }
    Ok(next)
}

/// States what holds of every hook, and does nothing.
pub fn hook_laws()
    ensures key { KeepsTheKey }
    ensures mark { KeepsTheMark }
    ensures others { KeepsTheOthers }
    ensures fields { HooksToFields }
{}
