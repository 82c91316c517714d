ghost use Rattle.std.specs.Prelude.{◌≡◌, IfOk};
ghost use Rattle.rx_value.specs.Value.{is_value};
ghost use Rattle.rx_migrate.specs.Step.{is_named_in, is_step};

use rx_value::{RxText, Value, is_field_name, is_number};
use std::alloc::{AllocError, Global};

/// The greatest factor of a scale.
pub const MOST_BY: u16 = 1000;

/// One step of a migration.
#[derive(Debug, Drop)]
pub enum Step {
    /// The value of a field, where it is there, goes to another, over what that had.
    Rename { field: RxText, to: RxText },
    /// A field gets that value where it is missing.
    Set { field: RxText, value: Value },
    /// A field is taken away.
    Unset { field: RxText },
    /// A field is multiplied where it is a whole number.
    Scale { field: RxText, by: u16 },
}

impl Step {
    pub fn copy(&self, alloc: Global) -> Result<Step, AllocError>
        ensures { IfOk result (λ s. s ≡ self.now) }
    {
        match self {
            Step::Rename { field, to } => Ok(Step::Rename {
                field: field.copy(alloc)?,
                to: to.copy(alloc)?,
            }),
            Step::Set { field, value } => Ok(Step::Set {
                field: field.copy(alloc)?,
                value: value.copy(alloc)?,
            }),
            Step::Unset { field } => Ok(Step::Unset {
                field: field.copy(alloc)?,
            }),
            Step::Scale { field, by } => Ok(Step::Scale {
                field: field.copy(alloc)?,
                by: *by,
            }),
        }
    }

    pub(crate) fn names(&self, name: &str) -> bool
        ensures { result ≡ is_named_in name.now self.now }
    {
        match self {
            Step::Rename { field, to } => field.as_str() == name || to.as_str() == name,
            Step::Set { field, .. } | Step::Unset { field } | Step::Scale { field, .. } => {
                field.as_str() == name
            }
        }
    }
}

/// Whether a line takes the step: its fields have names of fields, its value is in range, and its
/// factor is from 1 to 1000.
pub fn is_step(step: &Step) -> bool
    ensures { result ≡ is_step step.now }
{
    match step {
        Step::Rename { field, to } => is_field_name(field.as_str()) && is_field_name(to.as_str()),
        Step::Set { field, value } => is_field_name(field.as_str()) && is_value(value),
        Step::Unset { field } => is_field_name(field.as_str()),
        Step::Scale { field, by } => { is_field_name(field.as_str()) && 1 <= *by && *by <= MOST_BY }
    }
}

fn is_value(value: &Value) -> bool
    ensures { result ≡ is_value value.now }
{
    match value {
        Value::Int(n) => is_number(*n as i128),
        _ => true,
    }
}
