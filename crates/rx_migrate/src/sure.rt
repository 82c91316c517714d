// Where steps surely make something of fields: no product can be out of range.
ghost use Rattle.std.specs.Prelude.{◌≡◌, true, is_some};
ghost use Rattle.std.specs.List.{AllByRecursion, list_all};
ghost use Rattle.rx_migrate.specs.Migrated.{all_made};
ghost use Rattle.rx_migrate.specs.Step.{is_step};
ghost use Rattle.rx_migrate.specs.Sure.{grown, is_within, most_after, most_after_all};

use crate::step::Step;
use rx_value::{Fields, LARGEST, Value};

// Whether all numbers are near enough to 0. Where they aren't, the steps may still make something.
#[tactic(auto, using(crate::proofs::Within::sure))]
pub(crate) fn are_sure(steps: &[Step], fields: &Fields) -> bool
    requires { AllByRecursion (λ s. is_step s ≡ true) steps.now }
    ensures { result ≡ true → is_some (all_made steps.now fields.now) ≡ true }
{
    let most = room(steps);
    most_after_all(steps, most).is_some() && are_within(most, fields)
}

// How far from 0 a number may be for all factors.
fn room(steps: &[Step]) -> u64 {
    let mut most = LARGEST as u64;
    for step in steps {
        if let Step::Scale { by, .. } = step {
            most = most.checked_div(*by as u64).unwrap_or(0);
        }
    }
    most
}

fn most_after_all(steps: &[Step], most: u64) -> Option<u64>
    ensures { result ≡ most_after_all steps.now most }
{
    let mut most = most;
    for step in steps {
        match most_after(step, most) {
            Some(next) => most = next,
            None => return None,
        }
    }
    Some(most)
}

fn most_after(step: &Step, most: u64) -> Option<u64>
    ensures { result ≡ most_after step.now most }
{
    match step {
        Step::Rename { .. } | Step::Unset { .. } => Some(most),
        Step::Set { value, .. } => if is_within(most, value) {
            Some(most)
        } else {
            None
        },
        Step::Scale { by, .. } => grown(most, *by),
    }
}

fn grown(most: u64, by: u16) -> Option<u64>
    ensures { result ≡ grown most by }
{
    let grown = most.checked_mul(by as u64)?;
    if grown <= LARGEST as u64 {
        Some(grown)
    } else {
        None
    }
}

#[tactic(auto, using(rx_value::proofs::Lists::drop_suc))]
fn are_within(most: u64, fields: &Fields) -> bool
    ensures { result ≡ list_all (λ p. is_within most p.1) fields.now }
{
    for i in 0..fields.len() {
        let (_name, value) = fields.at(i);
        if !is_within(most, value) {
            return false;
        }
    }
    true
}

fn is_within(most: u64, value: &Value) -> bool
    ensures { result ≡ is_within most value.now }
{
    match value {
        Value::Int(n) => n.unsigned_abs() <= most,
        _ => true,
    }
}
