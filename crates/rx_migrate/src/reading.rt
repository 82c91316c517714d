ghost use Rattle.std.specs.Prelude.{◌≡◌, true, [], IfOk};
ghost use Rattle.serde_json.specs.View.{view, items_view};
ghost use Rattle.rx_value.specs.Due.{Due};
ghost use Rattle.rx_value.specs.Form.{texts};
ghost use Rattle.rx_migrate.specs.Reading.{has_only, a_text, a_value, a_factor, a_rename, a_set};
ghost use Rattle.rx_migrate.specs.Reading.{a_drop, a_scale, a_form, step_of, steps_after, steps_of};
ghost use Rattle.rx_migrate.specs.Step.{is_step};
ghost use Rattle.rx_migrate.specs.declared.fault.StepsFault.TheVariants.{Memory};

use crate::fault::StepsFault;
use crate::step::{MOST_BY, Step, is_step};
use crate::steps::{MOST_STEPS, Steps};
use rx_value::{RxText, Value, first_unexpected, read_fields, text_at, whole_within};
use serde_json::Value as Json;
use std::alloc::Global;

pub(crate) fn read_list(alloc: Global, json: &Json) -> Result<Steps, StepsFault>
    ensures { Due Memory result (steps_of (view json.now)) }
{
    match json.as_array() {
        Some(items) => read_items(alloc, items.as_slice()),
        None => Err(StepsFault::NotSteps),
    }
}

fn read_items(alloc: Global, items: &[Json]) -> Result<Steps, StepsFault>
    ensures { Due Memory result (steps_after [] (items_view items.now)) }
{
    let mut steps = Steps::new(alloc);
    for item in items {
        if steps.len() >= MOST_STEPS {
            return Err(StepsFault::NotSteps);
        }
        steps.push(read_step(alloc, item)?)?;
    }
    Ok(steps)
}

// A step that a line takes.
fn read_step(alloc: Global, json: &Json) -> Result<Step, StepsFault>
    ensures exact { Due Memory result (step_of (view json.now)) }
    ensures lawful { IfOk result (λ s. is_step s ≡ true) }
{
    let step = read_form(alloc, json)?;
    if is_step(&step) {
        Ok(step)
    } else {
        Err(StepsFault::NotSteps)
    }
}

// The form of a step, by the member that no other form has.
fn read_form(alloc: Global, json: &Json) -> Result<Step, StepsFault>
    ensures { Due Memory result (a_form (view json.now)) }
{
    if json.get("rename").is_some() {
        return read_rename(alloc, json);
    }
    if json.get("set").is_some() {
        return read_set(alloc, json);
    }
    if json.get("drop").is_some() {
        return read_drop(alloc, json);
    }
    read_scale(alloc, json)
}

fn read_rename(alloc: Global, json: &Json) -> Result<Step, StepsFault>
    ensures { Due Memory result (a_rename (view json.now)) }
{
    check_only(json, &["rename", "to"])?;
    let field = read_text(alloc, json, "rename")?;
    let to = read_text(alloc, json, "to")?;
    Ok(Step::Rename { field, to })
}

fn read_set(alloc: Global, json: &Json) -> Result<Step, StepsFault>
    ensures { Due Memory result (a_set (view json.now)) }
{
    check_only(json, &["set", "value"])?;
    let field = read_text(alloc, json, "set")?;
    let value = read_value(alloc, json, "value")?;
    Ok(Step::Set { field, value })
}

fn read_drop(alloc: Global, json: &Json) -> Result<Step, StepsFault>
    ensures { Due Memory result (a_drop (view json.now)) }
{
    check_only(json, &["drop"])?;
    let field = read_text(alloc, json, "drop")?;
    Ok(Step::Unset { field })
}

fn read_scale(alloc: Global, json: &Json) -> Result<Step, StepsFault>
    ensures { Due Memory result (a_scale (view json.now)) }
{
    check_only(json, &["scale", "by"])?;
    let field = read_text(alloc, json, "scale")?;
    let by = read_factor(json, "by")?;
    Ok(Step::Scale { field, by })
}

// There is no member but these.
fn check_only(json: &Json, members: &[&str]) -> Result<(), StepsFault>
    ensures { Due Memory result (has_only (texts members.now) (view json.now)) }
{
    match first_unexpected(json, members, &[]) {
        Some(_) => Err(StepsFault::NotSteps),
        None => Ok(()),
    }
}

fn read_text(alloc: Global, json: &Json, name: &str) -> Result<RxText, StepsFault>
    ensures { Due Memory result (a_text name.now (view json.now)) }
{
    match text_at(json, name) {
        Some(text) => Ok(RxText::new(alloc, text)?),
        None => Err(StepsFault::NotSteps),
    }
}

// The value that the fields of the object have at a name.
fn read_value(alloc: Global, json: &Json, name: &str) -> Result<Value, StepsFault>
    ensures { Due Memory result (a_value name.now (view json.now)) }
{
    let fields = read_fields(alloc, json)?;
    match fields.get(name) {
        Some(value) => Ok(value.copy(alloc)?),
        None => Err(StepsFault::NotSteps),
    }
}

fn read_factor(json: &Json, name: &str) -> Result<u16, StepsFault>
    ensures { Due Memory result (a_factor name.now (view json.now)) }
{
    match whole_within(json, name, 1, MOST_BY as u64) {
        Some(by) => Ok(by as u16),
        None => Err(StepsFault::NotSteps),
    }
}
