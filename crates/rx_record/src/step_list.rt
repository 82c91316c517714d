ghost use Rattle.std.specs.Prelude.{◌≡◌, ◌≤◌, ◌++◌, [], None, Ok, true, IfOk, IsTrue};
ghost use Rattle.rx_migrate.specs.Step.{is_step, most_steps};
ghost use Rattle.rx_record.specs.Reading.{Reads, Skips, is_read, read_or};
ghost use Rattle.rx_record.specs.Steps.{step_bytes, step_of, steps_bytes, steps_from, steps_count_of, steps_of};
ghost use Rattle.rx_record.specs.Views.{steps_in};
ghost use Rattle.rx_record.specs.Writable.{ShortReadsBack};

use crate::reading::{Read, read_count};
use crate::step_view::{DROP, RENAME, SCALE, SET, read_step};
use crate::writing::{put_count, put_short, put_text, put_value};
use rx_migrate::{MOST_STEPS, Step, Steps};
use rx_value::{RxText, Value};
use std::alloc::{AllocError, Global};

// How many steps there are.
fn read_steps_count(bytes: &[u8]) -> Read<'_, u32>
    ensures exact { Reads (λ n. n) result (steps_count_of bytes.now) }
    ensures few { IfOk result (λ p. p.0 ≤ most_steps) }
{
    let (count, rest) = read_count(bytes)?;
    if count <= MOST_STEPS as u32 {
        Ok((count, rest))
    } else {
        Err(bytes.len())
    }
}

// The bytes after so many steps.
fn skip_steps(count: u32, bytes: &[u8]) -> Result<&[u8], usize>
    ensures { Skips result (steps_from count None bytes.now) }
{
    let mut left = count;
    let mut rest = bytes;
    while left > 0 {
        let (_step, behind) = read_step(rest)?;
        left -= 1;
        rest = behind;
    }
    Ok(rest)
}

// The bytes of steps, from their count on.
pub(crate) fn read_steps(bytes: &[u8]) -> Read<'_, &[u8]>
    ensures { Reads (λ steps. steps_in steps.now) result (steps_of bytes.now) }
{
    let (count, steps) = read_steps_count(bytes)?;
    let rest = skip_steps(count, steps)?;
    Ok((&bytes[..bytes.len() - rest.len()], rest))
}

// The steps at the front of bytes; none where something else stands there.
pub(crate) fn own_steps(alloc: Global, bytes: &[u8]) -> Result<Steps, AllocError>
    ensures { IfOk result (λ steps. steps ≡ steps_in bytes.now) }
{
    match read_steps(bytes) {
        Ok(_) => own_read_steps(alloc, bytes),
        Err(_) => Ok(Steps::new(alloc)),
    }
}

fn own_read_steps(alloc: Global, bytes: &[u8]) -> Result<Steps, AllocError>
    requires { IsTrue (is_read (steps_of bytes.now)) }
    ensures { IfOk result (λ steps. steps ≡ steps_in bytes.now) }
{
    let Ok((count, steps)) = read_steps_count(bytes) else {
        unreachable!()
    };
    own_so_many(alloc, count, steps)
}

fn own_so_many(alloc: Global, count: u32, bytes: &[u8]) -> Result<Steps, AllocError>
    requires read { IsTrue (is_read (steps_from count None bytes.now)) }
    requires few { count ≤ most_steps }
    ensures { IfOk result (λ steps. steps ≡ read_or [] (steps_from count None bytes.now)) }
{
    let mut steps = Steps::new(alloc);
    let mut left = count;
    let mut rest = bytes;
    while left > 0 {
        let (step, behind) = own_step(alloc, rest)?;
        steps.push(step)?;
        left -= 1;
        rest = behind;
    }
    Ok(steps)
}

// The step at the front of bytes, and the bytes behind it.
fn own_step(alloc: Global, bytes: &[u8]) -> Result<(Step, &[u8]), AllocError>
    requires { IsTrue (is_read (step_of bytes.now)) }
    ensures exact { IfOk result (λ p. step_of bytes.now ≡ Ok (p.0, p.1.now)) }
    ensures lawful { IfOk result (λ p. is_step p.0 ≡ true) }
{
    let Ok((step, rest)) = read_step(bytes) else {
        unreachable!()
    };
    Ok((step.own(alloc)?, rest))
}

fn put_step(out: &mut Vec<u8>, step: &Step) -> Result<(), AllocError>
    requires { IsTrue (is_step step.now) }
    ensures bytes { IfOk result (λ _. out.new.items ≡ out.old.items ++ step_bytes step.now) }
    ensures back { IfOk result (λ _. ShortReadsBack step_bytes step_of step.now) }
{
    match step {
        Step::Rename { field, to } => put_rename(out, field, to),
        Step::Set { field, value } => put_set(out, field, value),
        Step::Unset { field } => put_drop(out, field),
        Step::Scale { field, by } => put_scale(out, field, *by),
    }
}

fn put_rename(out: &mut Vec<u8>, field: &RxText, to: &RxText) -> Result<(), AllocError>
    requires { IsTrue (is_step (Step.Rename field.now to.now)) }
    ensures bytes { IfOk result
        (λ _. out.new.items ≡ out.old.items ++ step_bytes (Step.Rename field.now to.now)) }
    ensures back { IfOk result
        (λ _. ShortReadsBack step_bytes step_of (Step.Rename field.now to.now)) }
{
    out.push(RENAME)?;
    put_text(out, field.as_str())?;
    put_text(out, to.as_str())
}

fn put_set(out: &mut Vec<u8>, field: &RxText, value: &Value) -> Result<(), AllocError>
    requires { IsTrue (is_step (Step.Set field.now value.now)) }
    ensures bytes { IfOk result
        (λ _. out.new.items ≡ out.old.items ++ step_bytes (Step.Set field.now value.now)) }
    ensures back { IfOk result
        (λ _. ShortReadsBack step_bytes step_of (Step.Set field.now value.now)) }
{
    out.push(SET)?;
    put_text(out, field.as_str())?;
    put_value(out, value)
}

fn put_drop(out: &mut Vec<u8>, field: &RxText) -> Result<(), AllocError>
    requires { IsTrue (is_step (Step.Unset field.now)) }
    ensures bytes { IfOk result
        (λ _. out.new.items ≡ out.old.items ++ step_bytes (Step.Unset field.now)) }
    ensures back { IfOk result (λ _. ShortReadsBack step_bytes step_of (Step.Unset field.now)) }
{
    out.push(DROP)?;
    put_text(out, field.as_str())
}

fn put_scale(out: &mut Vec<u8>, field: &RxText, by: u16) -> Result<(), AllocError>
    requires { IsTrue (is_step (Step.Scale field.now by)) }
    ensures bytes { IfOk result
        (λ _. out.new.items ≡ out.old.items ++ step_bytes (Step.Scale field.now by)) }
    ensures back { IfOk result (λ _. ShortReadsBack step_bytes step_of (Step.Scale field.now by)) }
{
    out.push(SCALE)?;
    put_text(out, field.as_str())?;
    put_short(out, by)
}

// Steps, from their count on.
pub(crate) fn put_steps(out: &mut Vec<u8>, steps: &Steps) -> Result<(), AllocError>
    ensures bytes { IfOk result (λ _. out.new.items ≡ out.old.items ++ steps_bytes steps.now) }
    ensures back { IfOk result (λ _. ShortReadsBack steps_bytes steps_of steps.now) }
{
    put_count(out, steps.len())?;
    for i in 0..steps.len() {
        put_step(out, steps.at(i))?;
    }
    Ok(())
}
