ghost use Rattle.std.specs.Prelude.{◌≡◌, IfOk};
ghost use Rattle.rx_record.specs.Reading.{Reads};
ghost use Rattle.rx_record.specs.Steps.{field_of, factor_of, rename_of, set_of, drop_of, scale_of, step_of};
ghost use Rattle.rx_record.specs.Views.{step_in};

use crate::reading::{Read, read_byte, read_short, read_text};
use crate::value_view::{ValueView, own_value, read_value};
use rx_migrate::{MOST_BY, Step};
use rx_value::{RxText, is_field_name};
use std::alloc::{AllocError, Global};

pub(crate) const RENAME: u8 = 0;

pub(crate) const SET: u8 = 1;

pub(crate) const DROP: u8 = 2;

pub(crate) const SCALE: u8 = 3;

// A step of a migration, its texts lent.
#[derive(Clone, Copy, Debug)]
pub(crate) enum StepView<'a> {
    Rename {
        field: &'a str,
        to: &'a str,
    },
    Set {
        field: &'a str,
        value: ValueView<'a>,
    },
    Unset {
        field: &'a str,
    },
    Scale {
        field: &'a str,
        by: u16,
    },
}

impl<'a> StepView<'a> {
    pub(crate) fn own(&self, alloc: Global) -> Result<Step, AllocError>
        ensures { IfOk result (λ step. step ≡ step_in self.now) }
    {
        match self {
            StepView::Rename { field, to } => Ok(Step::Rename {
                field: RxText::new(alloc, field)?,
                to: RxText::new(alloc, to)?,
            }),
            StepView::Set { field, value } => Ok(Step::Set {
                field: RxText::new(alloc, field)?,
                value: own_value(alloc, value)?,
            }),
            StepView::Unset { field } => Ok(Step::Unset {
                field: RxText::new(alloc, field)?,
            }),
            StepView::Scale { field, by } => Ok(Step::Scale {
                field: RxText::new(alloc, field)?,
                by: *by,
            }),
        }
    }
}

pub(crate) fn read_step(bytes: &[u8]) -> Read<'_, StepView<'_>>
    ensures { Reads step_in result (step_of bytes.now) }
{
    let (kind, rest) = read_byte(bytes)?;
    match kind {
        RENAME => read_rename(rest),
        SET => read_set(rest),
        DROP => read_drop(rest),
        SCALE => read_scale(rest),
        _ => Err(bytes.len()),
    }
}

fn read_rename(bytes: &[u8]) -> Read<'_, StepView<'_>>
    ensures { Reads step_in result (rename_of bytes.now) }
{
    let (field, rest) = read_field(bytes)?;
    let (to, rest) = read_field(rest)?;
    Ok((StepView::Rename { field, to }, rest))
}

fn read_set(bytes: &[u8]) -> Read<'_, StepView<'_>>
    ensures { Reads step_in result (set_of bytes.now) }
{
    let (field, rest) = read_field(bytes)?;
    let (value, rest) = read_value(rest)?;
    Ok((StepView::Set { field, value }, rest))
}

fn read_drop(bytes: &[u8]) -> Read<'_, StepView<'_>>
    ensures { Reads step_in result (drop_of bytes.now) }
{
    let (field, rest) = read_field(bytes)?;
    Ok((StepView::Unset { field }, rest))
}

fn read_scale(bytes: &[u8]) -> Read<'_, StepView<'_>>
    ensures { Reads step_in result (scale_of bytes.now) }
{
    let (field, rest) = read_field(bytes)?;
    let (by, rest) = read_factor(rest)?;
    Ok((StepView::Scale { field, by }, rest))
}

// The name of a field.
fn read_field(bytes: &[u8]) -> Read<'_, &str>
    ensures { Reads (λ t. t.now) result (field_of bytes.now) }
{
    let (name, rest) = read_text(bytes)?;
    if is_field_name(name) {
        Ok((name, rest))
    } else {
        Err(bytes.len())
    }
}

fn read_factor(bytes: &[u8]) -> Read<'_, u16>
    ensures { Reads (λ n. n) result (factor_of bytes.now) }
{
    let (by, rest) = read_short(bytes)?;
    if 1 <= by && by <= MOST_BY {
        Ok((by, rest))
    } else {
        Err(bytes.len())
    }
}
