ghost use Rattle.std.specs.Prelude.{◌≡◌, option_map, IfOk};
ghost use Rattle.rx_record.specs.Reading.{Reads};
ghost use Rattle.rx_record.specs.Fields.{value_of, integer_of};
ghost use Rattle.rx_record.specs.Views.{value_in};

use crate::reading::{Read, read_byte, read_flag, read_long, read_text};
use rx_value::{RxText, Value, is_number};
use std::alloc::{AllocError, Global};

pub(crate) const FLAG: u8 = 0;

pub(crate) const NUMBER: u8 = 1;

pub(crate) const TEXT: u8 = 2;

/// A field's value, its text lent.
#[derive(Clone, Copy, Debug)]
pub enum ValueView<'a> {
    Flag(bool),
    Int(i64),
    Text(&'a str),
}

pub(crate) fn read_value(bytes: &[u8]) -> Read<'_, ValueView<'_>>
    ensures { Reads value_in result (value_of bytes.now) }
{
    let (kind, rest) = read_byte(bytes)?;
    match kind {
        FLAG => {
            let (flag, rest) = read_flag(rest)?;
            Ok((ValueView::Flag(flag), rest))
        }
        NUMBER => read_integer(rest),
        TEXT => {
            let (text, rest) = read_text(rest)?;
            Ok((ValueView::Text(text), rest))
        }
        _ => Err(bytes.len()),
    }
}

// A number in range.
fn read_integer(bytes: &[u8]) -> Read<'_, ValueView<'_>>
    ensures { Reads value_in result (integer_of bytes.now) }
{
    let (bits, rest) = read_long(bytes)?;
    let number = bits.cast_signed();
    if is_number(number as i128) {
        Ok((ValueView::Int(number), rest))
    } else {
        Err(bytes.len())
    }
}

pub(crate) fn own_value(alloc: Global, view: &ValueView<'_>) -> Result<Value, AllocError>
    ensures { IfOk result (λ v. v ≡ value_in view.now) }
{
    match view {
        ValueView::Flag(flag) => Ok(Value::Flag(*flag)),
        ValueView::Int(number) => Ok(Value::Int(*number)),
        ValueView::Text(text) => Ok(Value::Text(RxText::new(alloc, text)?)),
    }
}
