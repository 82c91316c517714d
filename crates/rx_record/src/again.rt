// Parts that were read from these bytes before. They are read again without a test of their texts
// and of their order.
ghost use Rattle.std.specs.Prelude.{◌≡◌, None, Ok, IsTrue};
ghost use Rattle.rx_record.specs.Reading.{rest_after, is_read, is_whole};
ghost use Rattle.rx_record.specs.Parts.{text_of, text_above};
ghost use Rattle.rx_record.specs.Fields.{value_of, pair_of, fields_of};
ghost use Rattle.rx_record.specs.Rows.{state_of, row_of};
ghost use Rattle.rx_record.specs.PartRows.{part_row_of};
ghost use Rattle.rx_record.specs.Views.{value_in, pair_in, fields_in, state_in, row_in, part_row_in};

use crate::pair_view::PairView;
use crate::part_view::PartView;
use crate::reading::{read_byte, read_count, read_flag, read_long};
use crate::row_view::RowView;
use crate::state_view::StateView;
use crate::value_view::{TEXT, ValueView, read_value};
use std::str;

pub(crate) fn text_again(bytes: &[u8]) -> (&str, &[u8])
    requires { IsTrue (is_read (text_of bytes.now)) }
    ensures text { text_of bytes.now ≡ Ok (result.0.now, result.1.now) }
    ensures first { text_above None bytes.now ≡ Ok (result.0.now, result.1.now) }
{
    let Ok((size, rest)) = read_count(bytes) else {
        unreachable!()
    };
    let (text, rest) = rest.split_at(size as usize);
    // It was a text when it was read.
    (unsafe { str::from_utf8_unchecked(text) }, rest)
}

fn value_again(bytes: &[u8]) -> (ValueView<'_>, &[u8])
    requires { IsTrue (is_read (value_of bytes.now)) }
    ensures { value_of bytes.now ≡ Ok (value_in result.0, result.1.now) }
{
    let Ok((kind, rest)) = read_byte(bytes) else {
        unreachable!()
    };
    if kind == TEXT {
        let (text, rest) = text_again(rest);
        return (ValueView::Text(text), rest);
    }
    let Ok(read) = read_value(bytes) else {
        unreachable!()
    };
    read
}

pub(crate) fn pair_again(bytes: &[u8]) -> (PairView<'_>, &[u8])
    requires { IsTrue (is_read (pair_of None bytes.now)) }
    ensures { pair_of None bytes.now ≡ Ok (pair_in result.0, result.1.now) }
{
    let (name, rest) = text_again(bytes);
    let (value, rest) = value_again(rest);
    (PairView { name, value }, rest)
}

// The bytes behind fields.
fn behind_fields(bytes: &[u8]) -> &[u8]
    requires { IsTrue (is_read (fields_of bytes.now)) }
    ensures { rest_after (fields_of bytes.now) ≡ Ok result.now }
{
    let Ok((count, pairs)) = read_count(bytes) else {
        unreachable!()
    };
    let mut left = count;
    let mut rest = pairs;
    while left > 0 {
        let (_, behind) = pair_again(rest);
        left -= 1;
        rest = behind;
    }
    rest
}

// The bytes of fields, from their count on.
fn fields_again(bytes: &[u8]) -> (&[u8], &[u8])
    requires { IsTrue (is_read (fields_of bytes.now)) }
    ensures exact { fields_of bytes.now ≡ Ok (fields_in result.0.now, result.1.now) }
    ensures whole { IsTrue (is_whole (fields_of result.0.now)) }
{
    let rest = behind_fields(bytes);
    (&bytes[..bytes.len() - rest.len()], rest)
}

pub(crate) fn state_again(bytes: &[u8]) -> (StateView<'_>, &[u8])
    requires { IsTrue (is_read (state_of None bytes.now)) }
    ensures { state_of None bytes.now ≡ Ok (state_in result.0, result.1.now) }
{
    let (key, rest) = text_again(bytes);
    let Ok((deleted, rest)) = read_flag(rest) else {
        unreachable!()
    };
    let (fields, rest) = fields_again(rest);
    let state = StateView {
        key,
        deleted,
        fields,
    };
    (state, rest)
}

pub(crate) fn row_again(bytes: &[u8]) -> (RowView<'_>, &[u8])
    requires { IsTrue (is_read (row_of None bytes.now)) }
    ensures { row_of None bytes.now ≡ Ok (row_in result.0, result.1.now) }
{
    let Ok((height, rest)) = read_long(bytes) else {
        unreachable!()
    };
    let (state, rest) = state_again(rest);
    (RowView { height, state }, rest)
}

pub(crate) fn part_row_again(bytes: &[u8]) -> (PartView<'_>, &[u8])
    requires { IsTrue (is_read (part_row_of None bytes.now)) }
    ensures { part_row_of None bytes.now ≡ Ok (part_row_in result.0, result.1.now) }
{
    let Ok((lwt, rest)) = read_long(bytes) else {
        unreachable!()
    };
    let Ok((height, rest)) = read_long(rest) else {
        unreachable!()
    };
    let (state, rest) = state_again(rest);
    (PartView { lwt, height, state }, rest)
}
