ghost use Rattle.std.specs.Prelude.{◌≡◌, None, option_map};
ghost use Rattle.rx_record.specs.Reading.{Reads, Skips};
ghost use Rattle.rx_record.specs.Rows.{state_of, states_from, states_of, row_of, rows_from, rows_of};
ghost use Rattle.rx_record.specs.Views.{state_in, states_left, row_in, rows_left};

use crate::pairs::read_fields;
use crate::reading::{Read, read_count, read_flag, read_long, read_text_above};
use crate::row_view::RowView;
use crate::row_views::RowViews;
use crate::state_view::StateView;
use crate::state_views::StateViews;

pub(crate) fn read_state<'a>(last: Option<&str>, bytes: &'a [u8]) -> Read<'a, StateView<'a>>
    ensures { Reads state_in result (state_of (option_map (λ t. t.now) last.entry) bytes.now) }
{
    let (key, rest) = read_text_above(last, bytes)?;
    let (deleted, rest) = read_flag(rest)?;
    let (fields, rest) = read_fields(rest)?;
    let state = StateView {
        key,
        deleted,
        fields,
    };
    Ok((state, rest))
}

// The bytes after so many states.
fn skip_states(count: u32, bytes: &[u8]) -> Result<&[u8], usize>
    ensures { Skips result (states_from count None bytes.now) }
{
    let mut left = count;
    let mut last = None;
    let mut rest = bytes;
    while left > 0 {
        let (state, behind) = read_state(last, rest)?;
        left -= 1;
        last = Some(state.key);
        rest = behind;
    }
    Ok(rest)
}

pub(crate) fn read_states(bytes: &[u8]) -> Read<'_, StateViews<'_>>
    ensures { Reads states_left result (states_of bytes.now) }
{
    let (count, states) = read_count(bytes)?;
    let rest = skip_states(count, states)?;
    let lent = StateViews {
        left: count,
        bytes: &states[..states.len() - rest.len()],
    };
    Ok((lent, rest))
}

pub(crate) fn read_row<'a>(last: Option<&str>, bytes: &'a [u8]) -> Read<'a, RowView<'a>>
    ensures { Reads row_in result (row_of (option_map (λ t. t.now) last.entry) bytes.now) }
{
    let (height, rest) = read_long(bytes)?;
    let (state, rest) = read_state(last, rest)?;
    Ok((RowView { height, state }, rest))
}

// The bytes after so many rows.
fn skip_rows(count: u32, bytes: &[u8]) -> Result<&[u8], usize>
    ensures { Skips result (rows_from count None bytes.now) }
{
    let mut left = count;
    let mut last = None;
    let mut rest = bytes;
    while left > 0 {
        let (row, behind) = read_row(last, rest)?;
        left -= 1;
        last = Some(row.state.key);
        rest = behind;
    }
    Ok(rest)
}

pub(crate) fn read_rows(bytes: &[u8]) -> Read<'_, RowViews<'_>>
    ensures { Reads rows_left result (rows_of bytes.now) }
{
    let (count, rows) = read_count(bytes)?;
    let rest = skip_rows(count, rows)?;
    let lent = RowViews {
        left: count,
        bytes: &rows[..rows.len() - rest.len()],
    };
    Ok((lent, rest))
}
