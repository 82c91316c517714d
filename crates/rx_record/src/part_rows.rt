ghost use Rattle.std.specs.Prelude.{◌≡◌, ◌++◌, None, IfOk, option_map};
ghost use Rattle.rx_document.specs.Place.{place_cmp};
ghost use Rattle.rx_record.specs.Reading.{Reads, Skips};
ghost use Rattle.rx_record.specs.Parts.{is_above_by};
ghost use Rattle.rx_record.specs.Places.{place_in};
ghost use Rattle.rx_record.specs.Content.{part, content_bytes, content_of};
ghost use Rattle.rx_record.specs.PartRows.{row_place, some_part_row_of, part_row_of, part_rows_bytes, part_rows_from, part_rows_of};
ghost use Rattle.rx_record.specs.Views.{part_row_in, part_rows_left};
ghost use Rattle.rx_record.specs.Writable.{PlacesRise, ShortReadsBack};

use crate::kinds::PART;
use crate::part_view::PartView;
use crate::part_views::PartViews;
use crate::place_view::PlaceView;
use crate::reading::{Read, read_count, read_long};
use crate::record::PartRow;
use crate::rows::read_state;
use crate::writing::{put_count, put_long, put_state, put_text};
use rx_value::RxText;
use std::alloc::{AllocError, Global};

// A row, wherever it stands.
fn read_any_part_row(bytes: &[u8]) -> Read<'_, PartView<'_>>
    ensures { Reads part_row_in result (some_part_row_of bytes.now) }
{
    let (lwt, rest) = read_long(bytes)?;
    let (height, rest) = read_long(rest)?;
    let (state, rest) = read_state(None, rest)?;
    Ok((PartView { lwt, height, state }, rest))
}

// One whose place is above that of the one before.
fn read_part_row<'a>(last: &Option<PlaceView<'_>>, bytes: &'a [u8]) -> Read<'a, PartView<'a>>
    ensures { Reads part_row_in result (part_row_of (option_map place_in last.now) bytes.now) }
{
    let (row, rest) = read_any_part_row(bytes)?;
    if is_above(last, &row) {
        Ok((row, rest))
    } else {
        Err(bytes.len())
    }
}

fn is_above(last: &Option<PlaceView<'_>>, row: &PartView<'_>) -> bool
    ensures { result ≡ is_above_by place_cmp (option_map place_in last.now)
        (row_place (part_row_in row.now)) }
{
    match last {
        Some(last) => last
            .lwt
            .cmp(&row.lwt)
            .then(last.id.cmp(&row.state.key))
            .is_lt(),
        None => true,
    }
}

// The bytes after so many rows.
fn skip_part_rows(count: u32, bytes: &[u8]) -> Result<&[u8], usize>
    ensures { Skips result (part_rows_from count None bytes.now) }
{
    let mut left = count;
    let mut last = None;
    let mut rest = bytes;
    while left > 0 {
        let (row, behind) = read_part_row(&last, rest)?;
        left -= 1;
        last = Some(PlaceView {
            lwt: row.lwt,
            id: row.state.key,
        });
        rest = behind;
    }
    Ok(rest)
}

pub(crate) fn read_part_rows(bytes: &[u8]) -> Read<'_, PartViews<'_>>
    ensures { Reads part_rows_left result (part_rows_of bytes.now) }
{
    let (count, rows) = read_count(bytes)?;
    let rest = skip_part_rows(count, rows)?;
    let lent = PartViews {
        left: count,
        bytes: &rows[..rows.len() - rest.len()],
    };
    Ok((lent, rest))
}

pub(crate) fn own_part_rows(alloc: Global, rows: &PartViews<'_>) -> Result<Vec<PartRow>, AllocError>
    ensures { IfOk result (λ owned. owned.items ≡ part_rows_left rows.now) }
{
    let mut owned = Vec::with_capacity(alloc, rows.left as usize)?;
    let mut rows = *rows;
    while let Some(row) = rows.next() {
        owned.push(PartRow {
            lwt: row.lwt,
            height: row.height,
            state: row.state.own(alloc)?,
        })?;
    }
    Ok(owned)
}

// Rows, from their count on.
fn put_part_rows(out: &mut Vec<u8>, rows: &[PartRow]) -> Result<(), AllocError>
    ensures bytes { IfOk result (λ _. out.new.items ≡ out.old.items ++ part_rows_bytes rows.now) }
    ensures back { PlacesRise rows.now
        → IfOk result (λ _. ShortReadsBack part_rows_bytes part_rows_of rows.now) }
{
    put_count(out, rows.len())?;
    for row in rows {
        put_long(out, row.lwt)?;
        put_long(out, row.height)?;
        put_state(out, &row.state)?;
    }
    Ok(())
}

pub(crate) fn put_part(out: &mut Vec<u8>, name: &RxText, rows: &[PartRow]) -> Result<(), AllocError>
    ensures bytes { IfOk result (λ _. out.new.items ≡ out.old.items
        ++ content_bytes (part name.now rows.now)) }
    ensures back { PlacesRise rows.now → IfOk result
        (λ _. ShortReadsBack content_bytes content_of (part name.now rows.now)) }
{
    out.push(PART)?;
    put_text(out, name.as_str())?;
    put_part_rows(out, rows)
}
