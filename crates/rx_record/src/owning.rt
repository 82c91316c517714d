ghost use Rattle.std.specs.Prelude.{◌≡◌, None, Ok, IfOk, IsTrue, option_map};
ghost use Rattle.rx_record.specs.Reading.{is_read};
ghost use Rattle.rx_record.specs.Fields.{fields_of};
ghost use Rattle.rx_record.specs.Rows.{state_of, row_of};
ghost use Rattle.rx_record.specs.Places.{place_in};
ghost use Rattle.rx_record.specs.Views.{rows_left, states_left};

use crate::again::text_again;
use crate::pair_views::PairViews;
use crate::place_view::PlaceView;
use crate::reading::{read_flag, read_long};
use crate::record::RowOut;
use crate::row_views::RowViews;
use crate::state_views::StateViews;
use crate::value_view::own_value;
use rx_document::Place;
use rx_value::{Fields, RxText, State};
use std::alloc::{AllocError, Global};

// An owned part, and the bytes behind it.
type Owned<'a, T> = Result<(T, &'a [u8]), AllocError>;

// The fields at the front of bytes, and the bytes behind them.
pub(crate) fn own_fields(alloc: Global, bytes: &[u8]) -> Owned<'_, Fields>
    requires { IsTrue (is_read (fields_of bytes.now)) }
    ensures { IfOk result (λ p. fields_of bytes.now ≡ Ok (p.0, p.1.now)) }
{
    let mut pairs = PairViews::new(bytes);
    let mut owned = Vec::with_capacity(alloc, pairs.left as usize)?;
    while let Some(pair) = pairs.next() {
        owned.push((
            RxText::new(alloc, pair.name)?,
            own_value(alloc, &pair.value)?,
        ))?;
    }
    Ok((Fields::from_rising(owned), pairs.bytes))
}

// The state at the front of bytes, and the bytes behind it.
fn own_state(alloc: Global, bytes: &[u8]) -> Owned<'_, State>
    requires { IsTrue (is_read (state_of None bytes.now)) }
    ensures { IfOk result (λ p. state_of None bytes.now ≡ Ok (p.0, p.1.now)) }
{
    let (key, rest) = text_again(bytes);
    let Ok((deleted, rest)) = read_flag(rest) else {
        unreachable!()
    };
    let (fields, rest) = own_fields(alloc, rest)?;
    let state = State {
        key: RxText::new(alloc, key)?,
        fields,
        deleted,
    };
    Ok((state, rest))
}

// The same of a row.
fn own_row(alloc: Global, bytes: &[u8]) -> Owned<'_, RowOut>
    requires { IsTrue (is_read (row_of None bytes.now)) }
    ensures { IfOk result (λ p. row_of None bytes.now ≡ Ok (p.0, p.1.now)) }
{
    let Ok((height, rest)) = read_long(bytes) else {
        unreachable!()
    };
    let (state, rest) = own_state(alloc, rest)?;
    Ok((RowOut { height, state }, rest))
}

pub(crate) fn own_rows(alloc: Global, rows: &RowViews<'_>) -> Result<Vec<RowOut>, AllocError>
    ensures { IfOk result (λ owned. owned.items ≡ rows_left rows.now) }
{
    let mut owned = Vec::with_capacity(alloc, rows.left as usize)?;
    let mut left = rows.left;
    let mut rest = rows.bytes;
    while left > 0 {
        let (row, behind) = own_row(alloc, rest)?;
        owned.push(row)?;
        left -= 1;
        rest = behind;
    }
    Ok(owned)
}

pub(crate) fn own_states(alloc: Global, known: &StateViews<'_>) -> Result<Vec<State>, AllocError>
    ensures { IfOk result (λ owned. owned.items ≡ states_left known.now) }
{
    let mut owned = Vec::with_capacity(alloc, known.left as usize)?;
    let mut left = known.left;
    let mut rest = known.bytes;
    while left > 0 {
        let (state, behind) = own_state(alloc, rest)?;
        owned.push(state)?;
        left -= 1;
        rest = behind;
    }
    Ok(owned)
}

pub(crate) fn own_text_if_there(
    alloc: Global,
    text: Option<&str>,
) -> Result<Option<RxText>, AllocError>
    ensures { IfOk result (λ owned. owned ≡ option_map (λ t. t.now) text.entry) }
{
    match text {
        Some(text) => Ok(Some(RxText::new(alloc, text)?)),
        None => Ok(None),
    }
}

pub(crate) fn own_place_if_there(
    alloc: Global,
    place: &Option<PlaceView<'_>>,
) -> Result<Option<Place>, AllocError>
    ensures { IfOk result (λ owned. owned ≡ option_map place_in place.now) }
{
    match place {
        Some(place) => Ok(Some(place.own(alloc)?)),
        None => Ok(None),
    }
}
