ghost use Rattle.std.specs.Prelude.{◌≡◌, option_map};
ghost use Rattle.rx_record.specs.Reading.{Reads};
ghost use Rattle.rx_record.specs.Parts.{option_of};
ghost use Rattle.rx_record.specs.Places.{time_of, read_place, place_in};

use crate::reading::{Read, read_flag, read_long, read_text};
use rx_document::Place;
use rx_value::{LARGEST, RxText};
use std::alloc::{AllocError, Global};

/// A place, its key lent from the bytes of a record.
#[derive(Clone, Copy, Debug)]
pub struct PlaceView<'a> {
    /// From 1 to 2^53 - 1 where it was read.
    pub lwt: u64,
    pub id: &'a str,
}

impl<'a> PlaceView<'a> {
    ghost use Rattle.std.specs.Prelude.{IfOk};

    /// The place in memory of its own.
    pub fn own(&self, alloc: Global) -> Result<Place, AllocError>
        ensures { IfOk result (λ place. place ≡ place_in self.now) }
    {
        Ok(Place {
            lwt: self.lwt,
            id: RxText::new(alloc, self.id)?,
        })
    }
}

// A write time of a document.
fn read_time(bytes: &[u8]) -> Read<'_, u64>
    ensures { Reads (λ n. n) result (time_of bytes.now) }
{
    let (lwt, rest) = read_long(bytes)?;
    if lwt > 0 && lwt <= LARGEST as u64 {
        Ok((lwt, rest))
    } else {
        Err(bytes.len())
    }
}

fn read_place(bytes: &[u8]) -> Read<'_, PlaceView<'_>>
    ensures { Reads place_in result (read_place bytes.now) }
{
    let (lwt, rest) = read_time(bytes)?;
    let (id, rest) = read_text(rest)?;
    Ok((PlaceView { lwt, id }, rest))
}

// A place, if there is one.
pub(crate) fn read_place_if_there(bytes: &[u8]) -> Read<'_, Option<PlaceView<'_>>>
    ensures { Reads (option_map place_in) result (option_of read_place bytes.now) }
{
    let (there, rest) = read_flag(bytes)?;
    if !there {
        return Ok((None, rest));
    }
    let (place, rest) = read_place(rest)?;
    Ok((Some(place), rest))
}
