ghost use Rattle.std.specs.Prelude.{◌≡◌, map, IfOk, option_map};
ghost use Rattle.std.specs.List.{IsDistinct};
ghost use Rattle.std.specs.Map.{values_of};
ghost use Rattle.std.specs.Str.{bytes_eq};
ghost use Rattle.rx_collection.specs.Commit.{by_key};

use rx_document::Place;
use rx_value::{RxList, State};
use std::alloc::{AllocError, Global};

pub(crate) fn copy_of_place(
    alloc: Global,
    place: Option<&Place>,
) -> Result<Option<Place>, AllocError>
    ensures { IfOk result (λ p. p ≡ option_map (λ p. p.now) place.entry) }
{
    match place {
        Some(place) => Ok(Some(Place {
            lwt: place.lwt,
            id: place.id.copy(alloc)?,
        })),
        None => Ok(None),
    }
}

// The states by rising key.
pub(crate) fn in_order(alloc: Global, mut states: Vec<State>) -> Result<RxList<State>, AllocError>
    requires { IsDistinct bytes_eq (map (λ s. s.key) states.items) }
    ensures { IfOk result (λ list. list ≡ values_of (by_key states.items)) }
{
    states.sort_unstable_by(|a, b| a.key.as_str().cmp(&b.key.as_str()));
    let mut list = RxList::new(alloc);
    for state in states {
        list.push(state)?;
    }
    Ok(list)
}
