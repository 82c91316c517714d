// Copies of places.
ghost use Rattle.std.specs.Prelude.{◌≡◌, IfOk, option_map};
ghost use Rattle.rx_collection.specs.Since.{place_of};

use rx_document::{Place, Stored};
use std::alloc::{AllocError, Global};

pub(crate) fn copy_of_place(alloc: Global, place: &Place) -> Result<Place, AllocError>
    ensures { IfOk result (λ p. p ≡ place.now) }
{
    Ok(Place {
        lwt: place.lwt,
        id: place.id.copy(alloc)?,
    })
}

pub(crate) fn copy_if_some(
    alloc: Global,
    place: Option<&Place>,
) -> Result<Option<Place>, AllocError>
    ensures { IfOk result (λ p. p ≡ option_map (λ p. p.now) place.entry) }
{
    match place {
        Some(place) => Ok(Some(copy_of_place(alloc, place)?)),
        None => Ok(None),
    }
}

// Where a document stands.
pub(crate) fn place_of(alloc: Global, held: &Stored) -> Result<Place, AllocError>
    ensures { IfOk result (λ place. place ≡ place_of held.now) }
{
    Ok(Place {
        lwt: held.lwt,
        id: held.state.key.copy(alloc)?,
    })
}
