ghost use Rattle.std.specs.Prelude.{◌≡◌, ◌++◌, IfOk};
ghost use Rattle.rx_record.specs.Content.{known_part, content_bytes, content_of};
ghost use Rattle.rx_record.specs.Writable.{IsOrderedKnown, ShortReadsBack};

use crate::kinds::KNOWN_PART;
use crate::writing::{put_place_if_there, put_states, put_text};
use rx_document::Place;
use rx_value::{RxText, State};
use std::alloc::AllocError;

pub(crate) fn put_known_part(
    out: &mut Vec<u8>,
    name: &RxText,
    known: &[State],
    up: &Option<Place>,
    down: &Option<Place>,
) -> Result<(), AllocError>
    ensures bytes { IfOk result (λ _. out.new.items ≡ out.old.items
        ++ content_bytes (known_part name.now known.now up.now down.now)) }
    ensures back { IsOrderedKnown known.now up.now down.now → IfOk result
        (λ _. ShortReadsBack content_bytes content_of
        (known_part name.now known.now up.now down.now)) }
{
    out.push(KNOWN_PART)?;
    put_text(out, name.as_str())?;
    put_states(out, known)?;
    put_place_if_there(out, up)?;
    put_place_if_there(out, down)
}
