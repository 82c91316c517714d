ghost use Rattle.std.specs.Prelude.{◌≡◌, option_map};
ghost use Rattle.rx_collection.specs.Since.{since};

use rx_collection::{Collection, Page};
use rx_document::Place;

/// The first `n` documents above the place, by rising place, lent. Where none is given, any
/// document is above it.
pub fn since<'a>(collection: &'a Collection, place: Option<&Place>, n: usize) -> Page<'a>
    ensures { result ≡ since collection.now.documents (option_map (λ p. p.now) place.entry) n }
{
    collection.page(place, n)
}
