ghost use Rattle.std.specs.Prelude.{◌≡◌, ◌↔◌, IsTrue, refl};
ghost use Rattle.std.specs.Cmp.{eq_by_cmp_equiv, partial_equiv_from_equiv, partial_order_from_agreeing_total};
ghost use Rattle.std.specs.Ordering.{as_partial_cmp, eq_by_cmp};
ghost use Rattle.rx_document.specs.Place.{place_cmp, place_total, PlacesAreOrdered, TiesAreOnePlace};

use rx_value::RxText;
use std::cmp::Ordering;

/// Where a document stands in the order of writing: by last write time, and then by the bytes of
/// the key.
#[derive(Debug, Drop)]
pub struct Place {
    pub lwt: u64,
    pub id: RxText,
}

impl PartialEq for Place {
    ghost eq = { eq_by_cmp place_cmp };

    ghost laws = { partial_equiv_from_equiv (eq_by_cmp_equiv place_total) };

    fn eq(&self, other: &Place) -> bool
        ensures value { result ≡ eq_by_cmp place_cmp self.now other.now }
        ensures exact { IsTrue result ↔ (self.now ≡ other.now) }
    {
        self.cmp(other).is_eq()
    }
}

impl Eq for Place {
    ghost laws = { eq_by_cmp_equiv place_total };
}

impl PartialOrd for Place {
    ghost partial_cmp = { as_partial_cmp place_cmp };

    ghost laws = { partial_order_from_agreeing_total place_cmp place_total (λ x y. refl)
        (λ x y. refl) };

    fn partial_cmp(&self, other: &Place) -> Option<Ordering> {
        Some(self.cmp(other))
    }
}

impl Ord for Place {
    ghost cmp = { place_cmp };

    ghost total = { place_total };

    ghost matches_partial_cmp = { λ x y. refl };

    ghost matches_eq = { λ x y. refl };

    fn cmp(&self, other: &Place) -> Ordering {
        self.lwt
            .cmp(&other.lwt)
            .then(self.id.as_str().cmp(&other.id.as_str()))
    }
}

/// States the laws of the order of places for those who sort by it, and does nothing.
pub fn place_laws()
    ensures total { PlacesAreOrdered }
    ensures ties { TiesAreOnePlace }
{}
