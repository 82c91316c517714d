ghost use Rattle.std.specs.Prelude.{◌≡◌, length, option_map};
ghost use Rattle.std.specs.Iterator.{at_most};
ghost use Rattle.std.specs.Map.Iter.{TakesFirst, deref};
ghost use Rattle.rx_collection.specs.Lawful.{IsLawful};
ghost use Rattle.rx_collection.specs.Since.{since};

use crate::collection::Collection;
use crate::log::{is_up_to, next_standing};
use rx_document::{Place, Stored};
use rx_runs::Slots;
use std::marker::Model;

/// Documents above a place, by rising place, lent.
#[derive(Drop)]
pub struct Page<'a> {
    log: &'a [(u64, u32)],
    left: usize,
    rows: &'a Slots<Stored>,
}

impl<'a> Model for Page<'a> {
    ghost use Rattle.std.specs.Prelude.{List, take};
    ghost use Rattle.rx_document.specs.declared.stored.Stored.{Stored};
    ghost use Rattle.rx_collection.specs.Log.{written};

    ghost Value = { List Stored };

    ghost view = { λ p. take p.left (written p.rows.now p.log.now) };
}

impl Collection {
    /// The first `n` documents above the place, by rising place. Where none is given, any document
    /// is above it.
    pub fn page(&self, place: Option<&Place>, n: usize) -> Page<'_>
        ensures documents { result
            ≡ since self.now.documents (option_map (λ p. p.now) place.entry) n }
        ensures lawful { IsLawful self.now }
    {
        let rows = &self.rows;
        let log = self.log.as_slice();
        match place {
            None => Page { log, left: n, rows },
            Some(place) => {
                let from = log.partition_point(|write| is_up_to(rows, write.0, write.1, place));
                let (_, log) = log.split_at(from);
                Page { log, left: n, rows }
            }
        }
    }
}

impl<'a> Iterator for Page<'a> {
    type Item = &'a Stored;

    ghost next_gives = { TakesFirst deref };

    ghost remaining = { λ s. at_most (length s) };

    fn next(&mut self) -> Option<&'a Stored> {
        if self.left == 0 {
            return None;
        }
        let (found, log) = next_standing(self.rows, self.log);
        self.log = log;
        self.left -= 1;
        found
    }
}
