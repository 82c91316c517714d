ghost use Rattle.std.specs.Prelude.{◌≡◌, ◌+◌, ◌*◌, ◌≤◌, ◌&&◌, ◌||◌, length, map, drop, nat_le};
ghost use Rattle.std.specs.Prelude.{slice_get, IfOk, IfSome, IsSome};
ghost use Rattle.std.specs.List.{AllByRecursion};
ghost use Rattle.std.specs.Map.{values_of};
ghost use Rattle.rx_index.specs.Index.{Holds, ids_between};
ghost use Rattle.rx_query.specs.QuerySpec.{asked};
ghost use Rattle.rx_query.specs.Result.{IsCollection, result_of};
ghost use Rattle.rx_planner.specs.Plan.{is_fixed, IsPlan};
ghost use Rattle.rx_planner.specs.Way.{IsWithinWalk};

use crate::path::is_fixed;
use crate::planned::Plan;
use crate::run::{most_rows, skip_rows};
use crate::walk::{Walked, walk_along};
use crate::way::best_way;
use rx_document::{Lookup, Stored};
use rx_index::Indexes;
use rx_query::Query;
use std::alloc::{AllocError, Global};

// So many rows are sorted sooner than an index is found that has them in order.
const FEW: usize = 32;

/// The rows of a query, and how many documents were looked at to find them.
#[derive(Drop)]
pub struct Found<'a> {
    pub rows: Vec<&'a Stored>,
    pub looked: usize,
}

impl Plan {
    /// The query's result over these documents, lent. Where its rows are limited an index is walked
    /// in the order of the sort, unless that looks at more documents than stand between the bounds
    /// of the plan.
    pub fn find<'a, T: Lookup>(
        &self,
        alloc: Global,
        query: &Query,
        indexes: &Indexes<'_>,
        docs: &'a T,
    ) -> Result<Found<'a>, AllocError>
        requires planned { IsPlan (asked query.now) (map (λ i. i.fields) indexes.now) self.now }
        requires keyed { IsCollection (asked query.now).primary (T.documents docs.now) }
        requires held { AllByRecursion (λ i. Holds i (T.documents docs.now)) indexes.now }
        ensures rows { IfOk result (λ found. map (λ r. r.now) found.rows.items
            ≡ result_of (asked query.now) (values_of (T.documents docs.now))) }
        ensures cost { IfOk result (λ found. IfSome (slice_get indexes.now self.now.index)
            (λ i. found.looked ≤ 2 * length (ids_between self.now.low self.now.high i.keys))) }
        ensures walk { IfOk result (λ found. IsWithinWalk (asked query.now)
            (T.documents docs.now) indexes.now self.now.ordered found.looked) }
    {
        let span = self.span(indexes);
        let Walked { rows, looked } = self.walked(alloc, query, indexes, docs, span)?;
        let Some(mut rows) = rows else {
            return Ok(Found {
                rows: self.run(alloc, query, indexes, docs)?,
                looked: looked + span,
            });
        };
        skip_rows(&mut rows, query.skip() as usize);
        Ok(Found { rows, looked })
    }

    // The rows of a walk and those that are skipped, if it found them within so many documents.
    fn walked<'a, T: Lookup>(
        &self,
        alloc: Global,
        query: &Query,
        indexes: &Indexes<'_>,
        docs: &'a T,
        span: usize,
    ) -> Result<Walked<'a>, AllocError>
        requires keyed { IsCollection (asked query.now).primary (T.documents docs.now) }
        requires held { AllByRecursion (λ i. Holds i (T.documents docs.now)) indexes.now }
        ensures rows { IfOk result (λ walked. IfSome walked.rows
            (λ rows. drop (asked query.now).skip (map (λ r. r.now) rows.items)
            ≡ result_of (asked query.now) (values_of (T.documents docs.now)))) }
        ensures looked { IfOk result (λ walked. walked.looked ≤ span) }
        ensures cost { IfOk result (λ walked. IsSome walked.rows → IsWithinWalk (asked query.now)
            (T.documents docs.now) indexes.now self.now.ordered walked.looked) }
        ensures given_up { IfOk result (λ walked. walked.rows ≡ None → IsWithinWalk
            (asked query.now) (T.documents docs.now) indexes.now self.now.ordered
            (walked.looked + span)) }
    {
        let Some(most) = most_rows(query) else {
            return Ok(unwalked());
        };
        if self.is_better(query, span, most) {
            return Ok(unwalked());
        }
        let Some(way) = best_way(alloc, query, indexes)? else {
            return Ok(unwalked());
        };
        // No walk looks at less then, and one along so many keys may be given up.
        if span as u128 <= most && span < way.keys {
            return Ok(unwalked());
        }
        let index = indexes.at(way.index);
        walk_along(alloc, query, &index, docs, way.names.as_slice(), most, span)
    }

    // Whether no walk is cheaper than the plan's run.
    fn is_better(&self, query: &Query, span: usize, most: u128) -> bool
        ensures { result ≡ (self.now.ordered
            || nat_le span most && (nat_le span FEW || nat_le span (asked query.now).skip)
            || is_fixed (asked query.now) (asked query.now).primary) }
    {
        self.ordered
            || (span as u128 <= most && (span <= FEW || span as u64 <= query.skip()))
            || is_fixed(query, query.primary())
    }
}

fn unwalked<'a>() -> Walked<'a>
    ensures rows { result.rows ≡ None }
    ensures looked { result.looked ≡ 0 }
{
    Walked {
        rows: None,
        looked: 0,
    }
}
