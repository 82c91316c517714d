ghost use Rattle.std.specs.Prelude.{◌≡◌, ◌<◌, ◌^◌, length, map, slice_get, IfOk, IfSome};
ghost use Rattle.std.specs.Map.{values_of};
ghost use Rattle.rx_index.specs.Index.{HoldsWhere, is_between, ids_between};
ghost use Rattle.rx_query.specs.QuerySpec.{asked};
ghost use Rattle.rx_query.specs.Result.{IsCollection, result_of};
ghost use Rattle.rx_planner.specs.Count.{in_window};
ghost use Rattle.rx_planner.specs.Plan.{IsPlan};
ghost use Rattle.rx_planner.specs.Rows.{due_among};

use crate::closed::closed;
use crate::exact::is_exact;
use crate::path::path;
use crate::planned::Plan;
use crate::rows::due;
use rx_document::Lookup;
use rx_index::{Indexes, Range};
use rx_query::Query;
use std::alloc::{AllocError, Global};

impl Plan {
    /// How many rows the query's result has over these documents. Nothing is put in order, and no
    /// document is looked at where the bounds say all that the selector does.
    pub fn count<T: Lookup>(
        &self,
        alloc: Global,
        query: &Query,
        indexes: &Indexes<'_>,
        docs: &T,
    ) -> Result<u64, AllocError>
        requires planned { IsPlan (asked query.now) (map (λ i. i.fields) indexes.now) self.now }
        requires keyed { IsCollection (asked query.now).primary (T.documents docs.now) }
        requires held { IfSome (slice_get indexes.now self.now.index)
            (λ i. HoldsWhere (is_between self.now.low self.now.high) i (T.documents docs.now)) }
        ensures { IfOk result (λ n. n
            ≡ length (result_of (asked query.now) (values_of (T.documents docs.now)))) }
    {
        let index = indexes.at(self.index);
        let path = path(alloc, query, index.fields())?;
        let path = path.as_slice();
        let low = closed(alloc, query, path, false)?;
        let high = closed(alloc, query, path, true)?;
        let ids = index.range(&low, &high);
        let due = if is_exact(query, path) {
            ids.len()
        } else {
            count_due(alloc, query, docs, ids)?
        };
        Ok(in_window(query, due))
    }

    /// How many keys of its index stand between its bounds.
    pub fn span(&self, indexes: &Indexes<'_>) -> usize
        requires { self.now.index < length indexes.now }
        ensures keys { IfSome (slice_get indexes.now self.now.index)
            (λ i. result ≡ length (ids_between self.now.low self.now.high i.keys)) }
        ensures fits { result < 2 ^ 63 }
    {
        indexes.at(self.index).range(&self.low, &self.high).len()
    }
}

// How many of the documents are due.
fn count_due<T: Lookup>(
    alloc: Global,
    query: &Query,
    docs: &T,
    ids: Range<'_>,
) -> Result<usize, AllocError>
    requires { length ids < 2 ^ 63 }
    ensures { IfOk result
        (λ n. n ≡ length (due_among (asked query.now) (T.documents docs.now) ids.entry)) }
{
    let mut count = 0;
    for entry in ids {
        if due(alloc, query, docs, &entry)?.is_some() {
            count += 1;
        }
    }
    Ok(count)
}

/// Of so many due documents those that the window takes in.
pub fn in_window(query: &Query, due: usize) -> u64
    ensures { result ≡ in_window (asked query.now) due }
{
    let left = (due as u64).saturating_sub(query.skip());
    match query.limit() {
        Some(limit) => limit.min(left),
        None => left,
    }
}
