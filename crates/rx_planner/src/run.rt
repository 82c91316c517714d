ghost use Rattle.std.specs.Prelude.{◌≡◌, ◌<◌, ◌≤◌, true, false, length, map, drop, slice_get, IfOk, IfSome};
ghost use Rattle.std.specs.List.Sorted.{IsStrictlySortedBy};
ghost use Rattle.std.specs.Map.{values_of};
ghost use Rattle.rx_index.specs.Index.{HoldsWhere, is_between, ids_between};
ghost use Rattle.rx_index.specs.Position.{position_cmp};
ghost use Rattle.rx_query.specs.QuerySpec.{asked};
ghost use Rattle.rx_query.specs.Result.{IsCollection, result_of};
ghost use Rattle.rx_planner.specs.Plan.{IsPlan};
ghost use Rattle.rx_planner.specs.Rows.{most_rows};

use crate::one::run_at;
use crate::path::operand;
use crate::planned::Plan;
use crate::rows::{first_due, improve, put_in_order};
use rx_document::{Lookup, Stored};
use rx_index::{IndexView, Indexes};
use rx_query::Query;
use rx_selector::Compare;
use std::alloc::{AllocError, Global};

impl Plan {
    /// The query's result over these documents, lent. Of its index it looks at what stands between
    /// its bounds alone, and a document whose primary key is asked for is looked up at once.
    pub fn run<'a, T: Lookup>(
        &self,
        alloc: Global,
        query: &Query,
        indexes: &Indexes<'_>,
        docs: &'a T,
    ) -> Result<Vec<&'a Stored>, AllocError>
        requires planned { IsPlan (asked query.now) (map (λ i. i.fields) indexes.now) self.now }
        requires keyed { IsCollection (asked query.now).primary (T.documents docs.now) }
        requires held { IfSome (slice_get indexes.now self.now.index)
            (λ i. HoldsWhere (is_between self.now.low self.now.high) i (T.documents docs.now)) }
        ensures { IfOk result (λ rows. map (λ r. r.now) rows.items
            ≡ result_of (asked query.now) (values_of (T.documents docs.now))) }
    {
        if let Some(id) = operand(query, query.primary(), Compare::Eq) {
            return run_at(alloc, query, docs, id);
        }
        let index = indexes.at(self.index);
        if self.is_skipped(query, &index) {
            return Ok(Vec::new(alloc));
        }
        let mut ids = index.range(&self.low, &self.high);
        let mut rows = first_due(alloc, query, docs, &mut ids, most_rows(query))?;
        if are_skipped(query, rows.len()) {
            return Ok(Vec::new(alloc));
        }
        if !self.ordered {
            put_in_order(query, &mut rows);
            improve(alloc, query, docs, ids, &mut rows)?;
        }
        skip_rows(&mut rows, query.skip() as usize);
        Ok(rows)
    }

    // Whether all documents between its bounds are left out.
    fn is_skipped(&self, query: &Query, index: &IndexView<'_>) -> bool
        ensures few { result ≡ true
            → length (ids_between self.now.low self.now.high index.now.keys)
            ≤ (asked query.now).skip }
        ensures rising { result ≡ true → IsStrictlySortedBy position_cmp index.now.keys }
    {
        if query.skip() == 0 {
            return false;
        }
        are_skipped(query, index.range(&self.low, &self.high).len())
    }
}

// How many rows are skipped or left at most.
pub(crate) fn most_rows(query: &Query) -> Option<u128>
    ensures { result ≡ most_rows (asked query.now) }
{
    match query.limit() {
        Some(limit) => Some(query.skip() as u128 + limit as u128),
        None => None,
    }
}

// Whether so many rows are left out, so that they needn't be put in order.
fn are_skipped(query: &Query, len: usize) -> bool
    ensures skipped { result ≡ true → len ≤ (asked query.now).skip }
    ensures others { result ≡ false → (asked query.now).skip < len }
{
    len as u64 <= query.skip()
}

pub(crate) fn skip_rows<T: Drop>(rows: &mut Vec<T>, skip: usize)
    ensures { rows.new.items ≡ drop skip rows.old.items }
{
    if rows.len() <= skip {
        rows.clear();
    } else {
        rows.rotate_left(skip);
        rows.truncate(rows.len() - skip);
    }
}
