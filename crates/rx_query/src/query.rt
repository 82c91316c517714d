ghost use Rattle.std.specs.Prelude.{◌≡◌, ◌≢◌, ◌<◌, length, slice_get, Some, IfSome};
ghost use Rattle.rx_selector.specs.Holding.{all_hold};
ghost use Rattle.rx_selector.specs.Tree.{selector_clauses};

use crate::comparing::compare;
use rx_selector::Selector;
use rx_value::{Fields, RxText, order};
use std::cmp::Ordering;

/// Which documents are asked for, in which order, and how many.
#[derive(Drop)]
pub struct Query {
    pub(crate) selector: Selector,
    pub(crate) sorts: Vec<(RxText, bool)>,
    pub(crate) skip: u64,
    pub(crate) limit: Option<u64>,
    pub(crate) primary: RxText,
    pub ghost limited: { limit ≢ Some 0 },
}

impl Query {
    ghost use Rattle.rx_query.specs.QuerySpec.{asked, with_limit};
    ghost use Rattle.rx_query.specs.Order.{query_cmp};

    /// How two documents stand in the order of the query.
    #[tactic(auto, using(crate::proofs::Orders::sorts_decide))]
    pub fn before(&self, a: &Fields, b: &Fields) -> Ordering
        ensures { result ≡ query_cmp (asked self.now) a.now b.now }
    {
        let by_sorts = compare(self.sorts.as_slice(), a, b);
        if by_sorts.is_ne() {
            return by_sorts;
        }
        // a sort that holds the primary key ties only where this does
        let key = self.primary.as_str();
        order(a.get(key), b.get(key))
    }

    pub fn matches(&self, fields: &Fields) -> bool
        ensures { result ≡ all_hold (asked self.now).clauses fields.now }
    {
        self.selector.matches(fields)
    }

    pub fn selector(&self) -> &Selector
        ensures { selector_clauses result.now ≡ (asked self.now).clauses }
    {
        &self.selector
    }

    /// How many fields the sort names.
    pub fn sorts(&self) -> usize
        ensures { result ≡ length (asked self.now).sorts }
    {
        self.sorts.len()
    }

    /// The i-th field of the sort, and whether its order is reversed.
    pub fn sort(&self, i: usize) -> (&RxText, bool)
        requires { i < length (asked self.now).sorts }
        ensures { slice_get (asked self.now).sorts i ≡ Some (result.0.now, result.1) }
    {
        let sort = &self.sorts[i];
        (&sort.0, sort.1)
    }

    /// How many rows are left out in front.
    pub fn skip(&self) -> u64
        ensures { result ≡ (asked self.now).skip }
    {
        self.skip
    }

    /// How many rows are left at most, if that is limited.
    pub fn limit(&self) -> Option<u64>
        ensures value { result ≡ (asked self.now).limit }
        ensures some { IfSome result (λ limit. 0 < limit) }
    {
        self.limit
    }

    pub fn set_limit(&mut self, limit: u64)
        requires { 0 < limit }
        ensures { asked self.new ≡ with_limit limit (asked self.old) }
    {
        self.limit = Some(limit);
    }

    pub fn primary(&self) -> &str
        ensures { result.now ≡ (asked self.now).primary }
    {
        self.primary.as_str()
    }
}
