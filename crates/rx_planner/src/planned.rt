use rx_index::Bound;

/// By which index a query runs in full, between which of its bounds, and whether its keys have the
/// rows in the query's order.
#[derive(Drop)]
pub struct Plan {
    pub index: usize,
    pub low: Bound,
    pub high: Bound,
    pub ordered: bool,
}
