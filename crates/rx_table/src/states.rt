ghost use Rattle.std.specs.Prelude.{◌≡◌};
ghost use Rattle.rx_table.specs.States.{holds as holds_in};

/// A question about a query, a change of one document, and the query's rows before the change, the
/// old rows. The questions are numbered from 0 in this order.
///
/// A document whose old form isn't known counts as not live before. Where there are no old rows, a
/// question about the first or the last one is answered no. Rows stand before and after a form of
/// the document in the query's order.
#[derive(Clone, Copy, Debug, PartialEq, Eq)]
pub enum StateName {
    /// The document is live now and wasn't before.
    IsInsert,
    /// The document was live before and still is.
    IsUpdate,
    /// The document was live before and no longer is.
    IsDelete,
    /// The query has a limit to the count of its rows.
    HasLimit,
    /// The query's limit is one row.
    IsFindOne,
    /// The query leaves out rows at the front.
    HasSkip,
    /// There are no old rows.
    WasResultsEmpty,
    /// The document's old form isn't known.
    PreviousUnknown,
    /// The query has a limit, and the old rows are at least as many.
    WasLimitReached,
    /// The document is live now, and wasn't before or differs in a field that the query sorts by.
    SortParamsChanged,
    /// One of the old rows has the document's id.
    WasInResult,
    /// The first old row has the document's id.
    WasFirst,
    /// The last old row has the document's id.
    WasLast,
    /// The document was live before, and the first old row has its id or stands after its old form.
    WasSortedBeforeFirst,
    /// The document was live before, and the last old row has its id or stands before its old form.
    WasSortedAfterLast,
    /// The document is live now, and the first old row has its id or stands after its new form.
    IsSortedBeforeFirst,
    /// The document is live now, and the last old row has its id or stands before its new form.
    IsSortedAfterLast,
    /// The document was live before, and the query selected its old form.
    WasMatching,
    /// The document is live now, and the query selects its new form.
    DoesMatchNow,
}

/// How a question is answered by these bits.
pub fn holds(bits: u32, state: StateName) -> bool
    ensures { result ≡ holds_in bits state }
{
    bits >> (state as u32) & 1 == 1
}
