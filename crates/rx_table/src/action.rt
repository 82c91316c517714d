/// What to do with a query's rows after a change of one document. A row is taken out before one is
/// put in, and what is put in is the document as it is after the change.
#[derive(Clone, Copy, Debug, PartialEq, Eq)]
pub enum Action {
    /// Leaves the rows as they are.
    DoNothing,
    /// Puts the document in front of all rows.
    InsertFirst,
    /// Puts the document behind all rows.
    InsertLast,
    /// Takes out the first row.
    RemoveFirstItem,
    /// Takes out the last row.
    RemoveLastItem,
    /// Takes out the first row, and puts the document behind the others.
    RemoveFirstInsertLast,
    /// Takes out the last row, and puts the document in front of the others.
    RemoveLastInsertFirst,
    /// Takes out the first row, and puts the document in front of the others.
    RemoveFirstInsertFirst,
    /// Takes out the last row, and puts the document behind the others.
    RemoveLastInsertLast,
    /// Takes out the row with the document's id.
    RemoveExisting,
    /// Puts the document in the place of the row with its id.
    ReplaceExisting,
    /// Puts the document in front of the first row that it precedes, or behind all rows.
    InsertAtSortPosition,
    /// Takes out the row with the document's id, and puts the document where it belongs by order.
    RemoveExistingAndInsertAtSortPosition,
    /// Runs the query over all documents again, since the answers don't tell its rows.
    RunFullQueryAgain,
    /// Takes out the last row, and puts the document in front of the first row left that it
    /// precedes, or behind all that are left.
    InsertAtSortPositionRemoveLast,
}
