ghost use Rattle.rx_observe.specs.Laws.{RowsAreFromScratch, FreshRowsAreReady};

/// States that what is found and the rows of observed queries are those of the query's one result,
/// and that such rows are what a change asks for, for those who build on them, and does nothing.
pub fn observed_laws()
    ensures from_scratch { RowsAreFromScratch }
    ensures ready { FreshRowsAreReady }
{}
