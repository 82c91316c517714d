ghost use Rattle.rx_query.specs.Order.{QueriesOrder, KeysDecide};
ghost use Rattle.rx_query.specs.Result.{ResultsAreDetermined, CollectionsAreKeyed};

/// States the laws of a query's order and of its result for those who build on them, and does
/// nothing.
pub fn query_laws()
    ensures total { QueriesOrder }
    ensures strict { KeysDecide }
    ensures one_result { ResultsAreDetermined }
    ensures keyed { CollectionsAreKeyed }
{}
