ghost use Rattle.rx_actions.specs.Right.{TableIsRight, OnlyMatchingAreRows};

/// States that the decision table is right for those who act by it, and does nothing.
pub fn table_laws()
    ensures right { TableIsRight }
    ensures matching { OnlyMatchingAreRows }
{}
