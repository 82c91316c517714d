ghost use Rattle.rx_fork.specs.Valid.{ResolvesValid, ResolvesKeys};

/// States what holds of what a handler of any kind makes of two states of one key, and does
/// nothing.
pub fn resolved_state_laws()
    ensures key { ResolvesKeys }
    ensures valid { ResolvesValid }
{}
