ghost use Rattle.rx_replication.specs.Interleaving.{Always};
ghost use Rattle.rx_sync.specs.Laws.{EveryTurn};
ghost use Rattle.rx_sync.specs.RemoteLaws.{EveryCall};
ghost use Rattle.rx_steps.specs.Clock.{CallEndsByClockAlone, EndsByClockAlone};
ghost use Rattle.rx_steps.specs.Stale.{EarlierAreStale, OthersAreStale, StaleIsLost, StaleIsNoChange, StaleIsRefused};
ghost use Rattle.rx_steps.specs.Takings.{EveryTakingLearns, ForeignIsRefused, MovedIsRefused};

/// States what a taking learns of a master and which replies are never taken, and does nothing.
pub fn taking_laws()
    // What is known of a master changes only at the keys of the answer: those of the pushed rows,
    // or those of the page that a pull gave.
    ensures known_only { EveryTakingLearns }
    // A reply of another epoch or another number than the request is never taken.
    ensures foreign { ForeignIsRefused }
    // Nor is one to a fork that was written since the asking.
    ensures moved { MovedIsRefused }
{}

/// States that an earlier reply, which comes in place of another, changes nothing. The call does
/// nothing.
pub fn stale_laws()
    // Its numbers are not those of the request that waits.
    ensures others { OthersAreStale }
    ensures earlier { Always EarlierAreStale }
    // So it leaves the system as it is, and a fork refuses it.
    ensures no_change { StaleIsNoChange }
    ensures refused { StaleIsRefused }
    // An exchange to which one comes is an exchange whose reply is lost.
    ensures lost { Always StaleIsLost }
{}

/// States what holds of every exchange of every turn, whatever its link does, and does nothing.
pub fn exchange_laws()
    // A turn ends by the clock only where no write time is left to its fork or its master; one to a
    // master elsewhere only where none is left to its fork.
    ensures clock { EveryTurn EndsByClockAlone }
    ensures clock_elsewhere { EveryCall CallEndsByClockAlone }
{}
