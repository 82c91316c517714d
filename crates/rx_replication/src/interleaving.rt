ghost use Rattle.rx_replication.specs.Interleaving.{Always, IsSoundSystem, HasNumbersApart, IsEachAnswered, IsQuietThen, LosesNoUpdate, IsPendingUntilHeld};
ghost use Rattle.rx_replication.specs.Throughout.{HoldsThroughout};

/// States what holds over every list of steps, for every handler, from every fork and master where
/// nothing is known yet, and does nothing. A step is a commit, a request made, any request made
/// since the last migration handled, any reply ever made arriving, each as often as may be, a
/// restart, or a migration.
pub fn every_interleaving()
    // Each moment is sound.
    ensures sound { Always IsSoundSystem }
    // No two requests ever made have one number.
    ensures numbers { Always HasNumbersApart }
    // Each reply to the open request is answered.
    ensures answered { Always IsEachAnswered }
    // A short page that is taken makes the fork's documents those that the master had when the
    // reply was made.
    ensures quiet { Always IsQuietThen }
    // A taking changes no pending document but by the handler's answer on its conflict.
    ensures no_lost_update { Always LosesNoUpdate }
    // What a fork wrote stays pending until the master had it, it was resolved, or a migration made
    // both equal.
    ensures pending_until_held { Always IsPendingUntilHeld }
    // No state is invented: what a handler and each migration keep, as validity, holds of all
    // states always.
    ensures throughout { HoldsThroughout }
{}
