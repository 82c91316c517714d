ghost use Rattle.rx_sync.specs.AnyReply.{ChangesNothingElse, EveryTaking, LosesNoUpdate, LowersNoCheckpoint, MayBeKept, StaysForkSound, StaysMade, StaysSoundAtPort, StaysValid};
ghost use Rattle.rx_sync.specs.Bound.{EachLowersLeft, EndsInTime, EveryOkTurn, PushesAtMostTwice, TurnsEndInTime};
ghost use Rattle.rx_sync.specs.Delivery.{EveryDelivery, IsDeliverySound, LevelIsEqual, MayDeliverAgain, WaitsForPushes};
ghost use Rattle.rx_sync.specs.RemoteLaws.{EachIsUnharmed, EveryCall, IsCallSound, MayCallAgain};
ghost use Rattle.rx_sync.specs.Sweep.{QuietSweepIsEqual, SweepEndsInTime};
ghost use Rattle.rx_sync.specs.MessageLaws.{AnswersItsFork, AnswersLawfully, AsksLawfully};
ghost use Rattle.rx_sync.specs.Laws.{EveryTurn, IsTurnSound, MayTurnAgain, QuietIsLevel, RefusedByTheClockAlone, TwiceIsOnce};
ghost use Rattle.rx_sync.specs.Updates.{EachKeepsUpdates, SweepsKeepUpdates};

/// States that what the two ends send each other is lawful, so that each may write it and the other
/// reads it back, and does nothing.
pub fn message_laws()
    // What a fork asks is a lawful request of its schema.
    ensures asks { AsksLawfully }
    // What a collection answers to a lawful request of its schema is a lawful reply of that schema.
    ensures answers { AnswersLawfully }
    // So what the master of a replication answers its fork is a lawful reply of the fork's schema.
    ensures answers_fork { AnswersItsFork }
{}

/// States what holds of every turn of every replication that may make one, whatever its link does,
/// and does nothing.
pub fn turn_laws()
    // Each of its records may come where it comes, and leaves a sound world.
    ensures sound { EveryTurn IsTurnSound }
    // Another turn may follow: what is remembered stays lawful.
    ensures again { EveryTurn MayTurnAgain }
    // Quiet means equal.
    ensures quiet { EveryTurn QuietIsLevel }
    // In none of its exchanges a document that is to be pushed changes but by the handler's answer
    // on its conflict in the reply that is taken, and where none is taken the fork stays as it is.
    ensures no_lost_update { EveryTurn EachKeepsUpdates }
    // A request that comes twice does what it does once.
    ensures twice { TwiceIsOnce }
    // A reply of the master is refused only where no write time is left.
    ensures clock { RefusedByTheClockAlone }
{}

/// States how many exchanges are enough where the link does nothing to them, for every handler, and
/// does nothing. An exchange that finds no write time ends its turn, and isn't counted.
pub fn bound_laws()
    // An exchange lowers the pushes left by the documents that it pushes at least. A pull, which
    // pushes none, doesn't raise them.
    ensures lowered { EveryOkTurn EachLowersLeft }
    // A turn pushes what is pending before it at most twice, and nothing else.
    ensures twice { EveryOkTurn PushesAtMostTwice }
    // For P pending documents and K keys a budget of 2 P + K + 1 is enough to end quiet, unless a
    // commit finds no write time.
    ensures in_time { EveryOkTurn EndsInTime }
    // So many exchanges are also enough for turns that follow each other, with P and K from before
    // the first, up to and with the first that is quiet or finds no write time.
    ensures in_time_over_turns { TurnsEndInTime }
{}

/// States what a fork keeps whatever it is answered, where a taking is due and the states of the
/// reply are valid, and does nothing. Nothing is asked of the master, which may be elsewhere.
pub fn any_reply_laws()
    // The records may come where they come.
    ensures may_come { EveryTaking MayBeKept }
    ensures no_checkpoint_falls { EveryTaking LowersNoCheckpoint }
    // What the fork holds and knows is valid.
    ensures valid { EveryTaking StaysValid }
    ensures sound_without_the_master { EveryTaking StaysForkSound }
    // A document that is to be pushed changes only by the handler's answer on its conflict.
    ensures no_lost_update { EveryTaking LosesNoUpdate }
    ensures nothing_else { EveryTaking ChangesNothingElse }
    // So another reply may be taken: the world is one that records made, and where the master is
    // elsewhere it stays sound.
    ensures made { EveryTaking StaysMade }
    ensures sound_at_port { EveryTaking StaysSoundAtPort }
{}

/// States what holds of every turn to a master that is elsewhere, whatever is heard of it, and does
/// nothing.
pub fn remote_turn_laws()
    // Each of its records may come where it comes, and leaves a sound world.
    ensures sound { EveryCall IsCallSound }
    // Another turn may follow: what is remembered stays lawful.
    ensures again { EveryCall MayCallAgain }
    // No master, whatever it sends, harms the fork.
    ensures unharmed { EveryCall EachIsUnharmed }
{}

/// States what holds of every delivery of good events to a fork whose master is of the same
/// journal, whatever the link does, and does nothing.
pub fn delivery_laws()
    // Each of its records may come where it comes, and leaves a sound world.
    ensures sound { EveryDelivery IsDeliverySound }
    // A fork that has something to push is left as it is.
    ensures untouched { EveryDelivery WaitsForPushes }
    // Another delivery may follow: the events that are kept stay good.
    ensures again { EveryDelivery MayDeliverAgain }
    // Level means equal.
    ensures level { LevelIsEqual }
{}

/// States what holds of every sweep over a tree of one journal, whatever its handlers answer, and
/// does nothing.
pub fn sweep_laws()
    // Where it ends quiet, each collection of the tree has the same state as its root at each key.
    ensures quiet { QuietSweepIsEqual }
    // Nor does an exchange of one of its turns lose an update.
    ensures no_lost_update { SweepsKeepUpdates }
    // For K keys in the tree, turns of 3 K + 1 exchanges are enough to end quiet, unless a commit
    // finds no write time.
    ensures in_time { SweepEndsInTime }
{}
