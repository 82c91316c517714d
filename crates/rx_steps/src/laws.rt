ghost use Rattle.rx_steps.specs.Exchanging.{ExchangesAreSteps, TurnsAreSteps};
ghost use Rattle.rx_steps.specs.History.{HistoriesAreSteps};
ghost use Rattle.rx_steps.specs.Numbers.{FewRequestsHaveNumbers, LinesAskNoMore, ScriptsAskNoMore};
ghost use Rattle.rx_steps.specs.Records.{RecordsAreSteps, ReplicationsBegin};
ghost use Rattle.rx_steps.specs.Scripts.{LinesAreEvents, LinesKeepSound, OpeningsAreEvents, ScriptsAreHistories, SoundLinesMayBePlayed, SoundScriptsAreHistories};
ghost use Rattle.rx_steps.specs.Served.{AnswersAreSteps, ConnectionsAreSteps, HandlingsAreSteps};

/// States that whatever happens in a journal between a fork and a master of it is a list of the
/// steps over which every interleaving was proved, and does nothing.
pub fn step_laws()
    // An exchange, whatever the link does: the request made, an earlier one handled, this one
    // handled, its reply taken. Where a commit finds no write time the front of these.
    ensures exchanges { ExchangesAreSteps }
    // A turn.
    ensures turns { TurnsAreSteps }
    // Each record beside its exchanges is a commit of the fork or of the master, a restart, a
    // migration, or no step.
    ensures records { RecordsAreSteps }
    // The record of a replication leaves the start, in which nothing is known.
    ensures begin { ReplicationsBegin }
    // So each history of a replication, of such records and of its turns, is the list of their
    // steps from there on, and all that holds over every interleaving holds behind each of them.
    ensures histories { HistoriesAreSteps }
{}

/// States that whoever hands the master a request that may still be handled takes the step
/// `Handle`, at any time and any number of times, over a link or over a wire, and does nothing.
pub fn handling_laws()
    // What an answer gives at a moment is the reply of that step, and what it leaves the master
    // behind it; where no write time is left the step changes nothing.
    ensures answers { AnswersAreSteps }
    // So is all that a connection is served: its bytes are the replies of the steps, in order.
    ensures connections { ConnectionsAreSteps }
    // And what a master of the same journal does: the world behind its records shows the system
    // behind the step.
    ensures handlings { HandlingsAreSteps }
{}

/// States that the lines of a script are events of a history, and does nothing. A turn of a
/// replication is one, alone or in a sweep, and of all else that is written each record is one.
pub fn script_laws()
    // They may happen, and lead to how things stand behind the line, where what it comes to may be
    // done, and it delivers nothing to the fork of the replication.
    ensures lines { LinesAreEvents }
    // In a sound world a turn, a call and a sweep may be made, where their requests have numbers.
    ensures may { SoundLinesMayBePlayed }
    // The opening of a journal is the record of its next epoch.
    ensures openings { OpeningsAreEvents }
    // So each script that goes on where a history ended is a history, and all that holds over every
    // interleaving holds behind each of its steps.
    ensures scripts { ScriptsAreHistories }
    // So is one that begins in a sound world and whose lines are in order, as each of them leaves a
    // sound world.
    ensures keep { LinesKeepSound }
    ensures sound { SoundScriptsAreHistories }
{}

/// States how far the numbers of requests go over the lines of a script, and does nothing.
pub fn number_laws()
    // A line raises the number of a replication's last request by no more than its turns may ask.
    ensures lines { LinesAskNoMore }
    // Nor do lines together.
    ensures scripts { ScriptsAskNoMore }
    // Where all that fits below 2^53 no number comes twice: lines that a session plays, and that
    // deliver nothing to the fork, are in order for the replication.
    ensures few { FewRequestsHaveNumbers }
{}
