ghost use Rattle.rx_top.specs.Alike.{CopyStarts, PlayAlike};
ghost use Rattle.rx_top.specs.CheckEnds.{ChecksAreComplete};
ghost use Rattle.rx_top.specs.CompactEnds.{CompactsAreComplete};
ghost use Rattle.rx_top.specs.RunEnds.{RunsAreComplete, RunsEndSo};
ghost use Rattle.rx_top.specs.ServeEnds.{ServingEndsSo, ServingHasRoom, ServingIsComplete};
ghost use Rattle.rx_top.specs.Start.{GoesOn, StartsEmpty};
ghost use Rattle.rx_top.specs.TrialEnds.{TrialsAreComplete, TrialsEndSo};
ghost use Rattle.rx_top.specs.TurnLines.{RunTurnsEndInTime, TurnLinesEndInTime};

use rx_disk::Disk;
use rx_outside::{Clock, Dial, Listen, Sink, Source};

/// What the end of a run over a journal tells. The law is the contract; the call does nothing.
pub fn run_ends<S: Source, K: Sink, D: Disk, N: Dial>()
    ensures ends { RunsEndSo S.Source K.Sink D.Disk N.Dial N.W.tells }
    // Where nothing outside fails and all fits, the whole input is played, unless memory is
    // wanting.
    ensures complete { RunsAreComplete S.Source K.Sink D.Disk N.Dial N.W.tells }
{}

/// What the end of a trial over a journal tells.
pub fn trial_ends<K: Sink, D: Disk, N: Dial>()
    ensures ends { TrialsEndSo K.Sink D.Disk N.Dial N.W.tells }
    // Where nothing outside fails and all fits, the whole script is played and summed up, unless
    // memory is wanting.
    ensures complete { TrialsAreComplete K.Sink D.Disk N.Dial N.W.tells }
{}

/// Where nothing outside fails, a check of a legal file reports all of it, unless memory is
/// wanting.
pub fn check_ends<K: Sink, D: Disk>()
    ensures { ChecksAreComplete K.Sink D.Disk }
{}

/// Where nothing outside fails and all fits, the copy of a legal file is made, unless memory is
/// wanting.
pub fn compact_ends<K: Sink, D: Disk, E: Disk>()
    ensures { CompactsAreComplete K.Sink D.Disk E.Disk }
{}

/// What the end of serving tells.
pub fn serve_ends<K: Sink, D: Disk, L: Listen, C: Clock>()
    ensures ends { ServingEndsSo K.Sink D.Disk L.Listen L.W.tells C.Clock }
    ensures complete { ServingIsComplete K.Sink D.Disk L.Listen L.W.tells C.Clock }
    // And where all records fit, it isn't full either.
    ensures room { ServingHasRoom K.Sink D.Disk L.Listen L.W.tells C.Clock }
{}

/// A journal that a run leaves is one that a run may begin with.
pub fn goes_on<D: Disk, E: Disk>()
    ensures { GoesOn D.Disk E.Disk }
{}

/// A disk that holds nothing is a journal without records.
pub fn starts_empty<D: Disk>()
    ensures { StartsEmpty D.Disk }
{}

/// A disk that holds the copy of a journal's world is a journal of that world.
pub fn copy_starts<D: Disk>()
    ensures { CopyStarts D.Disk }
{}

/// Runs over two journals of one world that have the same input, hear the same and are played to
/// their end write the same. So do a journal and its copy.
pub fn play_alike<S: Source, K: Sink, D: Disk, E: Disk, N: Dial>()
    ensures { PlayAlike S.Source K.Sink D.Disk E.Disk N.Dial N.W.tells }
{}

/// Turns of one replication that follow each other in a script, and whose links do nothing, make no
/// more exchanges than are enough before the first of them, up to and with the first that is quiet
/// or finds no write time. Lines that write nothing may stand between them.
pub fn turn_lines_end_in_time<S: Source, K: Sink, D: Disk, N: Dial>()
    // Where the first of them may be made.
    ensures lines { TurnLinesEndInTime }
    // It may, in a run that is played whole.
    ensures run { RunTurnsEndInTime S.Source K.Sink D.Disk N.Dial N.W.tells }
{}
