ghost use Rattle.rx_compact.specs.Laws.{CopyMakesWorld, FrontMakesNone, RevisionsAreTokened};

/// States what holds of every copy, and does nothing.
pub fn copy_laws()
    // The records of a copy make the world that it is of.
    ensures whole { CopyMakesWorld }
    // A front of them that isn't all of them makes none, so a copy that was cut off is no journal.
    ensures front { FrontMakesNone }
    // What a copy leaves out of revisions is the same in all of them: the collection's name.
    ensures tokened { RevisionsAreTokened }
{}
