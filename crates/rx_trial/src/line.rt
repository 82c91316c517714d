// A line of a script, before it is a text.

/// The collection that a line is about.
#[derive(Clone, Copy)]
pub(crate) enum Side {
    Fork,
    Master,
}

/// What the link does to a request and its reply.
#[derive(Clone, Copy)]
pub(crate) enum Happening {
    Fine,
    LosesRequest,
    LosesReply,
    Twice,
    Stale,
}

/// A line of a script.
#[derive(Clone, Copy)]
pub(crate) enum Line {
    Collection(Side),
    Replicate,
    ObserveFork,
    ObserveMaster,
    Upsert {
        side: Side,
        key: u64,
        n: u64,
        on: bool,
    },
    Remove {
        side: Side,
        key: u64,
    },
    Patch {
        key: u64,
        n: u64,
    },
    Tick {
        at: u64,
    },
    Restart,
    /// A turn over a link of its own.
    LinkedTurn {
        batch: u64,
        first: Happening,
        second: Happening,
        third: Happening,
    },
    Turn,
    /// The turn that ends a script.
    LastTurn,
}
