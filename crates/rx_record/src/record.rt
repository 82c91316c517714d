use crate::writing::put_record;
use rx_document::Place;
use rx_migrate::Steps;
use rx_value::{RxText, State};
use std::alloc::{AllocError, Global};

// Room for the record of one usual document, which then isn't grown step by step.
const ROOM: usize = 256;

/// What a journal keeps of one change.
#[derive(Debug, Drop)]
pub enum Record {
    /// A collection comes to be, with the canonical text of its schema.
    Collection {
        name: RxText,
        schema: RxText,
    },
    /// Documents of a collection are written, by rising key, at that last write time.
    Rows {
        name: RxText,
        lwt: u64,
        rows: Vec<RowOut>,
    },
    /// A collection comes to be the fork of a master.
    Replication {
        name: RxText,
        fork: RxText,
        master: MasterName,
        handler: RxText,
        field: Option<RxText>,
    },
    /// A fork takes a reply: documents of it are written as by `Rows`, the write time being 0 where
    /// there is none; states become known, by rising key; and the checkpoints are set.
    Exchange {
        name: RxText,
        lwt: u64,
        rows: Vec<RowOut>,
        known: Vec<State>,
        up: Option<Place>,
        down: Option<Place>,
    },
    /// The program starts anew.
    Epoch {
        number: u64,
    },
    /// A collection and all that local replications join to it get the next version of their
    /// schema, with its canonical text and the steps that their states take.
    Migration {
        name: RxText,
        schema: RxText,
        steps: Steps,
    },
    /// Of a journal that begins as a copy of another's world: documents of a collection, by rising
    /// place.
    Part {
        name: RxText,
        rows: Vec<PartRow>,
    },
    /// Of such a journal: known states of a replication, by rising key, and its checkpoints.
    KnownPart {
        name: RxText,
        known: Vec<State>,
        up: Option<Place>,
        down: Option<Place>,
    },
    /// The end of the copy, with the epoch of the world that was copied.
    End {
        number: u64,
    },
}

impl Record {
    ghost use Rattle.std.specs.Prelude.{◌≡◌, ◌<◌, ◌^◌, length, IfOk, Ok};
    ghost use Rattle.rx_record.specs.Content.{content_bytes, record_of};
    ghost use Rattle.rx_record.specs.Shown.{content};
    ghost use Rattle.rx_record.specs.Writable.{IsOrdered};

    /// The body of the record, as the crate's documentation gives it byte by byte. A count has four
    /// bytes, so a text or a list of 2^32 or more does not read back; a body below 2^32 bytes has
    /// none. The fields keep their own order and ranges.
    pub fn write(&self, alloc: Global) -> Result<Vec<u8>, AllocError>
        ensures bytes { IfOk result (λ body. body.items ≡ content_bytes (content self.now)) }
        ensures back { IsOrdered (content self.now) → IfOk result
            (λ body. length body.items < 2 ^ 32 → record_of body.items ≡ Ok (content self.now)) }
    {
        let mut body = Vec::with_capacity(alloc, ROOM)?;
        put_record(&mut body, self)?;
        Ok(body)
    }
}

/// Where the master of a replication is.
#[derive(Debug, Drop)]
pub enum MasterName {
    /// A collection of the same journal.
    Local(RxText),
    /// A port at which another program serves a collection.
    Port(u16),
}

/// One document as it was written.
#[derive(Debug, Drop)]
pub struct RowOut {
    /// How often it was written, this time included.
    pub height: u64,
    pub state: State,
}

/// One document of a part.
#[derive(Debug, Drop)]
pub struct PartRow {
    /// When it was written last.
    pub lwt: u64,
    /// How often it was written.
    pub height: u64,
    pub state: State,
}
