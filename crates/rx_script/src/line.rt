ghost use Rattle.std.specs.Prelude.{IfOk};
ghost use Rattle.serde_json.specs.View.{view};
ghost use Rattle.rx_value.specs.Due.{DueBy};
ghost use Rattle.rx_script.specs.Asked.{asked, IsLawful};
ghost use Rattle.rx_script.specs.Line.{object_of, line_of};
ghost use Rattle.rx_script.specs.declared.fault.LineFault.TheVariants.{Memory};

use crate::delivery::Delivery;
use crate::fault::LineFault;
use crate::forms::read_form;
use crate::happening::Happening;
use crate::since::Since;
use crate::target::Target;
use rx_migrate::Steps;
use rx_update::When;
use rx_value::RxText;
use serde_json::Value as Json;
use std::alloc::Global;

/// The most bytes that a line may have.
pub const MAX_LINE_BYTES: usize = 1_048_576;

/// The most documents of a batch, and as many as it has where no number is given.
pub const MAX_BATCH: u32 = 100;

/// The most exchanges of a turn.
pub const MAX_BUDGET: u32 = 100_000;

/// As many as a turn may make where no number is given.
pub const USUAL_BUDGET: u32 = 1_000;

/// What a line asks. Names and steps are read; schemas, documents, updates and queries are left as
/// the JSON that they are, since only the session can judge them. `coll` is the member `in`.
#[derive(Drop)]
pub enum Line {
    Collection {
        name: RxText,
        schema: Json,
    },
    Insert {
        coll: RxText,
        doc: Json,
    },
    Bulk {
        coll: RxText,
        docs: Vec<Json>,
    },
    Upsert {
        coll: RxText,
        doc: Json,
    },
    Patch {
        coll: RxText,
        key: RxText,
        set: Json,
        rev: Option<RxText>,
    },
    Update {
        coll: RxText,
        key: RxText,
        update: Json,
        rev: Option<RxText>,
    },
    Remove {
        coll: RxText,
        key: RxText,
        rev: Option<RxText>,
    },
    Hook {
        coll: RxText,
        when: When,
        hook: RxText,
        field: RxText,
    },
    Migrate {
        coll: RxText,
        schema: Json,
        steps: Steps,
    },
    Get {
        coll: RxText,
        key: RxText,
    },
    Find {
        coll: RxText,
        query: Json,
    },
    Count {
        coll: RxText,
        query: Json,
    },
    Observe {
        name: RxText,
        coll: RxText,
        query: Json,
    },
    Unobserve {
        name: RxText,
    },
    Explain {
        name: RxText,
    },
    Replicate {
        name: RxText,
        fork: RxText,
        master: Target,
        handler: RxText,
        field: Option<RxText>,
    },
    Turn {
        name: RxText,
        batch: u32,
        budget: u32,
        link: Option<Vec<Happening>>,
    },
    Sweep {
        name: RxText,
        batch: u32,
        budget: u32,
    },
    Stream {
        name: RxText,
    },
    Deliver {
        name: RxText,
        link: Option<Vec<Delivery>>,
    },
    Unstream {
        name: RxText,
    },
    Changes {
        coll: RxText,
        since: Option<Since>,
        batch: u32,
    },
    Tick {
        at: u64,
    },
    Restart,
    Digest {
        coll: RxText,
    },
}

impl Line {
    /// Reads the bytes of a line, which has no line feed at its end.
    pub fn read(alloc: Global, bytes: &[u8]) -> Result<Line, LineFault>
        ensures exact { DueBy Memory asked result (line_of bytes.now) }
        ensures lawful { IfOk result (λ line. IsLawful (asked line)) }
    {
        let json = read_object(alloc, bytes)?;
        read_form(alloc, json)
    }
}

// The object that a line is.
fn read_object(alloc: Global, bytes: &[u8]) -> Result<Json, LineFault>
    ensures { DueBy Memory view result (object_of bytes.now) }
{
    if bytes.len() > MAX_LINE_BYTES {
        return Err(LineFault::TooLong);
    }
    match Json::from_slice(alloc, bytes) {
        Ok(json) => if json.is_object() {
            Ok(json)
        } else {
            Err(LineFault::NotObject)
        },
        Err(e) => if e.is_memory() {
            Err(LineFault::Memory)
        } else {
            Err(LineFault::NotJson)
        },
    }
}
