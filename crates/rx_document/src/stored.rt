use crate::revision::Revision;
use rx_value::State;

/// A document as a collection holds it. A deleted one stays, as a tombstone.
#[derive(Debug, Drop)]
pub struct Stored {
    pub state: State,
    pub rev: Revision,
    /// The last write time. It rises with each commit of a collection.
    pub lwt: u64,
}
