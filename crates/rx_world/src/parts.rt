use crate::replication::Replication;
use indexmap::IndexMap;

/// The most collections of a world.
pub const MAX_COLLECTIONS: usize = 64;

/// The most replications of a world.
pub const MAX_REPLICATIONS: usize = 64;

// What a world is made of. A holder in it may be broken.
#[derive(Drop)]
pub(crate) struct Parts<H> {
    pub(crate) holders: IndexMap<String, H>,
    pub(crate) replications: IndexMap<String, Replication>,
    pub(crate) epoch: u64,
}
