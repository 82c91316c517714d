//! The disk below a journal: what its calls promise, and what a crash may leave at each moment.
//!
//! Between two syncs each written range, and the part past the old end, may hold any bytes after a
//! crash, and the file any length from that of the last sync to the one that a read finds; other
//! bytes stay. After a sync that succeeds a crash leaves what a read gives. `MemoryDisk` keeps that
//! by its definition, and tells it. `FileDisk` is a file of the system, of which nothing can be
//! proved: it tells nothing.
#![tactic(auto)]

mod bytes;
mod disk;
mod entry;
mod file_disk;
mod history;
mod replay;
mod stop;

pub use disk::Disk;
pub use file_disk::FileDisk;

// For tests.
mod memory_disk;

pub use memory_disk::MemoryDisk;
