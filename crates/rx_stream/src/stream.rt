use crate::queue::Queue;
use rx_value::RxText;

/// An open stream: the names of its replication and of its master, and what the master wrote.
#[derive(Drop)]
pub struct Stream {
    pub name: RxText,
    pub master: RxText,
    pub queue: Queue,
}
