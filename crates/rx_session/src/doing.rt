use rx_query::Query;
use rx_record::Record;
use rx_update::Attached;
use rx_value::RxText;

/// What a line does to a session.
#[derive(Drop)]
pub enum Doing {
    Nothing,
    SetClock(u64),
    Write(Record),
    Watch(Watch),
    Unwatch(RxText),
    Attach(Attached),
    OpenStream(Opening),
    CloseStream(RxText),
}

/// A stream that is to be opened: the name of its replication, and that of the master.
#[derive(Drop)]
pub struct Opening {
    pub name: RxText,
    pub master: RxText,
}

/// A query that is to be observed, its name, and the name of its collection.
#[derive(Drop)]
pub struct Watch {
    pub name: RxText,
    pub coll: RxText,
    pub query: Query,
}
