use rx_value::RxText;

// Where a query is observed: its name, and the name of its collection.
#[derive(Drop)]
pub(crate) struct QueryPlace {
    pub name: RxText,
    pub coll: RxText,
}
