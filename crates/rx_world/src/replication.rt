use rx_meta::Meta;
use rx_record::MasterName;
use rx_value::RxText;

/// A collection that follows a master.
#[derive(Drop)]
pub struct Replication {
    pub name: RxText,
    pub fork: RxText,
    pub master: MasterName,
    /// What resolves the fork's conflicts, by its name.
    pub handler: RxText,
    /// The field that the handler goes by, if it goes by one.
    pub field: Option<RxText>,
    /// What the fork knows of its master.
    pub side: Meta,
}
