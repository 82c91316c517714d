use rx_value::{Fields, RxText};

/// What a document was before a change.
#[derive(Debug, Drop)]
pub enum Before {
    /// Not known, as to a query whose rows are not kept.
    Unknown,
    /// Never there, or deleted.
    Absent,
    Live(Fields),
}

/// What became of one document.
#[derive(Debug, Drop)]
pub struct Change {
    pub id: RxText,
    pub before: Before,
    /// Its fields, unless it is deleted.
    pub after: Option<Fields>,
}
