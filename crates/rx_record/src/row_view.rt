use crate::state_view::StateView;

/// One document as it was written, lent.
#[derive(Clone, Copy, Debug)]
pub struct RowView<'a> {
    /// How often it was written, this time included.
    pub height: u64,
    pub state: StateView<'a>,
}
