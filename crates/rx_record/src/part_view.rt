use crate::state_view::StateView;

/// One document of a part, lent.
#[derive(Clone, Copy, Debug)]
pub struct PartView<'a> {
    /// When it was written last.
    pub lwt: u64,
    /// How often it was written.
    pub height: u64,
    pub state: StateView<'a>,
}
