/// Which of two states a handler gives.
#[derive(Debug, Clone, Copy)]
pub enum HandlerKind {
    /// The master's.
    MasterWins,
    /// The fork's.
    ForkWins,
    /// The one with the greater number in a field; the master's on a tie, or where one has none.
    Greater,
    /// Both together: of each field the greater value.
    Join,
}
