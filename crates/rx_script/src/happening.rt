/// What the link does to one exchange of a turn.
#[derive(Debug, Clone, Copy)]
pub enum Happening {
    /// The request is handled, and its reply is taken.
    Ok,
    /// The request is never handled.
    LoseRequest,
    /// The request is handled, and its reply never arrives.
    LoseReply,
    /// The request is handled twice, and the second reply is dropped.
    Twice,
    /// The request that was made so many requests before, from 1 to 16, is handled again first.
    Late(u8),
    /// The request is handled, and an earlier reply arrives in place of its own.
    Stale,
}
