/// Why a connection ended.
#[derive(Clone, Copy, Debug, PartialEq, Eq)]
pub enum Why {
    /// The peer ended it. What it sent of a further line gets no answer.
    Peer,
    /// A line was no request, and the peer was told of its fault.
    Request,
    /// A write found no time.
    Clock,
    /// The wire failed.
    Wire,
}

/// How a connection ended.
#[derive(Clone, Copy, Debug, PartialEq, Eq)]
pub struct Ended {
    /// How many requests were answered. Where the wire failed, a reply less may have been sent.
    pub requests: u64,
    pub why: Why,
}
