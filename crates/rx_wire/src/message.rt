use rx_document::Place;
use rx_value::{RxList, State};

/// A fork's new state of a document, and the master's state that it assumes, where one is known.
#[derive(Debug, Drop)]
pub struct PushRow {
    pub assumed: Option<State>,
    pub new: State,
}

/// What a fork asks of its master.
#[derive(Debug, Drop)]
pub enum AskKind {
    /// Take these states, 1 to 100 of them, with keys that differ.
    Push(RxList<PushRow>),
    /// Give the documents above a place, or the first ones, at most `batch` of them, 1 to 100.
    Pull { place: Option<Place>, batch: u32 },
}

/// A request, numbered by the fork's epoch and its count within the epoch, both from 1.
#[derive(Debug, Drop)]
pub struct Request {
    pub epoch: u64,
    pub n: u64,
    pub ask: AskKind,
}

/// What a master answers.
#[derive(Debug, Drop)]
pub enum Body {
    /// To a push: the master's states of the rows that it did not take.
    Conflicts(RxList<State>),
    /// To a pull: states by rising place, and the place of the last one, or else the asked one.
    Docs {
        states: RxList<State>,
        place: Option<Place>,
    },
}

/// A reply, with the numbers of its request.
#[derive(Debug, Drop)]
pub struct Reply {
    pub epoch: u64,
    pub n: u64,
    pub body: Body,
}
