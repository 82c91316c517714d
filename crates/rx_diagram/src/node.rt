ghost use Rattle.std.specs.Prelude.{◌≡◌, ◌≢◌, IsTrue, false};
ghost use Rattle.rx_diagram.specs.Nodes.{edge_of};

use rx_table::{Action, StateName};

/// Where an answer leads.
#[derive(Clone, Copy, Debug, PartialEq, Eq)]
pub enum Edge {
    /// To what is to be done.
    Act(Action),
    /// To the node of that number.
    To(u32),
}

/// A question, and where its answers lead.
#[derive(Clone, Copy, Debug, PartialEq, Eq)]
pub struct Node {
    pub state: StateName,
    pub no: Edge,
    pub yes: Edge,
}

impl Node {
    pub fn edge(&self, answer: bool) -> Edge
        ensures { result ≡ edge_of answer self.now }
    {
        if answer { self.yes } else { self.no }
    }
}

fn is_same_state(a: StateName, b: StateName) -> bool
    ensures yes { IsTrue result → a ≡ b }
    ensures no { result ≡ false → a ≢ b }
{
    a == b
}

pub(crate) fn is_same_edge(a: Edge, b: Edge) -> bool
    ensures yes { IsTrue result → a ≡ b }
    ensures no { result ≡ false → a ≢ b }
{
    a == b
}

pub(crate) fn is_same_node(a: Node, b: Node) -> bool
    ensures yes { IsTrue result → a ≡ b }
    ensures no { result ≡ false → a ≢ b }
{
    is_same_state(a.state, b.state) && is_same_edge(a.no, b.no) && is_same_edge(a.yes, b.yes)
}
