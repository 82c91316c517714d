ghost use Rattle.std.specs.Prelude.{◌≡◌, ◌+◌, ◌<◌, ◌≤◌, ◌^◌, vec_len, length};
ghost use Rattle.rx_table.specs.Log.{Adds};
ghost use Rattle.rx_table.specs.Rows.{table_of};
ghost use Rattle.rx_table.specs.States.{index_of};
ghost use Rattle.rx_diagram.specs.Asked.{IsAsked, asked_of, questions_in};
ghost use Rattle.rx_diagram.specs.Building.{most_nodes};
ghost use Rattle.rx_diagram.specs.Nodes.{IsDiagram, root_of, node as node_at};

use crate::build::edge_from;
use crate::node::{Edge, Node};
use rx_table::{Action, Ask, StateName};
use std::alloc::{AllocError, Global};

/// The first question that the table reads.
const FIRST: u32 = 4;

/// The reduced ordered decision diagram of the table, in the order of the questions.
#[derive(Drop)]
pub struct Diagram {
    nodes: Vec<Node>,
    ghost sound: { IsDiagram nodes.items },
    ghost few: { vec_len nodes ≤ most_nodes },
}

/// What to do, and the questions that were asked for it, each by the bit of its number.
#[derive(Clone, Copy, Debug, PartialEq, Eq)]
pub struct Decided {
    pub action: Action,
    pub asked: u32,
}

impl Diagram {
    pub fn build(alloc: Global) -> Result<Diagram, AllocError> {
        let mut nodes = Vec::new(alloc);
        edge_from(&mut nodes, FIRST, 0)?;
        Ok(Diagram { nodes })
    }

    /// The last node asks the first question.
    pub fn nodes(&self) -> &[Node]
        ensures { IsDiagram result.now }
    {
        self.nodes.as_slice()
    }

    /// What the table says of the answers. Only questions on which it still depends are asked, each
    /// of them once, in their order.
    pub fn decide<A: Ask>(&self, ask: &mut A) -> Decided
        ensures action { result.action ≡ table_of (A.bits ask.old) }
        ensures asked { IsAsked (A.bits ask.old) result.asked }
        ensures number { result.asked ≡ asked_of (A.bits ask.old) }
        ensures logged { Adds (A.log ask.old) (questions_in result.asked) (A.log ask.new) }
        ensures same { A.bits ask.new ≡ A.bits ask.old }
    {
        let mut asked = 0u32;
        let mut edge = self.root();
        loop {
            match edge {
                Edge::Act(action) => return Decided { action, asked },
                Edge::To(k) => {
                    let node = self.node(k);
                    asked = with_state(asked, node.state);
                    let answer = ask.state(node.state);
                    edge = node.edge(answer);
                }
            }
        }
    }

    fn root(&self) -> Edge
        ensures { result ≡ root_of self.now.nodes.items }
    {
        Edge::To((self.nodes.len() - 1) as u32)
    }

    fn node(&self, k: u32) -> Node
        requires { k < length self.now.nodes.items }
        ensures { result ≡ node_at self.now.nodes.items k }
    {
        self.nodes[k as usize]
    }
}

fn with_state(asked: u32, state: StateName) -> u32
    requires { asked < 2 ^ index_of state }
    ensures { result ≡ asked + 2 ^ index_of state }
{
    asked + (1 << (state as u32))
}
