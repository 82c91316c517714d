ghost use Rattle.std.specs.Prelude.{◌≡◌, ◌≢◌, ℕ, ◌+◌, ◌-◌, ◌<◌, ◌≤◌, ◌^◌, length, IfOk, MatchOption};
ghost use Rattle.rx_table.specs.States.{state_count, index_of};
ghost use Rattle.rx_diagram.specs.Nodes.{IsReduced, node as node_at};
ghost use Rattle.rx_diagram.specs.Building.{IsLater, IsShared, IsBuilt, most_nodes};

use crate::node::{Edge, Node, is_same_edge, is_same_node};
use rx_table::{StateName, table};
use std::alloc::AllocError;

/// How many questions there are.
const QUESTIONS: u32 = 19;

// The edge for the questions from number i on, where those before it are answered by these bits.
// Nodes are made from the last question to the first, so that equal ones meet and are shared.
pub(crate) fn edge_from(nodes: &mut Vec<Node>, i: u32, bits: u32) -> Result<Edge, AllocError>
    requires reduced { IsReduced nodes.old.items }
    requires question { i ≤ state_count }
    requires bits { bits < 2 ^ i }
    requires room { length nodes.old.items + 2 ^ (19 - i) ≤ most_nodes }
    ensures { IfOk result (λ e. IsBuilt nodes.old.items nodes.new.items i bits e) }
{
    if i == QUESTIONS {
        return Ok(Edge::Act(table(bits)));
    }
    let no = edge_from(nodes, i + 1, bits)?;
    let yes = edge_from(nodes, i + 1, with_yes(bits, i))?;
    let state = state_at(i);
    let edge = share(nodes, Node { state, no, yes })?;
    Ok(edge)
}

// The edge that stands for a node: where both its edges lead, to an equal node, or to itself.
fn share(nodes: &mut Vec<Node>, node: Node) -> Result<Edge, AllocError>
    requires reduced { IsReduced nodes.old.items }
    requires later { IsLater nodes.old.items node }
    requires room { length nodes.old.items < most_nodes }
    ensures { IfOk result (λ e. IsShared nodes.old.items nodes.new.items node e) }
{
    if is_same_edge(node.no, node.yes) {
        return Ok(node.no);
    }
    if let Some(k) = find_node(nodes.as_slice(), node) {
        return Ok(Edge::To(k as u32));
    }
    let k = nodes.len();
    nodes.push(node)?;
    Ok(Edge::To(k as u32))
}

// The nodes are a few hundred, and are looked through once each.
fn find_node(nodes: &[Node], node: Node) -> Option<usize>
    ensures { MatchOption result
        ((k : ℕ) → k < length nodes.now → node_at nodes.now k ≢ node)
        (λ k. (k < length nodes.now) × (node_at nodes.now k ≡ node)) }
{
    for (k, known) in nodes.iter().enumerate() {
        if is_same_node(*known, node) {
            return Some(k);
        }
    }
    None
}

fn with_yes(bits: u32, i: u32) -> u32
    requires question { i < state_count }
    requires bits { bits < 2 ^ i }
    ensures { result ≡ bits + 2 ^ i }
{
    bits + (1 << i)
}

fn state_at(i: u32) -> StateName
    requires { i < state_count }
    ensures { index_of result ≡ i }
{
    match i {
        0 => StateName::IsInsert,
        1 => StateName::IsUpdate,
        2 => StateName::IsDelete,
        3 => StateName::HasLimit,
        4 => StateName::IsFindOne,
        5 => StateName::HasSkip,
        6 => StateName::WasResultsEmpty,
        7 => StateName::PreviousUnknown,
        8 => StateName::WasLimitReached,
        9 => StateName::SortParamsChanged,
        10 => StateName::WasInResult,
        11 => StateName::WasFirst,
        12 => StateName::WasLast,
        13 => StateName::WasSortedBeforeFirst,
        14 => StateName::WasSortedAfterLast,
        15 => StateName::IsSortedBeforeFirst,
        16 => StateName::IsSortedAfterLast,
        17 => StateName::WasMatching,
        _ => StateName::DoesMatchNow,
    }
}
