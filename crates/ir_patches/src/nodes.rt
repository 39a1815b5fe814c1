//! The nodes of two networks.
ghost use Rattle.std.specs.Prelude.{◌≡◌, ◌<◌, IfOk, MatchOption, length};
ghost use Rattle.ir_model.specs.Graph.{names};
ghost use Rattle.ir_trace.specs.Written.{name_at};
ghost use Rattle.ir_patches.specs.Nodes.{HaveSameNodes, IsOtherNode, first_other, is_there, number_named, numbers_in};

use ir_graph::Graph;
use ir_trace::text::name_of;
use std::alloc::{AllocError, Global};

/// A node of one of two networks that the other has not, by its number.
#[derive(Clone, Copy, Debug, PartialEq, Eq)]
pub enum OtherNode {
    /// A node of the new network.
    Unknown(u16),
    /// A node of the old network.
    Missing(u16),
}

/// Whether a network has a node of this name.
fn is_there(graph: &Graph, name: &str) -> bool
    ensures { result ≡ is_there (names graph.now) name.now }
{
    graph.index_of(name).is_some()
}

/// The first node of a network that another has not.
fn first_other(others: &Graph, graph: &Graph) -> Option<u16>
    ensures { result ≡ first_other (names others.now) (names graph.now) }
{
    for u in 0..graph.number_of_nodes() {
        if !is_there(others, name_of(graph, u as u16)) {
            return Some(u as u16);
        }
    }
    None
}

/// The first node of the new network that the old one has not; where it has all of them, the first
/// node of the old network that the new one has not; none where both have the same nodes. Takes
/// O(n) on average, for n nodes.
pub fn other_node(old: &Graph, new: &Graph) -> Option<OtherNode>
    ensures { MatchOption result (HaveSameNodes (names old.now) (names new.now))
        (λ other. IsOtherNode (names old.now) (names new.now) other) }
{
    if let Some(u) = first_other(old, new) {
        return Some(OtherNode::Unknown(u));
    }
    match first_other(new, old) {
        Some(u) => Some(OtherNode::Missing(u)),
        None => None,
    }
}

/// The number that one network has for a node of another.
fn number_of(old: &Graph, graph: &Graph, u: u16) -> u16
    requires { u < length graph.now }
    ensures { result ≡ number_named (names old.now) (name_at (names graph.now) u) }
{
    old.index_of(name_of(graph, u)).unwrap_or(0)
}

/// The numbers that one network has for the nodes of another.
pub fn numbers_in(alloc: Global, old: &Graph, graph: &Graph) -> Result<Vec<u16>, AllocError>
    ensures { IfOk result (λ numbers. numbers.items ≡ numbers_in (names old.now) (names graph.now)) }
{
    let count = graph.number_of_nodes();
    let mut numbers = Vec::with_capacity(alloc, count)?;
    for u in 0..count {
        numbers.push(number_of(old, graph, u as u16))?;
    }
    Ok(numbers)
}
