//! The search along the ports of a topology.

ghost use Rattle.std.specs.Prelude.{◌≡◌, ◌<◌, ◌≤◌, length, map, IfOk};
ghost use Rattle.ir_model.specs.{declared.Hop.Hop, Topology.node_count, Numbering.{neighbors_of, IsDepthFirst}};
ghost use Rattle.ir_numbering.specs.Search.{IsOneCutOff};

use crate::search::{Order, search_lists};
use ir_tables::{Hop, Topology};
use std::alloc::{AllocError, Global};

/// The nodes that walks from the root lead to, in depth-first order. Takes O(n + m), for n nodes and m links.
pub fn search(alloc: Global, topology: &Topology, root: u16) -> Result<Order, AllocError>
    requires { root < node_count topology.now }
    ensures all { IfOk result (λ order. node_count topology.now ≤ length order.nodes.items
        → IsDepthFirst (neighbors_of topology.now)
        (node_count topology.now) root order.nodes.items order.parents.items) }
    ensures some { IfOk result (λ order. length order.nodes.items < node_count topology.now
        → IsOneCutOff topology.now root) }
{
    topology.invariant();
    let lists = neighbor_lists(alloc, topology)?;
    search_lists(alloc, lists.as_slice(), root)
}

// The neighbours of each node, in port order.
fn neighbor_lists(alloc: Global, topology: &Topology) -> Result<Vec<Vec<u16>>, AllocError>
    ensures { IfOk result (λ lists. map (λ list. list.items) lists.items
        ≡ map (map (λ (hop : Hop). hop.node)) topology.now.ports) }
{
    let nodes = topology.nodes();
    let mut lists = Vec::with_capacity(alloc, nodes)?;
    for u in 0..nodes {
        lists.push(nodes_at(alloc, topology.ports(u))?)?;
    }
    Ok(lists)
}

// Where ports lead, in order.
fn nodes_at(alloc: Global, ports: &[Hop]) -> Result<Vec<u16>, AllocError>
    ensures { IfOk result (λ nodes. nodes.items ≡ map (λ (hop : Hop). hop.node) ports.now) }
{
    let mut nodes = Vec::with_capacity(alloc, ports.len())?;
    for hop in ports {
        nodes.push(hop.node)?;
    }
    Ok(nodes)
}
