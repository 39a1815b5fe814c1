ghost use Rattle.std.specs.Prelude.{◌≡◌, ◌+◌, ◌<◌, ◌≤◌, length, IfOk, IsSomeAnd, slice_index};
ghost use Rattle.ir_model.specs.{declared.TheConstants.MAX_NODES, Topology.node_count, Walk.Linked};
ghost use Rattle.ir_model.specs.{Numbering.{neighbors_of, IsDepthFirst}, Subtree.{IsSubtree, IsNested}, Plan.AreLabels};
ghost use Rattle.ir_numbering.specs.{Numbering.{IsListing, IsPortTo, IsParentPort, AreParentPorts}, Sizes.AreSizesFrom};

use ir_tables::Topology;
use std::alloc::{AllocError, Global};

/// How many places there are in the subtree of each place. Takes O(n), for n places: each is come to once as a son.
pub fn subtree_sizes(alloc: Global, parents: &[usize]) -> Result<Vec<u16>, AllocError>
    requires nested { IsNested (length parents.now) parents.now }
    requires few { length parents.now ≤ MAX_NODES }
    ensures { IfOk result (λ sizes. AreSizesFrom 0 parents.now sizes.items) }
{
    let mut sizes = vec![in alloc; 0u16; parents.len()]?;
    let mut first = parents.len();
    while first > 0 {
        first -= 1;
        sizes[first] = subtree_size(parents, sizes.as_slice(), first) as u16;
    }
    Ok(sizes)
}

// How many places there are in the subtree of a place, by the sizes of those that begin after it.
fn subtree_size(parents: &[usize], sizes: &[u16], place: usize) -> usize
    requires nested { IsNested (length parents.now) parents.now }
    requires place { place < length parents.now }
    requires sizes { AreSizesFrom (place + 1) parents.now sizes.now }
    ensures { IsSubtree (length parents.now) parents.now place result }
{
    let mut end = place + 1;
    while end < parents.len() && parents[end] >= place {
        end += sizes[end] as usize;
    }
    end - place
}

/// The place of each node.
pub fn labels_of(alloc: Global, order: &[u16]) -> Result<Vec<u16>, AllocError>
    requires listing { IsListing (length order.now) order.now }
    requires few { length order.now ≤ MAX_NODES }
    ensures { IfOk result (λ labels. AreLabels (length order.now) order.now labels.items) }
{
    let mut labels = vec![in alloc; 0u16; order.len()]?;
    for (place, u) in order.iter().enumerate() {
        labels[*u as usize] = place as u16;
    }
    Ok(labels)
}

/// The port of each node that leads to its parent.
pub fn parent_ports(
    alloc: Global,
    topology: &Topology,
    order: &[u16],
    parents: &[usize],
    labels: &[u16],
) -> Result<Vec<Option<u16>>, AllocError>
    requires order { IsDepthFirst (neighbors_of topology.now) (node_count topology.now)
        (slice_index order.now 0) order.now parents.now }
    requires labels { AreLabels (node_count topology.now) order.now labels.now }
    ensures { IfOk result (λ ports. AreParentPorts topology.now order.now parents.now ports.items) }
{
    let mut ports = Vec::with_capacity(alloc, topology.nodes())?;
    for u in 0..topology.nodes() {
        ports.push(parent_port(topology, order, parents, labels, u))?;
    }
    Ok(ports)
}

// The port of a node that leads to its parent, or none at the first node.
fn parent_port(
    topology: &Topology,
    order: &[u16],
    parents: &[usize],
    labels: &[u16],
    u: usize,
) -> Option<u16>
    requires order { IsDepthFirst (neighbors_of topology.now) (node_count topology.now)
        (slice_index order.now 0) order.now parents.now }
    requires labels { AreLabels (node_count topology.now) order.now labels.now }
    requires node { u < node_count topology.now }
    ensures { IsParentPort topology.now order.now parents.now u result }
{
    topology.invariant();
    let label = labels[u] as usize;
    if label == 0 {
        return None;
    }
    port_to_neighbor(topology, u, order[parents[label]])
}

/// The port of a node that leads to a neighbour.
pub fn port_to_neighbor(topology: &Topology, u: usize, v: u16) -> Option<u16>
    requires { Linked topology.now u v }
    ensures { IsSomeAnd result (λ p. IsPortTo topology.now u p v) }
{
    topology.invariant();
    for (p, hop) in topology.ports(u).iter().enumerate() {
        if hop.node == v {
            return Some(p as u16);
        }
    }
    None
}
