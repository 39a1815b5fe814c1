ghost use Rattle.std.specs.Prelude.{◌≡◌, ◌<◌, ◌++◌, ℕ, length, map, All, IfOk, OnOk, None, slice_index, slice_index_or};
ghost use Rattle.ir_model.specs.{Topology.node_count, Numbering.{neighbors_of, IsDepthFirst}, Plan.AreLabels};
ghost use Rattle.ir_numbering.specs.Numbering.{IsParentPort, AreParentPorts};
ghost use Rattle.ir_numbering.specs.Cells.{IsTreeCell, AreTreeCells, AreTreeRows};

use crate::parents::port_to_neighbor;
use ir_tables::Topology;
use std::alloc::{AllocError, Global};

/// The ports of a tree table: at place `u * n + d` that of the node u to the node d.
pub fn tree_ports(
    alloc: Global,
    topology: &Topology,
    order: &[u16],
    parents: &[usize],
    labels: &[u16],
    ups: &[Option<u16>],
) -> Result<Vec<Option<u16>>, AllocError>
    requires order { IsDepthFirst (neighbors_of topology.now) (node_count topology.now)
        (slice_index order.now 0) order.now parents.now }
    requires labels { AreLabels (node_count topology.now) order.now labels.now }
    requires ups { AreParentPorts topology.now order.now parents.now ups.now }
    ensures { IfOk result (λ ports. AreTreeRows topology.now order.now parents.now labels.now
        (node_count topology.now) ports.items) }
{
    let mut ports = Vec::new(alloc);
    for u in 0..topology.nodes() {
        let row = ports_by_label(alloc, topology, order, parents, ups[u], labels[u] as usize)?;
        push_by_node(&mut ports, row.as_slice(), labels)?;
    }
    Ok(ports)
}

// The ports of the node at a place to all nodes, by label.
fn ports_by_label(
    alloc: Global,
    topology: &Topology,
    order: &[u16],
    parents: &[usize],
    up: Option<u16>,
    own: usize,
) -> Result<Vec<Option<u16>>, AllocError>
    requires order { IsDepthFirst (neighbors_of topology.now) (node_count topology.now)
        (slice_index order.now 0) order.now parents.now }
    requires own { own < node_count topology.now }
    requires up { IsParentPort topology.now order.now parents.now (slice_index order.now own) up }
    ensures { IfOk result (λ ports. AreTreeCells topology.now order.now parents.now own
        (node_count topology.now) ports.items) }
{
    let mut ports = Vec::with_capacity(alloc, topology.nodes())?;
    for _place in 0..topology.nodes() {
        let port = next_port(topology, order, parents, up, own, ports.as_slice());
        ports.push(port)?;
    }
    Ok(ports)
}

// The port to the next place. It is that of the place's parent, save at the place itself, at its sons and at the root.
fn next_port(
    topology: &Topology,
    order: &[u16],
    parents: &[usize],
    up: Option<u16>,
    own: usize,
    before: &[Option<u16>],
) -> Option<u16>
    requires order { IsDepthFirst (neighbors_of topology.now) (node_count topology.now)
        (slice_index order.now 0) order.now parents.now }
    requires own { own < node_count topology.now }
    requires up { IsParentPort topology.now order.now parents.now (slice_index order.now own) up }
    requires before { length before.now < node_count topology.now }
    requires cells { AreTreeCells topology.now order.now parents.now own (length before.now) before.now }
    ensures { IsTreeCell topology.now order.now parents.now own (length before.now) result }
{
    topology.invariant();
    let place = before.len();
    if place == own {
        return None;
    }
    if place == 0 {
        return up;
    }
    let parent = parents[place];
    if parent == own {
        return port_to_neighbor(topology, order[own] as usize, order[place]);
    }
    before[parent]
}

// Adds a row by label, node by node.
fn push_by_node(
    ports: &mut Vec<Option<u16>>,
    row: &[Option<u16>],
    labels: &[u16],
) -> Result<(), AllocError>
    requires { All (λ label. label < length row.now) labels.now }
    ensures { OnOk result (ports.new.items ≡ ports.old.items
        ++ map (λ label. slice_index_or row.now label None) labels.now) }
{
    for label in labels {
        ports.push(row[*label as usize])?;
    }
    Ok(())
}
