//! The walks that a list of ports prescribes, and their weights.
ghost use Rattle.std.specs.Prelude.{◌≢◌, ℕ, ◌<◌, IfOk};
ghost use Rattle.ir_model.specs.Topology.{node_count};
ghost use Rattle.ir_tables.specs.Relaxation.{at, unreached};
ghost use Rattle.ir_tables.specs.Listed.{listed_port, IsPortList, IsTableHop, IsWay, IsFilled, AreWays};

use crate::relaxation::UNREACHED;
use crate::topology::Topology;
use ir_model::Hop;
use std::alloc::{AllocError, Global};

/// Where the listed port at a node and another destination leads.
fn hop_at(topology: &Topology, ports: &[Option<u16>], x: usize, d: usize) -> Hop
    requires list { IsPortList topology.now ports.now }
    requires node { x < node_count topology.now }
    requires end { d < node_count topology.now }
    requires other { x ≢ d }
    ensures { IsTableHop topology.now (listed_port (node_count topology.now) ports.now) x d result }
{
    let nodes = topology.nodes();
    let port = ports[x * nodes + d].unwrap();
    topology.ports(x)[port as usize]
}

/// The weight of the prescribed walk from `u` to `d`, which is followed up to the first node with a known weight.
fn weight_of_walk(
    topology: &Topology,
    ports: &[Option<u16>],
    d: usize,
    weights: &[u32],
    u: usize,
) -> u32
    requires list { IsPortList topology.now ports.now }
    requires node { u < node_count topology.now }
    requires end { d < node_count topology.now }
    requires filled { IsFilled topology.now (listed_port (node_count topology.now) ports.now) d weights.now }
    ensures { IsWay topology.now (listed_port (node_count topology.now) ports.now) d u result }
{
    let mut x = u;
    let mut sum = 0;
    for _step in 0..topology.nodes() {
        let known = weights[x];
        if known != UNREACHED {
            return sum + known;
        }
        let hop = hop_at(topology, ports, x, d);
        sum += hop.weight;
        x = hop.node as usize;
    }
    sum
}

/// Writes the weights of the nodes on the prescribed walk from `u` to `d`, which weighs `total`, up to the first node
/// with a known weight.
fn write_walk(
    topology: &Topology,
    ports: &[Option<u16>],
    d: usize,
    weights: &mut [u32],
    u: usize,
    total: u32,
)
    requires list { IsPortList topology.now ports.now }
    requires node { u < node_count topology.now }
    requires end { d < node_count topology.now }
    requires filled { IsFilled topology.now (listed_port (node_count topology.now) ports.now) d weights.old }
    requires way { IsWay topology.now (listed_port (node_count topology.now) ports.now) d u total }
    ensures filled { IsFilled topology.now (listed_port (node_count topology.now) ports.now) d weights.new }
    ensures known { at weights.new u < unreached }
    ensures keeps { (v : ℕ) → at weights.old v < unreached → at weights.new v < unreached }
{
    let mut x = u;
    let mut left = total;
    for _step in 0..topology.nodes() {
        if weights[x] != UNREACHED {
            return;
        }
        weights[x] = left;
        let hop = hop_at(topology, ports, x, d);
        left -= hop.weight;
        x = hop.node as usize;
    }
}

/// The weights of the prescribed walks to `d`, by node.
pub fn walk_weights(
    alloc: Global,
    topology: &Topology,
    ports: &[Option<u16>],
    d: usize,
) -> Result<Vec<u32>, AllocError>
    requires list { IsPortList topology.now ports.now }
    requires end { d < node_count topology.now }
    ensures { IfOk result (λ weights. AreWays topology.now
        (listed_port (node_count topology.now) ports.now) d weights.items) }
{
    let nodes = topology.nodes();
    let mut weights = vec![in alloc; UNREACHED; nodes]?;
    weights[d] = 0;
    for u in 0..nodes {
        let total = weight_of_walk(topology, ports, d, weights.as_slice(), u);
        write_walk(topology, ports, d, weights.as_mut_slice(), u, total);
    }
    Ok(weights)
}
