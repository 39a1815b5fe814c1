//! The order in which sweeps go over the nodes. Nothing is promised of it, and no answer depends on it: it only says
//! how soon the lanes settle.
ghost use Rattle.std.specs.Prelude.{◌<◌, ◌≤◌};
ghost use Rattle.ir_model.specs.Topology.{node_count};

use ir_model::Hop;
use ir_tables::{Topology, weights_to};
use std::alloc::{AllocError, Global};

/// The most ports of a node in a mesh.
const MOST_MESH_PORTS: usize = 6;

/// More than each number of a node.
const NUMBERS: u64 = 65_536;

/// Whether it is a mesh of unlike weights, as a grid of streets: no node has many ports, there are circles, and the
/// weights differ. In the order of numbers its lanes settle late.
pub fn is_mesh(topology: &Topology) -> bool {
    let mut weight = 0;
    let mut is_even = true;
    for u in 0..topology.nodes() {
        let ports = topology.ports(u);
        if ports.len() > MOST_MESH_PORTS {
            return false;
        }
        if weight == 0 {
            weight = first_weight(ports);
        }
        is_even = is_even && are_even(ports, weight);
    }
    !is_even && topology.links() >= topology.nodes()
}

// The weight of the first port, or 0.
fn first_weight(ports: &[Hop]) -> u32 {
    if ports.is_empty() { 0 } else { ports[0].weight }
}

// Whether all ports have a weight.
fn are_even(ports: &[Hop], weight: u32) -> bool {
    for hop in ports {
        if hop.weight != weight {
            return false;
        }
    }
    true
}

/// The nodes by number.
pub fn by_number(alloc: Global, nodes: usize) -> Result<Vec<u16>, AllocError>
    requires { nodes ≤ 32768 }
{
    let mut order = Vec::with_capacity(alloc, nodes)?;
    for u in 0..nodes {
        order.push(u as u16)?;
    }
    Ok(order)
}

/// The nodes by how far one is from them, the nearest first.
pub fn by_distance(alloc: Global, topology: &Topology, node: usize) -> Result<Vec<u16>, AllocError>
    requires { node < node_count topology.now }
{
    let weights = weights_to(alloc, topology, node)?;
    let mut keys = Vec::with_capacity(alloc, weights.len())?;
    for (u, weight) in weights.iter().enumerate() {
        keys.push(*weight as u64 * NUMBERS + u as u64)?;
    }
    keys.sort_unstable();
    numbers_of(alloc, keys.as_slice())
}

// The numbers after the weights of keys.
fn numbers_of(alloc: Global, keys: &[u64]) -> Result<Vec<u16>, AllocError> {
    let mut numbers = Vec::with_capacity(alloc, keys.len())?;
    for key in keys {
        numbers.push((*key % NUMBERS) as u16)?;
    }
    Ok(numbers)
}
