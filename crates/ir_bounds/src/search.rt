//! Searches from a node that end at reaches: they find the distances within the reach of each node, and leave the others.

ghost use Rattle.std.specs.Prelude.{◌≡◌, ◌↔◌, ◌+◌, ◌≤◌, ◌<◌, IfOk, OnOk, IsTrue, length, sum};
ghost use Rattle.std.specs.BinaryHeap.{heap_items};
ghost use Rattle.ir_model.specs.{Topology.node_count, Walk.IsConnected};
ghost use Rattle.ir_tables.specs.Keys.{NoNode, Only};
ghost use Rattle.ir_tables.specs.Relaxation.{at, IsTight};
ghost use Rattle.ir_bounds.specs.Reaches.{AreWithin};
ghost use Rattle.ir_bounds.specs.Searches.{IsSearching};

use ir_tables::{Topology, UNREACHED};
use std::alloc::{AllocError, Global};
use std::cmp::Reverse;
use std::collections::BinaryHeap;

/// What an entry has for each unit of weight: more than any node. An entry that waits is a weight times this, plus the
/// node.
const UNIT: u64 = 65_536;

/// The weights of ways from a node, by node: the distance where that is less than the reach of the node. It is refused
/// for memory alone. Takes O(n + l log l), for n nodes and l links of the nodes that it reaches (Dijkstra 1959).
pub fn weights_within(
    alloc: Global,
    topology: &Topology,
    reaches: &[u64],
    u: u16,
) -> Result<Vec<u32>, AllocError>
    requires node { u < node_count topology.now }
    requires connected { IsConnected topology.now }
    requires every { length reaches.now ≡ node_count topology.now }
    requires slow { IsTight topology.now (at reaches.now) }
    ensures { IfOk result (λ weights. AreWithin topology.now u reaches.now weights.items) }
{
    topology.invariant();
    let mut weights = vec![in alloc; UNREACHED; topology.nodes()]?;
    weights[u as usize] = 0;
    let mut waiting = BinaryHeap::new(alloc);
    waiting.push(Reverse(u as u64))?;
    while let Some(Reverse(entry)) = waiting.pop() {
        let x = (entry % UNIT) as u16;
        if entry / UNIT == weights[x as usize] as u64 {
            go_on(
                topology,
                reaches,
                u,
                x,
                weights.as_mut_slice(),
                &mut waiting,
            )?;
        }
    }
    Ok(weights)
}

// In a search from `u`, offers the weight of `x` through its ports. Each neighbour with a greater one waits, unless its
// reach ends before.
fn go_on(
    topology: &Topology,
    reaches: &[u64],
    u: u16,
    x: u16,
    weights: &mut [u32],
    waiting: &mut BinaryHeap<Reverse<u64>>,
) -> Result<(), AllocError>
    requires node { x < node_count topology.now }
    requires every { length reaches.now ≡ node_count topology.now }
    requires so_far { IsSearching topology.now u reaches.now (Only x) weights.old (heap_items waiting.old) }
    ensures on { OnOk result (IsSearching topology.now u reaches.now NoNode weights.new (heap_items waiting.new)) }
    ensures falls { OnOk result (sum weights.new + length (heap_items waiting.new)
        ≤ sum weights.old + length (heap_items waiting.old)) }
{
    topology.invariant();
    let own = weights[x as usize] as u64;
    for hop in topology.ports(x as usize) {
        let y = hop.node as usize;
        let through = own + hop.weight as u64;
        if is_better(weights, reaches, y, through) {
            weights[y] = through as u32;
            waiting.push(Reverse(through * UNIT + y as u64))?;
        }
    }
    Ok(())
}

// Whether a weight is less than that of a node, and within its reach.
fn is_better(weights: &[u32], reaches: &[u64], y: usize, through: u64) -> bool
    requires weights { y < length weights.now }
    requires reaches { y < length reaches.now }
    ensures { IsTrue result ↔ ((through < at weights.now y) × (through < at reaches.now y)) }
{
    through < weights[y] as u64 && through < reaches[y]
}
