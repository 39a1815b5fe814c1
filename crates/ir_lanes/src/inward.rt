//! Which ports lead nearer to sixteen nodes, by the distances from all nodes to these.
ghost use Rattle.std.specs.Prelude.{◌≡◌, ℕ, ◌+◌, ◌*◌, ◌<◌, ◌≤◌, IfOk, IfSome, OnOk, IsTrue, length, slice_index};
ghost use Rattle.ir_model.specs.Topology.{node_count};
ghost use Rattle.ir_lanes.specs.{Lanes.{AreNear, far, in_lane}, Equation.{AreMet, IsEndStart, IsMet}};
ghost use Rattle.ir_lanes.specs.Inward.{AreTightWords, ArePortWords, IsPushed};

use crate::equation::is_least;
use crate::sweeps::settle;
use crate::vectors::{FAR, LANES, farther, lesser, load, same_lanes};
use ir_tables::Topology;
use std::alloc::{AllocError, Global};
use std::simd::prelude::*;

/// A word for each port of each node, in order, in which the bit k is set where the port leads nearer to the node k of
/// sixteen. None, where the distances to these were not found in 64 sweeps and by the work of 20 passes over all links,
/// as where some node has no walk to one of them. A node may come several times. Condition: they are nodes. It is
/// refused for memory alone. Takes O(n + m) for each sweep, for n nodes and m links.
pub fn words_toward(
    alloc: Global,
    topology: &Topology,
    ends: &[u16],
) -> Result<Option<Vec<u16>>, AllocError>
    requires sixteen { length ends.now ≡ 16 }
    requires nodes { (k : ℕ) → k < 16 → slice_index ends.now k < node_count topology.now }
    ensures { IfOk result (λ found. IfSome found (λ words. ArePortWords topology.now ends.now words.items)) }
{
    topology.invariant();
    let starts = end_starts(alloc, topology, ends)?;
    let lanes = lanes_from(alloc, topology, starts.as_slice(), ends)?;
    let Some(words) = met_words(alloc, topology, starts.as_slice(), lanes.as_slice())? else {
        return Ok(None);
    };
    Ok(Some(words))
}

// Lanes in which the sweeps from these starts have lowered what they could.
fn lanes_from(
    alloc: Global,
    topology: &Topology,
    starts: &[u32],
    ends: &[u16],
) -> Result<Vec<u32>, AllocError>
    requires sixteen { length ends.now ≡ 16 }
    requires nodes { (k : ℕ) → k < 16 → slice_index ends.now k < node_count topology.now }
    requires starts { AreNear topology.now starts.now }
    ensures { IfOk result (λ lanes. AreNear topology.now lanes.items) }
{
    let mut lanes = Vec::from_slice(alloc, starts)?;
    near_ends(topology, lanes.as_mut_slice(), ends);
    let middle = ends[LANES / 2] as usize;
    settle(alloc, topology, 1, lanes.as_mut_slice(), middle)?;
    Ok(lanes)
}

// The words of all ports, by the weights in the lanes, where the equation holds in these.
fn met_words(
    alloc: Global,
    topology: &Topology,
    starts: &[u32],
    lanes: &[u32],
) -> Result<Option<Vec<u16>>, AllocError>
    requires starts { AreNear topology.now starts.now }
    requires lanes { AreNear topology.now lanes.now }
    ensures met { IfOk result (λ found. IfSome found (λ words. AreMet topology.now 1 starts.now lanes.now)) }
    ensures words { IfOk result (λ found. IfSome found (λ words.
        AreTightWords topology.now lanes.now (node_count topology.now) words.items)) }
{
    let nodes = topology.nodes();
    let mut words = Vec::with_capacity(alloc, topology.links() * 2)?;
    for u in 0..nodes {
        if !push_words(topology, starts, lanes, u, &mut words)? {
            return Ok(None);
        }
    }
    Ok(Some(words))
}

// Puts a word after the others for each port of a node. Its bit k is set where the weight in lane k is that of a step
// by the port and what is there. Whether the equation holds at the node is reported.
fn push_words(
    topology: &Topology,
    starts: &[u32],
    lanes: &[u32],
    u: usize,
    words: &mut Vec<u16>,
) -> Result<bool, AllocError>
    requires node { u < node_count topology.now }
    requires starts { AreNear topology.now starts.now }
    requires near { AreNear topology.now lanes.now }
    ensures pushed { OnOk result (IsPushed topology.now lanes.now u words.old.items words.new.items) }
    ensures met { IfOk result (λ met. IsTrue met → IsMet topology.now 1 starts.now lanes.now u) }
{
    topology.invariant();
    let own = load(lanes, u * LANES);
    let mut least = u32x16::splat(u32::MAX);
    for hop in topology.ports(u) {
        let there = load(lanes, hop.node as usize * LANES);
        let through = farther(there, hop.weight);
        words.push(same_lanes(own, through))?;
        least = lesser(least, through);
    }
    Ok(is_least(topology, 1, starts, lanes, u, least))
}

// The lanes that the search for the distances to sixteen nodes starts with: 0 at each in its lane.
fn end_starts(alloc: Global, topology: &Topology, ends: &[u16]) -> Result<Vec<u32>, AllocError>
    requires sixteen { length ends.now ≡ 16 }
    requires nodes { (k : ℕ) → k < 16 → slice_index ends.now k < node_count topology.now }
    ensures near { IfOk result (λ starts. AreNear topology.now starts.items) }
    ensures starts { IfOk result (λ starts. (k : ℕ) → k < 16
        → IsEndStart topology.now (slice_index ends.now k) (in_lane starts.items k)) }
{
    let mut starts = vec![in alloc; FAR; topology.nodes() * LANES]?;
    put_ends(topology, starts.as_mut_slice(), ends);
    Ok(starts)
}

// In lanes where nothing is near yet each of sixteen nodes gets 0 in its lane.
fn put_ends(topology: &Topology, starts: &mut [u32], ends: &[u16])
    requires sixteen { length ends.now ≡ 16 }
    requires nodes { (k : ℕ) → k < 16 → slice_index ends.now k < node_count topology.now }
    requires near { AreNear topology.now starts.old }
    requires empty { (k v : ℕ) → k < 16 → v < node_count topology.now → far ≤ in_lane starts.old k v }
    ensures near { AreNear topology.now starts.new }
    ensures starts { (k : ℕ) → k < 16 → IsEndStart topology.now (slice_index ends.now k) (in_lane starts.new k) }
{
    topology.invariant();
    for lane in 0..LANES {
        starts[ends[lane] as usize * LANES + lane] = 0;
    }
}

// Each neighbour of the node of a lane gets the weight of the port to it, which spares the sweeps one step.
fn near_ends(topology: &Topology, lanes: &mut [u32], ends: &[u16])
    requires sixteen { length ends.now ≡ 16 }
    requires nodes { (k : ℕ) → k < 16 → slice_index ends.now k < node_count topology.now }
    requires near { AreNear topology.now lanes.old }
    ensures { AreNear topology.now lanes.new }
{
    topology.invariant();
    for lane in 0..LANES {
        near_end(topology, lanes, lane, ends[lane]);
    }
}

// In a lane each neighbour of a node gets the weight of the port to it.
fn near_end(topology: &Topology, lanes: &mut [u32], lane: usize, end: u16)
    requires node { end < node_count topology.now }
    requires lane { lane < 16 }
    requires near { AreNear topology.now lanes.old }
    ensures { AreNear topology.now lanes.new }
{
    topology.invariant();
    for hop in topology.ports(end as usize) {
        lanes[hop.node as usize * LANES + lane] = hop.weight;
    }
}
