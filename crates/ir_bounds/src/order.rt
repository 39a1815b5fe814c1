//! The landmarks of a plan, and its labels.

ghost use Rattle.std.specs.Prelude.{◌≡◌, ◌<◌, ◌≤◌, ◌⊎◌, ◌↔◌, ℕ, IfOk, IfSome, IsTrue, None, true, false, length, slice_index_or};
ghost use Rattle.ir_model.specs.{Topology.{node_count, ports_of}, Walk.IsConnected};
ghost use Rattle.ir_model.specs.Landmark.{AreBlocks, AreLandmarks, AreMostLinked, IsMostLinked};
ghost use Rattle.ir_bounds.specs.Bounds.{AreOwners};

use crate::landmarks::Owners;
use crate::trees::{block_parents, follower_lists};
use ir_numbering::search_lists;
use ir_tables::Topology;
use std::alloc::{AllocError, Global};

/// The nodes of a connected network by label in a landmark plan: those of each landmark in turn, depth first in the
/// tree of its block. It is refused for memory alone. Takes O(n + m), for n nodes and m links.
pub fn block_order(
    alloc: Global,
    topology: &Topology,
    owners: &Owners,
) -> Result<Vec<u16>, AllocError>
    requires connected { IsConnected topology.now }
    requires landmarks { AreLandmarks topology.now owners.now.landmarks.items }
    requires owners { AreOwners topology.now owners.now.landmarks.items owners.now }
    ensures { IfOk result (λ order. AreBlocks topology.now owners.now.landmarks.items order.items) }
{
    topology.invariant();
    let parents = block_parents(alloc, topology, owners)?;
    let lists = follower_lists(
        alloc,
        topology,
        owners.landmarks.as_slice(),
        parents.as_slice(),
    )?;
    let order = search_lists(alloc, lists.as_slice(), owners.landmarks[0])?;
    Ok(order.nodes)
}

/// The landmarks of a plan: its root, and after it the nodes of most links, of as many the least number first; at
/// most so many. It is refused for memory alone. Takes O(k n), for k landmarks and n nodes.
pub fn most_linked(
    alloc: Global,
    topology: &Topology,
    root: u16,
    count: usize,
) -> Result<Vec<u16>, AllocError>
    requires root { root < node_count topology.now }
    requires some { 0 < count }
    ensures chosen { IfOk result (λ landmarks. AreMostLinked topology.now root count landmarks.items) }
    ensures landmarks { IfOk result (λ landmarks. AreLandmarks topology.now landmarks.items) }
{
    let nodes = topology.nodes();
    let mut landmarks = Vec::new(alloc);
    let mut marks = vec![in alloc; false; nodes]?;
    landmarks.push(root)?;
    marks[root as usize] = true;
    for i in 1..count {
        match next_linked(topology, marks.as_slice()) {
            None => return Ok(landmarks),
            Some(next) => {
                landmarks.push(next)?;
                marks[next as usize] = true;
            }
        }
    }
    Ok(landmarks)
}

// The node without a mark that has the most ports, of as many the one with the least number; none where each has a
// mark.
fn next_linked(topology: &Topology, marks: &[bool]) -> Option<u16>
    requires { length marks.now ≡ node_count topology.now }
    ensures none { result ≡ None → (v : ℕ) → v < node_count topology.now
        → slice_index_or marks.now v false ≡ true }
    ensures node { IfSome result (λ x. x < node_count topology.now) }
    ensures free { IfSome result (λ x. slice_index_or marks.now x false ≡ false) }
    ensures most { IfSome result (λ x. (v : ℕ) → v < node_count topology.now
        → slice_index_or marks.now v false ≡ false
        → (length (ports_of topology.now v) < length (ports_of topology.now x))
        ⊎ ((length (ports_of topology.now v) ≡ length (ports_of topology.now x)) × (x ≤ v))) }
{
    topology.invariant();
    let mut best = None;
    for v in 0..marks.len() {
        if !marks[v] && is_more_linked(topology, v as u16, best) {
            best = Some(v as u16);
        }
    }
    best
}

// Whether a node has more ports than another, or there is no other.
fn is_more_linked(topology: &Topology, v: u16, best: Option<u16>) -> bool
    requires node { v < node_count topology.now }
    requires best { IfSome best (λ x. x < node_count topology.now) }
    ensures none { best ≡ None → IsTrue result }
    ensures some { IfSome best (λ x. IsTrue result
        ↔ (length (ports_of topology.now x) < length (ports_of topology.now v))) }
{
    match best {
        None => true,
        Some(x) => topology.degree(x) < topology.degree(v),
    }
}
