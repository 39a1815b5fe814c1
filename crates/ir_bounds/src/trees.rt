//! The trees of the blocks of landmarks.

ghost use Rattle.std.specs.Prelude.{◌≡◌, ◌<◌, ◌≤◌, ◌⊎◌, ◌↔◌, ◌==◌, ℕ, All, IfOk, IfSome, IsTrue, None, Some, filter, length, map, slice_index};
ghost use Rattle.ir_model.specs.{declared.Hop.Hop, Topology.node_count, Walk.IsConnected};
ghost use Rattle.ir_model.specs.Landmark.{IsBlockParent, followers};
ghost use Rattle.ir_numbering.specs.Search.{list_at};
ghost use Rattle.ir_bounds.specs.Bounds.{AreOwners};
ghost use Rattle.ir_bounds.specs.Blocks.{IsInward};

use crate::landmarks::Owners;
use ir_model::Hop;
use ir_tables::Topology;
use std::alloc::{AllocError, Global};

/// The parent of each node of a connected network in the tree of its block. It is refused for memory alone. Takes
/// O(n + m), for n nodes and m links.
pub fn block_parents(
    alloc: Global,
    topology: &Topology,
    owners: &Owners,
) -> Result<Vec<u16>, AllocError>
    requires connected { IsConnected topology.now }
    requires owners { AreOwners topology.now owners.now.landmarks.items owners.now }
    ensures every { IfOk result (λ parents. length parents.items ≡ node_count topology.now) }
    ensures each { IfOk result (λ parents. (v : ℕ) → v < node_count topology.now
        → IsBlockParent topology.now owners.now.landmarks.items v (slice_index parents.items v)) }
{
    topology.invariant();
    let nodes = topology.nodes();
    let mut parents = Vec::with_capacity(alloc, nodes)?;
    for v in 0..nodes {
        parents.push(block_parent(topology, owners, v as u16))?;
    }
    Ok(parents)
}

// The parent of a node in the tree of its block.
fn block_parent(topology: &Topology, owners: &Owners, v: u16) -> u16
    requires connected { IsConnected topology.now }
    requires owners { AreOwners topology.now owners.now.landmarks.items owners.now }
    requires node { v < node_count topology.now }
    ensures { IsBlockParent topology.now owners.now.landmarks.items v result }
{
    topology.invariant();
    let ports = topology.ports(v as usize);
    let mut best = None;
    for hop in ports {
        if is_inward(owners, v, *hop) {
            best = Some(least(best, hop.node));
        }
    }
    or_itself(best, v)
}

// The parent that was found, or the node itself.
fn or_itself(best: Option<u16>, v: u16) -> u16
    ensures none { best ≡ None → result ≡ v }
    ensures some { IfSome best (λ x. result ≡ x) }
{
    match best {
        None => v,
        Some(x) => x,
    }
}

// Whether a port of a node is on a shortest way to the landmark of the node.
fn is_inward(owners: &Owners, v: u16, hop: Hop) -> bool
    requires nodes { v < length owners.now.nodes.items }
    requires radii { length owners.now.radii.items ≡ length owners.now.nodes.items }
    requires hop { hop.node < length owners.now.nodes.items }
    ensures { IsTrue result ↔ IsInward owners.now.nodes.items owners.now.radii.items v hop }
{
    let u = hop.node as usize;
    let v = v as usize;
    owners.nodes[u] == owners.nodes[v]
        && owners.radii[v] as u64 == hop.weight as u64 + owners.radii[u] as u64
}

// The lesser of two numbers, or the second where there is no first.
fn least(best: Option<u16>, x: u16) -> u16
    ensures at_most { result ≤ x }
    ensures best { IfSome best (λ y. result ≤ y) }
    ensures one { (result ≡ x) ⊎ (best ≡ Some result) }
{
    match best {
        None => x,
        Some(y) => { if y < x { y } else { x } }
    }
}

/// The nodes that may follow each one in depth-first order, by the parents of all. It is refused for memory alone.
/// Takes O(n + m), for n nodes and m links.
pub fn follower_lists(
    alloc: Global,
    topology: &Topology,
    landmarks: &[u16],
    parents: &[u16],
) -> Result<Vec<Vec<u16>>, AllocError>
    requires some { 0 < length landmarks.now }
    requires parents { length parents.now ≡ node_count topology.now }
    ensures every { IfOk result (λ lists. length lists.items ≡ node_count topology.now) }
    ensures each { IfOk result (λ lists. (u : ℕ) → u < node_count topology.now
        → list_at lists.items u ≡ followers topology.now landmarks.now (slice_index parents.now) u) }
{
    topology.invariant();
    let nodes = topology.nodes();
    let mut lists = Vec::with_capacity(alloc, nodes)?;
    for u in 0..nodes {
        lists.push(follower_list(alloc, topology, landmarks, parents, u as u16)?)?;
    }
    Ok(lists)
}

// The nodes that may follow a node: its sons, and after those of the first landmark the other landmarks.
fn follower_list(
    alloc: Global,
    topology: &Topology,
    landmarks: &[u16],
    parents: &[u16],
    u: u16,
) -> Result<Vec<u16>, AllocError>
    requires some { 0 < length landmarks.now }
    requires parents { length parents.now ≡ node_count topology.now }
    requires node { u < node_count topology.now }
    ensures { IfOk result (λ list. list.items ≡ followers topology.now landmarks.now (slice_index parents.now) u) }
{
    topology.invariant();
    let mut list = sons(alloc, topology.ports(u as usize), parents, u)?;
    if landmarks[0] == u {
        list.extend_from_slice(&landmarks[1..])?;
    }
    Ok(list)
}

// Where those ports lead that lead to nodes with this parent, in order.
fn sons(alloc: Global, ports: &[Hop], parents: &[u16], u: u16) -> Result<Vec<u16>, AllocError>
    requires { All (λ (hop : Hop). hop.node < length parents.now) ports.now }
    ensures { IfOk result (λ list. list.items
        ≡ filter (λ v. slice_index parents.now v == u) (map (λ (hop : Hop). hop.node) ports.now)) }
{
    let mut list = Vec::new(alloc);
    for hop in ports {
        if parents[hop.node as usize] == u {
            list.push(hop.node)?;
        }
    }
    Ok(list)
}
