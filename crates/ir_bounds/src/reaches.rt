//! How far the searches for near nodes go. To which nodes a node is near depends on how far their landmarks are, so a
//! search from it may end there.

ghost use Rattle.std.specs.Prelude.{◌≡◌, ◌<◌, ◌≤◌, ◌+◌, ℕ, IfOk, Some, length, nat_lt, count_by, false};
ghost use Rattle.ir_model.specs.{Topology.{node_count, port_at}, Walk.IsConnected, Landmark.is_far};
ghost use Rattle.ir_model.specs.declared.Hop.{Hop};
ghost use Rattle.ir_tables.specs.Relaxation.{at, IsTight};
ghost use Rattle.ir_bounds.specs.Bounds.{AreOwners};
ghost use Rattle.ir_bounds.specs.Reaches.{AreReaches, AreShortReaches};

use crate::landmarks::Owners;
use crate::search::weights_within;
use ir_tables::{Topology, UNREACHED};
use std::alloc::{AllocError, Global};

/// How often reaches are raised along links.
const MOST_SWEEPS: usize = 64;

/// From how many nodes a search is tried, at most.
const TRIES: usize = 16;

/// Of how many nodes one is found, at most, where searches are short.
const SHORT: usize = 8;

/// The fewest nodes of a network in which searches are tried.
const LEAST_NODES: usize = 64;

/// The reaches of all nodes, where searches that end at them are short, and none where whole searches do as well. It is
/// refused for memory alone. Takes O(n + m) for each sweep, and some searches, for n nodes and m links.
pub fn short_reaches(
    alloc: Global,
    topology: &Topology,
    owners: &Owners,
    stretch: u16,
) -> Result<Option<Vec<u64>>, AllocError>
    requires connected { IsConnected topology.now }
    requires owners { AreOwners topology.now owners.now.landmarks.items owners.now }
    ensures { IfOk result (AreShortReaches topology.now stretch owners.now) }
{
    if stretch <= 100 || topology.nodes() < LEAST_NODES {
        return Ok(None);
    }
    let reaches = reaches_of(alloc, topology, owners, stretch)?;
    if !are_short(alloc, topology, reaches.as_slice())? {
        return Ok(None);
    }
    Ok(Some(reaches))
}

// Whether searches from some nodes that end at these reaches find few nodes.
fn are_short(alloc: Global, topology: &Topology, reaches: &[u64]) -> Result<bool, AllocError>
    requires connected { IsConnected topology.now }
    requires every { length reaches.now ≡ node_count topology.now }
    requires slow { IsTight topology.now (at reaches.now) }
{
    topology.invariant();
    let nodes = topology.nodes();
    let (mut found, mut all) = (0usize, 0usize);
    let mut u = 0;
    while u < nodes {
        let weights = weights_within(alloc, topology, reaches, u as u16)?;
        found = found.saturating_add(found_in(weights.as_slice()));
        all = all.saturating_add(nodes);
        u += nodes / TRIES + 1;
    }
    Ok(found.saturating_mul(SHORT) <= all)
}

// How many nodes a search found.
fn found_in(weights: &[u32]) -> usize
    ensures { result ≡ count_by (λ weight. nat_lt weight 4294967295) weights.now }
{
    weights.iter().filter(|weight| **weight < UNREACHED).count()
}

// The reaches of all nodes.
fn reaches_of(
    alloc: Global,
    topology: &Topology,
    owners: &Owners,
    stretch: u16,
) -> Result<Vec<u64>, AllocError>
    requires stretch { 100 < stretch }
    requires owners { AreOwners topology.now owners.now.landmarks.items owners.now }
    ensures { IfOk result (λ reaches. AreReaches topology.now stretch owners.now.radii.items reaches.items) }
{
    topology.invariant();
    let mut reaches = own_reaches(alloc, owners.radii.as_slice(), stretch)?;
    for _ in 0..MOST_SWEEPS {
        if !raise_all(topology, reaches.as_mut_slice()) {
            return Ok(reaches);
        }
    }
    level(alloc, reaches.as_slice())
}

// For each node how far it is near at most, and one more.
fn own_reaches(alloc: Global, radii: &[u32], stretch: u16) -> Result<Vec<u64>, AllocError>
    requires stretch { 100 < stretch }
    ensures every { IfOk result (λ reaches. length reaches.items ≡ length radii.now) }
    ensures near { IfOk result (λ reaches. (d : ℕ) → d < length radii.now
        → (away : ℕ) → is_far stretch away (at radii.now d) ≡ false → away < at reaches.items d) }
{
    let more = stretch as u64 - 100;
    let mut reaches = Vec::with_capacity(alloc, radii.len())?;
    for radius in radii {
        reaches.push((200 * *radius as u64 + more - 1) / more)?;
    }
    Ok(reaches)
}

// Raises reaches along all links where they fall by more than a link weighs. Whether it raised one.
fn raise_all(topology: &Topology, reaches: &mut [u64]) -> bool
    requires every { length reaches.old ≡ node_count topology.now }
    ensures raised { (d : ℕ) → d < length reaches.old → at reaches.old d ≤ at reaches.new d }
    ensures settled { result ≡ false → IsTight topology.now (at reaches.new) }
{
    topology.invariant();
    let mut has_raised = false;
    for x in 0..topology.nodes() {
        if raise_from(topology, x as u16, reaches) {
            has_raised = true;
        }
    }
    has_raised
}

// Raises the reaches of the neighbours of a node where they are less by more than the link weighs. Whether it raised one.
fn raise_from(topology: &Topology, x: u16, reaches: &mut [u64]) -> bool
    requires node { x < node_count topology.now }
    requires every { length reaches.old ≡ node_count topology.now }
    ensures raised { (d : ℕ) → d < length reaches.old → at reaches.old d ≤ at reaches.new d }
    ensures same { result ≡ false → reaches.new ≡ reaches.old }
    ensures settled { result ≡ false → (p : ℕ) (hop : Hop) → port_at topology.now x p ≡ Some hop
        → at reaches.new x ≤ hop.weight + at reaches.new hop.node }
{
    topology.invariant();
    let own = reaches[x as usize];
    let mut has_raised = false;
    for hop in topology.ports(x as usize) {
        let y = hop.node as usize;
        let least = own.saturating_sub(hop.weight as u64);
        if reaches[y] < least {
            reaches[y] = least;
            has_raised = true;
        }
    }
    has_raised
}

// As many reaches, all of them the greatest.
fn level(alloc: Global, reaches: &[u64]) -> Result<Vec<u64>, AllocError>
    ensures every { IfOk result (λ even. length even.items ≡ length reaches.now) }
    ensures raised { IfOk result (λ even. (d : ℕ) → d < length reaches.now → at reaches.now d ≤ at even.items d) }
    ensures same { IfOk result (λ even. (x y : ℕ) → x < length reaches.now → y < length reaches.now
        → at even.items x ≡ at even.items y) }
{
    let mut most = 0u64;
    for reach in reaches {
        most = most.max(*reach);
    }
    vec![in alloc; most; reaches.len()]
}
