//! Whether the equation of the least weights holds, and a search for lanes in which it does.
ghost use Rattle.std.specs.Prelude.{◌≡◌, ◌<◌, ◌≤◌, length, IfOk, IfSome, IsTrue};
ghost use Rattle.ir_model.specs.Topology.{node_count, ports_of};
ghost use Rattle.ir_lanes.specs.{Lanes.{AreLeastOffers, AreNear}, Equation.{AreMet, IsMet}};

use crate::sweeps::{least_over, settle};
use crate::vectors::{LANES, are_found, are_same, lesser, load};
use ir_tables::Topology;
use std::alloc::{AllocError, Global};
use std::simd::prelude::*;

/// Whether the equation holds at a node, in all lanes, by what its ports offer.
#[inline(always)]
pub fn is_least(
    topology: &Topology,
    unit: u32,
    starts: &[u32],
    lanes: &[u32],
    u: usize,
    offered: u32x16,
) -> bool
    requires node { u < node_count topology.now }
    requires starts { AreNear topology.now starts.now }
    requires lanes { AreNear topology.now lanes.now }
    requires offered { AreLeastOffers (ports_of topology.now u) unit (length (ports_of topology.now u)) lanes.now
        offered }
    ensures { IsTrue result → IsMet topology.now unit starts.now lanes.now u }
{
    topology.invariant();
    let wanted = lesser(load(starts, u * LANES), offered);
    let own = load(lanes, u * LANES);
    are_same(own, wanted) && are_found(own)
}

// Whether the equation holds at a node, in all lanes.
fn is_met(topology: &Topology, unit: u32, starts: &[u32], lanes: &[u32], u: usize) -> bool
    requires node { u < node_count topology.now }
    requires unit { unit ≤ 32768 }
    requires starts { AreNear topology.now starts.now }
    requires lanes { AreNear topology.now lanes.now }
    ensures { IsTrue result → IsMet topology.now unit starts.now lanes.now u }
{
    topology.invariant();
    let offered = least_over(topology.ports(u), unit, lanes);
    is_least(topology, unit, starts, lanes, u, offered)
}

/// Whether the equation holds at all nodes, in all lanes. However the lanes were found: they are compared with what the
/// ports offer, once each.
fn are_met(topology: &Topology, unit: u32, starts: &[u32], lanes: &[u32]) -> bool
    requires unit { unit ≤ 32768 }
    requires starts { AreNear topology.now starts.now }
    requires lanes { AreNear topology.now lanes.now }
    ensures { IsTrue result → AreMet topology.now unit starts.now lanes.now }
{
    for u in 0..topology.nodes() {
        if !is_met(topology, unit, starts, lanes, u) {
            return false;
        }
    }
    true
}

/// Lanes in which the equation holds, from those that the search starts with; none where the sweeps do not find them in
/// time. They are found the sooner the nearer a node is to those that are searched from. It is refused for memory
/// alone.
pub fn settled(
    alloc: Global,
    topology: &Topology,
    unit: u32,
    starts: &[u32],
    node: usize,
) -> Result<Option<Vec<u32>>, AllocError>
    requires node { node < node_count topology.now }
    requires unit { unit ≤ 32768 }
    requires starts { AreNear topology.now starts.now }
    ensures met { IfOk result (λ found. IfSome found (λ lanes. AreMet topology.now unit starts.now lanes.items)) }
    ensures near { IfOk result (λ found. IfSome found (λ lanes. AreNear topology.now lanes.items)) }
{
    let mut lanes = Vec::from_slice(alloc, starts)?;
    settle(alloc, topology, unit, lanes.as_mut_slice(), node)?;
    if !are_met(topology, unit, starts, lanes.as_slice()) {
        return Ok(None);
    }
    Ok(Some(lanes))
}
