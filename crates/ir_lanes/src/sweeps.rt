//! Sweeps over the ports of all nodes, which lower what is in the lanes.
ghost use Rattle.std.specs.Prelude.{◌≡◌, ℕ, ◌+◌, ◌*◌, ◌<◌, ◌≤◌, Some, length, slice_get, slice_index};
ghost use Rattle.ir_model.specs.{declared.Hop.Hop, Topology.node_count};
ghost use Rattle.ir_lanes.specs.Lanes.{AreLeastOffers, AreNear, HaveLanes, far, most_added};

use crate::order::{by_distance, by_number, is_mesh};
use crate::vectors::{LANES, are_same, farther, lesser, load, store};
use ir_model::Hop;
use ir_tables::Topology;
use std::alloc::{AllocError, Global};
use std::simd::prelude::*;

/// The most sweeps of a list of nodes at a time.
const MOST_SWEEPS: usize = 64;

/// After the work of so many passes over all links another way is taken.
const MOST_PASSES: usize = 20;

/// How many windows an order by distance has.
const WINDOWS: usize = 8;

/// In each lane the least weight that a port offers; a port's weight counts `unit` times.
#[inline(always)]
pub fn least_over(ports: &[Hop], unit: u32, lanes: &[u32]) -> u32x16
    requires have { HaveLanes ports.now lanes.now }
    requires light { (p : ℕ) (hop : Hop) → slice_get ports.now p ≡ Some hop → hop.weight * unit ≤ most_added }
    requires near { (i : ℕ) → slice_index lanes.now i ≤ far }
    ensures { AreLeastOffers ports.now unit (length ports.now) lanes.now result }
{
    let mut least = u32x16::splat(u32::MAX);
    for hop in ports {
        let there = load(lanes, hop.node as usize * LANES);
        least = lesser(least, farther(there, hop.weight * unit));
    }
    least
}

// Takes what the ports of a node offer where that is less, and returns whether it was in any lane.
fn pull(topology: &Topology, unit: u32, lanes: &mut [u32], u: usize) -> bool
    requires node { u < node_count topology.now }
    requires unit { unit ≤ 32768 }
    requires lanes { AreNear topology.now lanes.old }
    ensures { AreNear topology.now lanes.new }
{
    topology.invariant();
    let own = load(lanes, u * LANES);
    let less = lesser(own, least_over(topology.ports(u), unit, lanes));
    if are_same(own, less) {
        return false;
    }
    store(less, lanes, u * LANES);
    true
}

// Pulls at each node of a list that waits, forward or backward; where that changes its lanes its neighbours wait. How
// many ports it pulled by.
fn sweep(
    topology: &Topology,
    unit: u32,
    lanes: &mut [u32],
    waits: &mut [bool],
    list: &[u16],
    forward: bool,
) -> usize
    requires unit { unit ≤ 32768 }
    requires lanes { AreNear topology.now lanes.old }
    requires waits { length waits.old ≡ node_count topology.now }
    ensures lanes { AreNear topology.now lanes.new }
    ensures waits { length waits.new ≡ node_count topology.now }
{
    let nodes = topology.nodes();
    let mut work = 0usize;
    for i in 0..list.len() {
        let place = if forward { i } else { list.len() - 1 - i };
        let u = list[place] as usize;
        if u < nodes && waits[u] {
            waits[u] = false;
            work = work.saturating_add(topology.ports(u).len());
            if pull(topology, unit, lanes, u) {
                wake(topology, waits, u);
            }
        }
    }
    work
}

// The neighbours of a node wait.
fn wake(topology: &Topology, waits: &mut [bool], u: usize)
    requires node { u < node_count topology.now }
    requires waits { length waits.old ≡ node_count topology.now }
    ensures { length waits.new ≡ node_count topology.now }
{
    topology.invariant();
    for hop in topology.ports(u) {
        waits[hop.node as usize] = true;
    }
}

// Sweeps over the nodes of a list forward and backward by turns, until none of them waits, or for `MOST_SWEEPS` or the
// work of `MOST_PASSES`. How many ports it pulled by.
fn turns(
    topology: &Topology,
    unit: u32,
    lanes: &mut [u32],
    waits: &mut [bool],
    list: &[u16],
) -> usize
    requires unit { unit ≤ 32768 }
    requires lanes { AreNear topology.now lanes.old }
    requires waits { length waits.old ≡ node_count topology.now }
    ensures lanes { AreNear topology.now lanes.new }
    ensures waits { length waits.new ≡ node_count topology.now }
{
    let most = most_work(topology);
    let mut work = 0usize;
    for turn in 0..MOST_SWEEPS {
        let more = sweep(topology, unit, lanes, waits, list, turn % 2 == 0);
        work = work.saturating_add(more);
        if more == 0 || work > most {
            break;
        }
    }
    work
}

// By how many ports is pulled at most.
fn most_work(topology: &Topology) -> usize {
    topology.links().saturating_mul(2 * MOST_PASSES)
}

// Turns over each window of an order, one after the other, forward or backward. How many ports it pulled by.
fn round(
    topology: &Topology,
    unit: u32,
    lanes: &mut [u32],
    waits: &mut [bool],
    order: &[u16],
    forward: bool,
) -> usize
    requires unit { unit ≤ 32768 }
    requires lanes { AreNear topology.now lanes.old }
    requires waits { length waits.old ≡ node_count topology.now }
    ensures lanes { AreNear topology.now lanes.new }
    ensures waits { length waits.new ≡ node_count topology.now }
{
    let mut work = 0usize;
    for k in 0..WINDOWS {
        let window = window_of(order, if forward { k } else { WINDOWS - 1 - k });
        work = work.saturating_add(turns(topology, unit, lanes, waits, window));
    }
    work
}

// A window of an order.
fn window_of(order: &[u16], k: usize) -> &[u16] {
    let size = order.len() / WINDOWS + 1;
    let begin = size.saturating_mul(k).min(order.len());
    let end = begin.saturating_add(size).min(order.len());
    &order[begin..end]
}

// Rounds over the windows of an order, forward and backward by turns, until no node waits, or for the work of
// `MOST_PASSES`.
fn rounds(topology: &Topology, unit: u32, lanes: &mut [u32], waits: &mut [bool], order: &[u16])
    requires unit { unit ≤ 32768 }
    requires lanes { AreNear topology.now lanes.old }
    requires waits { length waits.old ≡ node_count topology.now }
    ensures { AreNear topology.now lanes.new }
{
    let most = most_work(topology);
    let mut work = 0usize;
    for turn in 0..MOST_SWEEPS {
        let more = round(topology, unit, lanes, waits, order, turn % 2 == 0);
        work = work.saturating_add(more);
        if more == 0 || work > most {
            break;
        }
    }
}

/// Sweeps until no node waits, or for the work of about `MOST_PASSES`: in a mesh by the distances from a node, else by
/// number.
pub fn settle(
    alloc: Global,
    topology: &Topology,
    unit: u32,
    lanes: &mut [u32],
    node: usize,
) -> Result<(), AllocError>
    requires unit { unit ≤ 32768 }
    requires node { node < node_count topology.now }
    requires lanes { AreNear topology.now lanes.old }
    ensures { AreNear topology.now lanes.new }
{
    let nodes = topology.nodes();
    let mut waits = vec![in alloc; true; nodes]?;
    let waits = waits.as_mut_slice();
    if is_mesh(topology) {
        let order = by_distance(alloc, topology, node)?;
        rounds(topology, unit, lanes, waits, order.as_slice());
    } else {
        let order = by_number(alloc, nodes)?;
        turns(topology, unit, lanes, waits, order.as_slice());
    }
    Ok(())
}
