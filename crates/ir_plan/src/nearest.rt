//! The order in which a tour goes from each node to the nearest one that it has not visited.
ghost use Rattle.std.specs.Prelude.{◌≡◌, ℕ, ◌<◌, ◌≤◌, ◌↔◌, All, IfOk, IsTrue, length, slice_index};
ghost use Rattle.ir_plan.specs.declared.TheConstants.{MOST_TOUR_NODES};
ghost use Rattle.ir_numbering.specs.Numbering.{IsListing};
ghost use Rattle.ir_plan.specs.Tour.{IsNearestOrder, IsNoFarther};
ghost use Rattle.ir_plan.specs.Distances.{far_between};

use crate::distances::Distances;
use std::alloc::{AllocError, Global};

/// The nodes from a first one on, after each the nearest that is not among those before, of several
/// the one with the least number.
pub fn nearest_order(alloc: Global, far: &Distances, first: u16) -> Result<Vec<u16>, AllocError>
    requires first { first < far.now.nodes }
    requires few { far.now.nodes ≤ MOST_TOUR_NODES }
    ensures { IfOk result (λ order. IsNearestOrder far.now.nodes (far_between far.now.rows.items) first order.items) }
{
    let nodes = far.nodes();
    let mut order = numbers_below(alloc, nodes)?;
    order.swap(0, first as usize);
    for place in 1..nodes {
        let next = nearest(far.from(order[place - 1]), order.as_slice(), place);
        order.swap(place, next);
    }
    Ok(order)
}

// All numbers below one, in order.
fn numbers_below(alloc: Global, nodes: usize) -> Result<Vec<u16>, AllocError>
    requires { nodes ≤ MOST_TOUR_NODES }
    ensures listing { IfOk result (λ order. IsListing nodes order.items) }
    ensures own { IfOk result (λ order. (v : ℕ) → v < nodes → slice_index order.items v ≡ v) }
{
    let mut order = Vec::with_capacity(alloc, nodes)?;
    for v in 0..nodes {
        order.push(v as u16)?;
    }
    Ok(order)
}

// The place of the nearest node from a place on, of several the one with the least number.
fn nearest(distances: &[u16], order: &[u16], from: usize) -> usize
    requires inside { from < length order.now }
    requires nodes { All (λ v. v < length distances.now) order.now }
    ensures behind { from ≤ result }
    ensures inside { result < length order.now }
    ensures nearest { (j : ℕ) → from ≤ j → j < length order.now
        → IsNoFarther (slice_index distances.now) (slice_index order.now result) (slice_index order.now j) }
{
    let mut best = from;
    for place in from + 1..order.len() {
        if !is_no_farther(distances, order[best], order[place]) {
            best = place;
        }
    }
    best
}

// Whether one node is nearer than another, or as near and of no greater number.
fn is_no_farther(distances: &[u16], v: u16, w: u16) -> bool
    requires one { v < length distances.now }
    requires other { w < length distances.now }
    ensures { IsTrue result ↔ IsNoFarther (slice_index distances.now) v w }
{
    let (near, far) = (distances[v as usize], distances[w as usize]);
    near < far || near == far && v <= w
}
