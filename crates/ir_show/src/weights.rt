//! The weights of the walks that a plan prescribes to one node, and their sums.
ghost use Rattle.std.specs.Prelude.{◌≡◌, ◌≤◌, ◌<◌, ◌*◌, ◌==◌, ℕ, if◌then◌else◌, length, IfOk};
ghost use Rattle.ir_model.specs.{Topology.node_count, Plan.{IsPlan, table_port}};
ghost use Rattle.ir_tables.specs.{Relaxation.{at, unreached}, Listed.{IsWay, IsFilled, AreWays}};
ghost use Rattle.ir_show.specs.Figures.{sum_to};

use crate::walk::hop_towards;
use ir_plan::Plan;
use ir_tables::UNREACHED;
use std::alloc::{AllocError, Global};

/// The weight of the prescribed walk from `u` to `d`, which is followed up to the first node with a known weight.
fn weight_of_walk(plan: &Plan, d: u16, weights: &[u32], u: u16) -> u32
    requires plan { IsPlan plan.now }
    requires end { d < node_count plan.now.topology }
    requires filled { IsFilled plan.now.topology (table_port plan.now) d weights.now }
    requires node { u < node_count plan.now.topology }
    ensures { IsWay plan.now.topology (table_port plan.now) d u result }
{
    let mut x = u;
    let mut sum = 0;
    for _step in 0..plan.nodes() {
        let known = weights[x as usize];
        if known != UNREACHED {
            return sum + known;
        }
        let hop = hop_towards(plan, x, d);
        sum += hop.weight;
        x = hop.node;
    }
    sum
}

/// Writes the weights of the nodes on the prescribed walk from `u` to `d`, which weighs `total`, up to the first node
/// with a known weight.
fn write_walk(plan: &Plan, d: u16, weights: &mut [u32], u: u16, total: u32)
    requires plan { IsPlan plan.now }
    requires end { d < node_count plan.now.topology }
    requires filled { IsFilled plan.now.topology (table_port plan.now) d weights.old }
    requires node { u < node_count plan.now.topology }
    requires way { IsWay plan.now.topology (table_port plan.now) d u total }
    ensures filled { IsFilled plan.now.topology (table_port plan.now) d weights.new }
    ensures known { at weights.new u < unreached }
    ensures keeps { (v : ℕ) → at weights.old v < unreached → at weights.new v < unreached }
{
    let mut x = u;
    let mut left = total;
    for _step in 0..plan.nodes() {
        if weights[x as usize] != UNREACHED {
            return;
        }
        weights[x as usize] = left;
        let hop = hop_towards(plan, x, d);
        left -= hop.weight;
        x = hop.node;
    }
}

/// The weights of the walks that a plan prescribes to one node, by the node that the walk begins with. They take memory
/// for one destination's worth, and each node is left once or twice, since what is known is not followed again.
pub fn walk_weights_to(alloc: Global, plan: &Plan, d: u16) -> Result<Vec<u32>, AllocError>
    requires { d < node_count plan.now.topology }
    ensures { IfOk result (λ weights. AreWays plan.now.topology (table_port plan.now) d weights.items) }
{
    let nodes = plan.nodes();
    let mut weights = vec![in alloc; UNREACHED; nodes]?;
    weights[d as usize] = 0;
    for u in 0..nodes {
        let total = weight_of_walk(plan, d, weights.as_slice(), u as u16);
        write_walk(plan, d, weights.as_mut_slice(), u as u16, total);
    }
    Ok(weights)
}

/// The weight from a node to another, and 0 to the node itself.
fn weight_apart(weights: &[u32], u: usize, d: u16) -> u32
    requires { u < length weights.now }
    ensures { result ≡ (if u == d then 0 else at weights.now u) }
{
    if u == d as usize { 0 } else { weights[u] }
}

/// The sum of the weights to a node from the others.
pub fn sum_to(weights: &[u32], d: u16) -> u64
    requires few { length weights.now ≤ 32768 }
    ensures sum { result ≡ sum_to (length weights.now) (at weights.now) d }
    ensures light { result ≤ 140737488355328 }
{
    let mut sum = 0;
    for u in 0..weights.len() {
        sum += weight_apart(weights, u, d) as u64;
    }
    sum
}
