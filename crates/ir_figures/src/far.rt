//! The figures of a plan of shortest ways, whose walks weigh as much as the distances.
ghost use Rattle.std.specs.Prelude.{◌≡◌, ◌+◌, ◌-◌, ◌*◌, ◌<◌, ◌≤◌, ◌==◌, ℕ, if◌then◌else◌, min, IfOk, IfSome, length, slice_index};
ghost use Rattle.ir_model.specs.{Topology.node_count, Plan.IsPlan};
ghost use Rattle.ir_lanes.specs.Outward.{AreOutwardLanes, source_at};
ghost use Rattle.ir_plan.specs.Starts.{IsOfShortestWays};
ghost use Rattle.ir_tables.specs.Relaxation.{at};
ghost use Rattle.ir_show.specs.Figures.{sum_to, AreDistancesTo, AreFigures};
ghost use Rattle.ir_figures.specs.Far.{IsFarSum, IsFirstPair};

use ir_lanes::OutwardLanes;
use ir_plan::{Patience, Plan, is_of_shortest_ways};
use ir_show::{Figures, Pair, Weighed, figures_of};
use ir_tables::weights_to;
use std::alloc::{AllocError, Global};

/// How many nodes are searched from at a time.
const BATCH: usize = 16;

/// The fewest nodes of a network whose nodes are searched from by batches.
const LEAST_BATCHED: usize = 64;

/// The weight from a node to another, and 0 to the node itself.
fn weight_apart(weights: &[u32], u: usize, d: u16) -> u32
    requires { u < length weights.now }
    ensures { result ≡ (if u == d then 0 else at weights.now u) }
{
    if u == d as usize {
        0
    } else {
        weight_at(weights, u)
    }
}

/// The weight at a place.
fn weight_at(weights: &[u32], u: usize) -> u32
    requires { u < length weights.now }
    ensures { result ≡ at weights.now u }
{
    weights[u]
}

/// The sum of the weights to a node from the others.
fn sum_to(weights: &[u32], d: u16) -> u64
    requires few { length weights.now ≤ 32768 }
    ensures sum { result ≡ sum_to (length weights.now) (at weights.now) d }
    ensures light { result ≤ 140737488355328 }
{
    let mut sum = 0;
    for u in 0..weights.len() {
        sum += weight_apart(weights, u, d) as u64;
    }
    sum
}

/// Sixteen numbers of nodes from one on; past the last node, that one again.
fn sixteen_from(alloc: Global, nodes: usize, first: usize) -> Result<Vec<u16>, AllocError>
    requires first { first < nodes }
    requires few { nodes ≤ 32768 }
    ensures sixteen { IfOk result (λ sixteen. length sixteen.items ≡ 16) }
    ensures each { IfOk result (λ sixteen. (k : ℕ) → k < 16
        → slice_index sixteen.items k ≡ min (first + k) (nodes - 1)) }
{
    let mut sixteen = Vec::with_capacity(alloc, BATCH)?;
    for k in 0..BATCH {
        sixteen.push((first + k).min(nodes - 1) as u16)?;
    }
    Ok(sixteen)
}

/// The ways from sixteen nodes from one on, where the lanes are tried and find them.
fn ways_from(
    alloc: Global,
    plan: &Plan,
    first: usize,
    patience: &Patience,
) -> Result<Option<OutwardLanes>, AllocError>
    requires first { first < node_count plan.now.topology }
    ensures ways { IfOk result (λ found. IfSome found (λ ways. AreOutwardLanes plan.now.topology ways)) }
    ensures sources { IfOk result (λ found. IfSome found (λ ways. (k : ℕ) → k < 16
        → source_at ways k ≡ min (first + k) (node_count plan.now.topology - 1))) }
{
    plan.invariant();
    let nodes = plan.nodes();
    if nodes < LEAST_BATCHED || !patience.tries() {
        return Ok(None);
    }
    let sources = sixteen_from(alloc, nodes, first)?;
    let found = OutwardLanes::from(alloc, plan.topology(), sources.as_slice())?;
    patience.learns(found.is_some());
    Ok(found)
}

/// The distances to the node of a lane, by node; where nothing was found in the lanes, by a search from it alone.
fn distances_to(
    alloc: Global,
    plan: &Plan,
    found: &Option<OutwardLanes>,
    lane: usize,
    d: u16,
) -> Result<Vec<u32>, AllocError>
    requires node { d < node_count plan.now.topology }
    requires lane { lane < 16 }
    requires ways { IfSome found.now (λ ways. AreOutwardLanes plan.now.topology ways) }
    requires source { IfSome found.now (λ ways. source_at ways lane ≡ d) }
    ensures { IfOk result (λ weights. AreDistancesTo plan.now.topology d weights.items) }
{
    plan.invariant();
    match found {
        Some(ways) => ways.distances(alloc, plan.topology(), lane),
        None => weights_to(alloc, plan.topology(), d as usize),
    }
}

/// The sum of the distances to the nodes before one and to those of its batch, by the ways from these.
fn lanes_sum(
    alloc: Global,
    plan: &Plan,
    found: &Option<OutwardLanes>,
    first: usize,
    before: u64,
) -> Result<u64, AllocError>
    requires first { first < node_count plan.now.topology }
    requires ways { IfSome found.now (λ ways. AreOutwardLanes plan.now.topology ways) }
    requires sources { IfSome found.now (λ ways. (k : ℕ) → k < 16
        → source_at ways k ≡ min (first + k) (node_count plan.now.topology - 1)) }
    requires before { IsFarSum plan.now first before }
    ensures { IfOk result (λ sum. IsFarSum plan.now (min (first + 16) (node_count plan.now.topology)) sum) }
{
    plan.invariant();
    let mut sum = before;
    for lane in 0..BATCH.min(plan.nodes() - first) {
        let d = (first + lane) as u16;
        let weights = distances_to(alloc, plan, found, lane, d)?;
        sum += sum_to(weights.as_slice(), d);
    }
    Ok(sum)
}

/// The same, where the ways are still to be found.
fn batch_sum(
    alloc: Global,
    plan: &Plan,
    first: usize,
    before: u64,
    patience: &Patience,
) -> Result<u64, AllocError>
    requires first { first < node_count plan.now.topology }
    requires before { IsFarSum plan.now first before }
    ensures { IfOk result (λ sum. IsFarSum plan.now (min (first + 16) (node_count plan.now.topology)) sum) }
{
    let found = ways_from(alloc, plan, first, patience)?;
    lanes_sum(alloc, plan, &found, first, before)
}

/// The sum of the distances over all ordered pairs of two nodes.
fn far_sum(alloc: Global, plan: &Plan) -> Result<u64, AllocError>
    ensures { IfOk result (λ sum. IsFarSum plan.now (node_count plan.now.topology) sum) }
{
    plan.invariant();
    let patience = Patience::new();
    let mut sum = 0;
    for batch in 0..plan.nodes().div_ceil(BATCH) {
        sum = batch_sum(alloc, plan, batch * BATCH, sum, &patience)?;
    }
    Ok(sum)
}

/// The first pair of two nodes, with its distance also as the weight of its walk; None of one node.
fn first_pair(alloc: Global, plan: &Plan) -> Result<Option<Weighed>, AllocError>
    ensures { IfOk result (λ pair. IsFirstPair plan.now pair) }
{
    plan.invariant();
    if plan.nodes() < 2 {
        return Ok(None);
    }
    let distances = distances_to(alloc, plan, &None, 0, 1)?;
    let distance = weight_at(distances.as_slice(), 0);
    Ok(Some(Weighed {
        ends: Pair { from: 0, to: 1 },
        walk: distance,
        distance,
    }))
}

/// The figures of a plan of shortest ways: no walk is followed.
fn far_figures(alloc: Global, plan: &Plan) -> Result<Figures, AllocError>
    requires { IsOfShortestWays plan.now.kind }
    ensures { IfOk result (λ f. AreFigures plan.now f) }
{
    plan.invariant();
    let sum = far_sum(alloc, plan)?;
    let worst = first_pair(alloc, plan)?;
    Ok(Figures {
        walks: sum,
        distances: sum,
        worst,
    })
}

/// The figures of a plan. Those of a plan of shortest ways take as long as the distances alone, and
/// those of others as `figures_of` of `ir_show`. It is refused for memory alone.
pub fn quick_figures(alloc: Global, plan: &Plan) -> Result<Figures, AllocError>
    ensures { IfOk result (λ f. AreFigures plan.now f) }
{
    if is_of_shortest_ways(plan.kind()) {
        far_figures(alloc, plan)
    } else {
        figures_of(alloc, plan)
    }
}
