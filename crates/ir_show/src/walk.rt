//! A walk of a plan, and its text.
ghost use Rattle.std.specs.Prelude.{◌≡◌, ◌≢◌, ◌<◌, Some, IfOk, length, string_bytes};
ghost use Rattle.ir_model.specs.{Graph.names, Topology.node_count, Plan.{IsPlan, next_hop}};
ghost use Rattle.ir_show.specs.{Stops.{AreStopsOf, IsStopOf}, WalkText.IsWalkOf};

use crate::interval::interval_with;
use crate::stops::{Stops, WalkStop, text_of};
use ir_graph::Graph;
use ir_model::Hop;
use ir_plan::Plan;
use std::alloc::{AllocError, Global};

/// Where a plan sends on from a node what goes to another.
pub fn hop_towards(plan: &Plan, u: u16, to: u16) -> Hop
    requires plan { IsPlan plan.now }
    requires node { u < node_count plan.now.topology }
    requires end { to < node_count plan.now.topology }
    requires other { u ≢ to }
    ensures { next_hop plan.now u to ≡ Some result }
{
    let port = plan.port(u, plan.label_of(to)).unwrap();
    plan.hop(u, port)
}

/// What a plan says of a node on the way to another.
fn stop_of(plan: &Plan, to: u16, u: u16) -> WalkStop
    requires plan { IsPlan plan.now }
    requires end { to < node_count plan.now.topology }
    requires node { u < node_count plan.now.topology }
    requires other { u ≢ to }
    ensures node { result.node ≡ u }
    ensures stop { IsStopOf plan.now to result }
{
    let interval = interval_with(plan.row(u), plan.label_of(to));
    WalkStop {
        node: u,
        label: plan.label_of(u),
        start: interval.start,
        end: interval.end,
        hop: hop_towards(plan, u, to),
    }
}

/// The walk that a plan prescribes from one node to another, by its stops.
pub fn walk_between(alloc: Global, plan: &Plan, from: u16, to: u16) -> Result<Stops, AllocError>
    requires from { from < node_count plan.now.topology }
    requires to { to < node_count plan.now.topology }
    ensures { IfOk result (λ walk. AreStopsOf plan.now from to walk) }
{
    plan.invariant();
    let mut stops = Vec::new(alloc);
    let mut at = from;
    let mut weight = 0;
    while at != to {
        let stop = stop_of(plan, to, at);
        weight += stop.hop.weight;
        at = stop.hop.node;
        stops.push(stop)?;
    }
    Ok(Stops {
        kind: plan.kind(),
        from,
        to,
        label: plan.label_of(to),
        weight,
        stops,
    })
}

/// The text of the walk that a plan prescribes from one node to another: `walk KIND FROM TO ADDRESS WEIGHT`, and a line
/// for each node of it. Condition: the plan is over the graph's network, and both are nodes. It is refused for memory
/// alone. Takes O(w k), for w nodes of the walk and at most k starts in their rows.
pub fn walk_text(
    alloc: Global,
    graph: &Graph,
    plan: &Plan,
    from: u16,
    to: u16,
) -> Result<String, AllocError>
    requires nodes { node_count plan.now.topology ≡ length graph.now }
    requires from { from < length graph.now }
    requires to { to < length graph.now }
    ensures { IfOk result (λ text. IsWalkOf (names graph.now) plan.now from to (string_bytes text)) }
{
    plan.invariant();
    let walk = walk_between(alloc, plan, from, to)?;
    text_of(alloc, graph, &walk)
}
