//! The text of a walk of a plan that is not built: rows are made for the nodes on the walk alone.
ghost use Rattle.std.specs.Prelude.{◌≡◌, ◌≢◌, ◌<◌, ◌↔◌, IfOk, IfErr, IsTrue, OnOk, length, string_bytes};
ghost use Rattle.ir_model.specs.{Graph.names, Topology.node_count, Walk.IsConnected, Plan.{AreLabels, Plan}};
ghost use Rattle.ir_plan.specs.{Building.{MayLabel, RefusesPlan, labelling_of}, Starts.IsOfShortestWays};
ghost use Rattle.ir_show.specs.Stops.{AreStopsOf, IsStopOf};
ghost use Rattle.ir_show.specs.{Alone.IsWalkOfPlan, Plans.{IsOrderBy, IsPlanOver, NeedsNoTour}};

use crate::interval::interval_with;
use crate::stops::{Stops, WalkStop, text_of};
use ir_graph::Graph;
use ir_model::Kind;
use ir_numbering::Numbering;
use ir_plan::{
    LabelOrder, Labels, MOST_TOUR_NODES, PlanError, numbering_by, numbering_of, row_of_node,
};
use ir_tables::Topology;
use std::alloc::{AllocError, Global};

/// Whether so many nodes get these labels with no tour sought.
pub fn needs_no_tour(nodes: usize, labels: &Labels) -> bool
    ensures { IsTrue result ↔ NeedsNoTour nodes (labelling_of labels.now) }
{
    match labels {
        Labels::FromRoot(LabelOrder::Tour, _) => nodes > MOST_TOUR_NODES,
        _ => true,
    }
}

/// The numbers of the nodes of a connected topology by these labels. Refused as the plan is.
pub(crate) fn numbers_by(
    alloc: Global,
    topology: &Topology,
    kind: Kind,
    labels: Labels,
) -> Result<Numbering, PlanError>
    requires may { MayLabel topology.now kind (labelling_of labels) }
    ensures some { OnOk result (0 < node_count topology.now) }
    ensures order { IfOk result (λ numbers. IsOrderBy topology.now (labelling_of labels) numbers.order) }
    ensures labels { IfOk result (λ numbers. AreLabels (node_count topology.now) numbers.order numbers.labels) }
    ensures connected { OnOk result (IsConnected topology.now) }
    ensures refused { IfErr result (RefusesPlan topology.now (labelling_of labels)) }
{
    match labels {
        Labels::FromRoot(_, root) => numbering_of(alloc, topology, root),
        Labels::Listed(list) => {
            if topology.nodes() == 0 {
                return Err(PlanError::Empty);
            }
            numbering_by(alloc, topology, list)
        }
    }
}

/// What each plan of a kind with these numbers says of a node on the way to another. The row of the node is made alone.
fn stop_at(
    alloc: Global,
    topology: &Topology,
    numbering: &Numbering,
    kind: Kind,
    to: u16,
    u: u16,
) -> Result<WalkStop, AllocError>
    requires kind { IsOfShortestWays kind }
    requires labels { AreLabels (node_count topology.now) numbering.now.order numbering.now.labels }
    requires connected { IsConnected topology.now }
    requires end { to < node_count topology.now }
    requires node { u < node_count topology.now }
    requires other { u ≢ to }
    ensures node { IfOk result (λ stop. stop.node ≡ u) }
    ensures stop { IfOk result (λ stop. (plan : Plan) → IsPlanOver topology.now kind numbering.now plan
        → IsStopOf plan to stop) }
{
    topology.invariant();
    let row = row_of_node(alloc, topology, numbering, kind, u)?;
    let interval = interval_with(&row, numbering.label_of(to));
    Ok(WalkStop {
        node: u,
        label: numbering.label_of(u),
        start: interval.start,
        end: interval.end,
        hop: topology.port(u, interval.port),
    })
}

/// The walk from a node to another, by its stops, in a plan of a kind with these numbers. Takes O(n + m) memory beside
/// the stops, for n nodes and m links.
fn stops_between(
    alloc: Global,
    topology: &Topology,
    numbering: &Numbering,
    kind: Kind,
    from: u16,
    to: u16,
) -> Result<Stops, AllocError>
    requires kind { IsOfShortestWays kind }
    requires labels { AreLabels (node_count topology.now) numbering.now.order numbering.now.labels }
    requires connected { IsConnected topology.now }
    requires from { from < node_count topology.now }
    requires to { to < node_count topology.now }
    ensures { IfOk result (λ walk. (plan : Plan) × IsPlanOver topology.now kind numbering.now plan
        × AreStopsOf plan from to walk) }
{
    topology.invariant();
    let mut stops = Vec::new(alloc);
    let mut at = from;
    let mut weight = 0;
    while at != to {
        let stop = stop_at(alloc, topology, numbering, kind, to, at)?;
        weight += stop.hop.weight;
        at = stop.hop.node;
        stops.push(stop)?;
    }
    Ok(Stops {
        kind,
        from,
        to,
        label: numbering.label_of(to),
        weight,
        stops,
    })
}

/// The text of the walk between two nodes, from the first end to the second, in the plan of a kind over a topology by
/// these labels. That plan is not built: its rows are made for the nodes of the walk alone, each by a search from its
/// node. Conditions: the kind is one of shortest ways, the topology is the graph's network, the ends are nodes of it
/// if it has any, and no tour is sought (`needs_no_tour`).
///
/// Refused as the plan is (`Plan::build_by`). Takes O(w (n + m) log n), for w nodes of the walk, n nodes of the network
/// and m links, and O(n + m) memory. Of kind Compact it also takes for each node of the walk what
/// `ir_compile::ports_of_runs` takes, and O(n + m) for each of its ports.
pub fn walk_text_alone(
    alloc: Global,
    graph: &Graph,
    topology: &Topology,
    kind: Kind,
    labels: Labels,
    ends: (u16, u16),
) -> Result<String, PlanError>
    requires kind { IsOfShortestWays kind }
    requires nodes { node_count topology.now ≡ length graph.now }
    requires from { 0 < length graph.now → ends.0 < length graph.now }
    requires to { 0 < length graph.now → ends.1 < length graph.now }
    requires may { MayLabel topology.now kind (labelling_of labels) }
    requires alone { NeedsNoTour (node_count topology.now) (labelling_of labels) }
    ensures walk { IfOk result (λ text. IsWalkOfPlan (names graph.now) topology.now kind (labelling_of labels)
        ends.0 ends.1 (string_bytes text)) }
    ensures refused { IfErr result (RefusesPlan topology.now (labelling_of labels)) }
{
    let numbering = numbers_by(alloc, topology, kind, labels)?;
    let walk = stops_between(alloc, topology, &numbering, kind, ends.0, ends.1)?;
    Ok(text_of(alloc, graph, &walk)?)
}
