//! The examples in the doc comments of graphs, plans and worlds: the lines of each are here.

use ir_core::{Event, Fate, Kind, World};
use ir_graph::Graph;
use ir_plan::Plan;
use ir_tables::Topology;
use std::alloc::Global;

/// The graph of the first example, and whether it is as the example says.
fn graph_example(alloc: Global) -> Option<(Graph, bool)> {
    let mut graph = Graph::new(alloc);
    graph.add_edge("a", "b", 1).ok()?;
    graph.add_edge("b", "c", 3).ok()?;
    let is_so = graph.index_of("c") == Some(2) && graph.weight("c", "b") == Some(3);
    Some((graph, is_so))
}

#[test]
fn example_of_a_graph(rt: HostRuntime) {
    let made = graph_example(rt.alloc());
    assert!(rt; matches!(made, Some((_, true))));
}

fn plan_example(alloc: Global, graph: &Graph) -> Option<bool> {
    let topology = Topology::of(alloc, graph).ok()?;
    let plan = Plan::build(alloc, topology, Kind::Shortest, 0).ok()?;
    let is_so = plan.nodes() == 3 && plan.port(0, plan.label_of(2)) == Some(0);
    Some(is_so)
}

#[test]
fn example_of_a_plan(rt: HostRuntime) {
    if let Some((graph, _)) = graph_example(rt.alloc()) {
        assert!(rt; plan_example(rt.alloc(), &graph) == Some(true));
    }
}

/// Whether one packet is delivered.
fn is_delivered(world: World) -> bool {
    let records = world.into_records();
    match records.as_slice() {
        [record] => record.fate == Fate::Delivered,
        _ => false,
    }
}

fn world_example(alloc: Global, graph: &Graph) -> Option<bool> {
    let topology = Topology::of(alloc, graph).ok()?;
    let mut world = World::new(alloc, topology, Kind::Shortest, 0, 16, 1, 0).ok()?;
    world.apply(Event::Inject(0, 2)).ok()?;
    world.drain();
    let is_so = is_delivered(world);
    Some(is_so)
}

#[test]
fn example_of_a_world(rt: HostRuntime) {
    if let Some((graph, _)) = graph_example(rt.alloc()) {
        assert!(rt; world_example(rt.alloc(), &graph) == Some(true));
    }
}
