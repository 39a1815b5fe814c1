//! The path a, b, c of links of weight 1, what is opened over it, and its plans.
use ir_core::Opening;
use ir_graph::{Graph, GraphError};
use ir_plan::{Kind, LabelOrder, Plan, PlanError};
use ir_tables::Topology;
use std::alloc::Global;

/// Adds an edge; again, where there was no memory.
fn add_edge(graph: &mut Graph, u: &str, v: &str) -> Result<(), &'static str> {
    let before = (graph.number_of_nodes(), graph.number_of_edges());
    match graph.add_edge(u, v, 1) {
        Ok(_) => return Ok(()),
        Err(GraphError::NoMemory) => {}
        Err(_) => return Err("an edge is refused"),
    }
    if (graph.number_of_nodes(), graph.number_of_edges()) != before {
        return Err("a refused edge changes the graph");
    }
    match graph.add_edge(u, v, 1) {
        Ok(_) => Ok(()),
        Err(_) => Err("an edge is refused again"),
    }
}

/// The network of a graph; again, where there was no memory.
fn topology(alloc: Global, graph: &Graph) -> Result<Topology, &'static str> {
    if let Ok(topology) = Topology::of(alloc, graph) {
        return Ok(topology);
    }
    match Topology::of(alloc, graph) {
        Ok(topology) => Ok(topology),
        Err(_) => Err("a topology is refused again"),
    }
}

/// Adds the two edges of the path.
fn add_path(graph: &mut Graph) -> Result<(), &'static str> {
    add_edge(graph, "a", "b")?;
    add_edge(graph, "b", "c")
}

/// The network of the path.
pub(crate) fn path(alloc: Global) -> Result<Topology, &'static str> {
    let mut graph = Graph::new(alloc);
    match add_path(&mut graph) {
        Ok(()) => topology(alloc, &graph),
        Err(wrong) => Err(wrong),
    }
}

/// What is opened over the path: along its tree from b, each channel of this capacity, with at most four packets and
/// one restamp of each. Later plans are labelled by a tour.
pub(crate) fn opening(alloc: Global, capacity: usize) -> Result<Opening, &'static str> {
    Ok(Opening {
        topology: path(alloc)?,
        labels: LabelOrder::Tour,
        keeps: false,
        kind: Kind::Tree,
        root: 1,
        capacity,
        max_packets: 4,
        restamps: 1,
    })
}

/// A copy of what is opened.
pub(crate) fn copy(alloc: Global, opening: &Opening) -> Result<Opening, &'static str> {
    if let Ok(copied) = opening.try_clone(alloc) {
        return Ok(copied);
    }
    match opening.try_clone(alloc) {
        Ok(copied) => Ok(copied),
        Err(_) => Err("a copy is refused again"),
    }
}

/// A plan over the path, which comes back where there was no memory.
pub(crate) fn plan(alloc: Global, kind: Kind) -> Result<Plan, &'static str> {
    let topology = path(alloc)?;
    let topology = match Plan::build(alloc, topology, kind, 0) {
        Ok(plan) => return Ok(plan),
        Err((PlanError::NoMemory, topology)) => topology,
        Err(_) => return Err("a plan is refused"),
    };
    match Plan::build(alloc, topology, kind, 0) {
        Ok(plan) => Ok(plan),
        Err(_) => Err("a plan is refused again"),
    }
}
