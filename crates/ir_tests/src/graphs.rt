//! Graph calls, one after another.

use ir_graph::{Graph, GraphError};

/// A call that changes a graph, with its answer.
enum Change {
    AddNode(&'static str, Result<bool, GraphError>),
    AddEdge(&'static str, &'static str, u32, Result<Option<u32>, GraphError>),
    RemoveNode(&'static str, Result<(), GraphError>),
    RemoveEdge(&'static str, &'static str, Result<u32, GraphError>),
}

/// a to b of weight 5, b to c of weight 3, and a to itself, added with one change of weight.
static THREE_EDGES: [Change; 4] = [
    Change::AddEdge("a", "b", 2, Ok(None)),
    Change::AddEdge("b", "c", 3, Ok(None)),
    Change::AddEdge("a", "b", 5, Ok(Some(2))),
    Change::AddEdge("a", "a", 1, Ok(None)),
];

/// Changes of that graph, some of them refused.
static REFUSALS: [Change; 6] = [
    Change::RemoveEdge("a", "c", Err(GraphError::NoEdge)),
    Change::AddEdge("a", "c", 0, Err(GraphError::BadWeight)),
    Change::AddNode("d", Ok(true)),
    Change::AddNode("d", Ok(false)),
    Change::RemoveNode("b", Ok(())),
    Change::RemoveNode("b", Err(GraphError::NoNode)),
];

/// Whether a graph answers a change so.
fn is_answered(graph: &mut Graph, change: &Change) -> bool {
    match change {
        Change::AddNode(name, answer) => graph.add_node(name) == *answer,
        Change::AddEdge(u, v, weight, answer) => graph.add_edge(u, v, *weight) == *answer,
        Change::RemoveNode(name, answer) => graph.remove_node(name) == *answer,
        Change::RemoveEdge(u, v, answer) => graph.remove_edge(u, v) == *answer,
    }
}

/// Whether a graph answers each of these changes so.
fn are_answered(graph: &mut Graph, changes: &[Change]) -> bool {
    for change in changes {
        if !is_answered(graph, change) {
            return false;
        }
    }
    true
}

/// Whether these are a graph's nodes, in order.
fn has_nodes(graph: &Graph, nodes: &[&str]) -> bool {
    for (i, node) in nodes.iter().enumerate() {
        if graph.node(i) != Some(*node) || graph.index_of(node) != u16::try_from(i).ok() {
            return false;
        }
    }
    graph.node(nodes.len()).is_none() && graph.number_of_nodes() == nodes.len()
}

/// Whether these are a graph's edges, in order.
fn has_edges(graph: &Graph, edges: &[(&str, &str, u32)]) -> bool {
    for (i, edge) in edges.iter().enumerate() {
        if graph.edge(i) != Some(*edge) {
            return false;
        }
    }
    graph.edge(edges.len()).is_none() && graph.number_of_edges() == edges.len()
}

/// Whether these are a node's neighbors and the weights to them, in order.
fn has_neighbors(graph: &Graph, u: usize, neighbors: &[(usize, u32)]) -> bool {
    for (p, neighbor) in neighbors.iter().enumerate() {
        if graph.neighbor_at(u, p) != Some(*neighbor) {
            return false;
        }
    }
    graph.neighbor_count(u) == neighbors.len() && graph.neighbor_at(u, neighbors.len()).is_none()
}

/// Whether this is the graph of three edges.
fn is_first(graph: &Graph) -> bool {
    has_nodes(graph, &["a", "b", "c"])
        && has_edges(graph, &[("a", "b", 5), ("a", "a", 1), ("b", "c", 3)])
        && has_neighbors(graph, 0, &[(1, 5), (0, 1)])
        && has_neighbors(graph, 1, &[(0, 5), (2, 3)])
        && graph.is_connected() == Ok(true)
}

/// Whether it answers by the names of its nodes.
fn answers_by_name(graph: &Graph) -> bool {
    graph.degree("a") == Ok(3)
        && graph.index_of("d").is_none()
        && graph.neighbor("b", 0) == Some("a")
        && graph.weight("c", "b") == Some(3)
}

/// Whether this is what is left of it after the changes.
fn is_left(graph: &Graph) -> bool {
    has_nodes(graph, &["a", "c", "d"])
        && has_edges(graph, &[("a", "a", 1)])
        && graph.is_connected() == Ok(false)
}

/// Whether an empty graph is so, and is then changed in this way.
fn is_changed(graph: &mut Graph) -> bool {
    graph.is_connected() == Err(GraphError::EmptyGraph)
        && are_answered(graph, &THREE_EDGES)
        && is_first(graph)
        && answers_by_name(graph)
        && are_answered(graph, &REFUSALS)
        && is_left(graph)
}

#[test]
fn graphs_by_hand(rt: HostRuntime) {
    let mut graph = Graph::new(rt.alloc());
    assert!(rt; is_changed(&mut graph));
}
