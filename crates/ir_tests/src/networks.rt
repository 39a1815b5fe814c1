//! Networks that tests of several crates use.

use ir_graph::Graph;
use ir_tables::Topology;
use std::alloc::Global;

/// Two nodes, and the weight of the edge between them.
pub(crate) type Edge = (&'static str, &'static str, u32);

/// a to b to c.
pub(crate) const PATH: [Edge; 2] = [("a", "b", 1), ("b", "c", 1)];

/// A ring of a, b, c and d, which is named third.
pub(crate) const RING: [Edge; 4] = [("a", "b", 1), ("a", "d", 1), ("b", "c", 1), ("c", "d", 1)];

/// Six nodes u, p, q, r, t, s, numbered from 0, of which the tree from u goes by a heavy link. The links u-p, u-q, p-q,
/// p-t, q-r, q-t, q-s are 0 to 6.
pub(crate) const HEAVY: [Edge; 7] = [
    ("u", "p", 1),
    ("u", "q", 1),
    ("p", "q", 9),
    ("q", "r", 1),
    ("q", "t", 9),
    ("p", "t", 1),
    ("q", "s", 1),
];

/// Adds edges, and answers whether it could.
fn add_edges(graph: &mut Graph, edges: &[Edge]) -> bool {
    for edge in edges {
        let (u, v, weight) = *edge;
        if graph.add_edge(u, v, weight).is_err() {
            return false;
        }
    }
    true
}

/// The graph of these edges, nodes in order of appearance.
pub(crate) fn graph_of(alloc: Global, edges: &[Edge]) -> Option<Graph> {
    let mut graph = Graph::new(alloc);
    if add_edges(&mut graph, edges) {
        Some(graph)
    } else {
        None
    }
}

/// The topology of these edges.
pub(crate) fn topology_of(alloc: Global, edges: &[Edge]) -> Option<Topology> {
    match graph_of(alloc, edges) {
        Some(graph) => Topology::of(alloc, &graph).ok(),
        None => None,
    }
}
