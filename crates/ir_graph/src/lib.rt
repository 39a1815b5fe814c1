//! Undirected graphs with named nodes and weighted edges, under the names of NetworkX's `Graph`. Nodes, and the
//! neighbours of a node, are in the order in which they were added, and keep it when others go.
//!
//! Names are 1 to `MAX_NAME_BYTES` printable ASCII bytes without blanks and `#`, weights 1 to `MAX_WEIGHT`. A graph
//! has at most `MAX_NODES` nodes and `MAX_EDGES` edges. An edge of a node with itself is one edge and two ends.
#![tactic(auto)]

ghost use Rattle.std.specs.Prelude.{◌≡◌, ◌↔◌, ◌<◌, [], IsTrue, IfSome, IfOk, IfErr, OnOk, OnErr, not, option_map, slice_get, length, bytes_eq, true, false, if◌then◌else◌, ℕ, List, position};
ghost use Rattle.std.specs.{List.list_all, Map.keys_of};
ghost use Rattle.ir_model.specs.Graph.{has_node, has_edge, weight_of, neighbors, names, degree, edges, with_node, with_edge, without_edge, without_node, is_name, is_name_byte, Adjacency, IsGraph};
ghost use Rattle.ir_model.specs.Places.{neighbor_at, neighbors_at};
ghost use Rattle.ir_graph.specs.{View.rows_view, Kept.IsKept, Faults.{node_fault, edge_fault, Refuses}};
ghost use Rattle.ir_graph.specs.Paths.{IsConnectedGraph, RefusesEmpty};

mod by_place;
mod error;
mod reach;
mod rows;

pub use error::GraphError;
use indexmap::IndexMap;
pub use ir_model::{MAX_EDGES, MAX_NAME_BYTES, MAX_NODES, MAX_WEIGHT};
use rows::Rows;
use std::alloc::Global;
use std::marker::Model;

/// An undirected graph. It is seen as its nodes in order, each with its neighbours in order and the weight of the edge
/// to each.
///
/// ```
/// let mut graph = Graph::new(alloc);
/// graph.add_edge("a", "b", 1).ok()?;
/// graph.add_edge("b", "c", 3).ok()?;
/// let is_so = graph.index_of("c") == Some(2) && graph.weight("c", "b") == Some(3);
/// ```
#[derive(Drop)]
pub struct Graph {
    alloc: Global,
    rows: Rows,
    edge_count: usize,
}

impl Model for Graph {
    ghost Value = { Adjacency };

    ghost view = { λ g. rows_view g.rows };

    ghost invariant = { λ g. IsKept (rows_view g.rows) g.edge_count };
}

/// Whether a name may have the byte.
fn is_name_byte(byte: u8) -> bool
    ensures { result ≡ is_name_byte byte }
{
    byte >= b'!' && byte <= b'~' && byte != b'#'
}

fn all_name_bytes(bytes: &[u8]) -> bool
    ensures { result ≡ list_all is_name_byte bytes.now }
{
    bytes.iter().all(|byte| is_name_byte(*byte))
}

/// Whether the text may name a node.
fn is_valid_name(name: &str) -> bool
    ensures { result ≡ is_name name.now }
{
    name.len() >= 1 && name.len() <= MAX_NAME_BYTES && all_name_bytes(name.as_bytes())
}

impl Graph {
    /// A graph with no node. It takes memory from `alloc` when it grows.
    pub fn new(alloc: Global) -> Self
        ensures { result ≡ [] }
    {
        Graph {
            alloc,
            rows: IndexMap::new(alloc),
            edge_count: 0,
        }
    }

    /// Whether there is a node of this name.
    pub fn has_node(&self, name: &str) -> bool
        ensures { result ≡ has_node self.now name.now }
    {
        rows::has_row(&self.rows, name)
    }

    /// The weight of the edge between two nodes, if there is one.
    pub fn weight(&self, u: &str, v: &str) -> Option<u32>
        ensures { result ≡ weight_of self.now u.now v.now }
    {
        rows::link_weight(&self.rows, u, v)
    }

    /// Whether two nodes are joined by an edge.
    pub fn has_edge(&self, u: &str, v: &str) -> bool
        ensures { result ≡ has_edge self.now u.now v.now }
    {
        self.weight(u, v).is_some()
    }

    /// Does nothing; a caller's proof learns by it what holds of each graph.
    pub fn invariant(&self)
        ensures graph { IsGraph self.now }
    {
        self.number_of_nodes();
    }

    /// How many nodes there are. A caller also learns what is true of each graph: names and neighbours differ, each
    /// edge is in the rows of both of its ends, and names, weights and sizes are within the limits.
    pub fn number_of_nodes(&self) -> usize
        ensures len { result ≡ length self.now }
        ensures graph { IsGraph self.now }
    {
        self.rows.len()
    }

    /// How many edges there are. A self-loop is one.
    pub fn number_of_edges(&self) -> usize
        ensures { result ≡ length (edges self.now) }
    {
        self.edge_count
    }

    /// The name of the node at a place, from 0 in the order of nodes.
    pub fn node(&self, place: usize) -> Option<&str>
        ensures { option_map (λ name. name.now) result ≡ slice_get (names self.now) place }
    {
        rows::name_at(&self.rows, place)
    }

    /// The name of a node's neighbour at a place, from 0 in the order of its neighbours. For users of the library.
    pub fn neighbor(&self, name: &str, place: usize) -> Option<&str>
        ensures { option_map (λ other. other.now) result ≡ slice_get (keys_of (neighbors self.now name.now)) place }
    {
        rows::neighbor_at(&self.rows, name, place)
    }

    /// The place of a node in the order of nodes.
    pub fn index_of(&self, name: &str) -> Option<u16>
        ensures place { result ≡ position (bytes_eq name.now) (names self.now) }
        ensures within { IfSome result (λ place. place < length self.now) }
    {
        match rows::row_index(&self.rows, name) {
            Some(place) => Some(place as u16),
            None => None,
        }
    }

    /// How many neighbours the node at a place has, itself among them where it has a self-loop; 0 past the end.
    pub fn neighbor_count(&self, node: usize) -> usize
        ensures { result ≡ length (neighbors_at self.now node) }
    {
        by_place::neighbor_count(&self.rows, node)
    }

    /// The neighbour at a place of the node at a place: its own place, and the weight of the edge to it.
    pub fn neighbor_at(&self, node: usize, place: usize) -> Option<(usize, u32)>
        ensures at { result ≡ neighbor_at self.now node place }
        ensures within { IfSome result (λ link. link.0 < length self.now) }
    {
        by_place::neighbor_at(&self.rows, node, place)
    }

    /// The edge at a place, by its ends and its weight. Edges are ordered by node, then by neighbour, leaving out
    /// neighbours that are before the node. Takes O(n + m) on average, for n nodes and m edges before the place.
    /// For users of the library.
    pub fn edge(&self, place: usize) -> Option<(&str, &str, u32)>
        ensures { option_map {U = List ℕ × List ℕ × ℕ} (λ edge. (edge.0.now, edge.1.now, edge.2)) result
            ≡ slice_get (edges self.now) place }
    {
        by_place::edge_at(&self.rows, place)
    }

    /// How many ends of edges are at a node: a self-loop has two. `NoNode` where there is no such node.
    /// For users of the library.
    pub fn degree(&self, name: &str) -> Result<usize, GraphError>
        ensures { result ≡ (if has_node self.now name.now then Ok
            (degree self.now name.now) else Err GraphError.NoNode) }
    {
        if !self.has_node(name) {
            return Err(GraphError::NoNode);
        }
        Ok(rows::row_len(&self.rows, name) + usize::from(self.has_edge(name, name)))
    }

    /// Adds a node as the last one, and answers whether it is new. Refused, in this order, as `BadName`,
    /// `TooManyNodes` and `NoMemory`, and then nothing has changed.
    pub fn add_node(&mut self, name: &str) -> Result<bool, GraphError>
        ensures ok { OnOk result (node_fault self.old name.now ≡ None) }
        ensures new { IfOk result (λ new. new ≡ not (has_node self.old name.now)) }
        ensures added { OnOk result (self.new ≡ with_node self.old name.now) }
        ensures refused { IfErr result (Refuses (node_fault self.old name.now)) }
        ensures err { OnErr result (self.new ≡ self.old) }
    {
        if !is_valid_name(name) {
            return Err(GraphError::BadName);
        }
        if rows::has_row(&self.rows, name) {
            return Ok(false);
        }
        if self.number_of_nodes() >= MAX_NODES {
            return Err(GraphError::TooManyNodes);
        }
        match rows::add_row(self.alloc, &mut self.rows, name) {
            Ok(()) => Ok(true),
            Err(_) => Err(GraphError::NoMemory),
        }
    }

    /// Sets the weight of an edge, and answers the weight before. Missing ends are added, `u` first. An edge that is
    /// there keeps its place. Refused, in this order, as `BadName`, `BadWeight`, `TooManyNodes`, `TooManyEdges` and
    /// `NoMemory`, and then nothing has changed.
    pub fn add_edge(&mut self, u: &str, v: &str, weight: u32) -> Result<Option<u32>, GraphError>
        ensures ok { OnOk result (edge_fault self.old u.now v.now weight ≡ None) }
        ensures old { IfOk result (λ old. old ≡ weight_of self.old u.now v.now) }
        ensures added { OnOk result (self.new ≡ with_edge self.old u.now v.now weight) }
        ensures refused { IfErr result (Refuses (edge_fault self.old u.now v.now weight)) }
        ensures err { OnErr result (self.new ≡ self.old) }
    {
        if !is_valid_name(u) || !is_valid_name(v) {
            return Err(GraphError::BadName);
        }
        if weight == 0 || weight > MAX_WEIGHT {
            return Err(GraphError::BadWeight);
        }
        if let Some(old) = rows::link_weight(&self.rows, u, v) {
            rows::set_link(&mut self.rows, u, v, weight);
            return Ok(Some(old));
        }
        if rows::len_with(&self.rows, u, v) > MAX_NODES {
            return Err(GraphError::TooManyNodes);
        }
        if self.edge_count >= MAX_EDGES {
            return Err(GraphError::TooManyEdges);
        }
        match rows::add_link(self.alloc, &mut self.rows, u, v, weight) {
            Ok(()) => {
                self.edge_count += 1;
                Ok(None)
            }
            Err(_) => Err(GraphError::NoMemory),
        }
    }

    /// Removes an edge, and answers its weight. The other neighbours keep their order. `NoEdge` where there is none,
    /// also where an end is missing. Takes O(d), for d neighbours of the two ends. For users of the library.
    pub fn remove_edge(&mut self, u: &str, v: &str) -> Result<u32, GraphError>
        ensures ok { IfOk result (λ weight. weight_of self.old u.now v.now ≡ Some weight) }
        ensures removed { OnOk result (self.new ≡ without_edge self.old u.now v.now) }
        ensures refused { IfErr result (λ e. (e ≡ GraphError.NoEdge) × (weight_of self.old u.now v.now ≡ None)) }
        ensures err { OnErr result (self.new ≡ self.old) }
    {
        match rows::link_weight(&self.rows, u, v) {
            None => Err(GraphError::NoEdge),
            Some(weight) => {
                rows::cut_link(&mut self.rows, u, v);
                self.edge_count -= 1;
                Ok(weight)
            }
        }
    }

    /// Removes a node with its edges. The other nodes and neighbours keep their order. `NoNode` where there is none.
    /// Takes O(n + m) on average, for n nodes and m edges. For users of the library.
    pub fn remove_node(&mut self, name: &str) -> Result<(), GraphError>
        ensures ok { OnOk result (has_node self.old name.now ≡ true) }
        ensures removed { OnOk result (self.new ≡ without_node self.old name.now) }
        ensures refused { IfErr result (λ e. (e ≡ GraphError.NoNode) × (has_node self.old name.now ≡ false)) }
        ensures err { OnErr result (self.new ≡ self.old) }
    {
        if !rows::has_row(&self.rows, name) {
            return Err(GraphError::NoNode);
        }
        let links = rows::row_len(&self.rows, name);
        rows::drop_row(&mut self.rows, name);
        self.edge_count -= links;
        Ok(())
    }

    /// Whether each two nodes have a path from one to the other. A graph with no node is refused as `EmptyGraph`.
    /// Takes O(n + m) on average, for n nodes and m edges. For users of the library.
    pub fn is_connected(&self) -> Result<bool, GraphError>
        ensures connected { IfOk result (λ yes. IsTrue yes ↔ IsConnectedGraph self.now) }
        ensures some { OnOk result (0 < length self.now) }
        ensures refused { IfErr result (RefusesEmpty self.now) }
    {
        let nodes = self.number_of_nodes();
        if nodes == 0 {
            return Err(GraphError::EmptyGraph);
        }
        match reach::reached_from_first(self.alloc, &self.rows) {
            Ok(reached) => Ok(reached.len() == nodes),
            Err(_) => Err(GraphError::NoMemory),
        }
    }
}
