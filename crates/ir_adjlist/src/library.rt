//! Calls for users of the library: the texts that a graph is written as, and numbers of faults.
ghost use Rattle.std.specs.Prelude.{◌≡◌, ◌≤◌, ◌++◌, [], ◌∷◌, length, flat_map, slice_get, take, bytes_eq, OnOk, IfOk};
ghost use Rattle.std.specs.{List.IsDistinct, Map.keys_of, Option.option_to_list};
ghost use Rattle.ir_model.specs.Graph.{Name, among, names, neighbors};
ghost use Rattle.ir_adjlist.specs.{Written.{row_text, edge_text, adjlist_text, edgelist_text}, Told.text_code};
ghost use Rattle.ir_adjlist.specs.Writing.{spaced_words, unwritten, node_row, node_edges};
ghost use Rattle.ir_adjlist.specs.RoundTrip.{IsReadAsAdjlist, IsReadAsEdgelist};

use crate::TextError;
use ir_graph::Graph;
use std::alloc::{AllocError, Global};

impl TextError {
    /// The number of the kind, from 1 for `BadByte` to 7 for `NoMemory`.
    pub fn code(self) -> u8
        ensures { result ≡ text_code self.kind }
    {
        self.kind as u8
    }
}

/// Whether the name is one of the first nodes.
fn is_written(graph: &Graph, count: usize, name: &str) -> bool
    ensures { result ≡ among (take count (names graph.now)) name.now }
{
    match graph.index_of(name) {
        Some(place) => (place as usize) < count,
        None => false,
    }
}

/// At least as many as the node has neighbours.
fn most_neighbors(graph: &Graph, name: &str) -> usize
    ensures { length (neighbors graph.now name.now) ≤ result }
{
    graph.degree(name).unwrap_or(0)
}

/// Puts a byte after the text.
fn put_byte(text: &mut Vec<u8>, byte: u8) -> Result<(), AllocError>
    ensures { OnOk result (text.new.items ≡ text.old.items ++ byte ∷ []) }
{
    match text.push(byte) {
        Ok(()) => Ok(()),
        Err(_) => Err(AllocError),
    }
}

/// Puts a space and a word after the text.
fn put_word(text: &mut Vec<u8>, word: &[u8]) -> Result<(), AllocError>
    ensures { OnOk result (text.new.items ≡ text.old.items ++ 32 ∷ word.now) }
{
    put_byte(text, b' ')?;
    text.extend_from_slice(word)
}

/// Puts the neighbour at a place after the text, unless it is one of the first nodes.
fn put_target_at(
    text: &mut Vec<u8>,
    graph: &Graph,
    count: usize,
    source: &str,
    place: usize,
) -> Result<(), AllocError>
    ensures { OnOk result (text.new.items ≡ text.old.items
        ++ spaced_words (unwritten graph.now count
        (option_to_list (slice_get (keys_of (neighbors graph.now source.now)) place)))) }
{
    let Some(target) = graph.neighbor(source, place) else {
        return Ok(());
    };
    if is_written(graph, count, target) {
        return Ok(());
    }
    put_word(text, target.as_bytes())
}

/// Puts the neighbours of a node after the text, but those that are one of the first nodes.
fn put_targets(
    text: &mut Vec<u8>,
    graph: &Graph,
    count: usize,
    source: &str,
) -> Result<(), AllocError>
    ensures { OnOk result (text.new.items ≡ text.old.items
        ++ spaced_words (unwritten graph.now count (keys_of (neighbors graph.now source.now)))) }
{
    for place in 0..most_neighbors(graph, source) {
        put_target_at(text, graph, count, source, place)?;
    }
    Ok(())
}

/// Puts the line of the node at a place after the text.
fn put_row_at(text: &mut Vec<u8>, graph: &Graph, place: usize) -> Result<(), AllocError>
    ensures { OnOk result (text.new.items ≡ text.old.items
        ++ flat_map (node_row graph.now place) (option_to_list (slice_get (names graph.now) place))) }
{
    let Some(source) = graph.node(place) else {
        return Ok(());
    };
    text.extend_from_slice(source.as_bytes())?;
    put_targets(text, graph, place, source)?;
    put_byte(text, b'\n')
}

/// Puts the line of an edge after the text.
fn put_edge(
    alloc: Global,
    text: &mut Vec<u8>,
    u: &str,
    v: &str,
    weight: u32,
) -> Result<(), AllocError>
    ensures { OnOk result (text.new.items ≡ text.old.items ++ edge_text (u.now, v.now, weight)) }
{
    let digits = format!(in alloc; "{weight}")?;
    put_words(text, u, v, digits.as_bytes())
}

/// Puts a line of three words after the text.
fn put_words(text: &mut Vec<u8>, u: &str, v: &str, last: &[u8]) -> Result<(), AllocError>
    ensures { OnOk result (text.new.items ≡ text.old.items ++ row_text u.now (v.now ∷ last.now ∷ [])) }
{
    text.extend_from_slice(u.as_bytes())?;
    put_word(text, v.as_bytes())?;
    put_word(text, last)?;
    put_byte(text, b'\n')
}

/// Puts the line of the edge to the neighbour at a place after the text, unless that is one of the first nodes.
fn put_edge_at(
    alloc: Global,
    text: &mut Vec<u8>,
    graph: &Graph,
    count: usize,
    source: &str,
    place: usize,
) -> Result<(), AllocError>
    requires { IsDistinct bytes_eq (keys_of (neighbors graph.now source.now)) }
    ensures { OnOk result (text.new.items ≡ text.old.items
        ++ node_edges graph.now count source.now (option_to_list (slice_get (neighbors graph.now source.now) place))) }
{
    let Some(target) = graph.neighbor(source, place) else {
        return Ok(());
    };
    if is_written(graph, count, target) {
        return Ok(());
    }
    match graph.weight(source, target) {
        Some(weight) => put_edge(alloc, text, source, target, weight),
        None => Ok(()),
    }
}

/// Puts the lines of a node's edges after the text, but those to one of the first nodes.
fn put_edges(
    alloc: Global,
    text: &mut Vec<u8>,
    graph: &Graph,
    count: usize,
    source: &str,
) -> Result<(), AllocError>
    requires { IsDistinct bytes_eq (keys_of (neighbors graph.now source.now)) }
    ensures { OnOk result (text.new.items ≡ text.old.items
        ++ node_edges graph.now count source.now (neighbors graph.now source.now)) }
{
    for place in 0..most_neighbors(graph, source) {
        put_edge_at(alloc, text, graph, count, source, place)?;
    }
    Ok(())
}

/// Puts the lines of the edges of the node at a place after the text.
fn put_edges_at(
    alloc: Global,
    text: &mut Vec<u8>,
    graph: &Graph,
    place: usize,
) -> Result<(), AllocError>
    requires { (x : Name) → IsDistinct bytes_eq (keys_of (neighbors graph.now x)) }
    ensures { OnOk result (text.new.items ≡ text.old.items
        ++ flat_map (λ x. node_edges graph.now place x (neighbors graph.now x))
        (option_to_list (slice_get (names graph.now) place))) }
{
    match graph.node(place) {
        Some(source) => put_edges(alloc, text, graph, place, source),
        None => Ok(()),
    }
}

/// The adjacency list of a graph: a line for each node in order, with the node and then its
/// neighbours, in order, that have no line before it. It is read again as the same nodes and edges,
/// each of weight 1; the orders are then those of the text. Refused for want of memory alone. Takes
/// O(n + m) on average, for n nodes and m edges.
pub fn generate_adjlist(alloc: Global, graph: &Graph) -> Result<Vec<u8>, AllocError>
    ensures text { IfOk result (λ text. text.items ≡ adjlist_text graph.now) }
    ensures read { IfOk result (λ text. IsReadAsAdjlist graph.now text.items) }
{
    let mut text = Vec::new(alloc);
    for place in 0..graph.number_of_nodes() {
        put_row_at(&mut text, graph, place)?;
    }
    Ok(text)
}

/// The weighted edge list of a graph: a line for each edge in order, with its ends and its weight
/// in decimal. It is read again as the same edges and weights, and as the same nodes where no node
/// is without an edge; the orders are then those of the text. Refused for want of memory alone.
/// Takes O(n + m) on average, for n nodes and m edges.
pub fn generate_weighted_edgelist(alloc: Global, graph: &Graph) -> Result<Vec<u8>, AllocError>
    ensures text { IfOk result (λ text. text.items ≡ edgelist_text graph.now) }
    ensures read { IfOk result (λ text. IsReadAsEdgelist graph.now text.items) }
{
    let mut text = Vec::new(alloc);
    for place in 0..graph.number_of_nodes() {
        put_edges_at(alloc, &mut text, graph, place)?;
    }
    Ok(text)
}
