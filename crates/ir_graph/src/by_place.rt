//! The nodes and neighbours of a graph by their places, and its edges in order.
ghost use Rattle.std.specs.Prelude.{◌≡◌, ◌<◌, ◌+◌, ℕ, List, Some, true, false, IfSome, IfNone, MatchResult, length, take, option_map, slice_get};
ghost use Rattle.ir_model.specs.Graph.{edges, names, among};
ghost use Rattle.ir_model.specs.Places.{neighbors_at, neighbor_at, later_neighbors, IsBothWays};
ghost use Rattle.ir_graph.specs.View.{rows_view};

use crate::rows::{Rows, name_at, row_index};

/// How many neighbours the node at a place has; none past the end.
pub fn neighbor_count(rows: &Rows, node: usize) -> usize
    ensures { result ≡ length (neighbors_at (rows_view rows.now) node) }
{
    match rows.get_index(node) {
        Some((_, row)) => row.len(),
        None => 0,
    }
}

/// The neighbour at a place of the node at a place, by its name, and the weight of the link.
fn entry_at(rows: &Rows, node: usize, place: usize) -> Option<(&str, u32)>
    ensures { option_map {U = List ℕ × ℕ} (λ e. (e.0.now, e.1)) result
        ≡ slice_get (neighbors_at (rows_view rows.now) node) place }
{
    match rows.get_index(node) {
        Some((_, row)) => match row.get_index(place) {
            Some((name, weight)) => Some((name.as_str(), *weight)),
            None => None,
        },
        None => None,
    }
}

/// The neighbour at a place of the node at a place, by its own place, and the weight of the link.
pub fn neighbor_at(rows: &Rows, node: usize, place: usize) -> Option<(usize, u32)>
    requires { IsBothWays (rows_view rows.now) }
    ensures at { result ≡ neighbor_at (rows_view rows.now) node place }
    ensures within { IfSome result (λ link. link.0 < length (rows_view rows.now)) }
{
    let (name, weight) = entry_at(rows, node, place)?;
    let neighbor = row_index(rows, name)?;
    Some((neighbor, weight))
}

/// Whether a name is a node before a place.
fn stands_before(rows: &Rows, name: &str, node: usize) -> bool
    requires { node < length (rows_view rows.now) }
    ensures { result ≡ among (take node (names (rows_view rows.now))) name.now }
{
    match row_index(rows, name) {
        Some(place) => place < node,
        None => false,
    }
}

/// The neighbour at a place of the node at a place, if it isn't before the node.
fn later_at(rows: &Rows, node: usize, place: usize) -> Option<(&str, u32)>
    requires { node < length (rows_view rows.now) }
    ensures before { IfNone result
        (IfSome {T = List ℕ × ℕ} (slice_get (neighbors_at (rows_view rows.now) node) place)
        (λ e. among (take node (names (rows_view rows.now))) e.0 ≡ true)) }
    ensures there { IfSome result (λ e. slice_get (neighbors_at (rows_view rows.now) node) place
        ≡ Some (e.0.now, e.1)) }
    ensures later { IfSome result (λ e. among (take node (names (rows_view rows.now))) e.0.now ≡ false) }
{
    let (name, weight) = entry_at(rows, node, place)?;
    if stands_before(rows, name, node) {
        return None;
    }
    Some((name, weight))
}

/// The edge at a place of those that the node at a place has with itself and later nodes, by its other end and its
/// weight. After the last of them, how many places are left.
fn later_edge(rows: &Rows, node: usize, place: usize) -> Result<(&str, u32), usize>
    requires { node < length (rows_view rows.now) }
    ensures { MatchResult result (λ e. slice_get (later_neighbors (rows_view rows.now) node) place
        ≡ Some (e.0.now, e.1)) (λ left. left + length (later_neighbors (rows_view rows.now) node) ≡ place) }
{
    let mut left = place;
    for i in 0..neighbor_count(rows, node) {
        if let Some(edge) = later_at(rows, node, i) {
            if left == 0 {
                return Ok(edge);
            }
            left -= 1;
        }
    }
    Err(left)
}

/// The edge at a place, by its ends and its weight.
pub fn edge_at(rows: &Rows, place: usize) -> Option<(&str, &str, u32)>
    ensures { option_map {U = List ℕ × List ℕ × ℕ} (λ e. (e.0.now, e.1.now, e.2)) result
        ≡ slice_get (edges (rows_view rows.now)) place }
{
    let mut left = place;
    for node in 0..rows.len() {
        let name = name_at(rows, node)?;
        match later_edge(rows, node, left) {
            Ok((other, weight)) => return Some((name, other, weight)),
            Err(rest) => left = rest,
        }
    }
    None
}
