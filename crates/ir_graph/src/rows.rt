//! The rows of a graph: its nodes in order, each with its neighbours in order.
ghost use Rattle.std.specs.Prelude.{false, ◌^◌, if◌then◌else◌, None, Some, ◌≡◌, ◌<◌, length, take, OnOk, OnErr, IfOk, IfSome, IsSome, is_some, option_map, slice_get, position, bytes_eq};
ghost use Rattle.std.specs.{List.IsDistinct, Map.{lookup, keys_of}};
ghost use Rattle.ir_model.specs.Graph.{weight_of, has_node, neighbors, with_node, with_edge, without, without_edge, without_node, names, put};
ghost use Rattle.ir_graph.specs.View.{rows_view, change_row, linked_rows};

use indexmap::IndexMap;
use std::alloc::{AllocError, Global};

/// The neighbours of a node, each with the weight of its link.
pub type Row = IndexMap<String, u32>;

pub type Rows = IndexMap<String, Row>;

/// Whether the name is a node.
pub fn has_row(rows: &Rows, name: &str) -> bool
    ensures { result ≡ has_node (rows_view rows.now) name.now }
{
    rows.contains_key(name)
}

/// The weight of the link between two nodes.
pub fn link_weight(rows: &Rows, u: &str, v: &str) -> Option<u32>
    ensures { result ≡ weight_of (rows_view rows.now) u.now v.now }
{
    match rows.get(u) {
        Some(row) => row.get(v).copied(),
        None => None,
    }
}

/// Adds a node at the end.
pub fn add_row(alloc: Global, rows: &mut Rows, name: &str) -> Result<(), AllocError>
    requires { has_node (rows_view rows.old) name.now ≡ false }
    ensures ok { OnOk result (rows_view rows.new ≡ with_node (rows_view rows.old) name.now) }
    ensures err { OnErr result (rows_view rows.new ≡ rows_view rows.old) }
    ensures differ { OnOk result (IsDistinct bytes_eq (names (rows_view rows.new))) }
{
    let key = String::from_str(alloc, name)?;
    rows.insert(key, IndexMap::new(alloc))?;
    Ok(())
}

/// The place of a node.
pub fn row_index(rows: &Rows, name: &str) -> Option<usize>
    ensures index { result ≡ position (bytes_eq name.now) (names (rows_view rows.now)) }
    ensures found { IfSome result (λ i. slice_get (names (rows_view rows.now)) i ≡ Some name.now) }
    ensures has { is_some result ≡ has_node (rows_view rows.now) name.now }
    ensures differ { IsDistinct bytes_eq (names (rows_view rows.now)) }
{
    rows.get_index_of(name)
}

/// Puts a neighbour into the row at a place.
pub fn put_neighbor(
    alloc: Global,
    rows: &mut Rows,
    at: usize,
    name: &str,
    weight: u32,
) -> Result<(), AllocError>
    requires { at < length (rows_view rows.old) }
    ensures ok { OnOk result (rows_view rows.new
        ≡ change_row (rows_view rows.old) at (λ es. put es name.now weight)) }
    ensures err { OnErr result (rows_view rows.new ≡ rows_view rows.old) }
{
    let key = String::from_str(alloc, name)?;
    let row = &mut rows[at];
    row.insert(key, weight)?;
    Ok(())
}

/// Takes a neighbour out of the row at a place. The others keep their order.
pub fn cut_neighbor(rows: &mut Rows, at: usize, name: &str)
    requires { at < length (rows_view rows.old) }
    ensures { rows_view rows.new ≡ change_row (rows_view rows.old) at (λ es. without es name.now) }
{
    let row = &mut rows[at];
    row.shift_remove(name);
}

/// Puts each of two nodes, at their places, into the row of the other.
fn join_rows(
    alloc: Global,
    rows: &mut Rows,
    places: (usize, usize),
    u: &str,
    v: &str,
    weight: u32,
) -> Result<(), AllocError>
    requires first { places.0 < length (rows_view rows.old) }
    requires second { places.1 < length (rows_view rows.old) }
    requires apart { IfSome (slice_get (rows_view rows.old) places.0) (λ r. lookup (bytes_eq v.now) r.1 ≡ None) }
    ensures ok { OnOk result (rows_view rows.new
        ≡ linked_rows (rows_view rows.old) places.0 places.1 u.now v.now weight) }
    ensures err { OnErr result (rows_view rows.new ≡ rows_view rows.old) }
{
    let (i, j) = places;
    put_neighbor(alloc, rows, i, v, weight)?;
    if i != j
        && let Err(error) = put_neighbor(alloc, rows, j, u, weight)
    {
        cut_neighbor(rows, i, v);
        return Err(error);
    }
    Ok(())
}

/// The place of a node, which is added where it is missing.
pub fn place(alloc: Global, rows: &mut Rows, name: &str) -> Result<usize, AllocError>
    ensures ok { OnOk result (rows_view rows.new ≡ with_node (rows_view rows.old) name.now) }
    ensures found { IfOk result (λ i. slice_get (names (rows_view rows.new)) i ≡ Some name.now) }
    ensures differ { OnOk result (IsDistinct bytes_eq (names (rows_view rows.new))) }
    ensures err { OnErr result (rows_view rows.new ≡ rows_view rows.old) }
{
    match row_index(rows, name) {
        Some(i) => Ok(i),
        None => {
            let i = rows.len();
            add_row(alloc, rows, name)?;
            Ok(i)
        }
    }
}

/// Links two nodes. On an error rows may have come after those that were there.
fn extend_link(
    alloc: Global,
    rows: &mut Rows,
    u: &str,
    v: &str,
    weight: u32,
) -> Result<(), AllocError>
    requires apart { weight_of (rows_view rows.old) u.now v.now ≡ None }
    ensures ok { OnOk result (rows_view rows.new ≡ with_edge (rows_view rows.old) u.now v.now weight) }
    ensures err { OnErr result (take (length (rows_view rows.old)) (rows_view rows.new) ≡ rows_view rows.old) }
{
    let i = place(alloc, rows, u)?;
    let j = place(alloc, rows, v)?;
    join_rows(alloc, rows, (i, j), u, v, weight)
}

/// Links two nodes that are not linked. Missing ends are added.
pub fn add_link(
    alloc: Global,
    rows: &mut Rows,
    u: &str,
    v: &str,
    weight: u32,
) -> Result<(), AllocError>
    requires apart { weight_of (rows_view rows.old) u.now v.now ≡ None }
    ensures ok { OnOk result (rows_view rows.new ≡ with_edge (rows_view rows.old) u.now v.now weight) }
    ensures err { OnErr result (rows_view rows.new ≡ rows_view rows.old) }
{
    let before = rows.len();
    let result = extend_link(alloc, rows, u, v, weight);
    if result.is_err() {
        rows.truncate(before);
    }
    result
}

/// Changes the weight of a neighbour in the row at a place.
fn set_neighbor(rows: &mut Rows, at: usize, name: &str, weight: u32)
    requires there { IfSome (slice_get (rows_view rows.old) at) (λ r. IsSome (lookup (bytes_eq name.now) r.1)) }
    requires within { at < length (rows_view rows.old) }
    ensures { rows_view rows.new ≡ change_row (rows_view rows.old) at (λ es. put es name.now weight) }
{
    let row = &mut rows[at];
    if let Some(slot) = row.get_mut(name) {
        *slot = weight;
    }
}

/// Changes the weight of the link between two nodes that are linked.
pub fn set_link(rows: &mut Rows, u: &str, v: &str, weight: u32)
    requires forth { IsSome (weight_of (rows_view rows.old) u.now v.now) }
    requires back { IsSome (weight_of (rows_view rows.old) v.now u.now) }
    ensures set { rows_view rows.new ≡ with_edge (rows_view rows.old) u.now v.now weight }
    ensures differ { IsDistinct bytes_eq (names (rows_view rows.old)) }
{
    if let Some(i) = row_index(rows, u)
        && let Some(j) = row_index(rows, v)
    {
        set_neighbor(rows, i, v, weight);
        if i != j {
            set_neighbor(rows, j, u, weight);
        }
    }
}

/// How many rows the node lacks.
fn missing(rows: &Rows, name: &str) -> usize
    ensures { result ≡ (if has_node (rows_view rows.now) name.now then 0 else 1) }
{
    if has_row(rows, name) { 0 } else { 1 }
}

/// How many nodes there are with these two.
pub fn len_with(rows: &Rows, u: &str, v: &str) -> usize
    ensures len { result ≡ length (with_node (with_node (rows_view rows.now) u.now) v.now) }
    ensures differ { IsDistinct bytes_eq (names (rows_view rows.now)) }
{
    let len = rows.len() + missing(rows, u);
    if u == v {
        return len;
    }
    len + missing(rows, v)
}

/// The name of the node at a place.
pub fn name_at(rows: &Rows, place: usize) -> Option<&str>
    ensures { option_map (λ name. name.now) result ≡ slice_get (names (rows_view rows.now)) place }
{
    match rows.get_index(place) {
        Some((name, _)) => Some(name.as_str()),
        None => None,
    }
}

/// The neighbour of a node at a place.
pub fn neighbor_at<'a>(rows: &'a Rows, name: &str, place: usize) -> Option<&'a str>
    ensures { option_map (λ other. other.now) result
        ≡ slice_get (keys_of (neighbors (rows_view rows.now) name.now)) place }
{
    match rows.get(name) {
        Some(row) => match row.get_index(place) {
            Some((other, _)) => Some(other.as_str()),
            None => None,
        },
        None => None,
    }
}

/// How many neighbours a node has.
pub fn row_len(rows: &Rows, name: &str) -> usize
    ensures len { result ≡ length (neighbors (rows_view rows.now) name.now) }
    ensures small { result < 2 ^ 63 }
{
    match rows.get(name) {
        Some(row) => row.len(),
        None => 0,
    }
}

/// Takes two nodes that are linked out of each other's rows.
pub fn cut_link(rows: &mut Rows, u: &str, v: &str)
    requires forth { IsSome (weight_of (rows_view rows.old) u.now v.now) }
    requires back { IsSome (weight_of (rows_view rows.old) v.now u.now) }
    ensures cut { rows_view rows.new ≡ without_edge (rows_view rows.old) u.now v.now }
    ensures differ { IsDistinct bytes_eq (names (rows_view rows.old)) }
{
    if let Some(i) = row_index(rows, u)
        && let Some(j) = row_index(rows, v)
    {
        cut_neighbor(rows, i, v);
        if i != j {
            cut_neighbor(rows, j, u);
        }
    }
}

/// Takes a node out, and its name out of each row.
pub fn drop_row(rows: &mut Rows, name: &str)
    ensures dropped { rows_view rows.new ≡ without_node (rows_view rows.old) name.now }
    ensures differ { IsDistinct bytes_eq (names (rows_view rows.old)) }
{
    row_index(rows, name);
    rows.shift_remove(name);
    for i in 0..rows.len() {
        cut_neighbor(rows, i, name);
    }
}
