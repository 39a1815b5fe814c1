//! Depth-first numbers and tree tables.

use crate::networks::{Edge, HEAVY, RING, topology_of};
use ir_numbering::{NumberError, Numbering, is_order, tree_table};
use ir_tables::Topology;
use std::alloc::Global;
use std::test::Fail;

/// What a numbering has at one place: the label of the node with this number, the node with this label, the port to the
/// node's parent, and the size of its subtree.
type Place = (u16, u16, Option<u16>, usize);

/// The edges of a network, a root, and the places of the numbering from there, or why there is none.
type Case = (&'static [Edge], u16, Result<&'static [Place], NumberError>);

static CASES: [Case; 4] = [
    (
        &RING,
        0,
        Ok(&[
            (0, 0, None, 4),
            (1, 1, Some(0), 3),
            (3, 3, Some(1), 1),
            (2, 2, Some(0), 2),
        ]),
    ),
    (
        &HEAVY,
        0,
        Ok(&[
            (0, 0, None, 6),
            (1, 1, Some(0), 5),
            (2, 2, Some(1), 4),
            (3, 3, Some(0), 1),
            (4, 4, Some(0), 1),
            (5, 5, Some(0), 1),
        ]),
    ),
    (&RING, 4, Err(NumberError::NoNode)),
    (
        &[("a", "a", 1), ("b", "b", 1)],
        0,
        Err(NumberError::Disconnected),
    ),
];

/// The places of the numbering of a network from a root.
fn places(alloc: Global, topology: &Topology, root: u16) -> Result<Vec<Place>, NumberError> {
    let numbers = Numbering::depth_first(alloc, topology, root)?;
    let mut places = Vec::new(alloc);
    for k in 0..topology.nodes() {
        let k = k as u16;
        let Ok(()) = places.push((
            numbers.label_of(k),
            numbers.node_of(k),
            numbers.parent(k),
            numbers.subtree(k),
        )) else {
            return Err(NumberError::NoMemory);
        };
    }
    Ok(places)
}

/// Whether a network is numbered so.
fn is_numbered_so(alloc: Global, topology: &Topology, case: &Case) -> bool {
    match places(alloc, topology, case.1) {
        Ok(places) => match case.2 {
            Ok(wanted) => places.as_slice() == wanted,
            Err(_) => false,
        },
        Err(error) => match case.2 {
            Ok(_) => false,
            Err(why) => error == why,
        },
    }
}

/// Whether the network of a case is.
fn is_numbered(alloc: Global, case: &Case) -> bool {
    match topology_of(alloc, case.0) {
        Some(topology) => is_numbered_so(alloc, &topology, case),
        None => false,
    }
}

#[test]
fn numbers_depth_first(rt: HostRuntime) -> Result<(), Fail> {
    for case in &CASES {
        if !is_numbered(rt.alloc(), case) {
            return Err("another numbering".into());
        }
    }
    Ok(())
}

/// The way from node 0 to node 2 along the tree of a network of four nodes: its port, and how far it is.
fn way_along_tree(alloc: Global, topology: &Topology) -> Option<(Option<u16>, u32)> {
    if topology.nodes() != 4 {
        return None;
    }
    let numbering = Numbering::depth_first(alloc, topology, 0).ok()?;
    let table = tree_table(alloc, topology, &numbering).ok()?;
    Some((table.next(0, 2), table.distance(0, 2)))
}

#[test]
fn routes_a_ring_along_its_tree(rt: HostRuntime) {
    let way = match topology_of(rt.alloc(), &RING) {
        Some(topology) => way_along_tree(rt.alloc(), &topology),
        None => None,
    };
    assert!(rt; way == Some((Some(0), 3)));
}

/// Lists of some of four nodes, and whether each is an order of them.
static ORDERS: [(&'static [u16], bool); 6] = [
    (&[2, 0, 1, 3], true),
    (&[2, 4, 4, 3], false),
    (&[2, 0, 2, 4], false),
    (&[2, 0, 1], false),
    (&[], false),
    (&[0, 1, 2, 3, 3], false),
];

#[test]
fn orders_of_all_nodes(rt: HostRuntime) -> Result<(), Fail> {
    for (nodes, is_one) in &ORDERS {
        if is_order(rt.alloc(), 4, *nodes)? != *is_one {
            return Err("another answer".into());
        }
    }
    Ok(())
}
