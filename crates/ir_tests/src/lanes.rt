//! Ways of sixteen nodes at once, of networks that were worked out by hand.

ghost use Rattle.std.specs.Prelude.{◌≡◌, ◌≤◌, ◌<◌, ℕ, IsTrue, length, slice_index};
ghost use Rattle.ir_model.specs.Topology.{node_count, ports_of};
ghost use Rattle.ir_lanes.specs.{Outward.AreOutwardLanes, Marks.ArePortMarks};

use crate::networks::{HEAVY, RING, topology_of};
use ir_lanes::{OutwardLanes, PortMarks, sixteen_from, words_to};
use ir_plan::Patience;
use ir_tables::Topology;
use std::alloc::Global;

/// Whether these are nodes.
fn are_nodes(topology: &Topology, nodes: &[u16]) -> bool
    ensures { IsTrue result → (d : ℕ) → d < length nodes.now
        → slice_index nodes.now d < node_count topology.now }
{
    for v in nodes {
        if *v as usize >= topology.nodes() {
            return false;
        }
    }
    true
}

/// Whether these are the distances of a lane.
fn are_distances(
    alloc: Global,
    topology: &Topology,
    ways: &OutwardLanes,
    lane: usize,
    wanted: &[u32],
) -> bool
    requires ways { AreOutwardLanes topology.now ways.now }
    requires lane { lane < 16 }
{
    match ways.distances(alloc, topology, lane) {
        Ok(distances) => distances.as_slice() == wanted,
        Err(_) => false,
    }
}

/// Whether these are the ports of a lane along nodes.
fn are_ports(
    alloc: Global,
    topology: &Topology,
    ways: &OutwardLanes,
    lane: usize,
    nodes: &[u16],
    wanted: &[u16],
) -> bool
    requires ways { AreOutwardLanes topology.now ways.now }
    requires lane { lane < 16 }
{
    if !are_nodes(topology, nodes) {
        return false;
    }
    match ways.ports_along(alloc, topology, lane, nodes) {
        Ok(ports) => ports.as_slice() == wanted,
        Err(_) => false,
    }
}

/// Whether the ways from sixteen nodes, the first of them r and the others u, are those of the heavy network.
fn are_ways(alloc: Global, topology: &Topology, sources: &[u16]) -> bool
    requires sixteen { length sources.now ≡ 16 }
    requires nodes { (k : ℕ) → k < 16 → slice_index sources.now k < node_count topology.now }
{
    let Ok(Some(ways)) = OutwardLanes::from(alloc, topology, sources) else {
        return false;
    };
    are_distances(alloc, topology, &ways, 0, &[2, 1, 3, 4, 0, 4])
        && are_distances(alloc, topology, &ways, 15, &[0, 1, 1, 2, 2, 2])
        && are_ports(
            alloc,
            topology,
            &ways,
            0,
            &[5, 0, 1, 2, 3],
            &[1, 1, 1, 1, 1],
        )
        && are_ports(
            alloc,
            topology,
            &ways,
            15,
            &[5, 4, 3, 2, 1],
            &[1, 0, 1, 1, 0],
        )
}

/// Whether there are such sources, and their ways are so.
fn are_ways_from(alloc: Global, topology: &Topology) -> bool {
    match sixteen_from(alloc, &[4, 0], 0) {
        Ok(sources) => {
            are_nodes(topology, sources.as_slice()) && are_ways(alloc, topology, sources.as_slice())
        }
        Err(_) => false,
    }
}

#[test]
fn ways_of_sixteen_by_hand(rt: HostRuntime) {
    let are_so = match topology_of(rt.alloc(), &HEAVY) {
        Some(topology) => are_ways_from(rt.alloc(), &topology),
        None => false,
    };
    assert!(rt; are_so);
}

/// Whether the marks of a port of node 0 are these, and the places that they mark.
fn is_row(
    alloc: Global,
    topology: &Topology,
    order: &[u16],
    marks: &PortMarks,
    port: usize,
    wanted: (&[bool], &[u16]),
) -> bool
    requires marks { ArePortMarks topology.now order.now marks.now }
    requires few { length order.now ≤ 65536 }
    requires node { 0 < node_count topology.now }
    requires port { port < length (ports_of topology.now 0) }
{
    match marks.row(alloc, topology, order, 0, port) {
        Ok((row, marked)) => row.as_slice() == wanted.0 && marked.as_slice() == wanted.1,
        Err(_) => false,
    }
}

/// Whether the ports of node 0 tie so.
fn are_tied(
    alloc: Global,
    topology: &Topology,
    order: &[u16],
    marks: &PortMarks,
    wanted: &[u32],
) -> bool
    requires marks { ArePortMarks topology.now order.now marks.now }
    requires few { length order.now ≤ 65536 }
    requires node { 0 < node_count topology.now }
    requires ports { length (ports_of topology.now 0) ≤ 32 }
{
    match marks.tied(alloc, topology, order, 0) {
        Ok(tied) => tied.as_slice() == wanted,
        Err(_) => false,
    }
}

/// Whether the marks to the nodes of the ring, in their order, are so at node 0.
fn are_marks(alloc: Global, topology: &Topology, order: &[u16]) -> bool
    requires nodes { (d : ℕ) → d < length order.now → slice_index order.now d < node_count topology.now }
    requires few { length order.now ≤ 65536 }
    requires node { 0 < node_count topology.now }
    requires ports { length (ports_of topology.now 0) ≡ 2 }
{
    let Ok(Some(marks)) = PortMarks::of(alloc, topology, order) else {
        return false;
    };
    let tied = [0, 1, 2, 3, 3, 3, 3, 3, 3, 3, 3, 3, 3, 3, 3, 3];
    let to_b = ([false, true, false, true], [1, 3]);
    let to_d = ([false, false, true, true], [2, 3]);
    are_tied(alloc, topology, order, &marks, &tied)
        && is_row(alloc, topology, order, &marks, 0, (&to_b.0, &to_b.1))
        && is_row(alloc, topology, order, &marks, 1, (&to_d.0, &to_d.1))
}

/// Whether the first word to sixteen nodes is this one.
fn is_first_word(alloc: Global, topology: &Topology, order: &[u16], wanted: u16) -> bool
    requires nodes { (d : ℕ) → d < length order.now → slice_index order.now d < node_count topology.now }
    requires some { 0 < length order.now }
{
    match words_to(alloc, topology, order, 0) {
        Ok(Some(words)) => words.as_slice().first() == Some(&wanted),
        _ => false,
    }
}

/// Whether the words and the marks of the ring are so.
fn is_marked(alloc: Global, topology: &Topology) -> bool {
    let order: [u16; 4] = [0, 1, 2, 3];
    if !are_nodes(topology, &order) || topology.degree(0) != 2 {
        return false;
    }
    is_first_word(alloc, topology, &order, 0b1111_1111_1111_1010)
        && are_marks(alloc, topology, &order)
}

#[test]
fn marks_by_hand(rt: HostRuntime) {
    let are_so = match topology_of(rt.alloc(), &RING) {
        Some(topology) => is_marked(rt.alloc(), &topology),
        None => false,
    };
    assert!(rt; are_so);
}

/// Whether no ways lead to sixteen nodes or from them.
fn is_nothing(alloc: Global, topology: &Topology, ends: &[u16]) -> bool
    requires sixteen { length ends.now ≡ 16 }
    requires nodes { (k : ℕ) → k < 16 → slice_index ends.now k < node_count topology.now }
{
    let outward = match OutwardLanes::from(alloc, topology, ends) {
        Ok(ways) => ways.is_none(),
        Err(_) => false,
    };
    let inward = match words_to(alloc, topology, ends, 0) {
        Ok(words) => words.is_none(),
        Err(_) => false,
    };
    outward && inward
}

/// Whether none lead to node 1.
fn is_apart(alloc: Global, topology: &Topology) -> bool {
    match sixteen_from(alloc, &[1], 0) {
        Ok(ends) => {
            are_nodes(topology, ends.as_slice()) && is_nothing(alloc, topology, ends.as_slice())
        }
        Err(_) => false,
    }
}

/// Whether that is so where the links of node 0 are down.
fn is_cut_off(alloc: Global, whole: &Topology) -> bool {
    if whole.links() != 7 {
        return false;
    }
    match whole.only(alloc, &[false, false, true, true, true, true, true]) {
        Ok(topology) => is_apart(alloc, &topology),
        Err(_) => false,
    }
}

#[test]
fn nothing_to_a_node_apart(rt: HostRuntime) {
    let is_so = match topology_of(rt.alloc(), &HEAVY) {
        Some(whole) => is_cut_off(rt.alloc(), &whole),
        None => false,
    };
    assert!(rt; is_so);
}

/// Whether the lanes are left alone for so many batches, and tried for the next one.
fn waits_for(patience: &Patience, batches: u64) -> bool {
    let mut waits = true;
    for _ in 0..batches {
        waits &= !patience.tries();
    }
    waits && patience.tries()
}

/// The lanes are tried at first, and go on being tried where they find something. After one, two
/// and three batches in a row without an answer they are left alone for 1, 2 and 4 batches.
#[test]
fn lanes_are_tried(rt: HostRuntime) {
    let patience = Patience::new();
    let at_first = patience.tries();
    patience.learns(true);
    let found = patience.tries();
    patience.learns(false);
    let once = waits_for(&patience, 1);
    patience.learns(false);
    let twice = waits_for(&patience, 2);
    patience.learns(false);
    let thrice = waits_for(&patience, 4);
    patience.learns(true);
    let again = patience.tries();
    assert!(rt; at_first && found && once && twice && thrice && again);
}
