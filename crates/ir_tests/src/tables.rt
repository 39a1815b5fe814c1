//! Topologies and tables of graphs that were worked out by hand.

ghost use Rattle.std.specs.Prelude.{◌≡◌, ◌<◌, length};
ghost use Rattle.ir_model.specs.{Topology.{node_count, ports_of}, Table.table_size, Walk.IsConnected};
ghost use Rattle.ir_tables.specs.FromNode.{AreFrom};

use crate::networks::{Edge, HEAVY, topology_of};
use ir_tables::{Hop, Outward, Table, TableError, Topology, UNREACHED};
use std::alloc::Global;
use std::test::Fail;

/// Two nodes, and the port and the distance from the one to the other.
type Way = (u16, u16, Option<u16>, u32);

/// The number of a link, and its ends.
type Ends = (u32, (u16, u16));

/// A node, its degree, and the numbers of some of its ports: the node there, the link and its weight.
type Ports = (u16, usize, &'static [(u16, (u16, u32, u32))]);

/// A network and a mark for each of its links, and what its topology and its table have: some of the links, of the
/// ports and of the ways, or why there is no table.
struct Case {
    name: &'static str,
    edges: &'static [Edge],
    up: &'static [bool],
    links: &'static [Ends],
    ports: &'static [Ports],
    ways: Result<&'static [Way], TableError>,
}

static CASES: [Case; 6] = [
    Case {
        name: "shortest ways round the heavy link",
        edges: &HEAVY,
        up: &[true; 7],
        links: &[(0, (0, 1)), (3, (1, 4)), (4, (2, 3)), (6, (2, 5))],
        ports: &[(1, 3, &[(2, (4, 3, 1))])],
        ways: Ok(&[(0, 4, Some(0), 2), (1, 2, Some(0), 2), (3, 3, None, 0)]),
    },
    Case {
        name: "without one link",
        edges: &HEAVY,
        up: &[false, true, true, true, true, true, true],
        links: &[(6, (2, 5))],
        ports: &[(0, 1, &[(0, (2, 1, 1))])],
        ways: Ok(&[(0, 4, Some(0), 10)]),
    },
    Case {
        name: "without two links",
        edges: &HEAVY,
        up: &[false, true, false, true, true, true, true],
        links: &[],
        ports: &[],
        ways: Ok(&[(0, 1, Some(0), 11)]),
    },
    Case {
        name: "a node cut off",
        edges: &HEAVY,
        up: &[false, false, true, true, true, true, true],
        links: &[],
        ports: &[],
        ways: Err(TableError::Disconnected),
    },
    Case {
        name: "self-loops make no link",
        edges: &[("a", "a", 1), ("a", "b", 1), ("b", "c", 1)],
        up: &[true; 2],
        links: &[(0, (0, 1))],
        ports: &[(0, 1, &[])],
        ways: Ok(&[]),
    },
    Case {
        name: "no node",
        edges: &[],
        up: &[],
        links: &[],
        ports: &[],
        ways: Err(TableError::Empty),
    },
];

/// Whether these links, by their numbers, have these ends.
fn has_links(topology: &Topology, links: &[Ends]) -> bool {
    for (l, ends) in links {
        if *l as usize >= topology.links() || topology.ends(*l) != *ends {
            return false;
        }
    }
    true
}

/// Whether a node has these ports.
fn has_ports(topology: &Topology, node: &Ports) -> bool {
    let (u, degree, ports) = *node;
    if u as usize >= topology.nodes() || topology.degree(u) as usize != degree {
        return false;
    }
    for (p, (node, link, weight)) in ports {
        let hop = Hop {
            node: *node,
            link: *link,
            weight: *weight,
        };
        if *p as usize >= degree || topology.port(u, *p) != hop {
            return false;
        }
    }
    true
}

/// Whether a table has these ways.
fn has_ways(topology: &Topology, table: &Table, ways: &[Way]) -> bool
    requires { table_size table.now ≡ node_count topology.now }
{
    for (u, d, port, distance) in ways {
        if *u as usize >= topology.nodes() || *d as usize >= topology.nodes() {
            return false;
        }
        if table.next(*u, *d) != *port || table.distance(*u, *d) != *distance {
            return false;
        }
    }
    true
}

/// The least of a node's own weight and what its ports offer.
fn least(topology: &Topology, weights: &[u32], u: usize) -> u32
    requires { u < node_count topology.now }
{
    let mut least = weights.get(u).copied().unwrap_or(UNREACHED);
    for hop in topology.ports(u) {
        let there = weights.get(hop.node as usize).copied().unwrap_or(UNREACHED);
        least = least.min(there.saturating_add(hop.weight));
    }
    least
}

/// One round of relaxation (Bellman 1958): each node takes the least weight that its ports offer.
fn relax(topology: &Topology, weights: &mut [u32]) {
    for u in 0..topology.nodes() {
        let weight = least(topology, weights, u);
        if let Some(own) = weights.get_mut(u) {
            *own = weight;
        }
    }
}

/// The weights to a node that plain relaxation finds: as many rounds as there are nodes.
fn relaxed(alloc: Global, topology: &Topology, d: usize) -> Option<Vec<u32>> {
    let mut weights = vec![in alloc; UNREACHED; topology.nodes()].ok()?;
    *weights.get_mut(d)? = 0;
    for _round in 0..topology.nodes() {
        relax(topology, weights.as_mut_slice());
    }
    Some(weights)
}

/// Whether the distances to a node are these.
fn has_distances(topology: &Topology, table: &Table, d: u16, weights: &[u32]) -> bool
    requires { table_size table.now ≡ node_count topology.now }
{
    if d as usize >= topology.nodes() {
        return false;
    }
    for (u, weight) in weights.iter().enumerate() {
        if u >= topology.nodes() || table.distance(u as u16, d) != *weight {
            return false;
        }
    }
    true
}

/// Whether the distances to a node are those that plain relaxation finds.
fn agrees(alloc: Global, topology: &Topology, table: &Table, d: u16) -> bool
    requires { table_size table.now ≡ node_count topology.now }
{
    match relaxed(alloc, topology, d as usize) {
        Some(weights) => has_distances(topology, table, d, weights.as_slice()),
        None => false,
    }
}

/// Whether all of a topology's distances are those that plain relaxation finds.
fn all_agree(alloc: Global, topology: &Topology, table: &Table) -> bool
    requires { table_size table.now ≡ node_count topology.now }
{
    for d in 0..topology.nodes() {
        if !agrees(alloc, topology, table, d as u16) {
            return false;
        }
    }
    true
}

/// Whether a table is as a case has it.
fn has_table(alloc: Global, topology: &Topology, table: &Table, case: &Case) -> bool
    requires { table_size table.now ≡ node_count topology.now }
{
    match case.ways {
        Ok(ways) => has_ways(topology, table, ways) && all_agree(alloc, topology, table),
        Err(_) => false,
    }
}

/// Whether a topology's table of shortest ways is as a case has it.
fn is_routed(alloc: Global, topology: &Topology, case: &Case) -> bool {
    match Table::shortest(alloc, topology) {
        Ok(table) => has_table(alloc, topology, &table, case),
        Err(error) => match case.ways {
            Ok(_) => false,
            Err(why) => error == why,
        },
    }
}

/// The network of a case over the links that are up, if a mark stands for each.
fn marked(alloc: Global, case: &Case) -> Option<Topology> {
    let whole = topology_of(alloc, case.edges)?;
    if case.up.len() != whole.links() {
        return None;
    }
    match whole.only(alloc, case.up) {
        Ok(topology) => topology.try_clone(alloc).ok(),
        Err(_) => None,
    }
}

/// Whether nodes have these ports.
fn have_ports(topology: &Topology, nodes: &[Ports]) -> bool {
    for node in nodes {
        if !has_ports(topology, node) {
            return false;
        }
    }
    true
}

/// Whether a network is as a case has it.
fn is_so(alloc: Global, topology: &Topology, case: &Case) -> bool {
    topology.links() == case.up.len()
        && has_links(topology, case.links)
        && have_ports(topology, case.ports)
        && is_routed(alloc, topology, case)
}

/// Whether the network of a case is as the case has it.
fn is_case(alloc: Global, case: &Case) -> bool {
    match marked(alloc, case) {
        Some(topology) => is_so(alloc, &topology, case),
        None => false,
    }
}

#[test]
fn tables_by_hand(rt: HostRuntime) -> Result<(), Fail> {
    for case in &CASES {
        if !is_case(rt.alloc(), case) {
            return Err(case.name.into());
        }
    }
    Ok(())
}

/// A way that parts after its second node, and joins again at the last one.
static JOINED: [Edge; 5] = [
    ("s", "v", 1),
    ("v", "x", 1),
    ("v", "y", 1),
    ("x", "w", 1),
    ("y", "w", 1),
];

/// Whether the nodes to which the first port of the first node leads nearer are these, by number.
fn are_led_by_first(alloc: Global, topology: &Topology, ways: &Outward, wanted: &[u16]) -> bool
    requires distances { AreFrom topology.now ways.now.source ways.now.weights }
    requires port { 0 < length (ports_of topology.now ways.now.source) }
{
    match ways.nodes_by(alloc, topology, 0) {
        Ok(mut nodes) => nodes.sort().is_ok() && nodes.as_slice() == wanted,
        Err(_) => false,
    }
}

/// Whether there are ways from the first node, and these are the nodes.
fn leads_to(alloc: Global, topology: &Topology, wanted: &[u16]) -> bool
    requires { IsConnected topology.now }
{
    if topology.nodes() == 0 || topology.degree(0) == 0 {
        return false;
    }
    match Outward::from(alloc, topology, 0) {
        Ok(ways) => are_led_by_first(alloc, topology, &ways, wanted),
        Err(_) => false,
    }
}

/// Whether there is a table, and these are the nodes.
fn leads_once(alloc: Global, topology: &Topology, wanted: &[u16]) -> bool {
    match Table::shortest(alloc, topology) {
        Ok(_) => leads_to(alloc, topology, wanted),
        Err(_) => false,
    }
}

#[test]
fn a_port_leads_to_no_node_twice(rt: HostRuntime) {
    let leads = match topology_of(rt.alloc(), &JOINED) {
        Some(topology) => leads_once(rt.alloc(), &topology, &[1, 2, 3, 4]),
        None => false,
    };
    assert!(rt; leads);
}
