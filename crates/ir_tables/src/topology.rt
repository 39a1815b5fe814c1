ghost use Rattle.std.specs.Prelude.{◌≡◌, ℕ, ◌<◌, ◌≤◌, ◌==◌, Some, length, filter, find, slice_get, slice_index_or, IfOk, IfSome, IsSomeAnd, map};
ghost use Rattle.ir_model.specs.Topology.{Topology, IsTopology, node_count, ports_of, port_at, is_up, restrict};
ghost use Rattle.ir_model.specs.{declared.Hop.Hop, OfGraph.topology_of_graph, declared.TheConstants.MAX_WEIGHT};
ghost use Rattle.ir_tables.specs.Views.{topology_view};

use crate::adjacency::{links_of, ports_of};
use crate::link_keys::link_keys;
use crate::port_rows::PortRows;
use ir_graph::Graph;
use ir_model::{Hop, Link};
use std::alloc::{AllocError, Global};
use std::marker::Model;

/// A network: nodes 0 to n-1, numbered links between two different nodes, and the ports of each node. A port leads to
/// a neighbour over the link between them.
#[derive(Drop)]
pub struct Topology {
    links: Vec<Link>,
    ports: PortRows,
}

impl Model for Topology {
    ghost Value = { Topology };

    ghost view = { topology_view };

    ghost invariant = { λ t. IsTopology (topology_view t) };
}

impl Topology {
    /// The topology of a graph. Its nodes are places in node order. Its links are the edges that are no self-loops, in
    /// edge order. The ports of a node are its other neighbours, in adjacency order. A graph with no node is accepted;
    /// it is refused for memory alone. Takes O(n + m log m) on average, for n nodes and m links.
    pub fn of(alloc: Global, graph: &Graph) -> Result<Topology, AllocError>
        ensures { IfOk result (λ t. t ≡ topology_of_graph graph.now) }
    {
        let nodes = graph.number_of_nodes();
        let links = links_of(alloc, graph)?;
        let keys = link_keys(alloc, links.as_slice())?;
        let mut ports = PortRows::new(alloc)?;
        for u in 0..nodes {
            let row = ports_of(alloc, graph, links.as_slice(), keys.as_slice(), u)?;
            ports = ports.with(row.as_slice())?;
        }
        Ok(Topology { links, ports })
    }

    /// Does nothing; a caller's proof learns by it what holds of each topology.
    pub fn invariant(&self)
        ensures topology { IsTopology self.now }
    {
        self.nodes();
    }

    /// How many nodes there are.
    pub fn nodes(&self) -> usize
        ensures count { result ≡ node_count self.now }
        ensures topology { IsTopology self.now }
    {
        self.ports.len()
    }

    /// How many links are numbered, those that are gone from an `only` among them.
    pub fn links(&self) -> usize
        ensures count { result ≡ length self.now.links }
    {
        self.links.len()
    }

    /// The two ends of a link, the smaller node first. Condition: the number is below `links()`.
    pub fn ends(&self, link: u32) -> (u16, u16)
        requires { link < length self.now.links }
        ensures { IsSomeAnd (slice_get self.now.links link) (λ ends. (result.0 ≡ ends.low)
            × (result.1 ≡ ends.high)) }
    {
        let ends = &self.links[link as usize];
        (ends.low, ends.high)
    }

    /// How many ports a node has. Condition: the number is below `nodes()`.
    pub fn degree(&self, node: u16) -> usize
        requires { node < node_count self.now }
        ensures { result ≡ length (ports_of self.now node) }
    {
        self.ports.row(node as usize).len()
    }

    /// Where a port of a node leads: the neighbour, the link and its weight. Condition: `node` is below `nodes()`, and
    /// `port` below its degree.
    pub fn port(&self, node: u16, port: u16) -> Hop
        requires node { node < node_count self.now }
        requires port { port < length (ports_of self.now node) }
        ensures { port_at self.now node port ≡ Some result }
    {
        self.ports.row(node as usize)[port as usize]
    }

    /// The ports of a node, in order. Condition: the number is below `nodes()`.
    pub fn ports(&self, node: usize) -> &[Hop]
        requires { node < node_count self.now }
        ensures { result.now ≡ ports_of self.now node }
    {
        self.ports.row(node)
    }

    /// The first port of a node that leads to another one. Condition: `node` is below `nodes()`. Takes O(d), for d
    /// ports of `node`.
    pub fn hop_to(&self, node: u16, neighbor: u16) -> Option<Hop>
        requires { node < node_count self.now }
        ensures first { result ≡ find (λ hop. hop.node == neighbor) (ports_of self.now node) }
        ensures weight { IfSome result (λ hop. hop.weight ≤ MAX_WEIGHT) }
    {
        self.invariant();
        first_to(self.ports(node as usize), neighbor)
    }

    /// The topology over the links that are marked as up. Nodes and links keep their numbers, and `links()` and `ends`
    /// stay; ports are numbered anew over the links that remain. Condition: one mark for each link. It is refused for
    /// memory alone. Takes O(n + m), for n nodes and m links.
    pub fn only(&self, alloc: Global, up: &[bool]) -> Result<Topology, AllocError>
        requires { length up.now ≡ length self.now.links }
        ensures { IfOk result (λ kept. kept ≡ restrict up.now self.now) }
    {
        let links = Vec::from_slice(alloc, self.links.as_slice())?;
        let mut ports = PortRows::new(alloc)?;
        for u in 0..self.nodes() {
            let row = ports_up(alloc, self.ports(u), up)?;
            ports = ports.with(row.as_slice())?;
        }
        Ok(Topology { links, ports })
    }

    /// A topology with the same nodes, links and ports. It is refused for memory alone. Takes O(n + m), for n nodes
    /// and m links.
    pub fn try_clone(&self, alloc: Global) -> Result<Topology, AllocError>
        ensures { IfOk result (λ copy. copy ≡ self.now) }
    {
        let links = Vec::from_slice(alloc, self.links.as_slice())?;
        let ports = self.ports.try_clone(alloc)?;
        Ok(Topology { links, ports })
    }
}

/// The first port that leads to a node.
fn first_to(ports: &[Hop], v: u16) -> Option<Hop>
    ensures { result ≡ find (λ hop. hop.node == v) ports.now }
{
    ports.iter().copied().find(|hop| hop.node == v)
}

/// The ports whose links are up, in order.
fn ports_up(alloc: Global, ports: &[Hop], up: &[bool]) -> Result<Vec<Hop>, AllocError>
    requires { (p : ℕ) (hop : Hop) → slice_get ports.now p ≡ Some hop → hop.link < length up.now }
    ensures { IfOk result (λ kept. kept.items ≡ filter (is_up up.now) ports.now) }
{
    let mut kept = Vec::new(alloc);
    for hop in ports {
        if up[hop.link as usize] {
            kept.push(*hop)?;
        }
    }
    Ok(kept)
}
