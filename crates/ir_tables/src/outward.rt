//! The shortest ways from one node: the distance to each node, and which ports lead nearer to it. They take memory for
//! one node's worth, where a table takes that of all nodes.
ghost use Rattle.std.specs.Prelude.{◌≡◌, ◌≢◌, ◌+◌, ◌<◌, ◌≤◌, ℕ, IfOk, OnOk, IsTrue, ◌↔◌, All, IsSome, length};
ghost use Rattle.ir_model.specs.{Topology.{node_count, port_at, ports_of}, Walk.IsConnected, Table.LeadsNearer};
ghost use Rattle.ir_tables.specs.{Relaxation.{at, IsRelaxed}, Keys.{no_key, AreWeightsIn, ArePortsIn}};
ghost use Rattle.ir_tables.specs.FromNode.{AreFrom, AreLeastPorts, AreLedBy, AreListed, IsPassedOn, Outward};
ghost use Rattle.ir_tables.specs.Views.{ways_of};

use crate::keyed::{UNIT, keys_from};
use crate::topology::Topology;
use std::alloc::{AllocError, Global};
use std::marker::Model;

/// The distances from one node, by node, and for each other node the least of its ports that lead nearer to it.
#[derive(Drop)]
pub struct Outward {
    source: u16,
    weights: Vec<u32>,
    ports: Vec<Option<u16>>,
}

impl Model for Outward {
    ghost Value = { Outward };

    ghost view = { ways_of };
}

impl Outward {
    /// The ways from a node. Condition: it is a node, and each node has a walk to each node. It is refused for
    /// memory alone. Takes O((n + m) log n), for n nodes and m links.
    pub fn from(alloc: Global, topology: &Topology, node: u16) -> Result<Outward, AllocError>
        requires node { node < node_count topology.now }
        requires connected { IsConnected topology.now }
        ensures source { IfOk result (λ ways. ways.source ≡ node) }
        ensures distances { IfOk result (λ ways. AreFrom topology.now node ways.weights) }
        ensures ports { IfOk result (λ ways. AreLeastPorts topology.now node ways.ports) }
    {
        topology.invariant();
        let keys = keys_from(alloc, topology, node)?;
        let weights = weights_in(alloc, keys.as_slice())?;
        let ports = ports_in(alloc, node, keys.as_slice())?;
        Ok(Outward {
            source: node,
            weights,
            ports,
        })
    }

    /// The distance to each node, by node.
    pub fn weights(&self) -> &[u32]
        ensures { result.now ≡ self.now.weights }
    {
        self.weights.as_slice()
    }

    /// The least port of the node that leads nearer to each node, by node; none for itself.
    pub fn least_ports(&self) -> &[Option<u16>]
        ensures { result.now ≡ self.now.ports }
    {
        self.ports.as_slice()
    }

    /// The nodes to which a port of the node leads nearer, and no others. Condition: the distances are those of the
    /// topology, and the node has the port. It is refused for memory alone. Takes O(n + l), for n nodes and l links of
    /// the nodes that it gives; O(1) where it gives none.
    pub fn nodes_by(
        &self,
        alloc: Global,
        topology: &Topology,
        port: usize,
    ) -> Result<Vec<u16>, AllocError>
        requires distances { AreFrom topology.now self.now.source self.now.weights }
        requires port { port < length (ports_of topology.now self.now.source) }
        ensures { IfOk result (λ nodes. AreLedBy topology.now self.now.source port nodes.items) }
    {
        flood(alloc, topology, self.weights.as_slice(), self.source, port)
    }
}

/// The weights of the lightest walks to `d`, by node, `UNREACHED` where there is none. A link weighs the same both
/// ways, so they are those of the walks from `d`. Takes O((n + m) log m), for n nodes and m links.
pub fn weights_to(alloc: Global, topology: &Topology, d: usize) -> Result<Vec<u32>, AllocError>
    requires { d < node_count topology.now }
    ensures { IfOk result (λ weights. IsRelaxed topology.now d weights.items) }
{
    topology.invariant();
    let keys = keys_from(alloc, topology, d as u16)?;
    weights_in(alloc, keys.as_slice())
}

// The weights in keys.
fn weights_in(alloc: Global, keys: &[u64]) -> Result<Vec<u32>, AllocError>
    requires { (v : ℕ) → at keys.now v ≤ no_key }
    ensures { IfOk result (λ weights. AreWeightsIn keys.now weights.items (length keys.now)) }
{
    let mut weights = Vec::with_capacity(alloc, keys.len())?;
    for key in keys {
        weights.push((*key / UNIT) as u32)?;
    }
    Ok(weights)
}

// The ports in keys from `u`, which has none for itself.
fn ports_in(alloc: Global, u: u16, keys: &[u64]) -> Result<Vec<Option<u16>>, AllocError>
    ensures { IfOk result (λ ports. ArePortsIn u keys.now ports.items (length keys.now)) }
{
    let mut ports = Vec::with_capacity(alloc, keys.len())?;
    for (v, key) in keys.iter().enumerate() {
        let port = if v == u as usize {
            None
        } else {
            Some((*key % UNIT) as u16)
        };
        ports.push(port)?;
    }
    Ok(ports)
}

// Whether a step to `y`, from a node with the weight `own`, goes as far as the weights do.
fn is_tight(weights: &[u32], own: u32, weight: u32, y: usize) -> bool
    requires { y < length weights.now }
    ensures { IsTrue result ↔ (at weights.now y ≡ own + weight) }
{
    weights[y] as u64 == own as u64 + weight as u64
}

// The nodes to which the port `p` of `u` leads nearer. Each passes it on along its tight steps, in the order in which
// they got it.
fn flood(
    alloc: Global,
    topology: &Topology,
    weights: &[u32],
    u: u16,
    p: usize,
) -> Result<Vec<u16>, AllocError>
    requires distances { AreFrom topology.now u weights.now }
    requires port { p < length (ports_of topology.now u) }
    ensures { IfOk result (λ nodes. AreLedBy topology.now u p nodes.items) }
{
    let nodes = topology.nodes();
    let first = topology.port(u, p as u16);
    let start = first.node as usize;
    if !is_tight(weights, weights[u as usize], first.weight, start) {
        return Ok(Vec::new(alloc));
    }
    let mut led = Vec::with_capacity(alloc, nodes)?;
    let mut marks = vec![in alloc; false; nodes]?;
    marks[start] = true;
    led.push(first.node)?;
    let mut passed = 0;
    while passed < led.len() {
        let x = led[passed];
        pass_on(topology, weights, x, &mut marks, &mut led)?;
        passed += 1;
    }
    Ok(led)
}

// Marks the nodes that a tight step from `x` leads to, and puts those that had no mark into the list.
fn pass_on(
    topology: &Topology,
    weights: &[u32],
    x: u16,
    marks: &mut Vec<bool>,
    led: &mut Vec<u16>,
) -> Result<(), AllocError>
    requires node { x < node_count topology.now }
    requires weights { length weights.now ≡ node_count topology.now }
    requires marks { length marks.old.items ≡ node_count topology.now }
    requires listed { AreListed marks.old.items led.old.items }
    ensures { OnOk result (IsPassedOn topology.now weights.now x marks.old.items led.old.items marks.new.items
        led.new.items) }
{
    topology.invariant();
    let own = weights[x as usize];
    for hop in topology.ports(x as usize) {
        let y = hop.node as usize;
        if is_tight(weights, own, hop.weight, y) && !marks[y] {
            marks[y] = true;
            led.push(hop.node)?;
        }
    }
    Ok(())
}
