//! The shortest ways from sixteen nodes: the distance to each node, and the least port that leads nearer to it.
ghost use Rattle.std.specs.Prelude.{◌≡◌, ◌≢◌, ℕ, ◌+◌, ◌*◌, ◌^◌, ◌<◌, ◌≤◌, IfOk, IfSome, length, map, slice_index};
ghost use Rattle.ir_model.specs.Topology.{node_count, ports_of};
ghost use Rattle.ir_tables.specs.FromNode.{AreFrom};
ghost use Rattle.ir_lanes.specs.{Lanes.{AreNear, far, in_lane}, Equation.IsSourceStart, Views.outward_lanes_of};
ghost use Rattle.ir_lanes.specs.Outward.{AreOutwardLanes, OutwardLanes, lane_port, lane_weight, source_at};

use crate::equation::settled;
use crate::vectors::{FAR, LANES};
use ir_tables::Topology;
use std::alloc::{AllocError, Global};
use std::marker::Model;

/// The distances from sixteen nodes, and for each other node the least of their ports that lead nearer to it. A node
/// may be in several lanes.
#[derive(Drop)]
pub struct OutwardLanes {
    sources: Vec<u16>,
    bits: u32,
    keys: Vec<u32>,
}

impl Model for OutwardLanes {
    ghost Value = { OutwardLanes };

    ghost view = { outward_lanes_of };
}

impl OutwardLanes {
    /// The ways from sixteen nodes, the first of them in lane 0. None, where they were not found in 64 sweeps and by
    /// the work of 20 passes over all links. So it is where a distance and the bits of a port take more than 31 bits,
    /// where some node has no walk to some node, and of one node alone. Condition: they are nodes. It is refused for
    /// memory alone. Takes O(n + m) for each sweep, for n nodes and m links.
    pub fn from(
        alloc: Global,
        topology: &Topology,
        sources: &[u16],
    ) -> Result<Option<OutwardLanes>, AllocError>
        requires sixteen { length sources.now ≡ 16 }
        requires nodes { (k : ℕ) → k < 16 → slice_index sources.now k < node_count topology.now }
        ensures sources { IfOk result (λ found. IfSome found (λ ways. ways.sources ≡ sources.now)) }
        ensures ways { IfOk result (λ found. IfSome found (λ ways. AreOutwardLanes topology.now ways)) }
    {
        topology.invariant();
        let bits = bits_for(greatest_degree(topology));
        let unit = unit_of(bits);
        let starts = source_starts(alloc, topology, unit, sources)?;
        let middle = sources[LANES / 2] as usize;
        let Some(keys) = settled(alloc, topology, unit, starts.as_slice(), middle)? else {
            return Ok(None);
        };
        Ok(Some(OutwardLanes {
            sources: Vec::from_slice(alloc, sources)?,
            bits,
            keys,
        }))
    }

    /// The distances from the node of a lane, by node. Condition: these are the ways of the topology, and there is such
    /// a lane. It is refused for memory alone. Takes O(n), for n nodes.
    pub fn distances(
        &self,
        alloc: Global,
        topology: &Topology,
        lane: usize,
    ) -> Result<Vec<u32>, AllocError>
        requires ways { AreOutwardLanes topology.now self.now }
        requires lane { lane < 16 }
        ensures { IfOk result (λ weights. AreFrom topology.now (source_at self.now lane) weights.items) }
    {
        let nodes = topology.nodes();
        let mut weights = Vec::with_capacity(alloc, nodes)?;
        for v in 0..nodes {
            weights.push(self.weight(lane, v))?;
        }
        Ok(weights)
    }

    /// The least port of the node of a lane that leads nearer to each of some nodes, one after the other; what is
    /// for the lane's own node says nothing. Conditions: these are the ways of the topology, there is such a lane, and
    /// they are its nodes. It is refused for memory alone. Takes O(n), for n nodes.
    pub fn ports_along(
        &self,
        alloc: Global,
        topology: &Topology,
        lane: usize,
        nodes: &[u16],
    ) -> Result<Vec<u16>, AllocError>
        requires ways { AreOutwardLanes topology.now self.now }
        requires lane { lane < 16 }
        requires nodes { (i : ℕ) → i < length nodes.now → slice_index nodes.now i < node_count topology.now }
        ensures { IfOk result (λ ports. ports.items ≡ map (lane_port self.now lane) nodes.now) }
    {
        topology.invariant();
        let mut ports = vec![in alloc; 0; nodes.len()]?;
        self.put_ports(topology, lane, nodes, ports.as_mut_slice());
        Ok(ports)
    }

    // Puts the ports to some nodes, one after the other.
    fn put_ports(&self, topology: &Topology, lane: usize, nodes: &[u16], ports: &mut [u16])
        requires ways { AreOutwardLanes topology.now self.now }
        requires lane { lane < 16 }
        requires nodes { (i : ℕ) → i < length nodes.now → slice_index nodes.now i < node_count topology.now }
        requires every { length ports.old ≡ length nodes.now }
        ensures { ports.new ≡ map (lane_port self.now lane) nodes.now }
    {
        topology.invariant();
        for (i, v) in nodes.iter().enumerate() {
            ports[i] = self.port(lane, *v as usize);
        }
    }

    // The weight of the way to a node.
    fn weight(&self, lane: usize, v: usize) -> u32
        requires sources { lane < length self.now.sources }
        requires keys { v * 16 + lane < length self.now.keys }
        requires bits { self.now.bits ≤ 15 }
        ensures { result ≡ lane_weight self.now lane v }
    {
        if v == self.sources[lane] as usize {
            0
        } else {
            self.keys[v * LANES + lane] >> self.bits
        }
    }

    // The port that the way to a node begins with.
    fn port(&self, lane: usize, v: usize) -> u16
        requires keys { v * 16 + lane < length self.now.keys }
        requires bits { self.now.bits ≤ 15 }
        ensures { result ≡ lane_port self.now lane v }
    {
        (self.keys[v * LANES + lane] % (1 << self.bits)) as u16
    }
}

// The most ports that a node has.
fn greatest_degree(topology: &Topology) -> usize
    ensures greatest { (u : ℕ) → u < node_count topology.now → length (ports_of topology.now u) ≤ result }
    ensures few { result ≤ 32768 }
{
    let mut most = 0;
    for u in 0..topology.nodes() {
        most = topology.ports(u).len().max(most);
    }
    most
}

// How many bits tell so many ports apart.
fn bits_for(ports: usize) -> u32
    requires { ports ≤ 32768 }
    ensures enough { ports ≤ 2 ^ result }
    ensures few { result ≤ 15 }
{
    for bits in 0..15 {
        if ports <= 1 << bits {
            return bits;
        }
    }
    15
}

// How often a weight counts in a key after which a port has so many bits.
fn unit_of(bits: u32) -> u32
    requires { bits ≤ 15 }
    ensures unit { result ≡ 2 ^ bits }
    ensures few { result ≤ 32768 }
{
    1 << bits
}

// The lanes that the search from sixteen nodes starts with: at each neighbour the weight of the port to it, and after
// it the port.
fn source_starts(
    alloc: Global,
    topology: &Topology,
    unit: u32,
    sources: &[u16],
) -> Result<Vec<u32>, AllocError>
    requires unit { unit ≤ 32768 }
    requires sixteen { length sources.now ≡ 16 }
    requires nodes { (k : ℕ) → k < 16 → slice_index sources.now k < node_count topology.now }
    requires ports { (u : ℕ) → u < node_count topology.now → length (ports_of topology.now u) ≤ unit }
    ensures near { IfOk result (λ starts. AreNear topology.now starts.items) }
    ensures starts { IfOk result (λ starts. (k : ℕ) → k < 16
        → IsSourceStart topology.now unit (slice_index sources.now k) (in_lane starts.items k)) }
{
    let mut starts = vec![in alloc; FAR; topology.nodes() * LANES]?;
    begin_all(topology, unit, starts.as_mut_slice(), sources);
    Ok(starts)
}

// In lanes where nothing is near yet each neighbour of sixteen nodes gets its start.
fn begin_all(topology: &Topology, unit: u32, starts: &mut [u32], sources: &[u16])
    requires unit { unit ≤ 32768 }
    requires sixteen { length sources.now ≡ 16 }
    requires nodes { (k : ℕ) → k < 16 → slice_index sources.now k < node_count topology.now }
    requires ports { (u : ℕ) → u < node_count topology.now → length (ports_of topology.now u) ≤ unit }
    requires near { AreNear topology.now starts.old }
    requires empty { (k v : ℕ) → k < 16 → v < node_count topology.now → far ≤ in_lane starts.old k v }
    ensures near { AreNear topology.now starts.new }
    ensures starts { (k : ℕ) → k < 16
        → IsSourceStart topology.now unit (slice_index sources.now k) (in_lane starts.new k) }
{
    for lane in 0..LANES {
        begin(topology, unit, starts, lane, sources[lane]);
    }
}

// In a lane where nothing is near yet each neighbour of a node gets its start.
fn begin(topology: &Topology, unit: u32, starts: &mut [u32], lane: usize, source: u16)
    requires unit { unit ≤ 32768 }
    requires node { source < node_count topology.now }
    requires ports { length (ports_of topology.now source) ≤ unit }
    requires lane { lane < 16 }
    requires near { AreNear topology.now starts.old }
    requires empty { (v : ℕ) → v < node_count topology.now → far ≤ in_lane starts.old lane v }
    ensures near { AreNear topology.now starts.new }
    ensures begun { IsSourceStart topology.now unit source (in_lane starts.new lane) }
    ensures others { (k v : ℕ) → k < 16 → k ≢ lane → in_lane starts.new k v ≡ in_lane starts.old k v }
{
    topology.invariant();
    for (p, hop) in topology.ports(source as usize).iter().enumerate() {
        starts[hop.node as usize * LANES + lane] = hop.weight * unit + p as u32;
    }
}
