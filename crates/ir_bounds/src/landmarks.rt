//! The landmark of each node.

ghost use Rattle.std.specs.Prelude.{◌≡◌, ◌<◌, ◌≤◌, ℕ, All, IfOk, length, slice_index};
ghost use Rattle.ir_model.specs.{Topology.node_count, Walk.IsConnected};
ghost use Rattle.ir_model.specs.Landmark.{AreLandmarks};
ghost use Rattle.ir_tables.specs.FromNode.{AreFrom};
ghost use Rattle.ir_bounds.specs.Bounds.{AreOwners, AreOwnersBy, AreKeptNearer};
ghost use Rattle.ir_bounds.specs.Around.{AreAround, AreDistancesIn, AreSlots};
ghost use Rattle.ir_bounds.specs.Near.{AreWaysRound};

use ir_tables::{Outward, Topology};
use std::alloc::{AllocError, Global};

/// Landmarks, and the landmark of each node and how far it is. The distances are those from each landmark, and the
/// slots have at each landmark where its distances are.
#[derive(Drop)]
pub struct Owners {
    pub landmarks: Vec<u16>,
    pub nodes: Vec<u16>,
    pub radii: Vec<u32>,
    pub away: Vec<Vec<u32>>,
    pub slots: Vec<usize>,
}

impl Owners {
    /// The nearest landmark of each node, of several as near the one with the least number. It is refused for memory
    /// alone. Takes O(k (n + m) log n), for k landmarks, n nodes and m links.
    pub fn of(alloc: Global, topology: &Topology, landmarks: Vec<u16>) -> Result<Owners, AllocError>
        requires landmarks { AreLandmarks topology.now landmarks.items }
        requires connected { IsConnected topology.now }
        ensures landmarks { IfOk result (λ owners. owners.landmarks ≡ landmarks) }
        ensures owners { IfOk result (λ owners. AreOwners topology.now landmarks.items owners) }
        ensures around { IfOk result (AreAround topology.now) }
    {
        topology.invariant();
        let first = Outward::from(alloc, topology, landmarks[0])?;
        let mut nodes = vec![in alloc; landmarks[0]; topology.nodes()]?;
        let mut radii = Vec::from_slice(alloc, first.weights())?;
        let mut away = Vec::with_capacity(alloc, landmarks.len())?;
        away.push(Vec::from_slice(alloc, first.weights())?)?;
        for i in 1..landmarks.len() {
            let ways = Outward::from(alloc, topology, landmarks[i])?;
            keep_nearer(
                landmarks[i],
                ways.weights(),
                nodes.as_mut_slice(),
                radii.as_mut_slice(),
            );
            away.push(Vec::from_slice(alloc, ways.weights())?)?;
        }
        let slots = slots_of(alloc, topology.nodes(), landmarks.as_slice())?;
        Ok(Owners {
            landmarks,
            nodes,
            radii,
            away,
            slots,
        })
    }

    /// The weights of the ways from a node to each by the landmark there. It is refused for memory alone. Takes O(n),
    /// for n nodes.
    pub fn ways_round(
        &self,
        alloc: Global,
        topology: &Topology,
        u: u16,
    ) -> Result<Vec<u32>, AllocError>
        requires owners { AreOwners topology.now self.now.landmarks.items self.now }
        requires around { AreAround topology.now self.now }
        requires node { u < node_count topology.now }
        ensures { IfOk result (λ row. AreWaysRound topology.now self.now.landmarks.items u row.items) }
    {
        topology.invariant();
        let nodes = topology.nodes();
        let around = self.distances(alloc, topology, u)?;
        let mut row = Vec::with_capacity(alloc, nodes)?;
        for d in 0..nodes {
            row.push(around[self.nodes[d] as usize] + self.radii[d])?;
        }
        Ok(row)
    }

    // The distances of a node to the landmarks, by node; what is at other nodes says nothing.
    fn distances(&self, alloc: Global, topology: &Topology, u: u16) -> Result<Vec<u32>, AllocError>
        requires landmarks { AreLandmarks topology.now self.now.landmarks.items }
        requires around { AreAround topology.now self.now }
        requires node { u < node_count topology.now }
        ensures { IfOk result (λ around. AreDistancesIn topology.now self.now.landmarks.items u
            (length self.now.landmarks.items) around.items) }
    {
        topology.invariant();
        let mut around = vec![in alloc; 0u32; topology.nodes()]?;
        for i in 0..self.landmarks.len() {
            around[self.landmarks[i] as usize] = self.away[i][u as usize];
        }
        Ok(around)
    }
}

// At each landmark its place among them.
fn slots_of(alloc: Global, nodes: usize, landmarks: &[u16]) -> Result<Vec<usize>, AllocError>
    requires { All (λ l. l < nodes) landmarks.now }
    ensures every { IfOk result (λ slots. length slots.items ≡ nodes) }
    ensures slots { IfOk result (λ slots. AreSlots landmarks.now (length landmarks.now) slots.items) }
{
    let mut slots = vec![in alloc; 0usize; nodes]?;
    for i in 0..landmarks.len() {
        slots[landmarks[i] as usize] = i;
    }
    Ok(slots)
}

// Takes a landmark for each node to which it is nearer than the one before, or as near and of a lesser number.
fn keep_nearer(landmark: u16, away: &[u32], nodes: &mut [u16], radii: &mut [u32])
    requires nodes { length nodes.old ≡ length away.now }
    requires radii { length radii.old ≡ length away.now }
    ensures { AreKeptNearer landmark away.now nodes.old radii.old nodes.new radii.new (length away.now) }
{
    for d in 0..away.len() {
        if away[d] < radii[d] || away[d] == radii[d] && landmark < nodes[d] {
            nodes[d] = landmark;
            radii[d] = away[d];
        }
    }
}
