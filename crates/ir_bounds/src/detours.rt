//! What the labels and the rows of a landmark plan are made by, of the landmarks that its root and its detour choose.

ghost use Rattle.std.specs.Prelude.{◌≡◌, ◌<◌, ◌≤◌, ℕ, List, IfOk, length, slice_index};
ghost use Rattle.ir_model.specs.{Topology.node_count, Walk.IsConnected, Plan.AreLabels};
ghost use Rattle.ir_model.specs.Landmark.{IsLandmarkBound};
ghost use Rattle.ir_numbering.specs.Numbering.{IsListing};
ghost use Rattle.ir_bounds.specs.{Plans.AreBlockLabels, Rows.{IsRowWithin, MayTakePort}};
ghost use Rattle.ir_model.proofs.Steps.{AreLongest};
ghost use Rattle.ir_bounds.specs.Detours.{AreChosenOwners, AreDetourBounds, AreHeldBounds};
ghost use Rattle.ir_bounds.specs.Bounds.{AreBoundsFrom, AreOwners, held_lists};
ghost use Rattle.ir_bounds.specs.Near.{AreNearAt, AreNearBatches, entry_node, part_end};
ghost use Rattle.ir_bounds.specs.Entries.{ArePut};

use crate::landmarks::Owners;
use crate::near::{BATCH, begin_after, entry, near_list};
use crate::order::{block_order, most_linked};
use crate::reaches::short_reaches;
use crate::rows::runs_within;
use crate::words::word_runs;
use ir_compile::{WORD_PORTS, canonical_row, row_of_longest};
use ir_lookup::Row;
use ir_model::Detour;
use ir_numbering::Numbering;
use ir_tables::Topology;
use std::alloc::{AllocError, Global};

/// The landmark of each node, and for each batch of nodes the bounds to those near to them, by the landmarks of a plan.
#[derive(Drop)]
pub struct LandmarkBounds {
    pub owners: Owners,
    pub stretch: u16,
    pub near: Vec<Vec<u16>>,
}

impl LandmarkBounds {
    /// The bounds of a connected network by the landmarks that a root and a detour choose. It is refused for memory
    /// alone. Takes as long as `chosen_owners`, `short_reaches`, and `near_list` for each batch.
    pub fn of(
        alloc: Global,
        topology: &Topology,
        root: u16,
        detour: Detour,
    ) -> Result<LandmarkBounds, AllocError>
        requires root { root < node_count topology.now }
        requires connected { IsConnected topology.now }
        ensures { IfOk result (AreDetourBounds topology.now root detour) }
    {
        let owners = chosen_owners(alloc, topology, root, detour)?;
        let near = near_lists(alloc, topology, &owners, detour.stretch)?;
        Ok(LandmarkBounds::by_lists(topology, root, detour, owners, near))
    }

    /// The bounds by owners and lists that are those of a root and a detour.
    pub fn by_lists(
        topology: &Topology,
        root: u16,
        detour: Detour,
        owners: Owners,
        near: Vec<Vec<u16>>,
    ) -> LandmarkBounds
        requires owners { AreChosenOwners topology.now root detour owners }
        requires near { AreNearBatches topology.now owners.landmarks.items detour.stretch (held_lists near.items) }
        ensures { AreDetourBounds topology.now root detour result }
    {
        topology.invariant();
        LandmarkBounds {
            owners,
            stretch: detour.stretch,
            near,
        }
    }

    /// The bounds from a node to each, by number. It is refused for memory alone. Takes O(n), for n nodes.
    pub fn bounds_from(
        &self,
        alloc: Global,
        topology: &Topology,
        u: u16,
    ) -> Result<Vec<u32>, AllocError>
        requires node { u < node_count topology.now }
        requires bounds { AreHeldBounds topology.now self.now }
        ensures { IfOk result (λ row. AreBoundsFrom topology.now self.now.owners.landmarks.items self.now.stretch u
            row.items) }
    {
        topology.invariant();
        let mut row = self.owners.ways_round(alloc, topology, u)?;
        let (list, begin) = self.part(topology, u);
        put_bounds(list, begin, row.as_mut_slice());
        Ok(row)
    }

    // The list that has the part of a node, and where the part begins.
    pub fn part(&self, topology: &Topology, u: u16) -> (&[u16], usize)
        requires node { u < node_count topology.now }
        requires bounds { AreHeldBounds topology.now self.now }
        ensures { AreNearAt topology.now self.now.owners.landmarks.items self.now.stretch u result.0.now result.1 }
    {
        let list = self.near[u as usize / BATCH].as_slice();
        (list, begin_after(list, u as usize % BATCH))
    }

    /// The row of a node with the fewest intervals over all ports that lead within the bounds. It is refused for memory
    /// alone. Takes O(d n), for d ports of the node and n nodes, and what `ir_compile::row_of_longest` takes.
    pub fn row(
        &self,
        alloc: Global,
        topology: &Topology,
        numbering: &Numbering,
        u: u16,
    ) -> Result<Row, AllocError>
        requires labels { AreLabels (node_count topology.now) numbering.now.order numbering.now.labels }
        requires connected { IsConnected topology.now }
        requires node { u < node_count topology.now }
        requires bounds { AreHeldBounds topology.now self.now }
        ensures { IfOk result (λ row. IsRowWithin topology.now
            (IsLandmarkBound topology.now self.now.owners.landmarks.items self.now.stretch) numbering.now.order
            (slice_index numbering.now.labels u) row) }
    {
        let nodes = topology.nodes() as u16;
        let (counts, ports) = runs_by(alloc, topology, numbering, self, u)?;
        let own = numbering.label_of(u);
        if nodes == 1 {
            return canonical_row(alloc, nodes, own, &[None]);
        }
        row_of_longest(alloc, nodes, own, counts.as_slice(), ports.as_slice())
    }
}

// For each label how many labels the longest run of one port from it on has, and the least such port.
fn runs_by(
    alloc: Global,
    topology: &Topology,
    numbering: &Numbering,
    held: &LandmarkBounds,
    u: u16,
) -> Result<(Vec<u16>, Vec<u16>), AllocError>
    requires labels { AreLabels (node_count topology.now) numbering.now.order numbering.now.labels }
    requires connected { IsConnected topology.now }
    requires node { u < node_count topology.now }
    requires bounds { AreHeldBounds topology.now held.now }
    ensures counts { IfOk result (λ made. length made.0.items ≡ node_count topology.now) }
    ensures ports { IfOk result (λ made. length made.1.items ≡ node_count topology.now) }
    ensures longest { IfOk result (λ made. AreLongest (node_count topology.now) (slice_index numbering.now.labels u)
        (MayTakePort topology.now (IsLandmarkBound topology.now held.now.owners.landmarks.items held.now.stretch)
        numbering.now.order (slice_index numbering.now.labels u)) made.0.items made.1.items) }
{
    if topology.degree(u) <= WORD_PORTS {
        return word_runs(alloc, topology, numbering, held, u);
    }
    runs_within(alloc, topology, numbering, held, u)
}

// The lists of all batches.
fn near_lists(
    alloc: Global,
    topology: &Topology,
    owners: &Owners,
    stretch: u16,
) -> Result<Vec<Vec<u16>>, AllocError>
    requires connected { IsConnected topology.now }
    requires owners { AreOwners topology.now owners.now.landmarks.items owners.now }
    ensures { IfOk result (λ lists. AreNearBatches topology.now owners.now.landmarks.items stretch
        (held_lists lists.items)) }
{
    let batches = topology.nodes().div_ceil(BATCH);
    let found = short_reaches(alloc, topology, owners, stretch)?;
    let reaches = &found;
    let mut lists = Vec::with_capacity(alloc, batches)?;
    for batch in 0..batches {
        lists.push(near_list(alloc, topology, owners, stretch, reaches, batch)?)?;
    }
    Ok(lists)
}

// Puts the bounds of a part at its nodes.
fn put_bounds(list: &[u16], begin: usize, row: &mut [u32])
    requires within { part_end list.now begin ≤ length list.now }
    requires nodes { (j : ℕ) → j < slice_index list.now begin → entry_node list.now begin j < length row.old }
    ensures { ArePut list.now begin (slice_index list.now begin) row.old row.new }
{
    for j in 0..list[begin] as usize {
        let (node, bound) = entry(list, begin, j);
        row[node as usize] = bound;
    }
}

/// The landmarks that a root and a detour choose in a connected network, and what they are to each node. It is refused
/// for memory alone. Takes as long as `most_linked` and `Owners::of`.
pub fn chosen_owners(
    alloc: Global,
    topology: &Topology,
    root: u16,
    detour: Detour,
) -> Result<Owners, AllocError>
    requires root { root < node_count topology.now }
    requires connected { IsConnected topology.now }
    ensures { IfOk result (AreChosenOwners topology.now root detour) }
{
    let landmarks = most_linked(alloc, topology, root, detour.landmarks as usize)?;
    Owners::of(alloc, topology, landmarks)
}

/// The nodes of a connected network by label in a landmark plan: the blocks of the landmarks that a root and a detour
/// choose, the root first. It is refused for memory alone. Takes as long as `most_linked`, `Owners::of` and
/// `block_order`.
pub fn block_labels(
    alloc: Global,
    topology: &Topology,
    root: u16,
    detour: Detour,
) -> Result<Vec<u16>, AllocError>
    requires root { root < node_count topology.now }
    requires connected { IsConnected topology.now }
    ensures blocks { IfOk result (λ order. AreBlockLabels topology.now root detour.landmarks order.items) }
    ensures listing { IfOk result (λ order. IsListing (node_count topology.now) order.items) }
    ensures first { IfOk result (λ order. slice_index order.items 0 ≡ root) }
{
    let landmarks = most_linked(alloc, topology, root, detour.landmarks as usize)?;
    let owners = Owners::of(alloc, topology, landmarks)?;
    block_order(alloc, topology, &owners)
}
