//! The bounds of a landmark plan, with the searches from sixteen nodes at a time.

ghost use Rattle.std.specs.Prelude.{◌≡◌, ◌+◌, ◌-◌, ◌*◌, ◌<◌, ℕ, min, IfOk, IfSome};
ghost use Rattle.ir_model.specs.{Topology.node_count, Walk.IsConnected};
ghost use Rattle.ir_tables.specs.FromNode.{AreFrom};
ghost use Rattle.ir_lanes.specs.Outward.{AreOutwardLanes, source_at};
ghost use Rattle.ir_bounds.specs.{Bounds.{AreOwners, held_lists}, Detours.AreDetourBounds};
ghost use Rattle.ir_bounds.specs.Reaches.{AreShortReaches};
ghost use Rattle.ir_bounds.specs.Near.{AreNearBatches, AreNearParts, IsNearBatch};

use crate::batches::{BATCH, LEAST_BATCHED, sixteen_from, ways_from};
use crate::crew::Crew;
use crate::patience::Patience;
use ir_bounds::{LandmarkBounds, Owners, chosen_owners, near_list, near_part, short_reaches};
use ir_lanes::OutwardLanes;
use ir_model::Detour;
use ir_tables::{Outward, Topology};
use std::alloc::{AllocError, Global};

/// The bounds by the landmarks that a root and a detour choose.
pub fn bounds_by_crew(
    crew: &impl Crew,
    alloc: Global,
    topology: &Topology,
    root: u16,
    detour: Detour,
) -> Result<LandmarkBounds, AllocError>
    requires root { root < node_count topology.now }
    requires connected { IsConnected topology.now }
    ensures { IfOk result (AreDetourBounds topology.now root detour) }
{
    let owners = chosen_owners(alloc, topology, root, detour)?;
    let near = near_lists(crew, alloc, topology, &owners, detour.stretch)?;
    Ok(LandmarkBounds::by_lists(topology, root, detour, owners, near))
}

// The lists of near nodes of all batches.
fn near_lists(
    crew: &impl Crew,
    alloc: Global,
    topology: &Topology,
    owners: &Owners,
    stretch: u16,
) -> Result<Vec<Vec<u16>>, AllocError>
    requires connected { IsConnected topology.now }
    requires owners { AreOwners topology.now owners.now.landmarks.items owners.now }
    ensures { IfOk result (λ lists. AreNearBatches topology.now owners.now.landmarks.items stretch
        (held_lists lists.items)) }
{
    let patience = &Patience::new();
    let found = short_reaches(alloc, topology, owners, stretch)?;
    let reaches = &found;
    crew.lists(
        alloc,
        topology.nodes().div_ceil(BATCH),
        1,
        &|batch: usize| -> Result<Vec<u16>, AllocError>
            requires { (batch * 16 < node_count topology.now) × IsConnected topology.now
                × AreOwners topology.now owners.now.landmarks.items owners.now
                × AreShortReaches topology.now stretch owners.now reaches.now }
            ensures { IfOk result (λ list. IsNearBatch topology.entry.now owners.entry.now.landmarks.items stretch batch
                list.items) }
        { near_batch(alloc, topology, owners, stretch, reaches, batch, patience) },
    )
}

// The list of near nodes of a batch. Where no searches are short, the nodes are searched from in the lanes.
fn near_batch(
    alloc: Global,
    topology: &Topology,
    owners: &Owners,
    stretch: u16,
    reaches: &Option<Vec<u64>>,
    batch: usize,
    patience: &Patience,
) -> Result<Vec<u16>, AllocError>
    requires connected { IsConnected topology.now }
    requires owners { AreOwners topology.now owners.now.landmarks.items owners.now }
    requires reaches { AreShortReaches topology.now stretch owners.now reaches.now }
    requires batch { batch * 16 < node_count topology.now }
    ensures { IfOk result (λ list. IsNearBatch topology.now owners.now.landmarks.items stretch batch list.items) }
{
    let nodes = topology.nodes();
    if nodes < LEAST_BATCHED || reaches.is_some() {
        return near_list(alloc, topology, owners, stretch, reaches, batch);
    }
    let first = batch * BATCH;
    let sources = sixteen_from(alloc, nodes, first)?;
    let ways = ways_from(alloc, topology, sources.as_slice(), patience)?;
    lane_parts(alloc, topology, owners, stretch, &ways, first)
}

// The parts of sixteen nodes from one on, or of those that there are.
fn lane_parts(
    alloc: Global,
    topology: &Topology,
    owners: &Owners,
    stretch: u16,
    found: &Option<OutwardLanes>,
    first: usize,
) -> Result<Vec<u16>, AllocError>
    requires connected { IsConnected topology.now }
    requires owners { AreOwners topology.now owners.now.landmarks.items owners.now }
    requires first { first < node_count topology.now }
    requires ways { IfSome found.now (λ ways. AreOutwardLanes topology.now ways) }
    requires sources { IfSome found.now (λ ways. (k : ℕ) → k < 16
        → source_at ways k ≡ min (first + k) (node_count topology.now - 1)) }
    ensures { IfOk result (λ list. AreNearParts topology.now owners.now.landmarks.items stretch first
        (min 16 (node_count topology.now - first)) list.items) }
{
    let nodes = topology.nodes();
    let mut list = Vec::new(alloc);
    for lane in 0..BATCH.min(nodes - first) {
        let u = (first + lane) as u16;
        let away = distances_of(alloc, topology, found, lane, u)?;
        let part = near_part(alloc, topology, owners, stretch, u, away.as_slice())?;
        list.extend_from_slice(part.as_slice())?;
    }
    Ok(list)
}

// The distances from the node of a lane; where nothing was found in the lanes, by a search from it alone.
fn distances_of(
    alloc: Global,
    topology: &Topology,
    found: &Option<OutwardLanes>,
    lane: usize,
    u: u16,
) -> Result<Vec<u32>, AllocError>
    requires connected { IsConnected topology.now }
    requires node { u < node_count topology.now }
    requires lane { lane < 16 }
    requires ways { IfSome found.now (λ ways. AreOutwardLanes topology.now ways) }
    requires source { IfSome found.now (λ ways. source_at ways lane ≡ u) }
    ensures { IfOk result (λ away. AreFrom topology.now u away.items) }
{
    match found {
        Some(ways) => ways.distances(alloc, topology, lane),
        None => {
            let ways = Outward::from(alloc, topology, u)?;
            Vec::from_slice(alloc, ways.weights())
        }
    }
}
