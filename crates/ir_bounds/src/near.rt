//! The nodes that are near to each node, and the bounds to them: those to other nodes are the ways round by landmarks.

ghost use Rattle.std.specs.Prelude.{◌≡◌, ◌+◌, ◌*◌, ◌∷◌, ◌++◌, [], ◌<◌, ◌≤◌, ℕ, IfOk, OnOk, length, slice_index};
ghost use Rattle.ir_model.specs.{Topology.node_count, Walk.IsConnected};
ghost use Rattle.ir_model.specs.Landmark.{bound_by, is_far};
ghost use Rattle.ir_tables.specs.FromNode.{AreFrom};
ghost use Rattle.ir_bounds.specs.Bounds.{AreOwners};
ghost use Rattle.ir_bounds.specs.Near.{IsNearBatch, IsNearPart, begin_of, entry_bound, entry_node, halved_at, part_end};
ghost use Rattle.ir_bounds.specs.Reaches.{AreShortReaches, TellNear};
ghost use Rattle.ir_bounds.specs.Entries.{AreAllEntries, AreNearEntries};

use crate::landmarks::Owners;
use crate::search::weights_within;
use ir_tables::{Outward, Topology};
use std::alloc::{AllocError, Global};

/// How many nodes have their parts in one list.
pub const BATCH: usize = 16;

// The size of an entry where each node has one, and the size of one that names its node.
const PLAIN: u16 = 2;

const NAMED: u16 = 3;

/// The list of a batch of sixteen nodes, or of those that are left, by searches that end at reaches where there are
/// some. It is refused for memory alone. Takes O((n + m) log n) for each, for n nodes and m links.
pub fn near_list(
    alloc: Global,
    topology: &Topology,
    owners: &Owners,
    stretch: u16,
    reaches: &Option<Vec<u64>>,
    batch: usize,
) -> Result<Vec<u16>, AllocError>
    requires connected { IsConnected topology.now }
    requires owners { AreOwners topology.now owners.now.landmarks.items owners.now }
    requires reaches { AreShortReaches topology.now stretch owners.now reaches.now }
    requires batch { batch * 16 < node_count topology.now }
    ensures { IfOk result (λ list. IsNearBatch topology.now owners.now.landmarks.items stretch batch list.items) }
{
    topology.invariant();
    let first = batch * BATCH;
    let mut list = Vec::new(alloc);
    for lane in 0..BATCH.min(topology.nodes() - first) {
        let u = (first + lane) as u16;
        let part = sought_part(alloc, topology, owners, stretch, reaches, u)?;
        list.extend_from_slice(part.as_slice())?;
    }
    Ok(list)
}

// The part of a node, by a search from it.
fn sought_part(
    alloc: Global,
    topology: &Topology,
    owners: &Owners,
    stretch: u16,
    reaches: &Option<Vec<u64>>,
    u: u16,
) -> Result<Vec<u16>, AllocError>
    requires connected { IsConnected topology.now }
    requires owners { AreOwners topology.now owners.now.landmarks.items owners.now }
    requires reaches { AreShortReaches topology.now stretch owners.now reaches.now }
    requires node { u < node_count topology.now }
    ensures { IfOk result (λ part. IsNearPart topology.now owners.now.landmarks.items stretch u part.items) }
{
    if let Some(reaches) = reaches {
        let away = weights_within(alloc, topology, reaches.as_slice(), u)?;
        let (count, near) = near_entries(alloc, topology, owners, stretch, u, away.as_slice())?;
        if near.len() <= 2 * topology.nodes() {
            return part_of(alloc, count, NAMED, near.as_slice());
        }
    }
    let ways = Outward::from(alloc, topology, u)?;
    near_part(alloc, topology, owners, stretch, u, ways.weights())
}

/// The part of a node, by its distances. It is refused for memory alone. Takes O(n), for n nodes.
pub fn near_part(
    alloc: Global,
    topology: &Topology,
    owners: &Owners,
    stretch: u16,
    u: u16,
    away: &[u32],
) -> Result<Vec<u16>, AllocError>
    requires owners { AreOwners topology.now owners.now.landmarks.items owners.now }
    requires distances { AreFrom topology.now u away.now }
    ensures { IfOk result (λ part. IsNearPart topology.now owners.now.landmarks.items stretch u part.items) }
{
    topology.invariant();
    let nodes = topology.nodes();
    let (count, near) = near_entries(alloc, topology, owners, stretch, u, away)?;
    if near.len() <= 2 * nodes {
        return part_of(alloc, count, NAMED, near.as_slice());
    }
    let all = all_entries(alloc, topology, owners, stretch, u, away)?;
    part_of(alloc, nodes as u16, PLAIN, all.as_slice())
}

// A part of these entries.
fn part_of(alloc: Global, count: u16, size: u16, entries: &[u16]) -> Result<Vec<u16>, AllocError>
    ensures { IfOk result (λ part. part.items ≡ count ∷ size ∷ entries.now) }
{
    let mut part = Vec::from_slice(alloc, &[count, size])?;
    part.extend_from_slice(entries)?;
    Ok(part)
}

// The entries of the nodes that are not far, with their names, and how many.
fn near_entries(
    alloc: Global,
    topology: &Topology,
    owners: &Owners,
    stretch: u16,
    u: u16,
    away: &[u32],
) -> Result<(u16, Vec<u16>), AllocError>
    requires owners { AreOwners topology.now owners.now.landmarks.items owners.now }
    requires near { TellNear topology.now stretch u owners.now.radii.items away.now }
    ensures { IfOk result (λ made. AreNearEntries topology.now owners.now.landmarks.items stretch u
        (node_count topology.now) made.0 made.1.items) }
{
    topology.invariant();
    let mut entries = Vec::new(alloc);
    let mut count = 0;
    for d in 0..topology.nodes() {
        if !lies_far(stretch, away[d], owners.radii[d]) {
            put_number(&mut entries, away[d])?;
            entries.push(d as u16)?;
            count += 1;
        }
    }
    Ok((count, entries))
}

// The entries of all nodes, without names.
fn all_entries(
    alloc: Global,
    topology: &Topology,
    owners: &Owners,
    stretch: u16,
    u: u16,
    away: &[u32],
) -> Result<Vec<u16>, AllocError>
    requires owners { AreOwners topology.now owners.now.landmarks.items owners.now }
    requires distances { AreFrom topology.now u away.now }
    ensures { IfOk result (λ entries. AreAllEntries topology.now owners.now.landmarks.items stretch u
        (node_count topology.now) entries.items) }
{
    topology.invariant();
    let nodes = topology.nodes();
    let mut entries = Vec::with_capacity(alloc, 2 * nodes)?;
    for d in 0..nodes {
        let radius = owners.radii[d];
        let around = away[owners.nodes[d] as usize];
        put_number(&mut entries, bound(stretch, away[d], radius, around))?;
    }
    Ok(entries)
}

// Puts the halves of a number after others, the low one first.
fn put_number(halves: &mut Vec<u16>, number: u32) -> Result<(), AllocError>
    ensures { OnOk result ((low high : ℕ) × (halves.new.items ≡ halves.old.items ++ low ∷ high ∷ [])
        × (number ≡ low + 65536 * high)) }
{
    halves.push((number % 65_536) as u16)?;
    halves.push((number / 65_536) as u16)?;
    Ok(())
}

// Whether a node is so far away that twice the radius more is within the stretch.
fn lies_far(stretch: u16, away: u32, radius: u32) -> bool
    ensures { result ≡ is_far stretch away radius }
{
    100 * (away as u64 + 2 * radius as u64) <= stretch as u64 * away as u64
}

// The bound by the distances to a node, from it to its landmark, and to that landmark.
fn bound(stretch: u16, away: u32, radius: u32, around: u32) -> u32
    requires around { around ≤ 2147483647 }
    requires radius { radius ≤ 2147483647 }
    ensures { result ≡ bound_by stretch away radius around }
{
    if lies_far(stretch, away, radius) {
        around + radius
    } else {
        away
    }
}

// Where the part after so many begins.
pub fn begin_after(list: &[u16], parts: usize) -> usize
    requires { (k : ℕ) → k < parts → part_end list.now (begin_of list.now k) ≤ length list.now }
    ensures { result ≡ begin_of list.now parts }
{
    let mut begin = 0;
    for _ in 0..parts {
        begin = end_of(list, begin);
    }
    begin
}

// Where a part ends.
fn end_of(list: &[u16], begin: usize) -> usize
    requires { part_end list.now begin ≤ length list.now }
    ensures { result ≡ part_end list.now begin }
{
    let count = list[begin] as usize;
    if list[begin + 1] == PLAIN {
        begin + 2 + 2 * count
    } else {
        begin + 2 + 3 * count
    }
}

// The node of an entry of a part, and the bound to it.
pub fn entry(list: &[u16], begin: usize, j: usize) -> (u16, u32)
    requires within { part_end list.now begin ≤ length list.now }
    requires entry { j < slice_index list.now begin }
    ensures node { result.0 ≡ entry_node list.now begin j }
    ensures bound { result.1 ≡ entry_bound list.now begin j }
{
    if list[begin + 1] == PLAIN {
        (j as u16, number_at(list, begin + 2 + 2 * j))
    } else {
        let at = begin + 2 + 3 * j;
        (list[at + 2], number_at(list, at))
    }
}

// The number of two halves.
fn number_at(list: &[u16], i: usize) -> u32
    requires { i + 1 < length list.now }
    ensures { result ≡ halved_at list.now i }
{
    list[i] as u32 + 65_536 * list[i + 1] as u32
}
