//! The rows of kind shortest, of sixteen nodes at a time.

ghost use Rattle.std.specs.Prelude.{◌≡◌, ◌+◌, ◌-◌, ◌*◌, ◌<◌, ◌≤◌, ℕ, min, IfOk, IfSome, flat_map, length, slice_index};
ghost use Rattle.ir_model.specs.{declared.Kind.TheVariants.Shortest, Topology.node_count, Walk.IsConnected};
ghost use Rattle.ir_model.specs.Plan.{AreLabels};
ghost use Rattle.ir_lanes.specs.Outward.{AreOutwardLanes, source_at};
ghost use Rattle.ir_plan.specs.NodeRows.{AreRowsFrom, IsNodeRow};

use crate::patience::Patience;
use crate::rows::searched_row;
use ir_compile::row_of_ports;
use ir_lanes::OutwardLanes;
use ir_lookup::Row;
use ir_numbering::Numbering;
use ir_tables::Topology;
use std::alloc::{AllocError, Global};

/// How many nodes are searched from at a time.
pub const BATCH: usize = 16;

/// The fewest nodes of a network whose nodes are searched from by batches.
pub const LEAST_BATCHED: usize = 64;

/// The rows of a batch of nodes in the shortest table, by number.
pub fn batch_rows(
    alloc: Global,
    topology: &Topology,
    numbering: &Numbering,
    batch: usize,
    patience: &Patience,
) -> Result<Vec<Row>, AllocError>
    requires labels { AreLabels (node_count topology.now) numbering.now.order numbering.now.labels }
    requires connected { IsConnected topology.now }
    requires batch { batch * 16 < node_count topology.now }
    ensures { IfOk result (λ rows. AreRowsFrom Shortest topology.now numbering.now.order numbering.now.parents
        numbering.now.labels (batch * 16) 16 rows.items) }
{
    let nodes = topology.nodes();
    let first = batch * BATCH;
    let sources = sixteen_from(alloc, nodes, first)?;
    let ways = ways_from(alloc, topology, sources.as_slice(), patience)?;
    lane_rows(alloc, topology, numbering, &ways, first)
}

/// The ways from sixteen nodes, where the lanes are tried and find them.
pub fn ways_from(
    alloc: Global,
    topology: &Topology,
    sources: &[u16],
    patience: &Patience,
) -> Result<Option<OutwardLanes>, AllocError>
    requires sixteen { length sources.now ≡ 16 }
    requires nodes { (k : ℕ) → k < 16 → slice_index sources.now k < node_count topology.now }
    ensures sources { IfOk result (λ found. IfSome found (λ ways. ways.sources ≡ sources.now)) }
    ensures ways { IfOk result (λ found. IfSome found (λ ways. AreOutwardLanes topology.now ways)) }
{
    if !patience.tries() {
        return Ok(None);
    }
    let found = OutwardLanes::from(alloc, topology, sources)?;
    patience.learns(found.is_some());
    Ok(found)
}

// The rows of sixteen nodes from one on in the shortest table, or of those that there are.
fn lane_rows(
    alloc: Global,
    topology: &Topology,
    numbering: &Numbering,
    found: &Option<OutwardLanes>,
    first: usize,
) -> Result<Vec<Row>, AllocError>
    requires labels { AreLabels (node_count topology.now) numbering.now.order numbering.now.labels }
    requires connected { IsConnected topology.now }
    requires first { first < node_count topology.now }
    requires ways { IfSome found.now (λ ways. AreOutwardLanes topology.now ways) }
    requires sources { IfSome found.now (λ ways. (k : ℕ) → k < 16
        → source_at ways k ≡ min (first + k) (node_count topology.now - 1)) }
    ensures { IfOk result (λ rows. AreRowsFrom Shortest topology.now numbering.now.order numbering.now.parents
        numbering.now.labels first 16 rows.items) }
{
    let nodes = topology.nodes();
    let mut rows = Vec::with_capacity(alloc, BATCH)?;
    for lane in 0..BATCH.min(nodes - first) {
        let u = (first + lane) as u16;
        rows.push(lane_row(alloc, topology, numbering, found, lane, u)?)?;
    }
    Ok(rows)
}

// The row of the node of a lane in the shortest table; where nothing was found in the lanes, by a search from it alone.
fn lane_row(
    alloc: Global,
    topology: &Topology,
    numbering: &Numbering,
    found: &Option<OutwardLanes>,
    lane: usize,
    u: u16,
) -> Result<Row, AllocError>
    requires labels { AreLabels (node_count topology.now) numbering.now.order numbering.now.labels }
    requires connected { IsConnected topology.now }
    requires node { u < node_count topology.now }
    requires lane { lane < 16 }
    requires ways { IfSome found.now (λ ways. AreOutwardLanes topology.now ways) }
    requires source { IfSome found.now (λ ways. source_at ways lane ≡ u) }
    ensures { IfOk result (λ row. IsNodeRow Shortest topology.now numbering.now.order numbering.now.parents
        (slice_index numbering.now.labels u) row) }
{
    match found {
        Some(ways) => {
            let nodes = topology.nodes() as u16;
            let ports = ways.ports_along(alloc, topology, lane, numbering.order())?;
            row_of_ports(alloc, nodes, numbering.label_of(u), ports.as_slice())
        }
        None => searched_row(alloc, topology, numbering, u),
    }
}

/// Sixteen numbers of nodes from one on; past the last node, that one again.
pub fn sixteen_from(alloc: Global, nodes: usize, first: usize) -> Result<Vec<u16>, AllocError>
    requires first { first < nodes }
    requires few { nodes ≤ 32768 }
    ensures sixteen { IfOk result (λ sixteen. length sixteen.items ≡ 16) }
    ensures each { IfOk result (λ sixteen. (k : ℕ) → k < 16
        → slice_index sixteen.items k ≡ min (first + k) (nodes - 1)) }
{
    let mut sixteen = Vec::with_capacity(alloc, BATCH)?;
    for k in 0..BATCH {
        sixteen.push((first + k).min(nodes - 1) as u16)?;
    }
    Ok(sixteen)
}

/// The rows of all batches, one batch after the other.
pub fn joined(alloc: Global, nodes: usize, batches: Vec<Vec<Row>>) -> Result<Vec<Row>, AllocError>
    ensures { IfOk result (λ rows. rows.items ≡ flat_map (λ batch. batch.items) batches.items) }
{
    let mut rows = Vec::with_capacity(alloc, nodes)?;
    for mut batch in batches {
        rows.append(&mut batch)?;
    }
    Ok(rows)
}
