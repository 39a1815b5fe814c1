//! The row of each node, from the shortest ways or the tree of that node alone.

ghost use Rattle.std.specs.Prelude.{◌≡◌, ◌*◌, ◌<◌, IfOk, length, map, slice_index};
ghost use Rattle.ir_model.specs.{declared.Kind.TheVariants.{Tree, Shortest}, Topology.node_count, Walk.IsConnected};
ghost use Rattle.ir_model.specs.{Plan.AreLabels, Compiled.{IsDestinations, IsCanonical}};
ghost use Rattle.ir_numbering.specs.Numbering.{IsNumberingOf};
ghost use Rattle.ir_tables.specs.FromNode.{AreLeastPorts, held_at};
ghost use Rattle.ir_plan.specs.{Shown.StandForTable, NodeRows.{AreRowsFrom, IsNodeRow}};
ghost use Rattle.ir_plan.specs.Prepared.{ArePrepared, MayHaveRow};

use crate::batches::{BATCH, LEAST_BATCHED, batch_rows, joined};
use crate::compact::compact_row;
use crate::crew::Crew;
use crate::landmark::landmark_row;
use crate::patience::Patience;
use crate::prepared::Prepared;
use crate::tree::tree_row;
use ir_compile::canonical_row;
use ir_lookup::Row;
use ir_model::Kind;
use ir_numbering::Numbering;
use ir_tables::{Outward, Topology};
use std::alloc::{AllocError, Global};

/// The row of each node, by number.
pub fn rows_of(
    crew: &impl Crew,
    alloc: Global,
    topology: &Topology,
    numbering: &Numbering,
    kind: Kind,
) -> Result<Vec<Row>, AllocError>
    requires labels { AreLabels (node_count topology.now) numbering.now.order numbering.now.labels }
    requires tree { kind ≡ Tree → IsNumberingOf topology.now numbering.now }
    requires connected { IsConnected topology.now }
    requires some { 0 < node_count topology.now }
    ensures { IfOk result (λ rows. StandForTable kind topology.now numbering.now.order numbering.now.parents
        numbering.now.labels rows.items) }
{
    let nodes = topology.nodes();
    let made = Prepared::of(crew, alloc, topology, numbering, kind)?;
    let prepared = &made;
    let patience = &Patience::new();
    let blocks = crew.rows(
        alloc,
        nodes,
        nodes.div_ceil(BATCH),
        1,
        &|block: usize| -> Result<Vec<Row>, AllocError>
            requires { MayHaveRow kind topology.now numbering.now prepared.now (block * 16) }
            ensures { IfOk result (λ rows. AreRowsFrom kind topology.entry.now numbering.entry.now.order
                numbering.entry.now.parents numbering.entry.now.labels (block * 16) 16 rows.items) }
        { rows_of_block(alloc, topology, numbering, kind, prepared, block, patience) },
    )?;
    joined(alloc, nodes, blocks)
}

// The rows of sixteen nodes of a block, or of those that there are, by number.
fn rows_of_block(
    alloc: Global,
    topology: &Topology,
    numbering: &Numbering,
    kind: Kind,
    prepared: &Prepared,
    block: usize,
    patience: &Patience,
) -> Result<Vec<Row>, AllocError>
    requires { MayHaveRow kind topology.now numbering.now prepared.now (block * 16) }
    ensures { IfOk result (λ rows. AreRowsFrom kind topology.now numbering.now.order numbering.now.parents
        numbering.now.labels (block * 16) 16 rows.items) }
{
    match kind {
        Kind::Shortest => shortest_rows(alloc, topology, numbering, block, patience),
        Kind::Tree | Kind::Compact | Kind::Landmark(_) => {
            rows_from(alloc, topology, numbering, kind, prepared, block)
        }
    }
}

// The same of the shortest table; in batches, where there are enough nodes.
fn shortest_rows(
    alloc: Global,
    topology: &Topology,
    numbering: &Numbering,
    block: usize,
    patience: &Patience,
) -> Result<Vec<Row>, AllocError>
    requires labels { AreLabels (node_count topology.now) numbering.now.order numbering.now.labels }
    requires connected { IsConnected topology.now }
    requires block { block * 16 < node_count topology.now }
    ensures { IfOk result (λ rows. AreRowsFrom Shortest topology.now numbering.now.order numbering.now.parents
        numbering.now.labels (block * 16) 16 rows.items) }
{
    if topology.nodes() < LEAST_BATCHED {
        let nothing = Prepared::nothing();
        return rows_from(alloc, topology, numbering, Kind::Shortest, &nothing, block);
    }
    batch_rows(alloc, topology, numbering, block, patience)
}

// The same, made node by node.
fn rows_from(
    alloc: Global,
    topology: &Topology,
    numbering: &Numbering,
    kind: Kind,
    prepared: &Prepared,
    block: usize,
) -> Result<Vec<Row>, AllocError>
    requires { MayHaveRow kind topology.now numbering.now prepared.now (block * 16) }
    ensures { IfOk result (λ rows. AreRowsFrom kind topology.now numbering.now.order numbering.now.parents
        numbering.now.labels (block * 16) 16 rows.items) }
{
    let nodes = topology.nodes();
    let first = block * BATCH;
    let mut rows = Vec::with_capacity(alloc, BATCH)?;
    for place in 0..BATCH.min(nodes - first) {
        let u = (first + place) as u16;
        rows.push(row_at(alloc, topology, numbering, kind, prepared, u)?)?;
    }
    Ok(rows)
}

/// The row of a node. That of a compact plan is made by the ties where they were found, else by a search and floods;
/// that of a landmark plan by the bounds where they were prepared.
pub fn row_at(
    alloc: Global,
    topology: &Topology,
    numbering: &Numbering,
    kind: Kind,
    prepared: &Prepared,
    u: u16,
) -> Result<Row, AllocError>
    requires labels { AreLabels (node_count topology.now) numbering.now.order numbering.now.labels }
    requires tree { kind ≡ Tree → IsNumberingOf topology.now numbering.now }
    requires prepared { ArePrepared kind topology.now numbering.now.order prepared.now }
    requires connected { IsConnected topology.now }
    requires node { u < node_count topology.now }
    ensures { IfOk result (λ row. IsNodeRow kind topology.now numbering.now.order numbering.now.parents
        (slice_index numbering.now.labels u) row) }
{
    match kind {
        Kind::Tree => tree_row(alloc, topology, numbering, u),
        Kind::Shortest => searched_row(alloc, topology, numbering, u),
        Kind::Compact => compact_row(alloc, topology, numbering, &prepared.ties, u),
        Kind::Landmark(detour) => {
            landmark_row(alloc, topology, numbering, detour, &prepared.bounds, u)
        }
    }
}

/// The row of one node in a plan of a kind, made without the plan: that of kind Compact by a search
/// from the node and floods. Refused for memory alone. Takes O((n + m) log n), for n nodes and m
/// links; of kind Compact also what `ir_compile::ports_of_runs` takes, and O(n + m) for each port; of
/// kind Landmark what `ir_bounds::LandmarkBounds::of` takes.
pub fn row_of_node(
    alloc: Global,
    topology: &Topology,
    numbering: &Numbering,
    kind: Kind,
    u: u16,
) -> Result<Row, AllocError>
    requires labels { AreLabels (node_count topology.now) numbering.now.order numbering.now.labels }
    requires tree { kind ≡ Tree → IsNumberingOf topology.now numbering.now }
    requires connected { IsConnected topology.now }
    requires node { u < node_count topology.now }
    ensures { IfOk result (λ row. IsNodeRow kind topology.now numbering.now.order numbering.now.parents
        (slice_index numbering.now.labels u) row) }
{
    row_at(alloc, topology, numbering, kind, &Prepared::nothing(), u)
}

/// The row of a node in the shortest table, by a search from it alone.
pub fn searched_row(
    alloc: Global,
    topology: &Topology,
    numbering: &Numbering,
    u: u16,
) -> Result<Row, AllocError>
    requires labels { AreLabels (node_count topology.now) numbering.now.order numbering.now.labels }
    requires connected { IsConnected topology.now }
    requires node { u < node_count topology.now }
    ensures { IfOk result (λ row. IsNodeRow Shortest topology.now numbering.now.order numbering.now.parents
        (slice_index numbering.now.labels u) row) }
{
    let ways = Outward::from(alloc, topology, u)?;
    shortest_row(alloc, topology, numbering, u, ways.least_ports())
}

/// The row of a node in the shortest table, by its least ports that lead nearer, by node.
pub fn shortest_row(
    alloc: Global,
    topology: &Topology,
    numbering: &Numbering,
    u: u16,
    by_node: &[Option<u16>],
) -> Result<Row, AllocError>
    requires labels { AreLabels (node_count topology.now) numbering.now.order numbering.now.labels }
    requires node { u < node_count topology.now }
    requires ports { AreLeastPorts topology.now u by_node.now }
    ensures { IfOk result (λ row. IsNodeRow Shortest topology.now numbering.now.order numbering.now.parents
        (slice_index numbering.now.labels u) row) }
{
    let nodes = topology.nodes() as u16;
    let ports = ports_by_label(alloc, nodes, numbering, by_node)?;
    row_of(alloc, nodes, numbering.label_of(u), ports.as_slice())
}

// The ports by label, of ports by node.
fn ports_by_label(
    alloc: Global,
    nodes: u16,
    numbering: &Numbering,
    by_node: &[Option<u16>],
) -> Result<Vec<Option<u16>>, AllocError>
    requires labels { AreLabels nodes numbering.now.order numbering.now.labels }
    requires nodes { length by_node.now ≡ nodes }
    ensures { IfOk result (λ ports. ports.items ≡ map (held_at by_node.now) numbering.now.order) }
{
    let mut ports = Vec::with_capacity(alloc, nodes as usize)?;
    for label in 0..nodes {
        ports.push(by_node[numbering.node_of(label) as usize])?;
    }
    Ok(ports)
}

/// The canonical row of ports that are known to be a list of destinations.
pub fn row_of(alloc: Global, nodes: u16, own: u16, ports: &[Option<u16>]) -> Result<Row, AllocError>
    requires { IsDestinations nodes own ports.now }
    ensures { IfOk result (λ row. IsCanonical nodes own ports.now row) }
{
    canonical_row(alloc, nodes, own, ports)
}
