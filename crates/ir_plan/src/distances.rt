//! How far apart nodes are as destinations: how many nodes send them by different ports.
ghost use Rattle.std.specs.Prelude.{[], ◌≡◌, ◌<◌, ◌≤◌, All, IfOk, length, slice_index_or, vec_len};
ghost use Rattle.ir_model.specs.{Topology.node_count, Plan.table_port};
ghost use Rattle.ir_plan.specs.declared.TheConstants.{MOST_TOUR_NODES};
ghost use Rattle.ir_plan.specs.Distances.{AreColumns, AreDistances, AreShortestDistances, IsPortColumn, IsRow};
ghost use Rattle.ir_plan.specs.Distances.{far_between, far_from, lists_of, unlike};

use crate::crew::Crew;
use crate::plan::Plan;
use ir_model::Kind;
use std::alloc::{AllocError, Global};

/// What stands for the port of a node to itself. No node has so many ports.
const NO_PORT: u16 = u16::MAX;

/// The fewest columns that a thread is started for.
const LEAST_COLUMNS: usize = 16;

/// The distance of each two nodes: how many nodes send them by different ports in a plan's table.
/// The tours of van Leeuwen and Tan's labels (1987) are as long as the rows that these labels give.
#[derive(Drop)]
pub struct Distances {
    nodes: usize,
    rows: Vec<Vec<u16>>,
    ghost every: { vec_len rows ≡ nodes },
    ghost square: { All (λ row. length row.items ≡ nodes) rows.items },
}

impl Distances {
    /// The distances of the nodes of a plan of kind Shortest, by its rows.
    pub fn of(crew: &impl Crew, alloc: Global, plan: &Plan) -> Result<Distances, AllocError>
        requires few { node_count plan.now.topology ≤ MOST_TOUR_NODES }
        requires shortest { plan.now.kind ≡ Kind.Shortest }
        ensures nodes { IfOk result (λ far. far.nodes ≡ node_count plan.now.topology) }
        ensures shortest { IfOk result (λ far. AreShortestDistances plan.now.topology (far_between far.rows.items)) }
    {
        let nodes = plan.nodes();
        let columns = columns_of(crew, alloc, plan)?;
        let rows = distances_of(crew, alloc, columns.as_slice())?;
        Ok(Distances { nodes, rows })
    }

    /// How many nodes there are.
    pub fn nodes(&self) -> usize
        ensures { result ≡ self.now.nodes }
    {
        self.nodes
    }

    /// The distances of a node to each, by number.
    pub fn from(&self, a: u16) -> &[u16]
        requires { a < self.now.nodes }
        ensures every { length result.now ≡ self.now.nodes }
        ensures far { result.now ≡ far_from self.now.rows.items a }
    {
        self.rows[a as usize].as_slice()
    }

    /// The distance of two nodes.
    pub fn between(&self, a: u16, b: u16) -> u16
        requires from { a < self.now.nodes }
        requires to { b < self.now.nodes }
        ensures { result ≡ far_between self.now.rows.items a b }
    {
        self.from(a)[b as usize]
    }
}

// The ports of all nodes to each node, by its number, by the rows of a plan.
fn columns_of(crew: &impl Crew, alloc: Global, plan: &Plan) -> Result<Vec<Vec<u16>>, AllocError>
    ensures { IfOk result (λ columns. AreColumns (node_count plan.now.topology) (table_port plan.now)
        (lists_of columns.items)) }
{
    crew.lists(
        alloc,
        plan.nodes(),
        LEAST_COLUMNS,
        &|d: usize| -> Result<Vec<u16>, AllocError>
            requires { d < node_count plan.now.topology }
            ensures { IfOk result (λ column. IsPortColumn (node_count plan.entry.now.topology)
                (table_port plan.entry.now) d column.items) }
        { column(alloc, plan, d) },
    )
}

// The ports of all nodes to one, by their numbers.
fn column(alloc: Global, plan: &Plan, d: usize) -> Result<Vec<u16>, AllocError>
    requires { d < node_count plan.now.topology }
    ensures { IfOk result (λ column. IsPortColumn (node_count plan.now.topology) (table_port plan.now) d column.items) }
{
    let nodes = plan.nodes();
    let label = plan.label_of(d as u16);
    let mut ports = Vec::with_capacity(alloc, nodes)?;
    for u in 0..nodes {
        ports.push(plan.port(u as u16, label).unwrap_or(NO_PORT))?;
    }
    Ok(ports)
}

// The distances of all nodes, by their columns of ports.
fn distances_of(
    crew: &impl Crew,
    alloc: Global,
    columns: &[Vec<u16>],
) -> Result<Vec<Vec<u16>>, AllocError>
    requires few { length columns.now ≤ MOST_TOUR_NODES }
    requires square { All (λ column. length column.items ≡ length columns.now) columns.now }
    ensures { IfOk result (λ rows. AreDistances (lists_of columns.now) (lists_of rows.items)) }
{
    crew.lists(
        alloc,
        columns.len(),
        LEAST_COLUMNS,
        &|a: usize| -> Result<Vec<u16>, AllocError>
            requires { (a < length columns.now) × (length columns.now ≤ MOST_TOUR_NODES)
                × All (λ column. length column.items ≡ length columns.now) columns.now }
            ensures { IfOk result (λ row. IsRow (lists_of columns.entry.now)
                (slice_index_or (lists_of columns.entry.now) a []) row.items) }
        { row(alloc, columns, columns[a].as_slice()) },
    )
}

// The distances of one node to each, by its column of ports and those of all.
fn row(alloc: Global, columns: &[Vec<u16>], own: &[u16]) -> Result<Vec<u16>, AllocError>
    requires few { length own.now ≤ MOST_TOUR_NODES }
    requires square { All (λ column. length column.items ≡ length own.now) columns.now }
    ensures { IfOk result (λ row. IsRow (lists_of columns.now) own.now row.items) }
{
    let mut row = Vec::with_capacity(alloc, columns.len())?;
    for column in columns {
        row.push(differences(own, column.as_slice()))?;
    }
    Ok(row)
}

// At how many places two columns differ.
fn differences(column: &[u16], other: &[u16]) -> u16
    requires few { length column.now ≤ MOST_TOUR_NODES }
    requires same { length other.now ≡ length column.now }
    ensures { result ≡ unlike column.now other.now }
{
    let mut count = 0;
    for i in 0..column.len() {
        if column[i] != other[i] {
            count += 1;
        }
    }
    count
}
