ghost use Rattle.std.specs.Prelude.{◌≡◌, ◌↔◌, ◌<◌, IfOk, IfSome, IfNone};
ghost use Rattle.ir_model.specs.{Topology.node_count, Walk.{IsConnected, IsDisconnected}};
ghost use Rattle.ir_model.specs.Table.{table_size, port_in, weight_in, IsShortest, IsRouted, Table, IsSquare};
ghost use Rattle.ir_tables.specs.{Relaxation.{IsColumn, HasNoWalk}, Listed.{IsPortList, IsListed, IsListedColumn}};
ghost use Rattle.ir_tables.specs.{Errors.table_code, declared.table.TableError.TheVariants.NoMemory, Views.table_of};

use crate::listed::walk_weights;
use crate::outward::weights_to;
use crate::relaxation::{UNREACHED, first_port};
use crate::topology::Topology;
use std::alloc::{AllocError, AllocFailed, Global};
use std::fmt;
use std::marker::Model;
use thiserror::Error;

/// Why there is no table.
#[derive(Clone, Copy, Debug, PartialEq, Eq, Error)]
pub enum TableError {
    /// The topology has no node.
    Empty = 1,
    /// Some node has no walk to some node.
    Disconnected = 2,
    /// A growth was refused.
    NoMemory = 3,
}

impl TableError {
    /// The number of the error, from 1 to 3. For users of the library.
    pub fn code(self) -> u8
        ensures { result ≡ table_code self }
    {
        self as u8
    }
}

impl fmt::Display for TableError {
    fn fmt<W: fmt::Write>(&self, f: &mut fmt::Formatter<W>) -> fmt::Result {
        write!(f, "{:?}", self)
    }
}

impl From<AllocError> for TableError {
    ghost from_gives = { λ _ e. e ≡ NoMemory };

    fn from(_error: AllocError) -> TableError {
        TableError::NoMemory
    }
}

impl<T: Drop> From<AllocFailed<T>> for TableError {
    ghost from_gives = { λ _ e. e ≡ NoMemory };

    fn from(_error: AllocFailed<T>) -> TableError {
        TableError::NoMemory
    }
}

/// What a table holds for one destination, by node.
#[derive(Drop)]
struct Column {
    ports: Vec<Option<u16>>,
    weights: Vec<u32>,
}

/// A full table: for each node and destination the port to take, and the weight of the way.
#[derive(Drop)]
pub struct Table {
    columns: Vec<Column>,
}

impl Model for Table {
    ghost Value = { Table };

    ghost view = { table_of };

    ghost invariant = { λ t. IsSquare (table_of t) };
}

/// The column of the shortest table for `d`, or none where some node has no walk to `d`.
fn shortest_column(
    alloc: Global,
    topology: &Topology,
    d: usize,
) -> Result<Option<Column>, AllocError>
    requires { d < node_count topology.now }
    ensures column { IfOk result (λ found. IfSome found (λ c. IsColumn topology.now d c.ports.items
        c.weights.items)) }
    ensures none { IfOk result (λ found. IfNone found (HasNoWalk topology.now d)) }
{
    let nodes = topology.nodes();
    let weights = weights_to(alloc, topology, d)?;
    let mut ports = Vec::with_capacity(alloc, nodes)?;
    for u in 0..nodes {
        let own = weights[u];
        if own == UNREACHED {
            return Ok(None);
        }
        ports.push(first_port(topology.ports(u), weights.as_slice(), own))?;
    }
    Ok(Some(Column { ports, weights }))
}

/// The column of the listed ports for `d`.
fn listed_column(
    alloc: Global,
    topology: &Topology,
    ports: &[Option<u16>],
    d: usize,
) -> Result<Column, AllocError>
    requires list { IsPortList topology.now ports.now }
    requires end { d < node_count topology.now }
    ensures { IfOk result (λ c. IsListedColumn topology.now ports.now d c.ports.items c.weights.items) }
{
    let nodes = topology.nodes();
    let weights = walk_weights(alloc, topology, ports, d)?;
    let mut held = Vec::with_capacity(alloc, nodes)?;
    for u in 0..nodes {
        held.push(ports[u * nodes + d])?;
    }
    Ok(Column {
        ports: held,
        weights,
    })
}

impl Table {
    /// The shortest table of a topology: at each node and destination the least port to a neighbour from which the
    /// way goes on shortest, and the distance (van Leeuwen and Tan 1987).
    ///
    /// It is refused as `Empty` without a node, as `Disconnected` where some pair has no walk, and as `NoMemory`,
    /// which may come before `Disconnected` is known. Takes O(n (n + m) log n), for n nodes and m links.
    /// For users of the library.
    pub fn shortest(alloc: Global, topology: &Topology) -> Result<Table, TableError>
        ensures shortest { IfOk result (λ table. IsShortest topology.now table) }
        ensures routed { IfOk result (λ table. IsRouted topology.now table) }
        ensures connected { IfOk result (λ table. IsConnected topology.now) }
        ensures empty { (result ≡ Err TableError.Empty) ↔ (node_count topology.now ≡ 0) }
        ensures disconnected { result ≡ Err TableError.Disconnected → IsDisconnected topology.now }
    {
        let nodes = topology.nodes();
        if nodes == 0 {
            return Err(TableError::Empty);
        }
        let mut columns = Vec::with_capacity(alloc, nodes)?;
        for d in 0..nodes {
            match shortest_column(alloc, topology, d)? {
                Some(column) => columns.push(column)?,
                None => return Err(TableError::Disconnected),
            }
        }
        Ok(Table { columns })
    }

    /// The table of a list of ports: place `u * n + d` of the list holds the port at node `u` for the destination `d`,
    /// where there are `n` nodes. Its distances are the weights of the walks that the list prescribes.
    ///
    /// Condition: the list has `n * n` entries, none is there exactly where `u` is `d`, each other entry is a port of
    /// `u`, and from each node the ports lead to each destination. It is refused for memory alone. Takes O(n * n). For
    /// users of the library.
    pub fn from_ports(
        alloc: Global,
        topology: &Topology,
        ports: Vec<Option<u16>>,
    ) -> Result<Table, AllocError>
        requires { IsPortList topology.now ports.items }
        ensures listed { IfOk result (λ table. IsListed topology.now ports.items table) }
        ensures routed { IfOk result (λ table. IsRouted topology.now table) }
    {
        let nodes = topology.nodes();
        let mut columns = Vec::with_capacity(alloc, nodes)?;
        for d in 0..nodes {
            columns.push(listed_column(alloc, topology, ports.as_slice(), d)?)?;
        }
        Ok(Table { columns })
    }

    /// The port that the table holds at a node for a destination, and none where they are one node.
    /// Condition: both are nodes. For users of the library.
    pub fn next(&self, node: u16, dest: u16) -> Option<u16>
        requires node { node < table_size self.now }
        requires dest { dest < table_size self.now }
        ensures { result ≡ port_in self.now node dest }
    {
        let column = &self.columns[dest as usize];
        column.ports[node as usize]
    }

    /// The weight of the walk that the table prescribes from a node to a destination. Condition: both are nodes. For
    /// users of the library.
    pub fn distance(&self, node: u16, dest: u16) -> u32
        requires node { node < table_size self.now }
        requires dest { dest < table_size self.now }
        ensures { result ≡ weight_in self.now node dest }
    {
        let column = &self.columns[dest as usize];
        column.weights[node as usize]
    }
}
