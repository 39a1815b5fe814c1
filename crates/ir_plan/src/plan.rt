ghost use Rattle.std.specs.Prelude.{◌-◌, ◌*◌, ◌≡◌, ◌<◌, Some, length, slice_index, sum_by, IfOk, IfErr};
ghost use Rattle.ir_model.specs.declared.Detour.{Detour};
ghost use Rattle.ir_model.specs.{Numbering.{IsDepthFirst, neighbors_of}, Topology.{node_count, port_at, ports_of}};
ghost use Rattle.ir_model.specs.Walk.{IsConnected};
ghost use Rattle.ir_model.specs.Plan.{AreLabels, IsPlan, by_label, label_in, node_in, table_port, row_in, Plan};
ghost use Rattle.ir_model.specs.{Row.intervals_of, Compiled.{Fits, IsFewest}};
ghost use Rattle.ir_plan.specs.{Shown.StandForTable, CompactRows.{FitsTied, IsFewestOfTied}, TreeRows.HasTreeRow};
ghost use Rattle.ir_plan.specs.LandmarkRows.{FitsWithin, IsFewestWithin};
ghost use Rattle.ir_plan.specs.Views.{plan_view};

use crate::error::PlanError;
use ir_lookup::Row;
use ir_model::{Hop, Kind};
use ir_numbering::Numbering;
use ir_tables::Topology;
use std::alloc::AllocError;
use std::marker::Model;

/// A plan of routes over its own topology, for one epoch: the nodes' labels, and for each node a row of interval starts
/// (Santoro and Khatib 1985; van Leeuwen and Tan 1987). The full table that the rows stand for is never made.
///
/// Of the path a, b, c node 0 reaches the label of node 2 by its port 0:
///
/// ```
/// let topology = Topology::of(alloc, graph).ok()?;
/// let plan = Plan::build(alloc, topology, Kind::Shortest, 0).ok()?;
/// let is_so = plan.nodes() == 3 && plan.port(0, plan.label_of(2)) == Some(0);
/// ```
#[derive(Drop)]
pub struct Plan {
    topology: Topology,
    kind: Kind,
    root: u16,
    numbering: Numbering,
    rows: Vec<Row>,
}

impl Model for Plan {
    ghost Value = { Plan };

    ghost view = { plan_view };

    ghost invariant = { λ p. IsPlan (plan_view p) };
}

impl Plan {
    /// The plan of these numbers and rows, where the rows could be made.
    pub(crate) fn of_rows(
        topology: Topology,
        kind: Kind,
        root: u16,
        numbering: Numbering,
        rows: Result<Vec<Row>, AllocError>,
    ) -> Result<Plan, (PlanError, Topology)>
        requires root { root < node_count topology }
        requires connected { IsConnected topology }
        requires depth_first { kind ≡ Kind.Tree
            → IsDepthFirst (neighbors_of topology) (node_count topology) root numbering.order numbering.parents }
        requires first { slice_index numbering.order 0 ≡ root }
        requires labels { AreLabels (node_count topology) numbering.order numbering.labels }
        requires rows { IfOk rows (λ made. StandForTable kind topology numbering.order numbering.parents
            numbering.labels made.items) }
        ensures kind { IfOk result (λ p. p.kind ≡ kind) }
        ensures root { IfOk result (λ p. p.root ≡ root) }
        ensures topology { IfOk result (λ p. p.topology ≡ topology) }
        ensures order { IfOk result (λ p. p.order ≡ numbering.order) }
        ensures plan { IfOk result (λ p. IsPlan p) }
        ensures back { IfErr result (λ e. e.1 ≡ topology) }
        ensures memory { IfErr result (λ e. e.0 ≡ PlanError.NoMemory) }
    {
        topology.invariant();
        match rows {
            Ok(rows) => Ok(Plan {
                topology,
                kind,
                root,
                numbering,
                rows,
            }),
            Err(_) => Err((PlanError::NoMemory, topology)),
        }
    }

    /// Does nothing; a caller's proof learns by it what holds of each plan.
    pub fn invariant(&self)
        ensures plan { IsPlan self.now }
    {
        self.nodes();
    }

    /// How many nodes there are.
    pub fn nodes(&self) -> usize
        ensures count { result ≡ node_count self.now.topology }
        ensures plan { IsPlan self.now }
    {
        self.topology.nodes()
    }

    /// The kind that the plan was built with.
    pub fn kind(&self) -> Kind
        ensures { result ≡ self.now.kind }
    {
        self.kind
    }

    /// The root that the plan was built with.
    pub fn root(&self) -> u16
        ensures { result ≡ self.now.root }
    {
        self.root
    }

    /// The plan's own topology.
    pub fn topology(&self) -> &Topology
        ensures { result.now ≡ self.now.topology }
    {
        &self.topology
    }

    /// The plan's own topology; the rest of the plan is let go.
    pub fn into_topology(self) -> Topology
        ensures { result ≡ self.topology }
    {
        let Plan {
            topology,
            kind: _,
            root: _,
            numbering: _,
            rows: _,
        } = self;
        topology
    }

    /// The label of a node: its place in the order of the nodes.
    pub fn label_of(&self, node: u16) -> u16
        requires { node < node_count self.now.topology }
        ensures { result ≡ label_in self.now node }
    {
        self.numbering.label_of(node)
    }

    /// The node with a label. For users of the library.
    pub fn node_of(&self, label: u16) -> u16
        requires { label < node_count self.now.topology }
        ensures { result ≡ node_in self.now label }
    {
        self.numbering.node_of(label)
    }

    /// The port of a node to the node with a label, by the node's row: that of the full table. None at the own label.
    /// Takes O(log k), for k starts of the row.
    pub fn port(&self, node: u16, address: u16) -> Option<u16>
        requires node { node < node_count self.now.topology }
        requires label { address < node_count self.now.topology }
        ensures { result ≡ table_port self.now node (node_in self.now address) }
    {
        let numbering = &self.numbering;
        if address == numbering.label_of(node) {
            return None;
        }
        Some(self.rows[node as usize].find(address))
    }

    /// Where a port of a node leads.
    pub fn hop(&self, node: u16, port: u16) -> Hop
        requires node { node < node_count self.now.topology }
        requires port { port < length (ports_of self.now.topology node) }
        ensures { port_at self.now.topology node port ≡ Some result }
    {
        self.topology.port(node, port)
    }

    /// The row of a node. It gives each address but the own its port in the full table, by the
    /// fewest intervals that do. In a tree plan it has exactly one start for each port to a son or
    /// the father, and no other (Santoro and Khatib 1985). In a compact plan each port leads nearer
    /// to its addresses' nodes, and no set of cyclic intervals is smaller that gives each address
    /// but the own such a port. In a landmark plan the same holds of the ports that lead within the
    /// bound by its landmarks.
    pub fn row(&self, node: u16) -> &Row
        requires { node < node_count self.now.topology }
        ensures row { result.now ≡ row_in self.now node }
        ensures fits { Fits (node_count self.now.topology) (label_in self.now node) (by_label self.now node)
            (intervals_of result.now) }
        ensures fewest { IsFewest (node_count self.now.topology) (label_in self.now node) (by_label self.now node)
            (length result.now) }
        ensures tree { self.now.kind ≡ Kind.Tree → HasTreeRow self.now node }
        ensures tied { self.now.kind ≡ Kind.Compact → FitsTied self.now node (intervals_of result.now) }
        ensures compact { self.now.kind ≡ Kind.Compact → IsFewestOfTied self.now node (length result.now) }
        ensures within { (t : Detour) → self.now.kind ≡ Kind.Landmark t
            → FitsWithin t self.now node (intervals_of result.now) }
        ensures landmark { (t : Detour) → self.now.kind ≡ Kind.Landmark t
            → IsFewestWithin t self.now node (length result.now) }
    {
        &self.rows[node as usize]
    }

    /// How many starts all rows have, each at a label. In a tree plan of n nodes they are 2 (n -
    /// 1). Takes O(n).
    pub fn labels(&self) -> usize
        ensures starts { result ≡ sum_by length self.now.rows }
        ensures tree { self.now.kind ≡ Kind.Tree → result ≡ 2 * (node_count self.now.topology - 1) }
    {
        let mut starts = 0;
        for row in &self.rows {
            starts += row.len();
        }
        starts
    }
}
