//! How many bits the rows of a plan take, and full tables.
ghost use Rattle.std.specs.Prelude.{◌≡◌, ◌+◌, ◌*◌, ◌<◌, ◌≤◌};
ghost use Rattle.ir_model.specs.{Topology.node_count, Plan.IsPlan};
ghost use Rattle.ir_prefix.specs.Longest.{IsWidth};
ghost use Rattle.ir_figures.specs.RowBits.{AreBitsBefore};

use ir_plan::Plan;
use ir_prefix::width;

/// The bits of the rows of nodes, and of their full tables.
#[derive(Clone, Copy)]
pub struct Bits {
    pub rows: u64,
    pub tables: u64,
}

/// The bits up to those of a node, by those of the nodes before it.
fn bits_with(plan: &Plan, label: u8, u: u16, before: Bits) -> Bits
    requires plan { IsPlan plan.now }
    requires node { u < node_count plan.now.topology }
    requires label { IsWidth (node_count plan.now.topology) label }
    requires light { (before.rows ≤ 1048576 * u) × (before.tables ≤ 1048576 * u) }
    requires before { AreBitsBefore plan.now u before.rows before.tables }
    ensures light { (result.rows ≤ 1048576 * (u + 1)) × (result.tables ≤ 1048576 * (u + 1)) }
    ensures bits { AreBitsBefore plan.now (u + 1) result.rows result.tables }
{
    let nodes = plan.nodes() as u64;
    let port = width(plan.topology().degree(u) as u16);
    let starts = plan.row(u).len() as u64;
    Bits {
        rows: before.rows + starts * (label as u64 + port as u64),
        tables: before.tables + (nodes - 1) * port as u64,
    }
}

/// The bits of a plan's rows and of full tables by label. Each start of a row takes the bits of a
/// label and of a port of the node, each entry of a table those of a port of the node. Takes O(n),
/// for n nodes.
pub fn bits_of(plan: &Plan) -> Bits
    ensures { AreBitsBefore plan.now (node_count plan.now.topology) result.rows result.tables }
{
    let label = width(plan.nodes() as u16);
    let mut bits = Bits { rows: 0, tables: 0 };
    for u in 0..plan.nodes() {
        bits = bits_with(plan, label, u as u16, bits);
    }
    bits
}
