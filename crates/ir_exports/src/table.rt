//! The forwarding table of a node of a plan.
ghost use Rattle.std.specs.Prelude.{◌≡◌, ◌≢◌, ◌<◌, ◌+◌, ℕ, None, IfOk, IfSome, IsSome, length};
ghost use Rattle.ir_model.specs.{Topology.node_count, Row.HasPort, Plan.by_label};
ghost use Rattle.ir_prefix.specs.{Forwarding.NamesPorts, Longest.IsWidth};
ghost use Rattle.ir_exports.specs.{Before.AreBelow, Tables.AreLinesOf};

use ir_lookup::Row;
use ir_plan::Plan;
use ir_prefix::{TableLine, disjoint_lines, forwarding_lines};
use std::alloc::{AllocError, Global};

/// The ports of a node to each label, by one walk along its row.
pub(crate) fn ports_by_label(
    alloc: Global,
    plan: &Plan,
    u: u16,
) -> Result<Vec<Option<u16>>, AllocError>
    requires { u < node_count plan.now.topology }
    ensures { IfOk result (λ ports. ports.items ≡ by_label plan.now u) }
{
    let row = plan.row(u);
    let own = plan.label_of(u);
    let mut ports = Vec::with_capacity(alloc, plan.nodes())?;
    let mut below = 0;
    for label in 0..plan.nodes() {
        below = starts_to(row, below, label as u16);
        ports.push(port_behind(row, below, own, label as u16))?;
    }
    Ok(ports)
}

// How many starts of a row are at most a label, where so many are below it.
fn starts_to(row: &Row, below: usize, label: u16) -> usize
    requires { AreBelow row.now label below }
    ensures { AreBelow row.now (label + 1) result }
{
    if below < row.len() && row.start(below) == label {
        below + 1
    } else {
        below
    }
}

// The port to a label, where so many starts of the row are at most the label: none to the own one.
fn port_behind(row: &Row, below: usize, own: u16, label: u16) -> Option<u16>
    requires below { AreBelow row.now (label + 1) below }
    requires some { label ≢ own → 0 < length row.now }
    ensures own { label ≡ own → result ≡ None }
    ensures port { label ≢ own → IfSome result (λ p. (n : ℕ) → label < n → HasPort n row.now label p) }
    ensures some { label ≢ own → IsSome result }
{
    if label == own {
        return None;
    }
    let starts = row.len();
    if below == 0 {
        return Some(row.port(starts - 1));
    }
    Some(row.port(below - 1))
}

/// The forwarding table of a node, by the ports of its row: that of `ir_prefix::disjoint_lines` if
/// the lines are to be disjoint, else that of `ir_prefix::forwarding_lines`. It is refused for
/// memory alone. Takes O(n log n), for n nodes.
pub fn table_of(
    alloc: Global,
    plan: &Plan,
    u: u16,
    is_disjoint: bool,
) -> Result<Vec<TableLine>, AllocError>
    requires { u < node_count plan.now.topology }
    ensures lines { IfOk result (λ table. (bits : ℕ) → IsWidth (node_count plan.now.topology) bits
        → AreLinesOf is_disjoint plan.now bits u table.items) }
    ensures ports { IfOk result (λ table. NamesPorts (by_label plan.now u) table.items) }
{
    let ports = ports_by_label(alloc, plan, u)?;
    let nodes = plan.nodes() as u16;
    let own = plan.label_of(u);
    if is_disjoint {
        Ok(disjoint_lines(alloc, nodes, own, ports.as_slice())?)
    } else {
        Ok(forwarding_lines(alloc, nodes, own, ports.as_slice())?)
    }
}
