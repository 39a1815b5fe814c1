//! The port that the most intervals of a plan go by.
ghost use Rattle.std.specs.Prelude.{◌≡◌, ◌+◌, ◌<◌};
ghost use Rattle.ir_model.specs.{Topology.node_count, Plan.IsPlan};
ghost use Rattle.ir_figures.specs.Compactness.{intervals_at, HasPortNumber, AreMostBefore, AreMost};

use ir_lookup::Row;
use ir_plan::Plan;

/// A port of a node, and how many intervals of the node's row go by it.
#[derive(Clone, Copy)]
pub struct Most {
    pub node: u16,
    pub port: u16,
    pub count: usize,
}

/// How many intervals of a row go by a port.
fn intervals_at(row: &Row, p: u16) -> usize
    ensures { result ≡ intervals_at row.now p }
{
    let mut count = 0;
    for i in 0..row.len() {
        if row.port(i) == p {
            count += 1;
        }
    }
    count
}

/// The port of the most intervals up to a port of a node, by that of the ports before it.
fn more_of(plan: &Plan, u: u16, p: u16, best: Option<Most>) -> Option<Most>
    requires port { HasPortNumber plan.now u p }
    requires best { AreMostBefore plan.now u p best }
    ensures { AreMostBefore plan.now u (p + 1) result }
{
    let next = Most {
        node: u,
        port: p,
        count: intervals_at(plan.row(u), p),
    };
    let Some(most) = best else {
        return Some(next);
    };
    if most.count < next.count {
        Some(next)
    } else {
        Some(most)
    }
}

/// The port of the most intervals up to those of a node, by that of the ports of the nodes before it.
fn most_of_node(plan: &Plan, u: u16, best: Option<Most>) -> Option<Most>
    requires plan { IsPlan plan.now }
    requires node { u < node_count plan.now.topology }
    requires best { AreMostBefore plan.now u 0 best }
    ensures { AreMostBefore plan.now (u + 1) 0 result }
{
    let mut most = best;
    for p in 0..plan.topology().degree(u) {
        most = more_of(plan, u, p as u16, most);
    }
    most
}

/// The port that the most intervals of a plan go by: the first such port of the first node that has one; None where no
/// node has a port. Takes O(s), for the sum s over the nodes of the ports times the starts.
pub fn most_intervals(plan: &Plan) -> Option<Most>
    ensures { AreMost plan.now result }
{
    let mut most = None;
    for u in 0..plan.nodes() {
        most = most_of_node(plan, u as u16, most);
    }
    most
}
