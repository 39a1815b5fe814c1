//! The report at the end.
ghost use Rattle.std.specs.Prelude.{◌≡◌, ◌≤◌, ◌<◌, true, false, MatchOption, sum_by};
ghost use Rattle.ir_control.specs.{Parts.node_number, Slots.hit};
ghost use Rattle.ir_control.specs.Reports.{AreThereBelow, finish_code};

use crate::leaving::PartRows;
use ir_core::Record;
use ir_epochs::Stamp;
use ir_links::Remains;
use ir_worker::{Node, Outcome, Parcel};
use thiserror::Error;

/// Why there is no report.
#[derive(Clone, Copy, PartialEq, Eq, Debug, Error)]
pub enum FinishError {
    /// The least node that is not among the parts.
    #[error("node {0} is missing")]
    Missing(u16),
    /// A growth was refused.
    #[error("out of memory")]
    NoMemory,
}

/// What came of each packet that the injector accepted, by number: its record, its first stamp, and the stamps of its
/// later segments.
#[derive(Drop)]
pub struct Report {
    pub records: Vec<Record>,
    pub stamps: Vec<Stamp>,
    pub later: Vec<Vec<Stamp>>,
}

// All the memory that a report takes.
#[derive(Drop)]
pub(crate) struct Room {
    pub(crate) rows: PartRows,
    pub(crate) channels: Vec<Remains<Parcel>>,
    pub(crate) slots: Vec<Option<Outcome>>,
    pub(crate) report: Report,
}

// Whether the node of this number is among these. Its own place is looked at first, so that nodes in
// order take O(1) each.
fn has_node(nodes: &Vec<Node>, u: usize) -> bool
    ensures present { result ≡ true → 0 < sum_by (hit node_number u) nodes.now.items }
    ensures absent { result ≡ false → sum_by (hit node_number u) nodes.now.items ≡ 0 }
{
    if u < nodes.len() && nodes[u].index() as usize == u {
        return true;
    }
    for k in 0..nodes.len() {
        if nodes[k].index() as usize == u {
            return true;
        }
    }
    false
}

// The least number below this one whose node is not among these.
pub(crate) fn missing(nodes: &Vec<Node>, count: usize) -> Option<u16>
    requires { count ≤ 65536 }
    ensures { MatchOption result (AreThereBelow count nodes.now.items)
        (λ v. (v < count) × (sum_by (hit node_number v) nodes.now.items ≡ 0) × AreThereBelow v nodes.now.items) }
{
    for u in 0..count {
        if !has_node(nodes, u) {
            return Some(u as u16);
        }
    }
    None
}

impl FinishError {
    /// Its number: 1 Missing, 2 NoMemory.
    pub fn code(self) -> u8
        ensures { result ≡ finish_code self }
    {
        match self {
            FinishError::Missing(_) => 1,
            FinishError::NoMemory => 2,
        }
    }
}
