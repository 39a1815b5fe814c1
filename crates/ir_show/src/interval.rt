//! The intervals of a row: where each begins and ends, and which has a label.
ghost use Rattle.std.specs.Prelude.{◌≡◌, ◌<◌, ◌++◌, OnOk, length, slice_index_or, string_bytes};
ghost use Rattle.ir_model.specs.{Topology.{node_count, ports_of}, Row.intervals_of, Plan.{IsPlan, row_in}};
ghost use Rattle.ir_plan.specs.Shown.{has_label};
ghost use Rattle.ir_show.specs.{Drawing.interval_text, Intervals.as_interval, WalkText.{interval_with, no_interval}};

use crate::TextResult;
use ir_lookup::Row;
use ir_plan::Plan;

/// A cyclic interval of labels, with its port.
#[derive(Clone, Copy, Debug, PartialEq, Eq)]
pub struct Interval {
    pub start: u16,
    pub end: u16,
    pub port: u16,
}

/// Whether an interval has a label.
fn has_label(interval: Interval, label: u16) -> bool
    ensures { result ≡ has_label label (as_interval interval) }
{
    if interval.start < interval.end {
        interval.start <= label && label < interval.end
    } else {
        interval.start <= label || label < interval.end
    }
}

/// Where the interval at a place of a row ends: at the next start in cyclic order.
fn end_of(row: &Row, i: usize) -> u16
    requires { i < length row.now }
    ensures { result ≡ (slice_index_or (intervals_of row.now) i no_interval).end }
{
    let count = row.len();
    if i + 1 < count {
        row.start(i + 1)
    } else {
        row.start(0)
    }
}

/// The interval at a place of a row.
fn interval_of(row: &Row, i: usize) -> Interval
    requires { i < length row.now }
    ensures { as_interval result ≡ slice_index_or (intervals_of row.now) i no_interval }
{
    Interval {
        start: row.start(i),
        end: end_of(row, i),
        port: row.port(i),
    }
}

/// The interval of a row that has a label; one of zeros where there is none.
pub fn interval_with(row: &Row, label: u16) -> Interval
    ensures { as_interval result ≡ interval_with row.now label }
{
    for i in 0..row.len() {
        let interval = interval_of(row, i);
        if has_label(interval, label) {
            return interval;
        }
    }
    Interval {
        start: 0,
        end: 0,
        port: 0,
    }
}

/// The interval at a place of a node's row.
pub fn interval_at(plan: &Plan, u: u16, i: usize) -> Interval
    requires plan { IsPlan plan.now }
    requires node { u < node_count plan.now.topology }
    requires place { i < length (row_in plan.now u) }
    ensures interval { as_interval result ≡ slice_index_or (intervals_of (row_in plan.now u)) i no_interval }
    ensures start { result.start < node_count plan.now.topology }
    ensures end { result.end < node_count plan.now.topology }
    ensures port { result.port < length (ports_of plan.now.topology u) }
{
    interval_of(plan.row(u), i)
}

/// Writes an interval as `[START,END)`.
pub fn push_interval(text: &mut String, interval: Interval) -> TextResult
    ensures { OnOk result (string_bytes text.new ≡ string_bytes text.old ++ interval_text (as_interval interval)) }
{
    write!(text, "[{},{})", interval.start, interval.end)
}
