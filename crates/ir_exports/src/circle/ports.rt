//! The ports of a node: their colours, and the intervals of each.
ghost use Rattle.std.specs.Prelude.{◌≡◌, ◌<◌, ◌≤◌, ◌==◌, ◌++◌, [], if◌then◌else◌, nat_lt, OnOk, length, string_bytes};
ghost use Rattle.ir_model.specs.{Graph.names, Topology.{node_count, ports_of}, Plan.IsPlan};
ghost use Rattle.ir_trace.specs.{Rows.spaced, Written.name_at};
ghost use Rattle.ir_show.specs.{Intervals.as_interval, PlanText.node_by};
ghost use Rattle.ir_exports.specs.Ports.{ink, colour, said, intervals_by, count_text, first_intervals, shown_ports};

use ir_plan::Plan;
use ir_show::TextResult;
use ir_show::interval::{Interval, interval_at, push_interval};

/// The colour of a node's own label.
pub const INK: &str = "#1d2733";

/// The colour of a port.
pub fn colour(port: u16) -> &'static str
    ensures { result.now ≡ colour port }
{
    match port % 12 {
        0 => "#2b6fd6",
        1 => "#c75d00",
        2 => "#1b8049",
        3 => "#8f4bc9",
        4 => "#c7305f",
        5 => "#0b8290",
        6 => "#96602f",
        7 => "#6c7200",
        8 => "#4a5a9e",
        9 => "#b3458c",
        10 => "#3d7a76",
        _ => "#a34b2a",
    }
}

/// How many of a node's ports are shown.
pub fn shown_ports(count: usize) -> usize
    ensures count { result ≡ shown_ports count }
    ensures within { result ≤ count }
    ensures few { result ≤ 30 }
{
    if count > 30 { 30 } else { count }
}

/// The neighbour at a port of a node.
pub fn node_by(plan: &Plan, u: u16, port: u16) -> u16
    requires plan { IsPlan plan.now }
    requires node { u < node_count plan.now.topology }
    requires port { port < length (ports_of plan.now.topology u) }
    ensures node { result ≡ node_by plan.now.topology u port }
    ensures within { result < node_count plan.now.topology }
{
    plan.hop(u, port).node
}

/// Writes an interval, or that it has all labels.
pub fn push_said(text: &mut String, interval: Interval) -> TextResult
    ensures { OnOk result (string_bytes text.new ≡ string_bytes text.old ++ said (as_interval interval)) }
{
    if interval.start == interval.end {
        text.push_str("all labels")
    } else {
        push_interval(text, interval)
    }
}

/// Whether an interval has a port.
fn goes_by(interval: Interval, port: u16) -> bool
    ensures { result ≡ ((as_interval interval).port == port) }
{
    interval.port == port
}

/// Writes an interval after a space, if fewer than six were written before.
fn push_early(text: &mut String, interval: Interval, seen: usize) -> TextResult
    ensures { OnOk result (string_bytes text.new ≡ string_bytes text.old
        ++ (if nat_lt seen 6 then spaced (said (as_interval interval)) else [])) }
{
    if seen < 6 {
        text.push_str(" ")?;
        push_said(text, interval)?;
    }
    Ok(())
}

/// Writes how many intervals there are, where they are none, or more than six.
fn push_count(text: &mut String, count: usize) -> TextResult
    ensures { OnOk result (string_bytes text.new ≡ string_bytes text.old ++ count_text count) }
{
    if count == 0 {
        return text.push_str(" no label");
    }
    if count > 6 {
        let more = count - 6;
        return write!(text, " and {more} more");
    }
    Ok(())
}

/// Writes the first intervals of a node's row that have a port, and how many more there are.
pub fn push_first(text: &mut String, plan: &Plan, u: u16, port: u16) -> TextResult
    requires plan { IsPlan plan.now }
    requires node { u < node_count plan.now.topology }
    ensures { OnOk result (string_bytes text.new ≡ string_bytes text.old
        ++ first_intervals (intervals_by plan.now u port)) }
{
    let mut seen = 0;
    let count = plan.row(u).len();
    for i in 0..count {
        let interval = interval_at(plan, u, i);
        if goes_by(interval, port) {
            push_early(text, interval, seen)?;
            seen += 1;
        }
    }
    push_count(text, seen)?;
    Ok(())
}
