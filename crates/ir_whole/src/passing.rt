//! The channels that rows pass.
ghost use Rattle.std.specs.Prelude.{◌≡◌, ◌==◌, ◌&&◌, count_by};
ghost use Rattle.ir_whole.specs.Causes.{HasHops, HaveHops, has_step, have_step, may_go_on, may_pass};

use ir_trace::judging::{last_hop, last_segment};
use ir_trace::{RowFate, Segment, Trace, TraceRow};

/// Whether two nodes are these, in this order.
fn is_step(u: u16, v: u16, from: u16, to: u16) -> bool
    ensures { result ≡ ((u == from) && (v == to)) }
{
    u == from && v == to
}

/// Whether two neighbours in some hops are these nodes, in this order.
fn has_step(hops: &[u16], from: u16, to: u16) -> bool
    ensures { result ≡ has_step from to hops.now }
{
    for i in 1..hops.len() {
        if is_step(hops[i - 1], hops[i], from, to) {
            return true;
        }
    }
    false
}

/// Whether some segment goes from a node to another.
fn have_step(segments: &[Segment], from: u16, to: u16) -> bool
    ensures { result ≡ have_step from to segments.now }
{
    segments
        .iter()
        .any(|segment| has_step(segment.hops.as_slice(), from, to))
}

/// Whether a packet of this fate may have been sent from its last hop to a node that its hops don't have.
fn may_go_on(fate: RowFate, from: u16, to: u16) -> bool
    ensures { result ≡ may_go_on from to fate }
{
    match fate {
        RowFate::Retired | RowFate::Left => true,
        RowFate::Down { low, high } => (low == from && high == to) || (low == to && high == from),
        RowFate::Delivered | RowFate::Full { .. } => false,
    }
}

/// Whether the packet of a row may have been in the channel from a node to another.
fn may_pass(row: &TraceRow, from: u16, to: u16) -> bool
    requires { HasHops row.now }
    ensures { result ≡ may_pass from to row.now }
{
    let segments = row.segments.as_slice();
    have_step(segments, from, to)
        || (may_go_on(row.fate, from, to) && last_hop(last_segment(segments)) == from)
}

/// How many rows of a trace may have been in the channel from a node to another.
pub fn passing(trace: &Trace, from: u16, to: u16) -> usize
    requires { HaveHops trace.now }
    ensures { result ≡ count_by (may_pass from to) trace.now }
{
    let mut count = 0;
    for place in 0..trace.rows() {
        if may_pass(trace.row(place), from, to) {
            count += 1;
        }
    }
    count
}
