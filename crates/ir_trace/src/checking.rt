//! Traces checked against what each epoch was installed with.
ghost use Rattle.std.specs.Prelude.{◌≡◌, ◌≢◌, ◌<◌, ◌≤◌, true, IfOk, IfErr, length, nat_le, ◌||◌, ◌==◌, not};
ghost use Rattle.std.specs.List.{list_all};
ghost use Rattle.ir_model.specs.Topology.{node_count};
ghost use Rattle.ir_core.specs.Sound.{last_of};
ghost use Rattle.ir_trace.specs.Checked.{is_part_over, IsRowOver, AreRowsOver, AreInstalls, AreFine, Finds};
ghost use Rattle.ir_trace.specs.declared.finding.FindingKind.TheVariants.{NoMemory};
ghost use Rattle.ir_trace.specs.{Sound.{IsSoundTrace}, Judged.{FindsNothing, IsOnlyFinding}};
ghost use Rattle.ir_trace.specs.Inspect.{is_delivered, segments_weight, found_of, AreOver, FindsBy};

use crate::MAX_SEGMENTS;
use crate::departing::first_departure;
use crate::finding::{Finding, FindingKind};
use crate::judging::{are_known, last_hop, last_segment, plans_by, walk_weight};
use crate::reading::Trace;
use crate::row::{RowFate, Segment, TraceRow};
use ir_core::Install;
use ir_model::MAX_NODES;
use ir_plan::{Crew, Plan};
use ir_tables::Topology;
use std::alloc::Global;
use std::collections::BTreeSet;

/// Whether a packet that is delivered is at its destination.
fn has_arrived(last: &Segment, fate: RowFate, dest: u16) -> bool
    requires { 0 < length last.now.hops }
    ensures { result ≡ (not (is_delivered fate) || (last_of last.now.hops == dest)) }
{
    !matches!(fate, RowFate::Delivered) || last_hop(last) == dest
}

/// The sum of the weights of segments.
fn weight_of(topology: &Topology, segments: &[Segment]) -> u64
    requires few { length segments.now ≤ MAX_SEGMENTS }
    requires segments { list_all (is_part_over (node_count topology.now)) segments.now ≡ true }
    requires short { list_all (λ part. nat_le (length part.hops) MAX_NODES) segments.now ≡ true }
    ensures { result ≡ segments_weight topology.now segments.now }
{
    let mut sum = 0;
    for segment in segments {
        sum += walk_weight(topology, segment.hops.as_slice()) as u64;
    }
    sum
}

/// What is found of a row alone.
fn found_of(topology: &Topology, plans: &[Plan], row: &TraceRow) -> Option<FindingKind>
    requires over { AreOver (node_count topology.now) plans.now }
    requires row { IsRowOver (node_count topology.now) row.now }
    ensures { result ≡ found_of topology.now plans.now row.now }
{
    topology.invariant();
    let segments = row.segments.as_slice();
    if !are_known(segments, plans.len()) {
        return Some(FindingKind::UnknownEpoch);
    }
    if let Some(_) = first_departure(plans, row) {
        return Some(FindingKind::NotAPrefix);
    }
    let last = last_segment(segments);
    if !has_arrived(last, row.fate, row.dest) {
        return Some(FindingKind::NotAtDestination);
    }
    if weight_of(topology, segments) != row.weight as u64 {
        return Some(FindingKind::BadWeight);
    }
    None
}

/// The first finding of a trace: the first line with one, and in it the first of this list. Where there
/// is none, each segment of each row is a sound record of its epoch.
///
/// - `UnknownEpoch`: no install made the epoch of a segment.
/// - `NotAPrefix`: the segments are not joined end to end from the source on over rising epochs. Or one
///   is not a prefix of the walk that its own epoch's full table prescribes from its first hop. Or the
///   last one's walk does not continue along the link that was down, or to the node whose channel was full.
/// - `NotAtDestination`: a packet is delivered, and its last segment is not the whole walk.
/// - `BadWeight`: the weight is not that of the hops.
/// - `Repeated`: an earlier line has the id.
///
/// The install of epoch e is at place e - 1. The rows of the plans are made by a crew.
/// Condition: the trace was read over the topology's graph; each install has a mark for each link, a
/// root that is a node, and joins all nodes. Takes as long as `judging::plans_by`, O(log k + d) for each
/// hop and O(log r) for each of r rows, for at most k starts and d ports of a node.
pub fn check_trace_by(
    crew: &impl Crew,
    alloc: Global,
    topology: &Topology,
    installs: &[Install],
    trace: &Trace,
) -> Result<(), Finding>
    requires installs { AreInstalls topology.now installs.now }
    requires rows { AreRowsOver (node_count topology.now) trace.now }
    ensures sound { IfOk result (λ _. IsSoundTrace topology.now installs.now trace.now) }
    ensures finding { IfErr result (λ e. Finds topology.now installs.now trace.now e.line e.kind) }
    ensures nothing { IfOk result (λ _. FindsNothing topology.now installs.now trace.now) }
    ensures only { IfErr result (λ e. e.kind ≢ NoMemory
        → IsOnlyFinding topology.now installs.now trace.now e.line e.kind) }
{
    let plans = plans_by(crew, alloc, topology, installs)?;
    check_trace_over(alloc, topology, plans.as_slice(), trace)
}

/// What `check_trace_by` finds, by the plans of the epochs in place of their installs. The plan of
/// epoch e is at place e - 1.
/// Condition: the trace was read over the topology's graph, and the plans are over its nodes. Takes
/// O(log k + d) for each hop and O(log r) for each of r rows, for at most k starts and d ports of a
/// node.
pub fn check_trace_over(
    alloc: Global,
    topology: &Topology,
    plans: &[Plan],
    trace: &Trace,
) -> Result<(), Finding>
    requires plans { AreOver (node_count topology.now) plans.now }
    requires rows { AreRowsOver (node_count topology.now) trace.now }
    ensures fine { IfOk result (λ _. AreFine topology.now plans.now trace.now) }
    ensures finding { IfErr result (λ e. FindsBy topology.now plans.now trace.now e.line e.kind) }
{
    check_rows(alloc, topology, plans, trace.all())
}

/// The first finding of rows, by the plans of the epochs.
fn check_rows(
    alloc: Global,
    topology: &Topology,
    plans: &[Plan],
    rows: &[TraceRow],
) -> Result<(), Finding>
    requires over { AreOver (node_count topology.now) plans.now }
    requires rows { AreRowsOver (node_count topology.now) rows.now }
    ensures fine { IfOk result (λ _. AreFine topology.now plans.now rows.now) }
    ensures finding { IfErr result (λ e. FindsBy topology.now plans.now rows.now e.line e.kind) }
{
    let mut seen = BTreeSet::new(alloc);
    for (i, row) in rows.iter().enumerate() {
        if let Some(kind) = found_of(topology, plans, row) {
            return Err(Finding { line: i + 2, kind });
        }
        if !seen.insert(row.id)? {
            return Err(Finding {
                line: i + 2,
                kind: FindingKind::Repeated,
            });
        }
    }
    Ok(())
}
