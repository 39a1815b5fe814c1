//! Where a row leaves the walks that the plans of its epochs prescribe: which segment and hop is the
//! first to do so, and where the plan of that epoch goes on to. `specs/Leaving` says what it is.
ghost use Rattle.std.specs.{Prelude.{◌≡◌, ◌<◌, true, length, nat_lt, IfNone, IfSome, IfOk}, List.list_all};
ghost use Rattle.ir_model.specs.Topology.{node_count};
ghost use Rattle.ir_trace.specs.Checked.{plan_at, AreJoined, IsFrontOfWalk, IsRowOver, AreInstalls};
ghost use Rattle.ir_trace.specs.Inspect.{is_node, next_of, fits_fate, IsOverPlan, AreOverPlans};
ghost use Rattle.ir_trace.specs.Leaving.{left_by_fate, LeavesAmong, LeavesIn, IsStray, IsDeparture, IsDepartureOf, AreOverRow};

use crate::judging::{
    are_known, fits_fate, is_node, last_hop, last_segment, next_of, plan_at, plans_by,
};
use crate::row::{RowFate, Segment, TraceRow};
use ir_core::Install;
use ir_plan::{Crew, Plan};
use ir_tables::Topology;
use std::alloc::{AllocError, Global};

/// Where a row of a trace leaves what the plans of its epochs prescribe. Segments and hops are counted from 0; nodes
/// are numbers in node order.
#[derive(Clone, Copy, Debug, PartialEq, Eq)]
pub enum Departure {
    /// The epoch of this segment is not above that of the one before.
    Epoch {
        segment: usize,
    },
    /// This segment begins at another node than this one, where the packet was.
    Start {
        segment: usize,
        at: u16,
    },
    /// This hop of a segment is another node than the one that the plan sends on to from the hop before it; there is
    /// none where that hop is the destination.
    Hop {
        segment: usize,
        hop: usize,
        next: Option<u16>,
    },
    /// Each segment follows its walk, and the last one's plan sends on to this node, which is not where the fate says.
    Fate {
        next: Option<u16>,
    },
}

/// The first hop, counted from 0, that is another node than the plan sends on to from the hop before
/// it, and where the plan sends on to. Where there is none, the hops are a front of the walk that the
/// plan prescribes from the first of them.
fn first_stray(plan: &Plan, hops: &[u16], dest: u16) -> Option<(usize, Option<u16>)>
    requires some { 0 < length hops.now }
    requires hops { list_all (λ u. nat_lt u (node_count plan.now.topology)) hops.now ≡ true }
    requires dest { dest < node_count plan.now.topology }
    ensures front { IfNone result (IsFrontOfWalk plan.now dest hops.now) }
    ensures stray { IfSome result (λ s. IsStray plan.now dest hops.now s.0 s.1) }
{
    plan.invariant();
    for i in 1..hops.len() {
        let next = next_of(plan, hops[i - 1], dest);
        if !is_node(next, hops[i]) {
            return Some((i, next));
        }
    }
    None
}

/// Where the segment at a place leaves the walk of its epoch, of a packet that is at a node and whose epoch so far
/// is `above`.
fn left_in(
    plans: &[Plan],
    place: usize,
    segment: &Segment,
    at: u16,
    above: u32,
    dest: u16,
) -> Option<Departure>
    requires { IsOverPlan plans.now dest segment.now }
    ensures { LeavesIn plans.now dest place segment.now at above result }
{
    if segment.epoch <= above {
        return Some(Departure::Epoch { segment: place });
    }
    let hops = segment.hops.as_slice();
    if hops[0] != at {
        return Some(Departure::Start { segment: place, at });
    }
    let (hop, next) = first_stray(plan_at(plans, segment.epoch), hops, dest)?;
    Some(Departure::Hop {
        segment: place,
        hop,
        next,
    })
}

/// Where segments leave the walks of their epochs first, of a packet from this source. Where there is no such place,
/// they are joined end to end over rising epochs, and each follows the walk of its own.
fn first_left(plans: &[Plan], segments: &[Segment], source: u16, dest: u16) -> Option<Departure>
    requires { AreOverPlans plans.now dest segments.now }
    ensures joined { IfNone result (AreJoined plans.now dest source 0 segments.now) }
    ensures left { IfSome result (LeavesAmong plans.now dest source segments.now) }
{
    let mut at = source;
    let mut above = 0;
    for (k, segment) in segments.iter().enumerate() {
        if let Some(left) = left_in(plans, k, segment, at, above, dest) {
            return Some(left);
        }
        at = last_hop(segment);
        above = segment.epoch;
    }
    None
}

/// Where the walk of the last segment does not go on as a fate says, where it goes on.
fn left_by_fate(plans: &[Plan], last: &Segment, fate: RowFate, dest: u16) -> Option<Departure>
    requires { IsOverPlan plans.now dest last.now }
    ensures { result ≡ left_by_fate (plan_at plans.now last.now.epoch) dest last.now.hops fate }
{
    let at = last_hop(last);
    let next = next_of(plan_at(plans, last.epoch), at, dest);
    if fits_fate(fate, at, next) {
        None
    } else {
        Some(Departure::Fate { next })
    }
}

/// Where a row leaves the walks of its epochs first, by the plans of the epochs; none where it follows
/// them, or where an epoch of it has no plan. The plan of epoch e is at place e - 1.
/// Condition: the row and the plans are over the nodes of one network.
pub fn first_departure(plans: &[Plan], row: &TraceRow) -> Option<Departure>
    requires { AreOverRow plans.now row.now }
    ensures { IsDeparture plans.now row.now result }
{
    let segments = row.segments.as_slice();
    if !are_known(segments, plans.len()) {
        return None;
    }
    if let Some(left) = first_left(plans, segments, row.source, row.dest) {
        return Some(left);
    }
    left_by_fate(plans, last_segment(segments), row.fate, row.dest)
}

/// Where a row leaves the walks of its epochs first; none where it follows them, or where an epoch of it is not one of
/// the installs. The install of epoch e is at place e - 1. The rows of the epochs' plans are made by a crew.
/// Condition: the row was read over the topology's graph; each install has a mark for each link, a root that is a
/// node, and joins all nodes. Refused for memory alone.
pub fn departure_by(
    crew: &impl Crew,
    alloc: Global,
    topology: &Topology,
    installs: &[Install],
    row: &TraceRow,
) -> Result<Option<Departure>, AllocError>
    requires installs { AreInstalls topology.now installs.now }
    requires row { IsRowOver (node_count topology.now) row.now }
    ensures { IfOk result (IsDepartureOf topology.now installs.now row.now) }
{
    let plans = plans_by(crew, alloc, topology, installs)?;
    Ok(first_departure(plans.as_slice(), row))
}
