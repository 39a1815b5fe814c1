//! What rows are judged by: the plans of epochs, and segments beside them.
ghost use Rattle.std.specs.{Prelude.{◌≡◌, ◌<◌, ◌≤◌, ◌*◌, true, IfOk, length, nat_lt}, List.list_all};
ghost use Rattle.ir_model.specs.{Topology.{node_count, restrict}, Walk.{link_weight, walk_weight}};
ghost use Rattle.ir_core.specs.Sound.{last_of};
ghost use Rattle.ir_plan.specs.Building.{IsPlanBy};
ghost use Rattle.ir_core.specs.{Drafts.items_of, Installed.labelled_by};
ghost use Rattle.ir_trace.specs.Checked.{plan_at, last_part, IsInstall, AreInstalls, ArePlansOf};
ghost use Rattle.ir_trace.specs.Inspect.{is_node, next_of, are_known, fits_fate};

use crate::row::{RowFate, Segment};
use ir_core::{Draft, Install, plan_over_by};
use ir_model::{MAX_NODES, MAX_WEIGHT};
use ir_plan::{Crew, Plan, PlanError};
use ir_tables::Topology;
use std::alloc::{AllocError, Global};

/// The plans of epochs, over the links that were up at their installs, their rows made by a crew. Refused for memory
/// alone. Takes as long as the plans.
pub fn plans_by(
    crew: &impl Crew,
    alloc: Global,
    topology: &Topology,
    installs: &[Install],
) -> Result<Vec<Plan>, AllocError>
    requires { AreInstalls topology.now installs.now }
    ensures { IfOk result (λ plans. ArePlansOf topology.now installs.now plans.items) }
{
    let mut plans = Vec::with_capacity(alloc, installs.len())?;
    for install in installs {
        plans.push(plan_by(crew, alloc, topology, install)?)?;
    }
    Ok(plans)
}

/// The plan of an epoch, over the links that were up at its install.
fn plan_by(
    crew: &impl Crew,
    alloc: Global,
    topology: &Topology,
    install: &Install,
) -> Result<Plan, AllocError>
    requires { IsInstall topology.now install.now }
    ensures { IfOk result (IsPlanBy (restrict install.now.up.items topology.now) install.now.kind
        (labelled_by install.now)) }
{
    let kept = topology.only(alloc, install.up.as_slice())?;
    let kept_order = order_again(alloc, &install.kept)?;
    let draft = Draft {
        labels: install.labels,
        kind: install.kind,
        root: install.root,
        kept: kept_order,
    };
    match plan_over_by(crew, alloc, kept, draft) {
        Ok(plan) => Ok(plan),
        Err(error) => {
            if error != PlanError::NoMemory {
                unreachable!()
            }
            Err(AllocError)
        }
    }
}

/// The nodes by label that an install kept, once more.
fn order_again(alloc: Global, kept: &Option<Vec<u16>>) -> Result<Option<Vec<u16>>, AllocError>
    ensures { IfOk result (λ copy. items_of copy ≡ items_of kept.now) }
{
    match kept {
        None => Ok(None),
        Some(nodes) => {
            let mut copy = Vec::with_capacity(alloc, nodes.len())?;
            copy.extend_from_slice(nodes.as_slice())?;
            Ok(Some(copy))
        }
    }
}

/// The plan of an epoch, counted from 1.
pub fn plan_at(plans: &[Plan], epoch: u32) -> &Plan
    requires above { 0 < epoch }
    requires within { epoch ≤ length plans.now }
    ensures { result.now ≡ plan_at plans.now epoch }
{
    &plans[epoch as usize - 1]
}

/// The node that a plan sends on to from a node; none at the destination. Takes O(log k), for k starts of the row.
pub fn next_of(plan: &Plan, at: u16, dest: u16) -> Option<u16>
    requires at { at < node_count plan.now.topology }
    requires dest { dest < node_count plan.now.topology }
    ensures { result ≡ next_of plan.now at dest }
{
    plan.invariant();
    let port = plan.port(at, plan.label_of(dest))?;
    Some(plan.hop(at, port).node)
}

/// Whether the epoch of each segment is one of so many.
pub fn are_known(segments: &[Segment], epochs: usize) -> bool
    ensures { result ≡ are_known epochs segments.now }
{
    segments.iter().all(|segment| 0 < segment.epoch && segment.epoch as usize <= epochs)
}

/// The last hop of a segment.
pub fn last_hop(segment: &Segment) -> u16
    requires { 0 < length segment.now.hops }
    ensures { result ≡ last_of segment.now.hops }
{
    let hops = segment.hops.as_slice();
    hops[hops.len() - 1]
}

/// The segment that a packet is on, or ended in.
pub fn last_segment(segments: &[Segment]) -> &Segment
    requires { 0 < length segments.now }
    ensures { result.now ≡ last_part segments.now }
{
    &segments[segments.len() - 1]
}

/// The weight of the link between two nodes, 0 where they are not linked.
fn link_weight(topology: &Topology, u: u16, v: u16) -> u32
    requires { u < node_count topology.now }
    ensures weight { result ≡ link_weight topology.now u v }
    ensures bounded { result ≤ MAX_WEIGHT }
{
    match topology.hop_to(u, v) {
        Some(hop) => hop.weight,
        None => 0,
    }
}

/// The sum of the weights of the links between neighbours in a list of nodes.
pub(crate) fn walk_weight(topology: &Topology, hops: &[u16]) -> u32
    requires within { list_all (λ x. nat_lt x (node_count topology.now)) hops.now ≡ true }
    requires few { length hops.now ≤ MAX_NODES }
    ensures weight { result ≡ walk_weight topology.now hops.now }
    ensures light { result ≤ MAX_WEIGHT * MAX_NODES }
{
    let mut sum = 0;
    for i in 1..hops.len() {
        sum += link_weight(topology, hops[i - 1], hops[i]);
    }
    sum
}

/// Whether there is a next node, and it is this one.
pub fn is_node(next: Option<u16>, node: u16) -> bool
    ensures { result ≡ is_node next node }
{
    match next {
        Some(next) => next == node,
        None => false,
    }
}

/// Whether where a packet is and where it is to go on to fit a fate.
pub fn fits_fate(fate: RowFate, at: u16, next: Option<u16>) -> bool
    ensures { result ≡ fits_fate fate at next }
{
    match fate {
        RowFate::Delivered | RowFate::Retired | RowFate::Left => true,
        RowFate::Down { low, high } => {
            (at == low && is_node(next, high)) || (at == high && is_node(next, low))
        }
        RowFate::Full { from, to } => at == from && is_node(next, to),
    }
}
