//! The causes of drops.
ghost use Rattle.std.specs.{Prelude.{◌≡◌}, List.list_any};
ghost use Rattle.ir_whole.specs.Causes.{HasHops, HaveHops};
ghost use Rattle.ir_whole.specs.Judged.{is_between, takes_down, retires_above, end_epoch, none_if, cause_of};

use crate::finding::WholeKind;
use crate::passing::passing;
use ir_core::{Event, Step};
use ir_tables::Topology;
use ir_trace::judging::last_segment;
use ir_trace::{RowFate, Trace, TraceRow};

/// Whether a link has these ends, the smaller first.
fn is_between(topology: &Topology, link: u32, low: u16, high: u16) -> bool
    ensures { result ≡ is_between topology.now link low high }
{
    if topology.links() <= link as usize {
        return false;
    }
    topology.ends(link) == (low, high)
}

/// Whether a step takes down the link between two nodes, the smaller first.
fn takes_down(topology: &Topology, step: Step, low: u16, high: u16) -> bool
    ensures { result ≡ takes_down topology.now low high step }
{
    match step {
        Step::Event(Event::Down(link)) => is_between(topology, link, low, high),
        _ => false,
    }
}

/// Whether some step takes down the link between two nodes, the smaller first.
fn is_taken_down(topology: &Topology, steps: &[Step], low: u16, high: u16) -> bool
    ensures { result ≡ list_any (takes_down topology.now low high) steps.now }
{
    steps
        .iter()
        .any(|step| takes_down(topology, *step, low, high))
}

/// Whether a step retires an epoch.
fn retires_above(step: Step, epoch: u32) -> bool
    ensures { result ≡ retires_above epoch step }
{
    match step {
        Step::Event(Event::Retire(floor)) => epoch < floor,
        _ => false,
    }
}

/// Whether some step retires an epoch.
fn is_retired(steps: &[Step], epoch: u32) -> bool
    ensures { result ≡ list_any (retires_above epoch) steps.now }
{
    steps.iter().any(|step| retires_above(*step, epoch))
}

/// The epoch of a row's last segment.
fn end_epoch(row: &TraceRow) -> u32
    requires { HasHops row.now }
    ensures { result ≡ end_epoch row.now }
{
    last_segment(row.segments.as_slice()).epoch
}

/// What is said of a cause, where there may be none.
fn none_if(has_cause: bool, kind: WholeKind) -> Option<WholeKind>
    ensures { result ≡ none_if has_cause kind }
{
    if has_cause { None } else { Some(kind) }
}

/// Of which cause there is none, for a row's drop.
pub fn cause_of(
    topology: &Topology,
    steps: &[Step],
    capacity: usize,
    trace: &Trace,
    row: &TraceRow,
) -> Option<WholeKind>
    requires row { HasHops row.now }
    requires rows { HaveHops trace.now }
    ensures { result ≡ cause_of topology.now steps.now capacity trace.now row.now }
{
    match row.fate {
        RowFate::Delivered | RowFate::Left => None,
        RowFate::Retired => none_if(is_retired(steps, end_epoch(row)), WholeKind::NeverRetired),
        RowFate::Down { low, high } => none_if(
            is_taken_down(topology, steps, low, high),
            WholeKind::NeverDown,
        ),
        RowFate::Full { from, to } => none_if(
            capacity <= passing(trace, from, to),
            WholeKind::NeverFull,
        ),
    }
}
