//! Traces checked for what no run of a script can have had.
ghost use Rattle.std.specs.Prelude.{◌≡◌, ◌⊎◌, ◌+◌, IfOk, IfErr};
ghost use Rattle.ir_model.specs.Topology.{node_count};
ghost use Rattle.ir_trace.specs.Checked.{AreRowsOver};
ghost use Rattle.ir_whole.specs.Causes.{HasHops};
ghost use Rattle.ir_whole.specs.Judged.{ends_wanted, stamp_wanted};
ghost use Rattle.ir_whole.specs.Whole.{run_of, HaveOwnIds, AreWhole, FindsWhole};

use crate::causes::cause_of;
use crate::finding::{WholeFinding, WholeKind};
use crate::injecting::{Wanted, found_of, injects_of};
use ir_core::Step;
use ir_tables::Topology;
use ir_trace::{Trace, TraceRow};
use std::alloc::Global;

/// What a row wants of its packet's inject but for its epoch.
fn ends_wanted(row: &TraceRow) -> Wanted
    ensures { result ≡ ends_wanted row.now }
{
    Wanted {
        source: row.source,
        dest: row.dest,
        epoch: 0,
    }
}

/// What a row wants of its packet's inject.
fn stamp_wanted(row: &TraceRow) -> Wanted
    requires { HasHops row.now }
    ensures { result ≡ stamp_wanted row.now }
{
    Wanted {
        source: row.source,
        dest: row.dest,
        epoch: row.segments[0].epoch,
    }
}

/// What is found of the row at a place; want of memory for a place that no list has.
fn finding_at(place: usize, kind: WholeKind) -> WholeFinding
    ensures { ((result.line ≡ place + 2) × (result.kind ≡ kind))
        ⊎ ((result.line ≡ 0) × (result.kind ≡ WholeKind.NoMemory)) }
{
    match place.checked_add(2) {
        Some(line) => WholeFinding { line, kind },
        None => WholeFinding {
            line: 0,
            kind: WholeKind::NoMemory,
        },
    }
}

/// The first row of a trace that no run of a script can have had: the first line with a finding, and in
/// it the first of this list. Of the lines that a run refused nothing is known: each install line may
/// have made an epoch, and each line that takes a link down or retires epochs may have done so.
///
/// - `NeverInjected`: no choice of the script's injects, of at most so many packets, gives it and each
///   row before it the number of its packet.
/// - `NotYetInstalled`: no such choice also has each row's first epoch among those that install lines
///   above its inject can have made.
/// - `NeverDown`: it was dropped at a link that no line takes down.
/// - `NeverRetired`: it was dropped as retired, and no line retires its last epoch.
/// - `NeverFull`: it was dropped at a full channel. Fewer rows than the capacity went over that channel,
///   or ended before it and were not delivered.
///
/// Condition: the trace was read over the topology, and each row has an id of its own, as
/// `ir_trace::check_trace` finds. The capacity and the most packets are those of the run. Takes
/// O(r (s + h)) for r rows of h hops in all and s steps.
pub fn check_whole(
    alloc: Global,
    topology: &Topology,
    steps: &[Step],
    capacity: usize,
    packets: usize,
    trace: &Trace,
) -> Result<(), WholeFinding>
    requires rows { AreRowsOver (node_count topology.now) trace.now }
    requires ids { HaveOwnIds trace.now }
    ensures whole { IfOk result (λ _. AreWhole (run_of topology.now steps.now capacity packets) trace.now) }
    ensures finding { IfErr result (λ e. FindsWhole (run_of topology.now steps.now capacity packets) trace.now
        e.line e.kind) }
{
    let injects = injects_of(alloc, steps)?;
    let mut ends = vec![in alloc; None; packets]?;
    let mut stamps = vec![in alloc; None; packets]?;
    let mut used = 0;
    for place in 0..trace.rows() {
        let row = trace.row(place);
        let id = row.id as usize;
        if packets <= id {
            return Err(finding_at(place, WholeKind::NeverInjected));
        }
        used = used.max(id + 1);
        ends[id] = Some(ends_wanted(row));
        stamps[id] = Some(stamp_wanted(row));
        let cause = cause_of(topology, steps, capacity, trace, row);
        let found = found_of(
            ends.as_slice(),
            stamps.as_slice(),
            used,
            injects.as_slice(),
            cause,
        );
        if let Some(kind) = found {
            return Err(finding_at(place, kind));
        }
    }
    Ok(())
}
