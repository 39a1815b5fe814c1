//! Finishing a net.
ghost use Rattle.std.specs.Prelude.{◌≡◌, ◌<◌, ◌+◌, MatchResult, IfOk, length};
ghost use Rattle.ir_model.specs.Topology.{node_count};
ghost use Rattle.ir_control.specs.{Parts.{AreNodesOf, IsInjectorOf}, Places.way_count, Reported.AreAllThere};
ghost use Rattle.ir_control.specs.Reports.{HasReportRoom, IsReport, IsFinishRefusal, IsWholeReport};

use crate::injector::Injector;
use crate::leaving::{empty_rows, left_over};
use crate::net::{Net, Parts};
use crate::outcomes::{empty_slots, place_left, place_rows, told_in_order};
use crate::report::{FinishError, Report, Room, missing};
use ir_worker::Node;
use std::alloc::{AllocError, Global};
use std::sync::Wait;

// All the memory that a report takes: for so many nodes, ways and packets.
fn room_for(alloc: Global, nodes: usize, ways: usize, packets: usize) -> Result<Room, AllocError>
    ensures { IfOk result (λ room. HasReportRoom nodes ways packets room) }
{
    let Some(channels) = nodes.checked_add(ways) else {
        return Err(AllocError);
    };
    Ok(Room {
        rows: empty_rows(alloc, nodes, ways)?,
        channels: Vec::with_capacity(alloc, channels)?,
        slots: empty_slots(alloc, packets)?,
        report: Report {
            records: Vec::with_capacity(alloc, packets)?,
            stamps: Vec::with_capacity(alloc, packets)?,
            later: Vec::with_capacity(alloc, packets)?,
        },
    })
}

// The report, once all nodes are there.
fn reported<R: Wait>(rt: &R, net: &Net, nodes: Vec<Node>, injector: Injector, room: Room) -> Report
    requires nodes { AreNodesOf net.now nodes.items }
    requires all { AreAllThere net.now nodes.items }
    requires injector { IsInjectorOf net.now injector }
    requires room { HasReportRoom (node_count net.now.topology) (way_count net.now.topology)
        (length injector.accepted.items) room }
    ensures { IsReport net.now nodes.items injector result }
{
    let Room {
        rows,
        mut channels,
        mut slots,
        mut report,
    } = room;
    let settled = left_over(net, nodes, injector.into_outs(), rows, &mut channels);
    place_rows(settled, &mut slots);
    place_left(rt, channels, &mut slots);
    told_in_order(slots, &mut report);
    report
}

/// Takes the parts of a net apart and reports what came of each packet that was accepted, by number. What is still in a
/// channel is Left.
///
/// Refused are, in this order: the least node that is not among the parts, and want of memory. All
/// memory is taken before a part is taken apart, and a refusal hands the parts back.
pub fn finish<R: Wait, B: Wait + Drop>(
    rt: &R,
    net: &Net,
    parts: Parts<B>,
) -> Result<Report, (FinishError, Parts<B>)>
    requires nodes { AreNodesOf net.now parts.nodes.items }
    requires injector { IsInjectorOf net.now parts.injector }
    ensures { MatchResult result (IsWholeReport net.now parts.nodes.items parts.injector)
        (λ refused. IsFinishRefusal net.now parts.nodes.items refused.0 × (refused.1 ≡ parts)) }
{
    let count = net.inboxes.len();
    if let Some(node) = missing(&parts.nodes, count) {
        return Err((FinishError::Missing(node), parts));
    }
    let packets = parts.injector.count() as usize;
    let Ok(room) = room_for(net.alloc, count, net.ways.len(), packets) else {
        return Err((FinishError::NoMemory, parts));
    };
    let Parts {
        nodes,
        injector,
        ..
    } = parts;
    Ok(reported(rt, net, nodes, injector, room))
}
