//! Traces as they are read, over the path a, b, c, and as they are written; and errors.

ghost use Rattle.std.specs.Prelude.{◌≡◌, false};

use crate::networks::{PATH, graph_of};
use ir_core::Record;
use ir_graph::Graph;
use ir_script::{ScriptError, ScriptFault};
use ir_tables::Topology;
use ir_trace::{
    Finding, FindingKind, Outlet, RowFate, Trace, TraceError, TraceRow, read_trace, write_trace,
};
use std::alloc::Global;
use std::io::Write;

/// What a text is read as over the path from a to b to c.
fn read(alloc: Global, text: &str) -> Option<Trace> {
    match graph_of(alloc, &PATH) {
        Some(graph) => read_trace(alloc, text.as_bytes(), &graph).ok(),
        None => None,
    }
}

/// Whether this is the row of packet 7, which went from a to b in epoch 2.
fn is_first(row: &TraceRow) -> bool {
    let is_way = match row.segments.as_slice() {
        [segment] => segment.epoch == 2 && segment.hops.as_slice() == [0, 1].as_slice(),
        _ => false,
    };
    is_way
        && (row.id, row.weight, row.source, row.dest) == (7, 1, 0, 2)
        && row.fate == RowFate::Down { low: 1, high: 2 }
}

/// Whether these are the two rows.
fn are_rows(trace: &Trace) -> bool {
    trace.rows() == 2
        && is_first(trace.row(0))
        && trace.row(1).fate == RowFate::Full { from: 2, to: 1 }
}

#[test]
fn rows_are_read(rt: HostRuntime) {
    let text = "trace 1\n7 2 a c 1 down b c a b\n0 1 c a 0 full c b c\n";
    let are_rows = match read(rt.alloc(), text) {
        Some(trace) => are_rows(&trace),
        None => false,
    };
    assert!(rt; are_rows);
}

/// Writes the trace of one packet that is at its source, the first node.
fn write_lone<W: Write>(
    alloc: Global,
    graph: &Graph,
    outlet: &mut Outlet<W>,
) -> Result<(), TraceError>
    requires { outlet.old.failed ≡ false }
{
    let topology = Topology::of(alloc, graph)?;
    if topology.nodes() == 0 {
        return Ok(());
    }
    let Ok(record) = Record::start(alloc, 0, 1, 0, 0, 1) else {
        return Err(TraceError::NoMemory);
    };
    write_trace(alloc, graph, &[record], outlet)
}

/// The graph of node a alone.
fn lone(alloc: Global) -> Option<Graph> {
    let mut graph = Graph::new(alloc);
    graph.add_node("a").ok()?;
    Some(graph)
}

/// Whether a trace is written to a writer that takes all.
fn is_written(alloc: Global) -> Option<bool> {
    let graph = lone(alloc)?;
    let text: Vec<u8> = Vec::new(alloc);
    let mut outlet = Outlet::new(text);
    let is_fresh = !outlet.failed();
    let answer = write_lone(alloc, &graph, &mut outlet);
    let is_well = is_fresh && answer == Ok(()) && !outlet.failed();
    let text = outlet.into_inner();
    Some(is_well && text.as_slice() == b"trace 1\n0 1 a a 0 left a\n".as_slice())
}

/// Whether a trace is refused by a writer without room.
fn is_unwritten(alloc: Global) -> Option<bool> {
    let graph = lone(alloc)?;
    let mut room = [0; 10];
    let mut outlet = Outlet::new(room.as_mut_slice());
    let answer = write_lone(alloc, &graph, &mut outlet);
    Some(answer == Err(TraceError::Unwritable) && outlet.failed())
}

#[test]
fn a_trace_is_written_where_there_is_room(rt: HostRuntime) {
    let room = is_written(rt.alloc());
    let none = is_unwritten(rt.alloc());
    assert!(rt; (room, none) == (Some(true), Some(true)));
}

/// A finding, a script's fault and a failed writer, as texts.
fn told(alloc: Global, finding: Finding, refused: ScriptError) -> Option<String> {
    let unwritable = TraceError::Unwritable;
    format!(in alloc; "{finding}; {refused}; {unwritable}").ok()
}

#[test]
fn errors_as_texts_and_numbers(rt: HostRuntime) {
    let finding = Finding {
        line: 3,
        kind: FindingKind::UnknownNode,
    };
    let refused = ScriptError {
        line: 1,
        kind: ScriptFault::UnknownLink,
    };
    let codes = (
        finding.code(),
        refused.code(),
        TraceError::Unwritable.code(),
    );
    assert!(rt; codes == (3, 5, 1));
    let wanted = "line 3: UnknownNode; line 1: UnknownLink; Unwritable";
    let is_told = match told(rt.alloc(), finding, refused) {
        Some(text) => text.as_str() == wanted,
        None => false,
    };
    assert!(rt; is_told);
}
