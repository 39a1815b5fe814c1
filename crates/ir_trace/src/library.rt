//! Calls for users of the library: where traces go out, checks on the thread that calls, and numbers.
ghost use Rattle.std.specs.Prelude.{◌≡◌, ◌≢◌, false, IfOk, IfErr};
ghost use Rattle.ir_model.specs.{Graph.names, Topology.node_count, OfGraph.topology_of_graph};
ghost use Rattle.ir_trace.specs.Written.{records_text, segments_text, AreWritable, HaveSegments};
ghost use Rattle.ir_trace.specs.{Outlet.{IsWritten, Outlet}, Codes.{error_code, finding_code}, Sound.IsSoundTrace};
ghost use Rattle.ir_trace.specs.{Checked.{AreRowsOver, AreInstalls, Finds}, Judged.{FindsNothing, IsOnlyFinding}};
ghost use Rattle.ir_trace.specs.declared.finding.FindingKind.TheVariants.{NoMemory};
ghost use Rattle.ir_trace.specs.declared.library.TraceError.TheVariants as writing;

use crate::checking::check_trace_by;
use crate::finding::Finding;
use crate::reading::Trace;
use crate::writing::{trace_text, trace_text_2};
use ir_core::{Install, Record};
use ir_graph::Graph;
use ir_plan::Alone;
use ir_streams::{Writer, write_text};
use ir_tables::Topology;
use std::alloc::{AllocError, Global};
use std::fmt;
use std::marker::Model;
use thiserror::Error;

/// Why a trace was not written.
#[derive(Clone, Copy, Debug, PartialEq, Eq, Error)]
pub enum TraceError {
    /// The writer gave an error, also as it was flushed, or took none of the bytes left.
    Unwritable = 1,
    /// A growth was refused.
    NoMemory = 2,
}

impl TraceError {
    /// The number of the error: 1 or 2.
    pub fn code(self) -> u8
        ensures { result ≡ error_code self }
    {
        self as u8
    }
}

impl fmt::Display for TraceError {
    fn fmt<W: fmt::Write>(&self, f: &mut fmt::Formatter<W>) -> fmt::Result {
        write!(f, "{:?}", self)
    }
}

impl From<AllocError> for TraceError {
    ghost from_gives = { λ _ e. e ≡ writing.NoMemory };

    fn from(_error: AllocError) -> TraceError {
        TraceError::NoMemory
    }
}

/// A writer that traces go out to. It is seen as the writer, and whether it has failed.
#[derive(Drop)]
pub struct Outlet<W> {
    writer: W,
    failed: bool,
}

impl<W> Model for Outlet<W> {
    ghost Value = { Outlet W };

    ghost view = { λ o. record { writer = o.writer; failed = o.failed } };
}

impl<W: Writer> Outlet<W> {
    /// An outlet over a writer. It has not failed.
    pub fn new(writer: W) -> Outlet<W>
        ensures { result ≡ record { writer = writer; failed = false } }
    {
        Outlet {
            writer,
            failed: false,
        }
    }

    /// Whether the writer gave an error, also as it was flushed, or took none of the bytes left.
    ///
    pub fn failed(&self) -> bool
        ensures { result ≡ self.now.failed }
    {
        self.failed
    }

    /// The writer.
    pub fn into_inner(self) -> W
        ensures { result ≡ self.writer }
    {
        self.writer
    }

    /// Writes all of a text. `Unwritable` where the writer failed: a front of the text went out then, and the outlet
    /// has failed.
    pub(crate) fn write_text(&mut self, text: &[u8]) -> Result<(), TraceError>
        ensures { IsWritten W.contents W.wrote W.settled self.old text.now result self.new }
    {
        let sent = write_text(&mut self.writer, text);
        self.failed = !sent;
        if sent {
            Ok(())
        } else {
            Err(TraceError::Unwritable)
        }
    }
}

impl Finding {
    /// The number of the kind, from 1 for `NotTrace` to 9 for `NoMemory`.
    pub fn code(self) -> u8
        ensures { result ≡ finding_code self.kind }
    {
        self.kind as u8
    }
}

/// What `check_trace_by` finds, the plans made on the thread that calls: nothing is started.
pub fn check_trace(
    alloc: Global,
    topology: &Topology,
    installs: &[Install],
    trace: &Trace,
) -> Result<(), Finding>
    requires installs { AreInstalls topology.now installs.now }
    requires rows { AreRowsOver (node_count topology.now) trace.now }
    ensures sound { IfOk result (λ _. IsSoundTrace topology.now installs.now trace.now) }
    ensures finding { IfErr result (λ e. Finds topology.now installs.now trace.now e.line e.kind) }
    ensures nothing { IfOk result (λ _. FindsNothing topology.now installs.now trace.now) }
    ensures only { IfErr result (λ e. e.kind ≢ NoMemory
        → IsOnlyFinding topology.now installs.now trace.now e.line e.kind) }
{
    check_trace_by(&Alone, alloc, topology, installs, trace)
}

/// Writes the trace of records over their graph, as `trace_text` has it. `Unwritable` where the writer
/// gives an error, also as it is flushed, or takes none of the bytes left: a front of the text went out
/// then, and the outlet has failed. After `NoMemory` the outlet is as it was. Condition: the outlet has
/// not failed; and that of `trace_text`. Takes as long as `trace_text`.
pub fn write_trace<W: Writer>(
    alloc: Global,
    graph: &Graph,
    records: &[Record],
    outlet: &mut Outlet<W>,
) -> Result<(), TraceError>
    requires open { outlet.old.failed ≡ false }
    requires records { AreWritable (topology_of_graph graph.now) records.now }
    ensures { IsWritten W.contents W.wrote W.settled outlet.old
        (records_text (names graph.now) (topology_of_graph graph.now) records.now) result outlet.new }
{
    let topology = Topology::of(alloc, graph)?;
    let text = trace_text(alloc, graph, &topology, records)?;
    outlet.write_text(text.as_bytes())
}

/// Writes the trace of records over their graph in the second version, as `trace_text_2` has it.
/// Refused as `write_trace` is. Condition: the outlet has not failed; and that of `trace_text_2`. Takes
/// as long as `trace_text_2`.
pub fn write_trace_2<W: Writer>(
    alloc: Global,
    graph: &Graph,
    records: &[Record],
    outlet: &mut Outlet<W>,
) -> Result<(), TraceError>
    requires open { outlet.old.failed ≡ false }
    requires records { HaveSegments (topology_of_graph graph.now) records.now }
    ensures { IsWritten W.contents W.wrote W.settled outlet.old
        (segments_text (names graph.now) (topology_of_graph graph.now) records.now) result outlet.new }
{
    let topology = Topology::of(alloc, graph)?;
    let text = trace_text_2(alloc, graph, &topology, records)?;
    outlet.write_text(text.as_bytes())
}
