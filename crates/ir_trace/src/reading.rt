//! Traces as they are read.
ghost use Rattle.std.specs.Prelude.{◌≡◌, ◌<◌, ◌++◌, List, Some, MatchOption, IfOk, IfErr, length, slice_get};
ghost use Rattle.ir_model.specs.{OfGraph.topology_of_graph, Topology.node_count};
ghost use Rattle.ir_trace.specs.{Rows.header, Reading.{IsNoTrace, IsTrace, TellsFinding}, Checked.AreRowsOver};
ghost use Rattle.ir_trace.specs.Again.{row_again, IsTraceOf, segments_again, AreSegmentsOf, IsReadAsRows};
ghost use Rattle.ir_trace.specs.{Line.{HasNoFeed, CutsLine, IsLineOf, LineTold}, Row.TraceRow};

use crate::finding::{Finding, FindingKind};
use crate::resolve::resolve;
use crate::row::{TraceRow, Version};
use crate::words::{line_words, spelled};
use ir_adjlist::scan::find_byte;
use ir_graph::Graph;
use std::alloc::Global;
use std::marker::Model;

/// A trace. It is seen as its rows in order.
#[derive(Drop)]
pub struct Trace {
    rows: Vec<TraceRow>,
}

impl Model for Trace {
    ghost Value = { List TraceRow };

    ghost view = { λ t. t.rows.items };
}

impl Trace {
    /// How many rows there are.
    pub fn rows(&self) -> usize
        ensures { result ≡ length self.now }
    {
        self.rows.len()
    }

    /// The rows in order.
    pub(crate) fn all(&self) -> &[TraceRow]
        ensures { result.now ≡ self.now }
    {
        self.rows.as_slice()
    }

    /// The row at a place, counted from 0. Condition: the place is below `rows()`.
    pub fn row(&self, place: usize) -> &TraceRow
        requires { place < length self.now }
        ensures { slice_get self.now place ≡ Some result.now }
    {
        &self.rows[place]
    }
}

/// The line at the front, and what follows its line feed. There is none where there is no line feed.
fn cut_line(text: &[u8]) -> Option<(&[u8], &[u8])>
    ensures { MatchOption result (HasNoFeed text.now) (λ p. CutsLine text.now p.0.now p.1.now) }
{
    let end = find_byte(text, b'\n')?;
    Some((&text[..end], &text[end + 1..]))
}

/// The row that a line says, without its line feed. The number of the line is for the finding.
fn read_row(
    alloc: Global,
    graph: &Graph,
    version: Version,
    line: &[u8],
    number: usize,
) -> Result<TraceRow, Finding>
    ensures read { IfOk result (λ row. IsLineOf version graph.now line.now row) }
    ensures fault { IfErr result (λ e. LineTold version graph.now line.now number e.line e.kind) }
{
    let kind = FindingKind::BadRow;
    let Some(words) = line_words(alloc, line)? else {
        return Err(Finding { line: number, kind });
    };
    let Some(spelling) = spelled(alloc, version, &words)? else {
        return Err(Finding { line: number, kind });
    };
    match resolve(alloc, graph, &spelling)? {
        Some(row) => Ok(row),
        None => Err(Finding {
            line: number,
            kind: FindingKind::UnknownNode,
        }),
    }
}

/// The version that the first line of a text names, and what follows that line.
fn version_of(text: &[u8]) -> Option<(Version, &[u8])>
    ensures { MatchOption result (IsNoTrace text.now) (λ p. text.now ≡ header p.0 ++ p.1.now) }
{
    if let Some(rest) = text.strip_prefix(b"trace 1\n".as_slice()) {
        return Some((Version::One, rest));
    }
    let rest = text.strip_prefix(b"trace 2\n".as_slice())?;
    Some((Version::Two, rest))
}

/// The trace that a text is over a graph, or its first fault.
fn read_rows(alloc: Global, text: &[u8], graph: &Graph) -> Result<Trace, Finding>
    ensures read { IfOk result (λ trace. IsTrace graph.now text.now trace) }
    ensures fault { IfErr result (λ e. TellsFinding graph.now text.now e.line e.kind) }
{
    let Some((version, mut rest)) = version_of(text) else {
        return Err(Finding {
            line: 1,
            kind: FindingKind::NotTrace,
        });
    };
    let mut rows = Vec::new(alloc);
    let mut line = 1;
    while !rest.is_empty() {
        line += 1;
        let Some((current, after)) = cut_line(rest) else {
            return Err(Finding {
                line,
                kind: FindingKind::BadRow,
            });
        };
        rows.push(read_row(alloc, graph, version, current, line)?)?;
        rest = after;
    }
    Ok(Trace { rows })
}

/// The trace of either version that a text is over a graph, or its first fault: `NotTrace` in line 1;
/// in a later line `BadRow`, or else `UnknownNode`; or `NoMemory`. Rows may be in any order, and an
/// id may be any number that a row may hold. The trace of records that can be written is read again as
/// their rows. Takes O(b) on average, for a text of b bytes.
pub fn read_trace(alloc: Global, text: &[u8], graph: &Graph) -> Result<Trace, Finding>
    ensures read { IfOk result (λ trace. IsTrace graph.now text.now trace) }
    ensures fault { IfErr result (λ e. TellsFinding graph.now text.now e.line e.kind) }

    // The nodes are those of the graph's topology, as `check_trace` asks.
    ensures within { IfOk result (λ trace. AreRowsOver (node_count (topology_of_graph graph.now)) trace) }

    // What is written is read again: no fault but want of memory, and the rows of the records.
    ensures again { IsReadAsRows (IsTraceOf graph.now text.now) (row_again (topology_of_graph graph.now)) result }
    ensures segments_again { IsReadAsRows (AreSegmentsOf graph.now text.now)
        (segments_again (topology_of_graph graph.now)) result }
{
    graph.invariant();
    read_rows(alloc, text, graph)
}
