//! Where a row of a trace leaves the walks of its epochs.

use crate::sentence::Pushed;
use crate::texts::RunTexts;
use ir_graph::Graph;
use ir_trace::{Departure, FindingKind, Segment, Trace, read_trace};
use std::alloc::{AllocError, Global};

/// The segments of a row, and the graph whose nodes they name.
#[derive(Clone, Copy)]
struct TracedWalk<'a> {
    graph: &'a Graph,
    segments: &'a [Segment],
}

impl TracedWalk<'_> {
    /// The name of a node.
    fn name(&self, node: u16) -> &str {
        match self.graph.node(usize::from(node)) {
            Some(name) => name,
            None => "",
        }
    }

    /// The epoch of the segment at a place, from 0; 0 where there is none.
    fn epoch(&self, place: usize) -> u32 {
        match self.segments.get(place) {
            Some(segment) => segment.epoch,
            None => 0,
        }
    }

    /// The hops of the segment at a place, from 0; none where there is none.
    fn hops(&self, place: usize) -> &[u16] {
        match self.segments.get(place) {
            Some(segment) => segment.hops.as_slice(),
            None => &[],
        }
    }

    /// The name of a hop of the segment at a place, both from 0; nothing where there is none.
    fn hop(&self, place: usize, hop: usize) -> &str {
        match self.hops(place).get(hop) {
            Some(node) => self.name(*node),
            None => "",
        }
    }
}

/// Says that a hop of a segment is not the node that the plan goes on to.
fn push_stray(
    text: &mut String,
    walk: &TracedWalk<'_>,
    place: usize,
    hop: usize,
    next: Option<u16>,
) -> Pushed {
    let (epoch, number, is) = (
        walk.epoch(place),
        hop.saturating_add(1),
        walk.hop(place, hop),
    );
    let before = walk.hop(place, hop.saturating_sub(1));
    write!(text, "node {number} of the hops in epoch {epoch} is '{is}'")?;
    match next {
        Some(node) => {
            let to = walk.name(node);
            write!(
                text,
                ", but the plan of epoch {epoch} forwards from '{before}' to '{to}'"
            )
        }
        None => write!(text, ": they continue after '{before}', the destination"),
    }
}

/// Says that the plan of the last segment does not go on as the fate says.
fn push_unsaid(text: &mut String, walk: &TracedWalk<'_>, next: Option<u16>) -> Pushed {
    let place = walk.segments.len().saturating_sub(1);
    let end = walk.hop(place, walk.hops(place).len().saturating_sub(1));
    match next {
        Some(node) => {
            let (epoch, to) = (walk.epoch(place), walk.name(node));
            write!(
                text,
                "the plan of epoch {epoch} forwards from '{end}' to '{to}', but the fate says otherwise"
            )
        }
        None => write!(
            text,
            "'{end}' is the destination: no plan forwards from there"
        ),
    }
}

/// Says where segments leave the walks of their epochs.
fn push_found(text: &mut String, walk: &TracedWalk<'_>, found: Departure) -> Pushed {
    match found {
        Departure::Epoch { segment } => {
            let (epoch, before) = (walk.epoch(segment), walk.epoch(segment.saturating_sub(1)));
            write!(
                text,
                "epoch {epoch} comes after epoch {before}: epochs must rise"
            )
        }
        Departure::Start { segment, at } => {
            let (epoch, first, was) = (walk.epoch(segment), walk.hop(segment, 0), walk.name(at));
            write!(
                text,
                "the hops in epoch {epoch} begin at '{first}', but the packet was at '{was}'"
            )
        }
        Departure::Hop { segment, hop, next } => push_stray(text, walk, segment, hop, next),
        Departure::Fate { next } => push_unsaid(text, walk, next),
    }
}

/// The trace that a text is; none where it is not one.
fn trace_of(alloc: Global, graph: &Graph, text: &[u8]) -> Result<Option<Trace>, AllocError> {
    match read_trace(alloc, text, graph) {
        Ok(trace) => Ok(Some(trace)),
        Err(finding) if finding.kind == FindingKind::NoMemory => Err(AllocError),
        Err(_) => Ok(None),
    }
}

/// Says where the row on a line of the trace leaves the walks of its epochs. Returns whether it was
/// said: not where the trace has no such row.
pub fn push_departure(
    text: &mut String,
    run: &RunTexts<'_>,
    line: usize,
    found: Departure,
) -> Result<bool, AllocError> {
    match trace_of(run.alloc, run.graph, run.texts.trace.bytes)? {
        Some(trace) if line >= 2 && line - 2 < trace.rows() => {
            let (graph, segments) = (run.graph, trace.row(line - 2).segments.as_slice());
            push_found(text, &TracedWalk { graph, segments }, found)?;
            Ok(true)
        }
        _ => Ok(false),
    }
}
