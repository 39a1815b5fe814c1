//! The nodes and links that the names of a row stand for.
ghost use Rattle.std.specs.Prelude.{MatchOption, IfOk, map};
ghost use Rattle.ir_trace.specs.Reading.{AreLinkedAs, FateIsReadAs, PartsAreReadAs, IsReadAs};
ghost use Rattle.ir_trace.specs.Spelled.{texts, fate_held, part_held, text_held, AreNotLinked, IsNoFateOf, AreNoHops, AreHops, AreNoPartsOf, IsNoRowOf};

use crate::row::{RowFate, Segment, TraceRow};
use crate::words::{FateSpelling, SegmentSpelling, Spelling};
use ir_graph::Graph;
use std::alloc::{AllocError, Global};

/// The numbers of two nodes that are linked.
fn ends_of(graph: &Graph, x: &str, y: &str) -> Option<(u16, u16)>
    ensures { MatchOption result (AreNotLinked graph.now x.now y.now)
        (λ ends. AreLinkedAs graph.now x.now y.now ends.0 ends.1) }
{
    let u = graph.index_of(x)?;
    let v = graph.index_of(y)?;
    if u == v || !graph.has_edge(x, y) {
        return None;
    }
    Some((u, v))
}

/// The fate with numbers for names.
fn fate_of(graph: &Graph, fate: FateSpelling) -> Option<RowFate>
    ensures { MatchOption result (IsNoFateOf graph.now (fate_held fate.entry))
        (λ read. FateIsReadAs graph.now (fate_held fate.entry) read) }
{
    match fate {
        FateSpelling::Delivered => Some(RowFate::Delivered),
        FateSpelling::Retired => Some(RowFate::Retired),
        FateSpelling::Left => Some(RowFate::Left),
        FateSpelling::Down(x, y) => {
            let (low, high) = ends_of(graph, x, y)?;
            (low < high).then_some(RowFate::Down { low, high })
        }
        FateSpelling::Full(x, y) => {
            let (from, to) = ends_of(graph, x, y)?;
            Some(RowFate::Full { from, to })
        }
    }
}

/// The numbers of the nodes with these names.
fn hops_of(alloc: Global, graph: &Graph, words: &[&str]) -> Result<Option<Vec<u16>>, AllocError>
    ensures { IfOk result (λ found. MatchOption found (AreNoHops graph.now (texts words.now))
        (λ hops. AreHops graph.now (texts words.now) hops.items)) }
{
    let mut hops = Vec::with_capacity(alloc, words.len())?;
    for word in words {
        match graph.index_of(word) {
            Some(place) => hops.push(place)?,
            None => return Ok(None),
        }
    }
    Ok(Some(hops))
}

/// The segments with numbers for names.
fn segments_of(
    alloc: Global,
    graph: &Graph,
    spellings: &[SegmentSpelling],
) -> Result<Option<Vec<Segment>>, AllocError>
    ensures { IfOk result (λ found. MatchOption found (AreNoPartsOf graph.now (map part_held spellings.now))
        (λ segments. PartsAreReadAs graph.now (map part_held spellings.now) segments.items)) }
{
    let mut segments = Vec::with_capacity(alloc, spellings.len())?;
    for spelling in spellings {
        let Some(hops) = hops_of(alloc, graph, spelling.hops)? else {
            return Ok(None);
        };
        segments.push(Segment {
            epoch: spelling.epoch,
            hops,
        })?;
    }
    Ok(Some(segments))
}

/// The row with numbers for names. There is none where a name is not that of a node, or two are not those of a link in
/// their order.
pub fn resolve(
    alloc: Global,
    graph: &Graph,
    spelling: &Spelling,
) -> Result<Option<TraceRow>, AllocError>
    ensures { IfOk result (λ found. MatchOption found (IsNoRowOf graph.now (text_held spelling.now))
        (λ row. IsReadAs graph.now (text_held spelling.now) row)) }
{
    let head = spelling.head;
    let Some(source) = graph.index_of(head.source) else {
        return Ok(None);
    };
    let Some(dest) = graph.index_of(head.dest) else {
        return Ok(None);
    };
    let Some(fate) = fate_of(graph, head.fate) else {
        return Ok(None);
    };
    let Some(segments) = segments_of(alloc, graph, spelling.segments.as_slice())? else {
        return Ok(None);
    };
    Ok(Some(TraceRow {
        id: head.id,
        source,
        dest,
        weight: head.weight,
        fate,
        segments,
    }))
}
