//! Two formats of NetworkX, read and written: adjacency lists and weighted edge lists.
//!
//! A line ends with a line feed or with the text. What follows a `#` is a comment and holds any
//! bytes; outside a comment each byte is a blank (space, tab, carriage return, vertical tab, form
//! feed) or one of `!` to `~`. A name is a word of 1 to 64 bytes. A line with no word is skipped.
#![tactic(auto)]

ghost use Rattle.std.specs.Prelude.{◌≡◌, [], None, IfOk, IfErr};
ghost use Rattle.ir_model.specs.{Made.graph_of, Text.{lines, names_in, pairs_in, first_fault}};
ghost use Rattle.ir_model.specs.Edgelist.{edges_in, graph_of_edges, first_edge_fault};
ghost use Rattle.ir_adjlist.specs.Told.{Tells, told_at};

pub mod digits;
mod edges;
mod library;
mod rows;
pub mod scan;
mod weights;

use ir_graph::Graph;
pub use ir_model::Fault;
pub use library::{generate_adjlist, generate_weighted_edgelist};
use std::alloc::Global;
use thiserror::Error;

/// Why a text is refused: its first faulty line, counted from 1, and that line's first fault. Want
/// of memory has line 0.
#[derive(Clone, Copy, Debug, PartialEq, Eq, Error)]
#[error("line {line}: {kind:?}")]
pub struct TextError {
    pub line: usize,
    pub kind: Fault,
}

/// The error for a fault in a line.
fn error_at(line: usize, kind: Fault) -> TextError
    ensures { result ≡ told_at line kind }
{
    match kind {
        Fault::NoMemory => TextError { line: 0, kind },
        _ => TextError { line, kind },
    }
}

/// The graph that an adjacency list names. The first word of a line is a source, and the further words are its targets;
/// each is linked to it with weight 1, and a target that is the source is a self-loop. Nodes and neighbours stand by
/// first appearance. The faults of a line, in order: `BadByte`; `BadName` of any word; then `TooManyNodes` and
/// `TooManyEdges`, whichever comes first as the words are added. Takes O(b) on average, for a text of b bytes.
pub fn parse_adjlist(alloc: Global, text: &[u8]) -> Result<Graph, TextError>
    ensures parsed { IfOk result (λ g. (first_fault [] (lines text.now) ≡ None)
        × (g ≡ graph_of (names_in (lines text.now)) (pairs_in (lines text.now)))) }
    ensures fault { IfErr result (λ e. Tells e (first_fault [] (lines text.now))) }
{
    let mut graph = Graph::new(alloc);
    let mut rest = text;
    let mut line = 0;
    while !rest.is_empty() {
        let (current, after) = scan::next_line(rest);
        line += 1;
        if let Err(kind) = rows::read_line(&mut graph, current) {
            return Err(error_at(line, kind));
        }
        rest = after;
    }
    Ok(graph)
}

/// The graph that a weighted edge list names. A line has two ends and a weight: decimal digits of value 1 to 65,535,
/// after which a point and zeros may come. A line of fewer than two words is skipped. Nodes and neighbours stand by
/// first appearance, and an edge has its last weight. The faults of a line, in order: `BadByte`; `BadName` of an end;
/// `BadRow` where the words are not three; `BadWeight`; `TooManyNodes`; `TooManyEdges`. Takes O(b) on average, for a
/// text of b bytes.
pub fn parse_weighted_edgelist(alloc: Global, text: &[u8]) -> Result<Graph, TextError>
    ensures parsed { IfOk result (λ g. (first_edge_fault (lines text.now) ≡ None)
        × (g ≡ graph_of_edges (edges_in (lines text.now)))) }
    ensures fault { IfErr result (λ e. Tells e (first_edge_fault (lines text.now))) }
{
    let mut graph = Graph::new(alloc);
    let mut rest = text;
    let mut line = 0;
    while !rest.is_empty() {
        let (current, after) = scan::next_line(rest);
        line += 1;
        if let Err(fault) = edges::read_line(&mut graph, current) {
            return Err(error_at(line, fault));
        }
        rest = after;
    }
    Ok(graph)
}
