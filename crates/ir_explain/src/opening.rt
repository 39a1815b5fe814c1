//! Why nothing was opened over a topology.

use crate::script::push_no_node;
use crate::sentence::{Pushed, begin};
use crate::texts::RunTexts;
use ir_cli::{Format, Words, root_of};
use ir_core::{MAX_LINKS, MAX_NODES, OpenError};
use ir_exports::MAX_LABELS;
use ir_graph::Graph;
use std::alloc::{AllocError, Global};

/// The first option that names no node of the graph, and the name.
fn unknown_option<'a>(graph: &Graph, words: &'a Words) -> (&'static str, &'a str) {
    for (option, name) in [
        ("--root", &words.root),
        ("--from", &words.from),
        ("--to", &words.to),
        ("--node", &words.node),
    ] {
        if let Some(name) = name
            && !graph.has_node(name.as_str())
        {
            return (option, name.as_str());
        }
    }
    match &words.second {
        Some(second) => match &second.root {
            Some(name) => ("--with", name.as_str()),
            None => ("--with", ""),
        },
        None => ("--root", ""),
    }
}

/// Why the topology has no node.
fn empty(run: &RunTexts<'_>) -> &'static str {
    match run.words.format {
        _ if run.texts.topology.bytes.is_empty() => "no nodes: the text is empty",
        Format::AdjList => "no nodes: each line is blank or a comment",
        Format::EdgeList => "no nodes: no line names two nodes",
    }
}

/// Keeps a node that is not marked yet, and marks it.
fn keep(marked: &mut Vec<bool>, kept: &mut Vec<usize>, node: usize) -> Pushed {
    if node < marked.len() && !marked[node] {
        marked[node] = true;
        kept.push(node)?;
    }
    Ok(())
}

/// Keeps the neighbours of a node that are not marked yet.
fn keep_near(graph: &Graph, marked: &mut Vec<bool>, kept: &mut Vec<usize>, node: usize) -> Pushed {
    for place in 0..graph.neighbor_count(node) {
        if let Some((other, _weight)) = graph.neighbor_at(node, place) {
            keep(marked, kept, other)?;
        }
    }
    Ok(())
}

/// Marks the part of a node, and answers how many nodes it has: none where the node is marked already.
fn mark_part(
    alloc: Global,
    graph: &Graph,
    marked: &mut Vec<bool>,
    node: usize,
) -> Result<usize, AllocError> {
    let mut kept = Vec::new(alloc);
    keep(marked, &mut kept, node)?;
    for place in 0..graph.number_of_nodes() {
        let Some(next) = kept.get(place) else {
            break;
        };
        let next = *next;
        keep_near(graph, marked, &mut kept, next)?;
    }
    Ok(kept.len())
}

/// The parts of a graph: how many there are, how many nodes the largest has, and the first node outside the first part.
#[derive(Clone, Copy)]
struct Divided {
    parts: usize,
    largest: usize,
    outside: usize,
}

/// The parts of a graph, the first of them that of a node.
fn parts_from(alloc: Global, graph: &Graph, node: usize) -> Result<Divided, AllocError> {
    let mut marked = vec![in alloc; false; graph.number_of_nodes()]?;
    let mut largest = mark_part(alloc, graph, &mut marked, node)?;
    let (mut parts, mut outside): (usize, usize) = (1, node);
    for place in 0..graph.number_of_nodes() {
        let nodes = mark_part(alloc, graph, &mut marked, place)?;
        if nodes > 0 {
            if parts == 1 {
                outside = place;
            }
            parts = parts.saturating_add(1);
            largest = largest.max(nodes);
        }
    }
    Ok(Divided {
        parts,
        largest,
        outside,
    })
}

/// Says between which nodes there is no path, and into how many parts the graph falls.
fn push_disconnected(text: &mut String, run: &RunTexts<'_>) -> Pushed {
    let root = usize::from(root_of(run.graph, &run.words.root).unwrap_or(0));
    let found = parts_from(run.alloc, run.graph, root)?;
    let name = run.graph.node(root).unwrap_or("");
    let outside = run.graph.node(found.outside).unwrap_or("");
    let (parts, largest) = (found.parts, found.largest);
    let plural = if largest == 1 { "" } else { "s" };
    write!(
        text,
        "'{name}' has no path to '{outside}': the network has {parts} parts, the largest of {largest} node{plural}"
    )
}

/// Says that a name of the words is no node.
fn push_no_option(text: &mut String, run: &RunTexts<'_>) -> Pushed {
    let (option, name) = unknown_option(run.graph, run.words);
    write!(text, "route: {option}: ")?;
    push_no_node(text, run, name.as_bytes())
}

/// Says that there are more nodes or links than a run may have, or more nodes than a table in lines has labels: that is
/// of a node that the words name.
fn push_too_large(text: &mut String, run: &RunTexts<'_>) -> Pushed {
    let graph = run.graph;
    let nodes = graph.number_of_nodes();
    if run.words.node.is_some() {
        return write!(
            text,
            "{nodes} nodes; a table in lines has at most {MAX_LABELS} labels"
        );
    }
    let (count, what, most) = if nodes > MAX_NODES {
        (nodes, "nodes", MAX_NODES)
    } else {
        (graph.number_of_edges(), "links", MAX_LINKS)
    };
    write!(
        text,
        "{count} {what}; networks where packets travel have at most {most}"
    )
}

/// Says why nothing was opened over the topology.
pub fn push_opening(text: &mut String, run: &RunTexts<'_>, error: OpenError) -> Pushed {
    if error != OpenError::NoNode {
        begin(text, run.texts.topology.file)?;
    }
    match error {
        OpenError::NoNode => push_no_option(text, run),
        OpenError::Empty => text.push_str(empty(run)),
        OpenError::Disconnected => push_disconnected(text, run),
        OpenError::TooLarge => push_too_large(text, run),
        OpenError::NoMemory => text.push_str("out of memory while opening the topology"),
        OpenError::TooManyReaders => {
            text.push_str("the board has too few places for a reader of each node")
        }
        OpenError::Used => text.push_str("a new cell of the registry refused its plan"),
    }
}
