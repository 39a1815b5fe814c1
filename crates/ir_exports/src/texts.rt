//! The text of a plan's forwarding tables, of the texts of its nodes.

ghost use Rattle.std.specs.Prelude.{◌≡◌, ◌<◌, ◌≤◌, ◌++◌, All, IfOk, OnOk, length, flat_map, sum_by, string_bytes};
ghost use Rattle.ir_model.specs.{Graph.names, Topology.node_count};
ghost use Rattle.ir_exports.specs.{NodeTexts.{AreNodeTexts, IsNodeText, bytes_of, lines_of}, PrefixesText.IsPrefixesOf};

use crate::prefixes::{push_node, text_of_lines};
use crate::table::table_of;
use ir_graph::Graph;
use ir_plan::{Alone, Crew, NodeText, Plan};
use std::alloc::{AllocError, Global};

/// The fewest nodes that a thread is started for.
const LEAST_NODES: usize = 16;

/// The text of the forwarding tables of a plan's nodes: `prefixes KIND N BITS LINES`, and for each node its name, its
/// label and its lines, each as `VALUE/LENGTH` and the neighbour, or `-` where the numbers are unreachable. They are
/// those of `table_of`, so the text is determined up to which of several lists of the fewest lines are there.
/// Condition: the plan is over the graph's network. It is refused for memory alone. Takes O(n * n log n), for n nodes.
/// For users of the library.
pub fn prefixes_text(
    alloc: Global,
    graph: &Graph,
    plan: &Plan,
    is_disjoint: bool,
) -> Result<String, AllocError>
    requires { node_count plan.now.topology ≡ length graph.now }
    ensures { IfOk result (λ text. IsPrefixesOf is_disjoint (names graph.now) plan.now (string_bytes text)) }
{
    prefixes_text_by(&Alone, alloc, graph, plan, is_disjoint)
}

/// The text that `prefixes_text` makes, the lines of the nodes made by a crew. Each thread holds one
/// node's table at a time. Condition: the plan is over the graph's network. It is refused for memory
/// alone. All threads together take as long as `prefixes_text`.
pub fn prefixes_text_by(
    crew: &impl Crew,
    alloc: Global,
    graph: &Graph,
    plan: &Plan,
    is_disjoint: bool,
) -> Result<String, AllocError>
    requires { node_count plan.now.topology ≡ length graph.now }
    ensures { IfOk result (λ text. IsPrefixesOf is_disjoint (names graph.now) plan.now (string_bytes text)) }
{
    let made = texts_by(crew, alloc, graph, plan, is_disjoint)?;
    let mut tables = String::new(alloc);
    let lines = push_texts(&mut tables, made)?;
    text_of_lines(alloc, plan, lines, tables.as_str())
}

/// The line of text of each node, by number, made by a crew.
fn texts_by(
    crew: &impl Crew,
    alloc: Global,
    graph: &Graph,
    plan: &Plan,
    is_disjoint: bool,
) -> Result<Vec<NodeText>, AllocError>
    requires { node_count plan.now.topology ≡ length graph.now }
    ensures { IfOk result (λ made. AreNodeTexts is_disjoint (names graph.now) plan.now
        (node_count plan.now.topology) made.items) }
{
    crew.node_texts(
        alloc,
        plan.nodes(),
        LEAST_NODES,
        &|u: usize| -> Result<NodeText, AllocError>
            requires { (u < node_count plan.now.topology) × (node_count plan.now.topology ≡ length graph.now) }
            ensures { IfOk result (λ made. IsNodeText is_disjoint (names graph.entry.now) plan.entry.now u made) }
        { node_text(alloc, graph, plan, u, is_disjoint) },
    )
}

/// The line of text of a node, by its number as a place.
fn node_text(
    alloc: Global,
    graph: &Graph,
    plan: &Plan,
    u: usize,
    is_disjoint: bool,
) -> Result<NodeText, AllocError>
    requires nodes { node_count plan.now.topology ≡ length graph.now }
    requires node { u < node_count plan.now.topology }
    ensures { IfOk result (λ made. IsNodeText is_disjoint (names graph.now) plan.now u made) }
{
    plan.invariant();
    let table = table_of(alloc, plan, u as u16, is_disjoint)?;
    let mut text = String::new(alloc);
    push_node(&mut text, graph, plan, u as u16, table.as_slice())?;
    Ok(NodeText {
        text,
        lines: table.len(),
    })
}

/// Writes texts one after the other, lets them go, and answers how many lines they have.
fn push_texts(text: &mut String, made: Vec<NodeText>) -> Result<usize, AllocError>
    requires { All (λ node. node.lines ≤ length (string_bytes node.text)) made.items }
    ensures lines { IfOk result (λ lines. lines ≡ sum_by lines_of made.items) }
    ensures bytes { OnOk result (string_bytes text.new ≡ string_bytes text.old ++ flat_map bytes_of made.items) }
{
    let mut lines = 0;
    for node in &made {
        text.push_str(node.text.as_str())?;
        let _bytes = text.len();
        lines += node.lines;
    }
    Ok(lines)
}
