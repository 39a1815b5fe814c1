//! The text of a plan's ranges of labels.
ghost use Rattle.std.specs.Prelude.{◌≡◌, ◌<◌, ◌≤◌, ◌++◌, All, IfOk, OnOk, length, flat_map, string_bytes};
ghost use Rattle.std.specs.List.{range_with_len};
ghost use Rattle.ir_model.specs.{Graph.names, Topology.{node_count, ports_of}, Plan.{IsPlan, by_label}};
ghost use Rattle.ir_prefix.specs.Ranges.{AreRangesApart, IsFewestRanges, TellsPorts};
ghost use Rattle.ir_trace.specs.Rows.{spaced};
ghost use Rattle.ir_show.specs.Words.{line_text};
ghost use Rattle.ir_exports.specs.RangesText.{labels_text, range_count, range_words, ranges_head, ranges_in, ranges_line, ranges_text};

use crate::table::ports_by_label;
use ir_graph::Graph;
use ir_plan::Plan;
use ir_prefix::{LabelRange, label_ranges};
use ir_show::TextResult;
use ir_show::plan_text::kind_text;
use ir_trace::text::{name_of, push_name, push_next_number, push_word};
use std::alloc::{AllocError, Global};

/// The ranges of a node, by the ports of its row: those of `ir_prefix::label_ranges`. It is refused for memory alone.
/// Takes O(n), for n nodes.
pub fn ranges_of(alloc: Global, plan: &Plan, u: u16) -> Result<Vec<LabelRange>, AllocError>
    requires { u < node_count plan.now.topology }
    ensures ranges { IfOk result (λ set. set.items ≡ ranges_in plan.now u) }
    ensures tells { IfOk result (λ set. TellsPorts (by_label plan.now u) set.items) }
    ensures apart { IfOk result (λ set. AreRangesApart set.items) }
    ensures fewest { IfOk result (λ set. IsFewestRanges (by_label plan.now u) (length set.items)) }
    ensures few { IfOk result (λ set. length set.items ≤ node_count plan.now.topology) }
{
    let ports = ports_by_label(alloc, plan, u)?;
    plan.invariant();
    label_ranges(alloc, ports.as_slice())
}

/// Writes a space and the labels of a range.
fn push_span(text: &mut String, from: u16, to: u16) -> TextResult
    ensures { OnOk result (string_bytes text.new ≡ string_bytes text.old ++ spaced (labels_text from to)) }
{
    write!(text, " {from}-{to}")
}

/// Writes a range of a node, and the neighbour at its port.
fn push_range(
    text: &mut String,
    graph: &Graph,
    plan: &Plan,
    u: u16,
    range: &LabelRange,
) -> TextResult
    requires nodes { node_count plan.now.topology ≡ length graph.now }
    requires plan { IsPlan plan.now }
    requires node { u < length graph.now }
    requires port { range.now.port < length (ports_of plan.now.topology u) }
    ensures { OnOk result (string_bytes text.new ≡ string_bytes text.old
        ++ flat_map spaced (range_words (names graph.now) plan.now.topology u range.now)) }
{
    push_span(text, range.from, range.to)?;
    push_name(text, graph, plan.hop(u, range.port).node)
}

fn push_ranges(
    text: &mut String,
    graph: &Graph,
    plan: &Plan,
    u: u16,
    set: &[LabelRange],
) -> TextResult
    requires nodes { node_count plan.now.topology ≡ length graph.now }
    requires plan { IsPlan plan.now }
    requires node { u < length graph.now }
    requires ports { All (λ r. r.port < length (ports_of plan.now.topology u)) set.now }
    ensures { OnOk result (string_bytes text.new ≡ string_bytes text.old
        ++ flat_map spaced (flat_map (range_words (names graph.now) plan.now.topology u) set.now)) }
{
    for range in set {
        push_range(text, graph, plan, u, range)?;
    }
    Ok(())
}

/// Writes the line of text of a node, and answers how many ranges it has.
fn push_node(
    alloc: Global,
    text: &mut String,
    graph: &Graph,
    plan: &Plan,
    u: u16,
) -> Result<usize, AllocError>
    requires nodes { node_count plan.now.topology ≡ length graph.now }
    requires node { u < length graph.now }
    ensures count { IfOk result (λ count. count ≡ length (ranges_in plan.now u)) }
    ensures few { IfOk result (λ count. count ≤ 32768) }
    ensures text { OnOk result (string_bytes text.new ≡ string_bytes text.old
        ++ ranges_line (names graph.now) plan.now u) }
{
    plan.invariant();
    let set = ranges_of(alloc, plan, u)?;
    text.push_str(name_of(graph, u))?;
    push_next_number(text, plan.label_of(u) as usize)?;
    push_ranges(text, graph, plan, u, set.as_slice())?;
    text.push_str("\n")?;
    Ok(set.len())
}

/// Writes the lines of all nodes, and answers how many ranges they have.
fn push_nodes(
    alloc: Global,
    text: &mut String,
    graph: &Graph,
    plan: &Plan,
) -> Result<usize, AllocError>
    requires { node_count plan.now.topology ≡ length graph.now }
    ensures count { IfOk result (λ count. count ≡ range_count plan.now) }
    ensures text { OnOk result (string_bytes text.new ≡ string_bytes text.old
        ++ flat_map (ranges_line (names graph.now) plan.now) (range_with_len 0 (node_count plan.now.topology))) }
{
    let mut count = 0;
    for u in 0..plan.nodes() {
        count += push_node(alloc, text, graph, plan, u as u16)?;
    }
    Ok(count)
}

fn push_head(text: &mut String, plan: &Plan, count: usize) -> TextResult
    ensures { OnOk result (string_bytes text.new ≡ string_bytes text.old ++ line_text (ranges_head plan.now count)) }
{
    text.push_str("ranges")?;
    push_word(text, kind_text(plan.kind()))?;
    push_next_number(text, plan.nodes())?;
    push_next_number(text, count)?;
    text.push_str("\n")
}

/// The text of the ranges of a plan's nodes: `ranges KIND N COUNT`, and for each node its name, its
/// label and its ranges, each as `FROM-TO` and the neighbour. They are those of `ranges_of`.
/// Condition: the plan is over the graph's network. It is refused for memory alone. Takes O(n * n),
/// for n nodes.
pub fn ranges_text(alloc: Global, graph: &Graph, plan: &Plan) -> Result<String, AllocError>
    requires { node_count plan.now.topology ≡ length graph.now }
    ensures { IfOk result (λ text. string_bytes text ≡ ranges_text (names graph.now) plan.now) }
{
    let mut lines = String::new(alloc);
    let count = push_nodes(alloc, &mut lines, graph, plan)?;
    let mut text = String::new(alloc);
    push_head(&mut text, plan, count)?;
    text.push_str(lines.as_str())?;
    Ok(text)
}
