//! The lines of some nodes of a plan's text. Where the rows of nodes can be made one by one, no other row is made.
ghost use Rattle.std.specs.Prelude.{◌≡◌, ◌<◌, ◌≤◌, ◌++◌, IfOk, IfErr, OnOk, length, flat_map, string_bytes};
ghost use Rattle.ir_model.specs.{Graph.names, Topology.{node_count, ports_of}, Walk.IsConnected, Plan.{AreLabels, Plan}};
ghost use Rattle.ir_plan.specs.{Building.{MayLabel, RefusesPlan, labelling_of}, Starts.IsOfShortestWays};
ghost use Rattle.ir_trace.specs.Rows.{spaced};
ghost use Rattle.ir_show.specs.{PlanText.start_words, Plans.{IsPlanOver, NeedsNoTour}, Words.line_text};
ghost use Rattle.ir_show.specs.SpanLines.{AreItsPorts, AreSpanLines, words_of_row, start_at};
ghost use Rattle.ir_show.specs.SpanText.{IsSpanOfPlan, text_of_span, span_words};

use crate::TextResult;
use crate::alone::numbers_by;
use crate::plan_text::kind_text;
use ir_graph::Graph;
use ir_lookup::Row;
use ir_model::Kind;
use ir_numbering::Numbering;
use ir_plan::{Labels, Plan, PlanError, row_of_node};
use ir_tables::Topology;
use ir_trace::text::{name_of, push_name, push_next_number, push_word};
use std::alloc::{AllocError, Global};

/// The lines of some nodes, and how many starts they have.
#[derive(Drop)]
pub(crate) struct SpanLines {
    text: String,
    starts: usize,
}

/// Writes a start of a node's row, and the name of the neighbour at its port.
fn push_start(
    text: &mut String,
    graph: &Graph,
    topology: &Topology,
    u: u16,
    row: &Row,
    i: usize,
) -> TextResult
    requires nodes { node_count topology.now ≡ length graph.now }
    requires node { u < length graph.now }
    requires place { i < length row.now }
    requires port { (start_at row.now i).port < length (ports_of topology.now u) }
    ensures { OnOk result (string_bytes text.new ≡ string_bytes text.old
        ++ flat_map spaced (start_words (names graph.now) topology.now u (start_at row.now i))) }
{
    topology.invariant();
    push_next_number(text, row.start(i) as usize)?;
    let hop = topology.port(u, row.port(i));
    push_name(text, graph, hop.node)
}

fn push_starts(
    text: &mut String,
    graph: &Graph,
    topology: &Topology,
    u: u16,
    row: &Row,
) -> TextResult
    requires nodes { node_count topology.now ≡ length graph.now }
    requires node { u < length graph.now }
    requires ports { AreItsPorts topology.now u row.now }
    ensures { OnOk result (string_bytes text.new ≡ string_bytes text.old
        ++ flat_map spaced (flat_map (start_words (names graph.now) topology.now u) row.now)) }
{
    for i in 0..row.len() {
        push_start(text, graph, topology, u, row, i)?;
    }
    Ok(())
}

/// Writes the line of a node that has this label and this row.
#[tactic(auto, using(crate::proofs::PlanLines::words_of_a_line))]
fn push_line(
    text: &mut String,
    graph: &Graph,
    topology: &Topology,
    u: u16,
    label: u16,
    row: &Row,
) -> TextResult
    requires nodes { node_count topology.now ≡ length graph.now }
    requires node { u < length graph.now }
    requires ports { AreItsPorts topology.now u row.now }
    ensures { OnOk result (string_bytes text.new ≡ string_bytes text.old
        ++ line_text (words_of_row (names graph.now) topology.now u label row.now)) }
{
    text.push_str(name_of(graph, u))?;
    push_next_number(text, label as usize)?;
    push_starts(text, graph, topology, u, row)?;
    text.push_str("\n")
}

/// The lines of some nodes of a plan.
fn lines_of(
    alloc: Global,
    graph: &Graph,
    plan: &Plan,
    first: usize,
    last: usize,
) -> Result<SpanLines, AllocError>
    requires nodes { node_count plan.now.topology ≡ length graph.now }
    requires within { last < length graph.now }
    requires order { first ≤ last }
    ensures { IfOk result (λ lines. AreSpanLines (names graph.now) plan.now first last lines) }
{
    plan.invariant();
    let mut text = String::new(alloc);
    let mut starts = 0;
    for u in first..last + 1 {
        let row = plan.row(u as u16);
        let label = plan.label_of(u as u16);
        push_line(&mut text, graph, plan.topology(), u as u16, label, row)?;
        starts += row.len();
    }
    Ok(SpanLines { text, starts })
}

/// The lines of some nodes of each plan of a kind with these numbers. Their rows are made alone.
fn lines_alone(
    alloc: Global,
    graph: &Graph,
    topology: &Topology,
    numbering: &Numbering,
    kind: Kind,
    span: (usize, usize),
) -> Result<SpanLines, AllocError>
    requires kind { IsOfShortestWays kind }
    requires labels { AreLabels (node_count topology.now) numbering.now.order numbering.now.labels }
    requires connected { IsConnected topology.now }
    requires nodes { node_count topology.now ≡ length graph.now }
    requires within { span.1 < length graph.now }
    requires order { span.0 ≤ span.1 }
    ensures { IfOk result (λ lines. (plan : Plan) → IsPlanOver topology.now kind numbering.now plan
        → AreSpanLines (names graph.now) plan span.0 span.1 lines) }
{
    topology.invariant();
    let mut text = String::new(alloc);
    let mut starts = 0;
    for u in span.0..span.1 + 1 {
        let row = row_of_node(alloc, topology, numbering, kind, u as u16)?;
        let label = numbering.label_of(u as u16);
        push_line(&mut text, graph, topology, u as u16, label, &row)?;
        starts += row.len();
    }
    Ok(SpanLines { text, starts })
}

/// The text of the lines of some nodes, after a first line of its own.
#[tactic(auto, using(crate::proofs::PlanLines::words_of_a_line))]
fn text_of_lines(
    alloc: Global,
    kind: Kind,
    nodes: usize,
    span: (usize, usize),
    lines: SpanLines,
) -> Result<String, AllocError>
    ensures { IfOk result (λ text. string_bytes text
        ≡ line_text (span_words kind nodes lines.starts span.0 span.1) ++ string_bytes lines.text) }
{
    let mut text = String::new(alloc);
    text.push_str("plan")?;
    push_word(&mut text, kind_text(kind))?;
    push_next_number(&mut text, nodes)?;
    push_next_number(&mut text, lines.starts)?;
    push_next_number(&mut text, span.0)?;
    push_next_number(&mut text, span.1)?;
    text.push_str("\n")?;
    text.push_str(lines.text.as_str())?;
    Ok(text)
}

/// The text of some nodes of a plan, from the first end of a span to the second: `plan KIND N L FIRST LAST`, where L is
/// the number of the starts of these nodes, and their lines of the plan's text. Conditions: the plan is over the
/// graph's network, and the ends are nodes of it, the second not before the first. It is refused for memory alone.
/// Takes O(c + s), for c nodes and s starts.
pub fn span_text(
    alloc: Global,
    graph: &Graph,
    plan: &Plan,
    span: (u16, u16),
) -> Result<String, AllocError>
    requires nodes { node_count plan.now.topology ≡ length graph.now }
    requires within { span.1 < length graph.now }
    requires order { span.0 ≤ span.1 }
    ensures { IfOk result (λ text. string_bytes text ≡ text_of_span (names graph.now) plan.now span.0 span.1) }
{
    let (first, last) = (span.0 as usize, span.1 as usize);
    let lines = lines_of(alloc, graph, plan, first, last)?;
    text_of_lines(alloc, plan.kind(), plan.nodes(), (first, last), lines)
}

/// The same text, of the plan of a kind over a topology by these labels. That plan is not built: the rows of these
/// nodes alone are made, each by a search from its node. Conditions: the kind is one of shortest ways, the topology
/// is the graph's network, the ends are nodes of it if it has any, the second not before the first, and no tour is
/// sought (`needs_no_tour`).
///
/// Refused as the plan is (`Plan::build_by`). Takes for each node what `row_of_node` takes, and O(n + m) memory beside
/// the text, for n nodes of the network and m links.
pub fn span_text_alone(
    alloc: Global,
    graph: &Graph,
    topology: &Topology,
    kind: Kind,
    labels: Labels,
    span: (u16, u16),
) -> Result<String, PlanError>
    requires kind { IsOfShortestWays kind }
    requires nodes { node_count topology.now ≡ length graph.now }
    requires ends { 0 < length graph.now → (span.0 ≤ span.1) × (span.1 < length graph.now) }
    requires may { MayLabel topology.now kind (labelling_of labels) }
    requires alone { NeedsNoTour (node_count topology.now) (labelling_of labels) }
    ensures text { IfOk result (λ text. IsSpanOfPlan (names graph.now) topology.now kind (labelling_of labels)
        span.0 span.1 (string_bytes text)) }
    ensures refused { IfErr result (RefusesPlan topology.now (labelling_of labels)) }
{
    let (first, last) = (span.0 as usize, span.1 as usize);
    let numbering = numbers_by(alloc, topology, kind, labels)?;
    let lines = lines_alone(alloc, graph, topology, &numbering, kind, (first, last))?;
    Ok(text_of_lines(alloc, kind, topology.nodes(), (first, last), lines)?)
}
