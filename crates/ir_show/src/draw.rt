//! The drawing of a plan, for Graphviz.
ghost use Rattle.std.specs.Prelude.{◌≡◌, ◌<◌, ◌++◌, [], if◌then◌else◌, nat_lt, All, IfOk, IfSome, OnOk, length, string_bytes, flat_map};
ghost use Rattle.std.specs.List.{range_with_len};
ghost use Rattle.ir_model.specs.{Graph.names, Topology.{node_count, ports_of}, Plan.IsPlan};
ghost use Rattle.ir_show.specs.{Before.separated, Intervals.as_interval};
ghost use Rattle.ir_show.specs.Drawing.{ArePlanLandmarks, begun_by, block_of, is_in_landmarks, shape_text, colour_text, node_marks, node_line, interval_text, goes_by, intervals_text, are_ends, passes, edge_style, edge_labels, edge_line, edge_lines, IsBold, IsDrawingOf};

use crate::TextResult;
use crate::interval::{Interval, interval_at, push_interval};
use crate::quoted::{push_escaped_name, push_quoted};
use crate::walk::walk_between;
use ir_bounds::most_linked;
use ir_graph::Graph;
use ir_model::{Hop, Kind};
use ir_plan::Plan;
use ir_trace::text::push_next_number;
use std::alloc::{AllocError, Global};

/// How many colours there are for blocks.
const COLOURS: usize = 12;

/// The landmarks of a landmark plan; none of another plan.
fn plan_landmarks(alloc: Global, plan: &Plan) -> Result<Vec<u16>, AllocError>
    ensures chosen { IfOk result (λ landmarks. ArePlanLandmarks plan.now.kind plan.now landmarks.items) }
    ensures nodes { IfOk result (λ landmarks. All (λ l. l < node_count plan.now.topology) landmarks.items) }
{
    let Kind::Landmark(detour) = plan.kind() else {
        return Ok(Vec::new(alloc));
    };
    plan.invariant();
    let count = detour.landmarks as usize;
    most_linked(alloc, plan.topology(), plan.root(), count)
}

/// 1 for a landmark whose label is not above that of a node, else 0.
fn begun_by(plan: &Plan, u: u16, landmark: u16) -> usize
    requires node { u < node_count plan.now.topology }
    requires landmark { landmark < node_count plan.now.topology }
    ensures { result ≡ begun_by plan.now u landmark }
{
    if plan.label_of(landmark) <= plan.label_of(u) {
        1
    } else {
        0
    }
}

/// Which block a node is of, counted from 1.
fn block_of(plan: &Plan, landmarks: &[u16], u: u16) -> usize
    requires landmarks { All (λ l. l < node_count plan.now.topology) landmarks.now }
    requires node { u < node_count plan.now.topology }
    ensures { result ≡ block_of plan.now landmarks.now u }
{
    let mut block = 0;
    for i in 0..landmarks.len() {
        block += begun_by(plan, u, landmarks[i]);
    }
    block
}

/// Whether a node is a landmark.
fn is_in_landmarks(landmarks: &[u16], u: u16) -> bool
    ensures { result ≡ is_in_landmarks landmarks.now u }
{
    landmarks.iter().any(|landmark| *landmark == u)
}

/// The shape of a node: a landmark is a box.
fn shape_text(landmarks: &[u16], u: u16) -> &'static str
    ensures { result.now ≡ shape_text landmarks.now u }
{
    if is_in_landmarks(landmarks, u) {
        ", shape=box"
    } else {
        ""
    }
}

/// Writes the colour of a block.
fn push_colour(text: &mut String, block: usize) -> TextResult
    ensures { OnOk result (string_bytes text.new ≡ string_bytes text.old ++ colour_text block) }
{
    let colour = block % COLOURS + 1;
    write!(text, ", style=filled, fillcolor=\"/set312/{colour}\"")
}

/// Writes what marks a node, where there are landmarks.
fn push_marks(text: &mut String, plan: &Plan, landmarks: &[u16], u: u16) -> TextResult
    requires landmarks { All (λ l. l < node_count plan.now.topology) landmarks.now }
    requires node { u < node_count plan.now.topology }
    ensures { OnOk result (string_bytes text.new ≡ string_bytes text.old ++ node_marks plan.now landmarks.now u) }
{
    if landmarks.is_empty() {
        return Ok(());
    }
    text.push_str(shape_text(landmarks, u))?;
    push_colour(text, block_of(plan, landmarks, u))
}

fn push_node(text: &mut String, graph: &Graph, plan: &Plan, landmarks: &[u16], u: u16) -> TextResult
    requires nodes { node_count plan.now.topology ≡ length graph.now }
    requires landmarks { All (λ l. l < node_count plan.now.topology) landmarks.now }
    requires node { u < length graph.now }
    ensures { OnOk result (string_bytes text.new ≡ string_bytes text.old
        ++ node_line (names graph.now) plan.now landmarks.now u) }
{
    text.push_str("  ")?;
    push_quoted(text, graph, u)?;
    text.push_str(" [label=\"")?;
    push_escaped_name(text, graph, u)?;
    push_next_number(text, plan.label_of(u) as usize)?;
    text.push_str("\"")?;
    push_marks(text, plan, landmarks, u)?;
    text.push_str("];\n")
}

/// Whether the port of an interval of a node's row is by a link.
fn goes_by(plan: &Plan, u: u16, link: u32, interval: Interval) -> bool
    requires node { u < node_count plan.now.topology }
    requires port { interval.port < length (ports_of plan.now.topology u) }
    ensures { result ≡ goes_by plan.now.topology u link (as_interval interval) }
{
    plan.hop(u, interval.port).link == link
}

/// Writes an interval, after a space if it is not the first.
fn push_separated(text: &mut String, interval: Interval, first: bool) -> TextResult
    ensures { OnOk result (string_bytes text.new ≡ string_bytes text.old
        ++ separated first (interval_text (as_interval interval))) }
{
    if !first {
        text.push_str(" ")?;
    }
    push_interval(text, interval)
}

/// Writes the intervals of a node's row whose port is by a link.
fn push_intervals(text: &mut String, plan: &Plan, u: u16, link: u32) -> TextResult
    requires plan { IsPlan plan.now }
    requires node { u < node_count plan.now.topology }
    ensures { OnOk result (string_bytes text.new ≡ string_bytes text.old ++ intervals_text plan.now u link) }
{
    let mut first = true;
    let count = plan.row(u).len();
    for i in 0..count {
        let interval = interval_at(plan, u, i);
        if goes_by(plan, u, link, interval) {
            push_separated(text, interval, first)?;
            first = false;
        }
    }
    Ok(())
}

/// Whether two nodes are two others, in one order or the other.
fn are_ends(u: u16, v: u16, x: u16, y: u16) -> bool
    ensures { result ≡ are_ends u v x y }
{
    (x == u && y == v) || (x == v && y == u)
}

/// Whether two nodes that follow one another on a walk are these.
fn passes(u: u16, v: u16, walk: &[u16]) -> bool
    ensures { result ≡ passes u v walk.now }
{
    for i in 1..walk.len() {
        if are_ends(u, v, walk[i - 1], walk[i]) {
            return true;
        }
    }
    false
}

/// The style of a link: bold where a walk passes it.
fn edge_style(u: u16, v: u16, walk: &[u16]) -> &'static str
    ensures { result.now ≡ edge_style u v walk.now }
{
    if passes(u, v, walk) {
        ", style=bold"
    } else {
        ""
    }
}

/// Writes the weight of a link of a node, and the intervals of its port at each end.
fn push_labels(text: &mut String, plan: &Plan, u: u16, hop: Hop) -> TextResult
    requires plan { IsPlan plan.now }
    requires node { u < node_count plan.now.topology }
    requires other { hop.node < node_count plan.now.topology }
    ensures { OnOk result (string_bytes text.new ≡ string_bytes text.old ++ edge_labels plan.now u hop) }
{
    let weight = hop.weight;
    write!(text, " [label=\"{weight}\", taillabel=\"")?;
    push_intervals(text, plan, u, hop.link)?;
    text.push_str("\", headlabel=\"")?;
    push_intervals(text, plan, hop.node, hop.link)?;
    text.push_str("\"")
}

/// Writes the line of a link of a node, if it leads to a later node.
fn push_edge(
    text: &mut String,
    graph: &Graph,
    plan: &Plan,
    walk: &[u16],
    u: u16,
    hop: Hop,
) -> TextResult
    requires nodes { node_count plan.now.topology ≡ length graph.now }
    requires plan { IsPlan plan.now }
    requires node { u < length graph.now }
    requires other { hop.node < length graph.now }
    ensures { OnOk result (string_bytes text.new ≡ string_bytes text.old
        ++ (if nat_lt u hop.node then edge_line (names graph.now) plan.now walk.now u hop else [])) }
{
    if u >= hop.node {
        return Ok(());
    }
    text.push_str("  ")?;
    push_quoted(text, graph, u)?;
    text.push_str(" -- ")?;
    push_quoted(text, graph, hop.node)?;
    push_labels(text, plan, u, hop)?;
    text.push_str(edge_style(u, hop.node, walk))?;
    text.push_str("];\n")
}

fn push_edges(text: &mut String, graph: &Graph, plan: &Plan, walk: &[u16], u: u16) -> TextResult
    requires nodes { node_count plan.now.topology ≡ length graph.now }
    requires plan { IsPlan plan.now }
    requires node { u < length graph.now }
    ensures { OnOk result (string_bytes text.new ≡ string_bytes text.old
        ++ edge_lines (names graph.now) plan.now walk.now u) }
{
    let ports = plan.topology().ports(u as usize);
    for hop in ports {
        push_edge(text, graph, plan, walk, u, *hop)?;
    }
    Ok(())
}

fn push_all_nodes(text: &mut String, graph: &Graph, plan: &Plan, landmarks: &[u16]) -> TextResult
    requires nodes { node_count plan.now.topology ≡ length graph.now }
    requires landmarks { All (λ l. l < node_count plan.now.topology) landmarks.now }
    ensures { OnOk result (string_bytes text.new ≡ string_bytes text.old ++ flat_map
        (node_line (names graph.now) plan.now landmarks.now) (range_with_len 0 (node_count plan.now.topology))) }
{
    for u in 0..plan.nodes() {
        push_node(text, graph, plan, landmarks, u as u16)?;
    }
    Ok(())
}

fn push_all_edges(text: &mut String, graph: &Graph, plan: &Plan, walk: &[u16]) -> TextResult
    requires { node_count plan.now.topology ≡ length graph.now }
    ensures { OnOk result (string_bytes text.new ≡ string_bytes text.old ++ flat_map
        (edge_lines (names graph.now) plan.now walk.now) (range_with_len 0 (node_count plan.now.topology))) }
{
    for u in 0..plan.nodes() {
        push_edges(text, graph, plan, walk, u as u16)?;
    }
    Ok(())
}

/// The walk to be drawn in bold: that between the ends, if there are any.
fn bold_walk(alloc: Global, plan: &Plan, ends: Option<(u16, u16)>) -> Result<Vec<u16>, AllocError>
    requires { IfSome ends (λ e. (e.0 < node_count plan.now.topology) × (e.1 < node_count plan.now.topology)) }
    ensures { IfOk result (λ walk. IsBold plan.now ends walk.items) }
{
    let Some((from, to)) = ends else {
        return Ok(Vec::new(alloc));
    };
    let walk = walk_between(alloc, plan, from, to)?;
    let mut nodes = Vec::new(alloc);
    for stop in &walk.stops {
        nodes.push(stop.node)?;
    }
    nodes.push(to)?;
    Ok(nodes)
}

/// The drawing of a plan for Graphviz: a `graph` with a statement for each node, with its name and
/// label, and one for each link, with its weight and at each end the intervals of its port; the
/// links of the walk from the first of the ends to the second are bold. In a landmark plan the
/// landmarks are boxes, and each block has one of twelve colours. Condition: the plan is over the
/// graph's network, and the ends are nodes. It is refused for memory alone. Takes O(n l + m (k +
/// w)), for n nodes, l landmarks and m links, at most k starts in a row, and w nodes on the bold
/// walk.
pub fn draw_text(
    alloc: Global,
    graph: &Graph,
    plan: &Plan,
    ends: Option<(u16, u16)>,
) -> Result<String, AllocError>
    requires nodes { node_count plan.now.topology ≡ length graph.now }
    requires ends { IfSome ends (λ e. (e.0 < length graph.now) × (e.1 < length graph.now)) }
    ensures { IfOk result (λ text. IsDrawingOf (names graph.now) plan.now ends (string_bytes text)) }
{
    let walk = bold_walk(alloc, plan, ends)?;
    let landmarks = plan_landmarks(alloc, plan)?;
    let mut text = String::new(alloc);
    text.push_str("graph {\n")?;
    push_all_nodes(&mut text, graph, plan, landmarks.as_slice())?;
    push_all_edges(&mut text, graph, plan, walk.as_slice())?;
    text.push_str("}\n")?;
    Ok(text)
}
