//! The circle of labels for Graphviz.
ghost use Rattle.std.specs.Prelude.{◌≡◌, ◌<◌, ◌++◌, IfOk, OnOk, IfSome, Option, length, string_bytes, flat_map};
ghost use Rattle.std.specs.List.{range_with_len};
ghost use Rattle.ir_model.specs.{Graph.names, Topology.{node_count, ports_of}};
ghost use Rattle.ir_exports.specs.Ring.{paint, node_of_ring, label_behind, edge_of_ring, port_box, more_box, ring_head, circle_dot};

use crate::circle::ports::{INK, colour, node_by, push_first, shown_ports};
use ir_graph::Graph;
use ir_plan::Plan;
use ir_show::TextResult;
use ir_show::quoted::{push_escaped_name, push_quoted};
use std::alloc::{AllocError, Global};

/// The colour of a label by its port, if it has one.
fn paint(port: Option<u16>) -> &'static str
    ensures { result.now ≡ paint port }
{
    match port {
        None => INK,
        Some(port) => colour(port),
    }
}

/// Writes the node with a label.
fn push_ring_node(text: &mut String, graph: &Graph, plan: &Plan, u: u16, d: u16) -> TextResult
    requires nodes { node_count plan.now.topology ≡ length graph.now }
    requires node { u < length graph.now }
    requires label { d < length graph.now }
    ensures { OnOk result (string_bytes text.new ≡ string_bytes text.old
        ++ node_of_ring (names graph.now) plan.now u d) }
{
    plan.invariant();
    let v = plan.node_of(d);
    text.push_str("  ")?;
    push_quoted(text, graph, v)?;
    text.push_str(" [label=\"")?;
    push_escaped_name(text, graph, v)?;
    write!(text, "\\n{d}\", fillcolor=\"")?;
    text.push_str(paint(plan.port(u, d)))?;
    text.push_str("\"];\n")
}

fn push_ring_nodes(text: &mut String, graph: &Graph, plan: &Plan, u: u16) -> TextResult
    requires nodes { node_count plan.now.topology ≡ length graph.now }
    requires node { u < length graph.now }
    ensures { OnOk result (string_bytes text.new ≡ string_bytes text.old
        ++ flat_map (node_of_ring (names graph.now) plan.now u) (range_with_len 0 (node_count plan.now.topology))) }
{
    for d in 0..plan.nodes() {
        push_ring_node(text, graph, plan, u, d as u16)?;
    }
    Ok(())
}

/// The label after another of `n` labels.
fn label_behind(n: u16, d: u16) -> u16
    requires { d < n }
    ensures label { result ≡ label_behind n d }
    ensures within { result < n }
{
    if d + 1 == n { 0 } else { d + 1 }
}

/// Writes the edge from the node with a label to that with the next.
fn push_ring_edge(text: &mut String, graph: &Graph, plan: &Plan, d: u16) -> TextResult
    requires nodes { node_count plan.now.topology ≡ length graph.now }
    requires label { d < length graph.now }
    ensures { OnOk result (string_bytes text.new
        ≡ string_bytes text.old ++ edge_of_ring (names graph.now) plan.now d) }
{
    let n = plan.nodes() as u16;
    if n == 1 {
        return Ok(());
    }
    let next = plan.node_of(label_behind(n, d));
    text.push_str("  ")?;
    push_quoted(text, graph, plan.node_of(d))?;
    text.push_str(" -- ")?;
    push_quoted(text, graph, next)?;
    text.push_str(";\n")
}

fn push_ring_edges(text: &mut String, graph: &Graph, plan: &Plan) -> TextResult
    requires { node_count plan.now.topology ≡ length graph.now }
    ensures { OnOk result (string_bytes text.new ≡ string_bytes text.old
        ++ flat_map (edge_of_ring (names graph.now) plan.now) (range_with_len 0 (node_count plan.now.topology))) }
{
    for d in 0..plan.nodes() {
        push_ring_edge(text, graph, plan, d as u16)?;
    }
    Ok(())
}

fn push_port_box(text: &mut String, graph: &Graph, plan: &Plan, u: u16, port: u16) -> TextResult
    requires nodes { node_count plan.now.topology ≡ length graph.now }
    requires node { u < length graph.now }
    requires port { port < length (ports_of plan.now.topology u) }
    ensures { OnOk result (string_bytes text.new ≡ string_bytes text.old
        ++ port_box (names graph.now) plan.now u port) }
{
    plan.invariant();
    write!(text, "  \"port {port}\" [fillcolor=\"")?;
    text.push_str(colour(port))?;
    text.push_str("\", label=\"")?;
    push_escaped_name(text, graph, node_by(plan, u, port))?;
    text.push_str(":")?;
    push_first(text, plan, u, port)?;
    text.push_str("\"];\n")
}

/// Writes how many ports have no box.
fn push_more_box(text: &mut String, count: usize) -> TextResult
    ensures { OnOk result (string_bytes text.new ≡ string_bytes text.old ++ more_box count) }
{
    if count > 30 {
        let more = count - 30;
        write!(
            text,
            "  \"more ports\" [fillcolor=\"#1d2733\", label=\"and {more} more ports\"];\n"
        )
    } else {
        Ok(())
    }
}

fn push_ring_head(text: &mut String) -> TextResult
    ensures { OnOk result (string_bytes text.new ≡ string_bytes text.old ++ ring_head) }
{
    text.push_str(
        "strict graph {\n  layout=circo;\n  node [shape=box, style=\"rounded,filled\", fontname=\"sans-serif\", fontcolor=\"#ffffff\"];\n",
    )?;
    text.push_str("  edge [color=\"#9aa5b1\"];\n")?;
    Ok(())
}

/// The circle of labels for Graphviz: a `strict graph` of all nodes in a ring by label, each with
/// its name and label in the colour of the port that `u` has for it. Each of its first 30 ports has
/// a box with the neighbour's name and its intervals. Condition: the plan is over the graph's
/// network, of which `u` is a node. It is refused for memory alone. Takes O(n log k), for n nodes
/// and k intervals of `u`.
pub fn circle_dot(alloc: Global, graph: &Graph, plan: &Plan, u: u16) -> Result<String, AllocError>
    requires nodes { node_count plan.now.topology ≡ length graph.now }
    requires node { u < length graph.now }
    ensures { IfOk result (λ text. string_bytes text ≡ circle_dot (names graph.now) plan.now u) }
{
    let mut text = String::new(alloc);
    push_ring_head(&mut text)?;
    push_ring_nodes(&mut text, graph, plan, u)?;
    push_ring_edges(&mut text, graph, plan)?;
    let ports = plan.topology().degree(u);
    for port in 0..shown_ports(ports) {
        push_port_box(&mut text, graph, plan, u, port as u16)?;
    }
    push_more_box(&mut text, ports)?;
    text.push_str("}\n")?;
    Ok(text)
}
