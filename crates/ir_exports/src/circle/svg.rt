//! The circle of labels as SVG.
ghost use Rattle.std.specs.Prelude.{◌≡◌, ◌<◌, ◌≤◌, ◌++◌, IfOk, OnOk, length, string_bytes, flat_map, slice_index_or};
ghost use Rattle.ir_model.specs.{Graph.names, Topology.node_count, Row.intervals_of, Plan.{IsPlan, row_in}};
ghost use Rattle.ir_show.specs.{Intervals.as_interval, WalkText.no_interval};
ghost use Rattle.ir_exports.specs.Circle.{label_count, arc_start, arc_end, arc, own_arc, label_marks, ring_start, ring, head, middle, circle_svg};

use crate::circle::around::push_around;
use crate::circle::key::push_key;
use crate::circle::names::{push_short_name, push_xml_name};
use crate::circle::ports::{INK, colour, node_by, push_said};
use ir_graph::Graph;
use ir_plan::Plan;
use ir_show::TextResult;
use ir_show::interval::{Interval, interval_at};
use std::alloc::{AllocError, Global};

/// How many of `n` labels an interval has.
fn label_count(n: u16, interval: Interval) -> u16
    requires start { interval.start < n }
    requires end { interval.end < n }
    ensures { result ≡ label_count n (as_interval interval) }
{
    if interval.start < interval.end {
        interval.end - interval.start
    } else {
        n - interval.start + interval.end
    }
}

/// Writes an arc of the circle of `n` labels, up to what it says of itself.
fn push_arc_start(text: &mut String, n: u16, paint: &str, start: u16, count: u16) -> TextResult
    requires start { start ≤ n }
    requires count { count ≤ n }
    ensures { OnOk result (string_bytes text.new ≡ string_bytes text.old ++ arc_start n paint.now start count) }
{
    let radius = 113 * n as u32;
    let long = 710 * count as u32;
    let gap = 710 * (n - count) as u32;
    let offset = 710 * (n - start) as u32;
    write!(text, "<circle r=\"{radius}\" stroke=\"")?;
    text.push_str(paint)?;
    write!(
        text,
        "\" stroke-dasharray=\"{long} {gap}\" stroke-dashoffset=\"{offset}\"><title>"
    )?;
    Ok(())
}

/// Writes the arc of the interval at a place of a node's row.
fn push_arc(text: &mut String, graph: &Graph, plan: &Plan, u: u16, i: usize) -> TextResult
    requires nodes { node_count plan.now.topology ≡ length graph.now }
    requires plan { IsPlan plan.now }
    requires node { u < length graph.now }
    requires place { i < length (row_in plan.now u) }
    ensures { OnOk result (string_bytes text.new ≡ string_bytes text.old ++ arc (names graph.now) plan.now u
        (slice_index_or (intervals_of (row_in plan.now u)) i no_interval)) }
{
    let n = plan.nodes() as u16;
    let interval = interval_at(plan, u, i);
    let count = label_count(n, interval);
    push_arc_start(text, n, colour(interval.port), interval.start, count)?;
    push_said(text, interval)?;
    text.push_str(" to ")?;
    push_xml_name(text, graph, node_by(plan, u, interval.port))?;
    text.push_str("</title></circle>\n")?;
    Ok(())
}

fn push_arcs(text: &mut String, graph: &Graph, plan: &Plan, u: u16) -> TextResult
    requires nodes { node_count plan.now.topology ≡ length graph.now }
    requires node { u < length graph.now }
    ensures { OnOk result (string_bytes text.new ≡ string_bytes text.old
        ++ flat_map (arc (names graph.now) plan.now u) (intervals_of (row_in plan.now u))) }
{
    plan.invariant();
    let count = plan.row(u).len();
    for i in 0..count {
        push_arc(text, graph, plan, u, i)?;
    }
    Ok(())
}

fn push_own_arc(text: &mut String, graph: &Graph, plan: &Plan, u: u16) -> TextResult
    requires nodes { node_count plan.now.topology ≡ length graph.now }
    requires node { u < length graph.now }
    ensures { OnOk result (string_bytes text.new ≡ string_bytes text.old ++ own_arc (names graph.now) plan.now u) }
{
    push_arc_start(text, plan.nodes() as u16, INK, plan.label_of(u), 1)?;
    push_xml_name(text, graph, u)?;
    text.push_str(" itself")?;
    text.push_str("</title></circle>\n")?;
    Ok(())
}

/// Writes the marks between labels, where there is room for them.
fn push_marks(text: &mut String, n: u16) -> TextResult
    ensures { OnOk result (string_bytes text.new ≡ string_bytes text.old ++ label_marks n) }
{
    if n <= 64 {
        let radius = 113 * n;
        let gap = 710 - n;
        let offset = n / 2;
        write!(
            text,
            "<circle r=\"{radius}\" stroke=\"#ffffff\" stroke-dasharray=\"{n} {gap}\" stroke-dashoffset=\"{offset}\"/>\n"
        )?;
    }
    Ok(())
}

fn push_ring_start(text: &mut String, n: u16) -> TextResult
    ensures { OnOk result (string_bytes text.new ≡ string_bytes text.old ++ ring_start n) }
{
    let half = 185 * n as u32;
    let side = 370 * n as u32;
    let broad = 14 * n as u32;
    write!(
        text,
        "<svg x=\"-370\" y=\"-370\" width=\"740\" height=\"740\" viewBox=\"-{half} -{half} {side} {side}\">\n"
    )?;
    write!(
        text,
        "<g transform=\"rotate(-90)\" fill=\"none\" stroke-width=\"{broad}\">\n"
    )?;
    Ok(())
}

fn push_ring(text: &mut String, graph: &Graph, plan: &Plan, u: u16) -> TextResult
    requires nodes { node_count plan.now.topology ≡ length graph.now }
    requires node { u < length graph.now }
    ensures { OnOk result (string_bytes text.new ≡ string_bytes text.old ++ ring (names graph.now) plan.now u) }
{
    let n = plan.nodes() as u16;
    push_ring_start(text, n)?;
    push_arcs(text, graph, plan, u)?;
    push_own_arc(text, graph, plan, u)?;
    push_marks(text, n)?;
    text.push_str("</g>\n</svg>\n")?;
    Ok(())
}

/// Writes what the document begins with.
fn push_head(text: &mut String, graph: &Graph, u: u16) -> TextResult
    requires { u < length graph.now }
    ensures { OnOk result (string_bytes text.new ≡ string_bytes text.old ++ head (names graph.now) u) }
{
    text.push_str(
        "<svg xmlns=\"http://www.w3.org/2000/svg\" width=\"1280\" height=\"740\" viewBox=\"-370 -370 1280 740\" font-family=\"sans-serif\" font-size=\"13\" fill=\"#1d2733\">\n<title>",
    )?;
    push_xml_name(text, graph, u)?;
    text.push_str(
        "</title>\n<rect x=\"-370\" y=\"-370\" width=\"1280\" height=\"740\" fill=\"#ffffff\"/>\n",
    )?;
    Ok(())
}

/// Writes a node's name and label in the middle.
fn push_middle(text: &mut String, graph: &Graph, plan: &Plan, u: u16) -> TextResult
    requires nodes { node_count plan.now.topology ≡ length graph.now }
    requires node { u < length graph.now }
    ensures { OnOk result (string_bytes text.new ≡ string_bytes text.old ++ middle (names graph.now) plan.now u) }
{
    text.push_str("<text font-size=\"24\" text-anchor=\"middle\">")?;
    push_short_name(text, graph, u)?;
    let label = plan.label_of(u);
    write!(
        text,
        "</text>\n<text y=\"24\" text-anchor=\"middle\">label {label}</text>\n"
    )?;
    Ok(())
}

/// The circle of labels as SVG, with an arc for each interval of a node in the colour of its port.
/// Beside it each of its first 30 ports has a line with the neighbour's name and its intervals.
/// Each label is there with its node's name up to 64 nodes; above, the bounds of up to 64
/// intervals. Condition: the plan is over the graph's network, of which `u` is a node. It is
/// refused for memory alone. Takes O(n), for n nodes.
pub fn circle_svg(alloc: Global, graph: &Graph, plan: &Plan, u: u16) -> Result<String, AllocError>
    requires nodes { node_count plan.now.topology ≡ length graph.now }
    requires node { u < length graph.now }
    ensures { IfOk result (λ text. string_bytes text ≡ circle_svg (names graph.now) plan.now u) }
{
    let mut text = String::new(alloc);
    push_head(&mut text, graph, u)?;
    push_ring(&mut text, graph, plan, u)?;
    text.push_str("<g transform=\"rotate(-90)\">\n")?;
    push_around(&mut text, graph, plan, u)?;
    text.push_str("</g>\n")?;
    push_middle(&mut text, graph, plan, u)?;
    push_key(&mut text, graph, plan, u)?;
    text.push_str("</svg>\n")?;
    Ok(text)
}
