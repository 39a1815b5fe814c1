//! What is written round the circle: names, labels, and the bounds of intervals.
ghost use Rattle.std.specs.Prelude.{◌≡◌, ◌<◌, ◌++◌, OnOk, length, slice_index_or, string_bytes, flat_map};
ghost use Rattle.std.specs.List.{range_with_len};
ghost use Rattle.ir_model.specs.{Graph.names, Topology.node_count, Row.intervals_of, Plan.{IsPlan, label_in, row_in}};
ghost use Rattle.ir_trace.specs.Written.{name_at};
ghost use Rattle.ir_show.specs.WalkText.{no_interval};
ghost use Rattle.ir_exports.specs.Names.{short_name};
ghost use Rattle.ir_exports.specs.Around.{degrees, angle, spoke, anchor, bold_text, outside_start, outside, label_text, cell, bound, starts, bounds, around};

use crate::circle::names::push_short_name;
use ir_graph::Graph;
use ir_plan::Plan;
use ir_show::TextResult;
use ir_show::interval::interval_at;

/// Writes an angle in degrees, to a thousandth.
fn push_degrees(text: &mut String, thousandths: u64) -> TextResult
    ensures { OnOk result (string_bytes text.new ≡ string_bytes text.old ++ degrees thousandths) }
{
    let whole = thousandths / 1000;
    let tenths = thousandths / 100 % 10;
    let hundredths = thousandths / 10 % 10;
    let last = thousandths % 10;
    write!(text, "{whole}.{tenths}{hundredths}{last}")
}

fn push_angle(text: &mut String, n: u16, half_cells: u32) -> TextResult
    requires { 0 < n }
    ensures { OnOk result (string_bytes text.new ≡ string_bytes text.old ++ angle n half_cells) }
{
    push_degrees(text, 180_000 * half_cells as u64 / n as u64)
}

/// Writes a text element at half cells of the circle of `n` labels, up to its place.
fn push_spoke(text: &mut String, n: u16, half_cells: u32) -> TextResult
    requires { 0 < n }
    ensures { OnOk result (string_bytes text.new ≡ string_bytes text.old ++ spoke n half_cells) }
{
    text.push_str("<text transform=\"rotate(")?;
    if half_cells <= n as u32 {
        push_angle(text, n, half_cells)?;
        text.push_str(")\" y=\"4\" x=\"")?;
    } else {
        push_angle(text, n, half_cells - n as u32)?;
        text.push_str(")\" y=\"4\" x=\"-")?;
    }
    Ok(())
}

/// Which end of a text is at its place.
fn anchor(n: u16, half_cells: u32) -> &'static str
    ensures { result.now ≡ anchor n half_cells }
{
    if half_cells <= n as u32 {
        "start"
    } else {
        "end"
    }
}

/// How a text says that it is bold.
fn bold_text(is_bold: bool) -> &'static str
    ensures { result.now ≡ bold_text is_bold }
{
    if is_bold { " font-weight=\"bold\"" } else { "" }
}

/// Writes a text element outside the circle, up to its words.
fn push_outside(text: &mut String, n: u16, half_cells: u32, is_bold: bool) -> TextResult
    requires { 0 < n }
    ensures { OnOk result (string_bytes text.new ≡ string_bytes text.old ++ outside_start n half_cells is_bold) }
{
    push_spoke(text, n, half_cells)?;
    text.push_str("248\" text-anchor=\"")?;
    text.push_str(anchor(n, half_cells))?;
    text.push_str("\"")?;
    text.push_str(bold_text(is_bold))?;
    text.push_str(">")
}

/// Writes the name of a node outside the circle.
fn push_name_outside(
    text: &mut String,
    graph: &Graph,
    n: u16,
    half_cells: u32,
    is_bold: bool,
    v: u16,
) -> TextResult
    requires n { 0 < n }
    requires node { v < length graph.now }
    ensures { OnOk result (string_bytes text.new ≡ string_bytes text.old
        ++ outside n half_cells is_bold (short_name (name_at (names graph.now) v))) }
{
    push_outside(text, n, half_cells, is_bold)?;
    push_short_name(text, graph, v)?;
    text.push_str("</text>\n")?;
    Ok(())
}

fn push_label(text: &mut String, n: u16, d: u16) -> TextResult
    requires { 0 < n }
    ensures { OnOk result (string_bytes text.new ≡ string_bytes text.old ++ label_text n d) }
{
    push_spoke(text, n, 2 * d as u32 + 1)?;
    write!(
        text,
        "226\" text-anchor=\"middle\" fill=\"#ffffff\">{d}</text>\n"
    )
}

/// Writes a label in its cell, and outside the name of its node.
fn push_cell(text: &mut String, graph: &Graph, plan: &Plan, u: u16, d: u16) -> TextResult
    requires nodes { node_count plan.now.topology ≡ length graph.now }
    requires node { u < length graph.now }
    requires label { d < length graph.now }
    ensures { OnOk result (string_bytes text.new ≡ string_bytes text.old ++ cell (names graph.now) plan.now u d) }
{
    let n = plan.nodes() as u16;
    push_label(text, n, d)?;
    let is_own = d == plan.label_of(u);
    push_name_outside(text, graph, n, 2 * d as u32 + 1, is_own, plan.node_of(d))?;
    Ok(())
}

fn push_cells(text: &mut String, graph: &Graph, plan: &Plan, u: u16) -> TextResult
    requires nodes { node_count plan.now.topology ≡ length graph.now }
    requires node { u < length graph.now }
    ensures { OnOk result (string_bytes text.new ≡ string_bytes text.old
        ++ flat_map (cell (names graph.now) plan.now u) (range_with_len 0 (node_count plan.now.topology))) }
{
    for d in 0..plan.nodes() {
        push_cell(text, graph, plan, u, d as u16)?;
    }
    Ok(())
}

/// Writes where the interval at a place of a node's row begins.
fn push_bound(text: &mut String, plan: &Plan, u: u16, i: usize) -> TextResult
    requires plan { IsPlan plan.now }
    requires node { u < node_count plan.now.topology }
    requires place { i < length (row_in plan.now u) }
    ensures { OnOk result (string_bytes text.new ≡ string_bytes text.old
        ++ bound (node_count plan.now.topology) (slice_index_or (intervals_of (row_in plan.now u)) i no_interval)) }
{
    let interval = interval_at(plan, u, i);
    let start = interval.start;
    push_outside(text, plan.nodes() as u16, 2 * start as u32, false)?;
    write!(text, "{start}</text>\n")?;
    Ok(())
}

/// Writes where each interval of a node's row begins, where there is room for it.
fn push_starts(text: &mut String, plan: &Plan, u: u16) -> TextResult
    requires plan { IsPlan plan.now }
    requires node { u < node_count plan.now.topology }
    ensures { OnOk result (string_bytes text.new ≡ string_bytes text.old ++ starts plan.now u) }
{
    let count = plan.row(u).len();
    if count > 64 {
        return Ok(());
    }
    for i in 0..count {
        push_bound(text, plan, u, i)?;
    }
    Ok(())
}

/// Writes the bounds of a node's intervals, and its name.
fn push_bounds(text: &mut String, graph: &Graph, plan: &Plan, u: u16) -> TextResult
    requires nodes { node_count plan.now.topology ≡ length graph.now }
    requires node { u < length graph.now }
    ensures { OnOk result (string_bytes text.new ≡ string_bytes text.old ++ bounds (names graph.now) plan.now u) }
{
    let n = plan.nodes() as u16;
    push_starts(text, plan, u)?;
    push_name_outside(text, graph, n, 2 * plan.label_of(u) as u32 + 1, true, u)?;
    Ok(())
}

/// Writes what is round the circle.
pub fn push_around(text: &mut String, graph: &Graph, plan: &Plan, u: u16) -> TextResult
    requires nodes { node_count plan.now.topology ≡ length graph.now }
    requires node { u < length graph.now }
    ensures { OnOk result (string_bytes text.new ≡ string_bytes text.old ++ around (names graph.now) plan.now u) }
{
    if plan.nodes() <= 64 {
        push_cells(text, graph, plan, u)
    } else {
        push_bounds(text, graph, plan, u)
    }
}
