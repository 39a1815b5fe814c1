//! The text of a plan's figures.
ghost use Rattle.std.specs.Prelude.{◌≡◌, ◌<◌, ◌≤◌, ◌++◌, IfOk, IfSome, OnOk, length, string_bytes};
ghost use Rattle.ir_model.specs.{Graph.names, Topology.node_count};
ghost use Rattle.ir_show.specs.StatsText.{IsGreatestRow, stats_head, count_line, greatest_line, rows_text, IsStatsOf};
ghost use Rattle.ir_show.specs.{Figures.{weighed_line, figures_text}, Words.line_text};

use crate::TextResult;
use crate::figures::{Figures, figures_of};
use crate::plan_text::kind_text;
use crate::worst::Weighed;
use ir_graph::Graph;
use ir_plan::Plan;
use ir_trace::text::{push_name, push_next_number, push_word};
use std::alloc::{AllocError, Global};

/// The first node with a row that no other node's exceeds. Takes O(n), for n nodes.
pub fn greatest_row(plan: &Plan) -> u16
    ensures { IsGreatestRow plan.now result }
{
    let mut best = 0;
    for u in 1..plan.nodes() {
        if plan.row(best).len() < plan.row(u as u16).len() {
            best = u as u16;
        }
    }
    best
}

fn push_head(text: &mut String, plan: &Plan) -> TextResult
    ensures { OnOk result (string_bytes text.new ≡ string_bytes text.old ++ line_text (stats_head plan.now)) }
{
    text.push_str("stats")?;
    push_word(text, kind_text(plan.kind()))?;
    push_next_number(text, plan.nodes())?;
    text.push_str("\n")
}

/// Writes a line of a word and a number.
fn push_count(text: &mut String, what: &str, count: usize) -> TextResult
    ensures { OnOk result (string_bytes text.new ≡ string_bytes text.old ++ count_line what.now count) }
{
    text.push_str(what)?;
    push_next_number(text, count)?;
    text.push_str("\n")
}

/// Writes the line of the greatest row, which is that of a node.
fn push_greatest(text: &mut String, graph: &Graph, plan: &Plan, u: u16) -> TextResult
    requires nodes { node_count plan.now.topology ≡ length graph.now }
    requires node { u < length graph.now }
    ensures { OnOk result (string_bytes text.new ≡ string_bytes text.old
        ++ greatest_line (names graph.now) plan.now u) }
{
    text.push_str("greatest-row")?;
    push_name(text, graph, u)?;
    push_next_number(text, plan.row(u).len())?;
    text.push_str("\n")?;
    Ok(())
}

fn push_worst(text: &mut String, graph: &Graph, worst: Option<Weighed>) -> TextResult
    requires { IfSome worst (λ p. (p.ends.from < length graph.now) × (p.ends.to < length graph.now)) }
    ensures { OnOk result (string_bytes text.new ≡ string_bytes text.old ++ weighed_line (names graph.now) worst) }
{
    let Some(pair) = worst else {
        return Ok(());
    };
    text.push_str("worst")?;
    push_name(text, graph, pair.ends.from)?;
    push_name(text, graph, pair.ends.to)?;
    push_next_number(text, pair.walk as usize)?;
    push_next_number(text, pair.distance as usize)?;
    text.push_str("\n")
}

/// Writes the lines that count what a plan holds, of which one is for the greatest row.
fn push_rows(text: &mut String, graph: &Graph, plan: &Plan, greatest: u16) -> TextResult
    requires nodes { node_count plan.now.topology ≡ length graph.now }
    requires greatest { greatest < length graph.now }
    ensures { OnOk result (string_bytes text.new ≡ string_bytes text.old
        ++ rows_text (names graph.now) plan.now greatest) }
{
    let nodes = plan.nodes();
    push_head(text, plan)?;
    push_count(text, "links", plan.topology().links())?;
    push_count(text, "starts", plan.labels())?;
    push_count(text, "entries", nodes * (nodes - 1))?;
    push_greatest(text, graph, plan, greatest)
}

fn push_weights(text: &mut String, graph: &Graph, figures: &Figures) -> TextResult
    requires { IfSome figures.now.worst (λ p. (p.ends.from < length graph.now) × (p.ends.to < length graph.now)) }
    ensures { OnOk result (string_bytes text.new ≡ string_bytes text.old
        ++ figures_text (names graph.now) figures.now) }
{
    push_count(text, "walks", figures.walks as usize)?;
    push_count(text, "distances", figures.distances as usize)?;
    push_worst(text, graph, figures.worst)
}

/// The text of the figures of a plan. Condition: the plan is over the graph's network. It is refused for memory alone.
/// Takes O(n (n + m) log n), for n nodes and m links.
pub fn stats_text(alloc: Global, graph: &Graph, plan: &Plan) -> Result<String, AllocError>
    requires { node_count plan.now.topology ≡ length graph.now }
    ensures { IfOk result (λ text. IsStatsOf (names graph.now) plan.now (string_bytes text)) }
{
    plan.invariant();
    let figures = figures_of(alloc, plan)?;
    let greatest = greatest_row(plan);
    let mut text = String::new(alloc);
    push_rows(&mut text, graph, plan, greatest)?;
    push_weights(&mut text, graph, &figures)?;
    Ok(text)
}
