//! The text of a plan's forwarding tables.
ghost use Rattle.std.specs.Prelude.{◌≡◌, ◌<◌, ◌≤◌, ◌++◌, IfOk, IfSome, OnOk, All, length, flat_map, string_bytes};
ghost use Rattle.ir_model.specs.{Graph.names, Topology.{node_count, ports_of}, Plan.IsPlan};
ghost use Rattle.ir_trace.specs.Rows.{spaced};
ghost use Rattle.ir_show.specs.Words.{line_text};
ghost use Rattle.ir_exports.specs.Before.{IsTextOfLines};
ghost use Rattle.ir_exports.specs.PrefixesText.{entry_words, prefixes_head, prefix_node_words};

use ir_graph::Graph;
use ir_plan::Plan;
use ir_prefix::{TableLine, width};
use ir_show::TextResult;
use ir_show::plan_text::kind_text;
use ir_trace::text::{name_of, push_name, push_next_number, push_word};
use std::alloc::{AllocError, Global};

/// Writes a line of a node: its prefix, and the neighbour at its port. Where there is no port it writes `#`, which no
/// name holds.
fn push_entry(text: &mut String, graph: &Graph, plan: &Plan, u: u16, line: &TableLine) -> TextResult
    requires nodes { node_count plan.now.topology ≡ length graph.now }
    requires plan { IsPlan plan.now }
    requires node { u < length graph.now }
    requires port { IfSome line.now.port (λ p. p < length (ports_of plan.now.topology u)) }
    ensures { OnOk result (string_bytes text.new ≡ string_bytes text.old
        ++ flat_map spaced (entry_words (names graph.now) plan.now.topology u line.now)) }
{
    write!(text, " {}/{}", line.value, line.length)?;
    match line.port {
        Some(port) => push_name(text, graph, plan.hop(u, port).node),
        None => push_word(text, "#"),
    }
}

fn push_entries(
    text: &mut String,
    graph: &Graph,
    plan: &Plan,
    u: u16,
    table: &[TableLine],
) -> TextResult
    requires nodes { node_count plan.now.topology ≡ length graph.now }
    requires plan { IsPlan plan.now }
    requires node { u < length graph.now }
    requires ports { All (λ m. IfSome m.port (λ p. p < length (ports_of plan.now.topology u))) table.now }
    ensures { OnOk result (string_bytes text.new ≡ string_bytes text.old
        ++ flat_map spaced (flat_map (entry_words (names graph.now) plan.now.topology u) table.now)) }
{
    for line in table {
        push_entry(text, graph, plan, u, line)?;
    }
    Ok(())
}

/// Writes the line of text of a node.
#[tactic(auto, using(ir_show::proofs::PlanLines::words_of_a_line))]
pub fn push_node(
    text: &mut String,
    graph: &Graph,
    plan: &Plan,
    u: u16,
    table: &[TableLine],
) -> TextResult
    requires nodes { node_count plan.now.topology ≡ length graph.now }
    requires plan { IsPlan plan.now }
    requires node { u < length graph.now }
    requires ports { All (λ m. IfSome m.port (λ p. p < length (ports_of plan.now.topology u))) table.now }
    ensures { OnOk result (string_bytes text.new ≡ string_bytes text.old
        ++ line_text (prefix_node_words (names graph.now) plan.now u table.now)) }
{
    text.push_str(name_of(graph, u))?;
    push_next_number(text, plan.label_of(u) as usize)?;
    push_entries(text, graph, plan, u, table)?;
    text.push_str("\n")
}

fn push_head(text: &mut String, plan: &Plan, bits: u8, lines: usize) -> TextResult
    ensures { OnOk result (string_bytes text.new ≡ string_bytes text.old
        ++ line_text (prefixes_head plan.now bits lines)) }
{
    text.push_str("prefixes")?;
    push_word(text, kind_text(plan.kind()))?;
    push_next_number(text, plan.nodes())?;
    push_next_number(text, bits as usize)?;
    push_next_number(text, lines)?;
    text.push_str("\n")
}

/// The whole text, of the lines of all nodes, and how many these are.
pub fn text_of_lines(
    alloc: Global,
    plan: &Plan,
    lines: usize,
    tables: &str,
) -> Result<String, AllocError>
    ensures { IfOk result (λ text. IsTextOfLines plan.now lines tables.now (string_bytes text)) }
{
    let bits = width(plan.nodes() as u16);
    let mut text = String::new(alloc);
    push_head(&mut text, plan, bits, lines)?;
    text.push_str(tables)?;
    Ok(text)
}
