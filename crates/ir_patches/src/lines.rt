//! The lines of nodes that change.
ghost use Rattle.std.specs.Prelude.{◌≡◌, ◌<◌, ◌++◌, ◌≤◌, All, IfOk, OnOk, drop, length, flat_map, string_bytes};
ghost use Rattle.ir_diff.specs.declared.changes.Lead.{Lead};
ghost use Rattle.ir_model.specs.Graph.{names};
ghost use Rattle.ir_trace.specs.Rows.{spaced};
ghost use Rattle.ir_show.specs.Words.{line_text};
ghost use Rattle.ir_patches.specs.DiffText.{change_words, put_below, put_from, put_words, removed_words, step_words};
ghost use Rattle.ir_patches.specs.Sides.{changes_held};

use crate::rows::NodeChanges;
use ir_diff::Lead;
use ir_graph::Graph;
use ir_show::TextResult;
use ir_trace::text::{push_name, push_next_number};
use std::alloc::AllocError;

/// Writes that a start is removed.
fn push_removed(text: &mut String, start: u16) -> TextResult
    ensures { OnOk result (string_bytes text.new ≡ string_bytes text.old ++ flat_map spaced (removed_words start)) }
{
    write!(text, " - {start}")
}

/// Writes that a start is put, and the name of the neighbour that its interval leads to.
fn push_put(text: &mut String, graph: &Graph, lead: Lead) -> TextResult
    requires { lead.node < length graph.now }
    ensures { OnOk result (string_bytes text.new ≡ string_bytes text.old
        ++ flat_map spaced (put_words (names graph.now) lead)) }
{
    text.push_str(" +")?;
    push_next_number(text, lead.start as usize)?;
    push_name(text, graph, lead.node)
}

/// Writes what is put from a place on, and is below a start; and answers the place after it.
fn push_below(
    text: &mut String,
    graph: &Graph,
    put: &[Lead],
    place: usize,
    start: u16,
) -> Result<usize, AllocError>
    requires nodes { All (λ (m : Lead). m.node < length graph.now) put.now }
    requires place { place ≤ length put.now }
    ensures text { OnOk result (string_bytes text.new ≡ string_bytes text.old
        ++ flat_map spaced (flat_map (put_words (names graph.now)) (put_below start (drop place put.now)))) }
    ensures rest { IfOk result (λ end. drop end put.now ≡ put_from start (drop place put.now)) }
    ensures within { IfOk result (λ end. end ≤ length put.now) }
{
    let mut end = place;
    while end < put.len() && put[end].start < start {
        push_put(text, graph, put[end])?;
        end += 1;
    }
    Ok(end)
}

/// Writes what is put.
fn push_all(text: &mut String, graph: &Graph, put: &[Lead]) -> TextResult
    requires { All (λ (m : Lead). m.node < length graph.now) put.now }
    ensures { OnOk result (string_bytes text.new ≡ string_bytes text.old
        ++ flat_map spaced (flat_map (put_words (names graph.now)) put.now)) }
{
    for lead in put {
        push_put(text, graph, *lead)?;
    }
    Ok(())
}

/// Writes what is removed and what is put, by ascending starts.
fn push_steps(text: &mut String, graph: &Graph, removed: &[u16], put: &[Lead]) -> TextResult
    requires { All (λ (m : Lead). m.node < length graph.now) put.now }
    ensures { OnOk result (string_bytes text.new ≡ string_bytes text.old
        ++ flat_map spaced (step_words (names graph.now) removed.now put.now)) }
{
    let mut place = 0;
    for start in removed {
        place = push_below(text, graph, put, place, *start)?;
        push_removed(text, *start)?;
    }
    push_all(text, graph, &put[place..])
}

/// Writes the line of a node that changes.
pub fn push_line(text: &mut String, graph: &Graph, name: &str, change: &NodeChanges) -> TextResult
    requires { All (λ (m : Lead). m.node < length graph.now) change.now.row.put.items }
    ensures { OnOk result (string_bytes text.new ≡ string_bytes text.old
        ++ line_text (change_words (names graph.now) name.now (changes_held change.now))) }
{
    text.push_str(name)?;
    push_next_number(text, change.was as usize)?;
    push_next_number(text, change.label as usize)?;
    push_steps(
        text,
        graph,
        change.row.removed.as_slice(),
        change.row.put.as_slice(),
    )?;
    text.push_str("\n")
}
