//! The text of a plan's figures, those of the field among them.
ghost use Rattle.std.specs.Prelude.{◌≡◌, ◌<◌, ◌++◌, ◌∷◌, ℕ, List, IfOk, IfSome, OnOk, codes, flat_map, length, map, slice_index, string_bytes};
ghost use Rattle.std.specs.Option.{option_map};
ghost use Rattle.ir_model.specs.{Graph.names, Topology.node_count};
ghost use Rattle.ir_trace.specs.{Rows.spaced, Written.name_at};
ghost use Rattle.ir_show.specs.{Drawing.ArePlanLandmarks, StatsText.count_line, Words.line_text};
ghost use Rattle.ir_figures.specs.Compactness.{HasPortNumber};
ghost use Rattle.ir_figures.specs.FiguresText.{most_line, bits_line, landmarks_text, ring_line, AreFiguresOf, AreFiguresBeside};

use crate::bits::{Bits, bits_of};
use crate::most::{Most, most_intervals};
use crate::waits::{waiting_ring, waiting_ring_together};
use ir_bounds::most_linked;
use ir_graph::Graph;
use ir_model::Kind;
use ir_plan::Plan;
use ir_show::{TextResult, stats_text};
use ir_trace::text::{push_name, push_next_number};
use std::alloc::{AllocError, Global};

/// Writes the line of the port of the most intervals, if there is one.
fn push_most(text: &mut String, graph: &Graph, plan: &Plan, most: Option<Most>) -> TextResult
    requires nodes { node_count plan.now.topology ≡ length graph.now }
    requires port { IfSome most (λ m. HasPortNumber plan.now m.node m.port) }
    ensures { OnOk result (string_bytes text.new ≡ string_bytes text.old
        ++ most_line (names graph.now) plan.now most) }
{
    let Some(most) = most else {
        return Ok(());
    };
    plan.invariant();
    let hop = plan.hop(most.node, most.port);
    text.push_str("compactness")?;
    push_name(text, graph, most.node)?;
    push_name(text, graph, hop.node)?;
    push_next_number(text, most.count)?;
    text.push_str("\n")
}

fn push_bits(text: &mut String, bits: Bits) -> TextResult
    ensures { OnOk result (string_bytes text.new ≡ string_bytes text.old ++ bits_line bits.rows bits.tables) }
{
    text.push_str("bits")?;
    push_next_number(text, bits.rows as usize)?;
    push_next_number(text, bits.tables as usize)?;
    text.push_str("\n")
}

fn push_names(text: &mut String, graph: &Graph, ring: &[u16]) -> TextResult
    requires { (i : ℕ) → i < length ring.now → slice_index ring.now i < length graph.now }
    ensures { OnOk result (string_bytes text.new
        ≡ string_bytes text.old ++ flat_map spaced (map (name_at (names graph.now)) ring.now)) }
{
    for u in ring {
        push_name(text, graph, *u)?;
    }
    Ok(())
}

/// Writes the line of the ring of links that wait for each other, if there is one, after a word.
#[tactic(auto, using(ir_show::proofs::PlanLines::words_of_a_line))]
fn push_ring(text: &mut String, word: &str, graph: &Graph, ring: &Option<Vec<u16>>) -> TextResult
    requires { IfSome ring.now (λ r. (i : ℕ) → i < length r.items → slice_index r.items i < length graph.now) }
    ensures { OnOk result (string_bytes text.new
        ≡ string_bytes text.old ++ ring_line word.now (names graph.now) (option_map (λ r. r.items) ring.now)) }
{
    text.push_str(word)?;
    let Some(ring) = ring else {
        text.push_str(" acyclic\n")?;
        return Ok(());
    };
    text.push_str(" cycle")?;
    push_names(text, graph, ring.as_slice())?;
    text.push_str("\n")
}

/// Writes the line of landmarks.
#[tactic(auto, using(ir_show::proofs::PlanLines::words_of_a_line))]
fn push_chosen(text: &mut String, graph: &Graph, landmarks: &[u16]) -> TextResult
    requires { (i : ℕ) → i < length landmarks.now → slice_index landmarks.now i < length graph.now }
    ensures { OnOk result (string_bytes text.new ≡ string_bytes text.old
        ++ line_text (codes "landmarks" ∷ map (name_at (names graph.now)) landmarks.now)) }
{
    text.push_str("landmarks")?;
    push_names(text, graph, landmarks)?;
    text.push_str("\n")
}

fn push_stretch(text: &mut String, stretch: u16) -> TextResult
    ensures { OnOk result (string_bytes text.new ≡ string_bytes text.old ++ count_line (codes "stretch") stretch) }
{
    text.push_str("stretch")?;
    push_next_number(text, stretch as usize)?;
    text.push_str("\n")
}

/// Writes the lines of the landmarks of a landmark plan and of its stretch; nothing of another plan.
fn push_landmarks(text: &mut String, alloc: Global, graph: &Graph, plan: &Plan) -> TextResult
    requires { node_count plan.now.topology ≡ length graph.now }
    ensures { OnOk result ((landmarks : List ℕ) × ArePlanLandmarks plan.now.kind plan.now landmarks
        × (string_bytes text.new ≡ string_bytes text.old
        ++ landmarks_text (names graph.now) plan.now.kind landmarks)) }
{
    let Kind::Landmark(detour) = plan.kind() else {
        return Ok(());
    };
    plan.invariant();
    let count = detour.landmarks as usize;
    let landmarks = most_linked(alloc, plan.topology(), plan.root(), count)?;
    push_chosen(text, graph, landmarks.as_slice())?;
    push_stretch(text, detour.stretch)
}

/// The text of the figures of a plan, those of the field after the others. Condition: the plan is over the graph's
/// network. It is refused for memory alone. Takes as long as `stats_text` of `ir_show`, `most_intervals` and
/// `waiting_ring`.
pub fn figures_text(alloc: Global, graph: &Graph, plan: &Plan) -> Result<String, AllocError>
    requires { node_count plan.now.topology ≡ length graph.now }
    ensures { IfOk result (λ text. AreFiguresOf (names graph.now) plan.now (string_bytes text)) }
{
    let ring = waiting_ring(alloc, plan)?;
    let mut text = stats_text(alloc, graph, plan)?;
    push_most(&mut text, graph, plan, most_intervals(plan))?;
    push_bits(&mut text, bits_of(plan))?;
    push_ring(&mut text, "dependencies", graph, &ring)?;
    push_landmarks(&mut text, alloc, graph, plan)?;
    Ok(text)
}

/// The text of the figures of a plan, and after it the line of a ring of links that wait for each
/// other in that plan and a second one together. Conditions: both plans are over the graph's
/// network. It is refused for memory alone. Takes as long as `figures_text` and
/// `waiting_ring_together`.
pub fn figures_text_beside(
    alloc: Global,
    graph: &Graph,
    plan: &Plan,
    second: &Plan,
) -> Result<String, AllocError>
    requires nodes { node_count plan.now.topology ≡ length graph.now }
    requires over { second.now.topology ≡ plan.now.topology }
    ensures { IfOk result (λ text. AreFiguresBeside (names graph.now) plan.now second.now (string_bytes text)) }
{
    let ring = waiting_ring_together(alloc, plan, second)?;
    let mut text = figures_text(alloc, graph, plan)?;
    push_ring(&mut text, "together", graph, &ring)?;
    Ok(text)
}
