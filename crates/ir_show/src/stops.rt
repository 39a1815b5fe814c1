//! The stops of a walk, and its text by these.
ghost use Rattle.std.specs.Prelude.{◌≡◌, ◌<◌, ◌++◌, All, IfOk, OnOk, length, flat_map, string_bytes};
ghost use Rattle.ir_model.specs.Graph.{names};
ghost use Rattle.ir_show.specs.Words.{line_text};
ghost use Rattle.ir_show.specs.Stops.{AreStopsAmong, end_line, head_line, stop_line, text_of_stops};

use crate::TextResult;
use crate::plan_text::kind_text;
use ir_graph::Graph;
use ir_model::{Hop, Kind};
use ir_trace::text::{name_of, push_name, push_next_number, push_word};
use std::alloc::{AllocError, Global};

/// A node on the way to another one: its label, where the interval of its row begins and ends that has the other's
/// label, and where it sends on.
#[derive(Clone, Copy, Debug, PartialEq, Eq)]
pub struct WalkStop {
    pub node: u16,
    pub label: u16,
    pub start: u16,
    pub end: u16,
    pub hop: Hop,
}

/// The stops before the end of a walk, with the kind of its plan, its ends, the label of the last, and its weight.
#[derive(Drop)]
pub struct Stops {
    pub kind: Kind,
    pub from: u16,
    pub to: u16,
    pub label: u16,
    pub weight: u32,
    pub stops: Vec<WalkStop>,
}

fn push_head(text: &mut String, graph: &Graph, walk: &Stops) -> TextResult
    requires { AreStopsAmong (length graph.now) walk.now }
    ensures { OnOk result (string_bytes text.new ≡ string_bytes text.old
        ++ line_text (head_line (names graph.now) walk.now)) }
{
    text.push_str("walk")?;
    push_word(text, kind_text(walk.kind))?;
    push_name(text, graph, walk.from)?;
    push_name(text, graph, walk.to)?;
    push_next_number(text, walk.label as usize)?;
    push_next_number(text, walk.weight as usize)?;
    text.push_str("\n")
}

#[tactic(auto, using(crate::proofs::PlanLines::words_of_a_line))]
fn push_stop(text: &mut String, graph: &Graph, stop: &WalkStop) -> TextResult
    requires node { stop.now.node < length graph.now }
    requires next { stop.now.hop.node < length graph.now }
    ensures { OnOk result (string_bytes text.new ≡ string_bytes text.old
        ++ line_text (stop_line (names graph.now) stop.now)) }
{
    text.push_str(name_of(graph, stop.node))?;
    push_next_number(text, stop.label as usize)?;
    push_next_number(text, stop.start as usize)?;
    push_next_number(text, stop.end as usize)?;
    push_name(text, graph, stop.hop.node)?;
    push_next_number(text, stop.hop.weight as usize)?;
    text.push_str("\n")
}

#[tactic(auto, using(crate::proofs::PlanLines::words_of_a_line))]
fn push_end(text: &mut String, graph: &Graph, walk: &Stops) -> TextResult
    requires { AreStopsAmong (length graph.now) walk.now }
    ensures { OnOk result (string_bytes text.new ≡ string_bytes text.old
        ++ line_text (end_line (names graph.now) walk.now)) }
{
    text.push_str(name_of(graph, walk.to))?;
    push_next_number(text, walk.label as usize)?;
    text.push_str("\n")
}

/// The text of a walk.
pub fn text_of(alloc: Global, graph: &Graph, walk: &Stops) -> Result<String, AllocError>
    requires { AreStopsAmong (length graph.now) walk.now }
    ensures { IfOk result (λ text. string_bytes text ≡ text_of_stops (names graph.now) walk.now) }
{
    let mut text = String::new(alloc);
    push_head(&mut text, graph, walk)?;
    let stops = walk.stops.as_slice();
    for stop in stops {
        push_stop(&mut text, graph, stop)?;
    }
    push_end(&mut text, graph, walk)?;
    Ok(text)
}
