//! What compares the plans of a topology, from the text of the topology.
ghost use Rattle.std.specs.Prelude.{◌≡◌, ◌∷◌, [], length};
ghost use Rattle.ir_answer.specs.Compares.{compare_sources, AnswersComparison, CompareAnswers};
ghost use Rattle.ir_answer.specs.Stops.{Gives};
ghost use Rattle.ir_cli.specs.{Openings.{root_name, AnswersRoot}, Reading.texts_of};

use crate::asking::{AnswerStop, opening_stop, read_graph, read_node};
use ir_cli::{RunReply, Words, compared_detours};
use ir_core::OpenError;
use ir_figures::compare_text;
use ir_graph::Graph;
use ir_plan::Crew;
use ir_tables::Topology;
use std::alloc::Global;

/// The one text, of a topology.
fn one_text<'a>(texts: &'a [Vec<u8>]) -> &'a [u8]
    requires { length texts.now ≡ 1 }
    ensures { texts_of texts.now ≡ result.now ∷ [] }
{
    texts[0].as_slice()
}

/// The answer to a graph: what compares its plans from the root that the words name, or what refuses that root or these
/// plans.
fn compare_graph(
    crew: &impl Crew,
    alloc: Global,
    words: &Words,
    graph: &Graph,
) -> Result<RunReply, AnswerStop>
    ensures { Gives (AnswersRoot graph.now (root_name words.now) (AnswersComparison graph.now)) result }
{
    let root = read_node(graph, &words.root)?;
    let Ok(topology) = Topology::of(alloc, graph) else {
        return Err(AnswerStop::NoMemory);
    };
    let detours = compared_detours(graph.number_of_nodes());
    match compare_text(crew, alloc, topology, root, detours) {
        Ok(text) => Ok(RunReply::Ran(text, Vec::new(alloc))),
        Err(error) => Err(opening_stop(OpenError::from(error))),
    }
}

/// The answer to the text of a topology: what compares its plans from the root that the words name. Refused are, in
/// this order, the topology's first fault, a root that is no node, and what refuses the plans. The plans' rows are
/// made by a crew.
pub fn compare(
    crew: &impl Crew,
    alloc: Global,
    words: &Words,
    texts: &[Vec<u8>],
) -> Result<RunReply, AnswerStop>
    requires { length texts.now ≡ length (compare_sources words.now) }
    ensures { Gives (CompareAnswers words.now (texts_of texts.now)) result }
{
    let text = one_text(texts);
    match read_graph(alloc, words.format, text) {
        Ok(graph) => compare_graph(crew, alloc, words, &graph),
        Err(stop) => Err(stop),
    }
}
