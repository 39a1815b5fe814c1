//! What each node changes between the plans of two topologies of the same nodes, from their texts.
ghost use Rattle.std.specs.Prelude.{◌≡◌, ◌≢◌, ℕ, None, Some, true, IfOk, IfErr, OnOk, IsSome, length, string_bytes};
ghost use Rattle.std.specs.Option.{option_map};
ghost use Rattle.ir_model.specs.{Graph.names, OfGraph.topology_of_graph, Text.lines, Topology.node_count};
ghost use Rattle.ir_model.specs.declared.Fault.{Fault};
ghost use Rattle.ir_core.specs.declared.event.OpenError.TheVariants as openings;
ghost use Rattle.ir_patches.specs.Nodes.{HaveSameNodes};
ghost use Rattle.ir_plan.specs.Building.{IsPlanBy, MayLabel, labelling_of};
ghost use Rattle.ir_cli.specs.Lines.{new_line, new_opening_line};
ghost use Rattle.ir_cli.specs.Openings.{topology_fault, topology_graph, kind_asked, AnswersTopology};
ghost use Rattle.ir_cli.specs.Words.{takes_list};
ghost use Rattle.ir_answer.specs.Diffs.{keeps_labels, order_kept, RefusesPlanAs, IsOtherLine, AnswersChange, AnswersOther, AnswersPlans, AnswersDiff};
ghost use Rattle.ir_answer.specs.Stops.{StopsAs, Gives};

use crate::asking::{AnswerStop, opening_stop, read_graph};
use crate::look::read_labels;
use ir_cli::{
    Format, KindChoice, Notice, NumberingChoice, RunReply, Words, kind_asked, read_topology,
};
use ir_core::OpenError;
use ir_exports::order_text;
use ir_graph::Graph;
use ir_model::{Fault, Kind};
use ir_patches::{OtherNode, diff_text, other_node};
use ir_plan::{Crew, Labels, Plan};
use ir_tables::Topology;
use std::alloc::{AllocError, Global};

/// The graph of a new topology's text.
fn read_new(alloc: Global, format: Format, text: &[u8]) -> Result<Graph, AnswerStop>
    ensures sound { OnOk result (topology_fault format (lines text.now) ≡ None) }
    ensures graph { IfOk result (λ g. g ≡ topology_graph format (lines text.now)) }
    ensures stop { IfErr result (λ s. StopsAs s (λ line. (f : ℕ × Fault)
        × (topology_fault format (lines text.now) ≡ Some f) × (line ≡ new_line f))) }
{
    match read_topology(alloc, format, text) {
        Ok(graph) => Ok(graph),
        Err(error) => match error.kind {
            Fault::NoMemory => Err(AnswerStop::NoMemory),
            _ => Err(AnswerStop::Refused(Notice::New(error))),
        },
    }
}

/// Refuses networks of other nodes.
fn have_same_nodes(old: &Graph, new: &Graph) -> Result<(), AnswerStop>
    ensures same { OnOk result (HaveSameNodes (names old.now) (names new.now)) }
    ensures stop { IfErr result (λ s. StopsAs s (IsOtherLine (names old.now) (names new.now))) }
{
    match other_node(old, new) {
        None => Ok(()),
        Some(OtherNode::Unknown(u)) => Err(AnswerStop::Refused(Notice::NewNode(u))),
        Some(OtherNode::Missing(u)) => Err(AnswerStop::Refused(Notice::Gone(u))),
    }
}

/// The plan over the network of a graph, of this kind and labels.
fn plan_over(
    crew: &impl Crew,
    alloc: Global,
    kind: Kind,
    graph: &Graph,
    labels: Labels,
) -> Result<Plan, OpenError>
    requires { MayLabel (topology_of_graph graph.now) kind (labelling_of labels) }
    ensures plan { IfOk result (IsPlanBy (topology_of_graph graph.now) kind (labelling_of labels)) }
    ensures refused { IfErr result (λ e. e ≢ openings.NoMemory → RefusesPlanAs graph.now (labelling_of labels) e) }
{
    let Ok(topology) = Topology::of(alloc, graph) else {
        return Err(OpenError::NoMemory);
    };
    match Plan::build_by(crew, alloc, topology, kind, labels) {
        Ok(plan) => Ok(plan),
        Err((error, _topology)) => Err(OpenError::from(error)),
    }
}

/// The refusal of the new network's plan.
fn new_stop(error: OpenError) -> AnswerStop
    ensures { StopsAs result (λ line. (error ≢ openings.NoMemory) × (line ≡ new_opening_line error)) }
{
    if error == OpenError::NoMemory {
        AnswerStop::NoMemory
    } else {
        AnswerStop::Refused(Notice::NewOpening(error))
    }
}

/// Whether the new plan keeps the labels of the old one.
fn keeps_labels(words: &Words) -> bool
    ensures { result ≡ keeps_labels words.now }
{
    matches!(
        words.numbering,
        NumberingChoice::Keep | NumberingChoice::KeepDepthFirst
    ) && matches!(words.kind, KindChoice::Shortest | KindChoice::Compact)
}

/// The text of the order that the new plan keeps, if it keeps that of the old one.
fn order_kept(
    alloc: Global,
    words: &Words,
    graph: &Graph,
    plan: &Plan,
) -> Result<Option<String>, AllocError>
    requires { node_count plan.now.topology ≡ length graph.now }
    ensures order { IfOk result (λ order. option_map string_bytes order
        ≡ order_kept words.now (names graph.now) plan.now) }
    ensures kind { IfOk result (λ order. IsSome order → takes_list words.now.kind ≡ true) }
{
    if !keeps_labels(words) {
        return Ok(None);
    }
    let order = order_text(alloc, graph, plan)?;
    Ok(Some(order))
}

/// The answer that says what each node changes between two plans.
fn change_reply(
    alloc: Global,
    old_graph: &Graph,
    old: &Plan,
    new_graph: &Graph,
    new: &Plan,
) -> Result<RunReply, AnswerStop>
    requires old { node_count old.now.topology ≡ length old_graph.now }
    requires new { node_count new.now.topology ≡ length new_graph.now }
    ensures { Gives (AnswersChange old_graph.now old.now new_graph.now new.now) result }
{
    let text = diff_text(alloc, old_graph, old, new_graph, new)?;
    Ok(RunReply::Ran(text, Vec::new(alloc)))
}

/// The kind that the words ask for, of a plan over a graph's network.
fn kind_over(words: &Words, graph: &Graph) -> Kind
    ensures { result ≡ kind_asked words.now (length graph.now) }
{
    kind_asked(words, graph.number_of_nodes())
}

/// The answer to the old plan: what each node changes from it to the plan of the new network, or what refuses that.
fn diff_from(
    crew: &impl Crew,
    alloc: Global,
    words: &Words,
    old_graph: &Graph,
    old: &Plan,
    new_graph: &Graph,
) -> Result<RunReply, AnswerStop>
    requires { node_count old.now.topology ≡ length old_graph.now }
    ensures { Gives (AnswersOther words.now old_graph.now new_graph.now old.now) result }
{
    let order = order_kept(alloc, words, old_graph, old)?;
    let text = match &order {
        Some(order) => Some(order.as_bytes()),
        None => None,
    };
    let labels = read_labels(alloc, words, new_graph, text)?;
    match plan_over(crew, alloc, kind_over(words, new_graph), new_graph, labels) {
        Ok(new) => change_reply(alloc, old_graph, old, new_graph, &new),
        Err(error) => Err(new_stop(error)),
    }
}

/// The answer to two graphs of the same nodes: what each node changes between their plans, or what refuses one of
/// these.
fn diff_plans(
    crew: &impl Crew,
    alloc: Global,
    words: &Words,
    old_graph: &Graph,
    new_graph: &Graph,
) -> Result<RunReply, AnswerStop>
    ensures { Gives (AnswersPlans words.now old_graph.now new_graph.now) result }
{
    let labels = read_labels(alloc, words, old_graph, None)?;
    match plan_over(crew, alloc, kind_over(words, old_graph), old_graph, labels) {
        Ok(old) => diff_from(crew, alloc, words, old_graph, &old, new_graph),
        Err(error) => Err(opening_stop(error)),
    }
}

/// The answer to the graph of the old network and to the text of the new topology.
fn diff_graph(
    crew: &impl Crew,
    alloc: Global,
    words: &Words,
    old_graph: &Graph,
    new: &[u8],
) -> Result<RunReply, AnswerStop>
    ensures { Gives (AnswersDiff words.now (lines new.now) old_graph.now) result }
{
    let new_graph = read_new(alloc, words.new_format, new)?;
    match have_same_nodes(old_graph, &new_graph) {
        Ok(()) => diff_plans(crew, alloc, words, old_graph, &new_graph),
        Err(stop) => Err(stop),
    }
}

/// The answer to the texts of two topologies: what each node changes between their plans. Refused are, in this order,
/// the old topology's first fault, the new one's, a node that one of the networks has alone, a root that is no node,
/// what refuses the old plan, and what refuses the new one. The plans' rows are made by a crew.
pub fn diff(
    crew: &impl Crew,
    alloc: Global,
    words: &Words,
    old: &[u8],
    new: &[u8],
) -> Result<RunReply, AnswerStop>
    ensures { Gives (AnswersTopology words.now.format (lines old.now) (AnswersDiff words.now (lines new.now))) result }
{
    match read_graph(alloc, words.format, old) {
        Ok(graph) => diff_graph(crew, alloc, words, &graph, new),
        Err(stop) => Err(stop),
    }
}
