//! A run of a script's steps, from the texts of a topology and a script.
ghost use Rattle.std.specs.{Prelude.{◌≡◌, ◌++◌, false, IfOk, OnOk, string_bytes}, List.list_any};
ghost use Rattle.ir_model.specs.{Graph.names, OfGraph.topology_of_graph, Text.lines};
ghost use Rattle.ir_trace.specs.Written.{HaveSegments};
ghost use Rattle.ir_cli.specs.{Lines.{reply_line, steps_text}, Openings.{AnswersTopology}};
ghost use Rattle.ir_answer.specs.{Plays.{wants_memory, refused_text, run_text, listing_in, AnswersRun, AnswersRunBy, AnswersScript, IsScriptRun, IsStepsRun}, Stops.Gives};

use crate::asking::{AnswerStop, Asked, opening_stop, read_asked};
use ir_cli::{RunReply, Words, opening_of};
use ir_core::{Played, Record, Refused, Reply, Step, play_by};
use ir_graph::Graph;
use ir_plan::Crew;
use ir_steps::{ToldRun, tell_run_by};
use ir_tables::Topology;
use ir_trace::{trace_text, trace_text_2};
use std::alloc::{AllocError, Global};

/// Whether some step wanted memory.
fn wants_memory(replies: &[Result<Reply, Refused>]) -> bool
    ensures { result ≡ list_any wants_memory replies.now }
{
    replies
        .iter()
        .any(|reply| matches!(*reply, Err(Refused::NoMemory)))
}

/// Notes a step that was refused, and nothing for another.
fn push_refused(
    steps: &mut Vec<(usize, Refused)>,
    line: usize,
    reply: Result<Reply, Refused>,
) -> Result<(), AllocError>
    ensures { OnOk result (steps_text steps.new.items ≡ steps_text steps.old.items ++ reply_line (line, reply)) }
{
    match reply {
        Ok(_) => Ok(()),
        Err(refusal) => Ok(steps.push((line, refusal))?),
    }
}

/// The steps that were refused, by the numbers of their lines.
fn refused_steps(
    alloc: Global,
    lines: &[usize],
    replies: &[Result<Reply, Refused>],
) -> Result<Vec<(usize, Refused)>, AllocError>
    ensures { IfOk result (λ steps. steps_text steps.items ≡ refused_text lines.now replies.now) }
{
    let mut steps = Vec::new(alloc);
    for i in 0..lines.len().min(replies.len()) {
        push_refused(&mut steps, lines[i], replies[i])?;
    }
    Ok(steps)
}

/// The trace of records: that of their segments where packets may be restamped.
pub fn run_text(
    alloc: Global,
    graph: &Graph,
    topology: &Topology,
    restamps: u8,
    records: &[Record],
) -> Result<String, AllocError>
    requires over { topology.now ≡ topology_of_graph graph.now }
    requires records { HaveSegments topology.now records.now }
    ensures { IfOk result (λ text. string_bytes text
        ≡ run_text restamps (names graph.now) topology.now records.now) }
{
    if restamps == 0 {
        trace_text(alloc, graph, topology, records)
    } else {
        trace_text_2(alloc, graph, topology, records)
    }
}

/// The trace of a run, and the steps that were refused.
fn run_texts(
    alloc: Global,
    graph: &Graph,
    topology: &Topology,
    restamps: u8,
    lines: &[usize],
    played: Played,
) -> Result<(String, Vec<(usize, Refused)>), AllocError>
    requires over { topology.now ≡ topology_of_graph graph.now }
    requires opened { played.world.opening.topology ≡ topology.now }
    ensures in_memory { IfOk result (λ _. list_any wants_memory played.replies.items ≡ false) }
    ensures trace { IfOk result (λ texts. string_bytes texts.0
        ≡ run_text restamps (names graph.now) topology.now played.world.records) }
    ensures told { IfOk result (λ texts. steps_text texts.1.items ≡ refused_text lines.now played.replies.items) }
{
    let Played { world, replies } = played;
    world.invariant();
    let records = world.into_records();
    if wants_memory(replies.as_slice()) {
        return Err(AllocError);
    }
    let trace = run_text(alloc, graph, topology, restamps, records.as_slice())?;
    let refused = refused_steps(alloc, lines, replies.as_slice())?;
    Ok((trace, refused))
}

/// The trace of the script's run, or what refuses its opening.
fn trace_asked(
    crew: &impl Crew,
    alloc: Global,
    words: &Words,
    asked: &Asked<Step>,
) -> Result<RunReply, AnswerStop>
    requires { asked.now.topology ≡ topology_of_graph asked.now.graph }
    ensures { Gives (AnswersRunBy IsScriptRun asked.now.graph words.now (listing_in asked.now.script) asked.now.root)
        result }
{
    let topology = &asked.topology;
    let Ok(opening) = opening_of(alloc, words, topology, asked.root) else {
        return Err(AnswerStop::NoMemory);
    };
    match play_by(crew, alloc, opening, asked.script.steps()) {
        Ok(played) => {
            let lines = asked.script.lines();
            match run_texts(alloc, &asked.graph, topology, words.restamps, lines, played) {
                Ok((trace, refused)) => Ok(RunReply::Ran(trace, refused)),
                Err(_) => Err(AnswerStop::NoMemory),
            }
        }
        Err(error) => Err(opening_stop(error)),
    }
}

/// The text of a run's steps, and the steps that were refused.
fn told_texts(
    alloc: Global,
    lines: &[usize],
    told: ToldRun,
) -> Result<(String, Vec<(usize, Refused)>), AllocError>
    ensures in_memory { IfOk result (λ _. list_any wants_memory told.replies.items ≡ false) }
    ensures text { IfOk result (λ texts. string_bytes texts.0 ≡ string_bytes told.text) }
    ensures told { IfOk result (λ texts. steps_text texts.1.items ≡ refused_text lines.now told.replies.items) }
{
    let ToldRun {
        world: _,
        replies,
        text,
    } = told;
    if wants_memory(replies.as_slice()) {
        return Err(AllocError);
    }
    let refused = refused_steps(alloc, lines, replies.as_slice())?;
    Ok((text, refused))
}

/// The steps of the script's run, or what refuses its opening.
fn steps_asked(
    crew: &impl Crew,
    alloc: Global,
    words: &Words,
    asked: &Asked<Step>,
) -> Result<RunReply, AnswerStop>
    requires { asked.now.topology ≡ topology_of_graph asked.now.graph }
    ensures { Gives (AnswersRunBy IsStepsRun asked.now.graph words.now (listing_in asked.now.script) asked.now.root)
        result }
{
    let (graph, topology) = (&asked.graph, &asked.topology);
    let Ok(opening) = opening_of(alloc, words, topology, asked.root) else {
        return Err(AnswerStop::NoMemory);
    };
    let lines = asked.script.lines();
    let steps = asked.script.steps();
    match tell_run_by(crew, alloc, graph, topology, opening, lines, steps) {
        Ok(played) => match told_texts(alloc, lines, played) {
            Ok((text, refused)) => Ok(RunReply::Ran(text, refused)),
            Err(_) => Err(AnswerStop::NoMemory),
        },
        Err(error) => Err(opening_stop(error)),
    }
}

/// The answer to what is asked for: the run of the script, or what refuses its opening.
fn play_asked(
    crew: &impl Crew,
    alloc: Global,
    words: &Words,
    asked: &Asked<Step>,
) -> Result<RunReply, AnswerStop>
    requires { asked.now.topology ≡ topology_of_graph asked.now.graph }
    ensures { Gives (AnswersRun asked.now.graph words.now (listing_in asked.now.script) asked.now.root) result }
{
    if words.steps {
        steps_asked(crew, alloc, words, asked)
    } else {
        trace_asked(crew, alloc, words, asked)
    }
}

/// The answer of `sim` to the texts of a topology and of a script: the trace of the packets or the steps of the run,
/// and a line for each step that was refused. Plans are made by a crew.
pub fn simulate(
    crew: &impl Crew,
    alloc: Global,
    words: &Words,
    topology: &[u8],
    script: &[u8],
) -> Result<RunReply, AnswerStop>
    ensures { Gives (AnswersTopology words.now.format (lines topology.now)
        (AnswersScript words.now (lines script.now))) result }
{
    match read_asked::<Step>(alloc, words, topology, script) {
        Ok(asked) => play_asked(crew, alloc, words, &asked),
        Err(stop) => Err(stop),
    }
}
