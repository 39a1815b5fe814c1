//! A check of a trace, from the texts of a topology, a script and a trace.
ghost use Rattle.std.specs.Prelude.{◌≡◌, ℕ, true, List, IfOk, IfErr, IfSome};
ghost use Rattle.ir_model.specs.{OfGraph.topology_of_graph, Text.lines, Topology.node_count};
ghost use Rattle.ir_core.specs.declared.built.Install.{Install};
ghost use Rattle.ir_trace.specs.{Checked.{ArePlansOf, AreRowsOver}, Inspect.AreOver, Reading.IsTrace};
ghost use Rattle.ir_whole.specs.Whole.{run_of, HaveOwnIds, AreWhole, FindsWhole};
ghost use Rattle.ir_cli.specs.Openings.{AnswersTopology};
ghost use Rattle.ir_answer.specs.{Checks.{LeavesOn, IsFinding, AnswersCheck, AnswersRows, AnswersTraceAsked, AnswersChecked, run_with}, Plays.listing_in};
ghost use Rattle.ir_answer.specs.Stops.{Gives};

use crate::asking::{AnswerStop, Asked, opening_stop, read_asked};
use ir_cli::{Notice, RunReply, Words, opening_of};
use ir_core::{Step, installs_with_plans_by};
use ir_plan::{Crew, Plan};
use ir_tables::Topology;
use ir_trace::{
    Departure, Finding, FindingKind, Trace, check_trace_over, first_departure, read_trace,
};
use ir_whole::{WholeFinding, WholeKind, check_whole};
use std::alloc::Global;

/// Where the row of a finding leaves the walks of its epochs, by the plans of the epochs; none where it
/// is a finding of another kind.
fn departure_of(
    topology: &Topology,
    plans: &[Plan],
    read: &Trace,
    finding: Finding,
) -> Option<Departure>
    requires plans { AreOver (node_count topology.now) plans.now }
    requires rows { AreRowsOver (node_count topology.now) read.now }
    ensures { IfSome result (LeavesOn plans.now read.now finding.line) }
{
    topology.invariant();
    if finding.kind != FindingKind::NotAPrefix || finding.line < 2 {
        return None;
    }
    let place = finding.line - 2;
    if place >= read.rows() {
        return None;
    }
    first_departure(plans, read.row(place))
}

/// The first finding of a trace beside its script, where the words ask for it.
fn beside_script(
    alloc: Global,
    words: &Words,
    topology: &Topology,
    steps: &[Step],
    read: &Trace,
) -> Result<(), WholeFinding>
    requires rows { AreRowsOver (node_count topology.now) read.now }
    requires ids { HaveOwnIds read.now }
    ensures whole { IfOk result (λ _. words.now.whole ≡ true → AreWhole (run_with words.now topology.now steps.now)
        read.now) }
    ensures finding { IfErr result (λ e. (words.now.whole ≡ true) × FindsWhole
        (run_with words.now topology.now steps.now) read.now e.line e.kind) }
{
    if !words.whole {
        return Ok(());
    }
    check_whole(alloc, topology, steps, words.capacity, words.packets, read)
}

/// The answer to a trace without a finding of its own.
fn answer_clean(
    alloc: Global,
    words: &Words,
    asked: &Asked<Step>,
    read: &Trace,
) -> Result<RunReply, AnswerStop>
    requires rows { AreRowsOver (node_count asked.now.topology) read.now }
    requires ids { HaveOwnIds read.now }
    ensures { Gives (AnswersRows words.now.whole (run_with words.now asked.now.topology asked.now.script.steps.items)
        read.now) result }
{
    match beside_script(alloc, words, &asked.topology, asked.script.steps(), read) {
        Ok(()) => Ok(RunReply::Sound(read.rows())),
        Err(finding) => match finding.kind {
            WholeKind::NoMemory => Err(AnswerStop::NoMemory),
            _ => Ok(RunReply::Found(Notice::Beside(finding))),
        },
    }
}

/// The answer to the first finding of a trace, of which a row may leave the walks of its epochs.
fn answer_finding(finding: Finding, departure: Option<Departure>) -> Result<RunReply, AnswerStop>
    ensures { Gives (IsFinding finding) result }
{
    match finding.kind {
        FindingKind::NoMemory => Err(AnswerStop::NoMemory),
        _ => Ok(RunReply::Found(Notice::Finding(finding, departure))),
    }
}

/// The answer to a trace that was read, by the plans of the script's epochs.
fn answer_rows(
    alloc: Global,
    words: &Words,
    asked: &Asked<Step>,
    plans: &[Plan],
    read: &Trace,
) -> Result<RunReply, AnswerStop>
    requires over { asked.now.topology ≡ topology_of_graph asked.now.graph }
    requires plans { AreOver (node_count asked.now.topology) plans.now }
    requires rows { AreRowsOver (node_count asked.now.topology) read.now }
    ensures { (trace : List ℕ) (installs : List Install) → IsTrace asked.now.graph trace read.now
        → ArePlansOf asked.now.topology installs plans.now
        → Gives (AnswersTraceAsked words.now.whole asked.now.graph trace installs
        (run_with words.now asked.now.topology asked.now.script.steps.items)) result }
{
    match check_trace_over(alloc, &asked.topology, plans, read) {
        Ok(()) => answer_clean(alloc, words, asked, read),
        Err(finding) => {
            let departure = departure_of(&asked.topology, plans, read, finding);
            answer_finding(finding, departure)
        }
    }
}

/// The answer to a trace, by the plans of the script's epochs.
fn answer_trace(
    alloc: Global,
    words: &Words,
    asked: &Asked<Step>,
    plans: &[Plan],
    trace: &[u8],
) -> Result<RunReply, AnswerStop>
    requires over { asked.now.topology ≡ topology_of_graph asked.now.graph }
    requires plans { AreOver (node_count asked.now.topology) plans.now }
    ensures { (installs : List Install) → ArePlansOf asked.now.topology installs plans.now
        → Gives (AnswersTraceAsked words.now.whole asked.now.graph trace.now installs
        (run_with words.now asked.now.topology asked.now.script.steps.items)) result }
{
    match read_trace(alloc, trace, &asked.graph) {
        Ok(read) => answer_rows(alloc, words, asked, plans, &read),
        Err(finding) => answer_finding(finding, None),
    }
}

/// The answer to what is asked for and to a trace: that of the trace by the script's installs, or what refuses the
/// opening of its run. The plan of each epoch is made once.
fn check_asked(
    crew: &impl Crew,
    alloc: Global,
    words: &Words,
    asked: &Asked<Step>,
    trace: &[u8],
) -> Result<RunReply, AnswerStop>
    requires { asked.now.topology ≡ topology_of_graph asked.now.graph }
    ensures { Gives (AnswersCheck asked.now.graph words.now (listing_in asked.now.script) trace.now asked.now.root)
        result }
{
    let Ok(opening) = opening_of(alloc, words, &asked.topology, asked.root) else {
        return Err(AnswerStop::NoMemory);
    };
    match installs_with_plans_by(crew, alloc, &opening, asked.script.steps()) {
        Ok((_built, plans)) => answer_trace(alloc, words, asked, plans.as_slice(), trace),
        Err(error) => Err(opening_stop(error)),
    }
}

/// The answer of `check` to the texts of a topology, of a script and of a trace: `ok N` for a sound trace of N rows,
/// or the first finding; where the words ask for it, the rows are judged beside the script too, after that. Plans are
/// made by a crew.
pub fn check(
    crew: &impl Crew,
    alloc: Global,
    words: &Words,
    topology: &[u8],
    script: &[u8],
    trace: &[u8],
) -> Result<RunReply, AnswerStop>
    ensures { Gives (AnswersTopology words.now.format (lines topology.now)
        (AnswersChecked words.now (lines script.now) trace.now)) result }
{
    match read_asked::<Step>(alloc, words, topology, script) {
        Ok(asked) => check_asked(crew, alloc, words, &asked, trace),
        Err(stop) => Err(stop),
    }
}
