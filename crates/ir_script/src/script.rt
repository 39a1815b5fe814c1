//! Scripts, line by line.
ghost use Rattle.std.specs.{Prelude.{◌≡◌, ℕ, List, Option, Result, Ok, true, length, vec_len, IfOk, IfErr}, List.list_all};
ghost use Rattle.ir_model.specs.{declared.Detour.Detour, Graph.{Name, names}, Topology.Topology, OfGraph.topology_of_graph, Text.lines};
ghost use Rattle.ir_script.specs.{declared.fault.ScriptFault.ScriptFault, Command.{line_step, line_command}};
ghost use Rattle.ir_script.specs.Script.{listing_from, listing_of, ScriptTold, told_script};
ghost use Rattle.ir_script.specs.Within.{is_step_within};

use crate::command::{command_of, is_of_simulation, step_of};
use crate::fault::{ScriptError, ScriptFault};
use ir_adjlist::scan;
use ir_core::{Command, Step};
use ir_graph::Graph;
use ir_model::Detour;
use ir_tables::Topology;
use std::alloc::Global;

/// The steps of a simulation's script, or the commands of a live run's, and beside each the number
/// of its line.
#[derive(Drop)]
pub struct Script<T> {
    steps: Vec<T>,
    lines: Vec<usize>,
    ghost numbered: { vec_len steps ≡ vec_len lines },
}

impl<T> Script<T> {
    /// The steps or commands, in order.
    pub fn steps(&self) -> &[T]
        ensures steps { result.now ≡ self.now.steps.items }
        ensures numbered { length self.now.steps.items ≡ length self.now.lines.items }
    {
        self.steps.as_slice()
    }

    /// The numbers of their lines, in order, counted from 1 over all lines of the script.
    pub fn lines(&self) -> &[usize]
        ensures lines { result.now ≡ self.now.lines.items }
        ensures numbered { length self.now.lines.items ≡ length self.now.steps.items }
    {
        self.lines.as_slice()
    }
}

/// What a line of a script names: a step of a simulation, or a command of a live run.
pub trait ScriptItem: Copy {
    // What a line says of these nodes and links, where landmark plans go round so far.
    ghost says: { Detour → List Name → Topology → List ℕ → Result (Option Self) ScriptFault };

    /// What the line names of a graph and its topology: nothing where it has no word.
    fn named(
        graph: &Graph,
        topology: &Topology,
        detour: Detour,
        line: &[u8],
    ) -> Result<Option<Self>, ScriptFault>
        requires { topology.now ≡ topology_of_graph graph.now }
        ensures { result ≡ says detour (names graph.now) topology.now line.now };
}

impl ScriptItem for Step {
    ghost says = { line_step };

    fn named(
        graph: &Graph,
        topology: &Topology,
        detour: Detour,
        line: &[u8],
    ) -> Result<Option<Step>, ScriptFault> {
        let words = scan::without_comment(line);
        if !scan::all_plain(words) {
            return Err(ScriptFault::BadByte);
        }
        step_of(graph, topology, detour, words)
    }
}

impl ScriptItem for Command {
    ghost says = { line_command };

    fn named(
        graph: &Graph,
        topology: &Topology,
        detour: Detour,
        line: &[u8],
    ) -> Result<Option<Command>, ScriptFault> {
        let words = scan::without_comment(line);
        if !scan::all_plain(words) {
            return Err(ScriptFault::BadByte);
        }
        let Some((word, _)) = scan::next_word(words) else {
            return Ok(None);
        };
        if is_of_simulation(word) {
            return Err(ScriptFault::BadCommand);
        }
        match step_of(graph, topology, detour, words)? {
            Some(step) => Ok(Some(command_of(step)?)),
            None => Ok(None),
        }
    }
}

/// The error for a fault in a line.
fn error_at(line: usize, kind: ScriptFault) -> ScriptError
    ensures { result ≡ told_script line kind }
{
    match kind {
        ScriptFault::NoMemory => ScriptError { line: 0, kind },
        _ => ScriptError { line, kind },
    }
}

/// What the lines of a script name, each with the number of its line, or the script's first faulty
/// line: `parse_script` for steps, `parse_live` for commands. Takes O(b) and for each line what its
/// words take to be looked up, for b bytes.
pub fn parse<T: ScriptItem>(
    alloc: Global,
    text: &[u8],
    graph: &Graph,
    topology: &Topology,
    detour: Detour,
) -> Result<Script<T>, ScriptError>
    requires { topology.now ≡ topology_of_graph graph.now }
    ensures parsed { IfOk result (λ s. listing_from (T.says detour) (names graph.now) topology.now 1 (lines text.now)
        ≡ Ok (record { steps = s.steps.items; lines = s.lines.items })) }
    ensures fault { IfErr result (λ e. ScriptTold e
        (listing_from (T.says detour) (names graph.now) topology.now 1 (lines text.now))) }
{
    let mut steps = Vec::new(alloc);
    let mut numbers = Vec::new(alloc);
    let mut rest = text;
    let mut line = 0;
    while !rest.is_empty() {
        let (current, after) = scan::next_line(rest);
        line += 1;
        match T::named(graph, topology, detour, current) {
            Err(kind) => return Err(error_at(line, kind)),
            Ok(None) => {}
            Ok(Some(step)) => {
                if numbers.push(line).is_err() || steps.push(step).is_err() {
                    return Err(error_at(0, ScriptFault::NoMemory));
                }
            }
        }
        rest = after;
    }
    Ok(Script {
        steps,
        lines: numbers,
    })
}

/// The steps that a script names, each with the number of its line, or the script's first faulty line. A line is one of
///
/// - `inject A B`: a packet from A to B;
/// - `down A B`, `up A B`, `avoid A B`, `heed A B`: the link between A and B;
/// - `install tree R`, `install shortest R`, `install compact R`, `install landmark R`: a plan with
///   root R, of kind landmark with this detour;
/// - `retire F`, `learn E`: epochs;
/// - `drain`;
/// - `take N inbox`, `take N from M`: from the inbox, or from the link between N and M;
/// - `read N K`: version K of the board;
/// - `act N`.
///
/// Numbers have one to five decimal digits and a value of at most 65,535. Lines, words, blanks and
/// comments are as in the texts of a topology; a line with no word is skipped, and counts. The
/// faults of a line, in order: `BadByte`; `BadCommand`; `BadNumber` and `UnknownNode`, by the words
/// from left to right; `UnknownLink`. A script with a fault gives no step. Condition: the topology
/// is that of the graph.
pub fn parse_script(
    alloc: Global,
    text: &[u8],
    graph: &Graph,
    topology: &Topology,
    detour: Detour,
) -> Result<Script<Step>, ScriptError>
    requires { topology.now ≡ topology_of_graph graph.now }
    ensures parsed { IfOk result (λ s. listing_of detour (names graph.now) topology.now (lines text.now)
        ≡ Ok (record { steps = s.steps.items; lines = s.lines.items })) }
    ensures within { IfOk result (λ s. list_all (is_step_within topology.now) s.steps.items ≡ true) }
    ensures fault { IfErr result (λ e. ScriptTold e
        (listing_of detour (names graph.now) topology.now (lines text.now))) }
{
    topology.invariant();
    parse(alloc, text, graph, topology, detour)
}
