//! A live run of a script's commands, from the texts of a topology and a script.
ghost use Rattle.std.specs.{Prelude.{◌≡◌, ◌≢◌, false, IfOk, IfErr, slice_index_or, string_bytes}, Borrow.Bor, List.list_any};
ghost use Rattle.ir_model.specs.{Graph.names, OfGraph.topology_of_graph, Text.lines};
ghost use Rattle.ir_trace.specs.Written.{HaveSegments};
ghost use Rattle.ir_cli.specs.{Lines.steps_text, Openings.{AnswersTopology}};
ghost use Rattle.ir_control.specs.Lives.{IsLive, IsRefusal};
ghost use Rattle.ir_shell.specs.Lives.{is_for_memory, refusals_text, IsOpenedNet, AnswersLive, AnswersLiveScript, ends_unbarred};
ghost use Rattle.ir_answer.specs.{Plays.{listing_in, run_text}, Stops.{StopsAs, Gives}};

use ir_answer::{AnswerStop, Asked, opening_stop, read_asked, run_text};
use ir_cli::{RunReply, Words, opening_of};
use ir_control::{Live, LiveError, Net, Starter, run_live};
use ir_core::{OpenError, Refused};
use ir_epochs::Looks;
use ir_graph::Graph;
use ir_links::Moments;
use ir_script::Command;
use ir_tables::Topology;
use ir_worker::{Flag, Gate, Parcel};
use std::alloc::{AllocError, Global};
use std::sync::atomic::AtomicBool;
use std::thread::Threads;

/// A gate that lets every node make every turn.
struct Open;

impl Gate for Open {
    // there is no turn that it does not let a node make
    ghost barred = { λ _ _ _. ⊥ };

    fn pass(&self, _node: u16, _turn: u64) -> bool {
        true
    }
}

/// The flag of a script's run, in the word of the run's starter.
#[derive(Drop)]
struct Stop<'s, S> {
    starter: &'s S,
    flag: AtomicBool,
}

impl<S: Starter + Sync> Flag for Stop<'_, S> {
    ghost was_set = { λ stop. S.was_stopped stop.starter.now };

    fn is_set(&self) -> bool {
        self.starter.is_stopped(&self.flag)
    }

    fn set(&self) {
        self.starter.stops(&self.flag);
    }
}

/// Whether some command wanted memory.
fn wants_memory(refusals: &[(usize, Refused)]) -> bool
    ensures { result ≡ list_any is_for_memory refusals.now }
{
    refusals
        .iter()
        .any(|refusal| matches!(*refusal, (_, Refused::NoMemory)))
}

/// The number of the line of the command at a place.
fn line_at(lines: &[usize], place: usize) -> usize
    ensures { result ≡ slice_index_or lines.now place 0 }
{
    if place < lines.len() { lines[place] } else { 0 }
}

/// The commands that were refused, by the numbers of their lines.
fn refused_steps(
    alloc: Global,
    lines: &[usize],
    refusals: &[(usize, Refused)],
) -> Result<Vec<(usize, Refused)>, AllocError>
    ensures { IfOk result (λ steps. steps_text steps.items ≡ refusals_text lines.now refusals.now) }
{
    let mut steps = Vec::new(alloc);
    for i in 0..refusals.len() {
        let (place, refusal) = refusals[i];
        steps.push((line_at(lines, place), refusal))?;
    }
    Ok(steps)
}

/// The trace of a live run, and the commands that were refused.
fn live_texts(
    alloc: Global,
    graph: &Graph,
    topology: &Topology,
    restamps: u8,
    lines: &[usize],
    live: &Live,
) -> Result<(String, Vec<(usize, Refused)>), AllocError>
    requires over { topology.now ≡ topology_of_graph graph.now }
    requires records { HaveSegments topology.now live.now.report.records.items }
    ensures in_memory { IfOk result (λ _. list_any is_for_memory live.now.refusals.items ≡ false) }
    ensures trace { IfOk result (λ texts. string_bytes texts.0
        ≡ run_text restamps (names graph.now) topology.now live.now.report.records.items) }
    ensures told { IfOk result (λ texts. steps_text texts.1.items
        ≡ refusals_text lines.now live.now.refusals.items) }
{
    let refusals = live.refusals.as_slice();
    if wants_memory(refusals) {
        return Err(AllocError);
    }
    let records = live.report.records.as_slice();
    let trace = run_text(alloc, graph, topology, restamps, records)?;
    let refused = refused_steps(alloc, lines, refusals)?;
    Ok((trace, refused))
}

/// A live run in which each node has a thread, makes every turn, and ends once the commands are carried out.
fn run_open<T: Threads + Moments<Parcel> + Looks<Parcel> + Starter + Sync>(
    rt: &T,
    net: &Net,
    commands: &[Command],
) -> Result<Live, LiveError>
    ensures live { IfOk result (λ live. IsLive (Bor T) T.was_full T.was_empty T.looked
        (ends_unbarred (T.was_stopped rt.now)) (T.came_back rt.now)
        (T.was_closed rt.now) net.now commands.now live) }
    ensures refused { IfErr result (IsRefusal (T.unstarted rt.now) net.now) }
{
    let stop = Stop {
        starter: rt,
        flag: AtomicBool::new(false),
    };
    run_live(rt, net, commands, &Open, &stop, rt)
}

/// The answer to a script and a net that was opened for it. Its parts were not handed out before. That they are not
/// handed out is reported as want of memory, and that the board has no place for a reader of each node as a refused
/// opening.
fn answer_net<T: Threads + Moments<Parcel> + Looks<Parcel> + Starter + Sync>(
    rt: &T,
    alloc: Global,
    words: &Words,
    asked: &Asked<Command>,
    net: &Net,
) -> Result<RunReply, AnswerStop>
    requires over { asked.now.topology ≡ topology_of_graph asked.now.graph }
    requires opened { IsOpenedNet asked.now.graph words.now asked.now.root net.now }
    ensures { Gives (AnswersLive T.Moments T.Looks T.Starter rt.now asked.now.graph words.now
        (listing_in asked.now.script) asked.now.root) result }
{
    asked.topology.invariant();
    match run_open(rt, net, asked.script.steps()) {
        Ok(live) => {
            let (trace, refused) = live_texts(
                alloc,
                &asked.graph,
                &asked.topology,
                words.restamps,
                asked.script.lines(),
                &live,
            )?;
            Ok(RunReply::Ran(trace, refused))
        }
        Err(LiveError::NoThread) => Ok(RunReply::NoThread),
        Err(LiveError::TooManyReaders) => Err(opening_stop(OpenError::TooManyReaders)),
        Err(LiveError::Spent | LiveError::NoMemory) => Err(AnswerStop::NoMemory),
    }
}

/// The answer to what is asked for: the live run of the script, or what refuses its opening.
fn run_asked<T: Threads + Moments<Parcel> + Looks<Parcel> + Starter + Sync>(
    rt: &T,
    alloc: Global,
    words: &Words,
    asked: &Asked<Command>,
) -> Result<RunReply, AnswerStop>
    requires { asked.now.topology ≡ topology_of_graph asked.now.graph }
    ensures { Gives (AnswersLive T.Moments T.Looks T.Starter rt.now asked.now.graph words.now
        (listing_in asked.now.script) asked.now.root) result }
{
    let opening = opening_of(alloc, words, &asked.topology, asked.root)?;
    match Net::open(rt, alloc, opening) {
        Ok(net) => answer_net(rt, alloc, words, asked, &net),
        Err(error) => Err(opening_stop(error)),
    }
}

/// The answer of `live` to the texts of a topology and of a script: the trace of the packets, and a line for each
/// command that was refused.
pub fn run_commands<T: Threads + Moments<Parcel> + Looks<Parcel> + Starter + Sync>(
    rt: &T,
    alloc: Global,
    words: &Words,
    topology: &[u8],
    script: &[u8],
) -> Result<RunReply, AnswerStop>
    ensures { Gives (AnswersTopology words.now.format (lines topology.now)
        (AnswersLiveScript T.Moments T.Looks T.Starter rt.now words.now (lines script.now))) result }
{
    match read_asked::<Command>(alloc, words, topology, script) {
        Ok(asked) => run_asked(rt, alloc, words, &asked),
        Err(stop) => Err(stop),
    }
}
