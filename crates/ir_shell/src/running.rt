//! Runs of the program among which are live ones, from bytes to bytes.
ghost use Rattle.std.specs.Prelude.{◌≡◌, length};
ghost use Rattle.ir_answer.specs.Asked.{sim_sources, sources_of};
ghost use Rattle.ir_answer.specs.{Formed.asked_form, Runs.{written_of, io_of, io_over, RunEnds}};
ghost use Rattle.ir_shell.specs.Asked.{LiveAnswers, LiveEndsAs, FollowsAs};
ghost use Rattle.ir_cli.specs.{Reading.texts_of, Notices.{told_text, ShowsFound}, Told.{Sends, Tells}, Words.FitsItsKind};

use crate::live::run_commands;
use ir_answer::{follow_by, form_of, sources_by, two_texts, write_given};
use ir_cli::{RunOutcome, Sub, Words, read_inputs, status_of, tell_unread};
use ir_control::Starter;
use ir_epochs::Looks;
use ir_links::Moments;
use ir_plan::{Alone, Crew};
use ir_streams::{Reader, Writer};
use ir_worker::Parcel;
use std::alloc::Global;
use std::thread::Threads;

/// Who takes part in a run: the runtime of a live run, in which each node has a thread, and the crew of all else.
#[derive(Drop)]
pub struct Team<'t, 'c, T, C> {
    pub rt: &'t T,
    pub crew: &'c C,
}

/// Answers the texts of the inputs of a live run, and writes the answer in the form that the words ask for.
fn write_live<T: Threads + Moments<Parcel> + Looks<Parcel> + Starter + Sync, W: Writer, F: Writer>(
    rt: &T,
    alloc: Global,
    words: &Words,
    texts: &[Vec<u8>],
    output: &mut W,
    faults: &mut F,
) -> RunOutcome
    requires { length texts.now ≡ length (sim_sources words.now) }
    ensures ends { LiveEndsAs T.Moments T.Looks T.Starter rt.now words.now result.ending
        (io_over (texts_of texts.now) (written_of W.Writer F.Writer output.old output.new faults.old faults.new)) }
    ensures told { Tells F.contents F.wrote F.settled faults.old faults.new (told_text result.told) }
    ensures found { ShowsFound (asked_form Sub.Live words.now) result.found result.ending
        (Sends W.contents W.wrote W.settled output.old output.new) }
{
    let (topology, script) = two_texts(words, texts);
    let plain = run_commands(rt, alloc, words, topology, script);
    let form = form_of(Sub::Live, words);
    write_given(&Alone, alloc, form, plain, output, faults)
}

/// Does what `run_live_text` does, and answers what it came to, as values.
fn follow_live<
    T: Threads + Moments<Parcel> + Looks<Parcel> + Starter + Sync,
    R: Reader,
    W: Writer,
    F: Writer,
>(
    rt: &T,
    alloc: Global,
    words: &Words,
    inputs: &mut [R],
    output: &mut W,
    faults: &mut F,
) -> RunOutcome
    requires { length inputs.old ≡ length (sim_sources words.now) }
    ensures ends { LiveEndsAs T.Moments T.Looks T.Starter rt.now words.now result.ending
        (io_of R.Reader W.Writer F.Writer inputs.old inputs.new output.old output.new faults.old faults.new) }
    ensures told { Tells F.contents F.wrote F.settled faults.old faults.new (told_text result.told) }
    ensures found { ShowsFound (asked_form Sub.Live words.now) result.found result.ending
        (Sends W.contents W.wrote W.settled output.old output.new) }
{
    match read_inputs(alloc, sources_by(Sub::Live, words), inputs) {
        Ok(texts) => write_live(rt, alloc, words, texts.as_slice(), output, faults),
        Err(unread) => tell_unread(faults, unread.source, unread.why),
    }
}

/// Reads a topology and a script, opens a net over the topology, carries out the script's commands while each node
/// turns on a thread of its own, and writes the trace of the packets. The trace has version 1 where no packet may be
/// restamped, else version 2. It is JSON where the words ask for that. Each command that is refused is a line `refused
/// LINE NAME` of the faults.
///
/// Condition: there is one reader where `words.is_one_input()`, whose text the first line that is exactly `%%` cuts
/// into the two, and else one of the topology and one of the script. The answer is the exit status: 0 done; 1 an input
/// is refused, or a reader or writer failed; 3 want of memory, also in a command, or a thread that was not started.
pub fn run_live_text<
    T: Threads + Moments<Parcel> + Looks<Parcel> + Starter + Sync,
    R: Reader,
    W: Writer,
    F: Writer,
>(rt: &T, alloc: Global, words: &Words, inputs: &mut [R], output: &mut W, faults: &mut F) -> u8
    requires { length inputs.old ≡ length (sim_sources words.now) }
    ensures { RunEnds (LiveAnswers T.Moments T.Looks T.Starter rt.now) Sub.Live words.now result
        (io_of R.Reader W.Writer F.Writer inputs.old inputs.new output.old output.new faults.old faults.new) }
{
    status_of(follow_live(rt, alloc, words, inputs, output, faults).ending)
}

/// Does what the words ask for over readers and writers, and answers what it came to, as values: how the run ended,
/// what its lines of faults say, and what a check found. `live` is carried out as by `run_live_text`, and all else as
/// by `follow_by` of `ir_answer`.
///
/// Conditions: an order is of no plan of kind Tree; the inputs are a reader for each text, or for
/// `words.is_one_input()` one of all texts, which the first lines that are exactly `%%` cut. `status_of` has the exit
/// status of an ending. It is 0 where all is done; 1 for a refused input, a finding, or a reader or writer that failed.
/// It is 3 for want of memory, also in a step or a thread, or a node's thread that was not started.
pub fn follow<
    T: Threads + Moments<Parcel> + Looks<Parcel> + Starter + Sync,
    C: Crew,
    R: Reader,
    W: Writer,
    F: Writer,
>(
    team: &Team<'_, '_, T, C>,
    alloc: Global,
    words: &Words,
    inputs: &mut [R],
    output: &mut W,
    faults: &mut F,
) -> RunOutcome
    requires kind { FitsItsKind words.now }
    requires inputs { length inputs.old ≡ length (sources_of words.now) }
    ensures ends { FollowsAs T.Moments T.Looks T.Starter team.now.rt.now words.now result.ending
        (io_of R.Reader W.Writer F.Writer inputs.old inputs.new output.old output.new faults.old faults.new) }
    ensures told { Tells F.contents F.wrote F.settled faults.old faults.new (told_text result.told) }
    ensures found { ShowsFound (asked_form words.now.sub words.now) result.found result.ending
        (Sends W.contents W.wrote W.settled output.old output.new) }
{
    if words.sub == Sub::Live {
        follow_live(team.rt, alloc, words, inputs, output, faults)
    } else {
        follow_by(team.crew, alloc, words, inputs, output, faults)
    }
}
