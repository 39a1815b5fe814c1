//! Runs of the program, from bytes to bytes.
ghost use Rattle.std.specs.Prelude.{◌≡◌, length};
ghost use Rattle.ir_answer.specs.Asked.{look_sources, sim_sources, check_sources, sources_by, sources_of, FitsSub, PlainBy, NoThreads};
ghost use Rattle.ir_answer.specs.Runs.{written_of, io_of, io_over, RunEndsAs, RunEnds};
ghost use Rattle.ir_answer.specs.{Formed.asked_form, Stops.Gives};
ghost use Rattle.ir_cli.specs.{Reading.texts_of, Notices.{told_text, ShowsFound}, Told.{Sends, Tells}, Words.FitsItsKind};

use crate::asking::{AnswerStop, three_texts, two_texts};
use crate::checking::check;
use crate::comparing::compare;
use crate::diffing::diff;
use crate::forming::form_of;
use crate::look::look_at;
use crate::play::simulate;
use crate::writing::write_given;
use ir_cli::{RunOutcome, RunReply, Source, Sub, Words, read_inputs, status_of, tell_unread};
use ir_plan::{Alone, Crew};
use ir_streams::{Reader, Writer};
use std::alloc::Global;

/// A subcommand, and the words of which it is one.
#[derive(Drop)]
struct Request<'a> {
    sub: Sub,
    words: &'a Words,
}

/// Where the texts of a topology and of an order, if there is one, are read.
fn look_sources(words: &Words) -> &'static [Source]
    ensures { result.now ≡ look_sources words.now }
{
    match (words.has_order(), words.is_one_input()) {
        (true, true) => &[Source::Input, Source::Numbering],
        (true, false) => &[Source::Topology, Source::Numbering],
        (false, true) => &[Source::Input],
        (false, false) => &[Source::Topology],
    }
}

/// Where the texts are read that a subcommand is over, in order.
pub fn sources_by(sub: Sub, words: &Words) -> &'static [Source]
    ensures { result.now ≡ sources_by sub words.now }
{
    let is_one = words.is_one_input();
    match sub {
        Sub::Plan | Sub::Walk | Sub::Stats | Sub::Draw | Sub::Prefixes | Sub::Ranges | Sub::Xdp => {
            look_sources(words)
        }
        Sub::Compare | Sub::Diff | Sub::Sim | Sub::Live | Sub::Check if is_one => &[Source::Input],
        Sub::Compare => &[Source::Topology],
        Sub::Diff => &[Source::Topology, Source::New],
        Sub::Sim | Sub::Live => &[Source::Topology, Source::Script],
        Sub::Check => &[Source::Topology, Source::Script, Source::Trace],
    }
}

/// Where the texts are read that the words ask for, in order.
pub fn sources_of(words: &Words) -> &'static [Source]
    ensures { result.now ≡ sources_of words.now }
{
    sources_by(words.sub, words)
}

/// The answer of a subcommand to the texts of the inputs, as text. That of `live` is that no thread was started.
fn answer_by<C: Crew>(
    crew: &C,
    alloc: Global,
    request: &Request<'_>,
    texts: &[Vec<u8>],
) -> Result<RunReply, AnswerStop>
    requires kind { FitsSub request.now.sub request.now.words.now }
    requires texts { length texts.now ≡ length (sources_by request.now.sub request.now.words.now) }
    ensures { Gives (PlainBy NoThreads request.now.sub request.now.words.now (texts_of texts.now)) result }
{
    let words = request.words;
    match request.sub {
        Sub::Plan | Sub::Walk | Sub::Stats | Sub::Draw | Sub::Prefixes | Sub::Ranges | Sub::Xdp => {
            look_at(crew, alloc, request.sub, words, texts)
        }
        Sub::Compare => compare(crew, alloc, words, texts),
        Sub::Diff => {
            let (old, new) = two_texts(words, texts);
            diff(crew, alloc, words, old, new)
        }
        Sub::Sim => {
            let (topology, script) = two_texts(words, texts);
            simulate(crew, alloc, words, topology, script)
        }
        Sub::Live => Ok(RunReply::NoThread),
        Sub::Check => {
            let (topology, script, trace) = three_texts(words, texts);
            check(crew, alloc, words, topology, script, trace)
        }
    }
}

/// Answers the texts of the inputs, and writes the answer in the form that the words ask for.
fn write_answer<C: Crew, W: Writer, F: Writer>(
    crew: &C,
    alloc: Global,
    request: &Request<'_>,
    texts: &[Vec<u8>],
    output: &mut W,
    faults: &mut F,
) -> RunOutcome
    requires kind { FitsSub request.now.sub request.now.words.now }
    requires texts { length texts.now ≡ length (sources_by request.now.sub request.now.words.now) }
    ensures ends { RunEndsAs NoThreads request.now.sub request.now.words.now result.ending
        (io_over (texts_of texts.now) (written_of W.Writer F.Writer output.old output.new faults.old faults.new)) }
    ensures told { Tells F.contents F.wrote F.settled faults.old faults.new (told_text result.told) }
    ensures found { ShowsFound (asked_form request.now.sub request.now.words.now) result.found result.ending
        (Sends W.contents W.wrote W.settled output.old output.new) }
{
    let plain = answer_by(crew, alloc, request, texts);
    let form = form_of(request.sub, request.words);
    write_given(crew, alloc, form, plain, output, faults)
}

/// Does what a subcommand does over readers and writers.
fn follow_as<C: Crew, R: Reader, W: Writer, F: Writer>(
    crew: &C,
    alloc: Global,
    request: &Request<'_>,
    inputs: &mut [R],
    output: &mut W,
    faults: &mut F,
) -> RunOutcome
    requires kind { FitsSub request.now.sub request.now.words.now }
    requires inputs { length inputs.old ≡ length (sources_by request.now.sub request.now.words.now) }
    ensures ends { RunEndsAs NoThreads request.now.sub request.now.words.now result.ending
        (io_of R.Reader W.Writer F.Writer inputs.old inputs.new output.old output.new faults.old faults.new) }
    ensures told { Tells F.contents F.wrote F.settled faults.old faults.new (told_text result.told) }
    ensures found { ShowsFound (asked_form request.now.sub request.now.words.now) result.found result.ending
        (Sends W.contents W.wrote W.settled output.old output.new) }
{
    match read_inputs(alloc, sources_by(request.sub, request.words), inputs) {
        Ok(texts) => write_answer(crew, alloc, request, texts.as_slice(), output, faults),
        Err(unread) => tell_unread(faults, unread.source, unread.why),
    }
}

/// Reads a topology, and an order where the words have one, and writes the plan that the words ask for. It has a line
/// for each node with its label and its row, or with its name alone in the order of the labels. It is JSON where the
/// words ask for that.
///
/// Conditions: an order is of no plan of kind Tree; there is a reader for the topology, or for all of standard input
/// where `words.is_one_input()`, and one for the order if there is one. The answer is the exit status: 0 done; 1 an
/// input is refused, or a reader or writer failed; 3 want of memory.
pub fn run_plan<R: Reader, W: Writer, F: Writer>(
    alloc: Global,
    words: &Words,
    inputs: &mut [R],
    output: &mut W,
    faults: &mut F,
) -> u8
    requires kind { FitsItsKind words.now }
    requires inputs { length inputs.old ≡ length (look_sources words.now) }
    ensures { RunEnds NoThreads Sub.Plan words.now result
        (io_of R.Reader W.Writer F.Writer inputs.old inputs.new output.old output.new faults.old faults.new) }
{
    let sub = Sub::Plan;
    let request = Request { sub, words };
    status_of(follow_as(&Alone, alloc, &request, inputs, output, faults).ending)
}

/// Reads a topology and a script, plays the script's steps in a world over the topology, and writes the trace of its
/// packets. The trace has version 1 where no packet may be restamped, else version 2. Each step that is refused is a
/// line `refused LINE NAME` of the faults. The trace is JSON where the words ask for that.
///
/// Condition: there is one reader where `words.is_one_input()`, whose text the first line that is exactly `%%` cuts
/// into the two, and else one of the topology and one of the script. The answer is the exit status: 0 done; 1 an input
/// is refused, or a reader or writer failed; 3 want of memory, also where a step wanted it.
pub fn run_sim<R: Reader, W: Writer, F: Writer>(
    alloc: Global,
    words: &Words,
    inputs: &mut [R],
    output: &mut W,
    faults: &mut F,
) -> u8
    requires inputs { length inputs.old ≡ length (sim_sources words.now) }
    ensures { RunEnds NoThreads Sub.Sim words.now result
        (io_of R.Reader W.Writer F.Writer inputs.old inputs.new output.old output.new faults.old faults.new) }
{
    let sub = Sub::Sim;
    let request = Request { sub, words };
    status_of(follow_as(&Alone, alloc, &request, inputs, output, faults).ending)
}

/// Reads a topology, a script and a trace, and writes `ok N` for a trace of N rows, or its first finding: `finding
/// LINE KIND`, as JSON where the words ask for that. The epochs of the rows are those of the script's installs, where
/// its changes of the board alone are played.
///
/// Condition: there is one reader where `words.is_one_input()`, whose text the first two lines that are exactly `%%`
/// cut into the three, and else one of the topology, one of the script and one of the trace. The answer is the exit
/// status: 0 done; 1 a finding, an input that is refused, or a reader or writer that failed; 3 want of memory.
pub fn run_check<R: Reader, W: Writer, F: Writer>(
    alloc: Global,
    words: &Words,
    inputs: &mut [R],
    output: &mut W,
    faults: &mut F,
) -> u8
    requires inputs { length inputs.old ≡ length (check_sources words.now) }
    ensures { RunEnds NoThreads Sub.Check words.now result
        (io_of R.Reader W.Writer F.Writer inputs.old inputs.new output.old output.new faults.old faults.new) }
{
    let sub = Sub::Check;
    let request = Request { sub, words };
    status_of(follow_as(&Alone, alloc, &request, inputs, output, faults).ending)
}

/// Does what the words ask for over readers and writers, and answers what it came to, as values: how the run ended,
/// what its lines of faults say, and what a check found. A crew takes part in it; what is written is the same for
/// any.
///
/// `plan`, `sim` and `check` are `run_plan`, `run_sim` and `run_check`. The other subcommands of a plan read what
/// `plan` does, `compare` a topology alone, and `diff` two topologies; each writes the one text that it shows, or its
/// JSON where the words ask for that. `live` wants threads of nodes: its inputs are read, and it is reported as
/// `no thread`.
///
/// Conditions: an order is of no plan of kind Tree; the inputs are a reader for each text, or for
/// `words.is_one_input()` one of all texts, which the first lines that are exactly `%%` cut. `status_of` has the exit
/// status of an ending. It is 0 where all is done; 1 for a refused input, a finding, or a reader or writer that failed.
/// It is 3 for want of memory, also in a step, and for `live`.
pub fn follow_by<C: Crew, R: Reader, W: Writer, F: Writer>(
    crew: &C,
    alloc: Global,
    words: &Words,
    inputs: &mut [R],
    output: &mut W,
    faults: &mut F,
) -> RunOutcome
    requires kind { FitsItsKind words.now }
    requires inputs { length inputs.old ≡ length (sources_of words.now) }
    ensures ends { RunEndsAs NoThreads words.now.sub words.now result.ending
        (io_of R.Reader W.Writer F.Writer inputs.old inputs.new output.old output.new faults.old faults.new) }
    ensures told { Tells F.contents F.wrote F.settled faults.old faults.new (told_text result.told) }
    ensures found { ShowsFound (asked_form words.now.sub words.now) result.found result.ending
        (Sends W.contents W.wrote W.settled output.old output.new) }
{
    let sub = words.sub;
    follow_as(crew, alloc, &Request { sub, words }, inputs, output, faults)
}
