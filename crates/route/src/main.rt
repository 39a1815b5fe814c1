//! `route`: interval routing over a network. `route sim` plays the lines of a script over a topology, and prints what
//! became of its packets. `route live` does so while each node runs in a thread of its own, and `route check` checks
//! what they print. `route plan` prints the labels and rows of a topology's nodes, `route walk` a walk of that plan,
//! and `route stats` its figures. `route draw` prints a drawing of it, `route prefixes` its forwarding tables, and
//! `route ranges` its ranges of labels. With no words it does as `route sim -`, with both texts from standard input,
//! and where that is a terminal it prints its help. Where standard error is a terminal, sentences for people follow the
//! lines of faults, and a plan that takes longer than a second says there how far it is. A program that is called
//! `bentzolu` calls itself so.
#![tactic(auto)]

ghost use Rattle.std.specs.Prelude.{◌≡◌, ◌∷◌, [], IfOk, codes, drop, length, map, string_bytes};
ghost use Rattle.ir_answer.specs.Asked.{sources_of};
ghost use Rattle.ir_cli.specs.Words.{FitsItsKind};
ghost use Rattle.route.specs.Asked.{IsAskedBy};

mod crew;
mod input;
mod naming;
mod output;
mod piped;
mod progress;
mod terminal;

use crew::Shown;
use input::{Input, open};
use ir_answer::follow_by;
use ir_cli::{Called, is_whole, read_words_as, status_of};
use ir_explain::explanation_kept;
use ir_plan::{Alone, Several};
use ir_shell::{RunOutcome, Source, Sub, Team, Words, WordsError, follow, sources_of};
use naming::{called_by, said_by};
use output::Output;
use piped::Piped;
use progress::Progress;
use std::alloc::{AllocError, Global};
use std::cell::Cell;
use std::fs::File;
use std::io::{IsTerminal, Stderr, Stdin, Stdout, Write};
use std::process::ExitCode;
use std::sync::Wait;
use std::thread::Threads;
use std::{env, io};
use terminal::{are_sentences_wanted, tell};

/// How the program was called: by which name and with which words after it. Threads are started by a runtime.
#[derive(Drop)]
struct Call<'a, T> {
    rt: &'a HostRuntime,
    threads: &'a T,
    called: Called,
    given: &'a [String],
}

/// The words of the command line, from the program's name on.
fn words(rt: &HostRuntime) -> io::Result<Vec<String>> {
    Ok(env::args(rt)?.collect(rt.alloc())?)
}

/// The words after the program's name.
fn behind_the_name(words: &[String]) -> &[String]
    ensures { result.now ≡ drop 1 words.now }
{
    if words.is_empty() { words } else { &words[1..] }
}

/// The words that stand for none: `sim -`. Where standard error is a terminal, it shows what is waited for.
fn words_for_none(rt: &HostRuntime, name: &str) -> Result<Vec<String>, AllocError>
    ensures { IfOk result (λ words. map string_bytes words.items ≡ codes "sim" ∷ codes "-" ∷ []) }
{
    if rt.stderr().is_terminal() {
        let told = format!(in rt.alloc();
            "{name}: reading a topology and a script from standard input, with a line %% between them; see {name} --help\n"
        )?;
        tell(rt, told.as_str());
    }
    let mut words = Vec::new(rt.alloc());
    words.push(String::from_str(rt.alloc(), "sim")?)?;
    words.push(String::from_str(rt.alloc(), "-")?)?;
    Ok(words)
}

/// The input of a text, of which is kept what is read where the words ask for sentences.
fn input_of(rt: &HostRuntime, words: &Words, source: Source) -> Input<File, Stdin> {
    let name = match source {
        Source::Input => "-",
        Source::Topology => words.file(0),
        Source::New | Source::Script => words.file(1),
        Source::Trace => words.file(2),
        Source::Numbering => words.order_file(),
    };
    open(rt, name, words.explain)
}

/// The inputs of all texts, opened in order.
fn inputs_of(rt: &HostRuntime, words: &Words) -> Result<Vec<Input<File, Stdin>>, AllocError>
    ensures { IfOk result (λ inputs. length inputs.items ≡ length (sources_of words.now)) }
{
    let sources = sources_of(words);
    let mut inputs = Vec::with_capacity(rt.alloc(), sources.len())?;
    for source in sources {
        inputs.push(input_of(rt, words, *source))?;
    }
    Ok(inputs)
}

/// Sentences on a run that came to this; none where the words do not ask for them. Refused where there is no memory
/// for all of it.
fn sentences(
    alloc: Global,
    words: &Words,
    inputs: &[Input<File, Stdin>],
    outcome: &RunOutcome,
    is_kept: bool,
) -> Result<String, AllocError> {
    let mut given = Vec::new(alloc);
    for input in inputs {
        given.push(input.given().ok_or(AllocError)?)?;
    }
    explanation_kept(alloc, words, given.as_slice(), outcome, is_kept)
}

/// Prints sentences after the faults of a run, by the program's name, where there is memory for them.
fn explain(rt: &HostRuntime, name: &str, text: &str) {
    if let Ok(said) = said_by(rt.alloc(), name, text) {
        tell(rt, said.as_str());
    }
}

/// Ends the output of a run with a status, and answers whether it came to its place: a file takes its place where all
/// of the output is written, and else stays as it is.
fn end_output(
    output: &mut Piped<'_, Output<'_, HostRuntime, Stdout>>,
    faults: &mut Piped<'_, Stderr>,
    status: u8,
) -> bool {
    let is_whole = is_whole(status, faults.is_used);
    let is_kept = is_whole && output.writer.keep().is_ok();
    output.writer.discard();
    if is_whole && !is_kept {
        let _told = faults.write_all(b"output unwritable\n");
        return false;
    }
    true
}

/// Ends a run that came to this: the output comes to its place, sentences are said, and the status is answered.
fn end_run<T: Threads + Sync>(
    call: &Call<'_, T>,
    words: &Words,
    inputs: &[Input<File, Stdin>],
    outcome: &RunOutcome,
    output: &mut Piped<'_, Output<'_, HostRuntime, Stdout>>,
    faults: &mut Piped<'_, Stderr>,
) -> u8 {
    let status = status_of(outcome.ending);
    let is_kept = end_output(output, faults, status);
    if words.explain && !output.is_quiet() {
        if let Ok(text) = sentences(call.rt.alloc(), words, inputs, outcome, is_kept) {
            explain(call.rt, call.called.name(), text.as_str());
        }
    }
    if is_kept { status } else { 1 }
}

/// Does what words other than those of `live` ask for over the inputs, and writes to this output. It waits for no
/// thread but those that it starts.
fn run_over<T: Threads + Sync>(
    call: &Call<'_, T>,
    words: &Words,
    inputs: &mut [Input<File, Stdin>],
    output: Output<'_, HostRuntime, Stdout>,
) -> u8
    requires kind { FitsItsKind words.now }
    requires asks { IsAskedBy call.now.called call.now.given.now words.now }
    requires inputs { length inputs.old ≡ length (sources_of words.now) }
{
    let is_quiet = Cell::new(words.quiet);
    let is_plan_shown = !words.quiet && !matches!(words.sub, Sub::Sim | Sub::Check);
    let is_counted = matches!(words.sub, Sub::Stats | Sub::Compare);
    let progress = Progress::new(call.rt, call.called.name(), is_plan_shown, is_counted);
    let mut output = Piped::new(output, true, &is_quiet, &progress);
    let mut faults = Piped::new(call.rt.stderr(), false, &is_quiet, &progress);
    let crew = Shown {
        several: Several {
            rt: call.threads,
            most: words.threads,
        },
        progress: &progress,
    };
    let alloc = call.rt.alloc();
    let outcome = follow_by(&crew, alloc, words, inputs, &mut output, &mut faults);
    progress.clear();
    end_run(call, words, inputs, &outcome, &mut output, &mut faults)
}

/// Does what the words of `live` ask for over the inputs, and writes to this output. Each node has a thread.
fn run_live<T: Threads + Wait + Sync>(
    call: &Call<'_, T>,
    words: &Words,
    inputs: &mut [Input<File, Stdin>],
    output: Output<'_, HostRuntime, Stdout>,
) -> u8
    requires kind { FitsItsKind words.now }
    requires asks { IsAskedBy call.now.called call.now.given.now words.now }
    requires inputs { length inputs.old ≡ length (sources_of words.now) }
{
    let is_quiet = Cell::new(words.quiet);
    let progress = Progress::new(call.rt, call.called.name(), false, false);
    let mut output = Piped::new(output, true, &is_quiet, &progress);
    let mut faults = Piped::new(call.rt.stderr(), false, &is_quiet, &progress);
    let team = Team {
        rt: call.threads,
        crew: &Alone,
    };
    let alloc = call.rt.alloc();
    let outcome = follow(&team, alloc, words, inputs, &mut output, &mut faults);
    end_run(call, words, inputs, &outcome, &mut output, &mut faults)
}

/// What the words after the program's name ask for, with sentences where standard error is a terminal too.
fn asked(rt: &HostRuntime, called: Called, given: &[String]) -> Result<Words, WordsError>
    ensures kind { IfOk result (λ words. FitsItsKind words) }
    ensures asks { IfOk result (λ words. IsAskedBy called given.now words) }
{
    let mut words = read_words_as(rt.alloc(), called, given)?;
    let is_terminal = rt.stderr().is_terminal();
    words.explain = are_sentences_wanted(words.explain, is_terminal, given);
    Ok(words)
}

/// Says that memory was refused, and answers the exit status.
fn out_of_memory(rt: &HostRuntime) -> u8 {
    tell(rt, "out of memory\n");
    3
}

/// Opens what the words name, and does what they ask for. Only `live` may wait.
fn run_words<T: Threads + Wait + Sync>(call: &Call<'_, T>, words: &Words) -> Result<u8, AllocError>
    requires kind { FitsItsKind words.now }
    requires asks { IsAskedBy call.now.called call.now.given.now words.now }
{
    let rt = call.rt;
    let output = Output::new(rt, rt.alloc(), words.output.as_ref(), rt.stdout())?;
    let mut inputs = inputs_of(rt, words)?;
    if words.sub == Sub::Live {
        Ok(run_live(call, words, inputs.as_mut_slice(), output))
    } else {
        Ok(run_over(call, words, inputs.as_mut_slice(), output))
    }
}

/// Does what the words after the program's name ask for.
fn follow_words<T: Threads + Wait + Sync>(call: &Call<'_, T>) -> u8 {
    let rt = call.rt;
    match asked(rt, call.called, call.given) {
        Ok(words) => match run_words(call, &words) {
            Ok(status) => status,
            Err(_) if words.quiet => 3,
            Err(_) => out_of_memory(rt),
        },
        Err(WordsError::Usage(text)) => {
            tell(rt, text.as_str());
            2
        }
        Err(WordsError::Help(text)) => {
            let Err(error) = rt.print(text) else {
                return 0;
            };
            if error.kind() != io::ErrorKind::BrokenPipe {
                tell(rt, "output unwritable\n");
            }
            1
        }
        Err(WordsError::NoMemory) => out_of_memory(rt),
    }
}

/// Does what is asked for by no words: prints the help where standard input is a terminal, else follows `sim -`.
fn follow_none<T: Threads + Wait + Sync>(
    rt: &HostRuntime,
    threads: &T,
    called: Called,
) -> Result<u8, AllocError> {
    if !rt.stdin().is_terminal() {
        let words = words_for_none(rt, called.name())?;
        let given = words.as_slice();
        return Ok(follow_words(&Call {
            rt,
            threads,
            called,
            given,
        }));
    }
    let mut help = Vec::new(rt.alloc());
    help.push(String::from_str(rt.alloc(), "--help")?)?;
    if let Err(WordsError::Help(text)) = read_words_as(rt.alloc(), called, help.as_slice()) {
        tell(rt, text.as_str());
    }
    Ok(2)
}

/// Does what the words after the program's name ask for, if there are any.
fn follow_given<T: Threads + Wait + Sync>(
    rt: &HostRuntime,
    threads: &T,
    called: Called,
    given: &[String],
) -> u8 {
    if given.is_empty() {
        return match follow_none(rt, threads, called) {
            Ok(status) => status,
            Err(_) => out_of_memory(rt),
        };
    }
    follow_words(&Call {
        rt,
        threads,
        called,
        given,
    })
}

fn main(rt: HostRuntime) -> ExitCode {
    let called = called_by(&rt);
    let status = match words(&rt) {
        Ok(words) => follow_given(&rt, &rt, called, behind_the_name(words.as_slice())),
        Err(error) if error.kind() == io::ErrorKind::OutOfMemory => out_of_memory(&rt),
        Err(_) => {
            let _told = eprintln!(rt; "{}: an argument is not valid UTF-8", called.name());
            2
        }
    };
    ExitCode::from(status)
}
