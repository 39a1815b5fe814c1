//! The words of `route` that are refused, and runs of the program over texts in memory.

ghost use Rattle.std.specs.Prelude.{◌≡◌, length, IfOk};
ghost use Rattle.ir_answer.specs.Asked.{sources_of};
ghost use Rattle.ir_cli.specs.Words.{FitsItsKind};

use ir_answer::{Alone, follow_by, run_check, run_plan, run_sim, sources_of};
use ir_cli::{Called, Notice, Sub, Told, Words, WordsError, read_words_as, status_of};
use ir_core::OpenError;
use std::alloc::Global;

/// The words of a line.
fn split(alloc: Global, line: &str) -> Option<Vec<String>> {
    let mut words: Vec<String> = Vec::new(alloc);
    for word in line.split_whitespace() {
        let Ok(word) = String::from_str(alloc, word) else {
            return None;
        };
        if words.push(word).is_err() {
            return None;
        }
    }
    Some(words)
}

/// What a line of words after this name of the program asks for, or why it is refused.
fn asked_by(alloc: Global, called: Called, line: &str) -> Result<Words, WordsError>
    ensures { IfOk result (λ words. FitsItsKind words) }
{
    match split(alloc, line) {
        Some(words) => read_words_as(alloc, called, words.as_slice()),
        None => Err(WordsError::NoMemory),
    }
}

/// Whether an error has this number and a text: this one, if one is given.
fn is_error(error: &WordsError, number: u8, wanted: Option<&str>) -> bool {
    let is_told = match error {
        WordsError::Usage(text) | WordsError::Help(text) => match wanted {
            Some(wanted) => text.as_str() == wanted,
            None => true,
        },
        WordsError::NoMemory => false,
    };
    is_told && error.code() == number
}

/// Whether a line is refused with such an error.
fn is_refused(alloc: Global, called: Called, line: &str, number: u8, wanted: Option<&str>) -> bool {
    match asked_by(alloc, called, line) {
        Ok(_) => false,
        Err(error) => is_error(&error, number, wanted),
    }
}

#[test]
fn words_that_are_refused(rt: HostRuntime) {
    let alloc = rt.alloc();
    assert!(rt; is_refused(alloc, Called::Route, "", 1, None));
    assert!(rt; is_refused(alloc, Called::Route, "--version", 2, Some("route 2.0.0\n")));
    assert!(rt;
        is_refused(
            alloc,
            Called::Bentzolu,
            "--version",
            2,
            Some("bentzolu 2.0.0\n")
        )
    );
}

/// What the words ask for over the texts of their inputs, by the run of their subcommand.
fn run_alone(
    alloc: Global,
    words: &Words,
    inputs: &mut [&[u8]],
    output: &mut Vec<u8>,
    faults: &mut Vec<u8>,
) -> u8
    requires kind { FitsItsKind words.now }
    requires inputs { length inputs.old ≡ length (sources_of words.now) }
{
    match words.sub {
        Sub::Plan => run_plan(alloc, words, inputs, output, faults),
        Sub::Sim => run_sim(alloc, words, inputs, output, faults),
        Sub::Check => run_check(alloc, words, inputs, output, faults),
        _ => status_of(follow_by(&Alone, alloc, words, inputs, output, faults).ending),
    }
}

/// Whether words over a text on standard input print this and end with this status.
fn prints_of(alloc: Global, words: &Words, text: &str, wanted: (u8, &str, &str)) -> bool
    requires { FitsItsKind words.now }
{
    if sources_of(words).len() != 1 {
        return false;
    }
    let mut inputs = [text.as_bytes()];
    let mut output: Vec<u8> = Vec::new(alloc);
    let mut faults: Vec<u8> = Vec::new(alloc);
    let status = run_alone(alloc, words, &mut inputs, &mut output, &mut faults);
    let (ends_with, out, told) = wanted;
    status == ends_with
        && output.as_slice() == out.as_bytes()
        && faults.as_slice() == told.as_bytes()
}

/// Whether a line of words after the program's name does.
fn prints(alloc: Global, line: &str, text: &str, wanted: (u8, &str, &str)) -> bool {
    match asked_by(alloc, Called::Route, line) {
        Ok(words) => prints_of(alloc, &words, text, wanted),
        Err(_) => false,
    }
}

#[test]
fn a_plan_a_run_and_a_check(rt: HostRuntime) {
    let plan = (0, "plan shortest 3 4\na 0 1 b\nb 1 0 a 2 c\nc 2 0 b\n", "");
    assert!(rt; prints(rt.alloc(), "plan -", "a b\nb c\n", plan));
    let run = (
        0,
        "trace 1\n0 1 a c 2 delivered a b c\n",
        "refused 2 Same\n",
    );
    assert!(rt;
        prints(
            rt.alloc(),
            "sim -",
            "a b\nb c\n%%\ninject a c\nup a b\ndrain\n",
            run
        )
    );
    let text = "a b\nb c\n%%\ninject a c\ndrain\n%%\ntrace 1\n0 1 a c 2 delivered a b c\n";
    assert!(rt; prints(rt.alloc(), "check -", text, (0, "ok 1\n", "")));
}

/// What is reported, as a value, of words over a text on standard input.
fn told_of_words(alloc: Global, words: &Words, text: &str) -> Option<Told>
    requires { FitsItsKind words.now }
{
    if sources_of(words).len() != 1 {
        return None;
    }
    let mut inputs = [text.as_bytes()];
    let mut output: Vec<u8> = Vec::new(alloc);
    let mut faults: Vec<u8> = Vec::new(alloc);
    let outcome = follow_by(&Alone, alloc, words, &mut inputs, &mut output, &mut faults);
    Some(outcome.told)
}

/// The same of a line of words; none where they are refused.
fn told_of(alloc: Global, line: &str, text: &str) -> Option<Told> {
    match asked_by(alloc, Called::Route, line) {
        Ok(words) => told_of_words(alloc, &words, text),
        Err(_) => None,
    }
}

#[test]
fn an_outcome_is_told_as_a_value(rt: HostRuntime) {
    let is_empty = match told_of(rt.alloc(), "plan -", "\n") {
        Some(Told::Fault(notice)) => notice == Notice::Opening(OpenError::Empty),
        _ => false,
    };
    assert!(rt; is_empty);
}

#[test]
fn a_walk_prefixes_and_a_live_run(rt: HostRuntime) {
    let walk = (
        0,
        "walk shortest a c 2 2\na 0 1 1 b 1\nb 1 2 0 c 1\nc 2\n",
        "",
    );
    assert!(rt; prints(rt.alloc(), "walk --from a --to c -", "a b\nb c\n", walk));
    let nodes = (0, "plan shortest 3 3 1 2\nb 1 0 a 2 c\nc 2 0 b\n", "");
    assert!(rt; prints(rt.alloc(), "plan --nodes 1-2 -", "a b\nb c\n", nodes));
    let prefixes = (
        0,
        "prefixes shortest 4 2 8\na 0 3/2 d 0/0 b\nb 1 2/2 c 0/0 a\nd 3 2/1 c 0/0 a\nc 2 2/1 d 0/0 b\n",
        "",
    );
    assert!(rt; prints(rt.alloc(), "prefixes -", "a b d\nb c\nc d\n", prefixes));
    let live = (3, "", "no thread\n");
    assert!(rt; prints(rt.alloc(), "live -", "a b\nb c\n%%\ndrain\n", live));
}

/// What words over a text on standard input print, where they end with status 0.
fn output_of_words(alloc: Global, words: &Words, text: &str) -> Option<Vec<u8>>
    requires { FitsItsKind words.now }
{
    if sources_of(words).len() != 1 {
        return None;
    }
    let mut inputs = [text.as_bytes()];
    let mut output: Vec<u8> = Vec::new(alloc);
    let mut faults: Vec<u8> = Vec::new(alloc);
    let outcome = follow_by(&Alone, alloc, words, &mut inputs, &mut output, &mut faults);
    if status_of(outcome.ending) == 0 {
        Some(output)
    } else {
        None
    }
}

/// The same of a line of words; none where they are refused.
fn output_of(alloc: Global, line: &str, text: &str) -> Option<Vec<u8>> {
    match asked_by(alloc, Called::Route, line) {
        Ok(words) => output_of_words(alloc, &words, text),
        Err(_) => None,
    }
}

#[test]
fn a_table_as_bytes(rt: HostRuntime) {
    let line = "xdp table 258 --node b --binary -";
    let is_table = match output_of(rt.alloc(), line, "a b\nb c\n") {
        Some(bytes) => {
            bytes.len() == 128 && bytes.as_slice().starts_with(&[2, 1, 0, 0, 3, 0, 0, 0, 1])
        }
        None => false,
    };
    assert!(rt; is_table);
}

#[test]
fn figures_without_each_link(rt: HostRuntime) {
    let each = (
        0,
        "each links shortest 4 4 8 3 26 16/16 1/1 acyclic\na b 6 3 18 18/18 2/2 acyclic\na c 6 2 16 20/20 1/1 acyclic\nb c 6 2 16 20/20 1/1 acyclic\nc d disconnected\n",
        "",
    );
    assert!(rt;
        prints(
            rt.alloc(),
            "stats --each links -",
            "a b\nb c\nc a d\n",
            each
        )
    );
}

#[test]
fn figures_without_each_node(rt: HostRuntime) {
    let each = (
        0,
        "each nodes shortest 4 4 8 3 26 16/16 1/1 acyclic\na 4 2 10 8/8 1/1 acyclic\nb 4 2 10 8/8 1/1 acyclic\nc disconnected\nd 6 2 18 6/6 1/1 acyclic\n",
        "",
    );
    assert!(rt;
        prints(
            rt.alloc(),
            "stats --each nodes -",
            "a b\nb c\nc a d\n",
            each
        )
    );
}
