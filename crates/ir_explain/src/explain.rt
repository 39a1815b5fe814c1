//! The explanation of a run.

use crate::MOST_EXPLAINED;
use crate::diffing::{push_gone, push_new, push_new_node, push_new_opening};
use crate::finding::{push_beside, push_finding};
use crate::notes::push_note;
use crate::numbering::push_numbering;
use crate::opening::push_opening;
use crate::refusal::push_refusal;
use crate::script::push_script;
use crate::sentence::{Pushed, begin};
use crate::texts::{Given, GivenTexts, RunTexts, Trouble, graph_of, new_graph_of, texts_of};
use crate::topology::push_topology;
use crate::unlearnt::push_unlearnt;
use ir_cli::{Notice, RunOutcome, Sub, Told, Words};
use ir_core::Refused;
use ir_streams::MAX_INPUT_BYTES;
use std::alloc::{AllocError, Global};

/// Says why an input was not read.
fn unread(trouble: Trouble) -> &'static str {
    match trouble {
        Trouble::Missing => "no such file",
        Trouble::Forbidden => "permission denied",
        Trouble::Directory => "is a directory",
        Trouble::Unknown | Trouble::Failed => "could not be read",
    }
}

/// Says which output was not written.
fn push_unwritten(text: &mut String, words: &Words) -> Pushed {
    match &words.output {
        Some(file) if file.as_str() != "-" => begin(text, file.as_str())?,
        _ => text.push_str("route: standard output: ")?,
    }
    text.push_str("could not be written")
}

/// Says what was not checked where there is no finding.
fn unseen(words: &Words) -> &'static str {
    if words.whole {
        "the script allows every row's inject, epoch and cause of drop; missing rows are not checked"
    } else {
        "hops and weights follow the plans; injects, causes of drops and missing rows are not checked (--whole checks the first two)"
    }
}

/// Says this of a file.
fn push_on(text: &mut String, file: &str, said: &str) -> Pushed {
    begin(text, file)?;
    text.push_str(said)
}

/// Says what a notice means.
fn push_noticed(text: &mut String, run: &RunTexts<'_>, notice: Notice) -> Pushed {
    let texts = &run.texts;
    match notice {
        Notice::Unreadable(source) => {
            let part = texts.of(source);
            push_on(text, part.file, unread(part.trouble))
        }
        Notice::TooLarge(source) => {
            begin(text, texts.of(source).file)?;
            write!(
                text,
                "larger than {MAX_INPUT_BYTES} bytes, the limit of an input"
            )
        }
        Notice::Topology(error) => push_topology(text, run, error),
        Notice::New(error) => push_new(text, run, error),
        Notice::NewNode(u) => push_new_node(text, run, u),
        Notice::Gone(u) => push_gone(text, run, u),
        Notice::NewOpening(error) => push_new_opening(text, run, error),
        Notice::Script(error) => push_script(text, run, error),
        Notice::Numbering(fault) => push_numbering(text, run, fault),
        Notice::Opening(error) => push_opening(text, run, error),
        Notice::Finding(finding, left) => push_finding(text, run, finding, left),
        Notice::Beside(finding) => push_beside(text, run, finding),
        Notice::Sound(_) => push_on(text, texts.trace.file, unseen(run.words)),
        Notice::Unwritable => push_unwritten(text, run.words),
        Notice::NoThread => text.push_str("route: a thread could not be started"),
        Notice::NoMemory => text.push_str("route: the system refused to allocate memory"),
    }
}

/// Explains a notice.
fn push_notice(text: &mut String, run: &RunTexts<'_>, notice: Notice) -> Pushed {
    push_noticed(text, run, notice)?;
    text.push_str("\n")
}

/// That there are more lines of faults than are explained.
static FURTHER: &str = "route: further lines are not explained\n";

/// Explains steps that were refused, and an output that did not come to its place, as many as are explained.
fn explain_steps(
    text: &mut String,
    run: &RunTexts<'_>,
    steps: &[(usize, Refused)],
    is_kept: bool,
) -> Pushed {
    for (place, (line, refusal)) in steps.iter().enumerate() {
        if place == MOST_EXPLAINED {
            return text.push_str(FURTHER);
        }
        push_refusal(text, run, *line, *refusal)?;
    }
    if is_kept {
        Ok(())
    } else if steps.len() == MOST_EXPLAINED {
        text.push_str(FURTHER)
    } else {
        push_unwritten(text, run.words)?;
        text.push_str("\n")
    }
}

/// Explains what a run came to.
fn explain_outcome(
    text: &mut String,
    run: &RunTexts<'_>,
    outcome: &RunOutcome,
    is_kept: bool,
) -> Pushed {
    match &outcome.told {
        Told::Steps(steps) => explain_steps(text, run, steps.as_slice(), is_kept)?,
        Told::Fault(notice) => push_notice(text, run, *notice)?,
    }
    match outcome.found {
        Some(notice) => push_notice(text, run, notice),
        None => Ok(()),
    }
}

/// Explains what a run of these texts came to.
fn explain_over(
    text: &mut String,
    words: &Words,
    texts: &GivenTexts<'_>,
    outcome: &RunOutcome,
    is_kept: bool,
) -> Pushed {
    let alloc = *text.allocator();
    let graph = graph_of(alloc, words.format, &texts.topology)?;
    let new_graph = new_graph_of(alloc, words, &texts.new)?;
    let run = RunTexts {
        alloc,
        graph: &graph,
        new_graph: &new_graph,
        words,
        texts: *texts,
    };
    explain_outcome(text, &run, outcome, is_kept)
}

/// Writes the explanation of a run of these texts.
fn push_explanation(
    text: &mut String,
    words: &Words,
    texts: &GivenTexts<'_>,
    outcome: &RunOutcome,
    is_kept: bool,
) -> Pushed {
    let alloc = *text.allocator();
    let (has_steps, has_fault) = match &outcome.told {
        Told::Steps(steps) => (!steps.is_empty(), false),
        Told::Fault(_) => (false, true),
    };
    if has_steps || has_fault || !is_kept || outcome.found.is_some() {
        explain_over(text, words, texts, outcome, is_kept)?;
    }
    push_note(alloc, text, words.format, &texts.topology)?;
    if words.sub == Sub::Diff {
        push_note(alloc, text, words.new_format, &texts.new)?;
    }
    if words.sub == Sub::Sim && !has_fault && (is_kept || has_steps) {
        return push_unlearnt(alloc, text, &texts.script);
    }
    Ok(())
}

/// The explanation of a run: a line `route: ..` for each refused step, for why it ended and for
/// what a check found. There is also one for a topology that looks like another format, and for a
/// packet of a simulation whose install was not learnt. `given` has what was read of the inputs, in
/// their order. Refused for want of memory alone. For users of the library.
pub fn explanation(
    alloc: Global,
    words: &Words,
    given: &[Given<'_>],
    outcome: &RunOutcome,
) -> Result<String, AllocError> {
    explanation_kept(alloc, words, given, outcome, true)
}

/// The same, where it is known whether the output came to its place.
pub fn explanation_kept(
    alloc: Global,
    words: &Words,
    given: &[Given<'_>],
    outcome: &RunOutcome,
    is_kept: bool,
) -> Result<String, AllocError> {
    let texts = texts_of(words, given);
    let mut text = String::new(alloc);
    push_explanation(&mut text, words, &texts, outcome, is_kept)?;
    Ok(text)
}
