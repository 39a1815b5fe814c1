//! What a finding in a trace means.
ghost use Rattle.std.specs.Prelude.{◌≤◌};

use crate::departing::push_departure;
use crate::lines::{line_at, line_with, word_at, words_of};
use crate::script::{push_no_node, unknown_word};
use crate::sentence::{FileName, Pushed, Quoted, begin_at};
use crate::texts::{GivenText, RunTexts};
use ir_trace::{Departure, Finding, FindingKind};
use ir_whole::{WholeFinding, WholeKind};

static MEMORY: &str = "out of memory while checking the trace";

static UNFOLLOWED: &str =
    "the hops leave the path of their epoch's plan, or end where the fate does not explain it";

/// Whether rows have their epochs before their hops, as those of `trace 2`, and not after their ids.
fn has_segments(trace: &GivenText<'_>) -> bool {
    trace.bytes.starts_with(b"trace 2\n".as_slice())
}

/// The place of the source among the words of a row; destination and weight follow it.
fn source_place(trace: &GivenText<'_>) -> usize
    ensures { result ≤ 2 }
{
    if has_segments(trace) { 1 } else { 2 }
}

/// Says which end of a row names no node, or that two of its hops are not linked.
fn push_unknown_node(text: &mut String, run: &RunTexts<'_>, words: &[&[u8]]) -> Pushed {
    let place = source_place(&run.texts.trace);
    let end = unknown_word(run.graph, words, &[place, place + 1]);
    if end.is_empty() {
        return text.push_str("a hop is not a node, or has no link from the hop before it");
    }
    push_no_node(text, run, end)
}

/// Begins a sentence on a line of the trace by its whole row: a trace has no comments.
fn begin_row(text: &mut String, run: &RunTexts<'_>, line: usize) -> Pushed {
    begin_at(text, &run.texts.trace, line)?;
    write!(text, "{}: ", Quoted(line_at(run.texts.trace.bytes, line)))
}

/// Says why no run of the script can have had a row.
pub fn push_beside(text: &mut String, run: &RunTexts<'_>, finding: WholeFinding) -> Pushed {
    begin_row(text, run, finding.line)?;
    let (script, capacity) = (FileName(run.texts.script.file), run.words.capacity);
    match finding.kind {
        WholeKind::NeverInjected => write!(
            text,
            "no inject in {script} can be this packet's, given the rows before it"
        ),
        WholeKind::NotYetInstalled => write!(
            text,
            "the installs before its inject in {script} cannot have made its first epoch"
        ),
        WholeKind::NeverDown => write!(text, "no line of {script} takes that link down"),
        WholeKind::NeverRetired => write!(text, "no line of {script} retires its epoch"),
        WholeKind::NeverFull => write!(
            text,
            "that channel can never have held --capacity ({capacity}) packets"
        ),
        WholeKind::NoMemory => text.push_str(MEMORY),
    }
}

/// Says what a finding means on a row of these words.
fn push_meaning(
    text: &mut String,
    run: &RunTexts<'_>,
    finding: Finding,
    departure: Option<Departure>,
    words: &[&[u8]],
) -> Pushed {
    let trace = &run.texts.trace;
    let said = match finding.kind {
        FindingKind::NotTrace => "a trace must begin with the line 'trace 1' or 'trace 2'",
        FindingKind::BadRow => "this is not a row of a trace, or it does not end in a line feed",
        FindingKind::UnknownNode => return push_unknown_node(text, run, words),
        FindingKind::UnknownEpoch if has_segments(trace) =>
            "the run does not have all epochs of this row",
        FindingKind::UnknownEpoch => {
            return write!(text, "the run has no epoch {}", Quoted(word_at(words, 1)));
        }
        FindingKind::NotAPrefix => match departure {
            Some(found) if push_departure(text, run, finding.line, found)? => "",
            _ => UNFOLLOWED,
        },
        FindingKind::NotAtDestination => {
            "the fate is 'delivered', but the path continues after the last hop"
        }
        FindingKind::BadWeight => {
            let weight = Quoted(word_at(words, source_place(trace) + 2));
            return write!(text, "{weight} is not the weight of the hops");
        }
        FindingKind::Repeated => {
            let id = word_at(words, 0);
            let line = line_with(run.alloc, trace.bytes, id, 1)?.saturating_add(trace.above);
            return write!(text, "id {} is already used on line {line}", Quoted(id));
        }
        FindingKind::NoMemory => MEMORY,
    };
    text.push_str(said)
}

/// Says what a finding means, whose row leaves the walks of its epochs there.
pub fn push_finding(
    text: &mut String,
    run: &RunTexts<'_>,
    finding: Finding,
    departure: Option<Departure>,
) -> Pushed {
    begin_row(text, run, finding.line)?;
    let words = words_of(run.alloc, line_at(run.texts.trace.bytes, finding.line))?;
    push_meaning(text, run, finding, departure, words.as_slice())
}
