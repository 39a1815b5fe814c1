//! The lines that report a refusal, and an input that was not read.
ghost use Rattle.std.specs.Prelude.{◌≡◌, ◌++◌, IfOk, OnOk, string_bytes};
ghost use Rattle.ir_cli.specs.Lines.{numbered_line, refused_line, steps_text, too_large_line, unreadable_line};
ghost use Rattle.ir_cli.specs.Notices.{notice_line};

use crate::notice::Notice;
use crate::read::Source;
use ir_core::Refused;
use std::alloc::{AllocError, Global};

/// The words of the faults of a topology, in the order of their numbers, which are counted from 1.
static FAULTS: [&str; 7] = [
    "BadByte",
    "BadName",
    "BadRow",
    "BadWeight",
    "TooManyNodes",
    "TooManyEdges",
    "NoMemory",
];

/// Those of the faults of a script.
static SCRIPT_FAULTS: [&str; 6] = [
    "BadByte",
    "BadCommand",
    "BadNumber",
    "UnknownNode",
    "UnknownLink",
    "NoMemory",
];

/// Those of the faults of an order of nodes.
static ORDERS: [&str; 6] = [
    "BadByte",
    "BadRow",
    "UnknownNode",
    "Twice",
    "Missing",
    "NoMemory",
];

/// Those of the refusals of an opening.
static OPENINGS: [&str; 7] = [
    "NoNode",
    "Empty",
    "Disconnected",
    "TooLarge",
    "NoMemory",
    "TooManyReaders",
    "Used",
];

/// Those of the refusals of a step.
static REFUSALS: [&str; 17] = [
    "NoNode",
    "NoLink",
    "NoChannel",
    "NoEpoch",
    "HandFull",
    "HandEmpty",
    "Empty",
    "BadView",
    "Same",
    "EpochsFull",
    "Disconnected",
    "TooManyPackets",
    "NoMemory",
    "InboxFull",
    "TooManyChanges",
    "Used",
    "LinkDown",
];

/// Those of the findings.
static FINDINGS: [&str; 9] = [
    "NotTrace",
    "BadRow",
    "UnknownNode",
    "UnknownEpoch",
    "NotAPrefix",
    "NotAtDestination",
    "BadWeight",
    "Repeated",
    "NoMemory",
];

/// Those of the findings beside a script.
static BESIDE_SCRIPT: [&str; 6] = [
    "NeverInjected",
    "NotYetInstalled",
    "NeverDown",
    "NeverRetired",
    "NeverFull",
    "NoMemory",
];

/// Writes a line that says what is wrong where: a word, the number of a line, and a name.
fn push_line(text: &mut String, what: &str, line: usize, name: &str) -> Result<(), AllocError>
    ensures { OnOk result (string_bytes text.new ≡ string_bytes text.old ++ numbered_line what.now line name.now) }
{
    write!(text, "{what} {line} {name}\n")
}

/// Such a line alone.
fn line_of(alloc: Global, what: &str, line: usize, name: &str) -> Result<String, AllocError>
    ensures { IfOk result (λ text. string_bytes text ≡ numbered_line what.now line name.now) }
{
    let mut text = String::new(alloc);
    push_line(&mut text, what, line, name)?;
    Ok(text)
}

/// The text for an input that can't be read.
pub fn unreadable_line(source: Source) -> &'static str
    ensures { result.now ≡ unreadable_line source }
{
    match source {
        Source::Input => "input unreadable\n",
        Source::Topology => "topology unreadable\n",
        Source::New => "new unreadable\n",
        Source::Script => "script unreadable\n",
        Source::Trace => "trace unreadable\n",
        Source::Numbering => "numbering unreadable\n",
    }
}

/// The text for an input with too many bytes.
pub fn too_large_line(source: Source) -> &'static str
    ensures { result.now ≡ too_large_line source }
{
    match source {
        Source::Input => "input too large\n",
        Source::Topology => "topology too large\n",
        Source::New => "new too large\n",
        Source::Script => "script too large\n",
        Source::Trace => "trace too large\n",
        Source::Numbering => "numbering too large\n",
    }
}

/// The line of a notice.
pub fn notice_line(alloc: Global, notice: Notice) -> Result<String, AllocError>
    ensures { IfOk result (λ text. string_bytes text ≡ notice_line notice) }
{
    match notice {
        Notice::Unreadable(source) => String::from_str(alloc, unreadable_line(source)),
        Notice::TooLarge(source) => String::from_str(alloc, too_large_line(source)),
        Notice::Topology(e) => line_of(alloc, "topology", e.line, FAULTS[e.kind as usize - 1]),
        Notice::New(e) => line_of(alloc, "new", e.line, FAULTS[e.kind as usize - 1]),
        Notice::NewNode(_) => String::from_str(alloc, "new UnknownNode\n"),
        Notice::Gone(_) => String::from_str(alloc, "new Missing\n"),
        Notice::NewOpening(error) => {
            format!(in alloc; "new {}\n", OPENINGS[error.code() as usize - 1])
        }
        Notice::Script(e) => line_of(alloc, "script", e.line, SCRIPT_FAULTS[e.kind as usize - 1]),
        Notice::Numbering(e) => { line_of(alloc, "numbering", e.line, ORDERS[e.kind as usize - 1]) }
        Notice::Opening(error) => {
            format!(in alloc; "opening {}\n", OPENINGS[error.code() as usize - 1])
        }
        Notice::Finding(f, _) => line_of(alloc, "finding", f.line, FINDINGS[f.kind as usize - 1]),
        Notice::Beside(f) => line_of(alloc, "finding", f.line, BESIDE_SCRIPT[f.kind as usize - 1]),
        Notice::Sound(rows) => format!(in alloc; "ok {rows}\n"),
        Notice::Unwritable => String::from_str(alloc, "output unwritable\n"),
        Notice::NoMemory => String::from_str(alloc, "out of memory\n"),
        Notice::NoThread => String::from_str(alloc, "no thread\n"),
    }
}

/// Writes the line of a step that was refused.
fn push_step(text: &mut String, line: usize, refusal: Refused) -> Result<(), AllocError>
    ensures { OnOk result (string_bytes text.new ≡ string_bytes text.old ++ refused_line line refusal) }
{
    push_line(text, "refused", line, REFUSALS[refusal.code() as usize - 1])
}

/// A line for each step that was refused.
pub fn steps_text(alloc: Global, steps: &[(usize, Refused)]) -> Result<String, AllocError>
    ensures { IfOk result (λ text. string_bytes text ≡ steps_text steps.now) }
{
    let mut text = String::new(alloc);
    for i in 0..steps.len() {
        let (line, refusal) = steps[i];
        push_step(&mut text, line, refusal)?;
    }
    Ok(text)
}
