//! Why a step of a script was refused.

use crate::lines::line_with;
use crate::sentence::{Pushed, Quoted, begin_line, joined};
use crate::texts::RunTexts;
use ir_core::{MAX_CHANGES, MAX_EPOCHS, Refused};

/// Says what a kind of refusal means, in a run that avoids a link or none.
fn push_reason(text: &mut String, refusal: Refused, avoids: bool) -> Pushed {
    text.push_str(match refusal {
        Refused::EpochsFull => return write!(text, "all {MAX_EPOCHS} epochs are used"),
        Refused::TooManyChanges => return write!(
            text,
            "the board takes at most {MAX_CHANGES} changes"
        ),
        Refused::NoNode => "it names no node",
        Refused::NoLink => "it names no link",
        Refused::NoChannel => "the node is not an end of that link",
        Refused::NoEpoch => "no epoch has this number",
        Refused::HandFull => "the node already holds a packet that it has not acted on",
        Refused::HandEmpty => "the node holds no packet",
        Refused::Empty => "no packet is waiting there",
        Refused::BadView => "the board has no such version, or the node has read a later one",
        Refused::Same => "it changes nothing",
        Refused::LinkDown => "the link is down",
        Refused::Disconnected if avoids => {
            "the links that are up and not avoided do not connect all nodes"
        }
        Refused::Disconnected => "the links that are up do not connect all nodes",
        Refused::TooManyPackets => "the run already has as many packets as --packets allows",
        Refused::InboxFull => "the inbox already holds as many packets as --capacity allows",
        Refused::Used => "a new cell of the registry refused its plan",
        Refused::NoMemory => "out of memory",
    })
}

/// Explains the refusal of a step.
pub fn push_refusal(text: &mut String, run: &RunTexts<'_>, at: usize, refusal: Refused) -> Pushed {
    let words = begin_line(run.alloc, text, &run.texts.script, at)?;
    let step = joined(run.alloc, words.as_slice())?;
    write!(text, "{} was refused: ", Quoted(step.as_slice()))?;
    let avoids = line_with(run.alloc, run.texts.script.bytes, b"avoid", 0)? > 0;
    push_reason(text, refusal, avoids)?;
    text.push_str("\n")
}
