//! What the lines of faults and of a check say, as values.
use crate::read::Source;
use ir_adjlist::TextError;
use ir_core::OpenError;
use ir_script::{OrderFault, ScriptError};
use ir_trace::{Departure, Finding};
use ir_whole::WholeFinding;

/// Why a run ended, or what a check found. Its stable line is `notice_line`; its sentence is `ir_explain`'s.
#[derive(Clone, Copy, Debug, PartialEq, Eq)]
pub enum Notice {
    /// An input can't be read.
    Unreadable(Source),
    /// An input has too many bytes.
    TooLarge(Source),
    Topology(TextError),
    /// What is wrong with the new topology.
    New(TextError),
    /// A node of the new network that the old one has not, by its number there.
    NewNode(u16),
    /// A node of the old network that the new one has not, by its number there.
    Gone(u16),
    /// Why there is no plan of the new network.
    NewOpening(OpenError),
    Script(ScriptError),
    Numbering(OrderFault),
    Opening(OpenError),
    /// The first finding of a trace, and where its row leaves the walks of its epochs, where it does so.
    Finding(Finding, Option<Departure>),
    /// The first finding of a trace beside its script.
    Beside(WholeFinding),
    /// A trace of so many rows has no finding.
    Sound(usize),
    Unwritable,
    NoMemory,
    /// A thread was not started.
    NoThread,
}
