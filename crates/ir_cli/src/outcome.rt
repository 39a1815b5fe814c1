//! What a run came to, as values.

use crate::ending::Ending;
use crate::notice::Notice;
use ir_core::Refused;

/// What the lines of faults say: the steps that were refused, by the numbers of their lines, or why the run ended.
#[derive(Drop)]
pub enum Told {
    Steps(Vec<(usize, Refused)>),
    Fault(Notice),
}

/// What a run came to: how it ended, what its lines of faults say, and what a check found, if that was written.
#[derive(Drop)]
pub struct RunOutcome {
    pub ending: Ending,
    pub told: Told,
    pub found: Option<Notice>,
}
