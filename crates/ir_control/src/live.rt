//! What a live run answers.
ghost use Rattle.std.specs.Prelude.{◌≡◌};
ghost use Rattle.ir_control.specs.Codes.{live_code};

use crate::report::Report;
use ir_core::Refused;
use thiserror::Error;

/// What came of a live run: the report, and each refused command's place, counted from 0, with its refusal.
#[derive(Drop)]
pub struct Live {
    pub report: Report,
    pub refusals: Vec<(usize, Refused)>,
}

/// Why a live run has no report. After any answer the net is spent.
#[derive(Clone, Copy, Debug, PartialEq, Eq, Error)]
pub enum LiveError {
    /// The net's parts were handed out before.
    #[error("the net is spent")]
    Spent = 1,
    #[error("a thread was not started")]
    NoThread = 2,
    /// A growth was refused, in a worker too. A command's is among the refusals.
    #[error("out of memory")]
    NoMemory = 3,
    /// The board has no place for a reader of each node.
    #[error("no place is left for a reader of the board")]
    TooManyReaders = 4,
}

impl LiveError {
    /// Its number: 1 Spent, 2 NoThread, 3 NoMemory, 4 TooManyReaders.
    pub fn code(self) -> u8
        ensures { result ≡ live_code self }
    {
        self as u8
    }
}
