//! What no run of a script can have had.
ghost use Rattle.std.specs.Prelude.{◌≡◌};
ghost use Rattle.ir_whole.specs.{Codes.whole_code, declared.finding.WholeKind.TheVariants.NoMemory};

use std::alloc::AllocError;
use thiserror::Error;

/// Why no run of the script can have had a row.
#[derive(Clone, Copy, Debug, PartialEq, Eq)]
pub enum WholeKind {
    /// No inject of the script can be its packet's, beside those of the rows before.
    NeverInjected = 1,
    /// Its first epoch is beyond those that install lines above its packet's inject can have made.
    NotYetInstalled = 2,
    /// It was dropped at a link that no line of the script takes down.
    NeverDown = 3,
    /// It was dropped as retired, and no line of the script retires its epoch.
    NeverRetired = 4,
    /// It was dropped at a full channel, which fewer rows pass than it holds packets.
    NeverFull = 5,
    NoMemory = 6,
}

/// The first row of a trace that no run of the script can have had: its line, counted from 1, and
/// why. Want of memory has line 0.
#[derive(Clone, Copy, Debug, PartialEq, Eq, Error)]
#[error("line {line}: {kind:?}")]
pub struct WholeFinding {
    pub line: usize,
    pub kind: WholeKind,
}

impl WholeFinding {
    /// The number of the kind, from 1 for `NeverInjected` to 6 for `NoMemory`. For users of the library.
    pub fn code(self) -> u8
        ensures { result ≡ whole_code self.kind }
    {
        self.kind as u8
    }
}

impl From<AllocError> for WholeFinding {
    ghost from_gives = { λ _ e. e ≡ record { line = 0; kind = NoMemory } };

    fn from(_error: AllocError) -> WholeFinding {
        WholeFinding {
            line: 0,
            kind: WholeKind::NoMemory,
        }
    }
}
