//! Why a trace is refused.
ghost use Rattle.std.specs.Prelude.{◌≡◌};
ghost use Rattle.ir_trace.specs.declared.finding.FindingKind.TheVariants.{NoMemory};

use std::alloc::{AllocError, AllocFailed};
use thiserror::Error;

/// What is wrong with a line of a trace.
#[derive(Clone, Copy, Debug, PartialEq, Eq)]
pub enum FindingKind {
    /// The text begins neither with the line `trace 1` nor with the line `trace 2`.
    NotTrace = 1,
    /// The line is not that of a row, or lacks its line feed.
    BadRow = 2,
    /// A name is not that of a node, or two names are not those of a link in their order.
    UnknownNode = 3,
    /// No epoch has this number.
    UnknownEpoch = 4,
    /// The segments are not joined from the source on over rising epochs, or one is not a beginning of
    /// its prescribed walk, or the last walk does not go on as the fate says.
    NotAPrefix = 5,
    /// The packet is delivered, and its last segment is not the whole walk.
    NotAtDestination = 6,
    /// The weight is not that of the hops.
    BadWeight = 7,
    /// An earlier line has the same id.
    Repeated = 8,
    NoMemory = 9,
}

/// The first finding in a trace, and its line, counted from 1. Want of memory has line 0.
#[derive(Clone, Copy, Debug, PartialEq, Eq, Error)]
#[error("line {line}: {kind:?}")]
pub struct Finding {
    pub line: usize,
    pub kind: FindingKind,
}

impl From<AllocError> for Finding {
    ghost from_gives = { λ _ e. e ≡ record { line = 0; kind = NoMemory } };

    fn from(_error: AllocError) -> Finding {
        Finding {
            line: 0,
            kind: FindingKind::NoMemory,
        }
    }
}

impl<T: Drop> From<AllocFailed<T>> for Finding {
    ghost from_gives = { λ _ e. e ≡ record { line = 0; kind = NoMemory } };

    fn from(_error: AllocFailed<T>) -> Finding {
        Finding {
            line: 0,
            kind: FindingKind::NoMemory,
        }
    }
}
