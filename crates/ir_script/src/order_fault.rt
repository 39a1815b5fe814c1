//! Why a text is no order of the nodes.
ghost use Rattle.std.specs.Prelude.{◌≡◌};
ghost use Rattle.ir_script.specs.declared.order_fault.OrderFaultKind.TheVariants.{NoMemory};

use std::alloc::AllocError;
use thiserror::Error;

/// What is wrong with a line of an order, or with its end.
#[derive(Clone, Copy, Debug, PartialEq, Eq)]
pub enum OrderFaultKind {
    /// A byte that is no blank and not in `!` to `~` is outside a comment.
    BadByte = 1,
    /// A line has more than one word.
    BadRow = 2,
    /// A word names no node.
    UnknownNode = 3,
    /// A word names the node of an earlier line.
    Twice = 4,
    /// No line is wrong, but a node is not named.
    Missing = 5,
    /// A growth was refused.
    NoMemory = 6,
}

/// The first faulty line of an order, counted from 1, and its fault. A missing node has the last
/// line, want of memory has line 0.
#[derive(Clone, Copy, Debug, PartialEq, Eq, Error)]
#[error("line {line}: {kind:?}")]
pub struct OrderFault {
    pub line: usize,
    pub kind: OrderFaultKind,
}

impl From<AllocError> for OrderFault {
    ghost from_gives = { λ _ e. e ≡ record { line = 0; kind = NoMemory } };

    fn from(_error: AllocError) -> OrderFault {
        OrderFault {
            line: 0,
            kind: OrderFaultKind::NoMemory,
        }
    }
}
