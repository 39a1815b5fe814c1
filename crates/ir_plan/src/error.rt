ghost use Rattle.std.specs.Prelude.{◌≡◌};
ghost use Rattle.ir_plan.specs.Refusals.{plan_code, from_number};
ghost use Rattle.ir_plan.specs.declared.error.PlanError.TheVariants.{NoMemory};

use ir_numbering::NumberError;
use std::alloc::AllocError;
use std::fmt;
use thiserror::Error;

/// Why there is no plan.
#[derive(Clone, Copy, Debug, PartialEq, Eq, Error)]
pub enum PlanError {
    /// The root is no node of the topology.
    NoNode,
    /// The topology has no node.
    Empty,
    /// Some node has no walk to some node.
    Disconnected,
    /// A growth was refused.
    NoMemory,
}

impl PlanError {
    /// The number of the refusal: 1 NoNode, 2 Empty, 3 Disconnected, 4 NoMemory. For users of the library.
    pub fn code(self) -> u8
        ensures { result ≡ plan_code self }
    {
        match self {
            PlanError::NoNode => 1,
            PlanError::Empty => 2,
            PlanError::Disconnected => 3,
            PlanError::NoMemory => 4,
        }
    }
}

impl fmt::Display for PlanError {
    fn fmt<W: fmt::Write>(&self, f: &mut fmt::Formatter<W>) -> fmt::Result {
        f.write_str(match self {
            PlanError::NoNode => "the root is no node",
            PlanError::Empty => "the topology has no node",
            PlanError::Disconnected => "some node has no walk to some node",
            PlanError::NoMemory => "out of memory",
        })
    }
}

impl From<AllocError> for PlanError {
    ghost from_gives = { λ _ e. e ≡ NoMemory };

    fn from(_error: AllocError) -> PlanError {
        PlanError::NoMemory
    }
}

impl From<NumberError> for PlanError {
    ghost from_gives = { λ n e. e ≡ from_number n };

    fn from(error: NumberError) -> PlanError {
        match error {
            NumberError::NoNode => PlanError::NoNode,
            NumberError::Disconnected => PlanError::Disconnected,
            NumberError::NoMemory => PlanError::NoMemory,
        }
    }
}
