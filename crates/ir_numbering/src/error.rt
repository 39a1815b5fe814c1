ghost use Rattle.std.specs.Prelude.{◌≡◌};
ghost use Rattle.ir_numbering.specs.{declared.error.NumberError.TheVariants.NoMemory, Codes.number_code};

use std::alloc::AllocError;
use thiserror::Error;

/// Why a topology has no numbers.
#[derive(Clone, Copy, Debug, PartialEq, Eq, Error)]
#[error("{:?}", self)]
pub enum NumberError {
    /// The root is no node of the topology.
    NoNode = 1,
    /// Some node has no walk to some node.
    Disconnected = 2,
    /// A growth was refused.
    NoMemory = 3,
}

impl NumberError {
    /// The number of this refusal: 1 NoNode, 2 Disconnected, 3 NoMemory. For users of the library.
    pub fn code(self) -> u8
        ensures { result ≡ number_code self }
    {
        self as u8
    }
}

impl From<AllocError> for NumberError {
    ghost from_gives = { λ _ e. e ≡ NoMemory };

    fn from(_error: AllocError) -> NumberError {
        NumberError::NoMemory
    }
}
