//! Why a plan was not registered, and why a board was not opened.
ghost use Rattle.std.specs.Prelude.{◌≡◌};
ghost use Rattle.ir_epochs.specs.Codes.{register_code, board_code};

use thiserror::Error;

/// Why a plan was not registered.
#[derive(Clone, Copy, PartialEq, Eq, Debug, Error)]
pub enum RegisterError {
    /// The epoch's cell was set before.
    #[error("the epoch's cell is used")]
    Used,
    #[error("out of memory")]
    NoMemory,
}

/// Why a board was not opened.
#[derive(Clone, Copy, PartialEq, Eq, Debug, Error)]
pub enum BoardError {
    /// No place is left for a reader.
    #[error("no place is left for a reader")]
    TooManyReaders,
    #[error("out of memory")]
    NoMemory,
}

impl RegisterError {
    /// Its number: 1 for `Used`, 2 for `NoMemory`.
    pub fn code(self) -> u8
        ensures { result ≡ register_code self }
    {
        match self {
            RegisterError::Used => 1,
            RegisterError::NoMemory => 2,
        }
    }
}

impl BoardError {
    /// Its number: 1 for `TooManyReaders`, 2 for `NoMemory`.
    pub fn code(self) -> u8
        ensures { result ≡ board_code self }
    {
        match self {
            BoardError::TooManyReaders => 1,
            BoardError::NoMemory => 2,
        }
    }
}
