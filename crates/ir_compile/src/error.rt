ghost use Rattle.std.specs.Prelude.{◌≡◌};
ghost use Rattle.ir_compile.specs.{Code.compile_code, declared.error.CompileError.TheVariants.NoMemory};

use std::alloc::AllocError;
use thiserror::Error;

/// Why no row was made.
#[derive(Clone, Copy, Debug, PartialEq, Eq, Error)]
pub enum CompileError {
    /// The ports are not one for each label but the own.
    #[error("the ports are not one for each label but the own")]
    BadRow = 1,
    /// A growth was refused.
    #[error("out of memory")]
    NoMemory = 2,
}

impl CompileError {
    /// The number of the refusal. For users of the library.
    pub fn code(self) -> u8
        ensures { result ≡ compile_code self }
    {
        self as u8
    }
}

impl From<AllocError> for CompileError {
    ghost from_gives = { λ _ e. e ≡ NoMemory };

    fn from(_error: AllocError) -> CompileError {
        CompileError::NoMemory
    }
}
