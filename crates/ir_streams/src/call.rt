//! What a call of a reader or a writer came to.
ghost use Rattle.std.specs.{Prelude.{◌≡◌, ◌↔◌}, IoError.error_kind, declared.io.ErrorKind.TheVariants.Interrupted};

use std::io;
use thiserror::Error;

/// Why a call of a reader or a writer moved no bytes.
#[derive(Clone, Copy, Debug, PartialEq, Eq, Error)]
#[error("{:?}", self)]
pub enum CallError {
    Interrupted,
    Failed,
}

impl CallError {
    /// What an error of `std::io` says of its call.
    pub fn of(error: io::Error) -> CallError
        ensures { (result ≡ CallError.Interrupted) ↔ (error_kind error ≡ Interrupted) }
    {
        match error.kind() {
            io::ErrorKind::Interrupted => CallError::Interrupted,
            _ => CallError::Failed,
        }
    }
}
