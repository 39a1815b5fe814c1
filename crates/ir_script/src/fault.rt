//! Why a script is refused.
ghost use Rattle.std.specs.Prelude.{◌≡◌};
ghost use Rattle.ir_script.specs.Script.{fault_code};

use thiserror::Error;

/// What is wrong with a line of a script.
#[derive(Clone, Copy, Debug, PartialEq, Eq)]
pub enum ScriptFault {
    /// A byte that is no blank and not in `!` to `~` is outside a comment.
    BadByte = 1,
    /// The first word names no command, the number of words is wrong, or a fixed word is another.
    BadCommand = 2,
    /// A word is not one to five decimal digits of a value up to 65,535.
    BadNumber = 3,
    /// A word names no node.
    UnknownNode = 4,
    /// Two nodes are not linked. A node is not linked to itself.
    UnknownLink = 5,
    /// A growth was refused.
    NoMemory = 6,
}

/// The first faulty line of a script, counted from 1, and its fault. Want of memory has line 0.
#[derive(Clone, Copy, Debug, PartialEq, Eq, Error)]
#[error("line {line}: {kind:?}")]
pub struct ScriptError {
    pub line: usize,
    pub kind: ScriptFault,
}

impl ScriptError {
    /// The number of the kind, from 1 for `BadByte` to 6 for `NoMemory`.
    pub fn code(self) -> u8
        ensures { result ≡ fault_code self.kind }
    {
        self.kind as u8
    }
}
