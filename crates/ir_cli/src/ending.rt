//! How a run ends.
ghost use Rattle.std.specs.Prelude.{◌≡◌};
ghost use Rattle.ir_cli.specs.Ending.{status_of, is_whole};

/// How a run ends.
#[derive(Clone, Copy, Debug, PartialEq, Eq)]
pub enum Ending {
    /// All is written.
    Done,
    Unreadable,
    TooLarge,
    /// The input is refused.
    Refused,
    /// There is a finding, and it is written.
    Found,
    Unwritable,
    NoMemory,
    /// A thread was not started.
    NoThread,
}

/// The exit status.
pub fn status_of(ending: Ending) -> u8
    ensures { result ≡ status_of ending }
{
    match ending {
        Ending::Done => 0,
        Ending::Unreadable
        | Ending::TooLarge
        | Ending::Refused
        | Ending::Found
        | Ending::Unwritable => 1,
        Ending::NoMemory | Ending::NoThread => 3,
    }
}

/// Whether all of the output was written by a run that ended with this status: done, or with a finding, of which
/// nothing is reported on standard error.
pub fn is_whole(status: u8, is_told: bool) -> bool
    ensures { result ≡ is_whole status is_told }
{
    status == 0 || (status == 1 && !is_told)
}
