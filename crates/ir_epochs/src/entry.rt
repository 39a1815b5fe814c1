//! What a board's list of entries is made of.
use crate::registry::Stamp;
use ir_core::Board;

/// One change of a board.
#[derive(Drop)]
pub enum Change {
    /// The stamp's epoch becomes the current one.
    Install(Stamp),
    /// The epochs below this one are retired.
    Retire(u32),
    /// A link goes down.
    Down(u32),
    /// A link comes up.
    Up(u32),
    /// Later installs leave a link out.
    Avoid(u32),
    /// Later installs use a link again.
    Heed(u32),
}

/// An entry of a board's list.
#[derive(Drop)]
pub enum Entry {
    /// The first: so many links, and the stamp of epoch 1.
    Opened(u16, Stamp),
    /// Each later one.
    Changed(Change),
}

impl Change {
    ghost use Rattle.std.specs.Prelude.{◌≡◌, ◌<◌};
    ghost use Rattle.ir_core.specs.declared.TheConstants.{MAX_CHANGES};
    ghost use Rattle.ir_epochs.specs.Entries.{changed, stamp_after, installs, MarksALink};

    /// A copy.
    pub fn again(&self) -> Change
        ensures { result ≡ self.now }
    {
        match self {
            Change::Install(stamp) => Change::Install(stamp.again()),
            Change::Retire(floor) => Change::Retire(*floor),
            Change::Down(link) => Change::Down(*link),
            Change::Up(link) => Change::Up(*link),
            Change::Avoid(link) => Change::Avoid(*link),
            Change::Heed(link) => Change::Heed(*link),
        }
    }

    // What it makes of a board.
    pub(crate) fn applied(&self, board: &Board) -> Board
        requires version { board.now.version < MAX_CHANGES }
        requires link { MarksALink self.now }
        ensures { result ≡ changed board.now self.now }
    {
        match self {
            Change::Install(stamp) => board.installed(stamp.epoch()),
            Change::Retire(floor) => board.retired_below(*floor),
            Change::Down(link) => board.marked(*link, false),
            Change::Up(link) => board.marked(*link, true),
            Change::Avoid(link) => board.heeding(*link, false),
            Change::Heed(link) => board.heeding(*link, true),
        }
    }

    // The stamp that is current after it.
    pub(crate) fn stamp_after(&self, before: &Stamp) -> Stamp
        ensures { result ≡ stamp_after before.now self.now }
    {
        match self {
            Change::Install(stamp) => stamp.again(),
            _ => before.again(),
        }
    }

    // Whether it is an install.
    pub(crate) fn installs(&self) -> bool
        ensures { result ≡ installs self.now }
    {
        match self {
            Change::Install(_) => true,
            _ => false,
        }
    }
}
