ghost use Rattle.std.specs.Prelude.{◌≡◌};
ghost use Rattle.ir_core.specs.Codes.{refusal_code, install_number, change_number, inject_number, refused_of};
ghost use Rattle.ir_core.specs.Codes.{open_code, open_error_of};

use ir_model::{Hop, Kind};
use ir_plan::PlanError;
use std::fmt;
use thiserror::Error;

/// Where a node takes a packet from: its inbox, or a link by number.
#[derive(Clone, Copy, Debug, PartialEq, Eq)]
pub enum Way {
    Inbox,
    Link(u32),
}

/// One atomic step of one actor: the injector, a node or the controller.
#[derive(Clone, Copy, Debug, PartialEq, Eq)]
pub enum Event {
    /// A packet from a source to a destination, stamped with the greatest epoch learnt.
    Inject(u16, u16),
    /// The injector learns an epoch.
    Learn(u32),
    /// A node takes the first packet of a channel into its hand.
    Take(u16, Way),
    /// A node reads a version of the board.
    Read(u16, usize),
    /// A node acts on the packet in its hand.
    Act(u16),
    /// A plan of a kind and root over the links that are up and heeded becomes the current epoch.
    Install(Kind, u16),
    /// The same, but that it is labelled anew, also where installs keep the order of the epoch before.
    Renumber(Kind, u16),
    /// The epochs below this one are retired.
    Retire(u32),
    /// A link goes down.
    Down(u32),
    /// A link comes up.
    Up(u32),
    /// Later installs leave a link out, which still carries packets.
    Avoid(u32),
    /// Later installs use a link again.
    Heed(u32),
}

/// One step of a run.
#[derive(Clone, Copy, Debug, PartialEq, Eq)]
pub enum Step {
    Event(Event),
    /// Rounds over all nodes, until a round has no Act. It answers `Changed`.
    Drain,
}

/// What an accepted event answers.
#[derive(Clone, Copy, Debug, PartialEq, Eq)]
pub enum Reply {
    Injected(u32),
    Learnt,
    Taken(u32),
    Viewed,
    /// The packet went on to this node.
    Sent(u32, u16),
    /// The packet was delivered or dropped; its record says which.
    Settled(u32),
    Installed(u32),
    Changed,
}

/// Why an event was refused.
#[derive(Clone, Copy, Debug, PartialEq, Eq, Error)]
pub enum Refused {
    NoNode = 1,
    NoLink = 2,
    NoChannel = 3,
    NoEpoch = 4,
    HandFull = 5,
    HandEmpty = 6,
    Empty = 7,
    /// No such version, or one before the view.
    BadView = 8,
    /// The board says so already.
    Same = 9,
    EpochsFull = 10,
    Disconnected = 11,
    TooManyPackets = 12,
    NoMemory = 13,
    InboxFull = 14,
    TooManyChanges = 15,
    /// From a live run alone: a fresh cell of the registry refused its plan.
    Used = 16,
    /// A link that is to be avoided is down.
    LinkDown = 17,
}

impl Refused {
    /// The refusal's number, of those of all events.
    pub fn code(self) -> u8
        ensures { result ≡ refusal_code self }
    {
        self as u8
    }

    /// Its number of those that an install may be refused by, from 1 to 6, and 0 where no install
    /// is refused so. For users of the library.
    pub fn install_number(self) -> u8
        ensures { result ≡ install_number self }
    {
        match self {
            Refused::NoNode => 1,
            Refused::EpochsFull => 2,
            Refused::Disconnected => 3,
            Refused::NoMemory => 4,
            Refused::TooManyChanges => 5,
            Refused::Used => 6,
            _ => 0,
        }
    }

    /// Its number of those that a retirement or a mark of a link may be refused by, from 1 to 5,
    /// and 0 where none is refused so. For users of the library.
    pub fn change_number(self) -> u8
        ensures { result ≡ change_number self }
    {
        match self {
            Refused::NoEpoch | Refused::NoLink => 1,
            Refused::Same => 2,
            Refused::NoMemory => 3,
            Refused::TooManyChanges => 4,
            Refused::LinkDown => 5,
            _ => 0,
        }
    }

    /// Its number of those that an injection may be refused by, from 1 to 4, and 0 where none is
    /// refused so. For users of the library.
    pub fn inject_number(self) -> u8
        ensures { result ≡ inject_number self }
    {
        match self {
            Refused::NoNode => 1,
            Refused::TooManyPackets => 2,
            Refused::NoMemory => 3,
            Refused::InboxFull => 4,
            _ => 0,
        }
    }
}

impl fmt::Display for Refused {
    fn fmt<W: fmt::Write>(&self, f: &mut fmt::Formatter<W>) -> fmt::Result {
        write!(f, "{:?}", self)
    }
}

impl From<PlanError> for Refused {
    ghost from_gives = { λ p e. e ≡ refused_of p };

    fn from(error: PlanError) -> Refused {
        match error {
            PlanError::NoNode | PlanError::Empty => Refused::NoNode,
            PlanError::Disconnected => Refused::Disconnected,
            PlanError::NoMemory => Refused::NoMemory,
        }
    }
}

/// Why no world or net was opened.
#[derive(Clone, Copy, Debug, PartialEq, Eq, Error)]
pub enum OpenError {
    /// The root is no node.
    NoNode = 1,
    /// The topology has no node.
    Empty = 2,
    /// Some node has no walk to some node.
    Disconnected = 3,
    /// Too many nodes, links or restamps, or a capacity or a number of packets that is 0 or too great.
    TooLarge = 4,
    /// A growth was refused.
    NoMemory = 5,
    /// From a live run alone: the board has no place for so many readers.
    TooManyReaders = 6,
    /// From a live run alone: a fresh cell of the registry refused its plan.
    Used = 7,
}

impl OpenError {
    /// The refusal's number.
    pub fn code(self) -> u8
        ensures { result ≡ open_code self }
    {
        self as u8
    }
}

impl fmt::Display for OpenError {
    fn fmt<W: fmt::Write>(&self, f: &mut fmt::Formatter<W>) -> fmt::Result {
        write!(f, "{:?}", self)
    }
}

impl From<PlanError> for OpenError {
    ghost from_gives = { λ p e. e ≡ open_error_of p };

    fn from(error: PlanError) -> OpenError {
        match error {
            PlanError::NoNode => OpenError::NoNode,
            PlanError::Empty => OpenError::Empty,
            PlanError::Disconnected => OpenError::Disconnected,
            PlanError::NoMemory => OpenError::NoMemory,
        }
    }
}

/// What a node does with a packet.
#[derive(Clone, Copy, Debug, PartialEq, Eq)]
pub enum Action {
    Deliver,
    /// Sends it over this port.
    Send(u16),
    /// Gives it the board's current epoch, and decides once more over the same board.
    Restamp,
    DropRetired,
    /// Drops it since this link is down.
    DropDown(u32),
}

/// What comes of a packet when a node acts on it.
#[derive(Clone, Copy, Debug, PartialEq, Eq)]
pub enum Verdict {
    /// The link that it came by is down.
    CameByDown(u32),
    /// Its epoch is retired.
    BelowFloor,
    /// It is at its destination.
    Arrives,
    /// The link that it is to leave by is down.
    LeavesByDown(u32),
    /// The channel that it is to leave by is full.
    NoRoom(Hop),
    /// It is sent.
    GoesOn(Hop),
}

/// What a node makes of a packet that it acts on: the epoch that it restamps it with, if it does, and what comes of it.
#[derive(Clone, Copy, Debug, PartialEq, Eq)]
pub struct Ruling {
    pub restamp: Option<u32>,
    pub verdict: Verdict,
}
