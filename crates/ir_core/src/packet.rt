ghost use Rattle.ir_core.specs.{Record.{hop_room, Record, record_with, stamp_of}, Recorded.{record_of, HasRoom, HasRoomHere}};
ghost use Rattle.ir_core.specs.declared.TheConstants.{MAX_RESTAMPS};
ghost use Rattle.ir_core.specs.Entry.{restamped, ruled, fresh, fate_of, is_hop, restamp_by};
ghost use Rattle.std.specs.Prelude.{◌≡◌, ℕ, ◌<◌, [], ◌∷◌, ◌++◌, length, Some, IfOk};

use crate::MAX_RESTAMPS;
use crate::event::{Ruling, Verdict, Way};
use std::alloc::{AllocError, Global};
use std::marker::Model;

/// What became of a packet.
#[derive(Clone, Copy, Debug, PartialEq, Eq)]
pub enum Fate {
    Delivered,
    /// Dropped since its epoch was retired.
    Retired,
    /// Dropped since this link was down.
    Down(u32),
    /// Dropped since the channel of this link to this node was full.
    Full { link: u32, to: u16 },
    /// Under way.
    Left,
}

/// A new stamp of a packet on its way: its epoch, and the place in the hops at which the new segment begins.
#[derive(Clone, Copy, Debug, PartialEq, Eq)]
pub struct Restamp {
    pub epoch: u32,
    pub from: usize,
}

/// The most hops of a packet of a network with so many nodes that allows it so many restamps. They
/// are a walk of each epoch, each but the first from the last hop of the one before.
pub fn hop_room(restamps: u8, nodes: u16) -> usize
    ensures { result ≡ hop_room restamps nodes }
{
    (restamps as usize + 1) * (nodes as usize).saturating_sub(1) + 1
}

/// A packet's record. `epoch` is its first stamp; its hops begin with the source. There is `room`
/// for so many hops, and for all restamps that a packet can have.
#[derive(Drop)]
pub struct Record {
    pub id: u32,
    pub epoch: u32,
    pub source: u16,
    pub dest: u16,
    pub hops: Vec<u16>,
    pub restamps: Vec<Restamp>,
    pub fate: Fate,
    pub room: usize,
}

impl Model for Record {
    ghost Value = { Record };

    ghost view = { record_of };

    ghost invariant = { HasRoom };
}

/// A packet in a node's hand, and the way that it was taken by.
#[derive(Clone, Copy, Debug, PartialEq, Eq)]
pub struct Held {
    pub id: u32,
    pub way: Way,
}

impl Record {
    /// The record of a packet, with room for the hops that it has. Refused for want of memory,
    /// where there is no room for all restamps that a packet can have. For users of the library.
    pub fn of(
        id: u32,
        epoch: u32,
        source: u16,
        dest: u16,
        hops: Vec<u16>,
        fate: Fate,
        mut restamps: Vec<Restamp>,
    ) -> Result<Record, AllocError>
        ensures { IfOk result (λ r. r ≡ record_with id epoch source dest hops.items fate restamps.items) }
    {
        restamps.reserve(MAX_RESTAMPS)?;
        let room = hops.len();
        Ok(Record {
            id,
            epoch,
            source,
            dest,
            hops,
            restamps,
            fate,
            room,
        })
    }

    /// The record of a new packet, with room for so many hops.
    pub fn start(
        alloc: Global,
        id: u32,
        epoch: u32,
        source: u16,
        dest: u16,
        room: usize,
    ) -> Result<Record, AllocError>
        ensures { IfOk result (λ r. r ≡ fresh id epoch source dest room) }
    {
        let mut hops = Vec::with_capacity(alloc, room)?;
        let restamps = Vec::with_capacity(alloc, MAX_RESTAMPS)?;
        hops.push(source)?;
        Ok(Record {
            id,
            epoch,
            source,
            dest,
            hops,
            restamps,
            fate: Fate::Left,
            room,
        })
    }

    /// The present epoch: that of the last restamp, or else the first stamp.
    pub fn stamp(&self) -> u32
        ensures { result ≡ stamp_of self.now }
    {
        match self.restamps.as_slice().last() {
            None => self.epoch,
            Some(restamp) => restamp.epoch,
        }
    }

    /// How many restamps it has had.
    pub fn restamp_count(&self) -> usize
        ensures { result ≡ length self.now.restamps }
    {
        self.restamps.as_slice().len()
    }

    /// The node that it is sent to.
    pub fn destination(&self) -> u16
        ensures { result ≡ self.now.dest }
    {
        self.dest
    }

    /// What an Act of a node leaves in the packet's record: the node as a hop, the restamp if it
    /// was restamped, and the verdict's fate. There is no hop where the packet was taken from the
    /// inbox, or dropped by the first two lines of the verdict.
    pub fn act(&mut self, node: u16, way: Way, ruling: Ruling)
        requires hops { HasRoomHere way self.old }
        requires restamps { (e : ℕ) → ruling.restamp ≡ Some e → length self.old.restamps < MAX_RESTAMPS }
        ensures { self.new ≡ ruled node way ruling.restamp ruling.verdict self.old }
    {
        match ruling.restamp {
            None => {
                if ruling.verdict.is_hop(way) {
                    self.visit(node);
                }
            }
            Some(epoch) => self.restamp(node, way, epoch),
        }
        self.fate = ruling.verdict.fate();
    }

    /// The node as a hop, if the packet came by a link, and a new segment that begins there.
    pub fn restamp(&mut self, node: u16, way: Way, epoch: u32)
        requires hops { HasRoomHere way self.old }
        requires restamps { length self.old.restamps < MAX_RESTAMPS }
        ensures { self.new ≡ restamped node way epoch self.old }
    {
        if let Way::Link(_) = way {
            self.visit(node);
        }
        let from = self.hops.len().saturating_sub(1);
        match self.restamps.push(Restamp { epoch, from }) {
            Ok(()) => {}
            Err(_) => unreachable!(),
        }
    }

    fn visit(&mut self, node: u16)
        requires { length self.old.hops < self.old.room }
        ensures { self.new ≡ record self.old { hops = self.old.hops ++ node ∷ [] } }
    {
        match self.hops.push(node) {
            Ok(()) => {}
            Err(_) => unreachable!(),
        }
    }
}

impl Verdict {
    /// Whether the node becomes a hop of the packet that it took by this way.
    pub fn is_hop(&self, way: Way) -> bool
        ensures { result ≡ is_hop way self.now }
    {
        match way {
            Way::Inbox => false,
            Way::Link(_) => !matches!(self, Verdict::CameByDown(_) | Verdict::BelowFloor),
        }
    }

    /// The epoch that the packet is restamped with: the current one, where its own is retired and restamps are left.
    pub fn restamp(&self, left: usize, current: u32) -> Option<u32>
        ensures { result ≡ restamp_by left current self.now }
    {
        match self {
            Verdict::BelowFloor if left > 0 => Some(current),
            _ => None,
        }
    }

    /// The packet's fate after this verdict.
    pub fn fate(&self) -> Fate
        ensures { result ≡ fate_of self.now }
    {
        match self {
            Verdict::CameByDown(link) => Fate::Down(*link),
            Verdict::BelowFloor => Fate::Retired,
            Verdict::Arrives => Fate::Delivered,
            Verdict::LeavesByDown(link) => Fate::Down(*link),
            Verdict::NoRoom(hop) => Fate::Full {
                link: hop.link,
                to: hop.node,
            },
            Verdict::GoesOn(_) => Fate::Left,
        }
    }
}
