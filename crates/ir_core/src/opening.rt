//! What a network is opened with, and which openings are refused.
ghost use Rattle.std.specs.Prelude.{◌≡◌, IfOk, true};
ghost use Rattle.ir_core.specs.Opened.{is_small, open_refused, opening_of};

use crate::event::OpenError;
use crate::{MAX_CAPACITY, MAX_LINKS, MAX_NODES, MAX_PACKETS, MAX_RESTAMPS};
use ir_model::Kind;
use ir_plan::LabelOrder;
use ir_tables::Topology;
use std::alloc::{AllocError, Global};

/// What a world or a net is opened with: a topology, the order in which each epoch's plan is
/// labelled, whether an install keeps that of the epoch before, and the kind and root of epoch 1's
/// plan. Further the capacity of each channel and inbox, from 1 to 1,024 packets, the most packets,
/// from 1 to 4,096, and the most restamps of a packet, from 0 to 3. The topology has at most 1,024
/// nodes and 8,192 links.
#[derive(Drop)]
pub struct Opening {
    pub topology: Topology,
    pub labels: LabelOrder,
    pub keeps: bool,
    pub kind: Kind,
    pub root: u16,
    pub capacity: usize,
    pub max_packets: usize,
    pub restamps: u8,
}

impl Opening {
    /// The opening whose plans are labelled depth first. For users of the library.
    pub fn of(
        topology: Topology,
        kind: Kind,
        root: u16,
        capacity: usize,
        max_packets: usize,
        restamps: u8,
    ) -> Opening
        ensures { result ≡ opening_of topology kind root capacity max_packets restamps }
    {
        Opening {
            topology,
            labels: LabelOrder::DepthFirst,
            keeps: false,
            kind,
            root,
            capacity,
            max_packets,
            restamps,
        }
    }

    /// The same opening, but that each install keeps the order of the epoch before. For users of the
    /// library.
    pub fn keeping(self) -> Opening
        ensures { result ≡ record self { keeps = true } }
    {
        Opening {
            keeps: true,
            ..self
        }
    }

    /// The same once more. It is refused for memory alone. Takes O(n + m), for n nodes and m links.
    pub fn try_clone(&self, alloc: Global) -> Result<Opening, AllocError>
        ensures { IfOk result (λ copy. copy ≡ self.now) }
    {
        Ok(Opening {
            topology: self.topology.try_clone(alloc)?,
            labels: self.labels,
            keeps: self.keeps,
            kind: self.kind,
            root: self.root,
            capacity: self.capacity,
            max_packets: self.max_packets,
            restamps: self.restamps,
        })
    }
}

/// Why a network is not opened, before any plan is built: it has no node, the root is no node, or a
/// number is out of its range, in this order.
pub fn open_refusal(opening: &Opening) -> Option<OpenError>
    ensures { result ≡ open_refused opening.now }
{
    let nodes = opening.topology.nodes();
    if nodes == 0 {
        return Some(OpenError::Empty);
    }
    if nodes <= opening.root as usize {
        return Some(OpenError::NoNode);
    }
    if !is_small(opening) {
        return Some(OpenError::TooLarge);
    }
    None
}

/// Whether the network, the capacity, the number of packets and that of restamps are within the limits.
fn is_small(opening: &Opening) -> bool
    ensures { result ≡ is_small opening.now }
{
    opening.topology.nodes() <= MAX_NODES
        && opening.topology.links() <= MAX_LINKS
        && opening.capacity != 0
        && opening.capacity <= MAX_CAPACITY
        && opening.max_packets != 0
        && opening.max_packets <= MAX_PACKETS
        && opening.restamps as usize <= MAX_RESTAMPS
}
