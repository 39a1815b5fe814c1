//! Parcels, where they go, and what they come to.
ghost use Rattle.std.specs.Prelude.{◌≡◌, ◌+◌, ◌<◌, ◌≤◌, [], ◌∷◌, ◌++◌, length, IfOk, MatchResult, Some, false, vec_capacity};
ghost use Rattle.ir_model.specs.{Topology.node_count, Plan.{IsPlan, label_in, next_hop}};
ghost use Rattle.ir_core.specs.{declared.TheConstants.{MAX_NODES, MAX_RESTAMPS}, declared.event.Verdict.Verdict};
ghost use Rattle.ir_core.specs.{declared.packet.Fate.TheVariants.{Full, Left}, Record.{hop_room, present, stamp_of}};
ghost use Rattle.ir_core.specs.{Entry.{judged, restamped, fresh}, Sound.{LeadsOn, last_of}};
ghost use Rattle.ir_core.specs.World.{IsDue, IsNew, InHand};
ghost use Rattle.ir_epochs.specs.Stamps.{IsOf, knows};
ghost use Rattle.ir_worker.specs.Seen.{IsSegmentUnderWay, IsSoundByStamps, stamps_of, stamp_now};

use ir_core::{Board, Hop, MAX_RESTAMPS, Record, Ruling, Verdict, Way, hop_room, judge};
use ir_epochs::{Registry, Stamp};
use ir_links::Bound;
use ir_plan::Plan;
use std::alloc::{AllocError, Global};
use std::marker::Model;

/// Where a channel leads: from a node to a node, which for an inbox are one. Contracts see of which net it is: the
/// registry of the opening's stamp, the network of its plan, and how many restamps the net allows a packet.
#[derive(Drop)]
pub struct Place {
    pub from: u16,
    pub to: u16,
    pub restamps: u8,
    pub opening: Stamp,
}

/// A packet on its way, which is moved and never copied. Its hops are segments, joined end to end,
/// of rising epochs; each is a beginning of the walk that the plan of its own stamp prescribes from
/// its first node to the destination. `next` is the node that follows the last segment, or its
/// first node while the packet is there; the address is the destination's label in the plan of the
/// present stamp. Without a restamp there is one segment, from the source.
#[derive(Drop)]
pub struct Parcel {
    body: Box<Body>,
}

// What a parcel owns, in one box: so a channel's slot is one address, and a parcel is moved by it.
#[derive(Drop)]
struct Body {
    packet: Record,
    first: Stamp,
    address: u16,
    next: u16,
    later: Vec<Stamp>,
}

impl Model for Parcel {
    ghost use Rattle.std.specs.Prelude.{◌≡◌, ◌≤◌, length, vec_capacity};
    ghost use Rattle.ir_core.specs.declared.TheConstants.{MAX_RESTAMPS};
    ghost use Rattle.ir_worker.specs.Seen.{Parcel, IsParcelKept};

    ghost Value = { Parcel };

    ghost view = { λ p. record {
      packet = p.body.value.packet;
      first = p.body.value.first;
      later = p.body.value.later.items;
      next = p.body.value.next;
    } };

    ghost invariant = { λ p. IsParcelKept p.body.value.first p.body.value.later.items p.body.value.packet
        p.body.value.next p.body.value.address × (MAX_RESTAMPS ≤ vec_capacity p.body.value.later)
        × (length p.body.value.later.items ≡ length p.body.value.packet.restamps) };
}

impl Bound for Parcel {
    type Place = Place;

    ghost use Rattle.ir_worker.specs.Seen.{GoesTo};

    ghost id_of = { λ p. p.packet.id };

    ghost goes_to = { GoesTo };

    fn id(&self) -> u32 {
        self.body.packet.id
    }
}

/// What a packet came to: its record with its first stamp and those of its later segments, and the version of the board
/// that the node had read when it settled it. The record is sound by the plans that the stamps know.
#[derive(Drop)]
pub struct Outcome {
    pub packet: Record,
    pub stamp: Stamp,
    pub later: Vec<Stamp>,
    pub version: u32,
    ghost epoch: { packet.epoch ≡ stamp.epoch },
    ghost sound: { ∥ IsSoundByStamps (stamps_of stamp later.items) packet ∥₁ },
}

impl Parcel {
    ghost use Rattle.ir_worker.specs.Acts.{GoesOnAs, SettlesAs, parcel_verdict};

    /// A new packet from a source, where it is, to a destination, of a net that allows so many
    /// restamps. It has room for all hops and restamps that it can have.
    pub fn start(
        alloc: Global,
        registry: &Registry,
        id: u32,
        stamp: Stamp,
        ends: (u16, u16),
        restamps: u8,
    ) -> Result<Parcel, AllocError>
        requires registry { IsOf registry.now stamp }
        requires source { ends.0 < node_count (knows stamp).topology }
        requires dest { ends.1 < node_count (knows stamp).topology }
        requires few { node_count (knows stamp).topology ≤ MAX_NODES }
        ensures { IfOk result (λ p. p ≡ record {
          packet = fresh id stamp.epoch ends.0 ends.1 (hop_room restamps (node_count (knows stamp).topology));
          first = stamp;
          later = [];
          next = ends.0;
        }) }
    {
        let (source, dest) = ends;
        let plan = registry.plan(&stamp);
        let nodes = plan.nodes();
        let address = plan.label_of(dest);
        let room = hop_room(restamps, nodes as u16);
        let packet = Record::start(alloc, id, stamp.epoch(), source, dest, room)?;
        let later = Vec::with_capacity(alloc, MAX_RESTAMPS)?;
        let body = Box::new(
            alloc,
            Body {
                packet,
                first: stamp,
                later,
                address,
                next: source,
            },
        )?;
        Ok(Parcel { body })
    }

    /// The epoch that it was stamped with first.
    pub fn epoch(&self) -> u32
        ensures { result ≡ self.now.packet.epoch }
    {
        self.body.packet.epoch
    }

    /// The destination's label in the plan of its present stamp.
    pub fn address(&self) -> u16
        ensures { result ≡ label_in (knows (stamp_now self.now)) self.now.packet.dest }
    {
        self.body.address
    }

    pub fn source(&self) -> u16
        ensures { result ≡ self.now.packet.source }
    {
        self.body.packet.source
    }

    pub fn dest(&self) -> u16
        ensures { result ≡ self.now.packet.dest }
    {
        self.body.packet.dest
    }

    /// The nodes that it came by, its source first.
    pub fn hops(&self) -> &[u16]
        ensures { result.now ≡ self.now.packet.hops }
    {
        self.body.packet.hops.as_slice()
    }

    /// The node that it goes to.
    pub fn next(&self) -> u16
        ensures { result ≡ self.now.next }
    {
        self.body.next
    }

    /// The stamp of its present segment.
    pub fn stamp(&self) -> &Stamp
        ensures stamp { result.now ≡ stamp_now self.now }
        ensures epoch { stamp_of self.now.packet ≡ result.now.epoch }
        ensures under_way { IsSegmentUnderWay (knows (stamp_now self.now)) (present self.now.packet) self.now.next }
        ensures last { last_of (present self.now.packet).hops ≡ last_of self.now.packet.hops }
    {
        match self.body.later.as_slice().last() {
            None => &self.body.first,
            Some(stamp) => stamp,
        }
    }

    // How many restamps it has had.
    pub(crate) fn restamped(&self) -> usize
        ensures { result ≡ length self.now.packet.restamps }
    {
        self.body.packet.restamp_count()
    }

    // What comes of it at a node that took it by this way, where each channel has room.
    pub(crate) fn judge(&self, plan: &Plan, board: &Board, way: Way, at: u16) -> Verdict
        requires plan { plan.now ≡ knows (stamp_now self.now) }
        requires at_in { at < node_count (knows (stamp_now self.now)).topology }
        ensures verdict { result ≡ parcel_verdict self.now board.now false way at }
        ensures under_way { IsSegmentUnderWay (knows (stamp_now self.now)) (present self.now.packet) self.now.next }
        ensures last { last_of (present self.now.packet).hops ≡ last_of self.now.packet.hops }
    {
        plan.invariant();
        let body = &self.body;
        judge(plan, board, way, at, body.packet.stamp(), body.address)
    }

    // A new segment of it begins at a node, of this stamp.
    pub(crate) fn restamp(mut self, stamp: Stamp, plan: &Plan, way: Way, at: u16) -> Parcel
        requires plan { plan.now ≡ knows stamp }
        requires at_in { at < node_count (knows stamp).topology }
        requires nodes { node_count (knows stamp).topology ≡ node_count (knows (stamp_now self)).topology }
        requires due { IsDue (knows (stamp_now self)) (present self.packet) at way }
        requires is_new { IsNew self.packet (InHand at way) }
        requires above { stamp_of self.packet < stamp.epoch }
        requires left { length self.packet.restamps < MAX_RESTAMPS }
        requires room { hop_room (length self.packet.restamps + 1) (node_count (knows stamp).topology)
            ≤ self.packet.room }
        ensures { result ≡ record {
          packet = restamped at way stamp.epoch self.packet;
          first = self.first;
          later =
              self.later ++ stamp ∷ [];
          next = at;
        } }
    {
        plan.invariant();
        let body = &mut *self.body;
        body.packet.restamp(at, way, stamp.epoch());
        body.address = plan.label_of(body.packet.destination());
        body.later.push_reserved(stamp);
        body.next = at;
        self
    }

    // What a node makes of it that took it by this way, by its verdict by this board: it is to go on by a hop, or it is
    // settled.
    pub(crate) fn act(
        mut self,
        board: &Board,
        way: Way,
        at: u16,
        verdict: Verdict,
    ) -> Result<(Parcel, Hop), Outcome>
        requires plan { IsPlan (knows (stamp_now self)) }
        requires at_in { at < node_count (knows (stamp_now self)).topology }
        requires due { IsDue (knows (stamp_now self)) (present self.packet) at way }
        requires verdict { verdict ≡ parcel_verdict self board.now false way at }
        ensures acts { MatchResult result (λ r. GoesOnAs board.now way at self r.1 r.0)
            (λ o. (v : Verdict) × SettlesAs board.now false way at self v o) }
        ensures leads { IfOk result (λ r. LeadsOn (knows (stamp_now self)) (present r.0.packet) r.1.link r.1.node) }
        ensures here { IfOk result (λ r. last_of r.0.packet.hops ≡ at) }
        ensures table { IfOk result (λ r. next_hop (knows (stamp_now self)) at self.packet.dest ≡ Some r.1) }
    {
        let body = &mut *self.body;
        body.packet.act(
            at,
            way,
            Ruling {
                restamp: None,
                verdict,
            },
        );
        if let Verdict::GoesOn(hop) = verdict {
            body.next = hop.node;
            return Ok((self, hop));
        }
        Err(outcome_of(Box::into_inner(self.body), board.version()))
    }

    // What it comes to where the channel of the hop that it was to go on by was full.
    pub(crate) fn refused(self, hop: Hop, version: u32) -> Outcome
        requires leads { LeadsOn (knows (stamp_now self)) (present self.packet) hop.link hop.node }
        ensures packet { result.packet ≡ record self.packet { fate = Full hop.link hop.node } }
        ensures stamp { result.stamp ≡ self.first }
        ensures later { result.later.items ≡ self.later }
        ensures version { result.version ≡ version }
    {
        let mut body = Box::into_inner(self.body);
        body.packet.act(
            body.next,
            Way::Inbox,
            Ruling {
                restamp: None,
                verdict: Verdict::NoRoom(hop),
            },
        );
        outcome_of(body, version)
    }

    /// What is left of it at the end: its record as it is.
    pub fn into_left(self) -> Outcome
        ensures packet { result.packet ≡ self.packet }
        ensures left { self.packet.fate ≡ Left }
        ensures stamp { result.stamp ≡ self.first }
        ensures later { result.later.items ≡ self.later }
    {
        outcome_of(Box::into_inner(self.body), 0)
    }
}

// What a packet came to that is in this body, by the board of this version.
fn outcome_of(body: Body, version: u32) -> Outcome
    requires epoch { body.packet.epoch ≡ body.first.epoch }
    requires sound { ∥ IsSoundByStamps (stamps_of body.first body.later.items) body.packet ∥₁ }
    ensures packet { result.packet ≡ body.packet }
    ensures stamps { (result.stamp ≡ body.first) × (result.later.items ≡ body.later.items) }
    ensures version { result.version ≡ version }
{
    let Body {
        packet,
        first,
        later,
        ..
    } = body;
    Outcome {
        packet,
        stamp: first,
        later,
        version,
    }
}
