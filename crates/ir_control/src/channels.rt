//! The channels of a net and their ends, and which port is the other end of which port's link.
ghost use Rattle.std.specs.Prelude.{◌≡◌, ℕ, ◌+◌, ◌^◌, ◌<◌, ◌≤◌, Some, IfOk, IfSome, length, slice_index};
ghost use Rattle.ir_model.specs.Topology.{node_count, port_at, port_back};
ghost use Rattle.ir_control.specs.{Places.{way_count, IsFilled, IsFilledTo, IsPeer}, Wired.{IsNetChannel, AreInboxes, AreOffsets}};
ghost use Rattle.ir_control.specs.Fresh.{AreFreshOuts, AreFreshIns, AreOutsAt, AreInsAt};

use ir_epochs::Stamp;
use ir_links::{Channel, Sender, Taker};
use ir_tables::{Hop, Topology};
use ir_worker::{Parcel, Place};
use std::alloc::{AllocError, Global};

/// What all channels of a net have: the opening of the net, its limit on restamps, and their capacity.
#[derive(Clone, Copy)]
pub struct ChannelTerms<'a> {
    pub opening: &'a Stamp,
    pub restamps: u8,
    pub capacity: usize,
}

// A channel between two nodes.
fn channel(
    alloc: Global,
    terms: &ChannelTerms<'_>,
    from: u16,
    to: u16,
) -> Result<Channel<Parcel>, AllocError>
    requires { 0 < terms.now.capacity }
    ensures { IfOk result
        (λ channel. IsNetChannel terms.now.opening.now terms.now.restamps terms.now.capacity from to channel) }
{
    let place = Place {
        from,
        to,
        restamps: terms.restamps,
        opening: terms.opening.again(),
    };
    Channel::new(alloc, terms.capacity, place)
}

/// An inbox for each node.
pub fn inboxes_of(
    alloc: Global,
    topology: &Topology,
    terms: &ChannelTerms<'_>,
) -> Result<Vec<Channel<Parcel>>, AllocError>
    requires { 0 < terms.now.capacity }
    ensures { IfOk result (λ inboxes. AreInboxes topology.now terms.now.opening.now terms.now.restamps
        terms.now.capacity inboxes.items) }
{
    let nodes = topology.nodes();
    let mut inboxes = Vec::with_capacity(alloc, nodes)?;
    for u in 0..nodes {
        inboxes.push(channel(alloc, terms, u as u16, u as u16)?)?;
    }
    Ok(inboxes)
}

// The ways out of a node come after those of the nodes before it.
fn add_ways(
    alloc: Global,
    topology: &Topology,
    terms: &ChannelTerms<'_>,
    u: u16,
    ways: &mut Vec<Channel<Parcel>>,
) -> Result<(), AllocError>
    requires capacity { 0 < terms.now.capacity }
    requires node { u < node_count topology.now }
    requires before { IsFilledTo topology.now
        (λ v hop channel. IsNetChannel terms.now.opening.now terms.now.restamps terms.now.capacity v hop.node channel)
        u 0 ways.old.items }
    ensures { IfOk result (λ _. IsFilledTo topology.now
        (λ v hop channel. IsNetChannel terms.now.opening.now terms.now.restamps terms.now.capacity v hop.node channel)
        (u + 1) 0 ways.new.items) }
{
    for hop in topology.ports(u as usize) {
        ways.push(channel(alloc, terms, u, hop.node)?)?;
    }
    Ok(())
}

/// For each port the way out of it, in the order of the ports' places, and the place of each node's first port.
pub fn ways_of(
    alloc: Global,
    topology: &Topology,
    terms: &ChannelTerms<'_>,
) -> Result<(Vec<Channel<Parcel>>, Vec<usize>), AllocError>
    requires { 0 < terms.now.capacity }
    ensures ways { IfOk result (λ made. IsFilled topology.now
        (λ v hop channel. IsNetChannel terms.now.opening.now terms.now.restamps terms.now.capacity v hop.node channel)
        made.0.items) }
    ensures offsets { IfOk result (λ made. AreOffsets topology.now made.1.items) }
    ensures fits { IfOk result (λ _. way_count topology.now < 2 ^ 64) }
{
    let nodes = topology.nodes();
    let mut ways = Vec::new(alloc);
    let mut offsets = Vec::with_capacity(alloc, nodes)?;
    for u in 0..nodes {
        offsets.push(ways.len())?;
        add_ways(alloc, topology, terms, u as u16, &mut ways)?;
    }
    Ok((ways, offsets))
}

// The port of the neighbour back over the same link.
fn port_back(topology: &Topology, u: u16, hop: &Hop) -> usize
    requires node { u < node_count topology.now }
    requires port { (p : ℕ) × (port_at topology.now u p ≡ Some hop.now) }
    ensures { port_at topology.now hop.now.node result ≡ Some (port_back u hop.now) }
{
    topology.invariant();
    for (q, other) in topology.ports(hop.node as usize).iter().enumerate() {
        if other.node == u {
            return q;
        }
    }
    unreachable!()
}

// The peers of a node's ports come after those of the nodes before it.
fn add_peers(
    topology: &Topology,
    u: u16,
    offsets: &[usize],
    peers: &mut Vec<usize>,
) -> Result<(), AllocError>
    requires node { u < node_count topology.now }
    requires offsets { AreOffsets topology.now offsets.now }
    requires fits { way_count topology.now < 2 ^ 64 }
    requires before { IsFilledTo topology.now (IsPeer topology.now) u 0 peers.old.items }
    ensures { IfOk result (λ _. IsFilledTo topology.now (IsPeer topology.now) (u + 1) 0 peers.new.items) }
{
    for hop in topology.ports(u as usize) {
        let back = port_back(topology, u, hop);
        peers.push(offsets[hop.node as usize] + back)?;
    }
    Ok(())
}

/// The place of each port's other end, in the order of the ports' places.
pub fn peers_of(
    alloc: Global,
    topology: &Topology,
    offsets: &[usize],
) -> Result<Vec<usize>, AllocError>
    requires offsets { AreOffsets topology.now offsets.now }
    requires fits { way_count topology.now < 2 ^ 64 }
    ensures { IfOk result (λ peers. IsFilled topology.now (IsPeer topology.now) peers.items) }
{
    let mut peers = Vec::new(alloc);
    for u in 0..topology.nodes() {
        add_peers(topology, u as u16, offsets, &mut peers)?;
    }
    Ok(peers)
}

// Both ends of each channel, unless some were handed out before.
pub(crate) fn all_ends(
    alloc: Global,
    channels: &Vec<Channel<Parcel>>,
) -> Result<Option<(Vec<Option<Sender<Parcel>>>, Vec<Option<Taker<Parcel>>>)>, AllocError>
    ensures { IfOk result (λ given. IfSome given
        (λ ends. AreFreshOuts channels.now.items ends.0.items × AreFreshIns channels.now.items ends.1.items)) }
{
    let count = channels.len();
    let mut senders = Vec::with_capacity(alloc, count)?;
    let mut takers = Vec::with_capacity(alloc, count)?;
    for channel in channels {
        let Some((sender, taker)) = channel.ends()? else {
            return Ok(None);
        };
        senders.push_reserved(Some(sender));
        takers.push_reserved(Some(taker));
    }
    Ok(Some((senders, takers)))
}

// The senders of so many channels, unless one is gone.
pub(crate) fn outs_of(
    alloc: Global,
    channels: &Vec<Channel<Parcel>>,
    first: usize,
    count: usize,
    senders: &mut Vec<Option<Sender<Parcel>>>,
) -> Result<Option<Vec<Sender<Parcel>>>, AllocError>
    requires fresh { AreFreshOuts channels.now.items senders.old.items }
    requires within { first + count ≤ length channels.now.items }
    ensures fresh { AreFreshOuts channels.now.items senders.new.items }
    ensures outs { IfOk result (λ given. IfSome given (λ outs. AreOutsAt channels.now.items first count outs.items)) }
{
    let mut outs = Vec::with_capacity(alloc, count)?;
    for p in 0..count {
        let Some(sender) = senders[first + p].take() else {
            return Ok(None);
        };
        outs.push_reserved(sender);
    }
    Ok(Some(outs))
}

// The takers of the channels of so many peers, unless one is gone.
pub(crate) fn ins_of(
    alloc: Global,
    channels: &Vec<Channel<Parcel>>,
    peers: &[usize],
    first: usize,
    count: usize,
    takers: &mut Vec<Option<Taker<Parcel>>>,
) -> Result<Option<Vec<Taker<Parcel>>>, AllocError>
    requires fresh { AreFreshIns channels.now.items takers.old.items }
    requires within { first + count ≤ length peers.now }
    requires peers { (length peers.now ≡ length channels.now.items)
        × ((k : ℕ) → k < length peers.now → slice_index peers.now k < length peers.now) }
    ensures fresh { AreFreshIns channels.now.items takers.new.items }
    ensures ins { IfOk result (λ given. IfSome given
        (λ ins. AreInsAt channels.now.items peers.now first count ins.items)) }
{
    let mut ins = Vec::with_capacity(alloc, count)?;
    for p in 0..count {
        let Some(taker) = takers[peers[first + p]].take() else {
            return Ok(None);
        };
        ins.push_reserved(taker);
    }
    Ok(Some(ins))
}
