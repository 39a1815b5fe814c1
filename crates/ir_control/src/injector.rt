//! The injector: it puts packets into the nodes' inboxes and keeps what was accepted.
ghost use Rattle.std.specs.Prelude.{◌≡◌, ℕ, Bool, All, ◌<◌, ◌≤◌, [], IfErr, Some, length, slice_get};
ghost use Rattle.std.specs.Arc.{arc_value};
ghost use Rattle.ir_model.specs.Topology.{node_count};
ghost use Rattle.ir_core.specs.declared.TheConstants.{MAX_NODES, MAX_PACKETS};
ghost use Rattle.ir_epochs.specs.Stamps.{IsOf, knows, registry_name};
ghost use Rattle.ir_worker.specs.{Seen.{GoesTo, IsOfNet}, Wires.Out};
ghost use Rattle.ir_worker.specs.Account.{Head, times_sent, weigh_sent, restamps_with, lines_out};
ghost use Rattle.ir_control.specs.{Heads.{times_injected, AreNumbered}, Outs.{AreEntryEnds, IsSent}};

use ir_core::Refused;
use ir_epochs::{Receipt, Registry, Stamp};
use ir_links::{Moments, Sender};
use ir_worker::Parcel;
use std::alloc::Global;
use std::sync::Arc;

/// A packet that was accepted: its number, the epoch that it was stamped with, and its ends.
#[derive(Clone, Copy, PartialEq, Eq, Debug)]
pub struct Accepted {
    pub id: u32,
    pub epoch: u32,
    pub source: u16,
    pub dest: u16,
}

/// The injector of a net. It stamps each packet with the greatest epoch whose receipt it learnt, epoch 1 at first, and
/// keeps a list of the packets that were accepted. What it sends had no restamp.
#[derive(Drop)]
pub struct Injector {
    pub(crate) alloc: Global,
    pub(crate) registry: Arc<Registry, Global>,
    pub(crate) opening: Stamp,
    pub(crate) newest: Stamp,
    pub(crate) restamps: u8,
    pub(crate) max_packets: usize,
    pub(crate) outs: Vec<Sender<Parcel>>,
    pub(crate) accepted: Vec<Accepted>,
    ghost of_registry: { IsOf (arc_value registry) opening },
    ghost newest_of: { IsOfNet opening newest },
    ghost few_nodes: { node_count (knows opening).topology ≤ MAX_NODES },
    ghost few_packets: { max_packets ≤ MAX_PACKETS },
    ghost counted: { length accepted.items ≤ max_packets },
    ghost ends: { AreEntryEnds opening restamps (lines_out outs.items) },
    ghost numbered: { AreNumbered accepted.items },
    ghost account: { (p : Head → Bool) → times_sent p outs.items ≡ times_injected p accepted.items },
    ghost fresh: { (p : ℕ → Bool) → weigh_sent (restamps_with p) outs.items ≡ 0 },
}

// Puts a parcel into an inbox, unless it has no room.
fn send_to<R: Moments<Parcel>>(
    rt: &R,
    outs: &mut Vec<Sender<Parcel>>,
    node: usize,
    parcel: Parcel,
) -> bool
    requires node { node < length outs.old.items }
    requires goes { (s : Out) → slice_get outs.old.items node ≡ Some s → GoesTo parcel s.channel.place }
    ensures sent { IsSent R.was_full outs.old.items outs.new.items node parcel result }
    ensures lines { lines_out outs.new.items ≡ lines_out outs.old.items }
{
    let out = &mut outs[node];
    match out.send(rt, parcel) {
        Ok(()) => {}
        Err(_) => return false,
    }
    true
}

impl Injector {
    ghost use Rattle.ir_control.specs.{Accepted.{accepted_count, IsOfRegistryOf, IsOfNetworkOf}, Refusals.IsInjectAnswer};
    ghost use Rattle.ir_control.specs.Accepted.{HasNewestBy, HasAllOf, HasTermsOf, HasLinesOf};
    ghost use Rattle.ir_core.specs.Codes.{inject_number};

    /// How many packets were accepted.
    pub fn count(&self) -> u32
        ensures { result ≡ accepted_count self.now }
    {
        self.accepted.len() as u32
    }

    /// From now on packets are stamped with the receipt's epoch, if it is an install's and a later one.
    pub fn learn(&mut self, receipt: &Receipt)
        requires registry { IsOfRegistryOf self.old receipt.now }
        requires topology { IsOfNetworkOf self.old receipt.now }
        ensures newest { HasNewestBy receipt.now self.old self.new }
        ensures same { HasAllOf self.old self.new }
    {
        if let Some(stamp) = receipt.stamp()
            && self.newest.epoch() < stamp.epoch()
        {
            self.newest = stamp.again();
        }
    }

    /// Puts a packet from a source to a destination into the source's inbox, and answers its number: how many packets
    /// were accepted before it. Its stamp is the newest one that was learnt.
    ///
    /// Refused are, in this order: a number that is no node, a packet above the net's limit, want of memory, a full
    /// inbox, where the push of this call was refused. `Refused::inject_number` has the numbers of these refusals. A
    /// refusal changes nothing.
    pub fn inject<R: Moments<Parcel>>(
        &mut self,
        rt: &R,
        source: u16,
        dest: u16,
    ) -> Result<u32, Refused>
        ensures answer { IsInjectAnswer R.was_full source dest self.old result self.new }
        ensures number { IfErr result (λ e. 0 < inject_number e) }
        ensures same { HasTermsOf self.old self.new }
        ensures lines { HasLinesOf self.old self.new }
    {
        let nodes = self.outs.len();
        if source as usize >= nodes || dest as usize >= nodes {
            return Err(Refused::NoNode);
        }
        let count = self.accepted.len();
        if count >= self.max_packets {
            return Err(Refused::TooManyPackets);
        }
        let id = count as u32;
        let epoch = self.newest.epoch();
        let Ok(parcel) = Parcel::start(
            self.alloc,
            &self.registry,
            id,
            self.newest.again(),
            (source, dest),
            self.restamps,
        ) else {
            return Err(Refused::NoMemory);
        };
        let Ok(()) = self.accepted.reserve(1) else {
            return Err(Refused::NoMemory);
        };
        if !send_to(rt, &mut self.outs, source as usize, parcel) {
            return Err(Refused::InboxFull);
        }
        self.accepted.push_reserved(Accepted {
            id,
            epoch,
            source,
            dest,
        });
        Ok(id)
    }

    // Its ends.
    pub(crate) fn into_outs(self) -> Vec<Sender<Parcel>>
        ensures { result ≡ self.outs }
    {
        let Injector { outs, .. } = self;
        outs
    }
}
