//! Nodes, and their turns.
ghost use Rattle.std.specs.{Prelude.{◌≡◌, ◌≤◌, ℕ, [], length, map, All}, Arc.arc_value};
ghost use Rattle.ir_epochs.specs.{Stamps.{IsOf, knows, registry_name}, Entries.{registry_of, topology_of}};
ghost use Rattle.ir_epochs.specs.Handles.{known};
ghost use Rattle.ir_worker.specs.{Outcomes.{IsOutcomeOf, IsCauseKnown}, Account.{IsBalanced, IsEven, AreRestampsKnown}};
ghost use Rattle.ir_worker.specs.Wires.{AreEndsOf};
ghost use Rattle.ir_core.specs.Record.{Record};

use crate::entrances::Entrances;
use crate::parcel::{Outcome, Parcel};
use crate::passing::{Turning, pass_on, ready};
use crate::serving::NoMemory;
use ir_core::{Hop, Way};
use ir_epochs::{BoardReader, BoardWriter, Looks, Receipt, Registry, Stamp};
use ir_links::{Bound, Moments, Sender, Taker};
use std::alloc::Global;
use std::sync::atomic::{AtomicU32, Ordering};
use std::sync::{Arc, Wait};

/// What a turn did.
#[derive(Clone, Copy, Debug, PartialEq, Eq)]
pub enum Turn {
    /// The way that was polled had no parcel: its pop was refused.
    Idle,
    /// The packet of this id went on to this node.
    Sent(u32, u16),
    /// The packet of this id was delivered or dropped, which its outcome says.
    Settled(u32),
}

/// A node of a net. It owns the ends that take from its inbox and from each port, and those that
/// send over each port. The heads of the parcels that it took are those that it sent and settled,
/// each as often. The restamps that it made are of epochs that were current on the board that it
/// reads. The causes of the drops that it keeps held on boards that it has read.
#[derive(Drop)]
pub struct Node {
    index: u16,
    registry: Arc<Registry, Global>,
    opening: Stamp,
    restamps: u8,
    ports: Vec<Hop>,
    entrances: Entrances,
    outs: Vec<Sender<Parcel>>,
    reader: BoardReader,
    outcomes: Vec<Outcome>,
    settled: Arc<AtomicU32, Global>,
    ghost of_registry: { IsOf (arc_value registry) opening },
    ghost of_board: { (registry_of (known reader) ≡ registry_name opening)
        × (topology_of (known reader) ≡ (knows opening).topology) },
    ghost ends: { AreEndsOf opening restamps index ports.items entrances.inbox entrances.ports.items outs.items },
    ghost account: { IsBalanced entrances.inbox entrances.ports.items outs.items outcomes.items },
    ghost restamped: { AreRestampsKnown (known reader) entrances.inbox entrances.ports.items outs.items
        outcomes.items },
    ghost of_net: { ∥ All (IsOutcomeOf opening restamps) outcomes.items ∥₁ },
    ghost causes: { ∥ All (IsCauseKnown (known reader)) outcomes.items ∥₁ },
}

/// What the parts of a net share: the registry of its plans, the stamp of its opening, how many
/// restamps it allows a packet, and how many packets were settled.
#[derive(Drop)]
pub struct Common {
    pub registry: Arc<Registry, Global>,
    pub opening: Stamp,
    pub restamps: u8,
    pub settled: Arc<AtomicU32, Global>,
    ghost of_registry: { IsOf (arc_value registry) opening },
}

/// What a node is made of: the ends of its inbox and ports, and what was settled there.
#[derive(Drop)]
pub struct Ends {
    pub inbox: Taker<Parcel>,
    pub ins: Vec<Taker<Parcel>>,
    pub outs: Vec<Sender<Parcel>>,
    pub outcomes: Vec<Outcome>,
}

impl Node {
    ghost use Rattle.std.specs.Prelude.{◌<◌, ◌↔◌, IsTrue, MatchResult};
    ghost use mathlib.Core.List.{IsPrefix};
    ghost use Rattle.ir_model.specs.Topology.{node_count, ports_of};
    ghost use Rattle.ir_epochs.specs.Entries.{board_of, Rises};
    ghost use Rattle.ir_epochs.specs.Handles.{told, published, writer_board};
    ghost use Rattle.ir_worker.specs.{Turns.{IsTurn, IsUntouched, HoldsAll}, Wires.IsWayAt};
    ghost use Rattle.ir_worker.specs.Same.{IsSameNode, IsNodeWith, HasNodeEnds, IsAtStart, ComesApartAs};
    ghost use Rattle.ir_worker.specs.Same.{number_in_net, known_to, next_way, ReadsBoardOf, ReadsBoardOfReceipt};
    ghost use Rattle.ir_worker.specs.Same.{AreEndsOfNode, AreOutcomesOfNode, AreCausesKnownTo};

    /// A node with its ends, which have taken and sent nothing. It counts in `settled`, with the
    /// net's other nodes, what it settles: a hint of which nothing is claimed.
    pub fn new(index: u16, common: Common, ports: Vec<Hop>, ends: Ends, reader: BoardReader) -> Node
        requires board { (registry_of (known reader) ≡ registry_name common.opening)
            × (topology_of (known reader) ≡ (knows common.opening).topology) }
        requires ends { AreEndsOf common.opening common.restamps index ports.items ends.inbox ends.ins.items
            ends.outs.items }
        requires fresh { (w : Record → ℕ) → IsEven w ends.inbox ends.ins.items ends.outs.items [] }
        requires unsettled { ends.outcomes.items ≡ [] }
        ensures node { IsNodeWith index common ports reader result }
        ensures ends { HasNodeEnds ends result }
        ensures start { IsAtStart result }
    {
        let Common {
            registry,
            opening,
            restamps,
            settled,
        } = common;
        let Ends {
            inbox,
            ins,
            outs,
            outcomes,
        } = ends;
        Node {
            index,
            registry,
            opening,
            restamps,
            ports,
            entrances: Entrances {
                inbox,
                ports: ins,
                next: 0,
            },
            outs,
            reader,
            outcomes,
            settled,
        }
    }

    /// Its number in its net.
    pub fn index(&self) -> u16
        ensures { result ≡ number_in_net self.now }
    {
        self.index
    }

    // What its lists grow by.
    pub(crate) fn allocator(&self) -> Global {
        *self.outcomes.allocator()
    }

    // How many ways lead to it from its neighbours.
    pub(crate) fn degree(&self) -> usize {
        self.entrances.ports.len()
    }

    /// From now on it knows the receipt's change: each later turn reads a board of at least its version.
    pub fn learn(&mut self, receipt: &Receipt)
        requires { ReadsBoardOfReceipt receipt.now self.old }
        ensures same { IsSameNode self.old self.new }
        ensures holds { HoldsAll self.old self.new }
        ensures way { next_way self.new ≡ next_way self.old }
        ensures later { IsPrefix (known_to self.old) (known_to self.new) }
        ensures receipt { IsPrefix (told receipt.now) (known_to self.new) }
        ensures rises { Rises (board_of (told receipt.now)) (board_of (known_to self.new)) }
    {
        self.reader.learn(receipt);
    }

    /// Sees that the writer of its board published all that it has read or learnt.
    pub fn follows<R: Wait + Drop>(&self, writer: &mut BoardWriter<R>)
        requires { ReadsBoardOf writer.old self.now }
        ensures led { IsPrefix (known_to self.now) (published writer.old) }
        ensures same { (published writer.new ≡ published writer.old)
            × (writer_board writer.new ≡ writer_board writer.old) }
    {
        writer.leads(&self.reader);
    }

    // The way by which the packet core takes from what is polled next.
    fn way(&self) -> Way
        ensures { IsWayAt self.now.ports.items result self.now.entrances.next }
    {
        let next = self.entrances.next;
        if next == 0 {
            return Way::Inbox;
        }
        Way::Link(self.ports[next - 1].link)
    }

    /// One turn: it makes room for one outcome, and then polls the way whose turn it is. A parcel that was there is
    /// restamped, where its epoch is retired and the net still allows it, and sent on or settled, by the board that is
    /// then read. The look is made with the parcel in hand.
    ///
    /// Where there is no memory for the outcome nothing is polled.
    pub fn turn<R: Moments<Parcel> + Looks<Parcel>>(&mut self, rt: &R) -> Result<Turn, NoMemory>
        ensures { MatchResult result (λ turn. IsTurn R.was_full R.was_empty R.looked self.old self.new turn)
            (λ _. IsUntouched self.old self.new) }
    {
        self.outcomes.reserve(1)?;
        let way = self.way();
        let Some(parcel) = self.entrances.poll(rt) else {
            return Ok(Turn::Idle);
        };
        let id = parcel.id();
        self.reader.look(rt, &parcel);
        let ports = self.ports.as_slice();
        let turning = Turning {
            registry: &self.registry,
            opening: &self.opening,
            restamps: self.restamps,
            at: self.index,
            ports,
            board: self.reader.board(),
        };
        let judged = ready(&turning, self.reader.stamp(), way, parcel);
        match pass_on(rt, &turning, &mut self.outs, judged) {
            Ok(to) => Ok(Turn::Sent(id, to)),
            Err(outcome) => {
                self.outcomes.push_reserved(outcome);
                self.settled.fetch_add(1, Ordering::SeqCst);
                Ok(Turn::Settled(id))
            }
        }
    }

    /// The ends of its inbox and ports, and what was settled here.
    pub fn into_ends(self) -> Ends
        ensures ends { ComesApartAs self result }
        ensures account { IsBalanced result.inbox result.ins.items result.outs.items result.outcomes.items }
        ensures places { AreEndsOfNode self result }
        ensures of_net { AreOutcomesOfNode self result }
        ensures causes { AreCausesKnownTo self result }
    {
        let Node {
            entrances,
            outs,
            outcomes,
            ..
        } = self;
        let Entrances {
            inbox,
            ports: ins,
            ..
        } = entrances;
        Ends {
            inbox,
            ins,
            outs,
            outcomes,
        }
    }
}
