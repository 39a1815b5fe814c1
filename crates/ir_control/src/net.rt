//! A net: its registry, its channels, and what its parts are made of.
ghost use Rattle.std.specs.{Prelude.{◌≡◌, ◌⊎◌, ◌<◌, ◌≤◌, IfOk, IfErr, None, Some, length}, Arc.arc_value};
ghost use Rattle.ir_model.specs.{Topology.node_count, Walk.IsDisconnected};
ghost use Rattle.ir_plan.specs.Building.{FromRoot};
ghost use Rattle.ir_core.specs.{Meaning.IsMade, declared.TheConstants.{MAX_PACKETS, MAX_RESTAMPS}, Opened.open_refused};
ghost use Rattle.ir_control.specs.{Places.offset, Opened.IsNetRefusal};
ghost use Rattle.ir_control.specs.Wired.{AreInboxes, AreWiredWays, AreOffsets, IsOpening};
ghost use Rattle.ir_epochs.specs.Stamps.{IsOf, knows};

use crate::channels::{ChannelTerms, all_ends, inboxes_of, ins_of, outs_of, peers_of, ways_of};
use crate::controller::{Controller, register};
use crate::injector::Injector;
use ir_core::{
    Draft, MAX_PACKETS, MAX_RESTAMPS, OpenError, Opening, Refused, open_refusal, plan_over_by,
};
use ir_epochs::{BoardError, BoardReader, BoardWriter, Registry, Stamp, board};
use ir_links::{Channel, Sender, Taker};
use ir_plan::{LabelOrder, Plan, Several};
use ir_tables::Topology;
use ir_worker::{Common, Ends, Node, Parcel};
use std::alloc::{AllocError, Global};
use std::sync::atomic::{AtomicBool, AtomicU32, Ordering};
use std::sync::{Arc, Wait};
use std::thread::Threads;

/// A net: the registry of its plans, an inbox for each node, and for each port a channel out of it.
///
/// A link that is gone from the topology has no port, so nobody could hold its channels: none are made.
///
/// A live run over it, where each node may always go on (`Open`):
///
/// ```
/// let net = Net::new(rt, alloc, topology, Kind::Tree, 0, 16, 64, 0).ok()?;
/// let commands = [Command::Inject(1, 2), Command::Drain];
/// let stop = AtomicBool::new(false);
/// let live = run_live(rt, &net, &commands, &Open, &stop, rt).ok()?;
/// ```
#[derive(Drop)]
pub struct Net {
    pub(crate) alloc: Global,
    registry: Arc<Registry, Global>,
    pub(crate) topology: Topology,
    labels: LabelOrder,
    pub(crate) keeps: bool,
    pub(crate) capacity: usize,
    max_packets: usize,
    pub(crate) restamps: u8,
    pub(crate) opening: Stamp,
    pub(crate) inboxes: Vec<Channel<Parcel>>,
    pub(crate) ways: Vec<Channel<Parcel>>,
    pub(crate) peers: Vec<usize>,
    offsets: Vec<usize>,
    spent: AtomicBool,
    settled: Arc<AtomicU32, Global>,
    ghost opened: { IsOpening (arc_value registry) topology opening },
    ghost inboxes_are: { AreInboxes topology opening restamps capacity inboxes.items },
    ghost ways_are: { AreWiredWays topology opening restamps capacity ways.items peers.items },
    ghost offsets_are: { AreOffsets topology offsets.items },
    ghost few_packets: { max_packets ≤ MAX_PACKETS },
    ghost few_restamps: { restamps ≤ MAX_RESTAMPS },
}

// The plan of the opening's kind and root over all links.
fn opening_plan(
    rt: &(impl Threads + Sync),
    alloc: Global,
    opening: &Opening,
) -> Result<Plan, OpenError>
    requires { opening.now.root < node_count opening.now.topology }
    ensures made { IfOk result (λ plan. IsMade (FromRoot opening.now.labels opening.now.root) opening.now.kind
        opening.now.topology (Some plan)) }
    ensures refused { IfErr result
        (λ e. ((e ≡ OpenError.Disconnected) × IsDisconnected opening.now.topology)
        ⊎ ((e ≡ OpenError.NoMemory) ⊎ (e ≡ OpenError.Used))) }
{
    let Ok(over) = opening.topology.try_clone(alloc) else {
        return Err(OpenError::NoMemory);
    };
    let crew = Several { rt, most: None };
    let draft = Draft {
        labels: opening.labels,
        kind: opening.kind,
        root: opening.root,
        kept: None,
    };
    let plan = plan_over_by(&crew, alloc, over, draft)?;
    Ok(plan)
}

// A registry whose cell 1 has a plan of the opening's kind and root over all links.
fn registered(
    rt: &(impl Threads + Sync),
    alloc: Global,
    opening: &Opening,
) -> Result<(Registry, Stamp), OpenError>
    requires { opening.now.root < node_count opening.now.topology }
    ensures made { IfOk result (λ r. IsOf r.0 r.1 × (r.1.epoch ≡ 1)
        × IsMade (FromRoot opening.now.labels opening.now.root) opening.now.kind opening.now.topology
        (Some (knows r.1))) }
    ensures refused { IfErr result
        (λ e. ((e ≡ OpenError.Disconnected) × IsDisconnected opening.now.topology)
        ⊎ ((e ≡ OpenError.NoMemory) ⊎ (e ≡ OpenError.Used))) }
{
    let plan = opening_plan(rt, alloc, opening)?;
    let registry = Registry::new(alloc);
    match register(&registry, 1, plan) {
        Ok(stamp) => Ok((registry, stamp)),
        Err(Refused::Used) => Err(OpenError::Used),
        Err(_) => Err(OpenError::NoMemory),
    }
}

// The channels of a net, and how they are wired.
struct Wires {
    inboxes: Vec<Channel<Parcel>>,
    ways: Vec<Channel<Parcel>>,
    peers: Vec<usize>,
    offsets: Vec<usize>,
}

// The channels of a net over a network.
fn wires_of(
    alloc: Global,
    topology: &Topology,
    terms: &ChannelTerms<'_>,
) -> Result<Wires, AllocError>
    requires { 0 < terms.now.capacity }
    ensures inboxes { IfOk result (λ wires. AreInboxes topology.now terms.now.opening.now terms.now.restamps
        terms.now.capacity wires.inboxes.items) }
    ensures ways { IfOk result (λ wires. AreWiredWays topology.now terms.now.opening.now terms.now.restamps
        terms.now.capacity wires.ways.items wires.peers.items) }
    ensures offsets { IfOk result (λ wires. AreOffsets topology.now wires.offsets.items) }
{
    topology.invariant();
    let (ways, offsets) = ways_of(alloc, topology, terms)?;
    let peers = peers_of(alloc, topology, offsets.as_slice())?;
    let inboxes = inboxes_of(alloc, topology, terms)?;
    Ok(Wires {
        inboxes,
        ways,
        peers,
        offsets,
    })
}

// What the parts of a net share: its registry, and how many packets were settled, 0 at first.
fn shared(
    alloc: Global,
    registry: Registry,
) -> Result<(Arc<Registry, Global>, Arc<AtomicU32, Global>), AllocError>
    ensures { IfOk result (λ made. arc_value made.0 ≡ registry) }
{
    let settled = Arc::new(alloc, AtomicU32::new(0))?;
    let registry = Arc::new(alloc, registry)?;
    Ok((registry, settled))
}

impl Net {
    ghost use Rattle.ir_control.specs.Nets.{IsNetFor};

    /// A net for an opening, whose epoch 1 has a plan of the opening's kind and root over all links.
    ///
    /// Refused are, in this order: no node (`Empty`), a root that is no node, a number out of its
    /// range (`TooLarge`), some node without a walk to some node, want of memory. There are at most
    /// 1,024 nodes and 8,192 links. `Used` would say that a fresh cell of the registry refused its
    /// plan.
    pub fn open(
        rt: &(impl Threads + Sync),
        alloc: Global,
        opening: Opening,
    ) -> Result<Net, OpenError>
        ensures opened { IfOk result (λ net. IsNetFor opening net) }
        ensures accepted { IfOk result (λ _. open_refused opening ≡ None) }
        ensures refused { IfErr result (λ e. IsNetRefusal opening e) }
    {
        if let Some(error) = open_refusal(&opening) {
            return Err(error);
        }
        let (registry, first) = registered(rt, alloc, &opening)?;
        Net::wired(alloc, registry, first, opening).map_err(|_| OpenError::NoMemory)
    }

    // The net over a registered first plan, with its channels.
    fn wired(
        alloc: Global,
        registry: Registry,
        first: Stamp,
        opening: Opening,
    ) -> Result<Net, AllocError>
        requires first { IsOpening registry opening.topology first }
        requires capacity { 0 < opening.capacity }
        requires packets { opening.max_packets ≤ MAX_PACKETS }
        requires restamps { opening.restamps ≤ MAX_RESTAMPS }
        ensures topology { IfOk result (λ net. net.topology ≡ opening.topology) }
        ensures labels { IfOk result (λ net. (net.labels ≡ opening.labels) × (net.keeps ≡ opening.keeps)) }
        ensures opening { IfOk result (λ net. net.opening ≡ first) }
        ensures numbers { IfOk result (λ net. (net.capacity ≡ opening.capacity)
            × (net.max_packets ≡ opening.max_packets) × (net.restamps ≡ opening.restamps)) }
    {
        let terms = ChannelTerms {
            opening: &first,
            restamps: opening.restamps,
            capacity: opening.capacity,
        };
        let (registry, settled) = shared(alloc, registry)?;
        let Wires {
            inboxes,
            ways,
            peers,
            offsets,
        } = wires_of(alloc, &opening.topology, &terms)?;
        Ok(Net {
            alloc,
            registry,
            topology: opening.topology,
            labels: opening.labels,
            keeps: opening.keeps,
            capacity: opening.capacity,
            max_packets: opening.max_packets,
            restamps: opening.restamps,
            opening: first,
            inboxes,
            ways,
            peers,
            offsets,
            spent: AtomicBool::new(false),
            settled,
        })
    }
}

impl Net {
    ghost use Rattle.std.specs.Prelude.{IfSome, slice_get, []};
    ghost use Rattle.ir_control.specs.Nets.{registry_in, first_stamp};
    ghost use Rattle.ir_epochs.specs.{Stamps.registry_name, Entries.{registry_of, topology_of}};
    ghost use Rattle.ir_epochs.specs.Handles.{known, reader_board};
    ghost use Rattle.ir_control.specs.{Fresh.{AreFreshOuts, AreFreshIns}, Parts.{IsNodeOf, IsFreshNode}};

    /// Where its memory comes from.
    pub fn alloc(&self) -> Global {
        self.alloc
    }

    /// The registry of its plans.
    pub fn registry(&self) -> &Registry
        ensures { result.now ≡ registry_in self.now }
    {
        &self.registry
    }

    /// The stamp of epoch 1.
    pub fn opening(&self) -> &Stamp
        ensures { result.now ≡ first_stamp self.now }
    {
        &self.opening
    }

    /// How many packets were settled, or about so many: a hint of which nothing is claimed.
    pub fn settled(&self) -> u32 {
        self.settled.load(Ordering::SeqCst)
    }

    // One node with its ends, unless one of them is gone.
    fn node(
        &self,
        u: usize,
        inbox: Taker<Parcel>,
        reader: BoardReader,
        senders: &mut Vec<Option<Sender<Parcel>>>,
        takers: &mut Vec<Option<Taker<Parcel>>>,
    ) -> Result<Option<Node>, AllocError>
        requires node { u < node_count self.now.topology }
        requires inbox { slice_get self.now.inboxes.items u ≡ Some inbox.channel }
        requires inbox_new { inbox.taken ≡ [] }
        requires reader { (registry_of (known reader) ≡ registry_name self.now.opening)
            × (topology_of (known reader) ≡ (knows self.now.opening).topology) }
        requires senders { AreFreshOuts self.now.ways.items senders.old.items }
        requires takers { AreFreshIns self.now.ways.items takers.old.items }
        ensures senders { AreFreshOuts self.now.ways.items senders.new.items }
        ensures takers { AreFreshIns self.now.ways.items takers.new.items }
        ensures node { IfOk result (λ given. IfSome given
            (λ n. IsNodeOf self.now n × (n.index ≡ u) × (reader_board n.reader ≡ reader_board reader))) }
        ensures fresh { IfOk result (λ given. IfSome given (λ n. IsFreshNode (known reader) n)) }
    {
        let first = self.first_port(u);
        let degree = self.topology.ports(u).len();
        let Some(outs) = outs_of(self.alloc, &self.ways, first, degree, senders)? else {
            return Ok(None);
        };
        let Some(ins) = ins_of(
            self.alloc,
            &self.ways,
            self.peers.as_slice(),
            first,
            degree,
            takers,
        )?
        else {
            return Ok(None);
        };
        let ports = Vec::from_slice(self.alloc, self.topology.ports(u))?;
        let common = Common {
            registry: Arc::try_clone(&self.registry)?,
            opening: self.opening.again(),
            restamps: self.restamps,
            settled: Arc::try_clone(&self.settled)?,
        };
        let outcomes = Vec::new(self.alloc);
        let ends = Ends {
            inbox,
            ins,
            outs,
            outcomes,
        };
        Ok(Some(Node::new(u as u16, common, ports, ends, reader)))
    }
}

/// The parts of a net: its nodes by number, its injector and its controller.
#[derive(Drop)]
pub struct Parts<R: Wait + Drop> {
    pub nodes: Vec<Node>,
    pub injector: Injector,
    pub controller: Controller<R>,
}

impl Net {
    ghost use Rattle.std.specs.Prelude.{All, IfSome};
    ghost use Rattle.ir_epochs.specs.Handles.{known, published, reader_board, writer_board};
    ghost use Rattle.ir_control.specs.Fresh.{AreFreshIns, AreFreshOuts};
    ghost use Rattle.ir_control.specs.Parts.{opening_entries, AreFirstNodes, AreFreshParts, IsFreshNode, ReadsAsOneOf};

    // All nodes, by number.
    fn nodes(
        &self,
        mut inboxes: Vec<Option<Taker<Parcel>>>,
        mut readers: Vec<BoardReader>,
    ) -> Result<Option<Vec<Node>>, AllocError>
        requires inboxes { AreFreshIns self.now.inboxes.items inboxes.items }
        requires readers { All (λ x. known x ≡ opening_entries self.now) readers.items }
        ensures nodes { IfOk result (λ given. IfSome given
            (λ nodes. AreFirstNodes self.now (node_count self.now.topology) nodes.items)) }
        ensures boards { IfOk result (λ given. IfSome given
            (λ nodes. All (ReadsAsOneOf readers.items) nodes.items)) }
        ensures fresh { IfOk result (λ given. IfSome given
            (λ nodes. All (IsFreshNode (opening_entries self.now)) nodes.items)) }
    {
        let Some((mut senders, mut takers)) = all_ends(self.alloc, &self.ways)? else {
            return Ok(None);
        };
        self.nodes_with(&mut inboxes, &mut readers, &mut senders, &mut takers)
    }

    // All nodes, by number, with these ends and readers, unless one of them is gone.
    fn nodes_with(
        &self,
        inboxes: &mut Vec<Option<Taker<Parcel>>>,
        readers: &mut Vec<BoardReader>,
        senders: &mut Vec<Option<Sender<Parcel>>>,
        takers: &mut Vec<Option<Taker<Parcel>>>,
    ) -> Result<Option<Vec<Node>>, AllocError>
        requires inboxes { AreFreshIns self.now.inboxes.items inboxes.old.items }
        requires readers { All (λ x. known x ≡ opening_entries self.now) readers.old.items }
        requires senders { AreFreshOuts self.now.ways.items senders.old.items }
        requires takers { AreFreshIns self.now.ways.items takers.old.items }
        ensures nodes { IfOk result (λ given. IfSome given
            (λ nodes. AreFirstNodes self.now (node_count self.now.topology) nodes.items)) }
        ensures boards { IfOk result (λ given. IfSome given
            (λ nodes. All (ReadsAsOneOf readers.old.items) nodes.items)) }
        ensures fresh { IfOk result (λ given. IfSome given
            (λ nodes. All (IsFreshNode (opening_entries self.now)) nodes.items)) }
    {
        let mut nodes = Vec::with_capacity(self.alloc, self.inboxes.len())?;
        for u in 0..self.inboxes.len() {
            let Some(inbox) = inboxes[u].take() else {
                return Ok(None);
            };
            let Some(reader) = readers.pop() else {
                return Ok(None);
            };
            let Some(node) = self.node(u, inbox, reader, senders, takers)? else {
                return Ok(None);
            };
            nodes.push_reserved(node);
        }
        Ok(Some(nodes))
    }

    // The place of a node's first port.
    fn first_port(&self, u: usize) -> usize
        requires { u < node_count self.now.topology }
        ensures { result ≡ offset self.now.topology u }
    {
        self.offsets[u]
    }

    /// The parts of the net, once, and then `None`; after an error `None` too.
    ///
    /// An error is that of the board, which has no place for a reader of each node
    /// (`TooManyReaders`), or want of memory.
    pub fn parts<R: Wait + Drop>(&self, rt: R) -> Result<Option<Parts<R>>, BoardError>
        ensures { IfOk result (λ given. IfSome given
            (λ parts. AreFreshParts self.now parts.nodes.items parts.injector parts.controller)) }
    {
        if self.spent.swap(true, Ordering::SeqCst) {
            return Ok(None);
        }
        let nodes = self.topology.nodes();
        let links = self.topology.links() as u16;
        let (writer, readers) = board(rt, self.alloc, &self.opening, links, nodes as u16)?;
        self.parts_over(writer, readers)
            .map_err(|_| BoardError::NoMemory)
    }

    // The parts over a board that was just opened, with a reader of it for each node.
    fn parts_over<R: Wait + Drop>(
        &self,
        writer: BoardWriter<R>,
        readers: Vec<BoardReader>,
    ) -> Result<Option<Parts<R>>, AllocError>
        requires opening { published writer ≡ opening_entries self.now }
        requires readers { All (λ x. (known x ≡ published writer) × (reader_board x ≡ writer_board writer))
            readers.items }
        ensures { IfOk result (λ given. IfSome given
            (λ parts. AreFreshParts self.now parts.nodes.items parts.injector parts.controller)) }
    {
        let nodes = self.topology.nodes();
        let Some((mut entries, inboxes)) = all_ends(self.alloc, &self.inboxes)? else {
            return Ok(None);
        };
        let Some(outs) = outs_of(self.alloc, &self.inboxes, 0, nodes, &mut entries)? else {
            return Ok(None);
        };
        let Some(nodes) = self.nodes(inboxes, readers)? else {
            return Ok(None);
        };
        let injector = Injector {
            alloc: self.alloc,
            registry: Arc::try_clone(&self.registry)?,
            opening: self.opening.again(),
            newest: self.opening.again(),
            restamps: self.restamps,
            max_packets: self.max_packets,
            outs,
            accepted: Vec::new(self.alloc),
        };
        let controller = Controller {
            alloc: self.alloc,
            registry: Arc::try_clone(&self.registry)?,
            opening: self.opening.again(),
            labels: self.labels,
            keeps: self.keeps,
            writer,
            used: 1,
        };
        Ok(Some(Parts {
            nodes,
            injector,
            controller,
        }))
    }
}
