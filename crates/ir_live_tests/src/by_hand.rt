//! A net whose parts move by hand.
ghost use Rattle.std.specs.Prelude.{◌≡◌, IfOk, IfErr, IfSome};
ghost use Rattle.ir_epochs.specs.Handles.{receipt_board, reader_board, writer_board};
ghost use Rattle.ir_worker.specs.Same.{IsSameNode};
ghost use Rattle.ir_live_tests.specs.ByHand.{ArePartsOf, IsAway};

use ir_control::{FinishError, Net, Parts, Report, finish};
use ir_core::{Fate, Opening, Refused, Restamp};
use ir_epochs::Receipt;
use ir_graph::Graph;
use ir_model::Kind;
use ir_tables::Topology;
use ir_worker::{Node, Turn};
use std::alloc::Global;
use std::sync::Wait;
use std::thread::Threads;

/// A net with its parts, of which some nodes may be away.
#[derive(Drop)]
pub struct ByHand<R: Wait + Drop> {
    net: Net,
    parts: Parts<R>,
    ghost kept: { ArePartsOf net parts },
}

/// Links two nodes by their numbers, and answers whether it could.
pub(crate) fn link(graph: &mut Graph, alloc: Global, u: u32, v: u32, weight: u32) -> bool {
    let Ok(from) = format!(in alloc; "n{u}") else {
        return false;
    };
    let Ok(to) = format!(in alloc; "n{v}") else {
        return false;
    };
    graph.add_edge(from.as_str(), to.as_str(), weight).is_ok()
}

/// Adds edges of weight 1, and answers whether it could.
fn add_edges(graph: &mut Graph, edges: &[(&str, &str)]) -> bool {
    for (u, v) in edges {
        if graph.add_edge(u, v, 1).is_err() {
            return false;
        }
    }
    true
}

/// The network of a graph, where all its edges could be added.
pub(crate) fn network_of(alloc: Global, graph: &Graph, is_whole: bool) -> Option<Topology> {
    if is_whole {
        Topology::of(alloc, graph).ok()
    } else {
        None
    }
}

/// The network of a list of edges of weight 1.
pub(crate) fn network(alloc: Global, edges: &[(&str, &str)]) -> Option<Topology> {
    let mut graph = Graph::new(alloc);
    let is_whole = add_edges(&mut graph, edges);
    network_of(alloc, &graph, is_whole)
}

/// A net over a topology in depth-first numbers: a kind and a root, and a capacity, a number of packets and one of
/// restamps.
pub(crate) fn opened(
    rt: &(impl Threads + Sync),
    alloc: Global,
    topology: Topology,
    tree: (Kind, u16),
    limits: (usize, usize, u8),
) -> Option<Net> {
    let (kind, root) = tree;
    let (capacity, max_packets, restamps) = limits;
    let opening = Opening::of(topology, kind, root, capacity, max_packets, restamps);
    Net::open(rt, alloc, opening).ok()
}

/// Such a net over the network of a list of edges of weight 1.
pub(crate) fn over_edges(
    rt: &(impl Threads + Sync),
    alloc: Global,
    edges: &[(&str, &str)],
    tree: (Kind, u16),
    limits: (usize, usize, u8),
) -> Option<Net> {
    opened(rt, alloc, network(alloc, edges)?, tree, limits)
}

/// A net over the path a, b, c, whose links are a-b and b-c: nodes 0, 1 and 2, links 0 and 1. Its plan is of the tree
/// with root b.
pub(crate) fn path(
    rt: &(impl Threads + Sync),
    alloc: Global,
    capacity: usize,
    restamps: u8,
) -> Option<Net> {
    let limits = (capacity, 4_096, restamps);
    over_edges(
        rt,
        alloc,
        &[("a", "b"), ("b", "c")],
        (Kind::Tree, 1),
        limits,
    )
}

/// The parts of such a net.
pub(crate) fn parts_of_path<R: Threads + Wait + Sync>(
    rt: &R,
    alloc: Global,
    capacity: usize,
    restamps: u8,
) -> Option<ByHand<&R>> {
    let net = path(rt, alloc, capacity, restamps)?;
    ByHand::of(rt, net)
}

/// What became of a packet, and the epoch that it was first stamped with.
#[derive(Clone, Copy)]
pub struct Became<'a> {
    pub epoch: u32,
    pub hops: &'a [u16],
    pub restamps: &'a [Restamp],
    pub fate: Fate,
}

/// Whether that became of the packet of this id.
pub(crate) fn tells(report: &Report, id: usize, what: &Became<'_>) -> bool {
    let (Some(record), Some(stamp)) = (report.records.get(id), report.stamps.get(id)) else {
        return false;
    };
    record.id as usize == id
        && record.epoch == what.epoch
        && stamp.epoch() == what.epoch
        && record.hops.as_slice() == what.hops
        && record.restamps.as_slice() == what.restamps
        && record.fate == what.fate
}

/// Whether that became of all packets, by their ids.
pub(crate) fn tells_all(report: &Report, packets: &[Became<'_>]) -> bool {
    for (id, what) in packets.iter().enumerate() {
        if !tells(report, id, what) {
            return false;
        }
    }
    report.records.len() == packets.len()
}

/// The epoch that a receipt is about, where it is that of an install.
pub(crate) fn installed_by(receipt: &Receipt) -> Option<u32> {
    match receipt.stamp() {
        None => None,
        Some(stamp) => Some(stamp.epoch()),
    }
}

/// One turn of a node.
pub(crate) fn turned<R: Wait>(rt: &R, node: &mut Node) -> Option<Turn>
    ensures { IsSameNode node.old node.new }
{
    match node.turn(rt) {
        Ok(turn) => Some(turn),
        Err(_) => None,
    }
}

impl<R: Wait + Drop> ByHand<R> {
    /// The net's parts, where they were not handed out before.
    pub(crate) fn of(rt: R, net: Net) -> Option<ByHand<R>> {
        match net.parts(rt) {
            Ok(Some(parts)) => Some(ByHand { net, parts }),
            _ => None,
        }
    }

    /// How many nodes are there, and whether the net gives its parts once more.
    pub(crate) fn handed_out<B: Wait + Drop>(&self, rt: B) -> (usize, bool) {
        let is_spent = match self.net.parts(rt) {
            Ok(again) => again.is_none(),
            Err(_) => false,
        };
        (self.parts.nodes.len(), is_spent)
    }

    /// One turn of the node at this place.
    pub(crate) fn turn<B: Wait>(&mut self, rt: &B, at: usize) -> Option<Turn> {
        if at >= self.parts.nodes.len() {
            return None;
        }
        let node = &mut self.parts.nodes[at];
        turned(rt, node)
    }

    pub(crate) fn inject<B: Wait>(&mut self, rt: &B, source: u16, dest: u16) -> Result<u32, Refused>
        ensures { writer_board self.new.parts.controller.writer ≡ writer_board self.old.parts.controller.writer }
    {
        self.parts.injector.inject(rt, source, dest)
    }

    /// The version after a link was marked.
    pub(crate) fn mark(&mut self, link: u32, up: bool) -> Result<u32, Refused> {
        let answer = if up {
            self.parts.controller.up(link)
        } else {
            self.parts.controller.down(link)
        };
        match answer {
            Ok(receipt) => Ok(receipt.version()),
            Err(error) => Err(error),
        }
    }

    pub(crate) fn install(
        &mut self,
        rt: &(impl Threads + Sync),
        kind: Kind,
        root: u16,
    ) -> Result<Receipt, Refused>
        ensures { IfOk result (λ t. receipt_board t ≡ writer_board self.new.parts.controller.writer) }
    {
        self.parts.controller.install(rt, kind, root)
    }

    /// The epoch after an install that numbers anew.
    pub(crate) fn renumber(
        &mut self,
        rt: &(impl Threads + Sync),
        kind: Kind,
        root: u16,
    ) -> Result<Option<u32>, Refused> {
        match self.parts.controller.renumber(rt, kind, root) {
            Ok(receipt) => Ok(installed_by(&receipt)),
            Err(error) => Err(error),
        }
    }

    pub(crate) fn retire(&mut self, floor: u32) -> Result<Receipt, Refused>
        ensures { IfOk result (λ t. receipt_board t ≡ writer_board self.new.parts.controller.writer) }
    {
        self.parts.controller.retire(floor)
    }

    /// The epoch after an install that the injector learns.
    pub(crate) fn install_and_learn(
        &mut self,
        rt: &(impl Threads + Sync),
        kind: Kind,
        root: u16,
    ) -> Result<Option<u32>, Refused> {
        match self.parts.controller.install(rt, kind, root) {
            Ok(receipt) => {
                self.parts.injector.learn(&receipt);
                Ok(installed_by(&receipt))
            }
            Err(error) => Err(error),
        }
    }

    /// The node at this place learns a receipt.
    pub(crate) fn learn(&mut self, at: usize, receipt: &Receipt) -> Option<()>
        requires { receipt_board receipt.now ≡ writer_board self.old.parts.controller.writer }
        ensures { writer_board self.new.parts.controller.writer ≡ writer_board self.old.parts.controller.writer }
    {
        if at >= self.parts.nodes.len() {
            return None;
        }
        let node = &mut self.parts.nodes[at];
        node.learn(receipt);
        Some(())
    }

    /// Takes away the node at this place.
    pub(crate) fn take_away(&mut self, at: usize) -> Option<Node>
        ensures away { IfSome result (λ n. IsAway self.new.net self.new.parts n) }
        ensures board { writer_board self.new.parts.controller.writer
            ≡ writer_board self.old.parts.controller.writer }
    {
        if at >= self.parts.nodes.len() {
            return None;
        }
        Some(self.parts.nodes.remove(at))
    }

    /// Brings a node back, after the others.
    pub(crate) fn bring_back(&mut self, node: Node) -> Option<()>
        requires { IsAway self.old.net self.old.parts node }
    {
        self.parts.nodes.push(node).ok()
    }

    /// The report, or why there is none and all that there was.
    pub(crate) fn finish<B: Wait>(self, rt: &B) -> Result<Report, (FinishError, ByHand<R>)>
        ensures { IfErr result (λ refused. (refused.1.net ≡ self.net) × (refused.1.parts ≡ self.parts)) }
    {
        let ByHand { net, parts } = self;
        match finish(rt, &net, parts) {
            Ok(report) => Ok(report),
            Err((error, parts)) => Err((error, ByHand { net, parts })),
        }
    }

    /// Whether there is a report, and that became of all packets.
    pub(crate) fn reports<B: Wait>(self, rt: &B, packets: &[Became<'_>]) -> bool {
        match self.finish(rt) {
            Ok(report) => tells_all(&report, packets),
            Err(_) => false,
        }
    }
}
