//! A net, turn by turn.
ghost use Rattle.std.specs.Prelude.{◌≡◌, IfOk, IfSome};
ghost use Rattle.ir_model.specs.Topology.{node_count};
ghost use Rattle.ir_worker.specs.Same.{IsSameNode};
ghost use Rattle.ir_control.specs.Parts.{AreFirstNodes, AreFreshParts, AreNodesOf, IsInjectorOf};

use crate::networks::{copy, opening};
use ir_control::{Controller, FinishError, Injector, Net, Parts, Report, finish};
use ir_core::{Fate, OpenError, Opening, Refused};
use ir_epochs::BoardError;
use ir_plan::Kind;
use ir_worker::{Node, Turn};
use std::alloc::Global;
use std::sync::Wait;
use std::thread::Threads;

/// A net of an opening.
pub(crate) fn opened<R: Threads + Sync>(
    rt: &R,
    alloc: Global,
    opening: &Opening,
) -> Result<Net, &'static str> {
    match Net::open(rt, alloc, copy(alloc, opening)?) {
        Ok(net) => return Ok(net),
        Err(OpenError::NoMemory) => {}
        Err(_) => return Err("a net is refused"),
    }
    match Net::open(rt, alloc, copy(alloc, opening)?) {
        Ok(net) => Ok(net),
        Err(_) => Err("a net is refused again"),
    }
}

/// The parts of a net; none where there was no memory, and then it has none left.
fn given<'a, R: Threads + Wait + Sync>(
    rt: &'a R,
    net: &Net,
) -> Result<Option<Parts<&'a R>>, &'static str>
    ensures { IfOk result (λ found. IfSome found
        (λ p. AreFreshParts net.now p.nodes.items p.injector p.controller)) }
{
    match net.parts(rt) {
        Ok(Some(parts)) => return Ok(Some(parts)),
        Ok(None) => return Err("no parts are given"),
        Err(BoardError::NoMemory) => {}
        Err(BoardError::TooManyReaders) => return Err("a board has no place for a reader"),
    }
    match net.parts(rt) {
        Ok(None) => Ok(None),
        _ => Err("parts that were refused are given"),
    }
}

/// A packet for the net; again, where there was no memory and no packet was accepted.
fn inject<R: Wait>(
    rt: &R,
    net: &Net,
    injector: &mut Injector,
    source: u16,
    dest: u16,
) -> Result<(), &'static str>
    requires { IsInjectorOf net.now injector.old }
    ensures { IsInjectorOf net.now injector.new }
{
    let _ = net;
    let before = injector.count();
    match injector.inject(rt, source, dest) {
        Ok(_) => return Ok(()),
        Err(Refused::NoMemory) => {}
        Err(_) => return Err("a packet is refused"),
    }
    if injector.count() != before {
        return Err("a refused packet is accepted");
    }
    match injector.inject(rt, source, dest) {
        Ok(_) => Ok(()),
        Err(_) => Err("a packet is refused again"),
    }
}

/// An install; again, where there was no memory and the board is as it was.
fn install<R: Threads + Wait + Sync>(
    rt: &R,
    controller: &mut Controller<&R>,
) -> Result<(), &'static str> {
    let before = controller.board().version();
    match controller.install(rt, Kind::Shortest, 0) {
        Ok(_) => return Ok(()),
        Err(Refused::NoMemory) => {}
        Err(_) => return Err("an install is refused"),
    }
    if controller.board().version() != before {
        return Err("a refused install changes the board");
    }
    match controller.install(rt, Kind::Shortest, 0) {
        Ok(_) => Ok(()),
        Err(_) => Err("an install is refused again"),
    }
}

/// Whether a turn answered this.
fn answered(turn: Turn, wanted: Turn) -> Result<(), &'static str> {
    if turn == wanted {
        Ok(())
    } else {
        Err("a turn answers something else")
    }
}

/// A turn of a node, which answers this; again, where there was no memory, for then nothing was polled.
#[tactic(auto, using(ir_worker::proofs::Serves::same_then))]
fn turn<R: Wait>(rt: &R, node: &mut Node, wanted: Turn) -> Result<(), &'static str>
    ensures { IsSameNode node.old node.new }
{
    match node.turn(rt) {
        Ok(turn) => return answered(turn, wanted),
        Err(_) => {}
    }
    match node.turn(rt) {
        Ok(turn) => answered(turn, wanted),
        Err(_) => Err("a turn is refused again"),
    }
}

/// A turn of the node of this number, which answers this.
fn turn_at<R: Wait>(
    rt: &R,
    net: &Net,
    nodes: &mut Vec<Node>,
    u: usize,
    wanted: Turn,
) -> Result<(), &'static str>
    requires { AreFirstNodes net.now (node_count net.now.topology) nodes.old.items }
    ensures { AreFirstNodes net.now (node_count net.now.topology) nodes.new.items }
{
    let _ = net;
    if u >= nodes.len() {
        return Err("there is no such node");
    }
    let node = &mut nodes[u];
    turn(rt, node, wanted)
}

/// What is done with the parts of a net.
enum Step {
    Inject(u16, u16),
    Install,
    /// A turn of the node of this number, and what it answers.
    Turn(usize, Turn),
}

/// Does a step with the parts of a net.
fn take<R: Threads + Wait + Sync>(
    rt: &R,
    net: &Net,
    parts: &mut Parts<&R>,
    step: &Step,
) -> Result<(), &'static str>
    requires nodes { AreFirstNodes net.now (node_count net.now.topology) parts.old.nodes.items }
    requires injector { IsInjectorOf net.now parts.old.injector }
    ensures nodes { AreFirstNodes net.now (node_count net.now.topology) parts.new.nodes.items }
    ensures injector { IsInjectorOf net.now parts.new.injector }
{
    match *step {
        Step::Inject(source, dest) => inject(rt, net, &mut parts.injector, source, dest),
        Step::Install => install(rt, &mut parts.controller),
        Step::Turn(u, wanted) => turn_at(rt, net, &mut parts.nodes, u, wanted),
    }
}

/// Does these steps, one after another.
fn take_all<R: Threads + Wait + Sync>(
    rt: &R,
    net: &Net,
    parts: &mut Parts<&R>,
    steps: &[Step],
) -> Result<(), &'static str>
    requires nodes { AreFirstNodes net.now (node_count net.now.topology) parts.old.nodes.items }
    requires injector { IsInjectorOf net.now parts.old.injector }
    ensures nodes { AreFirstNodes net.now (node_count net.now.topology) parts.new.nodes.items }
    ensures injector { IsInjectorOf net.now parts.new.injector }
{
    for step in steps {
        take(rt, net, parts, step)?;
    }
    Ok(())
}

/// The report; again, where there was no memory and the parts came back.
fn report<R: Wait>(rt: &R, net: &Net, parts: Parts<&R>) -> Result<Report, &'static str>
    requires nodes { AreNodesOf net.now parts.nodes.items }
    requires injector { IsInjectorOf net.now parts.injector }
{
    let parts = match finish(rt, net, parts) {
        Ok(report) => return Ok(report),
        Err((FinishError::NoMemory, parts)) => parts,
        Err(_) => return Err("the report is refused"),
    };
    match finish(rt, net, parts) {
        Ok(report) => Ok(report),
        Err(_) => Err("the report is refused again"),
    }
}

/// Whether a report has two packets, with so many hops and these fates.
fn is_report(report: &Report, wanted: &[(usize, Fate); 2]) -> Result<(), &'static str> {
    let [first, second] = report.records.as_slice() else {
        return Err("the report has other packets");
    };
    if [
        (first.hops.len(), first.fate),
        (second.hops.len(), second.fate),
    ] == *wanted
    {
        Ok(())
    } else {
        Err("the report is another one")
    }
}

/// Steps over a net whose channels have this capacity, and the hops and the fate of each of two packets.
pub struct Run {
    capacity: usize,
    steps: &'static [Step],
    packets: [(usize, Fate); 2],
}

/// Two packets over a board that changes; and a packet that waits in a channel, with one that finds it full.
pub static RUNS: [Run; 2] = [
    Run {
        capacity: 2,
        steps: &[
            Step::Inject(0, 2),
            Step::Install,
            Step::Inject(2, 1),
            Step::Turn(0, Turn::Sent(0, 1)),
            Step::Turn(1, Turn::Idle),
            Step::Turn(2, Turn::Sent(1, 1)),
            Step::Turn(0, Turn::Idle),
            Step::Turn(1, Turn::Sent(0, 2)),
            Step::Turn(2, Turn::Settled(0)),
            Step::Turn(1, Turn::Settled(1)),
        ],
        packets: [(3, Fate::Delivered), (2, Fate::Delivered)],
    },
    Run {
        capacity: 1,
        steps: &[
            Step::Inject(0, 2),
            Step::Turn(0, Turn::Sent(0, 1)),
            Step::Inject(0, 2),
            Step::Turn(0, Turn::Idle),
            Step::Turn(0, Turn::Settled(1)),
        ],
        packets: [(1, Fate::Left), (1, Fate::Full { link: 0, to: 1 })],
    },
];

/// A run with the parts of a net.
fn run_with<R: Threads + Wait + Sync>(
    rt: &R,
    net: &Net,
    mut parts: Parts<&R>,
    run: &Run,
) -> Result<(), &'static str>
    requires nodes { AreFirstNodes net.now (node_count net.now.topology) parts.nodes.items }
    requires injector { IsInjectorOf net.now parts.injector }
{
    take_all(rt, net, &mut parts, run.steps)?;
    is_report(&report(rt, net, parts)?, &run.packets)
}

/// Whether a net of an opening gave its parts, and then a run with them.
fn run_over<R: Threads + Wait + Sync>(
    rt: &R,
    alloc: Global,
    opening: &Opening,
    run: &Run,
) -> Result<bool, &'static str> {
    let net = opened(rt, alloc, opening)?;
    match given(rt, &net)? {
        Some(parts) => {
            run_with(rt, &net, parts, run)?;
            Ok(true)
        }
        None => Ok(false),
    }
}

/// A run over a net of an opening; over another one, where there was no memory for the first one's parts.
fn run_over_one<R: Threads + Wait + Sync>(
    rt: &R,
    alloc: Global,
    opening: &Opening,
    run: &Run,
) -> Result<(), &'static str> {
    if run_over(rt, alloc, opening, run)? || run_over(rt, alloc, opening, run)? {
        Ok(())
    } else {
        Err("no other parts are given")
    }
}

/// A run over a net of its own.
pub(crate) fn try_net<R: Threads + Wait + Sync>(
    rt: &R,
    alloc: Global,
    run: &Run,
) -> Result<(), &'static str> {
    let opening = opening(alloc, run.capacity)?;
    run_over_one(rt, alloc, &opening, run)
}
