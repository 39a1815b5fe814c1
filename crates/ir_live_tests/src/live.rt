//! Live runs: over the path a, b, c, and of nodes that wait for one another.
use crate::by_hand::{Became, network, over_edges, path, tells_all};
use ir_control::{Command, Injector, Live, LiveError, Net, Starter, run_live};
use ir_core::{Fate, Kind, Refused};
use ir_worker::{Gate, Node};
use std::alloc::Global;
use std::sync::Wait;
use std::sync::atomic::{AtomicBool, AtomicU32, Ordering};
use std::test::Fail;
use std::thread;
use std::thread::{SpawnError, Threads};

/// Each node may go on.
struct Open;

impl Gate for Open {
    ghost barred = { λ _ _ _. Unit {0} };

    fn pass(&self, _node: u16, _turn: u64) -> bool {
        true
    }
}

// No node may make a turn.
struct Shut;

impl Gate for Shut {
    ghost barred = { λ _ _ _. Unit {0} };

    fn pass(&self, _node: u16, _turn: u64) -> bool {
        false
    }
}

// All threads are started but that of this node.
struct AllBut(u16);

impl Starter for AllBut {
    ghost unstarted = { λ _ _. Unit {0} };

    ghost came_back = { λ _ _. Unit {0} };

    ghost was_closed = { λ _ _. Unit {0} };

    ghost was_stopped = { λ _. Unit {0} };

    fn starts(&self, node: u16) -> bool {
        node != self.0
    }

    fn refused<F: Drop>(&self, _node: u16, _error: SpawnError<F>) {}

    fn closes(&self, _injector: &Injector) {}

    fn takes_back(&self, _node: &Node) {}

    fn is_stopped(&self, flag: &AtomicBool) -> bool {
        flag.load(Ordering::SeqCst)
    }

    fn stops(&self, flag: &AtomicBool) {
        flag.store(true, Ordering::SeqCst);
    }
}

// Each node comes to its first turn, and goes on once so many have come. `met` counts those that saw all others.
#[derive(Drop)]
struct Meeting {
    nodes: u32,
    come: AtomicU32,
    met: AtomicU32,
}

impl Gate for Meeting {
    ghost barred = { λ _ _ _. Unit {0} };

    fn pass(&self, _node: u16, turn: u64) -> bool {
        if turn != 0 {
            return true;
        }
        self.come.fetch_add(1, Ordering::SeqCst);
        for _look in 0..1_000_000u32 {
            if self.come.load(Ordering::SeqCst) >= self.nodes {
                self.met.fetch_add(1, Ordering::SeqCst);
                return true;
            }
            thread::yield_now();
        }
        false
    }
}

/// What a live run with a thread for each node answers.
pub(crate) fn run<R: Threads + Wait + Sync, G: Gate>(
    rt: &R,
    net: &Net,
    commands: &[Command],
    gate: &G,
) -> Option<Live> {
    let stop = AtomicBool::new(false);
    run_live(rt, net, commands, gate, &stop, rt).ok()
}

fn error<R: Threads + Wait + Sync, S: Starter>(
    rt: &R,
    net: &Net,
    starter: &S,
) -> Option<LiveError> {
    let stop = AtomicBool::new(false);
    run_live(rt, net, &[Command::Drain], &Open, &stop, starter).err()
}

/// A packet that is left at node 0.
const LEFT: Became<'static> = Became {
    epoch: 1,
    hops: &[0],
    restamps: &[],
    fate: Fate::Left,
};

/// A packet that is delivered over link 1.
const OVER: Became<'static> = Became {
    epoch: 1,
    hops: &[1, 2],
    restamps: &[],
    fate: Fate::Delivered,
};

/// Commands over the path, of which four are refused.
const COMMANDS: [Command; 7] = [
    Command::Down(0),
    Command::Install(Kind::Tree, 1),
    Command::Retire(2),
    Command::Retire(1),
    Command::Inject(1, 2),
    Command::Inject(0, 3),
    Command::Drain,
];

static REFUSED: [(usize, Refused); 4] = [
    (1, Refused::Disconnected),
    (2, Refused::NoEpoch),
    (3, Refused::Same),
    (5, Refused::NoNode),
];

// Whether the commands are refused in their places, and the packet is delivered.
fn are_run<R: Threads + Wait + Sync>(rt: &R, net: &Net) -> bool {
    match run(rt, net, &COMMANDS, &Open) {
        Some(live) => {
            live.refusals.as_slice() == REFUSED.as_slice() && tells_all(&live.report, &[OVER])
        }
        None => false,
    }
}

// Whether they are run so, and the net is then spent.
fn runs_once<R: Threads + Wait + Sync>(rt: &R, alloc: Global) -> bool {
    match path(rt, alloc, 16, 0) {
        Some(net) => are_run(rt, &net) && error(rt, &net, rt) == Some(LiveError::Spent),
        None => false,
    }
}

#[test]
fn refusals_with_their_places_and_then_spent(rt: HostRuntime) {
    assert!(rt; runs_once(&rt, rt.alloc()));
}

// Whether that becomes of the packets of a live run.
fn ends<R: Threads + Wait + Sync, G: Gate>(
    rt: &R,
    net: &Net,
    commands: &[Command],
    gate: &G,
    packets: &[Became<'_>],
) -> bool {
    match run(rt, net, commands, gate) {
        Some(live) => tells_all(&live.report, packets),
        None => false,
    }
}

// Whether a packet is left where no node may pass.
fn is_left<R: Threads + Wait + Sync>(rt: &R, alloc: Global) -> bool {
    let commands = [Command::Inject(0, 2), Command::Drain];
    match path(rt, alloc, 16, 0) {
        Some(net) => ends(rt, &net, &commands, &Shut, &[LEFT]),
        None => false,
    }
}

#[test]
fn left_at_the_source_where_no_node_may_pass(rt: HostRuntime) {
    assert!(rt; is_left(&rt, rt.alloc()));
}

// Why a run is refused whose second thread is not started, and why the next one over its net.
fn not_started<R: Threads + Wait + Sync>(
    rt: &R,
    alloc: Global,
) -> Option<(Option<LiveError>, Option<LiveError>)> {
    let net = path(rt, alloc, 16, 0)?;
    let first = error(rt, &net, &AllBut(1));
    Some((first, error(rt, &net, rt)))
}

#[test]
fn thread_that_is_not_started(rt: HostRuntime) {
    let wanted = (Some(LiveError::NoThread), Some(LiveError::Spent));
    assert!(rt; not_started(&rt, rt.alloc()) == Some(wanted));
}

/// A packet over the first link, and what becomes of it.
const FIRST: [Command; 2] = [Command::Inject(0, 1), Command::Drain];

static FIRST_BECAME: [Became<'static>; 1] = [Became {
    hops: &[0, 1],
    ..OVER
}];

/// The edges of two nodes, and of a ring of four, each with the number of nodes.
static MEETINGS: [(&'static [(&'static str, &'static str)], u32); 2] = [
    (&[("a", "b")], 2),
    (&[("a", "b"), ("b", "c"), ("c", "d"), ("d", "a")], 4),
];

// Whether all nodes of a net meet, and a packet is delivered over the first link.
fn meet_over<R: Threads + Wait + Sync>(rt: &R, net: &Net, nodes: u32) -> bool {
    let gate = Meeting {
        nodes,
        come: AtomicU32::new(0),
        met: AtomicU32::new(0),
    };
    let is_over = ends(rt, net, &FIRST, &gate, &FIRST_BECAME);
    is_over && gate.met.load(Ordering::SeqCst) == nodes
}

// Whether they do in a net along the tree over these edges.
fn meet<R: Threads + Wait + Sync>(
    rt: &R,
    alloc: Global,
    edges: &[(&str, &str)],
    nodes: u32,
) -> bool {
    match over_edges(rt, alloc, edges, (Kind::Tree, 0), (16, 64, 0)) {
        Some(net) => meet_over(rt, &net, nodes),
        None => false,
    }
}

#[test]
fn nodes_meet(rt: HostRuntime) -> Result<(), Fail> {
    for (edges, nodes) in &MEETINGS {
        if !meet(&rt, rt.alloc(), edges, *nodes) {
            return Err("not all nodes met".into());
        }
    }
    Ok(())
}

/// A link of a ring of three is avoided, carries a packet, and goes down after an install.
const AVOIDED: [Command; 9] = [
    Command::Avoid(0),
    Command::Inject(0, 1),
    Command::Install(Kind::Shortest, 0),
    Command::Drain,
    Command::Down(0),
    Command::Avoid(0),
    Command::Inject(0, 1),
    Command::Heed(0),
    Command::Drain,
];

/// What becomes of the packets: the second has a plan without the link.
static BEFORE_AND_AFTER: [Became<'static>; 2] = [
    Became {
        hops: &[0, 1],
        ..OVER
    },
    Became {
        epoch: 2,
        hops: &[0, 2, 1],
        ..OVER
    },
];

static AVOIDED_REFUSED: [(usize, Refused); 1] = [(5, Refused::LinkDown)];

// Whether that becomes of them in a live run, and one command is refused.
fn is_avoided<R: Threads + Wait + Sync>(rt: &R, alloc: Global) -> bool {
    let edges = [("a", "b"), ("b", "c"), ("c", "a")];
    let Some(net) = over_edges(rt, alloc, &edges, (Kind::Shortest, 0), (16, 64, 0)) else {
        return false;
    };
    match run(rt, &net, &AVOIDED, &Open) {
        Some(live) => {
            live.refusals.as_slice() == AVOIDED_REFUSED.as_slice()
                && tells_all(&live.report, &BEFORE_AND_AFTER)
        }
        None => false,
    }
}

#[test]
fn link_that_is_avoided(rt: HostRuntime) {
    assert!(rt; is_avoided(&rt, rt.alloc()));
}

// Whether the example in the doc comment of a net is so.
fn net_example<R: Threads + Wait + Sync>(rt: &R, alloc: Global) -> Option<bool> {
    let topology = network(alloc, &[("a", "b"), ("b", "c")])?;
    let net = Net::new(rt, alloc, topology, Kind::Tree, 0, 16, 64, 0).ok()?;
    let commands = [Command::Inject(1, 2), Command::Drain];
    let stop = AtomicBool::new(false);
    let live = run_live(rt, &net, &commands, &Open, &stop, rt).ok()?;
    let is_so = tells_all(&live.report, &[OVER]);
    Some(is_so)
}

#[test]
fn example_of_a_net(rt: HostRuntime) {
    assert!(rt; net_example(&rt, rt.alloc()) == Some(true));
}
