//! A node that turns on a thread of its own.
ghost use Rattle.std.specs.Prelude.{◌≡◌, ◌<◌, ◌+◌, ◌^◌, ℕ, true, false};
ghost use Rattle.ir_worker.specs.{Same.IsSameNode, Turns.{MayEnd, HasServed}};

use crate::bells::{Bells, Idle};
use crate::node::Node;
use crate::parcel::Parcel;
use ir_epochs::Looks;
use ir_links::Moments;
use std::alloc::AllocError;
use std::marker::PhantomData;
use std::snapshot::Snapshot;
use std::sync::atomic::{AtomicBool, Ordering};
use std::thread::Promise;

/// Tells a node whether it may go on, with a word for a turn that it may not make: so a contract
/// can say that a node ended there. It is asked before each turn.
pub trait Gate: Sync {
    // the node of this number was not let make the turn of this number
    ghost barred: { Self → ℕ → ℕ → Type 0 };

    /// Whether this node may make the turn of this number, counted from 0.
    fn pass(&self, node: u16, turn: u64) -> bool
        ensures { result ≡ false → barred self.now node turn };
}

/// Tells nodes to end, with a word that it was set, which who sets it has, and who finds it set. Each node looks at it
/// before each turn.
pub trait Flag: Sync {
    // it was set
    ghost was_set: { Self → Type 0 };

    /// Whether it is set.
    fn is_set(&self) -> bool
        ensures { result ≡ true → was_set self.now };

    /// Sets it.
    fn set(&self)
        ensures { was_set self.now };
}

impl Flag for AtomicBool {
    ghost was_set = { λ _. Unit {0} };

    fn is_set(&self) -> bool {
        self.load(Ordering::SeqCst)
    }

    fn set(&self) {
        self.store(true, Ordering::SeqCst);
    }
}

/// There was no memory for the outcome that a turn may add.
#[derive(Clone, Copy, Debug, PartialEq, Eq)]
pub struct NoMemory;

impl From<AllocError> for NoMemory {
    fn from(_error: AllocError) -> NoMemory {
        NoMemory
    }
}

// Whether a node ends before the turn of this number.
fn is_over<G: Gate, F: Flag>(node: u16, number: u64, gate: &G, stop: &F) -> bool
    ensures over { result ≡ true → MayEnd F.was_set G.barred stop.now gate.now node number }
    ensures more { result ≡ false → number + 1 < 2 ^ 64 }
{
    stop.is_set() || number == u64::MAX || !gate.pass(node, number)
}

/// What `serve` does, but where it finds nothing it sleeps, once it has looked some times, until
/// its bell is rung; it rings that of a neighbour to which it sent. Who sets the flag rings all: a
/// node that sleeps asks neither gate nor flag.
pub fn serve_with_bells<R: Moments<Parcel> + Looks<Parcel>, G: Gate, F: Flag>(
    rt: &R,
    mut node: Node,
    gate: &G,
    stop: &F,
    bells: &Bells,
) -> (Node, Option<NoMemory>)
    ensures turns { HasServed R.was_full R.was_empty R.looked (MayEnd F.was_set G.barred stop.now gate.now)
        node result.0 result.1 }
    ensures same { IsSameNode node result.0 }
{
    let mut number = 0;
    let mut idle = Idle::new();
    for _ in rt.forever() {
        if is_over(node.index(), number, gate, stop) {
            break;
        }
        let Ok(turn) = node.turn(rt) else {
            stop.set();
            bells.end();
            bells.ring_all();
            return (node, Some(NoMemory));
        };
        idle = bells.after(rt, node.index(), node.degree(), idle, turn);
        number += 1;
    }
    bells.end();
    (node, None)
}

/// Kept by a thread that runs `serve_with_bells` with this gate and this flag: what comes back is
/// the node that went in, of the same net, after a list of turns.
#[derive(Drop)]
pub struct ComesBack<R, G, F> {
    pub node: Snapshot<Node>,
    pub gate: Snapshot<G>,
    pub stop: Snapshot<F>,
    runtime: PhantomData<R>,
}

impl<R, G, F> ComesBack<R, G, F> {
    /// The promise of a node's thread.
    pub fn of(_rt: &R, node: &Node, gate: &G, stop: &F) -> ComesBack<R, G, F>
        ensures node { result.node.value ≡ node.now }
        ensures gate { result.gate.value ≡ gate.now }
        ensures stop { result.stop.value ≡ stop.now }
    {
        ComesBack {
            node: Snapshot::of(node),
            gate: Snapshot::of(gate),
            stop: Snapshot::of(stop),
            runtime: PhantomData,
        }
    }
}

impl<R: Moments<Parcel> + Looks<Parcel>, G: Gate, F: Flag> Promise<(Node, Option<NoMemory>)>
    for ComesBack<R, G, F> {
    ghost kept_by = { λ p r. HasServed R.was_full R.was_empty R.looked
        (MayEnd F.was_set G.barred p.stop.value p.gate.value) p.node.value r.0 r.1 × IsSameNode p.node.value r.0 };
}
