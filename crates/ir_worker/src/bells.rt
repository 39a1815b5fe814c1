//! Nodes that sleep while nothing comes to them, and are rung awake. Nothing is claimed of it.
//!
//! No ring is lost: who is about to sleep says so first, and then looks once more at all that it
//! would be rung for. Who rings has put that there first, and then looks whether somebody sleeps.

use crate::node::Turn;
use std::alloc::{AllocError, Global};
use std::sync::Wait;
use std::sync::atomic::{AtomicBool, AtomicU32, Ordering};
use std::thread;
use std::thread::Parker;

// How often all ways are polled in vain, and others are given way, before a node is about to sleep.
const LOOKS: u8 = 2;

// A bell beside which one thread sleeps, and which others ring.
#[derive(Drop)]
pub(crate) struct Bell {
    asleep: AtomicBool,
    parker: Parker,
}

impl Bell {
    // Nobody sleeps.
    fn new() -> Bell {
        Bell {
            asleep: AtomicBool::new(false),
            parker: Parker::new(),
        }
    }

    // The thread of this bell is about to sleep: a ring that comes from now on wakes it. It then
    // looks at all that it would be rung for.
    fn lie_down(&self) {
        self.asleep.store(true, Ordering::SeqCst);
    }

    // It found something, and does not sleep.
    fn get_up(&self) {
        self.asleep.store(false, Ordering::SeqCst);
    }

    // Sleeps until the bell has been rung since it lay down. It may also return for no reason.
    fn sleep<R: Wait>(&self, rt: &R) {
        self.parker.park(rt);
        self.get_up();
    }

    // Wakes who sleeps, or is about to.
    fn ring(&self) {
        if self.asleep.load(Ordering::SeqCst) && self.asleep.swap(false, Ordering::SeqCst) {
            self.parker.unpark();
        }
    }
}

/// How long a node has found nothing: so many ways since it last found all of them empty, and how often it did.
#[derive(Clone, Copy)]
pub struct Idle {
    ways: usize,
    looks: u8,
}

impl Idle {
    /// It has found something.
    pub fn new() -> Idle {
        Idle { ways: 0, looks: 0 }
    }
}

/// A bell for each node of a net, and one for who waits until so many packets are settled, or a node has ended.
#[derive(Drop)]
pub struct Bells {
    nodes: Vec<Bell>,
    waiting: Bell,
    wanted: AtomicU32,
    settled: AtomicU32,
    ended: AtomicBool,
}

impl Bells {
    /// Bells of so many nodes. A node that has none does not sleep.
    pub fn new(alloc: Global, nodes: usize) -> Result<Bells, AllocError> {
        let mut bells = Vec::with_capacity(alloc, nodes)?;
        for _node in 0..nodes {
            bells.push(Bell::new())?;
        }
        Ok(Bells::over(bells))
    }

    // Bells of these nodes.
    pub(crate) fn over(nodes: Vec<Bell>) -> Bells {
        Bells {
            nodes,
            waiting: Bell::new(),
            wanted: AtomicU32::new(0),
            settled: AtomicU32::new(0),
            ended: AtomicBool::new(false),
        }
    }

    /// Waits until so many packets are settled in all, or a node has ended. It sleeps meanwhile, and is woken once.
    pub fn wait<R: Wait>(&self, rt: &R, packets: u32) {
        self.wanted.store(packets, Ordering::SeqCst);
        for _ in rt.forever() {
            self.waiting.lie_down();
            if self.settled.load(Ordering::SeqCst) >= packets || self.ended.load(Ordering::SeqCst) {
                break;
            }
            self.waiting.sleep(rt);
        }
        self.waiting.get_up();
    }

    // A packet is settled.
    fn settle(&self) {
        let before = self.settled.fetch_add(1, Ordering::SeqCst);
        if before >= self.wanted.load(Ordering::SeqCst).saturating_sub(1) {
            self.waiting.ring();
        }
    }

    // A node has ended.
    pub(crate) fn end(&self) {
        self.ended.store(true, Ordering::SeqCst);
        self.waiting.ring();
    }

    /// Wakes a node.
    pub fn ring(&self, node: u16) {
        if let Some(bell) = self.nodes.get(usize::from(node)) {
            bell.ring();
        }
    }

    /// Wakes all.
    pub fn ring_all(&self) {
        for bell in &self.nodes {
            bell.ring();
        }
        self.waiting.ring();
    }

    // What a node of so many ways does after a turn: it rings for what it did, or rests where it found nothing.
    pub(crate) fn after<R: Wait>(
        &self,
        rt: &R,
        node: u16,
        ways: usize,
        idle: Idle,
        turn: Turn,
    ) -> Idle {
        match turn {
            Turn::Sent(_, to) => self.ring(to),
            Turn::Settled(_) => self.settle(),
            Turn::Idle if idle.ways < ways => {
                return Idle {
                    ways: idle.ways + 1,
                    looks: idle.looks,
                };
            }
            Turn::Idle => {
                return Idle {
                    ways: 0,
                    looks: self.rest(rt, node, idle.looks),
                };
            }
        }
        Idle::new()
    }

    // Rests after another look at all ways, and answers how many were in vain.
    fn rest<R: Wait>(&self, rt: &R, node: u16, looks: u8) -> u8 {
        let Some(bell) = self.nodes.get(usize::from(node)) else {
            thread::yield_now();
            return 0;
        };
        if looks < LOOKS {
            thread::yield_now();
            return looks + 1;
        }
        if looks == LOOKS {
            bell.lie_down();
            return looks + 1;
        }
        bell.sleep(rt);
        0
    }
}
