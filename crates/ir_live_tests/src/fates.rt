//! Live runs by what becomes of their packets where a gate holds a node back: full, retired, restamped and delivered,
//! with a drain after each. Also as many packets as there may be, to their ends.

use crate::by_hand::{Became, over_edges, path, tells_all};
use crate::live;
use ir_control::{Command, Live, Net};
use ir_core::{Fate, Kind, Record, Restamp};
use ir_worker::Gate;
use std::alloc::Global;
use std::sync::Wait;
use std::test::Fail;
use std::thread;
use std::thread::Threads;
use std::time::{Clock, Duration};

// A node makes its first turn once a packet is settled. Other nodes may go on at once.
#[derive(Drop)]
struct Held<'a> {
    net: &'a Net,
    node: u16,
}

impl Gate for Held<'_> {
    ghost barred = { λ _ _ _. Unit {0} };

    fn pass(&self, node: u16, turn: u64) -> bool {
        if node != self.node || turn != 0 {
            return true;
        }
        for _look in 0..10_000_000u32 {
            if self.net.settled() != 0 {
                return true;
            }
            thread::yield_now();
        }
        false
    }
}

// A live run of commands, where none is refused.
fn run_all<R: Threads + Wait + Sync, G: Gate>(
    rt: &R,
    net: &Net,
    commands: &[Command],
    gate: &G,
) -> Option<Live> {
    let live = live::run(rt, net, commands, gate)?;
    if live.refusals.is_empty() {
        Some(live)
    } else {
        None
    }
}

// The same over the path while a node is held.
fn run_held<R: Threads + Wait + Sync>(
    rt: &R,
    alloc: Global,
    limits: (usize, u8),
    node: u16,
    commands: &[Command],
) -> Option<Live> {
    let net = path(rt, alloc, limits.0, limits.1)?;
    run_all(rt, &net, commands, &Held { net: &net, node })
}

/// A packet from b to c that is delivered.
const OVER: Became<'static> = Became {
    epoch: 1,
    hops: &[1, 2],
    restamps: &[],
    fate: Fate::Delivered,
};

/// Two packets that meet at b, before a channel to c that holds one and that c does not poll until one of them is
/// dropped; and a third after a drain.
const MEETING: [Command; 5] = [
    Command::Inject(0, 2),
    Command::Inject(1, 2),
    Command::Drain,
    Command::Inject(1, 2),
    Command::Drain,
];

/// The second of two packets is dropped, since a channel is full.
static SECOND_DROPPED: [Became<'static>; 3] = [
    Became {
        hops: &[0, 1, 2],
        ..OVER
    },
    Became {
        hops: &[1],
        fate: Fate::Full { link: 1, to: 2 },
        ..OVER
    },
    OVER,
];

/// The first of them is.
static FIRST_DROPPED: [Became<'static>; 3] = [
    Became {
        hops: &[0, 1],
        fate: Fate::Full { link: 1, to: 2 },
        ..OVER
    },
    OVER,
    OVER,
];

// Whether one of two packets is dropped.
fn is_one_dropped<R: Threads + Wait + Sync>(rt: &R, alloc: Global) -> bool {
    match run_held(rt, alloc, (1, 0), 2, &MEETING) {
        Some(live) => {
            let report = &live.report;
            tells_all(report, &SECOND_DROPPED) || tells_all(report, &FIRST_DROPPED)
        }
        None => false,
    }
}

#[test]
fn full_with_a_drain_behind_each(rt: HostRuntime) {
    assert!(rt; is_one_dropped(&rt, rt.alloc()));
}

/// A packet that waits at a until its epoch is retired and the next packet has arrived; and a third after a drain.
const WAITING: [Command; 7] = [
    Command::Inject(0, 2),
    Command::Install(Kind::Shortest, 0),
    Command::Retire(2),
    Command::Inject(2, 1),
    Command::Drain,
    Command::Inject(0, 2),
    Command::Drain,
];

/// How many restamps there may be, and what becomes of the packets.
static RETIRED: [(u8, &'static [Became<'static>]); 2] = [
    (
        0,
        &[
            Became {
                epoch: 1,
                hops: &[0],
                restamps: &[],
                fate: Fate::Retired,
            },
            BACK,
            AGAIN,
        ],
    ),
    (
        1,
        &[
            Became {
                epoch: 1,
                hops: &[0, 1, 2],
                restamps: &[Restamp { epoch: 2, from: 0 }],
                fate: Fate::Delivered,
            },
            BACK,
            AGAIN,
        ],
    ),
];

const BACK: Became<'static> = Became {
    epoch: 2,
    hops: &[2, 1],
    restamps: &[],
    fate: Fate::Delivered,
};

const AGAIN: Became<'static> = Became {
    epoch: 2,
    hops: &[0, 1, 2],
    restamps: &[],
    fate: Fate::Delivered,
};

fn waits<R: Threads + Wait + Sync>(
    rt: &R,
    alloc: Global,
    restamps: u8,
    packets: &[Became<'_>],
) -> bool {
    match run_held(rt, alloc, (16, restamps), 0, &WAITING) {
        Some(live) => tells_all(&live.report, packets),
        None => false,
    }
}

#[test]
fn retired_or_restamped_where_it_waits(rt: HostRuntime) -> Result<(), Fail> {
    for (restamps, packets) in &RETIRED {
        if !waits(&rt, rt.alloc(), *restamps, packets) {
            return Err("other packets".into());
        }
    }
    Ok(())
}

// Node 0 sleeps for some time before its first turn. Other nodes may go on at once.
#[derive(Drop)]
struct Late<'a, C> {
    clock: &'a C,
}

impl<C: Clock + Sync> Gate for Late<'_, C> {
    ghost barred = { λ _ _ _. Unit {0} };

    fn pass(&self, node: u16, turn: u64) -> bool {
        if node == 0 && turn == 0 {
            thread::sleep(self.clock, Duration::from_millis(300));
        }
        true
    }
}

/// One node, number 0, and four around it, 1 to 4.
static STAR: [(&'static str, &'static str); 4] = [
    ("hub", "a"),
    ("hub", "b"),
    ("hub", "c"),
    ("hub", "d"),
];

// 1,024 packets from each of the four nodes to the one in their middle, and a drain.
fn inwards(alloc: Global) -> Option<Vec<Command>> {
    let mut commands = Vec::new(alloc);
    for id in 0..4_096u16 {
        commands.push(Command::Inject(id / 1_024 + 1, 0)).ok()?;
    }
    commands.push(Command::Drain).ok()?;
    Some(commands)
}

// Whether all of them were delivered over one link.
fn all_inwards(records: &[Record]) -> bool {
    if records.len() != 4_096 {
        return false;
    }
    for id in 0..4_096u16 {
        let record = &records[usize::from(id)];
        let hops = [id / 1_024 + 1, 0];
        if record.fate != Fate::Delivered || record.hops.as_slice() != hops.as_slice() {
            return false;
        }
    }
    true
}

// Whether all are delivered over a net.
fn settles_over<R: Threads + Wait + Sync, C: Clock + Sync>(
    rt: &R,
    clock: &C,
    net: &Net,
    commands: &[Command],
) -> bool {
    match run_all(rt, net, commands, &Late { clock }) {
        Some(live) => all_inwards(live.report.records.as_slice()),
        None => false,
    }
}

// Whether all are delivered over the shortest ways where the inboxes have room for all packets together. By the time
// that the node in the middle makes its first turn they wait for it, and it settles them all.
fn settles_all<R: Threads + Wait + Sync, C: Clock + Sync>(
    rt: &R,
    clock: &C,
    alloc: Global,
) -> Option<bool> {
    let commands = inwards(alloc)?;
    match over_edges(rt, alloc, &STAR, (Kind::Shortest, 0), (1_024, 4_096, 0)) {
        Some(net) => Some(settles_over(rt, clock, &net, commands.as_slice())),
        None => None,
    }
}

#[test]
fn as_many_packets_as_there_may_be_to_their_ends(rt: HostRuntime) {
    assert!(rt; settles_all(&rt, &rt, rt.alloc()) == Some(true));
}
