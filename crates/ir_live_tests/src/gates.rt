//! Live runs whose nodes a gate stops early.

use crate::by_hand::{link, network_of, opened, parts_of_path};
use crate::live;
use ir_control::{Command, Live, Net};
use ir_core::{Fate, Kind, Record};
use ir_graph::Graph;
use ir_tables::Topology;
use ir_worker::{Gate, Node, serve};
use std::alloc::Global;
use std::sync::Wait;
use std::sync::atomic::{AtomicBool, Ordering};
use std::test::Fail;
use std::thread::Threads;

// Each node may make so many turns.
#[derive(Drop)]
struct AtMost(u64);

impl Gate for AtMost {
    ghost barred = { λ _ _ _. Unit {0} };

    fn pass(&self, _node: u16, turn: u64) -> bool {
        turn < self.0
    }
}

// Links 64 nodes, n0 to the last, to a ring, and answers whether it could.
fn link_ring(graph: &mut Graph, alloc: Global) -> bool {
    for u in 0..64 {
        if !link(graph, alloc, u, (u + 1) % 64, 1) {
            return false;
        }
    }
    true
}

// The ring.
fn ring(alloc: Global) -> Option<Topology> {
    let mut graph = Graph::new(alloc);
    let is_whole = link_ring(&mut graph, alloc);
    network_of(alloc, &graph, is_whole)
}

// A net of the shortest ways over it, of the greatest capacity.
fn over_ring(rt: &(impl Threads + Sync), alloc: Global) -> Option<Net> {
    let ring = ring(alloc)?;
    opened(rt, alloc, ring, (Kind::Shortest, 0), (1_024, 4_096, 0))
}

// 64 packets from each of 64 nodes of a ring, each to the 31st node after its source, and a drain.
fn around(alloc: Global) -> Option<Vec<Command>> {
    let mut commands = Vec::new(alloc);
    for id in 0..4_096u16 {
        let source = id / 64;
        let there = Command::Inject(source, (source + 31) % 64);
        commands.push(there).ok()?;
    }
    commands.push(Command::Drain).ok()?;
    Some(commands)
}

// The node that follows these hops, where they are a beginning of the way around the ring from a node on.
fn next_around(hops: &[u16], source: u16) -> Option<u16> {
    let mut next = source;
    for hop in hops {
        if *hop != next {
            return None;
        }
        next = if next < 63 { next + 1 } else { 0 };
    }
    Some(next)
}

// Whether a record is that of the packet of this number, and its hops a beginning of its walk. They are the whole walk
// where it was delivered. Else they are less, as where it was dropped since the channel to the next node was full.
fn is_sound(record: &Record, id: u16) -> bool {
    let source = id / 64;
    let hops = record.hops.as_slice();
    let Some(next) = next_around(hops, source) else {
        return false;
    };
    let under_way = !hops.is_empty() && hops.len() < 32;
    let ends = match record.fate {
        Fate::Delivered => hops.len() == 32,
        Fate::Left => under_way,
        Fate::Full { link: _, to } => under_way && to == next,
        Fate::Retired | Fate::Down(_) => false,
    };
    let dest = (source + 31) % 64;
    let head = (record.id, record.epoch, record.source, record.dest);
    ends && head == (u32::from(id), 1, source, dest) && record.restamps.is_empty()
}

// Whether there is a sound record for each of the packets, in order, and none else.
fn all_sound(records: &[Record]) -> bool {
    if records.len() != 4_096 {
        return false;
    }
    for id in 0..4_096u16 {
        if !is_sound(&records[usize::from(id)], id) {
            return false;
        }
    }
    true
}

// How many packets were delivered.
fn delivered(records: &[Record]) -> u64 {
    let mut count: u64 = 0;
    for record in records {
        if record.fate == Fate::Delivered {
            count = count.saturating_add(1);
        }
    }
    count
}

// Whether all records are sound of nodes that make so many turns each; of these each packet that is delivered takes 32.
fn is_stopped(live: &Live, turns: u64) -> bool {
    let records = live.report.records.as_slice();
    live.refusals.is_empty() && all_sound(records) && delivered(records) <= turns.saturating_mul(2)
}

// Whether a live run over a net is stopped so.
fn stops_over<R: Threads + Wait + Sync>(
    rt: &R,
    net: &Net,
    commands: &[Command],
    turns: u64,
) -> bool {
    match live::run(rt, net, commands, &AtMost(turns)) {
        Some(live) => is_stopped(&live, turns),
        None => false,
    }
}

// Whether one over the ring is.
fn stops<R: Threads + Wait + Sync>(rt: &R, alloc: Global, turns: u64) -> Option<bool> {
    let commands = around(alloc)?;
    match over_ring(rt, alloc) {
        Some(net) => Some(stops_over(rt, &net, commands.as_slice(), turns)),
        None => None,
    }
}

#[test]
fn nodes_stop_with_4096_packets_on_their_ways(rt: HostRuntime) -> Result<(), Fail> {
    for turns in &[0u64, 40, 1_000] {
        if stops(&rt, rt.alloc(), *turns) != Some(true) {
            return Err("other records".into());
        }
    }
    Ok(())
}

// A node may make so many turns, and the gate keeps whether it asked for one more.
#[derive(Drop)]
struct UpTo {
    turns: u64,
    asked: AtomicBool,
}

impl Gate for UpTo {
    ghost barred = { λ _ _ _. Unit {0} };

    fn pass(&self, _node: u16, turn: u64) -> bool {
        if turn < self.turns {
            return true;
        }
        self.asked.store(true, Ordering::SeqCst);
        false
    }
}

// The first node of a path.
fn first_node<R: Threads + Wait + Sync>(rt: &R, alloc: Global) -> Option<Node> {
    match parts_of_path(rt, alloc, 16, 0) {
        Some(mut hands) => hands.take_away(0),
        None => None,
    }
}

// Whether a node makes as many turns as it may, and asks for one more.
fn turns_out<R: Wait>(rt: &R, node: Node) -> bool {
    let gate = UpTo {
        turns: 5_100_000,
        asked: AtomicBool::new(false),
    };
    let stop = AtomicBool::new(false);
    let (_node, why) = serve(rt, node, &gate, &stop);
    why.is_none() && gate.asked.load(Ordering::SeqCst)
}

#[test]
fn a_node_turns_as_often_as_it_may(rt: HostRuntime) -> Result<(), Fail> {
    let Some(node) = first_node(&rt, rt.alloc()) else {
        return Err("no node".into());
    };
    assert!(rt; turns_out(&rt, node));
    Ok(())
}
