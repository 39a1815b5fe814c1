//! Links that installs leave out while packets go by them.

use crate::networks::topology_of;
use ir_core::{Event, Fate, Kind, Refused, Reply, World};
use std::alloc::Global;

/// Events, each with its reply.
type Told = (Event, Result<Reply, Refused>);

/// Link 0 is avoided, and a packet goes by it.
const AVOIDED: [Told; 5] = [
    (Event::Avoid(0), Ok(Reply::Changed)),
    (Event::Avoid(0), Err(Refused::Same)),
    (Event::Heed(1), Err(Refused::Same)),
    (Event::Avoid(3), Err(Refused::NoLink)),
    (Event::Inject(0, 1), Ok(Reply::Injected(0))),
];

/// Two installs leave it out, and it goes down.
const DOWN: [Told; 6] = [
    (Event::Install(Kind::Shortest, 0), Ok(Reply::Installed(2))),
    (Event::Install(Kind::Tree, 1), Ok(Reply::Installed(3))),
    (Event::Learn(3), Ok(Reply::Learnt)),
    (Event::Down(0), Ok(Reply::Changed)),
    (Event::Avoid(0), Err(Refused::LinkDown)),
    (Event::Inject(0, 1), Ok(Reply::Injected(1))),
];

/// It comes up, and is avoided until it is heeded.
const HEEDED: [Told; 7] = [
    (Event::Up(0), Ok(Reply::Changed)),
    (Event::Avoid(0), Err(Refused::Same)),
    (Event::Heed(3), Err(Refused::NoLink)),
    (Event::Heed(0), Ok(Reply::Changed)),
    (Event::Install(Kind::Shortest, 0), Ok(Reply::Installed(4))),
    (Event::Learn(4), Ok(Reply::Learnt)),
    (Event::Inject(0, 1), Ok(Reply::Injected(2))),
];

/// Whether events have these replies, with a drain after them.
fn are_told(world: &mut World, events: &[Told]) -> bool {
    for (event, reply) in events {
        if world.apply(*event) != *reply {
            return false;
        }
    }
    world.drain();
    true
}

/// Whether a packet was delivered over these hops.
fn went(world: &World, id: u32, hops: &[u16]) -> bool {
    match world.packet(id) {
        Some(record) => record.fate == Fate::Delivered && record.hops.as_slice() == hops,
        None => false,
    }
}

/// Whether the newest board heeds link 0, and which of three links installs use by it.
fn used(alloc: Global, world: &World) -> Option<(bool, [bool; 3])> {
    let newest = world.board_versions().len().checked_sub(1)?;
    let board = world.board_version(newest)?;
    match board.used(alloc, 3).ok()?.as_slice() {
        [first, second, third] => Some((board.is_heeded(0), [*first, *second, *third])),
        _ => None,
    }
}

/// Whether all that is so of three nodes, each linked to each.
fn is_avoided(alloc: Global) -> Option<bool> {
    let topology = topology_of(alloc, &[("a", "b", 1), ("b", "c", 1), ("c", "a", 1)])?;
    let mut world = World::new(alloc, topology, Kind::Shortest, 0, 16, 16, 0).ok()?;
    let is_avoided = are_told(&mut world, &AVOIDED) && went(&world, 0, &[0, 1]);
    let is_left_out = used(alloc, &world)? == (false, [false, true, true]);
    let is_down = are_told(&mut world, &DOWN) && went(&world, 1, &[0, 2, 1]);
    let is_heeded = are_told(&mut world, &HEEDED) && went(&world, 2, &[0, 1]);
    let is_used = used(alloc, &world)? == (true, [true; 3]);
    Some(is_avoided && is_left_out && is_down && is_heeded && is_used)
}

#[test]
fn avoided_links_carry_packets_and_no_plan_uses_them(rt: HostRuntime) {
    assert!(rt; is_avoided(rt.alloc()) == Some(true));
}
