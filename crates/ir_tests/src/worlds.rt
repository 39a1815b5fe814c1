//! What a world hands out.

use crate::networks::{PATH, topology_of};
use ir_core::{Event, Fate, Kind, Refused, Reply, World};
use std::alloc::Global;

/// The world of a run along a tree of three nodes, each linked to each.
fn opened(alloc: Global) -> Option<World> {
    let topology = topology_of(alloc, &[("a", "b", 1), ("b", "c", 1), ("c", "a", 1)])?;
    World::new(alloc, topology, Kind::Tree, 0, 1, 1, 0).ok()
}

/// Whether a board has the mark of one link down, and that of another up.
fn is_down(world: &World, version: usize, link: u32, other: u32) -> bool {
    match world.board_version(version) {
        Some(board) => board.version() as usize == version
            && !board.is_up(link)
            && board.is_up(other),
        None => false,
    }
}

/// Whether a view is the version that was read last.
fn is_seen(world: &mut World) -> bool {
    let is_changed = world.apply(Event::Down(0)).is_ok();
    let is_read = world.apply(Event::Read(1, 1)).is_ok();
    is_changed
        && is_read
        && world.board_versions().len() == 2
        && is_down(world, 1, 0, 1)
        && world.board_version(2).is_none()
        && world.nodes() == 3
        && (world.view(0), world.view(1)) == (0, 1)
}

/// Whether the one record is that of packet 0, which was delivered.
fn is_first(world: World) -> bool {
    let records = world.into_records();
    match records.as_slice() {
        [record] => record.id == 0 && record.fate == Fate::Delivered,
        _ => false,
    }
}

/// Whether both are so of a packet that a drain delivers before a link goes down.
fn is_handed_out(alloc: Global) -> Option<bool> {
    let mut world = opened(alloc)?;
    let is_injected = world.apply(Event::Inject(0, 2)).is_ok();
    world.drain();
    let is_seen = is_seen(&mut world);
    let is_first = is_first(world);
    Some(is_injected && is_seen && is_first)
}

#[test]
fn views_and_records_are_handed_out(rt: HostRuntime) {
    assert!(rt; is_handed_out(rt.alloc()) == Some(true));
}

/// The world of a run along the path of three nodes, with a plan of kind Tree.
fn path_opened(alloc: Global) -> Option<World> {
    let topology = topology_of(alloc, &PATH)?;
    World::new(alloc, topology, Kind::Tree, 0, 16, 16, 0).ok()
}

/// Whether a link may go down and up so many times.
fn changes(world: &mut World, times: u32) -> bool {
    for _turn in 0..times {
        if world.apply(Event::Down(0)) != Ok(Reply::Changed) {
            return false;
        }
        if world.apply(Event::Up(0)) != Ok(Reply::Changed) {
            return false;
        }
    }
    true
}

/// Whether a link that goes down as the 65,535th change stays so, and no further change is accepted.
fn is_full(world: &mut World) -> bool {
    let is_last = world.apply(Event::Down(0)) == Ok(Reply::Changed);
    let is_same = world.apply(Event::Down(0)) == Err(Refused::Same);
    let is_past = world.apply(Event::Up(0)) == Err(Refused::TooManyChanges);
    let is_other_past = world.apply(Event::Down(1)) == Err(Refused::TooManyChanges);
    is_last && is_same && is_past && is_other_past
}

/// Changes of a board that has no further version, and why each is refused: link 0 is down, epoch 3 is the current one,
/// and none is retired. That there are too many changes is reported last, but before the links that are up are asked
/// for a plan.
const PAST: [(Event, Refused); 10] = [
    (Event::Down(0), Refused::Same),
    (Event::Up(0), Refused::TooManyChanges),
    (Event::Up(1), Refused::Same),
    (Event::Down(1), Refused::TooManyChanges),
    (Event::Down(2), Refused::NoLink),
    (Event::Retire(4), Refused::NoEpoch),
    (Event::Retire(1), Refused::Same),
    (Event::Retire(2), Refused::TooManyChanges),
    (Event::Install(Kind::Tree, 3), Refused::NoNode),
    (Event::Install(Kind::Tree, 0), Refused::TooManyChanges),
];

/// Whether each of these changes is refused so.
fn are_refused(world: &mut World) -> bool {
    for (event, why) in &PAST {
        if world.apply(*event) != Err(*why) {
            return false;
        }
    }
    true
}

/// Whether two installs are changes too, and each change after the last one is refused.
fn is_full_of_all(world: &mut World) -> bool {
    let is_second = world.apply(Event::Install(Kind::Shortest, 0)) == Ok(Reply::Installed(2));
    let is_third = world.apply(Event::Install(Kind::Tree, 1)) == Ok(Reply::Installed(3));
    is_second
        && is_third
        && changes(world, 32_766)
        && world.apply(Event::Down(0)) == Ok(Reply::Changed)
        && are_refused(world)
        && world.board_versions().len() == 65_536
        && world.apply(Event::Inject(1, 2)) == Ok(Reply::Injected(0))
}

#[test]
fn a_board_has_so_many_changes(rt: HostRuntime) {
    let is_so = match path_opened(rt.alloc()) {
        Some(mut world) => changes(&mut world, 32_767) && is_full(&mut world),
        None => false,
    };
    assert!(rt; is_so);
}

#[test]
fn what_a_full_board_refuses(rt: HostRuntime) {
    let is_so = match path_opened(rt.alloc()) {
        Some(mut world) => is_full_of_all(&mut world),
        None => false,
    };
    assert!(rt; is_so);
}
