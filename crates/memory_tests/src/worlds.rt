//! A world, step by step.

use crate::networks::{copy, opening};
use ir_core::{Event, Fate, OpenError, Opening, Refused, Way, World};
use ir_plan::Kind;
use std::alloc::Global;

/// What is seen of a world: its packets and boards, the hops of all packets, and how many packets were delivered.
#[derive(Clone, Copy, PartialEq, Eq)]
struct Sight {
    packets: usize,
    boards: usize,
    hops: usize,
    delivered: usize,
}

/// What is seen of a world.
fn look_at(world: &World) -> Sight {
    let mut hops: usize = 0;
    let mut delivered: usize = 0;
    for id in 0..4 {
        let Some(record) = world.packet(id) else {
            break;
        };
        hops = hops.wrapping_add(record.hops.len());
        if record.fate == Fate::Delivered {
            delivered = delivered.wrapping_add(1);
        }
    }
    Sight {
        packets: world.packets(),
        boards: world.board_versions().len(),
        hops,
        delivered,
    }
}

/// A world of an opening, or none where there was no memory.
fn first(alloc: Global, opening: &Opening) -> Result<Option<World>, &'static str> {
    match World::open(alloc, copy(alloc, opening)?) {
        Ok(world) => Ok(Some(world)),
        Err(OpenError::NoMemory) => Ok(None),
        Err(_) => Err("a world is refused"),
    }
}

/// A world of an opening; again, where there was no memory.
fn opened(alloc: Global, opening: &Opening) -> Result<World, &'static str> {
    if let Some(world) = first(alloc, opening)? {
        return Ok(world);
    }
    match first(alloc, opening)? {
        Some(world) => Ok(world),
        None => Err("a world is refused again"),
    }
}

/// Why an event is refused, if it is.
fn refusal(world: &mut World, event: Event) -> Option<Refused> {
    world.apply(event).err()
}

/// An event, refused for this cause alone; again, where there was no memory and the world is as it was.
fn step(world: &mut World, event: Event, wanted: Option<Refused>) -> Result<(), &'static str> {
    let before = look_at(world);
    let first = refusal(world, event);
    if first == wanted {
        return Ok(());
    }
    if first != Some(Refused::NoMemory) {
        return Err("an event answers something else");
    }
    if look_at(world) != before {
        return Err("a refused event changes the world");
    }
    if refusal(world, event) == wanted {
        Ok(())
    } else {
        Err("an event answers something else the second time")
    }
}

/// An event of a table; an install by its kind, since a static can't hold one.
#[derive(Clone, Copy)]
enum Move {
    Inject(u16, u16),
    Learn(u32),
    Take(u16, Way),
    Act(u16),
    Shortest(u16),
    Compact(u16),
    Retire(u32),
    Down(u32),
    Up(u32),
}

/// The event of a move.
fn event_of(tried: Move) -> Event {
    match tried {
        Move::Inject(source, dest) => Event::Inject(source, dest),
        Move::Learn(epoch) => Event::Learn(epoch),
        Move::Take(node, way) => Event::Take(node, way),
        Move::Act(node) => Event::Act(node),
        Move::Shortest(root) => Event::Install(Kind::Shortest, root),
        Move::Compact(root) => Event::Install(Kind::Compact, root),
        Move::Retire(epoch) => Event::Retire(epoch),
        Move::Down(link) => Event::Down(link),
        Move::Up(link) => Event::Up(link),
    }
}

/// These events, and then a drain.
fn play(world: &mut World, moves: &[(Move, Option<Refused>)]) -> Result<(), &'static str> {
    for (tried, wanted) in moves {
        step(world, event_of(*tried), *wanted)?;
    }
    world.drain();
    Ok(())
}

/// Events by rounds, each with a drain after it, and what is then seen of a world whose channels have this capacity.
pub struct Run {
    capacity: usize,
    rounds: &'static [&'static [(Move, Option<Refused>)]],
    seen: Sight,
}

/// Packets over three epochs, one of them after a link was down and up again. A full inbox, which refuses a packet and
/// takes it when it is empty again, and a full channel, which drops one.
pub static RUNS: [Run; 3] = [
    Run {
        capacity: 2,
        rounds: &[
            &[(Move::Inject(0, 2), None), (Move::Inject(2, 1), None)],
            &[
                (Move::Shortest(0), None),
                (Move::Learn(2), None),
                (Move::Inject(2, 0), None),
            ],
            &[
                (Move::Retire(2), None),
                (Move::Down(1), None),
                (Move::Down(1), Some(Refused::Same)),
                (Move::Up(1), None),
            ],
            &[
                (Move::Compact(2), None),
                (Move::Learn(3), None),
                (Move::Inject(1, 2), None),
            ],
        ],
        seen: Sight {
            packets: 4,
            boards: 6,
            hops: 10,
            delivered: 4,
        },
    },
    Run {
        capacity: 1,
        rounds: &[
            &[
                (Move::Inject(0, 2), None),
                (Move::Inject(0, 1), Some(Refused::InboxFull)),
            ],
            &[(Move::Inject(0, 1), None)],
        ],
        seen: Sight {
            packets: 2,
            boards: 1,
            hops: 5,
            delivered: 2,
        },
    },
    Run {
        capacity: 1,
        rounds: &[&[
            (Move::Inject(0, 2), None),
            (Move::Take(0, Way::Inbox), None),
            (Move::Act(0), None),
            (Move::Inject(0, 2), None),
            (Move::Take(0, Way::Inbox), None),
            (Move::Act(0), None),
        ]],
        seen: Sight {
            packets: 2,
            boards: 1,
            hops: 4,
            delivered: 1,
        },
    },
];

/// The rounds of a run, one after another.
fn play_all(world: &mut World, run: &Run) -> Result<(), &'static str> {
    for events in run.rounds {
        play(world, events)?;
    }
    if look_at(world) == run.seen {
        Ok(())
    } else {
        Err("the world is another one")
    }
}

/// A run over a world of its own.
pub(crate) fn try_world(alloc: Global, run: &Run) -> Result<(), &'static str> {
    let opening = opening(alloc, run.capacity)?;
    let mut world = opened(alloc, &opening)?;
    play_all(&mut world, run)
}
