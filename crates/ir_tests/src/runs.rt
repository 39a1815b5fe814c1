//! Runs of steps that were played by hand: the reply to each step, and what becomes of each packet.

use crate::networks::{HEAVY, PATH, RING};
use crate::openings::{Setting, along_tree};
use ir_core::Event::{Act, Down, Inject, Install, Learn, Read, Retire, Take, Up};
use ir_core::Step::{Drain, Event};
use ir_core::{Fate, Kind, Played, Record, Refused, Reply, Restamp, Step, Way, play};
use std::alloc::Global;
use std::test::Fail;

/// What is answered to a step: its place among the steps, and the reply.
type Told = (usize, Result<Reply, Refused>);

/// What became of a packet: its first epoch, its hops, its restamps and its fate.
type Ended = (u32, &'static [u16], &'static [Restamp], Fate);

/// What is to come of a run of steps: some replies, and all packets by their numbers.
struct Run {
    name: &'static str,
    over: Setting,
    told: &'static [Told],
    packets: &'static [Ended],
}

static RUNS: [Run; 3] = [
    Run {
        name: "refusals in order",
        over: (&PATH, 1, 16, 4096, 0),
        told: &[
            (0, Err(Refused::HandEmpty)),
            (1, Err(Refused::Empty)),
            (2, Err(Refused::BadView)),
            (3, Err(Refused::NoEpoch)),
            (4, Err(Refused::Same)),
            (8, Err(Refused::HandFull)),
            (9, Ok(Reply::Sent(0, 1))),
            (10, Ok(Reply::Changed)),
            (11, Err(Refused::NoChannel)),
            (12, Err(Refused::NoChannel)),
            (13, Err(Refused::NoLink)),
            (14, Err(Refused::NoNode)),
        ],
        packets: &[
            (1, &[0, 1, 2], &[], Fate::Delivered),
            (1, &[0, 1], &[], Fate::Delivered),
        ],
    },
    Run {
        name: "restamped twice",
        over: (&HEAVY, 0, 16, 4096, 2),
        told: &[],
        packets: &[(
            1,
            &[0, 1, 2, 0, 1, 2, 4],
            &[Restamp { epoch: 2, from: 2 }, Restamp { epoch: 3, from: 3 }],
            Fate::Delivered,
        )],
    },
    // From a to b the far way round, and from c, the last node before b, all the way back: no packet of four nodes that
    // may be restamped once has more hops.
    Run {
        name: "the longest journey round a ring",
        over: (&RING, 0, 1, 1, 1),
        told: &[
            (5, Ok(Reply::Sent(0, 2))),
            (7, Ok(Reply::Sent(0, 3))),
            (14, Ok(Reply::Sent(0, 2))),
        ],
        packets: &[(
            2,
            &[0, 2, 3, 2, 0, 1],
            &[Restamp { epoch: 3, from: 2 }],
            Fate::Delivered,
        )],
    },
];

/// Steps that are refused in order.
fn refused_steps() -> [Step; 15] {
    [
        Event(Act(0)),
        Event(Take(0, Way::Inbox)),
        Event(Read(0, 1)),
        Event(Learn(2)),
        Event(Up(0)),
        Event(Inject(0, 2)),
        Event(Inject(0, 1)),
        Event(Take(0, Way::Inbox)),
        Event(Take(0, Way::Inbox)),
        Event(Act(0)),
        Drain,
        Event(Take(0, Way::Link(1))),
        Event(Take(0, Way::Link(2))),
        Event(Down(2)),
        Event(Act(3)),
    ]
}

/// Steps that restamp a packet twice.
fn restamped_steps() -> [Step; 13] {
    [
        Event(Inject(0, 4)),
        Event(Take(0, Way::Inbox)),
        Event(Act(0)),
        Event(Take(1, Way::Link(0))),
        Event(Act(1)),
        Event(Install(Kind::Shortest, 0)),
        Event(Retire(2)),
        Event(Take(2, Way::Link(2))),
        Event(Read(2, 2)),
        Event(Act(2)),
        Event(Install(Kind::Tree, 0)),
        Event(Retire(3)),
        Drain,
    ]
}

/// Steps that send a packet from a to b the far way round, and from c, the last node before b, all the way back.
fn journey_steps() -> [Step; 16] {
    [
        Event(Down(0)),
        Event(Install(Kind::Shortest, 0)),
        Event(Learn(2)),
        Event(Inject(0, 1)),
        Event(Take(0, Way::Inbox)),
        Event(Act(0)),
        Event(Take(2, Way::Link(1))),
        Event(Act(2)),
        Event(Up(0)),
        Event(Down(2)),
        Event(Install(Kind::Shortest, 0)),
        Event(Retire(3)),
        Event(Take(3, Way::Link(3))),
        Event(Read(3, 6)),
        Event(Act(3)),
        Drain,
    ]
}

fn is_told(played: &Played, told: &[Told]) -> bool {
    for (at, reply) in told {
        if played.replies.get(*at) != Some(reply) {
            return false;
        }
    }
    true
}

fn is_ended(record: &Record, ended: &Ended) -> bool {
    let (epoch, hops, restamps, fate) = *ended;
    record.epoch == epoch
        && record.fate == fate
        && record.hops.as_slice() == hops
        && record.restamps.as_slice() == restamps
}

fn have_ended(played: &Played, packets: &[Ended]) -> bool {
    for (id, ended) in packets.iter().enumerate() {
        let Ok(id) = u32::try_from(id) else {
            return false;
        };
        match played.world.packet(id) {
            Some(record) if is_ended(record, ended) => {}
            _ => return false,
        }
    }
    played.world.packets() == packets.len()
}

/// Whether a run of steps comes out as it is to.
fn is_played(alloc: Global, run: &Run, steps: &[Step]) -> bool {
    let Some(opening) = along_tree(alloc, &run.over) else {
        return false;
    };
    match play(alloc, opening, steps) {
        Ok(played) => is_told(&played, run.told) && have_ended(&played, run.packets),
        Err(_) => false,
    }
}

/// The record of a packet that was restamped once and delivered.
fn record(alloc: Global) -> Option<Record> {
    let hops = Vec::from_slice(alloc, &[0, 1, 2]).ok()?;
    let restamps = Vec::from_slice(alloc, &[Restamp { epoch: 2, from: 1 }]).ok()?;
    Record::of(7, 1, 0, 2, hops, Fate::Delivered, restamps).ok()
}

#[test]
fn a_record_of_its_fields(rt: HostRuntime) {
    let ended: Ended = (
        1,
        &[0, 1, 2],
        &[Restamp { epoch: 2, from: 1 }],
        Fate::Delivered,
    );
    let is_so = match record(rt.alloc()) {
        Some(made) => { (made.id, made.source, made.dest) == (7, 0, 2) && is_ended(&made, &ended) }
        None => false,
    };
    assert!(rt; is_so);
}

#[test]
fn runs_by_hand(rt: HostRuntime) -> Result<(), Fail> {
    let (refused, restamped, journey) = (refused_steps(), restamped_steps(), journey_steps());
    let lists: [&[Step]; 3] = [&refused, &restamped, &journey];
    for (i, run) in RUNS.iter().enumerate() {
        if !is_played(rt.alloc(), run, lists[i]) {
            return Err(run.name.into());
        }
    }
    Ok(())
}
