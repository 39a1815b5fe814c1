//! Moves by hand over the path a, b, c: packets that are delivered, retired, restamped and dropped, and what is
//! refused.
ghost use Rattle.std.specs.Prelude.{◌≡◌};
ghost use Rattle.ir_epochs.specs.Handles.{receipt_board, reader_board};
ghost use Rattle.ir_worker.specs.Same.{IsSameNode};
ghost use Rattle.ir_live_tests.specs.ByHand.{IsAway};

use crate::by_hand::{Became, ByHand, installed_by, parts_of_path, turned};
use ir_control::FinishError;
use ir_core::{Fate, Kind, Refused, Restamp};
use ir_epochs::Receipt;
use ir_worker::{Node, Turn};
use std::alloc::Global;
use std::sync::Wait;
use std::test::Fail;
use std::thread;
use std::thread::Threads;

/// What is done by hand, and what it answers.
#[derive(Clone, Copy)]
enum Move {
    Inject(u16, u16, Result<u32, Refused>),
    /// A turn of a node.
    Turn(usize, Turn),
    /// A link is marked as up, or as down.
    Mark(u32, bool, Result<u32, Refused>),
    /// An install of kind Tree, and why it is refused.
    Install(u16, Option<Refused>),
    /// An install of kind Shortest of which the injector learns, and its epoch.
    InstallAndLearn(u16, u32),
    /// An install of kind Compact that numbers anew, and its epoch.
    Renumber(u16, u32),
    /// A retirement, and why it is refused.
    Retire(u32, Option<Refused>),
    /// Epoch 2 is installed and epoch 1 retired, of which this node learns.
    Renew(usize),
    /// The same, of which node b learns on another thread, where it turns twice; and what these turns do.
    RenewAway(Option<Turn>, Option<Turn>),
}

/// Moves over the path, with this capacity and so many restamps, and what becomes of all packets.
struct Case {
    name: &'static str,
    capacity: usize,
    restamps: u8,
    moves: &'static [Move],
    packets: &'static [Became<'static>],
}

/// A packet that is left at node 0.
const LEFT: Became<'static> = Became {
    epoch: 1,
    hops: &[0],
    restamps: &[],
    fate: Fate::Left,
};

/// A packet that is dropped at node 0, since its epoch is retired.
const RETIRED: Became<'static> = Became {
    fate: Fate::Retired,
    ..LEFT
};

static CASES: [Case; 9] = [
    Case {
        name: "delivered by three nodes",
        capacity: 16,
        restamps: 0,
        moves: &[
            Move::Inject(0, 2, Ok(0)),
            Move::Turn(0, Turn::Sent(0, 1)),
            Move::Turn(1, Turn::Idle),
            Move::Turn(1, Turn::Sent(0, 2)),
            Move::Turn(2, Turn::Idle),
            Move::Turn(2, Turn::Settled(0)),
        ],
        packets: &[Became {
            epoch: 1,
            hops: &[0, 1, 2],
            restamps: &[],
            fate: Fate::Delivered,
        }],
    },
    Case {
        name: "a full channel drops",
        capacity: 1,
        restamps: 0,
        moves: &[
            Move::Inject(0, 2, Ok(0)),
            Move::Turn(0, Turn::Sent(0, 1)),
            Move::Inject(0, 2, Ok(1)),
            Move::Inject(0, 2, Err(Refused::InboxFull)),
            Move::Turn(0, Turn::Idle),
            Move::Turn(0, Turn::Settled(1)),
        ],
        packets: &[
            LEFT,
            Became {
                fate: Fate::Full { link: 0, to: 1 },
                ..LEFT
            },
        ],
    },
    Case {
        name: "retired on its way",
        capacity: 16,
        restamps: 0,
        moves: &[
            Move::Inject(0, 2, Ok(0)),
            Move::Turn(0, Turn::Sent(0, 1)),
            Move::Renew(1),
            Move::Turn(1, Turn::Idle),
            Move::Turn(1, Turn::Settled(0)),
        ],
        packets: &[RETIRED],
    },
    Case {
        name: "restamped on its way",
        capacity: 16,
        restamps: 1,
        moves: &[
            Move::Inject(0, 2, Ok(0)),
            Move::Turn(0, Turn::Sent(0, 1)),
            Move::Renew(1),
            Move::Turn(1, Turn::Idle),
            Move::Turn(1, Turn::Sent(0, 2)),
            Move::Turn(2, Turn::Idle),
            Move::Turn(2, Turn::Settled(0)),
        ],
        packets: &[Became {
            epoch: 1,
            hops: &[0, 1, 2],
            restamps: &[Restamp { epoch: 2, from: 1 }],
            fate: Fate::Delivered,
        }],
    },
    Case {
        name: "retired at its destination",
        capacity: 16,
        restamps: 0,
        moves: &[
            Move::Inject(1, 2, Ok(0)),
            Move::Turn(1, Turn::Sent(0, 2)),
            Move::Renew(2),
            Move::Turn(2, Turn::Idle),
            Move::Turn(2, Turn::Settled(0)),
        ],
        packets: &[Became {
            epoch: 1,
            hops: &[1],
            restamps: &[],
            fate: Fate::Retired,
        }],
    },
    Case {
        name: "restamped at its destination",
        capacity: 16,
        restamps: 1,
        moves: &[
            Move::Inject(1, 2, Ok(0)),
            Move::Turn(1, Turn::Sent(0, 2)),
            Move::Renew(2),
            Move::Turn(2, Turn::Idle),
            Move::Turn(2, Turn::Settled(0)),
        ],
        packets: &[Became {
            epoch: 1,
            hops: &[1, 2],
            restamps: &[Restamp { epoch: 2, from: 1 }],
            fate: Fate::Delivered,
        }],
    },
    Case {
        name: "restamped at its source",
        capacity: 16,
        restamps: 1,
        moves: &[
            Move::Renew(1),
            Move::Inject(1, 2, Ok(0)),
            Move::Turn(1, Turn::Sent(0, 2)),
            Move::Turn(2, Turn::Idle),
            Move::Turn(2, Turn::Settled(0)),
        ],
        packets: &[Became {
            epoch: 1,
            hops: &[1, 2],
            restamps: &[Restamp { epoch: 2, from: 0 }],
            fate: Fate::Delivered,
        }],
    },
    Case {
        name: "changes are refused",
        capacity: 16,
        restamps: 0,
        moves: &[
            Move::Inject(0, 3, Err(Refused::NoNode)),
            Move::Mark(2, false, Err(Refused::NoLink)),
            Move::Mark(0, false, Ok(1)),
            Move::Mark(0, false, Err(Refused::Same)),
            Move::Install(1, Some(Refused::Disconnected)),
            Move::Mark(0, true, Ok(2)),
            Move::Retire(2, Some(Refused::NoEpoch)),
            Move::Retire(1, Some(Refused::Same)),
            Move::Install(3, Some(Refused::NoNode)),
        ],
        packets: &[],
    },
    Case {
        name: "packets have the epoch that was learnt",
        capacity: 16,
        restamps: 0,
        moves: &[
            Move::Install(0, None),
            Move::Inject(0, 2, Ok(0)),
            Move::InstallAndLearn(2, 3),
            Move::Renumber(1, 4),
            Move::Inject(0, 2, Ok(1)),
        ],
        packets: &[LEFT, Became { epoch: 3, ..LEFT }],
    },
];

// Whether a receipt is that of epoch 2, the first change of a board.
fn is_second(receipt: &Receipt) -> bool {
    receipt.version() == 1 && installed_by(receipt) == Some(2)
}

// Whether epoch 2 is installed.
fn is_installed<R: Threads + Wait + Sync>(rt: &R, hands: &mut ByHand<&R>) -> bool {
    match hands.install(rt, Kind::Tree, 1) {
        Ok(receipt) => is_second(&receipt),
        Err(_) => false,
    }
}

// Installs epoch 2 and retires epoch 1, of which a node learns.
fn renewed<R: Threads + Wait + Sync>(rt: &R, hands: &mut ByHand<&R>, at: usize) -> bool {
    if !is_installed(rt, hands) {
        return false;
    }
    match hands.retire(2) {
        Ok(receipt) => hands.learn(at, &receipt).is_some(),
        Err(_) => false,
    }
}

// Whether a move answers as is said.
fn moved<R: Threads + Wait + Sync>(rt: &R, hands: &mut ByHand<&R>, step: Move) -> bool {
    match step {
        Move::Inject(source, dest, answer) => hands.inject(rt, source, dest) == answer,
        Move::Turn(at, turn) => hands.turn(rt, at) == Some(turn),
        Move::Mark(link, up, answer) => hands.mark(link, up) == answer,
        Move::Install(root, why) => hands.install(rt, Kind::Tree, root).err() == why,
        Move::InstallAndLearn(root, epoch) => {
            hands.install_and_learn(rt, Kind::Shortest, root) == Ok(Some(epoch))
        }
        Move::Renumber(root, epoch) => hands.renumber(rt, Kind::Compact, root) == Ok(Some(epoch)),
        Move::Retire(floor, why) => hands.retire(floor).err() == why,
        Move::Renew(at) => renewed(rt, hands, at),
        Move::RenewAway(first, second) => turned_away(rt, hands) == Some((first, second)),
    }
}

// Whether each of these moves answers as is said.
fn all_moved<R: Threads + Wait + Sync>(rt: &R, hands: &mut ByHand<&R>, moves: &[Move]) -> bool {
    for step in moves {
        if !moved(rt, hands, *step) {
            return false;
        }
    }
    true
}

fn is_so<R: Threads + Wait + Sync>(rt: &R, alloc: Global, case: &Case) -> Option<bool> {
    let mut hands = parts_of_path(rt, alloc, case.capacity, case.restamps)?;
    let is_moved = all_moved(rt, &mut hands, case.moves);
    let is_told = hands.reports(rt, case.packets);
    Some(is_moved && is_told)
}

#[test]
fn moves_by_hand(rt: HostRuntime) -> Result<(), Fail> {
    for case in &CASES {
        if is_so(&rt, rt.alloc(), case) != Some(true) {
            return Err(case.name.into());
        }
    }
    Ok(())
}

// Whether there is no report without node 1, and that became of all packets once it is brought back.
fn reports_then<R: Wait, B: Wait + Drop>(
    rt: &R,
    hands: ByHand<B>,
    node: Node,
    packets: &[Became<'_>],
) -> bool
    requires { IsAway hands.net hands.parts node }
{
    match hands.finish(rt) {
        Ok(_) => false,
        Err((error, mut hands)) => {
            let is_back = hands.bring_back(node).is_some();
            let is_told = hands.reports(rt, packets);
            is_back && is_told && error == FinishError::Missing(1)
        }
    }
}

// Whether a net gives its parts once, and a report wants all three nodes.
fn wants_all<R: Threads + Wait + Sync>(rt: &R, alloc: Global) -> Option<bool> {
    let mut hands = parts_of_path(rt, alloc, 16, 0)?;
    let once = hands.handed_out(rt) == (3, true);
    let is_sent = hands.inject(rt, 0, 2) == Ok(0);
    let node = hands.take_away(1)?;
    let is_wanted = reports_then(rt, hands, node, &[LEFT]);
    Some(once && is_sent && is_wanted)
}

#[test]
fn a_report_wants_all_nodes(rt: HostRuntime) {
    assert!(rt; wants_all(&rt, rt.alloc()) == Some(true));
}

// The node after it learnt a receipt and turned twice, and what it did.
fn turned_twice<R: Wait>(
    rt: &R,
    mut node: Node,
    receipt: &Receipt,
) -> (Node, (Option<Turn>, Option<Turn>))
    requires { receipt_board receipt.now ≡ reader_board node.reader }
    ensures { IsSameNode node result.0 }
{
    node.learn(receipt);
    let first = turned(rt, &mut node);
    let second = turned(rt, &mut node);
    (node, (first, second))
}

// The same on another thread, to which the node goes with the receipt.
fn turned_there<R: Threads + Wait + Sync>(
    rt: &R,
    node: Node,
    receipt: Receipt,
) -> (Node, (Option<Turn>, Option<Turn>))
    requires { receipt_board receipt ≡ reader_board node.reader }
    ensures { IsSameNode node result.0 }
{
    let there = move || -> (Node, (Option<Turn>, Option<Turn>))
        requires { receipt_board receipt ≡ reader_board node.reader }
        ensures { IsSameNode node result.0 }
    { turned_twice(rt, node, &receipt) };
    thread::join(rt, there, || ()).0
}

// What node b does on another thread, where it learns that epoch 1 is retired, and turns twice.
fn turned_away<R: Threads + Wait + Sync>(
    rt: &R,
    hands: &mut ByHand<&R>,
) -> Option<(Option<Turn>, Option<Turn>)> {
    if !is_installed(rt, hands) {
        return None;
    }
    let Ok(receipt) = hands.retire(2) else {
        return None;
    };
    let node = hands.take_away(1)?;
    let (node, turns) = turned_there(rt, node, receipt);
    hands.bring_back(node)?;
    Some(turns)
}

/// A packet is sent from a to b before its epoch is retired, and b drops it on another thread.
static AWAY: Case = Case {
    name: "retired on another thread",
    capacity: 16,
    restamps: 0,
    moves: &[
        Move::Inject(0, 2, Ok(0)),
        Move::Turn(0, Turn::Sent(0, 1)),
        Move::RenewAway(Some(Turn::Idle), Some(Turn::Settled(0))),
    ],
    packets: &[RETIRED],
};

#[test]
fn receipt_goes_to_a_node_on_another_thread(rt: HostRuntime) {
    assert!(rt; is_so(&rt, rt.alloc(), &AWAY) == Some(true));
}
