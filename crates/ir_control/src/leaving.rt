//! What the nodes settled and what is left in the channels.
ghost use Rattle.std.specs.Prelude.{◌≡◌, ◌≤◌, ◌+◌, ◌++◌, [], ℕ, Some, IfOk, length, map, sum_by, vec_len, vec_capacity};
ghost use Rattle.ir_model.specs.Topology.{node_count};
ghost use Rattle.ir_worker.specs.{Seen.Parcel, Account.{lines_in, lines_out}};
ghost use Rattle.ir_control.specs.{Parts.AreNodesOf, Pairs.ArePaired, Places.way_count, Told.AreSettledIn};
ghost use Rattle.ir_control.specs.Whole.{AreOfNet, StayOfNet};
ghost use Rattle.ir_control.specs.Slots.{times_in_slots, weight_taken, left_in};
ghost use Rattle.ir_control.specs.Reported.{AreEmptyPartRows, AreAllThere, IsGathered};
ghost use Rattle.ir_control.specs.Rowed.{AreEmptyRows, AreEndRows, AreSlotsFrom, AreWeighed};
ghost use Rattle.ir_control.specs.Rowed.{AppendsEnds, HaveRoomFor};

use crate::net::Net;
use crate::outcomes::empty_slots;
use crate::placing::place_all;
use ir_links::{Remains, Sender, Taker, join};
use ir_worker::{Ends, Node, Outcome, Parcel};
use std::alloc::{AllocError, Global};

// Brings the ends of each channel together: a taker's other end is in the slot of its peer.
fn join_all(
    peers: &[usize],
    mut senders: Vec<Option<Sender<Parcel>>>,
    mut takers: Vec<Taker<Parcel>>,
    channels: &mut Vec<Remains<Parcel>>,
)
    requires pairs { ArePaired peers.now senders.items takers.items }
    requires room { vec_len channels.old + length takers.items ≤ vec_capacity channels.old }
    ensures account { (w : Parcel → ℕ)
        → times_in_slots w senders.items + sum_by w (left_in channels.old.items) ≡ weight_taken w takers.items
        + sum_by w (left_in channels.new.items) }
    ensures room { (vec_capacity channels.new ≡ vec_capacity channels.old)
        × (vec_len channels.new ≤ vec_len channels.old + length takers.items) }
    ensures of_net { StayOfNet takers.items (left_in channels.old.items) (left_in channels.new.items) }
{
    while let Some(taker) = takers.pop() {
        let place = peers[takers.len()];
        if let Some(sender) = senders[place].take() {
            channels.push_reserved(join(sender, taker));
        }
    }
}

// Brings the ends of the inboxes together, in order.
fn join_inboxes(
    mut senders: Vec<Sender<Parcel>>,
    mut takers: Vec<Taker<Parcel>>,
    channels: &mut Vec<Remains<Parcel>>,
)
    requires lines { lines_out senders.items ≡ lines_in takers.items }
    requires room { vec_len channels.old + length takers.items ≤ vec_capacity channels.old }
    ensures account { (w : Parcel → ℕ)
        → sum_by (λ s. sum_by w s.sent) senders.items + sum_by w (left_in channels.old.items)
        ≡ weight_taken w takers.items + sum_by w (left_in channels.new.items) }
    ensures room { (vec_capacity channels.new ≡ vec_capacity channels.old)
        × (vec_len channels.new ≤ vec_len channels.old + length takers.items) }
    ensures of_net { StayOfNet takers.items (left_in channels.old.items) (left_in channels.new.items) }
{
    while let Some(taker) = takers.pop() {
        if let Some(sender) = senders.pop() {
            channels.push_reserved(join(sender, taker));
        }
    }
}

// Moves all of a row to the end of another, which has room.
fn append<T: Drop>(into: &mut Vec<T>, mut from: Vec<T>)
    requires { vec_len into.old + vec_len from ≤ vec_capacity into.old }
    ensures items { into.new.items ≡ into.old.items ++ from.items }
    ensures room { vec_capacity into.old ≤ vec_capacity into.new }
{
    if into.append(&mut from).is_err() {
        unreachable!();
    }
}

// Each in a slot of its own, at the end of a row that has room.
fn append_slots<T: Drop>(into: &mut Vec<Option<T>>, from: Vec<T>)
    requires { vec_len into.old + vec_len from ≤ vec_capacity into.old }
    ensures items { into.new.items ≡ into.old.items ++ map (λ x. Some x) from.items }
    ensures room { vec_capacity into.old ≤ vec_capacity into.new }
{
    for item in from {
        into.push_reserved(Some(item));
    }
}

/// Rows for the ends of all nodes, and for what they settled.
#[derive(Drop)]
pub(crate) struct EndRows {
    pub(crate) inboxes: Vec<Taker<Parcel>>,
    pub(crate) takers: Vec<Taker<Parcel>>,
    pub(crate) senders: Vec<Option<Sender<Parcel>>>,
    pub(crate) settled: Vec<Vec<Outcome>>,
}

// A node's ends come to the ends of the rows, which have room.
fn append_ends(node: Node, rows: &mut EndRows)
    requires { HaveRoomFor rows.old node }
    ensures { AppendsEnds rows.old node rows.new }
{
    let Ends {
        inbox,
        ins,
        outs,
        outcomes,
    } = node.into_ends();
    rows.inboxes.push_reserved(inbox);
    append(&mut rows.takers, ins);
    append_slots(&mut rows.senders, outs);
    rows.settled.push_reserved(outcomes);
}

// Takes all nodes of a net apart, by number: their ends come into rows, each at the place of its channel.
fn take_apart(net: &Net, mut slots: Vec<Option<Node>>, rows: &mut EndRows)
    requires slots { AreSlotsFrom net.now 0 slots.items }
    requires start { AreEmptyRows (node_count net.now.topology) (way_count net.now.topology) rows.old }
    ensures rows { AreEndRows net.now (node_count net.now.topology) rows.new }
    ensures weighed { AreWeighed slots.items [] rows.new }
    ensures of_net { AreSettledIn net.now.opening rows.new.settled.items }
{
    for u in 0..net.inboxes.len() {
        let Some(node) = slots[u].take() else {
            unreachable!();
        };
        append_ends(node, rows);
    }
}

/// A slot for each node, and rows for the ends of all nodes.
#[derive(Drop)]
pub(crate) struct PartRows {
    pub(crate) slots: Vec<Option<Node>>,
    pub(crate) ends: EndRows,
}

/// Empty rows for so many nodes and ways.
pub(crate) fn empty_rows(alloc: Global, nodes: usize, ways: usize) -> Result<PartRows, AllocError>
    ensures { IfOk result (λ rows. AreEmptyPartRows nodes ways rows) }
{
    Ok(PartRows {
        slots: empty_slots(alloc, nodes)?,
        ends: EndRows {
            inboxes: Vec::with_capacity(alloc, nodes)?,
            takers: Vec::with_capacity(alloc, ways)?,
            senders: Vec::with_capacity(alloc, ways)?,
            settled: Vec::with_capacity(alloc, nodes)?,
        },
    })
}

/// Takes all nodes apart and brings the ends of all channels together: what the nodes settled, and what is left.
pub(crate) fn left_over(
    net: &Net,
    nodes: Vec<Node>,
    injected: Vec<Sender<Parcel>>,
    rows: PartRows,
    channels: &mut Vec<Remains<Parcel>>,
) -> Vec<Vec<Outcome>>
    requires nodes { AreNodesOf net.now nodes.items }
    requires all { AreAllThere net.now nodes.items }
    requires injected { lines_out injected.items ≡ net.now.inboxes.items }
    requires rows { AreEmptyPartRows (node_count net.now.topology) (way_count net.now.topology) rows }
    requires empty { channels.old.items ≡ [] }
    requires room { node_count net.now.topology + way_count net.now.topology ≤ vec_capacity channels.old }
    ensures gathered { IsGathered nodes.items injected.items result.items (left_in channels.new.items) }
    ensures settled { AreSettledIn net.now.opening result.items }
    ensures left { AreOfNet net.now.opening net.now.restamps (left_in channels.new.items) }
{
    let PartRows {
        mut slots,
        mut ends,
    } = rows;
    place_all(nodes, &mut slots);
    take_apart(net, slots, &mut ends);
    join_inboxes(injected, ends.inboxes, channels);
    join_all(net.peers.as_slice(), ends.senders, ends.takers, channels);
    ends.settled
}
