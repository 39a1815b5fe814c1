ghost use Rattle.std.specs.Prelude.{◌≡◌, ◌<◌, false};
ghost use Rattle.ir_model.specs.{Topology.node_count, Plan.node_in};
ghost use Rattle.ir_core.specs.Entry.{judged, decided, way_of};

use crate::board::Board;
use crate::event::{Action, Verdict, Way};
use ir_plan::Plan;

/// What comes of a packet, where each channel has room. Takes O(log k), for k starts of the row.
pub fn judge(plan: &Plan, board: &Board, way: Way, at: u16, stamp: u32, address: u16) -> Verdict
    requires at_in { at < node_count plan.now.topology }
    requires address_in { address < node_count plan.now.topology }
    ensures { result ≡ judged plan.now board.now (λ _. false) way at stamp (node_in plan.now address) }
{
    if let Way::Link(link) = way
        && !board.is_up(link)
    {
        return Verdict::CameByDown(link);
    }
    if stamp < board.floor() {
        return Verdict::BelowFloor;
    }
    plan.invariant();
    let Some(port) = plan.port(at, address) else {
        return Verdict::Arrives;
    };
    let hop = plan.hop(at, port);
    if board.is_up(hop.link) {
        Verdict::GoesOn(hop)
    } else {
        Verdict::LeavesByDown(hop.link)
    }
}

/// Decides what a node does with a packet that it took from its inbox (`None`) or by a link. It is given the plan of
/// the packet's stamp and the board of the node's view. The first of these holds: the packet came by a link that is
/// down; its epoch is retired; it has arrived, by its address; its next link is down. Else it is sent over a port. A
/// packet of a retired epoch is restamped while `left` is above 0. The caller then records the node as a hop, if the
/// packet came by a link, and takes the board's current epoch and the destination's label in it. It decides again over
/// the same board. Whether the channel of the port has room is not asked. `at` is a node and `address` a label of the
/// plan. Takes O(log k), for k starts of the row. For users of the library.
pub fn decide(
    plan: &Plan,
    board: &Board,
    came_by: Option<u32>,
    at: u16,
    stamp: u32,
    address: u16,
    left: u8,
) -> Action
    requires at_in { at < node_count plan.now.topology }
    requires address_in { address < node_count plan.now.topology }
    ensures { result ≡ decided plan.now board.now (way_of came_by) at stamp (node_in plan.now address) left }
{
    let way = match came_by {
        None => Way::Inbox,
        Some(link) => Way::Link(link),
    };
    match judge(plan, board, way, at, stamp, address) {
        Verdict::CameByDown(link) | Verdict::LeavesByDown(link) => Action::DropDown(link),
        Verdict::BelowFloor => {
            if left > 0 {
                Action::Restamp
            } else {
                Action::DropRetired
            }
        }
        Verdict::Arrives => Action::Deliver,
        Verdict::NoRoom(_) | Verdict::GoesOn(_) => Action::Send(
            plan.port(at, address).unwrap_or(0),
        ),
    }
}
