//! What a node does with a parcel in its hand.
ghost use Rattle.std.specs.Prelude.{◌≡◌, ◌<◌, ◌≤◌, ℕ, false, Some, All, map, length, slice_get};
ghost use Rattle.ir_model.specs.{declared.Hop.Hop, Topology.{node_count, ports_of}, Plan.IsPlan};
ghost use Rattle.ir_core.specs.{declared.TheConstants.MAX_RESTAMPS, Sound.last_of};
ghost use Rattle.ir_core.specs.World.{IsNew, InHand};
ghost use Rattle.ir_epochs.specs.Stamps.{IsOf, knows};
ghost use Rattle.ir_worker.specs.{Seen.{HasRoomOf, IsOfNet, net_place, stamps_of, stamp_now}, Account.lines_out};
ghost use Rattle.ir_worker.specs.Acts.{restamp_on, with_restamp, way_then, parcel_verdict};
ghost use Rattle.ir_worker.specs.{Ends.CameBy, Passed.{IsInHandAt, IsOnItsWay, PassesOn}, Wires.Out};

use crate::parcel::{Outcome, Parcel};
use ir_core::{Board, Hop, Verdict, Way};
use ir_epochs::{Registry, Stamp};
use ir_links::{Moments, Sender};

/// What a node goes by in a turn: its net's plans, opening and limit on restamps, its number, its
/// ports, and the board that it has read.
#[derive(Clone, Copy)]
pub struct Turning<'a> {
    pub registry: &'a Registry,
    pub opening: &'a Stamp,
    pub restamps: u8,
    pub at: u16,
    pub ports: &'a [Hop],
    pub board: &'a Board,
}

/// A parcel in a node's hand, the way by which the node took it, and what is to come of it.
#[derive(Drop)]
pub struct Judged {
    pub parcel: Parcel,
    pub way: Way,
    pub verdict: Verdict,
}

// The port of a hop.
fn port_of_hop(ports: &[Hop], hop: Hop) -> usize
    requires { ∥ ((j : ℕ) × (slice_get ports.now j ≡ Some hop)) ∥₁ }
    ensures { slice_get ports.now result ≡ Some hop }
{
    for j in 0..ports.len() {
        if ports[j] == hop {
            return j;
        }
    }
    unreachable!()
}

// A parcel that a node took, with its verdict by a board. Where its own epoch is retired and more
// restamps are allowed, it has a new segment of the current stamp, and is judged as one from the
// inbox.
pub fn ready(turning: &Turning<'_>, current: Stamp, way: Way, parcel: Parcel) -> Judged
    requires registry { IsOf turning.now.registry.now turning.now.opening.now }
    requires node_in { turning.now.at < node_count (knows turning.now.opening.now).topology }
    requires ports { turning.now.ports.now ≡ ports_of (knows turning.now.opening.now).topology turning.now.at }
    requires allowed { turning.now.restamps ≤ MAX_RESTAMPS }
    requires current { IsOfNet turning.now.opening.now current }
    requires epoch { current.epoch ≡ turning.now.board.now.current }
    requires live { turning.now.board.now.floor ≤ turning.now.board.now.current }
    requires held { IsInHandAt turning.now.opening.now turning.now.restamps turning.now.ports.now turning.now.at
        way parcel }
    requires is_new { IsNew parcel.packet (InHand turning.now.at way) }
    ensures parcel { result.parcel ≡ with_restamp
        (restamp_on turning.now.restamps parcel turning.now.board.now way turning.now.at) current way
        turning.now.at parcel }
    ensures way { result.way
        ≡ way_then (restamp_on turning.now.restamps parcel turning.now.board.now way turning.now.at) way }
    ensures plan { IsPlan (knows (stamp_now result.parcel)) }
    ensures verdict { result.verdict
        ≡ parcel_verdict result.parcel turning.now.board.now false result.way turning.now.at }
    ensures of_net { All (λ s. IsOfNet turning.now.opening.now s) (stamps_of result.parcel.first result.parcel.later) }
    ensures few { length result.parcel.packet.restamps ≤ turning.now.restamps }
    ensures room { HasRoomOf turning.now.opening.now turning.now.restamps result.parcel }
    ensures came { CameBy turning.now.ports.now turning.now.at result.way (last_of result.parcel.packet.hops)
        result.parcel.next }
    ensures under_way { IsOnItsWay result.parcel }
{
    let plan = turning.registry.plan(parcel.stamp());
    plan.invariant();
    let verdict = parcel.judge(plan, turning.board, way, turning.at);
    let left = usize::from(turning.restamps) - parcel.restamped();
    match verdict.restamp(left, turning.board.current()) {
        None => Judged {
            parcel,
            way,
            verdict,
        },
        Some(_) => {
            let newest = turning.registry.plan(&current);
            newest.invariant();
            let parcel = parcel.restamp(current, newest, way, turning.at);
            let again = parcel.judge(newest, turning.board, Way::Inbox, turning.at);
            Judged {
                parcel,
                way: Way::Inbox,
                verdict: again,
            }
        }
    }
}

// Sends a parcel on over the port that its verdict names, or settles it.
pub fn pass_on<R: Moments<Parcel>>(
    rt: &R,
    turning: &Turning<'_>,
    outs: &mut Vec<Sender<Parcel>>,
    judged: Judged,
) -> Result<u16, Outcome>
    requires node_in { turning.now.at < node_count (knows turning.now.opening.now).topology }
    requires ports { turning.now.ports.now ≡ ports_of (knows turning.now.opening.now).topology turning.now.at }
    requires outs { map (λ (s : Out). s.channel.place) outs.old.items
        ≡ map (λ (h : Hop). net_place turning.now.opening.now turning.now.restamps turning.now.at h.node)
        turning.now.ports.now }
    requires plan { IsPlan (knows (stamp_now judged.parcel)) }
    requires verdict { judged.verdict
        ≡ parcel_verdict judged.parcel turning.now.board.now false judged.way turning.now.at }
    requires held { IsInHandAt turning.now.opening.now turning.now.restamps turning.now.ports.now turning.now.at
        judged.way judged.parcel }
    requires under_way { IsOnItsWay judged.parcel }
    ensures acts { PassesOn R.was_full turning.now.board.now turning.now.ports.now turning.now.at
        judged.way judged.parcel outs.old.items result outs.new.items }
    ensures lines { lines_out outs.new.items ≡ lines_out outs.old.items }
{
    let Judged {
        parcel,
        way,
        verdict,
    } = judged;
    let (parcel, hop) = match parcel.act(turning.board, way, turning.at, verdict) {
        Ok(onward) => onward,
        Err(outcome) => return Err(outcome),
    };
    let port = port_of_hop(turning.ports, hop);
    let out = &mut outs[port];
    match out.send(rt, parcel) {
        Ok(()) => Ok(hop.node),
        Err(full) => Err(full.item.refused(hop, turning.board.version())),
    }
}
