//! A live run.
ghost use Rattle.std.specs.{Prelude.{◌≡◌, ℕ, All, IsTrue, IfOk, IfErr, OnOk, Some, None, false, map, slice_get}, Borrow.Bor};
ghost use Rattle.ir_model.specs.Topology.{node_count};
ghost use Rattle.ir_worker.specs.declared.node.Node.{Node};
ghost use mathlib.Core.List.{IsPrefix};
ghost use Rattle.ir_epochs.specs.Handles.{known, published, reader_board, writer_board};
ghost use Rattle.ir_worker.specs.Turns.{MayEnd};
ghost use Rattle.ir_control.specs.{Parts.{AreFirstNodes, IsInjectorOf}, Reports.IsReport};
ghost use Rattle.ir_control.specs.{Agreed.{AreOfOne, Agrees}, Lives.{IsLive, IsRefusal}, Runs.IsUnreported};

use crate::controller::Controller;
use crate::live::{Live, LiveError};
use crate::net::Net;
use crate::report::FinishError;
use crate::reporting::finish;
use crate::starter::Starter;
use crate::working::{By, LiveRun, run_nodes};
use ir_core::Command;
use ir_epochs::{BoardError, Looks, Stamp};
use ir_links::Moments;
use ir_worker::{Flag, Gate, NoMemory, Node, Parcel};
use std::alloc::{AllocError, Global};
use std::sync::Wait;
use std::thread::Threads;

// Sees that the controller published all that these nodes have read.
fn lead_all<B: Wait + Drop>(controller: &mut Controller<B>, nodes: &Vec<Node>)
    requires { All (λ n. reader_board n.reader ≡ writer_board controller.old.writer) nodes.now.items }
    ensures lead { All (λ n. IsPrefix (known n.reader) (published controller.old.writer)) nodes.now.items }
{
    for k in 0..nodes.len() {
        controller.leads(&nodes[k]);
    }
}

// Sees that a stamp knows the plan of each of these that is of its epoch.
fn agree(stamp: &Stamp, plans: &Vec<Stamp>)
    requires { AreOfOne stamp.now plans.now.items }
    ensures { Agrees plans.now.items stamp.now }
{
    for k in 0..plans.len() {
        stamp.same(&plans[k]);
    }
}

// Sees that each of these stamps knows the plan of each that is of its epoch. It changes nothing: the proof learns it.
fn agree_all(stamps: &Vec<Stamp>, plans: &Vec<Stamp>)
    requires { All (λ s. AreOfOne s plans.now.items) stamps.now.items }
    ensures { All (λ s. Agrees plans.now.items s) stamps.now.items }
{
    for k in 0..stamps.len() {
        agree(&stamps[k], plans);
    }
}

// Sees it of the stamps of each row.
fn agree_rows(rows: &Vec<Vec<Stamp>>, plans: &Vec<Stamp>)
    requires { All (λ row. All (λ s. AreOfOne s plans.now.items) row.items) rows.now.items }
    ensures { All (λ row. All (λ s. Agrees plans.now.items s) row.items) rows.now.items }
{
    for k in 0..rows.len() {
        agree_all(&rows[k], plans);
    }
}

// The nodes that came back, unless one had no memory. The starter is shown each.
fn all_back<S: Starter>(
    alloc: Global,
    back: Vec<(Node, Option<NoMemory>)>,
    starter: &S,
) -> Result<Vec<Node>, AllocError>
    ensures nodes { IfOk result (λ nodes. nodes.items ≡ map (λ b. b.0) back.items) }
    ensures served { IfOk result (λ _. All (λ b. b.1 ≡ None) back.items) }
    ensures shown { IfOk result (λ nodes. All (S.came_back starter.now) nodes.items) }
{
    let mut nodes = Vec::with_capacity(alloc, back.len())?;
    for (node, short) in back {
        if short.is_some() {
            return Err(AllocError);
        }
        starter.takes_back(&node);
        nodes.push(node)?;
    }
    Ok(nodes)
}

// The report of a run. The nodes have read nothing that was not published, and the stamps of one epoch know one plan.
fn reported<R: Wait, S: Starter, B: Wait + Drop>(
    rt: &R,
    net: &Net,
    run: LiveRun<B>,
    starter: &S,
) -> Result<Live, LiveError>
    requires nodes { AreFirstNodes net.now (node_count net.now.topology) (map (λ b. b.0) run.back.items) }
    requires injector { IsInjectorOf net.now run.parts.injector }
    requires boards { All (λ n. reader_board n.reader ≡ writer_board run.parts.controller.writer)
        (map (λ b. b.0) run.back.items) }
    requires registry { AreOfOne net.now.opening run.stamps.items }
    ensures report { IfOk result (λ live. IsReport net.now
        (map (λ b. b.0) run.back.items) run.parts.injector live.report) }
    ensures refusals { IfOk result (λ live. live.refusals ≡ run.refusals) }
    ensures served { IfOk result (λ _. All (λ b. b.1 ≡ None) run.back.items) }
    ensures shown { IfOk result (λ _. All (S.came_back starter.now) (map (λ b. b.0) run.back.items)) }
    ensures refused { IfErr result IsUnreported }
    ensures read { IfOk result (λ _. All (λ n. IsPrefix (known n.reader) (published run.parts.controller.writer))
        (map (λ b. b.0) run.back.items)) }
    ensures first { IfOk result (λ live. All (λ s. Agrees run.stamps.items s) live.report.stamps.items) }
    ensures later { IfOk result (λ live. All
        (λ row. All (λ s. Agrees run.stamps.items s) row.items) live.report.later.items) }
{
    let LiveRun {
        back,
        mut parts,
        refusals,
        stamps,
    } = run;
    let Ok(nodes) = all_back(net.alloc(), back, starter) else {
        return Err(LiveError::NoMemory);
    };
    lead_all(&mut parts.controller, &nodes);
    parts.nodes = nodes;
    match finish(rt, net, parts) {
        Ok(report) => {
            agree_all(&report.stamps, &stamps);
            agree_rows(&report.later, &stamps);
            Ok(Live { report, refusals })
        }
        Err((FinishError::NoMemory, _)) => Err(LiveError::NoMemory),
        Err((FinishError::Missing(_), _)) => unreachable!(),
    }
}

/// Starts a thread for each node of a net, which runs `serve_with_bells`, unless the starter says
/// no. Carries out the commands in order, where the injector learns of each install at once, and
/// shows the starter the injector. Then lets the nodes end, waits until each has come back, shows
/// the starter each, and reports what came of each packet. A refused command is among the
/// refusals, and the run goes on. It lets the nodes end by the flag, which it sets. Where others
/// set it before, nodes that do not sleep end sooner.
///
/// A packet is refused for a full inbox only where the push of its inject was refused.
///
/// Refused are: a net whose parts were handed out before (`Spent`), a board without a place for
/// each node's reader (`TooManyReaders`), a thread that was not started (`NoThread`), and want of
/// memory, a node's too. After any answer the net is spent.
pub fn run_live<R: Threads + Moments<Parcel> + Looks<Parcel> + Sync, G: Gate, F: Flag, S: Starter>(
    rt: &R,
    net: &Net,
    commands: &[Command],
    gate: &G,
    stop: &F,
    starter: &S,
) -> Result<Live, LiveError>
    ensures live { IfOk result (λ live. IsLive (Bor R) R.was_full R.was_empty R.looked
        (MayEnd F.was_set G.barred stop.now gate.now) (S.came_back starter.now) (S.was_closed starter.now)
        net.now commands.now live) }
    ensures stopped { OnOk result (F.was_set stop.now) }
    ensures refused { IfErr result (IsRefusal (S.unstarted starter.now) net.now) }
{
    let given = match net.parts(rt) {
        Ok(given) => given,
        Err(BoardError::TooManyReaders) => return Err(LiveError::TooManyReaders),
        Err(BoardError::NoMemory) => return Err(LiveError::NoMemory),
    };
    let Some(parts) = given else {
        return Err(LiveError::Spent);
    };
    let by = By {
        gate,
        stop,
        starter,
    };
    match run_nodes(rt, net, parts, commands, &by) {
        Ok(run) => reported(rt, net, run, starter),
        Err(why) => Err(why),
    }
}
