//! Nodes that turn on threads of their own while commands are carried out.
ghost use Rattle.std.specs.Prelude.{◌≡◌, ◌⊎◌, ◌++◌, ◌∷◌, [], Ok, IfOk, IfErr, OnOk, All, map};
ghost use Rattle.ir_worker.specs.Turns.{MayEnd};
ghost use Rattle.ir_control.specs.{Carried.AreTold, Desks.desk_of, Runs.{CameBack, IsNetRun, IsStopped}};
ghost use Rattle.ir_control.specs.declared.live.LiveError.TheVariants as live;

use crate::carrying::carry_out_all;
use crate::live::LiveError;
use crate::net::{Net, Parts};
use crate::starter::Starter;
use ir_core::{Command, Refused};
use ir_epochs::{Looks, Stamp};
use ir_links::Moments;
use ir_worker::{Bells, ComesBack, Flag, Gate, NoMemory, Node, Parcel, serve_with_bells};
use std::alloc::{AllocError, Global};
use std::sync::Wait;
use std::thread::{PromisedHandle, Scope, Threads};
use std::{mem, thread};

/// What a run goes by: what lets a node make a turn, what lets all nodes end, and who says which threads are started.
#[derive(Drop)]
pub(crate) struct By<'a, G, F, S> {
    pub(crate) gate: &'a G,
    pub(crate) stop: &'a F,
    pub(crate) starter: &'a S,
}

/// What came of a run: the nodes that came back, the injector and the controller among parts without nodes, the refused
/// commands, and the stamps of all epochs.
#[derive(Drop)]
pub(crate) struct LiveRun<B: Wait + Drop> {
    pub(crate) back: Vec<(Node, Option<NoMemory>)>,
    pub(crate) parts: Parts<B>,
    pub(crate) refusals: Vec<(usize, Refused)>,
    pub(crate) stamps: Vec<Stamp>,
}

// The thread of a node, which has promised to give the node back.
type Running<R, G, F> = PromisedHandle<(Node, Option<NoMemory>), ComesBack<R, G, F>>;

// Starts the thread of a node, and adds it to those that run. Where it is not started, these are let end.
fn start<'s, E, R: Threads + Moments<Parcel> + Looks<Parcel> + Sync, G: Gate, F: Flag, S: Starter>(
    scope: &Scope<'s, E>,
    rt: &'s R,
    node: Node,
    by: &By<'s, G, F, S>,
    bells: &'s Bells,
    running: &mut Vec<Running<R, G, F>>,
) -> Result<(), LiveError>
    ensures started { OnOk result ((h : _) × (running.new.items ≡ running.old.items ++ h ∷ [])
        × (h.promise.node.value ≡ node)
        × ((h.promise.stop.value ≡ by.now.stop.now) × (h.promise.gate.value ≡ by.now.gate.now))) }
    ensures refused { IfErr result (λ error. (error ≡ live.NoMemory) ⊎
        ((error ≡ live.NoThread) × S.unstarted by.now.starter.now node.index)) }
{
    let (gate, stop, starter) = (by.gate, by.stop, by.starter);
    let index = node.index();
    if !starter.starts(index) {
        stop.set();
        bells.ring_all();
        return Err(LiveError::NoThread);
    }
    let promise = ComesBack::of(rt, &node, gate, stop);
    let handle = match scope.spawn_with(
        promise,
        move || serve_with_bells(rt, node, gate, stop, bells),
    ) {
        Ok(handle) => handle,
        Err(error) => {
            stop.set();
            bells.ring_all();
            starter.refused(index, error);
            return Err(LiveError::NoThread);
        }
    };
    let Ok(()) = running.push(handle) else {
        stop.set();
        bells.ring_all();
        return Err(LiveError::NoMemory);
    };
    Ok(())
}

// Starts a thread for each node, and answers all.
fn start_all<
    's,
    E,
    R: Threads + Moments<Parcel> + Looks<Parcel> + Sync,
    G: Gate,
    F: Flag,
    S: Starter,
>(
    scope: &Scope<'s, E>,
    rt: &'s R,
    alloc: Global,
    nodes: Vec<Node>,
    by: &By<'s, G, F, S>,
    bells: &'s Bells,
) -> Result<Vec<Running<R, G, F>>, LiveError>
    ensures nodes { IfOk result (λ running. map (λ h. h.promise.node.value) running.items ≡ nodes.items) }
    ensures by { IfOk result (λ running. All (λ h. (h.promise.stop.value ≡ by.now.stop.now)
        × (h.promise.gate.value ≡ by.now.gate.now)) running.items) }
    ensures stopped { IfErr result (IsStopped (S.unstarted by.now.starter.now) nodes.items) }
{
    let Ok(mut running) = Vec::with_capacity(alloc, nodes.len()) else {
        return Err(LiveError::NoMemory);
    };
    for node in nodes {
        if let Err(error) = start(scope, rt, node, by, bells, &mut running) {
            return Err(error);
        }
    }
    Ok(running)
}

// Carries out the commands, shows the starter the injector, and sets the flag that lets the nodes end.
fn carry_and_close<
    R: Threads + Moments<Parcel> + Sync,
    G: Gate,
    F: Flag,
    S: Starter,
    B: Wait + Drop,
>(
    rt: &R,
    net: &Net,
    bells: &Bells,
    parts: &mut Parts<B>,
    commands: &[Command],
    by: &By<'_, G, F, S>,
) -> Result<(Vec<(usize, Refused)>, Vec<Stamp>), AllocError>
    requires { parts.old.controller.opening ≡ parts.old.injector.opening }
    ensures told { IfOk result (λ told. AreTold R.was_full commands.now (desk_of parts.old) (desk_of parts.new)
        net.now.opening told.0.items told.1.items) }
    ensures closed { S.was_closed by.now.starter.now parts.new.injector }
    ensures set { F.was_set by.now.stop.now }
{
    let told = carry_out_all(rt, net, bells, parts, commands);
    by.starter.closes(&parts.injector);
    by.stop.set();
    bells.ring_all();
    told
}

// Waits until each node has come back, where the commands were carried out.
fn join_all<R: Threads + Moments<Parcel> + Looks<Parcel> + Sync, G: Gate, F: Flag, T: Drop>(
    rt: &R,
    told: Result<T, AllocError>,
    running: Vec<Running<R, G, F>>,
) -> Result<(Vec<(Node, Option<NoMemory>)>, T), LiveError>
    ensures back { IfOk result (λ ended. (stop : _) (gate : _) →
        All (λ h. (h.promise.stop.value ≡ stop) × (h.promise.gate.value ≡ gate)) running.items →
        CameBack R.was_full R.was_empty R.looked (MayEnd F.was_set G.barred stop gate)
        (map (λ h. h.promise.node.value) running.items) ended.0.items) }
    ensures told { IfOk result (λ ended. told ≡ Ok ended.1) }
    ensures error { IfErr result (λ error. error ≡ live.NoMemory) }
{
    let Ok(told) = told else {
        return Err(LiveError::NoMemory);
    };
    let Ok(back) = thread::join_promised(rt, running) else {
        return Err(LiveError::NoMemory);
    };
    Ok((back, told))
}

/// Starts a thread for each node, carries out the commands, shows the starter the injector, sets the flag that lets the
/// nodes end, and waits until each has come back.
pub(crate) fn run_nodes<
    R: Threads + Moments<Parcel> + Looks<Parcel> + Sync,
    G: Gate,
    F: Flag,
    S: Starter,
    B: Wait + Drop,
>(
    rt: &R,
    net: &Net,
    parts: Parts<B>,
    commands: &[Command],
    by: &By<'_, G, F, S>,
) -> Result<LiveRun<B>, LiveError>
    requires { parts.controller.opening ≡ parts.injector.opening }
    ensures run { IfOk result (IsNetRun R.was_full R.was_empty R.looked
        (MayEnd F.was_set G.barred by.now.stop.now by.now.gate.now) net.now.opening parts.nodes.items (desk_of parts)
        commands.now) }
    ensures closed { IfOk result (λ run. S.was_closed by.now.starter.now run.parts.injector) }
    ensures set { OnOk result (F.was_set by.now.stop.now) }
    ensures stopped { IfErr result (λ error. IsStopped (S.unstarted by.now.starter.now) parts.nodes.items error) }
{
    let alloc = net.alloc();
    let Ok(bells) = Bells::new(alloc, parts.nodes.len()) else {
        return Err(LiveError::NoMemory);
    };
    let bells = &bells;
    thread::scope(
        thread::scope_env(),
        rt,
        move |scope| -> Result<LiveRun<B>, LiveError>
            requires { parts.controller.opening ≡ parts.injector.opening }
            ensures run { IfOk result (IsNetRun R.was_full R.was_empty R.looked
                (MayEnd F.was_set G.barred by.entry.now.stop.now by.entry.now.gate.now) net.entry.now.opening
                parts.nodes.items (desk_of parts) commands.entry.now) }
            ensures closed { IfOk result (λ run. S.was_closed by.entry.now.starter.now run.parts.injector) }
            ensures set { OnOk result (F.was_set by.entry.now.stop.now) }
            ensures stopped { IfErr result
                (λ error. IsStopped (S.unstarted by.entry.now.starter.now) parts.nodes.items error) }
        {
            let mut parts = parts;
            let nodes = mem::replace(&mut parts.nodes, Vec::new(alloc));
            let running = match start_all(scope, rt, alloc, nodes, by, bells) {
                Ok(running) => running,
                Err(error) => return Err(error),
            };
            let told = carry_and_close(rt, net, bells, &mut parts, commands, by);
            let (back, (refusals, stamps)) = match join_all(rt, told, running) {
                Ok(ended) => ended,
                Err(error) => return Err(error),
            };
            Ok(LiveRun {
                back,
                parts,
                refusals,
                stamps,
            })
        },
    )
}
