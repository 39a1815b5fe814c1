//! A drain, event by event, as `World::drain` has it, and the lines of what the nodes do.
ghost use Rattle.std.specs.Prelude.{◌≡◌, ℕ, ◌<◌, true, false, ◌||◌, List, IfOk, OnOk, string_bytes};
ghost use Rattle.ir_model.specs.{Graph.names, Topology.ports_of};
ghost use Rattle.ir_core.specs.{Setting.{nodes_of, channel_of}, Entry.Entry, Shows.Shows};
ghost use Rattle.ir_core.specs.Drain.{after_read, after_act, after_way, after_ports, after_visit, after_round};
ghost use Rattle.ir_core.specs.Quiet.{IsHandEmpty, IsUpToDate, IsEmptyAt, ArePortsEmpty, IsQuietAt, IsQuiet, Moves};
ghost use Rattle.ir_steps.specs.Parts.{HasHistory, Plays, AddsText, AddsDrain};

use crate::line::push_line;
use crate::names::Network;
use ir_core::{Event, Way, World};
use std::alloc::AllocError;

/// Plays an event, and writes its line where it is accepted; the answer is whether it is.
fn play(
    world: &mut World,
    text: &mut String,
    net: &Network<'_>,
    line: usize,
    event: Event,
) -> Result<bool, AllocError>
    ensures { IfOk result (λ accepted. Plays (names net.now.graph.now) net.now.topology.now line event accepted
        world.old world.new (string_bytes text.old) (string_bytes text.new)) }
{
    let reply = world.apply(event);
    world.invariant();
    if reply.is_ok() {
        push_line(text, net, line, world, event, reply)?;
    }
    Ok(reply.is_ok())
}

/// A node reads the newest version of the board. To read the one that it read last has no line.
fn read_newest(
    world: &mut World,
    text: &mut String,
    net: &Network<'_>,
    line: usize,
    node: u16,
) -> Result<(), AllocError>
    requires history { HasHistory world.old }
    requires node_in { node < nodes_of world.old.opening }
    ensures moves { OnOk result (Moves (after_read world.old.opening node) false world.old world.new) }
    ensures view { OnOk result (IsUpToDate world.new node) }
    ensures lines { OnOk result (AddsText (names net.now.graph.now) net.now.topology.now line
        (after_read world.old.opening node)
        world.old (string_bytes text.old) (string_bytes text.new)) }
{
    world.invariant();
    let version = world.board_versions().len() - 1;
    let event = Event::Read(node, version);
    if world.view(node) == version {
        world.apply(event).ok();
        world.invariant();
    } else {
        play(world, text, net, line, event)?;
    }
    Ok(())
}

/// A node acts on what it holds, if it holds a packet, and has a line for it; the answer is whether it did.
fn try_act(
    world: &mut World,
    text: &mut String,
    net: &Network<'_>,
    line: usize,
    node: u16,
) -> Result<bool, AllocError>
    requires history { HasHistory world.old }
    requires node_in { node < nodes_of world.old.opening }
    requires view { IsUpToDate world.old node }
    ensures moves { IfOk result (λ acted. Moves (after_act world.old.opening node) acted world.old world.new) }
    ensures idle { IfOk result (λ acted. acted ≡ false → (world.new ≡ world.old) × IsHandEmpty world.old node) }
    ensures hand { OnOk result (IsHandEmpty world.new node) }
    ensures view { OnOk result (IsUpToDate world.new node) }
    ensures lines { OnOk result (AddsText (names net.now.graph.now) net.now.topology.now line
        (after_act world.old.opening node)
        world.old (string_bytes text.old) (string_bytes text.new)) }
{
    world.invariant();
    Ok(play(world, text, net, line, Event::Act(node))?)
}

/// A node takes the first packet of a channel, if there is one, and acts on it; the answer is whether it did.
fn try_way(
    world: &mut World,
    text: &mut String,
    net: &Network<'_>,
    line: usize,
    node: u16,
    way: Way,
) -> Result<bool, AllocError>
    requires history { HasHistory world.old }
    requires node_in { node < nodes_of world.old.opening }
    requires channel { (c : ℕ) × (channel_of world.old.opening node way ≡ Some c) }
    requires hand { IsHandEmpty world.old node }
    requires view { IsUpToDate world.old node }
    ensures moves { IfOk result (λ acted. Moves (after_way world.old.opening node way) acted world.old world.new) }
    ensures idle { IfOk result (λ acted. acted ≡ false → IsEmptyAt world.new node way) }
    ensures hand { OnOk result (IsHandEmpty world.new node) }
    ensures view { OnOk result (IsUpToDate world.new node) }
    ensures lines { OnOk result (AddsText (names net.now.graph.now) net.now.topology.now line
        (after_way world.old.opening node way)
        world.old (string_bytes text.old) (string_bytes text.new)) }
{
    world.invariant();
    play(world, text, net, line, Event::Take(node, way))?;
    Ok(try_act(world, text, net, line, node)?)
}

/// A node takes from the channel of each of its ports, in order, and acts; the answer is whether it had an Act.
fn try_ports(
    world: &mut World,
    text: &mut String,
    net: &Network<'_>,
    line: usize,
    node: u16,
) -> Result<bool, AllocError>
    requires over { net.now.topology.now ≡ world.old.opening.topology }
    requires history { HasHistory world.old }
    requires node_in { node < nodes_of world.old.opening }
    requires hand { IsHandEmpty world.old node }
    requires view { IsUpToDate world.old node }
    ensures moves { IfOk result (λ acted. Moves (after_ports world.old.opening node
        (ports_of world.old.opening.topology node)) acted world.old world.new) }
    ensures idle { IfOk result (λ acted. acted ≡ false → ArePortsEmpty world.new node) }
    ensures lines { OnOk result (AddsText (names net.now.graph.now) net.now.topology.now line
        (after_ports world.old.opening node (ports_of world.old.opening.topology node))
        world.old (string_bytes text.old) (string_bytes text.new)) }
{
    let ports = net.topology.ports(node as usize);
    let mut acted = false;
    for port in 0..ports.len() {
        world.invariant();
        let sent = try_way(world, text, net, line, node, Way::Link(ports[port].link))?;
        acted = either(acted, sent);
    }
    Ok(acted)
}

/// A visit of a node; the answer is whether it had an Act.
fn visit(
    world: &mut World,
    text: &mut String,
    net: &Network<'_>,
    line: usize,
    node: u16,
) -> Result<bool, AllocError>
    requires over { net.now.topology.now ≡ world.old.opening.topology }
    requires history { HasHistory world.old }
    requires node_in { node < nodes_of world.old.opening }
    ensures moves { IfOk result (λ acted. Moves (after_visit world.old.opening node) acted world.old world.new) }
    ensures quiet { IfOk result (λ acted. acted ≡ false → IsQuietAt world.new node) }
    ensures lines { OnOk result (AddsText (names net.now.graph.now) net.now.topology.now line
        (after_visit world.old.opening node)
        world.old (string_bytes text.old) (string_bytes text.new)) }
{
    read_newest(world, text, net, line, node)?;
    let held = try_act(world, text, net, line, node)?;
    let taken = try_way(world, text, net, line, node, Way::Inbox)?;
    let came = try_ports(world, text, net, line, node)?;
    Ok(either(either(held, taken), came))
}

/// A round over all nodes; the answer is whether it had an Act.
fn round(
    world: &mut World,
    text: &mut String,
    net: &Network<'_>,
    line: usize,
) -> Result<bool, AllocError>
    requires over { net.now.topology.now ≡ world.old.opening.topology }
    requires history { HasHistory world.old }
    ensures moves { IfOk result (λ acted. Moves (after_round world.old.opening) acted world.old world.new) }
    ensures quiet { IfOk result (λ acted. acted ≡ false → IsQuiet world.new) }
    ensures lines { OnOk result (AddsText (names net.now.graph.now) net.now.topology.now line
        (after_round world.old.opening)
        world.old (string_bytes text.old) (string_bytes text.new)) }
{
    let nodes = world.nodes();
    let mut acted = false;
    for node in 0..nodes {
        let sent = visit(world, text, net, line, node)?;
        acted = either(acted, sent);
    }
    Ok(acted)
}

/// Rounds until one has no Act, with the lines of what the nodes do in them.
pub fn drain(
    world: &mut World,
    text: &mut String,
    net: &Network<'_>,
    line: usize,
) -> Result<(), AllocError>
    requires over { net.now.topology.now ≡ world.old.opening.topology }
    requires history { HasHistory world.old }
    ensures { OnOk result (AddsDrain (names net.now.graph.now) net.now.topology.now line world.old world.new
        (string_bytes text.old) (string_bytes text.new)) }
{
    world.invariant();
    'rounds: loop {
        let acted = round(world, text, net, line)?;
        if !acted {
            world.invariant();
            return Ok(());
        }
    }
}

/// Whether one of the two is true.
fn either(a: bool, b: bool) -> bool
    ensures { result ≡ a || b }
{
    a || b
}
