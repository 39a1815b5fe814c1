//! One line of a script.
ghost use Rattle.std.specs.Prelude.{◌≡◌, bytes_eq};
ghost use Rattle.ir_model.specs.{Graph.names, OfGraph.topology_of_graph, Text.words_of};
ghost use Rattle.ir_script.specs.Command.{kind_named, event_of_one, event_of_two, event_of_three, step_of, is_of_simulation, command_of};

use crate::fault::ScriptFault;
use crate::word::{link_between, link_of, node_of, number_of};
use ir_adjlist::scan;
use ir_core::{Command, Event, Kind, Step, Way};
use ir_graph::Graph;
use ir_model::Detour;
use ir_tables::Topology;

/// Whether two words are the same.
fn is_word(word: &[u8], wanted: &[u8]) -> bool
    ensures { result ≡ bytes_eq word.now wanted.now }
{
    word == wanted
}

/// The event of a first word that one follows.
fn event_of_one(graph: &Graph, command: &[u8], first: &[u8]) -> Result<Event, ScriptFault>
    ensures { result ≡ event_of_one (names graph.now) command.now first.now }
{
    if is_word(command, b"act") {
        return Ok(Event::Act(node_of(graph, first)?));
    }
    if is_word(command, b"learn") {
        return Ok(Event::Learn(number_of(first)?));
    }
    if is_word(command, b"retire") {
        return Ok(Event::Retire(number_of(first)?));
    }
    Err(ScriptFault::BadCommand)
}

/// The kind that a word names. Landmark plans go round so far.
fn kind_named(detour: Detour, word: &[u8]) -> Result<Kind, ScriptFault>
    ensures { result ≡ kind_named detour word.now }
{
    if is_word(word, b"tree") {
        return Ok(Kind::Tree);
    }
    if is_word(word, b"shortest") {
        return Ok(Kind::Shortest);
    }
    if is_word(word, b"compact") {
        return Ok(Kind::Compact);
    }
    if is_word(word, b"landmark") {
        return Ok(Kind::Landmark(detour));
    }
    Err(ScriptFault::BadCommand)
}

/// The event of a first word that two follow.
fn event_of_two(
    graph: &Graph,
    topology: &Topology,
    detour: Detour,
    command: &[u8],
    first: &[u8],
    second: &[u8],
) -> Result<Event, ScriptFault>
    requires { topology.now ≡ topology_of_graph graph.now }
    ensures { result ≡ event_of_two detour (names graph.now) topology.now command.now first.now second.now }
{
    if is_word(command, b"inject") {
        return Ok(Event::Inject(node_of(graph, first)?, node_of(graph, second)?));
    }
    if is_word(command, b"down") {
        return Ok(Event::Down(link_of(graph, topology, first, second)?));
    }
    if is_word(command, b"up") {
        return Ok(Event::Up(link_of(graph, topology, first, second)?));
    }
    if is_word(command, b"avoid") {
        return Ok(Event::Avoid(link_of(graph, topology, first, second)?));
    }
    if is_word(command, b"heed") {
        return Ok(Event::Heed(link_of(graph, topology, first, second)?));
    }
    if is_word(command, b"read") {
        return Ok(Event::Read(node_of(graph, first)?, number_of(second)? as usize));
    }
    if is_word(command, b"take") && is_word(second, b"inbox") {
        return Ok(Event::Take(node_of(graph, first)?, Way::Inbox));
    }
    if is_word(command, b"install") {
        let kind = kind_named(detour, first)?;
        return Ok(Event::Install(kind, node_of(graph, second)?));
    }
    if is_word(command, b"renumber") {
        let kind = kind_named(detour, first)?;
        return Ok(Event::Renumber(kind, node_of(graph, second)?));
    }
    Err(ScriptFault::BadCommand)
}

/// The event of a first word that three follow.
fn event_of_three(
    graph: &Graph,
    topology: &Topology,
    command: &[u8],
    first: &[u8],
    second: &[u8],
    third: &[u8],
) -> Result<Event, ScriptFault>
    requires { topology.now ≡ topology_of_graph graph.now }
    ensures { result ≡ event_of_three (names graph.now) topology.now command.now first.now second.now third.now }
{
    if is_word(command, b"take") && is_word(second, b"from") {
        let node = node_of(graph, first)?;
        let link = link_between(topology, node, node_of(graph, third)?)?;
        return Ok(Event::Take(node, Way::Link(link)));
    }
    Err(ScriptFault::BadCommand)
}

/// The step that the words of a line name; none where it has no word. Landmark plans go round so far.
pub fn step_of(
    graph: &Graph,
    topology: &Topology,
    detour: Detour,
    words: &[u8],
) -> Result<Option<Step>, ScriptFault>
    requires { topology.now ≡ topology_of_graph graph.now }
    ensures { result ≡ step_of detour (names graph.now) topology.now (words_of words.now) }
{
    let Some((command, rest)) = scan::next_word(words) else {
        return Ok(None);
    };
    let Some((first, rest)) = scan::next_word(rest) else {
        if is_word(command, b"drain") {
            return Ok(Some(Step::Drain));
        }
        return Err(ScriptFault::BadCommand);
    };
    let Some((second, rest)) = scan::next_word(rest) else {
        return Ok(Some(Step::Event(event_of_one(graph, command, first)?)));
    };
    let Some((third, rest)) = scan::next_word(rest) else {
        return Ok(Some(Step::Event(event_of_two(
            graph, topology, detour, command, first, second,
        )?)));
    };
    if scan::next_word(rest).is_some() {
        return Err(ScriptFault::BadCommand);
    }
    Ok(Some(Step::Event(event_of_three(graph, topology, command, first, second, third)?)))
}

/// Whether a first word begins a line of a simulation alone.
pub fn is_of_simulation(word: &[u8]) -> bool
    ensures { result ≡ is_of_simulation word.now }
{
    word == b"learn".as_slice()
        || word == b"take".as_slice()
        || word == b"read".as_slice()
        || word == b"act".as_slice()
}

/// The command that a step is.
pub fn command_of(step: Step) -> Result<Command, ScriptFault>
    ensures { result ≡ command_of step }
{
    match step {
        Step::Event(Event::Inject(source, dest)) => Ok(Command::Inject(source, dest)),
        Step::Event(Event::Install(kind, root)) => Ok(Command::Install(kind, root)),
        Step::Event(Event::Renumber(kind, root)) => Ok(Command::Renumber(kind, root)),
        Step::Event(Event::Retire(floor)) => Ok(Command::Retire(floor)),
        Step::Event(Event::Down(link)) => Ok(Command::Down(link)),
        Step::Event(Event::Up(link)) => Ok(Command::Up(link)),
        Step::Event(Event::Avoid(link)) => Ok(Command::Avoid(link)),
        Step::Event(Event::Heed(link)) => Ok(Command::Heed(link)),
        Step::Drain => Ok(Command::Drain),
        Step::Event(Event::Learn(_) | Event::Take(_, _) | Event::Read(_, _) | Event::Act(_)) => {
            Err(ScriptFault::BadCommand)
        }
    }
}
