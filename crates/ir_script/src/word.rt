//! What a word of a script stands for: a number, a node, or with another word a link.
ghost use Rattle.std.specs.{Prelude.{◌≡◌, ◌+◌, ◌<◌, ◌==◌, find, min, length, IfOk}, List.list_all};
ghost use Rattle.ir_model.specs.{Edgelist.{is_digit, value_of}, Graph.names, Topology.node_count};
ghost use Rattle.ir_model.specs.OfGraph.{topology_of_graph};
ghost use Rattle.ir_script.specs.declared.TheConstants.{MAX_NUMBER};
ghost use Rattle.ir_script.specs.Command.{number_of, node_of, link_towards, named_link};

use crate::fault::ScriptFault;
use crate::{MAX_DIGITS, MAX_NUMBER};
use ir_adjlist::digits::{all_digits, capped_value};
use ir_graph::Graph;
use ir_tables::Topology;

/// The number that a word spells.
pub fn number_of(word: &[u8]) -> Result<u32, ScriptFault>
    ensures { result ≡ number_of word.now }
{
    if word.is_empty() || word.len() > MAX_DIGITS || !all_digits(word) {
        return Err(ScriptFault::BadNumber);
    }
    let value = capped_value(word, MAX_NUMBER);
    if value > MAX_NUMBER {
        return Err(ScriptFault::BadNumber);
    }
    Ok(value)
}

/// The number of the node that a word names.
pub fn node_of(graph: &Graph, word: &[u8]) -> Result<u16, ScriptFault>
    ensures node { result ≡ node_of (names graph.now) word.now }
    ensures within { IfOk result (λ u. u < length graph.now) }
{
    graph.invariant();
    let Ok(name) = str::from_utf8(word) else {
        return Err(ScriptFault::UnknownNode);
    };
    graph.index_of(name).ok_or(ScriptFault::UnknownNode)
}

/// The link by which a port of a node leads to another.
pub fn link_between(topology: &Topology, u: u16, v: u16) -> Result<u32, ScriptFault>
    requires { u < node_count topology.now }
    ensures { result ≡ link_towards topology.now u v }
{
    match topology.hop_to(u, v) {
        Some(hop) => Ok(hop.link),
        None => Err(ScriptFault::UnknownLink),
    }
}

/// The link between the nodes that two words name.
pub fn link_of(
    graph: &Graph,
    topology: &Topology,
    first: &[u8],
    second: &[u8],
) -> Result<u32, ScriptFault>
    requires { topology.now ≡ topology_of_graph graph.now }
    ensures { result ≡ named_link (names graph.now) topology.now first.now second.now }
{
    let u = node_of(graph, first)?;
    let v = node_of(graph, second)?;
    link_between(topology, u, v)
}
