//! The graph of a topology text, its root, and what a run over it is opened with.
ghost use Rattle.std.specs.Prelude.{◌≡◌, ◌<◌, ◌^◌, None, IfOk, IfErr, IfSome, OnOk, length, string_bytes};
ghost use Rattle.std.specs.Option.{option_map};
ghost use Rattle.ir_model.specs.{Graph.names, Text.lines};
ghost use Rattle.ir_adjlist.specs.Told.{Tells};
ghost use Rattle.ir_cli.specs.Openings.{topology_fault, topology_graph, root_in, no_root, kind_asked, label_order, keeps_order, opening_by};

use crate::words::{Format, NumberingChoice, Words};
use ir_adjlist::{TextError, parse_adjlist, parse_weighted_edgelist};
use ir_core::{OpenError, Opening};
use ir_graph::Graph;
use ir_model::Kind;
use ir_plan::LabelOrder;
use ir_tables::Topology;
use std::alloc::{AllocError, Global};

/// The graph of a topology text in its format.
pub fn read_topology(alloc: Global, format: Format, text: &[u8]) -> Result<Graph, TextError>
    ensures sound { OnOk result (topology_fault format (lines text.now) ≡ None) }
    ensures parsed { IfOk result (λ g. g ≡ topology_graph format (lines text.now)) }
    ensures fault { IfErr result (λ e. Tells e (topology_fault format (lines text.now))) }
{
    match format {
        Format::AdjList => parse_adjlist(alloc, text),
        Format::EdgeList => parse_weighted_edgelist(alloc, text),
    }
}

/// The number of a root or an end: that of its name, or else that of the first node.
pub fn root_of(graph: &Graph, root: &Option<String>) -> Option<u16>
    ensures number { result ≡ root_in (names graph.now) (option_map string_bytes root.now) }
    ensures in_range { IfSome result (λ u. 0 < length graph.now → u < length graph.now) }
{
    match root {
        None => Some(0),
        Some(name) => graph.index_of(name.as_str()),
    }
}

/// The refusal of a root that is no node.
pub fn no_root(graph: &Graph) -> OpenError
    ensures { result ≡ no_root graph.now }
{
    if graph.number_of_nodes() == 0 {
        OpenError::Empty
    } else {
        OpenError::NoNode
    }
}

/// The order in which the plans of a run are labelled. That of a file is no run's, and given as depth first. One that
/// is kept is at first a tour's.
pub fn label_order(numbering: &NumberingChoice) -> LabelOrder
    ensures { result ≡ label_order numbering.now }
{
    match numbering {
        NumberingChoice::Tour | NumberingChoice::Keep => LabelOrder::Tour,
        NumberingChoice::DepthFirst | NumberingChoice::KeepDepthFirst | NumberingChoice::File(_) =>
            LabelOrder::DepthFirst,
    }
}

/// Whether the installs of a run keep the order of the epoch before.
pub fn keeps_order(numbering: &NumberingChoice) -> bool
    ensures { result ≡ keeps_order numbering.now }
{
    match numbering {
        NumberingChoice::Keep | NumberingChoice::KeepDepthFirst => true,
        NumberingChoice::DepthFirst | NumberingChoice::Tour | NumberingChoice::File(_) => false,
    }
}

/// The kind that the words ask for, of plans of so many nodes.
pub fn kind_asked(words: &Words, nodes: usize) -> Kind
    requires { nodes < 2 ^ 16 }
    ensures { result ≡ kind_asked words.now nodes }
{
    words.kind.kind(words.detour.detour(nodes))
}

/// What a run over a topology is opened with, by the words and this root's number. Memory alone
/// refuses it.
pub fn opening_of(
    alloc: Global,
    words: &Words,
    topology: &Topology,
    root: u16,
) -> Result<Opening, AllocError>
    ensures { IfOk result (λ opening. opening ≡ opening_by words.now topology.now root) }
{
    Ok(Opening {
        topology: topology.try_clone(alloc)?,
        labels: label_order(&words.numbering),
        keeps: keeps_order(&words.numbering),
        kind: kind_asked(words, topology.nodes()),
        root,
        capacity: words.capacity,
        max_packets: words.packets,
        restamps: words.restamps,
    })
}
