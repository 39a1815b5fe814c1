//! Traces as they are written.
ghost use Rattle.std.specs.Prelude.{◌≡◌, ◌<◌, true, [], ◌∷◌, ◌++◌, IfOk, OnOk, length, nat_lt, string_bytes, decimal, flat_map, map};
ghost use Rattle.std.specs.List.{list_all};
ghost use Rattle.ir_model.specs.{Graph.names, Topology.node_count, OfGraph.topology_of_graph, Walk.walk_weight};
ghost use Rattle.ir_trace.specs.{Rows.{spaced, fate_words, part_words, row_line}, Stretches.{parts_from, AreAscending}};
ghost use Rattle.ir_trace.specs.Written.{name_at, link_at, other_end, fate_text, row_of, records_text, named, segments_row};
ghost use Rattle.ir_trace.specs.Written.{segments_text, FateIsIn, IsWritable, AreWritable, HasSegments, HaveSegments};

use crate::judging::walk_weight;
use crate::row::Version;
use crate::text::{push_name, push_names, push_next_number, push_number, push_word};
use ir_core::{Fate, Record, Restamp};
use ir_graph::Graph;
use ir_tables::Topology;
use std::alloc::{AllocError, Global};

/// The two ends of a link, the smaller node first.
fn ends(topology: &Topology, link: u32) -> (u16, u16)
    requires { link < length topology.now.links }
    ensures low { result.0 ≡ (link_at topology.now link).low }
    ensures high { result.1 ≡ (link_at topology.now link).high }
    ensures low_within { result.0 < node_count topology.now }
    ensures high_within { result.1 < node_count topology.now }
{
    topology.invariant();
    topology.ends(link)
}

/// The node that the channel of a link to one of its ends comes from.
fn channel_start(topology: &Topology, link: u32, to: u16) -> u16
    requires { FateIsIn topology.now (Fate.Full link to) }
    ensures start { result ≡ other_end (link_at topology.now link) to }
    ensures start_within { result < node_count topology.now }
    ensures to_within { to < node_count topology.now }
{
    let (low, high) = ends(topology, link);
    if low == to { high } else { low }
}

/// Writes a word and the names of two nodes, each after a space.
fn push_pair(text: &mut String, graph: &Graph, word: &str, u: u16, v: u16) -> Result<(), AllocError>
    requires first { u < length graph.now }
    requires second { v < length graph.now }
    ensures { OnOk result (string_bytes text.new ≡ string_bytes text.old
        ++ flat_map spaced (word.now ∷ name_at (names graph.now) u ∷ name_at (names graph.now) v ∷ [])) }
{
    push_word(text, word)?;
    push_name(text, graph, u)?;
    push_name(text, graph, v)
}

/// Writes the words of a fate, each after a space.
fn push_fate(
    text: &mut String,
    graph: &Graph,
    topology: &Topology,
    fate: Fate,
) -> Result<(), AllocError>
    requires nodes { node_count topology.now ≡ length graph.now }
    requires fate { FateIsIn topology.now fate }
    ensures { OnOk result (string_bytes text.new ≡ string_bytes text.old
        ++ flat_map spaced (fate_words (fate_text (names graph.now) topology.now fate))) }
{
    match fate {
        Fate::Delivered => push_word(text, "delivered"),
        Fate::Retired => push_word(text, "retired"),
        Fate::Down(link) => {
            let (low, high) = ends(topology, link);
            push_pair(text, graph, "down", low, high)
        }
        Fate::Full { link, to } => {
            let from = channel_start(topology, link, to);
            push_pair(text, graph, "full", from, to)
        }
        Fate::Left => push_word(text, "left"),
    }
}

/// Writes the ends, the weight and the fate of a record, each word after a space.
fn push_way(
    text: &mut String,
    graph: &Graph,
    topology: &Topology,
    packet: &Record,
) -> Result<(), AllocError>
    requires nodes { node_count topology.now ≡ length graph.now }
    requires packet { IsWritable topology.now packet.now }
    ensures { OnOk result (string_bytes text.new ≡ string_bytes text.old
        ++ flat_map spaced (name_at (names graph.now) packet.now.source ∷ name_at (names graph.now) packet.now.dest
        ∷ decimal (walk_weight topology.now packet.now.hops)
        ∷ fate_words (fate_text (names graph.now) topology.now packet.now.fate))) }
{
    let hops = packet.hops.as_slice();
    push_name(text, graph, packet.source)?;
    push_name(text, graph, packet.dest)?;
    push_next_number(text, walk_weight(topology, hops) as usize)?;
    push_fate(text, graph, topology, packet.fate)
}

/// Writes the row of a record.
fn push_row(
    text: &mut String,
    graph: &Graph,
    topology: &Topology,
    packet: &Record,
) -> Result<(), AllocError>
    requires nodes { node_count topology.now ≡ length graph.now }
    requires packet { IsWritable topology.now packet.now }
    ensures { OnOk result (string_bytes text.new ≡ string_bytes text.old
        ++ row_line Version.One (row_of (names graph.now) topology.now packet.now)) }
{
    push_number(text, packet.id as usize)?;
    push_next_number(text, packet.epoch as usize)?;
    push_way(text, graph, topology, packet)?;
    push_names(text, graph, packet.hops.as_slice())?;
    text.push_str("\n")
}

/// Writes `#EPOCH` and the names of hops, each after a space.
fn push_segment(
    text: &mut String,
    graph: &Graph,
    epoch: u32,
    hops: &[u16],
) -> Result<(), AllocError>
    requires { list_all (λ x. nat_lt x (length graph.now)) hops.now ≡ true }
    ensures { OnOk result (string_bytes text.new ≡ string_bytes text.old
        ++ flat_map spaced (part_words (named (names graph.now) (record { epoch = epoch; hops = hops.now })))) }
{
    text.push_str(" #")?;
    push_number(text, epoch as usize)?;
    push_names(text, graph, hops)
}

/// Writes the segments of hops, each with its `#EPOCH`: the first is of this epoch, and each further one begins at a
/// restamp.
fn push_segments(
    text: &mut String,
    graph: &Graph,
    epoch: u32,
    hops: &[u16],
    restamps: &[Restamp],
) -> Result<(), AllocError>
    requires hops { list_all (λ x. nat_lt x (length graph.now)) hops.now ≡ true }
    requires places { AreAscending 0 (length hops.now) restamps.now }
    ensures { OnOk result (string_bytes text.new ≡ string_bytes text.old
        ++ flat_map spaced (flat_map part_words
        (map (named (names graph.now)) (parts_from epoch 0 hops.now restamps.now)))) }
{
    let mut epoch = epoch;
    let mut from = 0;
    for restamp in restamps {
        push_segment(text, graph, epoch, &hops[from..restamp.from + 1])?;
        epoch = restamp.epoch;
        from = restamp.from;
    }
    push_segment(text, graph, epoch, &hops[from..])
}

/// Writes the row of a record in the second version.
fn push_segments_row(
    text: &mut String,
    graph: &Graph,
    topology: &Topology,
    packet: &Record,
) -> Result<(), AllocError>
    requires nodes { node_count topology.now ≡ length graph.now }
    requires packet { HasSegments topology.now packet.now }
    ensures { OnOk result (string_bytes text.new ≡ string_bytes text.old
        ++ row_line Version.Two (segments_row (names graph.now) topology.now packet.now)) }
{
    let nodes = packet.hops.as_slice();
    push_number(text, packet.id as usize)?;
    push_way(text, graph, topology, packet)?;
    push_segments(text, graph, packet.epoch, nodes, packet.restamps.as_slice())?;
    text.push_str("\n")
}

/// The trace of records over the topology of their graph: the line `trace 1`, and a row for each record in order, with
/// its first epoch and all of its hops, restamped or not. Only want of memory is refused. Condition: the topology is
/// that of the graph, and the nodes and links of each record are among its nodes and links. The hops are 1 to
/// `ir_model::MAX_NODES` nodes, each linked to the next; the node of a `Full` is an end of its link. Takes O(r + h d),
/// for r records of h hops in all and at most d ports of a node.
pub fn trace_text(
    alloc: Global,
    graph: &Graph,
    topology: &Topology,
    records: &[Record],
) -> Result<String, AllocError>
    requires topology { topology.now ≡ topology_of_graph graph.now }
    requires records { AreWritable topology.now records.now }
    ensures { IfOk result (λ text. string_bytes text ≡ records_text (names graph.now) topology.now records.now) }
{
    let mut text = String::from_str(alloc, "trace 1\n")?;
    for record in records {
        push_row(&mut text, graph, topology, record)?;
    }
    Ok(text)
}

/// The trace of records in the second version: the line `trace 2`, and a row of segments for each
/// record in order. Only want of memory is refused. Condition: that of `trace_text`, and each record
/// has at most three restamps, each `from` a place in its hops, strictly ascending. Takes as long as
/// `trace_text`.
pub fn trace_text_2(
    alloc: Global,
    graph: &Graph,
    topology: &Topology,
    records: &[Record],
) -> Result<String, AllocError>
    requires topology { topology.now ≡ topology_of_graph graph.now }
    requires records { HaveSegments topology.now records.now }
    ensures { IfOk result (λ text. string_bytes text ≡ segments_text (names graph.now) topology.now records.now) }
{
    let mut text = String::from_str(alloc, "trace 2\n")?;
    for record in records {
        push_segments_row(&mut text, graph, topology, record)?;
    }
    Ok(text)
}
