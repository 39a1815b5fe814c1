//! The names of a network at the end of a text. A number that is no node has no name, and a link that there is not has
//! the first node at both of its ends.
ghost use Rattle.std.specs.Prelude.{◌≡◌, ◌++◌, ◌∷◌, [], OnOk, string_bytes, flat_map};
ghost use Rattle.ir_model.specs.{Graph.names};
ghost use Rattle.ir_trace.specs.{Rows.{spaced, fate_words}, Written.{name_at, link_at, other_end, fate_text}};
ghost use Rattle.ir_steps.specs.Words.{link_words, way_words};

use ir_core::{Fate, Way};
use ir_graph::Graph;
use ir_tables::Topology;
use ir_trace::text::push_word;
use std::alloc::AllocError;

/// A network with the names of its nodes.
#[derive(Clone, Copy)]
pub struct Network<'a> {
    pub graph: &'a Graph,
    pub topology: &'a Topology,
}

/// Writes a space and the name of a node.
pub fn push_node(text: &mut String, net: &Network<'_>, node: u16) -> Result<(), AllocError>
    ensures { OnOk result (string_bytes text.new ≡ string_bytes text.old
        ++ spaced (name_at (names net.now.graph.now) node)) }
{
    match net.graph.node(node as usize) {
        Some(name) => push_word(text, name),
        None => push_word(text, ""),
    }
}

/// The two ends of a link, the smaller node first.
fn ends(net: &Network<'_>, link: u32) -> (u16, u16)
    ensures low { result.0 ≡ (link_at net.now.topology.now link).low }
    ensures high { result.1 ≡ (link_at net.now.topology.now link).high }
{
    if (link as usize) < net.topology.links() {
        net.topology.ends(link)
    } else {
        (0, 0)
    }
}

/// The end of a link that is not this node.
fn other_end(net: &Network<'_>, link: u32, node: u16) -> u16
    ensures { result ≡ other_end (link_at net.now.topology.now link) node }
{
    let (low, high) = ends(net, link);
    if low == node { high } else { low }
}

/// Writes the names of the ends of a link, each after a space.
pub fn push_link(text: &mut String, net: &Network<'_>, link: u32) -> Result<(), AllocError>
    ensures { OnOk result (string_bytes text.new ≡ string_bytes text.old
        ++ flat_map spaced (link_words (names net.now.graph.now) net.now.topology.now link)) }
{
    let (low, high) = ends(net, link);
    push_node(text, net, low)?;
    push_node(text, net, high)
}

/// Writes where a node takes a packet from, each word after a space.
pub fn push_way(text: &mut String, net: &Network<'_>, node: u16, way: Way) -> Result<(), AllocError>
    ensures { OnOk result (string_bytes text.new ≡ string_bytes text.old
        ++ flat_map spaced (way_words (names net.now.graph.now) net.now.topology.now node way)) }
{
    match way {
        Way::Inbox => push_word(text, "inbox"),
        Way::Link(link) => {
            let from = other_end(net, link, node);
            push_word(text, "from")?;
            push_node(text, net, from)
        }
    }
}

/// Writes the words of a fate, each after a space.
pub fn push_fate(text: &mut String, net: &Network<'_>, fate: Fate) -> Result<(), AllocError>
    ensures { OnOk result (string_bytes text.new ≡ string_bytes text.old
        ++ flat_map spaced (fate_words (fate_text (names net.now.graph.now) net.now.topology.now fate))) }
{
    match fate {
        Fate::Delivered => push_word(text, "delivered"),
        Fate::Retired => push_word(text, "retired"),
        Fate::Down(link) => {
            push_word(text, "down")?;
            push_link(text, net, link)
        }
        Fate::Full { link, to } => {
            let from = other_end(net, link, to);
            push_word(text, "full")?;
            push_node(text, net, from)?;
            push_node(text, net, to)
        }
        Fate::Left => push_word(text, "left"),
    }
}
