//! The row of a node in the tree table, straight from the node's sons and its father.

ghost use Rattle.std.specs.Prelude.{◌≡◌, ◌<◌, ◌≤◌, IfOk, OnOk, length, slice_index};
ghost use Rattle.ir_model.specs.{declared.Kind.TheVariants.Tree, Topology.{node_count, ports_of}};
ghost use Rattle.ir_lookup.specs.Words.{starts_of};
ghost use Rattle.ir_numbering.specs.Numbering.{IsNumberingOf};
ghost use Rattle.ir_plan.specs.{NodeRows.IsNodeRow, SonStarts.{AreSonStarts, AreTreeStarts}};

use ir_lookup::Row;
use ir_numbering::Numbering;
use ir_tables::Topology;
use std::alloc::{AllocError, Global};

/// The row of a node in the tree table. A son has a start at its own label, and the father one where the labels of the
/// node's subtree end (Santoro and Khatib 1985). Takes O(d), for d ports of the node.
pub fn tree_row(
    alloc: Global,
    topology: &Topology,
    numbering: &Numbering,
    u: u16,
) -> Result<Row, AllocError>
    requires numbering { IsNumberingOf topology.now numbering.now }
    requires node { u < node_count topology.now }
    ensures { IfOk result (λ row. IsNodeRow Tree topology.now numbering.now.order numbering.now.parents
        (slice_index numbering.now.labels u) row) }
{
    topology.invariant();
    let mut words = son_words(alloc, topology, numbering, u)?;
    add_father(&mut words, topology, numbering, u)?;
    Ok(Row::of(words))
}

// The words of the starts for the sons. Depth-first numbers are given to sons in the order of the ports to them, so the
// labels ascend.
fn son_words(
    alloc: Global,
    topology: &Topology,
    numbering: &Numbering,
    u: u16,
) -> Result<Vec<u32>, AllocError>
    requires numbering { IsNumberingOf topology.now numbering.now }
    requires node { u < node_count topology.now }
    ensures { IfOk result (λ words. AreSonStarts topology.now numbering.now u (length (ports_of topology.now u))
        (starts_of words.items)) }
{
    topology.invariant();
    let ports = topology.ports(u as usize);
    let mut words = Vec::with_capacity(alloc, ports.len())?;
    for (p, hop) in ports.iter().enumerate() {
        if numbering.has_parent(hop.node, u) {
            words.push(Row::word(numbering.label_of(hop.node), p as u16))?;
        }
    }
    Ok(words)
}

// Adds the start for the father, if there is one: in front of the sons' where the subtree has the last label, and else
// after them.
fn add_father(
    words: &mut Vec<u32>,
    topology: &Topology,
    numbering: &Numbering,
    u: u16,
) -> Result<(), AllocError>
    requires numbering { IsNumberingOf topology.now numbering.now }
    requires node { u < node_count topology.now }
    requires sons { AreSonStarts topology.now numbering.now u (length (ports_of topology.now u))
        (starts_of words.old.items) }
    ensures { OnOk result (AreTreeStarts topology.now numbering.now u (starts_of words.new.items)) }
{
    let nodes = topology.nodes();
    let end = numbering.label_of(u) as usize + numbering.subtree(u);
    if let Some(up) = numbering.parent(u) {
        if end == nodes {
            words.insert(0, Row::word(0, up))?;
        } else {
            words.push(Row::word(end as u16, up))?;
        }
    }
    Ok(())
}
