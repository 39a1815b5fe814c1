//! The row of a node in a compact plan: the fewest intervals over all choices of ports that lead nearer.

ghost use Rattle.std.specs.Prelude.{◌≡◌, ◌<◌, ◌≤◌, ℕ, Contains, IfOk, IfSome, OnOk, length, slice_index};
ghost use Rattle.ir_model.specs.{declared.Kind.TheVariants.Compact, Topology.{node_count, ports_of}, Walk.IsConnected};
ghost use Rattle.ir_model.specs.{Choices.AreChoices, Compact.IsTied, Plan.AreLabels};
ghost use Rattle.ir_tables.specs.FromNode.{AreFrom};
ghost use Rattle.ir_compile.specs.Runs.{HasMarked};
ghost use Rattle.ir_plan.specs.{NodeRows.{IsNodeRow, ArePortsOf}, CompactRows.{AreMarksOf, AreLongestRuns}};
ghost use Rattle.ir_plan.specs.Ties.{AreTies};

use crate::rows::row_of;
use crate::ties::Ties;
use ir_compile::{MarkedPort, WORD_PORTS, keep_longer, row_of_longest, runs_by_words};
use ir_lookup::Row;
use ir_numbering::Numbering;
use ir_tables::{Outward, Topology};
use std::alloc::{AllocError, Global};

/// The row of a node.
pub fn compact_row(
    alloc: Global,
    topology: &Topology,
    numbering: &Numbering,
    ties: &Option<Ties>,
    u: u16,
) -> Result<Row, AllocError>
    requires labels { AreLabels (node_count topology.now) numbering.now.order numbering.now.labels }
    requires ties { IfSome ties.now (AreTies topology.now numbering.now.order) }
    requires connected { IsConnected topology.now }
    requires node { u < node_count topology.now }
    ensures { IfOk result (λ row. IsNodeRow Compact topology.now numbering.now.order numbering.now.parents
        (slice_index numbering.now.labels u) row) }
{
    let nodes = topology.nodes() as u16;
    let (counts, ports) = runs_by(alloc, topology, numbering, ties, u)?;
    let own = numbering.label_of(u);
    if nodes == 1 {
        return row_of(alloc, nodes, own, &[None]);
    }
    row_of_longest(alloc, nodes, own, counts.as_slice(), ports.as_slice())
}

// For each label how many labels the longest run of one port from it on has, and the least such
// port. Each label but that of the node has a port that leads nearer.
fn runs_by(
    alloc: Global,
    topology: &Topology,
    numbering: &Numbering,
    ties: &Option<Ties>,
    u: u16,
) -> Result<(Vec<u16>, Vec<u16>), AllocError>
    requires labels { AreLabels (node_count topology.now) numbering.now.order numbering.now.labels }
    requires ties { IfSome ties.now (AreTies topology.now numbering.now.order) }
    requires connected { IsConnected topology.now }
    requires node { u < node_count topology.now }
    ensures counts { IfOk result (λ made. length made.0.items ≡ node_count topology.now) }
    ensures ports { IfOk result (λ made. length made.1.items ≡ node_count topology.now) }
    ensures longest { IfOk result (λ made. AreLongestRuns topology.now numbering.now.order
        (slice_index numbering.now.labels u) made.0.items made.1.items) }
    ensures tied { OnOk result (AreChoices (node_count topology.now) (slice_index numbering.now.labels u)
        (IsTied topology.now numbering.now.order (slice_index numbering.now.labels u))) }
{
    topology.invariant();
    match ties {
        Some(ties) => marked_runs(alloc, topology, numbering, ties, u),
        None => {
            let ways = Outward::from(alloc, topology, u)?;
            longest_runs(alloc, topology, numbering, &ways, u)
        }
    }
}

// The same runs, by the marks of all ports.
fn marked_runs(
    alloc: Global,
    topology: &Topology,
    numbering: &Numbering,
    ties: &Ties,
    u: u16,
) -> Result<(Vec<u16>, Vec<u16>), AllocError>
    requires labels { AreLabels (node_count topology.now) numbering.now.order numbering.now.labels }
    requires ties { AreTies topology.now numbering.now.order ties.now }
    requires node { u < node_count topology.now }
    ensures counts { IfOk result (λ made. length made.0.items ≡ node_count topology.now) }
    ensures ports { IfOk result (λ made. length made.1.items ≡ node_count topology.now) }
    ensures longest { IfOk result (λ made. AreLongestRuns topology.now numbering.now.order
        (slice_index numbering.now.labels u) made.0.items made.1.items) }
{
    topology.invariant();
    if topology.degree(u) > WORD_PORTS {
        return port_runs(alloc, topology, numbering, ties, u);
    }
    word_runs(alloc, topology, numbering, ties, u)
}

// The same runs, by a word of ports for each label.
fn word_runs(
    alloc: Global,
    topology: &Topology,
    numbering: &Numbering,
    ties: &Ties,
    u: u16,
) -> Result<(Vec<u16>, Vec<u16>), AllocError>
    requires labels { AreLabels (node_count topology.now) numbering.now.order numbering.now.labels }
    requires ties { AreTies topology.now numbering.now.order ties.now }
    requires node { u < node_count topology.now }
    requires ports { length (ports_of topology.now u) ≤ 32 }
    ensures counts { IfOk result (λ made. length made.0.items ≡ node_count topology.now) }
    ensures ports { IfOk result (λ made. length made.1.items ≡ node_count topology.now) }
    ensures longest { IfOk result (λ made. AreLongestRuns topology.now numbering.now.order
        (slice_index numbering.now.labels u) made.0.items made.1.items) }
{
    let nodes = topology.nodes() as u16;
    let own = numbering.label_of(u);
    let tied = ties.tied(alloc, topology, u)?;
    runs_by_words(alloc, nodes, own, tied.as_slice())
}

// The same runs, port by port.
fn port_runs(
    alloc: Global,
    topology: &Topology,
    numbering: &Numbering,
    ties: &Ties,
    u: u16,
) -> Result<(Vec<u16>, Vec<u16>), AllocError>
    requires labels { AreLabels (node_count topology.now) numbering.now.order numbering.now.labels }
    requires ties { AreTies topology.now numbering.now.order ties.now }
    requires node { u < node_count topology.now }
    ensures counts { IfOk result (λ made. length made.0.items ≡ node_count topology.now) }
    ensures ports { IfOk result (λ made. length made.1.items ≡ node_count topology.now) }
    ensures longest { IfOk result (λ made. AreLongestRuns topology.now numbering.now.order
        (slice_index numbering.now.labels u) made.0.items made.1.items) }
{
    let nodes = topology.nodes() as u16;
    let own = numbering.label_of(u);
    let mut counts = vec![in alloc; 0u16; nodes as usize]?;
    let mut ports = vec![in alloc; 0u16; nodes as usize]?;
    for p in 0..topology.degree(u) {
        let (row, marked) = ties.row(alloc, topology, u, p)?;
        if !marked.is_empty() {
            keep_longer(
                nodes,
                own,
                MarkedPort {
                    port: p as u16,
                    marks: row.as_slice(),
                    labels: marked.as_slice(),
                },
                counts.as_mut_slice(),
                ports.as_mut_slice(),
            );
        }
    }
    Ok((counts, ports))
}

// For each label how many labels the longest run of one port from it on has, and the least such port. The marks of one
// port are held at a time, and a port that leads nearer to no node is passed over.
fn longest_runs(
    alloc: Global,
    topology: &Topology,
    numbering: &Numbering,
    ways: &Outward,
    u: u16,
) -> Result<(Vec<u16>, Vec<u16>), AllocError>
    requires labels { AreLabels (node_count topology.now) numbering.now.order numbering.now.labels }
    requires source { ways.now.source ≡ u }
    requires distances { AreFrom topology.now u ways.now.weights }
    ensures counts { IfOk result (λ made. length made.0.items ≡ node_count topology.now) }
    ensures ports { IfOk result (λ made. length made.1.items ≡ node_count topology.now) }
    ensures longest { IfOk result (λ made. AreLongestRuns topology.now numbering.now.order
        (slice_index numbering.now.labels u) made.0.items made.1.items) }
{
    let nodes = topology.nodes() as u16;
    let own = numbering.label_of(u);
    let mut counts = vec![in alloc; 0u16; nodes as usize]?;
    let mut ports = vec![in alloc; 0u16; nodes as usize]?;
    for p in 0..topology.degree(u) {
        let mut led = ways.nodes_by(alloc, topology, p)?;
        if !led.is_empty() {
            let marks = marks_of(alloc, nodes, numbering, &mut led)?;
            keep_longer(
                nodes,
                own,
                MarkedPort {
                    port: p as u16,
                    marks: marks.as_slice(),
                    labels: led.as_slice(),
                },
                counts.as_mut_slice(),
                ports.as_mut_slice(),
            );
        }
    }
    Ok((counts, ports))
}

// The marks of some nodes, by label; in place of each node is its label then.
fn marks_of(
    alloc: Global,
    nodes: u16,
    numbering: &Numbering,
    led: &mut Vec<u16>,
) -> Result<Vec<bool>, AllocError>
    requires labels { AreLabels nodes numbering.now.order numbering.now.labels }
    requires nodes { (d : ℕ) → Contains led.old.items d → d < nodes }
    ensures marks { IfOk result (λ row. AreMarksOf nodes numbering.now.order led.old.items row.items) }
    ensures marked { IfOk result (λ row. HasMarked nodes row.items led.new.items) }
{
    let mut row = vec![in alloc; false; nodes as usize]?;
    for i in 0..led.len() {
        let label = numbering.label_of(led[i]);
        row[label as usize] = true;
        led[i] = label;
    }
    Ok(row)
}
