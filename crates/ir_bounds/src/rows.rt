//! The longest runs of the labels of a node by ports that lead within the bounds.

ghost use Rattle.std.specs.Prelude.{◌≡◌, ◌+◌, ◌<◌, ◌≤◌, ◌↔◌, ℕ, IfOk, IsTrue, length, slice_index};
ghost use Rattle.ir_model.specs.{Topology.{node_count, ports_of}, Plan.AreLabels, Landmark.IsLandmarkBound};
ghost use Rattle.ir_model.proofs.Steps.{AreLongest};
ghost use Rattle.ir_compile.specs.Runs.{HasMarked};
ghost use Rattle.ir_bounds.specs.{Detours.AreHeldBounds, Rows.{AreMarksWithin, MayTakePort}};

use crate::detours::LandmarkBounds;
use ir_compile::{MarkedPort, keep_longer};
use ir_numbering::Numbering;
use ir_tables::Topology;
use std::alloc::{AllocError, Global};

/// For each label how many labels the longest run of one port from it on has, and the least such port. The marks of one
/// port are held at a time.
pub fn runs_within(
    alloc: Global,
    topology: &Topology,
    numbering: &Numbering,
    held: &LandmarkBounds,
    u: u16,
) -> Result<(Vec<u16>, Vec<u16>), AllocError>
    requires labels { AreLabels (node_count topology.now) numbering.now.order numbering.now.labels }
    requires node { u < node_count topology.now }
    requires bounds { AreHeldBounds topology.now held.now }
    ensures counts { IfOk result (λ made. length made.0.items ≡ node_count topology.now) }
    ensures ports { IfOk result (λ made. length made.1.items ≡ node_count topology.now) }
    ensures longest { IfOk result (λ made. AreLongest (node_count topology.now) (slice_index numbering.now.labels u)
        (MayTakePort topology.now (IsLandmarkBound topology.now held.now.owners.landmarks.items held.now.stretch)
        numbering.now.order (slice_index numbering.now.labels u)) made.0.items made.1.items) }
{
    let nodes = topology.nodes() as u16;
    let own = numbering.label_of(u);
    let whole = held.bounds_from(alloc, topology, u)?;
    let mut counts = vec![in alloc; 0u16; nodes as usize]?;
    let mut ports = vec![in alloc; 0u16; nodes as usize]?;
    for p in 0..topology.degree(u) {
        let hop = topology.port(u, p as u16);
        let rest = held.bounds_from(alloc, topology, hop.node)?;
        let (marks, labels) = marks_within(
            alloc,
            numbering,
            hop.weight,
            whole.as_slice(),
            rest.as_slice(),
        )?;
        keep_longer(
            nodes,
            own,
            MarkedPort {
                port: p as u16,
                marks: marks.as_slice(),
                labels: labels.as_slice(),
            },
            counts.as_mut_slice(),
            ports.as_mut_slice(),
        );
    }
    Ok((counts, ports))
}

// The marks of a port, by label: where it leads within the bounds; and the labels that have one, in order.
fn marks_within(
    alloc: Global,
    numbering: &Numbering,
    weight: u32,
    own: &[u32],
    theirs: &[u32],
) -> Result<(Vec<bool>, Vec<u16>), AllocError>
    requires few { length own.now ≤ 32768 }
    requires labels { AreLabels (length own.now) numbering.now.order numbering.now.labels }
    requires theirs { length theirs.now ≡ length own.now }
    ensures marks { IfOk result (λ made. AreMarksWithin (length own.now) numbering.now.order weight own.now theirs.now
        made.0.items) }
    ensures marked { IfOk result (λ made. HasMarked (length own.now) made.0.items made.1.items) }
{
    let nodes = own.len();
    let mut row = Vec::with_capacity(alloc, nodes)?;
    let mut marked = Vec::new(alloc);
    for label in 0..nodes {
        let d = numbering.node_of(label as u16) as usize;
        let leads = is_within(weight, theirs[d], own[d]);
        row.push(leads)?;
        if leads {
            marked.push(label as u16)?;
        }
    }
    Ok((row, marked))
}

// Whether a weight and a bound are within another bound.
fn is_within(weight: u32, rest: u32, whole: u32) -> bool
    ensures { IsTrue result ↔ (weight + rest ≤ whole) }
{
    weight as u64 + rest as u64 <= whole as u64
}
