//! The longest runs of the labels of a node with few ports: the bits of a label's word are the ports that lead within
//! the bounds to its node.

ghost use Rattle.std.specs.Prelude.{◌≡◌, ◌≢◌, ◌↔◌, ◌+◌, ◌<◌, ◌≤◌, ℕ, IfOk, IsTrue, length, slice_index};
ghost use Rattle.ir_model.specs.{Topology.{node_count, ports_of}, Plan.AreLabels, Walk.IsConnected, Landmark.IsLandmarkBound};
ghost use Rattle.ir_model.proofs.Steps.{AreLongest};
ghost use Rattle.ir_compile.specs.PortBits.{HasPortBit};
ghost use Rattle.ir_bounds.specs.{Bounds.AreBoundsFrom, Detours.AreHeldBounds, Near.IsWayRound, Rows.MayTakePort};
ghost use Rattle.ir_bounds.specs.Around.{AreBlockWords};
ghost use Rattle.ir_bounds.specs.Words.{AreLedWords, AreWordsUpTo, IsWordBy};

use crate::detours::LandmarkBounds;
use crate::near::entry;
use ir_compile::runs_by_words;
use ir_numbering::Numbering;
use ir_tables::Topology;
use std::alloc::{AllocError, Global};

/// For each label how many labels the longest run of one port from it on has, and the least such port.
pub fn word_runs(
    alloc: Global,
    topology: &Topology,
    numbering: &Numbering,
    held: &LandmarkBounds,
    u: u16,
) -> Result<(Vec<u16>, Vec<u16>), AllocError>
    requires labels { AreLabels (node_count topology.now) numbering.now.order numbering.now.labels }
    requires connected { IsConnected topology.now }
    requires node { u < node_count topology.now }
    requires bounds { AreHeldBounds topology.now held.now }
    requires ports { length (ports_of topology.now u) ≤ 32 }
    ensures counts { IfOk result (λ made. length made.0.items ≡ node_count topology.now) }
    ensures ports { IfOk result (λ made. length made.1.items ≡ node_count topology.now) }
    ensures longest { IfOk result (λ made. AreLongest (node_count topology.now) (slice_index numbering.now.labels u)
        (MayTakePort topology.now (IsLandmarkBound topology.now held.now.owners.landmarks.items held.now.stretch)
        numbering.now.order (slice_index numbering.now.labels u)) made.0.items made.1.items) }
{
    let nodes = topology.nodes() as u16;
    let own = numbering.label_of(u);
    let words = words_within(alloc, topology, numbering, held, u)?;
    runs_by_words(alloc, nodes, own, words.as_slice())
}

// The words of the ports that lead within the bounds.
fn words_within(
    alloc: Global,
    topology: &Topology,
    numbering: &Numbering,
    held: &LandmarkBounds,
    u: u16,
) -> Result<Vec<u32>, AllocError>
    requires labels { AreLabels (node_count topology.now) numbering.now.order numbering.now.labels }
    requires node { u < node_count topology.now }
    requires bounds { AreHeldBounds topology.now held.now }
    requires ports { length (ports_of topology.now u) ≤ 32 }
    ensures { IfOk result (λ words. AreLedWords topology.now
        (IsLandmarkBound topology.now held.now.owners.landmarks.items held.now.stretch)
        (IsLandmarkBound topology.now held.now.owners.landmarks.items held.now.stretch)
        numbering.now.order u words.items) }
{
    topology.invariant();
    let whole = held.bounds_from(alloc, topology, u)?;
    let mut words = round_words(alloc, topology, numbering, held, u)?;
    put_own(topology, numbering, held, u, words.as_mut_slice());
    for p in 0..topology.degree(u) {
        put_port(
            topology,
            numbering,
            held,
            (u, p as u16),
            whole.as_slice(),
            words.as_mut_slice(),
        );
    }
    Ok(words)
}

// The words of the ports from which the ways round are within the own way round.
fn round_words(
    alloc: Global,
    topology: &Topology,
    numbering: &Numbering,
    held: &LandmarkBounds,
    u: u16,
) -> Result<Vec<u32>, AllocError>
    requires labels { AreLabels (node_count topology.now) numbering.now.order numbering.now.labels }
    requires node { u < node_count topology.now }
    requires bounds { AreHeldBounds topology.now held.now }
    requires ports { length (ports_of topology.now u) ≤ 32 }
    ensures { IfOk result (λ words. AreLedWords topology.now
        (IsWayRound topology.now held.now.owners.landmarks.items)
        (IsWayRound topology.now held.now.owners.landmarks.items) numbering.now.order u words.items) }
{
    let nodes = topology.nodes();
    let blocks = block_words(alloc, topology, held, u)?;
    let mut words = Vec::with_capacity(alloc, nodes)?;
    for label in 0..nodes {
        let d = numbering.node_of(label as u16) as usize;
        words.push(blocks[held.owners.nodes[d] as usize])?;
    }
    Ok(words)
}

// At each landmark the word of the ports that lead to it as near as the node is.
fn block_words(
    alloc: Global,
    topology: &Topology,
    held: &LandmarkBounds,
    u: u16,
) -> Result<Vec<u32>, AllocError>
    requires node { u < node_count topology.now }
    requires bounds { AreHeldBounds topology.now held.now }
    requires ports { length (ports_of topology.now u) ≤ 32 }
    ensures { IfOk result (λ blocks. AreBlockWords topology.now held.now.owners u
        (length held.now.owners.landmarks.items) blocks.items) }
{
    topology.invariant();
    let owners = &held.owners;
    let mut blocks = vec![in alloc; 0u32; topology.nodes()]?;
    for i in 0..owners.landmarks.len() {
        let away = owners.away[i].as_slice();
        blocks[owners.landmarks[i] as usize] = led_word(topology, u, away, 0, away[u as usize]);
    }
    Ok(blocks)
}

// The word of the ports by which a weight, a way from there and a radius are at most a number.
fn led_word(topology: &Topology, u: u16, away: &[u32], radius: u32, whole: u32) -> u32
    requires node { u < node_count topology.now }
    requires ports { length (ports_of topology.now u) ≤ 32 }
    requires every { length away.now ≡ node_count topology.now }
    ensures { IsWordBy topology.now away.now radius whole u (length (ports_of topology.now u)) result }
{
    topology.invariant();
    let mut word = 0u32;
    for p in 0..topology.degree(u) {
        let hop = topology.port(u, p as u16);
        if are_within(hop.weight, away[hop.node as usize], radius, whole) {
            word |= 1 << p;
        }
    }
    word
}

// Whether a weight, a way and a radius are within a bound.
fn are_within(weight: u32, way: u32, radius: u32, whole: u32) -> bool
    ensures { IsTrue result ↔ (weight + (way + radius) ≤ whole) }
{
    weight as u64 + (way as u64 + radius as u64) <= whole as u64
}

// Puts the words of the nodes that are near to the node, by its bounds to them.
fn put_own(
    topology: &Topology,
    numbering: &Numbering,
    held: &LandmarkBounds,
    u: u16,
    words: &mut [u32],
)
    requires labels { AreLabels (node_count topology.now) numbering.now.order numbering.now.labels }
    requires node { u < node_count topology.now }
    requires bounds { AreHeldBounds topology.now held.now }
    requires ports { length (ports_of topology.now u) ≤ 32 }
    requires words { AreLedWords topology.now (IsWayRound topology.now held.now.owners.landmarks.items)
        (IsWayRound topology.now held.now.owners.landmarks.items) numbering.now.order u words.old }
    ensures { AreLedWords topology.now (IsWayRound topology.now held.now.owners.landmarks.items)
        (IsLandmarkBound topology.now held.now.owners.landmarks.items held.now.stretch) numbering.now.order u
        words.new }
{
    topology.invariant();
    let owners = &held.owners;
    let (list, begin) = held.part(topology, u);
    for j in 0..list[begin] as usize {
        let (node, bound) = entry(list, begin, j);
        let slot = owners.slots[owners.nodes[node as usize] as usize];
        let radius = owners.radii[node as usize];
        words[numbering.label_of(node) as usize] = led_word(
            topology,
            u,
            owners.away[slot].as_slice(),
            radius,
            bound,
        );
    }
}

// Puts the bits of a port, by the bounds from where it leads to the nodes that are near there.
fn put_port(
    topology: &Topology,
    numbering: &Numbering,
    held: &LandmarkBounds,
    at: (u16, u16),
    whole: &[u32],
    words: &mut [u32],
)
    requires labels { AreLabels (node_count topology.now) numbering.now.order numbering.now.labels }
    requires bounds { AreHeldBounds topology.now held.now }
    requires node { at.0 < node_count topology.now }
    requires port { at.1 < length (ports_of topology.now at.0) }
    requires few { at.1 < 32 }
    requires whole { AreBoundsFrom topology.now held.now.owners.landmarks.items held.now.stretch at.0 whole.now }
    requires words { AreWordsUpTo topology.now (IsWayRound topology.now held.now.owners.landmarks.items)
        (IsLandmarkBound topology.now held.now.owners.landmarks.items held.now.stretch) numbering.now.order at.0 at.1
        words.old }
    ensures { AreWordsUpTo topology.now (IsWayRound topology.now held.now.owners.landmarks.items)
        (IsLandmarkBound topology.now held.now.owners.landmarks.items held.now.stretch) numbering.now.order at.0
        (at.1 + 1) words.new }
{
    topology.invariant();
    let (u, p) = at;
    let hop = topology.port(u, p);
    let (list, begin) = held.part(topology, hop.node);
    for j in 0..list[begin] as usize {
        let (node, rest) = entry(list, begin, j);
        let label = numbering.label_of(node) as usize;
        let leads = are_within(hop.weight, rest, 0, whole[node as usize]);
        words[label] = with_bit(words[label], p, leads);
    }
}

// A word with the bit of a port set or not.
fn with_bit(word: u32, port: u16, is_set: bool) -> u32
    requires { port < 32 }
    ensures own { IsTrue is_set ↔ HasPortBit result port }
    ensures others { (q : ℕ) → q < 32 → q ≢ port → HasPortBit result q ↔ HasPortBit word q }
{
    if is_set {
        word | 1 << port
    } else {
        word & !(1 << port)
    }
}
