//! Which ports lead nearer to which nodes of a list, for all ports of all nodes.
ghost use Rattle.std.specs.Prelude.{◌≡◌, ◌↔◌, ℕ, ◌+◌, ◌*◌, ◌<◌, ◌≤◌, [], false, IfOk, IfSome, OnOk, length, slice_index, slice_index_or};
ghost use Rattle.ir_model.specs.Topology.{node_count, ports_of};
ghost use Rattle.ir_lanes.specs.{Inward.{ports_before}, Views.port_marks_of};
ghost use Rattle.ir_lanes.specs.Marks.{AreBatchWords, AreBatches, AreMarked, AreMarksTo, ArePortMarks, ArePushedTied};
ghost use Rattle.ir_lanes.specs.Marks.{AreSixteen, AreTied, PortMarks, PutsWord, node_from, word_lists};

use crate::inward::words_toward;
use crate::vectors::{LANES, with_port};
use ir_tables::Topology;
use std::alloc::{AllocError, Global};
use std::marker::Model;
use std::simd::prelude::*;

/// A mark for each port of each node and each place of a list of nodes: whether the port leads nearer to the node
/// there. Takes 2 m n bits, for n nodes in the list and m links.
#[derive(Drop)]
pub struct PortMarks {
    begins: Vec<usize>,
    batches: Vec<Vec<u16>>,
}

impl Model for PortMarks {
    ghost Value = { PortMarks };

    ghost view = { port_marks_of };
}

impl PortMarks {
    /// The marks for a list of nodes; or none, where the distances to some of them were not found in time. Condition:
    /// they are nodes. It is refused for memory alone. Takes O(n + m) for each sweep of each sixteen of the list, for n
    /// nodes and m links.
    pub fn of(
        alloc: Global,
        topology: &Topology,
        order: &[u16],
    ) -> Result<Option<PortMarks>, AllocError>
        requires { (d : ℕ) → d < length order.now → slice_index order.now d < node_count topology.now }
        ensures { IfOk result (λ found. IfSome found (λ marks. ArePortMarks topology.now order.now marks)) }
    {
        let count = order.len().div_ceil(LANES);
        let mut batches = Vec::with_capacity(alloc, count)?;
        for batch in 0..count {
            match words_to(alloc, topology, order, batch)? {
                Some(words) => batches.push(words)?,
                None => return Ok(None),
            }
        }
        Ok(Some(PortMarks::from_batches(alloc, topology, order, batches)?))
    }

    /// The marks for a list of nodes, of the words of all ports, by batches of sixteen nodes of the list. Condition:
    /// these are their words, and of all of the list. It is refused for memory alone. Takes O(n), for n nodes.
    pub fn from_batches(
        alloc: Global,
        topology: &Topology,
        order: &[u16],
        batches: Vec<Vec<u16>>,
    ) -> Result<PortMarks, AllocError>
        requires batches { AreBatches topology.now order.now (word_lists batches.items) }
        requires enough { length order.now ≤ length batches.items * 16 }
        ensures { IfOk result (λ marks. ArePortMarks topology.now order.now marks) }
    {
        let begins = begins_of(alloc, topology)?;
        Ok(PortMarks { begins, batches })
    }

    /// The marks of a port of a node, by the places of the list, and the places that have one, in order. Condition:
    /// these are the marks for the list, which has at most 65,536 places, and the node has the port. It is refused for
    /// memory alone. Takes O(n), for n nodes in the list.
    pub fn row(
        &self,
        alloc: Global,
        topology: &Topology,
        order: &[u16],
        node: u16,
        port: usize,
    ) -> Result<(Vec<bool>, Vec<u16>), AllocError>
        requires marks { ArePortMarks topology.now order.now self.now }
        requires few { length order.now ≤ 65536 }
        requires node { node < node_count topology.now }
        requires port { port < length (ports_of topology.now node) }
        ensures marks { IfOk result (λ made. AreMarksTo topology.now order.now node port made.0.items) }
        ensures marked { IfOk result (λ made. AreMarked made.0.items made.1.items) }
    {
        topology.invariant();
        let place = self.begins[node as usize] + port;
        let mut row = vec![in alloc; false; order.len()]?;
        let mut marked = Vec::new(alloc);
        for batch in 0..order.len().div_ceil(LANES) {
            put_word(
                self.word(batch, place),
                batch * LANES,
                &mut row,
                &mut marked,
            )?;
        }
        Ok((row, marked))
    }

    /// For each place of the list a word whose bits are the ports of a node that lead nearer to the node there; up to
    /// fifteen words more follow these. Condition: these are the marks for the list, and the node has at most 32
    /// ports. It is refused for memory alone. Takes O(n) for each port, for n nodes in the list.
    pub fn tied(
        &self,
        alloc: Global,
        topology: &Topology,
        order: &[u16],
        node: u16,
    ) -> Result<Vec<u32>, AllocError>
        requires marks { ArePortMarks topology.now order.now self.now }
        requires few { length order.now ≤ 65536 }
        requires node { node < node_count topology.now }
        requires ports { length (ports_of topology.now node) ≤ 32 }
        ensures { IfOk result (λ tied. AreTied topology.now order.now node tied.items) }
    {
        topology.invariant();
        let begin = self.begins[node as usize];
        let ports = topology.ports(node as usize).len();
        let batches = order.len().div_ceil(LANES);
        let mut tied = Vec::with_capacity(alloc, batches * LANES)?;
        for batch in 0..batches {
            push_tied(self.batches[batch].as_slice(), begin, ports, &mut tied)?;
        }
        Ok(tied)
    }

    // The word of a port in a batch.
    fn word(&self, batch: usize, place: usize) -> u16
        requires batch { batch < length self.now.batches }
        requires place { place < length (slice_index_or self.now.batches batch []) }
        ensures { result ≡ slice_index (slice_index_or self.now.batches batch []) place }
    {
        let words = &self.batches[batch];
        words[place]
    }
}

/// The words of all ports for a batch of sixteen nodes of a list, the first batch being 0; or none, where the distances
/// to them were not found in time. Condition: they are nodes, and the list has such a batch. It is refused for memory
/// alone. Takes O(n + m) for each sweep, for n nodes and m links.
pub fn words_to(
    alloc: Global,
    topology: &Topology,
    order: &[u16],
    batch: usize,
) -> Result<Option<Vec<u16>>, AllocError>
    requires nodes { (d : ℕ) → d < length order.now → slice_index order.now d < node_count topology.now }
    requires batch { batch * 16 < length order.now }
    ensures { IfOk result (λ found. IfSome found (λ words. AreBatchWords topology.now order.now batch words.items)) }
{
    let ends = sixteen_from(alloc, order, batch * LANES)?;
    let Some(words) = words_toward(alloc, topology, ends.as_slice())? else {
        return Ok(None);
    };
    Ok(Some(words))
}

/// Sixteen nodes of a list, from a place on; where it ends before, the last one again. Condition: the list has the
/// place. It is refused for memory alone.
pub fn sixteen_from(alloc: Global, nodes: &[u16], first: usize) -> Result<Vec<u16>, AllocError>
    requires { first < length nodes.now }
    ensures { IfOk result (λ sixteen. AreSixteen nodes.now first sixteen.items) }
{
    let mut sixteen = Vec::with_capacity(alloc, LANES)?;
    for k in 0..LANES {
        sixteen.push(node_from(nodes, first, k))?;
    }
    Ok(sixteen)
}

// Puts sixteen words after the others, whose bits are the ports, of some whose words are from `begin` on, in whose
// words the bit of the place is set.
fn push_tied(
    words: &[u16],
    begin: usize,
    ports: usize,
    tied: &mut Vec<u32>,
) -> Result<(), AllocError>
    requires few { ports ≤ 32 }
    requires words { begin + ports ≤ length words.now }
    ensures { OnOk result (ArePushedTied words.now begin ports tied.old.items tied.new.items) }
{
    let mut lanes = u32x16::splat(0);
    for p in 0..ports {
        lanes = with_port(lanes, words[begin + p], p as u32);
    }
    tied.extend_from_slice(&lanes.to_array())
}

// The node so far after a place of a list, or the last one.
fn node_from(nodes: &[u16], first: usize, behind: usize) -> u16
    requires { first < length nodes.now }
    ensures { result ≡ node_from nodes.now (first + behind) }
{
    let last = nodes.len() - 1;
    if behind <= last - first {
        nodes[first + behind]
    } else {
        nodes[last]
    }
}

// Where the ports of each node begin, among all ports in order.
fn begins_of(alloc: Global, topology: &Topology) -> Result<Vec<usize>, AllocError>
    ensures every { IfOk result (λ begins. length begins.items ≡ node_count topology.now) }
    ensures each { IfOk result (λ begins. (u : ℕ) → u < node_count topology.now
        → slice_index begins.items u ≡ ports_before topology.now u) }
{
    let nodes = topology.nodes();
    let mut begins = Vec::with_capacity(alloc, nodes)?;
    let mut begin = 0;
    for u in 0..nodes {
        begins.push(begin)?;
        begin += topology.ports(u).len();
    }
    Ok(begins)
}

// Puts the bits of a word into a row that has no mark from a place on, and the places that they mark into a list.
fn put_word(
    word: u16,
    first: usize,
    row: &mut Vec<bool>,
    marked: &mut Vec<u16>,
) -> Result<(), AllocError>
    requires first { first ≤ 65536 }
    requires few { length row.old.items ≤ 65536 }
    requires clean { (d : ℕ) → first ≤ d → slice_index_or row.old.items d false ≡ false }
    ensures { OnOk result (PutsWord word first row.old.items marked.old.items row.new.items marked.new.items) }
{
    let mut rest = word;
    let mut bit = 0;
    while rest != 0 {
        let skip = rest.trailing_zeros() as usize;
        let d = first + bit + skip;
        if d < row.len() {
            row[d] = true;
            marked.push(d as u16)?;
        }
        rest = rest >> skip >> 1;
        bit += skip + 1;
    }
    Ok(())
}
