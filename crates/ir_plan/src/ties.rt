//! The marks of the ports that lead nearer, for the rows of a compact plan.

ghost use Rattle.std.specs.Prelude.{[], ◌≡◌, ◌≢◌, ◌*◌, ◌<◌, ◌≤◌, ℕ, IfOk, IfSome, IsTrue, length, slice_index, slice_index_or};
ghost use Rattle.ir_model.specs.{Topology.{node_count, ports_of}, Plan.AreLabels};
ghost use Rattle.ir_lanes.specs.Marks.{AreTied};
ghost use Rattle.ir_compile.specs.Runs.{HasMarked};
ghost use Rattle.ir_plan.specs.{CompactRows.AreTiedMarks, Distances.lists_of, Ties.{AreTies, MayBeWords}};

use crate::batches::{BATCH, LEAST_BATCHED};
use crate::crew::Crew;
use crate::patience::Patience;
use ir_lanes::{PortMarks, words_to};
use ir_numbering::Numbering;
use ir_tables::Topology;
use std::alloc::{AllocError, Global};

/// The most bytes of marks that are held for a plan: those of 32,768 nodes and 131,072 links.
const MOST_MARK_BYTES: usize = 1_073_741_824;

/// The nodes by label, and for each port of each node the marks of those to which it leads nearer.
#[derive(Drop)]
pub struct Ties {
    pub order: Vec<u16>,
    pub marks: PortMarks,
}

impl Ties {
    /// The ties of a network, where its nodes are enough to search to sixteen at a time and there is memory for its
    /// marks, and where the searches found them.
    pub fn of(
        crew: &impl Crew,
        alloc: Global,
        topology: &Topology,
        numbering: &Numbering,
    ) -> Result<Option<Ties>, AllocError>
        requires { AreLabels (node_count topology.now) numbering.now.order numbering.now.labels }
        ensures { IfOk result (λ found. IfSome found (AreTies topology.now numbering.now.order)) }
    {
        if !are_held(topology) {
            return Ok(None);
        }
        let order = Vec::from_slice(alloc, numbering.order())?;
        let Ok(batches) = words_of(crew, alloc, topology, order.as_slice()) else {
            return Ok(None);
        };
        if !are_found(batches.as_slice()) {
            return Ok(None);
        }
        let marks = PortMarks::from_batches(alloc, topology, order.as_slice(), batches)?;
        Ok(Some(Ties { order, marks }))
    }

    /// The marks of a port of a node, by label, and the labels that have one, in order.
    pub fn row(
        &self,
        alloc: Global,
        topology: &Topology,
        u: u16,
        p: usize,
    ) -> Result<(Vec<bool>, Vec<u16>), AllocError>
        requires ties { AreTies topology.now self.now.order.items self.now }
        requires every { length self.now.order.items ≡ node_count topology.now }
        requires node { u < node_count topology.now }
        requires port { p < length (ports_of topology.now u) }
        ensures marks { IfOk result (λ made. AreTiedMarks topology.now self.now.order.items u p made.0.items) }
        ensures marked { IfOk result (λ made. HasMarked (node_count topology.now) made.0.items made.1.items) }
    {
        topology.invariant();
        self.marks.row(alloc, topology, self.order.as_slice(), u, p)
    }

    /// For each label a word whose bits are the ports of a node that lead nearer to the node of the label, and up to
    /// fifteen words more.
    pub fn tied(&self, alloc: Global, topology: &Topology, u: u16) -> Result<Vec<u32>, AllocError>
        requires ties { AreTies topology.now self.now.order.items self.now }
        requires every { length self.now.order.items ≡ node_count topology.now }
        requires node { u < node_count topology.now }
        requires ports { length (ports_of topology.now u) ≤ 32 }
        ensures { IfOk result (λ tied. AreTied topology.now self.now.order.items u tied.items) }
    {
        topology.invariant();
        self.marks.tied(alloc, topology, self.order.as_slice(), u)
    }
}

// Whether the marks of a network are held: its nodes are enough for batches, and the marks not too many.
fn are_held(topology: &Topology) -> bool {
    let nodes = topology.nodes();
    nodes >= LEAST_BATCHED && topology.links().saturating_mul(nodes) / 4 <= MOST_MARK_BYTES
}

// The words of all ports for each batch of nodes of a list; none for a batch where they were not found.
fn words_of(
    crew: &impl Crew,
    alloc: Global,
    topology: &Topology,
    order: &[u16],
) -> Result<Vec<Vec<u16>>, AllocError>
    requires { (d : ℕ) → d < length order.now → slice_index order.now d < node_count topology.now }
    ensures each { IfOk result (λ found. (b : ℕ) → b < length found.items
        → MayBeWords topology.now order.now b (slice_index_or (lists_of found.items) b [])) }
    ensures enough { IfOk result (λ found. length order.now ≤ length found.items * 16) }
{
    let patience = &Patience::new();
    crew.lists(
        alloc,
        order.len().div_ceil(BATCH),
        1,
        &|batch: usize| -> Result<Vec<u16>, AllocError>
            requires { (batch * 16 < length order.now)
                × ((d : ℕ) → d < length order.now → slice_index order.now d < node_count topology.now) }
            ensures { IfOk result (λ words. MayBeWords topology.entry.now order.entry.now batch words.items) }
        { words_by(alloc, topology, order, batch, patience) },
    )
}

// The words of all ports for a batch of nodes of a list, where the lanes are tried and find them, else none.
fn words_by(
    alloc: Global,
    topology: &Topology,
    order: &[u16],
    batch: usize,
    patience: &Patience,
) -> Result<Vec<u16>, AllocError>
    requires nodes { (d : ℕ) → d < length order.now → slice_index order.now d < node_count topology.now }
    requires batch { batch * 16 < length order.now }
    ensures { IfOk result (λ words. MayBeWords topology.now order.now batch words.items) }
{
    if !patience.tries() {
        return Ok(Vec::new(alloc));
    }
    match words_to(alloc, topology, order, batch)? {
        Some(words) => {
            patience.learns(true);
            Ok(words)
        }
        None => {
            patience.learns(false);
            Ok(Vec::new(alloc))
        }
    }
}

// Whether each batch has words.
fn are_found(batches: &[Vec<u16>]) -> bool
    ensures { IsTrue result → (b : ℕ) → b < length batches.now
        → slice_index_or (lists_of batches.now) b [] ≢ [] }
{
    for words in batches {
        if words.is_empty() {
            return false;
        }
    }
    true
}
