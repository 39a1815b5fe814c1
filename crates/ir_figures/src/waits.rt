//! Rings of directed links that wait for each other.
ghost use Rattle.std.specs.Prelude.{◌≡◌, ◌+◌, ◌<◌, ℕ, List, true, false, replicate, IfNone, IfOk, IfSome, OnOk, length, slice_index, slice_set};
ghost use Rattle.ir_model.specs.{Topology.node_count, Plan.IsPlan};
ghost use Rattle.ir_figures.specs.Arcs.{marks_of, IsDigraph, IsAcyclic, IsRing};
ghost use Rattle.ir_figures.specs.Waits.{Waits, WaitsInEither, IsWithoutRing, IsWaitingRing};
ghost use Rattle.ir_figures.specs.Exits.{exits_before, AreExits, AreNextExits, ArePortsTo, WaitsSoFar, AreLinks, AreLeftBy};
ghost use Rattle.ir_figures.specs.Parts.{AreWaitsOf};

use crate::column::{first_places, read_column};
use crate::parts::ring_beside;
use crate::search::ring_of;
use ir_plan::Plan;
use ir_tables::Topology;
use std::alloc::{AllocError, Global};

/// Where the links that leave each node begin, and the node that each link leaves.
#[derive(Drop)]
pub struct Exits {
    pub(crate) first: Vec<u32>,
    pub(crate) nodes: Vec<u16>,
}

/// Writes a node as often as it has links.
fn push_node(nodes: &mut Vec<u16>, u: u16, links: usize) -> Result<(), AllocError>
    ensures { OnOk result (AreNextExits nodes.old.items u links nodes.new.items) }
{
    for _p in 0..links {
        nodes.push(u)?;
    }
    Ok(())
}

/// The links of a topology.
fn exits_of(alloc: Global, topology: &Topology) -> Result<Exits, AllocError>
    ensures { IfOk result (λ exits.
        AreExits topology.now (node_count topology.now) exits.first.items exits.nodes.items) }
{
    let mut first = Vec::with_capacity(alloc, topology.nodes())?;
    let mut nodes = Vec::new(alloc);
    for u in 0..topology.nodes() {
        first.push(nodes.len() as u32)?;
        push_node(&mut nodes, u as u16, topology.degree(u as u16))?;
    }
    Ok(Exits { first, nodes })
}

/// For each directed link where the links begin of the node that it leads to, and which of these links take on what
/// comes over it.
#[derive(Drop)]
pub struct Links {
    pub(crate) begins: Vec<u32>,
    pub(crate) marks: Vec<Vec<bool>>,
}

/// So many places without a mark.
fn unmarked(alloc: Global, count: usize) -> Result<Vec<bool>, AllocError>
    ensures { IfOk result (λ marks. marks.items ≡ replicate count false) }
{
    vec![in alloc; false; count]
}

/// Adds the links that leave a node, none of which waits for another one yet.
fn push_links(
    alloc: Global,
    plan: &Plan,
    first: &[u32],
    links: &mut Links,
    u: u16,
) -> Result<(), AllocError>
    requires plan { IsPlan plan.now }
    requires node { u < node_count plan.now.topology }
    requires first { (nodes : List ℕ) × AreExits plan.now.topology (node_count plan.now.topology) first.now nodes }
    requires links { AreLinks plan.now.topology (WaitsSoFar plan.now 0 0) links.old.begins.items
        (marks_of links.old.marks.items) (exits_before plan.now.topology u) }
    ensures { OnOk result (AreLinks plan.now.topology (WaitsSoFar plan.now 0 0) links.new.begins.items
        (marks_of links.new.marks.items) (exits_before plan.now.topology (u + 1))) }
{
    for p in 0..plan.topology().degree(u) {
        let next = plan.hop(u, p as u16).node;
        let marks = unmarked(alloc, plan.topology().degree(next))?;
        links.marks.push(marks)?;
        links.begins.push(first[next as usize])?;
    }
    Ok(())
}

/// The links of a plan's network, none of which waits for another one yet.
fn still_links(alloc: Global, plan: &Plan, first: &[u32]) -> Result<Links, AllocError>
    requires first { (nodes : List ℕ) × AreExits plan.now.topology (node_count plan.now.topology) first.now nodes }
    ensures { IfOk result (λ links. AreLinks plan.now.topology (WaitsSoFar plan.now 0 0) links.begins.items
        (marks_of links.marks.items) (exits_before plan.now.topology (node_count plan.now.topology))) }
{
    let mut links = Links {
        begins: Vec::new(alloc),
        marks: Vec::new(alloc),
    };
    for u in 0..plan.nodes() {
        push_links(alloc, plan, first, &mut links, u as u16)?;
    }
    Ok(links)
}

/// Marks a place of a row.
pub(crate) fn mark(row: &mut Vec<bool>, q: usize)
    requires { q < length row.old.items }
    ensures { row.new.items ≡ slice_set row.old.items q true }
{
    row[q] = true;
}

/// Marks what the link of a node waits for by which it sends to a label.
fn mark_way(plan: &Plan, first: &[u32], column: &[Option<u16>], a: u16, u: u16, links: &mut Links)
    requires plan { IsPlan plan.now }
    requires label { a < node_count plan.now.topology }
    requires node { u < node_count plan.now.topology }
    requires column { ArePortsTo plan.now a column.now }
    requires first { (nodes : List ℕ) × AreExits plan.now.topology (node_count plan.now.topology) first.now nodes }
    requires links { AreLinks plan.now.topology (WaitsSoFar plan.now a u) links.old.begins.items
        (marks_of links.old.marks.items) (exits_before plan.now.topology (node_count plan.now.topology)) }
    ensures { AreLinks plan.now.topology (WaitsSoFar plan.now a (u + 1)) links.new.begins.items
        (marks_of links.new.marks.items) (exits_before plan.now.topology (node_count plan.now.topology)) }
{
    if let Some(p) = column[u as usize] {
        let next = plan.hop(u, p).node;
        if let Some(q) = column[next as usize] {
            let link = first[u as usize] as usize + p as usize;
            mark(&mut links.marks[link], q as usize);
        }
    }
}

/// Marks which links wait for which on the ways to a label.
fn mark_column(plan: &Plan, first: &[u32], column: &[Option<u16>], a: u16, links: &mut Links)
    requires plan { IsPlan plan.now }
    requires label { a < node_count plan.now.topology }
    requires column { ArePortsTo plan.now a column.now }
    requires first { (nodes : List ℕ) × AreExits plan.now.topology (node_count plan.now.topology) first.now nodes }
    requires links { AreLinks plan.now.topology (WaitsSoFar plan.now a 0) links.old.begins.items
        (marks_of links.old.marks.items) (exits_before plan.now.topology (node_count plan.now.topology)) }
    ensures { AreLinks plan.now.topology (WaitsSoFar plan.now (a + 1) 0) links.new.begins.items
        (marks_of links.new.marks.items) (exits_before plan.now.topology (node_count plan.now.topology)) }
{
    for u in 0..plan.nodes() {
        mark_way(plan, first, column, a, u as u16, links);
    }
}

/// The links of a plan's network.
fn links_of(alloc: Global, plan: &Plan, first: &[u32]) -> Result<Links, AllocError>
    requires first { (nodes : List ℕ) × AreExits plan.now.topology (node_count plan.now.topology) first.now nodes }
    ensures { IfOk result (λ links. AreLinks plan.now.topology (Waits plan.now) links.begins.items
        (marks_of links.marks.items) (exits_before plan.now.topology (node_count plan.now.topology))) }
{
    plan.invariant();
    let mut links = still_links(alloc, plan, first)?;
    let mut places = first_places(alloc, plan)?;
    let mut column = vec![in alloc; None; plan.nodes()]?;
    for a in 0..plan.nodes() {
        read_column(plan, a as u16, &mut places, &mut column);
        mark_column(plan, first, column.as_slice(), a as u16, &mut links);
    }
    Ok(links)
}

/// The nodes that links leave, by the links' numbers.
fn nodes_of(alloc: Global, nodes: &[u16], ring: &[u32]) -> Result<Vec<u16>, AllocError>
    requires { (i : ℕ) → i < length ring.now → slice_index ring.now i < length nodes.now }
    ensures { IfOk result (λ named. AreLeftBy nodes.now ring.now named.items) }
{
    let mut named = Vec::with_capacity(alloc, ring.len())?;
    for c in ring {
        named.push(nodes[*c as usize])?;
    }
    Ok(named)
}

/// The directed links of a plan's network, and which of them wait for which.
#[derive(Drop)]
pub struct Waiting {
    pub(crate) exits: Exits,
    pub(crate) links: Links,
}

/// The directed links of a plan's network, and which of them wait for which.
pub(crate) fn waiting_of(alloc: Global, plan: &Plan) -> Result<Waiting, AllocError>
    ensures { IfOk result (λ waiting. AreWaitsOf plan.now waiting) }
{
    let exits = exits_of(alloc, plan.topology())?;
    let links = links_of(alloc, plan, exits.first.as_slice())?;
    Ok(Waiting { exits, links })
}

/// The nodes that the links of a ring leave, if there is one.
pub(crate) fn ring_in(
    alloc: Global,
    nodes: &[u16],
    begins: &[u32],
    marks: &[Vec<bool>],
) -> Result<Option<Vec<u16>>, AllocError>
    requires digraph { IsDigraph begins.now (marks_of marks.now) }
    requires every { length nodes.now ≡ length marks.now }
    ensures acyclic { IfOk result (λ found. IfNone found (IsAcyclic begins.now (marks_of marks.now))) }
    ensures ring { IfOk result (λ found. IfSome found (λ named. (ring : List ℕ)
        × IsRing begins.now (marks_of marks.now) ring × AreLeftBy nodes.now ring named.items)) }
{
    let Some(ring) = ring_of(alloc, begins, marks)? else {
        return Ok(None);
    };
    let named = nodes_of(alloc, nodes, ring.as_slice())?;
    Ok(Some(named))
}

/// The nodes that waiting links of a plan leave in a ring, if there is one.
pub(crate) fn ring_of_waits(
    alloc: Global,
    plan: &Plan,
    waiting: &Waiting,
) -> Result<Option<Vec<u16>>, AllocError>
    requires { AreWaitsOf plan.now waiting.now }
    ensures acyclic { IfOk result (λ found. IfNone found (IsWithoutRing (Waits plan.now))) }
    ensures ring { IfOk result (λ found.
        IfSome found (λ nodes. (ports : List ℕ) × IsWaitingRing (Waits plan.now) nodes.items ports)) }
{
    plan.invariant();
    ring_in(
        alloc,
        waiting.exits.nodes.as_slice(),
        waiting.links.begins.as_slice(),
        waiting.links.marks.as_slice(),
    )
}

/// Nodes that directed links leave which wait for each other in a ring, in order; None where the
/// links can be numbered such that each waits for greater ones alone. A link waits for another one
/// where a walk that the plan prescribes takes them one after the other: packets that hold one's
/// buffer wait for room in the other's (Dally and Seitz 1987).
///
/// It takes a byte for each directed link and port of the node that it leads to. Refused for memory alone. Takes
/// O(n * n log n + n m), for n nodes and m links.
pub fn waiting_ring(alloc: Global, plan: &Plan) -> Result<Option<Vec<u16>>, AllocError>
    ensures acyclic { IfOk result (λ found. IfNone found (IsWithoutRing (Waits plan.now))) }
    ensures ring { IfOk result (λ found.
        IfSome found (λ nodes. (ports : List ℕ) × IsWaitingRing (Waits plan.now) nodes.items ports)) }
{
    let waiting = waiting_of(alloc, plan)?;
    ring_of_waits(alloc, plan, &waiting)
}

/// The same of two plans over one network together: a link waits for another one where it does so
/// in either plan, as while packets of both are under way in shared buffers.
///
/// Condition: both plans are over the same network. It takes two bytes for each directed link and
/// port of the node that it leads to. Refused for memory alone. Takes as long as `waiting_ring` of
/// both plans.
pub fn waiting_ring_together(
    alloc: Global,
    plan: &Plan,
    second: &Plan,
) -> Result<Option<Vec<u16>>, AllocError>
    requires { second.now.topology ≡ plan.now.topology }
    ensures acyclic { IfOk result (λ found. IfNone found (IsWithoutRing (WaitsInEither plan.now second.now))) }
    ensures ring { IfOk result (λ found. IfSome found (λ nodes. (ports : List ℕ)
        × IsWaitingRing (WaitsInEither plan.now second.now) nodes.items ports)) }
{
    plan.invariant();
    second.invariant();
    let waiting = waiting_of(alloc, plan)?;
    let more = waiting_of(alloc, second)?;
    ring_beside(alloc, plan, &waiting, None, second, &more)
}
