//! Rings of directed links that wait for each other by a plan over a network and by one over a part of it.
ghost use Rattle.std.specs.Prelude.{◌≡◌, ◌<◌, ◌≤◌, ℕ, List, Some, None, IfNone, IfOk, IfSome, IsSomeAnd, length, slice_get, slice_index_or};
ghost use Rattle.ir_model.specs.{declared.Hop.Hop, Plan.Plan, Topology.node_count};
ghost use Rattle.ir_figures.specs.Arcs.{marks_of};
ghost use Rattle.ir_figures.specs.Exits.{exits_before, AreExits, AreLinks};
ghost use Rattle.ir_figures.specs.Parts.{AreWaitsOf, IsNumberIn, AreNumbersIn, StandsAt, AreMarkedToo, HavePlaces};
ghost use Rattle.ir_figures.specs.Waits.{whole_number, WaitsBeside, IsWithoutRing, IsWaitingRing};

use crate::waits::{Exits, Waiting, mark, ring_in, waiting_of};
use ir_model::Hop;
use ir_plan::Plan;
use ir_tables::Topology;
use std::alloc::{AllocError, Global};
use std::marker::Model;

/// The number in the whole network of a node of the network without a node, or of the whole network itself.
fn whole_number(without: Option<u16>, u: u16) -> u16
    requires { whole_number without u ≤ 65535 }
    ensures { result ≡ whole_number without u }
{
    match without {
        Some(k) => { if u < k { u } else { u + 1 } }
        None => u,
    }
}

/// The port that leads to a node.
fn port_to(ports: &[Hop], v: u16) -> Option<usize>
    ensures some { IfSome result (λ p. IsSomeAnd (slice_get ports.now p) (λ hop. hop.node ≡ v)) }
    ensures none { IfNone result ((p : ℕ) (hop : Hop) → slice_get ports.now p ≡ Some hop
        → hop.node ≡ v → ⊥) }
{
    for p in 0..ports.len() {
        if ports[p].node == v {
            return Some(p);
        }
    }
    None
}

/// The number in the whole network of a directed link of a part of it, if it is one of both.
fn link_in(
    whole: &Topology,
    first: &[u32],
    without: Option<u16>,
    part: &Topology,
    exits: &Exits,
    c: usize,
) -> Option<usize>
    requires first { (nodes : List ℕ) × AreExits whole.now (node_count whole.now) first.now nodes }
    requires exits { AreExits part.now (node_count part.now) exits.now.first.items exits.now.nodes.items }
    requires within { (x : ℕ) → x < node_count part.now → whole_number without x < node_count whole.now }
    requires link { c < length exits.now.nodes.items }
    ensures { IsNumberIn whole.now (whole_number without) part.now c result }
{
    part.invariant();
    whole.invariant();
    let x = exits.nodes[c];
    let r = c - exits.first[x as usize] as usize;
    let y = part.ports(x as usize)[r].node;
    let u = whole_number(without, x);
    let Some(p) = port_to(whole.ports(u as usize), whole_number(without, y)) else {
        return None;
    };
    Some(first[u as usize] as usize + p)
}

/// The numbers in the whole network of the directed links of a part of it.
fn links_in(
    alloc: Global,
    whole: &Topology,
    first: &[u32],
    without: Option<u16>,
    part: &Topology,
    exits: &Exits,
) -> Result<Vec<Option<usize>>, AllocError>
    requires first { (nodes : List ℕ) × AreExits whole.now (node_count whole.now) first.now nodes }
    requires exits { AreExits part.now (node_count part.now) exits.now.first.items exits.now.nodes.items }
    requires within { (x : ℕ) → x < node_count part.now → whole_number without x < node_count whole.now }
    ensures { IfOk result (λ numbers. AreNumbersIn whole.now (whole_number without) part.now
        (length exits.now.nodes.items) numbers.items) }
{
    let mut numbers = Vec::with_capacity(alloc, exits.nodes.len())?;
    for c in 0..exits.nodes.len() {
        numbers.push(link_in(whole, first, without, part, exits, c))?;
    }
    Ok(numbers)
}

/// The same rows of marks.
fn copied(alloc: Global, rows: &[Vec<bool>]) -> Result<Vec<Vec<bool>>, AllocError>
    ensures { IfOk result (λ copy. marks_of copy.items ≡ marks_of rows.now) }
{
    let mut copy = Vec::with_capacity(alloc, rows.len())?;
    for row in rows {
        let one = row.as_slice().to_vec(alloc)?;
        copy.push(one)?;
    }
    Ok(copy)
}

/// Marks in the row of a link of the whole network what the same link waits for in the part.
fn mark_row(
    begins: &[u32],
    rows: &mut Vec<Vec<bool>>,
    inner: &[u32],
    marks: &[Vec<bool>],
    numbers: &[Option<usize>],
    a: usize,
    c: usize,
)
    requires places { HavePlaces begins.now inner.now (marks_of marks.now) numbers.now (marks_of rows.old.items) }
    requires link { a < length marks.now }
    requires number { slice_index_or numbers.now a None ≡ Some c }
    ensures { AreMarkedToo (StandsAt begins.now inner.now (marks_of marks.now) numbers.now) (λ x k. x ≡ a)
        (marks_of rows.old.items) (marks_of rows.new.items) }
{
    let row = marks[a].as_slice();
    let from = inner[a] as usize;
    for k in 0..row.len() {
        if row[k] {
            if let Some(d) = numbers[from + k] {
                mark(&mut rows[c], d - begins[c] as usize);
            }
        }
    }
}

/// Marks in the rows of the whole network what links wait for in the part.
fn mark_rows(
    begins: &[u32],
    rows: &mut Vec<Vec<bool>>,
    inner: &[u32],
    marks: &[Vec<bool>],
    numbers: &[Option<usize>],
)
    requires { HavePlaces begins.now inner.now (marks_of marks.now) numbers.now (marks_of rows.old.items) }
    ensures { AreMarkedToo (StandsAt begins.now inner.now (marks_of marks.now) numbers.now)
        (λ x k. x < length marks.now) (marks_of rows.old.items) (marks_of rows.new.items) }
{
    for a in 0..marks.len() {
        if let Some(c) = numbers[a] {
            mark_row(begins, rows, inner, marks, numbers, a, c);
        }
    }
}

/// The marks of the links of a plan's network, with those of a plan over a part of it.
fn marks_beside(
    alloc: Global,
    plan: &Plan,
    held: &Waiting,
    without: Option<u16>,
    part: &Plan,
    waiting: &Waiting,
) -> Result<Vec<Vec<bool>>, AllocError>
    requires held { AreWaitsOf plan.now held.now }
    requires waiting { AreWaitsOf part.now waiting.now }
    requires within { (x : ℕ) → x < node_count part.now.topology
        → whole_number without x < node_count plan.now.topology }
    ensures { IfOk result (λ marks. AreLinks plan.now.topology
        (WaitsBeside plan.now (whole_number without) part.now) held.now.links.begins.items (marks_of marks.items)
        (exits_before plan.now.topology (node_count plan.now.topology))) }
{
    plan.invariant();
    part.invariant();
    let first = held.exits.first.as_slice();
    let exits = &waiting.exits;
    let numbers = links_in(
        alloc,
        plan.topology(),
        first,
        without,
        part.topology(),
        exits,
    )?;
    let mut rows = copied(alloc, held.links.marks.as_slice())?;
    let begins = held.links.begins.as_slice();
    let inner = waiting.links.begins.as_slice();
    mark_rows(
        begins,
        &mut rows,
        inner,
        waiting.links.marks.as_slice(),
        numbers.as_slice(),
    );
    Ok(rows)
}

/// The nodes that waiting links leave in a ring, if there is one, where packets of a plan over a network and of one
/// over a part of it are under way at once.
pub(crate) fn ring_beside(
    alloc: Global,
    plan: &Plan,
    held: &Waiting,
    without: Option<u16>,
    part: &Plan,
    waiting: &Waiting,
) -> Result<Option<Vec<u16>>, AllocError>
    requires held { AreWaitsOf plan.now held.now }
    requires waiting { AreWaitsOf part.now waiting.now }
    requires within { (x : ℕ) → x < node_count part.now.topology
        → whole_number without x < node_count plan.now.topology }
    ensures acyclic { IfOk result (λ found.
        IfNone found (IsWithoutRing (WaitsBeside plan.now (whole_number without) part.now))) }
    ensures ring { IfOk result (λ found. IfSome found (λ nodes. (ports : List ℕ)
        × IsWaitingRing (WaitsBeside plan.now (whole_number without) part.now) nodes.items ports)) }
{
    plan.invariant();
    part.invariant();
    let marks = marks_beside(alloc, plan, held, without, part, waiting)?;
    let begins = held.links.begins.as_slice();
    ring_in(alloc, held.exits.nodes.as_slice(), begins, marks.as_slice())
}

/// A plan over a whole network whose packets are under way beside those of plans over parts of it, with what waits for
/// what by it.
#[derive(Drop)]
pub struct Beside {
    plan: Plan,
    waiting: Waiting,
}

impl Model for Beside {
    ghost Value = { Plan };

    ghost view = { λ b. b.plan };

    ghost invariant = { λ b. AreWaitsOf b.plan b.waiting };
}

impl Beside {
    /// The plan, with what waits for what by it. Refused for memory alone. It takes as long as `waiting_ring`.
    pub fn of(alloc: Global, plan: Plan) -> Result<Beside, AllocError>
        ensures { IfOk result (λ beside. beside ≡ plan) }
    {
        let waiting = waiting_of(alloc, &plan)?;
        Ok(Beside { plan, waiting })
    }

    /// The nodes that waiting links leave in a ring, if there is one, where packets of this plan and of one over a part
    /// of its network are under way at once.
    pub(crate) fn ring(
        &self,
        alloc: Global,
        without: Option<u16>,
        part: &Plan,
        waiting: &Waiting,
    ) -> Result<Option<Vec<u16>>, AllocError>
        requires waiting { AreWaitsOf part.now waiting.now }
        requires within { (x : ℕ) → x < node_count part.now.topology
            → whole_number without x < node_count self.now.topology }
        ensures acyclic { IfOk result (λ found.
            IfNone found (IsWithoutRing (WaitsBeside self.now (whole_number without) part.now))) }
        ensures ring { IfOk result (λ found. IfSome found (λ nodes. (ports : List ℕ)
            × IsWaitingRing (WaitsBeside self.now (whole_number without) part.now) nodes.items ports)) }
    {
        ring_beside(alloc, &self.plan, &self.waiting, without, part, waiting)
    }
}
