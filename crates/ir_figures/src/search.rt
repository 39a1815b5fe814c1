//! Digraphs: whether the nodes can be numbered such that each arc rises, or else a ring of arcs.
//!
//! An arc from a node leads into that node's block, some nodes in a row, of which those that an arc
//! leads to are marked. `specs/Arcs` says what an arc, rising numbers and a ring are; the search is
//! depth first (Tarjan 1972).
ghost use Rattle.std.specs.Prelude.{◌≡◌, ◌+◌, ◌<◌, ◌≤◌, ℕ, List, length, slice_index, IfOk, IfNone, IfSome, OnOk};
ghost use Rattle.ir_figures.specs.Arcs.{marks_of, width_of, IsAcyclic, IsDigraph, IsRing};
ghost use Rattle.ir_figures.specs.Search.{Searches, OnlyFall, IsLast, IsPassed, ArcLeadsOn, IsBack, HasOnPath, IsPathFrom};

use std::alloc::{AllocError, Global};

/// A search: how many steps are due of each node and of all, the numbers of the nodes that are done, and the path of
/// those that are open.
#[derive(Drop)]
pub struct Search {
    due: Vec<u32>,
    numbers: Vec<u64>,
    path: Vec<u32>,
    total: u64,
}

impl Search {
    /// The search in which each node is fresh.
    fn new(alloc: Global, leads: &[Vec<bool>]) -> Result<Search, AllocError>
        requires few { length leads.now ≤ 4294967295 }
        requires narrow { (c : ℕ) → c < length leads.now → width_of (marks_of leads.now) c ≤ 65535 }
        ensures search { IfOk result (λ s. (first : List ℕ) → Searches first leads.now s) }
        ensures no_path { IfOk result (λ s. length s.path.items ≡ 0) }
    {
        let mut due = Vec::with_capacity(alloc, leads.len())?;
        let mut total = 0;
        for row in leads {
            let steps = row.len() as u32 + 2;
            due.push(steps)?;
            total += steps as u64;
        }
        let numbers = vec![in alloc; 0; leads.len()]?;
        let path = Vec::new(alloc);
        Ok(Search {
            due,
            numbers,
            path,
            total,
        })
    }

    /// Leaves the last node of the path, all of whose block was passed.
    fn leave(&mut self, first: &[u32], leads: &[Vec<bool>], c: usize)
        requires digraph { IsDigraph first.now (marks_of leads.now) }
        requires search { Searches first.now leads.now self.old }
        requires last { IsLast self.old c }
        requires passed { slice_index self.old.due.items c ≡ 1 }
        ensures search { Searches first.now leads.now self.new }
        ensures falls { self.new.total < self.old.total }
        ensures fall { OnlyFall self.old self.new }
    {
        self.total -= 1;
        self.due[c] = 0;
        self.numbers[c] = self.total;
        self.path.pop();
    }

    /// Passes a place of the block of the last node of the path.
    fn pass(&mut self, first: &[u32], leads: &[Vec<bool>], c: usize)
        requires search { Searches first.now leads.now self.old }
        requires last { IsLast self.old c }
        requires more { 1 < slice_index self.old.due.items c }
        requires place { IsPassed first.now leads.now self.old c }
        ensures search { Searches first.now leads.now self.new }
        ensures falls { self.new.total < self.old.total }
        ensures fall { OnlyFall self.old self.new }
    {
        self.total -= 1;
        self.due[c] -= 1;
    }

    /// Enters a fresh node, from the last node of the path or with no path.
    fn enter(&mut self, first: &[u32], leads: &[Vec<bool>], d: usize) -> Result<(), AllocError>
        requires digraph { IsDigraph first.now (marks_of leads.now) }
        requires search { Searches first.now leads.now self.old }
        requires node { d < length leads.now }
        requires fresh { slice_index self.old.due.items d ≡ width_of (marks_of leads.now) d + 2 }
        requires from { ArcLeadsOn first.now leads.now self.old d }
        ensures search { OnOk result (Searches first.now leads.now self.new) }
        ensures falls { OnOk result (self.new.total < self.old.total) }
        ensures fall { OnOk result (OnlyFall self.old self.new) }
        ensures begun { OnOk result (slice_index self.new.due.items d ≡ width_of (marks_of leads.now) d + 1) }
    {
        self.path.push(d as u32)?;
        self.total -= 1;
        self.due[d] -= 1;
        Ok(())
    }

    /// Takes a step from the last node of the path. Answers an open node that an arc from there
    /// leads to, where the step would take that arc; then nothing was changed.
    fn step(
        &mut self,
        first: &[u32],
        leads: &[Vec<bool>],
        c: usize,
    ) -> Result<Option<u32>, AllocError>
        requires digraph { IsDigraph first.now (marks_of leads.now) }
        requires search { Searches first.now leads.now self.old }
        requires last { IsLast self.old c }
        ensures search { OnOk result (Searches first.now leads.now self.new) }
        ensures falls { IfOk result (λ found. IfNone found (self.new.total < self.old.total)) }
        ensures fall { OnOk result (OnlyFall self.old self.new) }
        ensures back { IfOk result (λ found. IfSome found (λ d. IsBack first.now leads.now self.new d)) }
    {
        let due = self.due[c] as usize;
        let row = leads[c].as_slice();
        if due == 1 {
            self.leave(first, leads, c);
            return Ok(None);
        }
        let place = row.len() + 1 - due;
        let d = first[c] as usize + place;
        if !row[place] || self.due[d] == 0 {
            self.pass(first, leads, c);
            return Ok(None);
        }
        if self.due[d] as usize == leads[d].len() + 2 {
            self.enter(first, leads, d)?;
            return Ok(None);
        }
        Ok(Some(d as u32))
    }

    /// Takes steps until the path is empty, or an open node is met again.
    fn follow(&mut self, first: &[u32], leads: &[Vec<bool>]) -> Result<Option<u32>, AllocError>
        requires digraph { IsDigraph first.now (marks_of leads.now) }
        requires search { Searches first.now leads.now self.old }
        ensures search { OnOk result (Searches first.now leads.now self.new) }
        ensures no_path { IfOk result (λ found. IfNone found (length self.new.path.items ≡ 0)) }
        ensures fall { OnOk result (OnlyFall self.old self.new) }
        ensures back { IfOk result (λ found. IfSome found (λ d. IsBack first.now leads.now self.new d)) }
    {
        while !self.path.is_empty() {
            let last = self.path[self.path.len() - 1];
            if let Some(d) = self.step(first, leads, last as usize)? {
                return Ok(Some(d));
            }
        }
        Ok(None)
    }

    /// Visits a node, and all that arcs lead to from it, unless that was done. Answers an open node
    /// that an arc from the last node of the path leads to.
    fn visit(
        &mut self,
        first: &[u32],
        leads: &[Vec<bool>],
        c: usize,
    ) -> Result<Option<u32>, AllocError>
        requires digraph { IsDigraph first.now (marks_of leads.now) }
        requires search { Searches first.now leads.now self.old }
        requires no_path { length self.old.path.items ≡ 0 }
        requires node { c < length leads.now }
        ensures search { OnOk result (Searches first.now leads.now self.new) }
        ensures no_path { IfOk result (λ found. IfNone found (length self.new.path.items ≡ 0)) }
        ensures done { IfOk result (λ found. IfNone found (slice_index self.new.due.items c ≡ 0)) }
        ensures fall { OnOk result (OnlyFall self.old self.new) }
        ensures back { IfOk result (λ found. IfSome found (λ d. IsBack first.now leads.now self.new d)) }
    {
        if self.due[c] as usize != leads[c].len() + 2 {
            return Ok(None);
        }
        self.enter(first, leads, c)?;
        self.follow(first, leads)
    }

    /// The nodes of the path from an open one on.
    fn path_from(&self, alloc: Global, d: u32) -> Result<Vec<u32>, AllocError>
        requires held { HasOnPath self.now d }
        ensures { IfOk result (λ nodes. IsPathFrom self.now d nodes.items) }
    {
        let from = place_of(self.path.as_slice(), d);
        self.path[from..].to_vec(alloc)
    }
}

/// The first place of a node that a path has.
fn place_of(path: &[u32], d: u32) -> usize
    requires held { (i : ℕ) × (i < length path.now) × (slice_index path.now i ≡ d) }
    ensures within { result < length path.now }
    ensures place { slice_index path.now result ≡ d }
{
    for i in 0..path.len() {
        if path[i] == d {
            return i;
        }
    }
    0
}

/// A ring of a digraph's arcs, as the nodes that they begin at, in order; None where the nodes can
/// be numbered such that each arc rises. From the node c an arc leads to the node `first[c] + q`
/// exactly where `leads[c][q]`.
///
/// The digraph has fewer than 2^32 nodes. Refused for memory alone.
pub fn ring_of(
    alloc: Global,
    first: &[u32],
    leads: &[Vec<bool>],
) -> Result<Option<Vec<u32>>, AllocError>
    requires { IsDigraph first.now (marks_of leads.now) }
    ensures acyclic { IfOk result (λ found. IfNone found (IsAcyclic first.now (marks_of leads.now))) }
    ensures ring { IfOk result (λ found. IfSome found (λ ring. IsRing first.now (marks_of leads.now) ring.items)) }
{
    let mut search = Search::new(alloc, leads)?;
    for c in 0..leads.len() {
        if let Some(d) = search.visit(first, leads, c)? {
            let ring = search.path_from(alloc, d)?;
            return Ok(Some(ring));
        }
    }
    Ok(None)
}
