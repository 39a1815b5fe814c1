//! The rows of a node by two plans, and what it changes.
ghost use Rattle.std.specs.Prelude.{◌≡◌, ◌<◌, ◌≤◌, IfOk, length, map, slice_index_or};
ghost use Rattle.ir_model.specs.{Plan.{IsPlan, row_in}, Topology.node_count};
ghost use Rattle.ir_diff.specs.Changes.{AscendByStart};
ghost use Rattle.ir_patches.specs.DiffText.{changes_at, lead_of};
ghost use Rattle.ir_patches.specs.Sides.{AreSides, changes_held, plans_of};

use ir_diff::{Changes, Lead, changes_of};
use ir_graph::Graph;
use ir_plan::Plan;
use std::alloc::{AllocError, Global};

/// Two plans, each over its graph's network, and the numbers that the old network has for the nodes of each.
#[derive(Drop)]
pub struct TwoSides<'a> {
    pub old_graph: &'a Graph,
    pub old: &'a Plan,
    pub old_numbers: Vec<u16>,
    pub new_graph: &'a Graph,
    pub new: &'a Plan,
    pub new_numbers: Vec<u16>,
}

/// What a node changes: its labels by both plans, and its row.
#[derive(Drop)]
pub struct NodeChanges {
    pub was: u16,
    pub label: u16,
    pub row: Changes,
}

/// A start of a node's row, with the number of the neighbour that its interval leads to.
fn lead_at(plan: &Plan, numbers: &[u16], u: u16, place: usize) -> Lead
    requires plan { IsPlan plan.now }
    requires numbers { length numbers.now ≡ node_count plan.now.topology }
    requires node { u < node_count plan.now.topology }
    requires place { place < length (row_in plan.now u) }
    ensures { result ≡ lead_of numbers.now plan.now.topology u (slice_index_or (row_in plan.now u) place
        (record { label = 0; port = 0 })) }
{
    let row = plan.row(u);
    let hop = plan.hop(u, row.port(place));
    Lead {
        start: row.start(place),
        node: numbers[hop.node as usize],
    }
}

/// The row of a node by its starts and the numbers of its neighbours.
fn leads_of(alloc: Global, plan: &Plan, numbers: &[u16], u: u16) -> Result<Vec<Lead>, AllocError>
    requires plan { IsPlan plan.now }
    requires numbers { length numbers.now ≡ node_count plan.now.topology }
    requires node { u < node_count plan.now.topology }
    ensures leads { IfOk result (λ leads. leads.items ≡ map (lead_of numbers.now plan.now.topology u)
        (row_in plan.now u)) }
    ensures ascending { IfOk result (λ leads. AscendByStart leads.items) }
    ensures few { IfOk result (λ leads. length leads.items ≤ 32768) }
{
    let count = plan.row(u).len();
    let mut leads = Vec::with_capacity(alloc, count)?;
    for place in 0..count {
        leads.push(lead_at(plan, numbers, u, place))?;
    }
    Ok(leads)
}

/// What a node of the new network changes.
pub fn changes_at(alloc: Global, sides: &TwoSides<'_>, u: u16) -> Result<NodeChanges, AllocError>
    requires sides { AreSides sides.now }
    requires node { u < node_count sides.now.new.now.topology }
    ensures changes { IfOk result (λ c. changes_held c ≡ changes_at (plans_of sides.now) u) }
    ensures few { IfOk result (λ c. (length c.row.removed.items ≤ 32768) × (length c.row.put.items ≤ 32768)) }
{
    let old_numbers = sides.old_numbers.as_slice();
    let new_numbers = sides.new_numbers.as_slice();
    let before = new_numbers[u as usize];
    let old = leads_of(alloc, sides.old, old_numbers, before)?;
    let new = leads_of(alloc, sides.new, new_numbers, u)?;
    let old_row = old.as_slice();
    let new_row = new.as_slice();
    let row = changes_of(alloc, old_row, new_row)?;
    let was = sides.old.label_of(before);
    let label = sides.new.label_of(u);
    Ok(NodeChanges { was, label, row })
}
