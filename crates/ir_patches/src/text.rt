//! The text of what each node changes between two plans.
ghost use Rattle.std.specs.Prelude.{◌≡◌, ◌<◌, ◌≤◌, ◌++◌, IfOk, OnOk, length, flat_map, string_bytes};
ghost use Rattle.std.specs.List.{range_with_len};
ghost use Rattle.ir_model.specs.{Graph.names, Topology.node_count};
ghost use Rattle.ir_show.specs.Words.{line_text};
ghost use Rattle.ir_patches.specs.DiffText.{TwoPlans, changes_at, change_line, counts_to, diff_head, diff_text};
ghost use Rattle.ir_patches.specs.Sides.{AreSides, changes_held, plans_of};

use crate::counts::{Counts, counted, is_changed};
use crate::lines::push_line;
use crate::nodes::numbers_in;
use crate::rows::{NodeChanges, TwoSides, changes_at};
use ir_graph::Graph;
use ir_plan::Plan;
use ir_show::TextResult;
use ir_show::plan_text::kind_text;
use ir_trace::text::{name_of, push_next_number, push_word};
use std::alloc::{AllocError, Global};

/// Writes the line of a node, if it changes, and answers what it changes.
fn push_node(
    alloc: Global,
    text: &mut String,
    sides: &TwoSides<'_>,
    u: u16,
) -> Result<NodeChanges, AllocError>
    requires sides { AreSides sides.now }
    requires node { u < node_count sides.now.new.now.topology }
    ensures change { IfOk result (λ c. changes_held c ≡ changes_at (plans_of sides.now) u) }
    ensures few { IfOk result (λ c. (length c.row.removed.items ≤ 32768) × (length c.row.put.items ≤ 32768)) }
    ensures text { OnOk result (string_bytes text.new ≡ string_bytes text.old ++ change_line (plans_of sides.now) u) }
{
    let change = changes_at(alloc, sides, u)?;
    if is_changed(&change) {
        push_line(text, sides.old_graph, name_of(sides.new_graph, u), &change)?;
    }
    Ok(change)
}

/// Writes the lines of all nodes that change, and counts them and what they change.
fn push_nodes(alloc: Global, text: &mut String, sides: &TwoSides<'_>) -> Result<Counts, AllocError>
    requires { AreSides sides.now }
    ensures counts { IfOk result (λ counts. counts ≡ counts_to (plans_of sides.now)
        (node_count sides.now.new.now.topology)) }
    ensures text { OnOk result (string_bytes text.new ≡ string_bytes text.old
        ++ flat_map (change_line (plans_of sides.now)) (range_with_len 0 (node_count sides.now.new.now.topology))) }
{
    let mut counts = Counts {
        changed: 0,
        relabelled: 0,
        removed: 0,
        put: 0,
    };
    for u in 0..sides.new.nodes() {
        let change = push_node(alloc, text, sides, u as u16)?;
        counts = counted(counts, &change);
    }
    Ok(counts)
}

fn push_head(text: &mut String, old: &Plan, new: &Plan, counts: Counts) -> TextResult
    ensures { OnOk result (string_bytes text.new ≡ string_bytes text.old
        ++ line_text (diff_head old.now new.now counts)) }
{
    text.push_str("diff")?;
    push_word(text, kind_text(old.kind()))?;
    push_word(text, kind_text(new.kind()))?;
    push_next_number(text, new.nodes())?;
    push_next_number(text, counts.changed)?;
    push_next_number(text, counts.relabelled)?;
    push_next_number(text, counts.removed)?;
    push_next_number(text, counts.put)?;
    text.push_str("\n")
}

/// The text of both sides.
fn text_of(alloc: Global, sides: &TwoSides<'_>) -> Result<String, AllocError>
    requires { AreSides sides.now }
    ensures { IfOk result (λ text. string_bytes text ≡ diff_text (plans_of sides.now)) }
{
    let mut lines = String::new(alloc);
    let counts = push_nodes(alloc, &mut lines, sides)?;
    let mut text = String::new(alloc);
    push_head(&mut text, sides.old, sides.new, counts)?;
    text.push_str(lines.as_str())?;
    Ok(text)
}

/// The text of what each node changes between a plan over one network and a plan over another one with the same nodes,
/// in whatever order: `diff KIND KIND N CHANGED RELABELLED REMOVED PUT`, and for each node whose label or row is
/// another one a line `NODE WAS LABEL` and, by ascending starts, `- START` for what goes, and `+ START NEIGHBOUR` for
/// what comes or leads to another neighbour. `other_node` finds networks of other nodes. Conditions: each plan is
/// over its graph's network. It is refused for memory alone. Takes O(n + s), for n nodes and s starts of both plans.
pub fn diff_text(
    alloc: Global,
    old_graph: &Graph,
    old: &Plan,
    new_graph: &Graph,
    new: &Plan,
) -> Result<String, AllocError>
    requires old { node_count old.now.topology ≡ length old_graph.now }
    requires new { node_count new.now.topology ≡ length new_graph.now }
    ensures { let p : TwoPlans = record {
      old_nodes = names old_graph.now;
      old = old.now;
      new_nodes = names new_graph.now;
      new = new.now;
    } in IfOk result (λ text. string_bytes text ≡ diff_text p) }
{
    let old_numbers = numbers_in(alloc, old_graph, old_graph)?;
    let new_numbers = numbers_in(alloc, old_graph, new_graph)?;
    old.invariant();
    new.invariant();
    let sides = TwoSides {
        old_graph,
        old,
        old_numbers,
        new_graph,
        new,
        new_numbers,
    };
    text_of(alloc, &sides)
}
