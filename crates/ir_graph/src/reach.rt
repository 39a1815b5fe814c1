//! What paths from the first node of a graph lead to.
ghost use Rattle.std.specs.Prelude.{◌≡◌, ◌<◌, IfOk, OnOk, length};
ghost use Rattle.ir_model.specs.{Graph.IsGraph, Places.neighbors_at};
ghost use Rattle.ir_graph.specs.View.{rows_view};
ghost use Rattle.ir_graph.specs.Reached.{AreReached, AreClosed, HasNeighbors, HasPlace, HasMoreBehind};

use crate::by_place::{neighbor_at, neighbor_count};
use crate::rows::Rows;
use indexmap::IndexSet;
use std::alloc::{AllocError, Global};

/// The places of nodes, in the order in which they were reached.
type Places = IndexSet<usize>;

/// Adds the neighbours of a node that was reached.
fn reach_neighbors(rows: &Rows, node: usize, reached: &mut Places) -> Result<(), AllocError>
    requires graph { IsGraph (rows_view rows.now) }
    requires before { AreReached (rows_view rows.now) reached.old.keys }
    requires there { HasPlace reached.old.keys node }
    ensures after { OnOk result (AreReached (rows_view rows.now) reached.new.keys) }
    ensures kept { OnOk result (HasMoreBehind reached.old.keys reached.new.keys) }
    ensures all { OnOk result (HasNeighbors (rows_view rows.now) reached.new.keys node
        (length (neighbors_at (rows_view rows.now) node))) }
{
    for place in 0..neighbor_count(rows, node) {
        if let Some((neighbor, _)) = neighbor_at(rows, node, place) {
            let Ok(_) = reached.insert(neighbor) else {
                return Err(AllocError);
            };
        }
    }
    Ok(())
}

/// The places of the nodes that paths from the first node lead to.
pub fn reached_from_first(alloc: Global, rows: &Rows) -> Result<Places, AllocError>
    requires graph { IsGraph (rows_view rows.now) }
    requires some { 0 < length (rows_view rows.now) }
    ensures reached { IfOk result (λ places. AreReached (rows_view rows.now) places.keys) }
    ensures closed { IfOk result (λ places. AreClosed (rows_view rows.now) places.keys) }
    ensures first { IfOk result (λ places. HasPlace places.keys 0) }
{
    let mut reached = IndexSet::new(alloc);
    let Ok(_) = reached.insert(0) else {
        return Err(AllocError);
    };
    for turn in 0..rows.len() {
        if let Some(node) = reached.get_index(turn) {
            let node = *node;
            reach_neighbors(rows, node, &mut reached)?;
        }
    }
    Ok(reached)
}
