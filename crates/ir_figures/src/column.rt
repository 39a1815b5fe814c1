//! The ports of all nodes to one label after the other.
ghost use Rattle.std.specs.Prelude.{◌≡◌, ◌+◌, ◌<◌, ◌≤◌, true, false, None, Some, IfOk, length, slice_index};
ghost use Rattle.ir_model.specs.Row.{IsPlaceOf, labels, start_ports};
ghost use Rattle.ir_model.specs.Topology.{node_count};
ghost use Rattle.ir_figures.specs.Exits.{ArePlacesAt, ArePortsTo};

use ir_lookup::Row;
use ir_plan::Plan;
use std::alloc::{AllocError, Global};

/// The place of the interval of a row that has the label 0.
fn first_place(row: &Row) -> usize
    ensures within { result ≤ length row.now }
    ensures place { 0 < length row.now → IsPlaceOf (labels row.now) 0 result }
{
    if row.len() > 1 && row.start(0) > 0 {
        row.len() - 1
    } else {
        0
    }
}

/// The place of the interval that has the label after one, of which the place is given.
fn next_place(row: &Row, a: u16, place: usize) -> usize
    requires label { a < 32768 }
    requires within { place ≤ length row.now }
    ensures within { result ≤ length row.now }
    ensures place { IsPlaceOf (labels row.now) a place → IsPlaceOf (labels row.now) (a + 1) result }
{
    let next = if row.len() - place > 1 { place + 1 } else { 0 };
    if next < row.len() && row.start(next) == a + 1 {
        next
    } else {
        place
    }
}

/// Of each node the place in its row of the interval that has the label 0.
pub fn first_places(alloc: Global, plan: &Plan) -> Result<Vec<usize>, AllocError>
    ensures { IfOk result (λ places. ArePlacesAt plan.now 0 places.items) }
{
    plan.invariant();
    let mut places = Vec::with_capacity(alloc, plan.nodes())?;
    for u in 0..plan.nodes() {
        places.push(first_place(plan.row(u as u16)))?;
    }
    Ok(places)
}

/// The port at a place of a row, none at the own label.
fn port_in(row: &Row, place: usize, is_own: bool) -> Option<u16>
    requires { is_own ≡ false → place < length row.now }
    ensures own { is_own ≡ true → result ≡ None }
    ensures other { is_own ≡ false → result ≡ Some (slice_index (start_ports row.now) place) }
{
    if is_own { None } else { Some(row.port(place)) }
}

/// Reads the ports of all nodes to a label, and goes on to the places of the next one.
pub fn read_column(plan: &Plan, a: u16, places: &mut Vec<usize>, column: &mut Vec<Option<u16>>)
    requires label { a < node_count plan.now.topology }
    requires places { ArePlacesAt plan.now a places.old.items }
    requires every { length column.old.items ≡ node_count plan.now.topology }
    ensures column { ArePortsTo plan.now a column.new.items }
    ensures places { ArePlacesAt plan.now (a + 1) places.new.items }
{
    let own = plan.node_of(a);
    for u in 0..plan.nodes() {
        let row = plan.row(u as u16);
        let place = places[u];
        column[u] = port_in(row, place, u == own as usize);
        places[u] = next_place(row, a, place);
    }
}
