//! The row of a node in a landmark plan: the fewest intervals over all choices of ports that lead within the bound by
//! the landmarks.

ghost use Rattle.std.specs.Prelude.{◌<◌, IfOk, IfSome, slice_index};
ghost use Rattle.ir_model.specs.{declared.Kind.TheVariants.Landmark, Topology.node_count, Walk.IsConnected};
ghost use Rattle.ir_model.specs.Plan.{AreLabels};
ghost use Rattle.ir_bounds.specs.Detours.{AreDetourBounds};
ghost use Rattle.ir_plan.specs.NodeRows.{IsNodeRow};

use crate::crew::Alone;
use crate::near::bounds_by_crew;
use ir_bounds::LandmarkBounds;
use ir_lookup::Row;
use ir_model::Detour;
use ir_numbering::Numbering;
use ir_tables::Topology;
use std::alloc::{AllocError, Global};

/// The row of a node, by the bounds where they were prepared, else by those that are sought for it.
pub fn landmark_row(
    alloc: Global,
    topology: &Topology,
    numbering: &Numbering,
    detour: Detour,
    bounds: &Option<LandmarkBounds>,
    u: u16,
) -> Result<Row, AllocError>
    requires labels { AreLabels (node_count topology.now) numbering.now.order numbering.now.labels }
    requires bounds { IfSome bounds.now (AreDetourBounds topology.now (slice_index numbering.now.order 0) detour) }
    requires connected { IsConnected topology.now }
    requires node { u < node_count topology.now }
    ensures { IfOk result (λ row. IsNodeRow (Landmark detour) topology.now numbering.now.order numbering.now.parents
        (slice_index numbering.now.labels u) row) }
{
    match bounds {
        Some(held) => held.row(alloc, topology, numbering, u),
        None => {
            let sought = bounds_by_crew(&Alone, alloc, topology, numbering.node_of(0), detour)?;
            sought.row(alloc, topology, numbering, u)
        }
    }
}
