//! What is prepared for the rows of a kind, once for all of them.

ghost use Rattle.std.specs.Prelude.{◌≡◌, ◌<◌, IfOk, None};
ghost use Rattle.ir_model.specs.{Topology.node_count, Plan.AreLabels, Walk.IsConnected};
ghost use Rattle.ir_plan.specs.Prepared.{ArePrepared};

use crate::crew::Crew;
use crate::near::bounds_by_crew;
use crate::ties::Ties;
use ir_bounds::LandmarkBounds;
use ir_model::Kind;
use ir_numbering::Numbering;
use ir_tables::Topology;
use std::alloc::{AllocError, Global};

/// The ties of a compact plan, where they were found, and the bounds of a landmark plan.
#[derive(Drop)]
pub struct Prepared {
    pub ties: Option<Ties>,
    pub bounds: Option<LandmarkBounds>,
}

impl Prepared {
    /// Nothing: what a row is made by is found for it alone.
    pub fn nothing() -> Prepared
        ensures ties { result.ties ≡ None }
        ensures bounds { result.bounds ≡ None }
    {
        Prepared {
            ties: None,
            bounds: None,
        }
    }

    /// What the rows of a kind are made by.
    pub fn of(
        crew: &impl Crew,
        alloc: Global,
        topology: &Topology,
        numbering: &Numbering,
        kind: Kind,
    ) -> Result<Prepared, AllocError>
        requires labels { AreLabels (node_count topology.now) numbering.now.order numbering.now.labels }
        requires connected { IsConnected topology.now }
        requires some { 0 < node_count topology.now }
        ensures { IfOk result (ArePrepared kind topology.now numbering.now.order) }
    {
        match kind {
            Kind::Tree | Kind::Shortest => Ok(Prepared::nothing()),
            Kind::Compact => {
                let ties = Ties::of(crew, alloc, topology, numbering)?;
                Ok(Prepared { ties, bounds: None })
            }
            Kind::Landmark(detour) => {
                let bounds = bounds_by_crew(crew, alloc, topology, numbering.node_of(0), detour)?;
                Ok(Prepared {
                    ties: None,
                    bounds: Some(bounds),
                })
            }
        }
    }
}
