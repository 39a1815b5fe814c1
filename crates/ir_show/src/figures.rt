//! The figures of a plan's walks, destination by destination.
ghost use Rattle.std.specs.Prelude.{◌+◌, ◌<◌, IfOk};
ghost use Rattle.ir_model.specs.Topology.{node_count};
ghost use Rattle.ir_show.specs.Figures.{AreFiguresBefore, AreFigures};

use crate::weights::{sum_to, walk_weights_to};
use crate::worst::{Weighed, worst_to};
use ir_plan::Plan;
use ir_tables::weights_to;
use std::alloc::{AllocError, Global};

/// The sum of the weights of the prescribed walks over all ordered pairs of two nodes, that of the distances, and the
/// worst pair.
#[derive(Clone, Copy, Debug, PartialEq, Eq)]
pub struct Figures {
    pub walks: u64,
    pub distances: u64,
    pub worst: Option<Weighed>,
}

/// The figures up to those of the destination `d`, by those of the nodes before it.
fn figures_with(alloc: Global, plan: &Plan, d: u16, before: Figures) -> Result<Figures, AllocError>
    requires node { d < node_count plan.now.topology }
    requires before { AreFiguresBefore plan.now d before }
    ensures { IfOk result (λ f. AreFiguresBefore plan.now (d + 1) f) }
{
    plan.invariant();
    let walks = walk_weights_to(alloc, plan, d)?;
    let distances = weights_to(alloc, plan.topology(), d as usize)?;
    Ok(Figures {
        walks: before.walks + sum_to(walks.as_slice(), d),
        distances: before.distances + sum_to(distances.as_slice(), d),
        worst: worst_to(d, walks.as_slice(), distances.as_slice(), before.worst),
    })
}

/// The figures of a plan. They take memory for one destination's worth. It is refused for memory alone. Takes
/// O(n (n + m) log n), for n nodes and m links.
pub fn figures_of(alloc: Global, plan: &Plan) -> Result<Figures, AllocError>
    ensures { IfOk result (λ f. AreFigures plan.now f) }
{
    let mut figures = Figures {
        walks: 0,
        distances: 0,
        worst: None,
    };
    for d in 0..plan.nodes() {
        figures = figures_with(alloc, plan, d as u16, figures)?;
    }
    Ok(figures)
}
