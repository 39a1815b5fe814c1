//! Plans of a network within the limits.
ghost use Rattle.std.specs.Prelude.{◌≡◌, ◌<◌, ◌≤◌, length, IfOk, IfErr};
ghost use Rattle.ir_model.specs.Topology.{node_count, restrict};
ghost use Rattle.ir_plan.specs.Building.{HasRoot, IsPlanBy, MayLabel, RefusesPlan};
ghost use Rattle.ir_core.specs.{declared.TheConstants.{MAX_LINKS}, Board.links_used};
ghost use Rattle.ir_core.specs.Drafts.{items_of, labelling_of_draft, kept_order};

use crate::MAX_LINKS;
use crate::board::Board;
use ir_model::Kind;
use ir_plan::{Alone, Crew, LabelOrder, Labels, Plan, PlanError};
use ir_tables::Topology;
use std::alloc::{AllocError, Global};

/// The most nodes of a network whose plans are made on one thread.
const MOST_NODES_ON_ONE_THREAD: usize = 256;

/// What a plan is made with: its kind, and the nodes by label, where it keeps those of another plan. Else
/// it is labelled in an order from a root.
#[derive(Drop)]
pub struct Draft {
    pub labels: LabelOrder,
    pub kind: Kind,
    pub root: u16,
    pub kept: Option<Vec<u16>>,
}

/// The nodes of a plan by label. Takes O(n).
fn nodes_by_label(alloc: Global, plan: &Plan) -> Result<Vec<u16>, AllocError>
    ensures { IfOk result (λ nodes. nodes.items ≡ plan.now.order) }
{
    plan.invariant();
    let mut nodes = Vec::with_capacity(alloc, plan.nodes())?;
    for label in 0..plan.nodes() {
        nodes.push(plan.node_of(label as u16))?;
    }
    Ok(nodes)
}

/// The nodes by label that a plan of a kind keeps of the plan before, where orders are kept. A tree's
/// are depth first from its own root, so it keeps none. Takes O(n).
pub fn kept_order(
    alloc: Global,
    keeps: bool,
    kind: Kind,
    before: &Plan,
) -> Result<Option<Vec<u16>>, AllocError>
    ensures { IfOk result (λ kept. items_of kept ≡ kept_order keeps kind before.now.order) }
{
    if !keeps {
        return Ok(None);
    }
    match kind {
        Kind::Tree => Ok(None),
        Kind::Shortest | Kind::Compact | Kind::Landmark(_) => {
            let nodes = nodes_by_label(alloc, before)?;
            Ok(Some(nodes))
        }
    }
}

/// The plan over a topology that is wanted. Over more than 256 nodes the crew makes it, else the
/// thread that calls. Refused, and takes as long, as `Plan::build_by`. Condition: nodes that are kept
/// have each node once, and are of no tree.
pub fn plan_over_by(
    crew: &impl Crew,
    alloc: Global,
    topology: Topology,
    draft: Draft,
) -> Result<Plan, PlanError>
    requires { MayLabel topology draft.kind (labelling_of_draft draft) }
    ensures made { IfOk result (IsPlanBy topology draft.kind (labelling_of_draft draft)) }
    ensures refused { IfErr result (RefusesPlan topology (labelling_of_draft draft)) }
{
    if topology.nodes() > MOST_NODES_ON_ONE_THREAD {
        made_by(crew, alloc, topology, draft)
    } else {
        made_by(&Alone, alloc, topology, draft)
    }
}

// The same, whatever its nodes, made by the crew.
fn made_by(
    crew: &impl Crew,
    alloc: Global,
    topology: Topology,
    draft: Draft,
) -> Result<Plan, PlanError>
    requires { MayLabel topology draft.kind (labelling_of_draft draft) }
    ensures made { IfOk result (IsPlanBy topology draft.kind (labelling_of_draft draft)) }
    ensures refused { IfErr result (RefusesPlan topology (labelling_of_draft draft)) }
{
    let Draft {
        labels: order,
        kind,
        root,
        kept,
    } = draft;
    let labels = match kept {
        None => Labels::FromRoot(order, root),
        Some(nodes) => Labels::Listed(nodes),
    };
    match Plan::build_by(crew, alloc, topology, kind, labels) {
        Ok(plan) => Ok(plan),
        Err((error, _)) => Err(error),
    }
}

/// The plan that is wanted over the links that are up and heeded in a board. Takes as long as `plan_over_by`.
pub fn plan_up_by(
    crew: &impl Crew,
    alloc: Global,
    topology: &Topology,
    board: &Board,
    draft: Draft,
) -> Result<Plan, PlanError>
    requires some { 0 < node_count topology.now }
    requires root { HasRoot topology.now (labelling_of_draft draft) }
    requires labels { MayLabel topology.now draft.kind (labelling_of_draft draft) }
    requires links { length topology.now.links ≤ MAX_LINKS }
    ensures made { IfOk result (IsPlanBy (restrict (links_used board.now (length topology.now.links)) topology.now)
        draft.kind (labelling_of_draft draft)) }
    ensures refused { IfErr result (RefusesPlan
        (restrict (links_used board.now (length topology.now.links)) topology.now)
        (labelling_of_draft draft)) }
{
    let used = board.used(alloc, topology.links())?;
    let over = topology.only(alloc, used.as_slice())?;
    plan_over_by(crew, alloc, over, draft)
}
