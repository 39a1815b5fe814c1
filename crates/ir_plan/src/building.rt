//! The building of plans: by whom, by what labels, and why there is none.

ghost use Rattle.std.specs.Prelude.{◌≡◌, ◌≢◌, ◌↔◌, ◌<◌, ◌≤◌, slice_index, IfOk, IfErr, OnOk};
ghost use Rattle.ir_model.specs.{Numbering.{IsDepthFirst, neighbors_of}, Topology.node_count};
ghost use Rattle.ir_model.specs.{Plan.AreLabels, declared.Kind.TheVariants.Tree};
ghost use Rattle.ir_model.specs.Walk.{IsConnected, IsDisconnected};
ghost use Rattle.ir_numbering.specs.Numbering.{IsListing, IsNumberingOf};
ghost use Rattle.ir_plan.specs.declared.tour.LabelOrder.TheVariants.{DepthFirst};
ghost use Rattle.ir_bounds.specs.Plans.{AreBlockLabels};
ghost use Rattle.ir_plan.specs.Starts.{IsFirstOrder, IsFirstPlan, IsLabelledBy, IsPlanAs};
ghost use Rattle.ir_plan.specs.Building.{ByList, FromRoot, IsPlanBy, MayLabel, RefusesPlan, labelling_of};

use crate::crew::{Alone, Crew};
use crate::error::PlanError;
use crate::plan::Plan;
use crate::rows::rows_of;
use crate::tour::{LabelOrder, plan_with_fewer};
use ir_bounds::block_labels;
use ir_model::{Detour, Kind};
use ir_numbering::Numbering;
use ir_tables::Topology;
use std::alloc::{AllocError, Global};

/// By what the nodes of a plan are labelled.
#[derive(Drop)]
pub enum Labels {
    /// In an order from a root: depth first, or by a tour; in a landmark plan by the blocks of its
    /// landmarks, whatever the order.
    FromRoot(LabelOrder, u16),
    /// By the places of a list that has each node once. The first of them is the root.
    Listed(Vec<u16>),
}

impl Plan {
    /// The plan of a kind over a topology, labelled depth first from a root, or by blocks in a landmark plan. For each
    /// node it has the canonical row of its ports in the full table of that kind. It is made on the thread that calls.
    ///
    /// Refused as Empty where the topology has no node, else as NoNode where the root is none of
    /// its nodes, else as Disconnected where some node has no walk to some node. NoMemory may come
    /// before Disconnected is known. A refusal hands the topology back. Takes O(n (n + m) log n),
    /// for n nodes and m links; of kind Tree O(n + m). Of kind Compact it also takes O(m (n + m)),
    /// and for each node what `ir_compile::row_of_longest` takes. Of kind Landmark it takes the
    /// same, and as much for each port, and n * n numbers are held. For users of the library.
    pub fn build(
        alloc: Global,
        topology: Topology,
        kind: Kind,
        root: u16,
    ) -> Result<Plan, (PlanError, Topology)>
        ensures made { IfOk result (IsPlanBy topology kind (FromRoot DepthFirst root)) }
        ensures refused { IfErr result (λ e. RefusesPlan topology (FromRoot DepthFirst root) e.0) }
        ensures back { IfErr result (λ e. e.1 ≡ topology) }
    {
        let labels = Labels::FromRoot(LabelOrder::DepthFirst, root);
        Plan::build_by(&Alone, alloc, topology, kind, labels)
    }

    /// The plan of a kind over a topology by these labels, its parts made by a crew. Labels by a
    /// list are of no tree.
    ///
    /// Refused as `build` is, but never as NoNode where the labels are listed; NoMemory is also
    /// where a growth is refused in a thread, and where the tour or the plan over it lacks memory.
    /// All threads together take as long as `build`; by a tour as long as both plans, and of kind
    /// Compact one of kind Shortest, and O(n * n * n) for the tour of n nodes.
    pub fn build_by(
        crew: &impl Crew,
        alloc: Global,
        topology: Topology,
        kind: Kind,
        labels: Labels,
    ) -> Result<Plan, (PlanError, Topology)>
        requires { MayLabel topology kind (labelling_of labels) }
        ensures made { IfOk result (IsPlanBy topology kind (labelling_of labels)) }
        ensures refused { IfErr result (λ e. RefusesPlan topology (labelling_of labels) e.0) }
        ensures back { IfErr result (λ e. e.1 ≡ topology) }
    {
        match labels {
            Labels::FromRoot(order, root) => {
                let plan = first_plan(crew, alloc, topology, kind, root)?;
                plan_in_order(crew, alloc, plan, order)
            }
            Labels::Listed(list) => listed_plan(crew, alloc, topology, kind, list),
        }
    }
}

// The plan in an order, of the first one: that itself, or the one over the tour.
fn plan_in_order(
    crew: &impl Crew,
    alloc: Global,
    plan: Plan,
    order: LabelOrder,
) -> Result<Plan, (PlanError, Topology)>
    requires { IsFirstPlan plan }
    ensures made { IfOk result (λ p. IsPlanAs plan p × IsLabelledBy order p) }
    ensures refused { IfErr result (λ e. e.0 ≡ PlanError.NoMemory) }
    ensures back { IfErr result (λ e. e.1 ≡ plan.topology) }
{
    match plan_with_fewer(crew, alloc, &plan, order) {
        Ok(Some(tour)) => Ok(tour),
        Ok(None) => Ok(plan),
        Err(_) => Err((PlanError::NoMemory, plan.into_topology())),
    }
}

/// The plan labelled depth first from a root, or by blocks in a landmark plan.
pub fn first_plan(
    crew: &impl Crew,
    alloc: Global,
    topology: Topology,
    kind: Kind,
    root: u16,
) -> Result<Plan, (PlanError, Topology)>
    ensures made { IfOk result (IsPlanBy topology kind (FromRoot DepthFirst root)) }
    ensures refused { IfErr result (λ e. RefusesPlan topology (FromRoot DepthFirst root) e.0) }
    ensures back { IfErr result (λ e. e.1 ≡ topology) }
{
    match first_numbering(alloc, &topology, kind, root) {
        Ok(numbering) => {
            let rows = rows_of(crew, alloc, &topology, &numbering, kind);
            Plan::of_rows(topology, kind, root, numbering, rows)
        }
        Err(error) => Err((error, topology)),
    }
}

/// The plan labelled by the places of a list.
pub fn listed_plan(
    crew: &impl Crew,
    alloc: Global,
    topology: Topology,
    kind: Kind,
    list: Vec<u16>,
) -> Result<Plan, (PlanError, Topology)>
    requires kind { kind ≢ Kind.Tree }
    requires list { IsListing (node_count topology) list.items }
    ensures made { IfOk result (IsPlanBy topology kind (ByList list.items)) }
    ensures refused { IfErr result (λ e. RefusesPlan topology (ByList list.items) e.0) }
    ensures back { IfErr result (λ e. e.1 ≡ topology) }
{
    if topology.nodes() == 0 {
        return Err((PlanError::Empty, topology));
    }
    let root = list[0];
    match numbering_by(alloc, &topology, list) {
        Ok(numbers) => {
            let rows = rows_of(crew, alloc, &topology, &numbers, kind);
            Plan::of_rows(topology, kind, root, numbers, rows)
        }
        Err(refusal) => Err((refusal, topology)),
    }
}

/// The numbers of a connected topology's nodes in the first plan of a kind from a root: depth first,
/// or by blocks in a landmark plan. Refused as `Plan::build` is.
pub fn first_numbering(
    alloc: Global,
    topology: &Topology,
    kind: Kind,
    root: u16,
) -> Result<Numbering, PlanError>
    ensures root { OnOk result (root < node_count topology.now) }
    ensures order { IfOk result (λ numbers. IsFirstOrder kind topology.now root numbers.order) }
    ensures depth_first { IfOk result (λ numbers. kind ≡ Tree
        → IsDepthFirst (neighbors_of topology.now) (node_count topology.now) root numbers.order numbers.parents) }
    ensures first { IfOk result (λ numbers. slice_index numbers.order 0 ≡ root) }
    ensures labels { IfOk result (λ numbers. AreLabels (node_count topology.now) numbers.order numbers.labels) }
    ensures numbering { IfOk result (λ numbers. kind ≡ Tree → IsNumberingOf topology.now numbers) }
    ensures connected { OnOk result (IsConnected topology.now) }
    ensures empty { IfErr result (λ e. (e ≡ PlanError.Empty) ↔ (node_count topology.now ≡ 0)) }
    ensures no_node { IfErr result
        (λ e. (e ≡ PlanError.NoNode) ↔ ((0 < node_count topology.now) × (node_count topology.now ≤ root))) }
    ensures disconnected { IfErr result
        (λ e. e ≡ PlanError.Disconnected → (0 < node_count topology.now) × (root < node_count topology.now)
        × IsDisconnected topology.now) }
{
    match numbering_of(alloc, topology, root) {
        Ok(numbers) => match kind {
            Kind::Tree | Kind::Shortest | Kind::Compact => Ok(numbers),
            Kind::Landmark(detour) => {
                match numbering_by_blocks(alloc, topology, detour, root) {
                    Ok(blocks) => Ok(blocks),
                    Err(_) => Err(PlanError::NoMemory),
                }
            }
        },
        Err(refusal) => Err(refusal),
    }
}

// The numbers by the blocks of the landmarks that a root and a detour choose.
fn numbering_by_blocks(
    alloc: Global,
    topology: &Topology,
    detour: Detour,
    root: u16,
) -> Result<Numbering, AllocError>
    requires root { root < node_count topology.now }
    requires connected { IsConnected topology.now }
    ensures blocks { IfOk result (λ made. AreBlockLabels topology.now root detour.landmarks made.order) }
    ensures first { IfOk result (λ made. slice_index made.order 0 ≡ root) }
    ensures labels { IfOk result (λ made. AreLabels (node_count topology.now) made.order made.labels) }
{
    topology.invariant();
    let order = block_labels(alloc, topology, root, detour)?;
    Numbering::listed(alloc, order)
}

/// The numbers of a connected topology's nodes, depth first from a root. Refused as `Plan::build` is.
pub fn numbering_of(alloc: Global, topology: &Topology, root: u16) -> Result<Numbering, PlanError>
    ensures root { OnOk result (root < node_count topology.now) }
    ensures depth_first { IfOk result
        (λ numbers. IsDepthFirst (neighbors_of topology.now)
        (node_count topology.now) root numbers.order numbers.parents) }
    ensures first { IfOk result (λ numbers. slice_index numbers.order 0 ≡ root) }
    ensures labels { IfOk result (λ numbers. AreLabels (node_count topology.now) numbers.order numbers.labels) }
    ensures numbering { IfOk result (λ numbers. IsNumberingOf topology.now numbers) }
    ensures connected { OnOk result (IsConnected topology.now) }
    ensures empty { IfErr result (λ e. (e ≡ PlanError.Empty) ↔ (node_count topology.now ≡ 0)) }
    ensures no_node { IfErr result
        (λ e. (e ≡ PlanError.NoNode) ↔ ((0 < node_count topology.now) × (node_count topology.now ≤ root))) }
    ensures disconnected { IfErr result
        (λ e. e ≡ PlanError.Disconnected → (0 < node_count topology.now) × (root < node_count topology.now)
        × IsDisconnected topology.now) }
{
    if topology.nodes() == 0 {
        return Err(PlanError::Empty);
    }
    Ok(Numbering::depth_first(alloc, topology, root)?)
}

/// The numbers of a connected topology's nodes, by the places of a list. Refused as `Plan::build_by`
/// is. Condition: there is a node.
pub fn numbering_by(
    alloc: Global,
    topology: &Topology,
    order: Vec<u16>,
) -> Result<Numbering, PlanError>
    requires some { 0 < node_count topology.now }
    requires order { IsListing (node_count topology.now) order.items }
    ensures order { IfOk result (λ numbers. numbers.order ≡ order.items) }
    ensures labels { IfOk result (λ numbers. AreLabels (node_count topology.now) numbers.order numbers.labels) }
    ensures connected { OnOk result (IsConnected topology.now) }
    ensures disconnected { IfErr result (λ e. e ≡ PlanError.Disconnected → IsDisconnected topology.now) }
    ensures others { IfErr result (λ e. (e ≢ PlanError.Empty) × (e ≢ PlanError.NoNode)) }
{
    topology.invariant();
    numbering_of(alloc, topology, order[0])?;
    Ok(Numbering::listed(alloc, order)?)
}
