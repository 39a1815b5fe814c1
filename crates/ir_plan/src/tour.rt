//! The plan over the order of a tour, where it has fewer starts than the first plan of its kind.
ghost use Rattle.std.specs.Prelude.{◌≡◌, ◌≢◌, ◌↔◌, ◌<◌, ◌≤◌, IfOk, IfSome, IsTrue, None, slice_index};
ghost use Rattle.ir_model.specs.Topology.{node_count};
ghost use Rattle.ir_numbering.specs.Numbering.{IsListing};
ghost use Rattle.ir_plan.specs.{Starts.{IsFirstPlan, IsLabelledBy, IsPlanAs, IsOfShortestWays, start_count}, Tour.IsTourOf};
ghost use Rattle.ir_plan.specs.Distances.{AreShortestDistances, far_between};

use crate::MOST_TOUR_NODES;
use crate::building::{first_plan, listed_plan};
use crate::crew::Crew;
use crate::distances::Distances;
use crate::nearest::nearest_order;
use crate::plan::Plan;
use crate::sweeps::shorten;
use ir_model::Kind;
use ir_tables::Topology;
use std::alloc::{AllocError, Global};

/// In which order the nodes of a plan are labelled. The labels are determined by the topology, the
/// kind and the root (`labels_are_determined`), so they are the same for any crew.
#[derive(Clone, Copy, Debug, PartialEq, Eq)]
pub enum LabelOrder {
    /// Depth first, from the root; by the blocks of the landmarks where the kind is Landmark.
    DepthFirst,
    /// Of the depth-first plan and the plan over a tour's order, that with fewer starts, of two
    /// alike the depth-first one. As `DepthFirst` where the kind is Tree or Landmark, and where there
    /// are more than `MOST_TOUR_NODES` nodes.
    ///
    /// The tour begins at the root and goes on to the nearest node that it has not visited;
    /// `MOST_SWEEPS` sweeps at most then shorten it (Croes 1958). Two nodes are as far apart as
    /// there are nodes that send them by different ports in the shortest table.
    Tour,
}

/// The plan over a tour's order, where a tour is sought and its plan has fewer starts than this one.
pub fn plan_with_fewer(
    crew: &impl Crew,
    alloc: Global,
    plan: &Plan,
    labels: LabelOrder,
) -> Result<Option<Plan>, AllocError>
    requires { IsFirstPlan plan.now }
    ensures like { IfOk result (λ found. IfSome found (IsPlanAs plan.now)) }
    ensures found { IfOk result (λ found. IfSome found (IsLabelledBy labels)) }
    ensures kept { IfOk result (λ found. found ≡ None → IsLabelledBy labels plan.now) }
{
    if labels == LabelOrder::DepthFirst {
        return Ok(None);
    }
    if !is_of_shortest_ways(plan.kind()) || plan.nodes() > MOST_TOUR_NODES {
        return Ok(None);
    }
    let tour = tour_of(crew, alloc, plan)?;
    plan_over_tour(crew, alloc, plan, tour.as_slice())
}

/// Whether a kind is one of shortest ways, for whose plans a tour is sought.
pub fn is_of_shortest_ways(kind: Kind) -> bool
    ensures { IsTrue result ↔ IsOfShortestWays kind }
{
    match kind {
        Kind::Tree | Kind::Landmark(_) => false,
        Kind::Shortest | Kind::Compact => true,
    }
}

// A plan, where it has fewer starts than another.
fn if_fewer(found: Plan, plan: &Plan) -> Option<Plan>
    ensures fewer { IfSome result (λ p. (p ≡ found) × (start_count found < start_count plan.now)) }
    ensures others { result ≡ None → start_count plan.now ≤ start_count found }
{
    if found.labels() < plan.labels() {
        Some(found)
    } else {
        None
    }
}

/// The plan of the kind and network of a depth-first one over the tour from its root, where that has fewer starts.
/// Where there is none, the depth-first plan is the one that is labelled by the tour. Takes as long as that plan.
/// Refused for memory alone. Condition: the tour is that of the network, as `tour_of` gives it, and the kind is one of
/// shortest ways.
pub fn plan_over_tour(
    crew: &impl Crew,
    alloc: Global,
    plan: &Plan,
    tour: &[u16],
) -> Result<Option<Plan>, AllocError>
    requires first { IsFirstPlan plan.now }
    requires kind { IsOfShortestWays plan.now.kind }
    requires few { node_count plan.now.topology ≤ MOST_TOUR_NODES }
    requires tour { IsTourOf plan.now.topology plan.now.root tour.now }
    ensures like { IfOk result (λ found. IfSome found (IsPlanAs plan.now)) }
    ensures found { IfOk result (λ found. IfSome found (IsLabelledBy LabelOrder.Tour)) }
    ensures kept { IfOk result (λ found. found ≡ None → IsLabelledBy LabelOrder.Tour plan.now) }
{
    plan.invariant();
    let order = Vec::from_slice(alloc, tour)?;
    let found = plan_over(crew, alloc, plan, order)?;
    Ok(if_fewer(found, plan))
}

// The plan of the kind and network of another over an order of all nodes.
fn plan_over(
    crew: &impl Crew,
    alloc: Global,
    plan: &Plan,
    order: Vec<u16>,
) -> Result<Plan, AllocError>
    requires kind { plan.now.kind ≢ Kind.Tree }
    requires order { IsListing (node_count plan.now.topology) order.items }
    requires root { slice_index order.items 0 ≡ plan.now.root }
    ensures like { IfOk result (IsPlanAs plan.now) }
    ensures order { IfOk result (λ p. p.order ≡ order.items) }
{
    let topology = plan.topology().try_clone(alloc)?;
    match listed_plan(crew, alloc, topology, plan.kind(), order) {
        Ok(found) => Ok(found),
        Err(_) => Err(AllocError),
    }
}

/// The nodes of a plan in the order of the tour from its root. Refused for memory alone. Takes
/// O(n * n * n), for n nodes; where the plan is not of kind Shortest, as long as one of that kind too.
/// Condition: there are at most `MOST_TOUR_NODES` nodes.
pub fn tour_of(crew: &impl Crew, alloc: Global, plan: &Plan) -> Result<Vec<u16>, AllocError>
    requires { node_count plan.now.topology ≤ MOST_TOUR_NODES }
    ensures { IfOk result (λ order. IsTourOf plan.now.topology plan.now.root order.items) }
{
    plan.invariant();
    let far = distances(crew, alloc, plan)?;
    let mut order = nearest_order(alloc, &far, plan.root())?;
    shorten(&far, order.as_mut_slice());
    Ok(order)
}

// The distances of the nodes, by the ports of the plan, or of the one of kind Shortest of its root and network.
fn distances(crew: &impl Crew, alloc: Global, plan: &Plan) -> Result<Distances, AllocError>
    requires { node_count plan.now.topology ≤ MOST_TOUR_NODES }
    ensures nodes { IfOk result (λ far. far.nodes ≡ node_count plan.now.topology) }
    ensures shortest { IfOk result (λ far. AreShortestDistances plan.now.topology (far_between far.rows.items)) }
{
    if plan.kind() == Kind::Shortest {
        return Distances::of(crew, alloc, plan);
    }
    let shortest = shortest_plan(crew, alloc, plan)?;
    Distances::of(crew, alloc, &shortest)
}

// The depth-first plan of kind Shortest of the root and network of another.
fn shortest_plan(crew: &impl Crew, alloc: Global, plan: &Plan) -> Result<Plan, AllocError>
    ensures shortest { IfOk result (λ p. p.kind ≡ Kind.Shortest) }
    ensures topology { IfOk result (λ p. p.topology ≡ plan.now.topology) }
{
    let topology = plan.topology().try_clone(alloc)?;
    match first_plan(crew, alloc, topology, Kind::Shortest, plan.root()) {
        Ok(shortest) => Ok(shortest),
        Err(_) => Err(AllocError),
    }
}
