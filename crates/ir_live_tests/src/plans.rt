//! Plans whose rows a crew makes: by depth-first numbers, by those of a tour, and over a given order. What the rows
//! are, `tests/program` shows of texts of plans.

ghost use Rattle.std.specs.Prelude.{◌≢◌, ◌<◌};
ghost use Rattle.ir_model.specs.{Topology.node_count, declared.Kind.TheVariants.Tree};

use crate::by_hand::{link, network_of};
use ir_graph::Graph;
use ir_model::{Detour, Kind};
use ir_numbering::is_order;
use ir_plan::{Alone, Crew, LabelOrder, Labels, Plan, PlanError, Several};
use ir_tables::Topology;
use std::alloc::Global;
use std::test::Fail;

// Links each of so many nodes, n0 to the last, to the next one and to the third one after it, with weights from 1 to
// 7, and answers whether it could.
fn link_chain(graph: &mut Graph, alloc: Global, nodes: u16) -> bool {
    for u in 0..nodes {
        let u = u as u32;
        let is_linked = link(graph, alloc, u, u + 1, (u + 1) % 7 + 1)
            && link(graph, alloc, u, u + 3, (u + 3) % 7 + 1);
        if !is_linked {
            return false;
        }
    }
    true
}

/// So many nodes that are linked so.
fn chain(alloc: Global, nodes: u16) -> Option<Topology> {
    let mut graph = Graph::new(alloc);
    let is_whole = link_chain(&mut graph, alloc, nodes);
    network_of(alloc, &graph, is_whole)
}

/// At most so many threads.
fn crew<'a, R>(rt: &'a R, most: Option<usize>) -> Several<'a, R> {
    Several { rt, most }
}

/// The plan of shortest ways that is labelled from a root, depth first or by a tour.
fn labelled(
    crew: &impl Crew,
    alloc: Global,
    topology: Topology,
    order: LabelOrder,
    root: u16,
) -> Result<Plan, (PlanError, Topology)> {
    let labels = Labels::FromRoot(order, root);
    Plan::build_by(crew, alloc, topology, Kind::Shortest, labels)
}

/// How many starts a plan of a chain has by depth-first numbers, or by a tour. A plain program in another language
/// counted the same.
fn starts(crew: &impl Crew, alloc: Global, nodes: u16, order: LabelOrder) -> Option<usize> {
    let topology = chain(alloc, nodes)?;
    match labelled(crew, alloc, topology, order, 5) {
        Ok(plan) => Some(plan.labels()),
        Err(_) => None,
    }
}

#[test]
fn tours_of_chains_have_fewer_starts(rt: HostRuntime) {
    let alloc = rt.alloc();
    let (one, two) = (crew(&rt, Some(1)), crew(&rt, Some(2)));
    let found = [
        starts(&Alone, alloc, 20, LabelOrder::DepthFirst),
        starts(&Alone, alloc, 20, LabelOrder::Tour),
        starts(&one, alloc, 20, LabelOrder::Tour),
        starts(&two, alloc, 60, LabelOrder::DepthFirst),
        starts(&two, alloc, 60, LabelOrder::Tour),
    ];
    assert!(rt; found == [Some(118), Some(82), Some(82), Some(354), Some(238)]);
}

/// Whether a plan is refused where the root is no node, and the topology comes back.
fn comes_back(crew: &impl Crew, alloc: Global, order: LabelOrder) -> Option<bool> {
    let topology = chain(alloc, 20)?;
    let nodes = topology.nodes();
    match labelled(crew, alloc, topology, order, nodes as u16) {
        Err((why, back)) => Some(why == PlanError::NoNode && back.nodes() == nodes),
        Ok(_) => None,
    }
}

#[test]
fn a_refusal_hands_the_topology_back(rt: HostRuntime) {
    let crew = crew(&rt, None);
    let answers = (
        comes_back(&crew, rt.alloc(), LabelOrder::DepthFirst),
        comes_back(&Alone, rt.alloc(), LabelOrder::Tour),
    );
    assert!(rt; answers == (Some(true), Some(true)));
}

// So many nodes, the last first.
fn backwards(alloc: Global, nodes: usize) -> Option<Vec<u16>> {
    let mut order = Vec::new(alloc);
    for u in 0..nodes.min(60) {
        order.insert(0, u as u16).ok()?;
    }
    Some(order)
}

// The plan of a chain over its nodes from the last on.
fn over_an_order(crew: &impl Crew, alloc: Global, kind: Kind) -> Option<Plan>
    requires { kind ≢ Tree }
{
    let topology = chain(alloc, 40)?;
    let order = backwards(alloc, topology.nodes())?;
    let Ok(true) = is_order(alloc, topology.nodes(), order.as_slice()) else {
        return None;
    };
    let labels = Labels::Listed(order);
    Plan::build_by(crew, alloc, topology, kind, labels).ok()
}

// The plan of a chain that is labelled from a root.
fn from_a_root(crew: &impl Crew, alloc: Global, kind: Kind, order: LabelOrder) -> Option<Plan> {
    let topology = chain(alloc, 40)?;
    let labels = Labels::FromRoot(order, 5);
    Plan::build_by(crew, alloc, topology, kind, labels).ok()
}

// Whether a node has the same label and row in two plans.
fn is_row_of_both(one: &Plan, other: &Plan, u: u16) -> bool
    requires here { u < node_count one.now.topology }
    requires there { u < node_count other.now.topology }
{
    let (row, second) = (one.row(u), other.row(u));
    if one.label_of(u) != other.label_of(u) || row.len() != second.len() {
        return false;
    }
    for i in 0..row.len() {
        if row.start(i) != second.start(i) || row.port(i) != second.port(i) {
            return false;
        }
    }
    true
}

// Whether two plans are of one kind and root, and have the same rows and so many links.
fn are_one(one: &Plan, other: &Plan) -> bool {
    if one.nodes() != other.nodes() {
        return false;
    }
    for u in 0..one.nodes() {
        if !is_row_of_both(one, other, u as u16) {
            return false;
        }
    }
    let links = one.topology().links() == other.topology().links();
    links && (one.kind(), one.root()) == (other.kind(), other.root())
}

// Whether there are two plans, and they are one.
fn are_both_one(one: &Option<Plan>, other: &Option<Plan>) -> bool {
    match (one, other) {
        (Some(one), Some(other)) => are_one(one, other),
        _ => false,
    }
}

// Whether there is a plan of a chain of 80 links.
fn is_of_chain(plan: Option<Plan>) -> bool {
    match plan {
        Some(plan) => plan.into_topology().links() == 80,
        None => false,
    }
}

// Whether there are two plans of a chain of 80 links, and they are one.
fn are_both(one: Option<Plan>, other: Option<Plan>) -> bool {
    let are_one = are_both_one(&one, &other);
    let is_of_chain = is_of_chain(one);
    are_one && is_of_chain
}

/// The kinds and orders of plans from a root.
const FROM_A_ROOT: [(Kind, LabelOrder); 8] = [
    (Kind::Tree, LabelOrder::DepthFirst),
    (Kind::Tree, LabelOrder::Tour),
    (Kind::Shortest, LabelOrder::DepthFirst),
    (Kind::Shortest, LabelOrder::Tour),
    (Kind::Compact, LabelOrder::DepthFirst),
    (Kind::Compact, LabelOrder::Tour),
    (Kind::Landmark(TWOFOLD), LabelOrder::DepthFirst),
    (Kind::Landmark(TWOFOLD), LabelOrder::Tour),
];

/// The ways by four landmarks, of at most twice the distance.
const TWOFOLD: Detour = Detour {
    landmarks: 4,
    stretch: 200,
};

#[test]
fn one_plan_of_each_kind_and_labels(rt: HostRuntime) -> Result<(), Fail> {
    let (alloc, crew) = (rt.alloc(), crew(&rt, Some(2)));
    for (kind, order) in &FROM_A_ROOT {
        let alone = from_a_root(&Alone, alloc, *kind, *order);
        if !are_both(alone, from_a_root(&crew, alloc, *kind, *order)) {
            return Err("another plan".into());
        }
    }
    let alone = over_an_order(&Alone, alloc, Kind::Shortest);
    assert!(rt; are_both(alone, over_an_order(&crew, alloc, Kind::Shortest)));
    let alone = over_an_order(&Alone, alloc, Kind::Compact);
    assert!(rt; are_both(alone, over_an_order(&crew, alloc, Kind::Compact)));
    Ok(())
}
