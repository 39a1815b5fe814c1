//! The text of the figures that a network has where each of its nodes fails.
ghost use Rattle.std.specs.Prelude.{◌≡◌, ◌<◌, true, IfOk, length, string_bytes};
ghost use Rattle.std.specs.List.{AllZip, range_with_len};
ghost use Rattle.ir_model.specs.{Graph.{has_node, without_node}, Topology.node_count};
ghost use Rattle.ir_model.specs.OfGraph.{topology_of_graph};
ghost use Rattle.ir_plan.specs.Building.{labelling_of};
ghost use Rattle.ir_figures.specs.Failures.{number_left, root_left, list_left, labelling_less, labelling_without, IsNodeLine, AreNodeFailures};
ghost use Rattle.ir_figures.specs.Made.{bytes_made, IsOtherOver};

use crate::failures::{failures_text, nodes_by_label, push_plan};
use crate::parts::Beside;
use ir_graph::Graph;
use ir_model::Kind;
use ir_plan::{LabelOrder, Labels, NodeText, Plan};
use ir_tables::Topology;
use ir_trace::text::name_of;
use std::alloc::{AllocError, Global};

/// The number of a node in the network without another one.
fn number_left(k: u16, u: u16) -> u16
    ensures { result ≡ number_left k u }
{
    if k < u { u - 1 } else { u }
}

/// The number of the root in the network without a node.
fn root_left(k: u16, root: u16) -> u16
    ensures { result ≡ root_left k root }
{
    if root == k { 0 } else { number_left(k, root) }
}

/// The nodes of a list in the network without a node.
fn list_left(alloc: Global, k: u16, nodes: &[u16]) -> Result<Vec<u16>, AllocError>
    ensures { IfOk result (λ left. left.items ≡ list_left k nodes.now) }
{
    let mut left = Vec::with_capacity(alloc, nodes.len())?;
    for u in nodes {
        if *u != k {
            left.push(number_left(k, *u))?;
        }
    }
    Ok(left)
}

/// The labels of a plan in the network without a node; those of a tree are depth first from its root.
fn labels_less(alloc: Global, kind: Kind, plan: &Plan, k: u16) -> Result<Labels, AllocError>
    ensures { IfOk result (λ labels. labelling_of labels ≡ labelling_less kind plan.now k) }
{
    match kind {
        Kind::Tree => Ok(Labels::FromRoot(LabelOrder::DepthFirst, root_left(k, plan.root()))),
        Kind::Shortest | Kind::Compact | Kind::Landmark(_) => {
            let nodes = nodes_by_label(alloc, plan)?;
            let left = list_left(alloc, k, nodes.as_slice())?;
            Ok(Labels::Listed(left))
        }
    }
}

/// By what the plan without a node is labelled.
fn labels_without(
    alloc: Global,
    kind: Kind,
    plan: &Plan,
    order: Option<LabelOrder>,
    k: u16,
) -> Result<Labels, AllocError>
    ensures { IfOk result (λ labels. labelling_of labels ≡ labelling_without kind plan.now order k) }
{
    match order {
        Some(order) => Ok(Labels::FromRoot(order, root_left(k, plan.root()))),
        None => labels_less(alloc, kind, plan, k),
    }
}

/// The network of a graph without a node.
fn network_without(alloc: Global, graph: Graph, name: &str) -> Result<Topology, AllocError>
    requires node { has_node graph name.now ≡ true }
    ensures { IfOk result (λ net. net ≡ topology_of_graph (without_node graph name.now)) }
{
    let mut left = graph;
    let Ok(()) = left.remove_node(name) else {
        unreachable!()
    };
    Topology::of(alloc, &left)
}

/// The line of a node that fails: its name, and the figures of the plan of a kind over the network
/// without it. That plan is labelled in an order from the same root, or from the first node that is
/// left where the root fails; without an order with the labels of the whole network's plan, in their
/// order, but a tree always depth first. Where there is another plan, the figures say last whether
/// links wait for each other in a ring while its packets are under way too; it keeps the node. `copy`
/// is a second graph equal to `graph`, from which the node is removed.
///
/// Conditions: the plan is over the graph's network, and the other one over the same. It is refused
/// for memory alone. It takes as long as the plan and its figures.
pub fn node_failure_line(
    alloc: Global,
    graph: &Graph,
    copy: Graph,
    plan: &Plan,
    kind: Kind,
    order: Option<LabelOrder>,
    other: &Option<Beside>,
    k: u16,
) -> Result<NodeText, AllocError>
    requires node { k < length graph.now }
    requires copied { copy ≡ graph.now }
    requires over { plan.now.topology ≡ topology_of_graph graph.now }
    requires other { IsOtherOver other.now plan.now.topology }
    ensures { IfOk result (λ made. IsNodeLine graph.now plan.now kind order other.now k (bytes_made made)) }
{
    plan.invariant();
    graph.invariant();
    let name = name_of(graph, k);
    let left = network_without(alloc, copy, name)?;
    let labels = labels_without(alloc, kind, plan, order, k)?;
    let mut text = String::new(alloc);
    text.push_str(name)?;
    push_plan(&mut text, alloc, left, kind, labels, other, Some(k))?;
    text.push_str("\n")?;
    Ok(NodeText { text, lines: 1 })
}

/// The text of the figures of a plan, and after them the line of each node that fails, in order.
/// Refused for memory alone.
pub fn node_failures_text(
    alloc: Global,
    graph: &Graph,
    plan: &Plan,
    kind: Kind,
    order: Option<LabelOrder>,
    other: &Option<Beside>,
    lines: &[NodeText],
) -> Result<String, AllocError>
    requires other { IsOtherOver other.now plan.now.topology }
    requires lines { AllZip (λ k one. IsNodeLine graph.now plan.now kind order other.now k (bytes_made one))
        (range_with_len 0 (node_count plan.now.topology)) lines.now }
    ensures { IfOk result (λ text. AreNodeFailures graph.now plan.now kind order other.now (string_bytes text)) }
{
    failures_text(alloc, plan, other, "nodes", lines)
}
