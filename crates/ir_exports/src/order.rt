//! The text of the order of a plan's labels.
ghost use Rattle.std.specs.Prelude.{◌≡◌, IfOk, OnOk, ◌++◌, ◌<◌, length, flat_map, string_bytes};
ghost use Rattle.ir_model.specs.{Graph.names, Topology.node_count};
ghost use Rattle.ir_exports.specs.OrderText.{label_line, order_text};

use ir_graph::Graph;
use ir_plan::Plan;
use ir_show::TextResult;
use ir_trace::text::name_of;
use std::alloc::{AllocError, Global};

/// Writes the name of the node with a label, as a line.
fn push_label(text: &mut String, graph: &Graph, plan: &Plan, label: u16) -> TextResult
    requires nodes { node_count plan.now.topology ≡ length graph.now }
    requires label { label < length graph.now }
    ensures { OnOk result (string_bytes text.new ≡ string_bytes text.old
        ++ label_line (names graph.now) plan.now label) }
{
    plan.invariant();
    text.push_str(name_of(graph, plan.node_of(label)))?;
    text.push_str("\n")
}

/// The names of a plan's nodes in the order of their labels, each as a line: the text that
/// `read_order` of `ir_script` reads. Condition: the plan is over the graph's network. It is
/// refused for memory alone. Takes O(n), for n nodes.
pub fn order_text(alloc: Global, graph: &Graph, plan: &Plan) -> Result<String, AllocError>
    requires { node_count plan.now.topology ≡ length graph.now }
    ensures { IfOk result (λ text. string_bytes text ≡ order_text (names graph.now) plan.now) }
{
    let mut text = String::new(alloc);
    for label in 0..plan.nodes() {
        push_label(&mut text, graph, plan, label as u16)?;
    }
    Ok(text)
}
