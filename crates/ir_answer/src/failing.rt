//! The figures of a network without each of its nodes, whose graph is read again for each.
ghost use Rattle.std.specs.Prelude.{◌≡◌, ◌<◌, IfOk, length, string_bytes};
ghost use Rattle.std.specs.List.{AllZip, range_with_len};
ghost use Rattle.ir_model.specs.{OfGraph.topology_of_graph, Topology.node_count};
ghost use Rattle.ir_figures.specs.{Failures.{AreNodeFailures, IsNodeLine}, Made.{bytes_made, IsOtherOver}};
ghost use Rattle.ir_answer.specs.Failing.{IsRead};

use ir_cli::{Format, read_topology};
use ir_figures::{Beside, node_failure_line, node_failures_text};
use ir_graph::Graph;
use ir_model::Kind;
use ir_plan::{Crew, LabelOrder, NodeText, Plan};
use std::alloc::{AllocError, Global};

/// The fewest failures that a thread is started for.
const LEAST_FAILURES: usize = 1;

/// The line of a node that fails.
fn node_line(
    alloc: Global,
    format: Format,
    text: &[u8],
    graph: &Graph,
    plan: &Plan,
    kind: Kind,
    order: Option<LabelOrder>,
    other: &Option<Beside>,
    k: usize,
) -> Result<NodeText, AllocError>
    requires node { k < length graph.now }
    requires read { IsRead format text.now graph.now }
    requires over { plan.now.topology ≡ topology_of_graph graph.now }
    requires other { IsOtherOver other.now plan.now.topology }
    ensures { IfOk result (λ made. IsNodeLine graph.now plan.now kind order other.now k (bytes_made made)) }
{
    graph.invariant();
    let Ok(copy) = read_topology(alloc, format, text) else {
        return Err(AllocError);
    };
    node_failure_line(alloc, graph, copy, plan, kind, order, other, k as u16)
}

/// The line of each node, by number, made by a crew.
fn node_lines(
    crew: &impl Crew,
    alloc: Global,
    read: (Format, &[u8]),
    graph: &Graph,
    plan: &Plan,
    kind: Kind,
    order: Option<LabelOrder>,
    other: &Option<Beside>,
) -> Result<Vec<NodeText>, AllocError>
    requires read { IsRead read.0 read.1.now graph.now }
    requires over { plan.now.topology ≡ topology_of_graph graph.now }
    requires other { IsOtherOver other.now plan.now.topology }
    ensures { IfOk result (λ made. AllZip
        (λ k one. IsNodeLine graph.now plan.now kind order other.now k (bytes_made one))
        (range_with_len 0 (node_count plan.now.topology)) made.items) }
{
    let (format, text) = read;
    crew.node_texts(
        alloc,
        plan.nodes(),
        LEAST_FAILURES,
        &|k: usize| -> Result<NodeText, AllocError>
            requires { (k < length graph.now) × IsRead format text.now graph.now
                × (plan.now.topology ≡ topology_of_graph graph.now) × IsOtherOver other.now plan.now.topology }
            ensures { IfOk result (λ made. IsNodeLine graph.entry.now plan.entry.now kind order other.entry.now k
                (bytes_made made)) }
        { node_line(alloc, format, text, graph, plan, kind, order, other, k) },
    )
}

/// The text of the figures of a plan, and of those without each node, beside another plan if there is one. The graph
/// was read from the text of this format. Refused for memory alone.
pub fn node_failures(
    crew: &impl Crew,
    alloc: Global,
    read: (Format, &[u8]),
    graph: &Graph,
    plan: &Plan,
    kind: Kind,
    order: Option<LabelOrder>,
    other: &Option<Beside>,
) -> Result<String, AllocError>
    requires read { IsRead read.0 read.1.now graph.now }
    requires over { plan.now.topology ≡ topology_of_graph graph.now }
    requires other { IsOtherOver other.now plan.now.topology }
    ensures { IfOk result (λ text. AreNodeFailures graph.now plan.now kind order other.now (string_bytes text)) }
{
    let lines = node_lines(crew, alloc, read, graph, plan, kind, order, other)?;
    node_failures_text(alloc, graph, plan, kind, order, other, lines.as_slice())
}
