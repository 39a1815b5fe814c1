//! The text of the figures that a network has where each of its links fails.
ghost use Rattle.std.specs.Prelude.{◌≡◌, ◌<◌, ◌++◌, ℕ, List, None, IfOk, OnOk, flat_map, length, string_bytes};
ghost use Rattle.std.specs.List.{AllZip, range_with_len};
ghost use Rattle.ir_model.specs.{Graph.names, Topology.node_count};
ghost use Rattle.ir_plan.specs.Building.{HasRoot, MayLabel, labelling_of};
ghost use Rattle.ir_trace.specs.Rows.{spaced};
ghost use Rattle.ir_show.specs.Words.{line_text};
ghost use Rattle.ir_figures.specs.Failures.{all_but, without_link, labelling_kept, labelling_left, failures_head, AreFigureWords, AreFiguresWith, IsRingWord, AreWordsOf, IsLinkLine, AreLinkFailures};
ghost use Rattle.ir_figures.specs.Made.{bytes_made, IsOtherOver, HaveNumbers};
ghost use Rattle.ir_figures.specs.Parts.{AreWaitsOf};

use crate::bits::bits_of;
use crate::compared::{push_counts, push_stretches, ring_word};
use crate::far::quick_figures;
use crate::parts::Beside;
use crate::waits::{Waiting, ring_of_waits, waiting_of};
use ir_graph::Graph;
use ir_model::Kind;
use ir_plan::{Alone, Crew, LabelOrder, Labels, NodeText, Plan, PlanError};
use ir_show::plan_text::kind_text;
use ir_show::{TextResult, greatest_row};
use ir_tables::Topology;
use ir_trace::text::{name_of, push_name, push_next_number, push_word};
use std::alloc::{AllocError, Global};

/// The fewest failures that a thread is started for.
const LEAST_FAILURES: usize = 1;

/// Writes the words of a plan's figures.
fn push_figures(text: &mut String, alloc: Global, plan: &Plan, waiting: &Waiting) -> TextResult
    requires { AreWaitsOf plan.now waiting.now }
    ensures { OnOk result ((words : List (List ℕ)) × AreFigureWords plan.now words
        × (string_bytes text.new ≡ string_bytes text.old ++ flat_map spaced words)) }
{
    plan.invariant();
    let figures = quick_figures(alloc, plan)?;
    let ring = ring_of_waits(alloc, plan, waiting)?;
    let bits = bits_of(plan);
    push_counts(text, plan, greatest_row(plan), bits.rows)?;
    push_stretches(text, &figures)?;
    push_word(text, ring_word(&ring))
}

/// Writes whether links wait for each other in a ring by a plan and by another one, if there is one.
fn push_beside(
    text: &mut String,
    alloc: Global,
    plan: &Plan,
    waiting: &Waiting,
    other: &Option<Beside>,
    without: Option<u16>,
) -> TextResult
    requires waiting { AreWaitsOf plan.now waiting.now }
    requires numbers { HaveNumbers other.now without (node_count plan.now.topology) }
    ensures { OnOk result ((words : List (List ℕ)) × IsRingWord other.now without plan.now words
        × (string_bytes text.new ≡ string_bytes text.old ++ flat_map spaced words)) }
{
    let Some(other) = other else {
        return Ok(());
    };
    let ring = other.ring(alloc, without, plan, waiting)?;
    push_word(text, ring_word(&ring))
}

/// Writes the words of a plan's figures, and whether there is a ring by it and another plan, if there is one.
fn push_words(
    text: &mut String,
    alloc: Global,
    plan: &Plan,
    other: &Option<Beside>,
    without: Option<u16>,
) -> TextResult
    requires { HaveNumbers other.now without (node_count plan.now.topology) }
    ensures { OnOk result ((words : List (List ℕ)) × AreFiguresWith other.now without plan.now words
        × (string_bytes text.new ≡ string_bytes text.old ++ flat_map spaced words)) }
{
    let waiting = waiting_of(alloc, plan)?;
    push_figures(text, alloc, plan, &waiting)?;
    push_beside(text, alloc, plan, &waiting, other, without)
}

/// The marks of so many links, all up but one.
fn all_but(alloc: Global, count: usize, l: usize) -> Result<Vec<bool>, AllocError>
    requires { l < count }
    ensures { IfOk result (λ up. up.items ≡ all_but count l) }
{
    let mut up = vec![in alloc; true; count]?;
    up[l] = false;
    Ok(up)
}

/// The nodes of a plan by label.
pub(crate) fn nodes_by_label(alloc: Global, plan: &Plan) -> Result<Vec<u16>, AllocError>
    ensures { IfOk result (λ nodes. nodes.items ≡ plan.now.order) }
{
    plan.invariant();
    let mut nodes = Vec::with_capacity(alloc, plan.nodes())?;
    for label in 0..plan.nodes() {
        nodes.push(plan.node_of(label as u16))?;
    }
    Ok(nodes)
}

/// The labels of a plan as a list; those of a tree are depth first from its root.
fn labels_kept(alloc: Global, plan: &Plan) -> Result<Labels, AllocError>
    ensures { IfOk result (λ labels. labelling_of labels ≡ labelling_kept plan.now.kind plan.now) }
{
    match plan.kind() {
        Kind::Tree => Ok(Labels::FromRoot(LabelOrder::DepthFirst, plan.root())),
        Kind::Shortest | Kind::Compact | Kind::Landmark(_) => {
            let nodes = nodes_by_label(alloc, plan)?;
            Ok(Labels::Listed(nodes))
        }
    }
}

/// By what the plans are labelled where a link fails.
fn labels_left(alloc: Global, plan: &Plan, order: Option<LabelOrder>) -> Result<Labels, AllocError>
    ensures { IfOk result (λ labels. labelling_of labels ≡ labelling_left plan.now order) }
{
    match order {
        Some(order) => Ok(Labels::FromRoot(order, plan.root())),
        None => labels_kept(alloc, plan),
    }
}

/// Writes what a network comes to: the figures of its plan of a kind, or that there is none.
pub(crate) fn push_plan(
    text: &mut String,
    alloc: Global,
    net: Topology,
    kind: Kind,
    labels: Labels,
    other: &Option<Beside>,
    without: Option<u16>,
) -> TextResult
    requires labels { MayLabel net kind (labelling_of labels) }
    requires root { 0 < node_count net → HasRoot net (labelling_of labels) }
    requires numbers { HaveNumbers other.now without (node_count net) }
    ensures { OnOk result ((words : List (List ℕ))
        × AreWordsOf net kind (labelling_of labels) other.now without words
        × (string_bytes text.new ≡ string_bytes text.old ++ flat_map spaced words)) }
{
    match Plan::build_by(&Alone, alloc, net, kind, labels) {
        Ok(plan) => push_words(text, alloc, &plan, other, without),
        Err((error, _net)) => match error {
            PlanError::Disconnected => push_word(text, "disconnected"),
            PlanError::Empty => push_word(text, "empty"),
            PlanError::NoMemory => Err(AllocError),
            PlanError::NoNode => unreachable!(),
        },
    }
}

/// The network of a plan without a link.
fn without_link(alloc: Global, plan: &Plan, l: usize) -> Result<Topology, AllocError>
    requires link { l < length plan.now.topology.links }
    ensures { IfOk result (λ left. left ≡ without_link plan.now.topology l) }
{
    plan.invariant();
    let topology = plan.topology();
    let up = all_but(alloc, topology.links(), l)?;
    topology.only(alloc, up.as_slice())
}

/// Writes what the network without a link comes to.
fn push_left(
    text: &mut String,
    alloc: Global,
    plan: &Plan,
    order: Option<LabelOrder>,
    other: &Option<Beside>,
    l: usize,
) -> TextResult
    requires link { l < length plan.now.topology.links }
    requires over { IsOtherOver other.now plan.now.topology }
    ensures { OnOk result ((words : List (List ℕ))
        × AreWordsOf (without_link plan.now.topology l) plan.now.kind (labelling_left plan.now order) other.now None
        words
        × (string_bytes text.new ≡ string_bytes text.old ++ flat_map spaced words)) }
{
    plan.invariant();
    let left = without_link(alloc, plan, l)?;
    let labels = labels_left(alloc, plan, order)?;
    push_plan(text, alloc, left, plan.kind(), labels, other, None)
}

/// The line of a link that fails.
fn link_line(
    alloc: Global,
    graph: &Graph,
    plan: &Plan,
    order: Option<LabelOrder>,
    other: &Option<Beside>,
    l: usize,
) -> Result<NodeText, AllocError>
    requires nodes { node_count plan.now.topology ≡ length graph.now }
    requires link { l < length plan.now.topology.links }
    requires over { IsOtherOver other.now plan.now.topology }
    ensures { IfOk result (λ made. IsLinkLine (names graph.now) plan.now order other.now l (bytes_made made)) }
{
    plan.invariant();
    let (low, high) = plan.topology().ends(l as u32);
    let mut text = String::new(alloc);
    text.push_str(name_of(graph, low))?;
    push_name(&mut text, graph, high)?;
    push_left(&mut text, alloc, plan, order, other, l)?;
    text.push_str("\n")?;
    Ok(NodeText { text, lines: 1 })
}

/// The line of each link, by number, made by a crew.
fn lines_by(
    crew: &impl Crew,
    alloc: Global,
    graph: &Graph,
    plan: &Plan,
    order: Option<LabelOrder>,
    other: &Option<Beside>,
) -> Result<Vec<NodeText>, AllocError>
    requires nodes { node_count plan.now.topology ≡ length graph.now }
    requires over { IsOtherOver other.now plan.now.topology }
    ensures { IfOk result (λ made. AllZip
        (λ l one. IsLinkLine (names graph.now) plan.now order other.now l (bytes_made one))
        (range_with_len 0 (length plan.now.topology.links)) made.items) }
{
    crew.node_texts(
        alloc,
        plan.topology().links(),
        LEAST_FAILURES,
        &|l: usize| -> Result<NodeText, AllocError>
            requires { (l < length plan.now.topology.links) × (node_count plan.now.topology ≡ length graph.now)
                × IsOtherOver other.now plan.now.topology }
            ensures { IfOk result (λ made. IsLinkLine (names graph.entry.now) plan.entry.now order other.entry.now l
                (bytes_made made)) }
        { link_line(alloc, graph, plan, order, other, l) },
    )
}

/// Writes texts one after the other.
fn push_texts(text: &mut String, made: &[NodeText]) -> TextResult
    ensures { OnOk result (string_bytes text.new ≡ string_bytes text.old ++ flat_map bytes_made made.now) }
{
    for one in made {
        text.push_str(one.text.as_str())?;
    }
    Ok(())
}

/// Writes the first line.
fn push_head(
    text: &mut String,
    alloc: Global,
    plan: &Plan,
    other: &Option<Beside>,
    what: &str,
) -> TextResult
    requires { IsOtherOver other.now plan.now.topology }
    ensures { OnOk result ((words : List (List ℕ)) × AreFiguresWith other.now None plan.now words
        × (string_bytes text.new ≡ string_bytes text.old ++ line_text (failures_head what.now plan.now words))) }
{
    text.push_str("each")?;
    push_word(text, what)?;
    push_word(text, kind_text(plan.kind()))?;
    push_next_number(text, plan.nodes())?;
    push_next_number(text, plan.topology().links())?;
    push_words(text, alloc, plan, other, None)?;
    text.push_str("\n")
}

/// The text of the figures of a plan and of these lines.
pub(crate) fn failures_text(
    alloc: Global,
    plan: &Plan,
    other: &Option<Beside>,
    what: &str,
    lines: &[NodeText],
) -> Result<String, AllocError>
    requires { IsOtherOver other.now plan.now.topology }
    ensures { IfOk result (λ text. (words : List (List ℕ)) × AreFiguresWith other.now None plan.now words
        × (string_bytes text ≡ line_text (failures_head what.now plan.now words) ++ flat_map bytes_made lines.now)) }
{
    let mut text = String::new(alloc);
    push_head(&mut text, alloc, plan, other, what)?;
    push_texts(&mut text, lines)?;
    Ok(text)
}

/// The text of the figures of a plan, and after it a line for each link of its network, with the
/// figures of the plan without that link. That is labelled in an order from the plan's root, or,
/// without an order, with the plan's labels, but a tree always depth first. Where some node then has
/// no walk to some node, the line says so. Where there is another plan, the figures say last whether
/// links wait for each other in a ring while its packets are under way too; it keeps each link. The
/// lines are made by a crew, each on one thread, which holds one plan.
///
/// Conditions: the plan is over the graph's network, and the other one over the same. It is refused
/// for memory alone. For each link it takes as long as `Plan::build_by`, `waiting_ring` and the
/// distances of all pairs.
pub fn link_failures_text(
    crew: &impl Crew,
    alloc: Global,
    graph: &Graph,
    plan: &Plan,
    order: Option<LabelOrder>,
    other: &Option<Beside>,
) -> Result<String, AllocError>
    requires nodes { node_count plan.now.topology ≡ length graph.now }
    requires over { IsOtherOver other.now plan.now.topology }
    ensures { IfOk result (λ text. AreLinkFailures (names graph.now) plan.now order other.now (string_bytes text)) }
{
    let lines = lines_by(crew, alloc, graph, plan, order, other)?;
    failures_text(alloc, plan, other, "links", lines.as_slice())
}
