//! What is shown of a topology's plan, from the text of the topology.
ghost use Rattle.std.specs.Prelude.{◌≡◌, ◌≢◌, ◌<◌, ◌≤◌, ℕ, true, IfOk, IfErr, IfNone, IfSome, IsSome, length, string_bytes};
ghost use Rattle.ir_model.specs.{Graph.names, Topology.node_count};
ghost use Rattle.ir_answer.specs.Asked.{look_sources};
ghost use Rattle.ir_answer.specs.Looks.{from_name, to_name, circle_text, AnswersShow, AreAmong, AreTexts, Says, AnswerShows, order_in, IsNode, IsLabelling, AreShown, IsDrawn, IsShow, IsText, IsOfOneGraph, lines_shown, each_shown, order_again, RefusesLabels, RefusesEnds, RefusesDrawn, RefusesLined, RefusesShow, AreLined, has_lines, ShowsPlan, LookAnswers, IsFiguresBeside, IsPlanned, RefusesPlanned, IsSecondPlan, IsSecondOver, figures_shown, RefusesSecond};
ghost use Rattle.ir_answer.specs.Stops.{StopsAs, Gives};
ghost use Rattle.ir_answer.specs.Failing.{IsRead};
ghost use Rattle.ir_cli.specs.Answer.{Refused};
ghost use Rattle.ir_model.specs.OfGraph.{topology_of_graph};
ghost use Rattle.ir_plan.specs.{Building.{FromRoot, IsPlanBy, MayLabel, labelling_of}, Starts.IsOfShortestWays};
ghost use Rattle.ir_show.specs.Plans.{NeedsNoTour};
ghost use Rattle.ir_answer.specs.Plans.{AnswersText};
ghost use Rattle.ir_cli.specs.{Kinds.detour_of, Openings.kind_asked, Reading.texts_of, Words.{FitsItsKind, takes_list}};

use crate::asking::{AnswerStop, opening_stop, read_graph, read_node};
use crate::failing::node_failures;
use ir_cli::{Format, Notice, RunReply, Sub, Words, kind_asked, label_order, no_root};
use ir_core::OpenError;
use ir_exports::{
    MAX_LABELS, circle_dot, circle_svg, lines_bytes, lines_text, order_text, prefixes_text_by,
    ranges_text,
};
use ir_figures::{Beside, figures_text, figures_text_beside, link_failures_text};
use ir_graph::Graph;
use ir_model::Kind;
use ir_plan::{Crew, LabelOrder, Labels, Plan, PlanError, is_of_shortest_ways};
use ir_script::{OrderFaultKind, read_order};
use ir_show::plan_text::PlanText;
use ir_show::{draw_text, needs_no_tour, span_text, span_text_alone, walk_text, walk_text_alone};
use ir_tables::Topology;
use std::alloc::{AllocError, Global};

/// What of a plan is shown, with the numbers of the nodes that the words name.
#[derive(Clone, Copy)]
pub enum Show {
    Rows,
    /// The rows of the nodes from one to another.
    Nodes(u16, u16),
    /// The walk from a node to another.
    Between(u16, u16),
    Figures,
    /// The figures, and the links that wait for each other where packets of a second plan are under way too, which is
    /// of this kind and numbered depth first from this node.
    Beside(Kind, u16),
    /// The figures, and those without each link: of plans labelled in this order, or where there is none with the
    /// labels of the plan of the whole network. Each beside a second plan over the whole network, if there is one, of
    /// this kind and numbered depth first from this node.
    Each(Option<LabelOrder>, Option<(Kind, u16)>),
    /// The figures, and those without each node: of plans of this kind, labelled and beside a second plan in the same
    /// way.
    EachNode(Kind, Option<LabelOrder>, Option<(Kind, u16)>),
    /// A drawing, with the walk between two nodes in bold if there are any.
    Drawing(Option<(u16, u16)>),
    /// The circle of labels with the intervals of a node: as SVG, or for Graphviz.
    Circle(u16, bool),
    /// The forwarding tables, disjoint or not.
    Tables(bool),
    /// The ranges of labels.
    Ranges,
    /// The lines of a node's row for an epoch.
    Lines(u16, u16),
    /// The same as bytes.
    Bytes(u16, u16),
    /// The order of the labels.
    Order,
}

/// The plan of this kind, numbered depth first from this root, over the network of another plan: memory alone refuses
/// it.
fn second_plan(
    crew: &impl Crew,
    alloc: Global,
    plan: &Plan,
    second: (Kind, u16),
) -> Result<Plan, AllocError>
    requires root { second.1 < node_count plan.now.topology }
    ensures { IfOk result (IsPlanBy plan.now.topology second.0 (FromRoot LabelOrder.DepthFirst second.1)) }
{
    plan.invariant();
    let topology = plan.topology().try_clone(alloc)?;
    let (kind, root) = second;
    let labels = Labels::FromRoot(LabelOrder::DepthFirst, root);
    match Plan::build_by(crew, alloc, topology, kind, labels) {
        Ok(second) => Ok(second),
        Err((error, _topology)) => {
            if error != PlanError::NoMemory {
                unreachable!()
            }
            Err(AllocError)
        }
    }
}

/// The figures of a plan, and the links that wait for each other in it and in a second one of this kind, numbered depth
/// first from this root. The second is over the same network, so that memory alone refuses it.
fn beside_text(
    crew: &impl Crew,
    alloc: Global,
    graph: &Graph,
    plan: &Plan,
    second: (Kind, u16),
) -> Result<String, AllocError>
    requires nodes { node_count plan.now.topology ≡ length graph.now }
    requires root { second.1 < length graph.now }
    ensures { IfOk result (λ text. IsFiguresBeside second.0 second.1 (names graph.now) plan.now (string_bytes text)) }
{
    let second = second_plan(crew, alloc, plan, second)?;
    figures_text_beside(alloc, graph, plan, &second)
}

/// The second plan over the network of another one, if there is one, with what waits for what by it. Memory alone
/// refuses it.
fn plan_beside(
    crew: &impl Crew,
    alloc: Global,
    plan: &Plan,
    second: Option<(Kind, u16)>,
) -> Result<Option<Beside>, AllocError>
    requires { IfSome second (λ s. s.1 < node_count plan.now.topology) }
    ensures { IfOk result (IsSecondOver second plan.now.topology) }
{
    let Some(second) = second else {
        return Ok(None);
    };
    let other = second_plan(crew, alloc, plan, second)?;
    Ok(Some(Beside::of(alloc, other)?))
}

/// The figures of a plan, and of those without each link.
fn links_text(
    crew: &impl Crew,
    alloc: Global,
    graph: &Graph,
    plan: &Plan,
    order: Option<LabelOrder>,
    second: Option<(Kind, u16)>,
) -> Result<String, AllocError>
    requires nodes { node_count plan.now.topology ≡ length graph.now }
    requires root { IfSome second (λ s. s.1 < length graph.now) }
    ensures { IfOk result (λ text. Says (Show.Each order second) graph.now plan.now (string_bytes text)) }
{
    let other = plan_beside(crew, alloc, plan, second)?;
    link_failures_text(crew, alloc, graph, plan, order, &other)
}

/// The circle of labels with the intervals of a node: as SVG, or for Graphviz.
fn circle_text(
    alloc: Global,
    graph: &Graph,
    plan: &Plan,
    node: u16,
    is_svg: bool,
) -> Result<String, AllocError>
    requires nodes { node_count plan.now.topology ≡ length graph.now }
    requires node { node < length graph.now }
    ensures { IfOk result (λ text. string_bytes text ≡ circle_text is_svg (names graph.now) plan.now node) }
{
    if is_svg {
        circle_svg(alloc, graph, plan, node)
    } else {
        circle_dot(alloc, graph, plan, node)
    }
}

/// What is shown of a plan as a text that is made whole.
fn text_of(
    crew: &impl Crew,
    alloc: Global,
    graph: &Graph,
    plan: &Plan,
    show: Show,
) -> Result<String, AllocError>
    requires nodes { node_count plan.now.topology ≡ length graph.now }
    requires ends { AreAmong (length graph.now) show }
    requires text { IsText show }
    ensures { IfOk result (λ text. Says show graph.now plan.now (string_bytes text)) }
{
    match show {
        Show::Rows | Show::Bytes(_, _) | Show::EachNode(_, _, _) => unreachable!(),
        Show::Nodes(first, last) => span_text(alloc, graph, plan, (first, last)),
        Show::Between(from, to) => walk_text(alloc, graph, plan, from, to),
        Show::Figures => figures_text(alloc, graph, plan),
        Show::Beside(kind, root) => beside_text(crew, alloc, graph, plan, (kind, root)),
        Show::Each(order, second) => links_text(crew, alloc, graph, plan, order, second),
        Show::Drawing(ends) => draw_text(alloc, graph, plan, ends),
        Show::Circle(node, is_svg) => circle_text(alloc, graph, plan, node, is_svg),
        Show::Tables(is_disjoint) => prefixes_text_by(crew, alloc, graph, plan, is_disjoint),
        Show::Ranges => ranges_text(alloc, graph, plan),
        Show::Lines(node, epoch) => lines_text(alloc, plan, node, epoch),
        Show::Order => order_text(alloc, graph, plan),
    }
}

/// The answer that shows the rows of a plan, whose text is written as it is made.
fn rows_reply(alloc: Global, graph: Graph, plan: Plan) -> Result<RunReply, AnswerStop>
    requires { node_count plan.topology ≡ length graph }
    ensures { Gives (AnswerShows Show.Rows graph plan) result }
{
    let Ok(text) = PlanText::new(alloc, graph, plan) else {
        return Err(AnswerStop::NoMemory);
    };
    Ok(RunReply::Plan(text))
}

/// The answer that shows something other than the rows of a plan, as a text or bytes that are made whole.
fn text_reply(
    crew: &impl Crew,
    alloc: Global,
    graph: &Graph,
    plan: &Plan,
    show: Show,
) -> Result<RunReply, AnswerStop>
    requires nodes { node_count plan.now.topology ≡ length graph.now }
    requires ends { AreAmong (length graph.now) show }
    requires no_rows { show ≢ Show.Rows }
    requires one { IsOfOneGraph show }
    ensures { Gives (AnswerShows show graph.now plan.now) result }
{
    if let Show::Bytes(node, epoch) = show {
        let Ok(bytes) = lines_bytes(alloc, plan, node, epoch) else {
            return Err(AnswerStop::NoMemory);
        };
        return Ok(RunReply::Bytes(bytes));
    }
    let Ok(text) = text_of(crew, alloc, graph, plan, show) else {
        return Err(AnswerStop::NoMemory);
    };
    Ok(RunReply::Ran(text, Vec::new(alloc)))
}

/// The texts of a topology and, where the words have one, of an order.
fn look_texts<'a>(words: &Words, texts: &'a [Vec<u8>]) -> (&'a [u8], Option<&'a [u8]>)
    requires kind { FitsItsKind words.now }
    requires texts { length texts.now ≡ length (look_sources words.now) }
    ensures texts { AreTexts (texts_of texts.now) result.0.now (order_in result.1) }
    ensures kind { IsSome result.1 → takes_list words.now.kind ≡ true }
{
    if words.has_order() {
        (texts[0].as_slice(), Some(texts[1].as_slice()))
    } else {
        (texts[0].as_slice(), None)
    }
}

/// By what the words ask the nodes to be labelled: from the root that they name, or by an order where there is one.
pub fn read_labels(
    alloc: Global,
    words: &Words,
    graph: &Graph,
    order: Option<&[u8]>,
) -> Result<Labels, AnswerStop>
    requires { IsSome order → takes_list words.now.kind ≡ true }
    ensures labels { IfOk result (λ labels. IsLabelling words.now (order_in order.entry) graph.now
        (labelling_of labels)) }
    ensures may { IfOk result (λ labels. MayLabel (topology_of_graph graph.now)
        (kind_asked words.now (length graph.now)) (labelling_of labels)) }
    ensures stop { IfErr result (λ s. StopsAs s
        (RefusesLabels words.now (order_in order.entry) graph.now)) }
{
    let Some(text) = order else {
        let root = read_node(graph, &words.root)?;
        return Ok(Labels::FromRoot(label_order(&words.numbering), root));
    };
    match read_order(alloc, graph, text) {
        Ok(order) => Ok(Labels::Listed(order)),
        Err(fault) => match fault.kind {
            OrderFaultKind::NoMemory => Err(AnswerStop::NoMemory),
            _ => Err(AnswerStop::Refused(Notice::Numbering(fault))),
        },
    }
}

/// The numbers of the ends that the words name.
fn read_ends(words: &Words, graph: &Graph) -> Result<(u16, u16), AnswerStop>
    ensures from { IfOk result (λ ends. IsNode graph.now (from_name words.now) ends.0) }
    ensures to { IfOk result (λ ends. IsNode graph.now (to_name words.now) ends.1) }
    ensures among { IfOk result (λ ends. 0 < length graph.now
        → (ends.0 < length graph.now) × (ends.1 < length graph.now)) }
    ensures stop { IfErr result (λ s. StopsAs s (RefusesEnds graph.now (from_name words.now) (to_name words.now))) }
{
    let from = read_node(graph, &words.from)?;
    let to = read_node(graph, &words.to)?;
    Ok((from, to))
}

/// In what order the plans without a link or a node are labelled: in that of the words, or where these have a list in
/// none, which keeps the labels.
fn order_again(words: &Words) -> Option<LabelOrder>
    ensures { result ≡ order_again words.now }
{
    if words.has_order() {
        None
    } else {
        Some(label_order(&words.numbering))
    }
}

/// The figures without each link or each node, as the words ask for, beside a second plan if there is one.
fn each_shown(words: &Words, graph: &Graph, second: Option<(Kind, u16)>) -> Show
    ensures { result ≡ each_shown words.now graph.now second }
{
    graph.invariant();
    let order = order_again(words);
    if words.by_node {
        let left = graph.number_of_nodes().saturating_sub(1);
        return Show::EachNode(kind_asked(words, left), order, second);
    }
    Show::Each(order, second)
}

/// The figures that the words ask for, beside a second plan if there is one.
fn figures_shown(words: &Words, graph: &Graph, second: Option<(Kind, u16)>) -> Show
    ensures { result ≡ figures_shown words.now graph.now second }
{
    if words.each {
        return each_shown(words, graph, second);
    }
    match second {
        Some((kind, root)) => Show::Beside(kind, root),
        None => Show::Figures,
    }
}

/// The kind and the root of the second plan that the words ask for, if they do.
fn read_second(words: &Words, graph: &Graph) -> Result<Option<(Kind, u16)>, AnswerStop>
    ensures second { IfOk result (IsSecondPlan (detour_of words.now.detour (length graph.now)) words.now.second
        graph.now) }
    ensures among { IfOk result (λ second. 0 < length graph.now → IfSome second (λ s. s.1 < length graph.now)) }
    ensures stop { IfErr result (λ s. StopsAs s
        (RefusesSecond (detour_of words.now.detour (length graph.now)) words.now.second graph.now)) }
{
    let Some(second) = &words.second else {
        return Ok(None);
    };
    let root = read_node(graph, &second.root)?;
    let detour = words.detour.detour(graph.number_of_nodes());
    Ok(Some((second.kind.kind(detour), root)))
}

/// What figures are to be shown.
fn read_figures(words: &Words, graph: &Graph) -> Result<Show, AnswerStop>
    ensures show { IfOk result (λ show. AreShown words.now graph.now show) }
    ensures among { IfOk result (λ show. 0 < length graph.now → AreAmong (length graph.now) show) }
    ensures stop { IfErr result (λ s. StopsAs s
        (RefusesSecond (detour_of words.now.detour (length graph.now)) words.now.second graph.now)) }
{
    let second = read_second(words, graph)?;
    Ok(figures_shown(words, graph, second))
}

/// What is to be drawn: the circle of the node that the words name, or else the network, with ends only where both are
/// named.
fn read_drawing(words: &Words, graph: &Graph) -> Result<Show, AnswerStop>
    ensures show { IfOk result (λ show. IsDrawn words.now graph.now show) }
    ensures among { IfOk result (λ show. 0 < length graph.now → AreAmong (length graph.now) show) }
    ensures stop { IfErr result (λ s. StopsAs s (RefusesDrawn words.now graph.now)) }
{
    if words.node.is_some() {
        let node = read_node(graph, &words.node)?;
        return Ok(Show::Circle(node, words.svg));
    }
    if words.from.is_none() || words.to.is_none() {
        return Ok(Show::Drawing(None));
    }
    let ends = read_ends(words, graph)?;
    Ok(Show::Drawing(Some(ends)))
}

/// The order of the labels, the rows of the nodes that the words ask for, or all rows.
fn read_rows(words: &Words, graph: &Graph) -> Result<Show, AnswerStop>
    ensures show { IfOk result (λ show. IsPlanned words.now.order_alone words.now.nodes graph.now show) }
    ensures among { IfOk result (λ show. 0 < length graph.now → AreAmong (length graph.now) show) }
    ensures stop { IfErr result (λ s. StopsAs s (RefusesPlanned words.now.order_alone words.now.nodes graph.now)) }
{
    if words.order_alone {
        return Ok(Show::Order);
    }
    let Some(span) = words.nodes else {
        return Ok(Show::Rows);
    };
    if span.first > span.last || span.last >= graph.number_of_nodes() {
        return Err(AnswerStop::Refused(Notice::Opening(no_root(graph))));
    }
    Ok(Show::Nodes(span.first as u16, span.last as u16))
}

/// The lines of a node's row, as text or as bytes.
fn lines_shown(words: &Words, node: u16) -> Show
    ensures { result ≡ lines_shown words.now node }
{
    if words.binary {
        Show::Bytes(node, words.epoch)
    } else {
        Show::Lines(node, words.epoch)
    }
}

/// The lines of the row of the node that the words name, where the labels are few enough for them.
fn read_lines(words: &Words, graph: &Graph) -> Result<Show, AnswerStop>
    ensures show { IfOk result (λ show. AreLined words.now graph.now show) }
    ensures among { IfOk result (λ show. 0 < length graph.now → AreAmong (length graph.now) show) }
    ensures stop { IfErr result (λ s. StopsAs s (RefusesLined (has_lines graph.now) words.now graph.now)) }
{
    if graph.number_of_nodes() > MAX_LABELS {
        return Err(AnswerStop::Refused(Notice::Opening(OpenError::TooLarge)));
    }
    let node = read_node(graph, &words.node)?;
    Ok(lines_shown(words, node))
}

/// What of a plan is to be shown, with the nodes that the words name.
fn read_show(sub: Sub, words: &Words, graph: &Graph) -> Result<Show, AnswerStop>
    requires { ShowsPlan sub }
    ensures show { IfOk result (λ show. IsShow sub words.now graph.now show) }
    ensures among { IfOk result (λ show. 0 < length graph.now → AreAmong (length graph.now) show) }
    ensures stop { IfErr result (λ s. StopsAs s (RefusesShow sub words.now graph.now)) }
{
    match sub {
        Sub::Compare | Sub::Diff | Sub::Sim | Sub::Live | Sub::Check => unreachable!(),
        Sub::Plan => read_rows(words, graph),
        Sub::Stats => read_figures(words, graph),
        Sub::Prefixes => Ok(Show::Tables(words.disjoint)),
        Sub::Ranges => Ok(Show::Ranges),
        Sub::Xdp => read_lines(words, graph),
        Sub::Walk => {
            let (from, to) = read_ends(words, graph)?;
            Ok(Show::Between(from, to))
        }
        Sub::Draw => read_drawing(words, graph),
    }
}

/// The ends of a walk that is shown, where its plan need not be built: that is of a kind of shortest ways, and no
/// tour is sought for its labels.
fn ends_alone(show: Show, kind: Kind, nodes: usize, labels: &Labels) -> Option<(u16, u16)>
    ensures shown { IfSome result (λ ends. show ≡ Show.Between ends.0 ends.1) }
    ensures kind { IsSome result → IsOfShortestWays kind }
    ensures alone { IsSome result → NeedsNoTour nodes (labelling_of labels.now) }
{
    let Show::Between(from, to) = show else {
        return None;
    };
    if !is_of_shortest_ways(kind) || !needs_no_tour(nodes, labels) {
        return None;
    }
    Some((from, to))
}

/// The answer that gives the walk of a plan between two nodes, or what refuses that plan, which is not built.
fn show_walk(
    alloc: Global,
    graph: &Graph,
    kind: Kind,
    labels: Labels,
    ends: (u16, u16),
) -> Result<RunReply, AnswerStop>
    requires kind { IsOfShortestWays kind }
    requires ends { 0 < length graph.now → (ends.0 < length graph.now) × (ends.1 < length graph.now) }
    requires labels { MayLabel (topology_of_graph graph.now) kind (labelling_of labels) }
    requires alone { NeedsNoTour (length graph.now) (labelling_of labels) }
    ensures { Gives (AnswersText graph.now kind (labelling_of labels)
        (Says (Show.Between ends.0 ends.1) graph.now)) result }
{
    let Ok(topology) = Topology::of(alloc, graph) else {
        return Err(AnswerStop::NoMemory);
    };
    match walk_text_alone(alloc, graph, &topology, kind, labels, ends) {
        Ok(text) => Ok(RunReply::Ran(text, Vec::new(alloc))),
        Err(error) => Err(opening_stop(OpenError::from(error))),
    }
}

/// The nodes whose rows are shown, where their plan need not be built: as of a walk.
fn span_alone(show: Show, kind: Kind, nodes: usize, labels: &Labels) -> Option<(u16, u16)>
    ensures shown { IfSome result (λ span. show ≡ Show.Nodes span.0 span.1) }
    ensures kind { IsSome result → IsOfShortestWays kind }
    ensures alone { IsSome result → NeedsNoTour nodes (labelling_of labels.now) }
{
    let Show::Nodes(first, last) = show else {
        return None;
    };
    if !needs_no_tour(nodes, labels) || !is_of_shortest_ways(kind) {
        return None;
    }
    Some((first, last))
}

/// The answer that shows the rows of some nodes of a plan, or what refuses that plan, which is not built.
fn show_nodes(
    alloc: Global,
    graph: &Graph,
    kind: Kind,
    labels: Labels,
    span: (u16, u16),
) -> Result<RunReply, AnswerStop>
    requires kind { IsOfShortestWays kind }
    requires ends { 0 < length graph.now → (span.0 ≤ span.1) × (span.1 < length graph.now) }
    requires labels { MayLabel (topology_of_graph graph.now) kind (labelling_of labels) }
    requires alone { NeedsNoTour (length graph.now) (labelling_of labels) }
    ensures { Gives (AnswersText graph.now kind (labelling_of labels)
        (Says (Show.Nodes span.0 span.1) graph.now)) result }
{
    let Ok(topology) = Topology::of(alloc, graph) else {
        return Err(AnswerStop::NoMemory);
    };
    match span_text_alone(alloc, graph, &topology, kind, labels, span) {
        Ok(text) => Ok(RunReply::Ran(text, Vec::new(alloc))),
        Err(error) => Err(opening_stop(OpenError::from(error))),
    }
}

/// The plan over the network of a graph by these labels, of this kind, or what refuses it.
fn plan_of(
    crew: &impl Crew,
    alloc: Global,
    kind: Kind,
    graph: &Graph,
    labels: Labels,
) -> Result<Plan, AnswerStop>
    requires { MayLabel (topology_of_graph graph.now) kind (labelling_of labels) }
    ensures plan { IfOk result (IsPlanBy (topology_of_graph graph.now) kind (labelling_of labels)) }
    ensures stop { IfErr result (λ s. StopsAs s (λ line.
        AnswersText graph.now kind (labelling_of labels) (λ plan text. ⊥) (Refused line))) }
{
    let Ok(topology) = Topology::of(alloc, graph) else {
        return Err(AnswerStop::NoMemory);
    };
    match Plan::build_by(crew, alloc, topology, kind, labels) {
        Ok(plan) => Ok(plan),
        Err((error, _topology)) => Err(opening_stop(OpenError::from(error))),
    }
}

/// The answer that shows the rows of a plan, or says what refuses it.
fn show_rows(
    crew: &impl Crew,
    alloc: Global,
    kind: Kind,
    graph: Graph,
    labels: Labels,
) -> Result<RunReply, AnswerStop>
    requires { MayLabel (topology_of_graph graph) kind (labelling_of labels) }
    ensures { Gives (AnswersShow kind graph (labelling_of labels) Show.Rows) result }
{
    match plan_of(crew, alloc, kind, &graph, labels) {
        Ok(plan) => rows_reply(alloc, graph, plan),
        Err(stop) => Err(stop),
    }
}

/// The answer that shows something other than all rows of a plan, or what refuses it. A walk and the rows of some
/// nodes are shown without their plan where that need not be built.
fn show_text(
    crew: &impl Crew,
    alloc: Global,
    kind: Kind,
    graph: &Graph,
    labels: Labels,
    show: Show,
) -> Result<RunReply, AnswerStop>
    requires labels { MayLabel (topology_of_graph graph.now) kind (labelling_of labels) }
    requires ends { 0 < length graph.now → AreAmong (length graph.now) show }
    requires no_rows { show ≢ Show.Rows }
    requires one { IsOfOneGraph show }
    ensures { Gives (AnswersShow kind graph.now (labelling_of labels) show) result }
{
    if let Some(ends) = ends_alone(show, kind, graph.number_of_nodes(), &labels) {
        return show_walk(alloc, graph, kind, labels, ends);
    }
    if let Some(span) = span_alone(show, kind, graph.number_of_nodes(), &labels) {
        return show_nodes(alloc, graph, kind, labels, span);
    }
    match plan_of(crew, alloc, kind, graph, labels) {
        Ok(plan) => {
            plan.invariant();
            text_reply(crew, alloc, graph, &plan, show)
        }
        Err(stop) => Err(stop),
    }
}

/// The answer that shows a plan, or says what refuses it. The text of its rows is written as it is made, and each
/// other text is made whole.
fn show_plan(
    crew: &impl Crew,
    alloc: Global,
    kind: Kind,
    graph: Graph,
    labels: Labels,
    show: Show,
) -> Result<RunReply, AnswerStop>
    requires labels { MayLabel (topology_of_graph graph) kind (labelling_of labels) }
    requires ends { 0 < length graph → AreAmong (length graph) show }
    requires one { IsOfOneGraph show }
    ensures { Gives (AnswersShow kind graph (labelling_of labels) show) result }
{
    match show {
        Show::Rows => show_rows(crew, alloc, kind, graph, labels),
        _ => show_text(crew, alloc, kind, &graph, labels, show),
    }
}

/// What figures without each node are asked for: of plans of which kind, labelled in which order, and beside which
/// second plan.
type NodesAsked = (Kind, Option<LabelOrder>, Option<(Kind, u16)>);

/// The figures without each node, if they are what is shown.
fn node_failures_in(show: Show) -> Option<NodesAsked>
    ensures some { IfSome result (λ asked. show ≡ Show.EachNode asked.0 asked.1 asked.2) }
    ensures none { IfNone result (IsOfOneGraph show) }
{
    match show {
        Show::EachNode(kind, order, second) => Some((kind, order, second)),
        _ => None,
    }
}

/// The text of the figures of a plan, and of those without each node.
fn nodes_text(
    crew: &impl Crew,
    alloc: Global,
    read: (Format, &[u8]),
    graph: &Graph,
    plan: &Plan,
    asked: NodesAsked,
) -> Result<String, AllocError>
    requires read { IsRead read.0 read.1.now graph.now }
    requires over { plan.now.topology ≡ topology_of_graph graph.now }
    requires root { IfSome asked.2 (λ s. s.1 < node_count plan.now.topology) }
    ensures { IfOk result (λ text. Says (Show.EachNode asked.0 asked.1 asked.2) graph.now plan.now
        (string_bytes text)) }
{
    let (kind, order, second) = asked;
    let other = plan_beside(crew, alloc, plan, second)?;
    node_failures(crew, alloc, read, graph, plan, kind, order, &other)
}

/// The answer that gives the figures of a plan and those without each node, or what refuses the plan. The text is that
/// which the graph was read from.
fn show_node_failures(
    crew: &impl Crew,
    alloc: Global,
    read: (Format, &[u8]),
    kind: Kind,
    graph: &Graph,
    labels: Labels,
    asked: NodesAsked,
) -> Result<RunReply, AnswerStop>
    requires labels { MayLabel (topology_of_graph graph.now) kind (labelling_of labels) }
    requires root { 0 < length graph.now → IfSome asked.2 (λ s. s.1 < length graph.now) }
    requires read { IsRead read.0 read.1.now graph.now }
    ensures { Gives (AnswersShow kind graph.now (labelling_of labels) (Show.EachNode asked.0 asked.1 asked.2)) result }
{
    let plan = plan_of(crew, alloc, kind, graph, labels)?;
    plan.invariant();
    let Ok(text) = nodes_text(crew, alloc, read, graph, &plan, asked) else {
        return Err(AnswerStop::NoMemory);
    };
    Ok(RunReply::Ran(text, Vec::new(alloc)))
}

/// The answer that shows a plan over the network of a graph that was read from a text, or says what refuses it.
fn show_read(
    crew: &impl Crew,
    alloc: Global,
    read: (Format, &[u8]),
    kind: Kind,
    graph: Graph,
    labels: Labels,
    show: Show,
) -> Result<RunReply, AnswerStop>
    requires labels { MayLabel (topology_of_graph graph) kind (labelling_of labels) }
    requires ends { 0 < length graph → AreAmong (length graph) show }
    requires read { IsRead read.0 read.1.now graph }
    ensures { Gives (AnswersShow kind graph (labelling_of labels) show) result }
{
    match node_failures_in(show) {
        Some(asked) => show_node_failures(crew, alloc, read, kind, &graph, labels, asked),
        None => show_plan(crew, alloc, kind, graph, labels, show),
    }
}

/// The kind that the words ask for, of a plan over a graph's network.
fn kind_over(words: &Words, graph: &Graph) -> Kind
    ensures { result ≡ kind_asked words.now (length graph.now) }
{
    kind_asked(words, graph.number_of_nodes())
}

/// The answer to the text of a topology, and to that of an order where the words have one: what is shown of the plan.
/// Faults are refused in this order: the topology's; the order's, or a root that is no node; an end, a node to show or
/// a second plan's root that is none; the plan's. The plan's rows are made by a crew.
pub fn look_at(
    crew: &impl Crew,
    alloc: Global,
    sub: Sub,
    words: &Words,
    texts: &[Vec<u8>],
) -> Result<RunReply, AnswerStop>
    requires kind { FitsItsKind words.now }
    requires texts { length texts.now ≡ length (look_sources words.now) }
    requires shows { ShowsPlan sub }
    ensures { Gives (LookAnswers sub words.now (texts_of texts.now)) result }
{
    let (topology, order) = look_texts(words, texts);
    let graph = read_graph(alloc, words.format, topology)?;
    let labels = read_labels(alloc, words, &graph, order)?;
    let kind = kind_over(words, &graph);
    match read_show(sub, words, &graph) {
        Ok(show) => {
            let read = (words.format, topology);
            show_read(crew, alloc, read, kind, graph, labels, show)
        }
        Err(stop) => Err(stop),
    }
}
