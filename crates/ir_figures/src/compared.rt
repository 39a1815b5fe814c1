//! The text that compares the plans of a network by their figures.
ghost use Rattle.std.specs.Prelude.{◌≡◌, ◌≢◌, ◌++◌, ◌<◌, ℕ, List, IfOk, IfErr, IfSome, None, OnOk, flat_map, length, string_bytes};
ghost use Rattle.std.specs.Option.{option_map};
ghost use Rattle.ir_model.specs.Topology.{node_count};
ghost use Rattle.ir_plan.specs.{Building.{FromRoot, IsPlanBy, RefusesPlan}, Starts.{IsFirstPlan, IsLabelledBy, IsOfShortestWays, IsPlanAs}};
ghost use Rattle.ir_trace.specs.Rows.{spaced};
ghost use Rattle.ir_show.specs.Words.{line_text};
ghost use Rattle.ir_figures.specs.Compared.{order_word, ring_word, ratio_text, count_words, compare_head, column_names, table_words, compared_kind, labels_word, IsRowOf, IsRowBy, AreBothRows, AreDetourRows, AreTableBits, IsComparison};
ghost use Rattle.ir_figures.specs.Sought.{IsSoughtTour};
ghost use Rattle.ir_figures.specs.Columns.{stretches_of};

use crate::bits::bits_of;
use crate::waits::waiting_ring;
use ir_model::{Detour, Kind};
use ir_plan::{
    Crew, LabelOrder, Labels, MOST_TOUR_NODES, Plan, PlanError, plan_over_tour, tour_of,
};
use ir_show::plan_text::kind_text;
use ir_show::{Figures, TextResult, figures_of, greatest_row};
use ir_tables::Topology;
use ir_trace::text::{push_next_number, push_word};
use std::alloc::{AllocError, Global};

/// The word of an order of labels.
fn order_word(order: LabelOrder) -> &'static str
    ensures { result.now ≡ order_word order }
{
    match order {
        LabelOrder::DepthFirst => "depth-first",
        LabelOrder::Tour => "tour",
    }
}

/// The word by which a kind's labels are ordered: those of a landmark plan are by blocks, whatever the order.
fn labels_word(kind: Kind, order: LabelOrder) -> &'static str
    ensures { result.now ≡ labels_word kind order }
{
    match kind {
        Kind::Landmark(_) => "blocks",
        Kind::Tree | Kind::Shortest | Kind::Compact => order_word(order),
    }
}

/// Writes the word of a kind, with the stretch after that of landmark plans.
fn push_kind(text: &mut String, kind: Kind) -> TextResult
    ensures { OnOk result (string_bytes text.new ≡ string_bytes text.old ++ compared_kind kind) }
{
    match kind {
        Kind::Landmark(detour) => write!(text, "landmark-{}", detour.stretch),
        Kind::Tree | Kind::Shortest | Kind::Compact => text.push_str(kind_text(kind)),
    }
}

/// The word of a ring of links that wait for each other, or of none.
pub(crate) fn ring_word(ring: &Option<Vec<u16>>) -> &'static str
    ensures { result.now ≡ ring_word (option_map (λ r. r.items) ring.now) }
{
    match ring {
        None => "acyclic",
        Some(_) => "cycle",
    }
}

fn push_ratio(text: &mut String, over: u64, under: u64) -> TextResult
    ensures { OnOk result (string_bytes text.new ≡ string_bytes text.old ++ spaced (ratio_text over under)) }
{
    write!(text, " {over}/{under}")
}

pub(crate) fn push_stretches(text: &mut String, figures: &Figures) -> TextResult
    ensures { OnOk result (string_bytes text.new ≡ string_bytes text.old
        ++ flat_map spaced (stretches_of figures.now.walks figures.now.distances figures.now.worst)) }
{
    let Some(worst) = figures.worst else {
        text.push_str(" - -")?;
        return Ok(());
    };
    push_ratio(text, figures.walks, figures.distances)?;
    push_ratio(text, worst.walk as u64, worst.distance as u64)
}

/// Writes how many starts the rows of a plan have, its greatest row, and the bits of its rows.
pub(crate) fn push_counts(text: &mut String, plan: &Plan, greatest: u16, bits: u64) -> TextResult
    requires { greatest < node_count plan.now.topology }
    ensures { OnOk result (string_bytes text.new ≡ string_bytes text.old
        ++ flat_map spaced (count_words plan.now greatest bits)) }
{
    push_next_number(text, plan.labels())?;
    push_next_number(text, plan.row(greatest).len())?;
    push_next_number(text, bits as usize)
}

/// Writes the row of a plan, and answers the bits of full tables.
fn push_row(
    text: &mut String,
    alloc: Global,
    plan: &Plan,
    order: LabelOrder,
) -> Result<u64, AllocError>
    ensures row { OnOk result ((line : List ℕ) × IsRowOf order plan.now line
        × (string_bytes text.new ≡ string_bytes text.old ++ line)) }
    ensures tables { IfOk result (λ tables. AreTableBits plan.now.topology tables) }
{
    plan.invariant();
    let figures = figures_of(alloc, plan)?;
    let ring = waiting_ring(alloc, plan)?;
    let bits = bits_of(plan);
    let kind = plan.kind();
    push_kind(text, kind)?;
    push_word(text, labels_word(kind, order))?;
    push_counts(text, plan, greatest_row(plan), bits.rows)?;
    push_stretches(text, &figures)?;
    push_word(text, ring_word(&ring))?;
    text.push_str("\n")?;
    Ok(bits.tables)
}

/// Who builds the plans that are compared.
#[derive(Drop)]
struct Builders<'a, C> {
    crew: &'a C,
    alloc: Global,
}

/// The depth-first plan of a kind over a topology.
fn first_plan<C: Crew>(
    by: &Builders<'_, C>,
    topology: Topology,
    kind: Kind,
    root: u16,
) -> Result<Plan, PlanError>
    ensures made { IfOk result (IsPlanBy topology kind (FromRoot LabelOrder.DepthFirst root)) }
    ensures refused { IfErr result (RefusesPlan topology (FromRoot LabelOrder.DepthFirst root)) }
{
    let labels = Labels::FromRoot(LabelOrder::DepthFirst, root);
    match Plan::build_by(by.crew, by.alloc, topology, kind, labels) {
        Ok(plan) => Ok(plan),
        Err((error, _)) => Err(error),
    }
}

/// The tour of a plan's network from its root, where one is sought.
fn sought_tour<C: Crew>(by: &Builders<'_, C>, plan: &Plan) -> Result<Option<Vec<u16>>, AllocError>
    ensures { IfOk result (IsSoughtTour plan.now.topology plan.now.root) }
{
    if plan.nodes() > MOST_TOUR_NODES {
        return Ok(None);
    }
    Ok(Some(tour_of(by.crew, by.alloc, plan)?))
}

/// The plan over a tour, where one is sought and has fewer starts than the depth-first plan.
fn plan_by_tour<C: Crew>(
    by: &Builders<'_, C>,
    plan: &Plan,
    tour: &Option<Vec<u16>>,
) -> Result<Option<Plan>, AllocError>
    requires first { IsFirstPlan plan.now }
    requires kind { IsOfShortestWays plan.now.kind }
    requires tour { IsSoughtTour plan.now.topology plan.now.root tour.now }
    ensures like { IfOk result (λ found. IfSome found (IsPlanAs plan.now)) }
    ensures found { IfOk result (λ found. IfSome found (IsLabelledBy LabelOrder.Tour)) }
    ensures kept { IfOk result (λ found. found ≡ None → IsLabelledBy LabelOrder.Tour plan.now) }
{
    match tour {
        Some(tour) => plan_over_tour(by.crew, by.alloc, plan, tour.as_slice()),
        None => Ok(None),
    }
}

/// Writes the row of the plan that is labelled by a tour, from the depth-first one; answers
/// the bits of full tables.
fn push_by_tour<C: Crew>(
    text: &mut String,
    by: &Builders<'_, C>,
    plan: &Plan,
    tour: &Option<Vec<u16>>,
) -> Result<u64, AllocError>
    requires first { IsFirstPlan plan.now }
    requires kind { IsOfShortestWays plan.now.kind }
    requires tour { IsSoughtTour plan.now.topology plan.now.root tour.now }
    ensures { OnOk result ((line : List ℕ)
        × IsRowBy plan.now.topology plan.now.root plan.now.kind LabelOrder.Tour line
        × (string_bytes text.new ≡ string_bytes text.old ++ line)) }
{
    plan.invariant();
    let found = plan_by_tour(by, plan, tour)?;
    match found {
        Some(other) => push_row(text, by.alloc, &other, LabelOrder::Tour),
        None => push_row(text, by.alloc, plan, LabelOrder::Tour),
    }
}

/// Writes the rows of a depth-first plan and of the one that is labelled by a tour, where one is
/// sought; answers the topology again.
fn push_both<C: Crew>(
    text: &mut String,
    by: &Builders<'_, C>,
    plan: Plan,
    tour: &Option<Vec<u16>>,
) -> Result<Topology, AllocError>
    requires first { IsFirstPlan plan }
    requires kind { IsOfShortestWays plan.kind }
    requires tour { IsSoughtTour plan.topology plan.root tour.now }
    ensures rows { OnOk result ((lines : List ℕ) × AreBothRows plan.topology plan.root plan.kind lines
        × (string_bytes text.new ≡ string_bytes text.old ++ lines)) }
    ensures back { IfOk result (λ topology. topology ≡ plan.topology) }
{
    plan.invariant();
    push_row(text, by.alloc, &plan, LabelOrder::DepthFirst)?;
    push_by_tour(text, by, &plan, tour)?;
    Ok(plan.into_topology())
}

/// Writes the row of the landmark plan of a detour; answers the topology again.
fn push_landmark<C: Crew>(
    text: &mut String,
    by: &Builders<'_, C>,
    topology: Topology,
    root: u16,
    detour: Detour,
) -> Result<Topology, PlanError>
    ensures row { OnOk result ((line : List ℕ)
        × IsRowBy topology root (Kind.Landmark detour) LabelOrder.DepthFirst line
        × (string_bytes text.new ≡ string_bytes text.old ++ line)) }
    ensures back { IfOk result (λ network. network ≡ topology) }
    ensures refused { IfErr result (λ e. e ≢ PlanError.NoMemory
        → RefusesPlan topology (FromRoot LabelOrder.DepthFirst root) e) }
{
    let plan = first_plan(by, topology, Kind::Landmark(detour), root)?;
    push_row(text, by.alloc, &plan, LabelOrder::DepthFirst)?;
    Ok(plan.into_topology())
}

/// Writes the rows of the landmark plans of three detours.
fn push_landmarks<C: Crew>(
    text: &mut String,
    by: &Builders<'_, C>,
    topology: Topology,
    root: u16,
    detours: (Detour, Detour, Detour),
) -> Result<(), PlanError>
    ensures rows { OnOk result ((lines : List ℕ) × AreDetourRows topology root detours lines
        × (string_bytes text.new ≡ string_bytes text.old ++ lines)) }
    ensures refused { IfErr result (λ e. e ≢ PlanError.NoMemory
        → RefusesPlan topology (FromRoot LabelOrder.DepthFirst root) e) }
{
    let (first, second, third) = detours;
    let network = push_landmark(text, by, topology, root, first)?;
    let network = push_landmark(text, by, network, root, second)?;
    push_landmark(text, by, network, root, third)?;
    Ok(())
}

/// Writes the first line, and the line of the columns' names.
fn push_head(text: &mut String, topology: &Topology) -> TextResult
    ensures { OnOk result (string_bytes text.new ≡ (string_bytes text.old ++ line_text (compare_head topology.now))
        ++ line_text column_names) }
{
    text.push_str("compare")?;
    push_next_number(text, topology.nodes())?;
    push_next_number(text, topology.links())?;
    text.push_str("\n")?;
    text.push_str(
        "kind numbering intervals greatest-row bits mean-stretch worst-stretch dependencies\n",
    )
}

fn push_tables(text: &mut String, tables: u64) -> TextResult
    ensures { OnOk result (string_bytes text.new ≡ string_bytes text.old ++ line_text (table_words tables)) }
{
    text.push_str("tables - - -")?;
    push_next_number(text, tables as usize)?;
    text.push_str(" - - -\n")
}

/// The text that compares the plans of a topology from a root. It has a row for each kind and each order of labels,
/// with the figures that `figures_text` has of that plan, and a row of full tables by label. Their order is `shortest`,
/// `compact` and `tree`, of each depth first and then by a tour, but for trees; after them landmark plans of three
/// detours. Each plan is made once, and one tour is searched for both kinds; two plans are held at a time. Their rows
/// are made by a crew.
///
/// Refused as each of these plans is: as Empty, NoNode or Disconnected, or for want of memory. Takes as long as
/// `tour_of`, and as `figures_text` and the making of each plan.
pub fn compare_text(
    crew: &impl Crew,
    alloc: Global,
    topology: Topology,
    root: u16,
    detours: (Detour, Detour, Detour),
) -> Result<String, PlanError>
    ensures text { IfOk result (λ text. IsComparison topology root detours (string_bytes text)) }
    ensures refused { IfErr result (λ e. e ≢ PlanError.NoMemory
        → RefusesPlan topology (FromRoot LabelOrder.DepthFirst root) e) }
{
    let by = Builders { crew, alloc };
    let mut text = String::new(alloc);
    push_head(&mut text, &topology)?;
    let shortest = first_plan(&by, topology, Kind::Shortest, root)?;
    let tour = sought_tour(&by, &shortest)?;
    let network = push_both(&mut text, &by, shortest, &tour)?;
    let compact = first_plan(&by, network, Kind::Compact, root)?;
    let network = push_both(&mut text, &by, compact, &tour)?;
    let tree = first_plan(&by, network, Kind::Tree, root)?;
    let tables = push_row(&mut text, alloc, &tree, LabelOrder::DepthFirst)?;
    push_landmarks(&mut text, &by, tree.into_topology(), root, detours)?;
    push_tables(&mut text, tables)?;
    Ok(text)
}
