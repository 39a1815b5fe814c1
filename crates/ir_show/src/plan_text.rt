//! The text of a plan, which is not built: its words are written as they are made.
ghost use Rattle.std.specs.Prelude.{◌≡◌, ◌<◌, ◌≤◌, [], Some, IfOk, IfSome, length, flat_map, decimal, List, ℕ};
ghost use Rattle.ir_model.specs.{Graph.names, Topology.node_count, Plan.row_in};
ghost use Rattle.ir_streams.specs.{Pouring.Pours, Writing.{Calls, Writes}};
ghost use Rattle.ir_trace.specs.{Rows.spaced, Written.name_at};
ghost use Rattle.ir_show.specs.Blocks.{ArePieces, AreSpaced, IsBlock, block_lines, line_of_node, start_text, starts_text};
ghost use Rattle.ir_show.specs.{Held.{plan_text_held, IsHeld}, PlanText.{kind_text, plan_head, plan_text}, Words.line_text};

use crate::blocks::{TextBlock, lines_by};
use ir_graph::Graph;
use ir_model::Kind;
use ir_plan::{Crew, Plan};
use ir_streams::{TextParts, Texts, Writer};
use ir_trace::text::{name_of, push_name, push_next_number};
use itoa::Buffer;
use std::alloc::{AllocError, Global};
use std::marker::Model;

/// How many starts the rows of a block of nodes have at least, where they are not the last: some
/// mebibytes of text. A plan with fewer is written by the thread that calls alone.
const BLOCK_STARTS: usize = 1 << 18;

/// A block that is not the last has a multiple of so many nodes, so that threads get as many each.
const BLOCK_NODES: usize = 16;

/// The word of a kind.
pub fn kind_text(kind: Kind) -> &'static str
    ensures { result.now ≡ kind_text kind }
{
    match kind {
        Kind::Tree => "tree",
        Kind::Shortest => "shortest",
        Kind::Compact => "compact",
        Kind::Landmark(_) => "landmark",
    }
}

/// Writes a space and a word.
fn pour_word<W: Writer>(parts: &mut TextParts, writer: &mut W, word: &str)
    ensures { Pours W.contents W.wrote W.settled writer.old parts.old (spaced word.now) writer.new parts.new }
{
    parts.push(writer, b" ");
    parts.push(writer, word.as_bytes());
}

/// Writes a space and a number.
fn pour_number<W: Writer>(parts: &mut TextParts, writer: &mut W, n: usize)
    ensures { Pours W.contents W.wrote W.settled writer.old parts.old (spaced (decimal n)) writer.new parts.new }
{
    let mut digits = Buffer::new();
    pour_word(parts, writer, digits.format(n));
}

/// What the text of a plan is made of: for each label and each node the piece that stands for it in
/// a row, which is made once, since rows name them again and again.
#[derive(Drop)]
pub struct Pieces {
    graph: Graph,
    pub(crate) plan: Plan,
    /// A space and a number, for each number below that of the nodes.
    numbers: Texts,
    /// A space and a name, for each node.
    names: Texts,
}

/// A space and the number, for each number below this one.
fn spaced_numbers(alloc: Global, count: usize) -> Result<Texts, AllocError>
    ensures { IfOk result (λ texts. AreSpaced decimal count texts) }
{
    let mut texts = Texts::with_capacity(alloc, count)?;
    for n in 0..count {
        let mut text = String::new(alloc);
        push_next_number(&mut text, n)?;
        texts.push(text.as_bytes())?;
    }
    Ok(texts)
}

/// A space and the name, for each node.
fn spaced_names(alloc: Global, graph: &Graph) -> Result<Texts, AllocError>
    ensures { IfOk result (λ texts. AreSpaced (name_at (names graph.now)) (length graph.now) texts) }
{
    let count = graph.number_of_nodes();
    let mut texts = Texts::with_capacity(alloc, count)?;
    for u in 0..count {
        let mut text = String::new(alloc);
        push_name(&mut text, graph, u as u16)?;
        texts.push(text.as_bytes())?;
    }
    Ok(texts)
}

/// Writes a start of a node's row, and the name of the neighbour at its port.
fn pour_start<W: Writer>(parts: &mut TextParts, writer: &mut W, pieces: &Pieces, u: u16, i: usize)
    requires pieces { ArePieces pieces.now }
    requires node { u < length pieces.now.graph }
    requires place { i < length (row_in pieces.now.plan u) }
    ensures { Pours W.contents W.wrote W.settled writer.old parts.old (start_text pieces.now u i) writer.new parts.new }
{
    let row = pieces.plan.row(u);
    parts.push_text(writer, &pieces.numbers, row.start(i) as usize);
    let hop = pieces.plan.hop(u, row.port(i));
    parts.push_text(writer, &pieces.names, hop.node as usize);
}

fn pour_starts<W: Writer>(parts: &mut TextParts, writer: &mut W, pieces: &Pieces, u: u16)
    requires pieces { ArePieces pieces.now }
    requires node { u < length pieces.now.graph }
    ensures { Pours W.contents W.wrote W.settled writer.old parts.old (starts_text pieces.now u) writer.new parts.new }
{
    let count = pieces.plan.row(u).len();
    for i in 0..count {
        pour_start(parts, writer, pieces, u, i);
    }
}

/// Writes the line of a node. None is made once a write failed.
fn pour_node<W: Writer>(parts: &mut TextParts, writer: &mut W, pieces: &Pieces, u: u16)
    requires pieces { ArePieces pieces.now }
    requires node { u < length pieces.now.graph }
    ensures { Pours W.contents W.wrote W.settled writer.old parts.old (line_of_node pieces.now u) writer.new parts.new }
{
    if parts.has_failed() {
        return;
    }
    parts.push(writer, name_of(&pieces.graph, u).as_bytes());
    pour_number(parts, writer, pieces.plan.label_of(u) as usize);
    pour_starts(parts, writer, pieces, u);
    parts.push(writer, b"\n");
}

fn pour_head<W: Writer>(parts: &mut TextParts, writer: &mut W, plan: &Plan)
    ensures { Pours W.contents W.wrote W.settled writer.old parts.old (line_text (plan_head plan.now))
        writer.new parts.new }
{
    parts.push(writer, b"plan");
    pour_word(parts, writer, kind_text(plan.kind()));
    pour_number(parts, writer, plan.nodes());
    pour_number(parts, writer, plan.labels());
    parts.push(writer, b"\n");
}

fn pour_block<W: Writer>(parts: &mut TextParts, writer: &mut W, pieces: &Pieces, block: TextBlock)
    requires pieces { ArePieces pieces.now }
    requires block { IsBlock (length pieces.now.graph) block }
    ensures { Pours W.contents W.wrote W.settled writer.old parts.old (block_lines pieces.now block)
        writer.new parts.new }
{
    pieces.plan.invariant();
    for u in block.from..block.to {
        pour_node(parts, writer, pieces, u as u16);
    }
}

/// Writes the line of a node as a text of its own, and answers whether the writer took it.
pub(crate) fn write_node<W: Writer>(
    mut parts: TextParts,
    writer: &mut W,
    pieces: &Pieces,
    u: u16,
) -> bool
    requires parts { parts ≡ Some [] }
    requires pieces { ArePieces pieces.now }
    requires node { u < length pieces.now.graph }
    ensures { Writes result (W.contents writer.old) (W.contents writer.new) (line_of_node pieces.now u) }
{
    pour_node(&mut parts, writer, pieces, u);
    parts.finish(writer)
}

fn pour_texts<W: Writer>(parts: &mut TextParts, writer: &mut W, texts: &[Vec<u8>])
    ensures { Pours W.contents W.wrote W.settled writer.old parts.old (flat_map (λ text. text.items) texts.now)
        writer.new parts.new }
{
    for text in texts {
        parts.push(writer, text.as_slice());
    }
}

/// Writes the lines of a block of nodes, which a crew made or else this thread makes.
fn pour_lines<W: Writer>(
    parts: &mut TextParts,
    writer: &mut W,
    pieces: &Pieces,
    block: TextBlock,
    made: Option<Vec<Vec<u8>>>,
)
    requires pieces { ArePieces pieces.now }
    requires block { IsBlock (length pieces.now.graph) block }
    requires made { IfSome made (λ texts. flat_map (λ text. text.items) texts.items
        ≡ block_lines pieces.now block) }
    ensures { Pours W.contents W.wrote W.settled writer.old parts.old (block_lines pieces.now block)
        writer.new parts.new }
{
    match made {
        Some(texts) => pour_texts(parts, writer, texts.as_slice()),
        None => pour_block(parts, writer, pieces, block),
    }
}

/// Writes the text of a plan over a graph's network.
fn pour_plan<W: Writer>(parts: &mut TextParts, writer: &mut W, pieces: &Pieces)
    requires { ArePieces pieces.now }
    ensures { Pours W.contents W.wrote W.settled writer.old parts.old
        (plan_text (names pieces.now.graph) pieces.now.plan) writer.new parts.new }
{
    pour_head(parts, writer, &pieces.plan);
    let nodes = pieces.plan.nodes();
    pour_block(parts, writer, pieces, TextBlock { from: 0, to: nodes });
}

/// Where a block of nodes from one on ends: where their rows have `BLOCK_STARTS` starts, or after the last.
fn block_end(plan: &Plan, from: usize) -> usize
    requires { from < node_count plan.now.topology }
    ensures some { from < result }
    ensures within { result ≤ node_count plan.now.topology }
{
    let mut starts = 0usize;
    for u in from..plan.nodes() {
        starts = starts.saturating_add(plan.row(u as u16).len());
        if starts >= BLOCK_STARTS && (u - from) % BLOCK_NODES == BLOCK_NODES - 1 {
            return u + 1;
        }
    }
    plan.nodes()
}

/// Writes the text of a plan over a graph's network; a crew makes the lines of a large one, one
/// block of nodes after the other.
fn pour_plan_by<C: Crew, W: Writer>(
    crew: &C,
    alloc: Global,
    parts: &mut TextParts,
    writer: &mut W,
    pieces: &Pieces,
)
    requires { ArePieces pieces.now }
    ensures { Pours W.contents W.wrote W.settled writer.old parts.old
        (plan_text (names pieces.now.graph) pieces.now.plan) writer.new parts.new }
{
    if pieces.plan.labels() < BLOCK_STARTS {
        pour_plan(parts, writer, pieces);
        return;
    }
    pour_head(parts, writer, &pieces.plan);
    let nodes = pieces.plan.nodes();
    let mut from = 0;
    while from < nodes {
        if parts.has_failed() {
            return;
        }
        let to = block_end(&pieces.plan, from);
        let block = TextBlock { from, to };
        let made = lines_by(crew, alloc, pieces, block);
        pour_lines(parts, writer, pieces, block, made);
        from = to;
    }
}

/// What the writing of a plan's text needs beside graph and plan: for each node a space and a
/// number, and a space and a name. Also the parts of a text of which nothing has come yet.
fn wanted_texts(
    alloc: Global,
    graph: &Graph,
    plan: &Plan,
) -> Result<(Texts, Texts, TextParts), AllocError>
    ensures { IfOk result (λ made. AreSpaced decimal (node_count plan.now.topology) made.0
        × AreSpaced (name_at (names graph.now)) (length graph.now) made.1 × (made.2 ≡ Some [])) }
{
    let numbers = spaced_numbers(alloc, plan.nodes())?;
    let names = spaced_names(alloc, graph)?;
    Ok((numbers, names, TextParts::new(alloc)?))
}

/// The text of a plan over a graph's network. It is not built: beside the graph and the plan it
/// holds the memory that its writing wants.
#[derive(Drop)]
pub struct PlanText {
    pieces: Pieces,
    parts: TextParts,
}

impl Model for PlanText {
    ghost Value = { List ℕ };

    ghost view = { plan_text_held };

    ghost invariant = { IsHeld };
}

impl PlanText {
    /// The text of a plan over the graph's network. It is refused for memory alone, and its writing
    /// takes none. Takes O(n), for n nodes.
    pub fn new(alloc: Global, graph: Graph, plan: Plan) -> Result<PlanText, AllocError>
        requires { node_count plan.topology ≡ length graph }
        ensures { IfOk result (λ text. text ≡ plan_text (names graph) plan) }
    {
        let (numbers, names, parts) = wanted_texts(alloc, &graph, &plan)?;
        let pieces = Pieces {
            graph,
            plan,
            numbers,
            names,
        };
        Ok(PlanText { pieces, parts })
    }

    /// Writes the text, in writes of at most `ir_streams::PART_BYTES` bytes, and answers whether
    /// the writer took and flushed it. Nothing is written after a call that failed, and the answer
    /// is false only where one did. What went out is a front of the text. Takes O(n + s), for n
    /// nodes and s starts, beside the calls of the writer.
    pub fn write<W: Writer>(self, writer: &mut W) -> bool
        ensures calls { Calls W.wrote W.settled result writer.old self writer.new }
        ensures bytes { Writes result (W.contents writer.old) (W.contents writer.new) self }
    {
        let PlanText { pieces, mut parts } = self;
        pour_plan(&mut parts, writer, &pieces);
        parts.finish(writer)
    }

    /// Does what `write` does. The lines of a large plan are made by a crew, some mebibytes at a
    /// time; where memory for them is refused, by the thread that calls.
    pub fn write_by<C: Crew, W: Writer>(self, crew: &C, alloc: Global, writer: &mut W) -> bool
        ensures calls { Calls W.wrote W.settled result writer.old self writer.new }
        ensures bytes { Writes result (W.contents writer.old) (W.contents writer.new) self }
    {
        let PlanText { pieces, mut parts } = self;
        pour_plan_by(crew, alloc, &mut parts, writer, &pieces);
        parts.finish(writer)
    }
}
