//! The lines of a plan's text, by blocks of nodes.
ghost use Rattle.std.specs.Prelude.{◌≡◌, ◌+◌, ◌<◌, IfOk, IfSome, flat_map, length};
ghost use Rattle.ir_show.specs.Blocks.{ArePieces, IsBlock, block_lines, line_of_node};

use crate::plan_text::{Pieces, write_node};
use ir_plan::Crew;
use ir_streams::TextParts;
use std::alloc::{AllocError, Global};

/// The fewest nodes that a thread is started for.
const LEAST_NODES: usize = 4;

/// Nodes that follow one another, by their numbers: from one on, and to one that is none of them.
#[derive(Clone, Copy, Drop)]
pub struct TextBlock {
    pub from: usize,
    pub to: usize,
}

/// The lines of a block of nodes, a text each, made by a crew. None where no other thread than the
/// one that calls would make them, or where memory for them is refused.
pub fn lines_by(
    crew: &impl Crew,
    alloc: Global,
    pieces: &Pieces,
    block: TextBlock,
) -> Option<Vec<Vec<u8>>>
    requires pieces { ArePieces pieces.now }
    requires block { IsBlock (length pieces.now.graph) block }
    ensures { IfSome result (λ texts. flat_map (λ text. text.items) texts.items ≡ block_lines pieces.now block) }
{
    if crew.is_alone() {
        return None;
    }
    texts_by(crew, alloc, pieces, block).ok()
}

/// The line of each node of a block, made by a crew.
fn texts_by(
    crew: &impl Crew,
    alloc: Global,
    pieces: &Pieces,
    block: TextBlock,
) -> Result<Vec<Vec<u8>>, AllocError>
    requires pieces { ArePieces pieces.now }
    requires block { IsBlock (length pieces.now.graph) block }
    ensures { IfOk result (λ texts. flat_map (λ text. text.items) texts.items ≡ block_lines pieces.now block) }
{
    let first = block.from;
    crew.texts(
        alloc,
        block.to - first,
        LEAST_NODES,
        &|k: usize| -> Result<Vec<u8>, AllocError>
            requires { (first + k < length pieces.now.graph) × ArePieces pieces.now }
            ensures { IfOk result (λ text. text.items ≡ line_of_node pieces.entry.now (first + k)) }
        { node_text(alloc, pieces, first + k) },
    )
}

/// The line of a node, by its number as a place.
fn node_text(alloc: Global, pieces: &Pieces, u: usize) -> Result<Vec<u8>, AllocError>
    requires pieces { ArePieces pieces.now }
    requires node { u < length pieces.now.graph }
    ensures { IfOk result (λ text. text.items ≡ line_of_node pieces.now u) }
{
    pieces.plan.invariant();
    let parts = TextParts::new(alloc)?;
    let mut text = Vec::new(alloc);
    if !write_node(parts, &mut text, pieces, u as u16) {
        return Err(AllocError);
    }
    Ok(text)
}
