//! The name that a word may have meant.

use crate::sentence::Pushed;
use crate::{MOST_EDITS, MOST_NAMES};
use ir_adjlist::digits::all_digits;
use ir_graph::Graph;
use ir_model::MAX_NAME_BYTES;
use std::alloc::{AllocError, Global};
use strsim::generic_levenshtein;

/// A name, and how many edits lead to it.
type Near<'a> = Option<(usize, &'a str)>;

/// What is nearer to a word: what was found, or a further name. Nothing is near to a number.
fn nearer<'a>(
    alloc: Global,
    word: &[u8],
    found: Near<'a>,
    name: &'a str,
) -> Result<Near<'a>, AllocError> {
    if word.len() > MAX_NAME_BYTES || all_digits(word) {
        return Ok(found);
    }
    let edits = generic_levenshtein(alloc, word, name.as_bytes())?;
    let least = found.map_or(MOST_EDITS + 1, |near| near.0);
    if edits < least && edits < word.len() {
        Ok(Some((edits, name)))
    } else {
        Ok(found)
    }
}

/// The node whose name is nearest to a word, the first such.
pub fn nearest_node<'a>(
    alloc: Global,
    graph: &'a Graph,
    word: &[u8],
) -> Result<Option<&'a str>, AllocError> {
    let mut found = None;
    for place in 0..graph.number_of_nodes().min(MOST_NAMES) {
        if let Some(name) = graph.node(place) {
            found = nearer(alloc, word, found, name)?;
        }
    }
    Ok(found.map(|near| near.1))
}

/// The name of a list that is nearest to a word, the first such.
pub fn nearest_of<'a>(
    alloc: Global,
    names: &[&'a str],
    word: &[u8],
) -> Result<Option<&'a str>, AllocError> {
    let mut found = None;
    for name in names {
        found = nearer(alloc, word, found, *name)?;
    }
    Ok(found.map(|near| near.1))
}

/// Asks whether a name was meant, if there is one.
pub fn push_near(text: &mut String, near: Option<&str>) -> Pushed {
    match near {
        Some(name) => write!(text, " (did you mean '{name}'?)"),
        None => Ok(()),
    }
}
