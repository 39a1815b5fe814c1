//! What the lines at the front of a topology look like.

use crate::lines::{lines_of, word_at, words_of};
use ir_adjlist::digits::all_digits;
use std::alloc::{AllocError, Global};

/// The most lines that are looked at.
const MOST_LINES: usize = 1_024;

/// What each line of a text was seen to be.
#[derive(Clone, Copy)]
pub struct Seen {
    /// How many lines have a word.
    pub lines: usize,
    /// Each of these has three words, and the last is a number.
    pub has_weights: bool,
    /// Each of these has a third word that begins with a brace.
    pub has_braces: bool,
    /// One of these begins with `graph [`.
    pub is_gml: bool,
    /// One of these has a name in quotes that a blank cuts.
    pub has_cut_name: bool,
    /// One of these has an arrow for a word.
    pub has_arrow: bool,
    /// One of these has a word such as `(0,`, a tuple that a blank cuts.
    pub has_tuple: bool,
    /// Each of these has a comma inside a word.
    pub has_commas: bool,
    /// Each of these is a node and its number of neighbours, or a neighbour with its attributes.
    pub is_multiline: bool,
    /// How many neighbours the last node of such a list still has.
    pub left: usize,
}

/// Whether a word is one or more digits.
fn is_number(word: &[u8]) -> bool {
    !word.is_empty() && all_digits(word)
}

/// Whether a word begins with a quote and does not end with one.
fn is_cut(word: &[u8]) -> bool {
    word.starts_with(b"\"") && (word.len() == 1 || word[word.len() - 1] != b'"')
}

/// Whether a word is the first half of a tuple that a blank cuts.
fn is_half(word: &[u8]) -> bool {
    word.starts_with(b"(") && word[word.len() - 1] == b','
}

/// Whether a word has a comma that is not its last byte.
fn has_comma_inside(word: &[u8]) -> bool {
    for place in 1..word.len() {
        if word[place - 1] == b',' {
            return true;
        }
    }
    false
}

/// The number that a word spells, up to 65,535; 0 where it spells none.
fn count_of(word: &[u8]) -> usize {
    let text = str::from_utf8(word).unwrap_or("");
    usize::from(text.parse::<u16>().unwrap_or(0))
}

/// Whether a further line may follow in a multiline list what was seen.
fn goes_on(seen: Seen, words: &[&[u8]]) -> bool {
    let second = word_at(words, 1);
    if seen.left > 0 {
        second.starts_with(b"{")
    } else {
        words.len() == 2 && is_number(second)
    }
}

/// What was seen, with a further line of these words.
fn seen_with(seen: Seen, words: &[&[u8]]) -> Seen {
    if words.is_empty() {
        return seen;
    }
    let (mut has_cut, mut has_arrow, mut has_half, mut has_comma) = (false, false, false, false);
    for word in words {
        has_cut |= is_cut(word);
        has_arrow |= *word == b"->".as_slice();
        has_half |= is_half(word);
        has_comma |= has_comma_inside(word);
    }
    let third = word_at(words, 2);
    let is_graph = word_at(words, 0) == b"graph".as_slice() && word_at(words, 1).starts_with(b"[");
    Seen {
        lines: seen.lines.saturating_add(1),
        has_weights: seen.has_weights && words.len() == 3 && is_number(third),
        has_braces: seen.has_braces && third.starts_with(b"{"),
        is_gml: seen.is_gml || is_graph,
        has_cut_name: seen.has_cut_name || has_cut,
        has_arrow: seen.has_arrow || has_arrow,
        has_tuple: seen.has_tuple || has_half,
        has_commas: seen.has_commas && has_comma,
        is_multiline: seen.is_multiline && goes_on(seen, words),
        left: if seen.left > 0 {
            seen.left - 1
        } else {
            count_of(word_at(words, 1))
        },
    }
}

/// What the lines at the front of a text were seen to be.
pub fn seen_of(alloc: Global, text: &[u8]) -> Result<Seen, AllocError> {
    let mut seen = Seen {
        lines: 0,
        has_weights: true,
        has_braces: true,
        is_gml: false,
        has_cut_name: false,
        has_arrow: false,
        has_tuple: false,
        has_commas: true,
        is_multiline: true,
        left: 0,
    };
    for line in lines_of(alloc, text, MOST_LINES)?.iter() {
        seen = seen_with(seen, words_of(alloc, line)?.as_slice());
    }
    Ok(seen)
}
