//! What is wrong with a line of a topology.

use crate::lines::word_at;
use crate::sentence::{Pushed, Quoted, begin_line, push_bad_byte, push_count};
use crate::texts::RunTexts;
use ir_adjlist::TextError;
use ir_model::{Fault, MAX_EDGES, MAX_NAME_BYTES, MAX_NODES, MAX_WEIGHT};

/// How many bytes the first word has that is too long for a name; 0 where none is.
fn long_name(words: &[&[u8]]) -> usize {
    for word in words {
        if word.len() > MAX_NAME_BYTES {
            return word.len();
        }
    }
    0
}

/// Says that a name is too long: the first such word.
fn push_long_name(text: &mut String, words: &[&[u8]]) -> Pushed {
    let bytes = long_name(words);
    write!(
        text,
        "a name has {bytes} bytes; the limit is {MAX_NAME_BYTES}"
    )
}

/// Says that a line of an edge list has another number of words.
fn push_bad_row(text: &mut String, words: &[&[u8]]) -> Pushed {
    push_count(text, words.len())?;
    text.push_str("; a line of an edge list is NODE NODE WEIGHT")?;
    text.push_str(if word_at(words, 2).starts_with(b"{") {
        " (attributes in braces are not supported: NetworkX's write_weighted_edgelist writes none)"
    } else {
        " (is it an adjacency list? try --format adjlist)"
    })
}

/// Says that a topology has more of something than it may have.
fn push_too_many(text: &mut String, most: usize, what: &str) -> Pushed {
    write!(text, "too many {what}: a topology has at most {most}")
}

/// Says what is wrong with a line of a topology.
pub fn push_topology(text: &mut String, run: &RunTexts<'_>, error: TextError) -> Pushed {
    let line = begin_line(run.alloc, text, &run.texts.topology, error.line)?;
    let words = line.as_slice();
    match error.kind {
        Fault::BadByte => push_bad_byte(text, words, "names"),
        Fault::BadName => push_long_name(text, words),
        Fault::BadRow => push_bad_row(text, words),
        Fault::BadWeight => {
            let word = Quoted(word_at(words, 2));
            write!(
                text,
                "{word} is not a weight: use a whole number from 1 to {MAX_WEIGHT}"
            )
        }
        Fault::TooManyNodes => push_too_many(text, MAX_NODES, "nodes"),
        Fault::TooManyEdges => push_too_many(text, MAX_EDGES, "edges"),
        Fault::NoMemory => text.push_str("out of memory while reading the topology"),
    }
}
