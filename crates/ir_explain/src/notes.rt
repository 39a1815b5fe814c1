//! Topologies that look like another format.

use crate::seen::{Seen, seen_of};
use crate::sentence::{FileName, Pushed, begin};
use crate::texts::{GivenText, graph_of};
use ir_cli::Format;
use std::alloc::{AllocError, Global};

/// The most bytes at the front of a text in which a tag is looked for.
const MOST_FRONT: usize = 4_096;

static ARROWS: &str = "'->' is read as a node name (Rocketfuel .cch maps are not supported)";

static QUOTES: &str = "quotes do not join words: 'New York' is read as two names, New_York as one";

static WEIGHTS: &str =
    "each line has three words and ends in a number (is it an edge list? try --format edgelist)";

static TUPLES: &str = "a list of tuples that are split at spaces";

static BRACES: &str = "an edge list with attributes in braces";

static MULTILINE: &str = "a multiline adjacency list";

/// Documents that are converted: what they begin with, after blanks, what follows further in, and the format.
static DOCUMENTS: [(&str, &str, &str); 13] = [
    ("%%MatrixMarket", "", "MatrixMarket"),
    ("?SNDlib", "", "SNDlib"),
    ("{", "", "JSON"),
    (">>graph6<<", "", "graph6"),
    (">>sparse6<<", "", "graph6"),
    ("*Vertices", "", "Pajek"),
    ("*vertices", "", "Pajek"),
    ("graph ", "{", "DOT"),
    ("digraph ", "{", "DOT"),
    ("strict ", "{", "DOT"),
    ("<", "<graphml", "GraphML"),
    ("<", "<gexf", "GEXF"),
    ("<", "<networkStructure", "SNDlib"),
];

/// What follows the blanks at the front of a text, and the blank lines.
fn from_first_word(text: &[u8]) -> &[u8] {
    for place in 0..text.len() {
        if !matches!(text[place], b' ' | b'\t' | b'\r' | b'\n') {
            return &text[place..];
        }
    }
    &[]
}

/// Whether the front of a text has a word in it.
fn has_in_front(text: &[u8], word: &[u8]) -> bool {
    for place in 0..text.len().min(MOST_FRONT) {
        if text[place..].starts_with(word) {
            return true;
        }
    }
    false
}

/// The format of a text that is a document of those that are converted; nothing for another.
fn convertible(text: &[u8]) -> &'static str {
    let front = from_first_word(text);
    for (begun, inside, name) in DOCUMENTS.as_slice() {
        if front.starts_with(begun.as_bytes()) && has_in_front(front, inside.as_bytes()) {
            return *name;
        }
    }
    ""
}

/// What lines that were seen to be this, read in this format, look like: another format, and the word by which it is
/// converted, or else a note on them. Nothing, where they look like their own.
fn likeness(seen: Seen, format: Format) -> (&'static str, Option<&'static str>) {
    match format {
        _ if seen.is_gml => ("GML", Some("")),
        Format::AdjList if seen.has_tuple => (TUPLES, Some(" --from adjlist")),
        Format::EdgeList if seen.has_tuple => (TUPLES, Some(" --from edgelist")),
        _ if seen.lines > 1 && seen.has_commas => ("CSV", Some(" --from csv")),
        Format::AdjList if seen.lines > 0 && seen.has_braces => (BRACES, Some(" --from edgelist")),
        Format::AdjList if seen.lines > 1 && seen.is_multiline => (
            MULTILINE,
            Some(" --from multiline"),
        ),
        _ if seen.has_arrow => (ARROWS, None),
        _ if seen.has_cut_name => (QUOTES, None),
        Format::AdjList if seen.lines > 1 && seen.has_weights => (WEIGHTS, None),
        Format::AdjList | Format::EdgeList => ("", None),
    }
}

/// Says what a topology looks like, and how it is converted where there is a word for that.
fn push_likeness(text: &mut String, file: &str, name: &str, word: Option<&str>) -> Pushed {
    begin(text, file)?;
    match word {
        Some(word) => {
            let file = FileName(if file == "-" { "FILE" } else { file });
            write!(
                text,
                "this looks like {name}; 'python3 -m bentzolu convert {file}{word}' makes an edge list of it"
            )
        }
        None => text.push_str(name),
    }
}

/// How many nodes and links are read of a topology; none where the text has a fault.
fn counts_of(
    alloc: Global,
    format: Format,
    part: &GivenText<'_>,
) -> Result<(usize, usize), AllocError> {
    let graph = graph_of(alloc, format, part)?;
    Ok((graph.number_of_nodes(), graph.number_of_edges()))
}

/// Says so where a topology looks like one of another format, and how many nodes and links were read.
pub fn push_note(alloc: Global, text: &mut String, format: Format, part: &GivenText<'_>) -> Pushed {
    let (name, word) = match convertible(part.bytes) {
        "" => likeness(seen_of(alloc, part.bytes)?, format),
        name => (name, Some("")),
    };
    if name.is_empty() {
        return Ok(());
    }
    push_likeness(text, part.file, name, word)?;
    let (nodes, links) = counts_of(alloc, format, part)?;
    if nodes == 0 {
        return text.push_str("\n");
    }
    write!(text, "; nodes read: {nodes}, links: {links}\n")
}
