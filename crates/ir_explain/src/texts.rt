//! The texts of a run, and the files that they are in.

use crate::lines::line_ends;
use ir_cli::{Format, Source, Sub, Words, cut, read_topology};
use ir_graph::Graph;
use ir_model::Fault;
use std::alloc::{AllocError, Global};

/// What kept an input from being read.
#[derive(Clone, Copy, Debug, PartialEq, Eq)]
pub enum Trouble {
    /// Nothing is known to have.
    Unknown,
    /// There is no such file.
    Missing,
    /// The permission to read it is denied.
    Forbidden,
    /// It is a directory.
    Directory,
    /// A call that opens or reads it failed.
    Failed,
}

/// What was given of an input: the bytes that were read, and what kept it from being read to its end.
#[derive(Clone, Copy)]
pub struct Given<'a> {
    pub bytes: &'a [u8],
    pub trouble: Trouble,
}

/// A text of a run: its file, how many lines of the file are above it, and its bytes.
#[derive(Clone, Copy)]
pub struct GivenText<'a> {
    pub file: &'a str,
    pub above: usize,
    pub bytes: &'a [u8],
    pub trouble: Trouble,
}

/// The texts of a run; the second one is both the new topology's and the script's. One that the run does not have is
/// empty.
#[derive(Clone, Copy)]
pub struct GivenTexts<'a> {
    pub topology: GivenText<'a>,
    pub new: GivenText<'a>,
    pub script: GivenText<'a>,
    pub trace: GivenText<'a>,
    pub numbering: GivenText<'a>,
}

impl<'a> GivenTexts<'a> {
    /// The text of a source; of an input with several texts the first.
    pub fn of(&self, source: Source) -> &GivenText<'a> {
        match source {
            Source::Input | Source::Topology => &self.topology,
            Source::New => &self.new,
            Source::Script => &self.script,
            Source::Trace => &self.trace,
            Source::Numbering => &self.numbering,
        }
    }
}

/// All of the input at a place, as a text of this file.
fn whole<'a>(given: &[Given<'a>], place: usize, file: &'a str) -> GivenText<'a> {
    let (bytes, trouble): (&[u8], Trouble) = match given.get(place) {
        Some(input) => (input.bytes, input.trouble),
        None => (&[], Trouble::Unknown),
    };
    GivenText {
        file,
        above: 0,
        bytes,
        trouble,
    }
}

/// What the line `%%` cuts a text into: what is above it, and what is below.
fn halves<'a>(part: GivenText<'a>) -> (GivenText<'a>, GivenText<'a>) {
    let (bytes, below) = cut(part.bytes);
    let above = line_ends(part.bytes).saturating_sub(line_ends(below));
    let above = part.above.saturating_add(above);
    let second = GivenText {
        bytes: below,
        above,
        ..part
    };
    (GivenText { bytes, ..part }, second)
}

/// The texts of a run, of what was given of its inputs.
pub fn texts_of<'a>(words: &'a Words, given: &[Given<'a>]) -> GivenTexts<'a> {
    let first = whole(given, 0, words.file(0));
    let numbering = whole(given, 1, words.order_file());
    let (topology, script, trace) = match words.sub {
        Sub::Diff | Sub::Sim | Sub::Live if words.is_one_input() => {
            let (topology, script) = halves(first);
            (topology, script, whole(given, 2, "-"))
        }
        Sub::Check if words.is_one_input() => {
            let (topology, rest) = halves(first);
            let (script, trace) = halves(rest);
            (topology, script, trace)
        }
        _ => (
            first,
            whole(given, 1, words.file(1)),
            whole(given, 2, words.file(2)),
        ),
    };
    GivenTexts {
        topology,
        new: script,
        script,
        trace,
        numbering,
    }
}

/// A run that is explained: where memory is, the graphs of its topology and of its new one, what its words ask for, and
/// its texts.
#[derive(Clone, Copy)]
pub struct RunTexts<'a> {
    pub alloc: Global,
    pub graph: &'a Graph,
    pub new_graph: &'a Graph,
    pub words: &'a Words,
    pub texts: GivenTexts<'a>,
}

/// The graph of a topology; one with no node where the text has a fault.
pub fn graph_of(alloc: Global, format: Format, part: &GivenText<'_>) -> Result<Graph, AllocError> {
    match read_topology(alloc, format, part.bytes) {
        Ok(graph) => Ok(graph),
        Err(error) if error.kind == Fault::NoMemory => Err(AllocError),
        Err(_) => Ok(Graph::new(alloc)),
    }
}

/// The graph of a new topology; one with no node where the run has none, or the text has a fault.
pub fn new_graph_of(
    alloc: Global,
    words: &Words,
    part: &GivenText<'_>,
) -> Result<Graph, AllocError> {
    if words.sub == Sub::Diff {
        graph_of(alloc, words.new_format, part)
    } else {
        Ok(Graph::new(alloc))
    }
}
