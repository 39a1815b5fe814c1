//! What the subcommands take: tables of options, flags and files.
ghost use Rattle.std.specs.Prelude.{◌≡◌, ◌++◌};
ghost use Rattle.ir_cli.specs.CommandLine.{rules_of, telling};
ghost use Rattle.ir_cli.specs.declared.options.Choices.{Choices};
ghost use Rattle.ir_cli.specs.Taking.{rules_taken};

use crate::words::Sub;
use crate::{
    DEFAULT_CAPACITY, DEFAULT_PACKETS, DEFAULT_RESTAMPS, MAX_EPOCH, MAX_LANDMARKS, MAX_STRETCH,
    MAX_THREADS, MIN_STRETCH,
};
use ir_core::{MAX_CAPACITY, MAX_PACKETS, MAX_RESTAMPS};

/// What may be chosen.
#[derive(Clone, Copy)]
pub enum Choice {
    Format,
    Kind,
    /// How the plans of a run are numbered.
    Numbering,
    /// How two plans are numbered, of which one may keep the labels of the other.
    Keeping,
    /// What is printed for a kernel's packet path.
    Part,
    /// Of what each fails.
    Each,
}

/// What an argument takes.
#[derive(Clone, Copy)]
pub enum Accepts {
    /// Nothing: it is a flag.
    Nothing,
    /// Any word, which help calls so.
    Word(&'static str),
    /// One of the words of a choice.
    WordOf(&'static str, Choice),
    /// A number from one to another.
    Number(&'static str, u16, u16),
    /// The name of a file, a word by itself.
    File(&'static str),
    /// One of the words of a choice, which stands by itself.
    PlaceOf(&'static str, Choice),
    /// A number from one to another, which stands by itself.
    Place(&'static str, u16, u16),
}

/// Whether an argument is to be given.
#[derive(Clone, Copy)]
pub enum Need {
    /// It may be.
    Free,
    /// It must be.
    Must,
    /// It may be, and else this word is taken for it.
    Else(&'static str),
}

/// An argument.
#[derive(Clone, Copy)]
pub struct Taken {
    pub name: &'static str,
    /// Its letter after one hyphen.
    pub letter: Option<char>,
    pub help: &'static str,
    pub takes: Accepts,
    pub need: Need,
}

/// The words of which one is chosen.
#[derive(Clone, Copy)]
pub struct Choices<'a> {
    pub formats: &'a [&'a str],
    pub kinds: &'a [&'a str],
    pub numberings: &'a [&'a str],
    pub keepings: &'a [&'a str],
    pub parts: &'a [&'a str],
    pub eaches: &'a [&'a str],
}

/// A row of a table: the name and the letter, what is taken and whether it must be, and what help says of it.
macro_rules! taken {
    ($name:literal, $letter:expr, $takes:expr, $need:expr => $help:literal) => {
        Taken {
            name: $name,
            letter: $letter,
            help: $help,
            takes: $takes,
            need: $need,
        }
    };
}

// How every subcommand reports.
const OUTPUT: Taken = taken!("output", Some('o'), Accepts::Word("FILE"), Need::Free
    => "Write the output to FILE, whole or not at all (default: standard output)");

const QUIET: Taken = taken!("quiet", None, Accepts::Nothing, Need::Free
    => "Print nothing on standard error; the exit status is the only report");

const EXPLAIN: Taken = taken!("explain", None, Accepts::Nothing, Need::Free
    => "Explain each fault in a sentence on standard error (default on a terminal)");

const SILENT: Taken = taken!("no-explain", None, Accepts::Nothing, Need::Free
    => "Do not explain faults, not even on a terminal");

const JSON: Taken =
    taken!("json", None, Accepts::Nothing, Need::Free => "Print the output as JSON");

// The topology, and the plan of it.
const FORMAT: Taken =
    taken!("format", Some('f'), Accepts::WordOf("FORMAT", Choice::Format), Need::Free
    => "Set the format of the topology (default: edgelist for a file that ends in .edgelist or .wel, else adjlist)");

const KIND: Taken =
    taken!("kind", Some('k'), Accepts::WordOf("KIND", Choice::Kind), Need::Else("shortest")
    => "Set the kind of the first plan");

const LANDMARKS: Taken =
    taken!("landmarks", None, Accepts::Number("K", 1, MAX_LANDMARKS), Need::Free
    => "Use at most K landmarks in landmark plans (default: half the square root of the number of nodes, rounded up)");

const STRETCH: Taken =
    taken!("stretch", None, Accepts::Number("P", MIN_STRETCH, MAX_STRETCH), Need::Free
    => "Limit the paths of landmark plans to P percent of the distance (default: 300)");

const ROOT: Taken = taken!("root", Some('r'), Accepts::Word("NAME"), Need::Free
    => "Set the root of the first plan (default: the first node)");

const ROOTS: Taken = taken!("root", Some('r'), Accepts::Word("NAME"), Need::Free
    => "Set the root of the plans (default: the first node)");

const NUMBERING: Taken =
    taken!("numbering", Some('n'), Accepts::Word("NUMBERING"), Need::Else("depth-first")
    => "Number the nodes depth-first, along a tour (often fewer intervals), or as in a file with one node on each line");

const THREADS: Taken = taken!("threads", None, Accepts::Number("T", 1, MAX_THREADS), Need::Free
    => "Use at most T threads to make rows (default: as suits the processors)");

const TOPOLOGY: Taken = taken!("topology", None, Accepts::File("TOPOLOGY"), Need::Must
    => "Topology file, or - for standard input");

// Two topologies of the same nodes, and the plans of them.
const BOTH_KINDS: Taken =
    taken!("kind", Some('k'), Accepts::WordOf("KIND", Choice::Kind), Need::Else("shortest")
    => "Set the kind of both plans");

const KEEPING: Taken =
    taken!("numbering", Some('n'), Accepts::WordOf("NUMBERING", Choice::Keeping), Need::Else("depth-first")
    => "Number the nodes of both plans depth-first, or along a tour; or keep the labels of the old plan, a tour's, in the new one");

const OLD: Taken = taken!("topology", None, Accepts::File("OLD"), Need::Must
    => "Old topology file, or - for standard input (alone: with both topologies, separated by a line %%)");

const NEW: Taken = taken!("new", None, Accepts::File("NEW"), Need::Free
    => "New topology file, with the same nodes, or - for standard input");

// What is shown of a plan.
const ORDER: Taken = taken!("order", None, Accepts::Nothing, Need::Free
    => "Print only the nodes, in the order of their labels, as --numbering reads them from a file");

const NODES: Taken = taken!("nodes", None, Accepts::Word("A-B"), Need::Free
    => "Print only the lines of the nodes A to B, counted from 0 as the topology lists them");

const FROM: Taken =
    taken!("from", None, Accepts::Word("A"), Need::Must => "Start the path at node A");

const TO: Taken = taken!("to", None, Accepts::Word("B"), Need::Must => "End the path at node B");

const WITH: Taken = taken!("with", None, Accepts::Word("KIND[,ROOT]"), Need::Free
    => "Also report whether links can wait for one another in a ring if packets of this plan and of a second one travel (default ROOT: that of --root)");

const EACH: Taken = taken!("each", None, Accepts::WordOf("WHAT", Choice::Each), Need::Free
    => "Print the figures on one line, and one line with those of the plan without each link or node");

const DRAWN_FROM: Taken = taken!("from", None, Accepts::Word("A"), Need::Free
    => "Draw the path from node A in bold (with --to)");

const DRAWN_TO: Taken =
    taken!("to", None, Accepts::Word("B"), Need::Free => "Draw the path to node B in bold (with --from)");

const NODE: Taken = taken!("node", None, Accepts::Word("A"), Need::Free
    => "Draw the intervals of node A on the circle of all labels, coloured by port, instead of the topology");

const SVG: Taken = taken!("svg", None, Accepts::Nothing, Need::Free
    => "Draw the circle of --node as SVG instead of Graphviz text");

const DISJOINT: Taken = taken!("disjoint", None, Accepts::Nothing, Need::Free
    => "Print disjoint prefixes: no two of a node hold the same label");

const PART: Taken =
    taken!("part", None, Accepts::PlaceOf("WORD", Choice::Part), Need::Must => "What is printed");

const EPOCH: Taken = taken!("epoch", None, Accepts::Place("E", 1, MAX_EPOCH), Need::Must
    => "The epoch of the table");

const LINES_OF: Taken =
    taken!("node", None, Accepts::Word("A"), Need::Must => "The node whose table it is");

const BINARY: Taken = taken!("binary", None, Accepts::Nothing, Need::Free
    => "Print the table as bytes instead of text, the lowest byte of each word first");

// A run, and its check.
const RUN_ORDER: Taken =
    taken!("numbering", Some('n'), Accepts::WordOf("NUMBERING", Choice::Numbering), Need::Else("depth-first")
    => "Number the nodes of each plan depth-first from its root, or along a tour (often fewer intervals); or keep those of the first plan");

const CAPACITY: Taken =
    taken!("capacity", None, Accepts::Number("C", 1, MAX_CAPACITY as u16), Need::Else(DEFAULT_CAPACITY)
    => "Set how many packets each channel and inbox holds");

const PACKETS: Taken =
    taken!("packets", None, Accepts::Number("M", 1, MAX_PACKETS as u16), Need::Else(DEFAULT_PACKETS)
    => "Set how many packets a run may have");

const RESTAMPS: Taken =
    taken!("restamps", None, Accepts::Number("R", 0, MAX_RESTAMPS as u16), Need::Else(DEFAULT_RESTAMPS)
    => "Allow each packet R restamps; above 0 the trace lists segments");

const STEPS: Taken = taken!("steps", None, Accepts::Nothing, Need::Free
    => "Print the reply to each line of the script instead of the trace");

const TWO_TEXTS: Taken = taken!("topology", None, Accepts::File("TOPOLOGY"), Need::Must
    => "Topology file, or - for standard input with topology and script, separated by a line %%");

const ALL_TEXTS: Taken = taken!("topology", None, Accepts::File("TOPOLOGY"), Need::Must
    => "Topology file, or - for standard input with topology, script and trace, separated by lines %%");

const SCRIPT: Taken = taken!("script", None, Accepts::File("SCRIPT"), Need::Free => "Script file");

const TRACE: Taken = taken!("trace", None, Accepts::File("TRACE"), Need::Free => "Trace file");

const WHOLE: Taken = taken!("whole", None, Accepts::Nothing, Need::Free
    => "Also check the injects, epochs and causes of drops against the script");

static PLAN: [Taken; 11] = [
    FORMAT, KIND, LANDMARKS, STRETCH, ROOT, NUMBERING, THREADS, TOPOLOGY, ORDER, NODES, JSON,
];

static WALK: [Taken; 11] = [
    FORMAT, KIND, LANDMARKS, STRETCH, ROOT, NUMBERING, THREADS, TOPOLOGY, FROM, TO, JSON,
];

static STATS: [Taken; 11] = [
    FORMAT, KIND, LANDMARKS, STRETCH, ROOT, NUMBERING, THREADS, TOPOLOGY, WITH, EACH, JSON,
];

static COMPARE: [Taken; 5] = [FORMAT, ROOTS, THREADS, TOPOLOGY, JSON];

static DIFF: [Taken; 10] = [
    FORMAT, BOTH_KINDS, LANDMARKS, STRETCH, ROOTS, KEEPING, THREADS, OLD, NEW, JSON,
];

static DRAW: [Taken; 12] = [
    FORMAT, KIND, LANDMARKS, STRETCH, ROOT, NUMBERING, THREADS, TOPOLOGY, DRAWN_FROM, DRAWN_TO,
    NODE, SVG,
];

static PREFIXES: [Taken; 10] = [
    FORMAT, KIND, LANDMARKS, STRETCH, ROOT, NUMBERING, THREADS, TOPOLOGY, DISJOINT, JSON,
];

static RANGES: [Taken; 9] = [
    FORMAT, KIND, LANDMARKS, STRETCH, ROOT, NUMBERING, THREADS, TOPOLOGY, JSON,
];

static XDP: [Taken; 12] = [
    FORMAT, KIND, LANDMARKS, STRETCH, ROOT, PART, EPOCH, NUMBERING, THREADS, TOPOLOGY, LINES_OF,
    BINARY,
];

static SIM: [Taken; 13] = [
    FORMAT, KIND, LANDMARKS, STRETCH, ROOT, RUN_ORDER, CAPACITY, PACKETS, RESTAMPS, TWO_TEXTS,
    SCRIPT, STEPS, JSON,
];

static LIVE: [Taken; 12] = [
    FORMAT, KIND, LANDMARKS, STRETCH, ROOT, RUN_ORDER, CAPACITY, PACKETS, RESTAMPS, TWO_TEXTS,
    SCRIPT, JSON,
];

static CHECK: [Taken; 13] = [
    FORMAT, KIND, LANDMARKS, STRETCH, ROOT, RUN_ORDER, CAPACITY, PACKETS, ALL_TEXTS, SCRIPT, TRACE,
    WHOLE, JSON,
];

static TELLING: [Taken; 4] = [OUTPUT, QUIET, EXPLAIN, SILENT];

/// What every subcommand takes after its own table.
pub fn telling() -> &'static [Taken]
    ensures { (choices : Choices) → rules_taken choices result.now ≡ telling }
{
    TELLING.as_slice()
}

/// The table of what a subcommand takes, before that by which each reports.
pub fn taken_by(sub: Sub) -> &'static [Taken]
    ensures { (choices : Choices) → rules_taken choices result.now ++ telling ≡ rules_of choices sub }
{
    match sub {
        Sub::Plan => PLAN.as_slice(),
        Sub::Walk => WALK.as_slice(),
        Sub::Stats => STATS.as_slice(),
        Sub::Compare => COMPARE.as_slice(),
        Sub::Diff => DIFF.as_slice(),
        Sub::Draw => DRAW.as_slice(),
        Sub::Prefixes => PREFIXES.as_slice(),
        Sub::Ranges => RANGES.as_slice(),
        Sub::Xdp => XDP.as_slice(),
        Sub::Sim => SIM.as_slice(),
        Sub::Live => LIVE.as_slice(),
        Sub::Check => CHECK.as_slice(),
    }
}
