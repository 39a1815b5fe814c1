//! The texts in the help of the program and of its subcommands.
ghost use Rattle.std.specs.Prelude.{◌≡◌};
ghost use Rattle.ir_cli.specs.CommandLine.{name_of, sub_word};

use crate::words::Sub;

/// The name that the program is called by, and calls itself.
#[derive(Clone, Copy, Debug, PartialEq, Eq)]
pub enum Called {
    Route,
    Bentzolu,
}

impl Called {
    /// `route` or `bentzolu`.
    pub fn name(self) -> &'static str
        ensures { result.now ≡ name_of self }
    {
        texts_of(self).name
    }
}

/// What follows the help of `check`.
pub const CHECK_LINES: &str = "\
A row is wrong if its names, its epochs, its hops or its weight are not those of the plans of its epochs. This does not
ask whether its packet was injected, whether its epoch had begun or was retired, whether its link was down or its
channel was full, nor whether rows are missing. With --whole, check also reports, after the findings on all rows:
  NeverInjected       No inject in the script can be this packet's, given the rows before it
  NotYetInstalled     The installs before its inject cannot have made its first epoch
  NeverDown           It was dropped at a link that no line of the script takes down
  NeverRetired        It was dropped as retired, but no line of the script retires its epoch
  NeverFull           It was dropped at a full channel that can never have held --capacity packets
For --whole, give the --capacity and --packets of the run. Its findings hold for every run by sim or live, whichever
lines that run refused. Rows that are missing at the end are not found.";

/// What follows the help of `sim` and of the program.
pub const SCRIPT_LINES: &str = "\
Lines of a script ('learn', 'take', 'read' and 'act' are for 'sim' only):
  inject A B          Send a packet from node A to node B
  drain               Move the packets, round by round, until none can move
  down A B            Take the link between A and B down
  up A B              Bring the link between A and B up
  avoid A B           Leave that link out of later installs; it still carries packets
  heed A B            Let later installs use it again
  install tree R      Install a tree plan with root R, over the links that are up, as the new epoch
  install shortest R  The same, with shortest paths
  install compact R   The same, with the shortest paths that need the fewest intervals
  install landmark R  The same, with paths by way of --landmarks, of at most --stretch percent of the distance
  renumber KIND R     Install such a plan with new labels, where --numbering keep would keep the old ones
  retire F            Retire the epochs below F
  learn E             Let the injector learn epoch E; it stamps packets with the greatest epoch that it learnt
  take N inbox        Let node N take the first packet of its inbox into its hand
  take N from M       Let node N take the first packet of the link from M into its hand
  read N K            Let node N read version K of the board
  act N               Let node N deliver, forward or drop the packet in its hand
  # TEXT              A comment, also after the words of a line";

/// What follows the help of `live`.
pub const LIVE_LINES: &str = "\
Lines of a script:
  inject A B          Send a packet from node A to node B
  drain               Wait until every packet is delivered or dropped, or a node has stopped
  down A B            Take the link between A and B down
  up A B              Bring the link between A and B up
  avoid A B           Leave that link out of later installs; it still carries packets
  heed A B            Let later installs use it again
  install tree R      Install a tree plan with root R, over the links that are up, as the new epoch
  install shortest R  The same, with shortest paths
  install compact R   The same, with the shortest paths that need the fewest intervals
  install landmark R  The same, with paths by way of --landmarks, of at most --stretch percent of the distance
  renumber KIND R     Install such a plan with new labels, where --numbering keep would keep the old ones
  retire F            Retire the epochs below F
  # TEXT              A comment, also after the words of a line";

/// The texts in which the program calls itself by a name.
pub struct HelpTexts {
    pub name: &'static str,
    pub about: &'static str,
    /// What follows the help of `prefixes`, `ranges`, `xdp`, `compare` and `diff`.
    pub prefixes: &'static str,
    pub ranges: &'static str,
    pub xdp: &'static str,
    pub compare: &'static str,
    pub diff: &'static str,
    /// How the words of `diff`, `sim`, `live` and `check` are to look.
    pub diff_usage: &'static str,
    pub sim_usage: &'static str,
    pub live_usage: &'static str,
    pub check_usage: &'static str,
    /// Which files they take.
    pub diff_files: &'static str,
    pub sim_files: &'static str,
    pub live_files: &'static str,
    pub check_files: &'static str,
}

macro_rules! texts_by {
    ($name:literal) => {
        HelpTexts {
            name: $name,
            about: concat!("Interval routing with live relabelling; without arguments the same as '", $name, " sim -'"),
            prefixes: concat!("\
Printed lines:
  prefixes KIND N BITS LINES                       The numbers of nodes, of bits of a label, and of lines of all nodes
  NODE LABEL [VALUE/LENGTH NEXT]...                The lines of a node; NEXT is a neighbour, or # for unreachable

Example, for a topology with the lines 'a b' and 'b c':
  $ ", $name, " prefixes --kind tree --root b TOPOLOGY
  prefixes tree 3 2 5
  a 1 0/0 b
  b 0 2/1 c 0/0 a
  c 2 2/1 # 0/0 b

A packet follows the line with the longest prefix that holds its label. A number above all labels is forwarded as the
last label is; at the node of that label it is unreachable."),
            ranges: concat!("\
Printed lines:
  ranges KIND N COUNT                              The numbers of nodes, and of ranges of all nodes
  NODE LABEL [FROM-TO NEXT]...                     The ranges of a node, ascending; NEXT is a neighbour

Example, for a topology with the lines 'a b' and 'b c':
  $ ", $name, " ranges --kind tree --root b TOPOLOGY
  ranges tree 3 5
  a 1 0-0 b 2-2 b
  b 0 1-1 a 2-2 c
  c 2 0-1 b

A packet follows the range that holds its label; a node's own label is in no range."),
            xdp: concat!("\
Printed lines: a line of 32 words for each 128 bytes of the table, in base 16. The first line is a head of 16
words, the epoch, how many labels there are, the node's own one, the depth and the first line of the lowest level, and a
root of 16. A word has a start and a port, counted from 0 in the order in which the topology lists the neighbours.
With --binary a line is 128 bytes, four for each word, of which the lowest is the first.

Example, for a topology with the lines 'a b' and 'b c':
  $ ", $name, " xdp table 1 --node c TOPOLOGY
  00000001 00000003 00000002 00000000 00000000 00000000 ...

bentzolu-xdp installs such a table in the kernel, and asks it for each label first."),
            compare: concat!("\
Printed lines:
  compare N M                                      The numbers of nodes and links
  kind numbering intervals greatest-row ..         The names of the columns
  KIND NUMBERING INTERVALS ROW BITS MEAN WORST DEP The figures of a plan, as '", $name, " stats' prints them
  tables - - - BITS - - -                          The bits of full tables

MEAN is the weight of all paths, divided by all distances. WORST is this ratio for the pair of nodes where it is
greatest. DEP is cycle if links can wait for one another in a ring, else acyclic. The plans are shortest and compact
(depth-first and tour), tree, and landmark with paths of at most 150, 200 and 300 percent of the distance.

Example, for a ring of four nodes:
  $ ", $name, " compare TOPOLOGY
  compare 4 4
  kind numbering intervals greatest-row bits mean-stretch worst-stretch dependencies
  shortest depth-first 8 2 24 16/16 1/1 acyclic
  shortest tour 8 2 24 16/16 1/1 acyclic
  compact depth-first 8 2 24 16/16 1/1 cycle
  compact tour 8 2 24 16/16 1/1 cycle
  tree depth-first 6 2 18 20/16 3/1 acyclic
  landmark-150 blocks 8 2 24 16/16 1/1 cycle
  landmark-200 blocks 8 2 24 16/16 1/1 cycle
  landmark-300 blocks 7 2 21 18/16 3/1 acyclic
  tables - - - 12 - - -"),
            diff: concat!("\
Printed lines:
  diff KIND KIND N CHANGED LABELS REMOVED PUT      The numbers of nodes, of nodes that change, of new labels, and of
                                                   starts that are removed and put
  NODE WAS LABEL [- START] [+ START NEXT]...       What a node changes: its label before and now, and by ascending
                                                   starts those that go, and those that come or get another neighbour

Example, for the lines 'a b', 'b c', 'c d' and 'd a' of OLD, of which NEW has the first three:
  $ ", $name, " diff --numbering keep OLD NEW
  diff shortest shortest 4 3 0 3 2
  a 0 0 - 3
  b 1 1 + 0 a - 3
  d 3 3 + 0 c - 1

With keep the new plan has the labels of the old one, so that few nodes change. A node builds its new row beside the
old one, never in place."),
            diff_usage: concat!($name, " diff [OPTIONS] <OLD> <NEW>\n       ", $name, " diff [OPTIONS] -"),
            sim_usage: concat!($name, " sim [OPTIONS] <TOPOLOGY> <SCRIPT>\n       ", $name, " sim [OPTIONS] -"),
            live_usage: concat!($name, " live [OPTIONS] <TOPOLOGY> <SCRIPT>\n       ", $name, " live [OPTIONS] -"),
            check_usage: concat!($name, " check [OPTIONS] <TOPOLOGY> <SCRIPT> <TRACE>\n       ", $name, " check [OPTIONS] -"),
            diff_files: concat!("'", $name, " diff' takes two topology files, of which one may be '-', or '-' alone"),
            sim_files: concat!("'", $name, " sim' takes a topology file and a script file, or '-' alone"),
            live_files: concat!("'", $name, " live' takes a topology file and a script file, or '-' alone"),
            check_files: concat!("'", $name, " check' takes a topology file, a script file and a trace file, or '-' alone"),
        }
    };
}

static ROUTE: HelpTexts = texts_by!("route");

static BENTZOLU: HelpTexts = texts_by!("bentzolu");

/// The texts of the program by the name that it is called by.
pub fn texts_of(called: Called) -> &'static HelpTexts
    ensures { result.now.name.now ≡ name_of called }
{
    match called {
        Called::Route => &ROUTE,
        Called::Bentzolu => &BENTZOLU,
    }
}

/// How the words of a subcommand of several texts are to look; nothing for another.
pub fn usage_of(called: Called, sub: Sub) -> &'static str {
    let texts = texts_of(called);
    match sub {
        Sub::Diff => texts.diff_usage,
        Sub::Sim => texts.sim_usage,
        Sub::Live => texts.live_usage,
        Sub::Check => texts.check_usage,
        _ => "",
    }
}

/// What follows the help of a subcommand.
pub fn lines_of(called: Called, sub: Sub) -> &'static str {
    let texts = texts_of(called);
    match sub {
        Sub::Plan | Sub::Walk | Sub::Stats | Sub::Draw => "",
        Sub::Compare => texts.compare,
        Sub::Diff => texts.diff,
        Sub::Prefixes => texts.prefixes,
        Sub::Ranges => texts.ranges,
        Sub::Xdp => texts.xdp,
        Sub::Sim => SCRIPT_LINES,
        Sub::Live => LIVE_LINES,
        Sub::Check => CHECK_LINES,
    }
}

/// The names of the subcommands, in their order.
static NAMES: [&str; 12] = [
    "plan", "walk", "stats", "compare", "diff", "draw", "prefixes", "ranges", "xdp", "sim", "live",
    "check",
];

/// What they do, as help states it.
static ABOUTS: [&str; 12] = [
    "Print the label and the intervals of each node",
    "Print the path from one node to another, with the interval that each node uses",
    "Print the figures of a plan: its intervals, its greatest row, its paths",
    "Print the figures of plans of all kinds and numberings, and of full tables",
    "Print what each node changes between the plans of two networks of the same nodes",
    "Print a drawing of a plan, for Graphviz or as SVG",
    "Print forwarding tables of the fewest label prefixes, for longest prefix match",
    "Print forwarding tables of the fewest label ranges, for tables that match ranges",
    "Print the table of a node in lines of 128 bytes, to forward by XDP in Linux",
    "Run a script step by step, and print what became of its packets",
    "Run a script with a thread for each node, and print what became of its packets",
    "Check the rows of a trace against the paths of the script's plans",
];

/// The name of a subcommand.
pub fn name_of(sub: Sub) -> &'static str
    ensures { result.now ≡ sub_word sub }
{
    NAMES[sub as usize]
}

/// What a subcommand does, as help states it.
pub fn about_of(sub: Sub) -> &'static str {
    ABOUTS[sub as usize]
}
