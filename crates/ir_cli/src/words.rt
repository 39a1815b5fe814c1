//! The words of the command line.

ghost use Rattle.std.specs.Prelude.{◌≡◌, ◌≢◌, ◌⊎◌, ◌∷◌, Some, IfOk, IfErr, MatchOption, codes, map, option_map, string_bytes, ⊤};
ghost use Rattle.clap.specs.Words.{Text, first_of, found_of, kind_of, rows_of, subcommand_rows_of};
ghost use Rattle.clap.specs.Walk.{texts};
ghost use Rattle.clap.specs.declared.error.kind.ErrorKind.TheVariants.{DisplayHelp, DisplayVersion, OutOfMemory};
ghost use Rattle.ir_cli.specs.Words.{AreTaken, FitsItsKind, file_at, format_of_name, order_name, is_one_input, has_order, words_code};
ghost use Rattle.ir_cli.specs.Meaning.{Asks, AsksAs, HasWhatIsAsked, Means, MeansMet};
ghost use Rattle.ir_cli.specs.Refusals.{AsksForHelp, AsksForHelpAs, FailsOn, IsMistake, NoneAsked, RefusesAs, RefusesWords};
ghost use Rattle.ir_cli.specs.CommandLine.{name_of};
ghost use Rattle.ir_cli.specs.Typed.{AreTyped};
ghost use Rattle.ir_cli.specs.declared.words.Words.{Words};
ghost use Rattle.ir_cli.specs.declared.words.WordsError.TheVariants.{NoMemory};

use crate::choices::DetourChoice;
use crate::command::route_command;
use crate::faults::{asked_fault, fault_of, fault_text};
use crate::help::Called;
use crate::kinds::KindChoice;
use crate::typed::{
    Chosen, choose, files_of, is_by_node, is_given, is_set, numbering_of, second_of, word_of,
};
use clap::ArgMatches;
use clap::error::ErrorKind;
use std::alloc::{AllocError, AllocFailed, Global};
use thiserror::Error;

/// A subcommand of `route`.
#[derive(Clone, Copy, Debug, PartialEq, Eq)]
pub enum Sub {
    Plan,
    Walk,
    Stats,
    Compare,
    Diff,
    Draw,
    Prefixes,
    Ranges,
    Xdp,
    Sim,
    Live,
    Check,
}

/// The format of a topology text.
#[derive(Clone, Copy, Debug, PartialEq, Eq)]
pub enum Format {
    AdjList,
    EdgeList,
}

/// How the nodes of a plan are numbered.
#[derive(Debug, Drop)]
pub enum NumberingChoice {
    /// Depth first, from the root.
    DepthFirst,
    /// In the order of a tour from the root, or depth first, by which has fewer starts.
    Tour,
    /// In the order of the plan before, of which the first goes along a tour.
    Keep,
    /// In the order of the plan before, of which the first is depth first.
    KeepDepthFirst,
    /// In the order of a file of this name; the root is the first node of it.
    File(String),
}

/// A second plan over a topology, beside the first.
#[derive(Debug, Drop)]
pub struct Second {
    pub kind: KindChoice,
    /// The name of its root; the first node where there is none.
    pub root: Option<String>,
}

/// The nodes from one place to another, both of them in it, by their numbers.
#[derive(Clone, Copy, Debug, PartialEq, Eq)]
pub struct Span {
    pub first: usize,
    /// At least the first.
    pub last: usize,
}

/// What the words ask for. The files are the one word `-`, standard input with all texts, or else
/// one for each text: the topology, for `diff` the new topology, for `sim`, `live` and `check` the
/// script, and for `check` the trace. Another number of files is refused. So is `-` beside another
/// file, but for `diff`, where one of two files may be `-`.
#[derive(Drop)]
pub struct Words {
    pub sub: Sub,
    pub format: Format,
    /// That of the new topology.
    pub new_format: Format,
    pub kind: KindChoice,
    /// How far the ways of landmark plans go round: said only where such a plan may be made.
    pub detour: DetourChoice,
    /// The name of the root; the first node where there is none.
    pub root: Option<String>,
    /// Depth first for kinds Tree and Landmark. A file's only where a plan is shown, and no root is named. One that is
    /// kept for `diff` alone.
    pub numbering: NumberingChoice,
    /// The capacity of each channel and inbox, from 1 to 1,024.
    pub capacity: usize,
    /// The most packets, from 1 to 4,096.
    pub packets: usize,
    /// The most restamps of a packet, from 0 to 3.
    pub restamps: u8,
    /// The most threads that make rows, from 1 to 256; without it as many as suit the processors.
    pub threads: Option<usize>,
    /// The names of a walk's ends: both for `walk`, both or none for `draw`, none beside `node`.
    pub from: Option<String>,
    pub to: Option<String>,
    /// The name of the node whose intervals are drawn in place of the topology, for `draw`, or whose lines are printed,
    /// for `xdp`.
    pub node: Option<String>,
    /// The epoch of those lines, from 1 to 65,535.
    pub epoch: u16,
    /// Whether those lines are printed as bytes in place of text.
    pub binary: bool,
    /// Whether they are drawn as SVG, beside `node` alone.
    pub svg: bool,
    /// The plan beside the first, for `stats`; its root is by default that of the first.
    pub second: Option<Second>,
    /// Whether the figures without each link or node are printed in place of those of the plan alone, for `stats`.
    pub each: bool,
    /// Whether nodes fail in place of links, with `each`.
    pub by_node: bool,
    /// Whether no number is to match two lines of a node, for `prefixes`.
    pub disjoint: bool,
    /// Whether the order of the labels is to be in place of the rows, for `plan`.
    pub order_alone: bool,
    /// The nodes whose lines alone are printed, never beside `order_alone`, for `plan`; all where there are none.
    pub nodes: Option<Span>,
    /// Whether the replies to the lines of the script are printed in place of the trace, for `sim`.
    pub steps: bool,
    /// Whether rows are also judged beside the script and each other, for `check`.
    pub whole: bool,
    /// Whether sentences for people are to follow the lines of faults.
    pub explain: bool,
    /// Whether the output is JSON; never for `draw` and `xdp`.
    pub json: bool,
    /// The name of the file that the output goes to; standard output where there is none.
    pub output: Option<String>,
    /// Whether nothing is to be on standard error.
    pub quiet: bool,
    pub files: Vec<String>,
}

impl Words {
    /// Whether the files are the one word `-`.
    pub fn is_one_input(&self) -> bool
        ensures { result ≡ is_one_input self.now }
    {
        self.files.len() == 1 && self.files[0].as_str() == "-"
    }

    /// The name of the file at a place; `-` where there is none.
    pub fn file(&self, place: usize) -> &str
        ensures { result.now ≡ file_at self.now place }
    {
        match self.files.get(place) {
            Some(name) => name.as_str(),
            None => "-",
        }
    }

    /// The name of the file of an order of nodes; `-` where there is none.
    pub fn order_file(&self) -> &str
        ensures { result.now ≡ order_name self.now.numbering }
    {
        match &self.numbering {
            NumberingChoice::File(name) => name.as_str(),
            NumberingChoice::DepthFirst
            | NumberingChoice::Tour
            | NumberingChoice::Keep
            | NumberingChoice::KeepDepthFirst => "-",
        }
    }

    /// Whether the numbering is that of a file.
    pub fn has_order(&self) -> bool
        ensures { result ≡ has_order self.now }
    {
        matches!(self.numbering, NumberingChoice::File(_))
    }
}

/// Why there are no words to follow: a text for standard error, a text for standard output, or want of memory.
#[derive(Debug, Drop, Error)]
pub enum WordsError {
    #[error("{0}")]
    Usage(String),
    #[error("{0}")]
    Help(String),
    #[error("out of memory")]
    NoMemory,
}

impl WordsError {
    /// Its number: 1 for `Usage`, 2 for `Help`, 3 for `NoMemory`.
    pub fn code(&self) -> u8
        ensures { result ≡ words_code self.now }
    {
        match self {
            WordsError::Usage(_) => 1,
            WordsError::Help(_) => 2,
            WordsError::NoMemory => 3,
        }
    }
}

impl<T: Drop> From<AllocFailed<T>> for WordsError {
    ghost from_gives = { λ _ e. e ≡ NoMemory };

    fn from(_error: AllocFailed<T>) -> WordsError {
        WordsError::NoMemory
    }
}

impl From<AllocError> for WordsError {
    ghost from_gives = { λ _ e. e ≡ NoMemory };

    fn from(_error: AllocError) -> WordsError {
        WordsError::NoMemory
    }
}

/// An error of the parser as the text to print.
fn refused(alloc: Global, error: &clap::Error) -> WordsError
    ensures { FailsOn (IsMistake (kind_of error.now) × (kind_of error.now ≢ OutOfMemory))
        ((kind_of error.now ≡ DisplayHelp) ⊎ (kind_of error.now ≡ DisplayVersion)) result }
{
    let Ok(text) = error.to_string(alloc) else {
        return WordsError::NoMemory;
    };
    match error.kind() {
        ErrorKind::OutOfMemory => WordsError::NoMemory,
        ErrorKind::DisplayHelp | ErrorKind::DisplayVersion => WordsError::Help(text),
        _ => WordsError::Usage(text),
    }
}

/// The format of a file by its name: edge lists end in `.edgelist` or `.wel`.
pub(crate) fn format_of_file(name: &str) -> Format
    ensures { result ≡ format_of_name name.now }
{
    let bytes = name.as_bytes();
    if bytes.ends_with(b".edgelist") || bytes.ends_with(b".wel") {
        Format::EdgeList
    } else {
        Format::AdjList
    }
}

/// The text for words that the parser takes and that are not read, of which there are none.
static UNREAD: &str = "error: these arguments are not understood\n";

/// The refusal by a text for standard error, or want of memory where the text was not made.
fn usage(text: Result<String, AllocError>) -> WordsError
    ensures { FailsOn ⊤ ⊥ result }
{
    match text {
        Ok(text) => WordsError::Usage(text),
        Err(_) => WordsError::NoMemory,
    }
}

/// The names of a walk's ends, and of the node that is drawn, where they are given.
fn ends_of(
    alloc: Global,
    found: &ArgMatches<'_>,
) -> Result<(Option<String>, Option<String>, Option<String>), AllocError>
    ensures from { IfOk result (λ ends.
        option_map string_bytes ends.0 ≡ first_of (codes "from") (rows_of (found_of found.now))) }
    ensures to { IfOk result (λ ends.
        option_map string_bytes ends.1 ≡ first_of (codes "to") (rows_of (found_of found.now))) }
    ensures node { IfOk result (λ ends.
        option_map string_bytes ends.2 ≡ first_of (codes "node") (rows_of (found_of found.now))) }
{
    let from = word_of(alloc, found, "from")?;
    let to = word_of(alloc, found, "to")?;
    Ok((from, to, word_of(alloc, found, "node")?))
}

/// The words of a subcommand with what is chosen or counted by them.
fn words_of(alloc: Global, all: Chosen, found: &ArgMatches<'_>) -> Result<Words, AllocError>
    ensures { IfOk result (λ words. (name : Text) → AreTyped name (rows_of (found_of found.now)) all
        → Means name (rows_of (found_of found.now)) words) }
{
    let root = word_of(alloc, found, "root")?;
    let output = word_of(alloc, found, "output")?;
    let numbering = numbering_of(alloc, found, all.sub)?;
    let second = second_of(alloc, found)?;
    let files = files_of(alloc, found)?;
    let (from, to, node) = ends_of(alloc, found)?;
    Ok(Words {
        sub: all.sub,
        format: all.format,
        new_format: all.new_format,
        kind: all.kind,
        detour: all.detour,
        root,
        numbering,
        capacity: all.capacity,
        packets: all.packets,
        restamps: all.restamps,
        threads: all.threads,
        from,
        to,
        node,
        epoch: all.epoch,
        binary: is_set(found, "binary"),
        svg: is_set(found, "svg"),
        second,
        each: is_given(found, "each"),
        by_node: is_by_node(found),
        disjoint: is_set(found, "disjoint"),
        order_alone: is_set(found, "order"),
        nodes: all.nodes,
        steps: is_set(found, "steps"),
        whole: is_set(found, "whole"),
        explain: is_set(found, "explain") && !is_set(found, "no-explain"),
        json: is_set(found, "json"),
        output,
        quiet: is_set(found, "quiet"),
        files,
    })
}

/// The words of a subcommand of this name. All words that the parser takes are taken here.
fn words_named(alloc: Global, name: &str, found: &ArgMatches<'_>) -> Result<Words, WordsError>
    ensures means { IfOk result (λ words. Means name.now (rows_of (found_of found.now)) words) }
    ensures refused { IfErr result (FailsOn
        ((words : Words) → Means name.now (rows_of (found_of found.now)) words → ⊥) ⊥) }
{
    let Some(all) = choose(name, found) else {
        return Err(usage(String::from_str(alloc, UNREAD)));
    };
    match words_of(alloc, all, found) {
        Ok(words) => Ok(words),
        Err(_) => Err(WordsError::NoMemory),
    }
}

/// What is wrong with the words that were read of a subcommand's options, flags and files, if anything is.
fn fault_met(called: Called, found: &ArgMatches<'_>, words: &Words) -> Option<&'static str>
    ensures { MatchOption result
        (HasWhatIsAsked (rows_of (found_of found.now)) words.now × AreTaken words.now × FitsItsKind words.now)
        (λ _. HasWhatIsAsked (rows_of (found_of found.now)) words.now → AreTaken words.now
        → FitsItsKind words.now → ⊥) }
{
    match asked_fault(found, words) {
        Some(fault) => Some(fault),
        None => fault_of(called, words),
    }
}

/// The words of the subcommand that was met, if nothing is wrong with them.
fn words_met(alloc: Global, called: Called, found: &ArgMatches<'_>) -> Result<Words, WordsError>
    ensures kind { IfOk result (λ words. FitsItsKind words) }
    ensures taken { IfOk result (λ words. AreTaken words) }
    ensures means { IfOk result (λ words. MeansMet (subcommand_rows_of found.now) words) }
    ensures refused { IfErr result (FailsOn (NoneAsked (subcommand_rows_of found.now)) ⊥) }
{
    let Some((name, inner)) = found.subcommand() else {
        return Err(usage(String::from_str(alloc, UNREAD)));
    };
    let words = words_named(alloc, name, inner)?;
    match fault_met(called, inner, &words) {
        None => Ok(words),
        Some(fault) => Err(usage(fault_text(alloc, called, &words, name, fault))),
    }
}

/// The program's name and the words after it.
fn all_words<'a>(
    alloc: Global,
    called: Called,
    words: &'a [String],
) -> Result<Vec<&'a str>, AllocError>
    ensures { IfOk result (λ all. texts all.items ≡ name_of called ∷ map string_bytes words.now) }
{
    let mut all: Vec<&str> = Vec::with_capacity(alloc, words.len() + 1)?;
    all.push(called.name())?;
    for word in words {
        all.push(word.as_str())?;
    }
    Ok(all)
}

/// What the words after the program's name ask for. Words that are refused give the text for
/// standard error, `--help` and `--version` that for standard output. Besides what the parser
/// refuses, these are refused:
/// - a number of files that the subcommand does not take, and `-` beside another file, but for
///   `diff`, where `-` twice is;
/// - a numbering other than depth first of a tree or by landmarks;
/// - a file's numbering beside a root, on standard input, or of a run;
/// - a detour where no landmark plan is made;
/// - a second plan of no kind;
/// - nodes that are no two numbers, the second at least the first, or beside an order of labels;
/// - a drawn walk with one end, a node beside a walk, and SVG without a node.
pub fn read_words_as(alloc: Global, called: Called, words: &[String]) -> Result<Words, WordsError>
    ensures kind { IfOk result (λ words. FitsItsKind words) }
    ensures taken { IfOk result (λ words. AreTaken words) }
    ensures means { IfOk result (λ found. AsksAs called (map string_bytes words.now) found) }
    ensures refused { IfErr result
        (FailsOn (RefusesAs called (map string_bytes words.now)) (AsksForHelpAs called (map string_bytes words.now))) }
{
    let all = all_words(alloc, called, words)?;
    match route_command(alloc, called)?.try_get_matches_from(all.as_slice()) {
        Ok(found) => words_met(alloc, called, &found),
        Err(error) => Err(refused(alloc, &error)),
    }
}

/// The same where the program is called `route`.
pub fn read_words(alloc: Global, words: &[String]) -> Result<Words, WordsError>
    ensures kind { IfOk result (λ words. FitsItsKind words) }
    ensures taken { IfOk result (λ words. AreTaken words) }
    ensures means { IfOk result (λ found. Asks (map string_bytes words.now) found) }
    ensures refused { IfErr result
        (FailsOn (RefusesWords (map string_bytes words.now)) (AsksForHelp (map string_bytes words.now))) }
{
    read_words_as(alloc, Called::Route, words)
}
