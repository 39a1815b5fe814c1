//! The rules of words that are taken, and the message where one is broken.

ghost use Rattle.std.specs.Prelude.{◌≡◌, true, false, MatchOption, map, string_bytes};
ghost use Rattle.std.specs.List.{list_all, list_any};
ghost use Rattle.clap.specs.Words.{found_of, rows_of};
ghost use Rattle.ir_cli.specs.Words.{AreTaken, FitsItsKind, are_named, has_its_files, has_its_numbering, is_no_dash, may_go_round, takes_dash, takes_detour, takes_drawing, takes_list, takes_nodes, texts_wanted};
ghost use Rattle.ir_cli.specs.Meaning.{HasItsNodes, HasItsSecond, HasWhatIsAsked};

use crate::help::{Called, texts_of, usage_of};
use crate::kinds::KindChoice;
use crate::typed::typed;
use crate::words::{NumberingChoice, Sub, Words};
use clap::ArgMatches;
use std::alloc::{AllocError, Global};

/// How many texts a subcommand reads.
fn texts_wanted(sub: Sub) -> usize
    ensures { result ≡ texts_wanted sub }
{
    match sub {
        Sub::Diff | Sub::Sim | Sub::Live => 2,
        Sub::Check => 3,
        _ => 1,
    }
}

/// Whether one of several files may be standard input.
fn takes_dash(sub: Sub) -> bool
    ensures { result ≡ takes_dash sub }
{
    matches!(sub, Sub::Diff)
}

/// Whether one of the files is not standard input.
fn is_one_named(files: &[String]) -> bool
    ensures { result ≡ list_any (λ file. is_no_dash (string_bytes file)) files.now }
{
    files.iter().any(|file| file.as_str() != "-")
}

/// Whether none of the files is standard input.
fn are_all_named(files: &[String]) -> bool
    ensures { result ≡ list_all (λ file. is_no_dash (string_bytes file)) files.now }
{
    files.iter().all(|file| file.as_str() != "-")
}

/// Whether none of the files is standard input, or where one may be, not all of them are.
fn are_named(sub: Sub, files: &[String]) -> bool
    ensures { result ≡ are_named sub (map string_bytes files.now) }
{
    if takes_dash(sub) {
        is_one_named(files)
    } else {
        are_all_named(files)
    }
}

/// Whether the files are `-` alone, or one for each text with no `-` among them, or one for `diff`.
fn has_its_files(words: &Words) -> bool
    ensures { result ≡ has_its_files words.now }
{
    words.is_one_input()
        || (words.files.len() == texts_wanted(words.sub) && are_named(words.sub, &words.files))
}

/// That a tree takes another numbering than depth first.
static TREE_NUMBERING: &str = "'--kind tree' works only with '--numbering depth-first'";

/// That labels by landmarks have no other order.
static LANDMARK_NUMBERING: &str =
    "'--kind landmark' cannot be used with '--numbering': its landmarks number the nodes";

/// What is wrong with a numbering other than depth first of a kind, if anything is.
fn list_fault(kind: KindChoice) -> Option<&'static str>
    ensures { MatchOption result (takes_list kind ≡ true) (λ _. takes_list kind ≡ false) }
{
    match kind {
        KindChoice::Tree => Some(TREE_NUMBERING),
        KindChoice::Landmark => Some(LANDMARK_NUMBERING),
        KindChoice::Shortest | KindChoice::Compact => None,
    }
}

/// What is wrong with the numbering of the words, if anything is.
fn numbering_fault(words: &Words) -> Option<&'static str>
    ensures { MatchOption result (has_its_numbering words.now ≡ true) (λ _. has_its_numbering words.now ≡ false) }
{
    match &words.numbering {
        NumberingChoice::Tour | NumberingChoice::Keep | NumberingChoice::KeepDepthFirst => {
            list_fault(words.kind)
        }
        NumberingChoice::File(name) if name.as_str() == "-" => {
            Some("'--numbering' takes 'depth-first', 'tour' or a file name, not '-'")
        }
        NumberingChoice::File(_) if words.root.is_some() => {
            Some("'--root' cannot be used with a '--numbering' file, whose first node is the root")
        }
        NumberingChoice::DepthFirst | NumberingChoice::File(_) => None,
    }
}

/// What is wrong with what is drawn, if anything is.
fn drawing_fault(words: &Words) -> Option<&'static str>
    ensures { MatchOption result (takes_drawing words.now ≡ true) (λ _. takes_drawing words.now ≡ false) }
{
    if words.node.is_some() && (words.from.is_some() || words.to.is_some()) {
        Some("'--node' cannot be used with '--from' or '--to'")
    } else if words.from.is_some() && words.to.is_none() {
        Some("'--from' requires '--to'")
    } else if words.to.is_some() && words.from.is_none() {
        Some("'--to' requires '--from'")
    } else if words.svg && words.node.is_none() {
        Some("'--svg' requires '--node'")
    } else {
        None
    }
}

/// Whether a landmark plan may be made: of the words' kind, as a second plan, or by an install.
fn may_go_round(words: &Words) -> bool
    ensures { result ≡ may_go_round words.now.sub words.now.kind words.now.second }
{
    match words.sub {
        Sub::Sim | Sub::Live | Sub::Check => true,
        _ => match &words.second {
            Some(second) => words.kind.is_landmark() || second.kind.is_landmark(),
            None => words.kind.is_landmark(),
        },
    }
}

/// What is wrong with how far the words say that landmark plans go round, if anything is.
fn detour_fault(words: &Words) -> Option<&'static str>
    ensures { MatchOption result (takes_detour words.now ≡ true) (λ _. takes_detour words.now ≡ false) }
{
    if words.detour.is_said && !may_go_round(words) {
        Some("'--landmarks' and '--stretch' require '--kind landmark'")
    } else {
        None
    }
}

/// What is wrong with the nodes whose lines are to be printed, if anything is.
fn nodes_fault(words: &Words) -> Option<&'static str>
    ensures { MatchOption result (takes_nodes words.now ≡ true) (λ _. takes_nodes words.now ≡ false) }
{
    if words.order_alone && words.nodes.is_some() {
        Some("'--nodes' cannot be used with '--order'")
    } else {
        None
    }
}

/// Which files a subcommand of several texts takes.
fn files_wanted(called: Called, sub: Sub) -> &'static str {
    let texts = texts_of(called);
    match sub {
        Sub::Diff => texts.diff_files,
        Sub::Live => texts.live_files,
        Sub::Check => texts.check_files,
        _ => texts.sim_files,
    }
}

/// What is wrong with words, if anything is.
pub fn fault_of(called: Called, words: &Words) -> Option<&'static str>
    ensures { MatchOption result (AreTaken words.now × FitsItsKind words.now)
        (λ _. AreTaken words.now → FitsItsKind words.now → ⊥) }
{
    if !has_its_files(words) {
        return Some(files_wanted(called, words.sub));
    }
    if let Some(fault) = numbering_fault(words) {
        return Some(fault);
    }
    if let Some(fault) = drawing_fault(words) {
        return Some(fault);
    }
    if let Some(fault) = detour_fault(words) {
        return Some(fault);
    }
    if let Some(fault) = nodes_fault(words) {
        return Some(fault);
    }
    if words.has_order() {
        list_fault(words.kind)
    } else {
        None
    }
}

/// The text for standard error that says what is wrong with words of a subcommand of this name.
pub fn fault_text(
    alloc: Global,
    called: Called,
    words: &Words,
    name: &str,
    fault: &str,
) -> Result<String, AllocError> {
    let mut text = format!(in alloc; "error: {fault}\n\n")?;
    if !has_its_files(words) {
        write!(text, "Usage: {}\n\n", usage_of(called, words.sub))?;
    }
    text.push_str("For more information, try '--help'.\n")?;
    Ok(text)
}

/// What is wrong with the word for a second plan, if anything is.
fn second_fault(found: &ArgMatches<'_>, words: &Words) -> Option<&'static str>
    ensures { MatchOption result (HasItsSecond (rows_of (found_of found.now)) words.now)
        (λ _. HasItsSecond (rows_of (found_of found.now)) words.now → ⊥) }
{
    if typed(found, "with").is_some() && words.second.is_none() {
        Some(
            "'--with' takes 'tree', 'shortest', 'compact' or 'landmark', optionally with a root after a comma",
        )
    } else {
        None
    }
}

/// What is wrong with the word for the nodes whose lines are to be printed, if anything is.
fn span_fault(found: &ArgMatches<'_>, words: &Words) -> Option<&'static str>
    ensures { MatchOption result (HasItsNodes (rows_of (found_of found.now)) words.now)
        (λ _. HasItsNodes (rows_of (found_of found.now)) words.now → ⊥) }
{
    if typed(found, "nodes").is_some() && words.nodes.is_none() {
        Some("'--nodes' takes two numbers 'A-B', of which B is at least A")
    } else {
        None
    }
}

/// What is wrong with a word that is no name and no number by itself, if anything is.
pub fn asked_fault(found: &ArgMatches<'_>, words: &Words) -> Option<&'static str>
    ensures { MatchOption result (HasWhatIsAsked (rows_of (found_of found.now)) words.now)
        (λ _. HasWhatIsAsked (rows_of (found_of found.now)) words.now → ⊥) }
{
    match second_fault(found, words) {
        Some(fault) => Some(fault),
        None => span_fault(found, words),
    }
}
