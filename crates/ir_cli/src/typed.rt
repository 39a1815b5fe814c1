//! What was typed for the options, flags and files of a subcommand, as the fields of its words.

ghost use Rattle.std.specs.Prelude.{◌≡◌, ◌≢◌, ◌<◌, ◌++◌, ℕ, Option, Some, IfOk, MatchOption, OnOk, codes, map, option_map, option_to_list, is_some, string_bytes, unwrap_or};
ghost use Rattle.clap.specs.Words.{first_of, found_of, rows_of};
ghost use Rattle.ir_cli.specs.declared.choices.DetourChoice.{DetourChoice};
ghost use Rattle.ir_cli.specs.declared.kinds.KindChoice.{KindChoice};
ghost use Rattle.ir_cli.specs.Meaning.{is_by_node, IsDetour, IsFormat, IsKindWord, IsNumber, IsNumberElse, IsNumbering, IsSecond, files_in, is_set, keeps, numbering_word, second_kind, second_root, second_word};
ghost use Rattle.ir_cli.specs.Meaning.{AreNodes, IsDecimal, IsSpan, nodes_word, span_first, span_last};
ghost use Rattle.ir_cli.specs.declared.words.Span.{Span};
ghost use Rattle.ir_cli.specs.CommandLine.{sub_word};
ghost use Rattle.ir_cli.specs.Typed.{AreTyped};
ghost use Rattle.ir_cli.specs.declared.typed.Chosen.{Chosen};
ghost use Rattle.ir_cli.specs.declared.words.Format.{Format};
ghost use Rattle.ir_cli.specs.declared.words.Sub.{Sub};

use crate::choices::DetourChoice;
use crate::kinds::KindChoice;
use crate::words::{Format, NumberingChoice, Second, Span, Sub, format_of_file};
use crate::{MAX_EPOCH, MAX_LANDMARKS, MAX_STRETCH, MAX_THREADS, MIN_STRETCH};
use clap::ArgMatches;
use ir_core::{MAX_CAPACITY, MAX_PACKETS, MAX_RESTAMPS};
use std::alloc::{AllocError, Global};

/// The word of an option or a file, if there is one.
pub fn typed<'a>(found: &ArgMatches<'a>, name: &str) -> Option<&'a str>
    ensures { option_map (λ word. word.now) result ≡ first_of name.now (rows_of (found_of found.now)) }
{
    found.get_str(name)
}

/// Whether there is a word of an option or a file.
pub fn is_given(found: &ArgMatches<'_>, name: &str) -> bool
    ensures { result ≡ is_some (first_of name.now (rows_of (found_of found.now))) }
{
    typed(found, name).is_some()
}

/// The same as a text of its own.
pub fn word_of(
    alloc: Global,
    found: &ArgMatches<'_>,
    name: &str,
) -> Result<Option<String>, AllocError>
    ensures { IfOk result (λ word. option_map string_bytes word ≡ first_of name.now (rows_of (found_of found.now))) }
{
    match typed(found, name) {
        Some(word) => Ok(Some(String::from_str(alloc, word)?)),
        None => Ok(None),
    }
}

/// Whether a flag is among the words.
pub fn is_set(found: &ArgMatches<'_>, name: &str) -> bool
    ensures { result ≡ is_set name.now (rows_of (found_of found.now)) }
{
    match typed(found, name) {
        Some(word) => word == "true",
        None => false,
    }
}

/// Whether nodes are to fail in place of links.
pub fn is_by_node(found: &ArgMatches<'_>) -> bool
    ensures { result ≡ is_by_node (rows_of (found_of found.now)) }
{
    match typed(found, "each") {
        Some(word) => word == "nodes",
        None => false,
    }
}

/// The number of an option, if it is one in this range, and none where the option is not given.
fn number_in(found: &ArgMatches<'_>, name: &str, least: usize, most: usize) -> Option<Option<usize>>
    ensures { MatchOption result ((n : Option ℕ)
        → IsNumber name.now (rows_of (found_of found.now)) least most n → ⊥)
        (λ n. IsNumber name.now (rows_of (found_of found.now)) least most n) }
{
    let Some(_) = typed(found, name) else {
        return Some(None);
    };
    let number = found.get_one::<usize>(name)?;
    if least <= number && number <= most {
        Some(Some(number))
    } else {
        None
    }
}

/// The same, and another number where the option is not given.
fn number_or(
    found: &ArgMatches<'_>,
    name: &str,
    least: usize,
    most: usize,
    other: usize,
) -> Option<usize>
    ensures { MatchOption result ((n : ℕ)
        → IsNumberElse name.now (rows_of (found_of found.now)) least most other n → ⊥)
        (λ n. IsNumberElse name.now (rows_of (found_of found.now)) least most other n) }
{
    let number = number_in(found, name, least, most)?;
    Some(number.unwrap_or(other))
}

/// The subcommand of a name.
fn sub_of(name: &str) -> Option<Sub>
    ensures { MatchOption result ((sub : Sub) → sub_word sub ≢ name.now) (λ sub. sub_word sub ≡ name.now) }
{
    match name {
        "plan" => Some(Sub::Plan),
        "walk" => Some(Sub::Walk),
        "stats" => Some(Sub::Stats),
        "compare" => Some(Sub::Compare),
        "diff" => Some(Sub::Diff),
        "draw" => Some(Sub::Draw),
        "prefixes" => Some(Sub::Prefixes),
        "ranges" => Some(Sub::Ranges),
        "xdp" => Some(Sub::Xdp),
        "sim" => Some(Sub::Sim),
        "live" => Some(Sub::Live),
        "check" => Some(Sub::Check),
        _ => None,
    }
}

/// The kind of a word, if it is that of one.
fn kind_in(word: &str) -> Option<KindChoice>
    ensures { MatchOption result ((kind : KindChoice) → IsKindWord kind word.now → ⊥)
        (λ kind. IsKindWord kind word.now) }
{
    match word {
        "tree" => Some(KindChoice::Tree),
        "shortest" => Some(KindChoice::Shortest),
        "compact" => Some(KindChoice::Compact),
        "landmark" => Some(KindChoice::Landmark),
        _ => None,
    }
}

/// How far landmark plans go round by the words, if the numbers that say it are taken.
fn detour_in(found: &ArgMatches<'_>) -> Option<DetourChoice>
    ensures { MatchOption result ((detour : DetourChoice) → IsDetour detour (rows_of (found_of found.now)) → ⊥)
        (λ detour. IsDetour detour (rows_of (found_of found.now))) }
{
    let landmarks = number_in(found, "landmarks", 1, MAX_LANDMARKS as usize)?;
    let (least, most) = (MIN_STRETCH as usize, MAX_STRETCH as usize);
    let stretch = number_or(found, "stretch", least, most, most)?;
    Some(DetourChoice {
        landmarks,
        stretch: stretch as u16,
        is_said: typed(found, "landmarks").is_some() || typed(found, "stretch").is_some(),
    })
}

/// The word of a second plan as its kind and the name of its root, if that comes after a comma.
fn parts_of_second(word: &str) -> (&str, Option<&str>)
    ensures kind { result.0.now ≡ second_kind word.now }
    ensures root { option_map (λ name. name.now) result.1 ≡ second_root word.now }
{
    match word.split_once(',') {
        Some((kind, root)) => (kind, Some(root)),
        None => (word, None),
    }
}

/// The second plan that is asked for, if there is one of this kind. Its root is by default that of the first plan.
pub fn second_of(alloc: Global, found: &ArgMatches<'_>) -> Result<Option<Second>, AllocError>
    ensures { IfOk result (λ second. IsSecond (second_word (rows_of (found_of found.now)))
        (first_of (codes "root") (rows_of (found_of found.now))) second) }
{
    let (word, named) = parts_of_second(typed(found, "with").unwrap_or(""));
    let Some(kind) = kind_in(word) else {
        return Ok(None);
    };
    let root = match named {
        Some(name) => Some(String::from_str(alloc, name)?),
        None => word_of(alloc, found, "root")?,
    };
    Ok(Some(Second { kind, root }))
}

/// The number that a text is in decimal, if it is one.
fn decimal_of(text: &str) -> Option<usize>
    ensures { MatchOption result ((n : ℕ) → IsDecimal text.now n → ⊥) (λ n. IsDecimal text.now n) }
{
    text.parse().ok()
}

/// What stands before the first hyphen of a word, and what after it.
fn parts_of_span(word: &str) -> (&str, &str)
    ensures first { result.0.now ≡ span_first word.now }
    ensures last { result.1.now ≡ span_last word.now }
{
    word.split_once('-').unwrap_or((word, ""))
}

/// The nodes of a word, if it has two numbers of which the second is at least the first.
fn span_in(word: &str) -> Option<Span>
    ensures { MatchOption result ((span : Span) → IsSpan word.now span → ⊥) (λ span. IsSpan word.now span) }
{
    let (first, last) = parts_of_span(word);
    let span = Span {
        first: decimal_of(first)?,
        last: decimal_of(last)?,
    };
    if span.first <= span.last {
        Some(span)
    } else {
        None
    }
}

/// The nodes whose lines are asked for, if there are any.
fn nodes_of(found: &ArgMatches<'_>) -> Option<Span>
    ensures { AreNodes (nodes_word (rows_of (found_of found.now))) result }
{
    span_in(typed(found, "nodes").unwrap_or(""))
}

/// The format that is named, else that of the file of a topology, by the name of its place.
fn format_of(found: &ArgMatches<'_>, place: &str) -> Option<Format>
    ensures { MatchOption result ((format : Format) → IsFormat place.now format (rows_of (found_of found.now))
        → ⊥)
        (λ format. IsFormat place.now format (rows_of (found_of found.now))) }
{
    match typed(found, "format") {
        Some("adjlist") => Some(Format::AdjList),
        Some("edgelist") => Some(Format::EdgeList),
        Some(_) => None,
        None => Some(format_of_file(typed(found, place).unwrap_or("-"))),
    }
}

/// Whether a subcommand may keep labels.
fn keeps(sub: Sub) -> bool
    ensures { result ≡ keeps sub }
{
    matches!(sub, Sub::Diff | Sub::Sim | Sub::Live | Sub::Check)
}

/// The numbering that is asked for.
pub fn numbering_of(
    alloc: Global,
    found: &ArgMatches<'_>,
    sub: Sub,
) -> Result<NumberingChoice, AllocError>
    ensures { IfOk result (λ numbering. IsNumbering sub numbering (numbering_word (rows_of (found_of found.now)))) }
{
    match typed(found, "numbering").unwrap_or("depth-first") {
        "depth-first" => Ok(NumberingChoice::DepthFirst),
        "tour" => Ok(NumberingChoice::Tour),
        "keep" | "keep,tour" if keeps(sub) => Ok(NumberingChoice::Keep),
        "keep,depth-first" if keeps(sub) => Ok(NumberingChoice::KeepDepthFirst),
        file => Ok(NumberingChoice::File(String::from_str(alloc, file)?)),
    }
}

/// Puts the file of a name after others, if it is given.
fn push_file(
    alloc: Global,
    files: &mut Vec<String>,
    found: &ArgMatches<'_>,
    name: &str,
) -> Result<(), AllocError>
    ensures { OnOk result (map string_bytes files.new.items ≡ map string_bytes files.old.items
        ++ option_to_list (first_of name.now (rows_of (found_of found.now)))) }
{
    if let Some(file) = word_of(alloc, found, name)? {
        files.push(file)?;
    }
    Ok(())
}

/// The files, in order.
pub fn files_of(alloc: Global, found: &ArgMatches<'_>) -> Result<Vec<String>, AllocError>
    ensures { IfOk result (λ files. map string_bytes files.items ≡ files_in (rows_of (found_of found.now))) }
{
    let mut files = Vec::new(alloc);
    push_file(alloc, &mut files, found, "topology")?;
    push_file(alloc, &mut files, found, "new")?;
    push_file(alloc, &mut files, found, "script")?;
    push_file(alloc, &mut files, found, "trace")?;
    Ok(files)
}

/// What is chosen or counted.
#[derive(Clone, Copy)]
pub struct Chosen {
    pub sub: Sub,
    pub format: Format,
    pub new_format: Format,
    pub kind: KindChoice,
    pub detour: DetourChoice,
    pub capacity: usize,
    pub packets: usize,
    pub restamps: u8,
    pub threads: Option<usize>,
    pub epoch: u16,
    pub nodes: Option<Span>,
}

/// What is chosen or counted by the words of a subcommand of this name, if each of them is a name or a number that is
/// taken.
pub fn choose(name: &str, found: &ArgMatches<'_>) -> Option<Chosen>
    ensures { MatchOption result ((all : Chosen) → AreTyped name.now (rows_of (found_of found.now)) all → ⊥)
        (λ all. AreTyped name.now (rows_of (found_of found.now)) all) }
{
    Some(Chosen {
        sub: sub_of(name)?,
        format: format_of(found, "topology")?,
        new_format: format_of(found, "new")?,
        kind: kind_in(typed(found, "kind").unwrap_or("shortest"))?,
        detour: detour_in(found)?,
        capacity: number_or(found, "capacity", 1, MAX_CAPACITY, 16)?,
        packets: number_or(found, "packets", 1, MAX_PACKETS, 4096)?,
        restamps: number_or(found, "restamps", 0, MAX_RESTAMPS, 0)? as u8,
        threads: number_in(found, "threads", 1, MAX_THREADS as usize)?,
        epoch: number_or(found, "epoch", 1, MAX_EPOCH as usize, 1)? as u16,
        nodes: nodes_of(found),
    })
}
