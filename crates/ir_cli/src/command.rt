//! The command line: its subcommands, each with what it takes.
ghost use Rattle.std.specs.Prelude.{◌≡◌, IfOk, Some, false, fold};
ghost use Rattle.std.specs.Option.{option_map_or};
ghost use Rattle.clap.specs.Words.{Rule, app_of, new_app, rule_of, with_subcommand};
ghost use Rattle.clap.specs.declared.builder.command.Command.TheViews.{out-Command};
ghost use Rattle.ir_cli.specs.CommandLine.{AreTheirWords, program, sub_word, subcommand};
ghost use Rattle.ir_cli.specs.declared.options.Choices.{Choices};
ghost use Rattle.ir_cli.specs.Taking.{choice_words, program_app, rule_lettered, rule_named, rule_taken, rule_valued, with_taken};

use crate::help::{
    Called, HelpTexts, SCRIPT_LINES, about_of, lines_of, name_of, texts_of, usage_of,
};
use crate::options::{Accepts, Choice, Choices, Need, Taken, taken_by, telling};
use crate::words::Sub;
use clap::builder::ValueParser;
use clap::{Arg, ArgAction, Command};
use std::alloc::{AllocError, Global};

static FORMATS: [&str; 2] = ["adjlist", "edgelist"];

static KINDS: [&str; 4] = ["tree", "shortest", "compact", "landmark"];

static NUMBERINGS: [&str; 5] = [
    "depth-first",
    "tour",
    "keep",
    "keep,tour",
    "keep,depth-first",
];

static KEEPINGS: [&str; 3] = ["depth-first", "tour", "keep"];

static PARTS: [&str; 1] = ["table"];

static EACHES: [&str; 2] = ["links", "nodes"];

/// The subcommands, as help lists them.
static SUBCOMMANDS: [Sub; 12] = [
    Sub::Plan,
    Sub::Walk,
    Sub::Stats,
    Sub::Compare,
    Sub::Diff,
    Sub::Draw,
    Sub::Prefixes,
    Sub::Ranges,
    Sub::Xdp,
    Sub::Sim,
    Sub::Live,
    Sub::Check,
];

static VERSION: &str = "2.0.0";

/// An argument by its name.
fn named<'a>(alloc: Global, taken: Taken) -> Arg<'a>
    ensures rule { rule_of result ≡ rule_named taken.name.now taken.takes }
    ensures local { result.global ≡ false }
{
    let arg = Arg::new(alloc, taken.name).help(taken.help);
    match taken.takes {
        Accepts::File(value) | Accepts::PlaceOf(value, _) | Accepts::Place(value, _, _) => {
            arg.value_name(value)
        }
        Accepts::Nothing => arg.long(taken.name).action(ArgAction::SetTrue),
        Accepts::Word(value) | Accepts::WordOf(value, _) | Accepts::Number(value, _, _) => {
            arg.long(taken.name).value_name(value)
        }
    }
}

/// The words of a choice.
fn words_of<'a>(choices: Choices<'a>, choice: Choice) -> &'a [&'a str]
    ensures { result ≡ choice_words choices.entry choice }
{
    match choice {
        Choice::Format => choices.formats,
        Choice::Kind => choices.kinds,
        Choice::Numbering => choices.numberings,
        Choice::Keeping => choices.keepings,
        Choice::Part => choices.parts,
        Choice::Each => choices.eaches,
    }
}

/// The same with its letter, if it has one.
fn lettered<'a>(arg: Arg<'a>, letter: Option<char>) -> Arg<'a>
    ensures rule { rule_of result ≡ rule_lettered letter (rule_of arg.entry) }
    ensures local { result.global ≡ arg.entry.global }
{
    match letter {
        Some(letter) => arg.short(letter),
        None => arg,
    }
}

/// What the values of an argument are checked to be, if they are not any texts.
fn parser_of<'a>(choices: Choices<'a>, takes: Accepts) -> Option<ValueParser<'a>>
    ensures { (rule : Rule) → rule_valued choices.entry takes rule
        ≡ option_map_or (λ parser. record rule { parser = Some parser }) result rule }
{
    match takes {
        Accepts::WordOf(_, choice) | Accepts::PlaceOf(_, choice) => {
            Some(ValueParser::Names(words_of(choices, choice)))
        }
        Accepts::Number(_, least, most) | Accepts::Place(_, least, most) => Some(
            clap::value_parser!(u16).range(least as i64..=most as i64),
        ),
        Accepts::Nothing | Accepts::Word(_) | Accepts::File(_) => None,
    }
}

/// The same with what its values are checked to be, if they are not any texts.
fn valued<'a>(arg: Arg<'a>, parser: Option<ValueParser<'a>>) -> Arg<'a>
    ensures rule { rule_of result ≡ option_map_or
        (λ parser. record (rule_of arg.entry) { parser = Some parser }) parser.entry (rule_of arg.entry) }
    ensures local { result.global ≡ arg.entry.global }
{
    match parser {
        Some(parser) => arg.value_parser(parser),
        None => arg,
    }
}

/// An argument.
fn arg_of<'a>(alloc: Global, choices: Choices<'a>, taken: Taken) -> Arg<'a>
    ensures rule { rule_of result ≡ rule_taken choices.entry taken }
    ensures local { result.global ≡ false }
{
    let arg = valued(named(alloc, taken), parser_of(choices, taken.takes));
    let arg = lettered(arg, taken.letter);
    match taken.need {
        Need::Free => arg,
        Need::Must => arg.required(true),
        Need::Else(word) => arg.default_value(word),
    }
}

/// A command with further arguments.
fn with_args<'a>(
    alloc: Global,
    command: Command<'a>,
    choices: Choices<'a>,
    all: &[Taken],
) -> Result<Command<'a>, AllocError>
    ensures app { IfOk result (λ made. app_of made ≡ with_taken choices.entry (app_of command.entry) all.now) }
    ensures local { IfOk result (λ made. (out-Command made).has_globals ≡ (out-Command command.entry).has_globals) }
{
    let mut command = command;
    for taken in all {
        command = match command.arg(arg_of(alloc, choices, *taken)) {
            Ok(command) => command,
            Err(error) => return Err(error),
        };
    }
    Ok(command)
}

/// A subcommand, before its arguments.
fn named_command<'a>(alloc: Global, called: Called, sub: Sub) -> Command<'a>
    ensures app { app_of result ≡ new_app (sub_word sub) }
    ensures local { (out-Command result).has_globals ≡ false }
{
    let (name, about): (&'a str, &'a str) = (name_of(sub), about_of(sub));
    let (usage, lines): (&'a str, &'a str) = (usage_of(called, sub), lines_of(called, sub));
    let command = Command::new(alloc, name).about(about);
    let command = match usage {
        "" => command,
        usage => command.override_usage(usage),
    };
    match lines {
        "" => command,
        lines => command.after_help(lines),
    }
}

/// A subcommand, with all that it takes.
fn subcommand_of<'a>(
    alloc: Global,
    called: Called,
    choices: Choices<'a>,
    sub: Sub,
) -> Result<Command<'a>, AllocError>
    ensures shape { IfOk result (λ made. (app_of made).top ≡ subcommand choices.entry sub) }
    ensures local { IfOk result (λ made. (out-Command made).has_globals ≡ false) }
{
    let bare = named_command(alloc, called, sub);
    match with_args(alloc, bare, choices, taken_by(sub)) {
        Ok(own) => with_args(alloc, own, choices, telling()),
        Err(error) => Err(error),
    }
}

/// The program's command, before its subcommands.
fn program<'a>(alloc: Global, texts: &HelpTexts) -> Command<'a>
    ensures app { app_of result ≡ program_app texts.now.name.now }
    ensures local { (out-Command result).has_globals ≡ false }
{
    Command::new(alloc, texts.name)
        .about(texts.about)
        .version(VERSION)
        .subcommand_required(true)
        .after_help(SCRIPT_LINES)
}

/// The words of which one is chosen, by option.
fn choices_told<'a>() -> Choices<'a>
    ensures { AreTheirWords result }
{
    Choices {
        formats: FORMATS.as_slice(),
        kinds: KINDS.as_slice(),
        numberings: NUMBERINGS.as_slice(),
        keepings: KEEPINGS.as_slice(),
        parts: PARTS.as_slice(),
        eaches: EACHES.as_slice(),
    }
}

/// A command with further subcommands, and all that they take.
fn with_subcommands<'a>(
    alloc: Global,
    called: Called,
    choices: Choices<'a>,
    command: Command<'a>,
    all: &[Sub],
) -> Result<Command<'a>, AllocError>
    ensures { IfOk result (λ made. app_of made
        ≡ fold (λ a sub. with_subcommand a (subcommand choices.entry sub)) (app_of command.entry) all.now) }
{
    let mut command = command;
    for sub in all {
        let made = match subcommand_of(alloc, called, choices, *sub) {
            Ok(made) => made,
            Err(error) => return Err(error),
        };
        command = match command.subcommand(made) {
            Ok(command) => command,
            Err(error) => return Err(error),
        };
    }
    Ok(command)
}

/// The command of the program.
pub(crate) fn route_command<'a>(alloc: Global, called: Called) -> Result<Command<'a>, AllocError>
    ensures { IfOk result (λ made. (choices : Choices) × AreTheirWords choices
        × (app_of made ≡ program choices called)) }
{
    let command = program(alloc, texts_of(called));
    with_subcommands(
        alloc,
        called,
        choices_told(),
        command,
        SUBCOMMANDS.as_slice(),
    )
}
