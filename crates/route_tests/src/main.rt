//! Tests of `route`: each example of `cases.json` has the words after the program's name, the texts of its inputs, and
//! what the program prints and ends with. The words are read as `route` reads them, and the run goes over the texts in
//! memory. Printed are the names of the examples that differ, how many examples there are, and how many of them differ.
//! After them comes the stored run under hostile use, where it ends otherwise than it should.
#![tactic(auto)]

mod hostile;

ghost use Rattle.std.specs.Prelude.{◌≡◌, length};
ghost use Rattle.ir_cli.specs.Words.{FitsItsKind};

use anyhow::Error;
use ir_cli::status_of;
use ir_shell::{Several, Team, Words, follow, read_words, sources_of};
use serde::Deserialize;
use std::alloc::{AllocError, Global};
use std::fs;
use std::process::ExitCode;
use std::sync::Wait;
use std::thread::Threads;

/// One run of the program: its words, its inputs, and what is wanted of it.
#[derive(Debug, Drop, Deserialize)]
struct Example {
    name: String,
    words: Vec<String>,
    inputs: Vec<String>,
    stdout: String,
    stderr: String,
    status: u8,
}

/// What a run prints, and its status.
#[derive(Drop)]
struct Printed {
    status: u8,
    output: Vec<u8>,
    faults: Vec<u8>,
}

/// What a run over the texts of an example prints; nothing where they are not as many as its words ask for.
fn run_over<T: Threads + Wait + Sync>(
    rt: &T,
    alloc: Global,
    words: &Words,
    inputs: &mut [&[u8]],
) -> Printed
    requires { FitsItsKind words.now }
{
    let mut output: Vec<u8> = Vec::new(alloc);
    let mut faults: Vec<u8> = Vec::new(alloc);
    let status = if inputs.len() == sources_of(words).len() {
        let crew = Several { rt, most: None };
        let team = Team { rt, crew: &crew };
        status_of(follow(&team, alloc, words, inputs, &mut output, &mut faults).ending)
    } else {
        255
    };
    Printed {
        status,
        output,
        faults,
    }
}

/// What an example's run prints.
fn run_of<T: Threads + Wait + Sync>(
    rt: &T,
    alloc: Global,
    words: &Words,
    example: &Example,
) -> Result<Printed, AllocError>
    requires { FitsItsKind words.now }
{
    let mut inputs: Vec<&[u8]> = Vec::with_capacity(alloc, example.inputs.len())?;
    for text in &example.inputs {
        inputs.push(text.as_str().as_bytes())?;
    }
    Ok(run_over(rt, alloc, words, inputs.as_mut_slice()))
}

/// Whether a run prints and ends with what an example wants; words that are refused never do.
fn agrees<T: Threads + Wait + Sync>(rt: &T, alloc: Global, example: &Example) -> bool {
    let Ok(words) = read_words(alloc, example.words.as_slice()) else {
        return false;
    };
    let Ok(got) = run_of(rt, alloc, &words, example) else {
        return false;
    };
    got.status == example.status
        && got.output.as_slice() == example.stdout.as_str().as_bytes()
        && got.faults.as_slice() == example.stderr.as_str().as_bytes()
}

/// The text of the examples, beside the program or in its sources.
fn examples(rt: &HostRuntime) -> Result<String, Error> {
    match fs::read_to_string(rt, "cases.json") {
        Ok(text) => Ok(text),
        Err(_) => Ok(fs::read_to_string(rt, "data/cases.json")?),
    }
}

/// How many examples differ, each of which is reported by its name.
fn differing<T: Threads + Wait + Sync>(
    rt: &HostRuntime,
    threads: &T,
    examples: &[Example],
) -> Result<u32, Error> {
    let mut differ: u32 = 0;
    for example in examples {
        if !agrees(threads, rt.alloc(), example) {
            rt.println(format!(in rt.alloc(); "differs: {}", example.name)?)?;
            differ = differ.saturating_add(1);
        }
    }
    Ok(differ)
}

/// Runs every example, says how many there are and how many differ, and answers whether all is as it is to be.
fn tell<T: Threads + Wait + Sync>(rt: &HostRuntime, threads: &T) -> Result<bool, Error> {
    let text = examples(rt)?;
    let all: Vec<Example> = serde_json::from_str(rt.alloc(), text.as_str())?;
    let differ = differing(rt, threads, all.as_slice())?;
    rt.println(format!(in rt.alloc(); "{} examples, {differ} differ", all.len())?)?;
    let wrong = hostile::wrong(threads, rt.alloc());
    if let Some(name) = wrong {
        rt.println(format!(in rt.alloc(); "differs: {name}")?)?;
    }
    Ok(differ == 0 && wrong.is_none())
}

fn main(rt: HostRuntime) -> ExitCode {
    match tell(&rt, &rt) {
        Ok(true) => ExitCode::SUCCESS,
        _ => ExitCode::FAILURE,
    }
}
