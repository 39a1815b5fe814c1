//! The answer of a call, in memory.
ghost use Rattle.std.specs.Prelude.{◌≡◌, false, [], IfOk, map, string_bytes};
ghost use Rattle.ir_answer.specs.Asked.{sources_of};
ghost use Rattle.ir_cli.specs.Words.{FitsItsKind};
ghost use Rattle.page.specs.Calls.{text_for, IsFollowed, IsCallAnswer};

use crate::kept::Kept;
use crate::words::asked;
use ir_answer::{Alone, RunOutcome, Source, Words, WordsError, follow_by, sources_of};
use ir_cli::status_of;
use ir_explain::{Given, Trouble, explanation};
use std::alloc::{AllocError, Global};

/// The most bytes of a line of faults that reports one input.
const LINE: usize = 128;

/// A status, the output and the faults.
#[derive(Drop)]
pub struct Answered {
    pub status: u32,
    pub output: Vec<u8>,
    pub faults: Vec<u8>,
}

/// The text of a source.
fn text_for<'a>(topology: &'a [u8], script: &'a [u8], trace: &'a [u8], source: Source) -> &'a [u8]
    ensures { result.now ≡ text_for topology.now script.now trace.now source }
{
    match source {
        Source::Input | Source::Topology => topology,
        Source::New | Source::Script | Source::Numbering => script,
        Source::Trace => trace,
    }
}

/// The texts of the sources that the words ask for, in order.
fn texts_of<'a>(
    alloc: Global,
    words: &Words,
    topology: &'a [u8],
    script: &'a [u8],
    trace: &'a [u8],
) -> Result<Vec<&'a [u8]>, AllocError>
    ensures { IfOk result (λ texts. map (λ text. text.now) texts.items
        ≡ map (text_for topology.now script.now trace.now) (sources_of words.now)) }
{
    let sources = sources_of(words);
    let mut texts = Vec::with_capacity(alloc, sources.len())?;
    for i in 0..sources.len() {
        texts.push(text_for(topology, script, trace, sources[i]))?;
    }
    Ok(texts)
}

/// Sentences for people on a run that came to this; none where the words ask for none.
fn sentences(
    alloc: Global,
    words: &Words,
    texts: &[&[u8]],
    outcome: &RunOutcome,
) -> Result<String, AllocError>
    ensures { IfOk result (λ text. words.now.explain ≡ false → string_bytes text ≡ []) }
{
    if !words.explain {
        return Ok(String::new(alloc));
    }
    let mut given = Vec::with_capacity(alloc, texts.len())?;
    for text in texts {
        given.push(Given {
            bytes: *text,
            trouble: Trouble::Unknown,
        })?;
    }
    explanation(alloc, words, given.as_slice(), outcome)
}

/// Does what the words ask for over the texts.
fn followed(
    alloc: Global,
    words: &Words,
    topology: &[u8],
    script: &[u8],
    trace: &[u8],
) -> Result<Answered, AllocError>
    requires { FitsItsKind words.now }
    ensures { IfOk result (λ it. IsFollowed words.now (text_for topology.now script.now trace.now)
        it.status it.output.items it.faults.items) }
{
    let texts = texts_of(alloc, words, topology, script, trace)?;
    let mut inputs = texts_of(alloc, words, topology, script, trace)?;
    let mut written = Kept::with_room(alloc, 0)?;
    let mut told = Kept::with_room(alloc, LINE)?;
    let readers = inputs.as_mut_slice();
    let outcome = follow_by(&Alone, alloc, words, readers, &mut written, &mut told);
    let output = written.whole()?;
    let mut faults = told.whole()?;
    let text = sentences(alloc, words, texts.as_slice(), &outcome)?;
    faults.extend_from_slice(text.as_bytes())?;
    Ok(Answered {
        status: status_of(outcome.ending).into(),
        output,
        faults,
    })
}

/// The answer to words that are refused: their text.
fn refused(alloc: Global, text: String) -> Answered
    ensures { (result.status ≡ 2) × (result.output.items ≡ []) }
{
    Answered {
        status: 2,
        output: Vec::new(alloc),
        faults: text.into_bytes(),
    }
}

/// Does what the words of a text ask for. It is refused for memory alone.
pub fn answer_to(
    alloc: Global,
    words: &[u8],
    topology: &[u8],
    script: &[u8],
    trace: &[u8],
) -> Result<Answered, AllocError>
    ensures { IfOk result (λ it. IsCallAnswer words.now (text_for topology.now script.now trace.now)
        it.status it.output.items it.faults.items) }
{
    match asked(alloc, words) {
        Ok(words) => followed(alloc, &words, topology, script, trace),
        Err(WordsError::Usage(text) | WordsError::Help(text)) => Ok(refused(alloc, text)),
        Err(WordsError::NoMemory) => Err(AllocError),
    }
}
