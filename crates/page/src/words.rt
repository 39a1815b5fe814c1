//! The words of a call.
ghost use Rattle.std.specs.Prelude.{◌≡◌, IfOk, IfErr, map, string_bytes};
ghost use Rattle.ir_model.specs.Text.{lines};
ghost use Rattle.ir_cli.specs.Words.{FitsItsKind};
ghost use Rattle.ir_cli.specs.Meaning.{Asks};
ghost use Rattle.ir_cli.specs.Refusals.{FailsOn};
ghost use Rattle.page.specs.Calls.{typed_words, IsRefusedText};

use ir_answer::{Words, WordsError, read_words};
use std::alloc::{AllocError, Global};

/// That words are no UTF-8.
static NO_TEXT: &str = "route: the words are no text\n";

/// The lines of a text, of which each ends in a line feed; the last may lack it.
fn lines_in(alloc: Global, text: &str) -> Result<Vec<String>, AllocError>
    ensures { IfOk result (λ found. map string_bytes found.items ≡ lines text.now) }
{
    let mut found = Vec::new(alloc);
    let mut rest = text;
    'lines: while let Some((line, behind)) = rest.split_once('\n') {
        found.push(String::from_str(alloc, line)?)?;
        rest = behind;
    }
    if !rest.is_empty() {
        found.push(String::from_str(alloc, rest)?)?;
    }
    Ok(found)
}

/// The words of a text: its lines; `sim -` where there are none.
fn words_in(alloc: Global, text: &str) -> Result<Vec<String>, AllocError>
    ensures { IfOk result (λ words. map string_bytes words.items ≡ typed_words text.now) }
{
    let mut words = lines_in(alloc, text)?;
    if words.is_empty() {
        words.push(String::from_str(alloc, "sim")?)?;
        words.push(String::from_str(alloc, "-")?)?;
    }
    Ok(words)
}

/// What the words of a text ask for, as `route` reads them.
pub fn asked(alloc: Global, text: &[u8]) -> Result<Words, WordsError>
    ensures kind { IfOk result (λ words. FitsItsKind words) }
    ensures asks { IfOk result (λ words. Asks (typed_words text.now) words) }
    ensures refused { IfErr result (FailsOn (IsRefusedText text.now) (IsRefusedText text.now)) }
{
    match std::str::from_utf8(text) {
        Ok(text) => {
            let words = words_in(alloc, text)?;
            read_words(alloc, words.as_slice())
        }
        Err(_) => Err(WordsError::Usage(String::from_str(alloc, NO_TEXT)?)),
    }
}
