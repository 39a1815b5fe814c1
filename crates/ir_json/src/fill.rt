//! Templates with the words of a line in place of their signs.
ghost use Rattle.std.specs.Prelude.{◌≡◌, ◌<◌, ◌≤◌, ◌++◌, [], true, OnOk, IfOk, length, nat_lt, drop, string_bytes};
ghost use Rattle.std.specs.List.{list_all};
ghost use Rattle.ir_model.specs.Text.{words_of};
ghost use Rattle.ir_json.specs.Signs.{sign_of, sign_text, first_word, part_text, part_left, filled, left};

use crate::words::{before_mark, behind_mark, push_goal, push_number, push_quoted};
use ir_adjlist::scan::next_word;
use ir_growth::{Refusal, push_char};

/// What is in place of a word.
#[derive(Clone, Copy)]
pub enum Sign {
    /// The word as a string: `$`.
    Text,
    /// The word as a number: `#`.
    Count,
    /// The word as a string, or null for a dash: `?`.
    Goal,
    /// The number before a mark in the word, which is left to the next sign: `<`.
    Front,
    /// The number after a mark in the word: `>`.
    Behind,
    /// Nothing: `~`.
    Skipped,
}

/// The sign that a byte of a template is, if it is one.
pub fn sign_of(byte: u8) -> Option<Sign>
    ensures { result ≡ sign_of byte }
{
    match byte {
        b'$' => Some(Sign::Text),
        b'#' => Some(Sign::Count),
        b'?' => Some(Sign::Goal),
        b'<' => Some(Sign::Front),
        b'>' => Some(Sign::Behind),
        b'~' => Some(Sign::Skipped),
        _ => None,
    }
}

/// The first word of a line, none being empty, and what follows it.
pub fn first_word(line: &[u8]) -> (&[u8], &[u8])
    ensures word { result.0.now ≡ first_word (words_of line.now) }
    ensures rest { words_of result.1.now ≡ drop 1 (words_of line.now) }
    ensures shorter { length result.1.now ≤ length line.now }
{
    match next_word(line) {
        Some((word, rest)) => (word, rest),
        None => (&[], line),
    }
}

/// Writes what is in place of a sign for a word.
fn push_shown(text: &mut String, sign: Sign, word: &[u8]) -> Result<(), Refusal>
    ensures { OnOk result (string_bytes text.new ≡ string_bytes text.old ++ sign_text sign word.now) }
{
    match sign {
        Sign::Text => push_quoted(text, word),
        Sign::Count => push_number(text, word),
        Sign::Goal => push_goal(text, word),
        Sign::Front => push_number(text, before_mark(word)),
        Sign::Behind => push_number(text, behind_mark(word)),
        Sign::Skipped => Ok(()),
    }
}

/// Writes what a byte of a template comes to, and answers what of the line is left after it.
fn push_part<'a>(text: &mut String, byte: u8, line: &'a [u8]) -> Result<&'a [u8], Refusal>
    requires { byte < 128 }
    ensures text { OnOk result (string_bytes text.new ≡ string_bytes text.old
        ++ part_text byte (sign_of byte) (words_of line.now)) }
    ensures rest { IfOk result (λ rest. words_of rest.now ≡ part_left (sign_of byte) (words_of line.now)) }
{
    match sign_of(byte) {
        None => {
            push_char(text, byte as char)?;
            Ok(line)
        }
        Some(sign) => {
            let (word, rest) = first_word(line);
            push_shown(text, sign, word)?;
            Ok(if let Sign::Front = sign { line } else { rest })
        }
    }
}

/// Writes a template with the words of a line in place of its signs, and answers what of the line is left after them.
pub fn push_filled<'a>(
    text: &mut String,
    template: &str,
    line: &'a [u8],
) -> Result<&'a [u8], Refusal>
    requires { list_all (λ b. nat_lt b 128) template.now ≡ true }
    ensures text { OnOk result (string_bytes text.new ≡ string_bytes text.old
        ++ filled template.now (words_of line.now)) }
    ensures rest { IfOk result (λ rest. words_of rest.now ≡ left template.now (words_of line.now)) }
{
    let mut rest = line;
    let bytes = template.as_bytes();
    for byte in bytes {
        rest = push_part(text, *byte, rest)?;
    }
    Ok(rest)
}
