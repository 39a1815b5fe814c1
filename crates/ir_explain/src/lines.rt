//! Lines and words of texts.
ghost use Rattle.std.specs.{Prelude.{◌≡◌, ◌==◌, IfOk}, List.count_by};
ghost use Rattle.ir_model.specs.Text.{words};
ghost use Rattle.ir_explain.specs.{Cut.pointed_texts, Lines.line_numbered};

use ir_adjlist::scan;
use std::alloc::{AllocError, Global};

/// The lines at the front of a text, at most so many.
pub fn lines_of(alloc: Global, text: &[u8], most: usize) -> Result<Vec<&[u8]>, AllocError> {
    let mut found = Vec::new(alloc);
    let mut rest = text;
    for _turn in 0..text.len().min(most) {
        if rest.is_empty() {
            break;
        }
        let (line, after) = scan::next_line(rest);
        found.push(line)?;
        rest = after;
    }
    Ok(found)
}

/// The line with this number, counted from 1; nothing where the text has no such line.
pub fn line_at(text: &[u8], number: usize) -> &[u8]
    ensures { result.now ≡ line_numbered text.now number }
{
    let mut found: &[u8] = &[];
    let mut rest = text;
    for _turn in 0..number {
        if rest.is_empty() {
            return &[];
        }
        let (line, after) = scan::next_line(rest);
        found = line;
        rest = after;
    }
    found
}

/// The first word of a line, without its comment; nothing where it has none.
pub fn first_word(line: &[u8]) -> &[u8] {
    match scan::next_word(scan::without_comment(line)) {
        Some((word, _)) => word,
        None => &[],
    }
}

/// The first line of a text after so many that begins with a word, counted from 1; 0 where there is none.
pub fn line_with(
    alloc: Global,
    text: &[u8],
    word: &[u8],
    above: usize,
) -> Result<usize, AllocError> {
    for (place, line) in lines_of(alloc, text, text.len())?.iter().enumerate() {
        if place >= above && first_word(line) == word {
            return Ok(place + 1);
        }
    }
    Ok(0)
}

/// The words of a line, without its comment.
pub fn words_of<'a>(alloc: Global, line: &'a [u8]) -> Result<Vec<&'a [u8]>, AllocError>
    ensures { IfOk result (λ found. pointed_texts found.items ≡ words line.now) }
{
    let mut found = Vec::new(alloc);
    let mut rest = scan::without_comment(line);
    while let Some((word, after)) = scan::next_word(rest) {
        found.push(word)?;
        rest = after;
    }
    Ok(found)
}

/// The word at a place, from 0; nothing where there is none.
pub fn word_at<'a>(words: &[&'a [u8]], place: usize) -> &'a [u8] {
    words.get(place).copied().unwrap_or(&[])
}

/// A word as text; nothing where it is none.
pub fn text_of(word: &[u8]) -> &str {
    str::from_utf8(word).unwrap_or("")
}

/// How many lines end in a text.
pub fn line_ends(text: &[u8]) -> usize
    ensures { result ≡ count_by (λ b. b == 10) text.now }
{
    let mut count = 0;
    for byte in text {
        if *byte == b'\n' {
            count += 1;
        }
    }
    count
}
