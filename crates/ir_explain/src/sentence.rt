//! The pieces of a sentence.
ghost use Rattle.std.specs.Prelude.{◌≡◌, length, min, take};
ghost use Rattle.ir_explain.specs.declared.TheConstants.{MOST_QUOTED};

use crate::MOST_QUOTED;
use crate::lines::{line_at, words_of};
use crate::texts::GivenText;
use ir_adjlist::scan::all_plain;
use std::alloc::{AllocError, Global};
use std::fmt;

/// What adding to a text comes to: refused for want of memory alone.
pub type Pushed = Result<(), AllocError>;

/// A text in quotes, other bytes than printable ASCII as `\xNN`; two points stand for what is cut.
#[derive(Clone, Copy)]
pub struct Quoted<'a>(pub &'a [u8]);

/// The name of a file, where `-` is standard input; a character that would move the terminal's cursor is `\xNN`.
#[derive(Clone, Copy)]
pub struct FileName<'a>(pub &'a str);

/// What is shown of a text: its front.
fn cut(bytes: &[u8]) -> &[u8]
    ensures { result.now ≡ take (min (length bytes.now) MOST_QUOTED) bytes.now }
{
    &bytes[..bytes.len().min(MOST_QUOTED)]
}

/// Writes a byte, or `\xNN` where it is not printable ASCII.
fn write_byte<W: fmt::Write>(f: &mut fmt::Formatter<W>, byte: u8) -> fmt::Result {
    if byte >= b' ' && byte <= b'~' {
        f.write_char(byte as char)
    } else {
        write!(f, "\\x{byte:02X}")
    }
}

impl fmt::Display for Quoted<'_> {
    fn fmt<W: fmt::Write>(&self, f: &mut fmt::Formatter<W>) -> fmt::Result {
        let shown = cut(self.0);
        f.write_str("'")?;
        for byte in shown {
            write_byte(f, *byte)?;
        }
        f.write_str(if shown.len() < self.0.len() {
            "'.."
        } else {
            "'"
        })
    }
}

impl fmt::Display for FileName<'_> {
    fn fmt<W: fmt::Write>(&self, f: &mut fmt::Formatter<W>) -> fmt::Result {
        if self.0 == "-" {
            return f.write_str("standard input");
        }
        for ch in self.0.chars() {
            if ch < ' ' || ch == '\x7f' {
                write_byte(f, ch as u8)?;
            } else {
                f.write_char(ch)?;
            }
        }
        Ok(())
    }
}

/// Says how many words there are.
pub fn push_count(text: &mut String, words: usize) -> Pushed {
    match words {
        1 => text.push_str("one word"),
        2 => text.push_str("two words"),
        count => write!(text, "{count} words"),
    }
}

/// Begins a sentence on a file: `route: FILE: `.
pub fn begin(text: &mut String, file: &str) -> Pushed {
    write!(text, "route: {}: ", FileName(file))
}

/// Begins a sentence on a line of a text, counted from 1: `route: FILE:LINE: `. Line 0 is all of it.
pub fn begin_at(text: &mut String, part: &GivenText<'_>, line: usize) -> Pushed {
    if line == 0 {
        return begin(text, part.file);
    }
    let (file, line) = (FileName(part.file), line.saturating_add(part.above));
    write!(text, "route: {file}:{line}: ")
}

/// Begins a sentence on a line of a text, and answers its words.
pub fn begin_line<'a>(
    alloc: Global,
    text: &mut String,
    part: &GivenText<'a>,
    line: usize,
) -> Result<Vec<&'a [u8]>, AllocError> {
    begin_at(text, part, line)?;
    words_of(alloc, line_at(part.bytes, line))
}

/// Words with a space between them.
pub fn joined(alloc: Global, words: &[&[u8]]) -> Result<Vec<u8>, AllocError> {
    let mut all = Vec::new(alloc);
    for word in words {
        if !all.is_empty() {
            all.push(b' ')?;
        }
        all.extend_from_slice(word)?;
    }
    Ok(all)
}

/// The first word that is not printable ASCII; nothing where each is.
fn strange_word<'a>(words: &[&'a [u8]]) -> &'a [u8] {
    for word in words {
        if !all_plain(word) {
            return word;
        }
    }
    &[]
}

/// The first byte of a word that is not printable ASCII; 0 where each is.
fn strange_byte(word: &[u8]) -> u8 {
    for byte in word {
        if *byte < b'!' || *byte > b'~' {
            return *byte;
        }
    }
    0
}

/// Says which byte of a line is not allowed: the first that is not printable ASCII.
pub fn push_bad_byte(text: &mut String, words: &[&[u8]], wanted: &str) -> Pushed {
    let word = strange_word(words);
    if word.starts_with(b"\xEF\xBB\xBF") {
        return text.push_str("the text begins with a byte order mark: save it without one");
    }
    let byte = strange_byte(word);
    if byte == 0 || word.starts_with(b"\xFF\xFE") || word.starts_with(b"\xFE\xFF") {
        return text.push_str("this looks like UTF-16: save the text as ASCII");
    }
    write!(
        text,
        "byte 0x{byte:02X} in {}: {wanted} must be printable ASCII",
        Quoted(word)
    )
}
