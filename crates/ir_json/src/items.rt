//! The words after a line's front as a list.
ghost use Rattle.std.specs.Prelude.{◌≡◌, ◌≤◌, ◌++◌, [], true, IfOk, OnOk, length, nat_lt, string_bytes};
ghost use Rattle.std.specs.List.{list_all};
ghost use Rattle.ir_model.specs.Text.{words_of};
ghost use Rattle.ir_json.specs.Forms.{further_held, is_ascii_further};
ghost use Rattle.ir_json.specs.Signs.{first_word};
ghost use Rattle.ir_json.specs.Lists.{comma, names_from, pairs_from, is_still_first, marked_item, after_mark, marked_from, changes_text, opens_segment, between, segment_word, segments_from, items_text};

use crate::fill::{first_word, push_filled};
use crate::form::Items;
use crate::words::{is, push_number, push_quoted};
use ir_adjlist::scan::next_word;
use ir_growth::{Refusal, push_str};

/// What is before an item of a list.
fn comma(is_first: bool) -> &'static str
    ensures { result.now ≡ comma is_first }
{
    if is_first { "" } else { "," }
}

/// Writes each word as a string, with commas between.
fn push_names(text: &mut String, line: &[u8]) -> Result<(), Refusal>
    ensures { OnOk result (string_bytes text.new ≡ string_bytes text.old ++ names_from true (words_of line.now)) }
{
    let mut rest = line;
    let mut is_first = true;
    while let Some((word, after)) = next_word(rest) {
        push_str(text, comma(is_first))?;
        push_quoted(text, word)?;
        rest = after;
        is_first = false;
    }
    Ok(())
}

/// Writes each two words in a template, with commas between.
fn push_pairs(text: &mut String, template: &str, line: &[u8]) -> Result<(), Refusal>
    requires { list_all (λ b. nat_lt b 128) template.now ≡ true }
    ensures { OnOk result (string_bytes text.new ≡ string_bytes text.old
        ++ pairs_from template.now true (words_of line.now)) }
{
    let mut rest = line;
    let mut is_first = true;
    while let Some((_, after)) = next_word(rest) {
        push_str(text, comma(is_first))?;
        push_filled(text, template, rest)?;
        rest = first_word(after).1;
        is_first = false;
    }
    Ok(())
}

/// Writes the front of a line in a template, if it has this mark, and answers whether the next one is the first.
fn push_marked_item(
    text: &mut String,
    mark: &str,
    template: &str,
    is_first: bool,
    line: &[u8],
) -> Result<bool, Refusal>
    requires { list_all (λ b. nat_lt b 128) template.now ≡ true }
    ensures text { OnOk result (string_bytes text.new ≡ string_bytes text.old
        ++ marked_item mark.now template.now is_first (words_of line.now)) }
    ensures first { IfOk result (λ next. next ≡ is_still_first mark.now is_first (first_word (words_of line.now))) }
{
    if !is(first_word(line).0, mark) {
        return Ok(is_first);
    }
    push_str(text, comma(is_first))?;
    push_filled(text, template, line)?;
    Ok(false)
}

/// What follows a mark and its words.
fn after_mark<'a>(mark: &[u8], line: &'a [u8]) -> &'a [u8]
    ensures words { words_of result.now ≡ after_mark mark.now (words_of line.now) }
    ensures shorter { length result.now ≤ length line.now }
{
    let rest = first_word(line).1;
    if is(mark, "-") {
        rest
    } else {
        first_word(rest).1
    }
}

/// Writes each of `- START` and `+ START NEIGHBOUR` that has this mark in a template, with commas between.
fn push_marked(text: &mut String, mark: &str, template: &str, line: &[u8]) -> Result<(), Refusal>
    requires { list_all (λ b. nat_lt b 128) template.now ≡ true }
    ensures { OnOk result (string_bytes text.new ≡ string_bytes text.old
        ++ marked_from mark.now template.now true (words_of line.now)) }
{
    let mut rest = line;
    let mut is_first = true;
    while let Some((word, after)) = next_word(rest) {
        is_first = push_marked_item(text, mark, template, is_first, rest)?;
        rest = after_mark(word, after);
    }
    Ok(())
}

/// Writes the starts that go as a list, and those that come, each with its neighbour, as another one.
fn push_changes(text: &mut String, line: &[u8]) -> Result<(), Refusal>
    ensures { OnOk result (string_bytes text.new ≡ string_bytes text.old ++ changes_text (words_of line.now)) }
{
    push_marked(text, "-", "~#", line)?;
    push_str(text, "],\"put\":[")?;
    push_marked(text, "+", "~{\"start\":#,\"next\":$}", line)
}

/// Whether a word is one `#EPOCH`.
fn opens_segment(word: &[u8]) -> bool
    ensures { result ≡ opens_segment word.now }
{
    matches!(word.first(), Some(b'#'))
}

/// What is before a word of a row of segments.
fn between(before: &[u8], word: &[u8]) -> &'static str
    ensures { result.now ≡ between before.now word.now }
{
    if opens_segment(word) {
        if before.is_empty() { "" } else { "]}," }
    } else if opens_segment(before) {
        ""
    } else {
        ","
    }
}

/// Writes a mark, which opens a segment, or a hop.
fn push_segment_word(text: &mut String, word: &[u8]) -> Result<(), Refusal>
    ensures { OnOk result (string_bytes text.new ≡ string_bytes text.old ++ segment_word word.now) }
{
    if opens_segment(word) {
        push_str(text, "{\"epoch\":")?;
        push_number(text, &word[1..])?;
        push_str(text, ",\"hops\":[")?;
    } else {
        push_quoted(text, word)?;
    }
    Ok(())
}

fn push_segments(text: &mut String, line: &[u8]) -> Result<(), Refusal>
    ensures { OnOk result (string_bytes text.new ≡ string_bytes text.old ++ segments_from [] (words_of line.now)) }
{
    let mut rest = line;
    let mut before: &[u8] = &[];
    while let Some((word, after)) = next_word(rest) {
        push_str(text, between(before, word))?;
        push_segment_word(text, word)?;
        rest = after;
        before = word;
    }
    if !before.is_empty() {
        push_str(text, "]}")?;
    }
    Ok(())
}

/// Writes the words after a line's front, and what ends the line after a list.
pub fn push_items(text: &mut String, items: Items, line: &[u8]) -> Result<(), Refusal>
    requires { is_ascii_further (further_held items) ≡ true }
    ensures { OnOk result (string_bytes text.new ≡ string_bytes text.old
        ++ items_text (further_held items) (words_of line.now)) }
{
    match items {
        Items::NoItems => return Ok(()),
        Items::Names => push_names(text, line)?,
        Items::Pairs(template) => push_pairs(text, template, line)?,
        Items::Segments => push_segments(text, line)?,
        Items::Changes => push_changes(text, line)?,
    }
    push_str(text, "]}")
}
