//! The words of a line, and the row that they spell.
ghost use Rattle.std.specs.Prelude.{◌≡◌, ◌==◌, ◌&&◌, [], ◌∷◌, ◌++◌, true, not, ◌<◌, ◌≤◌, nat_le, MatchOption, IfOk, IfSome, decimal, drop, length, map};
ghost use Rattle.std.specs.List.{list_all, slice_split, prefix_len};
ghost use Rattle.ir_trace.specs.Rows.{is_word, is_mark, mark, fate_words};
ghost use Rattle.ir_trace.specs.Spelled.{texts, fate_held, part_held, row_told, text_held, has_needless_front, IsNoNumber};
ghost use Rattle.ir_trace.specs.Spelled.{HasWords, HasNoWords, Spells, SpellsNothing, HasHead, HasNoHead, IsNoFate, IsNoMark};
ghost use Rattle.ir_trace.specs.Spelled.{BeginsWith, BeginsWithNone, AreParts, AreNoParts};

use crate::MAX_SEGMENTS;
use crate::row::Version;
use std::alloc::{AllocError, Global};

/// A fate with its names.
#[derive(Clone, Copy)]
pub enum FateSpelling<'a> {
    Delivered,
    Retired,
    Down(&'a str, &'a str),
    Full(&'a str, &'a str),
    Left,
}

/// What is in a row before its segments, with its names.
#[derive(Clone, Copy)]
pub struct Head<'a> {
    pub id: u32,
    pub source: &'a str,
    pub dest: &'a str,
    pub weight: u32,
    pub fate: FateSpelling<'a>,
}

/// A segment with its names.
#[derive(Clone, Copy)]
pub struct SegmentSpelling<'a> {
    pub epoch: u32,
    pub hops: &'a [&'a str],
}

/// A row with its names.
#[derive(Drop)]
pub struct Spelling<'a> {
    pub head: Head<'a>,
    pub segments: Vec<SegmentSpelling<'a>>,
}

/// Whether a plus is first, or a zero with another byte after it.
fn has_needless_front(bytes: &[u8]) -> bool
    ensures { result ≡ has_needless_front bytes.now }
{
    if bytes.is_empty() {
        return false;
    }
    bytes[0] == b'+' || (bytes[0] == b'0' && bytes.len() > 1)
}

/// The number that a word is in decimal without leading zeros, if a row may hold it.
fn number(word: &str) -> Option<u32>
    ensures { MatchOption result (IsNoNumber word.now) (λ n. decimal n ≡ word.now) }
{
    if has_needless_front(word.as_bytes()) {
        return None;
    }
    word.parse().ok()
}

fn all_word_bytes(bytes: &[u8]) -> bool
    ensures { result ≡ list_all (λ b. nat_le 33 b && nat_le b 126) bytes.now }
{
    bytes.iter().all(|byte| *byte >= b'!' && *byte <= b'~')
}

/// Whether there is a byte, and each is one of `!` to `~`.
fn is_word(word: &str) -> bool
    ensures { result ≡ is_word word.now }
{
    word.len() >= 1 && all_word_bytes(word.as_bytes())
}

/// Whether each is a word.
fn all_words(words: &[&str]) -> bool
    ensures { result ≡ list_all (λ word. is_word word.now) words.now }
{
    words.iter().all(|word| is_word(word))
}

/// What is between the spaces.
fn split_spaces(alloc: Global, text: &str) -> Result<Vec<&str>, AllocError>
    ensures { IfOk result (λ words. texts words.items ≡ slice_split (λ b. b == 32) text.now) }
{
    text.split(' ').collect(alloc)
}

/// The words of a line that has single spaces between words, and no other byte than those of words.
pub fn line_words(alloc: Global, line: &[u8]) -> Result<Option<Vec<&str>>, AllocError>
    ensures { IfOk result (λ found. MatchOption found (HasNoWords line.now)
        (λ words. HasWords line.now (texts words.items))) }
{
    let Ok(text) = str::from_utf8(line) else {
        return Ok(None);
    };
    let words = split_spaces(alloc, text)?;
    if !all_words(&words) {
        return Ok(None);
    }
    Ok(Some(words))
}

/// The fate that a word names, with the names after it, and the words after those.
fn spelled_fate<'a>(word: &str, rest: &'a [&'a str]) -> Option<(FateSpelling<'a>, &'a [&'a str])>
    ensures { MatchOption result (IsNoFate (word.now ∷ texts rest.now))
        (λ p. fate_words (fate_held p.0) ++ texts p.1.now ≡ word.now ∷ texts rest.now) }
{
    match word {
        "delivered" => Some((FateSpelling::Delivered, rest)),
        "retired" => Some((FateSpelling::Retired, rest)),
        "left" => Some((FateSpelling::Left, rest)),
        "down" => {
            let [x, y, hops @ ..] = rest else {
                return None;
            };
            Some((FateSpelling::Down(x, y), hops))
        }
        "full" => {
            let [x, y, hops @ ..] = rest else {
                return None;
            };
            Some((FateSpelling::Full(x, y), hops))
        }
        _ => None,
    }
}

/// The row that the words of a line of the first version spell. After the id comes a head as one of the second version
/// begins, with the epoch in the place of its id.
fn spelled_one<'a>(words: &'a [&'a str]) -> Option<(Head<'a>, SegmentSpelling<'a>)>
    requires { list_all is_word (texts words.now) ≡ true }
    ensures { MatchOption result (SpellsNothing Version.One (texts words.now))
        (λ s. Spells Version.One (texts words.now) (row_told s.0 (part_held s.1 ∷ []))) }
{
    let [id, rest @ ..] = words else {
        return None;
    };
    let Some((behind, hops)) = spelled_head(rest) else {
        return None;
    };
    if hops.is_empty() {
        return None;
    }
    let epoch = behind.id;
    let Some(id) = number(id) else {
        return None;
    };
    Some((Head { id, ..behind }, SegmentSpelling { epoch, hops }))
}

/// What the words of a line of the second version spell before the segments, and the words of those.
fn spelled_head<'a>(words: &'a [&'a str]) -> Option<(Head<'a>, &'a [&'a str])>
    ensures { MatchOption result (HasNoHead (texts words.now))
        (λ s. HasHead (texts words.now) (row_told s.0 []) (texts s.1.now)) }
{
    let [id, source, dest, weight, fate, rest @ ..] = words else {
        return None;
    };
    let Some((fate, rest)) = spelled_fate(fate, rest) else {
        return None;
    };
    let Some(id) = number(id) else {
        return None;
    };
    let Some(weight) = number(weight) else {
        return None;
    };
    let head = Head {
        id,
        source,
        dest,
        weight,
        fate,
    };
    Some((head, rest))
}

/// Whether a word begins with `#`.
fn is_mark(word: &str) -> bool
    ensures { result ≡ is_mark word.now }
{
    let bytes = word.as_bytes();
    !bytes.is_empty() && bytes[0] == b'#'
}

/// The epoch that a word `#EPOCH` names.
fn marked_epoch(word: &str) -> Option<u32>
    ensures { MatchOption result (IsNoMark word.now) (λ n. mark n ≡ word.now) }
{
    number(word.strip_prefix("#")?)
}

/// How many words are before the first that begins with `#`.
fn hop_count(words: &[&str]) -> usize
    ensures count { result ≡ prefix_len (λ w. not (is_mark w)) (texts words.now) }
    ensures within { result ≤ length words.now }
{
    for (i, word) in words.iter().enumerate() {
        if is_mark(word) {
            return i;
        }
    }
    words.len()
}

/// The segment that words begin with, and how many of the words are its own.
fn first_segment<'a>(words: &'a [&'a str]) -> Option<(SegmentSpelling<'a>, usize)>
    ensures begins { MatchOption result (BeginsWithNone (texts words.now))
        (λ s. BeginsWith (texts words.now) (part_held s.0) (texts (drop s.1 words.now))) }
    ensures some { IfSome result (λ s. 0 < s.1) }
    ensures within { IfSome result (λ s. s.1 ≤ length words.now) }
{
    let [mark, tail @ ..] = words else {
        return None;
    };
    let epoch = marked_epoch(mark)?;
    let count = hop_count(tail);
    if count == 0 {
        return None;
    }
    let hops = &tail[..count];
    Some((SegmentSpelling { epoch, hops }, count + 1))
}

/// The segments that words spell, one or more and not too many.
fn spelled_segments<'a>(
    alloc: Global,
    words: &'a [&'a str],
) -> Result<Option<Vec<SegmentSpelling<'a>>>, AllocError>
    ensures { IfOk result (λ found. MatchOption found (AreNoParts (texts words.now))
        (λ s. AreParts (texts words.now) (map part_held s.items))) }
{
    let mut segments = Vec::new(alloc);
    let mut rest = words;
    while !rest.is_empty() {
        let Some((segment, used)) = first_segment(rest) else {
            return Ok(None);
        };
        segments.push(segment)?;
        rest = &rest[used..];
    }
    if segments.is_empty() {
        return Ok(None);
    }
    if segments.len() > MAX_SEGMENTS {
        return Ok(None);
    }
    Ok(Some(segments))
}

/// The row that the words of a line spell.
pub fn spelled<'a>(
    alloc: Global,
    version: Version,
    words: &'a [&'a str],
) -> Result<Option<Spelling<'a>>, AllocError>
    requires { list_all is_word (texts words.now) ≡ true }
    ensures { IfOk result (λ found. MatchOption found (SpellsNothing version (texts words.now))
        (λ s. Spells version (texts words.now) (text_held s))) }
{
    match version {
        Version::One => {
            let Some((head, segment)) = spelled_one(words) else {
                return Ok(None);
            };
            let mut segments = Vec::new(alloc);
            segments.push(segment)?;
            Ok(Some(Spelling { head, segments }))
        }
        Version::Two => {
            let Some((head, rest)) = spelled_head(words) else {
                return Ok(None);
            };
            match spelled_segments(alloc, rest)? {
                Some(segments) => Ok(Some(Spelling { head, segments })),
                None => Ok(None),
            }
        }
    }
}
