//! A text, to a writer, in parts.
ghost use Rattle.std.specs.Prelude.{◌≡◌, ◌+◌, ◌<◌, ◌≤◌, ◌++◌, [], Some, IfOk, IfSome, length, is_none, take, slice_index_or};
ghost use Rattle.std.specs.{Prelude.{List, Option, ℕ}, Vec.vec_capacity};
ghost use Rattle.ir_streams.specs.{declared.TheConstants.PART_BYTES, Room.{kept_back, IsRoom, IsPart}, Pouring.{Puts, Pours, Finishes}};

use crate::PART_BYTES;
use crate::texts::Texts;
use crate::writing::{Writer, put_all, write_text};
use std::alloc::{AllocError, Global};
use std::marker::Model;

/// How many bytes are copied for a short text, whatever it has of them: so the copy has no branch.
const SHORT_BYTES: usize = 16;

/// By how many bytes what is kept back grows for short texts.
const MORE_BYTES: usize = 4096;

/// Keeps bytes back after others. Condition: together they are a part at most.
fn keep(kept: &mut Vec<u8>, bytes: &[u8])
    requires capacity { PART_BYTES ≤ vec_capacity kept.old }
    requires bytes { length kept.old.items + length bytes.now ≤ PART_BYTES }
    ensures capacity { PART_BYTES ≤ vec_capacity kept.new }
    ensures bytes { kept.new.items ≡ kept.old.items ++ bytes.now }
{
    let _kept = kept.extend_from_slice(bytes);
}

/// Puts bytes after the first `count` of others; `more` of them count.
#[inline(always)]
fn put_front(kept: &mut [u8], count: usize, bytes: &[u8], more: usize) -> usize
    requires room { count + length bytes.now ≤ length kept.old }
    requires more { more ≤ length bytes.now }
    ensures length { length kept.new ≡ length kept.old }
    ensures count { result ≡ count + more }
    ensures bytes { take result kept.new ≡ take count kept.old ++ take more bytes.now }
{
    kept[count..count + bytes.len()].copy_from_slice(bytes);
    count + more
}

/// Writes parts of what is kept back and these bytes after it, and keeps the rest back. Returns
/// false where a write failed; none is made then.
fn pour<W: Writer>(kept: &mut Vec<u8>, writer: &mut W, bytes: &[u8]) -> bool
    requires { IsRoom kept.old }
    ensures room { IsRoom kept.new }
    ensures writes { Puts W.contents W.wrote W.settled result writer.old (kept.old.items ++ bytes.now) writer.new
        kept.new.items }
{
    let mut rest = bytes;
    while rest.len() > PART_BYTES - kept.len() {
        let room = PART_BYTES - kept.len();
        keep(kept, &rest[..room]);
        if !put_all(writer, kept.as_slice()) {
            return false;
        }
        kept.clear();
        rest = &rest[room..];
    }
    keep(kept, rest);
    true
}

/// A text on its way to a writer, in writes of at most `PART_BYTES` bytes. What makes no part yet
/// is kept back. Once a write failed no call is made of the writer.
#[derive(Drop)]
pub struct TextParts {
    /// Of these bytes the first `count` are kept back.
    kept: Vec<u8>,
    count: usize,
    has_failed: bool,
}

impl Model for TextParts {
    ghost Value = { Option (List ℕ) };

    ghost view = { kept_back };

    ghost invariant = { IsPart };
}

impl TextParts {
    /// The parts of a text of which nothing has come yet. It is refused for memory alone, and no later call takes any.
    pub fn new(alloc: Global) -> Result<TextParts, AllocError>
        ensures { IfOk result (λ parts. parts ≡ Some []) }
    {
        let kept = Vec::with_capacity(alloc, PART_BYTES)?;
        Ok(TextParts {
            kept,
            count: 0,
            has_failed: false,
        })
    }

    /// Whether a write failed.
    pub fn has_failed(&self) -> bool
        ensures { result ≡ is_none self.now }
    {
        self.has_failed
    }

    /// More of the text. Parts of it are written, and the rest, a part at most, is kept back. Takes
    /// O(b), for b bytes, beside the calls of the writer.
    pub fn push<W: Writer>(&mut self, writer: &mut W, bytes: &[u8])
        ensures writes { Pours W.contents W.wrote W.settled writer.old self.old bytes.now writer.new self.new }
        ensures few { IfSome self.new (λ kept. length kept ≤ PART_BYTES) }
    {
        if !self.has_failed {
            self.kept.truncate(self.count);
            self.has_failed = !pour(&mut self.kept, writer, bytes);
            self.count = self.kept.len();
        }
    }

    // Makes room for a short text, where a part has it. Nothing more is kept back.
    #[inline(always)]
    fn make_room(&mut self)
        ensures { self.new ≡ self.old }
    {
        let has_room = SHORT_BYTES <= self.kept.len() - self.count;
        if !has_room && MORE_BYTES <= PART_BYTES - self.kept.len() {
            let _kept = self.kept.extend_from_slice(&[0; MORE_BYTES]);
        }
    }

    /// More of the text, which is one of some texts: as `push` of its bytes, and faster where they
    /// are few. Condition: `k` is below `texts.len()`.
    pub fn push_text<W: Writer>(&mut self, writer: &mut W, texts: &Texts, k: usize)
        requires { k < length texts.now }
        ensures writes { Pours W.contents W.wrote W.settled writer.old self.old (slice_index_or texts.now k [])
            writer.new self.new }
        ensures few { IfSome self.new (λ kept. length kept ≤ PART_BYTES) }
    {
        let (bytes, begin, end) = texts.held(k);
        self.make_room();
        let is_short = end - begin <= SHORT_BYTES && SHORT_BYTES <= bytes.len() - begin;
        let has_room = SHORT_BYTES <= self.kept.len() - self.count;
        if is_short && has_room && !self.has_failed {
            let front = &bytes[begin..begin + SHORT_BYTES];
            self.count = put_front(self.kept.as_mut_slice(), self.count, front, end - begin);
        } else {
            self.push(writer, &bytes[begin..end]);
        }
    }

    /// The text ends: what is kept back is written, and the writer is flushed. Returns whether the
    /// writer took and flushed all of the text.
    pub fn finish<W: Writer>(self, writer: &mut W) -> bool
        ensures { Finishes W.contents W.wrote W.settled result writer.old self writer.new }
    {
        !self.has_failed && write_text(writer, &self.kept[..self.count])
    }
}
