ghost use Rattle.std.specs.Prelude.{◌≡◌, ◌-◌, ◌<◌, ◌≤◌, ◌&&◌, true, get_or, length, replicate, slice_set, drop, take, IfOk, List, Bool};
ghost use Rattle.ir_core.specs.{declared.TheConstants.MAX_LINKS, Marks.{EndsDown, marks_in, word_up, with_rest_up}};
ghost use Rattle.ir_core.specs.{Marks.{words_in, both, AreWords}, MarkLaws.{words_in-marks_in}};

use crate::MAX_LINKS;
use std::alloc::{AllocError, Global};
use std::marker::Model;

/// How many links a word marks.
pub const WORD_LINKS: usize = 64;

/// How many words mark all links.
pub const MARK_WORDS: usize = MAX_LINKS / WORD_LINKS;

/// A mark for each link number, up or down, in words of 64. Of the links that are heeded, one that
/// is avoided is marked down.
#[derive(Clone, Copy, Debug, PartialEq, Eq)]
pub struct Marks {
    words: [u64; MARK_WORDS],
}

impl Model for Marks {
    ghost Value = { List Bool };

    ghost view = { λ m. marks_in m.words };

    ghost invariant = { λ m. AreWords m.words };

    ghost inverse = { λ marks. record { words = words_in marks } };

    ghost inverse_ok = { λ m h i. record { words = words_in-marks_in m.words h i } };
}

impl Marks {
    /// All links are up.
    pub fn all_up() -> Marks
        ensures { result ≡ replicate MAX_LINKS true }
    {
        Marks {
            words: [u64::MAX; MARK_WORDS],
        }
    }

    // Does nothing; a caller's proof learns by it how many marks there are.
    fn invariant(&self)
        ensures { length self.now ≡ MAX_LINKS }
    {
        self.words.iter();
    }

    /// Whether a link is up; true where the number is no link.
    pub fn is_up(&self, link: usize) -> bool
        ensures { result ≡ get_or self.now link true }
    {
        if link < MAX_LINKS {
            self.words[link / WORD_LINKS] >> (link % WORD_LINKS) & 1 == 1
        } else {
            true
        }
    }

    /// Marks one link.
    pub fn mark(&mut self, link: usize, up: bool)
        requires { link < MAX_LINKS }
        ensures { self.new ≡ slice_set self.old link up }
    {
        let word = self.words[link / WORD_LINKS];
        let bit = 1 << (link % WORD_LINKS);
        self.words[link / WORD_LINKS] = if up { word | bit } else { word & !bit };
    }

    /// The marks of the first links, as a list.
    pub fn first(&self, alloc: Global, links: usize) -> Result<Vec<bool>, AllocError>
        requires { links ≤ MAX_LINKS }
        ensures marks { IfOk result (λ v. v.items ≡ take links self.now) }
        ensures count { IfOk result (λ v. length v.items ≡ links) }
    {
        self.invariant();
        let mut marks = Vec::with_capacity(alloc, links)?;
        for link in 0..links {
            marks.push(self.is_up(link))?;
        }
        Ok(marks)
    }

    /// The marks of the first links that are up here and in others, as a list.
    pub fn first_of_both(
        &self,
        other: &Marks,
        alloc: Global,
        links: usize,
    ) -> Result<Vec<bool>, AllocError>
        requires { links ≤ MAX_LINKS }
        ensures marks { IfOk result (λ v. v.items ≡ both (take links self.now) (take links other.now)) }
        ensures count { IfOk result (λ v. length v.items ≡ links) }
    {
        self.invariant();
        other.invariant();
        let mut marks = Vec::with_capacity(alloc, links)?;
        for link in 0..links {
            marks.push(each(self.is_up(link), other.is_up(link)))?;
        }
        Ok(marks)
    }

    /// The words up to the last one with a link that is down.
    pub fn to_words(&self, alloc: Global) -> Result<Vec<u64>, AllocError>
        ensures marks { IfOk result (λ v. marks_in (with_rest_up v.items) ≡ self.now) }
        ensures count { IfOk result (λ v. length v.items ≤ MARK_WORDS) }
        ensures last { IfOk result (λ v. EndsDown v.items) }
    {
        let count = words_with_down(&self.words);
        self.words[..count].to_vec(alloc)
    }

    /// The marks in these words, where the links after them are up.
    pub fn from_words(words: &[u64]) -> Marks
        requires { length words.now ≤ MARK_WORDS }
        ensures { result ≡ marks_in (with_rest_up words.now) }
    {
        let mut all = [u64::MAX; MARK_WORDS];
        all[..words.len()].copy_from_slice(words);
        Marks { words: all }
    }
}

/// Whether each of the two is true.
fn each(a: bool, b: bool) -> bool
    ensures { result ≡ a && b }
{
    a && b
}

/// How many words there are up to the last one with a link that is down.
fn words_with_down(words: &[u64; MARK_WORDS]) -> usize
    ensures count { result ≤ MARK_WORDS }
    ensures rest { drop result words.now ≡ replicate (MARK_WORDS - result) word_up }
    ensures last { EndsDown (take result words.now) }
{
    let mut count = 0;
    for (k, word) in words.iter().enumerate() {
        if *word != u64::MAX {
            count = k + 1;
        }
    }
    count
}
