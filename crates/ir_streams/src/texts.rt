//! Texts that are written again and again.
ghost use Rattle.std.specs.Prelude.{◌≡◌, ◌<◌, ◌≤◌, ◌++◌, [], ◌∷◌, IfOk, OnOk, length, slice_index_or, slice_range, List, ℕ};
ghost use Rattle.ir_streams.specs.Texts.{pooled_texts, ArePooled};

use std::alloc::{AllocError, Global};
use std::marker::Model;

/// Texts one after the other, each with where it begins and where it ends.
#[derive(Drop)]
pub struct Texts {
    bytes: Vec<u8>,
    spans: Vec<(usize, usize)>,
}

impl Model for Texts {
    ghost Value = { List (List ℕ) };

    ghost view = { pooled_texts };

    ghost invariant = { ArePooled };
}

impl Texts {
    /// None yet, with room for so many. It is refused for memory alone.
    pub fn with_capacity(alloc: Global, count: usize) -> Result<Texts, AllocError>
        ensures { IfOk result (λ texts. texts ≡ []) }
    {
        Ok(Texts {
            bytes: Vec::new(alloc),
            spans: Vec::with_capacity(alloc, count)?,
        })
    }

    /// How many there are.
    pub fn len(&self) -> usize
        ensures { result ≡ length self.now }
    {
        self.spans.len()
    }

    /// One more text after the others. It is refused for memory alone; then they are as they were.
    pub fn push(&mut self, text: &[u8]) -> Result<(), AllocError>
        ensures more { OnOk result (self.new ≡ self.old ++ text.now ∷ []) }
    {
        let begin = self.bytes.len();
        self.bytes.extend_from_slice(text)?;
        self.spans.push((begin, self.bytes.len()))?;
        Ok(())
    }

    /// All bytes, and where the text at a place begins and ends in them. Condition: there is such a text.
    #[inline(always)]
    pub(crate) fn held(&self, k: usize) -> (&[u8], usize, usize)
        requires { k < length self.now }
        ensures order { result.1 ≤ result.2 }
        ensures within { result.2 ≤ length result.0.now }
        ensures text { slice_range result.0.now result.1 result.2 ≡ slice_index_or self.now k [] }
    {
        let (begin, end) = self.spans[k];
        (self.bytes.as_slice(), begin, end)
    }
}
