//! Texts that are written to memory.
ghost use Rattle.std.specs.Prelude.{◌≡◌, [], None, Ok, true, false, IfOk, OnErr};
ghost use Rattle.page.specs.Kept.{TakesAll, SettlesAll};

use ir_streams::{CallError, Writer};
use std::alloc::{AllocError, Global};

/// A text in memory, as it is written. It takes all bytes, and notes where memory for them was refused.
#[derive(Drop)]
pub struct Kept {
    bytes: Vec<u8>,
    is_short: bool,
}

impl Kept {
    /// No text yet, with room for so many bytes. It is refused for memory alone.
    pub fn with_room(alloc: Global, room: usize) -> Result<Kept, AllocError>
        ensures bytes { IfOk result (λ kept. kept.bytes.items ≡ []) }
        ensures whole { IfOk result (λ kept. kept.is_short ≡ false) }
    {
        Ok(Kept {
            bytes: Vec::with_capacity(alloc, room)?,
            is_short: false,
        })
    }

    /// All that was written. It is refused where memory for some of it was, and nowhere else.
    pub fn whole(self) -> Result<Vec<u8>, AllocError>
        ensures bytes { IfOk result (λ bytes. bytes ≡ self.bytes) }
        ensures whole { IfOk result (λ _. self.is_short ≡ false) }
        ensures refused { OnErr result (self.is_short ≡ true) }
    {
        if self.is_short {
            return Err(AllocError);
        }
        Ok(self.bytes)
    }
}

impl Writer for Kept {
    ghost contents = { λ _. None };

    // all is taken, or noted as not taken
    ghost wrote = { TakesAll };

    ghost settled = { SettlesAll };

    fn put(&mut self, bytes: &[u8]) -> Result<usize, CallError> {
        if self.bytes.extend_from_slice(bytes).is_err() {
            self.is_short = true;
        }
        Ok(bytes.len())
    }

    fn settle(&mut self) -> Result<(), CallError> {
        Ok(())
    }
}
