//! Readers whose calls contracts can speak of, and all that a reader gives.
ghost use Rattle.std.specs.Prelude.{◌≡◌, ◌<◌, ◌≤◌, ◌++◌, ℕ, List, Option, Result, Ok, Err, IfOk, IfErr, OnOk, MatchResult, length, take};
ghost use Rattle.std.specs.Io.{ReadsAtMost, KnownBytes.ReadConsumes};
ghost use Rattle.ir_streams.specs.{declared.call.CallError.CallError, Reading.{GivesFrom, IsRead, IsStopped, RefusesInput}};

use crate::call::CallError;
use crate::{MAX_INPUT_BYTES, MAX_READS};
use std::alloc::Global;
use std::io::Read;
use thiserror::Error;

/// A reader, with a word for each of its calls: so a contract can say that a call failed. Each
/// `std::io::Read` is one.
pub trait Reader {
    // the bytes that calls will give from here on, where they are known
    ghost remaining: { Self → Option (List ℕ) };

    // a call of `get`: the reader before it, the bytes that it gave or why it gave none, and the reader after it
    ghost gave: { Self → Result (List ℕ) CallError → Self → Type 0 };

    /// Puts some of the bytes that are left at the front of the room, and answers how many: none at
    /// the end alone. Condition: there is room.
    fn get(&mut self, room: &mut [u8]) -> Result<usize, CallError>
        requires { 0 < length room.old }
        ensures call { MatchResult result (λ n. gave self.old (Ok (take n room.new)) self.new)
            (λ e. gave self.old (Err e) self.new) }
        ensures bound { ReadsAtMost result room.new }
        ensures bytes { ReadConsumes (remaining self.old) (remaining self.new) result room.new };
}

impl<R: Read> Reader for R {
    ghost remaining = { R.remaining };

    // what `std::io::Read` says of a call
    ghost gave = { λ old given new. GivesFrom (R.remaining old) (R.remaining new) given };

    fn get(&mut self, room: &mut [u8]) -> Result<usize, CallError> {
        self.read(room).map_err(CallError::of)
    }
}

/// Why an input was not read.
#[derive(Clone, Copy, Debug, PartialEq, Eq, Error)]
#[error("{:?}", self)]
pub enum NoInput {
    /// A call of the reader failed.
    Unreadable,
    /// There are more bytes than an input may have, or the reader was called too often.
    TooLarge,
    NoMemory,
}

/// Keeps some more bytes of an input.
fn keep(text: &mut Vec<u8>, bytes: &[u8]) -> Result<(), NoInput>
    ensures kept { OnOk result (text.new.items ≡ text.old.items ++ bytes.now) }
    ensures small { OnOk result (length text.new.items ≤ MAX_INPUT_BYTES) }
    ensures refused { IfErr result (RefusesInput (length (text.old.items ++ bytes.now))) }
{
    if text.extend_from_slice(bytes).is_err() {
        return Err(NoInput::NoMemory);
    }
    if text.len() > MAX_INPUT_BYTES {
        return Err(NoInput::TooLarge);
    }
    Ok(())
}

/// All that a reader gives. A call that was interrupted is made again; the calls are `MAX_READS` at most.
pub fn read_text<R: Reader>(alloc: Global, reader: &mut R) -> Result<Vec<u8>, NoInput>
    ensures read { IfOk result (λ text. IsRead R.remaining R.gave reader.old text.items reader.new) }
    ensures stopped { IfErr result (λ why. IsStopped R.remaining R.gave why reader.old reader.new) }
{
    let mut text = Vec::new(alloc);
    let mut room = [0; 8192];
    for _turn in 0..MAX_READS {
        match reader.get(&mut room) {
            Ok(0) => return Ok(text),
            Ok(n) => {
                if let Err(why) = keep(&mut text, &room[..n]) {
                    return Err(why);
                }
            }
            Err(CallError::Interrupted) => {}
            Err(CallError::Failed) => return Err(NoInput::Unreadable),
        }
    }
    Err(NoInput::TooLarge)
}
