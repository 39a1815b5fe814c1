//! Writers whose calls contracts can speak of, and all of a text, to a writer.
ghost use Rattle.std.specs.{Prelude.{[], ℕ, List, Option, Result}, Io.WritesAtMost, Io.KnownBytes.{Keeps, WriteAppends}};
ghost use Rattle.ir_streams.specs.declared.call.CallError.{CallError};
ghost use Rattle.ir_streams.specs.{Writing.{PutsSome, Flushes, Calls, Writes}, Pouring.Puts};

use crate::MAX_TRIES;
use crate::call::CallError;
use std::io::Write;

/// A writer, with a word for each of its calls: so a contract can say that a call failed. Each
/// `std::io::Write` is one.
pub trait Writer {
    // the bytes that the writer holds, where they are known
    ghost contents: { Self → Option (List ℕ) };

    // a call of `put`: the writer before it, the bytes, how many it took or why it took none, and the writer after it
    ghost wrote: { Self → List ℕ → Result ℕ CallError → Self → Type 0 };

    // a call of `settle`: the writer before it, what it came to, and the writer after it
    ghost settled: { Self → Result (Unit {0}) CallError → Self → Type 0 };

    /// Writes some of the bytes, from the front on, and answers how many it took.
    fn put(&mut self, bytes: &[u8]) -> Result<usize, CallError>
        ensures call { wrote self.old bytes.now result self.new }
        ensures bound { WritesAtMost result bytes.now }
        ensures bytes { WriteAppends (contents self.old) (contents self.new) result bytes.now };

    /// Flushes the writer.
    fn settle(&mut self) -> Result<(), CallError>
        ensures call { settled self.old result self.new }
        ensures bytes { Keeps (contents self.old) (contents self.new) };
}

impl<W: Write> Writer for W {
    ghost contents = { W.contents };

    // what `std::io::Write` says of a call
    ghost wrote = { λ old bytes taken new. WriteAppends (W.contents old) (W.contents new) taken bytes };

    ghost settled = { λ old done new. Keeps (W.contents old) (W.contents new) };

    fn put(&mut self, bytes: &[u8]) -> Result<usize, CallError> {
        self.write(bytes).map_err(CallError::of)
    }

    fn settle(&mut self) -> Result<(), CallError> {
        self.flush().map_err(CallError::of)
    }
}

/// How many of the bytes the writer took. A call that was interrupted is made again; the calls are
/// `MAX_TRIES` at most.
fn put_some<W: Writer>(writer: &mut W, bytes: &[u8]) -> Result<usize, CallError>
    ensures calls { PutsSome W.wrote W.settled writer.old bytes.now result writer.new }
    ensures bound { WritesAtMost result bytes.now }
    ensures bytes { WriteAppends (W.contents writer.old) (W.contents writer.new) result bytes.now }
{
    for _turn in 0..MAX_TRIES - 1 {
        match writer.put(bytes) {
            Err(CallError::Interrupted) => {}
            outcome => return outcome,
        }
    }
    writer.put(bytes)
}

/// Flushes the writer. A call that was interrupted is made again; the calls are `MAX_TRIES` at most.
fn flush<W: Writer>(writer: &mut W) -> Result<(), CallError>
    ensures calls { Flushes W.wrote W.settled writer.old result writer.new }
    ensures bytes { Keeps (W.contents writer.old) (W.contents writer.new) }
{
    for _turn in 0..MAX_TRIES - 1 {
        match writer.settle() {
            Err(CallError::Interrupted) => {}
            outcome => return outcome,
        }
    }
    writer.settle()
}

/// Whether the writer took all of a text. After a write that failed none is made.
pub(crate) fn put_all<W: Writer>(writer: &mut W, text: &[u8]) -> bool
    ensures { Puts W.contents W.wrote W.settled result writer.old text.now writer.new [] }
{
    let mut rest = text;
    while !rest.is_empty() {
        match put_some(writer, rest) {
            Ok(0) => return false,
            Ok(n) => rest = &rest[n..],
            Err(_) => return false,
        }
    }
    true
}

/// Writes all of a text, and returns whether the writer took and flushed it. A call that was
/// interrupted is made again, `MAX_TRIES` times in a row at most. After a call that failed nothing
/// is written; what went out is a front of the text then.
pub fn write_text<W: Writer>(writer: &mut W, text: &[u8]) -> bool
    ensures calls { Calls W.wrote W.settled result writer.old text.now writer.new }
    ensures bytes { Writes result (W.contents writer.old) (W.contents writer.new) text.now }
{
    put_all(writer, text) && flush(writer).is_ok()
}
