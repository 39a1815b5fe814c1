//! The writers of the program.
ghost use Rattle.std.specs.Prelude.{None, cond};

use crate::progress::Progress;
use std::cell::Cell;
use std::io;
use std::io::Write;

/// A writer. That of the output notes where the reader of a pipe went away; that of the faults then takes what is left
/// and writes nothing, since nobody asked for more of the output. It writes nothing either where it is quiet from the
/// first. What is written takes the line of progress away.
#[derive(Drop)]
pub struct Piped<'a, W> {
    pub writer: W,
    is_output: bool,
    /// Whether it was to write anything.
    pub is_used: bool,
    is_quiet: &'a Cell<bool>,
    progress: &'a Progress<'a>,
}

impl<'a, W> Piped<'a, W> {
    /// A writer of the output or of the faults.
    pub fn new(
        writer: W,
        is_output: bool,
        is_quiet: &'a Cell<bool>,
        progress: &'a Progress<'a>,
    ) -> Piped<'a, W> {
        Piped {
            writer,
            is_output,
            is_used: false,
            is_quiet,
            progress,
        }
    }

    /// Whether nothing more is to be said: from the first, or since the reader of the output went away.
    pub fn is_quiet(&self) -> bool {
        self.is_quiet.get()
    }

    /// Notes a call of the output that failed because its reader went away.
    fn note(&self, error: &io::Error) {
        if self.is_output && error.kind() == io::ErrorKind::BrokenPipe {
            self.is_quiet.set(true);
        }
    }
}

impl<W: Write> Write for Piped<'_, W> {
    // What the writer of the output holds. Of the faults nothing is known, since those of a quiet run are not written.
    ghost contents = { λ piped. cond piped.is_output (W.contents piped.writer) None };

    fn write(&mut self, bytes: &[u8]) -> io::Result<usize> {
        self.is_used = true;
        self.progress.clear();
        if !self.is_output && self.is_quiet.get() {
            return Ok(bytes.len());
        }
        self.writer
            .write(bytes)
            .inspect_err(|error| self.note(error))
    }

    fn flush(&mut self) -> io::Result<()> {
        self.writer.flush().inspect_err(|error| self.note(error))
    }
}
