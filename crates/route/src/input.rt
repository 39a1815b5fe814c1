//! The inputs of the program.
ghost use Rattle.std.specs.Prelude.{OnOk};
ghost use Rattle.std.specs.Io.{ReadsAtMost, KnownBytes.ReadConsumes};
ghost use Rattle.route.specs.Held.{left_of, HasKept, IsThere};

use ir_explain::{Given, Trouble};
use std::fs::File;
use std::io;
use std::io::{Read, Stdin};

/// Where an input is read: a file, or a stream.
#[derive(Drop)]
enum Origin<F, S> {
    File(F),
    Standard(S),
    /// A file that can't be opened.
    Missing,
}

/// A file, standard input, or a file that can't be opened, beside what was read of it and what kept it from being read.
#[derive(Drop)]
pub struct Input<F, S> {
    origin: Origin<F, S>,
    trouble: Trouble,
    /// None where nothing is kept, and where memory for it was refused.
    kept: Option<Vec<u8>>,
}

/// What kept a file from being opened or read.
fn trouble_of(kind: io::ErrorKind) -> Trouble {
    match kind {
        io::ErrorKind::NotFound => Trouble::Missing,
        io::ErrorKind::PermissionDenied => Trouble::Forbidden,
        io::ErrorKind::IsADirectory => Trouble::Directory,
        _ => Trouble::Failed,
    }
}

/// The input of a name: `-` is standard input. What is read of it is kept if that is wanted.
pub fn open(rt: &HostRuntime, name: &str, is_kept: bool) -> Input<File, Stdin> {
    let kept = if is_kept {
        Some(Vec::new(rt.alloc()))
    } else {
        None
    };
    let (origin, trouble) = if name == "-" {
        (Origin::Standard(rt.stdin()), Trouble::Unknown)
    } else {
        match File::open(rt, name) {
            Ok(file) => (Origin::File(file), Trouble::Unknown),
            Err(error) => (Origin::Missing, trouble_of(error.kind())),
        }
    };
    Input {
        origin,
        trouble,
        kept,
    }
}

impl<F, S> Input<F, S> {
    /// What was given of it; none where that is not kept, or memory for it was refused.
    pub fn given(&self) -> Option<Given<'_>> {
        let bytes = self.kept.as_ref()?.as_slice();
        let trouble = self.trouble;
        Some(Given { bytes, trouble })
    }
}

/// Keeps some more bytes, if they are wanted. None are kept from then on where memory for them is refused.
fn keep(kept: &mut Option<Vec<u8>>, bytes: &[u8])
    ensures { HasKept kept.old bytes.now kept.new }
{
    if let Some(all) = kept {
        if all.extend_from_slice(bytes).is_err() {
            *kept = None;
        }
    }
}

/// A call that reads the origin of an input.
fn read_origin<F: Read, S: Read>(origin: &mut Origin<F, S>, room: &mut [u8]) -> io::Result<usize>
    ensures bound { ReadsAtMost result room.new }
    ensures bytes { ReadConsumes (left_of F.remaining S.remaining origin.old)
        (left_of F.remaining S.remaining origin.new) result room.new }
    ensures missing { OnOk result (IsThere origin.old) }
{
    match origin {
        Origin::File(file) => file.read(room),
        Origin::Standard(stream) => stream.read(room),
        Origin::Missing => Err(io::ErrorKind::NotFound.into()),
    }
}

impl<F: Read, S: Read> Read for Input<F, S> {
    // what the file or the stream will give
    ghost remaining = { λ input. left_of F.remaining S.remaining input.origin };

    fn read(&mut self, room: &mut [u8]) -> io::Result<usize> {
        match read_origin(&mut self.origin, room) {
            Ok(taken) => {
                keep(&mut self.kept, &room[..taken]);
                Ok(taken)
            }
            Err(error) => {
                if self.trouble == Trouble::Unknown && error.kind() != io::ErrorKind::Interrupted {
                    self.trouble = trouble_of(error.kind());
                }
                Err(error)
            }
        }
    }
}
