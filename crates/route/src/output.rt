//! Where the output of the program goes.
ghost use Rattle.std.specs.Prelude.{IfOk, IsErr, OnOk};
ghost use Rattle.std.specs.Io.{WritesAtMost, KnownBytes.WriteAppends};
ghost use Rattle.route.specs.Held.{held_by, IsNamed, IsOnDisk, IsOpened, IsReady, OpensFor};

use std::alloc::{AllocError, Global};
use std::fs::{File, Files, OpenFile, OpenOptions};
use std::io::Write;
use std::{fs, io};

/// The most names of files beside one that are tried.
const MOST_PARTS: usize = 1_000;

/// The most links that are followed to a file that is not there.
const MOST_LINKS: usize = 40;

/// A file whose bytes can be brought to the disk.
pub trait Durable {
    // the bytes of the file are on the disk
    ghost is_on_disk: { Self → Type 0 };

    /// Returns once all that was written is on the disk.
    fn sync(&self) -> io::Result<()>
        ensures { OnOk result (is_on_disk self.now) };
}

impl Durable for File {
    // the system's own call says so
    ghost is_on_disk = { λ _. Unit {0} };

    fn sync(&self) -> io::Result<()> {
        self.sync_all()
    }
}

/// A new file beside one whose place it takes once it is whole.
#[derive(Drop)]
struct Part<F> {
    file: F,
    name: String,
    place: String,
}

/// What takes the bytes of an output.
#[derive(Drop)]
enum Sink<F, S> {
    Standard(S),
    /// A file that nothing was written to.
    Named(String),
    Beside(Part<F>),
    /// A device or a pipe.
    Stream(F),
    /// A file that can't be opened.
    Shut,
}

/// The output of a run: standard output, or a file. A file that is regular, or not there, is written whole or not at
/// all: the bytes go to a new file in its folder, which takes its place at the end. A device or a pipe takes them as
/// they come.
#[derive(Drop)]
pub struct Output<'a, R: Files, S> {
    files: &'a R,
    alloc: Global,
    sink: Sink<R::File, S>,
}

/// A new file in the folder of another, whose place it is to take.
fn part_beside<R: Files>(files: &R, alloc: Global, place: String) -> io::Result<Part<R::File>> {
    for number in 1..=MOST_PARTS {
        let name = format!(in alloc; "{}.part-{number}", place.as_str())?;
        match File::create_new(files, name.as_str()) {
            Ok(file) => return Ok(Part { file, name, place }),
            Err(error) if error.kind() == io::ErrorKind::AlreadyExists => {}
            Err(error) => return Err(error),
        }
    }
    Err(io::ErrorKind::AlreadyExists.into())
}

/// What takes the bytes for a file that is there and may be written: one beside it, with its permissions, if it is
/// regular.
fn sink_over<R: Files, S>(
    files: &R,
    alloc: Global,
    name: &str,
    file: R::File,
) -> io::Result<Sink<R::File, S>>
    ensures { IfOk result (λ sink. IsReady sink) }
{
    let found = file.metadata()?;
    if !found.is_file() {
        return Ok(Sink::Stream(file));
    }
    let place = files.canonicalize(alloc, name)?.into_string();
    let part = part_beside(files, alloc, place)?;
    let _kept = part.file.set_permissions(found.permissions());
    Ok(Sink::Beside(part))
}

/// What a link at a place leads to.
fn led_to(alloc: Global, place: &str, target: &str) -> Result<String, AllocError> {
    match place.rsplit_once('/') {
        Some((folder, _)) if !target.starts_with('/') => format!(in alloc; "{folder}/{target}"),
        _ => String::from_str(alloc, target),
    }
}

/// The place of a file that is not there: where the name is a link, what it leads to.
fn place_of<R: Files>(files: &R, alloc: Global, name: &str) -> io::Result<String> {
    let mut place = String::from_str(alloc, name)?;
    for _ in 0..MOST_LINKS {
        match files.read_link(alloc, place.as_str()) {
            Ok(target) => place = led_to(alloc, place.as_str(), target.as_str())?,
            Err(_) => return Ok(place),
        }
    }
    Err(io::ErrorKind::NotFound.into())
}

/// What takes the bytes for the file of a name.
fn sink_of<R: Files, S>(files: &R, alloc: Global, name: &str) -> io::Result<Sink<R::File, S>>
    ensures { IfOk result (λ sink. IsReady sink) }
{
    match OpenOptions::new().write(true).open(files, name) {
        Ok(file) => sink_over(files, alloc, name, file),
        Err(error) if error.kind() == io::ErrorKind::NotFound => {
            let place = place_of(files, alloc, name)?;
            Ok(Sink::Beside(part_beside(files, alloc, place)?))
        }
        Err(error) => Err(error),
    }
}

/// A call that writes to what takes the bytes.
fn write_to<F: Write, S: Write>(sink: &mut Sink<F, S>, bytes: &[u8]) -> io::Result<usize>
    ensures bound { WritesAtMost result bytes.now }
    ensures bytes { WriteAppends (held_by F.contents S.contents sink.old) (held_by F.contents S.contents sink.new)
        result bytes.now }
{
    match sink {
        Sink::Standard(stream) => stream.write(bytes),
        Sink::Beside(part) => part.file.write(bytes),
        Sink::Stream(file) => file.write(bytes),
        Sink::Named(_) | Sink::Shut => Err(io::ErrorKind::NotFound.into()),
    }
}

/// Puts a file that is whole in its place, once its bytes are on the disk.
fn put_in_place<R: Files, F: Durable>(files: &R, part: &Part<F>) -> io::Result<()>
    ensures { OnOk result (F.is_on_disk part.now.file) }
{
    part.file.sync()?;
    fs::rename(files, part.name.as_str(), part.place.as_str())
}

impl<'a, R: Files, S: Write> Output<'a, R, S> {
    /// The output of a name, which no call is made of yet; a stream where there is none, and for `-`.
    pub fn new(
        files: &'a R,
        alloc: Global,
        name: Option<&String>,
        stream: S,
    ) -> Result<Output<'a, R, S>, AllocError>
    where
        S: Drop,
    {
        let sink = match name {
            Some(name) if name.as_str() != "-" => Sink::Named(name.clone()?),
            _ => Sink::Standard(stream),
        };
        Ok(Output { files, alloc, sink })
    }

    /// Opens the file, if nothing was written to it.
    fn open(&mut self) -> io::Result<()>
    where
        S: Drop,
        ensures opened { OnOk result (IsOpened self.old.sink self.new.sink) }
        ensures same { IsErr result → IsNamed self.old.sink }
    {
        let Sink::Named(name) = &self.sink else {
            return Ok(());
        };
        let opened = sink_of(self.files, self.alloc, name.as_str());
        self.sink = Sink::Shut;
        self.sink = opened?;
        Ok(())
    }

    /// Puts what was written in its place.
    pub fn keep(&mut self) -> io::Result<()>
    where
        S: Drop,
        R::File: Durable,
        ensures { OnOk result (IsOnDisk R.File.is_on_disk self.old.sink) }
    {
        self.open()?;
        let Sink::Beside(part) = &self.sink else {
            return Ok(());
        };
        put_in_place(self.files, part)?;
        self.sink = Sink::Shut;
        Ok(())
    }

    /// Takes away what was written beside a file.
    pub fn discard(&mut self) {
        if let Sink::Beside(part) = &self.sink {
            let _gone = fs::remove_file(self.files, part.name.as_str());
        }
    }
}

impl<R: Files, S: Write + Drop> Write for Output<'_, R, S> {
    // what the file or the stream holds
    ghost contents = { λ output. held_by R.File.contents S.contents output.sink };

    fn write(&mut self, bytes: &[u8]) -> io::Result<usize>
        ensures bound { WritesAtMost result bytes.now }
        ensures bytes { WriteAppends (held_by R.File.contents S.contents self.old.sink)
            (held_by R.File.contents S.contents self.new.sink) result bytes.now }
        ensures opened { OnOk result (OpensFor (held_by R.File.contents S.contents) self.old.sink self.new.sink
            result bytes.now) }
    {
        self.open()?;
        write_to(&mut self.sink, bytes)
    }

    fn flush(&mut self) -> io::Result<()> {
        match &mut self.sink {
            Sink::Standard(stream) => stream.flush(),
            Sink::Beside(part) => part.file.flush(),
            Sink::Stream(file) => file.flush(),
            Sink::Named(_) | Sink::Shut => Ok(()),
        }
    }
}
