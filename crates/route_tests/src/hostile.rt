//! The stored run of `route` under hostile use: texts that are cut off or changed, readers that fail or do not end.
//! Also writers that fail, that are interrupted, or that keep nothing before they are flushed.

ghost use Rattle.std.specs.Prelude.{IfOk};
ghost use Rattle.ir_cli.specs.Words.{FitsItsKind};

use ir_cli::status_of;
use ir_shell::{
    Several, Sub, Team, Words, WordsError, follow, read_words, run_live_text, sources_of,
};
use std::alloc::Global;
use std::io;
use std::io::{Read, Write};
use std::sync::Wait;
use std::thread::Threads;

/// The stored run, what it prints, and the same with its trace.
const INPUT: &str = "a b\nb c\n%%\ninject a c\ndrain\n";

const TRACE: &str = "trace 1\n0 1 a c 2 delivered a b c\n";

const CHECKED: &str = "a b\nb c\n%%\ninject a c\ndrain\n%%\ntrace 1\n0 1 a c 2 delivered a b c\n";

/// What follows the text of a reader.
#[derive(Clone, Copy)]
enum Behind {
    Nothing,
    /// A failure.
    Failure,
    /// The letter a, without an end.
    Letters,
}

/// A reader that gives a text byte by byte. Where it is interrupted, each other call is.
#[derive(Clone, Copy)]
struct Source<'a> {
    text: &'a [u8],
    behind: Behind,
    is_interrupted: bool,
    is_due: bool,
}

impl<'a> Source<'a> {
    fn of(text: &'a [u8], behind: Behind) -> Source<'a> {
        Source {
            text,
            behind,
            is_interrupted: false,
            is_due: false,
        }
    }
}

impl<'a> Read for Source<'a> {
    fn read(&mut self, room: &mut [u8]) -> io::Result<usize> {
        self.is_due = self.is_interrupted && !self.is_due;
        if self.is_due {
            return Err(io::ErrorKind::Interrupted.into());
        }
        if !self.text.is_empty() {
            let n = room.len().min(1);
            return self.text.read(&mut room[..n]);
        }
        match self.behind {
            Behind::Nothing => Ok(0),
            Behind::Failure => Err(io::ErrorKind::BrokenPipe.into()),
            Behind::Letters => {
                room.fill(b'a');
                Ok(room.len())
            }
        }
    }
}

/// Which calls of a writer fail beyond those for which there is no room.
#[derive(Clone, Copy)]
enum Fails {
    Never,
    /// Each flush.
    Flushed,
    /// Each other call is interrupted.
    Often,
    /// Each call is interrupted.
    Always,
}

/// A writer that takes so many bytes, so many in one call, and then fails; it knows how many it had taken when it was
/// flushed last.
#[derive(Drop)]
struct Sink {
    taken: Vec<u8>,
    kept: usize,
    room: usize,
    at_once: usize,
    fails: Fails,
    is_due: bool,
}

impl Sink {
    /// One with room for all, which takes one byte in a call where each other call is interrupted.
    fn new(alloc: Global, fails: Fails) -> Sink {
        Sink {
            taken: Vec::new(alloc),
            kept: 0,
            room: 4_096,
            at_once: match fails {
                Fails::Often => 1,
                _ => 4_096,
            },
            fails,
            is_due: false,
        }
    }

    fn is_interrupted(&mut self) -> bool {
        self.is_due = !self.is_due;
        match self.fails {
            Fails::Never | Fails::Flushed => false,
            Fails::Often => self.is_due,
            Fails::Always => true,
        }
    }

    /// Whether it took this text.
    fn took(&self, text: &str) -> bool {
        self.taken.as_slice() == text.as_bytes()
    }

    /// Whether it was flushed since it took the last of its bytes.
    fn is_kept(&self) -> bool {
        self.kept == self.taken.len()
    }
}

impl Write for Sink {
    fn write(&mut self, bytes: &[u8]) -> io::Result<usize> {
        if self.is_interrupted() {
            return Err(io::ErrorKind::Interrupted.into());
        }
        let n = bytes.len().min(self.room).min(self.at_once);
        if n == 0 {
            return Err(io::ErrorKind::BrokenPipe.into());
        }
        self.taken.extend_from_slice(&bytes[..n])?;
        self.room -= n;
        Ok(n)
    }

    fn flush(&mut self) -> io::Result<()> {
        if self.is_interrupted() {
            return Err(io::ErrorKind::Interrupted.into());
        }
        if matches!(self.fails, Fails::Flushed) {
            return Err(io::ErrorKind::StorageFull.into());
        }
        self.kept = self.taken.len();
        Ok(())
    }
}

/// What a subcommand over one input asks for.
fn asked(alloc: Global, sub: &str) -> Result<Words, WordsError>
    ensures { IfOk result (λ words. FitsItsKind words) }
{
    let mut all: Vec<String> = Vec::new(alloc);
    all.push(String::from_str(alloc, sub)?)?;
    all.push(String::from_str(alloc, "-")?)?;
    read_words(alloc, all.as_slice())
}

/// The status of a run over one input; 255 where its words ask for more.
fn status<T: Threads + Wait + Sync>(
    rt: &T,
    alloc: Global,
    words: &Words,
    source: Source<'_>,
    output: &mut Sink,
    faults: &mut Sink,
) -> u8
    requires { FitsItsKind words.now }
{
    let mut inputs = [source];
    if inputs.len() != sources_of(words).len() {
        return 255;
    }
    let crew = Several { rt, most: None };
    let team = Team { rt, crew: &crew };
    status_of(follow(&team, alloc, words, &mut inputs, output, faults).ending)
}

/// Whether a run over a text ends with status 0 or 1.
fn ends<T: Threads + Wait + Sync>(rt: &T, alloc: Global, words: &Words, text: &[u8]) -> bool
    requires { FitsItsKind words.now }
{
    let mut output = Sink::new(alloc, Fails::Never);
    let mut faults = Sink::new(alloc, Fails::Never);
    let source = Source::of(text, Behind::Nothing);
    status(rt, alloc, words, source, &mut output, &mut faults) <= 1
}

/// Whether runs over a text with a byte in place of the one here end with status 0 or 1.
fn end_changed<T: Threads + Wait + Sync>(
    rt: &T,
    alloc: Global,
    words: &Words,
    changed: &mut [u8],
    i: usize,
) -> bool
    requires { FitsItsKind words.now }
{
    if i >= changed.len() {
        return false;
    }
    for byte in &[0, b'\n', b' ', b'#', b'%', 0xC3, b'b'] {
        changed[i] = *byte;
        if !ends(rt, alloc, words, changed) {
            return false;
        }
    }
    true
}

/// Whether runs over each front of a text, and over the text with each byte changed, end with status 0 or 1.
fn all_end<T: Threads + Wait + Sync>(rt: &T, alloc: Global, words: &Words, text: &str) -> bool
    requires { FitsItsKind words.now }
{
    let bytes = text.as_bytes();
    for i in 0..bytes.len() {
        if !ends(rt, alloc, words, &bytes[..i]) {
            return false;
        }
        let Ok(mut changed) = Vec::from_slice(alloc, bytes) else {
            return false;
        };
        if !end_changed(rt, alloc, words, changed.as_mut_slice(), i) {
            return false;
        }
    }
    true
}

/// Subcommands over one input, and a text.
static TEXTS: [(&'static str, &'static str); 4] = [
    ("sim", INPUT),
    ("sim", CHECKED),
    ("check", INPUT),
    ("check", CHECKED),
];

/// Whether runs over all of these end so.
fn texts_end<T: Threads + Wait + Sync>(rt: &T, alloc: Global) -> bool {
    for (sub, text) in &TEXTS {
        let Ok(words) = asked(alloc, sub) else {
            return false;
        };
        if !all_end(rt, alloc, &words, text) {
            return false;
        }
    }
    true
}

/// Whether a reader that fails after each front of the stored run is reported.
fn are_unreadable<T: Threads + Wait + Sync>(rt: &T, alloc: Global, sub: &str) -> bool {
    let Ok(words) = asked(alloc, sub) else {
        return false;
    };
    let bytes = INPUT.as_bytes();
    for k in 0..bytes.len() + 1 {
        let mut output = Sink::new(alloc, Fails::Never);
        let mut faults = Sink::new(alloc, Fails::Never);
        let source = Source::of(&bytes[..k], Behind::Failure);
        if status(rt, alloc, &words, source, &mut output, &mut faults) != 1 {
            return false;
        }
        if !output.taken.is_empty() || !faults.took("input unreadable\n") {
            return false;
        }
    }
    true
}

/// Whether a writer that fails after each front of the trace is reported.
fn are_unwritable<T: Threads + Wait + Sync>(rt: &T, alloc: Global) -> bool {
    let Ok(words) = asked(alloc, "sim") else {
        return false;
    };
    let trace = TRACE.as_bytes();
    for k in 0..trace.len() {
        let mut faults = Sink::new(alloc, Fails::Never);
        let mut output = Sink::new(alloc, Fails::Never);
        output.room = k;
        let source = Source::of(INPUT.as_bytes(), Behind::Nothing);
        if status(rt, alloc, &words, source, &mut output, &mut faults) != 1 {
            return false;
        }
        if output.taken.as_slice() != &trace[..k] || !faults.took("output unwritable\n") {
            return false;
        }
    }
    true
}

/// A run: what is read and how the writers fail, and the status, what the writers take, and whether all of the output
/// is flushed. The reader is interrupted where the output is.
struct Case {
    name: &'static str,
    sub: &'static str,
    text: &'static str,
    behind: Behind,
    fails: (Fails, Fails),
    status: u8,
    output: &'static str,
    faults: &'static str,
    is_kept: bool,
}

static CASES: [Case; 8] = [
    Case {
        name: "interrupted at each call",
        sub: "sim",
        text: INPUT,
        behind: Behind::Nothing,
        fails: (Fails::Often, Fails::Never),
        status: 0,
        output: TRACE,
        faults: "",
        is_kept: true,
    },
    Case {
        name: "an input without an end",
        sub: "sim",
        text: INPUT,
        behind: Behind::Letters,
        fails: (Fails::Never, Fails::Never),
        status: 1,
        output: "",
        faults: "input too large\n",
        is_kept: true,
    },
    Case {
        name: "an output that is always interrupted",
        sub: "sim",
        text: INPUT,
        behind: Behind::Nothing,
        fails: (Fails::Always, Fails::Never),
        status: 1,
        output: "",
        faults: "output unwritable\n",
        is_kept: true,
    },
    Case {
        name: "faults that are always interrupted",
        sub: "sim",
        text: "",
        behind: Behind::Nothing,
        fails: (Fails::Never, Fails::Always),
        status: 1,
        output: "",
        faults: "",
        is_kept: true,
    },
    Case {
        name: "a flush that fails, of a trace",
        sub: "sim",
        text: INPUT,
        behind: Behind::Nothing,
        fails: (Fails::Flushed, Fails::Never),
        status: 1,
        output: TRACE,
        faults: "output unwritable\n",
        is_kept: false,
    },
    Case {
        name: "a flush that fails, of a check",
        sub: "check",
        text: CHECKED,
        behind: Behind::Nothing,
        fails: (Fails::Flushed, Fails::Never),
        status: 1,
        output: "ok 1\n",
        faults: "output unwritable\n",
        is_kept: false,
    },
    Case {
        name: "a trace is flushed",
        sub: "sim",
        text: INPUT,
        behind: Behind::Nothing,
        fails: (Fails::Never, Fails::Flushed),
        status: 0,
        output: TRACE,
        faults: "",
        is_kept: true,
    },
    Case {
        name: "a check is flushed",
        sub: "check",
        text: CHECKED,
        behind: Behind::Nothing,
        fails: (Fails::Never, Fails::Flushed),
        status: 0,
        output: "ok 1\n",
        faults: "",
        is_kept: true,
    },
];

/// Whether a run ends as it is to.
fn is_so<T: Threads + Wait + Sync>(rt: &T, alloc: Global, case: &Case) -> bool {
    let Ok(words) = asked(alloc, case.sub) else {
        return false;
    };
    let mut output = Sink::new(alloc, case.fails.0);
    let mut faults = Sink::new(alloc, case.fails.1);
    let mut source = Source::of(case.text.as_bytes(), case.behind);
    source.is_interrupted = matches!(case.fails.0, Fails::Often);
    let status = status(rt, alloc, &words, source, &mut output, &mut faults);
    status == case.status
        && output.took(case.output)
        && output.is_kept() == case.is_kept
        && faults.took(case.faults)
        && faults.is_kept()
}

/// Whether the stored run as a live one, and nothing else, prints its trace.
fn is_live<T: Threads + Wait + Sync>(rt: &T, alloc: Global) -> bool {
    let Ok(words) = asked(alloc, "live") else {
        return false;
    };
    let mut output = Sink::new(alloc, Fails::Often);
    let mut faults = Sink::new(alloc, Fails::Never);
    let mut inputs = [Source::of(INPUT.as_bytes(), Behind::Nothing)];
    if words.sub != Sub::Live || inputs.len() != sources_of(&words).len() {
        return false;
    }
    let status = run_live_text(rt, alloc, &words, &mut inputs, &mut output, &mut faults);
    status == 0 && output.took(TRACE) && output.is_kept() && faults.took("")
}

/// The first of these runs that ends otherwise.
pub(crate) fn wrong<T: Threads + Wait + Sync>(rt: &T, alloc: Global) -> Option<&'static str> {
    if !texts_end(rt, alloc) {
        return Some("a text that is cut off or changed");
    }
    if !are_unreadable(rt, alloc, "sim") || !are_unreadable(rt, alloc, "check") {
        return Some("a reader that fails");
    }
    if !are_unwritable(rt, alloc) {
        return Some("a writer that fails");
    }
    if !is_live(rt, alloc) {
        return Some("a live run by itself");
    }
    for case in &CASES {
        if !is_so(rt, alloc, case) {
            return Some(case.name);
        }
    }
    None
}
