//! How far a plan is, on a terminal.
use crate::terminal::tell;
use std::alloc::AllocError;
use std::io::IsTerminal;
use std::sync::atomic::{AtomicBool, AtomicU64, Ordering};
use std::time::Instant;

/// How many milliseconds pass before anything is said.
const PATIENCE: u64 = 1_000;

/// How many milliseconds a line stays at least.
const PAUSE: u64 = 100;

/// The fewest rows after which a line says that walks are counted.
const MANY: usize = 2_048;

/// A line on standard error that says how many rows of a plan are made, where that is a terminal and the command has
/// run for a second. It goes away with the plan's last row; where figures are wanted and rows are many, a line that
/// says so stays from then on to the output. Threads that make rows write it by turns.
#[derive(Drop)]
pub struct Progress<'a> {
    rt: &'a HostRuntime,
    /// The program's name.
    name: &'static str,
    /// Since when; None where nothing is to be said.
    begun: Option<Instant>,
    /// Whether walks are counted once all rows are made.
    is_counted: bool,
    rows: AtomicU64,
    /// The millisecond of the last line; 0 where there was none.
    told: AtomicU64,
    is_telling: AtomicBool,
    is_over: AtomicBool,
    is_shown: AtomicBool,
}

impl Progress<'_> {
    /// Begins now, if anything is to be said.
    pub fn new<'a>(
        rt: &'a HostRuntime,
        name: &'static str,
        is_wanted: bool,
        is_counted: bool,
    ) -> Progress<'a> {
        let begun = if is_wanted && rt.stderr().is_terminal() {
            Instant::now(rt).ok()
        } else {
            None
        };
        Progress {
            rt,
            name,
            begun,
            is_counted,
            rows: AtomicU64::new(0),
            told: AtomicU64::new(0),
            is_telling: AtomicBool::new(false),
            is_over: AtomicBool::new(false),
            is_shown: AtomicBool::new(false),
        }
    }

    /// Takes the line away, if there is one.
    pub fn clear(&self) {
        if self.is_shown.swap(false, Ordering::SeqCst) {
            tell(self.rt, "\r\x1b[K");
        }
    }

    /// Whether a line is due. Of several threads that ask at a time one is told so.
    fn is_due(&self, begun: &Instant) -> bool {
        let Ok(passed) = begun.elapsed(self.rt) else {
            return false;
        };
        let now = passed.as_millis().min(u64::MAX as u128) as u64;
        let told = self.told.load(Ordering::SeqCst);
        now >= PATIENCE
            && now.saturating_sub(told) >= PAUSE
            && self
                .told
                .compare_exchange(told, now, Ordering::SeqCst, Ordering::SeqCst)
                .is_ok()
    }

    /// Writes a line.
    fn show(&self, line: Result<String, AllocError>) {
        if let Ok(line) = line {
            tell(self.rt, line.as_str());
            self.is_shown.store(true, Ordering::SeqCst);
        }
    }

    /// Takes the line of rows away, if any was written, and says that walks are counted where that takes long.
    fn close(&self, all: usize) {
        self.is_shown
            .store(self.told.load(Ordering::SeqCst) > 0, Ordering::SeqCst);
        self.clear();
        if self.is_counted && all >= MANY {
            let name = self.name;
            self.show(format!(in self.rt.alloc();
                "\r{name}: {all} rows are made; their paths are measured"
            ));
        }
    }

    /// Ends the line with the last row, or leaves that to the thread that writes it just now.
    fn end(&self, all: usize) {
        self.is_over.store(true, Ordering::SeqCst);
        if !self.is_telling.load(Ordering::SeqCst) {
            self.close(all);
        }
    }

    /// Writes the line of rows, unless another thread does.
    fn tell(&self, made: u64, all: usize) {
        if self.is_telling.swap(true, Ordering::SeqCst) {
            return;
        }
        let name = self.name;
        self.show(format!(in self.rt.alloc(); "\r{name}: {made} of {all} rows"));
        self.is_telling.store(false, Ordering::SeqCst);
        if self.is_over.load(Ordering::SeqCst) {
            self.close(all);
        }
    }

    /// So many more rows are made, of a plan with `all` rows, which are made in no order. It is called by the threads
    /// that make them.
    pub fn rows_made(&self, count: usize, all: usize) {
        let Some(begun) = &self.begun else {
            return;
        };
        if all == 0 {
            return;
        }
        let before = self.rows.fetch_add(count as u64, Ordering::SeqCst) % all as u64;
        if before == 0 {
            self.is_over.store(false, Ordering::SeqCst);
            self.clear();
        }
        let made = before.saturating_add(count as u64);
        if made >= all as u64 {
            self.end(all);
        } else if self.is_due(begun) {
            self.tell(made, all);
        }
    }
}
