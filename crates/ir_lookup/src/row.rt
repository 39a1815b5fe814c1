ghost use Rattle.std.specs.Prelude.{◌≡◌, ◌<◌, ◌≤◌, ◌+◌, ◌*◌, ◌^◌, ℕ, length, slice_index, IsTrue, ◌↔◌, List};
ghost use Rattle.ir_model.specs.Row.{IsAscending, HasPort, labels, start_ports, Start};
ghost use Rattle.ir_lookup.specs.{Halving.Halves, Words.{start_of, starts_of}};

use crate::WORD_BASE;
use crate::halving::place_counted;
use std::marker::Model;

/// How many starts a look-up has compared; `Starts::is_above` alone counts.
#[derive(Drop)]
pub struct Compared {
    count: u32,
}

impl Model for Compared {
    ghost Value = { ℕ };

    ghost view = { λ c. c.count };
}

/// The starts of a node's intervals, ascending, each packed into a word with its port.
#[derive(Drop)]
pub struct Starts {
    words: Vec<u32>,
}

impl Model for Starts {
    ghost Value = { List Start };

    ghost view = { λ s. starts_of s.words.items };

    ghost invariant = { λ s. IsAscending (starts_of s.words.items) };
}

impl Starts {
    /// How many there are.
    pub fn len(&self) -> usize
        ensures len { result ≡ length self.now }
        ensures ascending { IsAscending self.now }
    {
        self.words.len()
    }

    /// Whether the start at a place is above `d`. It alone shows the look-up a start, and counts each time.
    pub fn is_above(&self, i: usize, d: u16, compared: &mut Compared) -> bool
        requires place { i < length self.now }
        requires room { compared.old < 2 ^ 31 }
        ensures above { IsTrue result ↔ (d < slice_index (labels self.now) i) }
        ensures counted { compared.new ≡ compared.old + 1 }
    {
        compared.count += 1;
        d < self.start(i)
    }

    // The label of the start at a place.
    fn start(&self, i: usize) -> u16
        requires { i < length self.now }
        ensures { result ≡ slice_index (labels self.now) i }
    {
        (self.words[i] / WORD_BASE) as u16
    }

    // The port of the start at a place.
    fn port(&self, i: usize) -> u16
        requires { i < length self.now }
        ensures { result ≡ slice_index (start_ports self.now) i }
    {
        (self.words[i] % WORD_BASE) as u16
    }
}

/// A row: the starts of a node's intervals in ascending order, each with the port of its interval. An interval ends
/// where the next start in cyclic order begins.
#[derive(Drop)]
pub struct Row {
    starts: Starts,
}

impl Model for Row {
    ghost Value = { List Start };

    ghost view = { λ r. r.starts };
}

impl Row {
    /// The word of a start, of which a row is made.
    #[inline(always)]
    pub fn word(label: u16, port: u16) -> u32
        ensures { let start : Start = record { label = label; port = port } in start_of result ≡ start }
    {
        label as u32 * WORD_BASE + port as u32
    }

    /// Takes over the words of a row. The labels of their starts ascend strictly; a row of no words meets that.
    pub fn of(words: Vec<u32>) -> Self
        requires { IsAscending (starts_of words.items) }
        ensures { result ≡ starts_of words.items }
    {
        Row {
            starts: Starts { words },
        }
    }

    /// How many starts there are. They are sorted.
    pub fn len(&self) -> usize
        ensures len { result ≡ length self.now }
        ensures ascending { IsAscending self.now }
    {
        self.starts.len()
    }

    /// Whether there is no start. For users of the library.
    pub fn is_empty(&self) -> bool
        ensures { IsTrue result ↔ (length self.now ≡ 0) }
    {
        self.len() == 0
    }

    /// The label of the start at a place below `len()`.
    pub fn start(&self, place: usize) -> u16
        requires { place < length self.now }
        ensures { result ≡ slice_index (labels self.now) place }
    {
        self.starts.start(place)
    }

    /// The port of the start at a place below `len()`.
    pub fn port(&self, place: usize) -> u16
        requires { place < length self.now }
        ensures { result ≡ slice_index (start_ports self.now) place }
    {
        self.starts.port(place)
    }

    /// The port of the interval that has a label, of any number of labels above it. The row is not empty. Takes O(log
    /// k), for k starts.
    pub fn find(&self, label: u16) -> u16
        requires { 0 < length self.now }
        ensures { (n : ℕ) → label < n → HasPort n self.now label result }
    {
        let (port, _) = self.find_counted(label);
        port
    }

    /// What `find` answers, and the number of starts that were compared with the label. Those halve the row until none
    /// is left: at most as many as `len()` has binary digits, and at most one less.
    pub fn find_counted(&self, label: u16) -> (u16, u32)
        requires { 0 < length self.now }
        ensures port { (n : ℕ) → label < n → HasPort n self.now label result.0 }
        ensures count { (2 ^ result.1 ≤ 2 * length self.now) × (length self.now + 1 < 2 * 2 ^ result.1) }
        ensures halves { Halves (labels self.now) label 0 (length self.now) result.1 }
    {
        let mut compared = Compared { count: 0 };
        let place = place_counted(&self.starts, label, &mut compared);
        (self.port(place), compared.count)
    }
}
