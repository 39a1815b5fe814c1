//! The longest runs of labels that one port serves.

ghost use Rattle.std.specs.Prelude.{◌≡◌, ◌≢◌, ◌<◌, ◌≤◌, ◌+◌, ◌⊎◌, ◌↔◌, ℕ, length, vec_len, IsTrue, IfOk, slice_index};
ghost use Rattle.ir_model.specs.Compiled.{label_before};
ghost use Rattle.ir_model.proofs.Best.{Marks, IsBetter, IsRowRun};
ghost use Rattle.ir_compile.specs.Runs.{HasMarked, IsKeptAt, IsServed, Keeps, KeepsBlock};

use crate::after;

/// A port: whether it may be taken, by label, and the labels with such a mark.
#[derive(Clone, Copy)]
pub struct MarkedPort<'a> {
    pub port: u16,
    pub marks: &'a [bool],
    pub labels: &'a [u16],
}

/// Takes the longest runs of a port where they are longer than those of the ports before it. The run from a label on
/// has as many labels as the port serves, the own label among them wherever it comes; at most one round. Condition:
/// its labels are those with a mark. Takes O(m), for these m labels, where each comes once; O(n) where all labels have
/// a mark.
#[inline(never)]
pub fn keep_longer(n: u16, own: u16, marked: MarkedPort, counts: &mut [u16], ports: &mut [u16])
    requires every { length marked.marks.now ≡ n }
    requires own { own < n }
    requires marked { HasMarked n marked.marks.now marked.labels.now }
    requires counts { length counts.old ≡ n }
    requires ports { length ports.old ≡ n }
    ensures counts { length counts.new ≡ n }
    ensures ports { length ports.new ≡ n }
    ensures longer { (a : ℕ) → a < n
        → IsKeptAt n own marked.entry.marks.now marked.entry.port counts.old ports.old counts.new ports.new a }
{
    if front_run(n, own, marked.marks) == n {
        keep_round(n, marked.port, counts, ports);
        return;
    }
    keep_back(n, own, marked, own, counts, ports);
    for label in marked.labels {
        keep_back(n, own, marked, *label, counts, ports);
    }
}

// Takes the runs of a port that serves all labels: a whole round from each.
fn keep_round(n: u16, port: u16, counts: &mut [u16], ports: &mut [u16])
    requires counts { length counts.old ≡ n }
    requires ports { length ports.old ≡ n }
    ensures counts { length counts.new ≡ n }
    ensures ports { length ports.new ≡ n }
    ensures longer { (a : ℕ) → a < n → IsBetter n port (slice_index counts.old a) (slice_index ports.old a)
        (slice_index counts.new a) (slice_index ports.new a) }
{
    for a in 0..n as usize {
        if counts[a] < n {
            counts[a] = n;
            ports[a] = port;
        }
    }
}

// Takes the runs that end with a label, back from it, where the label after it is not served.
fn keep_back(n: u16, own: u16, marked: MarkedPort, end: u16, counts: &mut [u16], ports: &mut [u16])
    requires every { length marked.marks.now ≡ n }
    requires own { own < n }
    requires end { end < n }
    requires counts { length counts.old ≡ n }
    requires ports { length ports.old ≡ n }
    ensures counts { length counts.new ≡ n }
    ensures ports { length ports.new ≡ n }
    ensures each { Keeps n own marked.entry.marks.now marked.entry.port counts.old ports.old counts.new ports.new }
    ensures block { KeepsBlock n own marked.entry.marks.now marked.entry.port counts.old ports.old counts.new
        ports.new end }
{
    if is_served(own, marked.marks, after(n, end)) {
        return;
    }
    let mut a = end;
    for run in 0..n {
        if !is_served(own, marked.marks, a) {
            return;
        }
        if counts[a as usize] <= run {
            counts[a as usize] = run + 1;
            ports[a as usize] = marked.port;
        }
        a = one_before(n, a);
    }
}

// The label before a.
fn one_before(n: u16, a: u16) -> u16
    requires { a < n }
    ensures label { result < n }
    ensures before { result ≡ label_before n a }
{
    if a == 0 { n - 1 } else { a - 1 }
}

// The run from the label 0 on.
fn front_run(n: u16, own: u16, row: &[bool]) -> u16
    requires every { length row.now ≡ n }
    requires own { own < n }
    ensures { IsRowRun n own row.now 0 result }
{
    for d in 0..n {
        if !is_served(own, row, d) {
            return d;
        }
    }
    n
}

// Whether the port with these marks serves the label d: it is the own one, or may take the port.
fn is_served(own: u16, row: &[bool], d: u16) -> bool
    requires { d < length row.now }
    ensures { IsTrue result ↔ IsServed own row.now d }
{
    d == own || row[d as usize]
}
