//! Destinations compiled to a row of interval starts (van Leeuwen and Tan 1987).
#![tactic(auto)]

ghost use Rattle.std.specs.Prelude.{◌≡◌, ◌≢◌, ◌+◌, ◌*◌, ◌<◌, ◌≤◌, length, map, take, vec_len, IsTrue, IfOk, OnOk, ◌↔◌, [], ◌∷◌, ◌++◌, List, Option, ℕ};
ghost use Rattle.std.specs.Option.{unwrap_or};
ghost use Rattle.ir_model.specs.Row.{Start, intervals_of};
ghost use Rattle.ir_model.specs.Compiled.{IsDestinations, IsCanonical, Fits, IsFewest, label_after, predecessor};
ghost use Rattle.ir_compile.specs.Plain.{StandFor};
ghost use Rattle.ir_model.proofs.Partial.{IsPartial};
ghost use Rattle.ir_lookup.specs.Words.{starts_of};

mod choices;
mod error;
mod round;
mod runs;
mod sixteen;
mod words;

pub use choices::row_of_longest;
pub use error::CompileError;
use ir_lookup::Row;
pub use runs::{MarkedPort, keep_longer};
use std::alloc::{AllocError, Global};
pub use words::{WORD_PORTS, runs_by_words};

/// The canonical row of the node with the label `own` among `n` nodes, given its port to each label. Going round the
/// labels after its own, there is a start where the port differs from that of the label before. Where all ports are
/// equal there is one start, after the own label. No set of intervals that gives each label its port is smaller.
///
/// `BadRow` where `ports` does not have one entry for each of the `n` labels, `own` is no label, the own label has a
/// port, or another label has none; then `NoMemory`. Takes O(n).
pub fn compile(alloc: Global, n: u16, own: u16, ports: &[Option<u16>]) -> Result<Row, CompileError>
    ensures bad_row { (result ≡ Err CompileError.BadRow) ↔ (IsDestinations n own ports.now → ⊥) }
    ensures destinations { OnOk result (IsDestinations n own ports.now) }
    ensures canonical { IfOk result (λ row. IsCanonical n own ports.now row) }
    ensures fits { IfOk result (λ row. Fits n own ports.now (intervals_of row)) }
    ensures fewest { IfOk result (λ row. IsFewest n own ports.now (length row)) }
{
    if !is_destinations(n, own, ports) {
        return Err(CompileError::BadRow);
    }
    Ok(canonical_row(alloc, n, own, ports)?)
}

/// The row that `compile` makes, of ports that are known to be a list of destinations, which it
/// does not test. Condition: `is_destinations`. It is refused for memory alone. Takes O(n).
pub fn canonical_row(
    alloc: Global,
    n: u16,
    own: u16,
    ports: &[Option<u16>],
) -> Result<Row, AllocError>
    requires { IsDestinations n own ports.now }
    ensures canonical { IfOk result (λ row. IsCanonical n own ports.now row) }
    ensures fits { IfOk result (λ row. Fits n own ports.now (intervals_of row)) }
    ensures fewest { IfOk result (λ row. IsFewest n own ports.now (length row)) }
{
    let plain = plain_ports(alloc, ports)?;
    row_of_ports(alloc, n, own, plain.as_slice())
}

// The ports by label; 0 where there is none.
fn plain_ports(alloc: Global, ports: &[Option<u16>]) -> Result<Vec<u16>, AllocError>
    ensures { IfOk result (λ plain. plain.items ≡ map (λ port. unwrap_or port 0) ports.now) }
{
    let mut plain = Vec::with_capacity(alloc, ports.len())?;
    for port in ports {
        plain.push(port.unwrap_or(0))?;
    }
    Ok(plain)
}

/// The row that `canonical_row` makes, of ports by label that are plain numbers; whatever is at
/// the own label is passed over. Conditions: there is a port for each of `n` labels, and `own` is
/// one of them. It is refused for memory alone. Takes O(n).
pub fn row_of_ports(alloc: Global, n: u16, own: u16, plain: &[u16]) -> Result<Row, AllocError>
    requires own { own < n }
    requires every { length plain.now ≡ n }
    ensures { (ports : List (Option ℕ)) → StandFor n own plain.now ports
        → IfOk result (λ row. IsCanonical n own ports row) }
{
    let mut words = changes(alloc, n, own, plain)?;
    if words.is_empty() {
        push_only(&mut words, n, own, plain)?;
    }
    Ok(Row::of(words))
}

// The one start after the own label, where the port never changes.
fn push_only(words: &mut Vec<u32>, n: u16, own: u16, plain: &[u16]) -> Result<(), AllocError>
    requires own { own < n }
    requires every { length plain.now ≡ n }
    requires none { vec_len words.old ≡ 0 }
    ensures { (ports : List (Option ℕ)) → StandFor n own plain.now ports
        → IsPartial n own ports n (starts_of words.old.items)
        → OnOk result (IsCanonical n own ports (starts_of words.new.items)) }
{
    if n > 1 {
        let first = after(n, own);
        push_start(words, first, plain[first as usize])?;
    }
    Ok(())
}

// The starts at the labels where the port changes.
fn changes(alloc: Global, n: u16, own: u16, plain: &[u16]) -> Result<Vec<u32>, AllocError>
    requires own { own < n }
    requires every { length plain.now ≡ n }
    ensures { (ports : List (Option ℕ)) → StandFor n own plain.now ports
        → IfOk result (λ words. IsPartial n own ports n (starts_of words.items)) }
{
    let mut words = vec![in alloc; 0; n as usize]?;
    let count = mark_changes(words.as_mut_slice(), n, own, plain);
    Vec::from_slice(alloc, &words[..count])
}

// Puts the starts at the labels where the port changes to the front of words, and answers how many there are.
fn mark_changes(words: &mut [u32], n: u16, own: u16, plain: &[u16]) -> usize
    requires own { own < n }
    requires every { length plain.now ≡ n }
    requires room { length words.old ≡ n }
    ensures length { length words.new ≡ n }
    ensures few { result ≤ n }
    ensures starts { (ports : List (Option ℕ)) → StandFor n own plain.now ports
        → IsPartial n own ports n (starts_of (take result words.new)) }
{
    let mut count = 0usize;
    let mut last = plain[before(n, own, 0) as usize];
    for d in 0..n {
        let port = plain[d as usize];
        count = put(
            words,
            count,
            Row::word(d, port),
            is_change(own, d, port, last),
        );
        last = if d != own { port } else { last };
    }
    count
}

// Whether the port of a label other than the own one differs from the last.
#[inline(always)]
fn is_change(own: u16, d: u16, port: u16, last: u16) -> bool
    ensures { IsTrue result ↔ (d ≢ own) × (port ≢ last) }
{
    (d != own) & (port != last)
}

// Puts a word after the first so many, and answers how many are kept then: one more, or as many. There is no branch.
#[inline(always)]
fn put(words: &mut [u32], count: usize, word: u32, is_kept: bool) -> usize
    requires { count < length words.old }
    ensures length { length words.new ≡ length words.old }
    ensures kept { IsTrue is_kept → (result ≡ count + 1)
        × (take result words.new ≡ take count words.old ++ word ∷ []) }
    ensures left { (IsTrue is_kept → ⊥) → (result ≡ count) × (take result words.new ≡ take count words.old) }
{
    words[count] = word;
    count + is_kept as usize
}

// Adds the word of a start.
fn push_start(words: &mut Vec<u32>, label: u16, port: u16) -> Result<(), AllocError>
    ensures { OnOk result (let s : Start = record { label = label; port = port } in starts_of words.new.items
        ≡ starts_of words.old.items ++ s ∷ []) }
{
    words.push(Row::word(label, port))?;
    Ok(())
}

// The label after the own one, in cyclic order.
fn after(n: u16, own: u16) -> u16
    requires { own < n }
    ensures label { result < n }
    ensures after { result ≡ label_after n own }
    ensures differs { 1 < n → result ≢ own }
{
    if own + 1 == n { 0 } else { own + 1 }
}

// The label before d in the round that leaves out the own label.
fn before(n: u16, own: u16, d: u16) -> u16
    requires own { own < n }
    requires label { d < n }
    ensures label { result < n }
    ensures before { result ≡ predecessor n own d }
{
    let one_back = if d == 0 { n - 1 } else { d - 1 };
    if one_back != own {
        one_back
    } else if own == 0 {
        n - 1
    } else {
        own - 1
    }
}

/// Whether these are a list of destinations: one entry for each of the `n` labels, the own label
/// below `n` and without a port, and each other label with one. Takes O(n).
pub fn is_destinations(n: u16, own: u16, ports: &[Option<u16>]) -> bool
    ensures { IsTrue result ↔ IsDestinations n own ports.now }
{
    if ports.len() != n as usize || own >= n {
        return false;
    }
    for (d, port) in ports.iter().enumerate() {
        if port.is_some() == (d == own as usize) {
            return false;
        }
    }
    true
}
