//! The prefixes of labels whose ports are all below 63. The names of a node are the bits of a number, which are joined
//! at once; for other ports they are in lists.

ghost use Rattle.std.specs.Prelude.{◌≡◌, ◌≢◌, ◌↔◌, ◌==◌, ◌<◌, ◌≤◌, ◌+◌, ◌-◌, ◌*◌, ◌^◌, ◌++◌, List, [], ◌∷◌, Some, length, slice_index, take, IfOk, IfSome, IsTrue, OnOk};
ghost use Rattle.std.specs.{Int.bit_at, Int.Bits.bit_and};
ghost use Rattle.ir_model.specs.Compiled.{port_to};
ghost use Rattle.ir_prefix.specs.{Cover.{IsCover, IsTrie, cover_of, taken, cover_told}, Described.Trie};
ghost use Rattle.ir_prefix.specs.{Joined.is_named, Marks.{AreLow, EndsIn, IsNodeMarked, joined_bits, ports_in}};
ghost use Rattle.ir_prefix.specs.{Runs.AreRuns, declared.marks.Mark.TheVariants.{NoPort, OnePort, Pair, Several}};

use crate::cover::{Prefix, push_prefix};
use crate::runs::{LabelRun, PrefixBlock, block_of};
use std::alloc::{AllocError, Global};

/// What lies below a node: no port, one port, or several, and then its names, or two numbers with a port each, and then
/// its names and these.
#[derive(Clone, Copy)]
pub enum Mark {
    NoPort,
    OnePort(u16),
    Several(u64),
    Pair(u64, u16, u16),
}

/// Whether each port is below 63, so that a number of 64 bits has a bit for it, and one for no port.
pub fn are_low(ports: &[Option<u16>]) -> bool
    ensures { IsTrue result ↔ AreLow ports.now }
{
    ports.iter().all(|port| match port {
        None => true,
        Some(port) => *port < 63,
    })
}

/// The prefixes of the trie of that height, each node before what lies below it.
pub fn cover_by_marks(
    alloc: Global,
    ports: &[Option<u16>],
    runs: &[LabelRun],
    bits: u8,
) -> Result<Vec<Prefix>, AllocError>
    requires runs { AreRuns ports.now runs.now }
    requires low { AreLow ports.now }
    requires bits { bits ≤ 16 }
    ensures { IfOk result (λ set. IsCover ports.now bits set.items) }
{
    let mut marks = Vec::new(alloc);
    push_marks(ports, runs, bits, 0, &mut marks)?;
    let mut set = Vec::new(alloc);
    take_marks(&mut marks, bits, bits, 0, None, &mut set)?;
    Ok(set)
}

// Adds the marks of the node so high, the index-th of its height, and answers its names. Its own mark is last, before
// it are those of its left half, and before these those of its right half.
fn push_marks(
    ports: &[Option<u16>],
    runs: &[LabelRun],
    height: u8,
    index: u32,
    marks: &mut Vec<Mark>,
) -> Result<u64, AllocError>
    requires runs { AreRuns ports.now runs.now }
    requires low { AreLow ports.now }
    requires inside { (index + 1) * 2 ^ height ≤ 2 ^ 16 }
    ensures { IfOk result (λ names. IsNodeMarked ports.now height index names marks.old.items marks.new.items) }
{
    match block_of(ports, runs, height, index) {
        PrefixBlock::Beyond => push_mark(marks, Mark::NoPort, u64::MAX),
        PrefixBlock::Unsent => push_mark(marks, Mark::NoPort, u64::MAX),
        PrefixBlock::OnePort(port) => push_one(marks, port),
        PrefixBlock::Mixed => {
            if let Some((left, right)) = pair_at(ports, height, index) {
                return push_pair(marks, left, right);
            }
            let before = marks.len();
            let right = push_marks(ports, runs, height - 1, 2 * index + 1, marks)?;
            let left = push_marks(ports, runs, height - 1, 2 * index, marks)?;
            push_parent(marks, before, left, right)
        }
    }
}

// Adds the mark of a node, and answers its names, which are given. A node with no port has every name.
fn push_mark(marks: &mut Vec<Mark>, mark: Mark, names: u64) -> Result<u64, AllocError>
    ensures { IfOk result (λ told. (told ≡ names) × (marks.new.items ≡ marks.old.items ++ mark ∷ [])) }
{
    let Ok(()) = marks.push(mark) else {
        return Err(AllocError);
    };
    Ok(names)
}

// Adds the mark of a node with one port.
fn push_one(marks: &mut Vec<Mark>, port: u16) -> Result<u64, AllocError>
    requires { port < 63 }
    ensures { IfOk result (λ names. (names ≡ 2 ^ port)
        × (marks.new.items ≡ marks.old.items ++ OnePort port ∷ [])) }
{
    push_mark(marks, Mark::OnePort(port), 1u64 << port)
}

// The ports of the two numbers of such a block, if it has two and each has a port.
fn pair_at(ports: &[Option<u16>], height: u8, index: u32) -> Option<(u16, u16)>
    requires { (index + 1) * 2 ^ height ≤ 2 ^ 16 }
    ensures { IfSome result (λ pair. (height ≡ 1) × (port_to ports.now (2 * index) ≡ Some pair.0)
        × (port_to ports.now (2 * index + 1) ≡ Some pair.1)) }
{
    let first = 2 * index as usize;
    if height != 1 || first + 1 >= ports.len() {
        return None;
    }
    match (ports[first], ports[first + 1]) {
        (Some(left), Some(right)) => Some((left, right)),
        _ => None,
    }
}

// Adds the mark of a node of two numbers with a port each.
fn push_pair(marks: &mut Vec<Mark>, left: u16, right: u16) -> Result<u64, AllocError>
    requires { (left < 63) × (right < 63) }
    ensures { IfOk result (λ names. (names ≡ joined_bits (2 ^ left) (2 ^ right))
        × (marks.new.items ≡ marks.old.items ++ Pair names left right ∷ [])) }
{
    let names = joined(1u64 << left, 1u64 << right);
    push_mark(marks, Mark::Pair(names, left, right), names)
}

// The names that two nodes share, or those of both where they share none.
fn joined(left: u64, right: u64) -> u64
    ensures { result ≡ joined_bits left right }
{
    let shared = left & right;
    if shared == 0 { left | right } else { shared }
}

// Adds the mark of the node of two halves, whose marks follow the first ones, given the names
// of the halves. Where no port lies below either, its mark takes the place of theirs.
fn push_parent(
    marks: &mut Vec<Mark>,
    before: usize,
    left: u64,
    right: u64,
) -> Result<u64, AllocError>
    ensures free { bit_at (bit_and left right) 63 ≡ 1 → IfOk result (λ names. (names ≡ bit_and left right)
        × (marks.new.items ≡ take before marks.old.items ++ NoPort ∷ [])) }
    ensures several { bit_at (bit_and left right) 63 ≢ 1 → IfOk result (λ names. (names ≡ joined_bits left right)
        × (marks.new.items ≡ marks.old.items ++ Several names ∷ [])) }
{
    let shared = left & right;
    if has_bit(shared, 63) {
        marks.truncate(before);
        return push_mark(marks, Mark::NoPort, shared);
    }
    let names = joined(left, right);
    push_mark(marks, Mark::Several(names), names)
}

// Whether a bit of a number is set.
fn has_bit(number: u64, place: u16) -> bool
    requires { place < 64 }
    ensures { result ≡ (bit_at number place == 1) }
{
    number >> place & 1 == 1
}

// Takes the marks of a node so high, the index-th of its height, and adds its prefixes, where the longest one above it
// names `above`: as few as there can be.
fn take_marks(
    marks: &mut Vec<Mark>,
    bits: u8,
    height: u8,
    index: u32,
    above: Option<u16>,
    prefixes: &mut Vec<Prefix>,
) -> Result<(), AllocError>
    requires trie { (t : Trie) × (rest : List Mark) × IsTrie height t × EndsIn t rest marks.old.items }
    requires height { height ≤ bits }
    requires inside { (index + 1) * 2 ^ height ≤ 2 ^ 16 }
    ensures rest { OnOk result ((t : Trie) (rest : List Mark) → IsTrie height t → EndsIn t rest marks.old.items
        → marks.new.items ≡ rest) }
    ensures prefixes { OnOk result ((t : Trie) (rest : List Mark) → IsTrie height t → EndsIn t rest marks.old.items
        → prefixes.new.items ≡ prefixes.old.items ++ cover_of bits t height index above) }
{
    match marks.pop().unwrap() {
        Mark::NoPort => Ok(()),
        Mark::OnePort(port) => tell_port(port, bits, height, index, above, prefixes),
        Mark::Pair(names, left, right) => {
            let below = tell_bits(names, bits, height, index, above, prefixes)?;
            tell_port(left, bits, height - 1, 2 * index, below, prefixes)?;
            tell_port(right, bits, height - 1, 2 * index + 1, below, prefixes)
        }
        Mark::Several(names) => {
            let below = tell_bits(names, bits, height, index, above, prefixes)?;
            take_marks(marks, bits, height - 1, 2 * index, below, prefixes)?;
            take_marks(marks, bits, height - 1, 2 * index + 1, below, prefixes)
        }
    }
}

// Adds the prefix of a node with one port unless what is above it names that port.
fn tell_port(
    port: u16,
    bits: u8,
    height: u8,
    index: u32,
    above: Option<u16>,
    prefixes: &mut Vec<Prefix>,
) -> Result<(), AllocError>
    requires height { height ≤ bits }
    requires inside { (index + 1) * 2 ^ height ≤ 2 ^ 16 }
    ensures { OnOk result (prefixes.new.items
        ≡ prefixes.old.items ++ cover_told bits height index (port ∷ []) above) }
{
    if above == Some(port) {
        return Ok(());
    }
    push_prefix(bits, height, index, port, prefixes)
}

// Adds the prefix of a node with several ports unless what is above it names one of its names, and answers what is
// above its halves.
fn tell_bits(
    names: u64,
    bits: u8,
    height: u8,
    index: u32,
    above: Option<u16>,
    prefixes: &mut Vec<Prefix>,
) -> Result<Option<u16>, AllocError>
    requires some { 0 < length (ports_in names) }
    requires height { height ≤ bits }
    requires inside { (index + 1) * 2 ^ height ≤ 2 ^ 16 }
    ensures below { IfOk result (λ below. below ≡ taken (ports_in names) above) }
    ensures told { OnOk result (prefixes.new.items
        ≡ prefixes.old.items ++ cover_told bits height index (ports_in names) above) }
{
    if has_port(names, above) {
        return Ok(above);
    }
    let port = least(names);
    push_prefix(bits, height, index, port, prefixes)?;
    Ok(Some(port))
}

// Whether the names of a node with several ports have a port; they have not what no prefix above names.
fn has_port(names: u64, above: Option<u16>) -> bool
    requires { 0 < length (ports_in names) }
    ensures { result ≡ is_named (ports_in names) above }
{
    match above {
        None => false,
        Some(port) => {
            if port < 63 {
                has_bit(names, port)
            } else {
                false
            }
        }
    }
}

// The least port of the names.
fn least(names: u64) -> u16
    requires { 0 < length (ports_in names) }
    ensures { result ≡ slice_index (ports_in names) 0 }
{
    names.trailing_zeros() as u16
}
