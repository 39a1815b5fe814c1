//! A table of bytes: the port of each label.

ghost use Rattle.std.specs.Prelude.{◌≡◌, ◌<◌, ◌≤◌, ◌+◌, ◌*◌, ℕ, length, slice_index, IfOk};
ghost use Rattle.ir_model.specs.Row.{HasPort, IsAscending, start_ports};
ghost use Rattle.ir_lines.specs.{Looks.byte_of, Tables.{HoldPorts, IsByteTable}, Words.groups};

use crate::Owner;
use crate::tree::{NO_WORD, headed};
use ir_lookup::Row;
use std::alloc::{AllocError, Global};

// The port of a label, and 255 for what is none.
fn byte_at(row: &Row, labels: usize, label: usize) -> u32
    requires some { 0 < length row.now }
    requires labels { labels ≤ 16384 }
    requires ascending { IsAscending row.now }
    requires ports { (k : ℕ) → k < length row.now → slice_index (start_ports row.now) k < 256 }
    ensures byte { result < 256 }
    ensures port { label < labels → HasPort labels row.now label result }
    ensures over { labels ≤ label → result ≡ 255 }
{
    if label < labels {
        row.find(label as u16) as u32
    } else {
        255
    }
}

// A word of four bytes, the lowest first.
fn packed(first: u32, second: u32, third: u32, fourth: u32) -> u32
    requires first { first < 256 }
    requires second { second < 256 }
    requires third { third < 256 }
    requires fourth { fourth < 256 }
    ensures first { byte_of result 0 ≡ first }
    ensures second { byte_of result 1 ≡ second }
    ensures third { byte_of result 2 ≡ third }
    ensures fourth { byte_of result 3 ≡ fourth }
{
    first + second * 256 + third * 65_536 + fourth * 16_777_216
}

// The ports of four labels as a word.
fn word_of_ports(row: &Row, labels: usize, label: usize) -> u32
    requires some { 0 < length row.now }
    requires labels { labels ≤ 16384 }
    requires from { label < 65536 }
    requires ascending { IsAscending row.now }
    requires ports { (k : ℕ) → k < length row.now → slice_index (start_ports row.now) k < 256 }
    ensures ports { (i : ℕ) → i < 4 → label + i < labels
        → HasPort labels row.now (label + i) (byte_of result i) }
    ensures over { (i : ℕ) → i < 4 → labels ≤ label + i → byte_of result i ≡ 255 }
{
    packed(
        byte_at(row, labels, label),
        byte_at(row, labels, label + 1),
        byte_at(row, labels, label + 2),
        byte_at(row, labels, label + 3),
    )
}

// The ports of all labels, in whole lines.
fn ports_in_lines(alloc: Global, row: &Row, labels: usize) -> Result<Vec<u32>, AllocError>
    requires some { 0 < length row.now }
    requires labels { labels ≤ 16384 }
    requires ascending { IsAscending row.now }
    requires ports { (k : ℕ) → k < length row.now → slice_index (start_ports row.now) k < 256 }
    ensures every { IfOk result (λ words. length words.items ≡ 32 * groups labels 128) }
    ensures hold { IfOk result (λ words. HoldPorts labels row.now words.items) }
{
    let count = 32 * ((labels + 127) / 128);
    let mut words = Vec::with_capacity(alloc, count)?;
    for place in 0..count {
        words.push(word_of_ports(row, labels, 4 * place))?;
    }
    Ok(words)
}

/// The table of the bytes of a row's ports.
pub fn byte_table(alloc: Global, owner: Owner, row: &Row) -> Result<Vec<u32>, AllocError>
    requires some { 0 < length row.now }
    requires labels { owner.labels ≤ 16384 }
    requires ascending { IsAscending row.now }
    requires ports { (k : ℕ) → k < length row.now → slice_index (start_ports row.now) k < 256 }
    ensures { IfOk result (λ words. IsByteTable owner row.now words.items) }
{
    let labels = owner.labels as usize;
    let bytes = ports_in_lines(alloc, row, labels)?;
    let mut words = headed(alloc, owner, 255, 0, 1 + (labels + 127) / 128)?;
    words.extend_from_slice(&[NO_WORD; 16])?;
    words.extend_from_slice(bytes.as_slice())?;
    Ok(words)
}
