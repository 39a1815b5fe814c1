//! The tree of lines of a row's words.

ghost use Rattle.std.specs.Prelude.{◌≡◌, ◌<◌, ◌≤◌, ◌++◌, ℕ, length, slice_index, IfOk, OnOk};
ghost use Rattle.ir_model.specs.Row.{IsAscending, labels, start_ports};
ghost use Rattle.ir_lines.specs.Tables.{IsGreatest};
ghost use Rattle.ir_lines.specs.Words.{from_zero, level, root_alone, row_word, table_head, three_levels, tree, two_levels};

use crate::Owner;
use ir_lookup::Row;
use std::alloc::{AllocError, Global};

// A word that is above each key.
pub(crate) const NO_WORD: u32 = 4_294_967_295;

/// The greatest port of a row, 0 where there is no start.
pub fn greatest_port(row: &Row) -> u16
    ensures { IsGreatest row.now result }
{
    let mut greatest = 0;
    for place in 0..row.len() {
        let port = row.port(place);
        if greatest < port {
            greatest = port;
        }
    }
    greatest
}

/// How many words a row has, with one at the label 0, where its starts are below `n`.
pub fn words_of(row: &Row, n: u16) -> usize
    requires { (k : ℕ) → k < length row.now → slice_index (labels row.now) k < n }
    ensures count { result ≡ length (from_zero row.now) }
    ensures ascending { IsAscending row.now }
{
    let _ = n;
    if row.is_empty() || row.start(0) == 0 {
        row.len()
    } else {
        row.len() + 1
    }
}

/// The word at a place, where there are so many.
pub fn row_word(row: &Row, count: usize, place: usize) -> u32
    requires { count ≡ length (from_zero row.now) }
    ensures { result ≡ row_word row.now place }
{
    if count <= place {
        return NO_WORD;
    }
    let before = count - row.len();
    if place < before {
        return row.port(row.len() - 1) as u32;
    }
    row.start(place - before) as u32 * 65_536 + row.port(place - before) as u32
}

// Adds a level: so many words, at the multiples of a stride.
fn push_level(
    words: &mut Vec<u32>,
    row: &Row,
    count: usize,
    stride: usize,
    to: usize,
) -> Result<(), AllocError>
    requires count { count ≡ length (from_zero row.now) }
    requires stride { stride ≤ 1024 }
    requires few { to ≤ 16384 }
    ensures { OnOk result (words.new.items ≡ words.old.items ++ level (row_word row.now) stride to) }
{
    for place in 0..to {
        words.push(row_word(row, count, stride * place))?;
    }
    Ok(())
}

// The head of a table, in a list with room for all of it.
pub(crate) fn headed(
    alloc: Global,
    owner: Owner,
    depth: u32,
    base: u32,
    lines: usize,
) -> Result<Vec<u32>, AllocError>
    requires { lines < 65536 }
    ensures { IfOk result (λ words. words.items ≡ table_head owner depth base) }
{
    let mut words = Vec::with_capacity(alloc, 32 * lines)?;
    words.extend_from_slice(&[
        owner.epoch as u32,
        owner.labels as u32,
        owner.own as u32,
        depth,
        base,
        0,
        0,
        0,
        0,
        0,
        0,
        0,
        0,
        0,
        0,
        0,
    ])?;
    Ok(words)
}

// A tree of the root alone.
fn of_root(alloc: Global, owner: Owner, row: &Row, count: usize) -> Result<Vec<u32>, AllocError>
    requires { count ≡ length (from_zero row.now) }
    ensures { IfOk result (λ words. words.items ≡ root_alone owner (row_word row.now)) }
{
    let mut words = headed(alloc, owner, 0, 0, 1)?;
    push_level(&mut words, row, count, 1, 16)?;
    Ok(words)
}

// A tree of the root and one level.
fn of_two(alloc: Global, owner: Owner, row: &Row, count: usize) -> Result<Vec<u32>, AllocError>
    requires count { count ≡ length (from_zero row.now) }
    requires few { count ≤ 16384 }
    ensures { IfOk result (λ words. words.items ≡ two_levels owner (row_word row.now) count) }
{
    let leaves = (count + 31) / 32;
    let mut words = headed(alloc, owner, 1, 1, 1 + leaves)?;
    push_level(&mut words, row, count, 32, 16)?;
    push_level(&mut words, row, count, 1, 32 * leaves)?;
    Ok(words)
}

// A tree of the root and two levels.
fn of_three(alloc: Global, owner: Owner, row: &Row, count: usize) -> Result<Vec<u32>, AllocError>
    requires count { count ≡ length (from_zero row.now) }
    requires few { count ≤ 16384 }
    ensures { IfOk result (λ words. words.items ≡ three_levels owner (row_word row.now) count) }
{
    let middle = (count + 1023) / 1024;
    let leaves = (count + 31) / 32;
    let mut words = headed(alloc, owner, 2, 1 + middle as u32, 1 + middle + leaves)?;
    push_level(&mut words, row, count, 1024, 16)?;
    push_level(&mut words, row, count, 32, 32 * middle)?;
    push_level(&mut words, row, count, 1, 32 * leaves)?;
    Ok(words)
}

/// The tree of the words of a row.
pub fn tree_of(alloc: Global, owner: Owner, row: &Row, count: usize) -> Result<Vec<u32>, AllocError>
    requires count { count ≡ length (from_zero row.now) }
    requires few { count ≤ 16384 }
    ensures { IfOk result (λ words. words.items ≡ tree owner (row_word row.now) count) }
{
    if count <= 16 {
        of_root(alloc, owner, row, count)
    } else if count <= 512 {
        of_two(alloc, owner, row, count)
    } else {
        of_three(alloc, owner, row, count)
    }
}
