//! The table of a row.

ghost use Rattle.std.specs.Prelude.{◌≡◌, ◌<◌, ◌≤◌, ◌↔◌, ◌+◌, ℕ, length, slice_index, IfOk, IsTrue};
ghost use Rattle.ir_model.specs.Row.{HasPort, labels};
ghost use Rattle.ir_lines.specs.{Looks.{IsLed, LinesLeadTo}, Tables.{IsGreatest, IsTable, TakesBytes}};
ghost use Rattle.ir_lines.specs.Words.{from_zero, tree_lines};

use crate::Owner;
use crate::bytes::byte_table;
use crate::tree::{greatest_port, tree_of, words_of};
use ir_lookup::Row;
use std::alloc::{AllocError, Global};

// How many lines the tree of so many words has.
fn tree_lines(count: usize) -> usize
    requires { count ≤ 16384 }
    ensures { result ≡ tree_lines count }
{
    if count <= 16 {
        1
    } else if count <= 512 {
        1 + (count + 31) / 32
    } else {
        1 + (count + 1023) / 1024 + (count + 31) / 32
    }
}

// Whether a table of bytes has fewer lines, and can hold the ports.
fn takes_bytes(row: &Row, labels: u16, count: usize, greatest: u16) -> bool
    requires count { count ≡ length (from_zero row.now) }
    requires few { count ≤ 16384 }
    requires greatest { IsGreatest row.now greatest }
    ensures { IsTrue result ↔ TakesBytes labels row.now }
{
    let starts = row.len();
    if starts == 0 {
        return false;
    }
    if greatest > 255 {
        return false;
    }
    let of_bytes = 1 + (labels as usize + 127) / 128;
    let of_tree = tree_lines(count);
    if of_bytes >= of_tree {
        return false;
    }
    true
}

/// The table of a row, in words, 32 to a line: the tree of its words, or the bytes of its ports where these take fewer
/// lines. Condition: there are at most 16,384 labels, and the row's starts are among them. It is refused for memory
/// alone. Takes O(k), for k starts, and O(n log k) for n labels where it is of bytes.
pub fn lines(alloc: Global, owner: Owner, row: &Row) -> Result<Vec<u32>, AllocError>
    requires few { owner.labels ≤ 16384 }
    requires starts { (k : ℕ) → k < length row.now → slice_index (labels row.now) k < owner.labels }
    ensures table { IfOk result (λ words. IsTable owner row.now words.items) }
    ensures led { 0 < length row.now → IfOk result (λ words. (label : ℕ) → label < owner.labels
        → IsLed words.items label) }
    ensures ports { IfOk result (λ words. (label port : ℕ) → label < owner.labels
        → LinesLeadTo words.items label port
        → HasPort owner.labels row.now label port) }
{
    let greatest = greatest_port(row);
    let count = words_of(row, owner.labels);
    if takes_bytes(row, owner.labels, count, greatest) {
        let words = byte_table(alloc, owner, row)?;
        return Ok(words);
    }
    let words = tree_of(alloc, owner, row, count)?;
    Ok(words)
}
