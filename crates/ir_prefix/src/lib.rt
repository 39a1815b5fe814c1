//! The fewest entries that give ports by label: prefixes whose longest match names them (Draves, King, Venkatachary and
//! Zill 1999), or ranges of labels.
#![tactic(auto)]

ghost use Rattle.std.specs.Prelude.{◌≤◌, ◌^◌, length, IfOk};
ghost use Rattle.ir_prefix.specs.Cover.{IsCover};
ghost use Rattle.ir_prefix.specs.Longest.{AreLeast, Forwards, HavePorts, IsFewestPrefixes, IsLongestFirst, IsWidth};

mod cover;
mod line;
mod marks;
mod names;
mod order;
mod parts;
mod ranges;
mod runs;
mod tables;
mod trie;

use crate::cover::{Prefix, cover_by_names};
use crate::marks::{are_low, cover_by_marks};
use crate::order::sort_longest_first;
use crate::runs::runs_of;
pub use line::TableLine;
pub use ranges::{LabelRange, label_ranges};
use std::alloc::{AllocError, Global};
pub use tables::{disjoint_lines, forwarding_lines};

/// How many bits the labels below `n` have.
pub fn width(n: u16) -> u8
    ensures { IsWidth n result }
{
    for bits in 0..16u8 {
        if n as u32 <= 2u32.pow(bits as u32) {
            return bits;
        }
    }
    16
}

// The prefixes of that width, where the ports are those of the first numbers.
fn table(alloc: Global, bits: u8, ports: &[Option<u16>]) -> Result<Vec<Prefix>, AllocError>
    requires bits { bits ≤ 16 }
    requires every { length ports.now ≤ 2 ^ bits }
    ensures order { IfOk result (λ set. IsLongestFirst set.items) }
    ensures fits { IfOk result (λ set. Forwards bits ports.now set.items) }
    ensures values { IfOk result (λ set. AreLeast bits set.items) }
    ensures ports { IfOk result (λ set. HavePorts ports.now set.items) }
    ensures fewest { IfOk result (λ set. IsFewestPrefixes bits ports.now (length set.items)) }
{
    let mut set = trie_cover(alloc, bits, ports)?;
    sort_longest_first(&mut set)?;
    Ok(set)
}

// The prefixes of the trie of that width, each node before what lies below it.
fn trie_cover(alloc: Global, bits: u8, ports: &[Option<u16>]) -> Result<Vec<Prefix>, AllocError>
    requires { bits ≤ 16 }
    ensures { IfOk result (λ set. IsCover ports.now bits set.items) }
{
    let runs = runs_of(alloc, ports)?;
    if are_low(ports) {
        cover_by_marks(alloc, ports, runs.as_slice(), bits)
    } else {
        cover_by_names(alloc, ports, runs.as_slice(), bits)
    }
}
