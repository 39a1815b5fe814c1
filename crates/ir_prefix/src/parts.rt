//! Blocks of numbers, each divided until one port serves it.

ghost use Rattle.std.specs.Prelude.{◌≡◌, ◌≤◌, ◌+◌, ◌*◌, ◌^◌, ◌++◌, OnOk};
ghost use Rattle.ir_prefix.specs.{Parts.{Divides, Part, pieces_of}, Runs.AreRuns};

use crate::cover::{Prefix, push_prefix};
use crate::runs::{LabelRun, PrefixBlock, block_of};
use std::alloc::AllocError;

/// Adds a prefix for each part of one port in the block so high, the index-th of its height.
pub fn push_pieces(
    ports: &[Option<u16>],
    runs: &[LabelRun],
    bits: u8,
    height: u8,
    index: u32,
    prefixes: &mut Vec<Prefix>,
) -> Result<(), AllocError>
    requires runs { AreRuns ports.now runs.now }
    requires height { height ≤ bits }
    requires inside { (index + 1) * 2 ^ height ≤ 2 ^ 16 }
    ensures { OnOk result ((t : Part) × Divides ports.now height index t
        × (prefixes.new.items ≡ prefixes.old.items ++ pieces_of bits t height index)) }
{
    match block_of(ports, runs, height, index) {
        PrefixBlock::Beyond | PrefixBlock::Unsent => Ok(()),
        PrefixBlock::OnePort(port) => push_prefix(bits, height, index, port, prefixes),
        PrefixBlock::Mixed => {
            push_pieces(ports, runs, bits, height - 1, 2 * index, prefixes)?;
            push_pieces(ports, runs, bits, height - 1, 2 * index + 1, prefixes)
        }
    }
}
