//! The lines of a forwarding table.

ghost use Rattle.std.specs.Prelude.{◌≡◌, map, IfOk};
ghost use Rattle.ir_prefix.specs.Extended.{line_of};

use crate::cover::Prefix;
use std::alloc::{AllocError, Global};

/// A line of a forwarding table: the numbers whose first `length` bits are those of `value`, and their port, or none
/// where they are unreachable.
#[derive(Clone, Copy, Debug, PartialEq, Eq)]
pub struct TableLine {
    pub value: u16,
    pub length: u8,
    pub port: Option<u16>,
}

/// The lines of prefixes, one of whose ports stands for what is unreachable.
pub fn lines_of(
    alloc: Global,
    set: &[Prefix],
    unreachable: u16,
) -> Result<Vec<TableLine>, AllocError>
    ensures { IfOk result (λ lines. lines.items ≡ map (line_of unreachable) set.now) }
{
    set.iter().map(|m| line_of(m, unreachable)).collect(alloc)
}

// The line of a prefix.
fn line_of(prefix: &Prefix, unreachable: u16) -> TableLine
    ensures { result ≡ line_of unreachable prefix.now }
{
    TableLine {
        value: prefix.value,
        length: prefix.length,
        port: if prefix.port == unreachable {
            None
        } else {
            Some(prefix.port)
        },
    }
}
