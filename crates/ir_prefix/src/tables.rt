//! A node's forwarding table of the fewest lines.

ghost use Rattle.std.specs.Prelude.{◌≡◌, ◌↔◌, ◌≤◌, ◌^◌, ◌<◌, ℕ, Any, Some, if◌then◌else◌, nat_lt, length, map, IfOk, IsTrue};
ghost use Rattle.std.specs.List.{range_with_len};
ghost use Rattle.ir_model.specs.Compiled.{IsDestinations, port_to};
ghost use Rattle.ir_prefix.specs.Longest.{IsWidth};
ghost use Rattle.ir_prefix.specs.Forwarding.{AreLongestFirst, IsDisjointTable, IsFewestDisjoint, IsFewestLines, IsForwardingTable, IsWellFormed, KeepsMatches, NamesPorts};
ghost use Rattle.ir_prefix.specs.Extended.{extended_port, IsUnused};

use crate::line::{TableLine, lines_of};
use crate::order::sort_longest_first;
use crate::parts::push_pieces;
use crate::runs::runs_of;
use crate::{table, width};
use std::alloc::{AllocError, Global};

/// The forwarding table of the node with the label `own` among `n` nodes, given its port to each
/// label. The longest match of each other label names its port. No table that does so, and sends
/// the numbers beyond the labels as this one does, has fewer lines (Draves, King, Venkatachary and
/// Zill 1999). Such a number has the port of the last label, and is unreachable where that is the
/// own label. The own label may match any line or none. The longest prefixes are first, and those
/// of one length in the order of their values. While a table is filled in this order, or emptied in
/// the opposite one, a number finds no match or that of the whole table.
///
/// Condition: the ports are a list of destinations, as `ir_compile::is_destinations` asks. Refused
/// for memory alone. Takes O(n (log n + t)), where t ports are tried, from the greatest number
/// down, for one that the row does not name.
pub fn forwarding_lines(
    alloc: Global,
    n: u16,
    own: u16,
    ports: &[Option<u16>],
) -> Result<Vec<TableLine>, AllocError>
    requires { IsDestinations n own ports.now }
    ensures well { IfOk result (λ table. (bits : ℕ) → IsWidth n bits → IsWellFormed bits table.items) }
    ensures forwards { IfOk result
        (λ table. (bits : ℕ) → IsWidth n bits → IsForwardingTable n bits ports.now table.items) }
    ensures fewest { IfOk result (λ table. (bits : ℕ) → IsWidth n bits
        → IsFewestLines n bits ports.now (length table.items)) }
    ensures ports { IfOk result (λ table. NamesPorts ports.now table.items) }
    ensures order { IfOk result (λ table. AreLongestFirst table.items) }
    ensures loads { IfOk result (λ table. (bits : ℕ) → KeepsMatches bits table.items) }
{
    let bits = width(n);
    let unreachable = unused_port(ports);
    let row = extended(alloc, n, bits, ports, unreachable)?;
    let set = table(alloc, bits, row.as_slice())?;
    lines_of(alloc, set.as_slice(), unreachable)
}

/// The forwarding table of the node with the label `own` among `n` nodes, given its port to each
/// label, in which no number matches two lines. Each other label matches one, with its port, and no
/// number beyond the labels matches any. No table that does so has fewer lines. The own label may
/// match a line or none. The lines are in the order of `forwarding_lines`, but none is needed:
/// where a line is missing, what it holds is dropped.
///
/// Condition, refusal and time are those of `forwarding_lines`.
pub fn disjoint_lines(
    alloc: Global,
    n: u16,
    own: u16,
    ports: &[Option<u16>],
) -> Result<Vec<TableLine>, AllocError>
    requires { IsDestinations n own ports.now }
    ensures well { IfOk result (λ table. (bits : ℕ) → IsWidth n bits → IsWellFormed bits table.items) }
    ensures disjoint { IfOk result
        (λ table. (bits : ℕ) → IsWidth n bits → IsDisjointTable n bits ports.now table.items) }
    ensures fewest { IfOk result (λ table. (bits : ℕ) → IsWidth n bits
        → IsFewestDisjoint n bits ports.now (length table.items)) }
    ensures ports { IfOk result (λ table. NamesPorts ports.now table.items) }
    ensures order { IfOk result (λ table. AreLongestFirst table.items) }
{
    let bits = width(n);
    let runs = runs_of(alloc, ports)?;
    let mut set = Vec::new(alloc);
    push_pieces(ports, runs.as_slice(), bits, bits, 0, &mut set)?;
    sort_longest_first(&mut set)?;
    lines_of(alloc, set.as_slice(), unused_port(ports))
}

// A port that the row does not name.
fn unused_port(ports: &[Option<u16>]) -> u16
    requires { length ports.now < 65536 }
    ensures { IsUnused ports.now result }
{
    for below in 0..65536u32 {
        let port = (65535 - below) as u16;
        if !is_named(ports, port) {
            return port;
        }
    }
    unreachable!()
}

// Whether the row names a port.
fn is_named(ports: &[Option<u16>], port: u16) -> bool
    ensures { IsTrue result ↔ Any (λ o. o ≡ Some port) ports.now }
{
    ports.contains(&Some(port))
}

// The ports of all numbers of so many bits.
fn extended(
    alloc: Global,
    n: u16,
    bits: u8,
    ports: &[Option<u16>],
    unreachable: u16,
) -> Result<Vec<Option<u16>>, AllocError>
    requires some { 0 < n }
    requires every { length ports.now ≡ n }
    requires bits { bits ≤ 16 }
    ensures { IfOk result (λ row. row.items
        ≡ map (extended_port n unreachable ports.now) (range_with_len 0 (2 ^ bits))) }
{
    let last = ports[n as usize - 1].unwrap_or(unreachable);
    (0..2usize.pow(bits as u32))
        .map(|x| port_at(ports, last, x))
        .collect(alloc)
}

// The port of a number, given that of the numbers beyond the labels.
fn port_at(ports: &[Option<u16>], last: u16, x: usize) -> Option<u16>
    ensures { result ≡ (if nat_lt x (length ports.now) then port_to ports.now x else Some last) }
{
    if x < ports.len() {
        ports[x]
    } else {
        Some(last)
    }
}
