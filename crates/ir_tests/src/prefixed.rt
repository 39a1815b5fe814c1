//! Ports given as the fewest lines of a forwarding table, longest first.

use ir_compile::is_destinations;
use ir_prefix::{TableLine, disjoint_lines, forwarding_lines, width};
use std::alloc::Global;
use std::test::Fail;

/// A row's ports by label, and the lines of its forwarding tables, nested and disjoint: the value, the length and the
/// port of each, or none where it is unreachable.
struct TableCase {
    name: &'static str,
    own: u16,
    ports: &'static [Option<u16>],
    nested: &'static [(u16, u8, Option<u16>)],
    disjoint: &'static [(u16, u8, Option<u16>)],
}

// Expected values from a plain search over all ports of all blocks.
static TABLES: [TableCase; 7] = [
    TableCase {
        name: "one label",
        own: 0,
        ports: &[None],
        nested: &[],
        disjoint: &[],
    },
    TableCase {
        name: "one port",
        own: 0,
        ports: &[None, Some(5)],
        nested: &[(0, 0, Some(5))],
        disjoint: &[(0, 0, Some(5))],
    },
    TableCase {
        name: "no number beyond the labels, of ports from 63 on",
        own: 0,
        ports: &[None, Some(63), Some(63), Some(64)],
        nested: &[(3, 2, Some(64)), (0, 0, Some(63))],
        disjoint: &[(2, 2, Some(63)), (3, 2, Some(64)), (0, 1, Some(63))],
    },
    TableCase {
        name: "no number beyond the labels",
        own: 0,
        ports: &[None, Some(1), Some(1), Some(2)],
        nested: &[(3, 2, Some(2)), (0, 0, Some(1))],
        disjoint: &[(2, 2, Some(1)), (3, 2, Some(2)), (0, 1, Some(1))],
    },
    TableCase {
        name: "a number beyond the labels goes the way of the last",
        own: 1,
        ports: &[Some(0), None, Some(1)],
        nested: &[(2, 1, Some(1)), (0, 0, Some(0))],
        disjoint: &[(2, 2, Some(1)), (0, 1, Some(0))],
    },
    TableCase {
        name: "it is unreachable at the node of the last",
        own: 2,
        ports: &[Some(0), Some(0), None],
        nested: &[(2, 1, None), (0, 0, Some(0))],
        disjoint: &[(0, 1, Some(0))],
    },
    TableCase {
        name: "five labels of eight numbers",
        own: 3,
        ports: &[Some(2), Some(0), Some(0), None, Some(2)],
        nested: &[(0, 3, Some(2)), (4, 1, Some(2)), (0, 0, Some(0))],
        disjoint: &[
            (0, 3, Some(2)),
            (1, 3, Some(0)),
            (4, 3, Some(2)),
            (2, 2, Some(0)),
        ],
    },
];

/// Whether these are the lines, in this order.
fn are_lines(table: &[TableLine], told: &[(u16, u8, Option<u16>)]) -> bool {
    if table.len() != told.len() {
        return false;
    }
    for (line, wanted) in table.iter().zip(told.iter()) {
        if (line.value, line.length, line.port) != *wanted {
            return false;
        }
    }
    true
}

/// Whether the ports of a case have its tables.
fn has_tables(alloc: Global, case: &TableCase) -> bool {
    let Ok(n) = u16::try_from(case.ports.len()) else {
        return false;
    };
    if !is_destinations(n, case.own, case.ports) {
        return false;
    }
    let Ok(nested) = forwarding_lines(alloc, n, case.own, case.ports) else {
        return false;
    };
    let Ok(apart) = disjoint_lines(alloc, n, case.own, case.ports) else {
        return false;
    };
    are_lines(nested.as_slice(), case.nested) && are_lines(apart.as_slice(), case.disjoint)
}

#[test]
fn tables_have_the_fewest_lines(rt: HostRuntime) -> Result<(), Fail> {
    for case in TABLES.iter() {
        if !has_tables(rt.alloc(), case) {
            return Err(case.name.into());
        }
    }
    Ok(())
}

/// Numbers of labels, and the bits of a label.
static WIDTHS: [(u16, u8); 6] = [(1, 0), (2, 1), (14, 4), (16, 4), (17, 5), (65_535, 16)];

#[test]
fn widths_of_labels() -> Result<(), Fail> {
    for (n, bits) in &WIDTHS {
        if width(*n) != *bits {
            return Err("another width".into());
        }
    }
    Ok(())
}
