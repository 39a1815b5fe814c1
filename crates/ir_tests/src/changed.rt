//! What a node changes between two rows, beside dictionaries of their starts.

use ir_diff::{Lead, changes_of, is_ascending};
use std::alloc::{AllocError, Global};
use std::test::Fail;

/// Two rows, each by its starts and their nodes, the starts that go, and those that are put with their nodes.
struct RowsCase {
    name: &'static str,
    old: &'static [(u16, u16)],
    new: &'static [(u16, u16)],
    removed: &'static [u16],
    put: &'static [(u16, u16)],
}

// Expected values from plain dictionaries of starts.
static ROWS: [RowsCase; 8] = [
    RowsCase {
        name: "no row",
        old: &[],
        new: &[],
        removed: &[],
        put: &[],
    },
    RowsCase {
        name: "the same row",
        old: &[(0, 1), (3, 2)],
        new: &[(0, 1), (3, 2)],
        removed: &[],
        put: &[],
    },
    RowsCase {
        name: "a row that comes",
        old: &[],
        new: &[(0, 7), (65535, 0)],
        removed: &[],
        put: &[(0, 7), (65535, 0)],
    },
    RowsCase {
        name: "a row that goes",
        old: &[(0, 7), (65535, 0)],
        new: &[],
        removed: &[0, 65535],
        put: &[],
    },
    RowsCase {
        name: "another node at each start",
        old: &[(1, 2), (4, 3), (9, 2)],
        new: &[(1, 3), (4, 2), (9, 3)],
        removed: &[],
        put: &[(1, 3), (4, 2), (9, 3)],
    },
    RowsCase {
        name: "starts between those that stay",
        old: &[(0, 1), (13, 4)],
        new: &[(0, 1), (1, 5), (12, 2), (13, 4), (14, 1)],
        removed: &[],
        put: &[(1, 5), (12, 2), (14, 1)],
    },
    RowsCase {
        name: "by chance, few of both",
        old: &[(0, 0), (1, 1), (2, 1), (6, 1), (7, 2), (13, 0)],
        new: &[(0, 3), (2, 1), (3, 3), (4, 1), (5, 0), (6, 0), (13, 0)],
        removed: &[1, 7],
        put: &[(0, 3), (3, 3), (4, 1), (5, 0), (6, 0)],
    },
    RowsCase {
        name: "by chance, more nodes",
        old: &[
            (2, 1),
            (5, 2),
            (6, 1),
            (7, 1),
            (8, 0),
            (9, 0),
            (11, 2),
            (14, 1),
            (15, 2),
        ],
        new: &[
            (0, 2),
            (2, 1),
            (3, 2),
            (5, 0),
            (7, 2),
            (9, 0),
            (14, 1),
            (15, 2),
        ],
        removed: &[6, 8, 11],
        put: &[(0, 2), (3, 2), (5, 0), (7, 2)],
    },
];

/// A row of these starts and nodes.
fn row_of(alloc: Global, pairs: &[(u16, u16)]) -> Result<Vec<Lead>, AllocError> {
    let mut row = Vec::new(alloc);
    for (start, node) in pairs {
        row.push(Lead {
            start: *start,
            node: *node,
        })?;
    }
    Ok(row)
}

/// Whether the rows of a case differ so.
fn differ_so(alloc: Global, case: &RowsCase) -> Result<bool, AllocError> {
    let old = row_of(alloc, case.old)?;
    let new = row_of(alloc, case.new)?;
    let put = row_of(alloc, case.put)?;
    if !is_ascending(old.as_slice()) || !is_ascending(new.as_slice()) {
        return Ok(false);
    }
    let changes = changes_of(alloc, old.as_slice(), new.as_slice())?;
    Ok(changes.removed.as_slice() == case.removed && changes.put.as_slice() == put.as_slice())
}

#[test]
fn rows_differ_by_the_fewest_starts(rt: HostRuntime) -> Result<(), Fail> {
    for case in ROWS.iter() {
        let Ok(true) = differ_so(rt.alloc(), case) else {
            return Err(case.name.into());
        };
    }
    Ok(())
}
