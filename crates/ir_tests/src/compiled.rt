//! Destination lists, rows and intervals.

ghost use Rattle.std.specs.Prelude.{◌≢◌, ◌<◌, ℕ, IsTrue, length, slice_index};

use ir_compile::{
    CompileError, canonical_row, compile, is_destinations, row_of_ports, runs_by_words,
};
use ir_lookup::{Row, in_interval};
use std::alloc::Global;
use std::test::Fail;

/// A node's label, its ports by label, and the starts of its row with their ports.
struct Case {
    name: &'static str,
    own: u16,
    ports: &'static [Option<u16>],
    starts: &'static [(u16, u16)],
}

static CASES: [Case; 4] = [
    Case {
        name: "neighbouring intervals of one port are joined",
        own: 0,
        ports: &[None, Some(0), Some(1), Some(1), Some(0), Some(1)],
        starts: &[(1, 0), (2, 1), (4, 0), (5, 1)],
    },
    Case {
        name: "five starts of eight labels",
        own: 3,
        ports: &[
            Some(2),
            Some(0),
            Some(0),
            None,
            Some(1),
            Some(2),
            Some(2),
            Some(1),
        ],
        starts: &[(0, 2), (1, 0), (4, 1), (5, 2), (7, 1)],
    },
    Case {
        name: "one start where all ports are equal",
        own: 2,
        ports: &[Some(0), Some(0), None],
        starts: &[(0, 0)],
    },
    Case {
        name: "one label has no start",
        own: 0,
        ports: &[None],
        starts: &[],
    },
];

/// Whether these are a row's starts, each with its port.
fn has_starts(row: &Row, starts: &[(u16, u16)]) -> bool {
    if row.len() != starts.len() {
        return false;
    }
    for (i, start) in starts.iter().enumerate() {
        if (row.start(i), row.port(i)) != *start {
            return false;
        }
    }
    true
}

/// The port of the last start that is no greater than a label, or else of the last start of all; 0 where there is none.
fn scanned(row: &Row, label: u16) -> u16 {
    if row.is_empty() {
        return 0;
    }
    let mut port = row.port(row.len() - 1);
    for i in 0..row.len() {
        if row.start(i) <= label {
            port = row.port(i);
        }
    }
    port
}

/// Whether a row gives each label its port, by at most three comparisons, and as a scan of its starts does.
fn finds(row: &Row, ports: &[Option<u16>]) -> bool {
    if row.is_empty() {
        return ports.len() == 1;
    }
    for (d, port) in ports.iter().enumerate() {
        let Ok(d) = u16::try_from(d) else {
            return false;
        };
        let (found, compared) = row.find_counted(d);
        let is_other = match port {
            Some(port) => *port != found,
            None => false,
        };
        if is_other || compared > 3 || found != row.find(d) || found != scanned(row, d) {
            return false;
        }
    }
    true
}

/// Whether ports that are known to be a list of destinations have the starts of a case.
fn is_known(alloc: Global, n: u16, case: &Case) -> bool {
    if !is_destinations(n, case.own, case.ports) {
        return false;
    }
    match canonical_row(alloc, n, case.own, case.ports) {
        Ok(row) => has_starts(&row, case.starts) && is_row_of_ports(alloc, n, case),
        Err(_) => false,
    }
}

/// Whether the ports of a case as plain numbers have its starts, whatever is at the own label.
fn is_row_of_ports(alloc: Global, n: u16, case: &Case) -> bool {
    let mut plain = Vec::new(alloc);
    for port in case.ports {
        if plain.push(port.unwrap_or(7)).is_err() {
            return false;
        }
    }
    if plain.len() != n as usize || case.own >= n {
        return false;
    }
    match row_of_ports(alloc, n, case.own, plain.as_slice()) {
        Ok(row) => has_starts(&row, case.starts),
        Err(_) => false,
    }
}

/// Whether the ports of a case are compiled to its row.
fn is_compiled(alloc: Global, case: &Case) -> bool {
    let Ok(n) = u16::try_from(case.ports.len()) else {
        return false;
    };
    let Ok(row) = compile(alloc, n, case.own, case.ports) else {
        return false;
    };
    has_starts(&row, case.starts) && finds(&row, case.ports) && is_known(alloc, n, case)
}

#[test]
fn rows_by_hand(rt: HostRuntime) -> Result<(), Fail> {
    for case in &CASES {
        if !is_compiled(rt.alloc(), case) {
            return Err(case.name.into());
        }
    }
    Ok(())
}

#[test]
fn an_interval_wraps(rt: HostRuntime) {
    let wraps = in_interval(6, 4, 1, 5) && !in_interval(6, 4, 1, 1) && in_interval(6, 3, 3, 0);
    assert!(rt; wraps);
}

#[test]
fn refuses_a_port_to_the_own_label(rt: HostRuntime) {
    let answer = compile(rt.alloc(), 3, 1, &[Some(0), Some(0), Some(0)]);
    assert!(rt; matches!(answer, Err(CompileError::BadRow)));
}

/// Whether each label but the own one has a port.
fn have_ports(own: u16, words: &[u32]) -> bool
    ensures { IsTrue result → (d : ℕ) → d < length words.now → d ≢ own → 0 < slice_index words.now d }
{
    for (d, word) in words.iter().enumerate() {
        if d != own as usize && *word == 0 {
            return false;
        }
    }
    true
}

/// Whether the longest runs of four labels are so.
fn are_runs(alloc: Global) -> bool {
    let words: [u32; 4] = [0, 0b01, 0b11, 0b10];
    if !have_ports(0, &words) {
        return false;
    }
    match runs_by_words(alloc, 4, 0, &words) {
        Ok((counts, ports)) => {
            counts.as_slice() == [3, 2, 3, 2].as_slice()
                && ports.as_slice() == [0, 0, 1, 1].as_slice()
        }
        Err(_) => false,
    }
}

#[test]
fn longest_runs_by_hand(rt: HostRuntime) {
    assert!(rt; are_runs(rt.alloc()));
}
