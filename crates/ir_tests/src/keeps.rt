//! Labels that installs keep, and a line that numbers anew.

use crate::networks::topology_of;
use ir_core::{Event, Install, Kind, Opening, Played, Reply, Step, installs, play};
use std::alloc::Global;

/// Installs over a ring, of which one link goes down.
const STEPS: [Step; 6] = [
    Step::Event(Event::Install(Kind::Shortest, 3)),
    Step::Event(Event::Down(0)),
    Step::Event(Event::Install(Kind::Compact, 0)),
    Step::Event(Event::Renumber(Kind::Shortest, 2)),
    Step::Event(Event::Install(Kind::Tree, 0)),
    Step::Event(Event::Install(Kind::Shortest, 1)),
];

/// The first node of the order that the plan of each epoch kept: that of the opening twice, and that of the tree.
const FIRST_KEPT: [Option<u16>; 6] = [None, Some(1), Some(1), None, None, Some(0)];

/// The ring, opened by shortest paths from node 1.
fn ring(alloc: Global) -> Option<Opening> {
    let edges = [("a", "b", 1), ("b", "c", 1), ("c", "d", 1), ("d", "a", 1)];
    let topology = topology_of(alloc, &edges)?;
    Some(Opening::of(topology, Kind::Shortest, 1, 16, 16, 0))
}

/// The first node of the order that an install kept.
fn first_kept(install: &Install) -> Option<u16> {
    match &install.kept {
        Some(nodes) => nodes.get(0).copied(),
        None => None,
    }
}

/// Whether installs kept orders of four nodes that begin so, or none.
fn are_kept(built: &[Install], wanted: &[Option<u16>]) -> bool {
    if built.len() != wanted.len() {
        return false;
    }
    for (install, first) in built.iter().zip(wanted) {
        let is_whole = match &install.kept {
            Some(nodes) => nodes.len() == 4,
            None => true,
        };
        if !is_whole || first_kept(install) != *first {
            return false;
        }
    }
    true
}

/// Whether the installs of an opening kept these.
fn is_kept(alloc: Global, opening: &Opening, wanted: &[Option<u16>]) -> bool {
    match installs(alloc, opening, &STEPS) {
        Ok(built) => are_kept(built.as_slice(), wanted),
        Err(_) => false,
    }
}

/// Whether a run of the opening installs all of them.
fn is_played(alloc: Global, opening: Opening) -> bool {
    match play(alloc, opening, &STEPS) {
        Ok(Played { world: _, replies }) => replies.as_slice().last()
            == Some(&Ok(Reply::Installed(6))),
        Err(_) => false,
    }
}

#[test]
fn installs_keep_the_labels_of_the_epoch_before(rt: HostRuntime) {
    let keeping = ring(rt.alloc()).map(|opening| opening.keeping());
    let is_so = match &keeping {
        Some(opening) => is_kept(rt.alloc(), opening, &FIRST_KEPT),
        None => false,
    };
    assert!(rt; is_so);
    let is_played = match keeping {
        Some(opening) => is_played(rt.alloc(), opening),
        None => false,
    };
    assert!(rt; is_played);
}

#[test]
fn installs_keep_nothing_where_they_are_not_asked(rt: HostRuntime) {
    let is_so = match ring(rt.alloc()) {
        Some(opening) => is_kept(rt.alloc(), &opening, &[None; 6]),
        None => false,
    };
    assert!(rt; is_so);
}
