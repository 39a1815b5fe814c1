//! The plans of small networks: the label and the starts of each node.

ghost use Rattle.std.specs.Prelude.{◌<◌};
ghost use Rattle.ir_model.specs.Topology.{node_count};

use crate::networks::{Edge, HEAVY, PATH, RING, topology_of};
use ir_plan::{Detour, Kind, Plan, PlanError};
use ir_tables::Topology;
use std::alloc::Global;
use std::test::Fail;

/// Whether a node has this label and these starts, each with its port.
fn shows(plan: &Plan, u: u16, label: u16, starts: &[(u16, u16)]) -> bool
    requires { u < node_count plan.now.topology }
{
    let row = plan.row(u);
    if plan.label_of(u) != label || row.len() != starts.len() {
        return false;
    }
    for (i, start) in starts.iter().enumerate() {
        if row.start(i) != start.0 || row.port(i) != start.1 {
            return false;
        }
    }
    true
}

/// A plan of a network: for each node its label and its starts, each with its port.
struct Case {
    name: &'static str,
    edges: &'static [Edge],
    kind: Kind,
    root: u16,
    rows: &'static [(u16, &'static [(u16, u16)])],
}

const PLANS: [Case; 11] = [
    Case {
        name: "one node",
        edges: &[("a", "a", 1)],
        kind: Kind::Shortest,
        root: 0,
        rows: &[(0, &[])],
    },
    Case {
        name: "the tree of a path",
        edges: &PATH,
        kind: Kind::Tree,
        root: 1,
        rows: &[(1, &[(2, 0)]), (0, &[(1, 0), (2, 1)]), (2, &[(0, 0)])],
    },
    Case {
        name: "a path has no tie",
        edges: &PATH,
        kind: Kind::Compact,
        root: 1,
        rows: &[(1, &[(2, 0)]), (0, &[(1, 0), (2, 1)]), (2, &[(0, 0)])],
    },
    Case {
        name: "shortest ways of a ring",
        edges: &RING,
        kind: Kind::Shortest,
        root: 0,
        rows: &[
            (0, &[(1, 0), (3, 1)]),
            (1, &[(2, 1), (3, 0)]),
            (3, &[(0, 0), (2, 1)]),
            (2, &[(0, 0), (3, 1)]),
        ],
    },
    Case {
        name: "the fewest intervals of a ring",
        edges: &RING,
        kind: Kind::Compact,
        root: 0,
        rows: &[
            (0, &[(1, 0), (3, 1)]),
            (1, &[(0, 0), (2, 1)]),
            (3, &[(0, 0), (2, 1)]),
            (2, &[(1, 0), (3, 1)]),
        ],
    },
    Case {
        name: "shortest ways go round the heavy link",
        edges: &HEAVY,
        kind: Kind::Shortest,
        root: 0,
        rows: &AROUND,
    },
    Case {
        name: "the ways round the heavy link have no tie",
        edges: &HEAVY,
        kind: Kind::Compact,
        root: 0,
        rows: &AROUND,
    },
    Case {
        name: "the tree goes by the heavy link",
        edges: &HEAVY,
        kind: Kind::Tree,
        root: 0,
        rows: &[
            (0, &[(1, 0)]),
            (1, &[(0, 0), (2, 1)]),
            (2, &[(0, 1), (3, 2), (4, 3), (5, 4)]),
            (3, &[(4, 0)]),
            (4, &[(5, 0)]),
            (5, &[(0, 0)]),
        ],
    },
    Case {
        name: "round a ring by one landmark",
        edges: &RING,
        kind: Kind::Landmark(THREEFOLD),
        root: 0,
        rows: &[
            (0, &[(1, 0), (3, 1)]),
            (1, &[(2, 1), (3, 0)]),
            (3, &[(0, 0), (2, 1)]),
            (2, &[(3, 0)]),
        ],
    },
    Case {
        name: "round a ring by two landmarks",
        edges: &RING,
        kind: Kind::Landmark(BY_TWO),
        root: 0,
        rows: &[
            (0, &[(1, 1), (2, 0)]),
            (2, &[(0, 0), (3, 1)]),
            (1, &[(2, 0)]),
            (3, &[(0, 0)]),
        ],
    },
    Case {
        name: "blocks of two landmarks by the heavy link",
        edges: &HEAVY,
        kind: Kind::Landmark(BY_TWO),
        root: 0,
        rows: &[
            (0, &[(1, 0), (3, 1)]),
            (1, &[(2, 2), (3, 0)]),
            (3, &[(0, 0), (4, 2), (5, 4)]),
            (4, &[(5, 0)]),
            (2, &[(3, 1)]),
            (5, &[(0, 0)]),
        ],
    },
];

/// The ways by one landmark, and by two, of at most three times the distance.
const THREEFOLD: Detour = Detour {
    landmarks: 1,
    stretch: 300,
};

const BY_TWO: Detour = Detour {
    landmarks: 2,
    stretch: 300,
};

/// The rows of shortest ways round the heavy link.
const AROUND: [(u16, &'static [(u16, u16)]); 6] = [
    (0, &[(1, 0), (2, 1), (4, 0), (5, 1)]),
    (1, &[(4, 2), (5, 0)]),
    (2, &[(0, 0), (3, 2), (4, 0), (5, 4)]),
    (3, &[(4, 0)]),
    (4, &[(5, 1)]),
    (5, &[(0, 0)]),
];

/// Whether a plan has these rows and no more.
fn has_rows(plan: &Plan, rows: &[(u16, &[(u16, u16)])]) -> bool {
    let mut starts = 0usize;
    for (u, row) in rows.iter().enumerate() {
        if u >= plan.nodes() || !shows(plan, u as u16, row.0, row.1) {
            return false;
        }
        starts = starts.saturating_add(row.1.len());
    }
    plan.nodes() == rows.len() && plan.labels() == starts
}

/// The plan of a case.
fn plan_of(alloc: Global, case: &Case) -> Option<Plan> {
    let topology = topology_of(alloc, case.edges)?;
    match Plan::build(alloc, topology, case.kind, case.root) {
        Ok(plan) => Some(plan),
        Err(_) => None,
    }
}

/// Whether the plan of a case is as it is to be.
fn is_planned(alloc: Global, case: &Case) -> bool {
    match plan_of(alloc, case) {
        Some(plan) => {
            has_rows(&plan, case.rows) && plan.kind() == case.kind && plan.root() == case.root
        }
        None => false,
    }
}

#[test]
fn plans_by_hand(rt: HostRuntime) -> Result<(), Fail> {
    for case in &PLANS {
        if !is_planned(rt.alloc(), case) {
            return Err(case.name.into());
        }
    }
    Ok(())
}

/// Whether the shortest ways of the ring go by these ports, and have node 3 by its label.
fn goes_around(alloc: Global, ring: Topology) -> bool {
    let Ok(plan) = Plan::build(alloc, ring, Kind::Shortest, 0) else {
        return false;
    };
    plan.nodes() == 4
        && plan.node_of(2) == 3
        && plan.port(0, 3) == Some(1)
        && plan.port(2, 3).is_none()
}

#[test]
fn ports_by_address(rt: HostRuntime) {
    let goes_around = match topology_of(rt.alloc(), &RING) {
        Some(ring) => goes_around(rt.alloc(), ring),
        None => false,
    };
    assert!(rt; goes_around);
}

/// The edges of a network, a root, why no plan of it is built, and how many nodes come back.
static NO_PLANS: [(&'static [Edge], u16, PlanError, usize); 3] = [
    (&[], 0, PlanError::Empty, 0),
    (&PATH, 3, PlanError::NoNode, 3),
    (
        &[("a", "b", 1), ("c", "d", 1)],
        0,
        PlanError::Disconnected,
        4,
    ),
];

/// Why no tree plan is built, and how many nodes come back.
fn refusal(alloc: Global, edges: &[Edge], root: u16) -> Option<(PlanError, usize)> {
    let topology = topology_of(alloc, edges)?;
    match Plan::build(alloc, topology, Kind::Tree, root) {
        Ok(_plan) => None,
        Err((error, back)) => Some((error, back.nodes())),
    }
}

#[test]
fn plans_refused(rt: HostRuntime) -> Result<(), Fail> {
    for (edges, root, why, nodes) in &NO_PLANS {
        if refusal(rt.alloc(), edges, *root) != Some((*why, *nodes)) {
            return Err("another refusal".into());
        }
    }
    Ok(())
}
