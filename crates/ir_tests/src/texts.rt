//! Topology texts, read and written.

use ir_adjlist::{
    generate_adjlist, generate_weighted_edgelist, parse_adjlist, parse_weighted_edgelist,
};
use ir_graph::Graph;
use std::alloc::Global;
use std::test::Fail;

/// A text, the text that is written of its graph, how many nodes that has, and nodes with a neighbor and its place.
struct Reading {
    text: &'static [u8],
    written: &'static [u8],
    nodes: usize,
    neighbors: &'static [(&'static str, usize, &'static str)],
}

/// Adjacency lists, of which the third is what is written of the second.
static LISTS: [Reading; 4] = [
    Reading {
        text: b"#x.py\n# GMT\n#\n\na a b\nb c # y\nc",
        written: b"a a b\nb c\nc\n",
        nodes: 3,
        neighbors: &[("b", 0, "a"), ("b", 1, "c")],
    },
    Reading {
        text: b"a b c\nc d\nb d\n",
        written: b"a b c\nb d\nc d\nd\n",
        nodes: 4,
        neighbors: &[("d", 0, "c"), ("d", 1, "b")],
    },
    Reading {
        text: b"a b c\nb d\nc d\nd\n",
        written: b"a b c\nb d\nc d\nd\n",
        nodes: 4,
        neighbors: &[("d", 0, "b"), ("d", 1, "c")],
    },
    Reading {
        text: b"0 1 2 3\n1 2 3\n2 3\n3 4\n4 5\n5 6\n6\n",
        written: b"0 1 2 3\n1 2 3\n2 3\n3 4\n4 5\n5 6\n6\n",
        nodes: 7,
        neighbors: &[],
    },
];

/// Weighted edge lists.
static WEIGHTED: [Reading; 3] = [
    Reading {
        text: b"a b 2\nb c 3.0\nx\na b 5\n",
        written: b"a b 5\nb c 3\n",
        nodes: 3,
        neighbors: &[("b", 0, "a"), ("b", 1, "c")],
    },
    Reading {
        text: b"a b 007",
        written: b"a b 7\n",
        nodes: 2,
        neighbors: &[],
    },
    Reading {
        text: b"a b 65535",
        written: b"a b 65535\n",
        nodes: 2,
        neighbors: &[],
    },
];

/// Whether a graph has these neighbors.
fn has_neighbors(graph: &Graph, neighbors: &[(&str, usize, &str)]) -> bool {
    for (node, place, neighbor) in neighbors {
        if graph.neighbor(node, *place) != Some(*neighbor) {
            return false;
        }
    }
    true
}

/// Whether a graph is the one that was to be read, and is written so.
fn is_read(graph: &Graph, written: &[u8], wanted: &Reading) -> bool {
    written == wanted.written
        && graph.number_of_nodes() == wanted.nodes
        && has_neighbors(graph, wanted.neighbors)
}

/// Whether an adjacency list is read and written as it is to be.
fn is_listed(alloc: Global, wanted: &Reading) -> bool {
    let Ok(graph) = parse_adjlist(alloc, wanted.text) else {
        return false;
    };
    match generate_adjlist(alloc, &graph) {
        Ok(written) => is_read(&graph, written.as_slice(), wanted),
        Err(_) => false,
    }
}

/// Whether a weighted edge list is read and written as it is to be.
fn is_weighted(alloc: Global, wanted: &Reading) -> bool {
    let Ok(graph) = parse_weighted_edgelist(alloc, wanted.text) else {
        return false;
    };
    match generate_weighted_edgelist(alloc, &graph) {
        Ok(written) => is_read(&graph, written.as_slice(), wanted),
        Err(_) => false,
    }
}

#[test]
fn adjacency_lists_are_read_and_written(rt: HostRuntime) -> Result<(), Fail> {
    for wanted in &LISTS {
        if !is_listed(rt.alloc(), wanted) {
            return Err("another adjacency list".into());
        }
    }
    Ok(())
}

#[test]
fn edge_lists_are_read_and_written(rt: HostRuntime) -> Result<(), Fail> {
    for wanted in &WEIGHTED {
        if !is_weighted(rt.alloc(), wanted) {
            return Err("another edge list".into());
        }
    }
    Ok(())
}

#[test]
fn faults_have_numbers(rt: HostRuntime) {
    let has_number = match parse_weighted_edgelist(rt.alloc(), b"x\na b 3 4".as_slice()) {
        Ok(_) => false,
        Err(error) => error.line == 2 && error.code() == 3,
    };
    assert!(rt; has_number);
}
