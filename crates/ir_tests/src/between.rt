//! What nodes change between the plans of two networks, as text.

use ir_adjlist::parse_adjlist;
use ir_graph::Graph;
use ir_patches::{OtherNode, diff_text, other_node};
use ir_plan::{Kind, Plan};
use ir_tables::Topology;
use std::alloc::Global;
use std::test::Fail;

/// Two networks, and the text of what nodes change between their plans of kind shortest, numbered from their first
/// nodes.
struct Between {
    name: &'static str,
    old: &'static [u8],
    new: &'static [u8],
    text: &'static str,
}

// Expected texts from a plain comparison of the lines of `route plan`.
static CASES: [Between; 5] = [
    Between {
        name: "the same network",
        old: b"a b c\nb c\n",
        new: b"a b c\nb c\n",
        text: "diff shortest shortest 3 0 0 0 0\n",
    },
    Between {
        name: "a ring of four nodes without its last link",
        old: b"a b\nb c\nc d\nd a\n",
        new: b"a b\nb c\nc d\n",
        text: "diff shortest shortest 4 3 0 3 2\na 0 0 - 3\nb 1 1 + 0 a - 3\nd 3 3 + 0 c - 1\n",
    },
    Between {
        name: "two labels that change places",
        old: b"a b c\n",
        new: b"a c b\n",
        text: "diff shortest shortest 3 3 2 2 4\na 0 0 + 1 c + 2 b\nc 2 1 - 0 + 2 a\nb 1 2 + 0 a - 2\n",
    },
    Between {
        name: "a ring of three nodes in another order",
        old: b"a b\nb c\nc a\n",
        new: b"b c a\na c\n",
        text: "diff shortest shortest 3 3 3 3 6\nb 1 0 - 0 + 1 c + 2 a\nc 2 1 + 0 b - 1 + 2 a\na 0 2 + 0 b + 1 c - 2\n",
    },
    Between {
        name: "another root, so that all labels change",
        old: b"a b c d e\n",
        new: b"e a\na d c b\n",
        text: "diff shortest shortest 5 5 5 5 8\ne 4 0 - 0 + 1 a\na 0 1 + 0 e - 1 + 2 d + 3 c + 4 b\nd 3 2 + 3 a - 4\nc 2 3 - 3 + 4 a\nb 1 4 + 0 a - 2\n",
    },
];

/// The plan of kind shortest over a graph's network, numbered from its first node.
fn plan_of(alloc: Global, graph: &Graph) -> Option<Plan> {
    let topology = Topology::of(alloc, graph).ok()?;
    Plan::build(alloc, topology, Kind::Shortest, 0).ok()
}

/// The text of what nodes change between the networks of two texts.
fn text_between(alloc: Global, old: &[u8], new: &[u8]) -> Option<String> {
    let old_graph = parse_adjlist(alloc, old).ok()?;
    let new_graph = parse_adjlist(alloc, new).ok()?;
    let old = plan_of(alloc, &old_graph)?;
    let new = plan_of(alloc, &new_graph)?;
    if old.nodes() != old_graph.number_of_nodes() || new.nodes() != new_graph.number_of_nodes() {
        return None;
    }
    diff_text(alloc, &old_graph, &old, &new_graph, &new).ok()
}

#[test]
fn nodes_change_so(rt: HostRuntime) -> Result<(), Fail> {
    for case in CASES.iter() {
        let Some(text) = text_between(rt.alloc(), case.old, case.new) else {
            return Err(case.name.into());
        };
        if text.as_str() != case.text {
            return Err(case.name.into());
        }
    }
    Ok(())
}

/// The first node that one of the networks of two texts has and the other has not.
fn other_between(alloc: Global, old: &[u8], new: &[u8]) -> Option<Option<OtherNode>> {
    let old = parse_adjlist(alloc, old).ok()?;
    let new = parse_adjlist(alloc, new).ok()?;
    Some(other_node(&old, &new))
}

#[test]
fn networks_have_other_nodes(rt: HostRuntime) {
    let alloc = rt.alloc();
    assert!(rt; other_between(alloc, b"a b\nb c\n", b"c b\na b\n") == Some(None));
    assert!(rt; other_between(alloc, b"a b\n", b"a b\nb c\n") == Some(Some(OtherNode::Unknown(2))));
    assert!(rt; other_between(alloc, b"a b\nb c\n", b"c b\n") == Some(Some(OtherNode::Missing(0))));
    assert!(rt; other_between(alloc, b"a b\n", b"c d\n") == Some(Some(OtherNode::Unknown(0))));
}
