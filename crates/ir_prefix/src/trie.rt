//! The trie of the labels, each node with the names by which it needs the fewest prefixes.

ghost use Rattle.std.specs.Prelude.{◌≡◌, ◌<◌, ◌≤◌, ◌+◌, ◌*◌, ◌^◌, ℕ, None, Some, length, IfOk, IfSome, OnOk};
ghost use Rattle.std.specs.List.Sorted.{IsNonDecreasing};
ghost use Rattle.ir_prefix.specs.{Described.{Describes, IsFree, Trie, names_of}, Runs.AreRuns};
ghost use Rattle.ir_prefix.specs.Nodes.{Grows, HoldsNode, IsMerged, StandsIn, StandsOver};
ghost use Rattle.ir_prefix.specs.declared.trie.TrieNode.TheVariants.{NoPort};

use crate::names::join;
use crate::runs::{LabelRun, PrefixBlock, block_of};
use std::alloc::AllocError;

/// What lies below a node: no port, one port, or several.
#[derive(Clone, Copy)]
pub enum TrieNode {
    NoPort,
    OnePort(u16),
    Several(Places),
}

/// Where the names of a node with several ports are, ascending, and where its two halves.
#[derive(Clone, Copy)]
pub struct Places {
    pub first: usize,
    pub end: usize,
    pub left: usize,
    pub right: usize,
}

/// The nodes of a trie, each after its halves, and their names.
#[derive(Drop)]
pub struct Nodes {
    pub list: Vec<TrieNode>,
    pub names: Vec<u16>,
}

/// Adds the node so high above the labels, the index-th of its height, after all below it, and answers its place. What
/// is in the room before does not matter.
pub fn push_trie(
    ports: &[Option<u16>],
    runs: &[LabelRun],
    height: u8,
    index: u32,
    nodes: &mut Nodes,
    room: &mut Vec<u16>,
) -> Result<usize, AllocError>
    requires runs { AreRuns ports.now runs.now }
    requires inside { (index + 1) * 2 ^ height ≤ 2 ^ 16 }
    ensures grows { OnOk result (Grows nodes.old nodes.new) }
    ensures stands { IfOk result (λ place. (t : Trie) × Describes ports.now height index t
        × StandsIn nodes.new place t) }
{
    match block_of(ports, runs, height, index) {
        PrefixBlock::Beyond => push_node(nodes, TrieNode::NoPort),
        PrefixBlock::Unsent => push_node(nodes, TrieNode::NoPort),
        PrefixBlock::OnePort(port) => push_node(nodes, TrieNode::OnePort(port)),
        PrefixBlock::Mixed => {
            let left = push_trie(ports, runs, height - 1, 2 * index, nodes, room)?;
            let right = push_trie(ports, runs, height - 1, 2 * index + 1, nodes, room)?;
            push_parent(nodes, room, left, right)
        }
    }
}

// Adds a node, and answers its place.
fn push_node(nodes: &mut Nodes, node: TrieNode) -> Result<usize, AllocError>
    ensures grows { OnOk result (Grows nodes.old nodes.new) }
    ensures holds { IfOk result (λ place. HoldsNode nodes.new.list.items place node) }
    ensures names { OnOk result (nodes.new.names.items ≡ nodes.old.names.items) }
{
    let place = nodes.list.len();
    let Ok(()) = nodes.list.push(node) else {
        return Err(AllocError);
    };
    Ok(place)
}

// Adds the node of two halves.
fn push_parent(
    nodes: &mut Nodes,
    room: &mut Vec<u16>,
    left: usize,
    right: usize,
) -> Result<usize, AllocError>
    requires left { (l : Trie) × IsNonDecreasing (names_of l) × StandsIn nodes.old left l }
    requires right { (r : Trie) × StandsIn nodes.old right r }
    ensures grows { OnOk result (Grows nodes.old nodes.new) }
    ensures stands { IfOk result (λ place. (l r : Trie) → StandsIn nodes.old left l → StandsIn nodes.old right r
        → StandsOver l r nodes.new place) }
{
    if let Some(node) = merged(nodes.list[left], nodes.list[right]) {
        return push_node(nodes, node);
    }
    push_fork(nodes, room, left, right)
}

// The node of two halves with no port or one.
fn merged(left: TrieNode, right: TrieNode) -> Option<TrieNode>
    ensures free { result ≡ None → left ≡ NoPort → right ≡ NoPort → ⊥ }
    ensures merged { IfSome result (λ node. IsMerged left right node) }
{
    match (left, right) {
        (TrieNode::NoPort, TrieNode::NoPort) => Some(TrieNode::NoPort),
        (TrieNode::NoPort, TrieNode::OnePort(port)) => Some(TrieNode::OnePort(port)),
        (TrieNode::OnePort(port), TrieNode::NoPort) => Some(TrieNode::OnePort(port)),
        (TrieNode::OnePort(port), TrieNode::OnePort(other)) if port == other => Some(
            TrieNode::OnePort(port),
        ),
        _ => None,
    }
}

// Adds the node of two halves with several ports.
fn push_fork(
    nodes: &mut Nodes,
    room: &mut Vec<u16>,
    left: usize,
    right: usize,
) -> Result<usize, AllocError>
    requires left { (l : Trie) × IsNonDecreasing (names_of l) × StandsIn nodes.old left l }
    requires right { (r : Trie) × StandsIn nodes.old right r }
    ensures grows { OnOk result (Grows nodes.old nodes.new) }
    ensures stands { IfOk result (λ place. (l r : Trie) → StandsIn nodes.old left l → StandsIn nodes.old right r
        → (IsFree l → IsFree r → ⊥) → StandsOver l r nodes.new place) }
{
    join(room, names_at(nodes, left), names_at(nodes, right))?;
    let first = nodes.names.len();
    nodes.names.extend_from_slice(room.as_slice())?;
    let end = nodes.names.len();
    push_node(
        nodes,
        TrieNode::Several(Places {
            first,
            end,
            left,
            right,
        }),
    )
}

/// The names of a node.
pub fn names_at(nodes: &Nodes, place: usize) -> &[u16]
    requires { (t : Trie) × StandsIn nodes.now place t }
    ensures { (t : Trie) → StandsIn nodes.now place t → result.now ≡ names_of t }
{
    match &nodes.list[place] {
        TrieNode::NoPort => &[],
        TrieNode::OnePort(port) => std::slice::from_ref(port),
        TrieNode::Several(places) => nodes.names.get(places.first..places.end).unwrap(),
    }
}
