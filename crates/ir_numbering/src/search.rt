//! The search that goes on from the last node it came to.

ghost use Rattle.std.specs.Prelude.{◌≡◌, ◌<◌, ◌≤◌, ◌++◌, ◌∷◌, [], ℕ, length, All, IfOk, IfSome, OnOk, MatchOption, slice_set, true};
ghost use Rattle.ir_model.specs.{Numbering.IsDepthFirst};
ghost use Rattle.ir_numbering.specs.Search.{IsFirstUnmarked, IsUnmarkedAt, AllMarked, FirstMarked, ArePassed};
ghost use Rattle.ir_numbering.specs.Search.{AreAdjacent, IsClosed, list_at};

use std::alloc::{AllocError, Global};

/// Nodes in depth-first order, and the place of each one's parent in it.
#[derive(Drop)]
pub struct Order {
    pub nodes: Vec<u16>,
    pub parents: Vec<usize>,
}

/// The nodes that a root leads to, in depth-first order, by the list of the neighbours of each node. It is refused for
/// memory alone. Takes O(n + m), for n nodes and m neighbours.
pub fn search_lists(alloc: Global, lists: &[Vec<u16>], root: u16) -> Result<Order, AllocError>
    requires root { root < length lists.now }
    requires nodes { AreAdjacent lists.now }
    ensures all { IfOk result (λ order. length lists.now ≤ length order.nodes.items
        → IsDepthFirst (list_at lists.now) (length lists.now) root order.nodes.items order.parents.items) }
    ensures some { IfOk result (λ order. length order.nodes.items < length lists.now
        → IsClosed (list_at lists.now) root order.nodes.items) }
{
    let n = lists.len();
    let mut marked = vec![in alloc; false; n]?;
    let mut passed = vec![in alloc; 0usize; n]?;
    let mut nodes = Vec::new(alloc);
    let mut parents = Vec::new(alloc);
    let mut stack = Vec::new(alloc);
    marked[root as usize] = true;
    nodes.push(root)?;
    parents.push(0)?;
    stack.push(0)?;
    'search: while nodes.len() < n {
        let Some(top) = stack.pop() else {
            break;
        };
        if let Some(next) = mark_next(lists, nodes[top], &mut passed, &mut marked) {
            visit(&mut nodes, &mut parents, &mut stack, top, next)?;
        }
    }
    Ok(Order { nodes, parents })
}

// The search comes to a node from the one at this place: it is the last of the nodes, and the search goes on from it.
fn visit(
    nodes: &mut Vec<u16>,
    parents: &mut Vec<usize>,
    stack: &mut Vec<usize>,
    top: usize,
    next: u16,
) -> Result<(), AllocError>
    ensures nodes { OnOk result (nodes.new.items ≡ nodes.old.items ++ next ∷ []) }
    ensures parents { OnOk result (parents.new.items ≡ parents.old.items ++ top ∷ []) }
    ensures stack { OnOk result (stack.new.items ≡ (stack.old.items ++ top ∷ []) ++ length nodes.old.items ∷ []) }
{
    stack.push(top)?;
    stack.push(nodes.len())?;
    parents.push(top)?;
    nodes.push(next)?;
    Ok(())
}

// Marks the first neighbour of a node that has no mark. The neighbours that are known to have marks are passed over, so
// that each is looked at once, whatever the number of calls.
fn mark_next(
    lists: &[Vec<u16>],
    u: u16,
    passed: &mut Vec<usize>,
    marked: &mut Vec<bool>,
) -> Option<u16>
    requires node { u < length lists.now }
    requires nodes { AreAdjacent lists.now }
    requires marks { length marked.old.items ≡ length lists.now }
    requires passed { ArePassed lists.now marked.old.items passed.old.items }
    ensures node { IfSome result (λ x. x < length lists.now) }
    ensures first { MatchOption result (AllMarked marked.old.items (list_at lists.now u))
        (IsFirstUnmarked marked.old.items (list_at lists.now u)) }
    ensures marks { MatchOption result (marked.new.items ≡ marked.old.items)
        (λ x. marked.new.items ≡ slice_set marked.old.items x true) }
    ensures passed { ArePassed lists.now marked.new.items passed.new.items }
{
    let u = u as usize;
    let list = list_of(lists, u);
    let Some(place) = first_unmarked(list, passed[u], marked.as_slice()) else {
        return None;
    };
    let next = list[place];
    passed[u] = place;
    marked[next as usize] = true;
    Some(next)
}

// The list at a place.
fn list_of(lists: &[Vec<u16>], u: usize) -> &[u16]
    requires { u < length lists.now }
    ensures { result.now ≡ list_at lists.now u }
{
    lists[u].as_slice()
}

// The first place, from this one on, of a node without a mark; there is none at a place before it.
fn first_unmarked(nodes: &[u16], from: usize, marked: &[bool]) -> Option<usize>
    requires nodes { All (λ v. v < length marked.now) nodes.now }
    requires from { FirstMarked marked.now nodes.now from }
    ensures place { IfSome result (λ p. p < length nodes.now) }
    ensures unmarked { MatchOption result (AllMarked marked.now nodes.now) (IsUnmarkedAt marked.now nodes.now) }
{
    for p in from..nodes.len() {
        if !marked[nodes[p] as usize] {
            return Some(p);
        }
    }
    None
}
