//! Orders of nodes, line by line: each line has the name of a node, and the labels of a numbering are the places in it.
ghost use Rattle.std.specs.Prelude.{◌≡◌, ◌≢◌, ◌<◌, ◌++◌, false, true, length, option_to_list, IfOk, IfErr, IfSome, OnOk};
ghost use Rattle.ir_model.specs.{Graph.names, Text.lines};
ghost use Rattle.ir_numbering.specs.Numbering.{IsListing};
ghost use Rattle.ir_script.specs.Order.{order_fault, IsOrder, OrderTold, told_order};
ghost use Rattle.ir_script.specs.Steps.{line_node, has_place, with_place};

use crate::order_fault::{OrderFault, OrderFaultKind};
use crate::word::node_of;
use ir_adjlist::scan;
use ir_graph::Graph;
use std::alloc::Global;

/// The fault of a line.
fn fault_at(line: usize, kind: OrderFaultKind) -> OrderFault
    ensures { result ≡ told_order line kind }
{
    match kind {
        OrderFaultKind::NoMemory => OrderFault { line: 0, kind },
        _ => OrderFault { line, kind },
    }
}

/// The node that a line names; none where it has no word.
fn line_node(graph: &Graph, line: &[u8]) -> Result<Option<u16>, OrderFaultKind>
    ensures node { result ≡ line_node (names graph.now) line.now }
    ensures within { IfOk result (λ node. IfSome node (λ u. u < length graph.now)) }
{
    let words = scan::without_comment(line);
    if !scan::all_plain(words) {
        return Err(OrderFaultKind::BadByte);
    }
    let Some((word, rest)) = scan::next_word(words) else {
        return Ok(None);
    };
    if scan::next_word(rest).is_some() {
        return Err(OrderFaultKind::BadRow);
    }
    match node_of(graph, word) {
        Ok(u) => Ok(Some(u)),
        Err(_) => Err(OrderFaultKind::UnknownNode),
    }
}

/// Gives a node the next place of an order, if there is one and it has no place yet.
fn place(
    order: &mut Vec<u16>,
    placed: &mut Vec<bool>,
    node: Option<u16>,
) -> Result<(), OrderFaultKind>
    requires { IfSome node (λ u. u < length placed.old.items) }
    ensures free { OnOk result (has_place placed.old.items node ≡ false) }
    ensures order { OnOk result (order.new.items ≡ order.old.items ++ option_to_list node) }
    ensures placed { OnOk result (placed.new.items ≡ with_place placed.old.items node) }
    ensures twice { IfErr result (λ kind. kind ≢ OrderFaultKind.NoMemory → (kind ≡ OrderFaultKind.Twice)
        × (has_place placed.old.items node ≡ true)) }
{
    let Some(u) = node else {
        return Ok(());
    };
    if placed[u as usize] {
        return Err(OrderFaultKind::Twice);
    }
    placed[u as usize] = true;
    order.push(u).map_err(|_| OrderFaultKind::NoMemory)
}

/// The nodes of a graph in the order in which a text names them, a name on each line. Lines, blanks
/// and comments are as in the texts of a topology; a line with no word is skipped, and counts. The
/// faults of a line, in order: `BadByte`; `BadRow` where it has more than one word; `UnknownNode`;
/// `Twice`. Else `Missing`, with the last line, where a node is not named. NoMemory may come before
/// these. Takes O(n + b) on average, for n nodes and a text of b bytes.
pub fn read_order(alloc: Global, graph: &Graph, text: &[u8]) -> Result<Vec<u16>, OrderFault>
    ensures order { IfOk result (λ order. IsOrder (names graph.now) (lines text.now) order.items) }
    ensures listing { IfOk result (λ order. IsListing (length graph.now) order.items) }
    ensures fault { IfErr result (λ e. OrderTold e (order_fault (names graph.now) (lines text.now))) }
{
    let mut order = Vec::new(alloc);
    let mut placed = vec![in alloc; false; graph.number_of_nodes()]?;
    let mut rest = text;
    let mut line = 0;
    while !rest.is_empty() {
        let (current, after) = scan::next_line(rest);
        line += 1;
        let node = match line_node(graph, current) {
            Ok(node) => node,
            Err(kind) => return Err(fault_at(line, kind)),
        };
        if let Err(kind) = place(&mut order, &mut placed, node) {
            return Err(fault_at(line, kind));
        }
        rest = after;
    }
    if order.len() < graph.number_of_nodes() {
        return Err(fault_at(line, OrderFaultKind::Missing));
    }
    Ok(order)
}
