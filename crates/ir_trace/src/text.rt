//! Words, numbers and names at the end of a text.
ghost use Rattle.std.specs.Prelude.{◌≡◌, ◌<◌, ◌++◌, true, OnOk, length, nat_lt, string_bytes, decimal, flat_map, map};
ghost use Rattle.std.specs.List.{list_all};
ghost use Rattle.ir_model.specs.Graph.{names};
ghost use Rattle.ir_trace.specs.{Rows.spaced, Written.name_at};

use ir_graph::Graph;
use std::alloc::AllocError;

/// Writes a number.
pub(crate) fn push_number(text: &mut String, n: usize) -> Result<(), AllocError>
    ensures { OnOk result (string_bytes text.new ≡ string_bytes text.old ++ decimal n) }
{
    write!(text, "{n}")
}

/// Writes a space and a number.
pub fn push_next_number(text: &mut String, n: usize) -> Result<(), AllocError>
    ensures { OnOk result (string_bytes text.new ≡ string_bytes text.old ++ spaced (decimal n)) }
{
    write!(text, " {n}")
}

/// Writes a space and a word. Takes O(b), for b bytes.
pub fn push_word(text: &mut String, word: &str) -> Result<(), AllocError>
    ensures { OnOk result (string_bytes text.new ≡ string_bytes text.old ++ spaced word.now) }
{
    write!(text, " {word}")
}

/// The name of a node. Condition: it is a node of the graph.
pub fn name_of(graph: &Graph, node: u16) -> &str
    requires { node < length graph.now }
    ensures { result.now ≡ name_at (names graph.now) node }
{
    graph.node(node as usize).unwrap()
}

/// Writes a space and the name of a node. Condition: it is a node of the graph.
pub fn push_name(text: &mut String, graph: &Graph, node: u16) -> Result<(), AllocError>
    requires { node < length graph.now }
    ensures { OnOk result (string_bytes text.new ≡ string_bytes text.old ++ spaced (name_at (names graph.now) node)) }
{
    push_word(text, name_of(graph, node))
}

/// Writes a space and a name for each node of a list.
pub(crate) fn push_names(text: &mut String, graph: &Graph, nodes: &[u16]) -> Result<(), AllocError>
    requires { list_all (λ x. nat_lt x (length graph.now)) nodes.now ≡ true }
    ensures { OnOk result (string_bytes text.new ≡ string_bytes text.old
        ++ flat_map spaced (map (name_at (names graph.now)) nodes.now)) }
{
    for node in nodes {
        push_name(text, graph, *node)?;
    }
    Ok(())
}
