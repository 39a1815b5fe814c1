//! Names between quotes, as Graphviz reads them.
ghost use Rattle.std.specs.Prelude.{◌≡◌, ◌<◌, ◌++◌, true, OnOk, length, string_bytes};
ghost use Rattle.ir_model.specs.Graph.{names};
ghost use Rattle.ir_trace.specs.{Rows.is_word, Written.name_at};
ghost use Rattle.ir_show.specs.Quoted.{escaped_byte, escaped, quoted};

use crate::TextResult;
use ir_graph::Graph;
use ir_trace::text::name_of;

/// Writes a byte of a text between quotes.
fn push_escaped_byte(text: &mut String, byte: u8) -> TextResult
    requires { byte < 128 }
    ensures { OnOk result (string_bytes text.new ≡ string_bytes text.old ++ escaped_byte byte) }
{
    if byte == b'"' || byte == b'\\' {
        text.push('\\')?;
    }
    text.push(byte as char)
}

/// Writes a word as it is between quotes.
fn push_escaped(text: &mut String, word: &str) -> TextResult
    requires { is_word word.now ≡ true }
    ensures { OnOk result (string_bytes text.new ≡ string_bytes text.old ++ escaped word.now) }
{
    let bytes = word.as_bytes();
    for byte in bytes {
        push_escaped_byte(text, *byte)?;
    }
    Ok(())
}

/// Writes the name of a node as it is between quotes.
pub fn push_escaped_name(text: &mut String, graph: &Graph, u: u16) -> TextResult
    requires { u < length graph.now }
    ensures { OnOk result (string_bytes text.new ≡ string_bytes text.old ++ escaped (name_at (names graph.now) u)) }
{
    graph.invariant();
    push_escaped(text, name_of(graph, u))
}

/// Writes the name of a node between quotes.
pub fn push_quoted(text: &mut String, graph: &Graph, u: u16) -> TextResult
    requires { u < length graph.now }
    ensures { OnOk result (string_bytes text.new ≡ string_bytes text.old ++ quoted (name_at (names graph.now) u)) }
{
    text.push_str("\"")?;
    push_escaped_name(text, graph, u)?;
    text.push_str("\"")
}
