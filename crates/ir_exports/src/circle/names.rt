//! Names as they are in XML.
ghost use Rattle.std.specs.Prelude.{◌≡◌, ◌<◌, ◌≤◌, ◌++◌, true, OnOk, length, take, string_bytes};
ghost use Rattle.ir_model.specs.Graph.{names};
ghost use Rattle.ir_trace.specs.{Rows.is_word, Written.name_at};
ghost use Rattle.ir_exports.specs.Names.{xml_byte, xml, short_name};

use ir_graph::Graph;
use ir_show::TextResult;
use ir_trace::text::name_of;

fn push_xml_byte(text: &mut String, byte: u8) -> TextResult
    requires { byte < 128 }
    ensures { OnOk result (string_bytes text.new ≡ string_bytes text.old ++ xml_byte byte) }
{
    if byte == b'&' {
        text.push_str("&amp;")
    } else if byte == b'<' {
        text.push_str("&lt;")
    } else if byte == b'>' {
        text.push_str("&gt;")
    } else {
        text.push(byte as char)
    }
}

/// Writes the first bytes of a word in XML.
fn push_front(text: &mut String, word: &str, most: usize) -> TextResult
    requires word { is_word word.now ≡ true }
    requires most { most ≤ length word.now }
    ensures { OnOk result (string_bytes text.new ≡ string_bytes text.old ++ xml (take most word.now)) }
{
    let bytes = word.as_bytes();
    for i in 0..most {
        push_xml_byte(text, bytes[i])?;
    }
    Ok(())
}

/// Writes the name of a node in XML.
pub fn push_xml_name(text: &mut String, graph: &Graph, u: u16) -> TextResult
    requires { u < length graph.now }
    ensures { OnOk result (string_bytes text.new ≡ string_bytes text.old ++ xml (name_at (names graph.now) u)) }
{
    graph.invariant();
    let name = name_of(graph, u);
    push_front(text, name, name.len())
}

/// Writes the name of a node in XML, cut if it is long.
pub fn push_short_name(text: &mut String, graph: &Graph, u: u16) -> TextResult
    requires { u < length graph.now }
    ensures { OnOk result (string_bytes text.new
        ≡ string_bytes text.old ++ short_name (name_at (names graph.now) u)) }
{
    graph.invariant();
    let name = name_of(graph, u);
    if name.len() > 16 {
        push_front(text, name, 14)?;
        text.push_str("..")?;
    } else {
        push_front(text, name, name.len())?;
    }
    Ok(())
}
