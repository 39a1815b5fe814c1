//! The key of the circle: a line for each port.
ghost use Rattle.std.specs.Prelude.{◌≡◌, ◌<◌, ◌≤◌, ◌++◌, OnOk, length, string_bytes, flat_map};
ghost use Rattle.std.specs.List.{range_with_len};
ghost use Rattle.ir_model.specs.{Graph.names, Topology.{node_count, ports_of}};
ghost use Rattle.ir_exports.specs.Circle.{key_start, port_key, own_key, more_ports, key_head, key};

use crate::circle::names::push_xml_name;
use crate::circle::ports::{INK, colour, node_by, push_first, shown_ports};
use ir_graph::Graph;
use ir_plan::Plan;
use ir_show::TextResult;

/// Writes a line of the key, up to its words.
fn push_key_start(text: &mut String, line: u16, paint: &str) -> TextResult
    ensures { OnOk result (string_bytes text.new ≡ string_bytes text.old ++ key_start line paint.now) }
{
    let top = 20 * line as u32;
    let foot = top + 12;
    write!(text, "<rect y=\"{top}\" width=\"14\" height=\"14\" fill=\"")?;
    text.push_str(paint)?;
    write!(text, "\"/>\n<text x=\"24\" y=\"{foot}\">")?;
    Ok(())
}

fn push_port_key(text: &mut String, graph: &Graph, plan: &Plan, u: u16, port: u16) -> TextResult
    requires nodes { node_count plan.now.topology ≡ length graph.now }
    requires node { u < length graph.now }
    requires port { port < length (ports_of plan.now.topology u) }
    requires shown { port < 30 }
    ensures { OnOk result (string_bytes text.new ≡ string_bytes text.old
        ++ port_key (names graph.now) plan.now u port) }
{
    plan.invariant();
    push_key_start(text, port + 1, colour(port))?;
    push_xml_name(text, graph, node_by(plan, u, port))?;
    text.push_str(":")?;
    push_first(text, plan, u, port)?;
    text.push_str("</text>\n")?;
    Ok(())
}

fn push_own_key(text: &mut String, graph: &Graph, plan: &Plan, u: u16) -> TextResult
    requires nodes { node_count plan.now.topology ≡ length graph.now }
    requires node { u < length graph.now }
    ensures { OnOk result (string_bytes text.new ≡ string_bytes text.old ++ own_key (names graph.now) plan.now u) }
{
    push_key_start(text, 0, INK)?;
    push_xml_name(text, graph, u)?;
    let label = plan.label_of(u);
    write!(text, " itself: label {label}</text>\n")?;
    Ok(())
}

/// Writes how many more ports there are.
fn push_more(text: &mut String, count: usize) -> TextResult
    ensures { OnOk result (string_bytes text.new ≡ string_bytes text.old ++ more_ports count) }
{
    if count > 30 {
        let more = count - 30;
        write!(
            text,
            "<text x=\"24\" y=\"632\">and {more} more ports</text>\n"
        )
    } else {
        Ok(())
    }
}

fn push_key_head(text: &mut String) -> TextResult
    ensures { OnOk result (string_bytes text.new ≡ string_bytes text.old ++ key_head) }
{
    text.push_str(
        "<g transform=\"translate(390 -290)\">\n<text y=\"-40\" font-weight=\"bold\">Intervals of labels by port</text>\n",
    )?;
    text.push_str(
        "<text y=\"-18\">[a,b): the labels from a up to, and without, b, clockwise</text>\n",
    )
}

/// Writes the key.
pub fn push_key(text: &mut String, graph: &Graph, plan: &Plan, u: u16) -> TextResult
    requires nodes { node_count plan.now.topology ≡ length graph.now }
    requires node { u < length graph.now }
    ensures { OnOk result (string_bytes text.new ≡ string_bytes text.old ++ key (names graph.now) plan.now u) }
{
    push_key_head(text)?;
    push_own_key(text, graph, plan, u)?;
    let ports = plan.topology().degree(u);
    for port in 0..shown_ports(ports) {
        push_port_key(text, graph, plan, u, port as u16)?;
    }
    push_more(text, ports)?;
    text.push_str("</g>\n")?;
    Ok(())
}
