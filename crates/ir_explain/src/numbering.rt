//! What is wrong with a line of an order of nodes.

use crate::lines::{first_word, line_with, lines_of, text_of, word_at};
use crate::script::push_no_node;
use crate::sentence::{Pushed, Quoted, begin_line, push_bad_byte, push_count};
use crate::texts::RunTexts;
use ir_script::{OrderFault, OrderFaultKind};

/// The place of the first node that is not named; the number of nodes where each is.
fn first_missing(named: &[bool]) -> usize {
    for place in 0..named.len() {
        if !named[place] {
            return place;
        }
    }
    named.len()
}

/// Says which node the lines of an order do not name.
fn push_missing(text: &mut String, run: &RunTexts<'_>) -> Pushed {
    let order = run.texts.numbering.bytes;
    let mut named = vec![in run.alloc; false; run.graph.number_of_nodes()]?;
    for line in lines_of(run.alloc, order, order.len())?.iter() {
        if let Some(node) = run.graph.index_of(text_of(first_word(line))) {
            named[node as usize] = true;
        }
    }
    let missing = first_missing(named.as_slice());
    let name = run.graph.node(missing).unwrap_or("");
    let nodes = named.len();
    write!(
        text,
        "'{name}' is missing: each of the {nodes} nodes needs a line"
    )
}

/// Says what is wrong with the words of a line of an order.
fn push_order_fault(
    text: &mut String,
    run: &RunTexts<'_>,
    fault: OrderFaultKind,
    words: &[&[u8]],
) -> Pushed {
    let word = word_at(words, 0);
    match fault {
        OrderFaultKind::BadByte => push_bad_byte(text, words, "names"),
        OrderFaultKind::BadRow => {
            push_count(text, words.len())?;
            text.push_str("; a line of a numbering is the name of one node")
        }
        OrderFaultKind::UnknownNode => push_no_node(text, run, word),
        OrderFaultKind::Twice => {
            let first = line_with(run.alloc, run.texts.numbering.bytes, word, 0)?;
            write!(text, "{} is already on line {first}", Quoted(word))
        }
        OrderFaultKind::Missing => push_missing(text, run),
        OrderFaultKind::NoMemory => text.push_str("out of memory while reading the numbering"),
    }
}

/// Says what is wrong with a line of an order.
pub fn push_numbering(text: &mut String, run: &RunTexts<'_>, fault: OrderFault) -> Pushed {
    let place = if fault.kind == OrderFaultKind::Missing {
        0
    } else {
        fault.line
    };
    let words = begin_line(run.alloc, text, &run.texts.numbering, place)?;
    push_order_fault(text, run, fault.kind, words.as_slice())
}
