//! What is wrong with the new network of two, whose nodes are those of the old one.

use crate::opening::push_opening;
use crate::sentence::{FileName, Pushed, Quoted, begin};
use crate::texts::{GivenTexts, RunTexts};
use crate::topology::push_topology;
use ir_adjlist::TextError;
use ir_core::OpenError;

/// The run, of which the new topology is the one that is explained.
fn over_new<'a>(run: &RunTexts<'a>) -> RunTexts<'a> {
    let topology = run.texts.new;
    RunTexts {
        graph: run.new_graph,
        texts: GivenTexts {
            topology,
            ..run.texts
        },
        ..*run
    }
}

/// Says what is wrong with a line of the new topology.
pub fn push_new(text: &mut String, run: &RunTexts<'_>, error: TextError) -> Pushed {
    push_topology(text, &over_new(run), error)
}

/// Says why there is no plan of the new network.
pub fn push_new_opening(text: &mut String, run: &RunTexts<'_>, error: OpenError) -> Pushed {
    push_opening(text, &over_new(run), error)
}

/// Says that a node of the new network is none of the old one.
pub fn push_new_node(text: &mut String, run: &RunTexts<'_>, u: u16) -> Pushed {
    let name = Quoted(run.new_graph.node(usize::from(u)).unwrap_or("").as_bytes());
    begin(text, run.texts.new.file)?;
    let file = FileName(run.texts.topology.file);
    write!(
        text,
        "no node {name} in {file}: both networks need the same nodes"
    )
}

/// Says that a node of the old network is none of the new one.
pub fn push_gone(text: &mut String, run: &RunTexts<'_>, u: u16) -> Pushed {
    let name = Quoted(run.graph.node(usize::from(u)).unwrap_or("").as_bytes());
    begin(text, run.texts.new.file)?;
    let file = FileName(run.texts.topology.file);
    write!(
        text,
        "{name} of {file} is missing: both networks need the same nodes"
    )
}
