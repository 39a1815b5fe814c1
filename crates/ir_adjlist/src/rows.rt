//! One line of an adjacency list.
ghost use Rattle.std.specs.{Prelude.{◌≡◌, Ok, true, OnOk, IfErr}, List.list_all};
ghost use Rattle.ir_model.specs.{Graph.is_name, Text.words_of};
ghost use Rattle.ir_adjlist.specs.Steps.{targets_run, row_run, line_run, Fails, fault_of};

use crate::scan;
use ir_graph::{Graph, GraphError};
use ir_model::Fault;

/// The fault of a line for a refused call.
pub fn as_fault(error: GraphError) -> Fault
    ensures { result ≡ fault_of error }
{
    match error {
        GraphError::BadName | GraphError::NoNode | GraphError::NoEdge | GraphError::EmptyGraph => {
            Fault::BadName
        }
        GraphError::BadWeight => Fault::BadWeight,
        GraphError::TooManyNodes => Fault::TooManyNodes,
        GraphError::TooManyEdges => Fault::TooManyEdges,
        GraphError::NoMemory => Fault::NoMemory,
    }
}

/// A word as a name.
pub fn name_of(word: &[u8]) -> &str
    requires { is_name word.now ≡ true }
    ensures { result.now ≡ word.now }
{
    str::from_utf8(word).unwrap()
}

/// Links a source to the targets in the words.
fn add_targets(graph: &mut Graph, source: &str, words: &[u8]) -> Result<(), Fault>
    requires source { is_name source.now ≡ true }
    requires words { list_all is_name (words_of words.now) ≡ true }
    ensures ok { OnOk result (targets_run graph.old source.now (words_of words.now) ≡ Ok graph.new) }
    ensures fault { IfErr result (λ e. Fails e (targets_run graph.old source.now (words_of words.now))) }
{
    let mut rest = words;
    while let Some((target, after)) = scan::next_word(rest) {
        if let Err(error) = graph.add_edge(source, name_of(target), 1) {
            return Err(as_fault(error));
        }
        rest = after;
    }
    Ok(())
}

/// Adds a source and its targets.
fn add_row(graph: &mut Graph, words: &[u8]) -> Result<(), Fault>
    requires { list_all is_name (words_of words.now) ≡ true }
    ensures ok { OnOk result (row_run graph.old (words_of words.now) ≡ Ok graph.new) }
    ensures fault { IfErr result (λ e. Fails e (row_run graph.old (words_of words.now))) }
{
    let Some((word, rest)) = scan::next_word(words) else {
        return Ok(());
    };
    let source = name_of(word);
    if let Err(error) = graph.add_node(source) {
        return Err(as_fault(error));
    }
    add_targets(graph, source, rest)
}

/// Reads a line into the graph.
pub fn read_line(graph: &mut Graph, line: &[u8]) -> Result<(), Fault>
    ensures ok { OnOk result (line_run graph.old line.now ≡ Ok graph.new) }
    ensures fault { IfErr result (λ e. Fails e (line_run graph.old line.now)) }
{
    let words = scan::without_comment(line);
    if !scan::all_plain(words) {
        return Err(Fault::BadByte);
    }
    if !scan::all_short(words) {
        return Err(Fault::BadName);
    }
    add_row(graph, words)
}
