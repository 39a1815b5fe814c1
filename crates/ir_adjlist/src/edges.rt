//! One line of a weighted edge list.
ghost use Rattle.std.specs.Prelude.{◌≡◌, Ok, true, OnOk, IfErr};
ghost use Rattle.ir_model.specs.{Graph.is_name, Text.words_of};
ghost use Rattle.ir_adjlist.specs.Steps.{ending_run, edge_line_run, Fails};

use crate::{rows, scan, weights};
use ir_graph::Graph;
use ir_model::{Fault, MAX_NAME_BYTES};

/// Links two ends by the weight in the words, which are to be one.
fn add_weighted(graph: &mut Graph, u: &str, v: &str, words: &[u8]) -> Result<(), Fault>
    requires u { is_name u.now ≡ true }
    requires v { is_name v.now ≡ true }
    ensures ok { OnOk result (ending_run graph.old u.now v.now (words_of words.now) ≡ Ok graph.new) }
    ensures fault { IfErr result (λ e. Fails e (ending_run graph.old u.now v.now (words_of words.now))) }
{
    let Some((word, rest)) = scan::next_word(words) else {
        return Err(Fault::BadRow);
    };
    if scan::next_word(rest).is_some() {
        return Err(Fault::BadRow);
    }
    let Some(weight) = weights::read_weight(word) else {
        return Err(Fault::BadWeight);
    };
    match graph.add_edge(u, v, weight) {
        Ok(_) => Ok(()),
        Err(error) => Err(rows::as_fault(error)),
    }
}

/// Reads a line into the graph.
pub fn read_line(graph: &mut Graph, line: &[u8]) -> Result<(), Fault>
    ensures ok { OnOk result (edge_line_run graph.old line.now ≡ Ok graph.new) }
    ensures fault { IfErr result (λ e. Fails e (edge_line_run graph.old line.now)) }
{
    let words = scan::without_comment(line);
    if !scan::all_plain(words) {
        return Err(Fault::BadByte);
    }
    let Some((u, behind)) = scan::next_word(words) else {
        return Ok(());
    };
    let Some((v, rest)) = scan::next_word(behind) else {
        return Ok(());
    };
    if u.len() > MAX_NAME_BYTES || v.len() > MAX_NAME_BYTES {
        return Err(Fault::BadName);
    }
    add_weighted(graph, rows::name_of(u), rows::name_of(v), rest)
}
