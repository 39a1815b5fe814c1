//! Sentences for people after the lines of faults: which file, line and word, and what was wanted.
//!
//! `explanation` takes what a run came to as values (`RunOutcome` of `ir_cli`), beside the texts of
//! the inputs, and writes a line `route: ..` for each. Each match over a kind of fault is total, so
//! that one without a sentence does not compile. Nothing here reads or writes files.
#![tactic(auto)]

mod departing;
mod diffing;
mod explain;
mod finding;
mod limits;
mod lines;
mod nearest;
mod notes;
mod numbering;
mod opening;
mod refusal;
mod script;
mod seen;
mod sentence;
mod texts;
mod topology;
mod unlearnt;

pub use explain::{explanation, explanation_kept};
pub use limits::{limits_of_runs, limits_of_texts, limits_of_words};
pub use texts::{Given, Trouble};

/// The most lines of faults that are explained.
pub const MOST_EXPLAINED: usize = 64;

/// The most names among which the nearest one is looked for.
pub const MOST_NAMES: usize = 1_024;

/// The most edits that lead from a word to a name that it may have meant.
pub const MOST_EDITS: usize = 2;

/// The most bytes of a text that are quoted.
pub const MOST_QUOTED: usize = 64;
