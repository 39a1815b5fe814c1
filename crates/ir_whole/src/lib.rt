//! Whether a run of a script can have had the rows of a trace: injects, epochs and causes.
//!
//! `ir_trace` judges the hops of a row by the plans of its epochs. `check_whole` asks what it does not: which inject of
//! the script a row's packet can be, which epochs were installed above it, and whether script and other rows have a
//! cause for its drop. What it asks is necessary: the lines that a run refused are not known, so any inject may have
//! been refused. `specs/Whole` says what it is.
#![tactic(auto)]

mod causes;
mod finding;
mod injecting;
mod passing;
mod whole;

pub use finding::{WholeFinding, WholeKind};
pub use whole::check_whole;
