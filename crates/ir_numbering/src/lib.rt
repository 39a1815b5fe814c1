//! Depth-first numbers, and the tables that route along the tree of a numbering.
#![tactic(auto)]

mod adjacency;
mod error;
mod laws;
mod numbering;
mod order;
mod parents;
mod search;
mod tree;

pub use error::NumberError;
pub use laws::{subtrees_are_intervals, tree_rows_start_at_sons};
pub use numbering::{Numbering, tree_table};
pub use order::is_order;
pub use search::{Order, search_lists};
