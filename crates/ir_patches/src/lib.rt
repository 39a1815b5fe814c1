//! What each node changes between two plans over networks of the same nodes: its label, the starts of its row that go,
//! and those that come or lead to another neighbour.
#![tactic(auto)]

mod counts;
mod laws;
mod lines;
mod nodes;
mod rows;
mod text;

pub use laws::lines_make_the_new_rows;
pub use nodes::{OtherNode, other_node};
pub use text::diff_text;
