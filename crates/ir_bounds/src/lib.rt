//! Rows of nodes that keep to a bound with the fewest intervals, and the bound by landmarks (Cowen 2001, Thorup and
//! Zwick 2001). These rows have few intervals, and their ways are at most three times as long as the shortest.
#![tactic(auto)]

mod detours;
mod landmarks;
mod near;
mod order;
mod reaches;
mod rows;
mod search;
mod trees;
mod words;

pub use detours::{LandmarkBounds, block_labels, chosen_owners};
pub use landmarks::Owners;
pub use near::{near_list, near_part};
pub use order::{block_order, most_linked};
pub use reaches::short_reaches;
