//! What other programs read of a plan: the forwarding tables of its nodes, and where what is sent
//! by them goes. Further their ranges of labels, the lines of a node's row, the order of the
//! labels, and the circle of labels with the intervals of a node.
#![tactic(auto)]

mod circle;
mod laws;
mod node_lines;
mod order;
mod prefixes;
mod ranges;
mod table;
mod texts;

pub use circle::{circle_dot, circle_svg};
pub use laws::{
    beginnings_of_lines_keep_to_walks, disjoint_lines_keep_to_walks, lines_go_all_the_way,
    text_is_determined_by_lines,
};
pub use node_lines::{lines_bytes, lines_text};
pub use order::order_text;
pub use ranges::{ranges_of, ranges_text};
pub use table::table_of;
pub use texts::{prefixes_text, prefixes_text_by};

/// The most labels of a table in lines.
pub const MAX_LABELS: usize = 16_384;
