//! A row as lines of 128 bytes, for the look-up in a kernel's packet path.
#![tactic(auto)]

mod bytes;
mod head;
mod place;
mod table;
mod text;
mod tree;

pub use head::{HeadVerdict, head_verdict};
pub use place::{place_of_16, place_of_32};
pub use table::lines;
pub use text::{table_bytes, table_text};

/// Whose table it is: its epoch, how many labels there are, and the node's own one.
#[derive(Clone, Copy, Drop)]
pub struct Owner {
    pub epoch: u16,
    pub labels: u16,
    pub own: u16,
}
