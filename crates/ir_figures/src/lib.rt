//! The figures of a plan that its field knows it by: the most intervals at one port (van Leeuwen
//! and Tan 1987), the bits of the rows, and whether links wait for each other in a ring, of one
//! plan or of two together (Dally and Seitz 1987); the text of all figures; a text that compares
//! the plans of a network by their figures; and the figures without each of its links or nodes.
#![tactic(auto)]

mod bits;
mod column;
mod compared;
mod failures;
mod far;
mod laws;
mod most;
mod node_failures;
mod parts;
mod search;
mod text;
mod waits;

pub use bits::{Bits, bits_of};
pub use compared::compare_text;
pub use failures::link_failures_text;
pub use laws::{comparison_is_determined, numbers_rule_out_rings, tree_plans_have_no_ring};
pub use most::{Most, most_intervals};
pub use node_failures::{node_failure_line, node_failures_text};
pub use parts::Beside;
pub use text::{figures_text, figures_text_beside};
pub use waits::{waiting_ring, waiting_ring_together};
