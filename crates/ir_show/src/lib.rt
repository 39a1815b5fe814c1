//! The texts that show a plan: its rows, a walk of it, its figures, and a drawing; and a walk and
//! some rows of a plan that is not built.
#![tactic(auto)]

use std::alloc::AllocError;

mod alone;
mod blocks;
mod draw;
mod figures;
pub mod interval;
mod laws;
pub mod plan_text;
pub mod quoted;
mod span;
mod stats;
mod stops;
mod walk;
mod weights;
mod worst;

pub use alone::{needs_no_tour, walk_text_alone};
pub use blocks::TextBlock;
pub use draw::draw_text;
pub use figures::{Figures, figures_of};
pub use laws::{
    drawing_is_determined, escaped_text_is_read_again, plans_are_there, stats_text_is_determined,
    walk_text_is_determined,
};
pub use span::{span_text, span_text_alone};
pub use stats::{greatest_row, stats_text};
pub use walk::walk_text;
pub use worst::{Pair, Weighed};

/// What comes of writing to a text: it is refused for memory alone.
pub type TextResult = Result<(), AllocError>;
