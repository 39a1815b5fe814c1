//! The shortest ways of sixteen nodes at once, in the lanes of vectors.
//!
//! Sixteen searches go side by side, one in each lane: sweeps over all ports lower what is in the lanes until one
//! changes nothing. What they leave is then compared with the equation of the least weights (Bellman 1958), which has
//! one solution where weights are positive. So what is answered is right however it was found; a search that does not
//! settle in time is not answered, and its caller takes another way.
#![tactic(auto)]

mod equation;
mod inward;
mod marks;
mod order;
mod outward;
mod sweeps;
mod vectors;

pub use marks::{PortMarks, sixteen_from, words_to};
pub use outward::OutwardLanes;
