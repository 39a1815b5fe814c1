//! One epoch's plan: labels by node, and each node's row of interval starts in place of a full table. Labels are depth
//! first or in the order of a tour, by the blocks of landmarks or by a list. A tour is an order in which neighbours are
//! sent alike by most nodes, so that rows have few starts.
#![tactic(auto)]

mod batches;
mod building;
mod compact;
mod crew;
mod distances;
mod error;
mod landmark;
mod laws;
mod making;
mod near;
mod nearest;
mod patience;
mod plan;
mod prepared;
mod rows;
mod sweeps;
mod ties;
mod tour;
mod tree;

pub use building::{Labels, first_numbering, numbering_by, numbering_of};
pub use crew::{Alone, Crew, NodeText, Several};
pub use error::PlanError;
pub use ir_model::{Detour, Hop, Kind};
pub use laws::{
    labels_are_determined, tour_has_no_more_starts, tour_is_determined, ways_of_a_landmark_plan,
};
pub use making::made_in_threads;
pub use patience::Patience;
pub use plan::Plan;
pub use rows::row_of_node;
pub use tour::{LabelOrder, is_of_shortest_ways, plan_over_tour, tour_of};

/// The most nodes of a plan whose labels a tour is sought for.
pub const MOST_TOUR_NODES: usize = 4_096;

/// The most sweeps that shorten a tour.
pub const MOST_SWEEPS: usize = 16;
