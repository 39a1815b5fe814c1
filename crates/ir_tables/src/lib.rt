//! Topologies and their full tables.
//!
//! A topology is a network of numbered nodes, numbered links and the ports of each node. A full table holds for each
//! node and destination the port to take and the weight of the way.
#![tactic(auto)]

mod adjacency;
mod keyed;
mod link_keys;
mod listed;
mod outward;
mod port_rows;
mod relaxation;
mod table;
mod topology;

pub use ir_model::{Hop, Link};
pub use outward::{Outward, weights_to};
pub use relaxation::UNREACHED;
pub use table::{Table, TableError};
pub use topology::Topology;
