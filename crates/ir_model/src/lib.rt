//! The definitions that every crate of the network shares: texts and graphs, networks and walks, full tables,
//! depth-first numberings, cyclic intervals and rows. They are in `specs/`; here are the limits, the plain records
//! that contracts and getters speak of, and laws of the definitions.
#![tactic(auto)]

ghost use Rattle.std.specs.Prelude.{◌<◌, ◌≤◌};

mod laws;

pub use laws::{
    canonical_rows_are_equal, chosen_ports_are_determined, compact_table_is_determined,
    compact_table_keeps_to_distances, distance_is_symmetric, distance_is_unique,
    distance_to_itself, distances_obey_the_triangle, distances_of_a_connected_network,
    intervals_of_six_labels, landmark_bound_can_be_kept, landmark_bound_keeps_the_stretch,
    landmark_holds_on_the_way_to_it, landmark_is_determined, landmark_table_is_determined,
    landmark_table_without_stretch_is_compact, line_of_three_nodes, numbering_is_determined,
    prescribed_walk_is_determined, prescribed_walk_of_a_landmark_table,
    prescribed_walk_of_a_shortest_table, prescribed_walk_of_a_table_of_shortest_ways,
    prescribed_walk_within_a_bound, table_within_a_bound_is_determined, text_of_a_line,
    triangle_with_a_landmark, weighted_example, whole_circle,
};

/// The most nodes of a graph.
pub const MAX_NODES: usize = 32_768;

/// The most edges of a graph.
pub const MAX_EDGES: usize = 131_072;

/// The most bytes of a node's name.
pub const MAX_NAME_BYTES: usize = 64;

/// The greatest weight of an edge.
pub const MAX_WEIGHT: u32 = 65_535;

/// What is wrong with a line of a topology text.
#[derive(Clone, Copy, Debug, PartialEq, Eq)]
pub enum Fault {
    BadByte = 1,
    BadName = 2,
    BadRow = 3,
    BadWeight = 4,
    TooManyNodes = 5,
    TooManyEdges = 6,
    NoMemory = 7,
}

/// A link between two nodes, the smaller one first.
#[derive(Clone, Copy, Debug, PartialEq, Eq)]
pub struct Link {
    pub low: u16,
    pub high: u16,
    pub weight: u32,
}

/// A port of a node: the neighbour that it leads to, and the link to it.
#[derive(Clone, Copy, Debug, PartialEq, Eq)]
pub struct Hop {
    pub node: u16,
    pub link: u32,
    pub weight: u32,
}

/// How far the ways of a landmark plan may go round: by how many landmarks at most, and to how many percent of the
/// distance.
#[derive(Clone, Copy, Debug, PartialEq, Eq)]
pub struct Detour {
    pub landmarks: u16,
    pub stretch: u16,
    pub ghost some: { 0 < landmarks },
    pub ghost least: { 100 ≤ stretch },
    pub ghost most: { stretch ≤ 300 },
}

/// How a plan routes: along the tree of its depth-first numbers (Santoro and Khatib 1985), or along shortest ways by
/// the least ports (van Leeuwen and Tan 1987). Or along shortest ways with the fewest intervals at each node, or with
/// the fewest along ways that may go round by landmarks (Cowen 2001; Thorup and Zwick 2001).
#[derive(Clone, Copy, Debug, PartialEq, Eq)]
pub enum Kind {
    Tree,
    Shortest,
    Compact,
    Landmark(Detour),
}
