//! Laws that a reader would expect of the definitions, each the contract of a function with an empty body, so that a
//! check of this crate asks for its proof.

mod bounds;
mod choices;
mod intervals;
mod landmarks;
mod numberings;
mod walks;
mod worked;

pub use bounds::{
    compact_table_keeps_to_distances, prescribed_walk_within_a_bound,
    table_within_a_bound_is_determined,
};
pub use choices::{
    chosen_ports_are_determined, compact_table_is_determined,
    prescribed_walk_of_a_table_of_shortest_ways,
};
pub use intervals::{canonical_rows_are_equal, whole_circle};
pub use landmarks::{
    distances_of_a_connected_network, landmark_bound_can_be_kept, landmark_bound_keeps_the_stretch,
    landmark_holds_on_the_way_to_it, landmark_is_determined, landmark_table_is_determined,
    landmark_table_without_stretch_is_compact, prescribed_walk_of_a_landmark_table,
};
pub use numberings::numbering_is_determined;
pub use walks::{
    distance_is_symmetric, distance_is_unique, distance_to_itself, distances_obey_the_triangle,
    prescribed_walk_is_determined, prescribed_walk_of_a_shortest_table,
};
pub use worked::{
    intervals_of_six_labels, line_of_three_nodes, text_of_a_line, triangle_with_a_landmark,
    weighted_example,
};
