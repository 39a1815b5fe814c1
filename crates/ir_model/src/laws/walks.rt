//! Laws of walks, distances and prescribed walks.

ghost use Rattle.std.specs.Prelude.{◌≡◌, ℕ, ◌+◌, ◌<◌, ◌≤◌, List, Option};
ghost use Rattle.ir_model.specs.Topology.{Topology, IsTopology, node_count};
ghost use Rattle.ir_model.specs.{Table.{IsShortestTable, IsPrescribedWalk}, Walk.{IsWalk, IsDistance, walk_weight}};

/// The distance from a node to itself is 0.
pub fn distance_to_itself()
    ensures { (net : Topology) (d : ℕ) → d < node_count net → IsDistance net d d 0 }
{}

/// There is one distance from a node to another.
pub fn distance_is_unique()
    ensures { (net : Topology) (u d m n : ℕ) → IsDistance net u d m → IsDistance net u d n → m ≡ n }
{}

/// Distances are symmetric.
pub fn distance_is_symmetric()
    ensures { (net : Topology) → IsTopology net → (u d n : ℕ) → IsDistance net u d n → IsDistance net d u n }
{}

/// Distances obey the triangle inequality.
pub fn distances_obey_the_triangle()
    ensures { (net : Topology) → IsTopology net → (u v w a b c : ℕ) → IsDistance net u v a
        → IsDistance net v w b → IsDistance net u w c → c ≤ a + b }
{}

/// A prescribed walk is determined by table, start and end.
pub fn prescribed_walk_is_determined()
    ensures { (net : Topology) (table : ℕ → ℕ → Option ℕ) (u d : ℕ) (walk other : List ℕ)
        → IsPrescribedWalk net table u d walk → IsPrescribedWalk net table u d other → walk ≡ other }
{}

/// What a shortest table prescribes is a walk of the weight of the distance.
pub fn prescribed_walk_of_a_shortest_table()
    ensures { (net : Topology) → IsTopology net → (table : ℕ → ℕ → Option ℕ) → IsShortestTable net table
        → (u d : ℕ)
        → u < node_count net → d < node_count net → (walk : List ℕ) → IsPrescribedWalk net table u d walk
        → IsWalk net u d walk × IsDistance net u d (walk_weight net walk) }
{}
