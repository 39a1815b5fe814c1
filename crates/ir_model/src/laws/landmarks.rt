//! Laws of landmarks, and of tables that keep to their bound.

ghost use Rattle.std.specs.Prelude.{◌≡◌, ◌↔◌, ℕ, ◌+◌, ◌*◌, ◌<◌, ◌≤◌, List, Option, Some, length};
ghost use Rattle.ir_model.specs.{declared.Hop.Hop, Topology.{Topology, node_count, port_at, IsTopology}};
ghost use Rattle.ir_model.specs.{Walk.{IsWalk, walk_weight, IsConnected, IsDistance}, Table.IsPrescribedWalk, Compact.IsCompactTable};
ghost use Rattle.ir_model.specs.{Plan.AreLabels, Within.IsKeepable};
ghost use Rattle.ir_model.specs.Landmark.{HaveDistances, AreLandmarks, IsLandmarkOf, IsPathStretch, IsLandmarkBound};
ghost use Rattle.ir_model.specs.Landmark.{IsLandmarkTable};

/// A node has one landmark and one radius.
pub fn landmark_is_determined()
    ensures { (net : Topology) (landmarks : List ℕ) (d l m r s : ℕ) → IsLandmarkOf net landmarks d l r
        → IsLandmarkOf net landmarks d m s → (l ≡ m) × (r ≡ s) }
{}

/// A shortest way to the landmark of a node goes through nodes with that landmark.
pub fn landmark_holds_on_the_way_to_it()
    ensures { (net : Topology) → IsTopology net → IsConnected net → (landmarks : List ℕ) (d l r : ℕ)
        → IsLandmarkOf net landmarks d l r → (p : ℕ) (hop : Hop) (rest : ℕ) → port_at net d p ≡ Some hop
        → IsDistance net hop.node l rest → r ≡ hop.weight + rest → IsLandmarkOf net landmarks hop.node l rest }
{}

/// In a connected network each node is at some distance from each.
pub fn distances_of_a_connected_network()
    ensures { (net : Topology) → IsTopology net → IsConnected net → HaveDistances net }
{}

/// The bound by landmarks is no less than the distance, and no more than the stretch allows.
pub fn landmark_bound_keeps_the_stretch()
    ensures { (net : Topology) → IsTopology net → (landmarks : List ℕ) (stretch : ℕ) → 100 ≤ stretch
        → (u d b n : ℕ) → IsLandmarkBound net landmarks stretch u d b → IsDistance net u d n
        → (n ≤ b) × (100 * b ≤ stretch * n) }
{}

/// The bound by landmarks can be kept: from each node to each other some port leads within it.
pub fn landmark_bound_can_be_kept()
    ensures { (net : Topology) → IsTopology net → IsConnected net → (landmarks : List ℕ)
        → AreLandmarks net landmarks
        → (stretch : ℕ) → IsPathStretch stretch → IsKeepable net (IsLandmarkBound net landmarks stretch) }
{}

/// What the table of a landmark plan prescribes is there, has at most as many nodes as the network, and is a walk that
/// weighs no more than the stretch allows.
pub fn prescribed_walk_of_a_landmark_table()
    ensures exists { (net : Topology) → IsTopology net → IsConnected net → (landmarks : List ℕ)
        → AreLandmarks net landmarks → (stretch : ℕ) → IsPathStretch stretch
        → (order : List ℕ) (table : ℕ → ℕ → Option ℕ)
        → IsLandmarkTable net landmarks stretch order table
        → (u d n : ℕ) → IsDistance net u d n
        → (walk : List ℕ) × IsPrescribedWalk net table u d walk × (length walk ≤ node_count net) }
    ensures stretch { (net : Topology) → IsTopology net → IsConnected net → (landmarks : List ℕ)
        → AreLandmarks net landmarks → (stretch : ℕ) → IsPathStretch stretch
        → (order : List ℕ) (table : ℕ → ℕ → Option ℕ)
        → IsLandmarkTable net landmarks stretch order table
        → (u d n : ℕ) → IsDistance net u d n → (walk : List ℕ) → IsPrescribedWalk net table u d walk
        → IsWalk net u d walk × (100 * walk_weight net walk ≤ stretch * n) }
{}

/// A network, its landmarks, a stretch and the labels of the nodes have one table.
pub fn landmark_table_is_determined()
    ensures { (net : Topology) (landmarks : List ℕ) (stretch : ℕ) (order labels : List ℕ)
        (table other : ℕ → ℕ → Option ℕ) → AreLabels (node_count net) order labels
        → IsLandmarkTable net landmarks stretch order table → IsLandmarkTable net landmarks stretch order other
        → (u d : ℕ) → u < node_count net → d < node_count net → table u d ≡ other u d }
{}

/// At a stretch of 100 percent the table is the compact one, whatever the landmarks.
pub fn landmark_table_without_stretch_is_compact()
    ensures { (net : Topology) → IsTopology net → IsConnected net → (landmarks : List ℕ)
        → AreLandmarks net landmarks
        → (order : List ℕ) (table : ℕ → ℕ → Option ℕ)
        → IsLandmarkTable net landmarks 100 order table ↔ IsCompactTable net order table }
{}
