//! Laws of tables that keep to a bound.

ghost use Rattle.std.specs.Prelude.{◌≡◌, ◌↔◌, ℕ, ◌<◌, ◌≤◌, List, Option, length};
ghost use Rattle.ir_model.specs.{Topology.{Topology, node_count, IsTopology}, Walk.{IsWalk, walk_weight, IsDistance}};
ghost use Rattle.ir_model.specs.{Table.{LeadsNearer, IsPrescribedWalk}, Compact.IsCompactTable, Plan.AreLabels};
ghost use Rattle.ir_model.specs.Within.{LeadsWithin, KeepsBound, IsTableWithin};

/// What a table that keeps to a bound prescribes is there, has at most as many nodes as the network, and is a walk that
/// weighs no more than the bound. Here and below a bound is a number for each two nodes.
pub fn prescribed_walk_within_a_bound()
    ensures exists { (net : Topology) → IsTopology net
        → (bound : ℕ → ℕ → ℕ) (table : ℕ → ℕ → Option ℕ)
        → KeepsBound net (λ u d b. bound u d ≡ b) table → (u d : ℕ) → u < node_count net
        → d < node_count net
        → (walk : List ℕ) × IsPrescribedWalk net table u d walk × (length walk ≤ node_count net) }
    ensures within { (net : Topology) → IsTopology net
        → (bound : ℕ → ℕ → ℕ) (table : ℕ → ℕ → Option ℕ)
        → KeepsBound net (λ u d b. bound u d ≡ b) table → (u d : ℕ) → u < node_count net
        → d < node_count net
        → (walk : List ℕ) → IsPrescribedWalk net table u d walk
        → IsWalk net u d walk × (walk_weight net walk ≤ bound u d) }
{}

/// A network, a bound and the labels of the nodes have one table that keeps to the bound with the fewest intervals.
pub fn table_within_a_bound_is_determined()
    ensures { (net : Topology) (bound : ℕ → ℕ → ℕ) (order labels : List ℕ)
        (table other : ℕ → ℕ → Option ℕ)
        → AreLabels (node_count net) order labels
        → IsTableWithin net (λ u d b. bound u d ≡ b) order table
        → IsTableWithin net (λ u d b. bound u d ≡ b) order other
        → (u d : ℕ) → u < node_count net → d < node_count net → table u d ≡ other u d }
{}

/// A compact table is one that keeps to the distances with the fewest intervals, and a port leads within the distance
/// where it leads nearer.
pub fn compact_table_keeps_to_distances()
    ensures ports { (net : Topology) → IsTopology net → (u d p : ℕ)
        → LeadsWithin net (IsDistance net) u d p ↔ LeadsNearer net u d p }
    ensures tables { (net : Topology) → IsTopology net → (order : List ℕ) (table : ℕ → ℕ → Option ℕ)
        → IsTableWithin net (IsDistance net) order table ↔ IsCompactTable net order table }
{}
