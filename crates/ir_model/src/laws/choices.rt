//! Laws of choices of ports and of compact tables.

ghost use Rattle.std.specs.Prelude.{◌≡◌, ℕ, ◌<◌, Bool, true, List, Option};
ghost use Rattle.ir_model.specs.{Topology.{Topology, node_count, IsTopology}, Walk.{IsWalk, walk_weight, IsDistance}};
ghost use Rattle.ir_model.specs.{Table.{IsNearerTable, IsPrescribedWalk}, Choices.{AreChoices, AreChosen}};
ghost use Rattle.ir_model.specs.{Compact.IsCompactTable, Plan.AreLabels};

/// The rule chooses one list of ports.
pub fn chosen_ports_are_determined()
    ensures { (n own : ℕ) (allowed : ℕ → ℕ → Bool) (ports others : List (Option ℕ))
        → AreChoices n own (λ d p. allowed d p ≡ true)
        → AreChosen n own (λ d p. allowed d p ≡ true) ports
        → AreChosen n own (λ d p. allowed d p ≡ true) others
        → ports ≡ others }
{}

/// A network and the labels of its nodes have one compact table.
pub fn compact_table_is_determined()
    ensures { (net : Topology) (order labels : List ℕ) (table other : ℕ → ℕ → Option ℕ)
        → AreLabels (node_count net) order labels
        → IsCompactTable net order table → IsCompactTable net order other
        → (u d : ℕ) → u < node_count net → d < node_count net → table u d ≡ other u d }
{}

/// What a table of shortest ways prescribes is a walk of the weight of the distance.
pub fn prescribed_walk_of_a_table_of_shortest_ways()
    ensures { (net : Topology) → IsTopology net → (table : ℕ → ℕ → Option ℕ) → IsNearerTable net table
        → (u d : ℕ) → u < node_count net → d < node_count net
        → (walk : List ℕ) → IsPrescribedWalk net table u d walk → IsWalk net u d walk
        × IsDistance net u d (walk_weight net walk) }
{}
