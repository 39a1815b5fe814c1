//! Worked values: the definitions at small networks and texts.

ghost use Rattle.std.specs.Prelude.{◌≡◌, ℕ, ◌≤◌, List, [], ◌∷◌, None};
ghost use Rattle.ir_model.specs.Worked.{line, six, triangle, one_interval, by_tree, text};
ghost use Rattle.ir_model.specs.{Choices.FitsChoices, Within.MayLead};
ghost use Rattle.ir_model.specs.Landmark.{IsLandmarkOf, IsLandmarkBound};
ghost use Rattle.ir_model.specs.{Graph.{names, edges}, Interval.InInterval, Made.graph_of, Table.IsPrescribedWalk};
ghost use Rattle.ir_model.specs.{Text.{lines, names_in, pairs_in, first_fault}, Walk.{IsWalk, IsDistance, walk_weight}};

/// Of six labels: `[4, 1)` holds 5 and not 1, and `[3, 3)` holds 0.
pub fn intervals_of_six_labels()
    ensures holds { InInterval 6 4 1 5 }
    ensures not_its_end { InInterval 6 4 1 1 → ⊥ }
    ensures whole { InInterval 6 3 3 0 }
{}

/// On the line a-b-c the way from a to c by b is a walk, and the distance is 2.
pub fn line_of_three_nodes()
    ensures walk { IsWalk line 0 2 (0 ∷ 1 ∷ 2 ∷ []) }
    ensures distance { IsDistance line 0 2 2 }
{}

/// In the weighted example the way u p t weighs 2, and the way of the tree, u p q t, weighs 19.
pub fn weighted_example()
    ensures walk { IsWalk six 0 4 (0 ∷ 1 ∷ 4 ∷ []) }
    ensures weight { walk_weight six (0 ∷ 1 ∷ 4 ∷ []) ≡ 2 }
    ensures by_tree { IsPrescribedWalk six by_tree 0 4 (0 ∷ 1 ∷ 2 ∷ 4 ∷ []) }
    ensures tree_weight { walk_weight six (0 ∷ 1 ∷ 2 ∷ 4 ∷ []) ≡ 19 }
{}

/// In a triangle whose node 0 is the landmark the bound from 2 to 1 is 2 at a stretch of 300 percent, where the
/// distance is 1. So one interval of all labels, by the port to 0, is a row of node 2.
pub fn triangle_with_a_landmark()
    ensures landmark { IsLandmarkOf triangle (0 ∷ []) 1 0 1 }
    ensures distance { IsDistance triangle 2 1 1 }
    ensures bound { IsLandmarkBound triangle (0 ∷ []) 300 2 1 2 }
    ensures row { FitsChoices 3 2 (MayLead triangle (IsLandmarkBound triangle (0 ∷ []) 300) (0 ∷ 1 ∷ 2 ∷ []) 2)
        (one_interval ∷ []) }
{}

/// A text of three lines has no fault; it names the nodes a, b, c and the edges a-a, a-b, b-c.
pub fn text_of_a_line()
    ensures no_fault { first_fault [] (lines text) ≡ None }
    ensures nodes { names (graph_of (names_in (lines text)) (pairs_in (lines text)))
        ≡ (97 ∷ []) ∷ (98 ∷ []) ∷ (99 ∷ []) ∷ [] }
    ensures edges { edges (graph_of (names_in (lines text)) (pairs_in (lines text)))
        ≡ (97 ∷ [], 97 ∷ [], 1) ∷ (97 ∷ [], 98 ∷ [], 1) ∷ (98 ∷ [], 99 ∷ [], 1) ∷ [] }
{}
