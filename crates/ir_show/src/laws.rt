//! Laws of the texts, each the contract of a function with an empty body.
ghost use Rattle.std.specs.Prelude.{◌≡◌, ◌<◌, ℕ, ◌∷◌, ◌++◌, Option, Some, List};
ghost use Rattle.ir_model.specs.{Graph.Name, Plan.Plan, Topology.{Topology, IsTopology, node_count}, Walk.IsConnected};
ghost use Rattle.ir_show.specs.{WalkText.IsWalkOf, StatsText.IsStatsOf, Quoted.{escaped, read_quoted}};
ghost use Rattle.ir_show.specs.{Drawing.IsDrawingOf, Plans.HasPlans};

/// A plan has one text of the walk from a node to a node.
pub fn walk_text_is_determined()
    ensures { (nodes : List Name) (plan : Plan) (a b : ℕ) (text other : List ℕ) → IsWalkOf nodes plan a b text
        → IsWalkOf nodes plan a b other → text ≡ other }
{}

/// A plan has one text of its figures.
pub fn stats_text_is_determined()
    ensures { (nodes : List Name) (plan : Plan) (text other : List ℕ) → IsStatsOf nodes plan text
        → IsStatsOf nodes plan other → text ≡ other }
{}

/// A plan has one drawing for each choice of ends.
pub fn drawing_is_determined()
    ensures { (nodes : List Name) (plan : Plan) (ends : Option (ℕ × ℕ)) (text other : List ℕ)
        → IsDrawingOf nodes plan ends text → IsDrawingOf nodes plan ends other → text ≡ other }
{}

/// What is escaped has no quote of its own that ends it, and is read again as it was.
pub fn escaped_text_is_read_again()
    ensures { (text rest : List ℕ) → read_quoted (escaped text ++ 34 ∷ rest) ≡ Some (text, rest) }
{}

/// A connected network with a node has a plan of each kind but Tree for each numbering of its nodes.
pub fn plans_are_there()
    ensures { (net : Topology) → IsTopology net → IsConnected net → 0 < node_count net → HasPlans net }
{}
