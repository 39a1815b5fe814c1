//! Laws of plans, each the contract of a function with an empty body.

ghost use Rattle.std.specs.Prelude.{◌≡◌, ◌≢◌, ℕ, ◌*◌, ◌<◌, ◌≤◌, List};
ghost use Rattle.ir_model.specs.{declared.Kind.TheVariants.{Tree, Landmark}, Topology.{Topology, node_count}};
ghost use Rattle.ir_model.specs.{declared.Detour.Detour, Walk.{IsDistance, walk_weight}, Table.IsPrescribedWalk};
ghost use Rattle.ir_model.specs.Plan.{Plan, IsPlan, table_port};
ghost use Rattle.ir_plan.specs.{Starts.{HaveSameTable, IsLabelledBy, IsPlanAs, start_count}, Tour.IsTour};
ghost use Rattle.ir_plan.specs.declared.tour.LabelOrder.{LabelOrder, TheVariants.{DepthFirst, Tour}};

/// A network has one tour from a root.
pub fn tour_is_determined()
    ensures { (topology : Topology) (root : ℕ) → root < node_count topology → (tour other : List ℕ)
        → IsTour topology root tour → IsTour topology root other → tour ≡ other }
{}

/// Plans of one kind, root and network that are labelled by one order have the same labels; the
/// same table and rows too, where the kind is not Tree.
pub fn labels_are_determined()
    ensures order { (labels : LabelOrder) (p q : Plan) → IsPlan p → IsPlanAs p q → IsLabelledBy labels p
        → IsLabelledBy labels q → p.order ≡ q.order }
    ensures labels { (labels : LabelOrder) (p q : Plan) → IsPlan p → IsPlanAs p q → IsLabelledBy labels p
        → IsLabelledBy labels q → p.labels ≡ q.labels }
    ensures tables { (labels : LabelOrder) (p q : Plan) → IsPlan p → IsPlanAs p q → p.kind ≢ Tree
        → IsLabelledBy labels p → IsLabelledBy labels q
        → HaveSameTable (node_count p.topology) p q }
    ensures rows { (labels : LabelOrder) (p q : Plan) → IsPlan p → IsPlanAs p q → p.kind ≢ Tree
        → IsLabelledBy labels p → IsLabelledBy labels q → p.rows ≡ q.rows }
{}

/// A plan that is labelled by a tour has no more starts than the first plan of its kind, root and network.
pub fn tour_has_no_more_starts()
    ensures { (p q : Plan) → IsPlan p → IsPlanAs p q → IsLabelledBy Tour p → IsLabelledBy DepthFirst q
        → start_count p ≤ start_count q }
{}

/// What a landmark plan prescribes weighs no more, of the distance in percent, than its stretch.
pub fn ways_of_a_landmark_plan()
    ensures { (p : Plan) → IsPlan p → (t : Detour) → p.kind ≡ Landmark t → (u d n : ℕ)
        → IsDistance p.topology u d n
        → (walk : List ℕ) → IsPrescribedWalk p.topology (table_port p) u d walk
        → 100 * walk_weight p.topology walk ≤ t.stretch * n }
{}
