//! Laws of links that wait for each other, and of comparisons.
ghost use Rattle.std.specs.Prelude.{◌≡◌, ℕ, List};
ghost use Rattle.ir_model.specs.{declared.Detour.Detour, declared.Kind.TheVariants.Tree, Plan.{Plan, IsPlan}, Topology.Topology};
ghost use Rattle.ir_figures.specs.Waits.{Waits, WaitsInEither, WaitsBeside, IsWithoutRing, IsWaitingRing};
ghost use Rattle.ir_figures.specs.Compared.{IsRowOf, IsComparison};
ghost use Rattle.ir_plan.specs.declared.tour.LabelOrder.{LabelOrder};

/// Where the links can be numbered such that each waits for greater ones alone, no links wait for each other in a ring,
/// by one plan, by either of two, or by one and another over a part of its network.
pub fn numbers_rule_out_rings()
    ensures alone { (plan : Plan) (nodes ports : List ℕ) → IsWithoutRing (Waits plan)
        → IsWaitingRing (Waits plan) nodes ports → ⊥ }
    ensures together { (plan other : Plan) (nodes ports : List ℕ) → IsWithoutRing (WaitsInEither plan other)
        → IsWaitingRing (WaitsInEither plan other) nodes ports → ⊥ }
    ensures beside { (plan part : Plan) (number : ℕ → ℕ) (nodes ports : List ℕ)
        → IsWithoutRing (WaitsBeside plan number part)
        → IsWaitingRing (WaitsBeside plan number part) nodes ports → ⊥ }
{}

/// In a tree plan no links wait for each other in a ring: links towards the root come before links away from it.
pub fn tree_plans_have_no_ring()
    ensures { (plan : Plan) → IsPlan plan → plan.kind ≡ Tree → IsWithoutRing (Waits plan) }
{}

/// A plan has one row of a comparison for each word of an order, and a network one comparison of its plans from a
/// root and of these detours.
pub fn comparison_is_determined()
    ensures row { (order : LabelOrder) (plan : Plan) (line other : List ℕ) → IsRowOf order plan line
        → IsRowOf order plan other → line ≡ other }
    ensures whole { (network : Topology) (root : ℕ) (detours : Detour × Detour × Detour) (text other : List ℕ)
        → IsComparison network root detours text → IsComparison network root detours other → text ≡ other }
{}
