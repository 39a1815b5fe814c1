//! A law of the lines, as the contract of a function with an empty body.
ghost use Rattle.std.specs.Prelude.{◌<◌, ◌↔◌, ℕ, IsTrue, length};
ghost use Rattle.ir_model.specs.Topology.{node_count};
ghost use Rattle.ir_diff.specs.Changes.{IsFewestChange, MakesNewRow};
ghost use Rattle.ir_patches.specs.DiffText.{AreNamed, DiffersAt, TwoPlans, changes_at, is_changed, new_leads, old_leads};

/// A node has a line exactly where its label or its row is another one. What it removes and puts makes its new row of
/// its old one, and nothing that removes or puts fewer starts does.
pub fn lines_make_the_new_rows()
    ensures differs { (p : TwoPlans) (u : ℕ) → AreNamed p → u < node_count p.new.topology
        → IsTrue (is_changed (changes_at p u)) ↔ DiffersAt p u }
    ensures patched { (p : TwoPlans) (u : ℕ) → AreNamed p → u < node_count p.new.topology
        → MakesNewRow (old_leads p u) (new_leads p u) (changes_at p u).removed (changes_at p u).put }
    ensures fewest { (p : TwoPlans) (u : ℕ) → AreNamed p → u < node_count p.new.topology
        → IsFewestChange (old_leads p u) (new_leads p u) (length (changes_at p u).removed)
        (length (changes_at p u).put) }
{}
