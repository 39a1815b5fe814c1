ghost use Rattle.std.specs.Prelude.{◌<◌, ◌≤◌, ℕ, length, IfSome, IfNone};
ghost use Rattle.ir_tables.specs.Relaxation.{Offers, AllInRange};

use ir_model::Hop;

/// The weight that stands for no way found yet.
pub const UNREACHED: u32 = u32::MAX;

/// The first port that offers `own`.
pub fn first_port(ports: &[Hop], weights: &[u32], own: u32) -> Option<u16>
    requires in_range { AllInRange ports.now weights.now }
    requires few { length ports.now ≤ 65536 }
    requires reached { own < UNREACHED }
    ensures found { IfSome result (λ p. Offers ports.now weights.now p own) }
    ensures least { IfSome result (λ p. (q : ℕ) → q < p → Offers ports.now weights.now q own → ⊥) }
    ensures none { IfNone result ((q : ℕ) → Offers ports.now weights.now q own → ⊥) }
{
    for (p, hop) in ports.iter().enumerate() {
        if weights[hop.node as usize].saturating_add(hop.weight) == own {
            return Some(p as u16);
        }
    }
    None
}
