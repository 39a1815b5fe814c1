//! Laws of cyclic intervals and rows.

ghost use Rattle.std.specs.Prelude.{◌≡◌, ℕ, ◌<◌, List, Option};
ghost use Rattle.ir_model.specs.{Compiled.IsCanonical, Interval.InInterval, Row.Start};

/// The interval from a label to itself holds every label.
pub fn whole_circle()
    ensures { (n a d : ℕ) → a < n → d < n → InInterval n a a d }
{}

/// Two rows that are canonical for one destination list are equal.
pub fn canonical_rows_are_equal()
    ensures { (n own : ℕ) (ports : List (Option ℕ)) (row other : List Start) → IsCanonical n own ports row
        → IsCanonical n own ports other → row ≡ other }
{}
