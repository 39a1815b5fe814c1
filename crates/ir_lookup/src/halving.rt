//! The look-up by halving. It sees of the starts how many there are, and asks for comparisons.

ghost use Rattle.std.specs.Prelude.{◌≡◌, ◌<◌, ◌≤◌, ◌+◌, ◌*◌, ◌^◌, length};
ghost use Rattle.ir_lookup.specs.Halving.{Halves};
ghost use Rattle.ir_model.specs.Row.{IsAscending, IsPlaceOf, labels};

use crate::row::{Compared, Starts};

// The place of the interval that has `d`, where no start was compared before.
pub fn place_counted(starts: &Starts, d: u16, compared: &mut Compared) -> usize
    requires some { 0 < length starts.now }
    requires none { compared.old ≡ 0 }
    ensures ascending { IsAscending starts.now }
    ensures place { IsPlaceOf (labels starts.now) d result }
    ensures count { (2 ^ compared.new ≤ 2 * length starts.now) × (length starts.now + 1 < 2 * 2 ^ compared.new) }
    ensures halves { Halves (labels starts.now) d 0 (length starts.now) compared.new }
{
    let mut low = 0;
    let mut high = starts.len();
    'halves: while low < high {
        let middle = low + (high - low) / 2;
        if starts.is_above(middle, d, compared) {
            high = middle;
        } else {
            low = middle + 1;
        }
    }
    if low == 0 { starts.len() - 1 } else { low - 1 }
}
