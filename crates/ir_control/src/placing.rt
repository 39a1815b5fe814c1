//! Things that are put into slots by their numbers.
ghost use Rattle.std.specs.Prelude.{◌≡◌, ℕ, All, sum_by};
ghost use Rattle.ir_control.specs.Slots.{hit, AllIn, CameIntoSlots, MayPlace};

/// What has a number, and belongs to a whole or does not.
pub trait Member: Drop {
    type Whole;

    ghost key_of: { Self → ℕ };

    ghost belongs: { Self → Self.Whole → Type 0 };

    /// The number of the slot that it belongs into.
    fn key(&self) -> usize
        ensures { result ≡ key_of self.now };
}

/// Puts a thing into the slot of its number, which is empty.
pub fn place<T: Member>(item: T, slots: &mut Vec<Option<T>>)
    requires { MayPlace T.key_of slots.old.items (λ i. hit T.key_of i item) }
    ensures placed { CameIntoSlots T.key_of slots.old.items slots.new.items (λ w. w item) }
    ensures all { (whole : T.Whole) → AllIn (λ x. T.belongs x whole) slots.old.items → T.belongs item whole
        → AllIn (λ x. T.belongs x whole) slots.new.items }
{
    let key = item.key();
    slots[key] = Some(item);
}

/// Puts each thing into the slot of its number.
pub fn place_all<T: Member>(mut items: Vec<T>, slots: &mut Vec<Option<T>>)
    requires { MayPlace T.key_of slots.old.items (λ i. sum_by (hit T.key_of i) items.items) }
    ensures placed { CameIntoSlots T.key_of slots.old.items slots.new.items (λ w. sum_by w items.items) }
    ensures all { (whole : T.Whole) → AllIn (λ x. T.belongs x whole) slots.old.items
        → All (λ x. T.belongs x whole) items.items → AllIn (λ x. T.belongs x whole) slots.new.items }
{
    while let Some(item) = items.pop() {
        place(item, slots);
    }
}
