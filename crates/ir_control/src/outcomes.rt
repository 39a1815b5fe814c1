//! One slot for each packet.
ghost use Rattle.std.specs.Prelude.{◌≡◌, ◌<◌, ℕ, All, None, Some, IfOk, length, slice_index_or, sum_by};
ghost use Rattle.ir_worker.specs.declared.parcel.Outcome.{Outcome};
ghost use Rattle.ir_control.specs.{Slots.{hit, AllIn, CameIntoSlots, MayPlace, left_in}, Whole.IsParcelOf};
ghost use Rattle.ir_control.specs.{Parts.{node_number, IsNodeOf}, Reports.IsEmptyReport, Told.TellsOf};
ghost use Rattle.ir_control.specs.Told.{outcome_number, weight_settled, AreLeftPlaced, AreSettledIn, IsOutcomeIn};
ghost use Rattle.ir_epochs.specs.declared.registry.Stamp.{Stamp};

use crate::net::Net;
use crate::placing::{Member, place, place_all};
use crate::report::Report;
use ir_epochs::Stamp;
use ir_links::Remains;
use ir_worker::{Node, Outcome, Parcel};
use std::alloc::{AllocError, Global};
use std::sync::Wait;

impl Member for Outcome {
    type Whole = Stamp;

    ghost key_of = { outcome_number };

    ghost belongs = { λ o opening. IsOutcomeIn opening o };

    fn key(&self) -> usize {
        self.packet.id as usize
    }
}

impl Member for Node {
    type Whole = Net;

    ghost key_of = { node_number };

    ghost belongs = { λ n net. IsNodeOf net n };

    fn key(&self) -> usize {
        self.index() as usize
    }
}

/// So many empty slots.
pub(crate) fn empty_slots<T: Drop>(
    alloc: Global,
    count: usize,
) -> Result<Vec<Option<T>>, AllocError>
    ensures { IfOk result (λ slots. (length slots.items ≡ count)
        × ((k : ℕ) → slice_index_or slots.items k None ≡ None)) }
{
    let mut slots = Vec::with_capacity(alloc, count)?;
    for _slot in 0..count {
        slots.push(None)?;
    }
    Ok(slots)
}

/// Puts the outcomes of each row into the slots of their packets.
pub(crate) fn place_rows(mut rows: Vec<Vec<Outcome>>, slots: &mut Vec<Option<Outcome>>)
    requires { MayPlace outcome_number slots.old.items
        (λ i. weight_settled (hit outcome_number i) rows.items) }
    ensures placed { CameIntoSlots outcome_number slots.old.items slots.new.items
        (λ w. weight_settled w rows.items) }
    ensures all { (opening : Stamp) → AllIn (λ o. IsOutcomeIn opening o) slots.old.items
        → AreSettledIn opening rows.items → AllIn (λ o. IsOutcomeIn opening o) slots.new.items }
{
    while let Some(row) = rows.pop() {
        place_all(row, slots);
    }
}

// Puts what is left of each parcel of a channel into the slot of its packet, as it is taken.
fn place_rest<R: Wait>(rt: &R, mut channel: Remains<Parcel>, slots: &mut Vec<Option<Outcome>>)
    requires { MayPlace outcome_number slots.old.items (λ i. sum_by (hit (λ x. x.packet.id) i) channel.left) }
    ensures placed { AreLeftPlaced slots.old.items slots.new.items channel.left }
    ensures all { (opening : Stamp) → AllIn (λ o. IsOutcomeIn opening o) slots.old.items
        → All (λ x. IsParcelOf opening x) channel.left → AllIn (λ o. IsOutcomeIn opening o) slots.new.items }
{
    for _ in rt.forever() {
        match channel.take(rt) {
            Some(parcel) => place(parcel.into_left(), slots),
            None => break,
        }
    }
}

/// Puts what is left of each parcel in the channels into the slot of its packet.
pub(crate) fn place_left<R: Wait>(
    rt: &R,
    mut channels: Vec<Remains<Parcel>>,
    slots: &mut Vec<Option<Outcome>>,
)
    requires { MayPlace outcome_number slots.old.items
        (λ i. sum_by (hit (λ x. x.packet.id) i) (left_in channels.items)) }
    ensures placed { AreLeftPlaced slots.old.items slots.new.items (left_in channels.items) }
    ensures all { (opening : Stamp) → AllIn (λ o. IsOutcomeIn opening o) slots.old.items
        → All (λ x. IsParcelOf opening x) (left_in channels.items)
        → AllIn (λ o. IsOutcomeIn opening o) slots.new.items }
{
    while let Some(channel) = channels.pop() {
        place_rest(rt, channel, slots);
    }
}

/// Takes each outcome out of its slot, in order, and puts it into the report, which has room.
pub(crate) fn told_in_order(mut slots: Vec<Option<Outcome>>, report: &mut Report)
    requires full { (k : ℕ) → k < length slots.items
        → (o : Outcome) × (slice_index_or slots.items k None ≡ Some o) }
    requires empty { IsEmptyReport (length slots.items) report.old }
    ensures { TellsOf slots.items report.new }
{
    for i in 0..slots.len() {
        let Some(outcome) = slots[i].take() else {
            unreachable!();
        };
        let Outcome {
            packet,
            stamp,
            later,
            ..
        } = outcome;
        report.records.push_reserved(packet);
        report.stamps.push_reserved(stamp);
        report.later.push_reserved(later);
    }
}
