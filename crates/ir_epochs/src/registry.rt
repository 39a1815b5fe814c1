//! The registry: for each epoch a cell that is set once, and stamps that know what their cell holds.
ghost use Rattle.std.specs.Prelude.{◌≡◌, ◌-◌, ◌≤◌, ◌↔◌, IsTrue, MatchResult, length, slice_index, map};
ghost use Rattle.once_cell.specs.Once.{cell_name};
ghost use Rattle.ir_model.specs.Plan.{IsPlan};
ghost use Rattle.ir_core.specs.declared.TheConstants.{MAX_EPOCHS};

use crate::error::RegisterError;
use crate::known::Known;
use crate::tag::{Names, Tag};
use ir_core::MAX_EPOCHS;
use ir_plan::Plan;
use once_cell::race::OnceBox;
use std::alloc::Global;

/// For each epoch from 1 to 64 a cell, which is set at most once.
#[derive(Drop)]
pub struct Registry {
    cells: [OnceBox<Plan>; MAX_EPOCHS],
    alloc: Global,
    ghost full: { length cells ≡ MAX_EPOCHS },
}

/// An epoch of a registry, and what shows its plan for good. Threads may share it.
#[derive(Drop)]
pub struct Stamp {
    epoch: u32,
    known: Known<Plan>,
    registry: Tag,
    ghost in_range: { (1 ≤ epoch) × (epoch ≤ MAX_EPOCHS) },
    ghost here: { known.cell ≡ slice_index registry.numbers (epoch - 1) },
    ghost sound: { ∥ IsPlan known.value ∥₁ },
}

// The names of a registry's cells.
struct Cells;

impl Names<Registry> for Cells {
    ghost numbers = { λ r. map cell_name r.cells };
}

// The numbers of another tag.
struct Same;

impl Names<Tag> for Same {
    ghost numbers = { λ t. t.numbers };
}

impl Registry {
    ghost use Rattle.ir_epochs.specs.Stamps.{IsOf, epoch_of, knows};

    /// A registry of empty cells. It takes no memory.
    pub fn new(alloc: Global) -> Registry {
        Registry {
            cells: std::array::from_fn(|_| OnceBox::new(alloc)),
            alloc,
        }
    }

    /// Sets the cell of an epoch from 1 to 64, and gives a stamp that knows the plan.
    ///
    /// The plan comes back where the cell is used, or there is no memory for it. A cell that is set stays as it is.
    /// That an empty cell takes the plan is shown by test.
    pub fn register(&self, epoch: u32, plan: Plan) -> Result<Stamp, (RegisterError, Plan)>
        requires { (1 ≤ epoch) × (epoch ≤ MAX_EPOCHS) }
        ensures { MatchResult result (λ s. IsOf self.now s × (epoch_of s ≡ epoch) × (knows s ≡ plan))
            (λ e. e.1 ≡ plan) }
    {
        plan.invariant();
        let boxed = match Box::new(self.alloc, plan) {
            Ok(boxed) => boxed,
            Err(failed) => return Err((RegisterError::NoMemory, failed.value)),
        };
        let cell = &self.cells[epoch as usize - 1];
        let mut note = cell.note();
        match cell.set_as(boxed, &mut note) {
            Ok(()) => Ok(Stamp {
                epoch,
                known: Known::of(&mut note),
                registry: Tag::of::<Registry, Cells>(self),
            }),
            Err(boxed) => Err((RegisterError::Used, Box::into_inner(boxed))),
        }
    }

    /// The plan that a stamp of this registry knows. It takes no memory and does not wait.
    pub fn plan(&self, stamp: &Stamp) -> &Plan
        requires { IsOf self.now stamp.now }
        ensures { result.now ≡ knows stamp.now }
    {
        let cell = &self.cells[stamp.epoch as usize - 1];
        let mut note = cell.note();
        stamp.known.teach(&mut note);
        match cell.get_as(&mut note) {
            Some(plan) => plan,
            None => unreachable!(),
        }
    }
}

impl Stamp {
    ghost use Rattle.ir_epochs.specs.Stamps.{epoch_of, knows, registry_name};

    /// Whether two stamps of one registry have the same epoch. Then they know one plan.
    pub fn same(&self, other: &Stamp) -> bool
        requires { registry_name self.now ≡ registry_name other.now }
        ensures epoch { IsTrue result ↔ epoch_of self.now ≡ epoch_of other.now }
        ensures plan { IsTrue result → knows self.now ≡ knows other.now }
    {
        if self.epoch != other.epoch {
            return false;
        }
        self.known.agrees(&other.known);
        true
    }

    /// Its epoch, from 1 to 64.
    pub fn epoch(&self) -> u32
        ensures value { result ≡ epoch_of self.now }
        ensures in_range { (1 ≤ result) × (result ≤ MAX_EPOCHS) }
    {
        self.epoch
    }

    /// A second stamp that is the same, as for another packet or thread.
    pub fn again(&self) -> Stamp
        ensures { result ≡ self.now }
    {
        Stamp {
            epoch: self.epoch,
            known: self.known.again(),
            registry: Tag::of::<Tag, Same>(&self.registry),
        }
    }
}
