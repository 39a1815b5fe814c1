//! What is published.
ghost use Rattle.std.specs.Prelude.{◌≡◌};
ghost use Rattle.ir_epochs.specs.Entries.{IsMadeOf};

use crate::chronicle::Front;
use crate::registry::Stamp;
use ir_core::Board;
use left_right::Absorb;
use std::alloc::AllocError;

/// A board with the stamp of its current epoch, and the list of entries that made them.
#[derive(Drop)]
pub struct Published {
    pub board: Board,
    pub stamp: Stamp,
    pub front: Front,
    pub ghost made: { IsMadeOf front.log board stamp },
}

impl Published {
    /// A copy.
    pub fn again(&self) -> Published
        ensures { result ≡ self.now }
    {
        Published {
            board: self.board,
            stamp: self.stamp.again(),
            front: self.front.again(),
        }
    }

    // From now on it is a copy of the other.
    pub fn become_like(&mut self, other: &Published)
        ensures { self.new ≡ other.now }
    {
        *self = other.again();
    }
}

/// Each operation is the next value, whole.
impl Absorb<Published> for Published {
    type State = Published;

    ghost state = { λ p. p };

    ghost applied = { λ _ p. p };

    ghost never_fails = { Unit {0} };

    fn absorb_first(
        &mut self,
        operation: &Published,
        _other: &Published,
    ) -> Result<(), AllocError> {
        *self = operation.again();
        Ok(())
    }
}
