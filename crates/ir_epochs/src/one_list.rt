//! That all who know something of one board know beginnings of one list.
ghost use Rattle.std.specs.Prelude.{◌≡◌, List, ◌⊎◌};
ghost use mathlib.Core.List.{IsPrefix};
ghost use Rattle.logbook.specs.Pages.{Book};
ghost use Rattle.ir_epochs.specs.declared.entry.Entry.{Entry};

use crate::chronicle::Front;
use crate::handles::{BoardReader, BoardWriter, Receipt};
use std::sync::Wait;

/// What knows the entries of a board up to some version: its writer, a reader, or a receipt.
pub trait Follows {
    ghost entries: { Self → List Entry };

    ghost of_board: { Self → Book };

    /// The list that it knows. It has no bytes.
    fn front(&self) -> Front
        ensures { (result.log ≡ entries self.now) × (result.book ≡ of_board self.now) };
}

impl Follows for BoardReader {
    ghost use Rattle.ir_epochs.specs.Handles.{known, reader_board};

    ghost entries = { known };

    ghost of_board = { reader_board };

    fn front(&self) -> Front {
        self.known().again()
    }
}

impl Follows for Receipt {
    ghost use Rattle.ir_epochs.specs.Handles.{told, receipt_board};

    ghost entries = { told };

    ghost of_board = { receipt_board };

    fn front(&self) -> Front {
        self.told().again()
    }
}

impl<R: Wait + Drop> Follows for BoardWriter<R> {
    ghost use Rattle.ir_epochs.specs.Handles.{published, writer_board};

    ghost entries = { published };

    ghost of_board = { writer_board };

    fn front(&self) -> Front {
        self.published().again()
    }
}

/// Of what two of them know of one board, the one is a beginning of the other. So a board that was read is the fold of
/// the first changes, as many as its version says, of any receipt and of the writer that know as many.
pub fn know_one_list<A: Follows, B: Follows>(a: &A, b: &B)
    requires { A.of_board a.now ≡ B.of_board b.now }
    ensures { IsPrefix (A.entries a.now) (B.entries b.now) ⊎ IsPrefix (B.entries b.now) (A.entries a.now) }
{
    let (one, other) = (a.front(), b.front());
    let mut both = one.again();
    both.learn(&other);
}
