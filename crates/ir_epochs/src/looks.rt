//! Looks at a board, with a word for each.
ghost use Rattle.std.specs.Prelude.{◌≡◌, List, Some, option_map};
ghost use mathlib.Core.List.{IsPrefix};
ghost use Rattle.left_right.specs.Sides.{view};
ghost use Rattle.logbook.specs.Pages.{Book};
ghost use Rattle.ir_epochs.specs.{Entries.{board_of, IsSameOpening, Rises}, Seats.IsNoted};
ghost use Rattle.ir_epochs.specs.declared.entry.Entry.{Entry};

use crate::handles::enter;
use crate::published::Published;
use crate::seats::Sitting;

/// A runtime with a word for each look at a board. So a contract can say that a reader looked while its caller had this
/// in hand, and not only that it knows no less than before. Each type is one.
pub trait Looks<X> {
    // Who had this in hand looked at this board, by a reader that knew the first list. It then knows the second.
    ghost looked: { X → Book → List Entry → List Entry → Type 0 };

    /// Takes the value that was published last into the newest that is known, unless the writer is gone.
    fn enter(&self, in_hand: &X, reader: Sitting, newest: &mut Published) -> Sitting
        requires same_board { option_map (λ s. s.book) (view reader.place).known ≡ Some newest.old.front.book }
        requires noted { IsNoted (view reader.place) newest.old }
        ensures same_board { option_map (λ s. s.book) (view result.place).known ≡ Some newest.new.front.book }
        ensures noted { IsNoted (view result.place) newest.new }
        ensures later { IsPrefix newest.old.front.log newest.new.front.log }
        ensures rises { Rises (board_of newest.old.front.log) (board_of newest.new.front.log) }
        ensures opening { IsSameOpening newest.old.front.log newest.new.front.log }
        ensures board { newest.new.front.book ≡ newest.old.front.book }
        ensures looked { looked in_hand.now newest.old.front.book newest.old.front.log newest.new.front.log };
}

impl<X, R> Looks<X> for R {
    // what the kit's board says of it
    ghost looked = { λ _ _ before after. IsPrefix before after };

    fn enter(&self, _in_hand: &X, reader: Sitting, newest: &mut Published) -> Sitting {
        enter(reader, newest)
    }
}
