//! A `Note` that knows, in a form that threads share: it is copied and compared behind a `&`.
ghost use Rattle.std.specs.{Prelude.{◌≡◌, ℕ}, declared.option.Option.TheVariants.Some};
ghost use Rattle.once_cell.specs.Once.{noted};
ghost use denote.Sharing.{said};

use once_cell::race::Note;
use std::marker::{Model, PhantomData};

/// What shows that the cell `cell` holds `value`, for good. It takes no bytes.
///
/// Only clauses see the two. A `Known` is made by `of` or `again` alone.
pub struct Known<T> {
    marker: PhantomData<T>,
    pub ghost cell: { ℕ },
    pub ghost value: { T },
}

impl<T> Model for Known<T> {
    ghost also_owns = { λ k. noted T.row k.cell (Some k.value) };

    ghost also_shares = { λ k _ κ. said (noted T.row k.cell (Some k.value)) κ };
}

impl<T> Known<T> {
    /// What the note knows of its cell. The note stays as it is.
    pub fn of(note: &mut Note<T>) -> Known<T>
        requires { (x : T) × (note.old.known ≡ Some x) }
        ensures note { note.new ≡ note.old }
        ensures value { (result.cell ≡ note.old.cell) × (note.old.known ≡ Some result.value) }
    {
        Known {
            marker: PhantomData,
        }
    }

    /// Lets a note of the same cell know the value, so that a look at the cell by this note finds it.
    pub fn teach(&self, note: &mut Note<T>)
        requires { note.old.cell ≡ self.now.cell }
        ensures { (note.new.cell ≡ note.old.cell) × (note.new.known ≡ Some self.now.value) }
    {}

    /// The same again, as for another thread.
    pub fn again(&self) -> Known<T>
        ensures { result ≡ self.now }
    {
        Known {
            marker: PhantomData,
        }
    }

    /// Two of one cell know one value: a cell is set once.
    pub fn agrees(&self, other: &Known<T>)
        requires { self.now.cell ≡ other.now.cell }
        ensures { self.now.value ≡ other.now.value }
    {}
}

impl<T> Drop for Known<T> {
    fn drop(self) {
        let Self { marker: _ } = self;
    }
}

// It owns no `T`, and what it shows may be had twice: both are proved in `proofs/known/Known/TheSendSync`.
unsafe impl<T> Send for Known<T> {}

unsafe impl<T> Sync for Known<T> {}
