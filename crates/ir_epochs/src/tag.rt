//! Numbers that only clauses read, such as the names of a table's cells.
ghost use Rattle.std.specs.Prelude.{◌≡◌, ℕ, List};
ghost use base.Fml.{ftrue};

use std::marker::{Model, PhantomData};

/// Which numbers a tag takes off a value.
pub trait Names<X> {
    ghost numbers: { X → List ℕ };
}

/// A list of numbers with no bytes. It owns nothing: what the numbers say of a value is said by clauses.
pub struct Tag {
    marker: PhantomData<()>,
    pub ghost numbers: { List ℕ },
}

impl Model for Tag {
    ghost also_owns = { λ _. ftrue };
}

impl Tag {
    /// The numbers of a value.
    pub fn of<X, M: Names<X>>(x: &X) -> Tag
        ensures { result.numbers ≡ M.numbers x.now }
    {
        let _ = x;
        Tag {
            marker: PhantomData,
        }
    }
}

impl Drop for Tag {
    fn drop(self) {
        let Self { marker: _ } = self;
    }
}

// It owns nothing: both are proved in `proofs/tag/Tag/TheSendSync`.
unsafe impl Send for Tag {}

unsafe impl Sync for Tag {}
