//! The list of a board's entries. It exists in the proofs alone; at run time there is a word that counts the steps.
ghost use Rattle.std.specs.Prelude.{◌≡◌, ◌+◌, ◌<◌, ◌≤◌, ◌^◌, ◌++◌, ◌∷◌, [], length, IsTrue, true};
ghost use mathlib.Core.List.{IsPrefix};
ghost use Rattle.logbook.specs.Pages.{nib, no_nib, may_make, may_write};

use crate::entry::Entry;
use logbook::{Gain, Offer, Opening, Pen, Plain, Play, Rule, Seen, Start, Word};
use std::sync::Wait;

/// An entry is added by who has its pen, of which there is one.
pub struct Law;

impl Rule<Entry, u64> for Law {
    ghost use Rattle.std.specs.Prelude.{[]};
    ghost use base.Fml.{ftrue};
    ghost use Rattle.ir_epochs.specs.Chronicle.{IsChronicleKept};

    ghost holds = { λ cells log. IsChronicleKept cells log };

    ghost first = { [] };

    ghost hinted = { λ n log. Unit {0} };

    ghost shows = { λ log. [] };

    ghost keeps = { λ names log. ftrue };

    ghost moves = { λ ask before after answer. Unit {0} };
}

struct Nothing;

impl Gain<Entry, u64> for Nothing {
    ghost use base.Fml.{ftrue};

    ghost after = { λ names about answer. ftrue };
}

struct First;

impl Opening<Entry, Entry> for First {
    ghost log = { λ n entry. entry ∷ [] };
}

struct Reserve;

impl Play<Entry, u64> for Reserve {
    ghost use Rattle.ir_epochs.specs.Chronicle.{Reserves};

    ghost then = { Reserves };
}

struct Add;

impl Play<Entry, u64> for Add {
    ghost use Rattle.ir_epochs.specs.Chronicle.{Adds};

    ghost then = { Adds };
}

struct Look;

impl Play<Entry, u64> for Look {
    ghost use Rattle.ir_epochs.specs.Chronicle.{Looks};

    ghost then = { Looks };
}

impl Plain<Entry, Entry, u64> for Add {
    ghost use Rattle.std.specs.Prelude.{None};

    ghost ask = { λ entry. entry };

    ghost state = { λ entry. None };
}

// A step that asks for no entry.
struct Idle;

impl Plain<(), Entry, u64> for Idle {
    ghost use Rattle.std.specs.Prelude.{None};
    ghost use Rattle.ir_epochs.specs.declared.entry.Change.TheVariants.{Retire};
    ghost use Rattle.ir_epochs.specs.declared.entry.Entry.TheVariants.{Changed};

    ghost ask = { λ _. Changed (Retire 0) };

    ghost state = { λ _. None };
}

/// A beginning of the list, which was reached. It has no bytes, and threads may share it.
pub type Front = Seen<Entry, u64, Law>;

/// What adds to the list. The board's writer has it, and the pen of the next entry.
#[derive(Drop)]
pub struct Chronicle {
    head: Word<Entry, u64, Law>,
    pub pen: Pen,
    ghost tracked: { head.tracked ≡ true },
    ghost at: { head.key ≡ 0 },
    ghost same_book: { pen.book ≡ head.book },
    ghost right: { pen.nib.right ≡ may_write },
}

// Takes the pen of the next entry, where all the list was seen and nobody has it.
fn take_pen(head: &Word<Entry, u64, Law>, front: &mut Front, version: u64, pen: &mut Pen) -> bool
    requires head { (head.now.tracked ≡ true) × (head.now.key ≡ 0) }
    requires book { (front.old.book ≡ head.now.book) × (pen.old.book ≡ head.now.book) }
    requires none { pen.old.nib ≡ no_nib }
    requires version { length front.old.log ≡ version + 1 }
    requires room { version < 2 ^ 62 }
    ensures book { pen.new.book ≡ head.now.book }
    ensures taken { IsTrue result → pen.new.nib ≡ nib may_make (length front.old.log) 0 }
{
    let mut offer: Offer<Entry, u64, Law, Nothing> = front.plain::<Nothing, (), Idle>(&());
    let count = version + version;
    let found = head.compare_exchange::<Reserve, Nothing>(count, count + 1, front, &mut offer, pen);
    found == count
}

// The pen of the next entry, which the board's writer alone takes, so the first try does; another that had it would be
// waited for without end.
fn next_pen<R: Wait>(rt: &R, head: &Word<Entry, u64, Law>, front: &Front, version: u64) -> Pen
    requires head { (head.now.tracked ≡ true) × (head.now.key ≡ 0) }
    requires book { front.now.book ≡ head.now.book }
    requires version { length front.now.log ≡ version + 1 }
    requires room { version < 2 ^ 62 }
    ensures book { result.book ≡ head.now.book }
    ensures right { result.nib.right ≡ may_write }
    ensures key { result.nib.key ≡ length front.now.log }
{
    for _ in rt.forever() {
        let mut all = front.again();
        let mut pen = front.no_pen();
        if take_pen(head, &mut all, version, &mut pen) {
            let _cell: Word<Entry, u64, Law> = Word::tracked(0, &mut pen);
            return pen;
        }
    }
    unreachable!()
}

// Adds an entry to all that was seen, by its pen.
fn add_entry(
    head: &Word<Entry, u64, Law>,
    front: &mut Front,
    version: u64,
    entry: &Entry,
    pen: &mut Pen,
)
    requires head { (head.now.tracked ≡ true) × (head.now.key ≡ 0) }
    requires book { (front.old.book ≡ head.now.book) × (pen.old.book ≡ head.now.book) }
    requires right { pen.old.nib.right ≡ may_write }
    requires key { pen.old.nib.key ≡ length front.old.log }
    requires version { length front.old.log ≡ version + 1 }
    requires room { version < 2 ^ 62 }
    ensures book { front.new.book ≡ front.old.book }
    ensures added { front.new.log ≡ front.old.log ++ entry.now ∷ [] }
{
    let mut offer: Offer<Entry, u64, Law, Nothing> = front.plain::<Nothing, Entry, Add>(entry);
    let count = version + version + 1;
    head.compare_exchange::<Add, Nothing>(count, count + 1, front, &mut offer, pen);
}

// Sees that the list has no entry of the pen yet.
fn bound_log(head: &Word<Entry, u64, Law>, front: &mut Front, pen: &mut Pen)
    requires head { (head.now.tracked ≡ true) × (head.now.key ≡ 0) }
    requires book { (front.old.book ≡ head.now.book) × (pen.old.book ≡ head.now.book) }
    requires right { pen.old.nib.right ≡ may_write }
    ensures later { IsPrefix front.old.log front.new.log }
    ensures most { length front.new.log ≤ pen.old.nib.key }
    ensures pen { (pen.new.book ≡ pen.old.book) × (pen.new.nib ≡ pen.old.nib) }
{
    let mut offer: Offer<Entry, u64, Law, Nothing> = front.plain::<Nothing, (), Idle>(&());
    head.compare_exchange::<Look, Nothing>(0, 0, front, &mut offer, pen);
}

impl Chronicle {
    /// A list of one entry.
    pub(crate) fn open<R: Wait>(rt: &R, first: Entry) -> (Chronicle, Front)
        ensures book { result.1.book ≡ result.0.head.book }
        ensures first { result.1.log ≡ first ∷ [] }
        ensures next { result.0.pen.nib.key ≡ length result.1.log }
    {
        let (front, mut pens) = Seen::open_row::<Entry, First>(&first, Start::alone(), 1);
        let head = Word::tracked(0, &mut pens.take());
        let pen = next_pen(rt, &head, &front, 0);
        (Chronicle { head, pen }, front)
    }

    /// The list with one more entry after all that was seen, by the pen of that entry.
    pub(crate) fn record<R: Wait>(
        &mut self,
        rt: &R,
        front: &Front,
        version: u64,
        entry: Entry,
    ) -> Front
        requires book { front.now.book ≡ self.old.head.book }
        requires next { self.old.pen.nib.key ≡ length front.now.log }
        requires version { length front.now.log ≡ version + 1 }
        requires room { version + 1 < 2 ^ 62 }
        ensures same { self.new.head ≡ self.old.head }
        ensures book { result.book ≡ front.now.book }
        ensures added { result.log ≡ front.now.log ++ entry ∷ [] }
        ensures next { self.new.pen.nib.key ≡ length result.log }
    {
        let mut longer = front.again();
        add_entry(&self.head, &mut longer, version, &entry, &mut self.pen);
        self.pen = next_pen(rt, &self.head, &longer, version + 1);
        longer
    }

    /// Sees that the list is no longer than up to the next entry of the pen.
    pub(crate) fn bound(&mut self, front: &mut Front)
        requires book { front.old.book ≡ self.old.head.book }
        ensures same { (self.new.head ≡ self.old.head) × (self.new.pen.nib ≡ self.old.pen.nib) }
        ensures later { IsPrefix front.old.log front.new.log }
        ensures most { length front.new.log ≤ self.old.pen.nib.key }
    {
        bound_log(&self.head, front, &mut self.pen);
    }
}
