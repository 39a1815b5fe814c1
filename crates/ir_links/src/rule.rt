//! The rule of a channel, and what each kind of step does to what its pass knows.
ghost use Rattle.std.specs.Prelude.{◌≡◌, ℕ, true, None, [], Option, false, List, ◌++◌, ◌∷◌};
ghost use Rattle.ir_links.specs.Rule.{known, Kept, after_send, GoBy, after_take, Goes, FitsIn};
ghost use Rattle.ir_links.specs.{declared.rule.Terms.Terms, Lists.EndsWith};

use crossbeam_queue::protocol::{Join, Lesson, Outcome, Protocol, Split};
use std::collections::LinkedList;
use std::marker::{Brand, PhantomData};

/// What a channel can carry. An item goes to a place or does not, and a channel leads to one place.
pub trait Bound: Drop + Send {
    /// Where a channel leads.
    type Place: Drop + Send + Sync;

    ghost id_of: { Self → ℕ };

    ghost goes_to: { Self → Self.Place → Type 0 };

    /// The item's number.
    fn id(&self) -> u32
        ensures { result ≡ id_of self.now };
}

/// What stays the same of a channel.
pub struct Terms<P> {
    pub place: P,
    pub capacity: usize,
}

/// What a pass may do (send, take), the channel's terms, and what the pass has sent and taken. No value of it is made.
pub struct EndView<T, P> {
    pub sends: bool,
    pub takes: bool,
    pub terms: Option<Terms<P>>,
    pub sent: LinkedList<T>,
    pub taken: LinkedList<T>,
}

/// What was sent is what was taken and then what the queue holds. A first pass may do both, and knows no terms.
pub struct InOrder;

impl<T: Bound> Protocol<T, EndView<T, T::Place>> for InOrder {
    ghost holds = { Kept T.goes_to };

    ghost first = { known true true None [] [] };
}

/// Names the terms of a channel, once, before its first step.
pub trait Naming<P> {
    ghost terms: { Option (Terms P) };
}

impl<P> Naming<P> for Brand {
    ghost terms = { None };
}

/// A split that gives the first pass the channel's terms. The pass that it makes beside it may do nothing.
pub struct NamedTerms<K> {
    marker: PhantomData<K>,
}

impl<T, P, K: Naming<P>> Split<EndView<T, P>> for NamedTerms<K> {
    ghost left = { λ v. known true true K.terms [] [] };

    ghost right = { λ v. known false false None [] [] };
}

/// The base pass becomes the sender's and the taker's, and at the end they are one again.
pub struct Roles;

impl<T, P> Split<EndView<T, P>> for Roles {
    ghost left = { λ v. known true false v.terms v.sent [] };

    ghost right = { λ v. known false true v.terms [] v.taken };
}

impl<T, P> Join<EndView<T, P>> for Roles {
    ghost both = { λ v w. known true true w.terms v.sent w.taken };

    ghost spent = { known false false None [] [] };
}

/// A push by the sender.
pub struct SendsItem;

impl<T, P> Outcome<T, EndView<T, P>> for SendsItem {
    ghost then = { λ v x w. w ≡ after_send v x };
}

impl<T: Bound> Lesson<T, EndView<T, T::Place>> for SendsItem {
    ghost fact = { λ v items. EndsWith v.sent items × GoBy T.goes_to v.terms items };
}

/// A pop by the taker.
pub struct TakesItem;

impl<T: Bound> Outcome<T, EndView<T, T::Place>> for TakesItem {
    ghost then = { λ v x w. (w ≡ after_take v x) × Goes T.goes_to v x };
}

impl<T: Bound> Lesson<T, EndView<T, T::Place>> for TakesItem {
    ghost fact = { λ v items. (sent : List T) × (sent ≡ v.taken ++ items) × GoBy T.goes_to v.terms sent };
}

/// A pop at the end, by the one pass that is left.
pub struct Empties;

impl<T: Bound> Outcome<T, EndView<T, T::Place>> for Empties {
    ghost then = { λ v x w. (w ≡ after_take v x) × ((rest : List T) × (v.sent ≡ v.taken ++ x ∷ rest)) };
}

impl<T: Bound> Lesson<T, EndView<T, T::Place>> for Empties {
    ghost fact = { λ v items. (v.sent ≡ v.taken ++ items) × FitsIn v items × GoBy T.goes_to v.terms items };
}
