//! Pushes and pops that record their own moment where they are refused.
ghost use Rattle.std.specs.Prelude.{◌≡◌, List, IfErr, IfNone, IfSome};
ghost use Rattle.atomic_table.specs.Seated.{TableId};
ghost use Rattle.crossbeam_queue.specs.Passes.{view as pass_view, IsSamePass, IsPassOf, ruled_capacity};
ghost use Rattle.ir_links.specs.{Ends.{channel_named, RefusesPush, RefusesPop}, Rule.{knows_sent, knows_taken, IsPushAnswer, IsPopAnswer}};
ghost use Rattle.ir_links.specs.Lists.{EndsWith};

use crate::rule::{Bound, EndView, InOrder, SendsItem, TakesItem};
use crossbeam_queue::{Pass, RuledArrayQueue};
use std::sync::Wait;

/// What the two ends of a channel share.
#[derive(Drop)]
pub struct Shared<T: Bound> {
    pub queue: RuledArrayQueue<T, EndView<T, T::Place>, InOrder>,
    pub place: T::Place,
}

/// A runtime with a word for each call of a channel's queue that is refused. So a contract can say
/// that this very push or pop was refused, and not only that the queue was full or empty once. Each
/// runtime that may wait is one.
pub trait Moments<T: Bound>: Wait {
    // A push on the queue of this name was refused, by the end that had sent the first list. The
    // queue then held the second.
    ghost was_full: { TableId → List T → List T → Type 0 };

    // A pop of the queue of this name was refused, by the end that had taken the first list. The
    // second had then been sent.
    ghost was_empty: { TableId → List T → List T → Type 0 };

    /// Puts the item after those in the queue, or gives it back, and then this push was refused
    /// where the queue was full.
    fn push(
        &self,
        shared: &Shared<T>,
        pass: &mut Pass<T, EndView<T, T::Place>>,
        item: T,
    ) -> Result<(), T>
        requires queue { IsPassOf shared.now.queue pass.old }
        requires knows { pass_view pass.old
            ≡ knows_sent shared.now.place (ruled_capacity shared.now.queue) (pass_view pass.old).sent }
        requires goes { T.goes_to item shared.now.place }
        ensures queue { IsSamePass pass.old pass.new }
        ensures sent { IsPushAnswer shared.now.place (ruled_capacity shared.now.queue) item
            (pass_view pass.old) result (pass_view pass.new) }
        ensures moment { IfErr result (λ _. RefusesPush was_full T.goes_to (channel_named pass.old.table_id
            shared.now.place (ruled_capacity shared.now.queue)) (pass_view pass.old).sent) };

    /// Takes the oldest item of the queue, or none, and then this pop was refused where the queue was empty.
    fn pop(&self, shared: &Shared<T>, pass: &mut Pass<T, EndView<T, T::Place>>) -> Option<T>
        requires queue { IsPassOf shared.now.queue pass.old }
        requires knows { pass_view pass.old
            ≡ knows_taken shared.now.place (ruled_capacity shared.now.queue) (pass_view pass.old).taken }
        ensures queue { IsSamePass pass.old pass.new }
        ensures taken { IsPopAnswer shared.now.place (ruled_capacity shared.now.queue)
            (pass_view pass.old) result (pass_view pass.new) }
        ensures goes { IfSome result (λ item. T.goes_to item shared.now.place) }
        ensures moment { IfNone result (RefusesPop was_empty T.goes_to (channel_named pass.old.table_id
            shared.now.place (ruled_capacity shared.now.queue)) (pass_view pass.old).taken) };
}

impl<T: Bound, R: Wait> Moments<T> for R {
    // what the kit's queue says of such a call
    ghost was_full = { λ name sent items. EndsWith sent items };

    ghost was_empty = { λ name taken sent. sent ≡ taken };

    fn push(
        &self,
        shared: &Shared<T>,
        pass: &mut Pass<T, EndView<T, T::Place>>,
        item: T,
    ) -> Result<(), T> {
        shared.queue.push_as::<SendsItem, R>(self, pass, item)
    }

    fn pop(&self, shared: &Shared<T>, pass: &mut Pass<T, EndView<T, T::Place>>) -> Option<T> {
        shared.queue.pop_as::<TakesItem, R>(self, pass)
    }
}
