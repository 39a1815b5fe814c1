//! A channel, its two ends, and what is left at the end.
//!
//! The account of a channel is this project's own rule. The queue is crossbeam's bounded one, under a rule of ours.
ghost use Rattle.std.specs.Prelude.{◌≡◌, ◌<◌, ◌+◌, ◌≤◌, List, [], ◌∷◌, ◌++◌, length, All, IfOk, IfErr, IfNone, IfSome, None, true, MatchOption, MatchResult, vec_len, vec_capacity, drop};
ghost use Rattle.std.specs.Arc.{arc_value};
ghost use Rattle.crossbeam_queue.specs.Passes.{view as pass_view, IsSamePass, IsPassOf, ruled_capacity};
ghost use Rattle.ir_links.specs.{Ends.{channel_named, with_item_sent, with_item_taken, WasFull, WasEmpty, WasRefused, FoundNone}, Rule.{terms_of, known, knows_base}};
ghost use Rattle.ir_links.specs.{Ends.{Channel, Sender, Taker, Remains}, Rule.{knows_sent, knows_taken, knows_both}};

use crate::moments::{Moments, Shared};
use crate::rule::{Bound, Empties, EndView, InOrder, NamedTerms, Naming, Roles};
use atomic_table::{Perch, Seat};
use crossbeam_queue::{Pass, RuledArrayQueue};
use std::alloc::{AllocError, Global};
use std::marker::{Brand, Model};
use std::sync::{Arc, Wait};

/// The perch of a pass's kind: a pass rests there until one caller takes it, with no lock.
pub trait Rests {
    type On;
}

impl<S, V> Rests for Seat<S, V> {
    type On = Perch<S, V>;
}

/// Carries items to one place, oldest first, and holds at most its capacity of them.
///
/// Contracts see its `Channel`: which queue it is, its place, and its capacity in items.
///
/// ```
/// let channel = Channel::new(alloc, 2, Way { to: 7 }).ok()?;
/// let Ok(Some((mut sender, mut taker))) = channel.ends() else {
///     return None;
/// };
/// let is_sent = sender.send(rt, letter).is_ok();
/// let came = taker.take(rt);
/// ```
#[derive(Drop)]
pub struct Channel<T: Bound> {
    shared: Arc<Shared<T>, Global>,
    base: <Pass<T, EndView<T, T::Place>> as Rests>::On,
}

impl<T: Bound> Model for Channel<T> {
    ghost Value = { Channel T.Place };

    ghost view = { λ c. channel_named c.base.table_id (arc_value c.shared).place
        (ruled_capacity (arc_value c.shared).queue) };

    ghost invariant = { λ c. (c.base.table_id ≡ (arc_value c.shared).queue.table.shared.table_id)
        × (c.base.view.client ≡ knows_base (arc_value c.shared).place (ruled_capacity (arc_value c.shared).queue)) };
}

/// The channel was full: the item comes back as it was.
#[derive(Drop)]
pub struct Full<T> {
    pub item: T,
}

/// The end that sends. Contracts see the channel's `Channel`, and the list of all that was sent.
#[derive(Drop)]
pub struct Sender<T: Bound> {
    shared: Arc<Shared<T>, Global>,
    pass: Pass<T, EndView<T, T::Place>>,
}

impl<T: Bound> Model for Sender<T> {
    ghost Value = { Sender T.Place T };

    ghost view = { λ s. record {
      channel = channel_named s.pass.table_id (arc_value s.shared).place (ruled_capacity (arc_value s.shared).queue);
      sent = (pass_view s.pass).sent;
    } };

    ghost invariant = { λ s. IsPassOf (arc_value s.shared).queue s.pass
        × (pass_view s.pass ≡ knows_sent (arc_value s.shared).place (ruled_capacity (arc_value s.shared).queue)
        (pass_view s.pass).sent) };
}

/// The end that takes. Contracts see the channel's `Channel`, and the list of all that was taken.
#[derive(Drop)]
pub struct Taker<T: Bound> {
    shared: Arc<Shared<T>, Global>,
    pass: Pass<T, EndView<T, T::Place>>,
}

impl<T: Bound> Model for Taker<T> {
    ghost Value = { Taker T.Place T };

    ghost view = { λ s. record {
      channel = channel_named s.pass.table_id (arc_value s.shared).place (ruled_capacity (arc_value s.shared).queue);
      taken = (pass_view s.pass).taken;
    } };

    ghost invariant = { λ s. IsPassOf (arc_value s.shared).queue s.pass
        × (pass_view s.pass ≡ knows_taken (arc_value s.shared).place (ruled_capacity (arc_value s.shared).queue)
        (pass_view s.pass).taken) };
}

/// What is left of a channel whose two ends were brought together. Contracts see the channel's
/// `Channel`, and the list of the items that it still holds, oldest first.
#[derive(Drop)]
pub struct Remains<T: Bound> {
    shared: Arc<Shared<T>, Global>,
    pass: Pass<T, EndView<T, T::Place>>,
}

impl<T: Bound> Model for Remains<T> {
    ghost Value = { Remains T.Place T };

    ghost view = { λ r. record {
      channel = channel_named r.pass.table_id (arc_value r.shared).place (ruled_capacity (arc_value r.shared).queue);
      left = drop (length (pass_view r.pass).taken) (pass_view r.pass).sent;
    } };

    ghost invariant = { λ r. IsPassOf (arc_value r.shared).queue r.pass
        × (pass_view r.pass ≡ knows_both (arc_value r.shared).place (ruled_capacity (arc_value r.shared).queue)
        (pass_view r.pass).sent (pass_view r.pass).taken)
        × ((pass_view r.pass).sent ≡ (pass_view r.pass).taken
        ++ drop (length (pass_view r.pass).taken) (pass_view r.pass).sent) };
}

// Lets the rule know where the channel leads and how much it holds.
fn name<T: Bound, K: Naming<T::Place>>(
    queue: &RuledArrayQueue<T, EndView<T, T::Place>, InOrder>,
    pass: &mut Pass<T, EndView<T, T::Place>>,
    _place: &T::Place,
)
    requires queue { IsPassOf queue.now pass.old }
    requires fresh { pass_view pass.old ≡ known true true None [] [] }
    requires terms { K.terms ≡ terms_of _place.now (ruled_capacity queue.now) }
    ensures queue { IsSamePass pass.old pass.new }
    ensures named { pass_view pass.new ≡ knows_base _place.now (ruled_capacity queue.now) }
{
    queue.another::<NamedTerms<K>>(pass);
}

impl<T: Bound> Channel<T> {
    /// A channel to `place` that holds nothing, and at most `capacity` items.
    ///
    /// An error means that there is no memory for its slots.
    pub fn new(alloc: Global, capacity: usize, place: T::Place) -> Result<Channel<T>, AllocError>
        requires { 0 < capacity }
        ensures { IfOk result (λ c. (c.place ≡ place) × (c.capacity ≡ capacity)) }
    {
        let (queue, mut pass) = RuledArrayQueue::ruled(alloc, capacity)?;
        name::<T, Brand>(&queue, &mut pass, &place);
        let base = Perch::new(&pass, 0);
        let _ = base.give(pass, 0, 2);
        let shared = Arc::new(alloc, Shared { queue, place })?;
        Ok(Channel { shared, base })
    }

    /// The two ends, once, and then `None`; after an error `None` too. It neither waits nor allocates.
    ///
    /// An error means that the count of the channel's owners is full. That the first call gives the ends is shown by
    /// test.
    pub fn ends(&self) -> Result<Option<(Sender<T>, Taker<T>)>, AllocError>
        ensures { IfOk result (λ given. IfSome given
            (λ ends. (ends.0 ≡ record { channel = self.now; sent = [] })
            × (ends.1 ≡ record { channel = self.now; taken = [] }))) }
    {
        let (_, resting) = self.base.take(0);
        let Some(mut pass) = resting else {
            return Ok(None);
        };
        let ours = Arc::try_clone(&self.shared)?;
        let theirs = Arc::try_clone(&self.shared)?;
        let taking = self.shared.queue.another::<Roles>(&mut pass);
        Ok(Some((
            Sender { shared: ours, pass },
            Taker {
                shared: theirs,
                pass: taking,
            },
        )))
    }
}

impl<T: Bound> Sender<T> {
    /// Where the channel leads.
    pub fn place(&self) -> &T::Place
        ensures { result.now ≡ self.now.channel.place }
    {
        &self.shared.place
    }

    /// Puts the item after those in the channel, or gives it back.
    ///
    /// The sent list grows by the item exactly where the answer is `Ok`. It is `Full` only where
    /// the channel held as many items as it can at one moment of the call, at which the push of
    /// this call was refused. They are then the last of the sent list, and each goes to the place.
    pub fn send<R: Moments<T>>(&mut self, rt: &R, item: T) -> Result<(), Full<T>>
        requires { T.goes_to item self.old.channel.place }
        ensures sent { MatchResult result
            (λ _. self.new ≡ with_item_sent self.old item)
            (λ full. (full.item ≡ item) × (self.new ≡ self.old) × WasFull T.goes_to self.old) }
        ensures moment { IfErr result (λ _. WasRefused R.was_full T.goes_to self.old) }
        ensures channel { self.new.channel ≡ self.old.channel }
    {
        let answer = rt.push(&self.shared, &mut self.pass, item);
        answer.map_err(|item| Full { item })
    }
}

impl<T: Bound> Taker<T> {
    /// The most items that the channel holds.
    pub fn capacity(&self) -> usize
        ensures { result ≡ self.now.channel.capacity }
    {
        self.shared.queue.capacity()
    }

    /// Takes the oldest item in the channel.
    ///
    /// The taken list grows by that item, which goes to the channel's place. `None` comes only
    /// where the queue held nothing at one moment of the call, at which the pop of this call was
    /// refused. The taken list was then all that had been sent, and each item of it goes to the
    /// place: the taker alone doesn't know that, and the channel's rule shows it at a step.
    pub fn take<R: Moments<T>>(&mut self, rt: &R) -> Option<T>
        ensures taken { MatchOption result
            ((self.new ≡ self.old) × WasEmpty T.goes_to self.old)
            (λ item. (self.new ≡ with_item_taken self.old item) × T.goes_to item self.old.channel.place) }
        ensures moment { IfNone result (FoundNone R.was_empty T.goes_to self.old) }
        ensures channel { self.new.channel ≡ self.old.channel }
    {
        rt.pop(&self.shared, &mut self.pass)
    }
}

/// Brings the two ends of a channel together, for what is left in it. It takes no memory.
///
/// What was sent is what was taken and then what is left, which is no more than the channel holds, and each item of it
/// goes to the channel's place.
pub fn join<T: Bound>(sender: Sender<T>, taker: Taker<T>) -> Remains<T>
    requires one { sender.channel ≡ taker.channel }
    ensures channel { result.channel ≡ taker.channel }
    ensures left { sender.sent ≡ taker.taken ++ result.left }
    ensures room { length result.left ≤ taker.channel.capacity }
    ensures goes { All (λ x. T.goes_to x taker.channel.place) result.left }
{
    let Sender { mut pass, .. } = sender;
    let Taker {
        shared,
        pass: taking,
    } = taker;
    shared.queue.absorb::<Roles>(&mut pass, taking);
    shared.queue.learn_as::<Empties>(&mut pass);
    Remains { shared, pass }
}

impl<T: Bound> Remains<T> {
    /// Takes the oldest item that is left, or none where nothing is left.
    pub fn take<R: Wait>(&mut self, rt: &R) -> Option<T>
        ensures left { MatchOption result ((self.old.left ≡ []) × (self.new ≡ self.old))
            (λ item. self.old.left ≡ item ∷ self.new.left) }
        ensures channel { self.new.channel ≡ self.old.channel }
    {
        self.shared.queue.pop_as::<Empties, R>(rt, &mut self.pass)
    }
}

/// Appends what is left in the channel to `into`, oldest first. Both ends are of one channel, and `into` has room for
/// the channel's capacity, so this takes no memory.
///
/// What was sent is what was taken and then what is left, and each item that is left goes to the channel's place.
pub fn settle_into<T: Bound, R: Wait>(rt: &R, sender: Sender<T>, taker: Taker<T>, into: &mut Vec<T>)
    requires one { sender.channel ≡ taker.channel }
    requires room { vec_len into.old + taker.channel.capacity ≤ vec_capacity into.old }
    ensures left { (left : List T) × (into.new.items ≡ into.old.items ++ left)
        × (sender.sent ≡ taker.taken ++ left) × All (λ x. T.goes_to x taker.channel.place) left }
    ensures room { (vec_capacity into.new ≡ vec_capacity into.old)
        × (vec_len into.new ≤ vec_len into.old + taker.channel.capacity) }
{
    let mut remains = join(sender, taker);
    for _ in rt.forever() {
        match remains.take(rt) {
            Some(item) => into.push_reserved(item),
            None => break,
        }
    }
}

/// What is left in the channel, oldest first, by the account of `settle_into`.
///
/// Where there is no memory for the list the two ends come back as they were.
pub fn settle<T: Bound, R: Wait>(
    rt: &R,
    alloc: Global,
    sender: Sender<T>,
    taker: Taker<T>,
) -> Result<Vec<T>, (Sender<T>, Taker<T>)>
    requires { sender.channel ≡ taker.channel }
    ensures { MatchResult result
        (λ left. (sender.sent ≡ taker.taken ++ left.items) × All (λ x. T.goes_to x taker.channel.place) left.items)
        (λ ends. (ends.0 ≡ sender) × (ends.1 ≡ taker)) }
{
    let Ok(mut left) = Vec::with_capacity(alloc, taker.capacity()) else {
        return Err((sender, taker));
    };
    settle_into(rt, sender, taker, &mut left);
    Ok(left)
}
