//! A channel.
ghost use Rattle.std.specs.Prelude.{◌≡◌, IfOk, IfSome};

use ir_links::{Bound, Channel, Sender, Taker, settle};
use std::alloc::Global;
use std::sync::Wait;

/// An item of a channel.
#[derive(Drop)]
struct Letter {
    id: u32,
    next: u16,
}

impl Bound for Letter {
    type Place = u16;

    ghost id_of = { λ letter. letter.id };

    ghost goes_to = { λ letter place. letter.next ≡ place };

    fn id(&self) -> u32 {
        self.id
    }
}

/// A channel to node 7 that holds two items.
fn channel(alloc: Global) -> Result<Channel<Letter>, &'static str> {
    if let Ok(channel) = Channel::new(alloc, 2, 7) {
        return Ok(channel);
    }
    match Channel::new(alloc, 2, 7) {
        Ok(channel) => Ok(channel),
        Err(_) => Err("a channel is refused again"),
    }
}

/// The two ends of a channel; none where there was no memory, and then it has none left.
fn given(channel: &Channel<Letter>) -> Result<Option<(Sender<Letter>, Taker<Letter>)>, &'static str>
    ensures { IfOk result (λ found. IfSome found (λ ends. ends.0.channel ≡ ends.1.channel)) }
{
    match channel.ends() {
        Ok(Some(ends)) => return Ok(Some(ends)),
        Ok(None) => return Err("no ends are given"),
        Err(_) => {}
    }
    match channel.ends() {
        Ok(None) => Ok(None),
        _ => Err("ends that were refused are given"),
    }
}

/// The two ends of a channel of their own; none where there was no memory.
fn ends_of_one(alloc: Global) -> Result<Option<(Sender<Letter>, Taker<Letter>)>, &'static str>
    ensures { IfOk result (λ found. IfSome found (λ ends. ends.0.channel ≡ ends.1.channel)) }
{
    let channel = channel(alloc)?;
    given(&channel)
}

/// The two ends of a channel; of another one, where there was no memory.
fn ends(alloc: Global) -> Result<(Sender<Letter>, Taker<Letter>), &'static str>
    ensures { IfOk result (λ ends. ends.0.channel ≡ ends.1.channel) }
{
    if let Some(ends) = ends_of_one(alloc)? {
        return Ok(ends);
    }
    match ends_of_one(alloc)? {
        Some(ends) => Ok(ends),
        None => Err("no other ends are given"),
    }
}

/// Sends an item of this number, and answers whether the channel had room.
fn send<R: Wait>(rt: &R, sender: &mut Sender<Letter>, id: u32) -> bool
    ensures { sender.new.channel ≡ sender.old.channel }
{
    let letter = Letter {
        id,
        next: *sender.place(),
    };
    sender.send(rt, letter).is_ok()
}

/// What is left in a channel; its ends come back where there was no memory.
fn left<R: Wait>(
    rt: &R,
    alloc: Global,
    sender: Sender<Letter>,
    taker: Taker<Letter>,
) -> Result<Vec<Letter>, &'static str>
    requires { sender.channel ≡ taker.channel }
{
    let (sender, taker) = match settle(rt, alloc, sender, taker) {
        Ok(left) => return Ok(left),
        Err(ends) => ends,
    };
    match settle(rt, alloc, sender, taker) {
        Ok(left) => Ok(left),
        Err(_) => Err("a settling is refused again"),
    }
}

/// Three items over two places: one is taken, one comes back, and one is left.
pub(crate) fn try_channel<R: Wait>(rt: &R, alloc: Global) -> Result<(), &'static str> {
    let (mut sender, mut taker) = ends(alloc)?;
    let sent = [
        send(rt, &mut sender, 0),
        send(rt, &mut sender, 1),
        send(rt, &mut sender, 2),
    ];
    let taken = match taker.take(rt) {
        Some(letter) => letter.id(),
        None => return Err("nothing is taken"),
    };
    let left = left(rt, alloc, sender, taker)?;
    if sent == [true, true, false] && taken == 0 && left.len() == 1 && left[0].id() == 1 {
        Ok(())
    } else {
        Err("the channel held something else")
    }
}
