//! Channels: three items over two slots by hand, and ten thousand over four slots between two threads.
ghost use Rattle.std.specs.Prelude.{◌≡◌, ◌≤◌, IfOk};

use ir_links::{Bound, Channel, Sender, Taker, settle, settle_into};
use std::alloc::{AllocError, Global};
use std::sync::Wait;
use std::test::Fail;
use std::thread;
use std::thread::Threads;

#[derive(Drop)]
struct Letter {
    id: u32,
    hops: Vec<u16>,
    next: u16,
}

#[derive(Drop)]
struct Way {
    to: u16,
}

impl Bound for Letter {
    type Place = Way;

    ghost id_of = { λ letter. letter.id };

    ghost goes_to = { λ letter way. letter.next ≡ way.to };

    fn id(&self) -> u32 {
        self.id
    }
}

fn written(alloc: Global, id: u32, next: u16) -> Result<Letter, AllocError>
    ensures { IfOk result (λ l. l.next ≡ next) }
{
    let mut hops = Vec::new(alloc);
    hops.push(next)?;
    Ok(Letter { id, hops, next })
}

// Sends the letter where the sender leads. It comes back where the channel is full.
fn post<R: Wait>(rt: &R, sender: &mut Sender<Letter>, mut letter: Letter) -> Option<Letter>
    ensures { sender.new.channel ≡ sender.old.channel }
{
    letter.next = sender.place().to;
    match sender.send(rt, letter) {
        Ok(()) => None,
        Err(full) => Some(full.item),
    }
}

fn id_of(item: Option<Letter>) -> Option<u32> {
    Some(item?.id())
}

// The id of the letter that comes back, where one of this id is sent.
fn sent<R: Wait>(rt: &R, alloc: Global, sender: &mut Sender<Letter>, id: u32) -> Option<u32>
    ensures { sender.new.channel ≡ sender.old.channel }
{
    match written(alloc, id, 0) {
        Ok(letter) => id_of(post(rt, sender, letter)),
        Err(_) => Some(u32::MAX),
    }
}

// Whether the second letter is left alone.
fn is_second(left: &[Letter]) -> bool {
    match left {
        [letter] => letter.id() == 1 && letter.hops.len() == 1,
        _ => false,
    }
}

// The ids that come back of three letters that are sent.
fn three_sent<R: Wait>(rt: &R, alloc: Global, sender: &mut Sender<Letter>) -> [Option<u32>; 3]
    ensures { sender.new.channel ≡ sender.old.channel }
{
    [
        sent(rt, alloc, sender, 0),
        sent(rt, alloc, sender, 1),
        sent(rt, alloc, sender, 2),
    ]
}

// Whether a channel has no ends left to give.
fn is_spent(channel: &Channel<Letter>) -> bool {
    matches!(channel.ends(), Ok(None))
}

// Whether of three letters over two slots two fit and the third comes back, and the second is left when one was taken.
fn two_fit<R: Wait>(rt: &R, alloc: Global, channel: &Channel<Letter>) -> bool {
    let Ok(Some((mut sender, mut taker))) = channel.ends() else {
        return false;
    };
    let once = sender.place().to == 7 && is_spent(channel);
    let back = three_sent(rt, alloc, &mut sender);
    let taken = id_of(taker.take(rt));
    match settle(rt, alloc, sender, taker) {
        Ok(left) => {
            once && (back, taken) == ([None, None, Some(2)], Some(0)) && is_second(left.as_slice())
        }
        Err(_) => false,
    }
}

#[test]
fn two_fit_and_the_third_comes_back(rt: HostRuntime) -> Result<(), Fail> {
    let channel = Channel::new(rt.alloc(), 2, Way { to: 7 })?;
    assert!(rt; two_fit(&rt, rt.alloc(), &channel) && is_spent(&channel));
    Ok(())
}

fn send_ids<R: Wait>(
    rt: &R,
    alloc: Global,
    mut sender: Sender<Letter>,
    count: u32,
) -> Result<Sender<Letter>, AllocError>
    ensures { IfOk result (λ s. s.channel ≡ sender.channel) }
{
    for id in 0..count {
        let mut waiting = Some(written(alloc, id, 0)?);
        for _ in rt.forever() {
            let Some(letter) = waiting else {
                break;
            };
            waiting = post(rt, &mut sender, letter);
            thread::yield_now();
        }
    }
    Ok(sender)
}

// True if the ids are 0 and up, in order.
fn take_ids<R: Wait>(rt: &R, mut taker: Taker<Letter>, count: u32) -> (Taker<Letter>, bool)
    ensures { result.0.channel ≡ taker.channel }
{
    let mut next = 0;
    let mut in_order = true;
    for _ in rt.forever() {
        if next >= count {
            break;
        }
        match id_of(taker.take(rt)) {
            Some(id) => {
                in_order = in_order && id == next;
                next += 1;
            }
            None => thread::yield_now(),
        }
    }
    (taker, in_order)
}

// Whether so many letters go through a channel of at most four slots in order, and none is left there.
fn pass<R: Threads + Wait + Sync>(
    rt: &R,
    alloc: Global,
    sender: Sender<Letter>,
    taker: Taker<Letter>,
    count: u32,
) -> bool
    requires one { sender.channel ≡ taker.channel }
    requires few { taker.channel.capacity ≤ 4 }
{
    let Ok(mut rest) = Vec::with_capacity(alloc, 4) else {
        return false;
    };
    let (sent, (taker, in_order)) = thread::join(
        rt,
        move || -> Result<Sender<Letter>, AllocError>
            ensures { IfOk result (λ s. s.channel ≡ sender.channel) }
        { send_ids(rt, alloc, sender, count) },
        move || -> (Taker<Letter>, bool)
            ensures { result.0.channel ≡ taker.channel }
        { take_ids(rt, taker, count) },
    );
    let Ok(sender) = sent else {
        return false;
    };
    settle_into(rt, sender, taker, &mut rest);
    in_order && rest.is_empty()
}

// Whether they go so through a channel of four slots.
fn through<R: Threads + Wait + Sync>(rt: &R, alloc: Global, count: u32) -> Option<bool> {
    let channel: Channel<Letter> = Channel::new(alloc, 4, Way { to: 7 }).ok()?;
    match channel.ends() {
        Ok(Some((sender, taker))) => Some(pass(rt, alloc, sender, taker, count)),
        _ => None,
    }
}

#[test]
fn ten_thousand_in_order_between_two_threads(rt: HostRuntime) {
    assert!(rt; through(&rt, rt.alloc(), 10_000) == Some(true));
}

// Whether the example in the doc comment of a channel is so.
fn channel_example<R: Wait>(rt: &R, alloc: Global, letter: Letter) -> Option<bool>
    requires { letter.next ≡ 7 }
{
    let channel = Channel::new(alloc, 2, Way { to: 7 }).ok()?;
    let Ok(Some((mut sender, mut taker))) = channel.ends() else {
        return None;
    };
    let is_sent = sender.send(rt, letter).is_ok();
    let came = taker.take(rt);
    Some(is_sent && id_of(came) == Some(3))
}

#[test]
fn example_of_a_channel(rt: HostRuntime) -> Result<(), Fail> {
    let letter = written(rt.alloc(), 3, 7)?;
    assert!(rt; channel_example(&rt, rt.alloc(), letter) == Some(true));
    Ok(())
}
