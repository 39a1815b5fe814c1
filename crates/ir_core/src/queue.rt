ghost use Rattle.std.specs.Prelude.{◌≡◌, ◌<◌, [], ◌∷◌, ◌++◌, length, drop, IfOk, slice_get};
ghost use Rattle.ir_core.specs.Queue.{ids_of, room_of};

use std::alloc::{AllocError, Global};
use std::collections::VecDeque;

/// The packets in a channel by their ids, first in first out, with room for a number of them that never changes.
#[derive(Drop)]
pub struct Queue {
    ids: VecDeque<u32>,
}

impl Queue {
    pub fn new(alloc: Global, room: usize) -> Result<Queue, AllocError>
        ensures ids { IfOk result (λ q. ids_of q ≡ []) }
        ensures room { IfOk result (λ q. room_of q ≡ room) }
    {
        let ids = VecDeque::with_capacity(alloc, room)?;
        Ok(Queue { ids })
    }

    pub fn len(&self) -> usize
        ensures { result ≡ length (ids_of self.now) }
    {
        self.ids.len()
    }

    pub fn push(&mut self, id: u32)
        requires { length (ids_of self.old) < room_of self.old }
        ensures ids { ids_of self.new ≡ ids_of self.old ++ id ∷ [] }
        ensures room { room_of self.new ≡ room_of self.old }
    {
        match self.ids.push_back(id) {
            Ok(()) => {}
            Err(_) => unreachable!(),
        }
    }

    pub fn first(&self) -> Option<u32>
        ensures { result ≡ slice_get (ids_of self.now) 0 }
    {
        self.ids.front().copied()
    }

    pub fn pop(&mut self) -> Option<u32>
        ensures first { result ≡ slice_get (ids_of self.old) 0 }
        ensures rest { ids_of self.new ≡ drop 1 (ids_of self.old) }
        ensures room { room_of self.new ≡ room_of self.old }
    {
        self.ids.pop_front()
    }
}
