//! The ways by which parcels come to a node. They are polled in turn, and nothing else moves the turn on.
ghost use Rattle.std.specs.Prelude.{◌≡◌, ◌≤◌, length, IfNone};

use crate::parcel::Parcel;
use ir_links::{Moments, Taker};

/// An inbox and the ports' ways in, and which of them is polled next: the inbox is way 0, and port `j` is way `j + 1`.
#[derive(Drop)]
pub struct Entrances {
    pub(crate) inbox: Taker<Parcel>,
    pub(crate) ports: Vec<Taker<Parcel>>,
    pub(crate) next: usize,
    ghost next_in: { next ≤ length ports.items },
}

impl Entrances {
    ghost use Rattle.ir_worker.specs.{Account.lines_in, Wires.{way_after, TookBy, WasEmptyAt}};

    /// Polls the way whose turn it is, and moves the turn on by one. There is no parcel only where
    /// the pop of that way was refused.
    pub(crate) fn poll<R: Moments<Parcel>>(&mut self, rt: &R) -> Option<Parcel>
        ensures way { self.new.next ≡ way_after (length self.old.ports.items) self.old.next }
        ensures took { TookBy self.old.inbox self.old.ports.items self.new.inbox self.new.ports.items
            result self.old.next }
        ensures empty { IfNone result (WasEmptyAt R.was_empty self.old.inbox self.old.ports.items self.old.next) }
        ensures inbox { self.new.inbox.channel ≡ self.old.inbox.channel }
        ensures ins { lines_in self.new.ports.items ≡ lines_in self.old.ports.items }
    {
        let way = self.next;
        self.next = if way < self.ports.len() { way + 1 } else { 0 };
        if way == 0 {
            return self.inbox.take(rt);
        }
        let taker = &mut self.ports[way - 1];
        taker.take(rt)
    }
}
