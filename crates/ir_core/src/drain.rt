ghost use Rattle.std.specs.Prelude.{◌≡◌, ℕ, ◌<◌, true, false, ◌||◌, List, Some};
ghost use Rattle.ir_model.specs.Topology.{ports_of};
ghost use Rattle.ir_core.specs.{Setting.{nodes_of, channel_of}, Entry.Entry, Shows.Shows};
ghost use Rattle.ir_core.specs.Drain.{after_read, after_act, after_way, after_ports, after_visit, after_round};
ghost use Rattle.ir_core.specs.Quiet.{IsHandEmpty, IsUpToDate, IsEmptyAt, ArePortsEmpty, IsQuietAt, IsQuiet, IsNoneLeft, Moves, ShowsDrained};

use crate::event::Way;
use crate::world::World;

impl World {
    /// Rounds over the nodes 0 to n-1, until a round has no Act. In a round each node reads the newest version of the
    /// board and acts on what it holds. Then it takes a packet from its inbox and acts, then from the channel of each
    /// port, in port order of the opening's topology, and acts. After it no packet is under way. It takes no memory.
    /// Each round takes O(n + m), for n nodes and m links, and each Act in it O(log k), for k starts of a row.
    pub fn drain(&mut self)
        // For every history whose world this is, what it does is the drain of the definition.
        ensures history { (log : List Entry) → Shows log self.old → ShowsDrained log self.old.opening self.new }
        ensures none_left { IsNoneLeft self.new }
        ensures same_opening { self.new.opening ≡ self.old.opening }
    {
        self.invariant();
        'rounds: loop {
            let acted = self.round();
            if !acted {
                self.invariant();
                return;
            }
        }
    }

    /// A round over all nodes; returns whether it had an Act.
    fn round(&mut self) -> bool
        ensures moves { Moves (after_round self.old.opening) result self.old self.new }
        ensures quiet { result ≡ false → IsQuiet self.new }
    {
        let nodes = self.nodes();
        let mut acted = false;
        for node in 0..nodes {
            let sent = self.visit(node);
            acted = either(acted, sent);
        }
        acted
    }

    /// A visit of a node; returns whether it had an Act.
    fn visit(&mut self, node: u16) -> bool
        requires { node < nodes_of self.old.opening }
        ensures moves { Moves (after_visit self.old.opening node) result self.old self.new }
        ensures quiet { result ≡ false → IsQuietAt self.new node }
    {
        self.read_newest(node);
        let held = self.try_act(node);
        let taken = self.try_way(node, Way::Inbox);
        let came = self.try_ports(node);
        either(either(held, taken), came)
    }

    /// A node takes from the channel of each of its ports, in order, and acts.
    fn try_ports(&mut self, node: u16) -> bool
        requires node_in { node < nodes_of self.old.opening }
        requires hand { IsHandEmpty self.old node }
        requires view { IsUpToDate self.old node }
        ensures moves { Moves (after_ports self.old.opening node (ports_of self.old.opening.topology node)) result
            self.old self.new }
        ensures idle { result ≡ false → ArePortsEmpty self.new node }
    {
        let count = self.ports(node).len();
        let mut acted = false;
        for port in 0..count {
            self.invariant();
            let link = self.ports(node)[port].link;
            let sent = self.try_way(node, Way::Link(link));
            acted = either(acted, sent);
        }
        acted
    }

    /// A node takes the first packet of a channel, if there is one, and acts on it; returns whether it did.
    fn try_way(&mut self, node: u16, way: Way) -> bool
        requires node_in { node < nodes_of self.old.opening }
        requires channel { (c : ℕ) × (channel_of self.old.opening node way ≡ Some c) }
        requires hand { IsHandEmpty self.old node }
        requires view { IsUpToDate self.old node }
        ensures moves { Moves (after_way self.old.opening node way) result self.old self.new }
        ensures idle { result ≡ false → IsEmptyAt self.new node way }
        ensures hand { IsHandEmpty self.new node }
        ensures view { IsUpToDate self.new node }
    {
        self.invariant();
        self.take(node, way).ok();
        self.try_act(node)
    }

    /// A node acts on what it holds, if it holds a packet; returns whether it did.
    fn try_act(&mut self, node: u16) -> bool
        requires node_in { node < nodes_of self.old.opening }
        requires view { IsUpToDate self.old node }
        ensures moves { Moves (after_act self.old.opening node) result self.old self.new }
        ensures idle { result ≡ false → (self.new ≡ self.old) × IsHandEmpty self.old node }
        ensures hand { IsHandEmpty self.new node }
        ensures view { IsUpToDate self.new node }
    {
        self.invariant();
        self.act(node).is_ok()
    }

    /// A node reads the newest version of the board.
    fn read_newest(&mut self, node: u16)
        requires { node < nodes_of self.old.opening }
        ensures moves { Moves (after_read self.old.opening node) false self.old self.new }
        ensures view { IsUpToDate self.new node }
    {
        self.invariant();
        let version = self.board_versions().len() - 1;
        self.read(node, version).ok();
    }
}

/// Whether one of the two is true.
fn either(a: bool, b: bool) -> bool
    ensures { result ≡ a || b }
{
    a || b
}
