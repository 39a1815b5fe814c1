ghost use Rattle.std.specs.Prelude.{◌≡◌, ℕ, ◌+◌, ◌-◌, ◌<◌, ◌≤◌, List, [], length, map, All, replicate, IfOk, IfErr, ◌++◌, ◌∷◌, slice_get, slice_index, slice_index_or, unwrap_or, option_copied, Some, None};
ghost use Rattle.ir_model.specs.Topology.{ports_of};
ghost use Rattle.ir_core.specs.declared.TheConstants.{MAX_LINKS, MAX_CHANGES};
ghost use Rattle.ir_core.specs.World.{World, IsWorld, IsBoard, sight_in, IsAnswer, open_verdict_on, LeadsIn};
ghost use Rattle.ir_core.specs.{Inside.{world_of, IsWorldKept}, Setting.{IsSetting, nodes_of, links_of}};
ghost use Rattle.ir_core.specs.Opened.{IsOpenedWith, IsOpenRefusal, opening_of, setting_of};
ghost use Rattle.ir_core.specs.Meaning.{newest, newest_plan, learns, reads, takes, acts, retires, marks, heeds, injects, verdict_on, ruling_on, record_at, board_at, is_full_towards, plan_of};
ghost use Rattle.ir_core.specs.Drafts.{items_of, labelling_by, kept_order};
ghost use Rattle.ir_core.specs.{Record.stamp_of, Entry.Entry, History.boards, Shows.{Shows, AnswersAfter}};
ghost use Rattle.ir_core.specs.{Run.StepsAfter, Sound.AllSound, Handled.{IsAnswerOr, IsAnswerTo, IsInstallAnswer}};
ghost use Rattle.ir_core.specs.{declared.event.Way.TheVariants.{Link as WayLink}, Opened.open_refused};
ghost use Rattle.ir_core.specs.{Setting.{channel_in, channel_of}, Queue.{ids_of, room_of}, Board.{opening_board, links_used}};

use crate::board::{Board, KeptBoard};
use crate::event::{Event, OpenError, Refused, Reply, Ruling, Step, Verdict, Way};
use crate::opening::{Opening, open_refusal};
use crate::packet::{Held, Record, hop_room};
use crate::planning::{Draft, kept_order, plan_over_by, plan_up_by};
use crate::queue::Queue;
use crate::verdict::judge;
use ir_model::{Hop, Kind};
use ir_plan::{Alone, Crew, LabelOrder, Plan};
use ir_tables::Topology;
use std::alloc::{AllocError, Global};
use std::marker::Model;

/// All that holds after a history: the boards and plans so far, each node's view and hand, the channels, and the
/// packets' records.
///
/// A packet from node 0 to node 2 of a network; a drain carries it to its end:
///
/// ```
/// let mut world = World::new(alloc, topology, Kind::Shortest, 0, 16, 1, 0).ok()?;
/// world.apply(Event::Inject(0, 2)).ok()?;
/// world.drain();
/// let is_so = is_delivered(world);
/// ```
#[derive(Drop)]
pub struct World {
    alloc: Global,
    topology: Topology,
    labels: LabelOrder,
    keeps: bool,
    capacity: usize,
    max_packets: usize,
    restamps: u8,
    boards: Vec<KeptBoard>,
    plans: Vec<Plan>,
    learnt: u32,
    views: Vec<usize>,
    hands: Vec<Option<Held>>,
    channels: Vec<Queue>,
    records: Vec<Record>,
}

impl Model for World {
    ghost Value = { World };

    ghost view = { world_of };

    ghost invariant = { IsWorldKept };
}

impl World {
    /// The world that `open` gives of the opening by these, whose plans are labelled depth first.
    /// For users of the library.
    pub fn new(
        alloc: Global,
        topology: Topology,
        kind: Kind,
        root: u16,
        capacity: usize,
        max_packets: usize,
        restamps: u8,
    ) -> Result<World, OpenError>
        ensures opened { IfOk result
            (λ w. IsOpenedWith (opening_of topology kind root capacity max_packets restamps) w.opening) }
        ensures history { IfOk result (λ w. Shows [] w) }
        ensures accepted { IfOk result
            (λ _. open_refused (opening_of topology kind root capacity max_packets restamps) ≡ None) }
        ensures refused { IfErr result
            (λ e. IsOpenRefusal (opening_of topology kind root capacity max_packets restamps) e) }
    {
        let opening = Opening::of(topology, kind, root, capacity, max_packets, restamps);
        World::open(alloc, opening)
    }

    /// The world of the empty history. Epoch 1 has a plan of the opening's kind and root over all
    /// links of the topology, made on the thread that calls. Refused are, in this order: no node
    /// (`Empty`), a root that is no node, a number out of its range (`TooLarge`), some node without
    /// a walk to some node, want of memory. There are at most 1,024 nodes and 8,192 links. Takes as
    /// long as the plan. For users of the library.
    pub fn open(alloc: Global, opening: Opening) -> Result<World, OpenError>
        ensures opened { IfOk result (λ w. IsOpenedWith opening w.opening) }
        ensures history { IfOk result (λ w. Shows [] w) }
        ensures accepted { IfOk result (λ _. open_refused opening ≡ None) }
        ensures refused { IfErr result (λ e. IsOpenRefusal opening e) }
    {
        World::open_by(&Alone, alloc, opening)
    }

    /// The world that `open` gives, its plan made by a crew, and refused as that is.
    pub fn open_by(crew: &impl Crew, alloc: Global, opening: Opening) -> Result<World, OpenError>
        ensures opened { IfOk result (λ w. IsOpenedWith opening w.opening) }
        ensures history { IfOk result (λ w. Shows [] w) }
        ensures accepted { IfOk result (λ _. open_refused opening ≡ None) }
        ensures refused { IfErr result (λ e. IsOpenRefusal opening e) }
    {
        if let Some(error) = open_refusal(&opening) {
            return Err(error);
        }
        let Ok(over) = opening.topology.try_clone(alloc) else {
            return Err(OpenError::NoMemory);
        };
        let draft = Draft {
            labels: opening.labels,
            kind: opening.kind,
            root: opening.root,
            kept: None,
        };
        let plan = plan_over_by(crew, alloc, over, draft)?;
        match World::start(alloc, opening, plan) {
            Ok(world) => Ok(world),
            Err(_) => Err(OpenError::NoMemory),
        }
    }

    /// The world of the empty history, over a plan of epoch 1.
    fn start(alloc: Global, opening: Opening, plan: Plan) -> Result<World, AllocError>
        requires { IsSetting (setting_of opening plan) }
        ensures opening { IfOk result (λ w. w.opening ≡ setting_of opening plan) }
        ensures history { IfOk result (λ w. Shows [] w) }
    {
        let nodes = opening.topology.nodes();
        let count = nodes + 2 * opening.topology.links();
        let (boards, plans) = first_epoch(alloc, plan)?;
        let (views, hands, channels) = empty_places(alloc, nodes, count, opening.capacity)?;
        let Opening {
            topology,
            labels,
            keeps,
            kind: _,
            root: _,
            capacity,
            max_packets,
            restamps,
        } = opening;
        Ok(World {
            alloc,
            topology,
            labels,
            keeps,
            capacity,
            max_packets,
            restamps,
            boards,
            plans,
            learnt: 1,
            views,
            hands,
            channels,
            records: Vec::new(alloc),
        })
    }

    /// The version of the board that a node read last, 0 at first. For users of the library.
    pub fn view(&self, node: u16) -> usize
        requires { node < nodes_of self.now.opening }
        ensures { result ≡ slice_index self.now.views node }
    {
        self.views.as_slice()[node as usize]
    }

    /// A node's view becomes a version of the board, which is never one before its view.
    pub(crate) fn read(&mut self, node: u16, version: usize) -> Result<Reply, Refused>
        ensures { IsAnswer self.old self.new (reads self.old.opening (sight_in self.old) node version) result }
    {
        if node as usize >= self.topology.nodes() {
            return Err(Refused::NoNode);
        }
        if version < self.views[node as usize] || self.boards.len() <= version {
            return Err(Refused::BadView);
        }
        self.views[node as usize] = version;
        Ok(Reply::Viewed)
    }

    /// From here on the injector stamps packets with an epoch at least as great as this one.
    fn learn(&mut self, epoch: u32) -> Result<Reply, Refused>
        ensures { IsAnswer self.old self.new (learns (sight_in self.old) epoch) result }
    {
        if epoch == 0 || self.current() < epoch {
            return Err(Refused::NoEpoch);
        }
        self.learnt = self.learnt.max(epoch);
        Ok(Reply::Learnt)
    }

    /// The newest epoch.
    fn current(&self) -> u32
        ensures { result ≡ (newest (sight_in self.now)).current }
    {
        self.boards[self.boards.len() - 1].current()
    }

    fn newest(&self) -> Board
        ensures value { result ≡ newest (sight_in self.now) }
        ensures few { result.version ≤ MAX_CHANGES }
    {
        self.boards[self.boards.len() - 1].board()
    }

    /// The first packet of a channel goes into a node's hand, which has to be empty.
    pub(crate) fn take(&mut self, node: u16, way: Way) -> Result<Reply, Refused>
        ensures { IsAnswer self.old self.new (takes self.old.opening (sight_in self.old) node way) result }
    {
        if node as usize >= self.topology.nodes() {
            return Err(Refused::NoNode);
        }
        let Some(channel) = channel_of(&self.topology, node, way) else {
            return Err(Refused::NoChannel);
        };
        if self.hands[node as usize].is_some() {
            return Err(Refused::HandFull);
        }
        let Some(id) = self.channels[channel].first() else {
            return Err(Refused::Empty);
        };
        self.channels[channel].pop();
        self.hands[node as usize] = Some(Held { id, way });
        Ok(Reply::Taken(id))
    }

    /// A plan over the links that are up and heeded becomes the current epoch. It is made, and all memory is
    /// taken, before anything changes.
    fn install(
        &mut self,
        crew: &impl Crew,
        keeps: bool,
        kind: Kind,
        root: u16,
    ) -> Result<Reply, Refused>
        ensures { IsInstallAnswer self.old self.new (labelling_by self.old.opening.labels root
            (kept_order keeps kind (newest_plan self.old.opening (sight_in self.old)).order)) kind root result }
    {
        let epochs = self.plans.len();
        let newest = self.newest();
        if let Some(error) = newest.install_refusal(self.topology.nodes(), epochs, root) {
            return Err(error);
        }
        let Ok(kept) = self.kept_order(self.alloc, keeps, kind) else {
            return Err(Refused::NoMemory);
        };
        let draft = Draft {
            labels: self.labels,
            kind,
            root,
            kept,
        };
        let plan = plan_up_by(crew, self.alloc, &self.topology, &newest, draft)?;
        let epoch = epochs as u32 + 1;
        let board = newest.installed(epoch);
        let Ok(()) = keep_epoch(self.alloc, &mut self.boards, &mut self.plans, &board, plan) else {
            return Err(Refused::NoMemory);
        };
        Ok(Reply::Installed(epoch))
    }

    /// The next version of the board has this floor.
    fn retire(&mut self, floor: u32) -> Result<Reply, Refused>
        ensures { IsAnswerOr (retires (sight_in self.old) floor) self.old self.new result }
    {
        let newest = self.newest();
        if let Some(error) = newest.retire_refusal(floor) {
            return Err(error);
        }
        let Ok(()) = keep(self.alloc, &mut self.boards, &newest.retired_below(floor)) else {
            return Err(Refused::NoMemory);
        };
        Ok(Reply::Changed)
    }

    /// The next version of the board has a link up or down.
    fn mark(&mut self, link: u32, up: bool) -> Result<Reply, Refused>
        ensures { IsAnswerOr (marks self.old.opening (sight_in self.old) link up) self.old self.new result }
    {
        let newest = self.newest();
        if let Some(error) = newest.mark_refusal(self.topology.links(), link, up) {
            return Err(error);
        }
        let Ok(()) = keep(self.alloc, &mut self.boards, &newest.marked(link, up)) else {
            return Err(Refused::NoMemory);
        };
        Ok(Reply::Changed)
    }

    /// Installs heed a link from the next version of the board on, or avoid it.
    fn heed(&mut self, link: u32, heed: bool) -> Result<Reply, Refused>
        ensures { IsAnswerOr (heeds self.old.opening (sight_in self.old) link heed) self.old self.new result }
    {
        let newest = self.newest();
        if let Some(error) = newest.heed_refusal(self.topology.links(), link, heed) {
            return Err(error);
        }
        let Ok(()) = keep(self.alloc, &mut self.boards, &newest.heeding(link, heed)) else {
            return Err(Refused::NoMemory);
        };
        Ok(Reply::Changed)
    }

    /// A packet waits in its source's inbox. Its record takes all memory here that it will need.
    fn inject(&mut self, source: u16, dest: u16) -> Result<Reply, Refused>
        ensures { IsAnswerOr (injects self.old.opening (sight_in self.old) source dest) self.old self.new result }
    {
        let nodes = self.topology.nodes();
        if source as usize >= nodes || dest as usize >= nodes {
            return Err(Refused::NoNode);
        }
        if self.records.len() >= self.max_packets {
            return Err(Refused::TooManyPackets);
        }
        let id = self.records.len() as u32;
        let room = hop_room(self.restamps, nodes as u16);
        let Ok(record) = Record::start(self.alloc, id, self.learnt, source, dest, room) else {
            return Err(Refused::NoMemory);
        };
        let Ok(()) = self.records.reserve(1) else {
            return Err(Refused::NoMemory);
        };
        if self.channels[source as usize].len() >= self.capacity {
            return Err(Refused::InboxFull);
        }
        let Ok(()) = self.records.push(record) else {
            return Err(Refused::NoMemory);
        };
        self.channels[source as usize].push(id);
        Ok(Reply::Injected(id))
    }

    /// What comes of a packet of this epoch and destination that a node acts on, where each channel has room.
    fn open_verdict(&self, node: u16, way: Way, stamp: u32, dest: u16) -> Verdict
        requires node_in { node < nodes_of self.now.opening }
        requires dest_in { dest < nodes_of self.now.opening }
        requires above { 0 < stamp }
        requires within { stamp ≤ length self.now.plans }
        ensures value { result ≡ open_verdict_on self.now node way stamp dest }
        ensures leads { LeadsIn self.now result }
    {
        self.invariant();
        let board = self.seen(node).board();
        let plan = self.plan_of(stamp);
        let address = plan.label_of(dest);
        judge(plan, &board, way, node, stamp, address)
    }

    /// The board of a node's view.
    fn seen(&self, node: u16) -> &KeptBoard
        requires { node < nodes_of self.now.opening }
        ensures value { result.now ≡ board_at (sight_in self.now) (slice_index self.now.views node) }
        ensures board { IsBoard (length self.now.plans) result.now }
    {
        &self.boards[self.views[node as usize]]
    }

    /// The plan of an epoch.
    fn plan_of(&self, epoch: u32) -> &Plan
        requires above { 0 < epoch }
        requires within { epoch ≤ length self.now.plans }
        ensures { result.now ≡ plan_of self.now.opening self.now.plans epoch }
    {
        &self.plans[epoch as usize - 1]
    }

    fn is_full(&self, hop: Hop) -> bool
        requires { (c : ℕ) × (channel_of self.now.opening hop.node (WayLink hop.link) ≡ Some c)
            × (c < length self.now.channels) }
        ensures { result ≡ is_full_towards self.now.opening (sight_in self.now) hop }
    {
        let channel = channel_into(&self.topology, hop);
        self.channels[channel].len() >= self.capacity
    }

    /// What comes of a packet of this epoch and destination that a node acts on.
    fn verdict(&self, node: u16, way: Way, stamp: u32, dest: u16) -> Verdict
        requires node_in { node < nodes_of self.now.opening }
        requires dest_in { dest < nodes_of self.now.opening }
        requires above { 0 < stamp }
        requires within { stamp ≤ length self.now.plans }
        ensures { result ≡ verdict_on self.now.opening (sight_in self.now) node way stamp dest }
    {
        let verdict = self.open_verdict(node, way, stamp, dest);
        match verdict {
            Verdict::GoesOn(hop) => {
                if self.is_full(hop) {
                    Verdict::NoRoom(hop)
                } else {
                    Verdict::GoesOn(hop)
                }
            }
            _ => verdict,
        }
    }

    /// The present epoch and the destination of the packet in a node's hand, and how many restamps are left to it.
    fn bound_for(&self, node: u16, held: Held) -> (u32, u16, usize)
        requires { slice_index_or self.now.hands node None ≡ Some held }
        ensures stamp { result.0 ≡ stamp_of (record_at (sight_in self.now) held.id) }
        ensures dest { result.1 ≡ (record_at (sight_in self.now) held.id).dest }
        ensures left { result.2 ≡ self.now.opening.restamps
            - length (record_at (sight_in self.now) held.id).restamps }
        ensures above { 0 < result.0 }
        ensures within { result.0 ≤ length self.now.plans }
        ensures dest_in { result.1 < nodes_of self.now.opening }
    {
        let record = &self.records[held.id as usize];
        let left = (self.restamps as usize).saturating_sub(record.restamp_count());
        (record.stamp(), record.destination(), left)
    }

    /// What a node makes of the packet in its hand. A packet of a retired epoch that has restamps
    /// left is judged once more, by the current epoch of the same board, as one from the inbox.
    fn ruling(&self, node: u16, held: Held) -> Ruling
        requires node_in { node < nodes_of self.now.opening }
        requires in_hand { slice_index_or self.now.hands node None ≡ Some held }
        ensures { result ≡ ruling_on self.now.opening (sight_in self.now) node held.way
            (record_at (sight_in self.now) held.id) }
    {
        let (stamp, dest, left) = self.bound_for(node, held);
        let verdict = self.verdict(node, held.way, stamp, dest);
        let board = self.seen(node);
        match verdict.restamp(left, board.current()) {
            None => Ruling {
                restamp: None,
                verdict,
            },
            Some(epoch) => Ruling {
                restamp: Some(epoch),
                verdict: self.verdict(node, Way::Inbox, epoch, dest),
            },
        }
    }

    /// The packet in a node's hand is delivered, dropped or sent on, by the node's own view.
    pub(crate) fn act(&mut self, node: u16) -> Result<Reply, Refused>
        ensures { IsAnswer self.old self.new (acts self.old.opening (sight_in self.old) node) result }
    {
        if node as usize >= self.topology.nodes() {
            return Err(Refused::NoNode);
        }
        let Some(held) = self.hands[node as usize] else {
            return Err(Refused::HandEmpty);
        };
        let ruling = self.ruling(node, held);
        self.hands[node as usize] = None;
        let record = &mut self.records[held.id as usize];
        record.act(node, held.way, ruling);
        if let Verdict::GoesOn(hop) = ruling.verdict {
            let channel = channel_into(&self.topology, hop);
            self.channels[channel].push(held.id);
            return Ok(Reply::Sent(held.id, hop.node));
        }
        Ok(Reply::Settled(held.id))
    }

    /// One event. The reply is that of the event's meaning after the history, or its first refusal;
    /// a refused event changes nothing. Want of memory is answered at Inject, Install, Renumber,
    /// Retire, Down, Up, Avoid and Heed alone. The plan of an install is made on the thread that
    /// calls. Act takes O(log k), for k starts of a row, Install and Renumber as long as
    /// `plan_up_by`, and each other event constant time. For users of the library.
    pub fn apply(&mut self, event: Event) -> Result<Reply, Refused>
        ensures history { (log : List Entry) → Shows log self.old
            → AnswersAfter log event result self.old.opening self.new }
        ensures refused { IfErr result (λ _. self.new ≡ self.old) }
        ensures same_opening { self.new.opening ≡ self.old.opening }
    {
        self.apply_by(&Alone, event)
    }

    /// What `apply` does, the plan of an install made by a crew.
    pub fn apply_by(&mut self, crew: &impl Crew, event: Event) -> Result<Reply, Refused>
        // For every history whose world this is, the reply is the event's meaning after it.
        ensures history { (log : List Entry) → Shows log self.old
            → AnswersAfter log event result self.old.opening self.new }
        ensures refused { IfErr result (λ _. self.new ≡ self.old) }
        ensures same_opening { self.new.opening ≡ self.old.opening }
    {
        self.invariant();
        self.answer(crew, event)
    }

    /// One step of a run.
    pub(crate) fn step(&mut self, crew: &impl Crew, step: Step) -> Result<Reply, Refused>
        ensures history { (log : List Entry) → Shows log self.old
            → StepsAfter log step result self.old.opening self.new }
        ensures same_opening { self.new.opening ≡ self.old.opening }
    {
        match step {
            Step::Event(event) => self.apply_by(crew, event),
            Step::Drain => {
                self.drain();
                Ok(Reply::Changed)
            }
        }
    }

    fn answer(&mut self, crew: &impl Crew, event: Event) -> Result<Reply, Refused>
        ensures answer { IsAnswerTo event self.old self.new result }
        ensures same_opening { self.new.opening ≡ self.old.opening }
    {
        match event {
            Event::Inject(source, dest) => self.inject(source, dest),
            Event::Learn(epoch) => self.learn(epoch),
            Event::Take(node, way) => self.take(node, way),
            Event::Read(node, version) => self.read(node, version),
            Event::Act(node) => self.act(node),
            Event::Install(kind, root) => {
                let keeps = self.keeps();
                self.install(crew, keeps, kind, root)
            }
            Event::Renumber(kind, root) => self.install(crew, false, kind, root),
            Event::Retire(floor) => self.retire(floor),
            Event::Down(link) => self.mark(link, false),
            Event::Up(link) => self.mark(link, true),
            Event::Avoid(link) => self.heed(link, false),
            Event::Heed(link) => self.heed(link, true),
        }
    }

    /// A packet's record, if there is such a packet. For users of the library.
    pub fn packet(&self, id: u32) -> Option<&Record>
        ensures { option_copied result ≡ slice_get self.now.records id }
    {
        self.records.get(id as usize)
    }

    /// How many packets were injected. For users of the library.
    pub fn packets(&self) -> usize
        ensures { result ≡ length self.now.records }
    {
        self.records.as_slice().len()
    }

    /// The boards so far; the place is the version.
    pub fn board_versions(&self) -> &[KeptBoard]
        ensures { result.now ≡ self.now.boards }
    {
        self.boards.as_slice()
    }

    /// The board of a version, if there is one. For users of the library.
    pub fn board_version(&self, version: usize) -> Option<Board>
        ensures { result ≡ slice_get self.now.boards version }
    {
        match self.boards.get(version) {
            Some(kept) => Some(kept.board()),
            None => None,
        }
    }

    /// The order in which each epoch's plan is labelled.
    pub(crate) fn labels(&self) -> LabelOrder
        ensures { result ≡ self.now.opening.labels }
    {
        self.labels
    }

    /// Whether an install keeps the order of the epoch before.
    pub(crate) fn keeps(&self) -> bool
        ensures { result ≡ self.now.opening.keeps }
    {
        self.keeps
    }

    /// The nodes by label that the next plan of a kind keeps, where orders are kept.
    pub(crate) fn kept_order(
        &self,
        alloc: Global,
        keeps: bool,
        kind: Kind,
    ) -> Result<Option<Vec<u16>>, AllocError>
        ensures { IfOk result (λ kept. items_of kept ≡ kept_order keeps kind
            (newest_plan self.now.opening (sight_in self.now)).order) }
    {
        self.invariant();
        let newest = self.plan_of(self.plans.len() as u32);
        kept_order(alloc, keeps, kind, newest)
    }

    /// For each link of the network whether an install uses it, by the newest board.
    pub(crate) fn used(&self, alloc: Global) -> Result<Vec<bool>, AllocError>
        ensures marks { IfOk result (λ v. v.items ≡ links_used (newest (sight_in self.now))
            (links_of self.now.opening)) }
        ensures count { IfOk result (λ v. length v.items ≡ links_of self.now.opening) }
    {
        self.newest().used(alloc, self.topology.links())
    }

    /// Does nothing; a caller's proof learns by it what holds of each world.
    pub fn invariant(&self)
        ensures world { IsWorld self.now }
    {
        self.nodes();
    }

    /// How many nodes there are, as a node that `view` takes is one of them.
    pub fn nodes(&self) -> u16
        ensures count { result ≡ nodes_of self.now.opening }
        ensures world { IsWorld self.now }
    {
        self.topology.nodes() as u16
    }

    /// The links of a node's ports in the opening's topology, in order.
    pub(crate) fn ports(&self, node: u16) -> &[Hop]
        requires { node < nodes_of self.now.opening }
        ensures { result.now ≡ ports_of self.now.opening.topology node }
    {
        self.topology.ports(node as usize)
    }

    /// The records of all packets, by id.
    pub fn into_records(self) -> Vec<Record>
        ensures { result.items ≡ self.records }
    {
        let records = self.records;
        records
    }

    /// The plans of all epochs, the first epoch first.
    pub(crate) fn into_plans(self) -> Vec<Plan>
        ensures { result.items ≡ self.plans }
    {
        let plans = self.plans;
        plans
    }

    /// Says what is true of every world: each record is sound.
    pub fn records_are_sound(&self)
        ensures { (log : List Entry) → Shows log self.now → AllSound self.now.opening log }
    {
        self.invariant();
    }
}

/// The number of the channel that a node takes from by this way.
fn channel_of(topology: &Topology, node: u16, way: Way) -> Option<usize>
    requires { length topology.now.links ≤ MAX_LINKS }
    ensures { result ≡ channel_in topology.now node way }
{
    match way {
        Way::Inbox => Some(node as usize),
        Way::Link(link) => {
            if link as usize >= topology.links() {
                return None;
            }
            let ends = topology.ends(link);
            let first = topology.nodes() + 2 * link as usize;
            if ends.0 == node {
                Some(first)
            } else if ends.1 == node {
                Some(first + 1)
            } else {
                None
            }
        }
    }
}

/// The number of the channel that this hop leads into.
fn channel_into(topology: &Topology, hop: Hop) -> usize
    requires { length topology.now.links ≤ MAX_LINKS }
    ensures { result ≡ unwrap_or (channel_in topology.now hop.node (WayLink hop.link)) 0 }
{
    channel_of(topology, hop.node, Way::Link(hop.link)).unwrap_or(0)
}

/// One version more.
fn keep(alloc: Global, boards: &mut Vec<KeptBoard>, board: &Board) -> Result<(), AllocError>
    ensures kept { IfOk result (λ _. boards.new.items ≡ boards.old.items ++ board.now ∷ []) }
    ensures same { IfErr result (λ _. boards.new.items ≡ boards.old.items) }
{
    boards.push(KeptBoard::new(alloc, board)?)?;
    Ok(())
}

/// One version more and one epoch more. All memory is taken before anything changes.
fn keep_epoch(
    alloc: Global,
    boards: &mut Vec<KeptBoard>,
    plans: &mut Vec<Plan>,
    board: &Board,
    plan: Plan,
) -> Result<(), AllocError>
    ensures board { IfOk result (λ _. boards.new.items ≡ boards.old.items ++ board.now ∷ []) }
    ensures plan { IfOk result (λ _. plans.new.items ≡ plans.old.items ++ plan ∷ []) }
    ensures same_boards { IfErr result (λ _. boards.new.items ≡ boards.old.items) }
    ensures same_plans { IfErr result (λ _. plans.new.items ≡ plans.old.items) }
{
    plans.reserve(1)?;
    keep(alloc, boards, board)?;
    match plans.push(plan) {
        Ok(()) => Ok(()),
        Err(_) => unreachable!(),
    }
}

/// The boards and the plans of a world in which no event has come, of this plan.
fn first_epoch(alloc: Global, plan: Plan) -> Result<(Vec<KeptBoard>, Vec<Plan>), AllocError>
    ensures boards { IfOk result (λ made. made.0.items ≡ opening_board ∷ []) }
    ensures plans { IfOk result (λ made. made.1.items ≡ plan ∷ []) }
{
    let mut plans = Vec::with_capacity(alloc, 1)?;
    plans.push(plan)?;
    let mut boards = Vec::with_capacity(alloc, 1)?;
    keep(alloc, &mut boards, &Board::opening())?;
    Ok((boards, plans))
}

/// The views and the hands of so many nodes, and so many channels, where no packet is.
fn empty_places(
    alloc: Global,
    nodes: usize,
    count: usize,
    room: usize,
) -> Result<(Vec<usize>, Vec<Option<Held>>, Vec<Queue>), AllocError>
    ensures views { IfOk result (λ made. made.0.items ≡ replicate nodes 0) }
    ensures hands { IfOk result (λ made. made.1.items ≡ replicate nodes None) }
    ensures empty { IfOk result (λ made. map ids_of made.2.items ≡ replicate count []) }
    ensures room { IfOk result (λ made. All (λ q. room ≤ room_of q) made.2.items) }
{
    let views = vec![in alloc; 0usize; nodes]?;
    let hands = vec![in alloc; None; nodes]?;
    let channels = empty_channels(alloc, count, room)?;
    Ok((views, hands, channels))
}

fn empty_channels(alloc: Global, count: usize, room: usize) -> Result<Vec<Queue>, AllocError>
    ensures empty { IfOk result (λ v. map ids_of v.items ≡ replicate count []) }
    ensures room { IfOk result (λ v. All (λ q. room ≤ room_of q) v.items) }
{
    let mut channels = Vec::with_capacity(alloc, count)?;
    for _i in 0..count {
        channels.push(Queue::new(alloc, room)?)?;
    }
    Ok(channels)
}
