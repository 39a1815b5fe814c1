//! The controller: it registers plans and changes the board.
ghost use Rattle.std.specs.Prelude.{◌≡◌, ◌⊎◌, ◌+◌, ◌<◌, ◌≤◌, ◌∷◌, ◌++◌, [], IfErr, IfOk, IfSome, MatchResult, Some, None, Err, length};
ghost use Rattle.std.specs.Arc.{arc_value};
ghost use Rattle.ir_model.specs.{Topology.node_count, Walk.IsDisconnected};
ghost use Rattle.ir_core.specs.{declared.TheConstants.{MAX_LINKS, MAX_EPOCHS, MAX_CHANGES}, Meaning.IsMade};
ghost use Rattle.ir_core.specs.Codes.{change_number, install_number};
ghost use Rattle.ir_epochs.specs.Stamps.{IsOf, knows, registry_name};
ghost use Rattle.ir_epochs.specs.Entries.{registry_of, topology_of, opening_links, board_of, changed, MayComeNext};
ghost use Rattle.ir_epochs.specs.declared.entry.Entry.TheVariants.{Opened, Changed};
ghost use Rattle.ir_epochs.specs.Handles.{published, known, writer_board, reader_board, told, receipt_board};
ghost use mathlib.Core.List.{IsPrefix};

use ir_core::{Board, Draft, Refused, kept_order, plan_up_by};
use ir_epochs::{BoardWriter, Change, Receipt, RegisterError, Registry, Stamp};
use ir_model::Kind;
use ir_plan::{LabelOrder, Plan, Several};
use ir_worker::Node;
use std::alloc::Global;
use std::sync::{Arc, Wait};
use std::thread::Threads;

/// The one that changes the board of a net, and registers the plans of its epochs. `used` is how many cells of the
/// registry are used up: an epoch whose plan was registered and not published stays left out.
#[derive(Drop)]
pub struct Controller<R: Wait + Drop> {
    pub(crate) alloc: Global,
    pub(crate) registry: Arc<Registry, Global>,
    pub(crate) opening: Stamp,
    pub(crate) labels: LabelOrder,
    pub(crate) keeps: bool,
    pub(crate) writer: BoardWriter<R>,
    pub(crate) used: u32,
    ghost of_registry: { IsOf (arc_value registry) opening },
    ghost registry_is: { registry_of (published writer) ≡ registry_name opening },
    ghost topology_is: { topology_of (published writer) ≡ (knows opening).topology },
    ghost links_are: { opening_links (published writer) ≡ length (knows opening).topology.links },
    ghost few_links: { length (knows opening).topology.links ≤ MAX_LINKS },
    ghost used_up: { ((board_of (published writer)).current ≤ used) × (used ≤ MAX_EPOCHS) },
}

impl<R: Wait + Drop> Controller<R> {
    ghost use Rattle.ir_control.specs.Changes.{published_by, newest_board, IsReadBy, retiring_refused, marking_refused, heeding_refused};
    ghost use Rattle.ir_worker.specs.Same.{known_to};
    ghost use Rattle.ir_control.specs.Changes.{current_order, install_refusal, IsChangeAnswer, IsInstallAnswer, IsPlanAnswer};
    ghost use Rattle.ir_core.specs.Drafts.{items_of, labelling_by, kept_order};
    ghost use Rattle.ir_plan.specs.{declared.tour.LabelOrder.LabelOrder, Building.MayLabel};
    ghost use Rattle.ir_epochs.specs.declared.entry.Change.TheVariants.{Retire, Down, Up, Avoid, Heed};
    ghost use Rattle.std.specs.Prelude.{◌↔◌, ℕ, IsTrue, true, false};

    /// The board as it is.
    pub fn board(&self) -> Board
        ensures { result ≡ newest_board self.now }
    {
        self.writer.board()
    }

    /// Sees that it published all that a node of its board has read or learnt.
    pub fn leads(&mut self, node: &Node)
        requires { IsReadBy self.old node.now }
        ensures led { IsPrefix (known_to node.now) (published_by self.old) }
        ensures same { (published self.new.writer ≡ published self.old.writer)
            × (writer_board self.new.writer ≡ writer_board self.old.writer) }
    {
        node.follows(&mut self.writer);
    }

    /// Publishes one change, for which there is room.
    fn change(&mut self, change: Change) -> Result<Receipt, Refused>
        requires version { (board_of (published self.old.writer)).version < MAX_CHANGES }
        requires fits { MayComeNext (published self.old.writer) change }
        requires epochs { (changed (board_of (published self.old.writer)) change).current ≤ self.old.used }
        ensures answer { IsChangeAnswer None change self.old self.new result }
        ensures number { IfErr result (λ e. 0 < change_number e) }
    {
        self.writer.change(change).map_err(|_| Refused::NoMemory)
    }

    /// Retires the epochs below a floor. Refused are, in this order: a floor above the current
    /// epoch (`NoEpoch`), one that is not above the present floor (`Same`), a change too many, want
    /// of memory. `Refused::change_number` has the numbers of a change's refusals.
    pub fn retire(&mut self, floor: u32) -> Result<Receipt, Refused>
        ensures answer { IsChangeAnswer (retiring_refused self.old floor) (Retire floor) self.old self.new result }
        ensures number { IfErr result (λ e. 0 < change_number e) }
    {
        if let Some(error) = self.writer.board().retire_refusal(floor) {
            return Err(error);
        }
        self.change(Change::Retire(floor))
    }

    /// Marks a link as down. Refused are, in this order: a number that is no link, a link that is down, a change too
    /// many, want of memory.
    pub fn down(&mut self, link: u32) -> Result<Receipt, Refused>
        ensures answer { IsChangeAnswer (marking_refused self.old link false) (Down link) self.old self.new result }
        ensures number { IfErr result (λ e. 0 < change_number e) }
    {
        if let Some(error) = self.mark_refusal(link, false) {
            return Err(error);
        }
        self.change(Change::Down(link))
    }

    /// Marks a link as up. Refused are, in this order: a number that is no link, a link that is up, a change too many,
    /// want of memory.
    pub fn up(&mut self, link: u32) -> Result<Receipt, Refused>
        ensures answer { IsChangeAnswer (marking_refused self.old link true) (Up link) self.old self.new result }
        ensures number { IfErr result (λ e. 0 < change_number e) }
    {
        if let Some(error) = self.mark_refusal(link, true) {
            return Err(error);
        }
        self.change(Change::Up(link))
    }

    /// Leaves a link out of later installs; it still carries packets. Refused are, in this order: a number that is no
    /// link, a link that is down (`LinkDown`), one that is avoided (`Same`), a change too many, want of memory.
    pub fn avoid(&mut self, link: u32) -> Result<Receipt, Refused>
        ensures answer { IsChangeAnswer (heeding_refused self.old link false) (Avoid link) self.old self.new result }
        ensures number { IfErr result (λ e. 0 < change_number e) }
    {
        if let Some(error) = self.heed_refusal(link, false) {
            return Err(error);
        }
        self.change(Change::Avoid(link))
    }

    /// Lets later installs use a link again. Refused are, in this order: a number that is no link, a link that is not
    /// avoided (`Same`), a change too many, want of memory.
    pub fn heed(&mut self, link: u32) -> Result<Receipt, Refused>
        ensures answer { IsChangeAnswer (heeding_refused self.old link true) (Heed link) self.old self.new result }
        ensures number { IfErr result (λ e. 0 < change_number e) }
    {
        if let Some(error) = self.heed_refusal(link, true) {
            return Err(error);
        }
        self.change(Change::Heed(link))
    }

    // Why installs do not heed a link, or do not avoid it.
    fn heed_refusal(&self, link: u32, heed: bool) -> Option<Refused>
        ensures refusal { result ≡ heeding_refused self.now link heed }
        ensures number { IfSome result (λ e. 0 < change_number e) }
    {
        let topology = self.registry.plan(&self.opening).topology();
        self.writer
            .board()
            .heed_refusal(topology.links(), link, heed)
    }

    // Why a link is not marked.
    fn mark_refusal(&self, link: u32, up: bool) -> Option<Refused>
        ensures refusal { result ≡ marking_refused self.now link up }
        ensures number { IfSome result (λ e. 0 < change_number e) }
    {
        let topology = self.registry.plan(&self.opening).topology();
        self.writer.board().mark_refusal(topology.links(), link, up)
    }

    // Why an epoch is not installed, before any plan is built.
    fn install_refusal(&self, root: u16) -> Option<Refused>
        ensures refusal { result ≡ install_refusal self.now root }
        ensures number { IfSome result (λ e. 0 < install_number e) }
    {
        let topology = self.registry.plan(&self.opening).topology();
        self.writer
            .board()
            .install_refusal(topology.nodes(), self.used as usize, root)
    }

    // The nodes by label that the next plan of a kind keeps, where orders are kept.
    fn kept_order(&self, keeps: bool, kind: Kind) -> Result<Option<Vec<u16>>, Refused>
        ensures kept { IfOk result (λ kept. items_of kept ≡ kept_order keeps kind (current_order self.now)) }
        ensures may { IfOk result (λ kept. (labels : LabelOrder) (root : ℕ)
            → MayLabel (knows self.now.opening).topology kind (labelling_by labels root (items_of kept))) }
        ensures refused { IfErr result (λ e. e ≡ Refused.NoMemory) }
    {
        let stamp = self.writer.stamp();
        let current = self.registry.plan(&stamp);
        current.invariant();
        match kept_order(self.alloc, keeps, kind, current) {
            Ok(kept) => Ok(kept),
            Err(_) => Err(Refused::NoMemory),
        }
    }

    // The plan of this kind and root over the links that are up and heeded, where the current epoch's order is
    // kept or is not.
    fn plan(
        &self,
        rt: &(impl Threads + Sync),
        keeps: bool,
        kind: Kind,
        root: u16,
    ) -> Result<Plan, Refused>
        requires { root < node_count (knows self.now.opening).topology }
        ensures answer { IsPlanAnswer keeps kind root self.now result }
        ensures number { IfErr result (λ e. 0 < install_number e) }
    {
        let kept = self.kept_order(keeps, kind)?;
        let topology = self.registry.plan(&self.opening).topology();
        let board = self.writer.board();
        let crew = Several { rt, most: None };
        let draft = Draft {
            labels: self.labels,
            kind,
            root,
            kept,
        };
        let plan = plan_up_by(&crew, self.alloc, topology, &board, draft)?;
        Ok(plan)
    }

    /// Builds a plan of this kind and root over the links that are up and heeded, labelled in the net's order or, where
    /// the net keeps it, in that of the current epoch. Registers it in the next cell, and makes it the current epoch.
    /// The receipt's stamp knows that plan.
    ///
    /// Refused are, in this order: a root that is no node, no cell left, a change too many, some node without a walk to
    /// some node, want of memory. After `Used`, or after want of memory once the plan was registered, the cell is used
    /// up, and the next install takes the next number. `Refused::install_number` has the numbers of these refusals.
    pub fn install(
        &mut self,
        rt: &(impl Threads + Sync),
        kind: Kind,
        root: u16,
    ) -> Result<Receipt, Refused>
        ensures answer { IsInstallAnswer self.old.keeps kind root self.old self.new result }
        ensures number { IfErr result (λ e. 0 < install_number e) }
    {
        let keeps = self.keeps;
        self.install_as(rt, keeps, kind, root)
    }

    /// As `install`, but that the plan is labelled in the net's order, from the root. Refused as that is.
    pub fn renumber(
        &mut self,
        rt: &(impl Threads + Sync),
        kind: Kind,
        root: u16,
    ) -> Result<Receipt, Refused>
        ensures answer { IsInstallAnswer false kind root self.old self.new result }
        ensures number { IfErr result (λ e. 0 < install_number e) }
    {
        self.install_as(rt, false, kind, root)
    }

    // Installs a plan, where the current epoch's order is kept or is not.
    pub(crate) fn install_as(
        &mut self,
        rt: &(impl Threads + Sync),
        keeps: bool,
        kind: Kind,
        root: u16,
    ) -> Result<Receipt, Refused>
        ensures answer { IsInstallAnswer keeps kind root self.old self.new result }
        ensures number { IfErr result (λ e. 0 < install_number e) }
    {
        if let Some(error) = self.install_refusal(root) {
            return Err(error);
        }
        let plan = match self.plan(rt, keeps, kind, root) {
            Ok(plan) => plan,
            Err(error) => return Err(error),
        };
        let epoch = self.used + 1;
        let stamp = match register(&self.registry, epoch, plan) {
            Ok(stamp) => stamp,
            Err(error) => {
                if error == Refused::Used {
                    self.used = epoch;
                }
                return Err(error);
            }
        };
        self.used = epoch;
        match self.change(Change::Install(stamp)) {
            Ok(receipt) => Ok(receipt),
            Err(_) => Err(Refused::NoMemory),
        }
    }
}

// Sets the cell of an epoch.
pub(crate) fn register(registry: &Registry, epoch: u32, plan: Plan) -> Result<Stamp, Refused>
    requires { (1 ≤ epoch) × (epoch ≤ MAX_EPOCHS) }
    ensures answer { MatchResult result
        (λ s. IsOf registry.now s × (s.epoch ≡ epoch) × (knows s ≡ plan))
        (λ e. (e ≡ Refused.NoMemory) ⊎ (e ≡ Refused.Used)) }
    ensures number { IfErr result (λ e. 0 < install_number e) }
{
    match registry.register(epoch, plan) {
        Ok(stamp) => Ok(stamp),
        Err((RegisterError::NoMemory, _)) => Err(Refused::NoMemory),
        Err((RegisterError::Used, _)) => Err(Refused::Used),
    }
}
