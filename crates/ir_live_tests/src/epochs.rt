//! The registry and the board over the path a, b, c, whose two links have weight 1.
ghost use Rattle.std.specs.Prelude.{◌≡◌, ◌≤◌, ◌<◌, length, All, IfOk, IfSome};
ghost use Rattle.ir_epochs.specs.Entries.{opening_links, topology_of, registry_of, IsSameOpening};
ghost use Rattle.ir_epochs.specs.Stamps.{IsOf, knows, registry_name};
ghost use Rattle.ir_epochs.specs.{Handles.{published, writer_board, reader_board, receipt_board}, Over.IsOver};

use crate::by_hand::{installed_by, network};
use ir_core::Board;
use ir_epochs::{BoardReader, BoardWriter, Change, Receipt, RegisterError, Registry, Stamp, board};
use ir_model::Kind;
use ir_plan::Plan;
use ir_tables::Topology;
use std::alloc::Global;
use std::sync::Wait;
use std::thread;
use std::thread::Threads;

/// The path.
pub(crate) fn path(alloc: Global) -> Option<Topology> {
    network(alloc, &[("a", "b"), ("b", "c")])
}

fn plan(alloc: Global, kind: Kind, root: u16) -> Option<Plan> {
    Plan::build(alloc, path(alloc)?, kind, root).ok()
}

fn registered(registry: &Registry, epoch: u32, plan: Plan) -> Option<Stamp>
    requires { (1 ≤ epoch) × (epoch ≤ 64) }
    ensures { IfSome result (λ s. IsOf registry.now s × (s.epoch ≡ epoch) × (knows s ≡ plan)) }
{
    match registry.register(epoch, plan) {
        Ok(stamp) => Some(stamp),
        Err(_) => None,
    }
}

// A stamp of epoch 1 over the path.
fn first(registry: &Registry, alloc: Global) -> Option<Stamp>
    ensures { IfSome result (λ s. IsOf registry.now s × (s.epoch ≡ 1)) }
{
    registered(registry, 1, plan(alloc, Kind::Tree, 1)?)
}

// The root of the plan that an answer brings back, where the epoch's cell is used.
fn root_that_came_back(answer: &Result<Stamp, (RegisterError, Plan)>) -> Option<u16> {
    match answer {
        Err((RegisterError::Used, back)) => Some(back.root()),
        _ => None,
    }
}

// That of a plan which is to be registered for an epoch.
fn register_again(registry: &Registry, alloc: Global, epoch: u32, root: u16) -> Option<u16>
    requires { (1 ≤ epoch) × (epoch ≤ 64) }
{
    let plan = plan(alloc, Kind::Shortest, root)?;
    let answer = registry.register(epoch, plan);
    root_that_came_back(&answer)
}

fn last(registry: &Registry, alloc: Global) -> Option<Stamp>
    ensures { IfSome result (λ s. IsOf registry.now s) }
{
    registered(registry, 64, plan(alloc, Kind::Shortest, 0)?)
}

// Whether the first plan of epoch 1 stays where another one is to be registered.
fn plan_stays(registry: &Registry, alloc: Global, stamp: &Stamp) -> bool
    requires { IsOf registry.now stamp.now }
{
    let back = register_again(registry, alloc, 1, 2);
    let plan = registry.plan(stamp);
    back == Some(2) && (plan.root(), plan.kind()) == (1, Kind::Tree)
}

// Whether a stamp is like itself, and not like the last one.
fn is_like_itself(stamp: &Stamp, last: &Stamp) -> bool
    requires { registry_name stamp.now ≡ registry_name last.now }
{
    let again = stamp.again();
    stamp.same(&again) && !stamp.same(last) && last.epoch() == 64
}

// Whether the first plan of an epoch stays, and its stamp is like itself alone.
fn first_stays(alloc: Global) -> Option<bool> {
    let registry = Registry::new(alloc);
    let stamp = first(&registry, alloc)?;
    let other = last(&registry, alloc)?;
    let stays = plan_stays(&registry, alloc, &stamp);
    let is_like_itself = is_like_itself(&stamp, &other);
    Some(stays && is_like_itself)
}

#[test]
fn first_plan_stays(rt: HostRuntime) {
    assert!(rt; first_stays(rt.alloc()) == Some(true));
}

// The roots of the plan of a stamp, as two threads see it.
fn seen_by_two<R: Threads + Sync>(rt: &R, alloc: Global) -> Option<(u16, u16)> {
    let registry = Registry::new(alloc);
    let stamp = first(&registry, alloc)?;
    let (one, two, shared) = (stamp.again(), stamp.again(), &registry);
    Some(thread::join(
        rt,
        move || -> u16
            requires { IsOf shared.now one }
        { shared.plan(&one).root() },
        move || -> u16
            requires { IsOf shared.now two }
        { shared.plan(&two).root() },
    ))
}

#[test]
fn two_threads_see_one_plan(rt: HostRuntime) {
    assert!(rt; seen_by_two(&rt, rt.alloc()) == Some((1, 1)));
}

// Marks a link of the path, if its mark changes.
fn mark<R: Wait + Drop>(writer: &mut BoardWriter<R>, link: u32, up: bool) -> Option<Receipt>
    requires { opening_links (published writer.old) ≡ 2 }
    ensures opening { IsSameOpening (published writer.old) (published writer.new) }
    ensures same { writer_board writer.new ≡ writer_board writer.old }
    ensures receipt { IfSome result (λ t. receipt_board t ≡ writer_board writer.old) }
{
    let now = writer.board();
    if now.version() >= 65_535 || link >= 2 || now.is_up(link) == up {
        return None;
    }
    let change = if up {
        Change::Up(link)
    } else {
        Change::Down(link)
    };
    writer.change(change).ok()
}

// What is over links of the opening's network is over links of the board's.
fn over_board<R: Wait + Drop>(writer: &BoardWriter<R>, opening: &Stamp, stamp: &Stamp)
    requires topology { topology_of (published writer.now) ≡ (knows opening.now).topology }
    requires over { IsOver (knows opening.now).topology (knows stamp.now).topology }
    ensures { IsOver (topology_of (published writer.now)) (knows stamp.now).topology }
{}

// Installs an epoch over all links, if it is a new one.
fn install<R: Wait + Drop>(writer: &mut BoardWriter<R>, stamp: Stamp) -> Option<Receipt>
    requires registry { registry_name stamp ≡ registry_of (published writer.old) }
    requires over { IsOver (topology_of (published writer.old)) (knows stamp).topology }
    ensures same { writer_board writer.new ≡ writer_board writer.old }
    ensures receipt { IfSome result (λ t. receipt_board t ≡ writer_board writer.old) }
{
    let now = writer.board();
    if now.version() >= 65_535 || stamp.epoch() <= now.current() {
        return None;
    }
    writer.change(Change::Install(stamp)).ok()
}

// A stamp of a later epoch, over all links of the opening's network.
fn later(registry: &Registry, alloc: Global, opening: &Stamp, epoch: u32) -> Option<Stamp>
    requires opening { IsOf registry.now opening.now }
    requires epoch { (1 ≤ epoch) × (epoch ≤ 64) }
    ensures registered { IfSome result (λ s. IsOf registry.now s × (s.epoch ≡ epoch)) }
    ensures over { IfSome result (λ s. IsOver (knows opening.now).topology (knows s).topology) }
{
    let whole = registry.plan(opening).topology();
    if whole.links() != 2 {
        return None;
    }
    let Ok(topology) = whole.only(alloc, &[true; 2]) else {
        return None;
    };
    let Ok(plan) = Plan::build(alloc, topology, Kind::Shortest, 0) else {
        return None;
    };
    registered(registry, epoch, plan)
}

// A board over the path, with so many readers.
fn opened_for<R: Wait + Drop>(
    rt: R,
    alloc: Global,
    registry: &Registry,
    opening: &Stamp,
    readers: u16,
) -> Option<(BoardWriter<R>, Vec<BoardReader>)>
    requires of { IsOf registry.now opening.now }
    requires epoch { opening.now.epoch ≡ 1 }
    ensures links { IfSome result (λ b. opening_links (published b.0) ≡ 2) }
    ensures topology { IfSome result (λ b. topology_of (published b.0) ≡ (knows opening.now).topology) }
    ensures registry { IfSome result (λ b. registry_of (published b.0) ≡ registry_name opening.now) }
    ensures boards { IfSome result (λ b. All (λ x. reader_board x ≡ writer_board b.0) b.1.items) }
{
    if registry.plan(opening).topology().links() != 2 {
        return None;
    }
    board(rt, alloc, opening, 2, readers).ok()
}

fn learn_there(mut reader: BoardReader, receipt: Receipt) -> (u32, u32)
    requires { receipt_board receipt ≡ reader_board reader }
{
    reader.learn(&receipt);
    (reader.read().version(), reader.stamp().epoch())
}

// A board over the path with so many readers, in a registry of its own.
fn fresh<'a, R: Wait>(
    rt: &'a R,
    alloc: Global,
    readers: u16,
) -> Option<(BoardWriter<&'a R>, Vec<BoardReader>)>
    ensures links { IfSome result (λ b. opening_links (published b.0) ≡ 2) }
    ensures boards { IfSome result (λ b. All (λ x. reader_board x ≡ writer_board b.0) b.1.items) }
{
    let registry = Registry::new(alloc);
    let stamp = first(&registry, alloc)?;
    opened_for(rt, alloc, &registry, &stamp, readers)
}

// The two readers of a board.
fn two_of<R: Wait + Drop>(
    writer: &BoardWriter<R>,
    mut readers: Vec<BoardReader>,
) -> Option<(BoardReader, BoardReader)>
    requires { All (λ x. reader_board x ≡ writer_board writer.now) readers.items }
    ensures { IfSome result (λ r. reader_board r.0 ≡ writer_board writer.now) }
{
    let one = readers.pop()?;
    let other = readers.pop()?;
    if readers.is_empty() {
        Some((one, other))
    } else {
        None
    }
}

// The board that a mark makes, the one that a reader who learns of it reads, and the one that a reader who does not
// reads.
fn marked_for_two<R: Wait + Drop>(
    writer: &mut BoardWriter<R>,
    told: &mut BoardReader,
    untold: &mut BoardReader,
    link: u32,
    up: bool,
) -> Option<[Board; 3]>
    requires links { opening_links (published writer.old) ≡ 2 }
    requires told { reader_board told.old ≡ writer_board writer.old }
    ensures opening { IsSameOpening (published writer.old) (published writer.new) }
    ensures writer { writer_board writer.new ≡ writer_board writer.old }
    ensures told { reader_board told.new ≡ reader_board told.old }
{
    let receipt = mark(writer, link, up)?;
    told.learn(&receipt);
    Some([receipt.board(), told.read(), untold.read()])
}

// Whether two readers, one of whom learns of each change, read so many changes: the marks of the first link and of the
// second, each down and up again.
fn reads_each<R: Wait + Drop>(
    writer: &mut BoardWriter<R>,
    told: &mut BoardReader,
    untold: &mut BoardReader,
    changes: u32,
) -> bool
    requires links { opening_links (published writer.old) ≡ 2 }
    requires told { reader_board told.old ≡ writer_board writer.old }
{
    for k in 0..changes {
        let (link, other) = if k % 4 < 2 { (0, 1) } else { (1, 0) };
        let up = k % 2 == 1;
        let Some(boards) = marked_for_two(writer, told, untold, link, up) else {
            return false;
        };
        let [made, learnt, found] = boards;
        if made.version() != k + 1 || made.is_up(link) != up || !made.is_up(other) {
            return false;
        }
        if learnt != made || found != made {
            return false;
        }
    }
    true
}

// Whether a board and its reader have no change, and two readers then read a thousand.
fn are_read<R: Wait + Drop>(
    writer: &mut BoardWriter<R>,
    told: &mut BoardReader,
    untold: &mut BoardReader,
) -> bool
    requires links { opening_links (published writer.old) ≡ 2 }
    requires told { reader_board told.old ≡ writer_board writer.old }
{
    let opening = told.read();
    opening.version() == 0 && opening == writer.board() && reads_each(writer, told, untold, 1_000)
}

// Whether a reader reads the last of a thousand changes, of which none is an install.
fn reads_the_last(reader: &mut BoardReader) -> bool {
    reader.read().version() == 1_000 && reader.stamp().epoch() == 1
}

// Whether two readers read a thousand changes, and one of them still the last when the writer is gone.
fn are_read_and_kept<R: Wait + Drop>(
    mut writer: BoardWriter<R>,
    mut told: BoardReader,
    mut untold: BoardReader,
) -> bool
    requires links { opening_links (published writer) ≡ 2 }
    requires told { reader_board told ≡ writer_board writer }
{
    let are_read = are_read(&mut writer, &mut told, &mut untold);
    drop(writer);
    let is_kept = reads_the_last(&mut told);
    are_read && is_kept
}

// Whether they do so on a board of their own. The first read of one of them is after a change.
fn a_thousand_read<R: Wait>(rt: &R, alloc: Global) -> Option<bool> {
    let (writer, readers) = fresh(rt, alloc, 2)?;
    let (told, untold) = two_of(&writer, readers)?;
    Some(are_read_and_kept(writer, told, untold))
}

#[test]
fn two_readers_read_each_of_a_thousand_changes(rt: HostRuntime) {
    assert!(rt; a_thousand_read(&rt, rt.alloc()) == Some(true));
}

// A board over the path with so many readers, and a stamp of epoch 2 over all links of its network.
fn with_next<R: Wait + Drop>(
    rt: R,
    alloc: Global,
    registry: &Registry,
    opening: &Stamp,
    readers: u16,
) -> Option<(BoardWriter<R>, Vec<BoardReader>, Stamp)>
    requires of { IsOf registry.now opening.now }
    requires epoch { opening.now.epoch ≡ 1 }
    ensures links { IfSome result (λ b. opening_links (published b.0) ≡ 2) }
    ensures registry { IfSome result (λ b. registry_name b.2 ≡ registry_of (published b.0)) }
    ensures over { IfSome result (λ b. IsOver (topology_of (published b.0)) (knows b.2).topology) }
    ensures boards { IfSome result (λ b. All (λ x. reader_board x ≡ writer_board b.0) b.1.items) }
{
    let next = later(registry, alloc, opening, 2)?;
    let (writer, readers) = opened_for(rt, alloc, registry, opening, readers)?;
    over_board(&writer, opening, &next);
    Some((writer, readers, next))
}

// Such a board, in a registry of its own, with that stamp.
fn opened_with_next<'a, R: Wait>(
    rt: &'a R,
    alloc: Global,
    readers: u16,
) -> Option<(BoardWriter<&'a R>, Vec<BoardReader>, Stamp)>
    ensures links { IfSome result (λ b. opening_links (published b.0) ≡ 2) }
    ensures registry { IfSome result (λ b. registry_name b.2 ≡ registry_of (published b.0)) }
    ensures over { IfSome result (λ b. IsOver (topology_of (published b.0)) (knows b.2).topology) }
    ensures boards { IfSome result (λ b. All (λ x. reader_board x ≡ writer_board b.0) b.1.items) }
{
    let registry = Registry::new(alloc);
    let stamp = first(&registry, alloc)?;
    with_next(rt, alloc, &registry, &stamp, readers)
}

// A board and the receipt of an install there, and two readers.
fn installed_for_two<'a, R: Wait>(
    rt: &'a R,
    alloc: Global,
) -> Option<(BoardWriter<&'a R>, Receipt, BoardReader, BoardReader)>
    ensures { IfSome result (λ b. receipt_board b.1 ≡ reader_board b.2) }
{
    let (mut writer, readers, next) = opened_with_next(rt, alloc, 2)?;
    let receipt = install(&mut writer, next)?;
    let (told, untold) = two_of(&writer, readers)?;
    Some((writer, receipt, told, untold))
}

// The epoch of a reader's stamp, the current epoch that it then reads, and its stamp's.
fn read_untold(mut reader: BoardReader) -> (u32, u32, u32) {
    let behind = reader.stamp().epoch();
    let current = reader.read().current();
    (behind, current, reader.stamp().epoch())
}

// The epoch of the receipt of an install. The version that a reader on another thread, to whom the receipt goes, reads,
// and its stamp's epoch. What a reader reads who does not learn of it.
fn learnt_by_one<R: Threads + Wait + Sync>(
    rt: &R,
    alloc: Global,
) -> Option<(Option<u32>, (u32, u32), (u32, u32, u32))> {
    let (_writer, receipt, told, untold) = installed_for_two(rt, alloc)?;
    let epoch = installed_by(&receipt);
    let there = move || -> (u32, u32)
        requires { receipt_board receipt ≡ reader_board told }
    { learn_there(told, receipt) };
    let learnt = thread::join(rt, there, || ()).0;
    Some((epoch, learnt, read_untold(untold)))
}

#[test]
fn an_install_is_learnt_on_another_thread_or_read(rt: HostRuntime) {
    assert!(rt; learnt_by_one(&rt, rt.alloc()) == Some((Some(2), (1, 2), (1, 2, 2))));
}

// Retires the epochs below one, if it is a live one that is not the least.
fn retire<R: Wait + Drop>(writer: &mut BoardWriter<R>, floor: u32) -> Option<Receipt> {
    let now = writer.board();
    if now.version() >= 65_535 || floor <= now.floor() || now.current() < floor {
        return None;
    }
    writer.change(Change::Retire(floor)).ok()
}

// What a receipt says: the version, the epoch where it installed one, and the current epoch, the floor and link 0's
// mark.
type Told = (u32, Option<u32>, u32, u32, bool);

fn told_by(receipt: &Receipt) -> Told {
    let board = receipt.board();
    (
        receipt.version(),
        installed_by(receipt),
        board.current(),
        board.floor(),
        board.is_up(0),
    )
}

// What the receipts of a mark, an install and a retirement say.
fn changes_told<R: Wait + Drop>(writer: &mut BoardWriter<R>, next: Stamp) -> Option<[Told; 3]>
    requires links { opening_links (published writer.old) ≡ 2 }
    requires registry { registry_name next ≡ registry_of (published writer.old) }
    requires over { IsOver (topology_of (published writer.old)) (knows next).topology }
{
    let down = told_by(&mark(writer, 0, false)?);
    let installed = told_by(&install(writer, next)?);
    let retired = retire(writer, 2)?;
    if writer.board() == retired.board() {
        Some([down, installed, told_by(&retired)])
    } else {
        None
    }
}

// The same on a board that nobody reads.
fn changed_unread<R: Wait>(rt: &R, alloc: Global) -> Option<[Told; 3]> {
    let (mut writer, readers, next) = opened_with_next(rt, alloc, 0)?;
    let is_unread = readers.is_empty();
    let told = changes_told(&mut writer, next);
    if is_unread { told } else { None }
}

#[test]
fn a_board_that_nobody_reads_is_changed(rt: HostRuntime) {
    let wanted = [
        (1, None, 1, 1, false),
        (2, Some(2), 2, 1, false),
        (3, None, 2, 2, false),
    ];
    assert!(rt; changed_unread(&rt, rt.alloc()) == Some(wanted));
}

// The first link goes down: the writer, and whether it did.
fn cut<R: Wait + Drop>(mut writer: BoardWriter<R>) -> (BoardWriter<R>, bool)
    requires { opening_links (published writer) ≡ 2 }
{
    let is_cut = mark(&mut writer, 0, false).is_some();
    (writer, is_cut)
}

fn read_twice(mut reader: BoardReader) -> (BoardReader, Board, Board) {
    let one = reader.read();
    let two = reader.read();
    (reader, one, two)
}

// The boards that a reader on another thread, who learns of nothing, reads beside a change, and one after it.
fn read_beside<R: Threads + Wait + Sync>(
    rt: &R,
    writer: BoardWriter<&R>,
    reader: BoardReader,
) -> Option<[Board; 3]>
    requires { opening_links (published writer) ≡ 2 }
{
    let there = move || read_twice(reader);
    let here = move || -> (BoardWriter<&R>, bool)
        requires { opening_links (published writer) ≡ 2 }
    { cut(writer) };
    let ((mut reader, one, two), (_writer, is_cut)) = thread::join(rt, there, here);
    let last = reader.read();
    if is_cut { Some([one, two, last]) } else { None }
}

// The last of some readers.
fn last_of(mut readers: Vec<BoardReader>) -> Option<BoardReader> {
    readers.pop()
}

// Such boards, read of a board of their own.
fn read_beside_a_change<R: Threads + Wait + Sync>(rt: &R, alloc: Global) -> Option<[Board; 3]> {
    let (writer, readers) = fresh(rt, alloc, 1)?;
    let reader = last_of(readers)?;
    read_beside(rt, writer, reader)
}

// Whether such boards never go back, and the last is after the change.
fn never_go_back(boards: [Board; 3]) -> bool {
    for board in &boards {
        if board.version() > 1 || board.is_up(0) != (board.version() == 0) || !board.is_up(1) {
            return false;
        }
    }
    let [one, two, last] = boards;
    one.version() <= two.version() && last.version() == 1
}

#[test]
fn reads_beside_a_change_never_go_back(rt: HostRuntime) {
    let boards = read_beside_a_change(&rt, rt.alloc());
    assert!(rt; boards.is_some_and(never_go_back));
}
