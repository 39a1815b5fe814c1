//! A registry of plans, and a board.
ghost use Rattle.std.specs.Prelude.{◌≡◌, ◌≤◌, All, IfOk, length};
ghost use Rattle.ir_epochs.specs.Entries.{IsSameOpening, opening_links};
ghost use Rattle.ir_epochs.specs.{Handles.{published, reader_board, receipt_board, writer_board}, Stamps.{IsOf, knows}};

use crate::networks::plan;
use ir_core::Board;
use ir_epochs::{
    BoardError, BoardReader, BoardWriter, Change, Receipt, RegisterError, Registry, Stamp, board,
};
use ir_plan::{Kind, Plan};
use std::alloc::Global;
use std::sync::Wait;

/// Registers a plan, which comes back where there was no memory.
fn register(registry: &Registry, epoch: u32, plan: Plan) -> Result<Stamp, &'static str>
    requires { (1 ≤ epoch) × (epoch ≤ 64) }
    ensures { IfOk result (λ s. IsOf registry.now s × (s.epoch ≡ epoch) × (knows s ≡ plan)) }
{
    let plan = match registry.register(epoch, plan) {
        Ok(stamp) => return Ok(stamp),
        Err((RegisterError::NoMemory, plan)) => plan,
        Err(_) => return Err("a plan is not registered"),
    };
    match registry.register(epoch, plan) {
        Ok(stamp) => Ok(stamp),
        Err(_) => Err("a plan is not registered again"),
    }
}

/// A board with the last of its readers.
fn with_reader<R: Wait + Drop>(
    board: (BoardWriter<R>, Vec<BoardReader>),
) -> Result<(BoardWriter<R>, BoardReader), &'static str>
    requires { All (λ x. reader_board x ≡ writer_board board.0) board.1.items }
    ensures writer { IfOk result (λ b. b.0 ≡ board.0) }
    ensures board { IfOk result (λ b. reader_board b.1 ≡ writer_board b.0) }
{
    let (writer, mut readers) = board;
    match readers.pop() {
        Some(reader) => Ok((writer, reader)),
        None => Err("a board has no reader"),
    }
}

/// A board over two links, with one reader.
fn opened<'a, R: Wait>(
    rt: &'a R,
    alloc: Global,
    opening: &Stamp,
) -> Result<(BoardWriter<&'a R>, BoardReader), &'static str>
    requires epoch { opening.now.epoch ≡ 1 }
    requires links { length (knows opening.now).topology.links ≡ 2 }
    ensures links { IfOk result (λ b. opening_links (published b.0) ≡ 2) }
    ensures board { IfOk result (λ b. reader_board b.1 ≡ writer_board b.0) }
{
    let first = match board(rt, alloc, opening, 2, 1) {
        Ok(board) => return with_reader(board),
        Err(why) => why,
    };
    if first != BoardError::NoMemory {
        return Err("a board is refused");
    }
    match board(rt, alloc, opening, 2, 1) {
        Ok(board) => with_reader(board),
        Err(_) => Err("a board is refused again"),
    }
}

/// A plan of an epoch that has one comes back.
fn register_again(registry: &Registry, epoch: u32, plan: Plan) -> Result<(), &'static str>
    requires { (1 ≤ epoch) × (epoch ≤ 64) }
{
    let plan = match registry.register(epoch, plan) {
        Err((RegisterError::Used, _)) => return Ok(()),
        Err((RegisterError::NoMemory, given)) => given,
        Ok(_) => return Err("an epoch has a second plan"),
    };
    match registry.register(epoch, plan) {
        Err((RegisterError::Used, _)) => Ok(()),
        _ => Err("a second plan is not refused"),
    }
}

/// Marks link 0 as down, or as up again, which takes no memory.
fn mark<R: Wait>(writer: &mut BoardWriter<&R>, up: bool) -> Result<Receipt, &'static str>
    requires { opening_links (published writer.old) ≡ 2 }
    ensures opening { IsSameOpening (published writer.old) (published writer.new) }
    ensures same { writer_board writer.new ≡ writer_board writer.old }
    ensures receipt { IfOk result (λ t. receipt_board t ≡ writer_board writer.old) }
{
    let now = writer.board();
    if now.version() >= 65_535 || now.is_up(0) == up {
        return Err("the board is another one");
    }
    let change = if up { Change::Up(0) } else { Change::Down(0) };
    match writer.change(change) {
        Ok(receipt) => Ok(receipt),
        Err(_) => Err("a change is refused"),
    }
}

/// Whether a board has this version, and link 0 this mark.
fn is_board(board: Board, version: u32, up: bool) -> Result<(), &'static str> {
    if (board.version(), board.is_up(0)) == (version, up) {
        Ok(())
    } else {
        Err("the board is another one")
    }
}

/// A change that the reader learns, and one that it does not.
fn changed_and_read<R: Wait>(
    writer: &mut BoardWriter<&R>,
    reader: &mut BoardReader,
) -> Result<(), &'static str>
    requires links { opening_links (published writer.old) ≡ 2 }
    requires board { reader_board reader.old ≡ writer_board writer.old }
{
    let receipt = mark(writer, false)?;
    reader.learn(&receipt);
    is_board(reader.read(), 1, false)?;
    let _ = mark(writer, true)?;
    is_board(reader.read(), 2, true)
}

/// With the stamp of the plan of epoch 1: the plan stays, and the changes of a board are read.
fn try_stamp<R: Wait>(
    rt: &R,
    alloc: Global,
    registry: &Registry,
    stamp: &Stamp,
) -> Result<(), &'static str>
    requires of { IsOf registry.now stamp.now }
    requires epoch { stamp.now.epoch ≡ 1 }
{
    register_again(registry, 1, plan(alloc, Kind::Tree)?)?;
    let first = registry.plan(stamp);
    if first.kind() != Kind::Shortest || first.topology().links() != 2 {
        return Err("the plan is another one");
    }
    let (mut writer, mut reader) = opened(rt, alloc, stamp)?;
    changed_and_read(&mut writer, &mut reader)
}

/// The same with a registry, in which epoch 1 gets its plan.
fn try_registry<R: Wait>(rt: &R, alloc: Global, registry: &Registry) -> Result<(), &'static str> {
    let stamp = register(registry, 1, plan(alloc, Kind::Shortest)?)?;
    try_stamp(rt, alloc, registry, &stamp)
}

/// A plan of epoch 1, and a board whose changes are read.
pub(crate) fn try_epochs<R: Wait>(rt: &R, alloc: Global) -> Result<(), &'static str> {
    let registry = Registry::new(alloc);
    try_registry(rt, alloc, &registry)
}
