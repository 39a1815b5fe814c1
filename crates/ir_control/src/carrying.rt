//! Carrying out commands in turn, with the injector and the controller of a net.
ghost use Rattle.std.specs.Prelude.{◌≡◌, ◌++◌, IfOk, OnOk};
ghost use Rattle.ir_control.specs.Answers.{command_answer, refusal_in, refusal_at};
ghost use Rattle.ir_control.specs.{Carried.{AreTold, IsInstalledAs, IsCarriedOut}, Desks.desk_of, Planned.stamp_by};

use crate::net::{Net, Parts};
use ir_core::{Command, MAX_EPOCHS, Refused};
use ir_epochs::Stamp;
use ir_links::Moments;
use ir_model::Kind;
use ir_worker::{Bells, Parcel};
use std::alloc::AllocError;
use std::sync::Wait;
use std::thread::Threads;

// The answer of a command that installs nothing.
fn answered(refusal: Option<Refused>) -> Result<Option<Stamp>, Refused>
    ensures { result ≡ command_answer refusal }
{
    match refusal {
        None => Ok(None),
        Some(why) => Err(why),
    }
}

// Installs an epoch, where the current one's order is kept or is not, of which the injector learns at once.
fn install<R: Threads + Sync, B: Wait + Drop>(
    rt: &R,
    parts: &mut Parts<B>,
    keeps: bool,
    kind: Kind,
    root: u16,
) -> Result<Option<Stamp>, Refused>
    requires { parts.old.controller.opening ≡ parts.old.injector.opening }
    ensures { IsInstalledAs keeps kind root (desk_of parts.old) result (desk_of parts.new) }
{
    match parts.controller.install_as(rt, keeps, kind, root) {
        Ok(receipt) => {
            parts.injector.learn(&receipt);
            match receipt.stamp() {
                Some(stamp) => Ok(Some(stamp.again())),
                None => unreachable!(),
            }
        }
        Err(error) => Err(error),
    }
}

// Carries out a command, and answers it. The node into whose inbox a packet may have come is woken.
fn carry_out<R: Threads + Moments<Parcel> + Sync, B: Wait + Drop>(
    rt: &R,
    bells: &Bells,
    parts: &mut Parts<B>,
    command: Command,
) -> Result<Option<Stamp>, Refused>
    requires { parts.old.controller.opening ≡ parts.old.injector.opening }
    ensures { IsCarriedOut R.was_full command (desk_of parts.old) result (desk_of parts.new) }
{
    match command {
        Command::Inject(source, dest) => {
            let refusal = parts.injector.inject(rt, source, dest).err();
            bells.ring(source);
            answered(refusal)
        }
        Command::Install(kind, root) => {
            let keeps = parts.controller.keeps;
            install(rt, parts, keeps, kind, root)
        }
        Command::Renumber(kind, root) => install(rt, parts, false, kind, root),
        Command::Retire(floor) => answered(parts.controller.retire(floor).err()),
        Command::Down(link) => answered(parts.controller.down(link).err()),
        Command::Up(link) => answered(parts.controller.up(link).err()),
        Command::Avoid(link) => answered(parts.controller.avoid(link).err()),
        Command::Heed(link) => answered(parts.controller.heed(link).err()),
        Command::Drain => {
            bells.wait(rt, parts.injector.count());
            Ok(None)
        }
    }
}

// Adds what a command was answered: a refusal with its place, or the stamp of the epoch that was installed.
fn note(
    refusals: &mut Vec<(usize, Refused)>,
    stamps: &mut Vec<Stamp>,
    place: usize,
    answer: Result<Option<Stamp>, Refused>,
) -> Result<(), AllocError>
    ensures refusals { OnOk result (refusals.new.items ≡ refusals.old.items ++ refusal_at place (refusal_in answer)) }
    ensures stamps { OnOk result (stamps.new.items ≡ stamps.old.items ++ stamp_by answer) }
{
    match answer {
        Ok(None) => {}
        Ok(Some(stamp)) => stamps.push(stamp)?,
        Err(why) => refusals.push((place, why))?,
    }
    Ok(())
}

/// Carries out commands in order, and answers each refused one's place, counted from 0, with its
/// refusal; and the stamps of the opening and of each epoch that was installed.
pub(crate) fn carry_out_all<R: Threads + Moments<Parcel> + Sync, B: Wait + Drop>(
    rt: &R,
    net: &Net,
    bells: &Bells,
    parts: &mut Parts<B>,
    commands: &[Command],
) -> Result<(Vec<(usize, Refused)>, Vec<Stamp>), AllocError>
    requires { parts.old.controller.opening ≡ parts.old.injector.opening }
    ensures { IfOk result (λ told. AreTold R.was_full commands.now (desk_of parts.old) (desk_of parts.new)
        net.now.opening told.0.items told.1.items) }
{
    let alloc = net.alloc();
    let mut refusals = Vec::with_capacity(alloc, commands.len())?;
    let mut stamps = Vec::with_capacity(alloc, MAX_EPOCHS)?;
    stamps.push(net.opening().again())?;
    for place in 0..commands.len() {
        let answer = carry_out(rt, bells, parts, commands[place]);
        note(&mut refusals, &mut stamps, place, answer)?;
    }
    Ok((refusals, stamps))
}
