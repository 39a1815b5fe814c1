//! The inject lines of a script, and of which rows they can be the packets.
ghost use Rattle.std.specs.Prelude.{◌≡◌, ◌<◌, ◌≤◌, ◌+◌, ◌^◌, IfOk, length, take};
ghost use Rattle.ir_whole.specs.{Injects.{inject_in, epochs_after, inject_lines}, Judged.{fits_any, are_placed, first_of_three}};

use crate::finding::WholeKind;
use ir_core::{Event, Step};
use std::alloc::{AllocError, Global};

/// An inject line of a script: the ends of its packet, and how many epochs there are where each
/// install line above it made one.
#[derive(Clone, Copy)]
pub struct Inject {
    pub source: u16,
    pub dest: u16,
    pub epochs: usize,
}

/// The inject line that a step is, below lines that made so many epochs.
fn inject_in(epochs: usize, step: Step) -> Option<Inject>
    ensures { result ≡ inject_in epochs step }
{
    match step {
        Step::Event(Event::Inject(source, dest)) => Some(Inject {
            source,
            dest,
            epochs,
        }),
        _ => None,
    }
}

/// How many epochs there are below a step, where it makes one if it is an install.
fn epochs_after(epochs: usize, step: Step) -> usize
    requires { epochs < 2 ^ 63 }
    ensures after { result ≡ epochs_after epochs step }
    ensures within { result ≤ epochs + 1 }
{
    match step {
        Step::Event(Event::Install(_, _) | Event::Renumber(_, _)) => epochs + 1,
        _ => epochs,
    }
}

/// The inject lines of a script, in order.
pub fn injects_of(alloc: Global, steps: &[Step]) -> Result<Vec<Inject>, AllocError>
    ensures { IfOk result (λ found. found.items ≡ inject_lines steps.now) }
{
    let mut found = Vec::new(alloc);
    let mut epochs = 1;
    for step in steps {
        if let Some(inject) = inject_in(epochs, *step) {
            found.push(inject)?;
        }
        epochs = epochs_after(epochs, *step);
    }
    Ok(found)
}

/// What a row wants of its packet's inject: the ends, and an epoch that was installed above it.
#[derive(Clone, Copy)]
pub struct Wanted {
    pub source: u16,
    pub dest: u16,
    pub epoch: u32,
}

/// Whether an inject has the ends that are wanted, and the epoch is one of those above it; any is
/// as is wanted where nothing is.
fn fits_any(wanted: Option<Wanted>, inject: Inject) -> bool
    ensures { result ≡ fits_any wanted inject }
{
    match wanted {
        None => true,
        Some(wanted) => {
            wanted.source == inject.source
                && wanted.dest == inject.dest
                && wanted.epoch as usize <= inject.epochs
        }
    }
}

/// Whether for each number of a packet there is an inject as it is wanted, in the order of the numbers.
fn are_placed(table: &[Option<Wanted>], injects: &[Inject]) -> bool
    ensures { result ≡ are_placed table.now injects.now }
{
    let mut next = 0;
    for inject in injects {
        if next == table.len() {
            return true;
        }
        if fits_any(table[next], *inject) {
            next += 1;
        }
    }
    next == table.len()
}

/// The first of what is found of a row, where so many numbers of packets are used.
pub fn found_of(
    ends: &[Option<Wanted>],
    stamps: &[Option<Wanted>],
    used: usize,
    injects: &[Inject],
    cause: Option<WholeKind>,
) -> Option<WholeKind>
    requires ends { used ≤ length ends.now }
    requires stamps { used ≤ length stamps.now }
    ensures { result ≡ first_of_three (are_placed (take used ends.now) injects.now)
        (are_placed (take used stamps.now) injects.now) cause }
{
    if !are_placed(&ends[..used], injects) {
        return Some(WholeKind::NeverInjected);
    }
    if !are_placed(&stamps[..used], injects) {
        return Some(WholeKind::NotYetInstalled);
    }
    cause
}
