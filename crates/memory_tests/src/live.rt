//! A live run, each node on a thread of its own.

use crate::nets::opened;
use crate::networks::opening;
use ir_control::{Command, Live, LiveError, run_live};
use ir_core::{Fate, Refused};
use ir_worker::Gate;
use std::alloc::Global;
use std::sync::Wait;
use std::sync::atomic::AtomicBool;
use std::thread::Threads;

/// Each node may go on.
struct Open;

impl Gate for Open {
    ghost barred = { λ _ _ _. Unit {0} };

    fn pass(&self, _node: u16, _turn: u64) -> bool {
        true
    }
}

/// A run of two packets over another net, which is then spent.
fn run<R: Threads + Wait + Sync>(rt: &R, alloc: Global) -> Result<Live, LiveError> {
    let Ok(opening) = opening(alloc, 16) else {
        return Err(LiveError::Spent);
    };
    let Ok(net) = opened(rt, alloc, &opening) else {
        return Err(LiveError::Spent);
    };
    let commands = [Command::Inject(0, 2), Command::Inject(2, 0), Command::Drain];
    run_live(rt, &net, &commands, &Open, &AtomicBool::new(false), rt)
}

/// Each packet was delivered, or refused for want of memory.
fn is_done(live: &Live) -> Result<(), &'static str> {
    let records = live.report.records.as_slice();
    for record in records {
        if record.fate != Fate::Delivered {
            return Err("a packet of a live run is not delivered");
        }
    }
    for (_, why) in live.refusals.as_slice() {
        if *why != Refused::NoMemory {
            return Err("a packet of a live run is refused");
        }
    }
    if records.len() > 2 || live.refusals.len() != 2 - records.len() {
        return Err("a live run tells of other packets");
    }
    Ok(())
}

/// A live run; again, over another net, where there was no memory or a thread was not started.
pub(crate) fn try_live<R: Threads + Wait + Sync>(
    rt: &R,
    alloc: Global,
) -> Result<(), &'static str> {
    match run(rt, alloc) {
        Ok(live) => return is_done(&live),
        Err(LiveError::NoMemory | LiveError::NoThread) => {}
        Err(_) => return Err("a live run is refused"),
    }
    match run(rt, alloc) {
        Ok(live) => is_done(&live),
        Err(_) => Err("a live run is refused again"),
    }
}
