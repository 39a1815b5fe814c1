//! `memory_tests`: each call that may answer that there is no memory is made once more where it does. Before that it is
//! seen that the refusal left all as it was. So the program prints `ok` whichever one of its allocations is refused,
//! and else what was wrong first.
#![tactic(auto)]

mod channels;
mod epochs;
mod live;
mod nets;
mod networks;
mod worlds;

use std::alloc::Global;
use std::io;
use std::sync::Wait;
use std::thread::Threads;

/// What is wrong first.
fn found<R: Threads + Wait + Sync>(rt: &R, alloc: Global) -> Result<(), &'static str> {
    for run in &worlds::RUNS {
        worlds::try_world(alloc, run)?;
    }
    channels::try_channel(rt, alloc)?;
    epochs::try_epochs(rt, alloc)?;
    for run in &nets::RUNS {
        nets::try_net(rt, alloc, run)?;
    }
    live::try_live(rt, alloc)
}

fn main(rt: HostRuntime) -> io::Result<()> {
    match found(&rt, rt.alloc()) {
        Ok(()) => println!(rt; "ok"),
        Err(wrong) => println!(rt; "{wrong}"),
    }
}
