//! Runs: numbers in a row of which each has the same port or none.

ghost use Rattle.std.specs.Prelude.{◌≡◌, ◌<◌, ◌≤◌, ◌+◌, ◌*◌, ◌^◌, ℕ, length, IfOk};
ghost use Rattle.ir_prefix.specs.Runs.{AreRuns, IsRunFrom, LiesIn};

use std::alloc::{AllocError, Global};

/// The run from a number on: the first number of it with a port, that port, and where a number with another port begins
/// the next one. Without any port both places are the count of all numbers.
#[derive(Clone, Copy)]
pub struct LabelRun {
    pub first: usize,
    pub port: u16,
    pub end: usize,
}

/// What a block holds: numbers beyond the labels alone, labels without a port, labels of one port, or neither of these.
#[derive(Clone, Copy)]
pub enum PrefixBlock {
    Beyond,
    Unsent,
    OnePort(u16),
    Mixed,
}

/// The run from each number on.
pub fn runs_of(alloc: Global, ports: &[Option<u16>]) -> Result<Vec<LabelRun>, AllocError>
    ensures { IfOk result (λ runs. AreRuns ports.now runs.items) }
{
    let mut run = LabelRun {
        first: ports.len(),
        port: 0,
        end: ports.len(),
    };
    let mut runs = vec![in alloc; run; ports.len()]?;
    let mut x = ports.len();
    while x > 0 {
        x -= 1;
        run = run_before(ports, x, run);
        runs[x] = run;
    }
    Ok(runs)
}

// The run from a number on, given that from the next one on.
fn run_before(ports: &[Option<u16>], x: usize, next: LabelRun) -> LabelRun
    requires label { x < length ports.now }
    requires next { IsRunFrom ports.now (x + 1) next }
    ensures { IsRunFrom ports.now x result }
{
    match ports[x] {
        None => next,
        Some(port) => LabelRun {
            first: x,
            port,
            end: if next.port == port {
                next.end
            } else {
                next.first
            },
        },
    }
}

/// What lies in the block so high, the index-th of its height.
pub fn block_of(ports: &[Option<u16>], runs: &[LabelRun], height: u8, index: u32) -> PrefixBlock
    requires runs { AreRuns ports.now runs.now }
    requires inside { (index + 1) * 2 ^ height ≤ 2 ^ 16 }
    ensures { LiesIn ports.now height index result }
{
    let size = 2usize.pow(height as u32);
    let low = index as usize * size;
    if low >= ports.len() {
        return PrefixBlock::Beyond;
    }
    let run = runs[low];
    if run.end < low + size {
        return PrefixBlock::Mixed;
    }
    if run.first < low + size {
        return PrefixBlock::OnePort(run.port);
    }
    PrefixBlock::Unsent
}
