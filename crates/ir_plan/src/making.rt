//! What is made for each number below one, on the thread that calls or in several.

ghost use Rattle.std.specs.Prelude.{ℕ, ◌<◌, ◌≤◌, ◌*◌, IfOk, IfSome, Ok, map};
ghost use Rattle.std.specs.List.{AllZip, range_with_len};

use rayon::prelude::*;
use std::alloc::{AllocError, Global};
use std::thread::Threads;

/// What is made for each number below `count`, by number, on the thread that calls.
pub fn made_alone<T: Drop, F: Fn(usize) -> Result<T, AllocError>>(
    alloc: Global,
    count: usize,
    make: F,
) -> Result<Vec<T>, AllocError>
    requires each { (k : ℕ) → k < count → F.pre make k }
    ensures { IfOk result (λ made. AllZip (F.post make) (range_with_len 0 count) (map Ok made.items)) }
{
    let mut made = Vec::with_capacity(alloc, count)?;
    for k in 0..count {
        made.push(make(k)?)?;
    }
    Ok(made)
}

/// What is made for each number below `count`, by number, in at most `most` threads, or in as many as suit the
/// processors where it is None. Each makes at least `least`. It is refused where a growth is refused in any of them.
pub fn made_in_threads<T: Send + Drop, F: Fn(usize) -> Result<T, AllocError> + Copy + Send + Sync>(
    rt: &(impl Threads + Sync),
    alloc: Global,
    most: Option<usize>,
    count: usize,
    least: usize,
    make: F,
) -> Result<Vec<T>, AllocError>
    requires each { (k : ℕ) → k < count → F.pre make k }
    ensures { IfOk result (λ made. AllZip (F.post make) (range_with_len 0 count) (map Ok made.items)) }
{
    (0..count)
        .into_par_iter()
        .with_min_len(least_of_a_thread(count, most, least))
        .map(make)
        .collect::<Result<Vec<T>, AllocError>>(rt, alloc)?
}

// The fewest that a thread makes, where there are to be at most so many threads: then as many make all.
fn least_of_a_thread(count: usize, most: Option<usize>, least: usize) -> usize
    ensures few { IfSome most (λ threads. 0 < threads → count ≤ result * threads) }
    ensures enough { least ≤ result }
{
    match most {
        Some(threads) if threads > 0 => count.div_ceil(threads).max(least),
        _ => least,
    }
}
