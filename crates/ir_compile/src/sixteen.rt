//! The longest runs from sixteen labels at a time, and a port put to sixteen places at a time.

ghost use Rattle.std.specs.Prelude.{◌≡◌, ◌<◌, ◌≤◌, ◌+◌, ◌*◌, ℕ, cond, eqb, length, slice_index, IfSome, IsTrue};
ghost use Rattle.std.specs.Int.Bits.{bit_and};
ghost use Rattle.ir_compile.specs.PortBits.{AreWordRuns};
ghost use Rattle.ir_compile.specs.ShortRuns.{AreShortRuns, HoldLanes};

use std::simd::prelude::*;

/// How many labels have their longest runs found at a time.
pub const LANES: usize = 16;

/// The longest runs from sixteen labels, and whether they were found: where one of them has more
/// than fifteen labels, all stays as it is.
pub fn fill_sixteen(
    n: usize,
    twice: &[u32],
    from: usize,
    counts: &mut [u16],
    ports: &mut [u16],
) -> bool
    requires few { n ≤ 65535 }
    requires twice { length twice.now ≡ n * 2 }
    requires some { (i : ℕ) → i < n * 2 → 0 < slice_index twice.now i }
    requires inside { from + 16 ≤ n }
    requires counts { length counts.old ≡ n }
    requires ports { length ports.old ≡ n }
    requires runs { AreWordRuns n twice.now from counts.old ports.old }
    ensures counts { length counts.new ≡ n }
    ensures ports { length ports.new ≡ n }
    ensures found { IsTrue result → AreWordRuns n twice.now (from + 16) counts.new ports.new }
    ensures kept { (IsTrue result → ⊥) → (counts.new ≡ counts.old) × (ports.new ≡ ports.old) }
{
    let Some(runs) = sixteen_runs(twice, from) else {
        return false;
    };
    put_runs(n, twice, from, runs, counts, ports);
    true
}

// How many words the longest runs from sixteen places have, and their ports, where none has more than fifteen.
fn sixteen_runs(twice: &[u32], from: usize) -> Option<(u32x16, u32x16)>
    requires room { from + 32 ≤ length twice.now }
    requires some { (i : ℕ) → i < length twice.now → 0 < slice_index twice.now i }
    ensures { IfSome result (λ runs. AreShortRuns twice.now from runs.0 runs.1) }
{
    let mut common = load(twice, from);
    let mut shared = common;
    let mut sizes = u32x16::splat(1);
    for k in 1..LANES {
        let next = both(common, load(twice, from + k));
        if are_none(next) {
            return Some((sizes, shared));
        }
        shared = where_some(next, next, shared);
        sizes = where_some(next, u32x16::splat(k as u32 + 1), sizes);
        common = next;
    }
    None
}

// Puts sixteen runs, by their sizes and ports, after those that are there, each by its least port.
fn put_runs(
    n: usize,
    twice: &[u32],
    from: usize,
    runs: (u32x16, u32x16),
    counts: &mut [u16],
    ports: &mut [u16],
)
    requires few { n ≤ 65535 }
    requires inside { from + 16 ≤ n }
    requires short { AreShortRuns twice.now from runs.0 runs.1 }
    requires counts { length counts.old ≡ n }
    requires ports { length ports.old ≡ n }
    requires runs { AreWordRuns n twice.now from counts.old ports.old }
    ensures counts { length counts.new ≡ n }
    ensures ports { length ports.new ≡ n }
    ensures runs { AreWordRuns n twice.now (from + 16) counts.new ports.new }
{
    let sizes = runs.0.to_array();
    let shared = runs.1.to_array();
    for k in 0..LANES {
        counts[from + k] = sizes[k] as u16;
        ports[from + k] = shared[k].trailing_zeros() as u16;
    }
}

// Sixteen words from a place on.
#[inline(always)]
fn load(words: &[u32], at: usize) -> u32x16
    requires { at + 16 ≤ length words.now }
    ensures { HoldLanes result (λ k. slice_index words.now (at + k)) }
{
    u32x16::from_slice(&words[at..])
}

// In each lane the bits that two have in common.
#[inline(always)]
fn both(a: u32x16, b: u32x16) -> u32x16
    requires left { length a ≡ 16 }
    requires right { length b ≡ 16 }
    ensures { HoldLanes result (λ k. bit_and (slice_index a k) (slice_index b k)) }
{
    a & b
}

// Whether each lane holds 0.
#[inline(always)]
fn are_none(lanes: u32x16) -> bool
    requires { length lanes ≡ 16 }
    ensures { IsTrue result → (k : ℕ) → k < 16 → slice_index lanes k ≡ 0 }
{
    lanes.simd_ne(u32x16::splat(0)).to_bitmask() == 0
}

// In each lane what `some` holds, or what `none` holds where the lane is 0.
#[inline(always)]
fn where_some(lanes: u32x16, some: u32x16, none: u32x16) -> u32x16
    requires lanes { length lanes ≡ 16 }
    requires some { length some ≡ 16 }
    requires none { length none ≡ 16 }
    ensures { HoldLanes result (λ k. cond (eqb (slice_index lanes k) 0) (slice_index none k) (slice_index some k)) }
{
    lanes.simd_eq(u32x16::splat(0)).select(none, some)
}

/// Puts a port to the places of a run, and to up to fifteen places after it.
pub fn put_run(places: &mut [u16], from: usize, to: usize, port: u16)
    requires room { to + 16 ≤ length places.old }
    ensures length { length places.new ≡ length places.old }
    ensures put { (k : ℕ) → from ≤ k → k < to → slice_index places.new k ≡ port }
    ensures kept { (k : ℕ) → k < from → slice_index places.new k ≡ slice_index places.old k }
{
    let mut at = from;
    while at < to {
        u16x16::splat(port).copy_to_slice(&mut places[at..]);
        at += LANES;
    }
}
