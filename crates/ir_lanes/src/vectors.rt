//! Sixteen lanes at a time, and what each operation leaves in each of them.
ghost use Rattle.std.specs.Prelude.{◌≡◌, ◌↔◌, ℕ, ◌+◌, ◌*◌, ◌^◌, ◌<◌, ◌≤◌, min, length, slice_index, IsTrue};
ghost use Rattle.ir_lanes.specs.Lanes.{HasLanes, far, most_added};
ghost use Rattle.ir_lanes.specs.{Inward.IsSet, Marks.WithPort};

use std::simd::prelude::*;

/// How many lanes a node has.
pub const LANES: usize = 16;

/// What is farther than each weight that is looked for: it stands for no way found yet.
pub const FAR: u32 = 2_147_483_648;

/// The lanes from a place on.
#[inline(always)]
pub fn load(lanes: &[u32], at: usize) -> u32x16
    requires { at + 16 ≤ length lanes.now }
    ensures { HasLanes result (λ k. slice_index lanes.now (at + k)) }
{
    u32x16::from_slice(&lanes[at..])
}

/// In each lane the lesser one of two.
#[inline(always)]
pub fn lesser(a: u32x16, b: u32x16) -> u32x16
    requires left { length a ≡ 16 }
    requires right { length b ≡ 16 }
    ensures { HasLanes result (λ k. min (slice_index a k) (slice_index b k)) }
{
    a.simd_min(b)
}

/// In each lane what is farther by a step.
#[inline(always)]
pub fn farther(a: u32x16, added: u32) -> u32x16
    requires long { length a ≡ 16 }
    requires light { added ≤ most_added }
    requires near { (k : ℕ) → k < 16 → slice_index a k ≤ far }
    ensures { HasLanes result (λ k. added + slice_index a k) }
{
    a.strict_add(u32x16::splat(added))
}

/// Whether two hold the same in each lane.
#[inline(always)]
pub fn are_same(a: u32x16, b: u32x16) -> bool
    requires left { length a ≡ 16 }
    requires right { length b ≡ 16 }
    ensures { IsTrue result → (k : ℕ) → k < 16 → slice_index a k ≡ slice_index b k }
{
    a.simd_ne(b).to_bitmask() == 0
}

/// A word in which the bit k is set where two hold the same in lane k.
#[inline(always)]
pub fn same_lanes(a: u32x16, b: u32x16) -> u16
    requires left { length a ≡ 16 }
    requires right { length b ≡ 16 }
    ensures { (k : ℕ) → k < 16 → IsSet result k ↔ (slice_index a k ≡ slice_index b k) }
{
    a.simd_eq(b).to_bitmask() as u16
}

// In each lane its bit alone.
#[inline(always)]
fn places() -> u32x16
    ensures { HasLanes result (λ k. 2 ^ k) }
{
    u32x16::from_array([
        1, 2, 4, 8, 16, 32, 64, 128, 256, 512, 1024, 2048, 4096, 8192, 16384, 32768,
    ])
}

/// What each lane had, with the bit of a port beside it where the lane's bit is set in a word.
#[inline(always)]
pub fn with_port(lanes: u32x16, word: u16, port: u32) -> u32x16
    requires long { length lanes ≡ 16 }
    requires port { port < 32 }
    ensures { WithPort lanes word port result }
{
    let bits = places();
    let set = (u32x16::splat(word as u32) & bits).simd_eq(bits);
    lanes | set.select(u32x16::splat(1 << port), u32x16::splat(0))
}

/// Whether each lane holds what is near.
#[inline(always)]
pub fn are_found(a: u32x16) -> bool
    requires { length a ≡ 16 }
    ensures { IsTrue result → (k : ℕ) → k < 16 → slice_index a k < far }
{
    are_same(a, lesser(a, u32x16::splat(FAR - 1)))
}

/// Puts lanes at a place.
#[inline(always)]
pub fn store(to: u32x16, lanes: &mut [u32], at: usize)
    requires room { at + 16 ≤ length lanes.old }
    requires long { length to ≡ 16 }
    requires near { (i : ℕ) → slice_index lanes.old i ≤ far }
    requires low { (k : ℕ) → k < 16 → slice_index to k ≤ far }
    ensures near { (i : ℕ) → slice_index lanes.new i ≤ far }
    ensures length { length lanes.new ≡ length lanes.old }
{
    to.copy_to_slice(&mut lanes[at..]);
}
