//! The look-up in the lines of a table, for the packet path of a kernel, in C. Nothing here allocates, stops or calls
//! out.
#![tactic(auto)]

ghost use Rattle.std.specs.Prelude.{◌≡◌, ◌≤◌, length, slice_index};
ghost use Rattle.ir_lines.specs.{Heads.head_verdict, Looks.IsPlaceIn};
ghost use Rattle.plane_lines.specs.Verdicts.{verdict_number};

use ir_lines::{place_of_16, place_of_32};

/// The place of the last of 16 ascending words that is at most a key, where the first one is.
#[unsafe(no_mangle)]
pub extern "C" fn bz_place_16(words: &[u32], key: u32) -> u32
    requires every { length words.now ≡ 16 }
    requires first { slice_index words.now 0 ≤ key }
    ensures { IsPlaceIn words.now key result }
{
    place_of_16(words, key) as u32
}

/// The place of the last of 32 ascending words that is at most a key, where the first one is.
#[unsafe(no_mangle)]
pub extern "C" fn bz_place_32(words: &[u32], key: u32) -> u32
    requires every { length words.now ≡ 32 }
    requires first { slice_index words.now 0 ≤ key }
    ensures { IsPlaceIn words.now key result }
{
    place_of_32(words, key) as u32
}

/// The verdict of a table's first line on a packet with an epoch and a label, as the number of the packet path's
/// counter.
#[unsafe(no_mangle)]
pub extern "C" fn bz_head(line: &[u32], epoch: u32, label: u32) -> u32
    requires { 16 ≤ length line.now }
    ensures { result ≡ verdict_number (head_verdict (slice_index line.now 0) (slice_index line.now 1)
        (slice_index line.now 2) epoch label) }
{
    // These are the tests of `ir_lines::head_verdict`. A match over its verdict would have a place that is never
    // reached, which a module for BPF may not have.
    if line[0] != epoch {
        3
    } else if label == line[2] {
        1
    } else if label >= line[1] {
        4
    } else {
        0
    }
}
