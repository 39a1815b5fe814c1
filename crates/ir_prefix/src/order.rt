//! The order in which prefixes are listed.

ghost use Rattle.std.specs.{Prelude.{◌≡◌, length, OnOk}, List.Sorted.IsPermutation};
ghost use Rattle.ir_prefix.specs.{Cover.AreDistinct, Longest.IsLongestFirst};

use crate::cover::Prefix;
use std::alloc::AllocError;
use std::cmp::Reverse;

/// Sorts prefixes, no two of which have one node: the longest first, and of one length by their values.
pub fn sort_longest_first(set: &mut Vec<Prefix>) -> Result<(), AllocError>
    requires { AreDistinct set.old.items }
    ensures permutation { IsPermutation set.old.items set.new.items }
    ensures order { OnOk result (IsLongestFirst set.new.items) }
{
    // Where those of one length come in the order of their values, all are in order once they are sorted by their few
    // lengths, and the second sort is one pass.
    set.sort_by_key(|m| Reverse(m.length))?;
    set.sort_by_key(|m| (Reverse(m.length), m.value))?;
    Ok(())
}
