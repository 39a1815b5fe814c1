//! The place of a key among the words of a line, by strides that halve. There is no branch: a packet path has no time
//! for one.

ghost use Rattle.std.specs.Prelude.{◌≡◌, ◌<◌, ◌≤◌, length, slice_index};
ghost use Rattle.ir_lines.specs.Looks.{IsPlaceIn};

// The step where a word is at most the key, else 0.
#[inline(always)]
fn stride(word: u32, key: u32, step: usize) -> usize
    requires { step ≤ 16 }
    ensures at_most { word ≤ key → result ≡ step }
    ensures above { key < word → result ≡ 0 }
    ensures within { result ≤ step }
{
    let above = ((word as u64 * 2 + 8_589_934_591 - key as u64 * 2) / 8_589_934_592) as usize;
    step * (1 - above)
}

/// The place of the last of 16 ascending words that is at most a key, where the first one is.
#[inline(always)]
pub fn place_of_16(words: &[u32], key: u32) -> usize
    requires every { length words.now ≡ 16 }
    requires first { slice_index words.now 0 ≤ key }
    ensures { IsPlaceIn words.now key result }
{
    let mut place = stride(words[8], key, 8);
    place += stride(words[place + 4], key, 4);
    place += stride(words[place + 2], key, 2);
    place += stride(words[place + 1], key, 1);
    place
}

/// The place of the last of 32 ascending words that is at most a key, where the first one is.
#[inline(always)]
pub fn place_of_32(words: &[u32], key: u32) -> usize
    requires every { length words.now ≡ 32 }
    requires first { slice_index words.now 0 ≤ key }
    ensures { IsPlaceIn words.now key result }
{
    let mut place = stride(words[16], key, 16);
    place += stride(words[place + 8], key, 8);
    place += stride(words[place + 4], key, 4);
    place += stride(words[place + 2], key, 2);
    place += stride(words[place + 1], key, 1);
    place
}
