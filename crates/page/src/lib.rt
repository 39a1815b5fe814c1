//! What `route` answers, for callers that are not Rattle: a web page, or a program in C. One call takes words and
//! texts that lie in memory, and puts output and faults into rooms of its caller. No thread is started, so `live` is
//! reported as `no thread`.
#![tactic(auto)]

mod answer;
mod kept;
mod words;

ghost use Rattle.page.specs.Calls.{IsCall, IsPut};

use answer::answer_to;
use std::alloc::Global;

/// How many bytes there are of the output and of the faults, whether there was room for them or not.
#[repr(C)]
pub struct Lengths {
    pub output: usize,
    pub faults: usize,
}

/// Puts as much of a text as there is room for at the front of the room, and answers how long the text is.
fn put(room: &mut [u8], text: &[u8]) -> usize
    ensures { IsPut text.now result room.old room.new }
{
    let count = text.len().min(room.len());
    room[..count].copy_from_slice(&text[..count]);
    text.len()
}

/// Does what words ask for over texts, as `route` does with these words over files of these texts. Each word ends in a
/// line feed, which the last may lack; no words are the words `sim -`. The first text is the topology, or all of
/// standard input where the words name `-`; the second is the script, the new topology of `diff`, or the order of nodes
/// that `--numbering` names; the third is the trace. What the words do not ask for is not read.
///
/// What there is room for of the output and of the lines of faults is put at the front of the rooms, and both lengths
/// are given. Where a length is more than there is room for, the same call with larger rooms gives all of it. The
/// sentences of `--explain` follow the lines of faults. The status is that of `route`: 0 done; 1 an input is
/// refused, or there is a finding; 2 the words are refused; 3 memory was refused, or the words are those of `live`.
/// With 2 the text is in the room of the faults, where that of `--help` and `--version` is too.
#[unsafe(no_mangle)]
pub extern "C" fn bentzolu_run(
    alloc: Global,
    words: &[u8],
    topology: &[u8],
    script: &[u8],
    trace: &[u8],
    output: &mut [u8],
    faults: &mut [u8],
    lengths: &mut Lengths,
) -> u32
    ensures { IsCall words.now topology.now script.now trace.now result lengths.new
        output.old output.new faults.old faults.new }
{
    match answer_to(alloc, words, topology, script, trace) {
        Ok(it) => {
            lengths.output = put(output, it.output.as_slice());
            lengths.faults = put(faults, it.faults.as_slice());
            it.status
        }
        Err(_) => {
            lengths.output = put(output, b"");
            lengths.faults = put(faults, b"out of memory\n");
            3
        }
    }
}
