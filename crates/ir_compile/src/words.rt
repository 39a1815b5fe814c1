//! The longest runs of labels that one port serves, by words: the bits of a label's word are the
//! ports that it may take.

ghost use Rattle.std.specs.Prelude.{◌≡◌, ◌≢◌, ◌<◌, ◌≤◌, ◌+◌, ◌*◌, ℕ, length, min, IfOk, slice_index};
ghost use Rattle.std.specs.Int.Bits.{bit_and};
ghost use Rattle.ir_model.proofs.Steps.{AreLongest};
ghost use Rattle.ir_compile.specs.PortBits.{AreBacks, AreCommon, AreRounds, AreWordRuns, HaveCommon};
ghost use Rattle.ir_compile.specs.PortBits.{MayTakeBit};

use crate::sixteen::{LANES, fill_sixteen};
use std::alloc::{AllocError, Global};

/// The most ports of a node whose ports are the bits of words.
pub const WORD_PORTS: usize = 32;

// The fewest labels of a run whose labels have their runs found together: those of a shorter one are found each alone.
const LEAST_BLOCK: usize = 16;

/// For each label how many labels the longest run of one port from it on has, and the least port
/// that serves them; the own label is served by each port. Conditions: there is a word for each
/// label, and the own label is one; each word but the own label's has a port. It is refused for
/// memory alone. Takes O(n).
pub fn runs_by_words(
    alloc: Global,
    n: u16,
    own: u16,
    words: &[u32],
) -> Result<(Vec<u16>, Vec<u16>), AllocError>
    requires own { own < n }
    requires every { n ≤ length words.now }
    requires some { (d : ℕ) → d < n → d ≢ own → 0 < slice_index words.now d }
    ensures counts { IfOk result (λ made. length made.0.items ≡ n) }
    ensures ports { IfOk result (λ made. length made.1.items ≡ n) }
    ensures longest { IfOk result (λ made. AreLongest n own (MayTakeBit n words.now) made.0.items made.1.items) }
{
    let nodes = n as usize;
    let twice = twice_of(alloc, nodes, own as usize, words)?;
    let mut backs = vec![in alloc; 0u32; nodes * 2]?;
    let mut counts = vec![in alloc; 0u16; nodes]?;
    let mut ports = vec![in alloc; 0u16; nodes]?;
    fill(
        nodes,
        twice.as_slice(),
        backs.as_mut_slice(),
        counts.as_mut_slice(),
        ports.as_mut_slice(),
    );
    Ok((counts, ports))
}

// The words of two rounds, in which the own label has all ports.
fn twice_of(alloc: Global, n: usize, own: usize, words: &[u32]) -> Result<Vec<u32>, AllocError>
    requires few { n ≤ 65535 }
    requires own { own < n }
    requires every { n ≤ length words.now }
    ensures { IfOk result (λ twice. AreRounds n own words.now (n * 2) twice.items) }
{
    let mut twice = Vec::with_capacity(alloc, n * 2)?;
    twice.extend_from_slice(&words[..n])?;
    twice.extend_from_slice(&words[..n])?;
    twice[own] = u32::MAX;
    twice[n + own] = u32::MAX;
    Ok(twice)
}

// The longest runs from all labels.
fn fill(n: usize, twice: &[u32], backs: &mut [u32], counts: &mut [u16], ports: &mut [u16])
    requires few { n ≤ 65535 }
    requires twice { length twice.now ≡ n * 2 }
    requires some { (i : ℕ) → i < n * 2 → 0 < slice_index twice.now i }
    requires backs { length backs.old ≡ n * 2 }
    requires counts { length counts.old ≡ n }
    requires ports { length ports.old ≡ n }
    ensures counts { length counts.new ≡ n }
    ensures ports { length ports.new ≡ n }
    ensures runs { AreWordRuns n twice.now n counts.new ports.new }
{
    let mut from = 0;
    while from < n {
        from = fill_some(n, twice, backs, from, counts, ports);
    }
}

// The longest runs from sixteen labels, or from some of the next ones, and where the next one begins.
fn fill_some(
    n: usize,
    twice: &[u32],
    backs: &mut [u32],
    from: usize,
    counts: &mut [u16],
    ports: &mut [u16],
) -> usize
    requires few { n ≤ 65535 }
    requires twice { length twice.now ≡ n * 2 }
    requires some { (i : ℕ) → i < n * 2 → 0 < slice_index twice.now i }
    requires inside { from < n }
    requires backs { length backs.old ≡ n * 2 }
    requires counts { length counts.old ≡ n }
    requires ports { length ports.old ≡ n }
    requires runs { AreWordRuns n twice.now from counts.old ports.old }
    ensures further { from < result }
    ensures backs { length backs.new ≡ n * 2 }
    ensures counts { length counts.new ≡ n }
    ensures ports { length ports.new ≡ n }
    ensures runs { AreWordRuns n twice.now result counts.new ports.new }
{
    if LANES <= n - from && fill_sixteen(n, twice, from, counts, ports) {
        return from + LANES;
    }
    fill_to(n, twice, backs, from, counts, ports)
}

// The longest runs from sixteen labels at least, or from all that are left, and where the next one begins.
fn fill_to(
    n: usize,
    twice: &[u32],
    backs: &mut [u32],
    from: usize,
    counts: &mut [u16],
    ports: &mut [u16],
) -> usize
    requires few { n ≤ 65535 }
    requires twice { length twice.now ≡ n * 2 }
    requires some { (i : ℕ) → i < n * 2 → 0 < slice_index twice.now i }
    requires inside { from < n }
    requires backs { length backs.old ≡ n * 2 }
    requires counts { length counts.old ≡ n }
    requires ports { length ports.old ≡ n }
    requires runs { AreWordRuns n twice.now from counts.old ports.old }
    ensures further { from < result }
    ensures backs { length backs.new ≡ n * 2 }
    ensures counts { length counts.new ≡ n }
    ensures ports { length ports.new ≡ n }
    ensures runs { AreWordRuns n twice.now result counts.new ports.new }
{
    let to = n.min(from + LANES);
    let mut at = from;
    while at < to {
        at = fill_from(n, twice, backs, at, counts, ports);
    }
    at
}

// The longest run from a label, or those from all labels of a long run, and where the next one begins.
fn fill_from(
    n: usize,
    twice: &[u32],
    backs: &mut [u32],
    from: usize,
    counts: &mut [u16],
    ports: &mut [u16],
) -> usize
    requires few { n ≤ 65535 }
    requires twice { length twice.now ≡ n * 2 }
    requires some { (i : ℕ) → i < n * 2 → 0 < slice_index twice.now i }
    requires inside { from < n }
    requires backs { length backs.old ≡ n * 2 }
    requires counts { length counts.old ≡ n }
    requires ports { length ports.old ≡ n }
    requires runs { AreWordRuns n twice.now from counts.old ports.old }
    ensures further { from < result }
    ensures backs { length backs.new ≡ n * 2 }
    ensures counts { length counts.new ≡ n }
    ensures ports { length ports.new ≡ n }
    ensures runs { AreWordRuns n twice.now result counts.new ports.new }
{
    let (to, common) = extended(twice, from + n, u32::MAX, from, u32::MAX);
    if to - from < LEAST_BLOCK {
        counts[from] = (to - from) as u16;
        ports[from] = common.trailing_zeros() as u16;
        return from + 1;
    }
    put_backs(twice, backs, from, to);
    fill_block(n, twice, backs, (from, to), counts, ports);
    to
}

// Puts at each place of a block the ports that are common from it to the end.
fn put_backs(twice: &[u32], backs: &mut [u32], from: usize, to: usize)
    requires block { from ≤ to }
    requires room { to ≤ length twice.now }
    requires backs { to ≤ length backs.old }
    ensures length { length backs.new ≡ length backs.old }
    ensures backs { AreBacks twice.now from to backs.new }
{
    let mut common = u32::MAX;
    let mut i = to;
    while from < i {
        i -= 1;
        common &= twice[i];
        backs[i] = common;
    }
}

// The longest runs from the labels of a block, from its first label to after its last.
fn fill_block(
    n: usize,
    twice: &[u32],
    backs: &[u32],
    block: (usize, usize),
    counts: &mut [u16],
    ports: &mut [u16],
)
    requires few { n ≤ 65535 }
    requires twice { length twice.now ≡ n * 2 }
    requires block { block.0 < block.1 }
    requires inside { block.0 < n }
    requires round { block.1 ≤ block.0 + n }
    requires common { HaveCommon twice.now block.0 block.1 }
    requires room { block.1 ≤ length backs.now }
    requires backs { AreBacks twice.now block.0 block.1 backs.now }
    requires counts { length counts.old ≡ n }
    requires ports { length ports.old ≡ n }
    requires runs { AreWordRuns n twice.now block.0 counts.old ports.old }
    ensures counts { length counts.new ≡ n }
    ensures ports { length ports.new ≡ n }
    ensures runs { AreWordRuns n twice.now block.1 counts.new ports.new }
{
    let (from, to) = block;
    let mut end = to;
    let mut front = u32::MAX;
    for a in from..to.min(n) {
        let (further, common) = extended(twice, a + n, backs[a], end, front);
        end = further;
        front = common;
        counts[a] = (end - a) as u16;
        ports[a] = (backs[a] & front).trailing_zeros() as u16;
    }
}

// How far the words go on that have a port in common with a word of ports, and the ports that are common after it.
#[inline(always)]
fn extended(twice: &[u32], limit: usize, back: u32, end: usize, front: u32) -> (usize, u32)
    requires limit { end ≤ limit }
    requires room { limit ≤ length twice.now }
    ensures further { end ≤ result.0 }
    ensures within { result.0 ≤ limit }
    ensures common { (m : ℕ) → m ≤ end → AreCommon twice.now m end front
        → AreCommon twice.now m result.0 result.1 }
    ensures some { 0 < bit_and back front → 0 < bit_and back result.1 }
    ensures stops { result.0 < limit → bit_and (bit_and back result.1) (slice_index twice.now result.0) ≡ 0 }
{
    let mut at = end;
    let mut common = front;
    while at < limit && back & common & twice[at] != 0 {
        common &= twice[at];
        at += 1;
    }
    (at, common)
}
