//! The round by the longest runs: how many there are from a label on, where they are fewest, and
//! the ports that they give.

ghost use Rattle.std.specs.Prelude.{◌≡◌, ◌≢◌, ◌<◌, ◌≤◌, ◌+◌, ℕ, List, Option, length, IfOk, slice_index};
ghost use Rattle.ir_model.specs.{Choices.label_from};
ghost use Rattle.ir_model.proofs.Steps.{AreSteps, Steps, IsFirstNear, IsPlaceAfter};
ghost use Rattle.ir_compile.specs.{Plain.StandFor, Rounds.{GivesPorts, IsFirstTo, Reaches, RunOn, StandsAtPlaces}};

use crate::sixteen::{LANES, put_run};
use std::alloc::{AllocError, Global};

/// The label so many places after a label, going round.
pub fn label_at(n: u16, start: u16, place: u16) -> u16
    requires start { start < n }
    requires place { place < n }
    ensures label { result < n }
    ensures from { result ≡ label_from n start place }
{
    let left = n - start;
    if place < left {
        start + place
    } else {
        place - left
    }
}

// The place where the run that begins at a place ends, at most a whole round.
fn place_after(n: u16, start: u16, place: u16, counts: &[u16]) -> u16
    requires every { length counts.now ≡ n }
    requires start { start < n }
    requires place { place < n }
    requires some { 0 < slice_index counts.now (label_from n start place) }
    ensures { IsPlaceAfter n counts.now start place result }
{
    let count = counts[label_at(n, start, place) as usize];
    let left = n - place;
    if count < left { place + count } else { n }
}

// How many runs a round has that begins at a label off the own one, and how many places after its
// end the last one ends.
fn round_from(n: u16, own: u16, start: u16, counts: &[u16]) -> (u16, u16)
    requires steps { AreSteps n own counts.now }
    requires start { start < n }
    requires off { start ≢ own }
    ensures { Reaches n counts.now start 0 result.0 (n + result.1) }
{
    let mut place = 0;
    let mut steps = 0;
    while place < n as u32 {
        place += counts[label_at(n, start, place as u16) as usize] as u32;
        steps += 1;
    }
    (steps, (place - n as u32) as u16)
}

/// The same, where a run that begins within another one ends no sooner. A round that begins after the place where the
/// last run of the first round ends has no fewer runs either.
pub fn first_of_longest(n: u16, own: u16, counts: &[u16]) -> u16
    requires two { 1 < n }
    requires own { own < n }
    requires steps { AreSteps n own counts.now }
    requires on { RunOn n own counts.now }
    ensures { IsFirstNear n own counts.now result }
{
    let first = label_at(n, own, 1);
    let (steps, past) = round_from(n, own, first, counts);
    first_to(
        n,
        own,
        counts,
        steps,
        last_near(n, counts[first as usize].min(past)),
    )
}

// How many places after the own label the first of the rounds with the fewest runs begins, of those that begin before a
// place; how many runs that from the first place has is given.
fn first_to(n: u16, own: u16, counts: &[u16], first: u16, last: u16) -> u16
    requires two { 1 < n }
    requires own { own < n }
    requires steps { AreSteps n own counts.now }
    requires first { Steps n counts.now (label_from n own 1) 0 first }
    requires last { last ≤ n }
    ensures { IsFirstTo n own counts.now first last result }
{
    let mut best = 1;
    let mut fewest = first;
    for t in 2..last {
        let (steps, _past) = round_from(n, own, label_at(n, own, t), counts);
        if steps < fewest {
            fewest = steps;
            best = t;
        }
    }
    best
}

// The place after the last one to try.
fn last_near(n: u16, count: u16) -> u16
    requires { 1 < n }
    ensures inside { result ≤ n }
    ensures near { (i : ℕ) → i < n → i ≤ 1 + count → i < result }
{
    if count < n - 2 { count + 2 } else { n }
}

/// The ports by label that the runs give in the round from a label on, as plain numbers; what is at the own label
/// says nothing.
pub fn plain_round(
    alloc: Global,
    n: u16,
    own: u16,
    start: u16,
    counts: &[u16],
    ports: &[u16],
) -> Result<Vec<u16>, AllocError>
    requires steps { AreSteps n own counts.now }
    requires ports { length ports.now ≡ n }
    requires start { start < n }
    requires off { start ≢ own }
    ensures every { IfOk result (λ plain. length plain.items ≡ n) }
    ensures ports { IfOk result (λ plain. (held : List (Option ℕ)) → StandFor n own plain.items held
        → GivesPorts n own counts.now ports.now start held) }
{
    let mut places = vec![in alloc; 0u16; n as usize + LANES]?;
    put_round(places.as_mut_slice(), n, own, start, counts, ports);
    turned(alloc, n, start, places.as_slice())
}

// Puts the ports that the runs give in the round from a label on to its places.
fn put_round(places: &mut [u16], n: u16, own: u16, start: u16, counts: &[u16], ports: &[u16])
    requires room { n + 16 ≤ length places.old }
    requires steps { AreSteps n own counts.now }
    requires ports { length ports.now ≡ n }
    requires start { start < n }
    requires off { start ≢ own }
    ensures length { length places.new ≡ length places.old }
    ensures ports { (held : List (Option ℕ)) → StandsAtPlaces n own start places.new held
        → GivesPorts n own counts.now ports.now start held }
{
    let mut place = 0;
    while place < n {
        let after = place_after(n, start, place, counts);
        let port = ports[label_at(n, start, place) as usize];
        put_run(places, place as usize, after as usize, port);
        place = after;
    }
}

// What is at the places of the round from a label on, by label.
fn turned(alloc: Global, n: u16, start: u16, places: &[u16]) -> Result<Vec<u16>, AllocError>
    requires start { start < n }
    requires room { n ≤ length places.now }
    ensures every { IfOk result (λ plain. length plain.items ≡ n) }
    ensures each { IfOk result (λ plain. (j : ℕ) → j < n
        → slice_index plain.items (label_from n start j) ≡ slice_index places.now j) }
{
    let last = (n - start) as usize;
    let mut plain = Vec::with_capacity(alloc, n as usize)?;
    plain.extend_from_slice(&places[last..n as usize])?;
    plain.extend_from_slice(&places[..last])?;
    Ok(plain)
}
