//! Keys of the nodes from one node: the weight of a way, and after it the port that begins it. The least key of a node
//! gives its distance and the least port that leads nearer to it, in one run.
ghost use Rattle.std.specs.Prelude.{◌≡◌, ◌↔◌, ℕ, ◌+◌, ◌*◌, ◌<◌, ◌≤◌, [], ◌∷◌, length, sum, IfOk, OnOk, IsTrue, IsPermutation};
ghost use Rattle.ir_model.specs.Topology.{node_count};
ghost use Rattle.ir_tables.specs.Keys.{AreKeys, IsFresh, IsKeying, IsStepKey, KeepsFresh, NoNode, Only, load, keys_waiting};

use crate::topology::Topology;
use std::alloc::{AllocError, Global};
use std::cmp::Reverse;
use std::collections::BinaryHeap;

/// What a key has for each unit of weight: more than any port. An entry of the frontier is its key times this, plus
/// its node: this is more than any node too.
pub const UNIT: u64 = 65_536;

/// The key that stands for no way found yet.
pub const NO_KEY: u64 = 281_474_976_645_120;

/// Nodes that wait, each after the key that it had: near ones up to a limit, the least first, and far ones in no
/// order. Most of what waits is far, and gone by the time that the limit comes to it, since its node has a lesser key
/// by then.
#[derive(Drop)]
struct Frontier {
    near: BinaryHeap<Reverse<u64>>,
    far: Vec<Reverse<u64>>,
    limit: u64,
}

/// Whether the node of an entry still has the key that it entered with.
fn is_fresh(keys: &[u64], entry: Reverse<u64>) -> bool
    ensures { IsTrue result ↔ IsFresh keys.now entry }
{
    match keys.get((entry.0 % UNIT) as usize) {
        Some(key) => *key == entry.0 / UNIT,
        None => false,
    }
}

/// The place of the least of some entries, and the entry halfway from it to the greatest.
fn least_and_half(far: &[Reverse<u64>]) -> (usize, u64)
    requires { 0 < length far.now }
    ensures { result.0 < length far.now }
{
    let mut least = 0;
    let mut greatest = 0;
    for (at, entry) in far.iter().enumerate() {
        if entry.0 < far[least].0 {
            least = at;
        }
        greatest = entry.0.max(greatest);
    }
    let first = far[least].0;
    (
        least,
        first.saturating_add(greatest.saturating_sub(first) / 2),
    )
}

impl Frontier {
    fn new(alloc: Global) -> Frontier
        ensures { keys_waiting result ≡ [] }
    {
        Frontier {
            near: BinaryHeap::new(alloc),
            far: Vec::new(alloc),
            limit: 0,
        }
    }

    fn is_empty(&self) -> bool
        ensures { IsTrue result ↔ (length (keys_waiting self.now) ≡ 0) }
    {
        self.near.is_empty() && self.far.is_empty()
    }

    /// An entry waits.
    fn push(&mut self, entry: Reverse<u64>) -> Result<(), AllocError>
        ensures waits { OnOk result (IsPermutation (entry ∷ keys_waiting self.old) (keys_waiting self.new)) }
        ensures load { OnOk result (load self.new ≤ load self.old + 2) }
    {
        if entry.0 <= self.limit {
            self.near.push(entry)?;
        } else {
            self.far.push(entry)?;
        }
        Ok(())
    }

    /// The far entry at a place comes near, or is gone where it is no longer fresh.
    fn bring(&mut self, at: usize, keys: &[u64]) -> Result<(), AllocError>
        requires place { at < length self.old.far.items }
        ensures fresh { OnOk result (KeepsFresh keys.now (keys_waiting self.old) (keys_waiting self.new)) }
        ensures far { length self.new.far.items + 1 ≡ length self.old.far.items }
        ensures load { OnOk result (load self.new < load self.old) }
        ensures limit { self.new.limit ≡ self.old.limit }
    {
        let entry = self.far.swap_remove(at);
        if is_fresh(keys, entry) {
            self.near.push(entry)?;
        }
        Ok(())
    }

    /// The least half of the far entries' keys come near, and those that are no longer fresh are gone. Condition: there
    /// is a far entry.
    fn bring_near(&mut self, keys: &[u64]) -> Result<(), AllocError>
        requires far { 0 < length self.old.far.items }
        ensures fresh { OnOk result (KeepsFresh keys.now (keys_waiting self.old) (keys_waiting self.new)) }
        ensures load { OnOk result (load self.new < load self.old) }
    {
        let (least, limit) = least_and_half(self.far.as_slice());
        self.limit = limit;
        self.bring(least, keys)?;
        let mut at = 0;
        while at < self.far.len() {
            let entry = self.far[at];
            if entry.0 > limit && is_fresh(keys, entry) {
                at += 1;
            } else {
                self.bring(at, keys)?;
            }
        }
        Ok(())
    }
}

/// What a step from `x` by its port `p` adds to a key.
fn step_key(u: u16, x: u16, p: usize, weight: u32) -> u64
    requires port { p < 65536 }
    requires weight { weight < 65536 }
    ensures { IsStepKey u x p weight result }
{
    if x == u {
        weight as u64 * UNIT + p as u64
    } else {
        weight as u64 * UNIT
    }
}

/// Offers the key of `x` through its ports. Each neighbour that has a greater one by that enters the frontier.
fn offer(
    topology: &Topology,
    u: u16,
    x: u16,
    keys: &mut [u64],
    frontier: &mut Frontier,
) -> Result<(), AllocError>
    requires node { x < node_count topology.now }
    requires so_far { IsKeying topology.now u (Only x) keys.old (keys_waiting frontier.old) }
    ensures offered { OnOk result (IsKeying topology.now u NoNode keys.new (keys_waiting frontier.new)) }
    ensures falls { OnOk result (3 * sum keys.new + load frontier.new ≤ 3 * sum keys.old + load frontier.old) }
{
    let own = keys[x as usize];
    topology.invariant();
    for (p, hop) in topology.ports(x as usize).iter().enumerate() {
        let through = own + step_key(u, x, p, hop.weight);
        if through < keys[hop.node as usize] {
            keys[hop.node as usize] = through;
            frontier.push(Reverse(through * UNIT + hop.node as u64))?;
        }
    }
    Ok(())
}

/// The least keys from `u`, by node (Dijkstra 1959; the far part of the frontier as Glover, Glover and Klingman 1984).
pub fn keys_from(alloc: Global, topology: &Topology, u: u16) -> Result<Vec<u64>, AllocError>
    requires { u < node_count topology.now }
    ensures { IfOk result (λ keys. AreKeys topology.now u keys.items) }
{
    let mut keys = vec![in alloc; NO_KEY; topology.nodes()]?;
    keys[u as usize] = 0;
    let mut frontier = Frontier::new(alloc);
    frontier.push(Reverse(u as u64))?;
    while !frontier.is_empty() {
        let Some(Reverse(waiting)) = frontier.near.pop() else {
            frontier.bring_near(keys.as_slice())?;
            continue;
        };
        let x = (waiting % UNIT) as u16;
        if waiting / UNIT == keys[x as usize] {
            offer(topology, u, x, keys.as_mut_slice(), &mut frontier)?;
        }
    }
    Ok(keys)
}
