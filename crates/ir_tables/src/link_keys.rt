//! Links found by their ends: the keys of all links in ascending order, in which a search halves what is left.
ghost use Rattle.std.specs.Prelude.{◌≡◌, ◌+◌, ◌*◌, ◌≤◌, length, IfOk};
ghost use Rattle.ir_model.specs.declared.TheConstants.{MAX_EDGES};
ghost use Rattle.ir_tables.specs.Numbered.{AreLinkKeys, AreOrdered, ends_key, link_between};

use ir_model::Link;
use std::alloc::{AllocError, Global};

/// What the key of two ends has for each unit of the smaller one: more than any node.
const NODES: u64 = 65_536;

/// What a link's key has for each unit of the key of its ends: more than any link's number.
const UNIT: u64 = 131_072;

/// The key of two ends, the smaller first.
fn ends_key(low: u16, high: u16) -> u64
    ensures { result ≡ ends_key low high }
{
    low as u64 * NODES + high as u64
}

/// The keys of the links, in ascending order. A link's key has its ends, the smaller first, and after them its number.
pub fn link_keys(alloc: Global, links: &[Link]) -> Result<Vec<u64>, AllocError>
    ensures { IfOk result (λ keys. AreLinkKeys links.now keys.items) }
{
    let mut keys = Vec::with_capacity(alloc, links.len())?;
    for (l, link) in links.iter().enumerate() {
        keys.push(ends_key(link.low, link.high) * UNIT + l as u64)?;
    }
    keys.sort_unstable();
    Ok(keys)
}

/// The number of the first link that joins two nodes, or how many links there are. It is found by the links' keys.
pub fn link_between(links: &[Link], keys: &[u64], u: u16, v: u16) -> usize
    requires few { length links.now ≤ MAX_EDGES }
    requires ordered { AreOrdered links.now }
    requires keys { AreLinkKeys links.now keys.now }
    ensures { result ≡ link_between links.now u v }
{
    let ends = ends_key(u.min(v), u.max(v));
    let least = ends * UNIT;
    let place = keys.partition_point(|key| *key < least);
    if place < keys.len() && keys[place] / UNIT == ends {
        return (keys[place] % UNIT) as usize;
    }
    links.len()
}
