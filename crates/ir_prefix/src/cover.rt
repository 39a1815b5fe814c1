//! The prefixes of a trie.

ghost use Rattle.std.specs.Prelude.{◌≡◌, ◌<◌, ◌≤◌, ◌+◌, ◌*◌, ◌^◌, ◌++◌, [], ◌∷◌, length, IfOk, OnOk};
ghost use Rattle.std.specs.List.Sorted.{IsNonDecreasing};
ghost use Rattle.ir_prefix.specs.{Cover.{IsCover, IsTrie, cover_of, prefix_at, taken, cover_told}, Described.Trie};
ghost use Rattle.ir_prefix.specs.{Nodes.StandsIn, Runs.AreRuns};

use crate::names::has_name;
use crate::runs::LabelRun;
use crate::trie::{Nodes, TrieNode, names_at, push_trie};
use std::alloc::{AllocError, Global};

/// The numbers whose first `length` bits are those of `value`, and their port.
#[derive(Clone, Copy)]
pub struct Prefix {
    pub value: u16,
    pub length: u8,
    pub port: u16,
}

// Where a node of a trie is: so high, the index-th of its height.
#[derive(Clone, Copy)]
struct Spot {
    height: u8,
    index: u32,
}

/// The prefixes of the trie of that height, each node before what lies below it.
pub fn cover_by_names(
    alloc: Global,
    ports: &[Option<u16>],
    runs: &[LabelRun],
    bits: u8,
) -> Result<Vec<Prefix>, AllocError>
    requires runs { AreRuns ports.now runs.now }
    requires bits { bits ≤ 16 }
    ensures { IfOk result (λ set. IsCover ports.now bits set.items) }
{
    let mut nodes = Nodes {
        list: Vec::new(alloc),
        names: Vec::new(alloc),
    };
    let mut room = Vec::new(alloc);
    let root = push_trie(ports, runs, bits, 0, &mut nodes, &mut room)?;
    let mut set = Vec::new(alloc);
    let top = Spot {
        height: bits,
        index: 0,
    };
    cover(&nodes, root, bits, top, None, &mut set)?;
    Ok(set)
}

// Adds the prefixes of a node that is there, where the longest one above it names `above`: as few as there can be.
fn cover(
    nodes: &Nodes,
    place: usize,
    bits: u8,
    spot: Spot,
    above: Option<u16>,
    prefixes: &mut Vec<Prefix>,
) -> Result<(), AllocError>
    requires trie { (t : Trie) × IsTrie spot.height t × StandsIn nodes.now place t }
    requires height { spot.height ≤ bits }
    requires inside { (spot.index + 1) * 2 ^ spot.height ≤ 2 ^ 16 }
    ensures { OnOk result ((t : Trie) → StandsIn nodes.now place t
        → prefixes.new.items ≡ prefixes.old.items ++ cover_of bits t spot.height spot.index above) }
{
    match nodes.list[place] {
        TrieNode::NoPort => Ok(()),
        TrieNode::OnePort(port) => {
            tell(&[port], bits, spot.height, spot.index, above, prefixes)?;
            Ok(())
        }
        TrieNode::Several(places) => {
            let names = names_at(nodes, place);
            let below = tell(names, bits, spot.height, spot.index, above, prefixes)?;
            let left = Spot {
                height: spot.height - 1,
                index: 2 * spot.index,
            };
            cover(nodes, places.left, bits, left, below, prefixes)?;
            let right = Spot {
                height: left.height,
                index: left.index + 1,
            };
            cover(nodes, places.right, bits, right, below, prefixes)
        }
    }
}

// Adds the prefix of a node unless what is above it names one of its names, and answers what is above its halves.
fn tell(
    names: &[u16],
    bits: u8,
    height: u8,
    index: u32,
    above: Option<u16>,
    prefixes: &mut Vec<Prefix>,
) -> Result<Option<u16>, AllocError>
    requires some { 0 < length names.now }
    requires rising { IsNonDecreasing names.now }
    requires height { height ≤ bits }
    requires inside { (index + 1) * 2 ^ height ≤ 2 ^ 16 }
    ensures below { IfOk result (λ below. below ≡ taken names.now above) }
    ensures told { OnOk result (prefixes.new.items
        ≡ prefixes.old.items ++ cover_told bits height index names.now above) }
{
    if has_name(names, above) {
        return Ok(above);
    }
    prefixes.push(node_prefix(bits, height, index, names[0]))?;
    Ok(Some(names[0]))
}

/// Adds the prefix of a node so high, the index-th of its height.
pub fn push_prefix(
    bits: u8,
    height: u8,
    index: u32,
    port: u16,
    prefixes: &mut Vec<Prefix>,
) -> Result<(), AllocError>
    requires height { height ≤ bits }
    requires inside { (index + 1) * 2 ^ height ≤ 2 ^ 16 }
    ensures { OnOk result (prefixes.new.items ≡ prefixes.old.items ++ prefix_at bits height index port ∷ []) }
{
    let Ok(()) = prefixes.push(node_prefix(bits, height, index, port)) else {
        return Err(AllocError);
    };
    Ok(())
}

// The prefix of a node so high, the index-th of its height.
fn node_prefix(bits: u8, height: u8, index: u32, port: u16) -> Prefix
    requires height { height ≤ bits }
    requires inside { (index + 1) * 2 ^ height ≤ 2 ^ 16 }
    ensures { result ≡ prefix_at bits height index port }
{
    Prefix {
        value: (index * 2u32.pow(height as u32)) as u16,
        length: bits - height,
        port,
    }
}
