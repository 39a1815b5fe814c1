//! The names of a node of a trie: the ports by which it needs the fewest prefixes below it. An
//! empty list stands for every name.

ghost use Rattle.std.specs.{Prelude.{◌≡◌, ◌<◌, ℕ, None, Some, length, OnOk}, List.Sorted.IsNonDecreasing};
ghost use Rattle.ir_prefix.specs.Joined.{is_among, is_named, ArePortsOfBoth, IsShared};

use std::alloc::AllocError;

/// Whether the names have a port, or none where a prefix above names none.
pub fn has_name(names: &[u16], above: Option<u16>) -> bool
    requires { IsNonDecreasing names.now }
    ensures { result ≡ is_named names.now above }
{
    match above {
        None => names.is_empty(),
        Some(port) => names.is_empty() || has_port(names, port),
    }
}

// Whether a port is in the list.
fn has_port(names: &[u16], port: u16) -> bool
    requires { IsNonDecreasing names.now }
    ensures { result ≡ is_among names.now port }
{
    names.binary_search(&port).is_ok()
}

/// Puts into the room, in place of what is there, the names that two nodes share, or those of both where they share
/// none.
pub fn join(room: &mut Vec<u16>, left: &[u16], right: &[u16]) -> Result<(), AllocError>
    requires { IsNonDecreasing left.now }
    ensures joined { OnOk result (ArePortsOfBoth left.now right.now room.new.items) }
    ensures rising { OnOk result (IsNonDecreasing room.new.items) }
{
    share(room, left, right)?;
    if room.is_empty() {
        room.extend_from_slice(left)?;
        room.extend_from_slice(right)?;
    }
    room.sort()?;
    Ok(())
}

// Puts into the room the ports that are in both lists.
fn share(room: &mut Vec<u16>, left: &[u16], right: &[u16]) -> Result<(), AllocError>
    requires { IsNonDecreasing left.now }
    ensures { OnOk result (IsShared left.now right.now room.new.items) }
{
    room.clear();
    for port in right {
        if has_port(left, *port) {
            let Ok(()) = room.push(*port) else {
                return Err(AllocError);
            };
        }
    }
    Ok(())
}
