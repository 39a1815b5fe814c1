//! Orders of nodes from outside: whether a list has each node once.
ghost use Rattle.std.specs.Prelude.{◌↔◌, IfOk, IsTrue};
ghost use Rattle.ir_numbering.specs.Numbering.{IsListing};

use std::alloc::{AllocError, Global};

/// Whether a list has each of so many nodes once. It is refused for memory alone. Takes O(n), for n
/// nodes. For users of the library.
pub fn is_order(alloc: Global, nodes: usize, order: &[u16]) -> Result<bool, AllocError>
    ensures { IfOk result (λ yes. IsTrue yes ↔ IsListing nodes order.now) }
{
    let mut placed = vec![in alloc; false; nodes]?;
    for u in order {
        let u = *u as usize;
        if u >= nodes || placed[u] {
            return Ok(false);
        }
        placed[u] = true;
    }
    Ok(order.len() == nodes)
}
