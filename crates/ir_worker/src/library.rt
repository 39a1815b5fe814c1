//! What users of the library call, and no program here.
ghost use Rattle.ir_worker.specs.{Same.IsSameNode, Turns.{MayEnd, HasServed}};

use crate::bells::Bells;
use crate::node::Node;
use crate::parcel::Parcel;
use crate::serving::{Flag, Gate, NoMemory, serve_with_bells};
use ir_epochs::Looks;
use ir_links::Moments;

/// Turns until the flag is set, the gate does not let the node pass, or the turn's number is u64's
/// greatest. Where there is no memory for a turn it sets the flag and ends, and says so. A node
/// that finds nothing gives way, and does not sleep. For users of the library.
///
/// What comes back is the node that was given, after a list of turns.
pub fn serve<R: Moments<Parcel> + Looks<Parcel>, G: Gate, F: Flag>(
    rt: &R,
    node: Node,
    gate: &G,
    stop: &F,
) -> (Node, Option<NoMemory>)
    ensures turns { HasServed R.was_full R.was_empty R.looked (MayEnd F.was_set G.barred stop.now gate.now)
        node result.0 result.1 }
    ensures same { IsSameNode node result.0 }
{
    let bells = Bells::over(Vec::new(node.allocator()));
    serve_with_bells(rt, node, gate, stop, &bells)
}
