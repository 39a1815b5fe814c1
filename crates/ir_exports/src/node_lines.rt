//! The lines of a node's row, for the look-up in a kernel's packet path, as text and as bytes.
ghost use Rattle.std.specs.Prelude.{◌<◌, ◌≤◌, IfOk, string_bytes};
ghost use Rattle.ir_model.specs.Topology.{node_count};
ghost use Rattle.ir_exports.specs.{declared.TheConstants.MAX_LABELS, LinesText.{AreLinesBytes, IsLinesText, IsNodeTable}};

use ir_lines::{Owner, lines, table_bytes, table_text};
use ir_plan::Plan;
use std::alloc::{AllocError, Global};

/// The table of a node's row for an epoch, in words: that of `ir_lines::lines`.
fn node_table(alloc: Global, plan: &Plan, u: u16, epoch: u16) -> Result<Vec<u32>, AllocError>
    requires node { u < node_count plan.now.topology }
    requires few { node_count plan.now.topology ≤ MAX_LABELS }
    ensures { IfOk result (λ words. IsNodeTable plan.now u epoch words.items) }
{
    let row = plan.row(u);
    let labels = plan.nodes() as u16;
    let own = plan.label_of(u);
    let owner = Owner { epoch, labels, own };
    lines(alloc, owner, row)
}

/// The text of the lines of a node's row for an epoch, by which a kernel's packet path looks labels up: those of
/// `ir_lines::lines`, as `ir_lines::table_text` writes them. Condition: there are at most `MAX_LABELS` nodes. It is
/// refused for memory alone. Takes O(n log k), for n nodes and k starts.
pub fn lines_text(alloc: Global, plan: &Plan, u: u16, epoch: u16) -> Result<String, AllocError>
    requires node { u < node_count plan.now.topology }
    requires few { node_count plan.now.topology ≤ MAX_LABELS }
    ensures { IfOk result (λ text. IsLinesText plan.now u epoch (string_bytes text)) }
{
    let words = node_table(alloc, plan, u, epoch)?;
    table_text(alloc, words.as_slice())
}

/// The same lines as bytes, four for each word, the lowest first, as `ir_lines::table_bytes` writes them: 128 bytes a
/// line. Condition: there are at most `MAX_LABELS` nodes. They are refused for memory alone. Takes O(n log k), for n
/// nodes and k starts.
pub fn lines_bytes(alloc: Global, plan: &Plan, u: u16, epoch: u16) -> Result<Vec<u8>, AllocError>
    requires node { u < node_count plan.now.topology }
    requires few { node_count plan.now.topology ≤ MAX_LABELS }
    ensures { IfOk result (λ bytes. AreLinesBytes plan.now u epoch bytes.items) }
{
    let words = node_table(alloc, plan, u, epoch)?;
    table_bytes(alloc, words.as_slice())
}
