//! How many nodes change, and how many starts.
ghost use Rattle.std.specs.Prelude.{◌≡◌, ◌*◌};
ghost use Rattle.ir_patches.specs.DiffText.{is_changed, is_relabelled};
ghost use Rattle.ir_patches.specs.Sides.{AreAtMost, changes_held, counts_with};

use crate::rows::NodeChanges;

/// How many nodes change, how many of these get another label, and how many starts are removed and put.
#[derive(Clone, Copy)]
pub struct Counts {
    pub changed: usize,
    pub relabelled: usize,
    pub removed: usize,
    pub put: usize,
}

/// Whether the label of a node is another one.
fn is_relabelled(change: &NodeChanges) -> bool
    ensures { result ≡ is_relabelled (changes_held change.now) }
{
    change.was != change.label
}

/// Whether its label or its row is another one.
pub fn is_changed(change: &NodeChanges) -> bool
    ensures { result ≡ is_changed (changes_held change.now) }
{
    is_relabelled(change) || !change.row.removed.is_empty() || !change.row.put.is_empty()
}

/// Counts what one node more changes.
pub fn counted(counts: Counts, change: &NodeChanges) -> Counts
    requires { AreAtMost counts (32768 * 32768) }
    ensures { result ≡ counts_with counts (changes_held change.now) }
{
    Counts {
        changed: counts.changed + usize::from(is_changed(change)),
        relabelled: counts.relabelled + usize::from(is_relabelled(change)),
        removed: counts.removed + change.row.removed.len(),
        put: counts.put + change.row.put.len(),
    }
}
