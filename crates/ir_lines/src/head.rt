//! What the head of a table says of a label that comes with an epoch.

ghost use Rattle.std.specs.Prelude.{◌≡◌, ◌≤◌, length, slice_index};
ghost use Rattle.ir_lines.specs.Heads.{head_verdict};

/// What becomes of a packet at a table: it is forwarded by a look-up, it is at its destination, the table is of another
/// epoch, or no node has its label.
#[derive(Clone, Copy, Drop)]
pub enum HeadVerdict {
    Forward,
    Own,
    NoEpoch,
    NoLabel,
}

/// The verdict of a table's first line on a packet with an epoch and a label: first by the epoch, then by the own
/// label, then by the number of labels.
#[inline(always)]
pub fn head_verdict(line: &[u32], epoch: u32, label: u32) -> HeadVerdict
    requires { 16 ≤ length line.now }
    ensures { result ≡ head_verdict (slice_index line.now 0) (slice_index line.now 1) (slice_index line.now 2)
        epoch label }
{
    if line[0] != epoch {
        HeadVerdict::NoEpoch
    } else if label == line[2] {
        HeadVerdict::Own
    } else if label >= line[1] {
        HeadVerdict::NoLabel
    } else {
        HeadVerdict::Forward
    }
}
