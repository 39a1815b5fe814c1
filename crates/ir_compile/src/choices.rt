//! One port for each label, of the several that it may take, such that the fewest intervals give the ports.

ghost use Rattle.std.specs.Prelude.{◌≡◌, ◌<◌, ℕ, List, Option, length, IfOk};
ghost use Rattle.ir_model.specs.{Compiled.IsCanonical};
ghost use Rattle.ir_model.proofs.Steps.{AreSteps, HaveRoundPorts};
ghost use Rattle.ir_compile.specs.{Rounds.RunOn};

use crate::round::{first_of_longest, label_at, plain_round};
use crate::row_of_ports;
use ir_lookup::Row;
use std::alloc::{AllocError, Global};

/// The canonical row of the ports by the first round with the fewest runs, going round from the
/// label after the own one. At each label begins a run of so many labels of one port. Conditions:
/// there are at least two labels, and the own one is a label. Each run but the own label's has a
/// label. A run that does not end the round does not end before the own label. A run that begins
/// within another one ends no sooner, as longest runs do. Takes O(n + l k), for at most k runs of a
/// round, and l places that the last run of the round from the label after the own one ends after
/// its end.
pub fn row_of_longest(
    alloc: Global,
    n: u16,
    own: u16,
    counts: &[u16],
    ports: &[u16],
) -> Result<Row, AllocError>
    requires two { 1 < n }
    requires own { own < n }
    requires steps { AreSteps n own counts.now }
    requires on { RunOn n own counts.now }
    requires ports { length ports.now ≡ n }
    ensures { IfOk result (λ row. (held : List (Option ℕ)) × HaveRoundPorts n own counts.now ports.now held
        × IsCanonical n own held row) }
{
    let start = label_at(n, own, first_of_longest(n, own, counts));
    let plain = plain_round(alloc, n, own, start, counts, ports)?;
    row_of_ports(alloc, n, own, plain.as_slice())
}
