//! Ports by label as the fewest ranges of labels.
ghost use Rattle.std.specs.Prelude.{◌≡◌, ◌<◌, ◌≤◌, IfOk, Some, length};
ghost use Rattle.ir_model.specs.Compiled.{port_to};
ghost use Rattle.ir_prefix.specs.Ranges.{AreRangesApart, IsFewestRanges, TellsPorts, ranges_of};
ghost use Rattle.ir_prefix.specs.RangeRuns.{EndsRun};

use std::alloc::{AllocError, Global};

/// Labels in a row, from the first to the last of them, and the port to each.
#[derive(Clone, Copy, Debug, PartialEq, Eq)]
pub struct LabelRange {
    pub from: u16,
    pub to: u16,
    pub port: u16,
}

/// The ranges of a node, given its port to each label, none to its own. Each label with a port is
/// in exactly one range, which has this port; a label without one is in none. They ascend, two that
/// touch have different ports, and no list of ranges that gives the ports is shorter. Condition:
/// labels are numbers of 16 bits. It is refused for memory alone. Takes O(n), for n labels.
pub fn label_ranges(alloc: Global, ports: &[Option<u16>]) -> Result<Vec<LabelRange>, AllocError>
    requires { length ports.now ≤ 65536 }
    ensures ranges { IfOk result (λ set. set.items ≡ ranges_of ports.now) }
    ensures tells { IfOk result (λ set. TellsPorts ports.now set.items) }
    ensures apart { IfOk result (λ set. AreRangesApart set.items) }
    ensures fewest { IfOk result (λ set. IsFewestRanges ports.now (length set.items)) }
    ensures few { IfOk result (λ set. length set.items ≤ length ports.now) }
{
    let mut set = Vec::new(alloc);
    let mut label = 0;
    while label < ports.len() {
        match ports[label] {
            None => label += 1,
            Some(port) => {
                let end = run_end(ports, label, port);
                let range = LabelRange {
                    from: label as u16,
                    to: (end - 1) as u16,
                    port,
                };
                let Ok(()) = set.push(range) else {
                    return Err(AllocError);
                };
                label = end;
            }
        }
    }
    Ok(set)
}

// Where the labels from one on that have its port end: the first label with another port or none,
// or that after the last.
fn run_end(ports: &[Option<u16>], label: usize, port: u16) -> usize
    requires label { label < length ports.now }
    requires port { port_to ports.now label ≡ Some port }
    ensures { EndsRun ports.now label port result }
{
    for end in label + 1..ports.len() {
        if ports[end] != Some(port) {
            return end;
        }
    }
    ports.len()
}
