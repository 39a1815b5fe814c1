//! Calls for users of the library: the commands of a live run, and lines by number.
ghost use Rattle.std.specs.Prelude.{◌≡◌, ◌<◌, Some, Ok, length, IfOk, IfErr, slice_get};
ghost use Rattle.ir_model.specs.{Graph.names, OfGraph.topology_of_graph, Text.lines};
ghost use Rattle.ir_script.specs.Script.{live_listing_of, ScriptTold};

use crate::fault::ScriptError;
use crate::script::{Script, parse};
use ir_core::Command;
use ir_graph::Graph;
use ir_model::Detour;
use ir_tables::Topology;
use std::alloc::Global;

impl<T> Script<T> {
    /// The number of the line of one of them. Condition: `place` is below the number of steps.
    pub fn line(&self, place: usize) -> usize
        requires { place < length self.now.steps.items }
        ensures { slice_get self.now.lines.items place ≡ Some result }
    {
        self.lines()[place]
    }
}

impl Script<Command> {
    /// The commands of a live run's script, in order: what `steps` gives.
    pub fn commands(&self) -> &[Command]
        ensures commands { result.now ≡ self.now.steps.items }
        ensures numbered { length self.now.steps.items ≡ length self.now.lines.items }
    {
        self.steps()
    }
}

/// The commands that a script of a live run names, each with the number of its line, or the
/// script's first faulty line. A line is one of `inject`, `down`, `up`, `avoid`, `heed`, `install`,
/// `retire` and `drain`, as for `parse_script`; one that begins with `learn`, `take`, `read` or `act` is a
/// `BadCommand`, whatever follows. Faults and their order are those of `parse_script`. Condition:
/// the topology is that of the graph.
pub fn parse_live(
    alloc: Global,
    text: &[u8],
    graph: &Graph,
    topology: &Topology,
    detour: Detour,
) -> Result<Script<Command>, ScriptError>
    requires { topology.now ≡ topology_of_graph graph.now }
    ensures parsed { IfOk result (λ s. live_listing_of detour (names graph.now) topology.now (lines text.now)
        ≡ Ok (record { steps = s.steps.items; lines = s.lines.items })) }
    ensures fault { IfErr result (λ e. ScriptTold e
        (live_listing_of detour (names graph.now) topology.now (lines text.now))) }
{
    parse(alloc, text, graph, topology, detour)
}
