//! The steps of a run as a text.
ghost use Rattle.std.specs.Prelude.{◌≡◌};
ghost use Rattle.ir_model.specs.OfGraph.{topology_of_graph};

use crate::networks::{PATH, graph_of};
use ir_core::Event::{Act, Inject, Install, Learn, Retire, Take};
use ir_core::Step::{Drain, Event};
use ir_core::{Kind, Opening, Step, Way};
use ir_graph::Graph;
use ir_steps::tell_run;
use ir_tables::Topology;
use std::alloc::Global;

/// One packet is restamped on its way from a to c, and another is injected for the new epoch.
const STEPS: [Step; 9] = [
    Event(Inject(0, 2)),
    Event(Take(0, Way::Inbox)),
    Event(Act(0)),
    Event(Install(Kind::Shortest, 1)),
    Event(Learn(2)),
    Event(Retire(2)),
    Event(Act(0)),
    Event(Inject(2, 0)),
    Drain,
];

/// The numbers of their lines.
const LINES: [usize; 9] = [1, 2, 3, 4, 5, 6, 8, 9, 10];

const TOLD: &str = "\
steps 1
1 inject a c 0 1
2 take a inbox 0
3 act a 0 1 sent b
4 install shortest b 2
5 learn 2
6 retire 2
8 refused HandEmpty act a
9 inject c a 1 2
10 read a 2
10 read b 2
10 take b from a 0
10 act b 0 2 sent c
10 read c 2
10 take c inbox 1
10 act c 1 2 sent b
10 take c from b 0
10 act c 0 2 delivered
10 take b from c 1
10 act b 1 2 sent a
10 take a from b 1
10 act a 1 2 delivered
";

/// Whether the steps over a graph come to the text.
fn is_told_over(alloc: Global, graph: &Graph, topology: &Topology) -> Option<bool>
    requires { topology.now ≡ topology_of_graph graph.now }
{
    let Ok(over) = topology.try_clone(alloc) else {
        return None;
    };
    let opening = Opening::of(over, Kind::Tree, 0, 16, 16, 1);
    match tell_run(alloc, graph, topology, opening, &LINES, &STEPS) {
        Ok(told) => Some(told.text.as_str() == TOLD && told.replies.len() == STEPS.len()),
        Err(_) => None,
    }
}

/// Whether those over the path do.
fn is_told(alloc: Global) -> Option<bool> {
    let graph = graph_of(alloc, &PATH)?;
    match Topology::of(alloc, &graph) {
        Ok(topology) => is_told_over(alloc, &graph, &topology),
        Err(_) => None,
    }
}

#[test]
fn steps_are_told_with_their_replies(rt: HostRuntime) {
    assert!(rt; is_told(rt.alloc()) == Some(true));
}
