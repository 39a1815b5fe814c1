//! A run, what its epochs were installed with, the check of its trace, and a plan, by calls that take no handle.
ghost use Rattle.std.specs.Prelude.{◌≡◌};
ghost use Rattle.ir_model.specs.OfGraph.{topology_of_graph};
ghost use Rattle.ir_trace.specs.Checked.{AreInstalls};

use crate::networks::{PATH, graph_of, topology_of};
use ir_core::{Event, Install, Kind, Opening, Played, Record, Refused, Step, installs, play};
use ir_graph::Graph;
use ir_model::Detour;
use ir_plan::{Alone, Plan};
use ir_script::parse_live;
use ir_tables::Topology;
use ir_trace::{check_trace, check_trace_by, read_trace};
use std::alloc::Global;

/// A packet goes from a to c, and one from c to a by the plan of a second epoch; the last step is refused.
const STEPS: [Step; 5] = [
    Step::Event(Event::Inject(0, 2)),
    Step::Drain,
    Step::Event(Event::Install(Kind::Shortest, 1)),
    Step::Event(Event::Retire(1)),
    Step::Event(Event::Up(0)),
];

/// Whether a packet went from a to c over b.
fn went(record: &Record) -> bool {
    record.hops.as_slice() == [0, 1, 2].as_slice()
}

/// Whether this is the run of the steps.
fn is_run(played: Played) -> bool {
    let Played { world, replies } = played;
    let is_refused = replies.as_slice().last() == Some(&Err(Refused::Same));
    let records = world.into_records();
    match records.as_slice() {
        [record] => is_refused && went(record),
        _ => false,
    }
}

/// Whether a text is a trace over a graph that is sound by these installs, if a crew finds the same.
fn is_clean(
    alloc: Global,
    graph: &Graph,
    topology: &Topology,
    built: &[Install],
    text: &str,
) -> Option<bool>
    requires over { topology.now ≡ topology_of_graph graph.now }
    requires installs { AreInstalls topology.now built.now }
{
    let Ok(trace) = read_trace(alloc, text.as_bytes(), graph) else {
        return None;
    };
    let found = check_trace(alloc, topology, built, &trace);
    if check_trace_by(&Alone, alloc, topology, built, &trace) == found {
        Some(found == Ok(()))
    } else {
        None
    }
}

/// Whether a trace is sound by the installs of the steps over a graph, opened with the kind Tree.
fn is_checked_over(alloc: Global, graph: &Graph, topology: &Topology, text: &str) -> Option<bool>
    requires { topology.now ≡ topology_of_graph graph.now }
{
    let Ok(over) = topology.try_clone(alloc) else {
        return None;
    };
    let opening = Opening::of(over, Kind::Tree, 0, 16, 16, 0);
    match installs(alloc, &opening, &STEPS) {
        Ok(built) if built.len() == 2 => {
            is_clean(alloc, graph, topology, built.as_slice(), text)
        }
        _ => None,
    }
}

/// Whether it is over the path.
fn is_checked(alloc: Global, text: &str) -> Option<bool> {
    let graph = graph_of(alloc, &PATH)?;
    match Topology::of(alloc, &graph) {
        Ok(topology) => is_checked_over(alloc, &graph, &topology, text),
        Err(_) => None,
    }
}

/// Whether the steps are played over the path.
fn is_played(alloc: Global) -> Option<bool> {
    let topology = topology_of(alloc, &PATH)?;
    let opening = Opening::of(topology, Kind::Tree, 0, 16, 16, 0);
    match play(alloc, opening, &STEPS) {
        Ok(played) => Some(is_run(played)),
        Err(_) => None,
    }
}

#[test]
fn a_run_and_the_check_of_its_trace(rt: HostRuntime) {
    assert!(rt; is_played(rt.alloc()) == Some(true));
    let sound = is_checked(rt.alloc(), "trace 1\n0 1 a c 2 delivered a b c\n");
    let wrong = is_checked(rt.alloc(), "trace 1\n0 1 a c 1 delivered a b\n");
    assert!(rt; (sound, wrong) == (Some(true), Some(false)));
}

/// How many commands a script of a live run over a graph has.
fn commands_over(alloc: Global, graph: &Graph, topology: &Topology) -> Option<usize>
    requires { topology.now ≡ topology_of_graph graph.now }
{
    let text = b"inject a c\ninstall landmark b\n".as_slice();
    let detour = Detour {
        landmarks: 1,
        stretch: 300,
    };
    match parse_live(alloc, text, graph, topology, detour) {
        Ok(script) => Some(script.commands().len()),
        Err(_) => None,
    }
}

/// How many it has over the path.
fn commands(alloc: Global) -> Option<usize> {
    let graph = graph_of(alloc, &PATH)?;
    match Topology::of(alloc, &graph) {
        Ok(topology) => commands_over(alloc, &graph, &topology),
        Err(_) => None,
    }
}

/// How many labels the plan of the path has.
fn labels(alloc: Global) -> Option<usize> {
    let topology = topology_of(alloc, &PATH)?;
    match Plan::build(alloc, topology, Kind::Shortest, 0) {
        Ok(plan) => Some(plan.labels()),
        Err(_) => None,
    }
}

#[test]
fn a_plan_and_a_script(rt: HostRuntime) {
    assert!(rt; (labels(rt.alloc()), commands(rt.alloc())) == (Some(4), Some(2)));
}
