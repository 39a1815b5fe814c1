//! A run of a script's steps with its text.
ghost use Rattle.std.specs.Prelude.{◌≡◌, IfOk, IfErr, None, length, string_bytes};
ghost use Rattle.ir_model.specs.{Graph.names, OfGraph.topology_of_graph};
ghost use Rattle.ir_core.specs.Opened.{IsOpenedWith, IsOpenRefusal, open_refused};
ghost use Rattle.ir_steps.specs.{Parts.{HasHistory, AddsStep}, Told.IsTold};

use crate::drain::drain;
use crate::line::push_line;
use crate::names::Network;
use ir_core::{OpenError, Opening, Refused, Reply, Step, World, open_refusal};
use ir_graph::Graph;
use ir_plan::{Alone, Crew};
use ir_tables::Topology;
use std::alloc::{AllocError, Global};

/// A run with its text: the world after it, a reply for each step, and the lines of what the steps came to.
#[derive(Drop)]
pub struct ToldRun {
    pub world: World,
    pub replies: Vec<Result<Reply, Refused>>,
    pub text: String,
}

/// A step of the script's line with this number, and its lines.
fn tell_step(
    crew: &impl Crew,
    world: &mut World,
    text: &mut String,
    net: &Network<'_>,
    line: usize,
    step: Step,
) -> Result<Result<Reply, Refused>, AllocError>
    requires over { net.now.topology.now ≡ world.old.opening.topology }
    requires history { HasHistory world.old }
    ensures { IfOk result (λ reply. AddsStep (names net.now.graph.now) line step reply world.old world.new
        (string_bytes text.old) (string_bytes text.new)) }
{
    match step {
        Step::Event(event) => {
            let reply = world.apply_by(crew, event);
            push_line(text, net, line, world, event, reply)?;
            Ok(reply)
        }
        Step::Drain => {
            drain(world, text, net, line)?;
            Ok(Ok(Reply::Changed))
        }
    }
}

/// Opens a world and plays all steps as `ir_core::play` does, and writes them: the text is `steps 1`
/// and a line for each event that a step comes to, with the reply of the world, beside the number of
/// the step's line in the script. Plans are made on the thread that calls. Refused as `World::open`
/// is, and for want of memory for the text. Conditions: the topology is that of the graph and of the
/// opening, and each step has the number of a line. For users of the library.
pub fn tell_run(
    alloc: Global,
    graph: &Graph,
    topology: &Topology,
    opening: Opening,
    lines: &[usize],
    steps: &[Step],
) -> Result<ToldRun, OpenError>
    requires opening { opening.topology ≡ topology.now }
    requires lines { length lines.now ≡ length steps.now }
    ensures opened { IfOk result (λ t. IsOpenedWith opening t.world.opening) }
    ensures told { IfOk result (λ t. IsTold (names graph.now) t.world.opening lines.now steps.now t.replies.items
        t.world (string_bytes t.text)) }
    ensures accepted { IfOk result (λ _. open_refused opening ≡ None) }
    ensures refused { IfErr result (λ e. IsOpenRefusal opening e) }
{
    tell_run_by(&Alone, alloc, graph, topology, opening, lines, steps)
}

/// What `tell_run` gives, the plans made by a crew, and refused as that is.
pub fn tell_run_by(
    crew: &impl Crew,
    alloc: Global,
    graph: &Graph,
    topology: &Topology,
    opening: Opening,
    lines: &[usize],
    steps: &[Step],
) -> Result<ToldRun, OpenError>
    requires opening { opening.topology ≡ topology.now }
    requires lines { length lines.now ≡ length steps.now }
    ensures opened { IfOk result (λ t. IsOpenedWith opening t.world.opening) }
    ensures told { IfOk result (λ t. IsTold (names graph.now) t.world.opening lines.now steps.now t.replies.items
        t.world (string_bytes t.text)) }
    ensures accepted { IfOk result (λ _. open_refused opening ≡ None) }
    ensures refused { IfErr result (λ e. IsOpenRefusal opening e) }
{
    if let Some(error) = open_refusal(&opening) {
        return Err(error);
    }
    let net = Network { graph, topology };
    let Ok(mut text) = String::from_str(alloc, "steps 1\n") else {
        return Err(OpenError::NoMemory);
    };
    let Ok(mut replies) = Vec::with_capacity(alloc, steps.len()) else {
        return Err(OpenError::NoMemory);
    };
    let mut world = World::open_by(crew, alloc, opening)?;
    for i in 0..steps.len() {
        let Ok(reply) = tell_step(crew, &mut world, &mut text, &net, lines[i], steps[i]) else {
            return Err(OpenError::NoMemory);
        };
        let Ok(()) = replies.push(reply) else {
            return Err(OpenError::NoMemory);
        };
    }
    world.records_are_sound();
    Ok(ToldRun {
        world,
        replies,
        text,
    })
}
