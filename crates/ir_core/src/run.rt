ghost use Rattle.std.specs.Prelude.{◌≡◌, IfOk, IfErr, None};
ghost use Rattle.ir_core.specs.{Opened.{IsOpenedWith, IsOpenRefusal, open_refused}, Run.IsPlayed};

use crate::event::{OpenError, Refused, Reply, Step};
use crate::opening::{Opening, open_refusal};
use crate::world::World;
use ir_plan::{Alone, Crew};
use std::alloc::Global;

/// A run: the world after it, and a reply for each step.
#[derive(Drop)]
pub struct Played {
    pub world: World,
    pub replies: Vec<Result<Reply, Refused>>,
}

/// Opens a world and plays all steps, the refused ones among them. Each reply is what the
/// definition of its event says of the accepted events before it, or its first refusal. The records
/// are those of the history, and each is sound. Its hops are one segment more than it has restamps,
/// at most as many as the opening allows, joined end to end. The epochs of segments rise, and each
/// is a prefix of the walk to the packet's destination that the full table of its one epoch
/// prescribes. The last one is all of it where the packet was delivered. Where the epoch's kind is
/// Shortest or Compact, it is then over the distance from where the segment began. A drop names the
/// cause that held. Where the opening allows no restamp, no Act has one, and each record is of one
/// epoch. Plans are made on the thread that calls. Refused as `World::open` is. Takes as long as
/// `World::open`, and for each step as long as `World::apply` or `World::drain`. For users of the
/// library.
pub fn play(alloc: Global, opening: Opening, steps: &[Step]) -> Result<Played, OpenError>
    ensures opened { IfOk result (λ p. IsOpenedWith opening p.world.opening) }
    ensures played { IfOk result (λ p. IsPlayed p.world.opening steps.now p.replies.items p.world) }
    ensures accepted { IfOk result (λ _. open_refused opening ≡ None) }
    ensures refused { IfErr result (λ e. IsOpenRefusal opening e) }
{
    play_by(&Alone, alloc, opening, steps)
}

/// The run that `play` gives, the plans made by a crew, and refused as that is.
pub fn play_by(
    crew: &impl Crew,
    alloc: Global,
    opening: Opening,
    steps: &[Step],
) -> Result<Played, OpenError>
    ensures opened { IfOk result (λ p. IsOpenedWith opening p.world.opening) }
    ensures played { IfOk result (λ p. IsPlayed p.world.opening steps.now p.replies.items p.world) }
    ensures accepted { IfOk result (λ _. open_refused opening ≡ None) }
    ensures refused { IfErr result (λ e. IsOpenRefusal opening e) }
{
    if let Some(error) = open_refusal(&opening) {
        return Err(error);
    }
    let Ok(mut replies) = Vec::with_capacity(alloc, steps.len()) else {
        return Err(OpenError::NoMemory);
    };
    let mut world = World::open_by(crew, alloc, opening)?;
    for step in steps {
        let reply = world.step(crew, *step);
        let Ok(()) = replies.push(reply) else {
            return Err(OpenError::NoMemory);
        };
    }
    world.records_are_sound();
    Ok(Played { world, replies })
}
