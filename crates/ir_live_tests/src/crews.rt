//! Runs over the path a, b, c whose plans a crew makes: several threads, or the one that calls.

use crate::epochs::path;
use ir_core::{
    Event, Install, Kind, Opening, Played, Refused, Reply, Step, World, installs_by, play_by,
};
use ir_plan::{Alone, Crew, Several};
use std::alloc::Global;

/// A packet, an install, a change that is refused, and a drain.
const STEPS: [Step; 4] = [
    Step::Event(Event::Inject(0, 2)),
    Step::Event(Event::Install(Kind::Shortest, 0)),
    Step::Event(Event::Up(0)),
    Step::Drain,
];

/// The replies to the steps.
static REPLIES: [Result<Reply, Refused>; 4] = [
    Ok(Reply::Injected(0)),
    Ok(Reply::Installed(2)),
    Err(Refused::Same),
    Ok(Reply::Changed),
];

/// The opening of a run along the tree with root b.
fn opening(alloc: Global) -> Option<Opening> {
    Some(Opening::of(path(alloc)?, Kind::Tree, 1, 16, 4, 0))
}

/// Whether these are the replies, and the packet goes all the way.
fn is_run(played: &Played) -> bool {
    match played.world.packet(0) {
        Some(record) => {
            record.hops.as_slice() == [0, 1, 2].as_slice()
                && played.replies.as_slice() == REPLIES.as_slice()
        }
        None => false,
    }
}

/// Whether the run of the steps is so.
fn is_played(crew: &impl Crew, alloc: Global, opening: Opening) -> bool {
    match play_by(crew, alloc, opening, &STEPS) {
        Ok(played) => is_run(&played),
        Err(_) => false,
    }
}

/// Whether there are two epochs, the second of kind Shortest.
fn are_two(built: &[Install]) -> bool {
    match built {
        [_, second] => (second.kind, second.root) == (Kind::Shortest, 0),
        _ => false,
    }
}

/// Whether two such epochs are built.
fn is_built(crew: &impl Crew, alloc: Global, opening: &Opening) -> bool {
    match installs_by(crew, alloc, opening, &STEPS) {
        Ok(built) => are_two(built.as_slice()),
        Err(_) => false,
    }
}

/// Whether an install is answered, and the board of a change kept.
fn is_kept(crew: &impl Crew, world: &mut World) -> bool {
    let install = world.apply_by(crew, Event::Install(Kind::Compact, 2));
    let down = world.apply_by(crew, Event::Down(1));
    let answers = (Ok(Reply::Installed(2)), Ok(Reply::Changed));
    match world.board_versions().get(2) {
        Some(version) => {
            let board = version.board();
            (install, down) == answers && board.is_up(0) && !board.is_up(1)
        }
        None => false,
    }
}

/// Whether both are so in the world of the opening.
fn is_applied(crew: &impl Crew, alloc: Global, opening: Opening) -> bool {
    match World::open_by(crew, alloc, opening) {
        Ok(mut world) => is_kept(crew, &mut world),
        Err(_) => false,
    }
}

/// Whether all three are so by a crew.
fn are_so(crew: &impl Crew, alloc: Global) -> Option<bool> {
    let is_played = is_played(crew, alloc, opening(alloc)?);
    let is_built = is_built(crew, alloc, &opening(alloc)?);
    let is_applied = is_applied(crew, alloc, opening(alloc)?);
    Some(is_played && is_built && is_applied)
}

#[test]
fn runs_by_several_threads(rt: HostRuntime) {
    assert!(rt;
        are_so(
            &Several {
                rt: &rt,
                most: None
            },
            rt.alloc()
        ) == Some(true)
    );
}

#[test]
fn runs_by_the_thread_that_calls(rt: HostRuntime) {
    assert!(rt; are_so(&Alone, rt.alloc()) == Some(true));
}
