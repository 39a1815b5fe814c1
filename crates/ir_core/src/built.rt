ghost use Rattle.std.specs.Prelude.{◌≡◌, ◌≢◌, [], List, IfOk, IfErr, Some, None, Err, is_ok};
ghost use Rattle.ir_core.specs.declared.event.Event.TheVariants as event;
ghost use Rattle.ir_core.specs.declared.event.Step.TheVariants as step;
ghost use Rattle.ir_core.specs.{declared.event.Refused.TheVariants.NoMemory, declared.built.Install.Install};
ghost use Rattle.ir_core.specs.{Meaning.IsMade, History.plans, Shows.Shows};
ghost use Rattle.ir_core.specs.Opened.{IsOpenedWith, IsOpenRefusal, open_refused};
ghost use Rattle.ir_core.specs.Installed.{AreInstallsOf, AreInstallsWithPlans, AreBuiltFrom, ControlsOn};
ghost use Rattle.ir_core.specs.Installed.{IsPlainChange, IsNextInstall, IsInstallOf, install_of};
ghost use Rattle.ir_plan.specs.Building.{FromRoot};

use crate::event::{Event, OpenError, Refused, Reply, Step};
use crate::opening::{Opening, open_refusal};
use crate::world::World;
use ir_model::Kind;
use ir_plan::{Alone, Crew, LabelOrder, Plan};
use std::alloc::Global;

/// What an epoch's plan was built from: the order in which it is labelled, its kind and root, and for each link of the
/// network whether it was used: it was up and heeded. Where it kept the order of the epoch before, these are the nodes
/// by label; its root is then the first of them.
#[derive(Drop)]
pub struct Install {
    pub labels: LabelOrder,
    pub kind: Kind,
    pub root: u16,
    pub up: Vec<bool>,
    pub kept: Option<Vec<u16>>,
}

impl Install {
    /// What the plan of an epoch that is labelled depth first was built from. For users of the
    /// library.
    pub fn of(kind: Kind, root: u16, up: Vec<bool>) -> Install
        ensures { result ≡ install_of kind root up }
    {
        Install {
            labels: LabelOrder::DepthFirst,
            kind,
            root,
            up,
            kept: None,
        }
    }
}

/// What each epoch of a list of steps was built from, the first epoch first. Steps other than
/// installs, retirements and marks of links are passed over, and so are refused ones. Plans are
/// made on the thread that calls. Refused as `World::open` is; `NoMemory` also where a step is
/// refused for want of memory. Takes as long as `World::open`, and for each install as long as
/// `plan_up_by`. For users of the library.
pub fn installs(alloc: Global, opening: &Opening, steps: &[Step]) -> Result<Vec<Install>, OpenError>
    ensures built { IfOk result (λ v. AreInstallsOf opening.now steps.now v.items) }
    ensures accepted { IfOk result (λ _. open_refused opening.now ≡ None) }
    ensures refused { IfErr result (λ e. IsOpenRefusal opening.now e) }
{
    installs_by(&Alone, alloc, opening, steps)
}

/// What `installs` gives, the plans made by a crew, and refused as that is.
pub fn installs_by(
    crew: &impl Crew,
    alloc: Global,
    opening: &Opening,
    steps: &[Step],
) -> Result<Vec<Install>, OpenError>
    ensures built { IfOk result (λ v. AreInstallsOf opening.now steps.now v.items) }
    ensures accepted { IfOk result (λ _. open_refused opening.now ≡ None) }
    ensures refused { IfErr result (λ e. IsOpenRefusal opening.now e) }
{
    let (built, _) = installs_with_plans_by(crew, alloc, opening, steps)?;
    Ok(built)
}

/// What `installs_by` gives, and beside it the plans of the epochs, of which each was built from the
/// install at its place. Refused, and takes as long, as that is.
pub fn installs_with_plans_by(
    crew: &impl Crew,
    alloc: Global,
    opening: &Opening,
    steps: &[Step],
) -> Result<(Vec<Install>, Vec<Plan>), OpenError>
    ensures built { IfOk result (λ v. AreInstallsWithPlans opening.now steps.now v.0.items v.1.items) }
    ensures accepted { IfOk result (λ _. open_refused opening.now ≡ None) }
    ensures refused { IfErr result (λ e. IsOpenRefusal opening.now e) }
{
    if let Some(error) = open_refusal(opening) {
        return Err(error);
    }
    let mut world = opened(crew, alloc, opening)?;
    let mut built = first_install(alloc, &world, opening.kind, opening.root)?;
    for step in steps {
        let Ok(()) = control(crew, alloc, &mut world, *step, &mut built) else {
            return Err(OpenError::NoMemory);
        };
    }
    Ok((built, world.into_plans()))
}

/// The world of the empty history.
fn opened(crew: &impl Crew, alloc: Global, opening: &Opening) -> Result<World, OpenError>
    requires { open_refused opening.now ≡ None }
    ensures opened { IfOk result (λ w. IsOpenedWith opening.now w.opening) }
    ensures history { IfOk result (λ w. Shows [] w) }
    ensures refused { IfErr result (λ e. IsOpenRefusal opening.now e) }
{
    let Ok(copy) = opening.try_clone(alloc) else {
        return Err(OpenError::NoMemory);
    };
    World::open_by(crew, alloc, copy)
}

/// The install of the first epoch, over all links.
fn first_install(
    alloc: Global,
    world: &World,
    kind: Kind,
    root: u16,
) -> Result<Vec<Install>, OpenError>
    requires history { Shows [] world.now }
    requires made { IsMade (FromRoot world.now.opening.labels root) kind
        world.now.opening.topology (Some world.now.opening.first) }
    ensures built { IfOk result (λ v. AreBuiltFrom world.now.opening v.items (plans world.now.opening [])) }
    ensures refused { IfErr result (λ e. e ≡ OpenError.NoMemory) }
{
    world.invariant();
    let Ok(up) = world.used(alloc) else {
        return Err(OpenError::NoMemory);
    };
    let Ok(mut built) = Vec::with_capacity(alloc, 1) else {
        return Err(OpenError::NoMemory);
    };
    let labels = world.labels();
    match built.push(Install {
        labels,
        kind,
        root,
        up,
        kept: None,
    }) {
        Ok(()) => Ok(built),
        Err(_) => Err(OpenError::NoMemory),
    }
}

/// A step, if it is one of the controller's.
fn control(
    crew: &impl Crew,
    alloc: Global,
    world: &mut World,
    step: Step,
    built: &mut Vec<Install>,
) -> Result<(), OpenError>
    ensures { IfOk result (λ _. ControlsOn world.old step built.old.items world.new built.new.items) }
{
    match step {
        Step::Event(event) => control_event(crew, alloc, world, event, built),
        Step::Drain => Ok(()),
    }
}

/// An event, if it is one of the controller's.
fn control_event(
    crew: &impl Crew,
    alloc: Global,
    world: &mut World,
    event: Event,
    built: &mut Vec<Install>,
) -> Result<(), OpenError>
    ensures { IfOk result (λ _. ControlsOn world.old (step.Event event) built.old.items world.new built.new.items) }
{
    match event {
        Event::Install(kind, root) => {
            let next = next_install(alloc, world, world.keeps(), kind, root)?;
            install_next(crew, world, event, next, built)
        }
        Event::Renumber(kind, root) => {
            let next = next_install(alloc, world, false, kind, root)?;
            install_next(crew, world, event, next, built)
        }
        Event::Retire(floor) => change(crew, world, Event::Retire(floor)),
        Event::Down(link) => change(crew, world, Event::Down(link)),
        Event::Up(link) => change(crew, world, Event::Up(link)),
        Event::Avoid(link) => change(crew, world, Event::Avoid(link)),
        Event::Heed(link) => change(crew, world, Event::Heed(link)),
        Event::Inject(_, _)
        | Event::Learn(_)
        | Event::Take(_, _)
        | Event::Read(_, _)
        | Event::Act(_) => Ok(()),
    }
}

/// A change of the board that installs nothing.
fn change(crew: &impl Crew, world: &mut World, event: Event) -> Result<(), OpenError>
    requires { IsPlainChange event }
    ensures { IfOk result (λ _. (installs : List Install)
        → ControlsOn world.old (step.Event event) installs world.new installs) }
{
    let reply = world.apply_by(crew, event);
    match accepted(reply) {
        Ok(_) => Ok(()),
        Err(error) => Err(error),
    }
}

/// What the next epoch's plan is built from, over the links that are used.
fn next_install(
    alloc: Global,
    world: &World,
    keeps: bool,
    kind: Kind,
    root: u16,
) -> Result<Install, OpenError>
    ensures { IfOk result (IsNextInstall world.now keeps kind root) }
{
    let Ok(up) = world.used(alloc) else {
        return Err(OpenError::NoMemory);
    };
    let Ok(kept) = world.kept_order(alloc, keeps, kind) else {
        return Err(OpenError::NoMemory);
    };
    let labels = world.labels();
    Ok(Install {
        labels,
        kind,
        root,
        up,
        kept,
    })
}

/// An install of this epoch, if it is accepted.
fn install_next(
    crew: &impl Crew,
    world: &mut World,
    event: Event,
    next: Install,
    built: &mut Vec<Install>,
) -> Result<(), OpenError>
    requires next { IsInstallOf world.old event next }
    ensures { IfOk result (λ _. ControlsOn world.old (step.Event event) built.old.items world.new built.new.items) }
{
    let reply = world.apply_by(crew, event);
    let Ok(new) = accepted(reply) else {
        return Err(OpenError::NoMemory);
    };
    if !new {
        return Ok(());
    }
    let Ok(()) = built.push(next) else {
        return Err(OpenError::NoMemory);
    };
    Ok(())
}

/// Whether an event was accepted, unless memory was wanted.
fn accepted(reply: Result<Reply, Refused>) -> Result<bool, OpenError>
    ensures told { IfOk result (λ a. a ≡ is_ok reply) }
    ensures memory { IfOk result (λ _. reply ≢ Err NoMemory) }
{
    match reply {
        Ok(_) => Ok(true),
        Err(Refused::NoMemory) => Err(OpenError::NoMemory),
        Err(_) => Ok(false),
    }
}
