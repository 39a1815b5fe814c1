//! Openings that are refused, and installs.

use crate::networks::{Edge, HEAVY, PATH, topology_of};
use ir_core::{Event, Install, Kind, OpenError, Opening, Step, World, installs};
use ir_plan::LabelOrder;
use std::alloc::Global;
use std::test::Fail;

/// The edges of a network, a root, a capacity, a number of packets and one of restamps, with what a world is opened.
pub(crate) type Setting = (&'static [Edge], u16, usize, usize, u8);

/// The opening of a world along the tree, in depth-first numbers.
pub(crate) fn along_tree(alloc: Global, setting: &Setting) -> Option<Opening> {
    let (edges, root, capacity, max_packets, restamps) = *setting;
    match topology_of(alloc, edges) {
        Some(topology) => Some(Opening::of(
            topology,
            Kind::Tree,
            root,
            capacity,
            max_packets,
            restamps,
        )),
        None => None,
    }
}

/// Settings, and why there is no such world.
static OPENINGS: [(Setting, Option<OpenError>); 8] = [
    ((&[], 0, 16, 4096, 0), Some(OpenError::Empty)),
    (
        (&[("a", "a", 1), ("b", "b", 1)], 0, 16, 4096, 0),
        Some(OpenError::Disconnected),
    ),
    ((&PATH, 3, 0, 4096, 0), Some(OpenError::NoNode)),
    ((&PATH, 3, 16, 4096, 4), Some(OpenError::NoNode)),
    ((&PATH, 0, 0, 4096, 0), Some(OpenError::TooLarge)),
    ((&PATH, 0, 1, 4097, 0), Some(OpenError::TooLarge)),
    ((&PATH, 1, 16, 4096, 4), Some(OpenError::TooLarge)),
    ((&PATH, 1, 16, 4096, 3), None),
];

/// Why there is no world of a setting, where there is none.
fn refusal(alloc: Global, setting: &Setting) -> Option<Option<OpenError>> {
    let opening = along_tree(alloc, setting)?;
    match World::open(alloc, opening) {
        Ok(_) => Some(None),
        Err(error) => Some(Some(error)),
    }
}

#[test]
fn openings_refused(rt: HostRuntime) -> Result<(), Fail> {
    for (setting, why) in &OPENINGS {
        if refusal(rt.alloc(), setting) != Some(*why) {
            return Err("another refusal".into());
        }
    }
    Ok(())
}

/// What an epoch is built from: a kind, a root and a mark for each link.
type Built = (Kind, u16, &'static [bool]);

/// Steps over the path, of which two are refused.
fn path_steps() -> [Step; 8] {
    [
        Step::Event(Event::Install(Kind::Shortest, 0)),
        Step::Event(Event::Down(0)),
        Step::Event(Event::Install(Kind::Tree, 1)),
        Step::Event(Event::Inject(1, 2)),
        Step::Event(Event::Install(Kind::Tree, 3)),
        Step::Event(Event::Up(0)),
        Step::Drain,
        Step::Event(Event::Install(Kind::Tree, 2)),
    ]
}

/// The epochs that they install.
fn path_epochs() -> [Built; 3] {
    [
        (Kind::Tree, 1, &[true, true]),
        (Kind::Shortest, 0, &[true, true]),
        (Kind::Tree, 2, &[true, true]),
    ]
}

/// Steps round the heavy link.
fn heavy_steps() -> [Step; 3] {
    [
        Step::Event(Event::Down(0)),
        Step::Event(Event::Install(Kind::Tree, 0)),
        Step::Event(Event::Up(0)),
    ]
}

/// The epochs that they install.
fn heavy_epochs() -> [Built; 2] {
    [
        (Kind::Tree, 0, &[true, true, true, true, true, true, true]),
        (Kind::Tree, 0, &[false, true, true, true, true, true, true]),
    ]
}

/// Whether these epochs are so, one after another.
fn are_built(list: &[Install], epochs: &[Built]) -> bool {
    if list.len() != epochs.len() {
        return false;
    }
    for (i, (kind, root, up)) in epochs.iter().enumerate() {
        let epoch = &list[i];
        if epoch.kind != *kind || epoch.root != *root || epoch.up.as_slice() != *up {
            return false;
        }
    }
    true
}

/// Whether steps over an opening install these epochs and no other, or are refused for this.
fn is_installed_over(
    alloc: Global,
    opening: &Opening,
    steps: &[Step],
    wanted: Result<&[Built], OpenError>,
) -> bool {
    match installs(alloc, opening, steps) {
        Ok(list) => match wanted {
            Ok(epochs) => are_built(list.as_slice(), epochs),
            Err(_) => false,
        },
        Err(error) => match wanted {
            Ok(_) => false,
            Err(why) => error == why,
        },
    }
}

/// Whether they do in a setting, in depth-first numbers.
fn is_installed(
    alloc: Global,
    setting: &Setting,
    steps: &[Step],
    wanted: Result<&[Built], OpenError>,
) -> bool {
    match along_tree(alloc, setting) {
        Some(opening) => is_installed_over(alloc, &opening, steps, wanted),
        None => false,
    }
}

#[test]
fn installs_over_a_path(rt: HostRuntime) {
    let setting: Setting = (&PATH, 1, 16, 4096, 0);
    let steps = path_steps();
    let epochs = path_epochs();
    let is_so = is_installed(rt.alloc(), &setting, &steps, Ok(&epochs));
    assert!(rt; is_so);
}

#[test]
fn installs_round_a_heavy_link(rt: HostRuntime) {
    let setting: Setting = (&HEAVY, 0, 16, 4096, 0);
    let steps = heavy_steps();
    let epochs = heavy_epochs();
    let is_so = is_installed(rt.alloc(), &setting, &steps, Ok(&epochs));
    assert!(rt; is_so);
}

#[test]
fn no_installs_of_no_channel(rt: HostRuntime) {
    let setting: Setting = (&PATH, 1, 0, 4096, 0);
    let is_so = is_installed(rt.alloc(), &setting, &[], Err(OpenError::TooLarge));
    assert!(rt; is_so);
}

/// The install of a kind and root over two links that are up, in depth-first numbers.
fn install(alloc: Global, kind: Kind, root: u16) -> Option<Install> {
    Some(Install::of(kind, root, vec![in alloc; true; 2].ok()?))
}

#[test]
fn an_install_of_its_fields(rt: HostRuntime) {
    let both: [bool; 2] = [true, true];
    let is_so = match install(rt.alloc(), Kind::Shortest, 2) {
        Some(made) => {
            (made.kind, made.root, made.labels) == (Kind::Shortest, 2, LabelOrder::DepthFirst)
                && made.up.as_slice() == both.as_slice()
        }
        None => false,
    };
    assert!(rt; is_so);
}
