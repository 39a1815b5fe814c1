//! The kinds of plans that words name, and how far landmark plans go round by words.
ghost use Rattle.std.specs.Prelude.{◌≡◌, ◌<◌, ◌≤◌, ◌*◌, ◌^◌, ℕ};
ghost use Rattle.ir_cli.specs.Kinds.{AreCompared, detour_of, is_landmark, kind_of, landmarks_for};

use crate::choices::DetourChoice;
use ir_model::{Detour, Kind};

/// A kind of plan, as a word names it.
#[derive(Clone, Copy, Debug, PartialEq, Eq)]
pub enum KindChoice {
    Tree,
    Shortest,
    Compact,
    Landmark,
}

impl KindChoice {
    /// Whether it is that of landmark plans.
    pub fn is_landmark(self) -> bool
        ensures { result ≡ is_landmark self }
    {
        match self {
            KindChoice::Landmark => true,
            KindChoice::Tree | KindChoice::Shortest | KindChoice::Compact => false,
        }
    }

    /// The kind of plans whose ways go round so far where they go by landmarks.
    pub fn kind(self, detour: Detour) -> Kind
        ensures { result ≡ kind_of self detour }
    {
        match self {
            KindChoice::Tree => Kind::Tree,
            KindChoice::Shortest => Kind::Shortest,
            KindChoice::Compact => Kind::Compact,
            KindChoice::Landmark => Kind::Landmark(detour),
        }
    }
}

/// The least number of landmarks of which four times the square is at least so many nodes, and at least one.
pub fn landmarks_for(nodes: usize) -> u16
    requires { nodes < 2 ^ 16 }
    ensures value { result ≡ landmarks_for nodes }
    ensures some { 0 < result }
    ensures enough { nodes ≤ 4 * result * result }
    ensures least { (k : ℕ) → 0 < k → nodes ≤ 4 * k * k → result ≤ k }
{
    let mut count: usize = 1;
    while 4 * count * count < nodes {
        count += 1;
    }
    count as u16
}

/// How far the ways of the landmark plans go round that `compare` compares, of so many nodes.
pub fn compared_detours(nodes: usize) -> (Detour, Detour, Detour)
    requires { nodes < 2 ^ 16 }
    ensures { AreCompared (landmarks_for nodes) result }
{
    let landmarks = landmarks_for(nodes);
    let first = Detour {
        landmarks,
        stretch: 150,
    };
    let second = Detour {
        landmarks,
        stretch: 200,
    };
    let third = Detour {
        landmarks,
        stretch: 300,
    };
    (first, second, third)
}

impl DetourChoice {
    /// How far the ways of plans of so many nodes may go round.
    pub fn detour(self, nodes: usize) -> Detour
        requires { nodes < 2 ^ 16 }
        ensures { result ≡ detour_of self nodes }
    {
        let landmarks = match self.landmarks {
            Some(count) => count as u16,
            None => landmarks_for(nodes),
        };
        Detour {
            landmarks,
            stretch: self.stretch,
        }
    }
}
