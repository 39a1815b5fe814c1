//! What words say of landmark plans.
ghost use Rattle.std.specs.{Prelude.{◌<◌, ◌≤◌, ◌^◌}, Option.ForSome};

/// How far the ways of landmark plans may go round, as words say it.
#[derive(Clone, Copy, Debug)]
pub struct DetourChoice {
    /// The most landmarks; where no word says it, `landmarks_for` the nodes.
    pub landmarks: Option<usize>,
    /// The most percent of the distance that a way weighs.
    pub stretch: u16,
    /// Whether a word says either.
    pub is_said: bool,
    pub ghost some: { ForSome landmarks (λ count. (0 < count) × (count < 2 ^ 16)) },
    pub ghost least: { 100 ≤ stretch },
    pub ghost most: { stretch ≤ 300 },
}
