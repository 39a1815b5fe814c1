//! Membership in cyclic intervals, and rows of interval starts (Santoro and Khatib 1985).
#![tactic(auto)]

ghost use Rattle.std.specs.Prelude.{◌<◌, IsTrue, ◌↔◌};
ghost use Rattle.ir_model.specs.Interval.{InInterval};

mod halving;
mod row;

pub use row::Row;

// A row's word is the label of a start times this number, and its port.
pub(crate) const WORD_BASE: u32 = 65_536;

/// Whether the label `d` of `n` labels lies in the cyclic interval from `a` up to, and without, `b`: in `a..b` where
/// `a` is below `b`, and else in `a..n` or `0..b`. So the interval from a label up to itself has all labels.
/// For users of the library.
pub fn in_interval(n: u16, a: u16, b: u16, d: u16) -> bool
    requires from { a < n }
    requires to { b < n }
    requires label { d < n }
    ensures { IsTrue result ↔ InInterval n a b d }
{
    let _ = n;
    if a < b {
        a <= d && d < b
    } else {
        a <= d || d < b
    }
}
