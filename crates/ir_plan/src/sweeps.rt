//! Sweeps that shorten a tour by turning stretches of it (Croes 1958).
ghost use Rattle.std.specs.Prelude.{◌≡◌, ◌<◌, ◌+◌, All, length, false};
ghost use Rattle.ir_plan.specs.Tour.{is_shorter, shortened, swept, tried, tried_from, turned};
ghost use Rattle.ir_plan.specs.Distances.{far_between};

use crate::MOST_SWEEPS;
use crate::distances::Distances;

/// Shortens the closed tour through nodes in their order by sweeps, until one changes nothing, or
/// for `MOST_SWEEPS`. The first node stays the first.
pub fn shorten(far: &Distances, order: &mut [u16])
    requires { All (λ v. v < far.now.nodes) order.old }
    ensures { order.new ≡ shortened (far_between far.now.rows.items) 16 order.old }
{
    for done in 0..MOST_SWEEPS {
        if !sweep(far, order) {
            break;
        }
    }
}

// Turns each stretch after the first node where that makes the tour shorter, by its first place and then by its last.
// Returns whether it turned one.
fn sweep(far: &Distances, order: &mut [u16]) -> bool
    requires { All (λ v. v < far.now.nodes) order.old }
    ensures swept { order.new ≡ swept (far_between far.now.rows.items) order.old }
    ensures same { result ≡ false → order.new ≡ order.old }
{
    let mut turned = false;
    let places = order.len();
    for from in 1..places {
        if sweep_from(far, order, from) {
            turned = true;
        }
    }
    turned
}

// Turns each stretch from a place on where that makes the tour shorter, and returns whether it turned one.
fn sweep_from(far: &Distances, order: &mut [u16], from: usize) -> bool
    requires nodes { All (λ v. v < far.now.nodes) order.old }
    requires behind { 0 < from }
    requires inside { from < length order.old }
    ensures tried { order.new ≡ tried_from (far_between far.now.rows.items) order.old from }
    ensures same { result ≡ false → order.new ≡ order.old }
{
    let mut turned = false;
    let places = order.len();
    for to in from + 1..places {
        if turn_shorter(far, order, from, to) {
            turned = true;
        }
    }
    turned
}

// Turns the stretch from one place to another where that makes the tour shorter, and returns whether it did.
fn turn_shorter(far: &Distances, order: &mut [u16], from: usize, to: usize) -> bool
    requires nodes { All (λ v. v < far.now.nodes) order.old }
    requires behind { 0 < from }
    requires some { from < to }
    requires inside { to < length order.old }
    ensures tried { order.new ≡ tried (far_between far.now.rows.items) from order.old to }
    ensures same { result ≡ false → order.new ≡ order.old }
{
    if !gets_shorter(far, order, from, to) {
        return false;
    }
    turn(order, from, to);
    true
}

// Whether the tour gets shorter where the stretch from one place to another is turned.
fn gets_shorter(far: &Distances, order: &[u16], from: usize, to: usize) -> bool
    requires nodes { All (λ v. v < far.now.nodes) order.now }
    requires behind { 0 < from }
    requires some { from < to }
    requires inside { to < length order.now }
    ensures { result ≡ is_shorter (far_between far.now.rows.items) order.now from to }
{
    let next = if to + 1 < order.len() { to + 1 } else { 0 };
    let (before, first) = (order[from - 1], order[from]);
    let (last, behind) = (order[to], order[next]);
    let now = far.between(before, first) as u32 + far.between(last, behind) as u32;
    let then = far.between(before, last) as u32 + far.between(first, behind) as u32;
    then < now
}

// Turns the stretch from one place to another.
fn turn(order: &mut [u16], from: usize, to: usize)
    requires some { from < to }
    requires inside { to < length order.old }
    ensures { order.new ≡ turned order.old from to }
{
    order[from..to + 1].reverse();
}
